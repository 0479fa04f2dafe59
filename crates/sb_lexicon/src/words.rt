//! The words of which the name of an arithmetic type is made (C99 6.7.2 paragraph 2).
ghost use Rattle.std.specs.Prelude.{◌≡◌, ◌<◌, ◌&&◌, Some, None, if◌then◌else◌};
ghost use Rattle.sb_lexicon.specs.declared.words.Length.TheVariants as lengths;
ghost use Rattle.sb_lexicon.specs.SpecifierReaders as reader;
ghost use Rattle.sb_lexicon.specs.Words as spec;

use sb_sign::Keyword;

#[derive(Clone, Copy)]
pub enum Signedness {
    Unsaid,
    Signed,
    Unsigned,
}

#[derive(Clone, Copy)]
pub enum Length {
    Unsaid,
    Short,
    Long,
    LongLong,
}

#[derive(Clone, Copy)]
pub enum Kind {
    Unsaid,
    Void,
    Bool,
    Char,
    Int,
}

/// The words of a type so far, in any order.
#[derive(Clone, Copy)]
pub struct TypeWords {
    pub sign: Signedness,
    pub length: Length,
    pub kind: Kind,
}

/// Whether a word of a kind may stand with a sign or a length.
fn is_int_or_none(kind: Kind) -> bool
    ensures { result ≡ spec.is_int_or_none kind }
{
    matches!(kind, Kind::Unsaid | Kind::Int)
}

fn may_be_signed(kind: Kind) -> bool
    ensures { result ≡ spec.may_be_signed kind }
{
    matches!(kind, Kind::Unsaid | Kind::Int | Kind::Char)
}

/// The length of a word before which `long` is put.
fn longer(length: Length) -> Option<Length>
    ensures { result ≡ spec.longer length }
{
    match length {
        Length::Unsaid => Some(Length::Long),
        Length::Long => Some(Length::LongLong),
        _ => None,
    }
}

fn shortened(length: Length) -> Option<Length>
    ensures { result ≡ (if spec.is_no_length length then Some lengths.Short else None) }
{
    match length {
        Length::Unsaid => Some(Length::Short),
        _ => None,
    }
}

fn is_no_sign(sign: Signedness) -> bool
    ensures { result ≡ spec.is_no_sign sign }
{
    matches!(sign, Signedness::Unsaid)
}

fn is_no_length(length: Length) -> bool
    ensures { result ≡ spec.is_no_length length }
{
    matches!(length, Length::Unsaid)
}

fn is_no_kind(kind: Kind) -> bool
    ensures { result ≡ spec.is_no_kind kind }
{
    matches!(kind, Kind::Unsaid)
}

/// The number of a type of integers by that of the signed one of its length.
fn integer_by(number: u8, sign: Signedness) -> u8
    requires { number < 100 }
    ensures { result ≡ spec.integer_by number sign }
{
    match sign {
        Signedness::Unsigned => number + 1,
        _ => number,
    }
}

fn number_of_length(length: Length) -> u8
    ensures number { result ≡ spec.number_of_length length }
    ensures small { result < 100 }
{
    match length {
        Length::Short => 5,
        Length::Unsaid => 7,
        Length::Long => 9,
        Length::LongLong => 11,
    }
}

fn char_by(sign: Signedness) -> u8
    ensures { result ≡ spec.char_by sign }
{
    match sign {
        Signedness::Unsaid => 2,
        Signedness::Signed => 3,
        Signedness::Unsigned => 4,
    }
}

impl TypeWords {
    /// No word.
    pub fn none() -> TypeWords
        ensures { result ≡ spec.no_words }
    {
        TypeWords {
            sign: Signedness::Unsaid,
            length: Length::Unsaid,
            kind: Kind::Unsaid,
        }
    }

    fn with_kind(self, may: bool, kind: Kind) -> Option<TypeWords>
        ensures { result ≡ spec.with_kind may kind self }
    {
        if is_no_kind(self.kind) && may {
            Some(TypeWords {
                sign: self.sign,
                length: self.length,
                kind,
            })
        } else {
            None
        }
    }

    fn with_sign(self, sign: Signedness) -> Option<TypeWords>
        ensures { result ≡ spec.with_sign sign self }
    {
        if is_no_sign(self.sign) && may_be_signed(self.kind) {
            Some(TypeWords {
                sign,
                length: self.length,
                kind: self.kind,
            })
        } else {
            None
        }
    }

    fn lengthened(self, length: Option<Length>) -> Option<TypeWords>
        ensures { result ≡ spec.lengthened length self }
    {
        let length = length?;
        if is_int_or_none(self.kind) {
            Some(TypeWords {
                sign: self.sign,
                length,
                kind: self.kind,
            })
        } else {
            None
        }
    }

    /// With one more word, where some type has all of them.
    pub fn put(self, word: Keyword) -> Option<TypeWords>
        ensures { result ≡ spec.put word self }
    {
        match word {
            Keyword::Void => {
                self.with_kind(
                    is_no_sign(self.sign) && is_no_length(self.length),
                    Kind::Void,
                )
            }
            Keyword::Bool => {
                self.with_kind(
                    is_no_sign(self.sign) && is_no_length(self.length),
                    Kind::Bool,
                )
            }
            Keyword::Char => self.with_kind(is_no_length(self.length), Kind::Char),
            Keyword::Int => self.with_kind(true, Kind::Int),
            Keyword::Signed => self.with_sign(Signedness::Signed),
            Keyword::Unsigned => self.with_sign(Signedness::Unsigned),
            Keyword::Short => self.lengthened(shortened(self.length)),
            Keyword::Long => self.lengthened(longer(self.length)),
            _ => None,
        }
    }

    /// The number of the type: `void`, `_Bool`, `char`, `signed char`, `unsigned char`, and then `short`, `int`,
    /// `long` and `long long`, each signed and unsigned, from 0.
    pub fn number(self) -> u8
        ensures { result ≡ spec.number_of_words self }
    {
        match self.kind {
            Kind::Void => 0,
            Kind::Bool => 1,
            Kind::Char => char_by(self.sign),
            _ => integer_by(number_of_length(self.length), self.sign),
        }
    }

    /// Whether `double` and `_Complex` may follow: `long` alone, or no word.
    pub fn may_be_floating(self) -> bool
        ensures { result ≡ (spec.is_no_sign self.sign
            && (reader.is_only_long self.length && spec.is_no_kind self.kind)) }
    {
        is_no_sign(self.sign) && matches!(self.length, Length::Long) && is_no_kind(self.kind)
    }
}
