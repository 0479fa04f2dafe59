//! The steps that readers are made of, and why they stop.
ghost use Rattle.std.specs.Prelude.{◌≡◌, ◌≤◌, drop, length};
ghost use Rattle.sb_parse.specs.Parser.{taken, taken_as, token};
ghost use Rattle.sb_lexicon.specs.declared.reading.ReadFault.TheVariants.{Memory};
ghost use Rattle.sb_lexicon.specs.Lexicon as spec;
ghost use Rattle.sb_lexicon.specs.Meaning.{meant, feature_number, stop_number, Gives, StopsAt};
ghost use Rattle.sb_lexicon.specs.Tokens as reader;

use crate::lexicon::{Lexicon, is_keyword, is_mark, is_type_name, name_of};
use sb_base::{Name, Place, Token};
use sb_sign::{Keyword, Mark};
use std::alloc::{AllocError, AllocFailed};

/// A feature that the language read here leaves out.
#[derive(Clone, Copy)]
pub enum Feature {
    Floating,
    Union,
    BitField,
    FunctionPointer,
    VariableArray,
    VariableArguments,
    Volatile,
    Complex,
    OldDefinition,
    BackwardGoto,
    GotoIntoBlock,
    PointerCast,
    NumberCast,
    StructByValue,
    Designated,
    CompoundLiteral,
}

/// Why no text goes on with a token.
#[derive(Clone, Copy)]
pub enum Reason {
    /// No text at all does.
    Unexpected,
    /// Only a deeper one does.
    TooDeep,
    /// Only one with this feature does.
    Feature(Feature),
    /// Only other arguments than the annotation takes do.
    Arguments,
    /// The token shows that the argument that began so many tokens before is of another kind.
    ArgumentBefore(u8),
    /// A word is no annotation.
    UnknownAnnotation,
    /// The token shows that the word before it is no annotation.
    UnknownAnnotationBefore,
    /// An annotation may not stand there.
    Misplaced,
    /// The token shows that the annotation so many tokens before may not stand there.
    MisplacedBefore(usize),
    /// A parameter too many begins.
    TooManyParameters,
}

/// Why tokens were not read.
#[derive(Clone, Copy)]
pub enum ReadFault {
    /// No text goes on so: this many tokens are left from the first that does not fit, 0 at the end.
    Refused { reason: Reason, left: usize },
    Memory,
}

impl From<AllocError> for ReadFault {
    ghost use Rattle.std.specs.Prelude.{◌≡◌};
    ghost use Rattle.sb_lexicon.specs.declared.reading.ReadFault.TheVariants.{Memory};

    ghost from_gives = { λ _ e. e ≡ Memory };

    fn from(_e: AllocError) -> ReadFault {
        ReadFault::Memory
    }
}

impl<T: Drop> From<AllocFailed<T>> for ReadFault {
    ghost use Rattle.std.specs.Prelude.{◌≡◌};
    ghost use Rattle.sb_lexicon.specs.declared.reading.ReadFault.TheVariants.{Memory};

    ghost from_gives = { λ _ e. e ≡ Memory };

    fn from(_e: AllocFailed<T>) -> ReadFault {
        ReadFault::Memory
    }
}

impl ReadFault {
    /// A token is missing.
    pub fn at_end() -> ReadFault
        ensures { StopsAt reader.unexpected 0 result }
    {
        ReadFault::Refused {
            reason: Reason::Unexpected,
            left: 0,
        }
    }

    /// The first token does not fit, or one is missing.
    pub fn unexpected(tokens: &[Token]) -> ReadFault
        ensures { StopsAt reader.unexpected (length tokens.now) result }
    {
        ReadFault::Refused {
            reason: Reason::Unexpected,
            left: tokens.len(),
        }
    }

    /// There is no room for what the first token begins.
    pub fn too_deep(tokens: &[Token]) -> ReadFault
        ensures { StopsAt reader.too_deep (length tokens.now) result }
    {
        ReadFault::Refused {
            reason: Reason::TooDeep,
            left: tokens.len(),
        }
    }

    /// What the first token begins is left out.
    pub fn lacks(feature: Feature, tokens: &[Token]) -> ReadFault
        ensures { StopsAt (reader.lacks (feature_number feature)) (length tokens.now) result }
    {
        ReadFault::Refused {
            reason: Reason::Feature(feature),
            left: tokens.len(),
        }
    }

    /// The first token does not fit, for this reason.
    pub fn at(reason: Reason, tokens: &[Token]) -> ReadFault
        ensures { StopsAt (stop_number reason) (length tokens.now) result }
    {
        ReadFault::Refused {
            reason,
            left: tokens.len(),
        }
    }
}

/// What was read, and the tokens after it.
#[derive(Drop)]
pub struct Read<'a, T> {
    pub value: T,
    pub rest: &'a [Token],
}

/// What the token before `rest` gives, which has to be something.
pub fn take<'a, T>(value: Option<T>, rest: &'a [Token]) -> Result<Read<'a, T>, ReadFault>
    ensures { Gives (taken_as reader.unexpected value rest.now) result }
{
    match value {
        Some(value) => Ok(Read { value, rest }),
        None => Err(ReadFault::Refused {
            reason: Reason::Unexpected,
            left: rest.len() + 1,
        }),
    }
}

/// The next token, which has to be this punctuator.
pub fn take_mark<'a>(
    lexicon: &Lexicon,
    mark: Mark,
    tokens: &'a [Token],
) -> Result<Read<'a, Token>, ReadFault>
    ensures { Gives (token reader.unexpected (spec.is_mark (meant lexicon.now) mark) tokens.now)
        result }
{
    match tokens.split_first() {
        Some((first, rest)) if is_mark(lexicon, mark, first) => Ok(Read {
            value: *first,
            rest,
        }),
        _ => Err(ReadFault::unexpected(tokens)),
    }
}

/// The next token, which has to be this keyword.
pub fn take_keyword<'a>(
    lexicon: &Lexicon,
    keyword: Keyword,
    tokens: &'a [Token],
) -> Result<Read<'a, Token>, ReadFault>
    ensures { Gives (token reader.unexpected (spec.is_keyword (meant lexicon.now) keyword)
        tokens.now) result }
{
    match tokens.split_first() {
        Some((first, rest)) if is_keyword(lexicon, keyword, first) => Ok(Read {
            value: *first,
            rest,
        }),
        _ => Err(ReadFault::unexpected(tokens)),
    }
}

fn member_of(lexicon: &Lexicon, token: &Token) -> Option<(Name, Place)>
    ensures { result ≡ reader.member_of (meant lexicon.now) token.now }
{
    let name = name_of(lexicon, token)?;
    Some((name, token.place))
}

/// The next token, which has to be the name of a member.
pub fn take_member<'a>(
    lexicon: &Lexicon,
    tokens: &'a [Token],
) -> Result<Read<'a, (Name, Place)>, ReadFault>
    ensures { Gives (taken reader.unexpected (reader.member_of (meant lexicon.now)) tokens.now)
        result }
{
    match tokens.split_first() {
        Some((token, rest)) => take(member_of(lexicon, token), rest),
        None => Err(ReadFault::at_end()),
    }
}

/// The next token, which has to be the name of a type.
pub fn take_type_name<'a>(
    lexicon: &Lexicon,
    tokens: &'a [Token],
) -> Result<Read<'a, Token>, ReadFault>
    ensures { Gives (token reader.unexpected (spec.is_type_name (meant lexicon.now)) tokens.now)
        result }
{
    match tokens.split_first() {
        Some((first, rest)) if is_type_name(lexicon, first) => Ok(Read {
            value: *first,
            rest,
        }),
        _ => Err(ReadFault::unexpected(tokens)),
    }
}

/// The tokens from a place on.
pub fn tokens_from(tokens: &[Token], next: usize) -> &[Token]
    requires { next ≤ length tokens.now }
    ensures { result.now ≡ drop next tokens.now }
{
    &tokens[next..]
}
