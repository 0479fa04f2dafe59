//! What tokens are to annotations: tests of one token, and of the next one.
ghost use Rattle.std.specs.Prelude.{◌≡◌, ◌&&◌, ◌||◌, not};
ghost use Rattle.sb_lexicon.specs.Lexicon as lex;
ghost use Rattle.sb_lexicon.specs.Meaning.{meant, Gives, GivesAs};
ghost use Rattle.sb_lexicon.specs.Tokens as expr;
ghost use Rattle.sb_parse.specs.Parser.{at_next, taken, token as next};
ghost use Rattle.sb_sal.specs.Meaning.{plain_head};
ghost use Rattle.sb_sal.specs.Notes as notes;
ghost use Rattle.sb_sal.specs.Readers as reader;
ghost use Rattle.sb_sal.specs.Spellings as spec;

use crate::bearer::Bearer;
use crate::spelling::may_stand_by;
use sb_base::{Name, Place, Token};
use sb_lexicon::{
    Lexicon, Read, ReadFault, arguments_of, begins_note, binary_at, is_assignment, is_listed,
    is_mark, is_suffix, is_unlisted, name_of, word_of,
};
use sb_operand::begins_expr;
use sb_sign::{Arguments, Mark, mark_of};

/// The name of an annotation, where it stands, and which arguments it takes.
#[derive(Clone, Copy)]
pub(crate) struct Head {
    pub(crate) name: Name,
    pub(crate) place: Place,
    pub(crate) arguments: Arguments,
}

/// Whether a token is the word `Mem`.
fn is_mem(lexicon: &Lexicon, token: &Token) -> bool
    ensures { result ≡ spec.is_mem (meant lexicon.now) token.now }
{
    name_of(lexicon, token).is_some() && word_of(lexicon, *token) == b"Mem".as_slice()
}

/// Whether an annotation may stand on a declaration of a kind.
pub fn may_stand(lexicon: &Lexicon, bearer: Bearer, token: &Token) -> bool
    ensures { result ≡ spec.may_stand (meant lexicon.now) bearer token.now }
{
    may_stand_by(bearer, word_of(lexicon, *token))
}

/// Whether a token is an annotation without arguments.
pub fn is_bare(lexicon: &Lexicon, token: &Token) -> bool
    ensures { result ≡ reader.is_bare (meant lexicon.now) token.now }
{
    match arguments_of(lexicon, token) {
        Some(arguments) => matches!(arguments, Arguments::Nothing),
        None => false,
    }
}

/// The name that a token is, unless it is that of an annotation.
pub(crate) fn place_name(lexicon: &Lexicon, token: &Token) -> Option<Name>
    ensures { result ≡ notes.place_name (meant lexicon.now) token.now }
{
    if is_listed(lexicon, token) {
        None
    } else {
        name_of(lexicon, token)
    }
}

/// Whether a token is an operator between operands, other than a comma.
fn is_infix(lexicon: &Lexicon, token: &Token) -> bool
    ensures { result ≡ reader.is_infix (meant lexicon.now) token.now }
{
    match mark_of(lexicon.names, token) {
        Some(mark) => binary_at(mark).is_some() && !is_mark(lexicon, Mark::Comma, token),
        None => false,
    }
}

/// Whether an expression that is a location goes on with a token.
fn continues(lexicon: &Lexicon, token: &Token) -> bool
    ensures { result ≡ reader.continues (meant lexicon.now) token.now }
{
    is_suffix(lexicon, token)
        || is_infix(lexicon, token)
        || is_mark(lexicon, Mark::Question, token)
        || is_assignment(lexicon, token)
}

/// By what the tokens in an annotation's parentheses are read.
pub(crate) fn inside<'a>(lexicon: &Lexicon<'a>) -> Lexicon<'a>
    ensures { meant result ≡ notes.inside (meant lexicon.now) }
{
    Lexicon {
        names: lexicon.names,
        types: lexicon.types,
        in_note: true,
    }
}

// ---- the next token

/// Whether a word in the place of an annotation comes next.
pub fn is_note_next(lexicon: &Lexicon, tokens: &[Token]) -> bool
    ensures { result ≡ at_next (spec.begins_note (meant lexicon.now)) tokens.now }
{
    match tokens.first() {
        Some(token) => begins_note(lexicon, token),
        None => false,
    }
}

pub fn is_listed_next(lexicon: &Lexicon, tokens: &[Token]) -> bool
    ensures { result ≡ at_next (spec.is_listed (meant lexicon.now)) tokens.now }
{
    match tokens.first() {
        Some(token) => is_listed(lexicon, token),
        None => false,
    }
}

pub fn is_unlisted_next(lexicon: &Lexicon, tokens: &[Token]) -> bool
    ensures { result ≡ at_next (spec.is_unlisted (meant lexicon.now)) tokens.now }
{
    match tokens.first() {
        Some(token) => is_unlisted(lexicon, token),
        None => false,
    }
}

pub fn is_bare_next(lexicon: &Lexicon, tokens: &[Token]) -> bool
    ensures { result ≡ at_next (reader.is_bare (meant lexicon.now)) tokens.now }
{
    match tokens.first() {
        Some(token) => is_bare(lexicon, token),
        None => false,
    }
}

/// Whether an annotation comes next that may not stand on a declaration of this kind.
pub fn is_misplaced_next(lexicon: &Lexicon, bearer: Bearer, tokens: &[Token]) -> bool
    ensures { result ≡ at_next
        (λ t. spec.is_listed (meant lexicon.now) t
        && not (spec.may_stand (meant lexicon.now) bearer t)) tokens.now }
{
    match tokens.first() {
        Some(token) => is_listed(lexicon, token) && !may_stand(lexicon, bearer, token),
        None => false,
    }
}

/// Whether an annotation with arguments comes next and its parts, at most `below` deep, have no room.
pub(crate) fn is_deep_next(lexicon: &Lexicon, below: u32, tokens: &[Token]) -> bool
    ensures { result ≡ at_next
        (λ t. expr.is_zero below
        && (spec.is_listed (meant lexicon.now) t && not (reader.is_bare (meant lexicon.now) t)))
        tokens.now }
{
    match tokens.first() {
        Some(token) => below == 0 && is_listed(lexicon, token) && !is_bare(lexicon, token),
        None => false,
    }
}

pub(crate) fn is_mem_next(lexicon: &Lexicon, tokens: &[Token]) -> bool
    ensures { result ≡ at_next (spec.is_mem (meant lexicon.now)) tokens.now }
{
    match tokens.first() {
        Some(token) => is_mem(lexicon, token),
        None => false,
    }
}

pub(crate) fn is_place_name_next(lexicon: &Lexicon, tokens: &[Token]) -> bool
    ensures { result ≡ at_next (reader.is_place_name (meant lexicon.now)) tokens.now }
{
    match tokens.first() {
        Some(token) => place_name(lexicon, token).is_some(),
        None => false,
    }
}

/// Whether an expression that is a location goes on with the next token.
pub(crate) fn is_continued(lexicon: &Lexicon, tokens: &[Token]) -> bool
    ensures { result ≡ at_next (reader.continues (meant lexicon.now)) tokens.now }
{
    match tokens.first() {
        Some(token) => continues(lexicon, token),
        None => false,
    }
}

/// Whether an expression can begin with the next token, in an annotation.
pub(crate) fn is_operand_next(lexicon: &Lexicon, tokens: &[Token]) -> bool
    ensures { result ≡ at_next (expr.begins_expr (notes.inside (meant lexicon.now))) tokens.now }
{
    match tokens.first() {
        Some(token) => begins_expr(&inside(lexicon), token),
        None => false,
    }
}

/// Whether a size or a condition is missing: the next token closes the parentheses or is an annotation.
pub(crate) fn is_value_missing(lexicon: &Lexicon, tokens: &[Token]) -> bool
    ensures { result ≡ at_next
        (λ t. expr.is_close (meant lexicon.now) t || spec.is_listed (meant lexicon.now) t)
        tokens.now }
{
    match tokens.first() {
        Some(token) => {
            is_mark(lexicon, Mark::CloseParenthesis, token) || is_listed(lexicon, token)
        }
        None => false,
    }
}

/// Whether the next token shows an argument of another kind, or none: it closes the parentheses or begins an expression.
pub(crate) fn is_other_next(lexicon: &Lexicon, tokens: &[Token]) -> bool
    ensures { result ≡ at_next
        (λ t. expr.is_close (meant lexicon.now) t
        || expr.begins_expr (notes.inside (meant lexicon.now)) t) tokens.now }
{
    match tokens.first() {
        Some(token) => {
            is_mark(lexicon, Mark::CloseParenthesis, token) || begins_expr(&inside(lexicon), token)
        }
        None => false,
    }
}

// ---- the next token, which has to be so

/// An annotation's name.
pub(crate) fn take_head<'a>(
    lexicon: &Lexicon,
    tokens: &'a [Token],
) -> Result<Read<'a, Head>, ReadFault>
    ensures { GivesAs plain_head
        (taken expr.unexpected (reader.head_of (meant lexicon.now)) tokens.now) result }
{
    let Some((token, rest)) = tokens.split_first() else {
        return Err(ReadFault::at_end());
    };
    match arguments_of(lexicon, token) {
        Some(arguments) => Ok(Read {
            value: Head {
                name: token.text,
                place: token.place,
                arguments,
            },
            rest,
        }),
        None => Err(ReadFault::unexpected(tokens)),
    }
}

/// The name of an annotation without arguments.
pub(crate) fn take_bare<'a>(
    lexicon: &Lexicon,
    tokens: &'a [Token],
) -> Result<Read<'a, Token>, ReadFault>
    ensures { Gives (next expr.unexpected (reader.is_bare (meant lexicon.now)) tokens.now) result }
{
    match tokens.split_first() {
        Some((first, rest)) if is_bare(lexicon, first) => Ok(Read {
            value: *first,
            rest,
        }),
        _ => Err(ReadFault::unexpected(tokens)),
    }
}

/// The word `Mem`.
pub(crate) fn take_mem<'a>(
    lexicon: &Lexicon,
    tokens: &'a [Token],
) -> Result<Read<'a, Token>, ReadFault>
    ensures { Gives (next expr.unexpected (spec.is_mem (meant lexicon.now)) tokens.now) result }
{
    match tokens.split_first() {
        Some((first, rest)) if is_mem(lexicon, first) => Ok(Read {
            value: *first,
            rest,
        }),
        _ => Err(ReadFault::unexpected(tokens)),
    }
}
