//! Tests of the next tokens of a statement (C99 6.8).
ghost use Rattle.std.specs.Prelude.{◌≡◌, ◌-◌, ◌&&◌, ◌||◌, false, nat_lt, not, length, take};
ghost use Rattle.std.specs.Option.{option_map_or};
ghost use Rattle.sb_parse.specs.Parser.{at_next, token};
ghost use Rattle.sb_parse.specs.Descent.{at_second};
ghost use Rattle.sb_lexicon.specs.Lexicon as lex;
ghost use Rattle.sb_lexicon.specs.Meaning.{meant, Gives};
ghost use Rattle.sb_lexicon.specs.Tokens as expr;
ghost use Rattle.sb_sal.specs.Spellings as spelling;
ghost use Rattle.sb_specifier.specs.Readers as declaring;
ghost use Rattle.sb_specifier.specs.Specified as specified;
ghost use Rattle.sb_statement.specs.Readers as spec;
ghost use Rattle.sb_sign.specs.Signs as sign;

use sb_base::{Names, Place, Token};
use sb_lexicon::{Lexicon, Read, ReadFault, is_keyword, is_mark, is_mark_next, is_type_name};
use sb_operand::begins_expr;
use sb_sal::{begins_note, is_bare, is_listed, is_unlisted};
use sb_scope::Typedefs;
use sb_sign::{Keyword, Mark};
use sb_specifier::{begins_declaration, is_name, is_storage_word};

/// By what the tokens outside of annotations are read.
pub fn reading<'a>(names: &'a Names, types: &'a Typedefs) -> Lexicon<'a>
    ensures { meant result ≡ specified.reading names.now.texts types.now }
{
    Lexicon {
        names,
        types,
        in_note: false,
    }
}

/// Where the tokens before `rest` begin.
pub(crate) fn front_place(tokens: &[Token], rest: &[Token]) -> Place
    ensures { result ≡ spec.first_place (take (length tokens.now - length rest.now) tokens.now) }
{
    match tokens[..tokens.len().saturating_sub(rest.len())].first() {
        Some(token) => token.place,
        None => Place {
            file: 0,
            line: 0,
            col: 0,
        },
    }
}

/// Whether another part of a block is next.
pub fn is_item_next(names: &Names, types: &Typedefs, tokens: &[Token]) -> bool
    ensures { result ≡ at_next
        (λ t. not (declaring.is_close_brace (specified.reading names.now.texts types.now) t))
        tokens.now }
{
    match tokens.first() {
        Some(token) => !is_mark(&reading(names, types), Mark::CloseBrace, token),
        None => false,
    }
}

/// Whether a colon is behind the next token.
pub fn is_label_next(lexicon: &Lexicon, tokens: &[Token]) -> bool
    ensures { result ≡ at_second (expr.is_colon (meant lexicon.now)) tokens.now }
{
    match tokens.split_first() {
        Some((_token, rest)) => is_mark_next(lexicon, Mark::Colon, rest),
        None => false,
    }
}

/// Whether a keyword begins a statement that is no label.
fn begins_keyword_statement(keyword: Keyword) -> bool
    ensures { result ≡ spec.begins_keyword_statement keyword }
{
    matches!(
        keyword,
        Keyword::If
            | Keyword::While
            | Keyword::Do
            | Keyword::For
            | Keyword::Switch
            | Keyword::Goto
            | Keyword::Break
            | Keyword::Continue
            | Keyword::Return
    )
}

fn is_label_keyword(keyword: Keyword) -> bool
    ensures { result ≡ spec.is_label_keyword keyword }
{
    matches!(keyword, Keyword::Case | Keyword::Default)
}

/// Whether a token is a keyword that begins a statement.
fn begins_with_keyword(lexicon: &Lexicon, token: &Token) -> bool
    ensures { result ≡ option_map_or spec.begins_keyword_statement
        (sign.keyword_of lexicon.now.names.now.texts token.now) false }
{
    match sb_sign::keyword_of(lexicon.names, token) {
        Some(keyword) => begins_keyword_statement(keyword),
        None => false,
    }
}

/// Whether a token is `case` or `default`.
fn begins_with_case(lexicon: &Lexicon, token: &Token) -> bool
    ensures { result ≡ option_map_or spec.is_label_keyword
        (sign.keyword_of lexicon.now.names.now.texts token.now) false }
{
    match sb_sign::keyword_of(lexicon.names, token) {
        Some(keyword) => is_label_keyword(keyword),
        None => false,
    }
}

fn begins_statement(lexicon: &Lexicon, cases: bool, token: &Token) -> bool
    ensures { result ≡ spec.begins_statement (meant lexicon.now) cases token.now }
{
    begins_with_keyword(lexicon, token)
        || (cases && begins_with_case(lexicon, token))
        || is_mark(lexicon, Mark::OpenBrace, token)
        || is_mark(lexicon, Mark::Semicolon, token)
        || is_name(lexicon.names, token)
        || begins_expr(lexicon, token)
}

/// Whether a statement can begin with the next token.
pub(crate) fn is_statement_next(lexicon: &Lexicon, cases: bool, tokens: &[Token]) -> bool
    ensures { result ≡ at_next (spec.begins_statement (meant lexicon.now) cases) tokens.now }
{
    match tokens.first() {
        Some(token) => begins_statement(lexicon, cases, token),
        None => false,
    }
}

/// Whether a declaration can go on with a token behind a typedef name.
fn goes_on_type(lexicon: &Lexicon, token: &Token) -> bool
    ensures { result ≡ spec.goes_on_type (meant lexicon.now) token.now }
{
    is_keyword(lexicon, Keyword::Const, token)
        || is_keyword(lexicon, Keyword::Restrict, token)
        || is_storage_word(lexicon, token)
        || is_mark(lexicon, Mark::Star, token)
        || is_mark(lexicon, Mark::OpenParenthesis, token)
        || is_name(lexicon.names, token)
        || is_mark(lexicon, Mark::Semicolon, token)
}

/// Whether a declaration can go on with the next token behind a typedef name.
pub(crate) fn is_type_going_on(lexicon: &Lexicon, tokens: &[Token]) -> bool
    ensures { result ≡ at_next (spec.goes_on_type (meant lexicon.now)) tokens.now }
{
    match tokens.first() {
        Some(token) => goes_on_type(lexicon, token),
        None => false,
    }
}

/// Whether a keyword that stands in the block of a `switch` alone is next.
pub fn is_case_next(lexicon: &Lexicon, cases: bool, keyword: Keyword, tokens: &[Token]) -> bool
    ensures { result ≡ at_next (λ t. cases && lex.is_keyword (meant lexicon.now) keyword t)
        tokens.now }
{
    match tokens.first() {
        Some(token) => cases && is_keyword(lexicon, keyword, token),
        None => false,
    }
}

/// Whether a name is next.
pub fn is_name_next(lexicon: &Lexicon, tokens: &[Token]) -> bool
    ensures { result ≡ at_next (declaring.is_name (meant lexicon.now)) tokens.now }
{
    match tokens.first() {
        Some(token) => is_name(lexicon.names, token),
        None => false,
    }
}

/// Whether a word that looks like an annotation and is none is next.
pub(crate) fn is_unlisted_next(lexicon: &Lexicon, tokens: &[Token]) -> bool
    ensures { result ≡ at_next (spelling.is_unlisted (meant lexicon.now)) tokens.now }
{
    match tokens.first() {
        Some(token) => is_unlisted(lexicon, token),
        None => false,
    }
}

/// Whether a name is next that begins no expression: a word that looks like an annotation, or a typedef name.
pub(crate) fn is_no_operand_next(lexicon: &Lexicon, tokens: &[Token]) -> bool
    ensures { result ≡ at_next
        (λ t. spelling.begins_note (meant lexicon.now) t || lex.is_type_name (meant lexicon.now) t)
        tokens.now }
{
    match tokens.first() {
        Some(token) => begins_note(lexicon, token) || is_type_name(lexicon, token),
        None => false,
    }
}

/// Whether a declaration that begins with a name is next.
pub fn is_named_declaration_next(lexicon: &Lexicon, tokens: &[Token]) -> bool
    ensures { result ≡ at_next (spec.names_declaration (meant lexicon.now)) tokens.now }
{
    match tokens.first() {
        Some(token) => begins_declaration(lexicon, token) && is_name(lexicon.names, token),
        None => false,
    }
}

/// Whether a declaration is next.
pub fn is_declaration_next(lexicon: &Lexicon, tokens: &[Token]) -> bool
    ensures { result ≡ at_next (declaring.begins_declaration (meant lexicon.now)) tokens.now }
{
    match tokens.first() {
        Some(token) => begins_declaration(lexicon, token),
        None => false,
    }
}

/// The next token, which has to be a name.
pub(crate) fn take_name<'a>(
    lexicon: &Lexicon,
    tokens: &'a [Token],
) -> Result<Read<'a, Token>, ReadFault>
    ensures { Gives (token expr.unexpected (declaring.is_name (meant lexicon.now)) tokens.now)
        result }
{
    match tokens.split_first() {
        Some((first, rest)) if is_name(lexicon.names, first) => Ok(Read {
            value: *first,
            rest,
        }),
        _ => Err(ReadFault::unexpected(tokens)),
    }
}

/// Whether the first part of a `for` that declares nothing is next.
pub(crate) fn is_first_next(lexicon: &Lexicon, tokens: &[Token]) -> bool
    ensures { result ≡ at_next
        (λ t. declaring.is_semicolon (meant lexicon.now) t
        || expr.begins_expr (meant lexicon.now) t) tokens.now }
{
    match tokens.first() {
        Some(token) => is_mark(lexicon, Mark::Semicolon, token) || begins_expr(lexicon, token),
        None => false,
    }
}

/// How deep the parts of a declaration have to be that begins with a token: an annotation with arguments is one deeper than others.
fn room_for(lexicon: &Lexicon, token: &Token) -> u32
    ensures { result ≡ spec.room_for (meant lexicon.now) token.now }
{
    if is_listed(lexicon, token) && !is_bare(lexicon, token) {
        3
    } else {
        2
    }
}

/// Whether a declaration that begins with the next token has no room.
pub(crate) fn lacks_room(lexicon: &Lexicon, below: u32, tokens: &[Token]) -> bool
    ensures { result ≡ at_next (λ t. nat_lt below (spec.room_for (meant lexicon.now) t))
        tokens.now }
{
    match tokens.first() {
        Some(token) => below < room_for(lexicon, token),
        None => false,
    }
}
