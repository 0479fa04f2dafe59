//! The operand that a token is by itself (C99 6.5.1).
ghost use Rattle.std.specs.Prelude.{◌≡◌, is_some, IfOk, IfSome};
ghost use Rattle.std.specs.Option.{option_map};
ghost use Rattle.sb_parse.specs.Parser.{at_next, taken};
ghost use Rattle.sb_lexicon.specs.Lexicon as spec;
ghost use Rattle.sb_operand.specs.Meaning.{Reads};
ghost use Rattle.sb_lexicon.specs.Meaning.{meant};
ghost use Rattle.sb_lexicon.specs.Tokens as reader;
ghost use Rattle.sb_tree.specs.Plain.{plain_expr};
ghost use Rattle.sb_tree.specs.Trees.{depth_of_expr};

use crate::found::Found;
use sb_base::Token;
use sb_lexicon::{
    Lexicon, ReadFault, is_keyword, is_mark, is_prefix, is_step, name_of, names_type,
};
use sb_sign::{Keyword, Mark, is_number, is_text};
use sb_tree::Expr;
use std::alloc::Global;

/// Whether a token is the word for a function's result, which is an operand in an annotation.
fn is_returned(lexicon: &Lexicon, token: &Token) -> bool
    ensures { result ≡ spec.is_returned (meant lexicon.now) token.now }
{
    lexicon.in_note && is_keyword(lexicon, Keyword::Return, token)
}

/// The operand that an identifier is.
fn named_operand(lexicon: &Lexicon, token: &Token) -> Option<Expr>
    ensures operand { option_map plain_expr result
        ≡ spec.named_operand (meant lexicon.now) token.now.place
        (spec.name_of (meant lexicon.now) token.now) }
    ensures flat { IfSome result (λ e. depth_of_expr (plain_expr e) ≡ 1) }
{
    let name = name_of(lexicon, token)?;
    if names_type(lexicon, name) {
        return None;
    }
    Some(Expr::name(name, token.place))
}

fn operand_of(lexicon: &Lexicon, token: &Token) -> Option<Expr>
    ensures operand { option_map plain_expr result ≡ spec.operand_of (meant lexicon.now) token.now }
    ensures flat { IfSome result (λ e. depth_of_expr (plain_expr e) ≡ 1) }
{
    if is_number(token) {
        return Some(Expr::number(token.text, token.value, token.place));
    }
    if is_text(token) {
        return Some(Expr::text(token.text, token.place));
    }
    if is_returned(lexicon, token) {
        return Some(Expr::name(token.text, token.place));
    }
    named_operand(lexicon, token)
}

fn is_operand(lexicon: &Lexicon, token: &Token) -> bool
    ensures { result ≡ is_some (spec.operand_of (meant lexicon.now) token.now) }
{
    operand_of(lexicon, token).is_some()
}

/// Whether an expression can begin with a token.
pub fn begins_expr(lexicon: &Lexicon, token: &Token) -> bool
    ensures { result ≡ reader.begins_expr (meant lexicon.now) token.now }
{
    is_operand(lexicon, token)
        || is_mark(lexicon, Mark::OpenParenthesis, token)
        || is_prefix(lexicon, token)
        || is_step(lexicon, token)
        || is_keyword(lexicon, Keyword::SizeOf, token)
}

/// Whether an expression can begin with the next token.
pub fn is_expr_next(lexicon: &Lexicon, tokens: &[Token]) -> bool
    ensures { result ≡ at_next (reader.begins_expr (meant lexicon.now)) tokens.now }
{
    match tokens.first() {
        Some(token) => begins_expr(lexicon, token),
        None => false,
    }
}

/// The next token, which has to be an operand.
pub fn take_operand<'a>(
    alloc: Global,
    lexicon: &Lexicon,
    tokens: &'a [Token],
) -> Result<Found<'a>, ReadFault>
    ensures read { Reads (taken reader.unexpected (spec.operand_of (meant lexicon.now)) tokens.now)
        result }
    ensures depth { IfOk result (λ f. f.depth ≡ 1) }
{
    let Some((token, rest)) = tokens.split_first() else {
        return Err(ReadFault::at_end());
    };
    match operand_of(lexicon, token) {
        Some(operand) => Ok(Found {
            tree: Box::new(alloc, operand)?,
            depth: 1,
            rest,
        }),
        None => Err(ReadFault::unexpected(tokens)),
    }
}
