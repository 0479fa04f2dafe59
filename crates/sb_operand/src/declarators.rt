//! The pieces of declarators, and what tells where they begin (C99 6.7.6).
ghost use Rattle.std.specs.Prelude.{◌≡◌, ◌≤◌, ◌<◌, ◌+◌, ◌-◌, [], ◌∷◌, true, false, length, max, IfOk};
ghost use Rattle.sb_parse.specs.Parser.{at_next, looped};
ghost use Rattle.sb_operand.specs.Meaning.{plain_piece, plain_pieces, depth_of_piece, IsDeep, IsSized, ReadsPieces};
ghost use Rattle.sb_lexicon.specs.Meaning.{meant, Gives};
ghost use Rattle.sb_operand.specs.Pieces as pieces;
ghost use Rattle.sb_operand.specs.Readers as spec;
ghost use Rattle.sb_operand.specs.Readers.{qualifier};
ghost use Rattle.sb_lexicon.specs.Tokens as lexeme;

use crate::pieces::Piece;
use sb_base::{Place, Token};
use sb_lexicon::{
    Feature, Lexicon, Read, ReadFault, begins_type, is_keyword, is_keyword_next, is_listed,
    is_mark, is_qualifier_next, take_keyword,
};
use sb_sign::{Keyword, Mark};
use std::alloc::{AllocError, Global};

/// The pieces of a declarator, how deep they make a type of no depth, and the tokens after them.
#[derive(Drop)]
pub struct Pieces<'a> {
    pub list: Vec<Piece>,
    pub depth: u32,
    pub rest: &'a [Token],
}

impl<'a> Pieces<'a> {
    pub fn none(alloc: Global, rest: &'a [Token]) -> Pieces<'a>
        ensures list { result.list.items ≡ [] }
        ensures depth { result.depth ≡ 0 }
        ensures rest { result.rest.now ≡ rest.now }
    {
        Pieces {
            list: Vec::new(alloc),
            depth: 0,
            rest,
        }
    }

    /// With one more piece, in which an expression of this depth stands.
    #[tactic(auto, using(crate::proofs::Lists::one_more_piece, crate::proofs::PieceDepths::depth_of_pushed))]
    pub fn with(self, piece: Piece, size: u32, rest: &'a [Token]) -> Result<Pieces<'a>, AllocError>
        requires known { IsDeep self }
        requires size { size ≡ depth_of_piece (plain_piece piece) }
        requires few { length self.list.items ≤ 300 }
        requires shallow { size ≤ 300 }
        ensures list { IfOk result
            (λ p. plain_pieces p.list.items ≡ plain_piece piece
            ∷ plain_pieces self.entry.list.items) }
        ensures known { IfOk result (λ p. IsDeep p) }
        ensures depth { IfOk result
            (λ p. p.depth ≡ max self.entry.depth (size + 1 + length self.entry.list.items)) }
        ensures length { IfOk result (λ p. length p.list.items ≡ length self.entry.list.items + 1) }
        ensures rest { IfOk result (λ p. p.rest.now ≡ rest.now) }
    {
        let count = self.list.len() as u32;
        let mut list = self.list;
        list.push(piece)?;
        Ok(Pieces {
            list,
            depth: self.depth.max(size + 1 + count),
            rest,
        })
    }
}

/// Whether a declarator without a name begins with the next token.
pub fn is_abstract_next(lexicon: &Lexicon, tokens: &[Token]) -> bool
    ensures { result ≡ at_next (spec.begins_abstract (meant lexicon.now)) tokens.now }
{
    match tokens.first() {
        Some(token) => {
            is_mark(lexicon, Mark::Star, token)
                || is_mark(lexicon, Mark::OpenParenthesis, token)
                || is_mark(lexicon, Mark::OpenBracket, token)
        }
        None => false,
    }
}

/// Whether only a function type goes on with the next token, behind a parenthesis that has no declarator.
pub fn is_parameter_next(lexicon: &Lexicon, tokens: &[Token]) -> bool
    ensures { result ≡ at_next (spec.begins_parameters (meant lexicon.now)) tokens.now }
{
    match tokens.first() {
        Some(token) => {
            is_mark(lexicon, Mark::CloseParenthesis, token)
                || begins_type(lexicon, token)
                || is_keyword(lexicon, Keyword::Register, token)
                || is_keyword(lexicon, Keyword::Inline, token)
                || is_listed(lexicon, token)
        }
        None => false,
    }
}

/// One qualifier behind a `*`. `room`: how many pieces may stand above the pointer.
fn qualifier<'a>(
    lexicon: &Lexicon,
    constant: bool,
    room: u32,
    tokens: &'a [Token],
) -> Result<Read<'a, bool>, ReadFault>
    requires room { constant ≡ true → 0 < room }
    ensures read { Gives (qualifier (meant lexicon.now) room constant tokens.now) result }
    ensures room { IfOk result (λ r. r.value ≡ true → 0 < room) }
{
    if is_keyword_next(lexicon, Keyword::Const, tokens) {
        if room == 0 {
            return Err(ReadFault::too_deep(tokens));
        }
        let word = take_keyword(lexicon, Keyword::Const, tokens)?;
        return Ok(Read {
            value: true,
            rest: word.rest,
        });
    }
    if is_keyword_next(lexicon, Keyword::Restrict, tokens) {
        let word = take_keyword(lexicon, Keyword::Restrict, tokens)?;
        return Ok(Read {
            value: constant,
            rest: word.rest,
        });
    }
    Err(ReadFault::lacks(Feature::Volatile, tokens))
}

/// As many qualifiers as there are, and whether `const` is among them.
pub fn qualifiers<'a>(
    lexicon: &Lexicon,
    room: u32,
    tokens: &'a [Token],
) -> Result<Read<'a, bool>, ReadFault>
    ensures read { Gives (looped (lexeme.is_qualifier (meant lexicon.now))
        (qualifier (meant lexicon.now) room) false tokens.now) result }
    ensures room { IfOk result (λ r. r.value ≡ true → 0 < room) }
{
    let mut found = Read {
        value: false,
        rest: tokens,
    };
    for _turn in 0..tokens.len() {
        if !is_qualifier_next(lexicon, found.rest) {
            return Ok(found);
        }
        found = qualifier(lexicon, found.value, room, found.rest)?;
    }
    Ok(found)
}

/// Pieces with a pointer before them, which may be constant.
pub fn pointing<'a>(
    inner: Pieces<'a>,
    constant: bool,
    place: Place,
) -> Result<Pieces<'a>, AllocError>
    requires known { IsDeep inner }
    requires few { length inner.list.items ≤ 200 }
    requires shallow { inner.depth ≤ 300 }
    ensures list { IfOk result
        (λ p. plain_pieces p.list.items ≡ pieces.Pointed place
        ∷ pieces.constant_if constant (plain_pieces inner.entry.list.items)) }
    ensures known { IfOk result (λ p. IsDeep p) }
    ensures depth { IfOk result
        (λ p. p.depth
        ≡ max inner.entry.depth (spec.one_if constant + 1 + length inner.entry.list.items)) }
    ensures length { IfOk result
        (λ p. length p.list.items ≡ length inner.entry.list.items + 1 + spec.one_if constant) }
    ensures rest { IfOk result (λ p. p.rest.now ≡ inner.entry.rest.now) }
{
    let rest = inner.rest;
    if !constant {
        return inner.with(Piece::Pointed(place), 0, rest);
    }
    let qualified = inner.with(Piece::Constant, 0, rest)?;
    qualified.with(Piece::Pointed(place), 0, rest)
}

/// How many pieces may stand above a pointer and its `const`, if it has one.
pub fn room_behind(room: u32, constant: bool) -> u32
    requires { constant ≡ true → 0 < room }
    ensures { result ≡ room - spec.one_if constant }
{
    if constant { room - 1 } else { room }
}

/// Whether a function with these pieces put on it comes to a pointer to a function.
#[tactic(auto, using(crate::proofs::Lists::one_more_piece))]
pub fn points(list: &[Piece]) -> bool
    ensures { result ≡ pieces.points (plain_pieces list.now) }
{
    match list.split_last() {
        Some((Piece::Pointed(_place), _rest)) => true,
        Some((Piece::Grouped(_place), rest)) => points(rest),
        _ => false,
    }
}

/// Whether an opening parenthesis makes a pointer to a function behind these pieces.
pub fn is_call_next(lexicon: &Lexicon, list: &[Piece], tokens: &[Token]) -> bool
    ensures { result ≡ at_next (spec.calls (meant lexicon.now) (plain_pieces list.now)) tokens.now }
{
    match tokens.first() {
        Some(token) => points(list) && is_mark(lexicon, Mark::OpenParenthesis, token),
        None => false,
    }
}

/// A declarator without pieces.
pub fn no_declarator<'a>(
    alloc: Global,
    lexicon: &Lexicon,
    tokens: &'a [Token],
) -> Result<Pieces<'a>, ReadFault>
    ensures read { ReadsPieces (spec.no_declarator (meant lexicon.now) tokens.now) result }
    ensures bounds { IfOk result (λ p. IsSized 0 0 p) }
{
    if is_abstract_next(lexicon, tokens) {
        return Err(ReadFault::too_deep(tokens));
    }
    Ok(Pieces::none(alloc, tokens))
}
