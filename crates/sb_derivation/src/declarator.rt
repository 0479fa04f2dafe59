//! What a declarator makes of a type, and what a declarator begins and goes on with (C99 6.7.5).
ghost use Rattle.std.specs.Prelude.{◌≡◌, ◌≤◌, ◌+◌, [], ◌∷◌, ◌&&◌, length, max, IfOk, None};
ghost use Rattle.sb_parse.specs.Parser.{at_next};
ghost use Rattle.sb_operand.specs.Meaning.{plain_piece, plain_pieces, depth_of_piece};
ghost use Rattle.sb_lexicon.specs.Meaning.{meant};
ghost use Rattle.sb_operand.specs.Pieces as pieces;
ghost use Rattle.sb_operand.specs.Readers as expr;
ghost use Rattle.sb_derivation.specs.Declarators.{IsDeep, IsSized, ReadsDeclarator};
ghost use Rattle.sb_derivation.specs.Declarators as part;
ghost use Rattle.sb_specifier.specs.Specified as specified;

use sb_base::{Name, Place, Token};
use sb_lexicon::{Lexicon, Read, ReadFault, is_mark, is_type_name, name_of};
use sb_operand::{Piece, Pieces, pointing};
use sb_sal::{begins_note, is_listed};
use sb_scope::Typedefs;
use sb_sign::Mark;
use sb_specifier::{begins_parameter, is_name_next, take_name};
use std::alloc::{AllocError, Global};

/// What a declarator makes of a type: the pieces that it puts on it, in the order of being read, how deep they make a
/// type of no depth, and the name that it declares. `inner`: the typedef names that the parameters of a declared
/// function left in force.
#[derive(Drop)]
pub struct Declarator {
    pub pieces: Vec<Piece>,
    pub depth: u32,
    pub name: Option<(Name, Place)>,
    pub inner: Option<Typedefs>,
}

impl Declarator {
    /// A name, or none.
    pub fn new(alloc: Global, name: Option<(Name, Place)>) -> Declarator
        ensures pieces { result.pieces.items ≡ [] }
        ensures depth { result.depth ≡ 0 }
        ensures name { result.name ≡ name }
        ensures inner { result.inner ≡ None }
    {
        Declarator {
            pieces: Vec::new(alloc),
            depth: 0,
            name,
            inner: None,
        }
    }

    /// With one more piece, in which something of this depth stands.
    pub fn with(self, piece: Piece, size: u32) -> Result<Declarator, AllocError>
        requires known { IsDeep self }
        requires size { size ≡ depth_of_piece (plain_piece piece) }
        requires few { length self.pieces.items ≤ 200 }
        requires shallow { size ≤ 200 }
        ensures list { IfOk result
            (λ d. plain_pieces d.pieces.items ≡ plain_piece piece
            ∷ plain_pieces self.pieces.items) }
        ensures name { IfOk result (λ d. d.name ≡ self.name) }
        ensures inner { IfOk result (λ d. d.inner ≡ self.inner) }
        ensures known { IfOk result (λ d. IsDeep d) }
        ensures depth { IfOk result
            (λ d. d.depth ≡ max self.depth (size + 1 + length self.pieces.items)) }
        ensures length { IfOk result (λ d. length d.pieces.items ≡ length self.pieces.items + 1) }
    {
        let nothing: &[Token] = &[];
        let before = Pieces {
            list: self.pieces,
            depth: self.depth,
            rest: nothing,
        };
        let after = before.with(piece, size, nothing)?;
        Ok(Declarator {
            pieces: after.list,
            depth: after.depth,
            name: self.name,
            inner: self.inner,
        })
    }

    /// With a pointer, which may be constant, before its pieces.
    pub fn pointing(self, constant: bool, place: Place) -> Result<Declarator, AllocError>
        requires known { IsDeep self }
        requires few { length self.pieces.items ≤ 200 }
        requires shallow { self.depth ≤ 300 }
        ensures list { IfOk result
            (λ d. plain_pieces d.pieces.items ≡ pieces.Pointed place
            ∷ pieces.constant_if constant (plain_pieces self.pieces.items)) }
        ensures name { IfOk result (λ d. d.name ≡ self.name) }
        ensures inner { IfOk result (λ d. d.inner ≡ self.inner) }
        ensures known { IfOk result (λ d. IsDeep d) }
        ensures depth { IfOk result
            (λ d. d.depth ≡ max self.depth (expr.one_if constant + 1 + length self.pieces.items)) }
        ensures length { IfOk result
            (λ d. length d.pieces.items ≡ length self.pieces.items + 1 + expr.one_if constant) }
    {
        let nothing: &[Token] = &[];
        let before = Pieces {
            list: self.pieces,
            depth: self.depth,
            rest: nothing,
        };
        let after = pointing(before, constant, place)?;
        Ok(Declarator {
            pieces: after.list,
            depth: after.depth,
            name: self.name,
            inner: self.inner,
        })
    }

    /// Whether the declared name is that of a function.
    pub fn declares_function(&self) -> bool
        ensures { result ≡ specified.declares_function (plain_pieces self.now.pieces.items) }
    {
        makes_function(self.pieces.as_slice())
    }
}

// ---- what lies on pieces

/// Whether what lies directly on these pieces is a function.
#[tactic(auto, using(sb_operand::proofs::Lists::one_more_piece))]
pub fn is_function(list: &[Piece]) -> bool
    ensures { result ≡ specified.is_function (plain_pieces list.now) }
{
    match list.split_last() {
        Some((Piece::Called(_params, _place), _rest)) => true,
        Some((Piece::Grouped(_place), rest)) => is_function(rest),
        _ => false,
    }
}

/// Whether there are only parentheses.
#[tactic(auto, using(sb_operand::proofs::Lists::one_more_piece))]
pub fn is_bare(list: &[Piece]) -> bool
    ensures { result ≡ specified.is_bare (plain_pieces list.now) }
{
    match list.split_last() {
        None => true,
        Some((Piece::Grouped(_place), rest)) => is_bare(rest),
        _ => false,
    }
}

/// Whether the last piece that is no parenthesis makes a function.
#[tactic(auto, using(sb_operand::proofs::Lists::one_more_piece))]
fn makes_function(list: &[Piece]) -> bool
    ensures { result ≡ specified.declares_function (plain_pieces list.now) }
{
    match list.split_last() {
        Some((Piece::Called(_params, _place), rest)) => is_bare(rest) || makes_function(rest),
        Some((_other, rest)) => makes_function(rest),
        None => false,
    }
}

// ---- the next token

/// Whether a token is a name that is no type and no annotation.
pub(crate) fn is_plain_name(lexicon: &Lexicon, token: &Token) -> bool
    ensures { result ≡ part.is_plain_name (meant lexicon.now) token.now }
{
    name_of(lexicon, token).is_some()
        && !(is_type_name(lexicon, token) || begins_note(lexicon, token))
}

/// Whether a token is a name that is no type and no listed annotation.
fn is_inner_name(lexicon: &Lexicon, token: &Token) -> bool
    ensures { result ≡ part.is_inner_name (meant lexicon.now) token.now }
{
    name_of(lexicon, token).is_some()
        && !(is_type_name(lexicon, token) || is_listed(lexicon, token))
}

/// Whether a declarator begins behind the parenthesis of a parameter.
pub fn is_inner_next(lexicon: &Lexicon, tokens: &[Token]) -> bool
    ensures { result ≡ at_next (part.begins_inner (meant lexicon.now)) tokens.now }
{
    match tokens.first() {
        Some(token) => {
            is_mark(lexicon, Mark::Star, token)
                || is_mark(lexicon, Mark::OpenParenthesis, token)
                || is_mark(lexicon, Mark::OpenBracket, token)
                || is_inner_name(lexicon, token)
        }
        None => false,
    }
}

/// Whether the next token closes the parentheses or begins a parameter.
pub fn is_parameter_next(lexicon: &Lexicon, tokens: &[Token]) -> bool
    ensures { result ≡ at_next (part.goes_on_parameters (meant lexicon.now)) tokens.now }
{
    match tokens.first() {
        Some(token) => {
            is_mark(lexicon, Mark::CloseParenthesis, token) || begins_parameter(lexicon, token)
        }
        None => false,
    }
}

/// Whether an array or a function comes next.
pub fn is_suffix_next(lexicon: &Lexicon, tokens: &[Token]) -> bool
    ensures { result ≡ at_next (part.is_suffix (meant lexicon.now)) tokens.now }
{
    match tokens.first() {
        Some(token) => {
            is_mark(lexicon, Mark::OpenBracket, token)
                || is_mark(lexicon, Mark::OpenParenthesis, token)
        }
        None => false,
    }
}

// ---- readers

/// The name, which a parameter may lack.
pub fn name_or_none<'a>(
    alloc: Global,
    lexicon: &Lexicon,
    may_lack: bool,
    tokens: &'a [Token],
) -> Result<Read<'a, Declarator>, ReadFault>
    ensures read { ReadsDeclarator lexicon.now.types.now
        (part.name_or_none (meant lexicon.now) may_lack tokens.now) result }
    ensures bounds { IfOk result (λ r. IsSized 0 0 r.value) }
{
    if may_lack && !is_name_next(lexicon.names, tokens) {
        return Ok(Read {
            value: Declarator::new(alloc, None),
            rest: tokens,
        });
    }
    let name = take_name(lexicon.names, tokens)?;
    Ok(Read {
        value: Declarator::new(alloc, Some(name.value)),
        rest: name.rest,
    })
}

/// Whether the next array is the outermost one of a parameter.
pub fn is_outermost(may_lack: bool, list: &[Piece]) -> bool
    ensures { result ≡ may_lack && specified.is_bare (plain_pieces list.now) }
{
    may_lack && is_bare(list)
}
