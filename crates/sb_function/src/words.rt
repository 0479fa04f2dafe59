//! The readers of single words that have a value.

ghost use Rattle.std.specs.Prelude.{◌≡◌, ◌↔◌, ◌≤◌, IsTrue, true, length, Option, Some};
ghost use Rattle.sb_parse.specs.Parser.{taken, at_next};
ghost use Rattle.sb_function.specs.declared.syntax.ParamKind.TheVariants.{Int};
ghost use Rattle.sb_function.specs.Grammar.{type_of, agree, same_name};
ghost use Rattle.sb_function.specs.Marks.{misplaced};
ghost use Rattle.sb_function.specs.Reads.{Reads};
ghost use Rattle.sb_function.specs.Statements as spec;

use crate::lexeme::{Lexeme, Piece};
use crate::reading::{Read, ReadFault, advance, peek};
use crate::syntax::{Comparison, Param, ParamKind, Simple};
use sb_base::Name;

pub(crate) fn is_name(a: Name, b: Name) -> bool
    ensures same { result ≡ same_name a b }
{
    a.0 == b.0
}

/// The first parameter of the name: its position and its kind.
fn found(name: Name, params: &[Param]) -> Option<(u32, ParamKind)>
    requires few { length params.now ≤ 32 }
    ensures found { result ≡ spec.found name params.now }
{
    for (position, param) in params.iter().enumerate() {
        if is_name(name, param.name) {
            return Some((position as u32, param.kind));
        }
    }
    None
}

fn number_of_kind(position: u32, kind: ParamKind) -> Option<Simple>
    ensures number { result ≡ spec.number_of_kind position kind }
{
    match kind {
        ParamKind::Int | ParamKind::Unsigned => Some(Simple::Param(position)),
        ParamKind::OutWrites { size: _ } => None,
    }
}

fn number_found(found: Option<(u32, ParamKind)>) -> Option<Simple>
    ensures number { result ≡ spec.number_found found }
{
    match found {
        Some((position, kind)) => number_of_kind(position, kind),
        None => None,
    }
}

fn constant(number: u32) -> Option<Simple>
    ensures constant { result ≡ spec.constant number }
{
    if number < 1 << 31 {
        Some(Simple::Number(number))
    } else {
        None
    }
}

/// A number, or the number parameter of a name.
#[tactic(auto, unfolding(crate::specs::Statements::simple_at))]
fn simple_at(params: &[Param], lexeme: Lexeme) -> Option<Simple>
    requires few { length params.now ≤ 32 }
    ensures simple { result ≡ spec.simple_at params.now lexeme }
{
    match lexeme {
        Lexeme::Number(number) => constant(number),
        Lexeme::Named(name) => number_found(found(name, params)),
        _ => None,
    }
}

fn pointer_found(found: Option<(u32, ParamKind)>) -> Option<u32>
    ensures pointer { result ≡ spec.pointer_found found }
{
    match found {
        Some((position, ParamKind::OutWrites { size: _ })) => Some(position),
        _ => None,
    }
}

/// The pointer parameter of a name.
#[tactic(auto, unfolding(crate::specs::Statements::array_at))]
fn array_at(params: &[Param], lexeme: Lexeme) -> Option<u32>
    requires few { length params.now ≤ 32 }
    ensures array { result ≡ spec.array_at params.now lexeme }
{
    match lexeme {
        Lexeme::Named(name) => pointer_found(found(name, params)),
        _ => None,
    }
}

#[tactic(auto, unfolding(crate::specs::Statements::comparison_at))]
fn comparison_at(lexeme: Lexeme) -> Option<Comparison>
    ensures comparison { result ≡ spec.comparison_at lexeme }
{
    match lexeme {
        Lexeme::Less => Some(Comparison::Less),
        Lexeme::AtMost => Some(Comparison::AtMost),
        Lexeme::Greater => Some(Comparison::Greater),
        Lexeme::AtLeast => Some(Comparison::AtLeast),
        Lexeme::Equal => Some(Comparison::Equal),
        Lexeme::NotEqual => Some(Comparison::NotEqual),
        _ => None,
    }
}

/// The type of a number parameter; a number of the text has none of its own.
fn kind_of(params: &[Param], simple: Simple) -> Option<ParamKind>
    ensures kind { result ≡ type_of params.now simple }
{
    match simple {
        Simple::Number(_number) => None,
        Simple::Param(position) => match params.get(position as usize) {
            Some(param) => Some(param.kind),
            None => None,
        },
    }
}

/// One type, or no type of its own.
fn do_agree(left: Option<ParamKind>, right: Option<ParamKind>) -> bool
    ensures agree { result ≡ agree left right }
{
    match (left, right) {
        (None, _) => true,
        (Some(_kind), None) => true,
        (Some(ParamKind::Int), Some(ParamKind::Int)) => true,
        (Some(ParamKind::Unsigned), Some(ParamKind::Unsigned)) => true,
        _ => false,
    }
}

#[tactic(auto, unfolding(crate::specs::Statements::right_at))]
fn right_at(params: &[Param], left: Simple, lexeme: Lexeme) -> Option<Simple>
    requires few { length params.now ≤ 32 }
    ensures right { result ≡ spec.right_at params.now left lexeme }
{
    let simple = simple_at(params, lexeme)?;
    if do_agree(kind_of(params, left), kind_of(params, simple)) {
        Some(simple)
    } else {
        None
    }
}

#[tactic(auto, unfolding(crate::specs::Statements::value_at))]
fn value_at(params: &[Param], lexeme: Lexeme) -> Option<Simple>
    requires few { length params.now ≤ 32 }
    ensures value { result ≡ spec.value_at params.now lexeme }
{
    let simple = simple_at(params, lexeme)?;
    if do_agree(kind_of(params, simple), Some(ParamKind::Int)) {
        Some(simple)
    } else {
        None
    }
}

/// A number, or the name of a number parameter.
pub(crate) fn take_simple<'a>(
    pieces: &'a [Piece],
    params: &[Param],
) -> Result<Read<'a, Simple>, ReadFault>
    requires few { length params.now ≤ 32 }
    ensures read { Reads (taken misplaced (λ t. spec.simple_at params.now t.lexeme) pieces.now)
        result }
{
    advance(pieces, simple_at(params, peek(pieces)))
}

/// What may stand on the right of a comparison with `left`.
pub(crate) fn take_right<'a>(
    pieces: &'a [Piece],
    params: &[Param],
    left: Simple,
) -> Result<Read<'a, Simple>, ReadFault>
    requires few { length params.now ≤ 32 }
    ensures read { Reads (taken misplaced (λ t. spec.right_at params.now left t.lexeme) pieces.now)
        result }
{
    advance(pieces, right_at(params, left, peek(pieces)))
}

/// What may be stored.
pub(crate) fn take_value<'a>(
    pieces: &'a [Piece],
    params: &[Param],
) -> Result<Read<'a, Simple>, ReadFault>
    requires few { length params.now ≤ 32 }
    ensures read { Reads (taken misplaced (λ t. spec.value_at params.now t.lexeme) pieces.now)
        result }
{
    advance(pieces, value_at(params, peek(pieces)))
}

/// The name of a pointer parameter, as its position.
pub(crate) fn take_array<'a>(
    pieces: &'a [Piece],
    params: &[Param],
) -> Result<Read<'a, u32>, ReadFault>
    requires few { length params.now ≤ 32 }
    ensures read { Reads (taken misplaced (λ t. spec.array_at params.now t.lexeme) pieces.now)
        result }
{
    advance(pieces, array_at(params, peek(pieces)))
}

#[tactic(auto, using(crate::proofs::Steps::Words::comparison_given))]
pub(crate) fn take_comparison<'a>(pieces: &'a [Piece]) -> Result<Read<'a, Comparison>, ReadFault>
    ensures read { Reads (taken misplaced (λ t. spec.comparison_at t.lexeme) pieces.now) result }
{
    advance(pieces, comparison_at(peek(pieces)))
}

#[tactic(auto, using(crate::proofs::Steps::Words::store_next))]
pub(crate) fn begins_store(pieces: &[Piece], params: &[Param]) -> bool
    requires few { length params.now ≤ 32 }
    ensures begins { result ≡ at_next (spec.begins_store params.now) pieces.now }
{
    array_at(params, peek(pieces)).is_some()
}
