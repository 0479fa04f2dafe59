//! Sums of multiples and a constant: sums, differences and multiples, as far as their numbers have 128 bits.
ghost use Rattle.std.specs.Prelude.{◌≡◌, ◌∷◌, ◌*ℤ◌, [], IfNone, IfOk, IfSome};
ghost use Rattle.std.specs.Option.{option_map};
ghost use Rattle.sb_sum.specs.Lines as spec;
ghost use Rattle.sb_sum.specs.Lines.{plain_line};

use crate::merge::{keep, merged};
use crate::parts::joined_number;
use sb_core::{Atom, Size};
use std::alloc::{AllocError, Global};

/// So many times a number, where that has 128 bits.
fn product(c: i128, a: i128) -> Option<i128>
    ensures { result ≡ spec.held_number (c *ℤ a) }
{
    c.checked_mul(a)
}

/// The first part of a list, and the rest.
fn first_part(parts: &[(i128, Atom)]) -> Option<((i128, Atom), &[(i128, Atom)])>
    ensures none { IfNone result (parts.now ≡ []) }
    ensures some { IfSome result (λ f. parts.now ≡ f.0 ∷ f.1.now) }
{
    match parts {
        [] => None,
        [first, rest @ ..] => Some((*first, rest)),
    }
}

/// So many times each part.
fn times(
    alloc: Global,
    c: i128,
    xs: &[(i128, Atom)],
) -> Result<Option<Vec<(i128, Atom)>>, AllocError>
    ensures { IfOk result (λ parts. option_map (λ them. them.items) parts
        ≡ spec.held_parts (spec.times c xs.now)) }
{
    let mut parts = Vec::new(alloc);
    let mut left = xs;
    while let Some((part, more)) = first_part(left) {
        let Some(multiple) = product(c, part.0) else {
            return Ok(None);
        };
        keep(&mut parts, multiple, part.1)?;
        left = more;
    }
    Ok(Some(parts))
}

/// A sum of these parts and this constant, where both are there.
fn line_of(parts: Option<Vec<(i128, Atom)>>, constant: Option<i128>) -> Option<Size>
    ensures { option_map plain_line result
        ≡ spec.line_if (option_map (λ them. them.items) parts) constant }
{
    Some(Size {
        parts: parts?,
        constant: constant?,
    })
}

/// The sum or the difference of two sums.
pub fn combined(
    alloc: Global,
    minus: bool,
    left: &Size,
    right: &Size,
) -> Result<Option<Size>, AllocError>
    ensures { IfOk result (λ line. option_map plain_line line ≡ spec.held_line
        (spec.combined (plain_line left.now) (spec.sign_of minus) (plain_line right.now))) }
{
    let constant = joined_number(minus, left.constant, right.constant);
    let parts = merged(alloc, minus, left.parts.as_slice(), right.parts.as_slice())?;
    Ok(line_of(parts, constant))
}

/// So many times a sum.
pub fn scaled(alloc: Global, c: i128, line: &Size) -> Result<Option<Size>, AllocError>
    ensures { IfOk result (λ them. option_map plain_line them
        ≡ spec.held_line (spec.scaled c (plain_line line.now))) }
{
    let constant = product(c, line.constant);
    let parts = times(alloc, c, line.parts.as_slice())?;
    Ok(line_of(parts, constant))
}
