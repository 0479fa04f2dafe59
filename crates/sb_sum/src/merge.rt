//! Sums and differences of two lists of parts, in one pass.
ghost use Rattle.std.specs.Prelude.{◌≡◌, ◌++◌, ◌∷◌, [], OnOk, IfOk, IfSome, IfNone, length, ◌+◌, ◌<◌};
ghost use Rattle.std.specs.Option.{option_map};
ghost use Rattle.sb_sum.specs.Fronts as front;
ghost use Rattle.sb_sum.specs.Lines as spec;

use crate::parts::{joined_number, own_number, precedes, signed_number};
use sb_core::Atom;
use std::alloc::{AllocError, Global};

/// A part behind others, left out where it is no multiple.
pub(crate) fn keep(
    parts: &mut Vec<(i128, Atom)>,
    multiple: i128,
    atom: Atom,
) -> Result<(), AllocError>
    ensures { OnOk result (parts.new.items ≡ parts.old.items ++ spec.with_part multiple atom []) }
{
    if multiple != 0 {
        parts.push((multiple, atom))?;
    }
    Ok(())
}

/// The first part of a sum of two lists, and what is left of them. The multiple is there where it has 128 bits.
#[derive(Clone, Copy)]
struct Front<'a> {
    multiple: Option<i128>,
    atom: Atom,
    left: &'a [(i128, Atom)],
    right: &'a [(i128, Atom)],
}

/// The front of two lists that begin with these parts.
fn front_of_both<'a>(
    minus: bool,
    p: (i128, Atom),
    q: (i128, Atom),
    left: &'a [(i128, Atom)],
    right: &'a [(i128, Atom)],
    more_left: &'a [(i128, Atom)],
    more_right: &'a [(i128, Atom)],
) -> Front<'a>
    requires left { left.now ≡ p ∷ more_left.now }
    requires right { right.now ≡ q ∷ more_right.now }
    ensures multiple { result.multiple
        ≡ spec.held_number (front.first_number (spec.sign_of minus) left.now right.now) }
    ensures atom { result.atom ≡ front.first_atom left.now right.now }
    ensures left { result.left.now ≡ front.left_rest left.now right.now }
    ensures right { result.right.now ≡ front.right_rest left.now right.now }
{
    if precedes(p.1, q.1) {
        Front {
            multiple: own_number(p.0),
            atom: p.1,
            left: more_left,
            right,
        }
    } else if precedes(q.1, p.1) {
        Front {
            multiple: signed_number(minus, q.0),
            atom: q.1,
            left,
            right: more_right,
        }
    } else {
        Front {
            multiple: joined_number(minus, p.0, q.0),
            atom: p.1,
            left: more_left,
            right: more_right,
        }
    }
}

/// The front of a list that begins with this part, and of another.
fn front_with<'a>(
    minus: bool,
    p: (i128, Atom),
    left: &'a [(i128, Atom)],
    right: &'a [(i128, Atom)],
    more_left: &'a [(i128, Atom)],
) -> Front<'a>
    requires left { left.now ≡ p ∷ more_left.now }
    ensures multiple { result.multiple
        ≡ spec.held_number (front.first_number (spec.sign_of minus) left.now right.now) }
    ensures atom { result.atom ≡ front.first_atom left.now right.now }
    ensures left { result.left.now ≡ front.left_rest left.now right.now }
    ensures right { result.right.now ≡ front.right_rest left.now right.now }
{
    match right {
        [] => Front {
            multiple: own_number(p.0),
            atom: p.1,
            left: more_left,
            right,
        },
        [q, more_right @ ..] => front_of_both(minus, p, *q, left, right, more_left, more_right),
    }
}

/// The front of a second list, where the first has no part.
fn front_of_right<'a>(
    minus: bool,
    left: &'a [(i128, Atom)],
    right: &'a [(i128, Atom)],
) -> Option<Front<'a>>
    requires left { left.now ≡ [] }
    ensures none { IfNone result (right.now ≡ []) }
    ensures multiple { IfSome result (λ f. f.multiple
        ≡ spec.held_number (front.first_number (spec.sign_of minus) left.now right.now)) }
    ensures atom { IfSome result (λ f. f.atom ≡ front.first_atom left.now right.now) }
    ensures left { IfSome result (λ f. f.left.now ≡ front.left_rest left.now right.now) }
    ensures right { IfSome result (λ f. f.right.now ≡ front.right_rest left.now right.now) }
    ensures some { IfSome result (λ _. 0 < length right.now) }
{
    match right {
        [] => None,
        [q, more @ ..] => Some(Front {
            multiple: signed_number(minus, q.0),
            atom: q.1,
            left,
            right: more,
        }),
    }
}

/// The front of two lists, where one of them has a part.
fn front_of<'a>(
    minus: bool,
    left: &'a [(i128, Atom)],
    right: &'a [(i128, Atom)],
) -> Option<Front<'a>>
    ensures none { IfNone result (left.now ++ right.now ≡ []) }
    ensures multiple { IfSome result (λ f. f.multiple
        ≡ spec.held_number (front.first_number (spec.sign_of minus) left.now right.now)) }
    ensures atom { IfSome result (λ f. f.atom ≡ front.first_atom left.now right.now) }
    ensures left { IfSome result (λ f. f.left.now ≡ front.left_rest left.now right.now) }
    ensures right { IfSome result (λ f. f.right.now ≡ front.right_rest left.now right.now) }
    ensures some { IfSome result (λ _. 0 < length left.now + length right.now) }
{
    match left {
        [] => front_of_right(minus, left, right),
        [p, more @ ..] => Some(front_with(minus, *p, left, right, more)),
    }
}

/// The sum or the difference of two lists of parts, None where a multiple has more than 128 bits.
pub(crate) fn merged(
    alloc: Global,
    minus: bool,
    xs: &[(i128, Atom)],
    ys: &[(i128, Atom)],
) -> Result<Option<Vec<(i128, Atom)>>, AllocError>
    ensures { IfOk result (λ parts. option_map (λ them. them.items) parts
        ≡ spec.held_parts (spec.merged (spec.sign_of minus) xs.now ys.now)) }
{
    let mut parts = Vec::new(alloc);
    let mut left = xs;
    let mut right = ys;
    while let Some(front) = front_of(minus, left, right) {
        let Some(multiple) = front.multiple else {
            return Ok(None);
        };
        keep(&mut parts, multiple, front.atom)?;
        left = front.left;
        right = front.right;
    }
    Ok(Some(parts))
}
