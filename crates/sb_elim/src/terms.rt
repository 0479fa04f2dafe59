ghost use Rattle.std.specs.Prelude.{◌≡◌, ◌^◌, ◌<◌, true, pos, IfOk};
ghost use Rattle.sb_elim.specs.Outcomes.{has_entries};
ghost use Rattle.sb_term.specs.Linear.{combined as combined_of, formed, is_narrow, coefficient_of, is_same_list};

use sb_term::{Numbered, Sym, Term, TermFault};
use std::alloc::{AllocError, Global};

pub fn coefficient(symbol: u64, row: &Numbered) -> i128
    ensures value { result ≡ coefficient_of symbol row.now.term.entries }
    ensures narrow { is_narrow result ≡ true }
{
    row.term.coefficient(Sym(symbol))
}

pub fn rest(row: &Numbered) -> i128
    ensures { result ≡ row.now.term.rest }
{
    row.term.rest()
}

pub fn has_symbol(row: &Numbered) -> bool
    ensures { result ≡ has_entries row.now.term.entries }
{
    row.term.len() > 0
}

pub fn is_same(row: &Numbered, other: &Numbered) -> bool
    ensures { result ≡ is_same_list row.now.term.entries other.now.term.entries }
{
    row.term.same_coefficients(&other.term)
}

/// `a` times the term of `x` plus `b` times that of `y`, or none where it passes a limit.
pub fn combined(
    alloc: Global,
    a: u64,
    x: &Numbered,
    b: u64,
    y: &Numbered,
) -> Result<Option<Term>, AllocError>
    requires a { a < 2 ^ 40 }
    requires b { b < 2 ^ 40 }
    ensures { IfOk result
        (λ o. o ≡ formed (combined_of (pos a) x.now.term (pos b) y.now.term (pos 0))) }
{
    match x.term.combine(alloc, a, &y.term, b) {
        Ok(term) => Ok(Some(term)),
        Err(TermFault::TooWide) => Ok(None),
        Err(TermFault::Memory) => Err(AllocError),
    }
}
