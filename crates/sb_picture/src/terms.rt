//! The terms that rules form: none where a term passes the limits of terms.
ghost use Rattle.std.specs.Prelude.{◌≡◌, ℕ, ◌<◌, ◌^◌, ℤ, pos, negsuc, unsigned_abs, Option, Some, None, IfOk};
ghost use Rattle.sb_term.specs.Linear.{constant, combined, scaled, formed, is_within};
ghost use Rattle.sb_term.specs.Rows.{negated};
ghost use Rattle.sb_picture.specs.Pictures.{minus, plus, has_symbol, same_entries, same_term};

use sb_term::{Entry, Term, TermFault};
use std::alloc::{AllocError, Global};

/// The term of a number of the text.
pub fn number(alloc: Global, value: u32) -> Term
    ensures { result ≡ constant (pos value) }
{
    Term::constant(alloc, value as i128).unwrap()
}

/// First minus second, and `more`.
pub fn difference(
    alloc: Global,
    first: &Term,
    second: &Term,
    more: i128,
) -> Result<Option<Term>, AllocError>
    requires { unsigned_abs more < 2 ^ 80 }
    ensures { IfOk result (λ t. t ≡ formed (minus first.now second.now more)) }
{
    match first.minus(alloc, second, more) {
        Ok(term) => Ok(Some(term)),
        Err(TermFault::TooWide) => Ok(None),
        Err(TermFault::Memory) => Err(AllocError),
    }
}

/// First plus second.
pub fn sum(alloc: Global, first: &Term, second: &Term) -> Result<Option<Term>, AllocError>
    ensures { IfOk result (λ t. t ≡ formed (plus first.now second.now)) }
{
    match first.combine(alloc, 1, second, 1) {
        Ok(term) => Ok(Some(term)),
        Err(TermFault::TooWide) => Ok(None),
        Err(TermFault::Memory) => Err(AllocError),
    }
}

/// An offset moved by as many `int`s as an index says.
pub fn element_offset(alloc: Global, base: &Term, index: &Term) -> Result<Option<Term>, AllocError>
    ensures { IfOk result (λ t. t ≡ formed (combined (pos 1) base.now (pos 4) index.now (pos 0))) }
{
    match base.combine(alloc, 1, index, 4) {
        Ok(term) => Ok(Some(term)),
        Err(TermFault::TooWide) => Ok(None),
        Err(TermFault::Memory) => Err(AllocError),
    }
}

/// The size in bytes of as many `int`s.
pub fn bytes(alloc: Global, count: &Term) -> Result<Option<Term>, AllocError>
    ensures { IfOk result (λ t. t ≡ formed (scaled (pos 4) count.now)) }
{
    match count.scale(alloc, 4) {
        Ok(term) => Ok(Some(term)),
        Err(TermFault::TooWide) => Ok(None),
        Err(TermFault::Memory) => Err(AllocError),
    }
}

/// The term that is at least 0 exactly where `term` is not.
pub fn negation(alloc: Global, term: &Term) -> Result<Option<Term>, AllocError>
    ensures { IfOk result (λ t. t ≡ formed (negated term.now)) }
{
    let never = never(alloc);
    difference(alloc, &never, term, 0)
}

/// The condition that never holds.
pub fn never(alloc: Global) -> Term
    ensures { result ≡ constant (negsuc 0) }
{
    Term::constant(alloc, -1).unwrap()
}

pub fn has_symbol(term: &Term) -> bool
    ensures { result ≡ has_symbol term.now }
{
    !term.entries().is_empty()
}

pub fn same_entries(first: &[Entry], second: &[Entry]) -> bool
    ensures { result ≡ same_entries first.now second.now }
{
    match first {
        [] => second.is_empty(),
        [e, first @ ..] => match second {
            [] => false,
            [f, second @ ..] => {
                e.symbol == f.symbol
                    && e.coefficient == f.coefficient
                    && same_entries(first, second)
            }
        },
    }
}

pub fn same_term(first: &Term, second: &Term) -> bool
    ensures { result ≡ same_term first.now second.now }
{
    same_entries(first.entries(), second.entries()) && first.rest() == second.rest()
}
