ghost use Rattle.std.specs.Prelude.{◌≡◌, ℕ, ◌+◌, ◌^◌, ◌<◌, ◌≤◌, [], true, false, pos, negsuc, ◌+ℤ◌, ◌*ℤ◌, unsigned_abs, length, map, slice_get, option_map, IfOk, IsTrue, ◌↔◌};
ghost use Rattle.sb_term.specs.Linear.{is_narrow, is_short, coefficient_of, is_same_list};

use crate::entry::Entry;
use crate::fault::TermFault;
use crate::limits::{short, short_product, sum};
use crate::merge::{merge, scaled_entries};
use crate::sym::Sym;
use smallvec::SmallVec;
use std::alloc::{AllocError, Global};
use std::marker::Model;

/// A linear term: symbols with their coefficients, in rising number and without a zero, and a constant.
/// Coefficients are below 2^40 and the constant below 2^80 in absolute value.
#[derive(Drop)]
pub struct Term {
    entries: SmallVec<Entry, 4>,
    rest: i128,
}

impl Model for Term {
    ghost use Rattle.sb_term.specs.Linear.{Linear, IsTerm};

    ghost Value = { Linear };

    ghost view = { λ t. record { entries = t.entries.items; rest = t.rest } };

    ghost invariant = { λ t. IsTerm (record { entries = t.entries.items; rest = t.rest }) };
}

impl Term {
    ghost use Rattle.sb_term.specs.Linear.{Linear, IsTerm, constant, symbol, combined, scaled, formed, is_within, is_narrow, is_short, are_narrow, coefficient_of, is_same_list};
    ghost use Rattle.sb_term.specs.Formed.{IsFormed};

    /// The term without symbols; none where `c` reaches 2^80 in absolute value. Takes no memory.
    pub fn constant(alloc: Global, c: i128) -> Option<Term>
        ensures { result ≡ formed (constant c) }
    {
        if short(c) {
            Some(Term {
                entries: SmallVec::new(alloc),
                rest: c,
            })
        } else {
            None
        }
    }

    /// A symbol once. Takes no memory.
    pub fn symbol(alloc: Global, s: Sym) -> Term
        ensures { result ≡ symbol s.0 }
    {
        let mut entries = SmallVec::new(alloc);
        entries.push_reserved(Entry {
            symbol: s.0,
            coefficient: 1,
        });
        Term { entries, rest: 0 }
    }

    /// `a` times the term plus `b` times the other and `more`; only the result is held to the limits.
    fn mixed(
        &self,
        alloc: Global,
        a: i128,
        other: &Term,
        b: i128,
        more: i128,
    ) -> Result<Term, TermFault>
        requires a { is_narrow a ≡ true }
        requires b { is_narrow b ≡ true }
        requires more { is_short more ≡ true }
        ensures { IsFormed (combined a self.now b other.now more) result }
    {
        let entries = merge(
            alloc,
            a,
            self.entries.as_slice(),
            b,
            other.entries.as_slice(),
        )?;
        let rest = rest_of(a, self.rest, b, other.rest, more);
        if !short(rest) {
            return Err(TermFault::TooWide);
        }
        Ok(Term { entries, rest })
    }

    /// `a` times the term plus `b` times the other; only the result is held to the limits.
    pub fn combine(&self, alloc: Global, a: u64, other: &Term, b: u64) -> Result<Term, TermFault>
        requires a { a < 2 ^ 40 }
        requires b { b < 2 ^ 40 }
        ensures { IsFormed (combined (pos a) self.now (pos b) other.now (pos 0)) result }
    {
        self.mixed(alloc, a as i128, other, b as i128, 0)
    }

    /// The sum of both terms.
    pub fn add(&self, alloc: Global, other: &Term) -> Result<Term, TermFault>
        ensures { IsFormed (combined (pos 1) self.now (pos 1) other.now (pos 0)) result }
    {
        self.mixed(alloc, 1, other, 1, 0)
    }

    /// The term minus the other plus `more`, formed at once: only the result is held to the limits.
    pub fn minus(&self, alloc: Global, other: &Term, more: i128) -> Result<Term, TermFault>
        requires { unsigned_abs more < 2 ^ 80 }
        ensures { IsFormed (combined (pos 1) self.now (negsuc 0) other.now more) result }
    {
        self.mixed(alloc, 1, other, -1, more)
    }

    /// The term `by` times.
    pub fn scale(&self, alloc: Global, by: i128) -> Result<Term, TermFault>
        ensures { IsFormed (scaled by self.now) result }
    {
        let entries = scaled_entries(alloc, by, self.entries.as_slice())?;
        let rest = by.checked_mul(self.rest).ok_or(TermFault::TooWide)?;
        if !short(rest) {
            return Err(TermFault::TooWide);
        }
        Ok(Term { entries, rest })
    }

    /// The coefficient of a symbol, 0 where it does not stand.
    pub fn coefficient(&self, s: Sym) -> i128
        ensures value { result ≡ coefficient_of s.0 self.now.entries }
        ensures narrow { is_narrow result ≡ true }
    {
        coefficient_in(self.entries.as_slice(), s.0)
    }

    /// The constant.
    pub fn rest(&self) -> i128
        ensures value { result ≡ self.now.rest }
        ensures short { is_short result ≡ true }
    {
        self.rest
    }

    /// How many symbols stand.
    pub fn len(&self) -> u64
        ensures count { result ≡ length self.now.entries }
        ensures term { IsTerm self.now }
    {
        self.entries.as_slice().len() as u64
    }

    /// The `k`-th symbol from 0 in rising number with its coefficient; none where `k` is not below the count.
    pub fn entry(&self, k: u64) -> Option<(Sym, i128)>
        ensures { result ≡ option_map (λ e. (record { 0 = e.symbol }, e.coefficient))
            (slice_get self.now.entries k) }
    {
        let entry = self.entries.as_slice().get(k as usize)?;
        Some((Sym(entry.symbol), entry.coefficient))
    }

    /// Whether all coefficients and the constant are equal.
    pub fn same(&self, other: &Term) -> bool
        ensures { IsTrue result ↔ (self.now ≡ other.now) }
    {
        if self.rest != other.rest {
            return false;
        }
        same_entries(self.entries.as_slice(), other.entries.as_slice())
    }

    /// Whether all coefficients are equal, whatever the constants are.
    pub fn same_coefficients(&self, other: &Term) -> bool
        ensures { result ≡ is_same_list self.now.entries other.now.entries }
    {
        same_entries(self.entries.as_slice(), other.entries.as_slice())
    }

    /// The symbols with their coefficients, in rising number.
    pub fn entries(&self) -> &[Entry]
        ensures value { result.now ≡ self.now.entries }
        ensures term { IsTerm self.now }
    {
        self.entries.as_slice()
    }

    /// An equal term.
    pub fn copy(&self, alloc: Global) -> Result<Term, AllocError>
        ensures { IfOk result (λ t. t ≡ self.now) }
    {
        Ok(Term {
            entries: SmallVec::from_slice(alloc, self.entries.as_slice())?,
            rest: self.rest,
        })
    }
}

fn coefficient_in(entries: &[Entry], symbol: u64) -> i128
    ensures { result ≡ coefficient_of symbol entries.now }
{
    for entry in entries {
        if entry.symbol == symbol {
            return entry.coefficient;
        }
    }
    0
}

fn same_entries(xs: &[Entry], ys: &[Entry]) -> bool
    ensures equal { IsTrue result ↔ (xs.now ≡ ys.now) }
    ensures value { result ≡ is_same_list xs.now ys.now }
{
    xs == ys
}

fn rest_of(a: i128, r: i128, b: i128, s: i128, more: i128) -> i128
    requires a { is_narrow a ≡ true }
    requires r { is_short r ≡ true }
    requires b { is_narrow b ≡ true }
    requires s { is_short s ≡ true }
    requires more { is_short more ≡ true }
    ensures { result ≡ ((a *ℤ r) +ℤ (b *ℤ s)) +ℤ more }
{
    let left = short_product(a, r);
    let right = short_product(b, s);
    let both = sum(left, right);
    sum(both, more)
}
