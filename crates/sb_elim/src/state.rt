ghost use Rattle.std.specs.Prelude.{◌≡◌, ◌+◌, ◌^◌, ◌<◌, [], length, reverse, true, pos, None, Some, IfOk, OnOk, All};
ghost use Rattle.sb_term.specs.Linear.{combined as combined_of};
ghost use Rattle.sb_term.specs.Elimination.{State as Standing, place as placed, place_formed as formed_placed, take_step as step_taken, combine as combined_rows, combine_each as each_combined, combine_all as all_combined, are_factors, eliminate as eliminated, eliminate_all as all_eliminated, is_positive, is_negative, with_step as with_step_of, empty as empty_state};
ghost use Rattle.sb_elim.specs.Outcomes.{progress, next_of};

use crate::choose::{cheapest, without};
use crate::factors::{factors, size};
use crate::outcome::Outcome;
use crate::place::put;
use crate::split::split;
use crate::terms::{combined, has_symbol, rest};
use sb_term::{Aside, Numbered, Step, Term};
use std::alloc::{AllocError, Global};
use std::marker::Model;
use std::mem;

/// The rows that stand, the steps taken and the rows set aside. The query gives the first `base` rows.
#[derive(Drop)]
pub struct State {
    base: u64,
    rows: Vec<Numbered>,
    steps: Vec<Step>,
    asides: Vec<Aside>,
}

impl Model for State {
    ghost use Rattle.std.specs.Prelude.{◌+◌, ◌^◌, ◌<◌, length, reverse};
    ghost use Rattle.sb_term.specs.Elimination.{State as Standing};

    ghost Value = { Standing };

    ghost view = { λ s. record { base = s.base; rows = s.rows.items; steps = reverse s.steps.items; asides = reverse s.asides.items } };

    ghost invariant = { λ s. s.base + length s.steps.items < 2 ^ 64 };
}

impl State {
    pub fn new(alloc: Global, base: u64) -> State
        ensures { result ≡ empty_state base }
    {
        State {
            base,
            rows: Vec::new(alloc),
            steps: Vec::new(alloc),
            asides: Vec::new(alloc),
        }
    }

    /// Puts a row among those that stand. One without symbols is dropped where it holds, and else ends the elimination.
    pub fn place(&mut self, row: Numbered) -> Result<Outcome, AllocError>
        ensures { IfOk result (λ o. progress o self.new ≡ placed row self.old) }
    {
        if has_symbol(&row) {
            put(&mut self.rows, row)?;
            Ok(if self.rows.len() <= 2048 {
                Outcome::Going
            } else {
                Outcome::TooManyRows
            })
        } else {
            Ok(if rest(&row) < 0 {
                Outcome::Proved
            } else {
                Outcome::Going
            })
        }
    }

    /// Places the term of the next number, or none where it passes a limit.
    pub fn place_formed(&mut self, term: Option<Term>, number: u64) -> Result<Outcome, AllocError>
        ensures { IfOk result (λ o. progress o self.new ≡ formed_placed term number self.old) }
    {
        match term {
            None => Ok(Outcome::TooManyDigits),
            Some(term) => self.place(Numbered { number, term }),
        }
    }

    /// Adds a step and gives the number of its row. There is no memory for 2^64 rows.
    fn add_step(&mut self, step: Step) -> Result<u64, AllocError>
        ensures { IfOk result
            (λ n. (n ≡ self.old.base + length self.old.steps)
            × (self.new ≡ with_step_of step self.old)) }
    {
        let number = self.base + self.steps.len() as u64;
        if number == u64::MAX {
            return Err(AllocError);
        }
        self.steps.push(step)?;
        Ok(number)
    }

    /// Forms `a` times row `x` plus `b` times row `y` as the next step, and places it.
    fn take_step(
        &mut self,
        alloc: Global,
        a: u64,
        x: &Numbered,
        b: u64,
        y: &Numbered,
    ) -> Result<Outcome, AllocError>
        requires { are_factors a b ≡ true }
        ensures { IfOk result (λ o. progress o self.new ≡ step_taken a x.now b y.now self.old) }
    {
        let term = combined(alloc, a, x, b, y)?;
        let number = self.add_step(Step {
            a,
            i: x.number,
            b,
            j: y.number,
        })?;
        self.place_formed(term, number)
    }

    /// Combines a row where `symbol` has a positive coefficient with one where it has a negative one, without the symbol.
    fn combine(
        &mut self,
        alloc: Global,
        symbol: u64,
        x: &Numbered,
        y: &Numbered,
    ) -> Result<Outcome, AllocError>
        requires positive { is_positive symbol x.now ≡ true }
        requires negative { is_negative symbol y.now ≡ true }
        ensures { IfOk result
            (λ o. progress o self.new ≡ combined_rows symbol x.now y.now self.old) }
    {
        let (b, a) = factors(size(symbol, x), size(symbol, y));
        self.take_step(alloc, b, x, a, y)
    }

    fn combine_each(
        &mut self,
        alloc: Global,
        symbol: u64,
        x: &Numbered,
        ys: &[Numbered],
    ) -> Result<Outcome, AllocError>
        requires positive { is_positive symbol x.now ≡ true }
        requires negative { All (λ y. is_negative symbol y ≡ true) ys.now }
        ensures { IfOk result
            (λ o. progress o self.new ≡ each_combined symbol x.now ys.now self.old) }
    {
        for y in ys {
            match self.combine(alloc, symbol, x, y)? {
                Outcome::Going => {}
                other => return Ok(other),
            }
        }
        Ok(Outcome::Going)
    }

    fn combine_all(
        &mut self,
        alloc: Global,
        symbol: u64,
        xs: &[Numbered],
        ys: &[Numbered],
    ) -> Result<Outcome, AllocError>
        requires positive { All (λ x. is_positive symbol x ≡ true) xs.now }
        requires negative { All (λ y. is_negative symbol y ≡ true) ys.now }
        ensures { IfOk result
            (λ o. progress o self.new ≡ all_combined symbol xs.now ys.now self.old) }
    {
        for x in xs {
            match self.combine_each(alloc, symbol, x, ys)? {
                Outcome::Going => {}
                other => return Ok(other),
            }
        }
        Ok(Outcome::Going)
    }

    /// Sets the rows with `symbol` aside, and places the rows that their combinations form.
    fn eliminate(&mut self, alloc: Global, symbol: u64) -> Result<Outcome, AllocError>
        ensures { IfOk result (λ o. progress o self.new ≡ eliminated symbol self.old) }
    {
        let rows = mem::replace(&mut self.rows, Vec::new(alloc));
        let (aside, others) = split(alloc, symbol, rows)?;
        self.rows = others;
        let outcome = self.combine_all(
            alloc,
            symbol,
            aside.positive.as_slice(),
            aside.negative.as_slice(),
        )?;
        self.asides.push(aside)?;
        Ok(outcome)
    }

    /// The symbol to eliminate next, if one is left.
    fn next_symbol(&self, left: &[u64]) -> Option<u64>
        ensures { result ≡ next_of self.now.rows left.now }
    {
        match left {
            [] => None,
            [first, others @ ..] => Some(cheapest(&self.rows, *first, others)),
        }
    }

    /// Eliminates the symbols one after another.
    pub fn eliminate_all(&mut self, alloc: Global, symbols: Vec<u64>) -> Result<Outcome, AllocError>
        ensures { IfOk result
            (λ o. progress o self.new ≡ all_eliminated (length symbols.items) symbols.items
            self.old) }
    {
        let mut left = symbols;
        for turn in (0..left.len()).rev() {
            match self.next_symbol(&left) {
                None => return Ok(Outcome::Going),
                Some(symbol) => match self.eliminate(alloc, symbol)? {
                    Outcome::Going => left = without(alloc, symbol, &left)?,
                    other => return Ok(other),
                },
            }
        }
        Ok(Outcome::Going)
    }

    /// The steps, the oldest first.
    pub fn steps(&self) -> &[Step]
        ensures { reverse result.now ≡ self.now.steps }
    {
        self.steps.as_slice()
    }

    /// The rows set aside, those of the first symbol first.
    pub fn into_asides(self) -> Vec<Aside>
        ensures { reverse result.items ≡ self.asides }
    {
        let State { asides, .. } = self;
        asides
    }
}
