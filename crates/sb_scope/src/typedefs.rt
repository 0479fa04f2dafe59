//! The typedef names in force (C99 6.2.1, 6.7.7).
ghost use Rattle.std.specs.Prelude.{◌≡◌, ◌≤◌, ◌<◌, ◌+◌, ◌++◌, [], IfOk, suc};
ghost use Rattle.sb_scope.specs.Names as spec;
ghost use Rattle.sb_scope.specs.Parts.{names_between, all_names, middle, put};

use sb_base::Name;
use std::alloc::{AllocError, Global};
use std::marker::Model;
use std::rc::Rc;

/// The names in force among those with numbers of a range.
#[derive(Drop)]
enum Part {
    None,
    /// The lowest name of the range alone.
    Lowest,
    /// The names of the lower half of the range and those of the upper half.
    Halves(Rc<Part>, Rc<Part>),
}

/// The typedef names in force, in the order of their numbers. Copies share what they have in common.
#[derive(Drop)]
pub struct Typedefs {
    all: Part,
}

/// Where an expression, a type name or annotations are read: the typedef names in force there.
#[derive(Drop)]
pub struct Scope {
    pub types: Typedefs,
}

impl Model for Typedefs {
    ghost use Rattle.std.specs.Prelude.{List};
    ghost use Rattle.sb_scope.specs.Parts.{all_names};
    ghost use Rattle.sb_base.specs.declared.interning.Name.{Name};

    ghost Value = { List Name };

    ghost view = { λ types. all_names types.all };
}

/// Past the number of each name.
const END: u64 = 1 << 32;

/// Where the upper half of a range begins.
fn half(from: u64, to: u64) -> u64
    requires { from ≤ to }
    ensures { result ≡ middle from to }
{
    from + (to - from) / 2
}

impl Part {
    fn has(&self, from: u64, to: u64, name: Name) -> bool
        requires low { from ≤ name.0 }
        requires high { name.0 < to }
        ensures { result ≡ spec.is_among name (names_between from to self.now) }
    {
        let number = u64::from(name.0);
        match self {
            Part::None => false,
            Part::Lowest => number == from,
            Part::Halves(low, high) => {
                let middle = half(from, to);
                if number < middle {
                    low.has(from, middle, name)
                } else {
                    high.has(middle, to, name)
                }
            }
        }
    }

    /// The names of the two halves of a range of two numbers or more.
    #[tactic(auto, using(crate::proofs::Ranges::lowest_in_half))]
    fn halves(&self, alloc: Global, from: u64, to: u64) -> Result<(Rc<Part>, Rc<Part>), AllocError>
        requires { suc from < to }
        ensures { IfOk result (λ halves. names_between from (middle from to) halves.0.value
            ++ names_between (middle from to) to halves.1.value ≡ names_between from to self.now) }
    {
        match self {
            Part::None => {
                let none = Rc::new(alloc, Part::None)?;
                Ok((none.clone()?, none))
            }
            Part::Lowest => {
                let high = Rc::new(alloc, Part::None)?;
                Ok((Rc::new(alloc, Part::Lowest)?, high))
            }
            Part::Halves(low, high) => Ok((low.clone()?, high.clone()?)),
        }
    }

    /// The names with this one, or without it.
    #[tactic(auto, using(crate::proofs::Ranges::puts_only, crate::proofs::Ranges::lowest_is))]
    fn put(
        &self,
        alloc: Global,
        from: u64,
        to: u64,
        name: Name,
        present: bool,
    ) -> Result<Part, AllocError>
        requires low { from ≤ name.0 }
        requires high { name.0 < to }
        ensures { IfOk result (λ part. names_between from to part
            ≡ put present name (names_between from to self.now)) }
    {
        if to - from == 1 {
            return Ok(if present { Part::Lowest } else { Part::None });
        }
        let middle = half(from, to);
        let (low, high) = self.halves(alloc, from, to)?;
        if u64::from(name.0) < middle {
            let low = low.put(alloc, from, middle, name, present)?;
            Ok(Part::Halves(Rc::new(alloc, low)?, high))
        } else {
            let high = high.put(alloc, middle, to, name, present)?;
            Ok(Part::Halves(low, Rc::new(alloc, high)?))
        }
    }

    fn copy(&self) -> Result<Part, AllocError>
        ensures { IfOk result (λ part. all_names part ≡ all_names self.now) }
    {
        match self {
            Part::None => Ok(Part::None),
            Part::Lowest => Ok(Part::Lowest),
            Part::Halves(low, high) => Ok(Part::Halves(low.clone()?, high.clone()?)),
        }
    }
}

impl Typedefs {
    /// No typedef is in force.
    pub fn none() -> Typedefs
        ensures { result ≡ [] }
    {
        Typedefs { all: Part::None }
    }

    /// Whether a name is that of a type.
    pub fn has(&self, name: Name) -> bool
        ensures { result ≡ spec.is_among name self.now }
    {
        self.all.has(0, END, name)
    }

    /// A typedef of this name comes into force.
    pub fn add(&mut self, alloc: Global, name: Name) -> Result<(), AllocError>
        ensures { IfOk result (λ _. self.new ≡ spec.including name self.old) }
    {
        self.all = self.all.put(alloc, 0, END, name, true)?;
        Ok(())
    }

    /// A name hides the typedef that has it.
    #[tactic(auto, using(crate::proofs::Ranges::without_absent))]
    pub fn hide(&mut self, alloc: Global, name: Name) -> Result<(), AllocError>
        ensures { IfOk result (λ _. self.new ≡ spec.without name self.old) }
    {
        if self.has(name) {
            self.all = self.all.put(alloc, 0, END, name, false)?;
        }
        Ok(())
    }
}

impl Clone for Typedefs {
    ghost is_clone = { λ types copy. copy ≡ types };

    fn clone(&self) -> Result<Typedefs, AllocError> {
        Ok(Typedefs {
            all: self.all.copy()?,
        })
    }
}
