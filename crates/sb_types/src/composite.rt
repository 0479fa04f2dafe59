//! The composite type of two compatible types (C99 6.2.7).
ghost use Rattle.std.specs.Prelude.{◌≡◌, ◌<◌, length, reverse, slice_get, true, Some, IfOk, OnOk};
ghost use Rattle.sb_typing.specs.Classes.{compatible};
ghost use Rattle.sb_typing.specs.TypeLaws.{IsOrdered};
ghost use Rattle.sb_types.specs.Composite.{known_length, IsComposite};
ghost use Rattle.sb_types.specs.Steps as spec;
ghost use Rattle.sb_types.specs.Table.{kinds_of, IsTypeTable, Keeps, WhereFault, IsFull, HasFilled};

use crate::fault::TableFault;
use crate::table::TypeTable;
use sb_core::{Kind, TypeId};
use std::alloc::{AllocError, Global};

/// What two types are to their parts: pointers, or arrays of which so many elements are known.
#[derive(Clone, Copy)]
enum Step {
    Pointer,
    Array(u64),
}

/// The parts of two types that are not one.
#[derive(Clone, Copy)]
struct Parts {
    step: Step,
    left: TypeId,
    right: TypeId,
}

/// The steps from two types down to the parts that are one type.
#[derive(Drop)]
struct Descent {
    steps: Vec<Step>,
    end: TypeId,
}

/// The length that is known of two.
fn known_length(m: u64, n: u64) -> u64
    ensures { result ≡ known_length m n }
{
    if m == 0 { n } else { m }
}

/// What two pointers point to, or the elements of two arrays.
fn parts_of_kinds(left: &Kind, right: &Kind) -> Option<Parts>
    ensures { result ≡ spec.parts_of_kinds (Some left.now) (Some right.now) }
{
    match left {
        Kind::Pointer(a) => match right {
            Kind::Pointer(b) => Some(Parts {
                step: Step::Pointer,
                left: *a,
                right: *b,
            }),
            Kind::Void | Kind::Number { .. } | Kind::Array(..) | Kind::Struct(..) => None,
        },
        Kind::Array(a, m) => match right {
            Kind::Array(b, n) => Some(Parts {
                step: Step::Array(known_length(*m, *n)),
                left: *a,
                right: *b,
            }),
            Kind::Void | Kind::Number { .. } | Kind::Pointer(_) | Kind::Struct(..) => None,
        },
        Kind::Void | Kind::Number { .. } | Kind::Struct(..) => None,
    }
}

/// The parts of two types that are not one.
fn parts_of(types: &[Kind], t: TypeId, u: TypeId) -> Option<Parts>
    ensures { result ≡ spec.parts_of types.now t u }
{
    if t.0 == u.0 {
        return None;
    }
    let left = types.get(t.0 as usize)?;
    let right = types.get(u.0 as usize)?;
    parts_of_kinds(left, right)
}

/// The way down from two compatible types.
fn way_down(alloc: Global, types: &[Kind], a: TypeId, b: TypeId) -> Result<Descent, AllocError>
    requires ordered { IsOrdered types.now }
    requires compatible { compatible types.now a b ≡ true }
    ensures { IfOk result
        (λ way. spec.LeadsToOne types.now (reverse way.steps.items) a b way.end) }
{
    let mut steps = Vec::new(alloc);
    let mut left = a;
    let mut right = b;
    while let Some(parts) = parts_of(types, left, right) {
        steps.push(parts.step)?;
        left = parts.left;
        right = parts.right;
    }
    Ok(Descent { steps, end: left })
}

impl TypeTable {
    /// The type one step up from another.
    fn step_up(&mut self, t: TypeId, step: Step) -> Result<TypeId, TableFault>
        requires table { IsTypeTable self.old }
        requires within { t.0 < length (kinds_of self.old) }
        requires room { spec.HasRoom self.old step t }
        ensures gives { IfOk result
            (λ c. slice_get (kinds_of self.new) c.0 ≡ Some (spec.above step t)) }
        ensures keeps { OnOk result (Keeps self.old self.new) }
        ensures table { OnOk result (IsTypeTable self.new) }
        ensures full { WhereFault ⊥ (IsFull self.old self.new) result }
    {
        match step {
            Step::Pointer => self.pointer_to(t),
            Step::Array(count) => self.array_of(t, count),
        }
    }

    /// The composite type of two compatible types (6.2.7 paragraph 3): the one that the table has, or a new type.
    /// `Full` where the table cannot hold it, and `Memory`.
    pub fn composite(&mut self, alloc: Global, a: TypeId, b: TypeId) -> Result<TypeId, TableFault>
        requires table { IsTypeTable self.old }
        requires compatible { compatible (kinds_of self.old) a b ≡ true }
        ensures gives { IfOk result (IsComposite (kinds_of self.new) a b) }
        ensures keeps { OnOk result (Keeps self.old self.new) }
        ensures table { OnOk result (IsTypeTable self.new) }
        ensures full { WhereFault ⊥ (HasFilled self.old self.new) result }
    {
        let way = way_down(alloc, self.kinds(), a, b)?;
        let mut steps = way.steps;
        let mut t = way.end;
        while let Some(step) = steps.pop() {
            t = self.step_up(t, step)?;
        }
        Ok(t)
    }
}
