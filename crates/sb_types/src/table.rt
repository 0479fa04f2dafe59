//! The table of types: with each type its size, and the pointer to it.
ghost use Rattle.std.specs.Prelude.{◌≡◌, ◌<◌, ◌≤◌, ◌++◌, ◌∷◌, [], length, slice_get, slice_set, is_some, true, Some, None, MatchOption, IfOk, OnOk};
ghost use Rattle.sb_core.specs.Beginning.{first_types};
ghost use Rattle.sb_core.specs.declared.types.Kind.TheVariants as kind;
ghost use Rattle.sb_core.specs.Layout as core;
ghost use Rattle.sb_core.specs.Layout.{base_at};
ghost use Rattle.sb_layout.specs.Faults.{IsSmall};
ghost use Rattle.sb_typing.specs.Classes.{has_some, is_complete, is_complete_kind};
ghost use Rattle.sb_types.specs.Table as spec;

use crate::arrays::Arrays;
use crate::fault::TableFault;
use sb_base::Name;
use sb_core::{Base, Kind, Member, TypeId, Types};
use sb_layout::base_of;
use std::alloc::Global;

/// A table has at most so many types.
const MOST: usize = 16_777_216;

/// A type has fewer bytes.
const LIMIT: u64 = 2_147_483_648;

/// The types of a set while it is elaborated. Beside each stand its size and alignment, where it is complete, and the
/// pointer to it, where the table has one.
#[derive(Drop)]
pub struct TypeTable {
    types: Types,
    bases: Vec<Option<Base>>,
    pointers: Vec<Option<TypeId>>,
    arrays: Arrays,
}

/// A number or a pointer of so many bytes.
fn scalar(size: u64) -> Option<Base>
    ensures { result ≡ Some (record { size = size; align = size }) }
{
    Some(Base { size, align: size })
}

/// The sizes of the types 0 to 12.
fn first_bases(alloc: Global) -> Result<Vec<Option<Base>>, TableFault>
    ensures gives { IfOk result (λ bases. bases.items ≡ spec.first_bases) }
    ensures memory { spec.WhereFault ⊥ ⊥ result }
{
    let bases = Vec::from_array(
        alloc,
        [
            None,
            scalar(1),
            scalar(1),
            scalar(1),
            scalar(1),
            scalar(2),
            scalar(2),
            scalar(4),
            scalar(4),
            scalar(4),
            scalar(4),
            scalar(8),
            scalar(8),
        ],
    )?;
    Ok(bases)
}

/// No pointers to the types 0 to 12.
fn first_pointers(alloc: Global) -> Result<Vec<Option<TypeId>>, TableFault>
    ensures gives { IfOk result (λ pointers. pointers.items ≡ spec.first_pointers) }
    ensures memory { spec.WhereFault ⊥ ⊥ result }
{
    let pointers = Vec::from_array(
        alloc,
        [
            None, None, None, None, None, None, None, None, None, None, None, None, None,
        ],
    )?;
    Ok(pointers)
}

/// The base of an array, if it is below the limit.
fn array_of(count: u64, of: Base) -> Option<Base>
    requires small { IsSmall of }
    ensures { MatchOption result (2147483648 ≤ (core.array_of count of).size)
        (λ b. (b ≡ core.array_of count of) × IsSmall b) }
{
    let size = count.checked_mul(of.size)?;
    if size < LIMIT {
        Some(Base {
            size,
            align: of.align,
        })
    } else {
        None
    }
}

impl TypeTable {
    /// The types 0 to 12.
    #[tactic(auto, using(crate::proofs::FirstTypes::first_table, crate::proofs::Ordered::first_ordered, crate::proofs::Elements::first_elements))]
    pub fn new(alloc: Global) -> Result<TypeTable, TableFault>
        ensures kinds { IfOk result (λ table. spec.kinds_of table ≡ first_types) }
        ensures table { IfOk result spec.IsTypeTable }
        ensures memory { spec.WhereFault ⊥ ⊥ result }
    {
        let types = Types::new(alloc)?;
        let bases = first_bases(alloc)?;
        let pointers = first_pointers(alloc)?;
        Ok(TypeTable {
            types,
            bases,
            pointers,
            arrays: Arrays::new(alloc),
        })
    }

    /// The types as they stand.
    pub fn kinds(&self) -> &[Kind]
        ensures { result.now ≡ spec.kinds_of self.now }
    {
        &self.types.list
    }

    /// The types, when all are made.
    pub fn into_types(self) -> Types
        ensures { result.list.items ≡ spec.kinds_of self }
    {
        self.types
    }

    /// The number of the next type, if there may be one more.
    fn next(&self) -> Result<TypeId, TableFault>
        ensures gives { IfOk result (λ t. t.0 ≡ length (spec.kinds_of self.now)) }
        ensures few { IfOk result (λ t. t.0 < 16777216) }
        ensures full { spec.WhereFault ⊥ (16777216 ≤ length (spec.kinds_of self.now)) result }
    {
        let count = self.types.list.len();
        if count < MOST {
            Ok(TypeId(count as u32))
        } else {
            Err(TableFault::Full)
        }
    }

    /// Adds a type behind the others.
    fn push(&mut self, kind: Kind, base: Option<Base>) -> Result<TypeId, TableFault>
        ensures gives { IfOk result (λ t. t.0 ≡ length (spec.kinds_of self.old)) }
        ensures few { IfOk result (λ t. t.0 < 16777216) }
        ensures kinds { OnOk result (spec.kinds_of self.new ≡ spec.kinds_of self.old ++ kind ∷ []) }
        ensures bases { OnOk result (self.new.bases.items ≡ self.old.bases.items ++ base ∷ []) }
        ensures pointers { OnOk result
            (self.new.pointers.items ≡ self.old.pointers.items ++ None ∷ []) }
        ensures arrays { OnOk result (self.new.arrays ≡ self.old.arrays) }
        ensures full { spec.WhereFault ⊥ (spec.IsFull self.old self.new) result }
    {
        let t = self.next()?;
        self.types.list.push(kind)?;
        self.bases.push(base)?;
        self.pointers.push(None)?;
        Ok(t)
    }

    /// The pointer to a type (6.7.5.1): the one that the table has, or a new type.
    pub fn pointer_to(&mut self, t: TypeId) -> Result<TypeId, TableFault>
        requires table { spec.IsTypeTable self.old }
        requires within { t.0 < length (spec.kinds_of self.old) }
        ensures gives { IfOk result
            (λ p. slice_get (spec.kinds_of self.new) p.0 ≡ Some (kind.Pointer t)) }
        ensures keeps { OnOk result (spec.Keeps self.old self.new) }
        ensures table { OnOk result (spec.IsTypeTable self.new) }
        ensures full { spec.WhereFault ⊥ (spec.IsFull self.old self.new) result }
    {
        if let Some(p) = self.pointers[t.0 as usize] {
            return Ok(p);
        }
        let p = self.push(Kind::Pointer(t), scalar(8))?;
        self.pointers[t.0 as usize] = Some(p);
        Ok(p)
    }

    /// The size and the alignment of a type, where it is complete.
    pub fn base(&self, t: TypeId) -> Option<Base>
        ensures { result ≡ base_at self.now.bases.items t.0 }
    {
        match self.bases.get(t.0 as usize) {
            Some(b) => *b,
            None => None,
        }
    }

    /// The members of a struct in their order: none of another type, or of a struct that is not completed (6.7.2.1).
    pub fn members(&self, t: TypeId) -> &[Member]
        ensures { result.now ≡ spec.members_of (slice_get (spec.kinds_of self.now) t.0) }
    {
        match self.types.list.get(t.0 as usize) {
            Some(Kind::Struct(_, members)) => members,
            Some(Kind::Void | Kind::Number { .. } | Kind::Pointer(_) | Kind::Array(..)) | None =>
                &[],
        }
    }

    /// The base of an array: none of unknown length, whose count is 0.
    fn array_base(&self, of: TypeId, count: u64) -> Result<Option<Base>, TableFault>
        requires table { spec.IsTypeTable self.now }
        requires element { is_complete (spec.kinds_of self.now) of ≡ true }
        ensures laid { IfOk result (spec.IsLaid self.now.bases.items (kind.Array of count)) }
        ensures complete { IfOk result
            (λ o. is_some o ≡ is_complete_kind (Some (kind.Array of count))) }
        ensures big { spec.WhereFault (spec.IsBigArray self.now of count) ⊥ result }
    {
        if count == 0 {
            return Ok(None);
        }
        match self.base(of) {
            None => Ok(None),
            Some(b) => match array_of(count, b) {
                Some(whole) => Ok(Some(whole)),
                None => Err(TableFault::TooBig),
            },
        }
    }

    /// The array of so many elements of a complete type, and of unknown length where the count is 0 (6.7.5.2): the one
    /// that the table has, or a new type.
    pub fn array_of(&mut self, of: TypeId, count: u64) -> Result<TypeId, TableFault>
        requires table { spec.IsTypeTable self.old }
        requires element { is_complete (spec.kinds_of self.old) of ≡ true }
        ensures gives { IfOk result
            (λ t. slice_get (spec.kinds_of self.new) t.0 ≡ Some (kind.Array of count)) }
        ensures keeps { OnOk result (spec.Keeps self.old self.new) }
        ensures table { OnOk result (spec.IsTypeTable self.new) }
        ensures fault { spec.WhereFault
            (spec.IsBigArray self.old of count × (self.new ≡ self.old))
            (spec.IsFull self.old self.new)
            result }
    {
        if let Some(t) = self.arrays.get(of, count) {
            return Ok(t);
        }
        let base = self.array_base(of, count)?;
        let t = self.push(Kind::Array(of, count), base)?;
        self.arrays.insert(of, count, t)?;
        Ok(t)
    }

    /// A new struct that is not completed (6.7.2.3).
    pub fn open_struct(&mut self, alloc: Global, tag: Option<Name>) -> Result<TypeId, TableFault>
        requires table { spec.IsTypeTable self.old }
        ensures new { IfOk result (λ t. t.0 ≡ length (spec.kinds_of self.old)) }
        ensures gives { IfOk result
            (λ t. spec.IsStruct (slice_get (spec.kinds_of self.new) t.0) tag []) }
        ensures keeps { OnOk result (spec.Keeps self.old self.new) }
        ensures table { OnOk result (spec.IsTypeTable self.new) }
        ensures full { spec.WhereFault ⊥ (spec.IsFull self.old self.new) result }
    {
        let t = self.push(Kind::Struct(tag, Vec::new(alloc)), None)?;
        Ok(t)
    }

    /// Puts a kind with its base in place of another.
    fn put(&mut self, t: TypeId, kind: Kind, base: Option<Base>)
        requires within { t.0 < length (spec.kinds_of self.old) }
        requires beside { length self.old.bases.items ≡ length (spec.kinds_of self.old) }
        ensures kinds { spec.kinds_of self.new ≡ slice_set (spec.kinds_of self.old) t.0 kind }
        ensures bases { self.new.bases.items ≡ slice_set self.old.bases.items t.0 base }
        ensures pointers { self.new.pointers ≡ self.old.pointers }
        ensures arrays { self.new.arrays ≡ self.old.arrays }
    {
        self.types.list[t.0 as usize] = kind;
        self.bases[t.0 as usize] = base;
    }

    /// Completes a struct with that tag: each of its members, of which there is one, has a complete type (6.7.2.1).
    pub fn complete(
        &mut self,
        alloc: Global,
        t: TypeId,
        tag: Option<Name>,
        members: Vec<Member>,
    ) -> Result<(), TableFault>
        requires table { spec.IsTypeTable self.old }
        requires open { spec.IsStruct (slice_get (spec.kinds_of self.old) t.0) tag [] }
        requires some { has_some members.items ≡ true }
        requires members { spec.are_complete (spec.kinds_of self.old) members.items ≡ true }
        ensures gives { OnOk result
            (spec.IsStruct (slice_get (spec.kinds_of self.new) t.0) tag members.items) }
        ensures others { OnOk result (spec.OthersStay self.old self.new t.0) }
        ensures table { OnOk result (spec.IsTypeTable self.new) }
        ensures big { spec.WhereFault
            (spec.IsBigStruct self.old members.items × (self.new ≡ self.old)) ⊥ result }
    {
        let kind = Kind::Struct(tag, members);
        let base = base_of(alloc, &self.bases, &kind)?;
        self.put(t, kind, base);
        Ok(())
    }
}
