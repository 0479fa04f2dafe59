//! The arrays of a table, each with its element and its count.
ghost use Rattle.std.specs.Prelude.{◌≡◌, Some, None, OnOk};
ghost use Rattle.sb_types.specs.Arrays as spec;

use crate::fault::TableFault;
use indexmap::IndexMap;
use sb_core::TypeId;
use std::alloc::Global;

/// The arrays of a table.
#[derive(Drop)]
pub struct Arrays {
    numbers: IndexMap<(u32, u64), TypeId>,
}

impl Arrays {
    /// No arrays.
    pub(crate) fn new(alloc: Global) -> Arrays
        ensures { spec.IsEmpty result }
    {
        Arrays {
            numbers: IndexMap::new(alloc),
        }
    }

    /// The array of so many elements of a type, if there is one.
    pub(crate) fn get(&self, of: TypeId, count: u64) -> Option<TypeId>
        ensures { result ≡ spec.array_in self.now of.0 count }
    {
        match self.numbers.get(&(of.0, count)) {
            Some(t) => Some(*t),
            None => None,
        }
    }

    /// Adds an array.
    pub(crate) fn insert(&mut self, of: TypeId, count: u64, t: TypeId) -> Result<(), TableFault>
        ensures gives { OnOk result (spec.HasMore self.old self.new (of.0, count) t) }
        ensures memory { spec.IsMemory result }
    {
        self.numbers.insert((of.0, count), t)?;
        Ok(())
    }
}
