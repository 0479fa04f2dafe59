//! The table of names: each text has a number, in order of first use.
ghost use Rattle.std.specs.Prelude.{◌≡◌, ◌↔◌, ◌<◌, ◌≤◌, List, [], ◌∷◌, Some, None, false, IfOk, OnOk, OnErr, IsErrOf, IsSome, length, slice_get};
ghost use Rattle.std.specs.Option.{option_copied};
ghost use Rattle.sb_base.specs.Names.{NameTable, holds_text, with_text, IsDistinct};

use indexmap::IndexSet;
use std::alloc::{AllocError, AllocFailed, Global};
use std::marker::Model;
use thiserror::Error;

/// The number of a text in a table of names, from 0 in order of first use.
#[derive(Clone, Copy, PartialEq, Eq)]
pub struct Name(pub u32);

/// Why a text got no number: the table holds as many as it may, or memory ran out.
#[derive(Clone, Copy, Debug, PartialEq, Eq, Error)]
pub enum NamesFault {
    #[error("the table of names is full")]
    Full,
    #[error("out of memory")]
    Memory,
}

impl From<AllocError> for NamesFault {
    ghost use Rattle.std.specs.Prelude.{◌≡◌};
    ghost use Rattle.sb_base.specs.declared.interning.NamesFault.TheVariants.{Memory};

    ghost from_gives = { λ _ e. e ≡ Memory };

    fn from(_e: AllocError) -> NamesFault {
        NamesFault::Memory
    }
}

impl<T: Drop> From<AllocFailed<T>> for NamesFault {
    ghost use Rattle.std.specs.Prelude.{◌≡◌};
    ghost use Rattle.sb_base.specs.declared.interning.NamesFault.TheVariants.{Memory};

    ghost from_gives = { λ _ e. e ≡ Memory };

    fn from(_e: AllocFailed<T>) -> NamesFault {
        NamesFault::Memory
    }
}

/// The texts that have a number, in order of first use.
///
/// A number is below the count of the texts, and the count is at most `limit`, a `u32`: so it fits a `Name`.
#[derive(Drop)]
pub struct Names {
    texts: IndexSet<Vec<u8>>,
    limit: u32,
}

impl Model for Names {
    ghost use Rattle.std.specs.Prelude.{map};
    ghost use Rattle.sb_base.specs.Names.{NameTable, IsTable};

    ghost Value = { NameTable };

    ghost view = { λ n. record { texts = map (λ v. v.items) n.texts.keys; limit = n.limit } };

    ghost invariant = { λ n. IsTable (map (λ v. v.items) n.texts.keys) n.limit };
}

impl Names {
    /// An empty table that holds at most `limit` texts.
    pub fn new(alloc: Global, limit: u32) -> Names
        ensures empty { result ≡ record { texts = []; limit = limit } }
        ensures distinct { IsDistinct result.texts }
    {
        Names {
            texts: IndexSet::new(alloc),
            limit,
        }
    }

    /// The number of `text`: its own if it has one, and else the next.
    pub fn intern(&mut self, alloc: Global, text: &[u8]) -> Result<Name, NamesFault>
        ensures number { IfOk result (λ name. slice_get self.new.texts name.0 ≡ Some text.now) }
        ensures texts { OnOk result (self.new.texts ≡ with_text self.old.texts text.now) }
        ensures full { IsErrOf result NamesFault.Full
            ↔ ((holds_text self.old.texts text.now ≡ false)
            × (self.old.limit ≤ length self.old.texts)) }
        ensures err { OnErr result (self.new ≡ self.old) }
        ensures limit { self.new.limit ≡ self.old.limit }
        ensures within { length self.new.texts ≤ self.new.limit }
        ensures distinct { IsDistinct self.new.texts }
    {
        if let Some(index) = self.texts.get_index_of(text) {
            return Ok(Name(index as u32));
        }
        let count = self.texts.len();
        if count >= self.limit as usize {
            return Err(NamesFault::Full);
        }
        let owned = Vec::from_slice(alloc, text)?;
        self.texts.insert(owned)?;
        Ok(Name(count as u32))
    }

    /// The text that has the number `name`, or None where no text has it.
    pub fn text(&self, name: Name) -> Option<&[u8]>
        ensures text { option_copied result ≡ slice_get self.now.texts name.0 }
        ensures known { IsSome result ↔ (name.0 < length self.now.texts) }
    {
        let text = self.texts.get_index(name.0 as usize)?;
        Some(text.as_slice())
    }

    /// How many texts have a number.
    pub fn count(&self) -> u32
        ensures count { result ≡ length self.now.texts }
    {
        self.texts.len() as u32
    }
}
