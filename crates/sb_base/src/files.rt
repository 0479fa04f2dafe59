//! The files that a run has met: each name has a number, in order of first use.
ghost use Rattle.std.specs.Prelude.{◌≡◌, ◌↔◌, ◌<◌, ◌≤◌, ◌^◌, ◌-◌, suc, [], Some, IfOk, OnOk, OnErr, IsSome, length, slice_get};
ghost use Rattle.std.specs.Option.{option_copied};
ghost use Rattle.sb_base.specs.Names.{with_text, IsDistinct};

use crate::interning::{Name, Names, NamesFault};
use std::alloc::{AllocError, Global};
use std::marker::Model;

/// The names of the files of a run, in order of first use. A place names its file by its number.
#[derive(Drop)]
pub struct Files {
    names: Names,
}

impl Model for Files {
    ghost use Rattle.std.specs.Prelude.{◌≡◌, ◌^◌, ◌-◌, List, ℕ};

    ghost Value = { List (List ℕ) };

    ghost view = { λ f. f.names.texts };

    ghost invariant = { λ f. f.names.limit ≡ 2 ^ 32 - 1 };
}

impl Files {
    /// No files.
    pub fn new(alloc: Global) -> Files
        ensures empty { result ≡ [] }
    {
        Files {
            names: Names::new(alloc, u32::MAX),
        }
    }

    /// The number of the file `name`: its own if it has one, and else the next. A run meets fewer than 2^32 - 1 files.
    pub fn number(&mut self, alloc: Global, name: &[u8]) -> Result<u32, AllocError>
        requires room { length self.now < 2 ^ 32 - 1 }
        ensures number { IfOk result (λ file. slice_get self.new file ≡ Some name.now) }
        ensures names { OnOk result (self.new ≡ with_text self.old name.now) }
        ensures grown { length self.new ≤ suc (length self.old) }
        ensures err { OnErr result (self.new ≡ self.old) }
        ensures distinct { IsDistinct self.new }
    {
        match self.names.intern(alloc, name) {
            Ok(Name(file)) => Ok(file),
            Err(_) => Err(AllocError),
        }
    }

    /// The name of the file that has the number, or None where none has it.
    pub fn name(&self, file: u32) -> Option<&[u8]>
        ensures name { option_copied result ≡ slice_get self.now file }
        ensures known { IsSome result ↔ (file < length self.now) }
    {
        self.names.text(Name(file))
    }

    /// How many files have a number.
    pub fn count(&self) -> u32
        ensures count { result ≡ length self.now }
    {
        self.names.count()
    }
}
