//! The layout of types: sizes, alignments, offsets of members and padding (C99 6.2.6.1, 6.5.3.4, 6.7.2.1).
ghost use Rattle.std.specs.Prelude.{◌≡◌, ◌↔◌, ◌<◌, Some, IsTrue, length, map, slice_get};
ghost use Rattle.sb_core.specs.Layout.{Layouts};
ghost use Rattle.sb_core.specs.Looked.{HasType, HasMember, base_in, spot_in};

use crate::types::TypeId;
use std::marker::Model;

/// The size and the alignment of a type, in bytes.
#[derive(Clone, Copy)]
pub struct Base {
    pub size: u64,
    pub align: u64,
}

/// Where a member stands in its struct, and how many bytes of padding follow it.
#[derive(Clone, Copy)]
pub struct Spot {
    pub offset: u64,
    pub pad: u64,
}

/// The layout of a table of types: a base for each type, and a spot for each of its members.
#[derive(Drop)]
pub struct Layout {
    bases: Vec<Base>,
    spots: Vec<Vec<Spot>>,
}

impl Model for Layout {
    ghost use Rattle.std.specs.Prelude.{map};
    ghost use Rattle.sb_core.specs.Layout.{Layouts};

    ghost Value = { Layouts };

    ghost view = { λ l. record { bases = l.bases.items; spots = map (λ v. v.items) l.spots.items } };
}

impl Layout {
    /// A layout of these bases and spots.
    pub fn new(bases: Vec<Base>, spots: Vec<Vec<Spot>>) -> Layout
        ensures { result ≡ record { bases = bases.items; spots = map (λ v. v.items) spots.items } }
    {
        Layout { bases, spots }
    }

    /// Whether the type is in the table.
    pub fn has_type(&self, t: TypeId) -> bool
        ensures { IsTrue result ↔ HasType self.now t }
    {
        (t.0 as usize) < self.bases.len()
    }

    /// Whether the type is in the table and has that member.
    pub fn has_member(&self, t: TypeId, member: u32) -> bool
        ensures { IsTrue result ↔ HasMember self.now t member }
    {
        match self.spots.get(t.0 as usize) {
            Some(spots) => (member as usize) < spots.len(),
            None => false,
        }
    }

    /// The bytes of a type (6.5.3.4).
    pub fn size(&self, t: TypeId) -> u64
        requires { HasType self.now t }
        ensures { result ≡ (base_in self.now t).size }
    {
        self.bases[t.0 as usize].size
    }

    /// The alignment of a type: each of its objects stands at a multiple of it.
    pub fn align(&self, t: TypeId) -> u64
        requires { HasType self.now t }
        ensures { result ≡ (base_in self.now t).align }
    {
        self.bases[t.0 as usize].align
    }

    /// How many bytes stand in a struct before a member.
    pub fn offset(&self, t: TypeId, member: u32) -> u64
        requires { HasMember self.now t member }
        ensures { result ≡ (spot_in self.now t member).offset }
    {
        self.spots[t.0 as usize][member as usize].offset
    }

    /// How many bytes of padding stand behind a member, before the next one or the end of its struct.
    pub fn pad_after(&self, t: TypeId, member: u32) -> u64
        requires { HasMember self.now t member }
        ensures { result ≡ (spot_in self.now t member).pad }
    {
        self.spots[t.0 as usize][member as usize].pad
    }
}
