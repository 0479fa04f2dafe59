//! The macro definitions that stand, and which is that of a name.
ghost use Rattle.std.specs.Prelude.{◌≡◌, ◌<◌, ◌++◌, ◌∷◌, ℕ, [], None, OnErr, OnOk, length, slice_get, slice_set};
ghost use Rattle.std.specs.Option.{option_copied, option_map};
ghost use Rattle.sb_macro.specs.Macros.{IsDistinct, macro_of, macro_named, without};
ghost use Rattle.sb_macro.specs.Slots.{IsIndex, IsKept, IsSlot, Keeps, is_named, slot_at};

use crate::stored::Stored;
use sb_base::Name;
use std::alloc::{AllocError, Global};
use std::marker::Model;

/// The macros that stand, in the order of their definition, at most one of a name.
///
/// A macro that is taken away leaves an empty slot. `places` has the slot of a macro at its name's number. What it has
/// at the number of another name says nothing, so the slot itself is asked for its name.
#[derive(Drop)]
pub struct Definitions {
    slots: Vec<Option<Stored>>,
    places: Vec<usize>,
}

impl Model for Definitions {
    ghost use Rattle.std.specs.Prelude.{List};
    ghost use Rattle.sb_macro.specs.Macros.{Macro};
    ghost use Rattle.sb_macro.specs.Slots.{IsKept, standing};

    ghost Value = { List Macro };

    ghost view = { λ d. standing d.slots.items };

    ghost invariant = { λ d. IsKept d.slots.items d.places.items };
}

/// Whether a slot has the macro of a name.
fn has_name(slots: &[Option<Stored>], place: usize, name: Name) -> bool
    ensures { result ≡ is_named name (slot_at slots.now place) }
{
    match slots.get(place) {
        Some(Some(stored)) => stored.name.0 == name.0,
        Some(None) => false,
        None => false,
    }
}

/// The slot that has the macro of a name.
fn slot_of(slots: &[Option<Stored>], places: &[usize], name: Name) -> Option<usize>
    requires { IsIndex slots.now places.now }
    ensures { IsSlot slots.now name result }
{
    let Some(place) = places.get(name.0 as usize) else {
        return None;
    };
    if has_name(slots, *place, name) {
        Some(*place)
    } else {
        None
    }
}

/// Empties a slot.
fn empty(slots: &mut Vec<Option<Stored>>, place: usize)
    requires { place < length slots.old.items }
    ensures { slots.new.items ≡ slice_set slots.old.items place None }
{
    slots[place] = None;
}

/// Has a place at this name's number.
fn make_room(places: &mut Vec<usize>, name: Name) -> Result<(), AllocError>
    ensures within { OnOk result (name.0 < length places.new.items) }
    ensures keeps { Keeps places.old.items places.new.items }
{
    let number = name.0 as usize;
    if number >= places.len() {
        places.resize(number + 1, 0)?;
    }
    Ok(())
}

impl Definitions {
    /// No macros.
    pub fn new(alloc: Global) -> Definitions
        ensures empty { result ≡ [] }
    {
        Definitions {
            slots: Vec::new(alloc),
            places: Vec::new(alloc),
        }
    }

    /// The macro of a name.
    pub fn find(&self, name: Name) -> Option<&Stored>
        ensures { option_map macro_of (option_copied result) ≡ macro_named self.now name }
    {
        let Some(place) = slot_of(self.slots.as_slice(), self.places.as_slice(), name) else {
            return None;
        };
        self.slots[place].as_ref()
    }

    /// Adds a macro where its name has none.
    pub fn add(&mut self, stored: Stored) -> Result<(), AllocError>
        requires { macro_named self.old stored.name ≡ None }
        ensures added { OnOk result (self.new ≡ self.old ++ macro_of stored ∷ []) }
        ensures err { OnErr result (self.new ≡ self.old) }
        ensures distinct { OnOk result (IsDistinct self.new) }
    {
        let name = stored.name;
        let place = self.slots.len();
        make_room(&mut self.places, name)?;
        self.slots.push(Some(stored))?;
        self.places[name.0 as usize] = place;
        Ok(())
    }

    /// Takes the name's macro away, if there is one.
    pub fn take_away(&mut self, name: Name)
        ensures without { self.new ≡ without self.old name }
        ensures distinct { IsDistinct self.new }
    {
        if let Some(place) = slot_of(self.slots.as_slice(), self.places.as_slice(), name) {
            empty(&mut self.slots, place);
        }
    }
}
