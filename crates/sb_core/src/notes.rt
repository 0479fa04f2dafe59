//! Annotations and their arguments put together: each call makes one node of its parts.
ghost use Rattle.std.specs.Prelude.{◌≡◌};
ghost use Rattle.sb_core.specs.Trees as core;
ghost use Rattle.sb_core.specs.Plain.{plain_size, plain_arg, plain_args, plain_note, arg_list};

use crate::note::{CoreArg, CoreNote, CoreSize};
use crate::operator::{SizeBinary, SizeUnary};
use sb_base::{Name, Place};

impl CoreSize {
    /// A constant.
    #[tactic(auto, unfolding(crate::specs::Plain::plain_size))]
    pub fn number(value: i128, place: Place) -> CoreSize
        ensures { plain_size result ≡ core.Amount value place }
    {
        CoreSize::Number(value, place)
    }

    /// `(void *)0`.
    #[tactic(auto, unfolding(crate::specs::Plain::plain_size))]
    pub fn null(place: Place) -> CoreSize
        ensures { plain_size result ≡ core.NullPointer place }
    {
        CoreSize::Null(place)
    }

    /// A name.
    #[tactic(auto, unfolding(crate::specs::Plain::plain_size))]
    pub fn name(name: Name, place: Place) -> CoreSize
        ensures { plain_size result ≡ core.Identifier name place }
    {
        CoreSize::Name(name, place)
    }

    /// `*name`.
    #[tactic(auto, unfolding(crate::specs::Plain::plain_size))]
    pub fn target(name: Name, name_place: Place, place: Place) -> CoreSize
        ensures { plain_size result ≡ core.Target name name_place place }
    {
        CoreSize::Target {
            name,
            name_place,
            place,
        }
    }

    /// `name->field`.
    #[tactic(auto, unfolding(crate::specs::Plain::plain_size))]
    pub fn field(
        name: Name,
        name_place: Place,
        field: Name,
        field_place: Place,
        place: Place,
    ) -> CoreSize
        ensures { plain_size result ≡ core.Field name name_place field field_place place }
    {
        CoreSize::Field {
            name,
            name_place,
            field,
            field_place,
            place,
        }
    }

    /// `return`.
    #[tactic(auto, unfolding(crate::specs::Plain::plain_size))]
    pub fn result(place: Place) -> CoreSize
        ensures { plain_size result ≡ core.Result place }
    {
        CoreSize::Result(place)
    }

    /// `_Old_(of)`.
    #[tactic(auto, unfolding(crate::specs::Plain::plain_size))]
    pub fn old(of: Box<CoreSize>, place: Place) -> CoreSize
        ensures { plain_size result ≡ core.Old (plain_size of.value) place }
    {
        CoreSize::Old { of, place }
    }

    /// An operator before one operand.
    #[tactic(auto, unfolding(crate::specs::Plain::plain_size))]
    pub fn unary(op: SizeUnary, of: Box<CoreSize>, place: Place) -> CoreSize
        ensures { plain_size result ≡ core.Prefixed op (plain_size of.value) place }
    {
        CoreSize::Unary { op, of, place }
    }

    /// An operator between two operands.
    #[tactic(auto, unfolding(crate::specs::Plain::plain_size))]
    pub fn binary(
        op: SizeBinary,
        left: Box<CoreSize>,
        right: Box<CoreSize>,
        place: Place,
    ) -> CoreSize
        ensures { plain_size result
            ≡ core.Joined op (plain_size left.value) (plain_size right.value) place }
    {
        CoreSize::Binary {
            op,
            left,
            right,
            place,
        }
    }

    /// All else.
    #[tactic(auto, unfolding(crate::specs::Plain::plain_size))]
    pub fn other(place: Place) -> CoreSize
        ensures { plain_size result ≡ core.Other place }
    {
        CoreSize::Other(place)
    }
}

impl CoreArg {
    /// A size as an argument.
    #[tactic(auto, unfolding(crate::specs::Plain::plain_arg))]
    pub fn size(size: CoreSize) -> CoreArg
        ensures { plain_arg result ≡ core.SizeArg (plain_size size) }
    {
        CoreArg::Size(size)
    }

    /// An annotation as an argument.
    #[tactic(auto, unfolding(crate::specs::Plain::plain_arg, crate::specs::Plain::plain_note))]
    pub fn note(note: Box<CoreNote>) -> CoreArg
        ensures { plain_arg result ≡ core.NoteArg (plain_note note.value) }
    {
        CoreArg::Note(note)
    }
}

impl CoreNote {
    /// An annotation with its arguments.
    #[tactic(auto, unfolding(crate::specs::Plain::plain_note, crate::specs::Plain::plain_arg))]
    pub fn new(name: u16, args: Vec<CoreArg>, place: Place) -> CoreNote
        ensures { plain_note result ≡ core.Note name (arg_list (plain_args args.items)) place }
    {
        CoreNote { name, args, place }
    }
}
