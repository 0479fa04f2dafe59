//! The types of a set of translation units (C99 6.2.5), each once in one table.

ghost use Rattle.std.specs.Prelude.{◌≡◌, IfOk};
ghost use Rattle.sb_core.specs.Beginning.{first_types};

use crate::note::CoreNote;
use sb_base::Name;
use std::alloc::{AllocError, Global};

/// A type: its position in the table.
///
/// The types 0 to 12 of each table are `void`, `_Bool`, `char`, `signed char`, `unsigned char`, `short`,
/// `unsigned short`, `int`, `unsigned int`, `long`, `unsigned long`, `long long` and `unsigned long long`.
#[derive(Clone, Copy)]
pub struct TypeId(pub u32);

/// The table of types.
#[derive(Drop)]
pub struct Types {
    pub list: Vec<Kind>,
}

impl Types {
    /// The types 0 to 12.
    pub fn new(alloc: Global) -> Result<Types, AllocError>
        ensures { IfOk result (λ types. types.list.items ≡ first_types) }
    {
        let list = Vec::from_array(
            alloc,
            [
                Kind::Void,
                Kind::Number {
                    bits: 1,
                    signed: false,
                },
                Kind::Number {
                    bits: 8,
                    signed: true,
                },
                Kind::Number {
                    bits: 8,
                    signed: true,
                },
                Kind::Number {
                    bits: 8,
                    signed: false,
                },
                Kind::Number {
                    bits: 16,
                    signed: true,
                },
                Kind::Number {
                    bits: 16,
                    signed: false,
                },
                Kind::Number {
                    bits: 32,
                    signed: true,
                },
                Kind::Number {
                    bits: 32,
                    signed: false,
                },
                Kind::Number {
                    bits: 32,
                    signed: true,
                },
                Kind::Number {
                    bits: 32,
                    signed: false,
                },
                Kind::Number {
                    bits: 64,
                    signed: true,
                },
                Kind::Number {
                    bits: 64,
                    signed: false,
                },
            ],
        )?;
        Ok(Types { list })
    }
}

/// What a type is. A `_Bool` is a number of one bit, and an enum is `int` (6.7.2.2).
#[derive(Drop)]
pub enum Kind {
    Void,
    Number { bits: u8, signed: bool },
    /// A pointer to a type (6.7.5.1).
    Pointer(TypeId),
    /// So many elements of a type (6.7.5.2).
    Array(TypeId, u64),
    /// A struct with its tag (6.7.2.1); one that is not completed has no members.
    Struct(Option<Name>, Vec<Member>),
}

/// A member of a struct with its annotations.
#[derive(Drop)]
pub struct Member {
    pub name: Name,
    pub type_id: TypeId,
    pub notes: Vec<CoreNote>,
}
