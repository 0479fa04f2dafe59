//! The core of a set of translation units (C99 5.1.1.1): types, tables, texts of names and functions.

ghost use Rattle.std.specs.Prelude.{IfOk};
ghost use Rattle.sb_core.specs.Formed.{IsWellFormed};
ghost use Rattle.sb_core.specs.Layout.{layout_of};
ghost use Rattle.sb_core.specs.Beginning.{IsBeginning, first_types};

use crate::note::Declared;
use crate::statement::{CoreStmt, Entry};
use crate::types::{TypeId, Types};
use sb_base::{Name, Place, Refusal};
use std::alloc::{AllocError, Global};

/// The core of a set. `texts` has the text of each name in it, in rising number, each once, and `clash` is the first
/// refusal between declarations of two units.
#[derive(Drop)]
pub struct Core {
    pub types: Types,
    pub tables: Vec<Table>,
    pub texts: Vec<(Name, Vec<u8>)>,
    pub functions: Vec<Function>,
    pub clash: Option<Refusal>,
}

impl Core {
    /// The core of no unit: the types 0 to 12 and nothing else.
    pub fn new(alloc: Global) -> Result<Core, AllocError>
        ensures beginning { IfOk result (λ core. IsBeginning core) }
        ensures formed { IfOk result (λ core. IsWellFormed (layout_of first_types) core) }
    {
        let types = Types::new(alloc)?;
        Ok(Core {
            types,
            tables: Vec::new(alloc),
            texts: Vec::new(alloc),
            functions: Vec::new(alloc),
            clash: None,
        })
    }
}

/// A `const` table at file scope, or a literal in one, without a name. Bytes without an entry are zero.
#[derive(Drop)]
pub struct Table {
    pub name: Option<Name>,
    pub type_id: TypeId,
    pub values: Vec<Entry>,
}

/// A function (6.9.1): `end` is the closing brace where there is a body, and `alone` says that it is `static`.
#[derive(Drop)]
pub struct Function {
    pub name: Name,
    pub place: Place,
    pub end: Option<Place>,
    pub alone: bool,
    pub params: Vec<Param>,
    pub locals: Vec<Slot>,
    pub result: TypeId,
    pub body: Option<CoreStmt>,
    pub declared: Vec<Declared>,
}

/// A parameter's type, and whether what it points to is `const`.
#[derive(Clone, Copy)]
pub struct Param {
    pub type_id: TypeId,
    pub const_target: bool,
}

/// A local. A `plain` one has a value and no object in memory.
#[derive(Drop)]
pub struct Slot {
    pub name: Option<Name>,
    pub place: Place,
    pub type_id: TypeId,
    pub plain: bool,
    pub holds: Holds,
}

/// What a local is. The parameters come first, then the locals of the text in its order, the temporaries in the order
/// of their statements, and the literals and tables.
#[derive(Drop)]
pub enum Holds {
    Param,
    Local,
    Temporary,
    Literal(Vec<u8>),
    Table(u32),
}
