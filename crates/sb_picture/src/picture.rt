//! Pictures: what is known of the machine's state at a point of a function.

use crate::copied::{Copied, copies};
use sb_base::Name;
use sb_term::{Row, Term};
use sqlite_items::Items;
use std::alloc::{AllocError, Global};

/// What a parameter holds: a number, a pointer into a region at an offset in bytes, or nothing that is known.
#[derive(Drop)]
pub enum Value {
    Number(Term),
    Pointer { region: usize, offset: Term },
    Unknown,
}

/// Bytes from `start` up to `end` that are written, beside the written prefix of their region.
#[derive(Drop)]
pub struct Island {
    pub start: Term,
    pub end: Term,
}

/// The bytes behind a pointer parameter: `presence` is 1, or 0 for a null pointer; from the pointer on `extent` bytes
/// lie in its object, and the first `written` of them are written.
#[derive(Drop)]
pub struct Region {
    pub name: Name,
    pub presence: Term,
    pub extent: Term,
    pub written: Term,
    pub islands: Items<Island>,
}

/// An `int` that stands at an offset of a region.
#[derive(Drop)]
pub struct Cell {
    pub region: usize,
    pub offset: Term,
    pub value: Term,
}

/// What a symbol stands for, of the parameter that it was made for.
#[derive(Clone, Copy, PartialEq, Eq)]
pub enum Part {
    Number,
    Present,
    Extent,
    Written,
}

/// How a symbol is written: `n`, `a.present`, `a.extent` or `a.written`.
#[derive(Clone, Copy, PartialEq, Eq)]
pub struct Label {
    pub name: Name,
    pub part: Part,
}

/// The values of the parameters by position, the facts in order, a label for each symbol made so far, the regions, and the
/// cells.
#[derive(Drop)]
pub struct Picture {
    pub values: Items<Value>,
    pub facts: Items<Row>,
    pub labels: Items<Label>,
    pub regions: Items<Region>,
    pub cells: Items<Cell>,
}

impl Copied for Value {
    fn copied(&self, alloc: Global) -> Result<Value, AllocError> {
        match self {
            Value::Number(term) => {
                let term = term.copy(alloc)?;
                Ok(Value::Number(term))
            }
            Value::Pointer { region, offset } => {
                let offset = offset.copy(alloc)?;
                Ok(Value::Pointer {
                    region: *region,
                    offset,
                })
            }
            Value::Unknown => Ok(Value::Unknown),
        }
    }
}

impl Copied for Island {
    fn copied(&self, alloc: Global) -> Result<Island, AllocError> {
        let start = self.start.copy(alloc)?;
        let end = self.end.copy(alloc)?;
        Ok(Island { start, end })
    }
}

impl Copied for Region {
    fn copied(&self, alloc: Global) -> Result<Region, AllocError> {
        let presence = self.presence.copy(alloc)?;
        let extent = self.extent.copy(alloc)?;
        let written = self.written.copy(alloc)?;
        let islands = copies(alloc, self.islands.as_slice())?;
        Ok(Region {
            name: self.name,
            presence,
            extent,
            written,
            islands,
        })
    }
}

impl Copied for Cell {
    fn copied(&self, alloc: Global) -> Result<Cell, AllocError> {
        let offset = self.offset.copy(alloc)?;
        let value = self.value.copy(alloc)?;
        Ok(Cell {
            region: self.region,
            offset,
            value,
        })
    }
}

impl Copied for Picture {
    fn copied(&self, alloc: Global) -> Result<Picture, AllocError> {
        let values = copies(alloc, self.values.as_slice())?;
        let facts = copies(alloc, self.facts.as_slice())?;
        let labels = Items::from_slice(alloc, self.labels.as_slice())?;
        let regions = copies(alloc, self.regions.as_slice())?;
        let cells = copies(alloc, self.cells.as_slice())?;
        Ok(Picture {
            values,
            facts,
            labels,
            regions,
            cells,
        })
    }
}
