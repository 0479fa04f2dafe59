ghost use Rattle.std.specs.Prelude.{◌≡◌, IfOk};

use crate::row::Row;
use sqlite_items::Items;
use std::alloc::{AllocError, Global};

/// Whether the goal holds wherever the facts do.
#[derive(Drop)]
pub struct Query {
    pub facts: Items<Row>,
    pub goal: Row,
}

impl Query {
    /// An equal query.
    pub fn copy(&self, alloc: Global) -> Result<Query, AllocError>
        ensures { IfOk result (λ q. q ≡ self.now) }
    {
        Ok(Query {
            facts: copy_of_rows(alloc, self.facts.as_slice())?,
            goal: self.goal.copy(alloc)?,
        })
    }
}

fn copy_of_rows(alloc: Global, rows: &[Row]) -> Result<Items<Row>, AllocError>
    ensures { IfOk result (λ copied. copied ≡ rows.now) }
{
    let mut copied = Items::new(alloc);
    for row in rows {
        copied.push(row.copy(alloc)?)?;
    }
    Ok(copied)
}
