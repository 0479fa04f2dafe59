//! The warnings of a function: by place and number, of equal ones the first that was asked.
ghost use Rattle.std.specs.Prelude.{◌≡◌, [], IfOk, OnOk};
ghost use Rattle.sb_store.specs.Reports.{noted, spot_of};

use crate::warning::Warning;
use std::alloc::{AllocError, Global};
use std::collections::BTreeMap;
use std::marker::Model;

/// Where a warning stands among others: its file, line, column and number.
type Spot = (u32, u32, u32, u16);

/// The warnings of a function, in the order in which they are written.
#[derive(Drop)]
pub struct Report {
    warnings: BTreeMap<Spot, Warning>,
}

impl Model for Report {
    ghost use Rattle.std.specs.Prelude.{List};
    ghost use Rattle.std.specs.BTreeMap.{values};
    ghost use Rattle.sb_store.specs.declared.warning.Warning.{Warning};
    ghost use Rattle.sb_store.specs.Reports.{AreKept};

    ghost Value = { List Warning };

    ghost view = { λ r. values r.warnings };

    ghost invariant = { λ r. AreKept r.warnings.entries };
}

/// Where a warning stands among others.
fn spot_of(warning: &Warning) -> Spot
    ensures { result ≡ spot_of warning.now }
{
    let place = warning.place;
    (place.file, place.line, place.col, warning.need.number())
}

/// One warning more, in its place.
pub fn note(report: &mut Report, warning: Warning) -> Result<(), AllocError>
    ensures { OnOk result (report.new ≡ noted warning report.old) }
{
    let spot = spot_of(&warning);
    if !report.warnings.contains_key(&spot) {
        let replaced = report.warnings.insert(spot, warning)?;
        drop(replaced);
    }
    Ok(())
}

impl Report {
    /// No warnings.
    pub fn new(alloc: Global) -> Report
        ensures empty { result ≡ [] }
    {
        Report {
            warnings: BTreeMap::new(alloc),
        }
    }

    /// The warnings as a list.
    pub fn into_list(self, alloc: Global) -> Result<Vec<Warning>, AllocError>
        ensures warnings { IfOk result (λ list. list.items ≡ self) }
    {
        let mut list = Vec::new(alloc);
        for warning in self.warnings.into_values() {
            list.push(warning)?;
        }
        Ok(list)
    }
}
