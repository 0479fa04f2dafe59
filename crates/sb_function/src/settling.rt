//! Sizes by position.

ghost use Rattle.std.specs.Prelude.{◌≡◌, ◌≤◌, length, IfOk, IfErr};
ghost use Rattle.sb_function.specs.declared.reading.ReadFault.TheVariants.{Memory};
ghost use Rattle.sb_function.specs.Params as spec;

use crate::params::place_of;
use crate::reading::ReadFault;
use crate::syntax::{Param, ParamKind};
use crate::written::{Written, WrittenKind};
use sb_base::Name;
use std::alloc::Global;

fn names_of(alloc: Global, written: &[Written]) -> Result<Vec<Name>, ReadFault>
    ensures names { IfOk result (λ v. v.items ≡ spec.written_names written.now) }
    ensures err { IfErr result (λ e. e ≡ Memory) }
{
    let mut names = Vec::new(alloc);
    for other in written {
        names.push(other.name)?;
    }
    Ok(names)
}

fn param_of(names: &[Name], written: Written) -> Param
    requires few { length names.now ≤ 32 }
    ensures placed { result ≡ spec.placed names.now written }
{
    let kind = match written.kind {
        WrittenKind::Int => ParamKind::Int,
        WrittenKind::Unsigned => ParamKind::Unsigned,
        WrittenKind::OutWrites(size) => ParamKind::OutWrites {
            size: place_of(size, names) as u32,
        },
    };
    Param {
        name: written.name,
        kind,
    }
}

/// The parameters, with each size by its position.
pub(crate) fn params_of(alloc: Global, written: &[Written]) -> Result<Vec<Param>, ReadFault>
    requires few { length written.now ≤ 32 }
    ensures settled { IfOk result (λ v. v.items ≡ spec.settled written.now) }
    ensures length { IfOk result (λ v. length v.items ≡ length written.now) }
    ensures err { IfErr result (λ e. e ≡ Memory) }
{
    let names = names_of(alloc, written)?;
    let mut params = Vec::new(alloc);
    for other in written {
        params.push(param_of(&names, *other))?;
    }
    Ok(params)
}
