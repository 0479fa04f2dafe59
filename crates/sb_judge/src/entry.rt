//! The pictures at the entry of a function.
ghost use Rattle.std.specs.Prelude.{◌≡◌, ◌+◌, pos, None, [], ◌∷◌, ◌++◌, length, slice_get, IfOk, OnOk};
ghost use Rattle.sb_term.specs.Linear.{constant, symbol};
ghost use Rattle.sb_term.specs.Asks.{run, EndsAs};
ghost use Rattle.sb_picture.specs.Contract.{least, greatest};
ghost use Rattle.sb_picture.specs.Pictures.{number_in};
ghost use Rattle.sb_picture.specs.declared.picture.Value.TheVariants.{Pointer};
ghost use Rattle.sb_judge.specs.Entry.{empty, with_range, with_number, fresh_region, region_labels, with_presence, with_extent, with_pointer, with_param_of, with_params, presence_in, presence_of, presences, bytes_of, extent_less, extent_in, extent_of, extents, clauses, entered, enter};

use sb_base::Name;
use sb_function::{Param, ParamKind};
use sb_picture::terms::{bytes, difference, number};
use sb_picture::{Label, Part, Picture, Region, Value, add_at_least, add_at_least_zero, assume};
use sb_term::{Decide, DecideFault, Row, Sym, Term};
use sqlite_items::{Items, at};
use std::alloc::{AllocError, Global};

fn empty(alloc: Global) -> Picture
    ensures { result ≡ empty }
{
    Picture {
        values: Items::new(alloc),
        facts: Items::new(alloc),
        labels: Items::new(alloc),
        regions: Items::new(alloc),
        cells: Items::new(alloc),
    }
}

/// A new symbol with its label.
fn fresh(
    alloc: Global,
    labels: &mut Items<Label>,
    name: Name,
    part: Part,
) -> Result<Term, AllocError>
    ensures term { IfOk result (λ t. t ≡ symbol (length labels.old)) }
    ensures labels { OnOk result
        (labels.new ≡ labels.old ++ record { name = name; part = part } ∷ []) }
{
    let term = Term::symbol(alloc, Sym(labels.len() as u64));
    labels.push(Label { name, part })?;
    Ok(term)
}

fn least(alloc: Global, kind: ParamKind) -> Term
    ensures { result ≡ constant (least kind) }
{
    match kind {
        ParamKind::Int => Term::constant(alloc, -2147483648).unwrap(),
        ParamKind::Unsigned => number(alloc, 0),
        ParamKind::OutWrites { size: _ } => number(alloc, 0),
    }
}

fn greatest(alloc: Global, kind: ParamKind) -> Term
    ensures { result ≡ constant (greatest kind) }
{
    match kind {
        ParamKind::Int => number(alloc, 2147483647),
        ParamKind::Unsigned => number(alloc, 4294967295),
        ParamKind::OutWrites { size: _ } => number(alloc, 0),
    }
}

/// A term lies in the range of a type.
fn add_range(
    alloc: Global,
    kind: ParamKind,
    term: &Term,
    facts: &mut Items<Row>,
) -> Result<(), AllocError>
    ensures { OnOk result (facts.new ≡ with_range kind term.now facts.old) }
{
    let least = least(alloc, kind);
    let greatest = greatest(alloc, kind);
    add_at_least(alloc, term, &least, facts)?;
    add_at_least(alloc, &greatest, term, facts)?;
    Ok(())
}

/// A number parameter: a fresh symbol in the range of its type.
fn add_number(
    alloc: Global,
    name: Name,
    kind: ParamKind,
    picture: &mut Picture,
) -> Result<(), AllocError>
    ensures { OnOk result (picture.new ≡ with_number name kind picture.old) }
{
    let symbol = fresh(alloc, &mut picture.labels, name, Part::Number)?;
    add_range(alloc, kind, &symbol, &mut picture.facts)?;
    picture.values.push(Value::Number(symbol))?;
    Ok(())
}

fn fresh_region(alloc: Global, labels: &mut Items<Label>, name: Name) -> Result<Region, AllocError>
    ensures region { IfOk result (λ region. region ≡ fresh_region name (length labels.old)) }
    ensures labels { OnOk result (labels.new ≡ labels.old ++ region_labels name) }
{
    let presence = fresh(alloc, labels, name, Part::Present)?;
    let extent = fresh(alloc, labels, name, Part::Extent)?;
    let written = fresh(alloc, labels, name, Part::Written)?;
    Ok(Region {
        name,
        presence,
        extent,
        written,
        islands: Items::new(alloc),
    })
}

/// Presence is 0 or 1.
fn add_presence_facts(
    alloc: Global,
    presence: &Term,
    facts: &mut Items<Row>,
) -> Result<(), AllocError>
    ensures { OnOk result (facts.new ≡ with_presence presence.now facts.old) }
{
    let one = number(alloc, 1);
    add_at_least_zero(alloc, presence, facts)?;
    add_at_least(alloc, &one, presence, facts)?;
    Ok(())
}

/// What is known of each region: its presence, and that the prefix lies within the extent.
fn add_region_facts(
    alloc: Global,
    region: &Region,
    facts: &mut Items<Row>,
) -> Result<(), AllocError>
    ensures { OnOk result
        (facts.new ≡ with_extent region.now.extent region.now.written
        (with_presence region.now.presence facts.old)) }
{
    add_presence_facts(alloc, &region.presence, facts)?;
    add_at_least_zero(alloc, &region.written, facts)?;
    add_at_least(alloc, &region.extent, &region.written, facts)?;
    Ok(())
}

fn add_start(alloc: Global, region: usize, values: &mut Items<Value>) -> Result<(), AllocError>
    ensures { OnOk result (values.new ≡ values.old ++ Pointer region (constant (pos 0)) ∷ []) }
{
    let offset = number(alloc, 0);
    values.push(Value::Pointer { region, offset })?;
    Ok(())
}

/// A pointer parameter: the start of a fresh region.
fn add_pointer(alloc: Global, name: Name, picture: &mut Picture) -> Result<(), AllocError>
    ensures { OnOk result (picture.new ≡ with_pointer name picture.old) }
{
    let region = fresh_region(alloc, &mut picture.labels, name)?;
    add_region_facts(alloc, &region, &mut picture.facts)?;
    add_start(alloc, picture.regions.len(), &mut picture.values)?;
    picture.regions.push(region)?;
    Ok(())
}

fn add_param(alloc: Global, param: Param, picture: &mut Picture) -> Result<(), AllocError>
    ensures { OnOk result (picture.new ≡ with_param_of param.name param.kind picture.old) }
{
    match param.kind {
        ParamKind::Int | ParamKind::Unsigned => add_number(alloc, param.name, param.kind, picture)?,
        ParamKind::OutWrites { size: _ } => add_pointer(alloc, param.name, picture)?,
    }
    Ok(())
}

fn add_params(alloc: Global, params: &[Param], picture: &mut Picture) -> Result<(), AllocError>
    ensures { OnOk result (picture.new ≡ with_params params.now picture.old) }
{
    for param in params {
        add_param(alloc, *param, picture)?;
    }
    Ok(())
}

/// The condition that a pointer is not null.
fn presence_in(alloc: Global, regions: &[Region], index: usize) -> Result<Option<Term>, AllocError>
    ensures { IfOk result (λ t. t ≡ presence_in (slice_get regions.now index)) }
{
    match at(regions, index) {
        Some(region) => {
            let one = number(alloc, 1);
            difference(alloc, &region.presence, &one, 0)
        }
        None => Ok(None),
    }
}

fn add_presence(
    alloc: Global,
    regions: &[Region],
    value: &Value,
    conditions: &mut Items<Option<Term>>,
) -> Result<(), AllocError>
    ensures { OnOk result (conditions.new ≡ conditions.old ++ presence_of regions.now value.now) }
{
    match value {
        Value::Pointer { region, offset: _ } => {
            let presence = presence_in(alloc, regions, *region)?;
            conditions.push(presence)?;
        }
        Value::Number(_) | Value::Unknown => {}
    }
    Ok(())
}

fn presences(
    alloc: Global,
    regions: &[Region],
    values: &[Value],
) -> Result<Items<Option<Term>>, AllocError>
    ensures { IfOk result (λ conditions. conditions ≡ presences regions.now values.now) }
{
    let mut conditions = Items::new(alloc);
    for value in values {
        add_presence(alloc, regions, value, &mut conditions)?;
    }
    Ok(conditions)
}

/// The bytes of as many `int`s as a number parameter says, or none where it is not known.
fn bytes_at(alloc: Global, values: &[Value], size: u32) -> Result<Option<Term>, AllocError>
    ensures { IfOk result (λ t. t ≡ bytes_of (number_in (slice_get values.now size))) }
{
    match at(values, size as usize) {
        Some(Value::Number(count)) => bytes(alloc, count),
        Some(
            Value::Pointer {
                region: _,
                offset: _,
            },
        )
        | Some(Value::Unknown)
        | None => Ok(None),
    }
}

/// The condition that a region holds as many bytes.
fn extent_in(
    alloc: Global,
    regions: &[Region],
    index: usize,
    size: Option<Term>,
) -> Result<Option<Term>, AllocError>
    ensures { IfOk result (λ t. t ≡ extent_in (slice_get regions.now index) size) }
{
    match (at(regions, index), size) {
        (Some(region), Some(size)) => difference(alloc, &region.extent, &size, 0),
        (Some(_), None) | (None, _) => Ok(None),
    }
}

fn add_extent(
    alloc: Global,
    picture: &Picture,
    kind: ParamKind,
    value: &Value,
    conditions: &mut Items<Option<Term>>,
) -> Result<(), AllocError>
    ensures { OnOk result
        (conditions.new ≡ conditions.old ++ extent_of picture.now kind value.now) }
{
    match (kind, value) {
        (ParamKind::OutWrites { size }, Value::Pointer { region, offset: _ }) => {
            let size = bytes_at(alloc, picture.values.as_slice(), size)?;
            let extent = extent_in(alloc, picture.regions.as_slice(), *region, size)?;
            conditions.push(extent)?;
        }
        (ParamKind::OutWrites { size: _ }, Value::Number(_) | Value::Unknown)
        | (ParamKind::Int | ParamKind::Unsigned, _) => {}
    }
    Ok(())
}

fn add_extents(
    alloc: Global,
    picture: &Picture,
    params: &[Param],
    values: &[Value],
    conditions: &mut Items<Option<Term>>,
) -> Result<(), AllocError>
    ensures { OnOk result
        (conditions.new ≡ conditions.old ++ extents picture.now params.now values.now) }
{
    match params {
        [] => Ok(()),
        [param, params @ ..] => match values {
            [] => Ok(()),
            [value, values @ ..] => {
                add_extent(alloc, picture, param.kind, value, conditions)?;
                add_extents(alloc, picture, params, values, conditions)?;
                Ok(())
            }
        },
    }
}

/// The conditions of `_Out_writes_(n)`: each pointer is not null, and then each has its extent.
fn clauses(
    alloc: Global,
    params: &[Param],
    picture: &Picture,
) -> Result<Items<Option<Term>>, AllocError>
    ensures { IfOk result (λ conditions. conditions ≡ clauses params.now picture.now) }
{
    let mut conditions = presences(alloc, picture.regions.as_slice(), picture.values.as_slice())?;
    add_extents(
        alloc,
        picture,
        params,
        picture.values.as_slice(),
        &mut conditions,
    )?;
    Ok(conditions)
}

fn entry_picture(alloc: Global, params: &[Param]) -> Result<Picture, AllocError>
    ensures { IfOk result (λ picture. picture ≡ entered params.now) }
{
    let mut picture = empty(alloc);
    add_params(alloc, params, &mut picture)?;
    Ok(picture)
}

/// The pictures at the entry of a function with these parameters.
pub fn enter<V: Decide>(
    alloc: Global,
    params: &[Param],
    judge: &mut V,
) -> Result<Items<Picture>, DecideFault>
    requires { V.stop judge.old ≡ None }
    ensures rule { EndsAs result judge.new
        (run V.stop V.gives V.after (enter params.now) judge.old) }
    ensures stop { OnOk result (V.stop judge.new ≡ None) }
{
    let picture = entry_picture(alloc, params)?;
    let conditions = clauses(alloc, params, &picture)?;
    assume(alloc, conditions.as_slice(), picture, judge)
}
