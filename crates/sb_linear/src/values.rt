//! The values that sizes speak of.
ghost use Rattle.std.specs.Prelude.{◌≡◌, Err, IfErr, IfOk};
ghost use Rattle.sb_sum.specs.Lines as line;
ghost use Rattle.sb_linear.specs.Meaning.{GivesSum, IsMemory};
ghost use Rattle.sb_linear.specs.Scopes.{meant, meant_inside};
ghost use Rattle.sb_linear.specs.Sizes as spec;

use crate::fault::{SizeFault, exit_at_entry, no_such_place, not_linear};
use crate::moment::Moment;
use crate::names::{
    is_number_type, member_named, member_type, members_of, param_named, param_type, target_type,
};
use crate::scope::{Inside, Scope};
use sb_base::{Name, Place};
use sb_core::{Atom, Location, Member, Size, TypeId};
use std::alloc::{AllocError, Global};

/// Where `*p` and fields are taken at entry, they are the old ones.
fn is_old(moment: Moment, at: Location) -> bool
    ensures { result ≡ spec.is_old moment at }
{
    match moment {
        Moment::AtEntry => false,
        Moment::AtExit => false,
        Moment::TakenAtEntry => match at {
            Location::Param(_) => false,
            Location::Target(_) => true,
            Location::Field(_, _) => true,
            Location::Result => false,
        },
    }
}

/// A value once.
fn single(alloc: Global, atom: Atom) -> Result<Size, AllocError>
    ensures { IfOk result (λ size. line.plain_line size ≡ line.single atom) }
{
    Ok(Size {
        parts: Vec::from_array(alloc, [(1, atom)])?,
        constant: 0,
    })
}

/// The value of a location of that type, which has to be a number.
fn value_at(
    alloc: Global,
    moment: Moment,
    at: Location,
    t: Option<TypeId>,
    place: Place,
) -> Result<Size, SizeFault>
    ensures { GivesSum (spec.value_at moment at t place) result }
{
    if !is_number_type(t) {
        return Err(not_linear(place));
    }
    let old = is_old(moment, at);
    Ok(single(alloc, Atom { at, old })?)
}

/// The number of a parameter or of a member; past 2^32 of them memory is wanting.
pub(crate) fn position(position: usize) -> Result<u32, SizeFault>
    ensures is { IfOk result (λ k. k ≡ position) }
    ensures memory { IfErr result IsMemory }
{
    match u32::try_from(position) {
        Ok(position) => Ok(position),
        Err(_) => Err(SizeFault::Memory),
    }
}

/// `name` of a parameter.
fn param_value(
    alloc: Global,
    scope: &Scope,
    moment: Moment,
    param: Option<usize>,
    place: Place,
) -> Result<Size, SizeFault>
    ensures { GivesSum (spec.param_value (meant scope.now) moment param place) result }
{
    let Some(param) = param else {
        return Err(no_such_place(place));
    };
    let at = Location::Param(position(param)?);
    value_at(alloc, moment, at, param_type(scope, param), place)
}

/// `name` of a member, in the annotations of another member.
fn member_value(
    alloc: Global,
    inside: &Inside,
    moment: Moment,
    member: Option<usize>,
    place: Place,
) -> Result<Size, SizeFault>
    ensures { GivesSum (spec.member_value (meant_inside inside.now) moment member place) result }
{
    let Some(member) = member else {
        return Err(no_such_place(place));
    };
    let at = Location::Field(inside.param, position(member)?);
    value_at(
        alloc,
        moment,
        at,
        member_type(inside.members, member),
        place,
    )
}

/// `name`.
pub(crate) fn name_value(
    alloc: Global,
    scope: &Scope,
    moment: Moment,
    name: Name,
    place: Place,
) -> Result<Size, SizeFault>
    ensures { GivesSum (spec.name_value (meant scope.now).inside (meant scope.now) moment name place) result }
{
    match scope.inside {
        None => param_value(alloc, scope, moment, param_named(scope, name), place),
        Some(inside) => {
            let member = member_named(inside.members, name);
            member_value(alloc, &inside, moment, member, place)
        }
    }
}

/// `*name` of a parameter.
fn target_of_param(
    alloc: Global,
    scope: &Scope,
    moment: Moment,
    param: Option<usize>,
    name_place: Place,
    place: Place,
) -> Result<Size, SizeFault>
    ensures { GivesSum (spec.target_of_param (meant scope.now) moment param name_place place) result }
{
    let Some(param) = param else {
        return Err(no_such_place(name_place));
    };
    let at = Location::Target(position(param)?);
    let t = target_type(scope.types, param_type(scope, param));
    value_at(alloc, moment, at, t, place)
}

/// What a member points to has no location.
fn target_of_member(member: Option<usize>, name_place: Place, place: Place) -> SizeFault
    ensures { GivesSum (spec.target_of_member member name_place place) (Err result) }
{
    match member {
        None => no_such_place(name_place),
        Some(_) => not_linear(place),
    }
}

/// `*name`.
pub(crate) fn target_value(
    alloc: Global,
    scope: &Scope,
    moment: Moment,
    name: Name,
    name_place: Place,
    place: Place,
) -> Result<Size, SizeFault>
    ensures { GivesSum (spec.target_value (meant scope.now).inside (meant scope.now) moment name name_place place) result }
{
    match scope.inside {
        None => {
            let param = param_named(scope, name);
            target_of_param(alloc, scope, moment, param, name_place, place)
        }
        Some(inside) => {
            let member = member_named(inside.members, name);
            Err(target_of_member(member, name_place, place))
        }
    }
}

/// A member of the struct that a parameter points to.
fn field_among(
    alloc: Global,
    inside: &Inside,
    moment: Moment,
    member: Option<usize>,
    field_place: Place,
    place: Place,
) -> Result<Size, SizeFault>
    ensures { GivesSum (spec.field_among inside.now.param inside.now.members.now moment member field_place place) result }
{
    if inside.members.is_empty() {
        return Err(not_linear(place));
    }
    let Some(member) = member else {
        return Err(no_such_place(field_place));
    };
    let at = Location::Field(inside.param, position(member)?);
    value_at(
        alloc,
        moment,
        at,
        member_type(inside.members, member),
        place,
    )
}

/// `name->field` of a parameter.
fn field_of_param(
    alloc: Global,
    scope: &Scope,
    moment: Moment,
    param: Option<usize>,
    field: Name,
    places: FieldPlaces,
) -> Result<Size, SizeFault>
    ensures { GivesSum (spec.field_of_param (meant scope.now) moment param field places.name places.field places.whole) result }
{
    let Some(param) = param else {
        return Err(no_such_place(places.name));
    };
    let t = target_type(scope.types, param_type(scope, param));
    let inside = Inside {
        param: position(param)?,
        members: members_of(scope.types, t),
    };
    let member = member_named(inside.members, field);
    field_among(alloc, &inside, moment, member, places.field, places.whole)
}

/// The places of `name->field`: of the name, of the field, and of the first token.
#[derive(Clone, Copy)]
pub(crate) struct FieldPlaces {
    pub(crate) name: Place,
    pub(crate) field: Place,
    pub(crate) whole: Place,
}

/// `name->field`.
pub(crate) fn field_value(
    alloc: Global,
    scope: &Scope,
    moment: Moment,
    name: Name,
    field: Name,
    places: FieldPlaces,
) -> Result<Size, SizeFault>
    ensures { GivesSum (spec.field_value (meant scope.now).inside (meant scope.now) moment name field places.name places.field places.whole) result }
{
    match scope.inside {
        None => {
            let param = param_named(scope, name);
            field_of_param(alloc, scope, moment, param, field, places)
        }
        Some(inside) => {
            let member = member_named(inside.members, name);
            Err(target_of_member(member, places.name, places.whole))
        }
    }
}

/// `return`, of which no entry clause speaks.
pub(crate) fn result_value(
    alloc: Global,
    scope: &Scope,
    moment: Moment,
    place: Place,
) -> Result<Size, SizeFault>
    ensures { GivesSum (spec.result_value (meant scope.now) moment place) result }
{
    let t = Some(scope.result);
    if matches!(moment, Moment::AtEntry) {
        return Err(if is_number_type(t) {
            exit_at_entry(place)
        } else {
            not_linear(place)
        });
    }
    value_at(alloc, moment, Location::Result, t, place)
}
