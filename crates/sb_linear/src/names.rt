//! What names in annotations stand for.
ghost use Rattle.std.specs.Prelude.{◌≡◌};
ghost use Rattle.sb_core.specs.Sorts as sort;
ghost use Rattle.sb_linear.specs.Scopes as spec;
ghost use Rattle.sb_linear.specs.Scopes.{meant};

use crate::scope::Scope;
use sb_base::Name;
use sb_core::{Kind, Member, TypeId};

/// The types 1 to 12 are those of numbers.
fn is_number(t: TypeId) -> bool
    ensures { result ≡ sort.is_number t }
{
    t.0 > 0 && t.0 < 13
}

/// Whether there is a type, and it is one of numbers.
pub fn is_number_type(t: Option<TypeId>) -> bool
    ensures { result ≡ spec.is_number_type t }
{
    match t {
        Some(t) => is_number(t),
        None => false,
    }
}

fn is_named(name: Name, other: &Option<Name>) -> bool
    ensures { result ≡ spec.is_named name other.now }
{
    match other {
        Some(other) => other.0 == name.0,
        None => false,
    }
}

/// The parameter of a name.
pub fn param_named(scope: &Scope, name: Name) -> Option<usize>
    ensures { result ≡ spec.param_named (meant scope.now) name }
{
    scope.names.iter().position(|other| is_named(name, other))
}

/// The member of a name.
pub fn member_named(members: &[Member], name: Name) -> Option<usize>
    ensures { result ≡ spec.member_named members.now name }
{
    members.iter().position(|member| member.name.0 == name.0)
}

/// The type of a parameter.
pub fn param_type(scope: &Scope, param: usize) -> Option<TypeId>
    ensures { result ≡ spec.param_type (meant scope.now) param }
{
    match scope.params.get(param) {
        Some(param) => Some(param.type_id),
        None => None,
    }
}

/// The type of a member.
pub fn member_type(members: &[Member], member: usize) -> Option<TypeId>
    ensures { result ≡ spec.member_type members.now member }
{
    match members.get(member) {
        Some(member) => Some(member.type_id),
        None => None,
    }
}

/// What a pointer of that type points to.
pub fn target_type(types: &[Kind], t: Option<TypeId>) -> Option<TypeId>
    ensures { result ≡ spec.target_type types.now t }
{
    match types.get(t?.0 as usize) {
        Some(Kind::Pointer(target)) => Some(*target),
        _ => None,
    }
}

/// The members of a struct of that type; a type that is none, or that is not completed, has none.
pub fn members_of(types: &[Kind], t: Option<TypeId>) -> &[Member]
    ensures { result.now ≡ spec.members_of types.now t }
{
    let Some(t) = t else {
        return &[];
    };
    match types.get(t.0 as usize) {
        Some(Kind::Struct(_, members)) => members.as_slice(),
        _ => &[],
    }
}

/// The pointer parameter of a name, where the annotation is no member's.
pub fn pointer_named(scope: &Scope, name: Name) -> Option<usize>
    ensures { result ≡ spec.pointer_named (meant scope.now) name }
{
    if scope.inside.is_some() {
        return None;
    }
    let param = param_named(scope, name)?;
    if target_type(scope.types, param_type(scope, param)).is_some() {
        Some(param)
    } else {
        None
    }
}
