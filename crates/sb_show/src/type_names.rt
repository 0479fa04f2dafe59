//! The parts of types, from the outermost one in.

use crate::parts::{ABSENT, Part, Plan, boxed_expr_part, name_part};
use crate::words::base_word;
use sb_base::{Name, Place};
use sb_tree::{Decl, Item, TypeName};

/// A structure, whose members stand in brackets where it has a list of them.
fn structure<'a>(
    plan: &mut Plan<'a>,
    tag: Option<Name>,
    members: &'a Option<Vec<Decl>>,
    place: Place,
) {
    let tag = name_part(tag);
    match members {
        Some(list) => plan.node(
            "struct",
            place,
            &[tag, Part::Word("["), Part::Decls(list), Part::Word("]")],
        ),
        None => plan.node("struct", place, &[tag, Part::Word(ABSENT)]),
    }
}

/// An enumeration, whose constants stand in brackets where it has a list of them.
fn enumeration<'a>(
    plan: &mut Plan<'a>,
    tag: Option<Name>,
    items: &'a Option<Vec<Item>>,
    place: Place,
) {
    let tag = name_part(tag);
    match items {
        Some(list) => plan.node(
            "enum",
            place,
            &[tag, Part::Word("["), Part::Items(list), Part::Word("]")],
        ),
        None => plan.node("enum", place, &[tag, Part::Word(ABSENT)]),
    }
}

pub(crate) fn type_name<'a>(plan: &mut Plan<'a>, node: &'a TypeName) {
    match node {
        TypeName::Base { code, place } => {
            plan.first(&[Part::Word(base_word(*code)), Part::Place(*place)])
        }
        TypeName::Const(of) => plan.between("(", &[Part::Word("const"), Part::Type(of)], ")"),
        TypeName::Pointer(to, place) => plan.node("ptr", *place, &[Part::Type(to)]),
        TypeName::Array { of, length, place } => plan.node(
            "array",
            *place,
            &[Part::Type(of), boxed_expr_part(length)],
        ),
        TypeName::Function {
            result: returned,
            params,
            place,
        } => plan.node("fn", *place, &[Part::Type(returned), Part::Decls(params)]),
        TypeName::Struct {
            tag,
            members,
            place,
        } => structure(plan, *tag, members, *place),
        TypeName::Enum { tag, items, place } => enumeration(plan, *tag, items, *place),
        TypeName::Named(name, place) => plan.node("type", *place, &[Part::Name(*name)]),
        TypeName::Same(place) => plan.first(&[Part::Word("same"), Part::Place(*place)]),
        TypeName::Paren(of, place) => plan.node("paren", *place, &[Part::Type(of)]),
    }
}
