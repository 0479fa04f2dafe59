//! The constants of an enumeration (C99 6.7.2.2).
ghost use Rattle.std.specs.Prelude.{◌≡◌, ◌≤◌, ◌<◌, ◌-◌, suc, [], IfOk};
ghost use Rattle.sb_parse.specs.Parser.{looped};
ghost use Rattle.sb_lexicon.specs.Meaning.{meant, GivesAs};
ghost use Rattle.sb_specifier.specs.Meaning.{plain_listing, plain_specified, AreItemsKnown, ReadsItems, ReadsItemValue, IsKnown, IsRoomy};
ghost use Rattle.sb_specifier.specs.Parts as part;
ghost use Rattle.sb_specifier.specs.Readers as spec;
ghost use Rattle.sb_specifier.specs.Specified.{reading, one_if};

use crate::specified::{Said, Specified};
use crate::tokens::{comma_behind, is_name_next, take_mark, take_name};
use sb_base::{Name, Names, Place, Token};
use sb_expr::{Level, within};
use sb_lexicon::{Lexicon, Read, ReadFault, is_mark_next};
use sb_scope::Typedefs;
use sb_sign::Mark;
use sb_tree::{Expr, Item};
use std::alloc::Global;

/// The value of a constant, where it has one, how deep it is, and the tokens after it.
#[derive(Drop)]
pub(crate) struct ItemValue<'a> {
    pub(crate) tree: Option<Expr>,
    pub(crate) depth: u32,
    pub(crate) rest: &'a [Token],
}

/// Constants, how deep the deepest value is, and the typedef names in force behind them. `more`: a comma was read, or
/// nothing yet.
#[derive(Drop)]
pub(crate) struct Constants {
    pub(crate) list: Vec<Item>,
    pub(crate) depth: u32,
    pub(crate) types: Typedefs,
    pub(crate) more: bool,
}

/// The value of a constant, where one is written; it may be `left` deep.
fn item_value<'a>(
    alloc: Global,
    lexicon: &Lexicon,
    left: u32,
    tokens: &'a [Token],
) -> Result<ItemValue<'a>, ReadFault>
    requires shallow { left ≤ 200 }
    ensures read { ReadsItemValue (part.item_value (meant lexicon.now) left tokens.now) result }
    ensures depth { IfOk result (λ v. v.depth ≤ left) }
{
    if !is_mark_next(lexicon, Mark::Assign, tokens) {
        return Ok(ItemValue {
            tree: None,
            depth: 0,
            rest: tokens,
        });
    }
    if left == 0 {
        return Err(ReadFault::too_deep(tokens));
    }
    let assign = take_mark(lexicon.names, Mark::Assign, tokens)?;
    let value = within(alloc, lexicon, Level::Conditional, left, assign.rest)?;
    Ok(ItemValue {
        tree: Some(Box::into_inner(value.tree)),
        depth: value.depth,
        rest: value.rest,
    })
}

/// A constant with its value, and a comma where there is one.
#[tactic(auto, using(crate::proofs::Growing::more_items, crate::proofs::Growing::depth_of_more_items))]
fn item<'a>(
    alloc: Global,
    names: &Names,
    left: u32,
    so_far: Constants,
    tokens: &'a [Token],
) -> Result<Read<'a, Constants>, ReadFault>
    requires shallow { left ≤ 200 }
    requires known { AreItemsKnown so_far }
    requires low { so_far.depth ≤ left }
    ensures read { ReadsItems (part.item names.now.texts left (plain_listing so_far) tokens.now)
        result }
    ensures depth { IfOk result (λ r. r.value.depth ≤ left) }
{
    if !so_far.more {
        return Err(ReadFault::unexpected(tokens));
    }
    let name = take_name(names, tokens)?;
    let lexicon = Lexicon {
        names,
        types: &so_far.types,
        in_note: false,
    };
    let value = item_value(alloc, &lexicon, left, name.rest)?;
    let comma = comma_behind(names, value.rest)?;
    let mut list = so_far.list;
    list.push(Item::new(name.value.0, value.tree, name.value.1))?;
    let mut types = so_far.types;
    types.hide(alloc, name.value.0)?;
    Ok(Read {
        value: Constants {
            list,
            depth: so_far.depth.max(value.depth),
            types,
            more: comma.value,
        },
        rest: comma.rest,
    })
}

/// As many constants as there are.
fn more_items<'a>(
    alloc: Global,
    names: &Names,
    left: u32,
    first: Constants,
    tokens: &'a [Token],
) -> Result<Read<'a, Constants>, ReadFault>
    requires shallow { left ≤ 200 }
    requires known { AreItemsKnown first }
    requires low { first.depth ≤ left }
    ensures read { ReadsItems (looped (spec.is_name (reading names.now.texts []))
        (part.item names.now.texts left) (plain_listing first) tokens.now) result }
    ensures depth { IfOk result (λ r. r.value.depth ≤ left) }
{
    let mut found = Read {
        value: first,
        rest: tokens,
    };
    for _turn in 0..tokens.len() {
        if !is_name_next(names, found.rest) {
            return Ok(found);
        }
        found = item(alloc, names, left, found.value, found.rest)?;
    }
    Ok(found)
}

fn items<'a>(
    alloc: Global,
    names: &Names,
    left: u32,
    types: Typedefs,
    tokens: &'a [Token],
) -> Result<Read<'a, Constants>, ReadFault>
    requires shallow { left ≤ 200 }
    ensures read { ReadsItems (part.items names.now.texts left types tokens.now) result }
    ensures depth { IfOk result (λ r. r.value.depth ≤ left) }
{
    let none = Constants {
        list: Vec::new(alloc),
        depth: 0,
        types,
        more: true,
    };
    let first = item(alloc, names, left, none, tokens)?;
    more_items(alloc, names, left, first.value, first.rest)
}

/// How deep the parts of a structure or an enumeration may be that is at most `below` deep, with `const` if it is there.
pub fn room_inside(below: u32, constant: bool) -> u32
    ensures { result ≡ below - suc (one_if constant) }
{
    let above = if constant { 2 } else { 1 };
    below.saturating_sub(above)
}

/// The constants of an enumeration between its braces.
pub fn enumeration<'a>(
    alloc: Global,
    names: &Names,
    below: u32,
    so_far: Specified,
    tag: Option<Name>,
    place: Place,
    tokens: &'a [Token],
) -> Result<Read<'a, Specified>, ReadFault>
    requires shallow { below < 200 }
    requires fits { IsRoomy below so_far }
    ensures read { GivesAs plain_specified
        (part.enumeration names.now.texts below (plain_specified so_far) tag place tokens.now)
        result }
    ensures known { IfOk result (λ r. IsKnown r.value) }
    ensures fits { IfOk result (λ r. IsRoomy below r.value) }
{
    let open = take_mark(names, Mark::OpenBrace, tokens)?;
    let left = room_inside(below, so_far.constant);
    let listed = items(alloc, names, left, so_far.types, open.rest)?;
    let close = take_mark(names, Mark::CloseBrace, listed.rest)?;
    Ok(Read {
        value: Specified {
            said: Said::Enum {
                tag,
                items: Some(listed.value.list),
                place,
            },
            depth: listed.value.depth + 1,
            constant: so_far.constant,
            storage: so_far.storage,
            types: listed.value.types,
        },
        rest: close.rest,
    })
}
