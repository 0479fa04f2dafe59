//! The set of functions that the files of a command line define: their units, and what the grammar reads of them.
ghost use Rattle.std.specs.Prelude.{◌≡◌, ◌<◌, ◌≤◌, ◌+◌, ◌-◌, ◌^◌, Err, IfOk, Some, length, map, max, slice_get, string_bytes};
ghost use Rattle.sb_base.specs.Outside.{Rose};
ghost use Rattle.sb_function.specs.Lexemes.{pieces_of};
ghost use Rattle.sb_top.specs.Asked.{AreAsked, HasAskedCause};
ghost use Rattle.sb_top.specs.Sets.{tokens_of, ReadAs, UnitEndsAs, UnitReadAs, HasUnitCause};

use crate::command::files_of_words;
use sb_base::{Files, Library, Names, Place, Stop, Token};
use sb_function::{Function, Piece, ReadFault, pieces_of, read_file};
use sb_grammar::tree;
use sb_prep::{UnitFault, unit};
use std::alloc::{AllocError, Global};

/// Why the units of a set were not read: the first that is no text is refused at a place, or memory ran out.
#[derive(Clone, Copy)]
pub(crate) enum SetFault {
    Unread(Place),
    Memory,
}

impl From<AllocError> for SetFault {
    ghost use Rattle.std.specs.Prelude.{◌≡◌};
    ghost use Rattle.sb_top.specs.declared.sets.SetFault.TheVariants.{Memory};

    ghost from_gives = { λ _ e. e ≡ Memory };

    fn from(_e: AllocError) -> SetFault {
        SetFault::Memory
    }
}

/// The units of some files, with the tables of names and of files that went through them.
#[derive(Drop)]
pub(crate) struct Units {
    pub(crate) names: Names,
    pub(crate) files: Files,
    /// The tokens of each, or why one of them has none.
    pub(crate) tokens: Result<Vec<Vec<Token>>, UnitFault>,
}

impl Units {
    /// The units end at a fault.
    fn stopped(names: Names, files: Files, fault: UnitFault) -> Units
        ensures { result ≡ record { names = names; files = files; tokens = Err fault } }
    {
        Units {
            names,
            files,
            tokens: Err(fault),
        }
    }
}

/// The tokens of a file's unit, which have to be the text of a translation unit.
fn whole_unit<L: Library>(
    alloc: Global,
    names: &mut Names,
    files: &mut Files,
    lib: &mut L,
    name: &[u8],
) -> Result<Vec<Token>, UnitFault>
    requires room { length files.old ≤ 2 ^ 31 }
    ensures unit { UnitEndsAs (L.held lib.old) names.old.limit name.now names.old.texts files.old
        names.new.texts files.new result }
    ensures few { IfOk result (λ _. length files.new ≤ length files.old + 4000001) }
    ensures limit { names.new.limit ≡ names.old.limit }
    ensures held { L.held lib.new ≡ L.held lib.old }
    ensures cause { HasUnitCause (L.faults lib.old) (L.faults lib.new) result }
{
    let tokens = unit(alloc, names, files, lib, name)?;
    match tree(alloc, names, tokens.as_slice()) {
        Ok(_tree) => Ok(tokens),
        Err(Stop::Refused(refused)) => Err(UnitFault::Refused(refused)),
        Err(Stop::Memory) => Err(UnitFault::Memory),
    }
}

/// The units of the files that the words ask for, in order, or None where they are no command. The tables of names and
/// of files begin empty and go through the units: each meets at most 4,000,001 files, so that 256 of them leave room.
pub(crate) fn units_of_words<L: Library>(
    alloc: Global,
    lib: &mut L,
    words: &[String],
) -> Option<Units>
    ensures units { AreAsked (L.held lib.old) (map string_bytes words.now) result }
    ensures cause { HasAskedCause (L.faults lib.old) (L.faults lib.new) result }
    ensures held { L.held lib.new ≡ L.held lib.old }
{
    let asked = files_of_words(words)?;
    let mut names = Names::new(alloc, u32::MAX);
    let mut files = Files::new(alloc);
    let mut units = Vec::new(alloc);
    for name in asked {
        match whole_unit(alloc, &mut names, &mut files, lib, name.as_bytes()) {
            Ok(tokens) => {
                let Ok(()) = units.push(tokens) else {
                    return Some(Units::stopped(names, files, UnitFault::Memory));
                };
            }
            Err(fault) => return Some(Units::stopped(names, files, fault)),
        }
    }
    Some(Units {
        names,
        files,
        tokens: Ok(units),
    })
}

/// The first of the last `left` pieces, or the last one where none is left.
fn refused_piece(pieces: &[Piece], left: usize) -> Piece
    requires some { 0 < length pieces.now }
    requires left { left ≤ length pieces.now }
    ensures { slice_get pieces.now (length pieces.now - max left 1) ≡ Some result }
{
    pieces[pieces.len() - left.max(1)]
}

/// Reads the functions of a unit.
fn read_unit(alloc: Global, names: &Names, tokens: &[Token]) -> Result<Vec<Function>, SetFault>
    ensures { UnitReadAs (pieces_of names.now.texts tokens.now) result }
{
    let pieces = pieces_of(alloc, names, tokens)?;
    match read_file(alloc, pieces.as_slice()) {
        Ok(functions) => Ok(functions),
        Err(ReadFault::Refused(left)) => {
            let piece = refused_piece(pieces.as_slice(), left);
            Err(SetFault::Unread(piece.place))
        }
        Err(ReadFault::Memory) => Err(SetFault::Memory),
    }
}

/// Reads the functions of all units, in order.
pub(crate) fn read_units(
    alloc: Global,
    names: &Names,
    units: &[Vec<Token>],
) -> Result<Vec<Function>, SetFault>
    ensures { ReadAs names.now.texts (tokens_of units.now) result }
{
    let mut functions = Vec::new(alloc);
    for tokens in units {
        let mut more = read_unit(alloc, names, tokens.as_slice())?;
        functions.append(&mut more)?;
    }
    Ok(functions)
}
