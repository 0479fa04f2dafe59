//! The tokens of a unit: a file, with the files that it includes (C99 6.10).
ghost use Rattle.std.specs.Prelude.{◌≡◌, ◌<◌, ◌≤◌, ◌+◌, ◌-◌, ◌^◌, ◌⊎◌, ℕ, List, [], Option, Some, false, true, MatchResult, IfOk, length};
ghost use Rattle.sb_base.specs.Found.{seen, IsWithinLimit};
ghost use Rattle.sb_base.specs.Names.{IsDistinct};
ghost use Rattle.sb_directive.specs.Asking as asking;
ghost use Rattle.sb_directive.specs.Lines.{begins_directive, end_of};
ghost use Rattle.sb_directive.specs.Stopping.{IsStop};
ghost use Rattle.sb_directive.specs.Limits.{most_tokens};
ghost use Rattle.sb_prep.specs.Outcomes.{IfEnded, IsOnlyOutcome};
ghost use Rattle.sb_prep.specs.Reading.{IsCarried, IsDirective, IsNoDirective, IsTextRead, IsLate, IsPartRead, IsUnclosed, IsFile, HasPieces, HasNoPieces, IsUnitOf};
ghost use Rattle.sb_prep.specs.Standing.{moved_to, start};
ghost use Rattle.sb_prep.specs.Stopping.{IsFault, IsIn, AreIn, AreTokensIn, IsKept, HasCause};
ghost use Rattle.sb_prep.specs.Unit.{IsFront, most_read, file_start, with_names};

use crate::fault::UnitFault;
use crate::including::{Included, include};
use crate::state::State;
use sb_base::{Files, Found, Library, Names, Place, Stop, Token, fetch_file};
use sb_directive::{
    Asks, Branches, behind_word, end_of, new_branch, next_group, place_of, stop_at,
};
use sb_lex::PpToken;
use std::alloc::Global;
use std::mem;

/// A file that is read: its number, and how deep it is included.
#[derive(Clone, Copy)]
struct Here {
    depth: u32,
    file: u32,
}

/// A part that was read: how many pieces it has, and the file that it includes.
#[derive(Drop)]
struct ReadPart {
    size: usize,
    inner: Option<Included>,
}

/// Carries out the line of a directive that asks for no file.
fn carry_out(
    alloc: Global,
    state: &mut State,
    branches: &mut Branches,
    file: u32,
    asks: Asks,
    line: &[PpToken],
) -> Result<(), Stop>
    requires asked { asks ≡ asking.asks state.old.at.texts state.old.at.table branches.old
        line.now }
    requires other { asks ≡ Asks.Includes → ⊥ }
    requires some { 0 < length line.now }
    requires held { AreIn (length state.old.at.files) line.now }
    ensures carried { IsCarried file line.now branches.old state.old branches.new state.new result }
    ensures moved { state.new ≡ moved_to state.old state.new.at }
    ensures files { state.new.at.files ≡ state.old.at.files }
{
    match asks {
        Asks::Nothing | Asks::Includes => Ok(()),
        Asks::Opens(branch) => branches.open(branch),
        Asks::Becomes(branch) => branches.replace(branch),
        Asks::Closes => {
            branches.close();
            Ok(())
        }
        Asks::OpensIf => {
            let holds = state.truth(alloc, place_of(line), behind_word(line))?;
            branches.open(new_branch(holds))
        }
        Asks::TurnsIf(branch) => {
            let holds = state.truth(alloc, place_of(line), behind_word(line))?;
            branches.replace(next_group(branch, holds))
        }
        Asks::Defines => state.define(alloc, behind_word(line)),
        Asks::Undefines(name) => {
            state.undefine(name);
            Ok(())
        }
        Asks::Once => state.add_once(file),
        Asks::Refused(number, place) => Err(stop_at(number, place)),
    }
}

/// Carries out the line of a directive; Some where a file is to be read first.
fn directive<L: Library>(
    alloc: Global,
    lib: &mut L,
    state: &mut State,
    branches: &mut Branches,
    here: Here,
    line: &[PpToken],
) -> Result<Option<Included>, UnitFault>
    requires room { length state.old.at.files ≤ 2147483648 + state.old.at.read }
    requires some { 0 < length line.now }
    requires held { AreIn (length state.old.at.files) line.now }
    ensures directive { MatchResult result
        (IsDirective (L.held lib.old) here.depth here.file line.now branches.old state.old
        branches.new state.new)
        (IsFault (IsNoDirective (L.held lib.old) here.depth line.now branches.old state.old
        state.new)) }
    ensures moved { state.new ≡ moved_to state.old state.new.at }
    ensures kept { IsKept state.old.at.files state.new.at.files }
    ensures held { L.held lib.new ≡ L.held lib.old }
    ensures cause { HasCause (L.faults lib.old) (L.faults lib.new) result }
{
    match state.asks(branches, line) {
        Asks::Includes => include(alloc, lib, state, here.depth, behind_word(line)),
        asks => {
            carry_out(alloc, state, branches, here.file, asks, line)?;
            Ok(None)
        }
    }
}

/// Reads a part that is text.
fn text(
    alloc: Global,
    state: &mut State,
    branches: &Branches,
    pieces: &[PpToken],
    size: usize,
) -> Result<(), Stop>
    requires front { IsFront state.old.at pieces.now size }
    requires text { begins_directive state.old.at.texts pieces.now ≡ false }
    requires room { state.old.at.read + size ≤ most_read }
    requires within { size ≤ length pieces.now }
    requires held { AreIn (length state.old.at.files) pieces.now }
    ensures read { (held : Option (List ℕ → Option (List ℕ))) (depth file : ℕ)
        → IsTextRead held depth file branches.now state.old pieces.now size state.new result }
    ensures files { state.new.at.files ≡ state.old.at.files }
    ensures limit { state.new.limit ≡ state.old.limit }
{
    if !branches.is_read() {
        state.count(size);
        return Ok(());
    }
    state.give(alloc, &pieces[..size])?;
    state.count(size);
    Ok(())
}

/// Why a part is refused with which one piece too many would be read: text before that piece is expanded first.
fn overflow(
    alloc: Global,
    state: &mut State,
    branches: &Branches,
    pieces: &[PpToken],
    unread: usize,
) -> Stop
    requires unread { unread ≡ most_read - state.old.at.read }
    requires within { unread < length pieces.now }
    requires held { AreIn (length state.old.at.files) pieces.now }
    ensures refused { (held : Option (List ℕ → Option (List ℕ))) (depth file size : ℕ)
        → IsFront state.old.at pieces.now size → most_read < state.old.at.read + size
        → IsStop (IsLate held depth file branches.now state.old pieces.now size state.new) result }
    ensures files { state.new.at.files ≡ state.old.at.files }
    ensures limit { state.new.limit ≡ state.old.limit }
{
    let last = stop_at(16, pieces[unread].place);
    if state.begins_directive(pieces) || !branches.is_read() {
        return last;
    }
    match state.give(alloc, &pieces[..unread]) {
        Ok(()) => last,
        Err(stop) => stop,
    }
}

/// Reads the part at the front of these pieces of a file.
fn read_part<L: Library>(
    alloc: Global,
    lib: &mut L,
    state: &mut State,
    branches: &mut Branches,
    here: Here,
    pieces: &[PpToken],
) -> Result<ReadPart, UnitFault>
    requires some { 0 < length pieces.now }
    requires held { AreIn (length state.old.at.files) pieces.now }
    ensures part { IsPartRead (L.held lib.old) here.depth here.file branches.old state.old
        pieces.now branches.new state.new result }
    ensures within { IfOk result (λ part. part.size ≤ length pieces.now) }
    ensures limit { state.new.limit ≡ state.old.limit }
    ensures kept { IsKept state.old.at.files state.new.at.files }
    ensures held { L.held lib.new ≡ L.held lib.old }
    ensures cause { HasCause (L.faults lib.old) (L.faults lib.new) result }
{
    let size = state.part_size(pieces);
    let unread = state.unread();
    if size > unread {
        return Err(overflow(alloc, state, branches, pieces, unread).into());
    }
    if state.begins_directive(pieces) {
        state.count(size);
        let inner = directive(alloc, lib, state, branches, here, &pieces[..size])?;
        return Ok(ReadPart { size, inner });
    }
    text(alloc, state, branches, pieces, size)?;
    Ok(ReadPart { size, inner: None })
}

/// Refuses a file that ends inside an `#if`, at its last piece.
fn ensure_closed(branches: &Branches, file: u32, pieces: &[PpToken]) -> Result<(), Stop>
    ensures closed { MatchResult result (λ _. branches.now ≡ [])
        (IsStop (IsUnclosed branches.now (end_of (file_start file) pieces.now))) }
{
    match branches.innermost() {
        Some(_) => {
            let start = Place {
                file,
                line: 0,
                col: 0,
            };
            Err(stop_at(25, end_of(start, pieces)))
        }
        None => Ok(()),
    }
}

/// Reads the pieces of a file, and gives what its directives leave of them.
fn read_file<L: Library>(
    alloc: Global,
    lib: &mut L,
    state: &mut State,
    here: Here,
    pieces: &[PpToken],
) -> Result<(), UnitFault>
    requires numbered { here.file < length state.old.at.files }
    requires held { AreIn (length state.old.at.files) pieces.now }
    ensures read { IsFile (L.held lib.old) here.depth here.file pieces.now state.old state.new
        result }
    ensures limit { state.new.limit ≡ state.old.limit }
    ensures kept { IsKept state.old.at.files state.new.at.files }
    ensures held { L.held lib.new ≡ L.held lib.old }
    ensures cause { HasCause (L.faults lib.old) (L.faults lib.new) result }
{
    let mut branches = Branches::new(alloc);
    let mut rest = pieces;
    'parts: while !rest.is_empty() {
        let ReadPart { size, inner } = read_part(alloc, lib, state, &mut branches, here, rest)?;
        match inner {
            Some(inner) => {
                let there = Here {
                    depth: here.depth + 1,
                    file: inner.file,
                };
                read_file(alloc, lib, state, there, &inner.pieces)?;
            }
            None => {}
        }
        rest = rest.split_at(size).1;
    }
    ensure_closed(&branches, here.file, pieces)?;
    Ok(())
}

/// The pieces of the file of a unit, by what was found of it.
fn pieces_of(
    alloc: Global,
    state: &mut State,
    file: u32,
    found: &Found,
) -> Result<Vec<PpToken>, Stop>
    requires within { IsWithinLimit found.now }
    ensures pieces { MatchResult result
        (λ pieces. HasPieces state.old file (seen found.now) state.new pieces.items)
        (IsStop (HasNoPieces state.old file (seen found.now) state.new)) }
    ensures moved { state.new ≡ moved_to state.old (with_names state.old.at state.new.at.texts) }
{
    let start = Place {
        file,
        line: 0,
        col: 0,
    };
    match found {
        Found::Missing => Err(stop_at(21, start)),
        Found::TooBig => Err(stop_at(22, start)),
        Found::Whole(bytes) => state.lex(alloc, bytes, file),
    }
}

/// The tokens of the unit of a file of the library, in a state at its start.
fn tokens_of<L: Library>(
    alloc: Global,
    lib: &mut L,
    state: &mut State,
    name: &[u8],
) -> Result<Vec<Token>, UnitFault>
    requires start { state.old ≡ start state.old.limit state.old.at.texts state.old.at.files }
    requires room { length state.old.at.files ≤ 2 ^ 31 }
    ensures tokens { IsUnitOf (L.held lib.old) state.old.limit name.now state.old.at.texts
        state.old.at.files state.new.at.texts state.new.at.files result }
    ensures places { IfOk result (λ tokens. AreTokensIn (length state.new.at.files) tokens.items) }
    ensures most { IfOk result (λ tokens. length tokens.items ≤ most_tokens) }
    ensures limit { state.new.limit ≡ state.old.limit }
    ensures kept { IsKept state.old.at.files state.new.at.files }
    ensures held { L.held lib.new ≡ L.held lib.old }
    ensures cause { HasCause (L.faults lib.old) (L.faults lib.new) result }
{
    let file = state.number(alloc, name)?;
    let found = fetch_file(alloc, lib, name)?;
    let pieces = pieces_of(alloc, state, file, &found)?;
    read_file(alloc, lib, state, Here { depth: 0, file }, &pieces)?;
    let tokens = state.tokens(alloc)?;
    Ok(tokens)
}

/// The tokens of the unit of a file of the library: its directives carried out, the files that it includes put in their
/// place, and its macros replaced (C99 6.10, 5.1.1.2, translation phases 4 to 7).
///
/// `files` gives each file that is met a number, in order of first use, by which the places of tokens name it. `names`
/// gives the text of each token a number.
///
/// Errors: `Refused` with a rule's number and a place in a file that has a number in `files`: 1 to 5 and 28 of the pieces
/// of a file, 11 to 14 of macros, 15 of what is not built, 16 of more than 1,000,000 tokens or 4,000,000 pieces that are
/// read, 21 of a file that is not there, 22 of one that is too long, 23 of files that are included more than 64 deep, 24
/// of a malformed directive, 25 of an `#if` without its `#endif` or the other way round, 27 of `#error`; `Read` where the
/// library failed to read a file; `Memory`.
pub fn unit<L: Library>(
    alloc: Global,
    names: &mut Names,
    files: &mut Files,
    lib: &mut L,
    name: &[u8],
) -> Result<Vec<Token>, UnitFault>
    requires room { length files.old ≤ 2 ^ 31 }
    ensures unit { IsUnitOf (L.held lib.old) names.old.limit name.now names.old.texts files.old
        names.new.texts files.new result }
    ensures only { IsDistinct names.old.texts → IsDistinct files.old
        → (told : List ℕ → Option (List ℕ)) → L.held lib.old ≡ Some told
        → IsOnlyOutcome told names.old.limit name.now names.old.texts files.old names.new.texts
        files.new result }
    ensures names { IfOk result (λ _. IsKept names.old.texts names.new.texts) }
    ensures distinct { IfOk result (λ _. IsDistinct names.old.texts → IsDistinct names.new.texts) }
    ensures distinct_files { IfEnded result (IsDistinct files.old → IsDistinct files.new) }
    ensures few { IfEnded result (length files.new ≤ length files.old + 4000001) }
    ensures places { IfOk result (λ tokens. AreTokensIn (length files.new) tokens.items) }
    ensures most { IfOk result (λ tokens. length tokens.items ≤ most_tokens) }
    ensures limit { names.new.limit ≡ names.old.limit }
    ensures files { IsKept files.old files.new }
    ensures held { L.held lib.new ≡ L.held lib.old }
    ensures cause { HasCause (L.faults lib.old) (L.faults lib.new) result }
{
    let own_names = mem::replace(names, Names::new(alloc, 0));
    let own_files = mem::replace(files, Files::new(alloc));
    let mut state = State::new(alloc, own_names, own_files);
    let result = tokens_of(alloc, lib, &mut state, name);
    let (later_names, later_files) = state.into_tables();
    *names = later_names;
    *files = later_files;
    result
}
