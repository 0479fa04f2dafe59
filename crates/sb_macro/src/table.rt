//! The table of macros.
ghost use Rattle.std.specs.Prelude.{◌≡◌, ◌<◌, ◌≤◌, [], Some, None, IfErr, IfOk, MatchResult, OnErr, filter, is_some, length, map, not};
ghost use Rattle.std.specs.List.{All};
ghost use Rattle.std.specs.Option.{option_copied, option_map};
ghost use Rattle.sb_lex.specs.Places.{IsAmong};
ghost use Rattle.sb_macro.specs.Adding.{HasCompared, IsAddition};
ghost use Rattle.sb_macro.specs.Defines.{IsDefined, IsOnlyTable, RefusesLine, macro_at};
ghost use Rattle.sb_macro.specs.Endings.{EndsAmong, IsOnlyEnd, TextEnds};
ghost use Rattle.sb_macro.specs.Expansion.{Expanded, IsOnlyAnswer, IsStop};
ghost use Rattle.sb_macro.specs.Halts.{stop_of};
ghost use Rattle.sb_macro.specs.Macros.{IsDistinct, macro_of, macro_named, same_name, without};
ghost use Rattle.sb_macro.specs.Places.{StopsAmong};

use crate::definitions::Definitions;
use crate::ending::Given;
use crate::expansion::Expander;
use crate::halt::{Halt, nowhere, stop_of};
use crate::lines::definition;
use crate::stored::Stored;
use sb_base::{Name, Names, Place, PpKind, Stop};
use sb_lex::PpToken;
use std::alloc::{AllocError, Global};
use std::marker::Model;

/// The macros that stand, at most one of a name.
#[derive(Drop)]
pub struct Macros {
    macros: Definitions,
}

impl Model for Macros {
    ghost use Rattle.std.specs.Prelude.{List};
    ghost use Rattle.sb_macro.specs.Macros.{Macro, IsDistinct};

    ghost Value = { List Macro };

    ghost view = { λ m. m.macros };

    ghost invariant = { λ m. IsDistinct m.macros };
}

/// The macro of the name that a line begins with.
fn macro_at<'a>(macros: &'a Definitions, line: &[PpToken]) -> Option<&'a Stored>
    ensures { option_map macro_of (option_copied result)
        ≡ macro_at macros.now line.now }
{
    let name = line.first()?;
    if name.kind == PpKind::Word {
        macros.find(name.text)
    } else {
        None
    }
}

/// The macro that the line adds to these, or None where an identical one stands.
fn addition(
    alloc: Global,
    names: &Names,
    macros: &Definitions,
    line: &[PpToken],
) -> Result<Option<Stored>, Halt>
    ensures { MatchResult result (IsAddition names.now.texts macros.now line.now)
        (λ halt. RefusesLine names.now.texts macros.now line.now (stop_of halt)) }
{
    let Some((name, _)) = line.split_first() else {
        return Err(Halt::Refused(11, nowhere()));
    };
    let parsed = definition(alloc, names, line);
    match macro_at(macros, line) {
        Some(other) => addition_beside(parsed, other, name.place),
        None => match parsed {
            Ok(stored) => Ok(Some(stored)),
            Err(halt) => Err(halt),
        },
    }
}

/// What is left to add where this macro has the name already, which stands at `place`.
fn addition_beside(
    parsed: Result<Stored, Halt>,
    other: &Stored,
    place: Place,
) -> Result<Option<Stored>, Halt>
    ensures { HasCompared parsed (macro_of other.now) place result }
{
    match parsed {
        Ok(stored) => {
            if other.is_same(&stored) {
                Ok(None)
            } else {
                Err(Halt::Refused(12, place))
            }
        }
        Err(Halt::Refused(_, _)) => Err(Halt::Refused(12, place)),
        Err(Halt::Memory) => Err(Halt::Memory),
    }
}

impl Macros {
    /// No macros.
    pub fn new(alloc: Global) -> Macros
        ensures empty { result ≡ [] }
    {
        Macros {
            macros: Definitions::new(alloc),
        }
    }

    /// Defines a macro, where `line` has the pieces behind `#define` (C99 6.10.3).
    ///
    /// A line that begins with the name of a macro, and is no identical definition of it, is refused as 12 at the name.
    /// Any other line is refused at the first piece that makes it bad: 11 where no name stands or the list of parameters
    /// is bad, 15 at `...` where a list has it, so behind `(` or a comma, and at `#` or `##` in the replacement list.
    /// Where the line ends too early it is 11 at its last piece, and where it is empty 11 at line 0 of file 0.
    pub fn define(&mut self, alloc: Global, names: &Names, line: &[PpToken]) -> Result<(), Stop>
        ensures defined { MatchResult result
            (λ _. IsDefined names.now.texts self.old line.now self.new)
            (RefusesLine names.now.texts self.old line.now) }
        ensures only { IsOnlyTable names.now.texts self.old line.now result self.new }
        ensures among { IfErr result (λ stop. 0 < length line.now → StopsAmong line.now stop) }
        ensures err { OnErr result (self.new ≡ self.old) }
        ensures distinct { IsDistinct self.new }
    {
        match self.add(alloc, names, line) {
            Ok(()) => Ok(()),
            Err(halt) => Err(stop_of(halt)),
        }
    }

    fn add(&mut self, alloc: Global, names: &Names, line: &[PpToken]) -> Result<(), Halt>
        ensures defined { MatchResult result
            (λ _. IsDefined names.now.texts self.old line.now self.new)
            (λ halt. RefusesLine names.now.texts self.old line.now (stop_of halt)) }
        ensures err { OnErr result (self.new ≡ self.old) }
        ensures distinct { IsDistinct self.new }
    {
        let Some(stored) = addition(alloc, names, &self.macros, line)? else {
            return Ok(());
        };
        self.macros.add(stored)?;
        Ok(())
    }

    /// Takes the name's macro away, if there is one (C99 6.10.5).
    pub fn undef(&mut self, name: Name)
        ensures without { self.new ≡ without self.old name }
        ensures distinct { IsDistinct self.new }
    {
        self.macros.take_away(name);
    }

    /// Whether the name is that of a macro, as `defined` and `#ifdef` ask (C99 6.10.1).
    pub fn is_defined(&self, name: Name) -> bool
        ensures defined { result ≡ is_some (macro_named self.now name) }
    {
        self.macros.find(name).is_some()
    }

    /// What the pieces of `list` expand to, `room` pieces at most (C99 6.10.3 paragraphs 10 to 12, 6.10.3.1, 6.10.3.4).
    ///
    /// A piece that a macro gives stands at the place of the outermost name that was replaced, and the first of what
    /// stands in place of a name has that name's `first` and `spaced`. 13 at the name: another number of arguments than
    /// of parameters. 14 at the last piece of `list`: no `)` closes a call. 16: piece `room` + 1 of the expansion, at its
    /// place. The first of them in the order of the text stands. Each argument is expanded by itself, in the same room,
    /// and what is refused in it stands at the outermost name. So each piece that is given, and each refusal, stands at
    /// the place of a piece of `list`.
    ///
    /// Want of memory is answered too where memory is not short, at bounds that no text comes near: where calls are
    /// nested more than 256 deep in arguments, where one call of `expand` would replace more than 4,000,000 names, and
    /// where the arguments and the replacements would have more than 16,000,000 tokens together. So macros that
    /// double one another, empty ones too, do not run for long, and no nest of calls ends the stack.
    pub fn expand(
        &self,
        alloc: Global,
        names: &Names,
        list: &[PpToken],
        room: u32,
    ) -> Result<Vec<PpToken>, Stop>
        ensures expanded { MatchResult result
            (λ out. Expanded (record { texts = names.now.texts; macros = self.now; room = room })
            list.now out.items)
            (IsStop (record { texts = names.now.texts; macros = self.now; room = room }) list.now) }
        ensures room { IfOk result (λ out. length out.items ≤ room) }
        ensures among { MatchResult result (λ out. All (λ t. IsAmong list.now t.place) out.items)
            (StopsAmong list.now) }
        ensures only { IsOnlyAnswer
            (record { texts = names.now.texts; macros = self.now; room = room }) list.now result }
    {
        let expander = Expander {
            names,
            macros: &self.macros,
            room,
        };
        match expander.expand(alloc, list) {
            Ok(out) => Ok(out),
            Err(halt) => Err(stop_of(halt)),
        }
    }

    /// What the pieces of `list` give up to where their expansion ends, as in `expand`, and how it ends. A call that is
    /// open where the list ends is no refusal here.
    pub fn given(
        &self,
        alloc: Global,
        names: &Names,
        list: &[PpToken],
        room: u32,
    ) -> Result<Given, AllocError>
        ensures given { IfOk result
            (λ given. TextEnds (record { texts = names.now.texts; macros = self.now; room = room })
            list.now given.pieces.items given.end) }
        ensures room { IfOk result (λ given. length given.pieces.items ≤ room) }
        ensures among { IfOk result
            (λ given. All (λ t. IsAmong list.now t.place) given.pieces.items
            × EndsAmong list.now given.end) }
        ensures only { IfOk result
            (λ given. IsOnlyEnd (record { texts = names.now.texts; macros = self.now; room = room })
            list.now given.pieces.items given.end) }
    {
        let expander = Expander {
            names,
            macros: &self.macros,
            room,
        };
        expander.given(alloc, list)
    }
}
