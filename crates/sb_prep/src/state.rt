//! How far a unit has come: its macros, its tables and the pieces that were given.
ghost use Rattle.std.specs.Prelude.{◌≡◌, ℕ, ◌+◌, ◌-◌, ◌^◌, ◌<◌, ◌≤◌, ◌⊎◌, List, [], ◌∷◌, ◌++◌, Some, MatchResult, IfOk, OnOk, OnErr, length, slice_get, nat_eq};
ghost use Rattle.std.specs.List.{list_any};
ghost use Rattle.sb_base.specs.Names.{NameTable, with_text};
ghost use Rattle.sb_lex.specs.Faults.{IsNoPieces};
ghost use Rattle.sb_lex.specs.Lexing.{PiecesOf, Whole};
ghost use Rattle.sb_directive.specs.Asking.{asks};
ghost use Rattle.sb_directive.specs.Conditions.{HasTruth, HasNoTruth};
ghost use Rattle.sb_directive.specs.Ending.Ending.{Ended};
ghost use Rattle.sb_directive.specs.Lines.{begins_directive, part_size};
ghost use Rattle.sb_directive.specs.Rules.{Table, IsDefinition, IsNoDefinition, HasStopped, undefined};
ghost use Rattle.sb_directive.specs.Seeking.{IsSeekResult};
ghost use Rattle.sb_directive.specs.Stopping.{IsStop, IsAmong};
ghost use Rattle.sb_directive.specs.Limits.{most_tokens};
ghost use Rattle.sb_prep.specs.Standing.{Standing, moved_to, start, Gives};
ghost use Rattle.sb_prep.specs.Stopping.{IsIn, AreIn};
ghost use Rattle.sb_prep.specs.Tokens.{Converts, IsNoTokens};
ghost use Rattle.sb_prep.specs.Unit.{most_read, with_read, with_table, with_names, with_once, with_file};

use crate::tokens::tokens;
use sb_base::{Files, Name, Names, Place, Stop, Token};
use sb_directive::{
    Asks, Branches, MOST_TOKENS, Rules, SoughtHeader, asks_of, begins_directive, part_size, seek,
    truth,
};
use sb_lex::{PpToken, lex};
use std::alloc::{AllocError, Global};
use std::marker::Model;

/// At most so many pieces are read in a unit.
const MOST_READ: u32 = 4_000_000;

/// How far a unit has come.
#[derive(Drop)]
pub(crate) struct State {
    names: Names,
    files: Files,
    rules: Rules,
    /// The files that are included once.
    once: Vec<u32>,
    /// How many pieces were read.
    read: u32,
    /// The pieces that were given.
    out: Vec<PpToken>,
}

impl Model for State {
    ghost use Rattle.std.specs.Prelude.{length};
    ghost use Rattle.sb_prep.specs.Standing.{Standing, IsSound};

    ghost Value = { Standing };

    ghost view = { λ s. record { limit = s.names.limit; at = record { table = s.rules; once = s.once.items; read = s.read; given = length s.out.items; texts = s.names.texts; files = s.files }; out = s.out.items } };

    ghost invariant = { λ s. IsSound (record { limit = s.names.limit; at = record { table = s.rules; once = s.once.items; read = s.read; given = length s.out.items; texts = s.names.texts; files = s.files }; out = s.out.items }) };
}

impl State {
    /// The start of a unit.
    pub(crate) fn new(alloc: Global, names: Names, files: Files) -> State
        requires room { length files ≤ 2 ^ 31 }
        ensures start { result ≡ start names.limit names.texts files }
    {
        State {
            names,
            files,
            rules: Rules::new(alloc),
            once: Vec::new(alloc),
            read: 0,
            out: Vec::new(alloc),
        }
    }

    /// The tables of names and of files.
    pub(crate) fn into_tables(self) -> (Names, Files)
        ensures names { result.0 ≡ record { texts = self.at.texts; limit = self.limit } }
        ensures files { result.1 ≡ self.at.files }
    {
        (self.names, self.files)
    }

    pub(crate) fn begins_directive(&self, pieces: &[PpToken]) -> bool
        ensures begins { result ≡ begins_directive self.now.at.texts pieces.now }
    {
        begins_directive(&self.names, pieces)
    }

    pub(crate) fn part_size(&self, pieces: &[PpToken]) -> usize
        ensures size { result ≡ part_size self.now.at.texts pieces.now }
        ensures within { result ≤ length pieces.now }
        ensures some { 0 < length pieces.now → 0 < result }
    {
        part_size(&self.names, pieces)
    }

    /// What the line of a directive asks for.
    pub(crate) fn asks(&self, branches: &Branches, line: &[PpToken]) -> Asks
        ensures asks { result ≡ asks self.now.at.texts self.now.at.table branches.now line.now }
    {
        asks_of(&self.names, &self.rules, branches, line)
    }

    /// How many more pieces the unit may read.
    pub(crate) fn unread(&self) -> usize
        ensures unread { result ≡ most_read - self.now.at.read }
        ensures within { self.now.at.read ≤ most_read }
    {
        (MOST_READ - self.read) as usize
    }

    /// So many pieces more were read. Then there is room for one file more.
    pub(crate) fn count(&mut self, size: usize)
        requires some { 0 < size }
        requires room { self.old.at.read + size ≤ most_read }
        ensures counted { self.new ≡ moved_to self.old (with_read self.old.at size) }
        ensures files { length self.new.at.files ≤ 2147483648 + self.new.at.read }
    {
        self.read += size as u32;
    }

    /// Expands a run of text and gives what it becomes.
    pub(crate) fn give(&mut self, alloc: Global, run: &[PpToken]) -> Result<(), Stop>
        requires held { AreIn (length self.old.at.files) run.now }
        ensures given { MatchResult result (λ _. Gives self.old run.now self.new)
            (IsStop (λ number place. HasStopped self.old.at.texts self.old.at.table
            (most_tokens - self.old.at.given) run.now number place × IsAmong run.now place)) }
        ensures err { OnErr result (self.new ≡ self.old) }
    {
        let room = MOST_TOKENS - self.out.len() as u32;
        let pieces = self.rules.expand(alloc, &self.names, run, room)?;
        match self.out.extend_from_slice(&pieces) {
            Ok(()) => Ok(()),
            Err(_) => Err(Stop::Memory),
        }
    }

    /// The header that the pieces behind `include` name.
    pub(crate) fn seek(&self, alloc: Global, behind: &[PpToken]) -> Result<SoughtHeader, Stop>
        requires some { 0 < length behind.now }
        ensures sought { IsSeekResult self.now.at.texts self.now.at.table behind.now result }
    {
        seek(alloc, &self.names, &self.rules, behind)
    }

    /// Carries out `#define`, of which these pieces stand behind the word.
    pub(crate) fn define(&mut self, alloc: Global, behind: &[PpToken]) -> Result<(), Stop>
        ensures defined { MatchResult result
            (λ _. IsDefinition self.old.at.texts self.old.at.table behind.now self.new.at.table)
            (IsStop (λ number place. IsNoDefinition self.old.at.texts self.old.at.table behind.now
            number place × (0 < length behind.now → IsAmong behind.now place))) }
        ensures moved { self.new ≡ moved_to self.old (with_table self.old.at self.new.at.table) }
    {
        self.rules.define(alloc, &self.names, behind)
    }

    pub(crate) fn undefine(&mut self, name: Name)
        ensures undefined { self.new ≡ moved_to self.old
            (with_table self.old.at (undefined self.old.at.table name)) }
    {
        self.rules.undef(name);
    }

    /// Whether the condition of an `#if` or `#elif` holds, whose word stands at the place, by the pieces behind the word.
    pub(crate) fn truth(
        &mut self,
        alloc: Global,
        at: Place,
        behind: &[PpToken],
    ) -> Result<bool, Stop>
        ensures truth { MatchResult result
            (λ holds. HasTruth self.old.limit self.old.at.texts self.old.at.table at behind.now
            holds self.new.at.texts)
            (IsStop (λ number place. HasNoTruth self.old.limit self.old.at.texts self.old.at.table
            at behind.now number place × ((place ≡ at) ⊎ IsAmong behind.now place))) }
        ensures moved { self.new ≡ moved_to self.old (with_names self.old.at self.new.at.texts) }
    {
        truth(alloc, &mut self.names, &self.rules, at, behind)
    }

    /// The file is included once.
    pub(crate) fn add_once(&mut self, file: u32) -> Result<(), Stop>
        ensures added { MatchResult result
            (λ _. self.new ≡ moved_to self.old (with_once self.old.at file))
            (λ stop. (stop ≡ Stop.Memory) × (self.new ≡ self.old)) }
    {
        match self.once.push(file) {
            Ok(()) => Ok(()),
            Err(_) => Err(Stop::Memory),
        }
    }

    pub(crate) fn is_once(&self, file: u32) -> bool
        ensures once { result ≡ list_any (nat_eq file) self.now.at.once }
    {
        self.once.iter().any(|&other| file == other)
    }

    /// The number of a file, the next if it is new.
    pub(crate) fn number(&mut self, alloc: Global, name: &[u8]) -> Result<u32, AllocError>
        requires room { length self.old.at.files ≤ 2147483648 + self.old.at.read }
        ensures number { IfOk result (λ file. slice_get self.new.at.files file ≡ Some name.now) }
        ensures moved { OnOk result
            (self.new ≡ moved_to self.old (with_file self.old.at name.now)) }
        ensures err { OnErr result (self.new ≡ self.old) }
    {
        self.files.number(alloc, name)
    }

    /// The pieces of a file.
    pub(crate) fn lex(
        &mut self,
        alloc: Global,
        bytes: &[u8],
        file: u32,
    ) -> Result<Vec<PpToken>, Stop>
        requires short { length bytes.now ≤ 4194304 }
        ensures pieces { MatchResult result
            (λ out. PiecesOf file self.old.limit self.old.at.texts bytes.now out.items
            self.new.at.texts Whole)
            (IsNoPieces file self.old.limit self.old.at.texts bytes.now self.new.at.texts) }
        ensures moved { self.new ≡ moved_to self.old (with_names self.old.at self.new.at.texts) }
    {
        lex(alloc, &mut self.names, bytes, file)
    }

    /// The tokens that the pieces become that were given.
    pub(crate) fn tokens(&mut self, alloc: Global) -> Result<Vec<Token>, Stop>
        ensures tokens { MatchResult result
            (λ tokens. Converts self.old.limit self.old.at.texts self.old.out tokens.items
            self.new.at.texts Ended)
            (IsNoTokens self.old.limit self.old.at.texts self.old.out self.new.at.texts) }
        ensures moved { self.new ≡ moved_to self.old (with_names self.old.at self.new.at.texts) }
        ensures held { AreIn (length self.old.at.files) self.old.out }
        ensures given { length self.old.out ≤ most_tokens }
    {
        tokens(alloc, &mut self.names, &self.out)
    }
}
