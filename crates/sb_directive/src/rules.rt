//! The macros of a unit (C99 6.10.3).
ghost use Rattle.std.specs.Prelude.{◌≡◌, ◌≤◌, ◌<◌, MatchResult, IfOk, OnErr, length};
ghost use Rattle.std.specs.List.{All};
ghost use Rattle.sb_macro.specs.Endings.{EndsAmong};
ghost use Rattle.sb_directive.specs.Rules.{IsExpansion, HasStopped, HasEnded, IsDefinition, IsNoDefinition, undefined, is_macro, no_macros};
ghost use Rattle.sb_directive.specs.Stopping.{IsStop, IsAmong};

use sb_base::{Name, Names, Stop};
use sb_lex::PpToken;
use sb_macro::{Given, Macros};
use std::alloc::{AllocError, Global};
use std::marker::Model;

/// A unit has at most so many tokens, and macros make at most so many of a line.
pub const MOST_TOKENS: u32 = 1_000_000;

/// The macros that are defined.
#[derive(Drop)]
pub struct Rules {
    macros: Macros,
}

impl Model for Rules {
    ghost use Rattle.sb_directive.specs.Rules.{Table};

    ghost Value = { Table };

    ghost view = { λ r. r.macros };
}

impl Rules {
    /// No macros.
    pub fn new(alloc: Global) -> Rules
        ensures { result ≡ no_macros }
    {
        Rules {
            macros: Macros::new(alloc),
        }
    }

    /// Carries out `#define`, of which these pieces stand behind the word.
    pub fn define(&mut self, alloc: Global, names: &Names, line: &[PpToken]) -> Result<(), Stop>
        ensures defined { MatchResult result
            (λ _. IsDefinition names.now.texts self.old line.now self.new)
            (IsStop (λ number place. IsNoDefinition names.now.texts self.old line.now number place
            × (0 < length line.now → IsAmong line.now place))) }
        ensures err { OnErr result (self.new ≡ self.old) }
    {
        self.macros.define(alloc, names, line)
    }

    /// Carries out `#undef`.
    #[tactic(auto, unfolding(crate::specs::Rules::undefined))]
    pub fn undef(&mut self, name: Name)
        ensures { self.new ≡ undefined self.old name }
    {
        self.macros.undef(name);
    }

    #[tactic(auto, unfolding(crate::specs::Rules::is_macro))]
    pub fn is_defined(&self, name: Name) -> bool
        ensures { result ≡ is_macro self.now name }
    {
        self.macros.is_defined(name)
    }

    /// What macros make of a list, of at most `room` pieces.
    pub fn expand(
        &self,
        alloc: Global,
        names: &Names,
        list: &[PpToken],
        room: u32,
    ) -> Result<Vec<PpToken>, Stop>
        ensures expansion { MatchResult result
            (λ out. IsExpansion names.now.texts self.now room list.now out.items)
            (IsStop (λ number place. HasStopped names.now.texts self.now room list.now number place
            × IsAmong list.now place)) }
        ensures room { IfOk result (λ out. length out.items ≤ room) }
        ensures among { IfOk result (λ out. All (λ t. IsAmong list.now t.place) out.items) }
    {
        self.macros.expand(alloc, names, list, room)
    }

    /// What macros give of a list up to where they stop, at most `room` pieces, and how they stop.
    pub fn given(
        &self,
        alloc: Global,
        names: &Names,
        list: &[PpToken],
        room: u32,
    ) -> Result<Given, AllocError>
        ensures given { IfOk result
            (λ given. HasEnded names.now.texts self.now room list.now given.pieces.items
            given.end) }
        ensures room { IfOk result (λ given. length given.pieces.items ≤ room) }
        ensures among { IfOk result
            (λ given. All (λ t. IsAmong list.now t.place) given.pieces.items
            × EndsAmong list.now given.end) }
    {
        self.macros.given(alloc, names, list, room)
    }
}
