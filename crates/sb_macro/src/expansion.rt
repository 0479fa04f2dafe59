//! The expansion of a list of tokens.
ghost use Rattle.std.specs.Prelude.{◌≡◌, ◌≤◌, ◌<◌, ◌+◌, [], Some, None, IfOk, OnOk, MatchResult, length, map, reverse};
ghost use Rattle.sb_macro.specs.Endings.{Ends, TextEnds};
ghost use Rattle.std.specs.Option.{option_copied, option_map};
ghost use Rattle.sb_macro.specs.Expansion.{opens, called_macro, step_by, place_of_last, Expanded, Gives};
ghost use Rattle.sb_macro.specs.Macros.{macro_of};
ghost use Rattle.sb_macro.specs.Replacing.{scope_of, IsTaken, AreExpanded, AreRefused, IsEndAt, IsReplaced, IsWhole, StopsWith, halt_of};
ghost use Rattle.sb_macro.specs.Tokens.{fresh, tok_of, toks, lists, fulls_of};

use crate::arguments::{arguments_for, needed_arguments, take_arguments};
use crate::definitions::Definitions;
use crate::ending::{End, Given};
use crate::halt::{Halt, nowhere};
use crate::marked::{Marked, Tokens, fresh, pieces};
use crate::marks::{Mark, mark_of};
use crate::replacing::{put_before, replacement};
use crate::stored::{Stored, holds};
use sb_base::{Names, Place, PpKind};
use sb_lex::PpToken;
use std::alloc::{AllocError, Global};
use std::collections::VecDeque;

/// How deep calls may nest: the outermost one, and 256 in arguments.
const DEPTH: u32 = 257;

/// How many names one expansion may replace.
const REPLACEMENTS: u32 = 4_000_000;

/// How many tokens the arguments and the replacements of one expansion may have together.
const TOKENS: u32 = 16_000_000;

/// How much one expansion may still do.
#[derive(Clone, Copy)]
struct Budget {
    replacements: u32,
    tokens: u32,
}

/// What was taken off a list as the arguments of a macro.
#[derive(Drop)]
pub enum Taken {
    /// The arguments that are to be expanded.
    Args(VecDeque<Tokens>),
    /// No `)` closes them.
    Unclosed,
    /// There is another number of them than of parameters.
    Miscounted,
}

/// The tokens that a list gives up to where its expansion ends.
#[derive(Drop)]
pub struct Reached {
    pub tokens: Vec<Marked>,
    pub end: End,
}

/// What an expansion depends on: the names, the macros, and how many tokens it may give.
#[derive(Clone, Copy)]
pub struct Expander<'a> {
    pub names: &'a Names,
    pub macros: &'a Definitions,
    pub room: u32,
}

fn opens(names: &Names, rest: &Tokens) -> bool
    ensures { result ≡ opens names.now.texts (toks rest.now.items) }
{
    match rest.front() {
        Some(marked) => mark_of(names, marked.token.text) == Mark::Open,
        None => false,
    }
}

/// The place of the last piece of a text.
fn place_of_last(list: &[PpToken]) -> Place
    ensures { result ≡ place_of_last list.now }
{
    match list.last() {
        Some(token) => token.place,
        None => nowhere(),
    }
}

/// All that an argument gives; its refusal, at no place, where it does not give all.
fn whole(reached: Result<Reached, AllocError>) -> Result<Vec<Marked>, Halt>
    ensures { IsWhole reached result }
{
    let Ok(reached) = reached else {
        return Err(Halt::Memory);
    };
    match reached.end {
        End::Whole => Ok(reached.tokens),
        End::Open => Err(Halt::Refused(14, nowhere())),
        End::Refused(number, _) => Err(Halt::Refused(number, nowhere())),
    }
}

/// How the expansion ends at a name at `place` whose arguments are refused.
fn end_at(halt: Halt, place: Place) -> Result<Option<End>, AllocError>
    ensures { IsEndAt halt place result }
{
    match halt {
        Halt::Refused(number, _) => Ok(Some(End::Refused(number, place))),
        Halt::Memory => Err(AllocError),
    }
}

/// How a text is refused whose expansion ends so, the last piece of which stands at `last`; None where all is read.
fn halt_of(end: End, last: Place) -> Option<Halt>
    ensures { result ≡ halt_of end last }
{
    match end {
        End::Whole => None,
        End::Open => Some(Halt::Refused(14, last)),
        End::Refused(number, place) => Some(Halt::Refused(number, place)),
    }
}

impl Expander<'_> {
    /// What the pieces of a text give, and how the expansion ends.
    pub fn given(&self, alloc: Global, list: &[PpToken]) -> Result<Given, AllocError>
        ensures { IfOk result
            (λ given. TextEnds (scope_of self.now) list.now given.pieces.items given.end) }
    {
        let mut budget = Budget {
            replacements: REPLACEMENTS,
            tokens: TOKENS,
        };
        let text = fresh(alloc, list)?;
        let reached = self.expand_list(alloc, text, DEPTH, &mut budget)?;
        let given = pieces(alloc, reached.tokens.as_slice())?;
        Ok(Given {
            pieces: given,
            end: reached.end,
        })
    }

    /// What the pieces of a text expand to.
    pub fn expand(&self, alloc: Global, list: &[PpToken]) -> Result<Vec<PpToken>, Halt>
        ensures { MatchResult result (λ out. Expanded (scope_of self.now) list.now out.items)
            (StopsWith (scope_of self.now) (place_of_last list.now) (fresh list.now)) }
    {
        let given = self.given(alloc, list)?;
        match halt_of(given.end, place_of_last(list)) {
            None => Ok(given.pieces),
            Some(halt) => Err(halt),
        }
    }

    /// The macro that is to replace a token.
    fn called_macro(&self, marked: &Marked, rest: &Tokens) -> Option<&Stored>
        ensures { option_map macro_of (option_copied result)
            ≡ called_macro (scope_of self.now) (tok_of marked.now) (toks rest.now.items) }
    {
        if marked.token.kind != PpKind::Word {
            return None;
        }
        if holds(marked.hidden.as_slice(), marked.token.text) {
            return None;
        }
        let stored = self.macros.find(marked.token.text)?;
        if stored.params.is_none() || opens(self.names, rest) {
            Some(stored)
        } else {
            None
        }
    }

    /// Takes the arguments of a macro off the front of `rest`, which begins with their `(`.
    fn take(&self, alloc: Global, stored: &Stored, rest: &mut Tokens) -> Result<Taken, AllocError>
        ensures { IfOk result
            (IsTaken (macro_of stored.now)
            (step_by (scope_of self.now).texts (macro_of stored.now) (macro_of stored.now).params
            (toks rest.old.items)) rest.new) }
    {
        let Some(params) = &stored.params else {
            return Ok(Taken::Args(VecDeque::new(alloc)));
        };
        let _open = rest.pop_front();
        let Some(split) = take_arguments(alloc, self.names, rest)? else {
            return Ok(Taken::Unclosed);
        };
        let args = arguments_for(params, split);
        if args.len() != params.len() {
            return Ok(Taken::Miscounted);
        }
        Ok(Taken::Args(needed_arguments(alloc, &stored.body, params, args)?))
    }

    /// What the tokens of `pending` give.
    #[cycle(expand)]
    fn expand_list(
        &self,
        alloc: Global,
        pending: Tokens,
        depth: u32,
        budget: &mut Budget,
    ) -> Result<Reached, AllocError>
        ensures reached { IfOk result
            (λ reached. Ends (scope_of self.now) (toks pending.items) (toks reached.tokens.items)
            reached.end) }
        ensures budget { budget.new.replacements ≤ budget.old.replacements }
    {
        let mut pending = pending;
        let mut out = Vec::new(alloc);
        while let Some(marked) = pending.pop_front() {
            match self.called_macro(&marked, &pending) {
                Some(stored) => {
                    match self.replace(alloc, stored, &marked, &mut pending, depth, budget) {
                        Ok(None) => (),
                        Ok(Some(end)) => return Ok(Reached { tokens: out, end }),
                        Err(_) => return Err(AllocError),
                    }
                }
                None => {
                    if out.len() >= self.room as usize {
                        let end = End::Refused(16, marked.token.place);
                        return Ok(Reached { tokens: out, end });
                    }
                    out.push(marked)?;
                }
            }
        }
        Ok(Reached {
            tokens: out,
            end: End::Whole,
        })
    }

    /// Replaces the name `name` of a macro, behind which `pending` goes on. None where that is done, and else how the
    /// expansion ends there.
    #[cycle(expand)]
    fn replace(
        &self,
        alloc: Global,
        stored: &Stored,
        name: &Marked,
        pending: &mut Tokens,
        depth: u32,
        budget: &mut Budget,
    ) -> Result<Option<End>, AllocError>
        requires called { called_macro (scope_of self.now) (tok_of name.now)
            (toks pending.old.items) ≡ Some (macro_of stored.now) }
        ensures replaced { IfOk result
            (IsReplaced (scope_of self.now) (tok_of name.now) (toks pending.old.items)
            (toks pending.new.items)) }
        ensures budget { budget.new.replacements ≤ budget.old.replacements }
        ensures spent { OnOk result (budget.new.replacements < budget.old.replacements) }
    {
        budget.replace_one()?;
        let before = pending.len();
        let taken = self.take(alloc, stored, pending)?;
        budget.add_tokens(before.saturating_sub(pending.len()))?;
        let args = match taken {
            Taken::Args(args) => args,
            Taken::Unclosed => return Ok(Some(End::Open)),
            Taken::Miscounted => return Ok(Some(End::Refused(13, name.token.place))),
        };
        let fulls = match self.expand_each(alloc, args, depth, budget) {
            Ok(fulls) => fulls,
            Err(halt) => return end_at(halt, name.token.place),
        };
        let tokens = replacement(alloc, stored, fulls.as_slice(), name)?;
        budget.add_tokens(tokens.len())?;
        put_before(pending, tokens)?;
        Ok(None)
    }

    /// What each of these arguments gives by itself. A refusal has no place of its own.
    #[cycle(expand)]
    fn expand_each(
        &self,
        alloc: Global,
        args: VecDeque<Tokens>,
        depth: u32,
        budget: &mut Budget,
    ) -> Result<Vec<Vec<Marked>>, Halt>
        ensures expanded { MatchResult result
            (λ fulls. AreExpanded (scope_of self.now) (lists args.items) (fulls_of fulls.items))
            (AreRefused (scope_of self.now) (lists args.items)) }
        ensures budget { budget.new.replacements ≤ budget.old.replacements }
    {
        let mut args = args;
        let mut fulls = Vec::new(alloc);
        while let Some(arg) = args.pop_front() {
            if depth == 0 {
                return Err(Halt::Memory);
            }
            match whole(self.expand_list(alloc, arg, depth - 1, budget)) {
                Ok(full) => fulls.push(full)?,
                Err(halt) => return Err(halt),
            }
        }
        Ok(fulls)
    }
}

impl Budget {
    /// Counts one replacement.
    fn replace_one(&mut self) -> Result<(), AllocError>
        ensures spent { OnOk result (self.new.replacements < self.old.replacements) }
        ensures replacements { self.new.replacements ≤ self.old.replacements }
    {
        let Some(left) = self.replacements.checked_sub(1) else {
            return Err(AllocError);
        };
        self.replacements = left;
        Ok(())
    }

    /// Counts tokens of arguments or of a replacement.
    fn add_tokens(&mut self, count: usize) -> Result<(), AllocError>
        ensures same { self.new.replacements ≡ self.old.replacements }
    {
        if count > self.tokens as usize {
            return Err(AllocError);
        }
        self.tokens -= count as u32;
        Ok(())
    }
}
