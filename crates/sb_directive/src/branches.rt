//! Which groups of an `#if` are read (C99 6.10.1).
ghost use Rattle.std.specs.Prelude.{◌≡◌, [], ◌∷◌, MatchResult, drop, slice_get};
ghost use Rattle.sb_directive.specs.Branches as spec;

use crate::directive::Branch;
use sb_base::Stop;
use std::alloc::Global;
use std::marker::Model;

/// A new `#if` in text that is read, whose condition is so.
pub fn new_branch(holds: bool) -> Branch
    ensures branch { result ≡ spec.new_branch holds }
{
    Branch {
        around: true,
        reads: holds,
        taken: holds,
        after_else: false,
    }
}

/// A new `#if` in text that is skipped.
pub(crate) fn skipped_branch() -> Branch
    ensures branch { result ≡ spec.skipped_branch }
{
    Branch {
        around: false,
        reads: false,
        taken: false,
        after_else: false,
    }
}

/// Whether the condition of an `#elif` counts: no group was read yet.
pub(crate) fn may_read(branch: Branch) -> bool
    ensures reads { result ≡ spec.may_read branch }
{
    branch.around && !branch.taken
}

/// The branch behind an `#elif` whose condition is so.
pub fn next_group(branch: Branch, holds: bool) -> Branch
    ensures branch { result ≡ spec.next_group branch holds }
{
    Branch {
        around: branch.around,
        reads: holds,
        taken: branch.taken || holds,
        after_else: false,
    }
}

/// The branch behind an `#else`.
pub(crate) fn last_group(branch: Branch) -> Branch
    ensures branch { result ≡ spec.last_group branch }
{
    Branch {
        around: branch.around,
        reads: may_read(branch),
        taken: true,
        after_else: true,
    }
}

/// The branches whose `#endif` has not come yet, seen innermost first.
#[derive(Drop)]
pub struct Branches {
    stack: Vec<Branch>,
}

impl Model for Branches {
    ghost use Rattle.std.specs.Prelude.{List, reverse};
    ghost use Rattle.sb_directive.specs.declared.directive.Branch.{Branch};

    ghost Value = { List Branch };

    ghost view = { λ b. reverse b.stack.items };
}

impl Branches {
    /// No branches.
    pub fn new(alloc: Global) -> Branches
        ensures empty { result ≡ [] }
    {
        Branches {
            stack: Vec::new(alloc),
        }
    }

    pub fn innermost(&self) -> Option<Branch>
        ensures innermost { result ≡ slice_get self.now 0 }
    {
        self.stack.last().copied()
    }

    pub fn is_read(&self) -> bool
        ensures read { result ≡ spec.is_read self.now }
    {
        match self.innermost() {
            Some(branch) => branch.reads,
            None => true,
        }
    }

    /// A new innermost branch.
    pub fn open(&mut self, branch: Branch) -> Result<(), Stop>
        ensures opened { MatchResult result (λ _. self.new ≡ branch ∷ self.old)
            (λ stop. stop ≡ Stop.Memory) }
    {
        match self.stack.push(branch) {
            Ok(()) => Ok(()),
            Err(_) => Err(Stop::Memory),
        }
    }

    /// The innermost branch ends.
    pub fn close(&mut self)
        ensures closed { self.new ≡ drop 1 self.old }
    {
        self.stack.pop();
    }

    /// The innermost branch is so from here on.
    pub fn replace(&mut self, branch: Branch) -> Result<(), Stop>
        ensures replaced { MatchResult result (λ _. self.new ≡ branch ∷ drop 1 self.old)
            (λ stop. stop ≡ Stop.Memory) }
    {
        self.close();
        self.open(branch)
    }
}
