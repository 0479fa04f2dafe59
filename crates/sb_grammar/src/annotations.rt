//! Annotations at a place in a list of tokens (SAL 2.0).
ghost use Rattle.std.specs.Prelude.{◌≡◌, ◌≤◌, length, OnOk};
ghost use Rattle.sb_parse.specs.Read.{HasOneTree};
ghost use Rattle.sb_lexicon.specs.Meaning.{meant};
ghost use Rattle.sb_lexicon.specs.Outcomes.{lexicon, IsLongestRead};
ghost use Rattle.sb_sal.specs.declared.bearer.Bearer.TheVariants as bearer;
ghost use Rattle.sb_sal.specs.Notes.{AreNotes};
ghost use Rattle.sb_sal.specs.Reads.{FitsNotes, IsNotesRead};
ghost use Rattle.sb_sal.specs.Reasons.{HasNoteReason};
ghost use Rattle.sb_sal.specs.Spellings.{may_stand};
ghost use Rattle.sb_tree.specs.Plain.{plain_notes};

use sb_base::{Names, Stop};
use sb_lexicon::{Lexicon, stop_at, tokens_from};
use sb_sal::{Bearer, notes_within};
use sb_scope::Scope;
use sb_tree::{Cursor, Note};
use std::alloc::Global;

/// As many annotations as there are at a place, which moves behind them.
fn notes_at(alloc: Global, lexicon: &Lexicon, at: &mut Cursor) -> Result<Vec<Note>, Stop>
    requires next { at.old.next ≤ length at.old.tokens.now }
    requires shallow { at.old.left ≤ 200 }
    ensures read { IsNotesRead (meant lexicon.now) at.old.tokens.now at.old.next at.old.left
        at.new.next result }
    ensures tokens { at.new.tokens ≡ at.old.tokens }
    ensures left { at.new.left ≡ at.old.left }
    ensures within { OnOk result
        ((at.old.next ≤ at.new.next) × (at.new.next ≤ length at.old.tokens.now)) }
{
    match notes_within(
        alloc,
        lexicon,
        Bearer::Any,
        at.left,
        tokens_from(at.tokens, at.next),
    ) {
        Ok(found) => {
            at.next = at.tokens.len() - found.rest.len();
            Ok(found.list)
        }
        Err(fault) => Err(stop_at(at.tokens, fault)),
    }
}

/// As many annotations as there are at a place, whatever they may stand on; it moves behind them.
#[tactic(auto, using(sb_sal::proofs::Tying::notes_read, sb_sal::proofs::Tying::notes_have_reason, sb_sal::proofs::Tying::one_list_of_notes))]
pub fn notes(
    alloc: Global,
    names: &Names,
    scope: &Scope,
    at: &mut Cursor,
) -> Result<Vec<Note>, Stop>
    requires next { at.old.next ≤ length at.old.tokens.now }
    requires left { at.old.left ≤ 200 }
    ensures read { IsNotesRead (lexicon names.now.texts scope.now.types) at.old.tokens.now
        at.old.next at.old.left at.new.next result }
    ensures longest { IsLongestRead
        (FitsNotes (lexicon names.now.texts scope.now.types) at.old.left
        (may_stand (lexicon names.now.texts scope.now.types) bearer.Any))
        (λ ns v. ns ≡ plain_notes v.items) at.old.tokens.now at.old.next at.new.next result }
    ensures reason { HasNoteReason (lexicon names.now.texts scope.now.types) at.old.left
        (may_stand (lexicon names.now.texts scope.now.types) bearer.Any)
        (λ ns v. ns ≡ plain_notes v.items) at.old.tokens.now at.old.next at.new.next result }
    ensures one { HasOneTree (AreNotes (lexicon names.now.texts scope.now.types)
        (may_stand (lexicon names.now.texts scope.now.types) bearer.Any)) }
    ensures tokens { at.new.tokens ≡ at.old.tokens }
    ensures left { at.new.left ≡ at.old.left }
    ensures within { OnOk result
        ((at.old.next ≤ at.new.next) × (at.new.next ≤ length at.old.tokens.now)) }
{
    let lexicon = Lexicon {
        names,
        types: &scope.types,
        in_note: false,
    };
    notes_at(alloc, &lexicon, at)
}
