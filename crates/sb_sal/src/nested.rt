//! Annotations, which may stand inside one another, and lists of them.
ghost use Rattle.std.specs.Prelude.{◌≡◌, ◌≤◌, ◌<◌, ◌+◌, IfOk};
ghost use Rattle.sb_parse.specs.Parser.{looped};
ghost use Rattle.sb_lexicon.specs.Meaning.{meant, IsFault};
ghost use Rattle.sb_sal.specs.Meaning.{noted, plain_head, AreNotesKnown, ReadsArgument, ReadsArguments, ReadsNote, ReadsNotes};
ghost use Rattle.sb_sal.specs.Parts as part;
ghost use Rattle.sb_sal.specs.Readers as spec;
ghost use Rattle.sb_sal.specs.Spellings.{begins_note, may_stand};
ghost use Rattle.sb_tree.specs.Plain.{plain_notes};
ghost use Rattle.sb_sign.specs.declared.spelling.Arguments.TheVariants as arguments;

use crate::arguments::{closing, memory, separator, value};
use crate::bearer::Bearer;
use crate::lexemes::{
    Head, is_bare_next, is_deep_next, is_listed_next, is_misplaced_next, is_note_next,
    is_other_next, is_unlisted_next, take_bare, take_head,
};
use crate::locations::location;
use crate::trees::{
    Argument, ArgumentList, FoundNote, NoteList, alone, location_argument, none, note_argument,
    with_argument,
};
use sb_base::Token;
use sb_lexicon::{Lexicon, ReadFault, Reason, is_mark_next, take_mark};
use sb_sign::{Arguments, Mark};
use sb_tree::Note;
use std::alloc::Global;

/// The refusal of an annotation for which there is no room.
fn no_room(lexicon: &Lexicon, bearer: Bearer, tokens: &[Token]) -> ReadFault
    ensures { IsFault (part.no_note (meant lexicon.now) (may_stand (meant lexicon.now) bearer)
        tokens.now) result }
{
    if is_unlisted_next(lexicon, tokens) {
        return ReadFault::at(Reason::UnknownAnnotation, tokens);
    }
    if is_misplaced_next(lexicon, bearer, tokens) {
        return ReadFault::at(Reason::Misplaced, tokens);
    }
    if is_note_next(lexicon, tokens) {
        return ReadFault::too_deep(tokens);
    }
    ReadFault::unexpected(tokens)
}

/// An annotation at most `left` deep that may stand on a declaration of this kind.
#[cycle(annotation)]
fn note_within<'a>(
    alloc: Global,
    lexicon: &Lexicon,
    bearer: Bearer,
    left: u32,
    tokens: &'a [Token],
) -> Result<FoundNote<'a>, ReadFault>
    requires shallow { left ≤ 200 }
    ensures read { ReadsNote (spec.note_reader (meant lexicon.now) left
        (may_stand (meant lexicon.now) bearer) tokens.now) result }
    ensures depth { IfOk result (λ n. n.depth ≤ left) }
{
    if left == 0 {
        return Err(no_room(lexicon, bearer, tokens));
    }
    annotation(alloc, lexicon, bearer, left - 1, tokens)
}

/// An annotation as an argument of another.
#[cycle(annotation)]
fn inner<'a>(
    alloc: Global,
    lexicon: &Lexicon,
    bearer: Bearer,
    below: u32,
    tokens: &'a [Token],
) -> Result<Argument<'a>, ReadFault>
    requires shallow { below < 200 }
    ensures read { ReadsArgument
        (part.inner (meant lexicon.now) (spec.note_reader (meant lexicon.now) below)
        (may_stand (meant lexicon.now) bearer) tokens.now) result }
    ensures depth { IfOk result (λ a. a.depth ≤ below) }
{
    if is_note_next(lexicon, tokens) {
        let found = note_within(alloc, lexicon, bearer, below, tokens)?;
        return Ok(note_argument(alloc, found)?);
    }
    if is_other_next(lexicon, tokens) {
        return Err(ReadFault::at(Reason::Arguments, tokens));
    }
    Err(ReadFault::unexpected(tokens))
}

/// A size or a condition alone.
#[tactic(auto, unfolding(crate::specs::Readers::one))]
fn one_value<'a>(
    alloc: Global,
    lexicon: &Lexicon,
    bearer: Bearer,
    below: u32,
    tokens: &'a [Token],
) -> Result<ArgumentList<'a>, ReadFault>
    requires shallow { below < 200 }
    ensures read { ReadsArguments
        (noted spec.arguments_by (meant lexicon.now) below bearer arguments.Size tokens.now)
        result }
    ensures depth { IfOk result (λ l. l.depth ≤ below) }
{
    let size = value(alloc, lexicon, below, tokens)?;
    Ok(alone(alloc, size)?)
}

/// The word `Mem` alone.
#[tactic(auto, unfolding(crate::specs::Readers::one, crate::specs::Readers::memory))]
fn one_word<'a>(
    alloc: Global,
    lexicon: &Lexicon,
    bearer: Bearer,
    below: u32,
    tokens: &'a [Token],
) -> Result<ArgumentList<'a>, ReadFault>
    requires some { 1 ≤ below }
    ensures read { ReadsArguments
        (noted spec.arguments_by (meant lexicon.now) below bearer arguments.Memory tokens.now)
        result }
    ensures depth { IfOk result (λ l. l.depth ≤ below) }
{
    let word = memory(lexicon, tokens)?;
    Ok(alone(alloc, word)?)
}

/// An annotation alone.
#[cycle(annotation)]
#[tactic(auto, unfolding(crate::specs::Readers::one, crate::specs::Readers::inner))]
fn one_note<'a>(
    alloc: Global,
    lexicon: &Lexicon,
    bearer: Bearer,
    below: u32,
    tokens: &'a [Token],
) -> Result<ArgumentList<'a>, ReadFault>
    requires shallow { below < 200 }
    ensures read { ReadsArguments
        (noted spec.arguments_by (meant lexicon.now) below bearer arguments.Note tokens.now)
        result }
    ensures depth { IfOk result (λ l. l.depth ≤ below) }
{
    let note = inner(alloc, lexicon, bearer, below, tokens)?;
    Ok(alone(alloc, note)?)
}

/// Two sizes, or the ends of a range.
#[tactic(auto, unfolding(crate::specs::Readers::two, crate::specs::Readers::separator))]
fn two_values<'a>(
    alloc: Global,
    lexicon: &Lexicon,
    bearer: Bearer,
    below: u32,
    tokens: &'a [Token],
) -> Result<ArgumentList<'a>, ReadFault>
    requires shallow { below < 200 }
    ensures read { ReadsArguments
        (noted spec.arguments_by (meant lexicon.now) below bearer arguments.Sizes tokens.now)
        result }
    ensures depth { IfOk result (λ l. l.depth ≤ below) }
{
    let first = alone(alloc, value(alloc, lexicon, below, tokens)?)?;
    let comma = separator(lexicon, first.rest)?;
    let second = value(alloc, lexicon, below, comma.rest)?;
    Ok(with_argument(first, second)?)
}

/// A condition and an annotation.
#[cycle(annotation)]
#[tactic(auto, unfolding(crate::specs::Readers::two, crate::specs::Readers::separator, crate::specs::Readers::inner))]
fn guarded<'a>(
    alloc: Global,
    lexicon: &Lexicon,
    bearer: Bearer,
    below: u32,
    tokens: &'a [Token],
) -> Result<ArgumentList<'a>, ReadFault>
    requires shallow { below < 200 }
    ensures read { ReadsArguments
        (noted spec.arguments_by (meant lexicon.now) below bearer arguments.GuardedNote tokens.now)
        result }
    ensures depth { IfOk result (λ l. l.depth ≤ below) }
{
    let first = alone(alloc, value(alloc, lexicon, below, tokens)?)?;
    let comma = separator(lexicon, first.rest)?;
    let second = inner(alloc, lexicon, bearer, below, comma.rest)?;
    Ok(with_argument(first, second)?)
}

/// A location and an annotation, which may be any.
#[cycle(annotation)]
#[tactic(auto, unfolding(crate::specs::Readers::two, crate::specs::Readers::separator, crate::specs::Readers::inner))]
fn located<'a>(
    alloc: Global,
    lexicon: &Lexicon,
    bearer: Bearer,
    below: u32,
    tokens: &'a [Token],
) -> Result<ArgumentList<'a>, ReadFault>
    requires shallow { below < 200 }
    requires some { 1 ≤ below }
    ensures read { ReadsArguments
        (noted spec.arguments_by (meant lexicon.now) below bearer arguments.LocatedNote tokens.now)
        result }
    ensures depth { IfOk result (λ l. l.depth ≤ below) }
{
    let found = location(alloc, lexicon, below, tokens)?;
    let first = alone(alloc, location_argument(found))?;
    let comma = separator(lexicon, first.rest)?;
    let second = inner(alloc, lexicon, Bearer::Any, below, comma.rest)?;
    Ok(with_argument(first, second)?)
}

/// The arguments of an annotation that takes such.
#[cycle(annotation)]
fn arguments_by<'a>(
    alloc: Global,
    lexicon: &Lexicon,
    bearer: Bearer,
    kind: Arguments,
    below: u32,
    tokens: &'a [Token],
) -> Result<ArgumentList<'a>, ReadFault>
    requires shallow { below < 200 }
    requires some { 1 ≤ below }
    ensures read { ReadsArguments
        (noted spec.arguments_by (meant lexicon.now) below bearer kind tokens.now) result }
    ensures depth { IfOk result (λ l. l.depth ≤ below) }
{
    match kind {
        Arguments::Nothing => Ok(none(alloc, tokens)),
        Arguments::Size | Arguments::Condition => one_value(alloc, lexicon, bearer, below, tokens),
        Arguments::Sizes => two_values(alloc, lexicon, bearer, below, tokens),
        Arguments::Memory => one_word(alloc, lexicon, bearer, below, tokens),
        Arguments::Note => one_note(alloc, lexicon, bearer, below, tokens),
        Arguments::GuardedNote => guarded(alloc, lexicon, bearer, below, tokens),
        Arguments::LocatedNote => located(alloc, lexicon, bearer, below, tokens),
    }
}

/// The parentheses behind an annotation's name.
#[cycle(annotation)]
#[tactic(auto, unfolding(crate::specs::Readers::in_parentheses, crate::specs::Readers::closing))]
fn in_parentheses<'a>(
    alloc: Global,
    lexicon: &Lexicon,
    bearer: Bearer,
    head: Head,
    below: u32,
    tokens: &'a [Token],
) -> Result<FoundNote<'a>, ReadFault>
    requires shallow { below < 200 }
    requires some { 1 ≤ below }
    ensures read { ReadsNote (noted spec.in_parentheses (meant lexicon.now) below bearer
        (plain_head head) tokens.now) result }
    ensures depth { IfOk result (λ n. n.depth ≤ below + 1) }
{
    let open = take_mark(lexicon, Mark::OpenParenthesis, tokens)?;
    let args = arguments_by(alloc, lexicon, bearer, head.arguments, below, open.rest)?;
    let close = closing(lexicon, args.rest)?;
    Ok(FoundNote {
        tree: Note::new(head.name, args.list, head.place),
        depth: args.depth + 1,
        rest: close.rest,
    })
}

/// The refusal of an annotation behind which no parentheses open.
fn lacking(tokens: &[Token]) -> ReadFault
    ensures { IsFault (part.lacking tokens.now) result }
{
    match tokens.first() {
        Some(_other) => ReadFault::at(Reason::Arguments, tokens),
        None => ReadFault::at_end(),
    }
}

/// An annotation with arguments.
#[cycle(annotation)]
#[tactic(auto, unfolding(crate::specs::Readers::applied))]
fn applied<'a>(
    alloc: Global,
    lexicon: &Lexicon,
    bearer: Bearer,
    below: u32,
    tokens: &'a [Token],
) -> Result<FoundNote<'a>, ReadFault>
    requires shallow { below < 200 }
    requires some { 1 ≤ below }
    ensures read { ReadsNote (noted spec.applied (meant lexicon.now) below bearer tokens.now)
        result }
    ensures depth { IfOk result (λ n. n.depth ≤ below + 1) }
{
    let head = take_head(lexicon, tokens)?;
    if is_mark_next(lexicon, Mark::OpenParenthesis, head.rest) {
        return in_parentheses(alloc, lexicon, bearer, head.value, below, head.rest);
    }
    Err(lacking(head.rest))
}

/// An annotation without arguments.
fn bare<'a>(
    alloc: Global,
    lexicon: &Lexicon,
    tokens: &'a [Token],
) -> Result<FoundNote<'a>, ReadFault>
    ensures read { ReadsNote (part.bare (meant lexicon.now) tokens.now) result }
    ensures depth { IfOk result (λ n. n.depth ≡ 1) }
{
    let word = take_bare(lexicon, tokens)?;
    if is_mark_next(lexicon, Mark::OpenParenthesis, word.rest) {
        return Err(ReadFault::at(Reason::Arguments, word.rest));
    }
    Ok(FoundNote {
        tree: Note::new(word.value.text, Vec::new(alloc), word.value.place),
        depth: 1,
        rest: word.rest,
    })
}

#[cycle(annotation)]
#[tactic(auto, unfolding(crate::specs::Readers::note, crate::specs::Readers::bare))]
fn annotation<'a>(
    alloc: Global,
    lexicon: &Lexicon,
    bearer: Bearer,
    below: u32,
    tokens: &'a [Token],
) -> Result<FoundNote<'a>, ReadFault>
    requires shallow { below < 200 }
    ensures read { ReadsNote (noted spec.note (meant lexicon.now) below bearer tokens.now) result }
    ensures depth { IfOk result (λ n. n.depth ≤ below + 1) }
{
    if is_unlisted_next(lexicon, tokens) {
        return Err(ReadFault::at(Reason::UnknownAnnotation, tokens));
    }
    if is_misplaced_next(lexicon, bearer, tokens) {
        return Err(ReadFault::at(Reason::Misplaced, tokens));
    }
    if is_deep_next(lexicon, below, tokens) {
        return Err(ReadFault::too_deep(tokens));
    }
    if is_bare_next(lexicon, tokens) {
        return bare(alloc, lexicon, tokens);
    }
    if is_listed_next(lexicon, tokens) {
        return applied(alloc, lexicon, bearer, below, tokens);
    }
    Err(ReadFault::unexpected(tokens))
}

/// One more annotation.
#[tactic(auto, unfolding(crate::specs::Readers::next_note), using(crate::proofs::Lists::more_notes, crate::proofs::Lists::depth_of_more))]
fn next_note<'a>(
    alloc: Global,
    lexicon: &Lexicon,
    bearer: Bearer,
    left: u32,
    so_far: NoteList<'a>,
) -> Result<NoteList<'a>, ReadFault>
    requires shallow { left ≤ 200 }
    requires known { AreNotesKnown so_far }
    requires low { so_far.depth ≤ left }
    ensures read { ReadsNotes (spec.next_note (meant lexicon.now) left
        (may_stand (meant lexicon.now) bearer) (plain_notes so_far.entry.list.items)
        so_far.entry.rest.now) result }
    ensures depth { IfOk result (λ ns. ns.depth ≤ left) }
{
    let next = note_within(alloc, lexicon, bearer, left, so_far.rest)?;
    let mut list = so_far.list;
    list.push(next.tree)?;
    Ok(NoteList {
        list,
        depth: so_far.depth.max(next.depth),
        rest: next.rest,
    })
}

/// As many annotations as there are, each at most `left` deep, which may stand on a declaration of this kind.
pub fn notes_within<'a>(
    alloc: Global,
    lexicon: &Lexicon,
    bearer: Bearer,
    left: u32,
    tokens: &'a [Token],
) -> Result<NoteList<'a>, ReadFault>
    requires shallow { left ≤ 200 }
    ensures read { ReadsNotes (spec.notes_reader (meant lexicon.now) left
        (may_stand (meant lexicon.now) bearer) tokens.now) result }
    ensures depth { IfOk result (λ ns. ns.depth ≤ left) }
{
    let mut found = NoteList {
        list: Vec::new(alloc),
        depth: 0,
        rest: tokens,
    };
    for _turn in 0..tokens.len() {
        if !is_note_next(lexicon, found.rest) {
            return Ok(found);
        }
        found = next_note(alloc, lexicon, bearer, left, found)?;
    }
    Ok(found)
}
