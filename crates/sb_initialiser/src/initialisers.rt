//! Initialisers (C99 6.7.8).
ghost use Rattle.std.specs.Prelude.{◌≡◌, ◌≤◌, ◌<◌, ◌+◌, not, IfOk};
ghost use Rattle.sb_parse.specs.Parser.{at_next, looped};
ghost use Rattle.sb_lexicon.specs.Meaning.{meant, IsFault};
ghost use Rattle.sb_initialiser.specs.Initialisers.{plain_initialisers, AreInitialisersKnown, ReadsInitial, ReadsInitialisers, ReadsListed, no_initialiser};
ghost use Rattle.sb_specifier.specs.Readers.{begins_designator, is_close_brace};
ghost use Rattle.sb_initialiser.specs.Readers as spec;
ghost use Rattle.sb_tree.specs.Plain.{plain_inits};

use sb_base::Token;
use sb_expr::{Level, within};
use sb_lexicon::{Feature, Lexicon, ReadFault, is_mark, is_mark_next, take_mark};
use sb_operand::is_expr_next;
use sb_sign::Mark;
use sb_specifier::comma_behind;
use sb_tree::Init;
use std::alloc::Global;

/// An initialiser, how deep it is, and the tokens after it.
#[derive(Drop)]
pub struct Initial<'a> {
    pub tree: Init,
    pub depth: u32,
    pub rest: &'a [Token],
}

/// Initialisers with commas between them, how deep the deepest is, and the tokens after them. `more`: a comma was read,
/// or nothing yet.
#[derive(Drop)]
pub(crate) struct Initialisers<'a> {
    pub(crate) list: Vec<Init>,
    pub(crate) depth: u32,
    pub(crate) more: bool,
    pub(crate) rest: &'a [Token],
}

/// An initialiser in a list, how deep it is, whether a comma stands behind it, and the tokens after that.
#[derive(Drop)]
pub(crate) struct Listed<'a> {
    pub(crate) tree: Init,
    pub(crate) depth: u32,
    pub(crate) more: bool,
    pub(crate) rest: &'a [Token],
}

/// Whether a designator comes next, which is left out.
fn is_designator_next(lexicon: &Lexicon, tokens: &[Token]) -> bool
    ensures { result ≡ at_next (begins_designator (meant lexicon.now)) tokens.now }
{
    match tokens.first() {
        Some(token) => {
            is_mark(lexicon, Mark::Dot, token) || is_mark(lexicon, Mark::OpenBracket, token)
        }
        None => false,
    }
}

/// Whether another initialiser has to come before the closing brace.
fn is_unclosed(lexicon: &Lexicon, tokens: &[Token]) -> bool
    ensures { result ≡ at_next (λ t. not (is_close_brace (meant lexicon.now) t)) tokens.now }
{
    match tokens.first() {
        Some(token) => !is_mark(lexicon, Mark::CloseBrace, token),
        None => false,
    }
}

/// The refusal of an initialiser for which there is no room.
fn no_room(lexicon: &Lexicon, tokens: &[Token]) -> ReadFault
    ensures { IsFault (no_initialiser (meant lexicon.now) tokens.now) result }
{
    if is_mark_next(lexicon, Mark::OpenBrace, tokens) || is_expr_next(lexicon, tokens) {
        return ReadFault::too_deep(tokens);
    }
    ReadFault::unexpected(tokens)
}

/// One more initialiser, and a comma where there is one: those before it are only lent.
#[cycle(initialising)]
#[tactic(auto, unfolding(crate::specs::Readers::next_initialiser))]
fn one_initialiser<'a>(
    alloc: Global,
    lexicon: &Lexicon,
    below: u32,
    so_far: &Initialisers<'a>,
) -> Result<Listed<'a>, ReadFault>
    requires shallow { below < 200 }
    ensures read { ReadsListed (plain_inits so_far.now.list.items)
        (spec.next_initialiser (meant lexicon.now) below
        (spec.initialiser (meant lexicon.now) below) (plain_initialisers so_far.now)
        so_far.now.rest.now) result }
    ensures depth { IfOk result (λ i. i.depth ≤ below) }
{
    if !so_far.more {
        return Err(ReadFault::unexpected(so_far.rest));
    }
    if is_designator_next(lexicon, so_far.rest) {
        return Err(ReadFault::lacks(Feature::Designated, so_far.rest));
    }
    let next = initialiser(alloc, lexicon, below, so_far.rest)?;
    let comma = comma_behind(lexicon.names, next.rest)?;
    Ok(Listed {
        tree: next.tree,
        depth: next.depth,
        more: comma.value,
        rest: comma.rest,
    })
}

/// The initialisers so far, and one more.
#[cycle(initialising)]
#[tactic(auto, using(sb_specifier::proofs::Growing::more_inits, sb_specifier::proofs::Growing::depth_of_more_inits))]
fn next_initialiser<'a>(
    alloc: Global,
    lexicon: &Lexicon,
    below: u32,
    so_far: Initialisers<'a>,
) -> Result<Initialisers<'a>, ReadFault>
    requires shallow { below < 200 }
    requires known { AreInitialisersKnown so_far }
    requires low { so_far.depth ≤ below }
    ensures read { ReadsInitialisers
        (spec.next_initialiser (meant lexicon.now) below
        (spec.initialiser (meant lexicon.now) below) (plain_initialisers so_far.entry)
        so_far.entry.rest.now) result }
    ensures depth { IfOk result (λ is. is.depth ≤ below) }
{
    let next = one_initialiser(alloc, lexicon, below, &so_far)?;
    let mut list = so_far.list;
    list.push(next.tree)?;
    Ok(Initialisers {
        list,
        depth: so_far.depth.max(next.depth),
        more: next.more,
        rest: next.rest,
    })
}

/// As many initialisers as there are before the closing brace.
#[cycle(initialising)]
fn more_initialisers<'a>(
    alloc: Global,
    lexicon: &Lexicon,
    below: u32,
    first: Initialisers<'a>,
) -> Result<Initialisers<'a>, ReadFault>
    requires shallow { below < 200 }
    requires known { AreInitialisersKnown first }
    requires low { first.depth ≤ below }
    ensures read { ReadsInitialisers
        (looped (λ t. not (is_close_brace (meant lexicon.now) t))
        (spec.next_initialiser (meant lexicon.now) below
        (spec.initialiser (meant lexicon.now) below)) (plain_initialisers first.entry)
        first.entry.rest.now) result }
    ensures depth { IfOk result (λ is. is.depth ≤ below) }
{
    let most = first.rest.len();
    let mut found = first;
    for _turn in 0..most {
        if !is_unclosed(lexicon, found.rest) {
            return Ok(found);
        }
        found = next_initialiser(alloc, lexicon, below, found)?;
    }
    Ok(found)
}

/// Initialisers in braces.
#[cycle(initialising)]
#[tactic(auto, unfolding(crate::specs::Readers::braces))]
fn braces<'a>(
    alloc: Global,
    lexicon: &Lexicon,
    below: u32,
    tokens: &'a [Token],
) -> Result<Initial<'a>, ReadFault>
    requires shallow { below < 200 }
    ensures read { ReadsInitial
        (spec.braces (meant lexicon.now) below (spec.initialiser (meant lexicon.now) below)
        tokens.now) result }
    ensures depth { IfOk result (λ i. i.depth ≤ below + 1) }
{
    let open = take_mark(lexicon, Mark::OpenBrace, tokens)?;
    let none = Initialisers {
        list: Vec::new(alloc),
        depth: 0,
        more: true,
        rest: open.rest,
    };
    let first = next_initialiser(alloc, lexicon, below, none)?;
    let all = more_initialisers(alloc, lexicon, below, first)?;
    let close = take_mark(lexicon, Mark::CloseBrace, all.rest)?;
    Ok(Initial {
        tree: Init::braces(all.list, open.value.place),
        depth: all.depth + 1,
        rest: close.rest,
    })
}

#[cycle(initialising)]
#[tactic(auto, unfolding(crate::specs::Readers::initialiser_at))]
fn initialiser_at<'a>(
    alloc: Global,
    lexicon: &Lexicon,
    below: u32,
    tokens: &'a [Token],
) -> Result<Initial<'a>, ReadFault>
    requires shallow { below < 200 }
    ensures read { ReadsInitial
        (spec.initialiser_at (meant lexicon.now) below (spec.initialiser (meant lexicon.now) below)
        tokens.now) result }
    ensures depth { IfOk result (λ i. i.depth ≤ below + 1) }
{
    if !is_mark_next(lexicon, Mark::OpenBrace, tokens) {
        let value = within(alloc, lexicon, Level::Assignment, below, tokens)?;
        return Ok(Initial {
            tree: Init::value(Box::into_inner(value.tree)),
            depth: value.depth + 1,
            rest: value.rest,
        });
    }
    if below < 2 {
        return Err(ReadFault::too_deep(tokens));
    }
    braces(alloc, lexicon, below, tokens)
}

/// An initialiser at most `left` deep.
#[cycle(initialising)]
#[tactic(auto, unfolding(crate::specs::Readers::initialiser))]
pub fn initialiser<'a>(
    alloc: Global,
    lexicon: &Lexicon,
    left: u32,
    tokens: &'a [Token],
) -> Result<Initial<'a>, ReadFault>
    requires shallow { left ≤ 200 }
    ensures read { ReadsInitial (spec.initialiser (meant lexicon.now) left tokens.now) result }
    ensures depth { IfOk result (λ i. i.depth ≤ left) }
{
    if left == 0 {
        return Err(no_room(lexicon, tokens));
    }
    initialiser_at(alloc, lexicon, left - 1, tokens)
}
