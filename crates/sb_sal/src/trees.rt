//! Annotations and their arguments as they are read: each with how deep its tree is, and the tokens after it.
ghost use Rattle.std.specs.Prelude.{◌≡◌, ◌≤◌, [], ◌∷◌, ◌++◌, max, IfOk};
ghost use Rattle.sb_operand.specs.Meaning.{plain_found, IsKnown};
ghost use Rattle.sb_sal.specs.Meaning.{IsLocationKnown, IsArgumentKnown, AreArgumentsKnown, IsNoteKnown};
ghost use Rattle.sb_tree.specs.Plain.{plain_expr, plain_arg, plain_args, plain_note};
ghost use Rattle.sb_tree.specs.Trees as tree;

use sb_base::Token;
use sb_operand::Found;
use sb_tree::{Arg, Expr, Note};
use std::alloc::{AllocError, Global};

/// What an annotation can be moved to.
#[derive(Drop)]
pub(crate) struct Location<'a> {
    pub(crate) tree: Expr,
    pub(crate) depth: u32,
    pub(crate) rest: &'a [Token],
}

/// An argument of an annotation.
#[derive(Drop)]
pub(crate) struct Argument<'a> {
    pub(crate) tree: Arg,
    pub(crate) depth: u32,
    pub(crate) rest: &'a [Token],
}

/// The arguments of an annotation.
#[derive(Drop)]
pub(crate) struct ArgumentList<'a> {
    pub(crate) list: Vec<Arg>,
    pub(crate) depth: u32,
    pub(crate) rest: &'a [Token],
}

/// An annotation.
#[derive(Drop)]
pub(crate) struct FoundNote<'a> {
    pub(crate) tree: Note,
    pub(crate) depth: u32,
    pub(crate) rest: &'a [Token],
}

/// Annotations one after the other.
#[derive(Drop)]
pub struct NoteList<'a> {
    pub list: Vec<Note>,
    pub depth: u32,
    pub rest: &'a [Token],
}

/// An expression as an argument.
pub(crate) fn expr_argument<'a>(found: Found<'a>) -> Argument<'a>
    requires known { IsKnown found }
    ensures tree { plain_arg result.tree ≡ tree.ExprArg (plain_found found.entry) }
    ensures known { IsArgumentKnown result }
    ensures depth { result.depth ≡ found.entry.depth }
    ensures rest { result.rest.now ≡ found.entry.rest.now }
{
    Argument {
        tree: Arg::expression(Box::into_inner(found.tree)),
        depth: found.depth,
        rest: found.rest,
    }
}

/// A location as an argument.
pub(crate) fn location_argument<'a>(found: Location<'a>) -> Argument<'a>
    requires known { IsLocationKnown found }
    ensures tree { plain_arg result.tree ≡ tree.ExprArg (plain_expr found.entry.tree) }
    ensures known { IsArgumentKnown result }
    ensures depth { result.depth ≡ found.entry.depth }
    ensures rest { result.rest.now ≡ found.entry.rest.now }
{
    Argument {
        tree: Arg::expression(found.tree),
        depth: found.depth,
        rest: found.rest,
    }
}

/// An annotation as an argument.
pub(crate) fn note_argument<'a>(
    alloc: Global,
    found: FoundNote<'a>,
) -> Result<Argument<'a>, AllocError>
    requires known { IsNoteKnown found }
    ensures tree { IfOk result
        (λ a. plain_arg a.tree ≡ tree.NoteArg (plain_note found.entry.tree)) }
    ensures known { IfOk result (λ a. IsArgumentKnown a) }
    ensures depth { IfOk result (λ a. a.depth ≡ found.entry.depth) }
    ensures rest { IfOk result (λ a. a.rest.now ≡ found.entry.rest.now) }
{
    Ok(Argument {
        tree: Arg::annotation(Box::new(alloc, found.tree)?),
        depth: found.depth,
        rest: found.rest,
    })
}

/// No arguments.
pub(crate) fn none<'a>(alloc: Global, rest: &'a [Token]) -> ArgumentList<'a>
    ensures list { plain_args result.list.items ≡ [] }
    ensures known { AreArgumentsKnown result }
    ensures depth { result.depth ≡ 0 }
    ensures rest { result.rest.now ≡ rest.now }
{
    ArgumentList {
        list: Vec::new(alloc),
        depth: 0,
        rest,
    }
}

/// One argument.
pub(crate) fn alone<'a>(alloc: Global, first: Argument<'a>) -> Result<ArgumentList<'a>, AllocError>
    requires known { IsArgumentKnown first }
    ensures list { IfOk result (λ l. plain_args l.list.items ≡ plain_arg first.entry.tree ∷ []) }
    ensures known { IfOk result (λ l. AreArgumentsKnown l) }
    ensures depth { IfOk result (λ l. l.depth ≡ first.entry.depth) }
    ensures rest { IfOk result (λ l. l.rest.now ≡ first.entry.rest.now) }
{
    let mut list = Vec::new(alloc);
    list.push(first.tree)?;
    Ok(ArgumentList {
        list,
        depth: first.depth,
        rest: first.rest,
    })
}

/// One more argument, which was read behind the others.
#[tactic(auto, using(crate::proofs::Lists::more_args, crate::proofs::Lists::depth_of_more_args))]
pub(crate) fn with_argument<'a>(
    before: ArgumentList<'a>,
    next: Argument<'a>,
) -> Result<ArgumentList<'a>, AllocError>
    requires before { AreArgumentsKnown before }
    requires next { IsArgumentKnown next }
    ensures list { IfOk result
        (λ l. plain_args l.list.items ≡ plain_args before.entry.list.items
        ++ (plain_arg next.entry.tree ∷ [])) }
    ensures known { IfOk result (λ l. AreArgumentsKnown l) }
    ensures depth { IfOk result (λ l. l.depth ≡ max before.entry.depth next.entry.depth) }
    ensures rest { IfOk result (λ l. l.rest.now ≡ next.entry.rest.now) }
{
    let mut list = before.list;
    list.push(next.tree)?;
    Ok(ArgumentList {
        list,
        depth: before.depth.max(next.depth),
        rest: next.rest,
    })
}
