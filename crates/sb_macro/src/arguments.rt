//! The arguments of a call of a function-like macro.
ghost use Rattle.std.specs.Prelude.{◌≡◌, ◌<◌, ◌^◌, ◌-◌, Some, None, IfOk, length};
ghost use Rattle.sb_macro.specs.Arguments.{turn_of, arguments, arguments_for, is_one_empty, needed_arguments, occurs};
ghost use Rattle.sb_macro.specs.Taking.{HasTaken};
ghost use Rattle.sb_macro.specs.Tokens.{toks, lists};

use crate::marked::Tokens;
use crate::marks::{Mark, mark_of};
use crate::stored::Part;
use sb_base::{Name, Names};
use std::alloc::{AllocError, Global};
use std::collections::VecDeque;

/// What a token does to the arguments that are read.
#[derive(Clone, Copy, PartialEq, Eq)]
pub enum Turn {
    /// It closes them.
    Ends,
    /// It parts one from the next.
    Parts,
    /// It belongs to the argument, and so many parentheses are open behind it.
    Goes(usize),
}

fn turn_of(mark: Mark, depth: usize) -> Turn
    requires { depth < 2 ^ 64 - 1 }
    ensures { result ≡ turn_of mark depth }
{
    match mark {
        Mark::Open => Turn::Goes(depth + 1),
        Mark::Close => {
            if depth == 0 {
                Turn::Ends
            } else {
                Turn::Goes(depth - 1)
            }
        }
        Mark::Comma => {
            if depth == 0 {
                Turn::Parts
            } else {
                Turn::Goes(depth)
            }
        }
        Mark::Dots | Mark::Hash | Mark::Other => Turn::Goes(depth),
    }
}

/// Takes the arguments and the `)` that closes them off the front of `rest`, whose `(` was taken. None if `rest` ends
/// before they are closed.
pub fn take_arguments(
    alloc: Global,
    names: &Names,
    rest: &mut Tokens,
) -> Result<Option<VecDeque<Tokens>>, AllocError>
    ensures taken { IfOk result
        (HasTaken (arguments names.now.texts 0 (toks rest.old.items)) rest.new) }
{
    let mut args = VecDeque::new(alloc);
    let mut arg = VecDeque::new(alloc);
    let mut depth = 0;
    while let Some(marked) = rest.pop_front() {
        match turn_of(mark_of(names, marked.token.text), depth) {
            Turn::Ends => {
                args.push_back(arg)?;
                return Ok(Some(args));
            }
            Turn::Parts => {
                args.push_back(arg)?;
                arg = VecDeque::new(alloc);
            }
            Turn::Goes(deeper) => {
                arg.push_back(marked)?;
                depth = deeper;
            }
        }
    }
    Ok(None)
}

/// The arguments as a macro with these parameters is given them.
pub fn arguments_for(params: &[Name], args: VecDeque<Tokens>) -> VecDeque<Tokens>
    ensures { lists result.items ≡ arguments_for params.now (lists args.items) }
{
    let mut args = args;
    if params.is_empty() && is_one_empty(&args) {
        args.clear();
    }
    args
}

fn is_one_empty(args: &VecDeque<Tokens>) -> bool
    ensures { result ≡ is_one_empty (lists args.now.items) }
{
    if args.len() != 1 {
        return false;
    }
    match args.front() {
        Some(arg) => arg.is_empty(),
        None => false,
    }
}

/// Whether the replacement list has the parameter.
fn occurs(body: &[Part], param: Name) -> bool
    ensures { result ≡ occurs body.now param }
{
    body.iter().any(|part| part.text.0 == param.0)
}

/// The arguments that are to be expanded.
pub fn needed_arguments(
    alloc: Global,
    body: &[Part],
    params: &[Name],
    args: VecDeque<Tokens>,
) -> Result<VecDeque<Tokens>, AllocError>
    ensures { IfOk result
        (λ kept. lists kept.items ≡ needed_arguments body.now params.now (lists args.items)) }
{
    let mut args = args;
    let mut kept = VecDeque::new(alloc);
    for param in params {
        let Some(mut arg) = args.pop_front() else {
            return Ok(kept);
        };
        if !occurs(body, *param) {
            arg.clear();
        }
        kept.push_back(arg)?;
    }
    Ok(kept)
}
