//! The readers of functions and files.

ghost use Rattle.std.specs.Prelude.{◌≡◌, ℕ, List, IfOk, Err};
ghost use Rattle.sb_parse.specs.Parser.{taken};
ghost use Rattle.sb_parse.specs.Read.{IsRefused};
ghost use Rattle.sb_function.specs.declared.reading.ReadFault.TheVariants.{Refused};
ghost use Rattle.sb_function.specs.Files as spec;
ghost use Rattle.sb_function.specs.Syntax.{FunctionTree};
ghost use Rattle.sb_function.specs.Grammar.{is_among, IsFile};
ghost use Rattle.sb_function.specs.Marks.{misplaced};
ghost use Rattle.sb_function.specs.Reads.{Reads, ReadsAs};
ghost use Rattle.sb_function.specs.Trees.{tree_of, trees, ReadsWhole, IsReadAs};

use crate::lexeme::{Lexeme, Piece};
use crate::param_list::read_params;
use crate::params::name_at;
use crate::reading::{Read, ReadFault, is_next, take_mark};
use crate::statements::block_rest;
use crate::syntax::Function;
use crate::words::is_name;
use sb_base::{Name, Place};
use std::alloc::Global;

fn is_function(name: Name, functions: &[Function]) -> bool
    ensures among { result ≡ is_among name (spec.function_names (trees functions.now)) }
{
    for other in functions {
        if is_name(name, other.name) {
            return true;
        }
    }
    false
}

/// A name that no function so far has, and where it stands.
fn new_name(functions: &[Function], piece: Piece) -> Option<(Name, Place)>
    ensures name { result ≡ spec.new_name (trees functions.now) piece }
{
    let name = name_at(piece.lexeme)?;
    if is_function(name, functions) {
        None
    } else {
        Some((name, piece.place))
    }
}

fn take_new_name<'a>(
    functions: &[Function],
    pieces: &'a [Piece],
) -> Result<Read<'a, (Name, Place)>, ReadFault>
    ensures read { Reads (taken misplaced (spec.new_name (trees functions.now)) pieces.now) result }
{
    match pieces.split_first() {
        Some((piece, rest)) => match new_name(functions, *piece) {
            Some(value) => Ok(Read { value, rest }),
            None => Err(ReadFault::Refused(pieces.len())),
        },
        None => Err(ReadFault::Refused(0)),
    }
}

/// A function whose name none of these has.
#[tactic(auto, unfolding(crate::specs::Files::function))]
fn function<'a>(
    alloc: Global,
    functions: &[Function],
    pieces: &'a [Piece],
) -> Result<Read<'a, Function>, ReadFault>
    ensures read { ReadsAs tree_of (spec.function (trees functions.now) pieces.now) result }
{
    let word = take_mark(pieces, Lexeme::Void)?;
    let named = take_new_name(functions, word.rest)?;
    let parenthesis = take_mark(named.rest, Lexeme::OpenParenthesis)?;
    let params = read_params(alloc, parenthesis.rest)?;
    let brace = take_mark(params.rest, Lexeme::OpenBrace)?;
    let body = block_rest(alloc, brace.rest, &params.value, 99)?;
    let (name, place) = named.value;
    Ok(Read {
        value: Function {
            name,
            place,
            params: params.value,
            body: body.value,
        },
        rest: body.rest,
    })
}

/// One function more.
#[tactic(auto, unfolding(crate::specs::Files::function_more))]
fn function_more<'a>(
    alloc: Global,
    pieces: &'a [Piece],
    functions: Vec<Function>,
) -> Result<Read<'a, Vec<Function>>, ReadFault>
    ensures read { ReadsAs (λ v. trees v.items)
        (spec.function_more (trees functions.items) pieces.now) result }
{
    let next = function(alloc, &functions, pieces)?;
    let mut functions = functions;
    functions.push(next.value)?;
    Ok(Read {
        value: functions,
        rest: next.rest,
    })
}

/// Functions as far as they go.
fn functions<'a>(alloc: Global, pieces: &'a [Piece]) -> Result<Read<'a, Vec<Function>>, ReadFault>
    ensures read { ReadsAs (λ v. trees v.items) (spec.functions pieces.now) result }
{
    let mut found = Read {
        value: Vec::new(alloc),
        rest: pieces,
    };
    for _turn in 0..pieces.len() {
        if !is_next(found.rest, Lexeme::Void) {
            return Ok(found);
        }
        found = function_more(alloc, found.rest, found.value)?;
    }
    Ok(found)
}

fn read_whole(alloc: Global, pieces: &[Piece]) -> Result<Vec<Function>, ReadFault>
    ensures read { ReadsWhole (spec.file pieces.now) result }
{
    let found = functions(alloc, pieces)?;
    if found.rest.len() > 0 {
        return Err(ReadFault::Refused(found.rest.len()));
    }
    Ok(found.value)
}

/// Reads the text of a file: its functions, each with its tree, in the order of the text.
///
/// Errors: `Refused` where the pieces are no file, with how many are left from the first with which no file goes
/// on, 0 at the end; `Memory`.
pub fn read_file(alloc: Global, pieces: &[Piece]) -> Result<Vec<Function>, ReadFault>
    ensures tree { IfOk result (λ v. IsFile pieces.now (trees v.items)) }
    ensures all { (fs : List FunctionTree) → IsFile pieces.now fs → IsReadAs fs result }
    ensures refused { (left : ℕ) → result ≡ Err (Refused left) → IsRefused IsFile pieces.now left }
{
    read_whole(alloc, pieces)
}
