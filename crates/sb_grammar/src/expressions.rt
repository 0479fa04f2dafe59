//! Expressions and type names at a place in a list of tokens (C99 6.5, 6.7.6).
ghost use Rattle.std.specs.Prelude.{◌≡◌, ◌≤◌, length, OnOk};
ghost use Rattle.sb_parse.specs.Read.{HasOneTree};
ghost use Rattle.sb_lexicon.specs.Meaning.{meant};
ghost use Rattle.sb_expr.specs.Reads.{FitsExpr, FitsType, IsExprRead, IsTypeRead};
ghost use Rattle.sb_lexicon.specs.Outcomes.{lexicon, IsLongestRead};
ghost use Rattle.sb_expr.specs.Expression.{Sequence, IsExpr, IsType};
ghost use Rattle.sb_operand.specs.Pieces.{type_of};
ghost use Rattle.sb_expr.specs.Reasons.{HasExprReason, HasTypeReason};
ghost use Rattle.sb_expr.specs.Calls.{MakesType};
ghost use Rattle.sb_tree.specs.Plain.{plain_expr, plain_type};

use sb_base::{Names, Stop};
use sb_expr::{Level, type_within, within};
use sb_lexicon::{Lexicon, stop_at, tokens_from};
use sb_operand::{Piece, typed};
use sb_scope::Scope;
use sb_tree::{Cursor, Expr, TypeName};
use std::alloc::Global;

/// An expression at a place, which moves behind it.
fn expr_at(alloc: Global, lexicon: &Lexicon, at: &mut Cursor) -> Result<Expr, Stop>
    requires next { at.old.next ≤ length at.old.tokens.now }
    requires shallow { at.old.left ≤ 200 }
    ensures read { IsExprRead (meant lexicon.now) at.old.tokens.now at.old.next at.old.left
        at.new.next result }
    ensures tokens { at.new.tokens ≡ at.old.tokens }
    ensures left { at.new.left ≡ at.old.left }
    ensures within { OnOk result
        ((at.old.next ≤ at.new.next) × (at.new.next ≤ length at.old.tokens.now)) }
{
    match within(
        alloc,
        lexicon,
        Level::Sequence,
        at.left,
        tokens_from(at.tokens, at.next),
    ) {
        Ok(found) => {
            at.next = at.tokens.len() - found.rest.len();
            Ok(Box::into_inner(found.tree))
        }
        Err(fault) => Err(stop_at(at.tokens, fault)),
    }
}

/// The expression with which tokens begin at a place, which moves behind it.
#[tactic(auto, using(sb_expr::proofs::Tying::expr_read, sb_expr::proofs::Tying::one_expr))]
pub fn expr(alloc: Global, names: &Names, scope: &Scope, at: &mut Cursor) -> Result<Expr, Stop>
    requires next { at.old.next ≤ length at.old.tokens.now }
    requires left { at.old.left ≤ 200 }
    ensures read { IsExprRead (lexicon names.now.texts scope.now.types) at.old.tokens.now
        at.old.next at.old.left at.new.next result }
    ensures longest { IsLongestRead
        (FitsExpr (lexicon names.now.texts scope.now.types) at.old.left Sequence)
        (λ a e. a ≡ plain_expr e) at.old.tokens.now at.old.next at.new.next result }
    ensures reason { HasExprReason (lexicon names.now.texts scope.now.types)
        at.old.tokens.now at.old.next at.old.left at.new.next result }
    ensures one { HasOneTree (IsExpr (lexicon names.now.texts scope.now.types) Sequence) }
    ensures tokens { at.new.tokens ≡ at.old.tokens }
    ensures left { at.new.left ≡ at.old.left }
    ensures within { OnOk result
        ((at.old.next ≤ at.new.next) × (at.new.next ≤ length at.old.tokens.now)) }
{
    let lexicon = Lexicon {
        names,
        types: &scope.types,
        in_note: false,
    };
    expr_at(alloc, &lexicon, at)
}

/// The type of a type name.
fn completed(alloc: Global, base: Box<TypeName>, pieces: Vec<Piece>) -> Result<TypeName, Stop>
    ensures { MakesType base pieces result }
{
    match typed(alloc, base, pieces) {
        Ok(tree) => Ok(Box::into_inner(tree)),
        Err(_failed) => Err(Stop::Memory),
    }
}

/// A type name at a place, which moves behind it.
fn type_at(alloc: Global, lexicon: &Lexicon, at: &mut Cursor) -> Result<TypeName, Stop>
    requires next { at.old.next ≤ length at.old.tokens.now }
    requires shallow { at.old.left ≤ 200 }
    ensures read { IsTypeRead (meant lexicon.now) at.old.tokens.now at.old.next at.old.left
        at.new.next result }
    ensures tokens { at.new.tokens ≡ at.old.tokens }
    ensures left { at.new.left ≡ at.old.left }
    ensures within { OnOk result
        ((at.old.next ≤ at.new.next) × (at.new.next ≤ length at.old.tokens.now)) }
{
    match type_within(alloc, lexicon, at.left, tokens_from(at.tokens, at.next)) {
        Ok(named) => {
            at.next = at.tokens.len() - named.rest.len();
            completed(alloc, named.base, named.pieces)
        }
        Err(fault) => Err(stop_at(at.tokens, fault)),
    }
}

/// The type name with which tokens begin at a place, which moves behind it.
#[tactic(auto, using(sb_expr::proofs::Tying::type_read, sb_expr::proofs::Tying::one_type))]
pub fn type_name(
    alloc: Global,
    names: &Names,
    scope: &Scope,
    at: &mut Cursor,
) -> Result<TypeName, Stop>
    requires next { at.old.next ≤ length at.old.tokens.now }
    requires left { at.old.left ≤ 200 }
    ensures read { IsTypeRead (lexicon names.now.texts scope.now.types) at.old.tokens.now
        at.old.next at.old.left at.new.next result }
    ensures longest { IsLongestRead
        (FitsType (lexicon names.now.texts scope.now.types) at.old.left)
        (λ d t. type_of d ≡ plain_type t) at.old.tokens.now at.old.next at.new.next result }
    ensures reason { HasTypeReason (lexicon names.now.texts scope.now.types)
        at.old.tokens.now at.old.next at.old.left at.new.next result }
    ensures one { HasOneTree (IsType (lexicon names.now.texts scope.now.types)) }
    ensures tokens { at.new.tokens ≡ at.old.tokens }
    ensures left { at.new.left ≡ at.old.left }
    ensures within { OnOk result
        ((at.old.next ≤ at.new.next) × (at.new.next ≤ length at.old.tokens.now)) }
{
    let lexicon = Lexicon {
        names,
        types: &scope.types,
        in_note: false,
    };
    type_at(alloc, &lexicon, at)
}
