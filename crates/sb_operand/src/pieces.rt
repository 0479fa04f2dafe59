//! What a declarator makes of a type, a piece at a time (C99 6.7.5, 6.7.6).
ghost use Rattle.std.specs.Prelude.{◌≡◌, IfOk};
ghost use Rattle.sb_operand.specs.Meaning.{plain_piece, plain_pieces};
ghost use Rattle.sb_operand.specs.Pieces as spec;
ghost use Rattle.sb_tree.specs.Plain.{plain_type};

use sb_base::Place;
use sb_tree::{Decl, Expr, TypeName};
use std::alloc::{AllocError, Global};

/// What one step of a declarator makes of a type.
#[derive(Drop)]
pub enum Piece {
    /// `const` behind a `*`
    Constant,
    Pointed(Place),
    Arrayed(Option<Box<Expr>>, Place),
    /// A function with these parameters.
    Called(Vec<Decl>, Place),
    /// Parentheses around a declarator.
    Grouped(Place),
}

/// A type with one piece put on it.
#[tactic(auto, unfolding(sb_tree::specs::Plain::plain_type, sb_tree::specs::Plain::plain_expr, sb_tree::specs::Plain::plain_decl))]
fn put_on(alloc: Global, piece: Piece, of: Box<TypeName>) -> Result<Box<TypeName>, AllocError>
    ensures { IfOk result
        (λ t. plain_type t.value ≡ spec.put_on (plain_piece piece) (plain_type of.value)) }
{
    let node = match piece {
        Piece::Constant => TypeName::Const(of),
        Piece::Pointed(place) => TypeName::Pointer(of, place),
        Piece::Arrayed(length, place) => TypeName::Array { of, length, place },
        Piece::Called(params, place) => TypeName::Function {
            result: of,
            params,
            place,
        },
        Piece::Grouped(place) => TypeName::Paren(of, place),
    };
    Ok(Box::new(alloc, node)?)
}

/// A type with pieces put on it, the last one first.
pub fn typed(
    alloc: Global,
    base: Box<TypeName>,
    pieces: Vec<Piece>,
) -> Result<Box<TypeName>, AllocError>
    ensures { IfOk result
        (λ t. plain_type t.value ≡ spec.typed (plain_type base.value) (plain_pieces pieces.items)) }
{
    let mut left = pieces;
    let mut tree = base;
    while let Some(piece) = left.pop() {
        tree = put_on(alloc, piece, tree)?;
    }
    Ok(tree)
}
