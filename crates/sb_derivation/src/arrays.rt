//! An array that a declarator makes of a type (C99 6.7.5.2).
ghost use Rattle.std.specs.Prelude.{◌≤◌, ◌<◌, ◌-◌, suc, IfOk};
ghost use Rattle.sb_derivation.specs.Declarators as part;
ghost use Rattle.sb_derivation.specs.Meaning.{ReadsPiece};
ghost use Rattle.sb_lexicon.specs.Meaning.{meant};

use sb_base::Token;
use sb_lexicon::{Lexicon, ReadFault, take_mark};
use sb_operand::Piece;
use sb_sign::Mark;
use sb_specifier::array_size;
use std::alloc::Global;

/// A piece, how deep what stands in it is, and the tokens after it.
#[derive(Drop)]
pub struct FoundPiece<'a> {
    pub piece: Piece,
    pub depth: u32,
    pub rest: &'a [Token],
}

/// An array under so many pieces. `outermost`: the array is a parameter.
pub fn array_piece<'a>(
    alloc: Global,
    lexicon: &Lexicon,
    outermost: bool,
    count: u32,
    below: u32,
    tokens: &'a [Token],
) -> Result<FoundPiece<'a>, ReadFault>
    requires shallow { below < 200 }
    requires few { count < below }
    ensures read { ReadsPiece (part.array_piece (meant lexicon.now) outermost below count
        tokens.now) result }
    ensures depth { IfOk result (λ p. p.depth ≤ below - suc count) }
{
    let open = take_mark(lexicon, Mark::OpenBracket, tokens)?;
    let size = array_size(alloc, lexicon, outermost, count, below, open.rest)?;
    let close = take_mark(lexicon, Mark::CloseBracket, size.rest)?;
    Ok(FoundPiece {
        piece: Piece::Arrayed(size.length, open.value.place),
        depth: size.depth,
        rest: close.rest,
    })
}
