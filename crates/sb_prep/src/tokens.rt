//! The tokens that pieces become: numbers and characters get their values, and adjacent string literals are joined
//! (C99 5.1.1.2, translation phases 5 to 7).
ghost use Rattle.std.specs.Prelude.{◌≡◌, ◌≤◌, ℕ, [], true, IfSome, IfNone, IfOk, IfErr, MatchOption, MatchResult, length, slice_get};
ghost use Rattle.sb_base.specs.Names.{IsDistinct};
ghost use Rattle.sb_directive.specs.Ending.Ending.{Ended};
ghost use Rattle.sb_prep.specs.Converting.{Begins, IsBadLiteral};
ghost use Rattle.sb_prep.specs.Tokens as spec;

use sb_base::{Names, NamesFault, PpKind, Stop, Token};
use sb_directive::{spelling, stop_at};
use sb_lex::{PpToken, character_value, literal_bytes, number_value};
use std::alloc::Global;

/// The value of a piece that is no string literal; None for a number or a character that has none.
fn value_of(kind: PpKind, text: &[u8]) -> Option<u64>
    ensures some { IfSome result (spec.HasValueOf kind text.now) }
    ensures none { IfNone result ((value : ℕ) → spec.HasValueOf kind text.now value → ⊥) }
{
    match kind {
        PpKind::Number => number_value(text),
        PpKind::Char => character_value(text),
        PpKind::Word | PpKind::Text | PpKind::Header | PpKind::Punct => Some(0),
    }
}

fn is_literal(piece: &PpToken) -> bool
    ensures { result ≡ spec.is_text_kind piece.now.kind }
{
    piece.kind == PpKind::Text
}

/// With how many string literals the pieces begin.
fn literal_count(pieces: &[PpToken]) -> usize
    ensures count { result ≡ spec.texts_in_front pieces.now }
    ensures within { result ≤ length pieces.now }
{
    pieces.iter().take_while(|piece| is_literal(piece)).count()
}

/// The bytes that string literals name, one behind the other (C99 6.4.5), or the refusal of the first that names none.
fn joined_bytes(alloc: Global, names: &Names, literals: &[PpToken]) -> Result<Vec<u8>, Stop>
    ensures joined { MatchResult result
        (λ bytes. spec.NameBytes names.now.texts literals.now bytes.items)
        (IsBadLiteral names.now.texts literals.now) }
{
    let mut bytes = Vec::new(alloc);
    for literal in literals {
        let Ok(found) = literal_bytes(alloc, spelling(names, literal)) else {
            return Err(Stop::Memory);
        };
        let Some(more) = found else {
            return Err(stop_at(4, literal.place));
        };
        let Ok(()) = bytes.extend_from_slice(&more) else {
            return Err(Stop::Memory);
        };
    }
    Ok(bytes)
}

/// The one token of the string literals that the pieces begin with, and the pieces behind them. Its text is the bytes that
/// they name, and its place that of the first.
fn literal_token<'a>(
    alloc: Global,
    names: &mut Names,
    first: &PpToken,
    pieces: &'a [PpToken],
) -> Result<(Token, &'a [PpToken]), Stop>
    requires first { slice_get pieces.now 0 ≡ Some first.now }
    requires literal { spec.is_text_kind first.now.kind ≡ true }
    ensures token { MatchResult result
        (λ first. Begins names.old.limit names.old.texts pieces.now names.new.texts first.0
        first.1.now) (spec.IsNoTokens names.old.limit names.old.texts pieces.now names.new.texts) }
    ensures limit { names.new.limit ≡ names.old.limit }
    ensures distinct { IsDistinct names.old.texts → IsDistinct names.new.texts }
{
    let (literals, behind) = pieces.split_at(literal_count(pieces));
    let bytes = joined_bytes(alloc, names, literals)?;
    match names.intern(alloc, &bytes) {
        Ok(text) => {
            let token = Token {
                kind: PpKind::Text,
                text,
                place: first.place,
                value: 0,
            };
            Ok((token, behind))
        }
        Err(NamesFault::Full) => Err(stop_at(28, first.place)),
        Err(NamesFault::Memory) => Err(Stop::Memory),
    }
}

/// The token that the pieces begin with and the pieces behind it; None where there are no pieces.
fn first_token<'a>(
    alloc: Global,
    names: &mut Names,
    pieces: &'a [PpToken],
) -> Result<Option<(Token, &'a [PpToken])>, Stop>
    ensures token { IfOk result
        (λ first. MatchOption first ((pieces.now ≡ []) × (names.new.texts ≡ names.old.texts))
        (λ f. Begins names.old.limit names.old.texts pieces.now names.new.texts f.0 f.1.now)) }
    ensures refused { IfErr result
        (spec.IsNoTokens names.old.limit names.old.texts pieces.now names.new.texts) }
    ensures limit { names.new.limit ≡ names.old.limit }
    ensures distinct { IsDistinct names.old.texts → IsDistinct names.new.texts }
{
    let Some((first, behind)) = pieces.split_first() else {
        return Ok(None);
    };
    if is_literal(first) {
        let token = literal_token(alloc, names, first, pieces)?;
        return Ok(Some(token));
    }
    let Some(value) = value_of(first.kind, spelling(names, first)) else {
        return Err(stop_at(4, first.place));
    };
    let token = Token {
        kind: first.kind,
        text: first.text,
        place: first.place,
        value,
    };
    Ok(Some((token, behind)))
}

/// The tokens of the pieces of a unit, in order.
///
/// A number and a character get their value (C99 6.4.4.1, 6.4.4.4), and adjacent string literals become one token at the
/// place of the first (5.1.1.2, phase 6), whose text is the bytes that they name (6.4.5). An escape ends with its literal.
///
/// The first of these that comes stops it:
/// - 4: at a number, a character or a string literal that has no value,
/// - 28: at string literals for whose bytes the table of names has no room.
///
/// Want of memory may come at any time.
#[tactic(auto, using(crate::proofs::OneConversion::one_conversion))]
pub(crate) fn tokens(
    alloc: Global,
    names: &mut Names,
    pieces: &[PpToken],
) -> Result<Vec<Token>, Stop>
    ensures tokens { MatchResult result
        (λ tokens. spec.Converts names.old.limit names.old.texts pieces.now tokens.items
        names.new.texts Ended)
        (spec.IsNoTokens names.old.limit names.old.texts pieces.now names.new.texts) }
    ensures limit { names.new.limit ≡ names.old.limit }
    ensures distinct { IsDistinct names.old.texts → IsDistinct names.new.texts }
    ensures only { IsDistinct names.old.texts
        → spec.HasOneConversion names.old.limit names.old.texts pieces.now }
{
    let mut tokens = Vec::new(alloc);
    let mut rest = pieces;
    'pieces: while let Some((token, behind)) = first_token(alloc, names, rest)? {
        let Ok(()) = tokens.push(token) else {
            return Err(Stop::Memory);
        };
        rest = behind;
    }
    Ok(tokens)
}
