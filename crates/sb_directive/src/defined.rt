//! The operator `defined` of conditions (C99 6.10.1 paragraph 1).
ghost use Rattle.std.specs.Prelude.{◌≡◌, [], IfErr, IfOk, MatchOption, MatchResult};
ghost use Rattle.sb_base.specs.Names.{IsDistinct};
ghost use Rattle.sb_directive.specs.Defined as spec;
ghost use Rattle.sb_directive.specs.Preparing.{Begins, IsDigit, IsNotBegun, IsPreparation};

use crate::lines::{is_word, spelling};
use crate::refusal::stop_at;
use crate::rules::Rules;
use sb_base::{Name, Names, NamesFault, Place, PpKind, Refusal, Stop};
use sb_lex::PpToken;
use std::alloc::{AllocError, Global};

/// The pieces of a condition, up to its end or to the refusal that ended them.
#[derive(Drop)]
pub(crate) struct Preparation {
    pub(crate) pieces: Vec<PpToken>,
    pub(crate) refusal: Option<Refusal>,
}

/// Whether the piece is this punctuator.
fn is_mark(names: &Names, piece: &PpToken, mark: &[u8]) -> bool
    ensures mark { result ≡ spec.is_mark mark.now names.now.texts piece.now }
{
    piece.kind == PpKind::Punct && spelling(names, piece) == mark
}

fn is_defined(names: &Names, piece: &PpToken) -> bool
    ensures defined { result ≡ spec.is_defined names.now.texts piece.now }
{
    is_word(piece) && spelling(names, piece) == b"defined".as_slice()
}

/// The name behind an operator that stands at `at`, `NAME` or `( NAME )`, and the pieces behind that. An error is the
/// place of the piece that makes it none, the last one where they end too early.
fn name_behind<'a>(
    names: &Names,
    at: Place,
    behind: &'a [PpToken],
) -> Result<(Name, &'a [PpToken]), Place>
    ensures named { MatchResult result
        (λ found. spec.HasName names.now.texts behind.now found.0 found.1.now)
        (spec.HasNoName names.now.texts at behind.now) }
{
    let Some((first, inside)) = behind.split_first() else {
        return Err(at);
    };
    if is_word(first) {
        return Ok((first.text, inside));
    }
    if !is_mark(names, first, b"(") {
        return Err(first.place);
    }
    let Some((name, after)) = inside.split_first() else {
        return Err(first.place);
    };
    if !is_word(name) {
        return Err(name.place);
    }
    match after.split_first() {
        Some((close, rest)) if is_mark(names, close, b")") => Ok((name.text, rest)),
        Some((other, _rest)) => Err(other.place),
        None => Err(name.place),
    }
}

/// The number that stands for an operator, by whether its name is that of a macro.
fn digit(
    alloc: Global,
    names: &mut Names,
    operator: &PpToken,
    is_macro: bool,
) -> Result<PpToken, Stop>
    ensures digit { IsDigit names.old.limit names.old.texts operator.now (spec.digit_of is_macro)
        names.new.texts result }
    ensures limit { names.new.limit ≡ names.old.limit }
    ensures distinct { IsDistinct names.old.texts → IsDistinct names.new.texts }
{
    let text = if is_macro {
        b"1".as_slice()
    } else {
        b"0".as_slice()
    };
    match names.intern(alloc, text) {
        Ok(text) => Ok(PpToken {
            kind: PpKind::Number,
            text,
            place: operator.place,
            first: operator.first,
            spaced: operator.spaced,
        }),
        Err(NamesFault::Full) => Err(stop_at(28, operator.place)),
        Err(NamesFault::Memory) => Err(Stop::Memory),
    }
}

/// The piece that the first ones become, an operator with its name or another one, and the pieces behind; None where
/// there are no pieces.
fn first_piece<'a>(
    alloc: Global,
    names: &mut Names,
    rules: &Rules,
    pieces: &'a [PpToken],
) -> Result<Option<(PpToken, &'a [PpToken])>, Stop>
    ensures piece { IfOk result
        (λ first. MatchOption first ((pieces.now ≡ []) × (names.new.texts ≡ names.old.texts))
        (λ f. Begins names.old.limit rules.now names.old.texts pieces.now names.new.texts f.0
        f.1.now)) }
    ensures refused { IfErr result
        (IsNotBegun names.old.limit rules.now names.old.texts pieces.now names.new.texts) }
    ensures limit { names.new.limit ≡ names.old.limit }
    ensures distinct { IsDistinct names.old.texts → IsDistinct names.new.texts }
{
    let Some((first, behind)) = pieces.split_first() else {
        return Ok(None);
    };
    if !is_defined(names, first) {
        return Ok(Some((*first, behind)));
    }
    match name_behind(names, first.place, behind) {
        Ok((name, rest)) => {
            let number = digit(alloc, names, first, rules.is_defined(name))?;
            Ok(Some((number, rest)))
        }
        Err(place) => Err(stop_at(26, place)),
    }
}

/// The pieces of a condition in which each operator `defined NAME` and `defined ( NAME )` is replaced by the number `1`
/// where the name is that of a macro, and else by `0` (C99 6.10.1 paragraph 1), with the place of `defined`.
///
/// The first of these that comes ends them:
/// - 26: where no name stands behind `defined`, at the piece that makes it none, the last one where the line ends too early,
/// - 28: at a `defined` for whose number the table of names has no room.
#[tactic(auto, using(crate::proofs::OnePreparation::one_preparation))]
pub(crate) fn prepare(
    alloc: Global,
    names: &mut Names,
    rules: &Rules,
    line: &[PpToken],
) -> Result<Preparation, AllocError>
    ensures prepared { IfOk result
        (λ made. IsPreparation names.old.limit rules.now names.old.texts line.now made.pieces.items
        names.new.texts made.refusal) }
    ensures limit { names.new.limit ≡ names.old.limit }
    ensures distinct { IsDistinct names.old.texts → IsDistinct names.new.texts }
    ensures only { IsDistinct names.old.texts → spec.HasOnePreparation names.old.limit rules.now
        names.old.texts line.now }
{
    let mut pieces = Vec::new(alloc);
    let mut rest = line;
    'turns: loop {
        match first_piece(alloc, names, rules, rest) {
            Ok(Some((piece, behind))) => {
                pieces.push(piece)?;
                rest = behind;
            }
            Ok(None) => {
                return Ok(Preparation {
                    pieces,
                    refusal: None,
                });
            }
            Err(Stop::Refused(refusal)) => {
                return Ok(Preparation {
                    pieces,
                    refusal: Some(refusal),
                });
            }
            Err(Stop::Memory) => return Err(AllocError),
        }
    }
}
