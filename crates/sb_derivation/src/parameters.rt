//! The annotations of parameters, their places and their names, and what may not follow them (C99 6.7.5.3).
ghost use Rattle.std.specs.Prelude.{◌≡◌, ◌≤◌, ◌<◌, ◌-◌, [], false, IfOk};
ghost use Rattle.sb_parse.specs.Parser.{at_next};
ghost use Rattle.sb_lexicon.specs.Meaning.{meant, IsFault};
ghost use Rattle.sb_lexicon.specs.Tokens.{too_many_parameters};
ghost use Rattle.sb_sal.specs.declared.bearer.Bearer.TheVariants as bearer;
ghost use Rattle.sb_sal.specs.Meaning.{ReadsNotes};
ghost use Rattle.sb_sal.specs.Readers.{notes_reader};
ghost use Rattle.sb_sal.specs.Spellings.{may_stand};
ghost use Rattle.sb_derivation.specs.Declarators as part;
ghost use Rattle.sb_specifier.specs.declared.seat.Seat.TheVariants as seat;
ghost use Rattle.sb_specifier.specs.Parts.{none_follows};
ghost use Rattle.sb_specifier.specs.Readers.{makes_room};
ghost use Rattle.sb_specifier.specs.Specified.{reading};

use sb_base::{Name, Names, Place, Token};
use sb_lexicon::{Lexicon, ReadFault, Reason};
use sb_sal::{Bearer, NoteList, notes_within};
use sb_scope::Typedefs;
use sb_specifier::{NOWHERE, Seat, barred_by};
use std::alloc::{AllocError, Global};

/// The annotations of a parameter.
#[tactic(auto, using(crate::proofs::steps::Parameters::notes_end))]
pub fn parameter_notes<'a>(
    alloc: Global,
    names: &Names,
    below: u32,
    types: &Typedefs,
    tokens: &'a [Token],
) -> Result<NoteList<'a>, ReadFault>
    requires shallow { below ≤ 200 }
    ensures read { ReadsNotes (notes_reader (reading names.now.texts types.now) below
        (may_stand (reading names.now.texts types.now) bearer.Parameter) tokens.now) result }
    ensures depth { IfOk result (λ ns. ns.depth ≤ below) }
    ensures ends { IfOk result (λ ns. part.IsEnd tokens.now ns.rest.now) }
{
    let lexicon = Lexicon {
        names,
        types,
        in_note: false,
    };
    notes_within(alloc, &lexicon, Bearer::Parameter, below, tokens)
}

/// The place of the first token of annotations and specifiers; `behind`: the tokens behind the annotations.
pub fn first_place(tokens: &[Token], behind: &[Token], rest: &[Token]) -> Place
    requires ends { part.IsEnd tokens.now behind.now }
    ensures { result ≡ part.first_of tokens.now behind.now rest.now }
{
    match tokens.first() {
        Some(first) if behind.len() < tokens.len() || rest.len() < behind.len() => first.place,
        _ => NOWHERE,
    }
}

/// The typedef names that are in force behind a parameter of this name.
pub fn without_name(
    alloc: Global,
    name: Option<(Name, Place)>,
    types: &Typedefs,
) -> Result<Typedefs, AllocError>
    ensures { IfOk result (λ left. left ≡ part.hidden_by name types.now) }
{
    let mut left = types.clone()?;
    if let Some((hidden, _place)) = name {
        left.hide(alloc, hidden)?;
    }
    Ok(left)
}

/// The refusal of tokens, of which this is the first, behind 32 parameters and a comma. Its text is a number of 32 bits, so
/// it makes no room for one more.
#[tactic(auto, using(crate::proofs::steps::Parameters::no_room))]
fn refused_at(lexicon: &Lexicon, _first: Token, tokens: &[Token]) -> ReadFault
    ensures none { makes_room _first ≡ false }
    ensures fault { IsFault (none_follows too_many_parameters (meant lexicon.now) seat.Prototype
        tokens.now) result }
{
    barred_by(Reason::TooManyParameters, lexicon, Seat::Prototype, tokens)
}

/// The refusal of what stands behind 32 parameters and a comma.
pub fn beyond_limit(names: &Names, types: &Typedefs, tokens: &[Token]) -> ReadFault
    ensures none { at_next makes_room tokens.now ≡ false }
    ensures fault { IsFault (none_follows too_many_parameters
        (reading names.now.texts types.now) seat.Prototype tokens.now) result }
{
    let lexicon = Lexicon {
        names,
        types,
        in_note: false,
    };
    match tokens.first() {
        Some(first) => refused_at(&lexicon, *first, tokens),
        None => ReadFault::at_end(),
    }
}
