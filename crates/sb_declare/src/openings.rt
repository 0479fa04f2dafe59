//! What stands before and behind the declarators of a declaration in a scope (C99 6.7, 6.7.8).
ghost use Rattle.std.specs.Prelude.{◌≡◌, false, ◌≤◌, ◌<◌, ◌-◌, length, take, IfOk};
ghost use Rattle.sb_parse.specs.Parser.{at_next};
ghost use Rattle.sb_lexicon.specs.Meaning.{meant};
ghost use Rattle.sb_declarator.specs.Meaning.{inside};
ghost use Rattle.sb_specifier.specs.Meaning.{IsKnown, IsRoomy};
ghost use Rattle.sb_declare.specs.Openings.{ReadsOpening, ReadsInitialised};
ghost use Rattle.sb_declare.specs.Openings as part;
ghost use Rattle.sb_declare.specs.Readers as declaration;
ghost use Rattle.sb_specifier.specs.Readers as spec;

use sb_base::{Names, Token};
use sb_declarator::specifiers;
use sb_initialiser::initialiser;
use sb_lexicon::{Lexicon, Read, ReadFault, is_mark_next};
use sb_sal::{Bearer, notes_within};
use sb_scope::Typedefs;
use sb_sign::Mark;
use sb_specifier::{Seat, Specified, take_mark};
use sb_tree::Init;
use std::alloc::Global;

/// A declaration up to its first declarator: the typedef names in force before it, its tokens from the annotations on,
/// those of the annotations, its specifiers, and how many tokens stand behind the annotations so far.
#[derive(Drop)]
pub struct Opening<'n, 'a> {
    pub outer: &'n Typedefs,
    pub tokens: &'a [Token],
    pub noted: &'a [Token],
    pub specified: Specified,
    pub count: usize,
}

/// An initialiser, where there is one, how deep it is, and the tokens after it.
#[derive(Drop)]
pub(crate) struct InitialValue<'a> {
    pub(crate) tree: Option<Init>,
    pub(crate) depth: u32,
    pub(crate) rest: &'a [Token],
}

/// The first tokens of a list, up to those that are left of it.
pub(crate) fn front<'a>(tokens: &'a [Token], rest: &[Token]) -> &'a [Token]
    ensures front { result.now ≡ take (length tokens.now - length rest.now) tokens.now }
    ensures shorter { length result.now ≤ length tokens.now }
{
    &tokens[..tokens.len().saturating_sub(rest.len())]
}

/// The annotations and specifiers of a declaration.
#[tactic(auto, unfolding(crate::specs::Readers::opening))]
pub fn opening_within<'n, 'a>(
    alloc: Global,
    names: &Names,
    types: &'n Typedefs,
    below: u32,
    tokens: &'a [Token],
) -> Result<Read<'a, Opening<'n, 'a>>, ReadFault>
    requires shallow { below < 200 }
    requires some { 1 ≤ below }
    ensures read { ReadsOpening names.now.texts below
        (inside declaration.opening names.now.texts below types.now tokens.now) result }
    ensures known { IfOk result (λ r. IsKnown r.value.specified) }
    ensures fits { IfOk result (λ r. IsRoomy below r.value.specified) }
{
    let lexicon = Lexicon {
        names,
        types,
        in_note: false,
    };
    let notes = notes_within(alloc, &lexicon, Bearer::Function, below, tokens)?;
    let found = specifiers(alloc, names, Seat::Scope, below, types, notes.rest)?;
    let noted = front(tokens, notes.rest);
    let count = front(notes.rest, found.rest).len();
    Ok(Read {
        value: Opening {
            outer: types,
            tokens,
            noted,
            specified: found.value,
            count,
        },
        rest: found.rest,
    })
}

/// A token's text is a number of 32 bits, so the token pardons nothing.
#[tactic(auto, using(crate::proofs::steps::Pardons::none_spelled))]
fn pardons_nothing(_token: Token)
    ensures { spec.is_pardon _token ≡ false }
{}

/// No file spells a token that pardons annotations: its number is past those of every table.
pub(crate) fn no_pardon(tokens: &[Token])
    ensures { at_next spec.is_pardon tokens.now ≡ false }
{
    if let Some(first) = tokens.first() {
        pardons_nothing(*first);
    }
}

/// Whether a declaration without a name ends with the next token.
#[tactic(auto, using(crate::proofs::steps::Pardons::ends_as))]
pub fn is_nameless_next(lexicon: &Lexicon, tokens: &[Token]) -> bool
    ensures { result ≡ at_next (spec.ends_nameless (meant lexicon.now)) tokens.now }
{
    no_pardon(tokens);
    is_mark_next(lexicon, Mark::Semicolon, tokens)
}

/// The initialiser behind a declarator, where there is one.
pub(crate) fn initialised<'a>(
    alloc: Global,
    lexicon: &Lexicon,
    below: u32,
    tokens: &'a [Token],
) -> Result<InitialValue<'a>, ReadFault>
    requires shallow { below < 200 }
    ensures read { ReadsInitialised (part.initialised (meant lexicon.now) below tokens.now) result }
    ensures depth { IfOk result (λ i. i.depth ≤ below) }
{
    if !is_mark_next(lexicon, Mark::Assign, tokens) {
        return Ok(InitialValue {
            tree: None,
            depth: 0,
            rest: tokens,
        });
    }
    if below < 2 {
        return Err(ReadFault::too_deep(tokens));
    }
    let assign = take_mark(lexicon.names, Mark::Assign, tokens)?;
    let found = initialiser(alloc, lexicon, below, assign.rest)?;
    Ok(InitialValue {
        tree: Some(found.tree),
        depth: found.depth,
        rest: found.rest,
    })
}
