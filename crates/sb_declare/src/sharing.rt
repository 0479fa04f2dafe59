//! The declarators of one declaration in a scope (C99 6.7), and the annotations that may stand on each.
ghost use Rattle.std.specs.Prelude.{◌≡◌, ◌≤◌, ◌<◌, ◌+◌, false, [], IfOk, IfErr};
ghost use Rattle.sb_parse.specs.Parser.{at_next};
ghost use Rattle.sb_lexicon.specs.declared.reading.ReadFault.TheVariants.{Memory};
ghost use Rattle.sb_lexicon.specs.Meaning.{GivesAs};
ghost use Rattle.sb_tree.specs.Plain.{plain_notes};
ghost use Rattle.sb_declare.specs.Openings.{plain_counted, plain_listing};
ghost use Rattle.sb_declare.specs.Openings as part;
ghost use Rattle.sb_declare.specs.Readers as declaration;
ghost use Rattle.sb_specifier.specs.Readers.{shows_object};
ghost use Rattle.sb_specifier.specs.Specified as specified;

use crate::openings::{front, no_pardon};
use crate::tails::behind;
use sb_base::{Name, Names, Place, Token};
use sb_declarator::declarator_within;
use sb_derivation::Declarator;
use sb_lexicon::{Lexicon, Read, ReadFault, Reason};
use sb_sal::{Bearer, notes_within};
use sb_scope::Typedefs;
use sb_sign::{Mark, is_mark};
use sb_specifier::{Later, declare, is_mark_next, take_mark};
use sb_tree::{Decl, Note, Storage};
use std::alloc::{AllocError, Global};

/// What the declarators of one declaration share: the typedef names in force before it, its tokens from the annotations
/// on, those of the annotations, how it is stored, and the type of a later declarator.
#[derive(Clone, Copy)]
pub(crate) struct Shared<'n, 'a> {
    pub(crate) outer: &'n Typedefs,
    pub(crate) tokens: &'a [Token],
    pub(crate) noted: &'a [Token],
    pub(crate) storage: Storage,
    pub(crate) later: Later,
}

/// A declarator of a declaration, and how many tokens stand behind the annotations.
#[derive(Drop)]
pub struct Counted {
    pub declarator: Declarator,
    pub count: usize,
}

/// The declarations so far, the typedef names in force behind them, and how many tokens stand behind the annotations.
#[derive(Drop)]
pub(crate) struct Listing {
    pub(crate) list: Vec<Decl>,
    pub(crate) types: Typedefs,
    pub(crate) count: usize,
}

// ---- counts

/// A sum of counts of tokens, which memory bounds.
pub(crate) fn added(count: usize, more: usize) -> Result<usize, ReadFault>
    ensures sum { IfOk result (λ n. n ≡ count + more) }
    ensures memory { IfErr result (λ e. e ≡ Memory) }
{
    match count.checked_add(more) {
        Some(sum) => Ok(sum),
        None => Err(ReadFault::Memory),
    }
}

// ---- annotations

/// Whether a token behind a declarator shows that what is declared is no function, or that it is done.
fn shows_object(names: &Names, token: &Token) -> bool
    ensures { result ≡ shows_object (specified.reading names.now.texts []) token.now }
{
    is_mark(names, Mark::Comma, token)
        || is_mark(names, Mark::Semicolon, token)
        || is_mark(names, Mark::Assign, token)
        || is_mark(names, Mark::OpenBrace, token)
}

fn is_object_next(names: &Names, tokens: &[Token]) -> bool
    ensures { result ≡ at_next (shows_object (specified.reading names.now.texts [])) tokens.now }
{
    match tokens.first() {
        Some(token) => shows_object(names, token),
        None => false,
    }
}

/// Whether annotations, of these tokens, may stand on what is declared, a function or something else.
fn all_stand(function: bool, noted: &[Token]) -> bool
    ensures { result ≡ declaration.all_stand function noted.now }
{
    match noted.first() {
        Some(_first) => function,
        None => true,
    }
}

/// Annotations, of these tokens and `count` tokens before, that may stand on what is declared, a function or not. If they
/// may not, the next token decides whether they are shown misplaced.
#[tactic(auto, using(crate::proofs::steps::Pardons::none_pardoned))]
pub(crate) fn judged(
    names: &Names,
    noted: &[Token],
    function: bool,
    count: usize,
    tokens: &[Token],
) -> Result<(), ReadFault>
    ensures { part.Judges names.now.texts function noted.now count tokens.now result }
{
    if all_stand(function, noted) {
        return Ok(());
    }
    no_pardon(tokens);
    if is_object_next(names, tokens) {
        let before = added(noted.len(), count)?;
        return Err(ReadFault::at(Reason::MisplacedBefore(before), tokens));
    }
    Err(ReadFault::unexpected(tokens))
}

/// Annotations of at most so many tokens are kept for all declarators of a declaration behind its first one.
const MOST_COPIED: usize = 10_000;

/// The annotations again, behind so many declarations that have them: their trees have no copies.
pub(crate) fn notes_again(
    alloc: Global,
    names: &Names,
    below: u32,
    shared: &Shared,
    declared: usize,
) -> Result<Vec<Note>, ReadFault>
    requires shallow { below < 200 }
    ensures list { IfOk result
        (λ ns. plain_notes ns.items ≡ part.notes_of names.now.texts below shared.now) }
    ensures memory { IfErr result (λ e. e ≡ Memory) }
{
    if shared.noted.len().saturating_mul(declared) > MOST_COPIED {
        return Err(ReadFault::Memory);
    }
    let lexicon = Lexicon {
        names,
        types: shared.outer,
        in_note: false,
    };
    match notes_within(alloc, &lexicon, Bearer::Function, below, shared.tokens) {
        Ok(notes) => Ok(notes.list),
        // They were read before, so that only memory may be wanting.
        Err(_fault) => Err(ReadFault::Memory),
    }
}

// ---- declarators

/// The typedef names in force behind a declarator of this name.
pub(crate) fn declared_by(
    alloc: Global,
    storage: Storage,
    name: Option<(Name, Place)>,
    types: Typedefs,
) -> Result<Typedefs, AllocError>
    ensures { IfOk result (λ left. left ≡ part.declared_as storage name types) }
{
    let mut left = types;
    if let Some((declared, _place)) = name {
        declare(alloc, &mut left, storage, declared)?;
    }
    Ok(left)
}

/// Whether the names of a declaration are typedef names.
fn is_typedef(storage: Storage) -> bool
    ensures { result ≡ part.is_typedef storage }
{
    matches!(storage, Storage::Typedef)
}

/// A declarator on a type of this depth, behind which the annotations are judged.
pub(crate) fn declarator_on<'a>(
    alloc: Global,
    lexicon: &Lexicon,
    below: u32,
    shared: &Shared,
    depth: u32,
    count: usize,
    tokens: &'a [Token],
) -> Result<Read<'a, Counted>, ReadFault>
    requires shallow { below < 200 }
    requires fits { depth ≤ below }
    requires outside { lexicon.now.in_note ≡ false }
    ensures read { GivesAs (plain_counted lexicon.now.types.now)
        (part.declarator_on lexicon.now.names.now.texts below shared.now.noted.now
        shared.now.storage lexicon.now.types.now depth count tokens.now) result }
{
    // All tokens can be counted, so that no sum below is too large.
    let _most = added(count, tokens.len())?;
    let functions = !is_typedef(shared.storage);
    let room = below - depth;
    let found = declarator_within(alloc, lexicon, functions, false, below, room, tokens)?;
    let function = found.value.declares_function();
    let so_far = count + front(tokens, found.rest).len();
    judged(lexicon.names, shared.noted, function, so_far, found.rest)?;
    Ok(Read {
        value: Counted {
            declarator: found.value,
            count: so_far,
        },
        rest: found.rest,
    })
}

/// A comma, and one more declarator.
fn next_declarator<'a>(
    alloc: Global,
    names: &Names,
    below: u32,
    shared: &Shared,
    so_far: Read<'a, Listing>,
) -> Result<Read<'a, Listing>, ReadFault>
    requires shallow { below < 200 }
    requires fits { 1 + specified.one_if shared.now.later.constant ≤ below }
    ensures read { GivesAs plain_listing
        (part.next_declarator names.now.texts below shared.now (plain_listing so_far.entry.value)
        so_far.entry.rest.now) result }
{
    let before = so_far.value;
    let comma = take_mark(names, Mark::Comma, so_far.rest)?;
    let count = added(before.count, 1)?;
    let base = shared.later.based(alloc)?;
    let lexicon = Lexicon {
        names,
        types: &before.types,
        in_note: false,
    };
    let found = declarator_on(
        alloc, &lexicon, below, shared, base.depth, count, comma.rest,
    )?;
    behind(alloc, names, below, shared, base.tree, before, found)
}

/// As many commas as there are, each with one more declarator.
pub(crate) fn next_declarators<'a>(
    alloc: Global,
    names: &Names,
    below: u32,
    shared: &Shared,
    first: Read<'a, Listing>,
) -> Result<Read<'a, Listing>, ReadFault>
    requires shallow { below < 200 }
    requires fits { 1 + specified.one_if shared.now.later.constant ≤ below }
    ensures read { GivesAs plain_listing
        (part.next_declarators names.now.texts below shared.now (plain_listing first.entry.value)
        first.entry.rest.now) result }
{
    let most = first.rest.len();
    let mut found = first;
    for _turn in 0..most {
        if !is_mark_next(names, Mark::Comma, found.rest) {
            return Ok(found);
        }
        found = next_declarator(alloc, names, below, shared, found)?;
    }
    Ok(found)
}
