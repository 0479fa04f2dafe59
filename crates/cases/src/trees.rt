//! Cases of trees: expressions, type names, annotations and translation units.
ghost use Rattle.std.specs.Prelude.{◌≡◌, ◌≤◌};

use crate::pieces::put_stop;
use crate::units::put_tokens;
use sb_base::{Names, Token};
use sb_grammar::{expr, notes, tree, type_name};
use sb_lexicon::{ReadFault, Reason, stop_at};
use sb_scope::{Scope, Typedefs};
use sb_show::{Block, Part, Report, put_part};
use sb_sign::{Keyword, Mark, is_keyword, is_mark, keyword_of, mark_of, name_of};
use sb_tree::Cursor;
use std::alloc::{AllocError, Global};

/// The tokens that are left, if any.
fn put_rest(names: &Names, at: &Cursor, report: &mut Report) {
    let rest = at.tokens.get(at.next..).unwrap_or(&[]);
    if !rest.is_empty() {
        report.word(" then ");
        put_tokens(names, rest, report);
    }
}

/// The first place in a list of tokens, where a tree may be so deep, and at most 200.
fn begin(tokens: &[Token], left: u32) -> Cursor<'_>
    ensures next { result.next ≡ 0 }
    ensures left { result.left ≤ 200 }
{
    Cursor {
        tokens,
        next: 0,
        left: left.min(200),
    }
}

fn put_expr(
    alloc: Global,
    names: &Names,
    scope: &Scope,
    tokens: &[Token],
    (left, is_placed): (u32, bool),
    report: &mut Report,
) {
    let mut at = begin(tokens, left);
    match expr(alloc, names, scope, &mut at) {
        Ok(read) => {
            put_part(alloc, names, Part::Expr(&read), is_placed, report);
            put_rest(names, &at, report);
        }
        Err(stop) => put_stop(stop, report),
    }
}

fn put_type(
    alloc: Global,
    names: &Names,
    scope: &Scope,
    tokens: &[Token],
    (left, is_placed): (u32, bool),
    report: &mut Report,
) {
    let mut at = begin(tokens, left);
    match type_name(alloc, names, scope, &mut at) {
        Ok(read) => {
            put_part(alloc, names, Part::Type(&read), is_placed, report);
            put_rest(names, &at, report);
        }
        Err(stop) => put_stop(stop, report),
    }
}

fn put_notes(
    alloc: Global,
    names: &Names,
    scope: &Scope,
    tokens: &[Token],
    (left, is_placed): (u32, bool),
    report: &mut Report,
) {
    let mut at = begin(tokens, left);
    match notes(alloc, names, scope, &mut at) {
        Ok(read) => {
            put_part(alloc, names, Part::Notes(&read), is_placed, report);
            put_rest(names, &at, report);
        }
        Err(stop) => put_stop(stop, report),
    }
}

fn put_declarations(
    alloc: Global,
    names: &Names,
    tokens: &[Token],
    (stage, is_placed): (&str, bool),
    report: &mut Report,
) {
    match tree(alloc, names, tokens) {
        Ok(read) if stage == "depth" => {
            report.number(i128::from(read.depth()));
            report.word(" deep, declarations: ");
            report.number(read.decls().len() as i128);
        }
        Ok(read) => put_part(alloc, names, Part::Decls(read.decls()), is_placed, report),
        Err(stop) => put_stop(stop, report),
    }
}

/// What a token is to the grammar.
fn put_sign(names: &Names, token: &Token, report: &mut Report) {
    report.gap();
    if is_mark(names, Mark::OpenBracket, token) {
        report.word("[");
    } else if is_keyword(names, Keyword::While, token) {
        report.word("while");
    } else if is_keyword(names, Keyword::Do, token) {
        report.word("do");
    }
    report.choice(mark_of(names, token).is_some(), "(mark)", "");
    report.choice(keyword_of(names, token).is_some(), "(keyword)", "");
    if let Some(name) = name_of(names, token) {
        report.word("name ");
        report.bytes(names.text(name).unwrap_or(b"no text"));
    }
}

/// The typedef names of a block: its words from the third on.
fn scope_of(alloc: Global, block: &Block, names: &mut Names) -> Result<Scope, AllocError> {
    let mut types = Typedefs::none();
    for word in block.words.split(' ').skip(2) {
        match names.intern(alloc, word.as_bytes()) {
            Ok(name) => types.add(alloc, name)?,
            Err(_) => return Err(AllocError),
        }
    }
    Ok(Scope { types })
}

/// `expr LEFT TYPE..`, `type LEFT TYPE..` and `notes LEFT TYPE..`: what tokens begin with, where a tree may be LEFT deep and
/// there are such typedef names.
fn put_read(
    alloc: Global,
    block: &Block,
    names: &mut Names,
    (tokens, is_placed): (&[Token], bool),
    report: &mut Report,
) {
    let Ok(scope) = scope_of(alloc, block, names) else {
        report.cut();
        return;
    };
    let how = (block.number(1, 200), is_placed);
    let stage = block.word(0);
    if stage.starts_with("expr") {
        put_expr(alloc, names, &scope, tokens, how, report);
    } else if stage.starts_with("type") {
        put_type(alloc, names, &scope, tokens, how, report);
    } else {
        put_notes(alloc, names, &scope, tokens, how, report);
    }
}

/// `stop REASON BACK LEFT`: where tokens are refused for a reason, BACK tokens before the one that LEFT are left from.
fn put_stopped(block: &Block, tokens: &[Token], report: &mut Report) {
    let word = block.word(1);
    let back = block.word(2).parse::<u8>().unwrap_or(0);
    let left = block.word(3).parse::<usize>().unwrap_or(0);
    let reason = if word == "argument" {
        Reason::ArgumentBefore(back)
    } else if word == "annotation" {
        Reason::UnknownAnnotationBefore
    } else if word == "misplaced" {
        Reason::MisplacedBefore(usize::from(back))
    } else {
        Reason::TooManyParameters
    };
    put_stop(stop_at(tokens, ReadFault::Refused { reason, left }), report);
}

/// Those stages, and `stop`, `tree`, `depth` and `signs`; `expr-places` and the like write the places of nodes.
pub(crate) fn put_tree(
    alloc: Global,
    block: &Block,
    names: &mut Names,
    tokens: &[Token],
    report: &mut Report,
) {
    let stage = block.word(0);
    let is_placed = stage.ends_with("-places");
    if stage == "signs" {
        for token in tokens {
            put_sign(names, token, report);
        }
    } else if stage == "stop" {
        put_stopped(block, tokens, report);
    } else if stage.starts_with("tree") || stage == "depth" {
        put_declarations(alloc, names, tokens, (stage, is_placed), report);
    } else {
        put_read(alloc, block, names, (tokens, is_placed), report);
    }
}
