//! What a directive asks for.
ghost use Rattle.std.specs.Prelude.{◌≡◌, ℕ, List, MatchResult, true, false, not, if◌then◌else◌};
ghost use Rattle.sb_lex.specs.declared.piece.PpToken.{PpToken};
ghost use Rattle.sb_directive.specs.Asking as spec;
ghost use Rattle.sb_directive.specs.Branches.{is_read, new_branch, may_read, next_group, last_group};
ghost use Rattle.sb_directive.specs.Rules.{Table, is_macro};
ghost use Rattle.sb_directive.specs.declared.asks.Asks.{Asks};
ghost use Rattle.sb_directive.specs.declared.directive.Branch.{Branch};

use crate::branches::{Branches, last_group, may_read, new_branch, next_group, skipped_branch};
use crate::directive::{Branch, Directive};
use crate::lines::{behind_word, directive_of, is_word, place_of, spelling};
use crate::rules::Rules;
use sb_base::{Name, Names, Place};
use sb_lex::PpToken;

/// What the line of a directive asks for, where the text around it is read or skipped.
#[derive(Clone, Copy, PartialEq, Eq)]
pub enum Asks {
    Nothing,
    /// A new branch.
    Opens(Branch),
    /// The innermost branch is so from here on.
    Becomes(Branch),
    /// The innermost branch ends.
    Closes,
    /// A new branch whose first group is read where the condition of the line holds.
    OpensIf,
    /// The next group of this innermost branch is read where the condition of the line holds.
    TurnsIf(Branch),
    Defines,
    Undefines(Name),
    Includes,
    /// The file is included once in the unit.
    Once,
    /// The line is refused by this number at this place.
    Refused(u16, Place),
}

/// The word that has to stand behind `ifdef`, `ifndef` and `undef`, or the refusal of the line.
fn word_behind(at: Place, rest: &[PpToken]) -> Result<PpToken, Asks>
    ensures word { MatchResult result
        (λ word. (asks : PpToken → Asks) → spec.on_word at asks rest.now ≡ asks word)
        (λ refusal. (asks : PpToken → Asks) → spec.on_word at asks rest.now ≡ refusal) }
{
    match rest.first() {
        Some(word) if is_word(word) => Ok(*word),
        Some(other) => Err(Asks::Refused(24, other.place)),
        None => Err(Asks::Refused(24, at)),
    }
}

fn ifdef(rules: &Rules, at: Place, rest: &[PpToken]) -> Asks
    ensures asks { result ≡ spec.on_word at
        (λ t. Asks.Opens (new_branch (is_macro rules.now t.text))) rest.now }
{
    match word_behind(at, rest) {
        Ok(word) => Asks::Opens(new_branch(rules.is_defined(word.text))),
        Err(refusal) => refusal,
    }
}

fn ifndef(rules: &Rules, at: Place, rest: &[PpToken]) -> Asks
    ensures asks { result ≡ spec.on_word at
        (λ t. Asks.Opens (new_branch (not (is_macro rules.now t.text)))) rest.now }
{
    match word_behind(at, rest) {
        Ok(word) => Asks::Opens(new_branch(!rules.is_defined(word.text))),
        Err(refusal) => refusal,
    }
}

fn undef(at: Place, rest: &[PpToken]) -> Asks
    ensures asks { result ≡ spec.on_word at (λ t. Asks.Undefines t.text) rest.now }
{
    match word_behind(at, rest) {
        Ok(word) => Asks::Undefines(word.text),
        Err(refusal) => refusal,
    }
}

/// The innermost branch, whose `#else` has not come; without it `#elif` and `#else` are refused.
fn open_branch(at: Place, branches: &Branches) -> Result<Branch, Asks>
    ensures branch { MatchResult result
        (λ branch. (asks : Branch → Asks) → spec.on_branch at asks branches.now ≡ asks branch)
        (λ refusal. (asks : Branch → Asks) → spec.on_branch at asks branches.now ≡ refusal) }
{
    match branches.innermost() {
        Some(branch) if !branch.after_else => Ok(branch),
        _ => Err(Asks::Refused(25, at)),
    }
}

fn elif(at: Place, branches: &Branches) -> Asks
    ensures asks { result ≡ spec.on_branch at
        (λ b. if may_read b then Asks.TurnsIf b else Asks.Becomes (next_group b false))
        branches.now }
{
    match open_branch(at, branches) {
        Ok(branch) if may_read(branch) => Asks::TurnsIf(branch),
        Ok(branch) => Asks::Becomes(next_group(branch, false)),
        Err(refusal) => refusal,
    }
}

fn otherwise(at: Place, branches: &Branches) -> Asks
    ensures asks { result ≡ spec.on_branch at (λ b. Asks.Becomes (last_group b)) branches.now }
{
    match open_branch(at, branches) {
        Ok(branch) => Asks::Becomes(last_group(branch)),
        Err(refusal) => refusal,
    }
}

fn endif(at: Place, branches: &Branches) -> Asks
    ensures asks { result ≡ spec.on_end at branches.now }
{
    match branches.innermost() {
        Some(_) => Asks::Closes,
        None => Asks::Refused(25, at),
    }
}

fn define(at: Place, rest: &[PpToken]) -> Asks
    ensures asks { result ≡ spec.on_define at rest.now }
{
    if rest.is_empty() {
        Asks::Refused(11, at)
    } else {
        Asks::Defines
    }
}

fn include(at: Place, rest: &[PpToken]) -> Asks
    ensures asks { result ≡ spec.on_include at rest.now }
{
    if rest.is_empty() {
        Asks::Refused(24, at)
    } else {
        Asks::Includes
    }
}

fn pragma(names: &Names, rest: &[PpToken]) -> Asks
    ensures asks { result ≡ spec.on_pragma names.now.texts rest.now }
{
    match rest.first() {
        Some(word) if spelling(names, word) == b"once".as_slice() => Asks::Once,
        _ => Asks::Nothing,
    }
}

/// The same where the text around the line is read.
fn asks_read(
    names: &Names,
    rules: &Rules,
    branches: &Branches,
    at: Place,
    rest: &[PpToken],
    directive: Directive,
) -> Asks
    requires read { is_read branches.now ≡ true }
    ensures asks { result ≡ spec.asks_of names.now.texts rules.now branches.now at rest.now
        directive }
{
    match directive {
        Directive::Null => Asks::Nothing,
        Directive::If => Asks::OpensIf,
        Directive::Ifdef => ifdef(rules, at, rest),
        Directive::Ifndef => ifndef(rules, at, rest),
        Directive::Elif => elif(at, branches),
        Directive::Else => otherwise(at, branches),
        Directive::Endif => endif(at, branches),
        Directive::Include => include(at, rest),
        Directive::Define => define(at, rest),
        Directive::Undef => undef(at, rest),
        Directive::Line => Asks::Refused(15, at),
        Directive::Error => Asks::Refused(27, at),
        Directive::Pragma => pragma(names, rest),
        Directive::Unknown => Asks::Refused(24, at),
    }
}

/// The same where the text around the line is skipped: branches alone are looked at.
fn asks_skipped(branches: &Branches, at: Place, directive: Directive) -> Asks
    requires skipped { is_read branches.now ≡ false }
    ensures asks { (texts : List (List ℕ)) (table : Table) (rest : List PpToken) → result
        ≡ spec.asks_of texts table branches.now at rest directive }
{
    match directive {
        Directive::If | Directive::Ifdef | Directive::Ifndef => Asks::Opens(skipped_branch()),
        Directive::Elif => elif(at, branches),
        Directive::Else => otherwise(at, branches),
        Directive::Endif => endif(at, branches),
        _ => Asks::Nothing,
    }
}

/// What the line of a directive asks for, whose pieces begin with its `#`, in these branches.
pub fn asks_of(names: &Names, rules: &Rules, branches: &Branches, line: &[PpToken]) -> Asks
    ensures asks { result ≡ spec.asks names.now.texts rules.now branches.now line.now }
{
    let at = place_of(line);
    let directive = directive_of(names, line);
    if branches.is_read() {
        asks_read(names, rules, branches, at, behind_word(line), directive)
    } else {
        asks_skipped(branches, at, directive)
    }
}
