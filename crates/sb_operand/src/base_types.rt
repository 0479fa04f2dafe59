//! The type that specifiers name (C99 6.7.2, 6.7.3, 6.7.7).
ghost use Rattle.std.specs.Prelude.{◌≡◌, ◌≤◌, ◌+◌, IfOk, IfSome};
ghost use Rattle.std.specs.Option.{option_map};
ghost use Rattle.sb_operand.specs.Meaning.{ReadsBase};
ghost use Rattle.sb_lexicon.specs.Meaning.{meant, plain_said, plain_specifiers};
ghost use Rattle.sb_lexicon.specs.Parts.{completed};
ghost use Rattle.sb_operand.specs.Readers as reader;
ghost use Rattle.sb_lexicon.specs.SpecifierReaders as spec;
ghost use Rattle.sb_lexicon.specs.Tokens.{is_zero};
ghost use Rattle.sb_lexicon.specs.Words as words;
ghost use Rattle.sb_tree.specs.Plain.{plain_type};
ghost use Rattle.sb_tree.specs.Trees.{depth_of_type};

use sb_base::Token;
use sb_lexicon::{Lexicon, ReadFault, Said, Specifiers, defined, keyword_specifiers};
use sb_tree::TypeName;
use std::alloc::Global;

/// The type of specifiers, how deep it is, and the tokens after it.
#[derive(Drop)]
pub struct Based<'a> {
    pub tree: Box<TypeName>,
    pub depth: u32,
    pub rest: &'a [Token],
}

/// The type that specifiers name without `const`.
fn type_said(said: Said) -> Option<TypeName>
    ensures named { option_map plain_type result ≡ words.type_said (plain_said said) }
    ensures flat { IfSome result (λ t. depth_of_type (plain_type t) ≡ 1) }
{
    match said {
        Said::Nothing => None,
        Said::Words(words, place) => Some(TypeName::base(words.number(), place)),
        Said::Struct(tag, place) => Some(TypeName::structure(Some(tag), None, place)),
        Said::Enum(tag, place) => Some(TypeName::enumeration(Some(tag), None, place)),
        Said::Defined(name, place) => Some(TypeName::named(name, place)),
    }
}

/// The type that specifiers name, which has to be there.
fn completed<'a>(
    alloc: Global,
    specifiers: Specifiers,
    rest: &'a [Token],
) -> Result<Based<'a>, ReadFault>
    ensures read { ReadsBase (completed (words.type_specified (plain_specifiers specifiers))
        rest.now) result }
    ensures depth { IfOk result (λ b. b.depth ≡ 1 + reader.one_if specifiers.constant) }
{
    let Some(tree) = type_said(specifiers.said) else {
        return Err(ReadFault::unexpected(rest));
    };
    let tree = Box::new(alloc, tree)?;
    if !specifiers.constant {
        return Ok(Based {
            tree,
            depth: 1,
            rest,
        });
    }
    Ok(Based {
        tree: Box::new(alloc, TypeName::constant(tree))?,
        depth: 2,
        rest,
    })
}

/// The type of the specifiers with which tokens begin. `below`: how deep a type may be inside another.
#[tactic(auto, unfolding(sb_lexicon::specs::SpecifierReaders::base_type, sb_lexicon::specs::SpecifierReaders::keyword_specifiers))]
pub fn base_type<'a>(
    alloc: Global,
    lexicon: &Lexicon,
    below: u32,
    tokens: &'a [Token],
) -> Result<Based<'a>, ReadFault>
    ensures read { ReadsBase (spec.base_type (meant lexicon.now) (is_zero below) tokens.now)
        result }
    ensures depth { IfOk result (λ b. b.depth ≤ below + 1) }
{
    let none = Specifiers {
        said: Said::Nothing,
        constant: false,
    };
    let words = keyword_specifiers(lexicon, none, below, tokens)?;
    let all = defined(lexicon, words.value, below, words.rest)?;
    completed(alloc, all.value, all.rest)
}
