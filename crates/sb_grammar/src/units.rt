//! The tree of a list of tokens.
ghost use Rattle.std.specs.Prelude.{◌≡◌};
ghost use Rattle.sb_parse.specs.Read.{HasOneTree};
ghost use Rattle.sb_tree.specs.Plain.{plain_decls};
ghost use Rattle.sb_unit.specs.Reads.{IsUnitAnswer, IsUnitRead};
ghost use Rattle.sb_unit.specs.Reasons.{HasUnitReason};
ghost use Rattle.sb_unit.specs.Units.{IsUnit};

use sb_base::{Names, Stop, Token};
use sb_lexicon::stop_at;
use sb_tree::Tree;
use sb_unit::unit;
use std::alloc::Global;

/// The tree of a translation unit, which the tokens are whole.
fn tree_of(alloc: Global, names: &Names, tokens: &[Token]) -> Result<Tree, Stop>
    ensures { IsUnitRead (λ ds t. ds.list ≡ plain_decls t) names.now.texts tokens.now result }
{
    match unit(alloc, names, tokens) {
        Ok(found) => Ok(Tree::new(found.value.list)),
        Err(fault) => Err(stop_at(tokens, fault)),
    }
}

/// The tree of a translation unit (C99 6.9), at most 200 deep.
#[tactic(auto, using(sb_unit::proofs::laws::Units::unit_answer, sb_unit::proofs::telling::Units::unit_has_reason, sb_unit::proofs::laws::Units::one_unit))]
pub fn tree(alloc: Global, names: &Names, tokens: &[Token]) -> Result<Tree, Stop>
    ensures read { IsUnitRead (λ ds t. ds.list ≡ plain_decls t) names.now.texts tokens.now result }
    ensures unit { IsUnitAnswer (λ ds t. ds.list ≡ plain_decls t) names.now.texts tokens.now
        result }
    ensures reason { HasUnitReason names.now.texts tokens.now result }
    ensures one { HasOneTree (IsUnit names.now.texts) }
{
    tree_of(alloc, names, tokens)
}
