//! The arguments of annotations that are no annotations themselves, and what stands between arguments.
ghost use Rattle.std.specs.Prelude.{◌≡◌, ◌≤◌, ◌<◌, IfOk};
ghost use Rattle.sb_lexicon.specs.Meaning.{meant, Gives};
ghost use Rattle.sb_sal.specs.Meaning.{ReadsArgument};
ghost use Rattle.sb_sal.specs.Parts as part;
ghost use Rattle.sb_sal.specs.Readers as spec;

use crate::lexemes::{inside, is_mem_next, is_other_next, is_value_missing, take_mem};
use crate::locations::ended_word;
use crate::trees::{Argument, expr_argument, location_argument};
use sb_base::Token;
use sb_expr::{Level, within};
use sb_lexicon::{Lexicon, Read, ReadFault, Reason, is_mark_next, take_mark};
use sb_sign::Mark;
use std::alloc::Global;

/// A size or a condition.
#[tactic(auto, unfolding(crate::specs::Readers::value))]
pub(crate) fn value<'a>(
    alloc: Global,
    lexicon: &Lexicon,
    below: u32,
    tokens: &'a [Token],
) -> Result<Argument<'a>, ReadFault>
    requires shallow { below < 200 }
    ensures read { ReadsArgument (spec.value (meant lexicon.now) below tokens.now) result }
    ensures depth { IfOk result (λ a. a.depth ≤ below) }
{
    if is_value_missing(lexicon, tokens) {
        return Err(ReadFault::at(Reason::Arguments, tokens));
    }
    let found = within(alloc, &inside(lexicon), Level::Assignment, below, tokens)?;
    Ok(expr_argument(found))
}

/// The word `Mem`.
pub(crate) fn memory<'a>(lexicon: &Lexicon, tokens: &'a [Token]) -> Result<Argument<'a>, ReadFault>
    ensures read { ReadsArgument (part.memory (meant lexicon.now) tokens.now) result }
    ensures depth { IfOk result (λ a. a.depth ≡ 1) }
{
    if is_mem_next(lexicon, tokens) {
        let word = take_mem(lexicon, tokens)?;
        let found = ended_word(lexicon, word)?;
        return Ok(location_argument(found));
    }
    if is_other_next(lexicon, tokens) {
        return Err(ReadFault::at(Reason::Arguments, tokens));
    }
    Err(ReadFault::unexpected(tokens))
}

/// The comma between two arguments.
pub(crate) fn separator<'a>(
    lexicon: &Lexicon,
    tokens: &'a [Token],
) -> Result<Read<'a, Token>, ReadFault>
    ensures { Gives (part.separator (meant lexicon.now) tokens.now) result }
{
    if is_mark_next(lexicon, Mark::CloseParenthesis, tokens) {
        return Err(ReadFault::at(Reason::Arguments, tokens));
    }
    take_mark(lexicon, Mark::Comma, tokens)
}

/// The parenthesis behind the last argument.
pub(crate) fn closing<'a>(
    lexicon: &Lexicon,
    tokens: &'a [Token],
) -> Result<Read<'a, Token>, ReadFault>
    ensures { Gives (part.closing (meant lexicon.now) tokens.now) result }
{
    if is_mark_next(lexicon, Mark::Comma, tokens) {
        return Err(ReadFault::at(Reason::Arguments, tokens));
    }
    take_mark(lexicon, Mark::CloseParenthesis, tokens)
}
