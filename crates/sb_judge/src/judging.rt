//! The report of a file: each of its functions is judged, and the elimination answers the questions.
ghost use Rattle.std.specs.Prelude.{◌≡◌, IfOk};
ghost use Rattle.sb_term.specs.AnswerOf.{answer_of};
ghost use Rattle.sb_function.specs.Trees.{tree_of, trees};
ghost use Rattle.sb_judge.specs.Walks.{answered, function_rule, report};

use crate::walks::function_report;
use sb_elim::Plain;
use sb_function::Function;
use sb_store::Warning;
use sqlite_items::Items;
use std::alloc::{AllocError, Global};

/// The warnings of a function. The only fault of the elimination is want of memory.
fn warnings_of(alloc: Global, function: &Function) -> Result<Items<Warning>, AllocError>
    ensures { IfOk result
        (λ warnings. warnings
        ≡ answered answer_of
        (function_rule function.now.params.items (tree_of function.now).body)) }
{
    match function_report(alloc, function, &mut Plain::new()) {
        Ok(warnings) => Ok(warnings),
        Err(_) => Err(AllocError),
    }
}

/// The warnings of each function, in the order of the text.
pub fn reports_of(alloc: Global, functions: &[Function]) -> Result<Vec<Items<Warning>>, AllocError>
    ensures reports { IfOk result
        (λ reports. reports.items ≡ report answer_of (trees functions.now)) }
{
    let mut reports = Vec::new(alloc);
    for function in functions {
        let warnings = warnings_of(alloc, function)?;
        reports.push(warnings)?;
    }
    Ok(reports)
}
