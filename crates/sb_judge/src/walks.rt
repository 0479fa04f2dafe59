//! The rules of statements, and the whole rule of a function.
ghost use Rattle.std.specs.Prelude.{◌≡◌, None, [], ◌++◌, map, IfOk, OnOk};
ghost use Rattle.sb_picture.specs.Tidying.{tidied};
ghost use Rattle.sb_term.specs.Asks.{run, EndsAs};
ghost use Rattle.sb_function.specs.Syntax.{Choose};
ghost use Rattle.sb_judge.specs.Splits.{split_all};
ghost use Rattle.sb_judge.specs.Walks.{store_all, walk, walked, function_rule};
ghost use Rattle.sb_function.specs.Statements.{in_order};
ghost use Rattle.sb_function.specs.Trees.{plain, plains, tree_of};
ghost use Rattle.sb_picture.specs.Ends.{EndsWith};

use crate::entry::enter;
use crate::splits::{Sides, split_all};
use sb_base::Place;
use sb_function::{Comparison, Function, Simple, Statement};
use sb_picture::{Copied, Picture, all_tidied};
use sb_store::{Report, Warning, store};
use sb_term::{Decide, DecideFault};
use sqlite_items::Items;
use std::alloc::{AllocError, Global};

/// A store in each picture in turn.
#[tactic(auto, using(sb_term::specs::AskLaws::runs))]
fn store_all<V: Decide>(
    alloc: Global,
    array: u32,
    index: Simple,
    value: Simple,
    place: Place,
    pictures: &[Picture],
    judge: &mut V,
    report: &mut Report,
) -> Result<Items<Picture>, DecideFault>
    requires { V.stop judge.old ≡ None }
    ensures rule { EndsWith result (walked report.new) judge.new
        (run V.stop V.gives V.after
        (store_all array index value place pictures.now (walked report.old [])) judge.old) }
    ensures stop { OnOk result (V.stop judge.new ≡ None) }
{
    let mut after = Items::new(alloc);
    for picture in pictures {
        let from = picture.copied(alloc)?;
        let next = store(alloc, array, index, value, place, from, judge, report)?;
        after.push(next)?;
    }
    Ok(after)
}

/// A statement in all pictures.
#[cycle(walk)]
#[tactic(auto, unfolding(sb_function::specs::Trees::plain))]
fn walk<V: Decide>(
    alloc: Global,
    statement: &Statement,
    pictures: Items<Picture>,
    judge: &mut V,
    report: &mut Report,
) -> Result<Items<Picture>, DecideFault>
    requires { V.stop judge.old ≡ None }
    ensures rule { EndsWith result (walked report.new) judge.new
        (run V.stop V.gives V.after (walk (plain statement.now) pictures report.old)
        judge.old) }
    ensures stop { OnOk result (V.stop judge.new ≡ None) }
{
    match statement {
        Statement::Block(list) => walk_list(alloc, list.as_slice(), pictures, judge, report),
        Statement::Store {
            array,
            index,
            value,
            place,
        } => {
            store_all(
                alloc,
                *array,
                *index,
                *value,
                *place,
                pictures.as_slice(),
                judge,
                report,
            )
        }
        Statement::If {
            left,
            op,
            right,
            then,
        } => {
            walk_if(
                alloc,
                *left,
                *op,
                *right,
                then,
                pictures.as_slice(),
                judge,
                report,
            )
        }
    }
}

/// Pictures, tidied, and then others.
fn tidied_before(
    alloc: Global,
    pictures: &[Picture],
    others: Items<Picture>,
) -> Result<Items<Picture>, AllocError>
    ensures { IfOk result (λ all. all ≡ map tidied pictures.now ++ others) }
{
    let mut all = all_tidied(alloc, pictures)?;
    all.append(others)?;
    Ok(all)
}

/// A condition splits all pictures; the statement under it is walked in those where it is true, and then the others follow.
#[cycle(walk)]
#[tactic(auto, using(sb_term::specs::AskLaws::runs))]
fn walk_if<V: Decide>(
    alloc: Global,
    left: Simple,
    op: Comparison,
    right: Simple,
    then: &Statement,
    pictures: &[Picture],
    judge: &mut V,
    report: &mut Report,
) -> Result<Items<Picture>, DecideFault>
    requires { V.stop judge.old ≡ None }
    ensures rule { EndsWith result (walked report.new) judge.new
        (run V.stop V.gives V.after
        (walk (Choose left op right (plain then.now)) pictures.now report.old) judge.old) }
    ensures stop { OnOk result (V.stop judge.new ≡ None) }
{
    let sides = split_all(alloc, left, op, right, pictures, judge)?;
    let Sides { trues, falses } = sides;
    let inner = walk(alloc, then, trues, judge, report)?;
    let after = tidied_before(alloc, inner.as_slice(), falses)?;
    Ok(after)
}

/// Statements in all pictures; after each, each picture is tidied.
#[cycle(walk)]
#[tactic(auto, using(sb_term::specs::AskLaws::runs))]
fn walk_list<V: Decide>(
    alloc: Global,
    statements: &[Statement],
    pictures: Items<Picture>,
    judge: &mut V,
    report: &mut Report,
) -> Result<Items<Picture>, DecideFault>
    requires { V.stop judge.old ≡ None }
    ensures rule { EndsWith result (walked report.new) judge.new
        (run V.stop V.gives V.after
        (walk (in_order (plains statements.now)) pictures report.old) judge.old) }
    ensures stop { OnOk result (V.stop judge.new ≡ None) }
{
    let mut current = pictures;
    for statement in statements {
        let after = walk(alloc, statement, current, judge, report)?;
        current = all_tidied(alloc, after.as_slice())?;
    }
    Ok(current)
}

/// The warnings of a function, in their order. A fault is want of memory or the decider's own.
#[tactic(auto, using(sb_term::specs::AskLaws::runs))]
pub fn function_report<V: Decide>(
    alloc: Global,
    function: &Function,
    judge: &mut V,
) -> Result<Items<Warning>, DecideFault>
    requires { V.stop judge.old ≡ None }
    ensures rule { EndsAs result judge.new
        (run V.stop V.gives V.after
        (function_rule function.now.params.items (tree_of function.now).body) judge.old) }
    ensures stop { OnOk result (V.stop judge.new ≡ None) }
{
    let pictures = enter(alloc, function.params.as_slice(), judge)?;
    let mut report = Report::new(alloc);
    let _after = walk_list(
        alloc,
        function.body.as_slice(),
        pictures,
        judge,
        &mut report,
    )?;
    Ok(Items::from_vec(report.into_list(alloc)?))
}
