//! The rule of a condition `LEFT OP RIGHT`: the pictures in which it is true, and those in which it is false.
ghost use Rattle.std.specs.Prelude.{◌≡◌, ◌<◌, ◌^◌, unsigned_abs, Some, None, [], ◌∷◌, IfOk, OnOk};
ghost use Rattle.sb_term.specs.Linear.{formed};
ghost use Rattle.sb_picture.specs.Pictures.{minus};
ghost use Rattle.sb_term.specs.Asks.{run, EndsAs};
ghost use Rattle.sb_judge.specs.Splits.{ways, in_ways, split_by, split, split_all, sides};
ghost use Rattle.sb_picture.specs.Ends.{EndsWith};

use sb_function::{Comparison, Simple};
use sb_picture::terms::difference;
use sb_picture::{Copied, Picture, assume, number_at};
use sb_term::{Decide, DecideFault, Term};
use sqlite_items::Items;
use std::alloc::{AllocError, Global};

/// The pictures in which a condition is true, and those in which it is false.
#[derive(Drop)]
pub struct Sides {
    pub trues: Items<Picture>,
    pub falses: Items<Picture>,
}

fn one<T: Drop>(alloc: Global, item: T) -> Result<Items<T>, AllocError>
    ensures { IfOk result (λ items. items ≡ item ∷ []) }
{
    let mut items = Items::new(alloc);
    items.push(item)?;
    Ok(items)
}

fn two<T: Drop>(alloc: Global, first: T, second: T) -> Result<Items<T>, AllocError>
    ensures { IfOk result (λ items. items ≡ first ∷ second ∷ []) }
{
    let mut items = one(alloc, first)?;
    items.push(second)?;
    Ok(items)
}

/// The ways in which a comparison is true, each as conditions on terms that are then at least 0.
fn ways(
    alloc: Global,
    op: Comparison,
    left: &Term,
    right: &Term,
) -> Result<Items<Items<Option<Term>>>, AllocError>
    ensures { IfOk result (λ w. w ≡ ways op left.now right.now) }
{
    match op {
        Comparison::Less => way(alloc, right, left, -1),
        Comparison::AtMost => way(alloc, right, left, 0),
        Comparison::Greater => way(alloc, left, right, -1),
        Comparison::AtLeast => way(alloc, left, right, 0),
        Comparison::Equal => way_of_two(alloc, left, right),
        Comparison::NotEqual => two_ways(alloc, left, right),
    }
}

fn way(
    alloc: Global,
    first: &Term,
    second: &Term,
    more: i128,
) -> Result<Items<Items<Option<Term>>>, AllocError>
    requires { unsigned_abs more < 2 ^ 80 }
    ensures { IfOk result (λ w. w ≡ (formed (minus first.now second.now more) ∷ []) ∷ []) }
{
    let condition = difference(alloc, first, second, more)?;
    let way = one(alloc, condition)?;
    one(alloc, way)
}

fn way_of_two(
    alloc: Global,
    left: &Term,
    right: &Term,
) -> Result<Items<Items<Option<Term>>>, AllocError>
    ensures { IfOk result (λ w. w ≡ ways Comparison.Equal left.now right.now) }
{
    let above = difference(alloc, left, right, 0)?;
    let below = difference(alloc, right, left, 0)?;
    let way = two(alloc, above, below)?;
    one(alloc, way)
}

fn two_ways(
    alloc: Global,
    left: &Term,
    right: &Term,
) -> Result<Items<Items<Option<Term>>>, AllocError>
    ensures { IfOk result (λ w. w ≡ ways Comparison.NotEqual left.now right.now) }
{
    let above = difference(alloc, left, right, -1)?;
    let below = difference(alloc, right, left, -1)?;
    let first = one(alloc, above)?;
    let second = one(alloc, below)?;
    two(alloc, first, second)
}

#[tactic(auto, using(sb_term::specs::AskLaws::runs))]
fn in_ways<V: Decide>(
    alloc: Global,
    ways: &[Items<Option<Term>>],
    picture: &Picture,
    judge: &mut V,
) -> Result<Items<Picture>, DecideFault>
    requires { V.stop judge.old ≡ None }
    ensures rule { EndsAs result judge.new
        (run V.stop V.gives V.after (in_ways ways.now picture.now) judge.old) }
    ensures stop { OnOk result (V.stop judge.new ≡ None) }
{
    let mut pictures = Items::new(alloc);
    for way in ways {
        let from = picture.copied(alloc)?;
        let more = assume(alloc, way.as_slice(), from, judge)?;
        pictures.append(more)?;
    }
    Ok(pictures)
}

/// Both sides where nothing is known of the condition.
fn unknown(alloc: Global, picture: &Picture) -> Result<Sides, AllocError>
    ensures { IfOk result
        (λ s. sides s.trues s.falses ≡ sides (picture.now ∷ []) (picture.now ∷ [])) }
{
    let true_one = picture.copied(alloc)?;
    let false_one = picture.copied(alloc)?;
    let trues = one(alloc, true_one)?;
    let falses = one(alloc, false_one)?;
    Ok(Sides { trues, falses })
}

/// The pictures in which a comparison is true.
fn where_true<V: Decide>(
    alloc: Global,
    op: Comparison,
    left: &Term,
    right: &Term,
    picture: &Picture,
    judge: &mut V,
) -> Result<Items<Picture>, DecideFault>
    requires { V.stop judge.old ≡ None }
    ensures rule { EndsAs result judge.new
        (run V.stop V.gives V.after (in_ways (ways op left.now right.now) picture.now) judge.old) }
    ensures stop { OnOk result (V.stop judge.new ≡ None) }
{
    let ways = ways(alloc, op, left, right)?;
    in_ways(alloc, ways.as_slice(), picture, judge)
}

fn split_known<V: Decide>(
    alloc: Global,
    op: Comparison,
    left: &Term,
    right: &Term,
    picture: &Picture,
    judge: &mut V,
) -> Result<Sides, DecideFault>
    requires { V.stop judge.old ≡ None }
    ensures rule { EndsWith result (λ s. sides s.trues s.falses) judge.new
        (run V.stop V.gives V.after (split_by op (Some left.now) (Some right.now) picture.now)
        judge.old) }
    ensures stop { OnOk result (V.stop judge.new ≡ None) }
{
    let trues = where_true(alloc, op, left, right, picture, judge)?;
    let falses = where_true(alloc, op.opposite(), left, right, picture, judge)?;
    Ok(Sides { trues, falses })
}

/// The sides of a comparison of two numbers in a picture.
fn split_by<V: Decide>(
    alloc: Global,
    op: Comparison,
    left: &Option<Term>,
    right: &Option<Term>,
    picture: &Picture,
    judge: &mut V,
) -> Result<Sides, DecideFault>
    requires { V.stop judge.old ≡ None }
    ensures rule { EndsWith result (λ s. sides s.trues s.falses) judge.new
        (run V.stop V.gives V.after (split_by op left.now right.now picture.now) judge.old) }
    ensures stop { OnOk result (V.stop judge.new ≡ None) }
{
    match (left, right) {
        (Some(left), Some(right)) => split_known(alloc, op, left, right, picture, judge),
        (None, _) | (Some(_), None) => {
            let sides = unknown(alloc, picture)?;
            Ok(sides)
        }
    }
}

/// The sides of a condition in a picture.
fn split<V: Decide>(
    alloc: Global,
    left: Simple,
    op: Comparison,
    right: Simple,
    picture: &Picture,
    judge: &mut V,
) -> Result<Sides, DecideFault>
    requires { V.stop judge.old ≡ None }
    ensures rule { EndsWith result (λ s. sides s.trues s.falses) judge.new
        (run V.stop V.gives V.after (split left op right picture.now) judge.old) }
    ensures stop { OnOk result (V.stop judge.new ≡ None) }
{
    let first = number_at(alloc, picture.values.as_slice(), left)?;
    let second = number_at(alloc, picture.values.as_slice(), right)?;
    split_by(alloc, op, &first, &second, picture, judge)
}

/// The sides of a condition in all pictures.
#[tactic(auto, using(sb_term::specs::AskLaws::runs))]
pub fn split_all<V: Decide>(
    alloc: Global,
    left: Simple,
    op: Comparison,
    right: Simple,
    pictures: &[Picture],
    judge: &mut V,
) -> Result<Sides, DecideFault>
    requires { V.stop judge.old ≡ None }
    ensures rule { EndsWith result (λ s. sides s.trues s.falses) judge.new
        (run V.stop V.gives V.after (split_all left op right pictures.now (sides [] []))
        judge.old) }
    ensures stop { OnOk result (V.stop judge.new ≡ None) }
{
    let mut trues = Items::new(alloc);
    let mut falses = Items::new(alloc);
    for picture in pictures {
        let sides = split(alloc, left, op, right, picture, judge)?;
        trues.append(sides.trues)?;
        falses.append(sides.falses)?;
    }
    Ok(Sides { trues, falses })
}
