ghost use Rattle.std.specs.Prelude.{◌≡◌, ◌+◌, ◌-◌, ◌^◌, ◌<◌, [], ◌∷◌, length, map, reverse, IfOk};
ghost use Rattle.sb_term.specs.Pruning.{is_among as is_among_list, kept as kept_steps, new_number as number_after, renumbered as renumbered_step, all_renumbered as steps_after, pruned as pruned_steps};

use sb_term::Step;
use std::alloc::{AllocError, Global};

fn is_among(need: &[u64], number: u64) -> bool
    ensures { result ≡ is_among_list need.now number }
{
    need.iter().any(|m| *m == number)
}

/// The steps that one of the needed rows needs, the newest first, each with the number of its row.
fn kept(
    alloc: Global,
    base: u64,
    steps: &[Step],
    newest: u64,
) -> Result<Vec<(u64, Step)>, AllocError>
    requires { base + length steps.now < 2 ^ 64 }
    ensures { IfOk result (λ ks. ks.items ≡ kept_steps base (newest ∷ []) (reverse steps.now)) }
{
    let mut need = Vec::new(alloc);
    need.push(newest)?;
    let mut out = Vec::new(alloc);
    for k in (0..steps.len()).rev() {
        let step = steps[k];
        let number = base + k as u64;
        if is_among(&need, number) {
            need.push(step.i)?;
            need.push(step.j)?;
            out.push((number, step))?;
        }
    }
    Ok(out)
}

/// The number that row `number` has among the base rows and the kept steps.
fn new_number(base: u64, kept: &[(u64, Step)], number: u64) -> u64
    requires { base + length kept.now < 2 ^ 64 }
    ensures { result ≡ number_after base kept.now number }
{
    if number < base {
        number
    } else {
        base + kept.iter().filter(|k| k.0 < number).count() as u64
    }
}

fn renumbered(base: u64, kept: &[(u64, Step)], step: (u64, Step)) -> Step
    requires { base + length kept.now < 2 ^ 64 }
    ensures { result ≡ renumbered_step base kept.now step }
{
    Step {
        a: step.1.a,
        i: new_number(base, kept, step.1.i),
        b: step.1.b,
        j: new_number(base, kept, step.1.j),
    }
}

/// The kept steps, the oldest first, with the numbers that their rows have then.
fn all_renumbered(alloc: Global, base: u64, kept: &[(u64, Step)]) -> Result<Vec<Step>, AllocError>
    requires { base + length kept.now < 2 ^ 64 }
    ensures { IfOk result (λ v. v.items ≡ map (renumbered_step base kept.now) (reverse kept.now)) }
{
    kept.iter()
        .rev()
        .map(|step| renumbered(base, kept, *step))
        .collect(alloc)
}

/// The steps that the newest one needs, in the order in which they were taken, renumbered.
pub fn pruned(alloc: Global, base: u64, steps: &[Step]) -> Result<Vec<Step>, AllocError>
    requires { base + length steps.now < 2 ^ 64 }
    ensures { IfOk result (λ v. v.items ≡ pruned_steps base (reverse steps.now)) }
{
    let newest = (base + steps.len() as u64).saturating_sub(1);
    let kept = kept(alloc, base, steps, newest)?;
    all_renumbered(alloc, base, &kept)
}
