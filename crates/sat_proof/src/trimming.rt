ghost use Rattle.std.specs.Prelude.{◌≡◌, ℕ, ◌+◌, ◌<◌, ◌^◌, ◌↔◌, ◌⊎◌, true, false, length, map, slice_index_or, All, Contains, IfOk};
ghost use Rattle.sat_proof.specs.Trimming.{AreEarlier, IsReached, looked_up, renumbered, staying};

use crate::step::Step;
use sat_cnf::Memory;
use std::alloc::Global;
use vkb_bytes::Listed;

/// For each step, whether a chain of hints leads to it from the last.
pub(crate) fn reached(alloc: Global, count: u64, steps: &[Step]) -> Result<Vec<bool>, Memory>
    requires few { count + length steps.now < 2 ^ 63 }
    requires some { 0 < length steps.now }
    requires earlier { AreEarlier count steps.now }
    ensures each { IfOk result (λ stays. length stays.items ≡ length steps.now) }
    ensures reached { IfOk result (λ stays. (place : ℕ)
        → (slice_index_or stays.items place false ≡ true) ↔ IsReached count steps.now place) }
{
    let mut stays = vec![in alloc; false; steps.len()]?;
    stays[steps.len() - 1] = true;
    let mut place = steps.len();
    while place > 0 {
        place -= 1;
        if stays[place] {
            mark(&mut stays, count, steps[place].hints.as_slice());
        }
    }
    Ok(stays)
}

/// Marks each step that is hinted at.
fn mark(stays: &mut Vec<bool>, count: u64, hints: &[u64])
    requires few { count + length stays.old.items < 2 ^ 63 }
    requires known { All (λ hint. hint < count + length stays.old.items) hints.now }
    ensures each { length stays.new.items ≡ length stays.old.items }
    ensures marks { (place : ℕ) → (slice_index_or stays.new.items place false ≡ true)
        ↔ ((slice_index_or stays.old.items place false ≡ true) ⊎ Contains hints.now (count + place)) }
{
    for hint in hints {
        if *hint >= count {
            stays[(*hint - count) as usize] = true;
        }
    }
}

/// Copies of the steps that stay, with their hints renumbered.
pub(crate) fn kept(
    alloc: Global,
    count: u64,
    steps: &[Step],
    stays: &[bool],
) -> Result<Vec<Step>, Memory>
    requires few { count + length steps.now < 2 ^ 63 }
    requires each { length stays.now ≡ length steps.now }
    requires earlier { AreEarlier count steps.now }
    ensures { IfOk result (λ kept. kept.items ≡ map (renumbered count stays.now) (staying stays.now steps.now)) }
{
    let mut kept = Vec::new(alloc);
    let mut numbers = Vec::with_capacity(alloc, steps.len())?;
    for place in 0..steps.len() {
        numbers.push(count + kept.len() as u64)?;
        if stays[place] {
            let step = renumber(alloc, count, numbers.as_slice(), &steps[place])?;
            kept.push(step)?;
        }
    }
    Ok(kept)
}

/// A copy of a step, with its hints by the new numbers of the steps.
fn renumber(alloc: Global, count: u64, numbers: &[u64], step: &Step) -> Result<Step, Memory>
    requires { All (λ hint. hint < count + length numbers.now) step.now.hints }
    ensures { IfOk result (λ new. new
        ≡ record { clause = step.now.clause; hints = map (looked_up count numbers.now) step.now.hints }) }
{
    let old = step.hints.as_slice();
    let mut hints = Vec::with_capacity(alloc, old.len())?;
    for hint in old {
        hints.push(look_up(count, numbers, *hint))?;
    }
    let clause = Vec::from_slice(alloc, step.clause.as_slice())?;
    Ok(Step {
        clause: Listed::from_vec(clause),
        hints: Listed::from_vec(hints),
    })
}

/// The new number of a hint.
fn look_up(count: u64, numbers: &[u64], hint: u64) -> u64
    requires { hint < count + length numbers.now }
    ensures { result ≡ looked_up count numbers.now hint }
{
    if hint < count {
        hint
    } else {
        numbers[(hint - count) as usize]
    }
}
