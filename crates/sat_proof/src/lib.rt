//! A judge of refutations: lists of steps that show, whoever wrote them, that no set of variables satisfies some clauses.
//!
//! A step is a clause with hints, the numbers of the clauses from which it follows by unit propagation. Hints count the
//! clauses first and then the steps, from 0:
//!
//! ```text
//! clauses   0 (x0 or x1)   1 (x0 or not x1)   2 (not x0)
//! steps     3 (x0), hints 0 1
//!           4 (), hints 3 2
//! ```
//!
//! To judge step 3, x0 is taken to be false. Then clause 0 makes x1 true, and clause 1 has only false literals: so x0 holds
//! wherever the clauses do. Step 4 is the empty clause, and no set of variables makes that true.
//!
//! ```text
//! check(alloc, &clauses, &steps)?      // true
//! ```
#![tactic(auto)]

ghost use Rattle.std.specs.Prelude.{◌≡◌, ℕ, ◌+◌, ◌<◌, ◌≤◌, ◌^◌, ◌↔◌, Bool, true, List, length, All, IsTrue, IfOk};
ghost use Rattle.sat_cnf.specs.declared.lit.Lit.{Lit};
ghost use Rattle.sat_cnf.specs.Models.{HasNoModel, Satisfies, clause_value, lit_value};
ghost use Rattle.sat_proof.specs.Propagation.{IsUnit};
ghost use Rattle.sat_proof.specs.Refutations.{AreGood, AreWithin, IsRefutation};
ghost use Rattle.sat_proof.specs.Trimming.{IsTrimmed};
ghost use Rattle.sat_proof.specs.declared.step.Step.{Step};

mod checker;
mod judge;
mod step;
mod trail;
mod trimming;

pub use checker::Checker;
use sat_cnf::{Clauses, Memory};
use std::alloc::Global;
pub use step::Step;

#[cfg(test)]
mod tests;

/// Whether steps refute clauses: each step is good, and the clause of the last is empty. Then no set of variables
/// satisfies the clauses.
///
/// It takes time in proportion to the number of variables, the literals of the steps and those of the clauses that they hint at.
pub fn check(alloc: Global, clauses: &Clauses, steps: &[Step]) -> Result<bool, Memory>
    requires within { AreWithin clauses.now.vars steps.now }
    requires few { length clauses.now.list + length steps.now < 2 ^ 63 }
    ensures exact { IfOk result (λ yes. IsTrue yes ↔ IsRefutation clauses.now.list steps.now) }
    ensures sound { IfOk result (λ yes. IsTrue yes → HasNoModel clauses.now.list) }
{
    match steps.last() {
        Some(last) if last.clause.as_slice().is_empty() => all_good(alloc, clauses, steps),
        _ => Ok(false),
    }
}

/// Whether each step is good.
fn all_good(alloc: Global, clauses: &Clauses, steps: &[Step]) -> Result<bool, Memory>
    requires within { AreWithin clauses.now.vars steps.now }
    requires few { length clauses.now.list + length steps.now < 2 ^ 63 }
    ensures { IfOk result (λ yes. IsTrue yes ↔ AreGood clauses.now.list steps.now) }
{
    let mut checker = Checker::new(alloc, clauses, steps)?;
    for step in 0..steps.len() as u64 {
        if !checker.accepts(step) {
            return Ok(false);
        }
    }
    Ok(true)
}

/// Those steps of a refutation to which a chain of hints leads from the last step, in order, with their hints renumbered.
/// They refute the clauses too.
///
/// It takes time and memory in proportion to the literals and hints of the steps.
pub fn trim(alloc: Global, clauses: &Clauses, steps: &[Step]) -> Result<Vec<Step>, Memory>
    requires refutation { IsRefutation clauses.now.list steps.now }
    requires few { length clauses.now.list + length steps.now < 2 ^ 63 }
    ensures trimmed { IfOk result (λ kept. IsTrimmed (length clauses.now.list) steps.now kept.items) }
    ensures refutes { IfOk result (λ kept. IsRefutation clauses.now.list kept.items) }
    ensures within { (vars : ℕ) → AreWithin vars steps.now → IfOk result (λ kept. AreWithin vars kept.items) }
    ensures fewer { IfOk result (λ kept. length kept.items ≤ length steps.now) }
{
    let stays = trimming::reached(alloc, clauses.len(), steps)?;
    let kept = trimming::kept(alloc, clauses.len(), steps, stays.as_slice())?;
    Ok(kept)
}

/// A law: where steps refute clauses, no set of variables satisfies all of them.
pub fn a_refutation_leaves_no_model()
    ensures { (clauses : List (List Lit)) (steps : List Step) → IsRefutation clauses steps → HasNoModel clauses }
{}

/// A law: a set of variables that satisfies clauses makes true what follows from them by unit propagation: the unit of a
/// clause where all literals known so far are true, and the clause of each good step.
pub fn what_follows_is_true()
    ensures units { (set : List Bool) (known clause : List Lit) (lit : Lit) → All (λ l. lit_value set l ≡ true) known → IsUnit known clause lit
        → clause_value set clause ≡ true → lit_value set lit ≡ true }
    ensures steps { (set : List Bool) (clauses : List (List Lit)) (steps : List Step) → AreGood clauses steps → Satisfies set clauses
        → All (λ step. clause_value set step.clause ≡ true) steps }
{}
