ghost use Rattle.std.specs.Prelude.{◌≡◌, ◌+◌, ◌*◌, ◌<◌, ◌≤◌, length, All, IfOk, OnOk};
ghost use Rattle.sat_cnf.specs.Clauses.{IsWithin};
ghost use Rattle.sat_proof.specs.Refutations.{AreWithin};

use sat_cnf::{Clauses, Lit, Memory};
use sat_proof::Step;
use std::alloc::Global;
use vkb_bytes::Listed;

/// x0, that each of so many variables implies the next, and the negation of the last.
pub(crate) fn chain(alloc: Global, count: u32) -> Result<Clauses, Memory>
    requires { count ≤ 4000000 }
    ensures { IfOk result (λ clauses. (clauses.vars ≡ count + 1) × (length clauses.list ≡ count + 2)) }
{
    let mut clauses = Clauses::new(alloc, count + 1);
    clauses.push(&[Lit(0)])?;
    for variable in 0..count {
        clauses.push(&[Lit(2 * variable + 1), Lit(2 * variable + 2)])?;
    }
    clauses.push(&[Lit(2 * count + 1)])?;
    Ok(clauses)
}

/// A step for each variable behind the first, from the one before, and the empty clause from the last.
pub(crate) fn steps_along(alloc: Global, count: u32) -> Result<Vec<Step>, Memory>
    requires { count ≤ 4000000 }
    ensures { IfOk result (λ steps. AreWithin (count + 1) steps.items × (length steps.items ≡ count + 1)) }
{
    let mut steps = Vec::new(alloc);
    let mut last = 0;
    for variable in 0..count {
        let hints = [last, u64::from(variable) + 1];
        put_step(alloc, &mut steps, count, &[Lit(2 * variable + 2)], &hints)?;
        last = u64::from(count) + 2 + u64::from(variable);
    }
    put_step(alloc, &mut steps, count, &[], &[last, u64::from(count) + 1])?;
    Ok(steps)
}

/// Puts a step last.
fn put_step(
    alloc: Global,
    steps: &mut Vec<Step>,
    count: u32,
    clause: &[Lit],
    hints: &[u64],
) -> Result<(), Memory>
    requires clause { All (IsWithin (count + 1)) clause.now }
    requires steps { AreWithin (count + 1) steps.old.items }
    ensures steps { OnOk result (AreWithin (count + 1) steps.new.items) }
    ensures count { OnOk result (length steps.new.items ≡ length steps.old.items + 1) }
{
    let clause = Listed::from_vec(Vec::from_slice(alloc, clause)?);
    let hints = Listed::from_vec(Vec::from_slice(alloc, hints)?);
    steps.push(Step { clause, hints })?;
    Ok(())
}
