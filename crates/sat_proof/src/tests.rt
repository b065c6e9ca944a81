ghost use Rattle.std.specs.Prelude.{◌≡◌, ◌+◌, ◌<◌, ◌≤◌, length, All, IfOk, vec_len};
ghost use Rattle.sat_cnf.specs.Clauses.{IsWithin};
ghost use Rattle.sat_proof.specs.Refutations.{AreWithin};

use super::*;
use sat_cnf::Lit;
use std::test::Fail;
use vkb_bytes::Listed;

/// The number of variables in each test.
const VARS: u32 = 200_000;

/// Literals by their numbers.
fn lits(alloc: Global, numbers: &[u32]) -> Result<Vec<Lit>, Memory>
    ensures { IfOk result (λ lits. All (IsWithin VARS) lits.items) }
{
    let mut lits = Vec::new(alloc);
    for number in numbers {
        lits.push(Lit(*number % (2 * VARS)))?;
    }
    Ok(lits)
}

/// Puts a step last.
fn put_step(
    alloc: Global,
    steps: &mut Vec<Step>,
    clause: &[u32],
    hints: &[u64],
) -> Result<(), Memory>
    requires { AreWithin VARS steps.old.items }
    ensures { AreWithin VARS steps.new.items }
{
    let clause = Listed::from_vec(lits(alloc, clause)?);
    let hints = Listed::from_vec(Vec::from_slice(alloc, hints)?);
    steps.push(Step { clause, hints })?;
    Ok(())
}

/// Steps by the numbers of their literals, with their hints.
fn steps_of(alloc: Global, table: &[(&[u32], &[u64])]) -> Result<Vec<Step>, Memory>
    ensures { IfOk result (λ steps. AreWithin VARS steps.items) }
{
    let mut steps = Vec::new(alloc);
    for (clause, hints) in table {
        put_step(alloc, &mut steps, clause, hints)?;
    }
    Ok(steps)
}

/// Puts a clause last.
fn put_clause(alloc: Global, clauses: &mut Clauses, clause: &[u32]) -> Result<(), Memory>
    requires { clauses.old.vars ≡ VARS }
    ensures { clauses.new.vars ≡ VARS }
{
    clauses.push(lits(alloc, clause)?.as_slice())
}

/// Clauses by the numbers of their literals.
fn clauses_of(alloc: Global, table: &[&[u32]]) -> Result<Clauses, Memory>
    ensures { IfOk result (λ clauses. clauses.vars ≡ VARS) }
{
    let mut clauses = Clauses::new(alloc, VARS);
    for clause in table {
        put_clause(alloc, &mut clauses, clause)?;
    }
    Ok(clauses)
}

/// What `check` says of at most a million clauses and as many steps.
fn checked(alloc: Global, clauses: &Clauses, steps: &[Step]) -> Result<bool, Memory>
    requires vars { clauses.now.vars ≡ VARS }
    requires within { AreWithin VARS steps.now }
{
    if clauses.len() > 1_000_000 || steps.len() > 1_000_000 {
        return Err(Memory);
    }
    check(alloc, clauses, steps)
}

/// Whether the last of some steps is accepted.
fn accepted(alloc: Global, clauses: &[&[u32]], steps: &[(&[u32], &[u64])]) -> Result<bool, Memory> {
    let clauses = clauses_of(alloc, clauses)?;
    let steps = steps_of(alloc, steps)?;
    if clauses.len() > 1_000_000 || steps.len() > 1_000_000 || steps.len() == 0 {
        return Err(Memory);
    }
    let mut checker = Checker::new(alloc, &clauses, steps.as_slice())?;
    let last = steps.len() as u64 - 1;
    Ok(checker.accepts(last))
}

/// What is trimmed of a refutation of at most a million steps.
fn trimmed(alloc: Global, clauses: &Clauses, steps: &[Step]) -> Result<Vec<Step>, Memory>
    requires vars { clauses.now.vars ≡ VARS }
    requires within { AreWithin VARS steps.now }
    ensures { IfOk result (λ kept. AreWithin VARS kept.items) }
{
    if clauses.len() > 1_000_000 || steps.len() > 1_000_000 {
        return Err(Memory);
    }
    if !check(alloc, clauses, steps)? {
        return Err(Memory);
    }
    trim(alloc, clauses, steps)
}

/// x0, that each of so many variables implies the next, and the negation of the last.
fn chain(alloc: Global, count: u32) -> Result<Clauses, Memory>
    requires { count < 200_000 }
    ensures { IfOk result (λ clauses. clauses.vars ≡ VARS) }
{
    let mut clauses = Clauses::new(alloc, VARS);
    put_clause(alloc, &mut clauses, &[0])?;
    for variable in 0..count {
        put_clause(alloc, &mut clauses, &[2 * variable + 1, 2 * variable + 2])?;
    }
    put_clause(alloc, &mut clauses, &[2 * count + 1])?;
    Ok(clauses)
}

/// A step for each variable behind the first, from the one before, and the empty clause from the last.
fn steps_along(alloc: Global, count: u32) -> Result<Vec<Step>, Memory>
    requires { count < 200_000 }
    ensures { IfOk result (λ steps. AreWithin VARS steps.items) }
{
    let mut steps = Vec::new(alloc);
    let mut last = 0;
    for variable in 0..count {
        let hints = [last, u64::from(variable) + 1];
        put_step(alloc, &mut steps, &[2 * variable + 2], &hints)?;
        last = u64::from(count) + 2 + u64::from(variable);
    }
    put_step(alloc, &mut steps, &[], &[last, u64::from(count) + 1])?;
    Ok(steps)
}

#[test]
fn a_step_with_its_hints_is_accepted(rt: HostRuntime) -> Result<(), Fail> {
    let alloc = rt.alloc();
    let clauses: [&[u32]; 2] = [&[0], &[1]];
    assert!(rt; accepted(alloc, &clauses, &[(&[], &[0, 1])])?);
    assert!(rt; !accepted(alloc, &clauses, &[(&[], &[0])])?);
    let held = clauses_of(alloc, &clauses)?;
    assert!(rt; checked(alloc, &held, steps_of(alloc, &[(&[], &[0, 1])])?.as_slice())?);
    assert!(rt; !checked(alloc, &held, steps_of(alloc, &[(&[], &[0])])?.as_slice())?);
    Ok(())
}

#[test]
fn a_step_is_good_by_its_clause_and_its_hints(rt: HostRuntime) -> Result<(), Fail> {
    let alloc = rt.alloc();
    // x0 or x1; x0 or not x1; not x0
    let clauses: [&[u32]; 3] = [&[0, 2], &[0, 3], &[1]];
    for (clause, hints, good) in [
        // The hints end at a falsified clause, or before it.
        ([0].as_slice(), [0u64, 1].as_slice(), true),
        (&[0], &[1, 0], true),
        (&[0], &[0], false),
        (&[0], &[], false),
        // Two literals aren't false, or one that is true.
        (&[], &[0], false),
        (&[], &[2, 0, 1], true),
        (&[], &[2, 2, 0, 1], false),
        (&[2], &[0], false),
        // What follows the falsified clause isn't looked at, but means something.
        (&[0], &[0, 1, 2], true),
        (&[0], &[0, 1, 3], false),
        (&[0], &[0, 1, 4], false),
        (&[0], &[0, 1, 9_223_372_036_854_775_808], false),
        (&[0], &[0, 1, 18_446_744_073_709_551_615], false),
        // A literal twice, and one with its negation.
        (&[0, 0], &[0, 1], true),
        (&[0, 1], &[0, 1], false),
        (&[0, 2, 3], &[0], false),
    ] {
        assert_eq!(rt;
            accepted(alloc, &clauses, &[(clause, hints)])?,
            good,
            "{clause:?} by {hints:?}"
        );
    }
    Ok(())
}

#[test]
fn a_list_ends_in_the_empty_clause(rt: HostRuntime) -> Result<(), Fail> {
    let alloc = rt.alloc();
    let clauses = clauses_of(alloc, &[&[0], &[1]])?;
    assert!(rt; !checked(alloc, &clauses, &[])?);
    assert!(rt;
        !checked(
            alloc,
            &clauses,
            steps_of(alloc, &[(&[0], &[0])])?.as_slice()
        )?
    );
    let nothing = clauses_of(alloc, &[])?;
    assert!(rt; !checked(alloc, &nothing, steps_of(alloc, &[(&[], &[])])?.as_slice())?);
    let falsified = clauses_of(alloc, &[&[]])?;
    assert!(rt;
        checked(
            alloc,
            &falsified,
            steps_of(alloc, &[(&[], &[0])])?.as_slice()
        )?
    );
    Ok(())
}

#[test]
fn what_the_last_step_needs_stays(rt: HostRuntime) -> Result<(), Fail> {
    let alloc = rt.alloc();
    let clauses = clauses_of(alloc, &[&[0], &[1]])?;
    let steps = steps_of(alloc, &[(&[0], &[0]), (&[], &[0, 1])])?;
    let kept = trimmed(alloc, &clauses, steps.as_slice())?;
    assert_eq!(rt; kept.len(), 1);
    assert_eq!(rt; kept[0].clause.as_slice().len(), 0);
    assert_eq!(rt; kept[0].hints.as_slice(), [0, 1].as_slice());

    let steps = steps_of(alloc, &[(&[0], &[0]), (&[0], &[0]), (&[], &[3, 1])])?;
    let kept = trimmed(alloc, &clauses, steps.as_slice())?;
    assert_eq!(rt; kept.len(), 2);
    assert_eq!(rt; kept[0].clause.as_slice(), [Lit(0)].as_slice());
    assert_eq!(rt; kept[0].hints.as_slice(), [0].as_slice());
    assert_eq!(rt; kept[1].hints.as_slice(), [2, 1].as_slice());
    Ok(())
}

#[test]
fn a_hundred_thousand_steps_are_judged_and_trimmed(rt: HostRuntime) -> Result<(), Fail> {
    let alloc = rt.alloc();
    let clauses = chain(alloc, 100_000)?;
    let steps = steps_along(alloc, 100_000)?;
    assert!(rt; checked(alloc, &clauses, steps.as_slice())?);
    let kept = trimmed(alloc, &clauses, steps.as_slice())?;
    assert_eq!(rt; kept.len(), 100_001);
    assert!(rt; checked(alloc, &clauses, kept.as_slice())?);
    Ok(())
}
