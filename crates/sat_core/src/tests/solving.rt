ghost use Rattle.std.specs.Prelude.{◌≡◌, ◌<◌, ◌≤◌, IfOk};
ghost use Rattle.sat_core.specs.Outcomes.{IsOutcome};
ghost use Rattle.sat_core.specs.Searching.{IsNotStruck};

use super::super::*;
use sat_cnf::{Clauses, Lit, Memory};
use sat_proof::{check, trim};
use std::alloc::Global;
use std::test::Fail;

/// Puts a clause last, of those literals that the clauses' variables have.
pub(super) fn put(alloc: Global, clauses: &mut Clauses, numbers: &[u32]) -> Result<(), Memory> {
    let mut clause = Vec::new(alloc);
    for number in numbers {
        if u64::from(*number) < 2 * u64::from(clauses.vars()) {
            clause.push(Lit(*number))?;
        }
    }
    clauses.push(clause.as_slice())
}

/// Clauses by the numbers of their literals.
pub(super) fn clauses_of(alloc: Global, vars: u32, list: &[&[u32]]) -> Result<Clauses, Memory> {
    let mut clauses = Clauses::new(alloc, vars);
    for numbers in list {
        put(alloc, &mut clauses, numbers)?;
    }
    Ok(clauses)
}

/// The literal that a pigeon is in a hole.
pub(super) fn seat(pigeon: u32, hole: u32) -> u32
    requires pigeon { pigeon ≤ 8 }
    requires hole { hole ≤ 8 }
    ensures { result < 1000 }
{
    2 * (8 * pigeon + hole)
}

/// So many pigeons into one hole less, each of them unless one of some literals is true.
pub(super) fn pigeons(alloc: Global, holes: u32, unless: &[u32]) -> Result<Clauses, Memory>
    requires { holes < 8 }
{
    let mut clauses = Clauses::new(alloc, 64);
    for pigeon in 0..holes + 1 {
        let mut clause = Vec::new(alloc);
        for hole in 0..holes {
            clause.push(seat(pigeon, hole))?;
        }
        clause.extend_from_slice(unless)?;
        put(alloc, &mut clauses, clause.as_slice())?;
        for other in 0..pigeon {
            for hole in 0..holes {
                put(
                    alloc,
                    &mut clauses,
                    &[seat(pigeon, hole) + 1, seat(other, hole) + 1],
                )?;
            }
        }
    }
    Ok(clauses)
}

/// What clauses come to that aren't too many.
fn solved(alloc: Global, clauses: &Clauses) -> Result<Outcome, Memory>
    ensures { IfOk result (IsOutcome clauses.now) }
{
    if clauses.vars() > 16_777_216 || clauses.len() > 16_777_216 {
        return Err(Memory);
    }
    solve(alloc, clauses)
}

/// Whether clauses are refuted, by steps that are judged whole and trimmed.
fn is_refuted(alloc: Global, clauses: &Clauses) -> Result<bool, Memory> {
    match solved(alloc, clauses)? {
        Outcome::Model(_) => Ok(false),
        Outcome::Refuted(steps) => {
            let kept = trim(alloc, clauses, steps.as_slice())?;
            let is_good = check(alloc, clauses, steps.as_slice())?;
            Ok(is_good && check(alloc, clauses, kept.as_slice())?)
        }
    }
}

/// Whether there is a model, and a literal of each clause is true in it.
fn has_model(alloc: Global, clauses: &Clauses) -> Result<bool, Memory> {
    match solved(alloc, clauses)? {
        Outcome::Model(values) => Ok(all_true(clauses, values.as_slice())),
        Outcome::Refuted(_) => Ok(false),
    }
}

/// Whether values make all clauses true.
fn all_true(clauses: &Clauses, values: &[bool]) -> bool {
    for number in 0..clauses.len() {
        if !is_true(clauses.clause(number), values) {
            return false;
        }
    }
    true
}

/// Whether values make a clause true.
fn is_true(clause: &[Lit], values: &[bool]) -> bool {
    for lit in clause {
        if values.get(lit.variable() as usize).copied() == Some(!lit.is_negated()) {
            return true;
        }
    }
    false
}

#[test]
fn pigeons_are_refuted(rt: HostRuntime) -> Result<(), Fail> {
    let alloc = rt.alloc();
    for holes in 0..7 {
        let clauses = pigeons(alloc, holes, &[])?;
        assert!(rt; is_refuted(alloc, &clauses)?);
    }
    Ok(())
}

/// x0 or x1, x2 or x3, .. x38 or x39, and all four clauses over x40 and x41.
fn twenty_pairs(alloc: Global) -> Result<Clauses, Memory> {
    let mut clauses = Clauses::new(alloc, 42);
    for pair in 0..20u32 {
        put(alloc, &mut clauses, &[4 * pair, 4 * pair + 2])?;
    }
    for signs in [[80, 82], [80, 83], [81, 82], [81, 83]] {
        put(alloc, &mut clauses, &signs)?;
    }
    Ok(clauses)
}

#[test]
fn a_contradiction_beside_much_else_is_refuted(rt: HostRuntime) -> Result<(), Fail> {
    let alloc = rt.alloc();
    let clauses = twenty_pairs(alloc)?;
    assert!(rt; is_refuted(alloc, &clauses)?);
    Ok(())
}

#[test]
fn small_clauses_are_solved(rt: HostRuntime) -> Result<(), Fail> {
    let alloc = rt.alloc();
    assert!(rt; has_model(alloc, &clauses_of(alloc, 0, &[])?)?);
    assert!(rt; has_model(alloc, &clauses_of(alloc, 3, &[])?)?);
    assert!(rt; is_refuted(alloc, &clauses_of(alloc, 0, &[&[]])?)?);
    assert!(rt; is_refuted(alloc, &clauses_of(alloc, 2, &[&[0, 2], &[]])?)?);
    assert!(rt; has_model(alloc, &clauses_of(alloc, 1, &[&[0]])?)?);
    assert!(rt; is_refuted(alloc, &clauses_of(alloc, 1, &[&[0], &[1]])?)?);
    assert!(rt; has_model(alloc, &clauses_of(alloc, 2, &[&[0, 2], &[1, 3], &[0, 0]])?)?);
    assert!(rt;
        has_model(
            alloc,
            &clauses_of(alloc, 3, &[&[1, 2], &[3, 4], &[0], &[0, 1]])?
        )?
    );
    Ok(())
}

/// x0, and that each of so many variables implies the next.
fn chain(alloc: Global, count: u32) -> Result<Clauses, Memory>
    requires { count ≤ 100000 }
{
    let mut clauses = Clauses::new(alloc, count + 1);
    put(alloc, &mut clauses, &[0])?;
    for variable in 0..count {
        put(alloc, &mut clauses, &[2 * variable + 1, 2 * variable + 2])?;
    }
    Ok(clauses)
}

#[test]
fn a_long_chain_is_solved(rt: HostRuntime) -> Result<(), Fail> {
    let alloc = rt.alloc();
    let clauses = chain(alloc, 100_000)?;
    assert!(rt; has_model(alloc, &clauses)?);
    Ok(())
}

/// Decides each variable that nothing follows for, to be false, until a clause strikes or none is left, and takes all decisions back.
/// It gives how many stood.
fn decide_all(search: &mut Search<'_>) -> u32
    requires vars { search.old.vars ≡ 42 }
    requires phase { IsNotStruck search.old.phase }
{
    for variable in 0..42u32 {
        if search.propagate().is_some() {
            break;
        }
        if search.value(Lit(2 * variable + 1)).is_none() {
            search.decide(Lit(2 * variable + 1));
        }
    }
    let decisions = search.decisions();
    if decisions > 0 {
        search.undo(0);
    }
    decisions
}

#[test]
fn variables_are_decided_and_taken_back(rt: HostRuntime) -> Result<(), Fail> {
    let alloc = rt.alloc();
    let clauses = twenty_pairs(alloc)?;
    assert!(rt; clauses.vars() == 42 && clauses.len() == 24);
    let mut search = Search::new(alloc, &clauses)?;
    assert!(rt; decide_all(&mut search) == 21);
    assert!(rt; search.trail().is_empty());
    Ok(())
}
