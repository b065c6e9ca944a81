ghost use Rattle.std.specs.Prelude.{◌≡◌, ◌≤◌};

use super::super::*;
use super::solving::{clauses_of, pigeons, put, seat};
use sat_cnf::{Clauses, Lit, Memory};
use std::alloc::Global;
use std::test::Fail;

/// Whether some set satisfies the clauses with a literal, one that the variables have.
fn is_met(asker: &mut Asker<'_>, vars: u32, number: u32) -> Result<bool, Memory>
    requires vars { vars ≡ asker.old.vars }
    ensures same { asker.new ≡ asker.old }
{
    if u64::from(number) >= 2 * u64::from(vars) {
        return Err(Memory);
    }
    let answer = asker.ask(Lit(number))?;
    Ok(answer.is_some())
}

/// Whether each question is answered so, one after another.
fn are_answered(
    alloc: Global,
    clauses: &Clauses,
    numbers: &[u32],
    answers: &[bool],
) -> Result<bool, Memory> {
    if clauses.vars() > 16_777_216 || clauses.len() > 16_777_216 {
        return Err(Memory);
    }
    let vars = clauses.vars();
    let mut asker = Asker::new(alloc, clauses)?;
    let mut given = Vec::new(alloc);
    for number in numbers {
        given.push(is_met(&mut asker, vars, *number)?)?;
    }
    Ok(given.as_slice() == answers)
}

/// Each of so many variables implies the next, and the first and the last aren't both true.
fn open_chain(alloc: Global, count: u32) -> Result<Clauses, Memory>
    requires { count ≤ 100000 }
{
    let mut clauses = Clauses::new(alloc, count + 1);
    for variable in 0..count {
        put(alloc, &mut clauses, &[2 * variable + 1, 2 * variable + 2])?;
    }
    put(alloc, &mut clauses, &[1, 2 * count + 1])?;
    Ok(clauses)
}

#[test]
fn a_chain_is_asked_at_both_ends(rt: HostRuntime) -> Result<(), Fail> {
    let alloc = rt.alloc();
    let clauses = open_chain(alloc, 10_000)?;
    assert!(rt;
        are_answered(
            alloc,
            &clauses,
            &[0, 20_000, 0, 20_001, 1, 10_000, 0],
            &[false, true, false, true, true, true, false]
        )?
    );
    Ok(())
}

#[test]
fn clauses_without_a_model_are_asked_again(rt: HostRuntime) -> Result<(), Fail> {
    let alloc = rt.alloc();
    let one = clauses_of(alloc, 1, &[&[0], &[1]])?;
    assert!(rt; are_answered(alloc, &one, &[0, 1, 0], &[false, false, false])?);
    let full = pigeons(alloc, 5, &[])?;
    assert!(rt; are_answered(alloc, &full, &[0, 126, 127], &[false, false, false])?);
    Ok(())
}

#[test]
fn pigeons_fit_unless_all_are_asked_for(rt: HostRuntime) -> Result<(), Fail> {
    let alloc = rt.alloc();
    let clauses = pigeons(alloc, 6, &[127])?;
    assert!(rt;
        are_answered(
            alloc,
            &clauses,
            &[126, 127, 126, seat(0, 0), 126, seat(6, 5) + 1],
            &[false, true, false, true, false, true]
        )?
    );
    Ok(())
}
