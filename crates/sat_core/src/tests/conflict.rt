ghost use Rattle.std.specs.Prelude.{◌≡◌, ◌<◌, length, IfOk, IfSome, OnOk};
ghost use Rattle.sat_cnf.specs.Clauses.{IsWithin};
ghost use Rattle.sat_core.specs.declared.phase.Phase.TheVariants.{Fresh, Struck};
ghost use Rattle.sat_core.specs.Analysis.{IsLearnedFrom};
ghost use Rattle.sat_core.specs.Searching.{held_in};
ghost use Rattle.sat_core.specs.Trails.{IsTrail, decisions_of};

use super::super::*;
use sat_cnf::{Clauses, Lit, Memory};
use std::alloc::Global;
use std::test::Fail;

/// The clauses x0 or x1, and x0 or not x1.
fn two_clauses(alloc: Global) -> Result<Clauses, Memory>
    ensures vars { IfOk result (λ clauses. clauses.vars ≡ 2) }
    ensures list { IfOk result (λ clauses. length clauses.list ≡ 2) }
{
    let mut clauses = Clauses::new(alloc, 2);
    clauses.push(&[Lit(0), Lit(2)])?;
    clauses.push(&[Lit(0), Lit(3)])?;
    Ok(clauses)
}

/// Decides a literal once nothing more follows, and gives the clause by which that strikes the search.
fn strike(search: &mut Search<'_>, lit: Lit) -> Option<u64>
    requires phase { search.old.phase ≡ Fresh }
    requires within { IsWithin search.old.vars lit }
    ensures struck { IfSome result (λ number. search.new.phase ≡ Struck number) }
    ensures vars { search.new.vars ≡ search.old.vars }
{
    if search.propagate().is_some() {
        return None;
    }
    if search.value(lit).is_some() {
        return None;
    }
    search.decide(lit);
    search.propagate()
}

/// Takes back what is in the way of a step, and learns it.
fn take_back(search: &mut Search<'_>, learned: Learned) -> Result<(), Memory>
    requires trail { IsTrail search.old.vars (held_in search.old) search.old.trail }
    requires decided { 0 < decisions_of search.old.trail }
    requires learned { IsLearnedFrom search.old learned }
    ensures { OnOk result (search.new.vars ≡ search.old.vars) }
{
    search.undo(learned.back);
    search.learn(learned.step)
}

#[test]
fn a_literal_is_learned(rt: HostRuntime) -> Result<(), Fail> {
    let alloc = rt.alloc();
    let clauses = two_clauses(alloc)?;
    let mut search = Search::new(alloc, &clauses)?;
    match strike(&mut search, Lit(1)) {
        None => assert!(rt; false),
        Some(number) => {
            assert!(rt; number == 0);
            let learned = analyse(alloc, &search, number)?;
            assert!(rt; learned.step.clause.as_slice() == [Lit(0)].as_slice());
            assert!(rt; learned.step.hints.as_slice() == [1, 0].as_slice());
            assert!(rt; learned.back == 0);
            assert!(rt; search.decisions() == 1);
            assert!(rt; search.trail().len() == 2);
            take_back(&mut search, learned)?;
            assert!(rt; search.value(Lit(0)) == Some(true));
        }
    }
    Ok(())
}
