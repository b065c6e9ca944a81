//! Solving clauses by a search that learns.
ghost use Rattle.std.specs.Prelude.{◌≡◌, ◌⊎◌, ℕ, ◌*◌, ◌<◌, ◌≤◌, [], true, All, Contains, length, IfOk, OnOk};
ghost use Rattle.sat_cnf.specs.declared.lit.Lit.{Lit};
ghost use Rattle.sat_cnf.specs.Clauses.{IsWithin};
ghost use Rattle.sat_cnf.specs.Models.{Satisfies, lit_value};
ghost use Rattle.sat_proof.specs.Refutations.{Follows};
ghost use Rattle.sat_core.specs.declared.phase.Phase.TheVariants.{Fresh, Quiet};
ghost use Rattle.sat_core.specs.Analysis.{IsLearnedFrom};
ghost use Rattle.sat_core.specs.Asking.{KeepsLeads, Leads};
ghost use Rattle.sat_core.specs.Outcomes.{IsOutcome};
ghost use Rattle.sat_core.specs.Searching.{IsOpen, held_in, most};
ghost use Rattle.sat_core.specs.Solving.{ComesFurther, Decides, EndsRun, IsDecided, IsTruthOf, cnf_of};
ghost use Rattle.sat_core.specs.Trails.{decisions_of, lits_of};

use crate::conflict::{Learned, analyse};
use crate::order::Order;
use crate::outcome::Outcome;
use crate::runs::Runs;
use crate::search::Search;
use sat_cnf::{Clauses, Lit, Memory};
use sat_proof::Step;
use std::alloc::Global;
use vkb_bytes::Listed;

/// A set of variables that satisfies clauses, or a refutation of them.
pub fn solve(alloc: Global, clauses: &Clauses) -> Result<Outcome, Memory>
    requires vars { clauses.now.vars ≤ most }
    requires clauses { length clauses.now.list ≤ most }
    ensures { IfOk result (IsOutcome clauses.now) }
{
    let mut search = Search::new(alloc, clauses)?;
    let mut order = Order::new(alloc, clauses.vars())?;
    let mut runs = Runs::new();
    loop {
        match search.propagate() {
            Some(conflict) => {
                let learned = analyse(alloc, &search, conflict)?;
                if search.decisions() == 0 {
                    return refuted(search, learned.step);
                }
                jump_back(&mut search, &mut order, learned)?;
                end_run(&mut search, &mut order, &mut runs)?;
            }
            None => {
                if !decides(&mut search, &mut order, clauses.vars()) {
                    return model(alloc, &search, clauses.vars());
                }
            }
        }
    }
}

/// Goes back to where what was learned asserts a literal, and takes the step.
pub(crate) fn jump_back(
    search: &mut Search<'_>,
    order: &mut Order,
    learned: Learned,
) -> Result<(), Memory>
    requires learned { IsLearnedFrom search.old learned }
    requires decisions { 0 < decisions_of search.old.trail }
    ensures further { OnOk result (ComesFurther search.old search.new) }
    ensures leads { OnOk result (KeepsLeads search.old.trail search.new.trail) }
    ensures cnf { cnf_of search.new ≡ cnf_of search.old }
{
    order.heed(search, learned.step.hints.as_slice());
    order.release(search.trail(), learned.back)?;
    search.undo(learned.back);
    search.learn(learned.step)?;
    Ok(())
}

/// Counts a conflict, and takes all decisions back where a run ends with it.
pub(crate) fn end_run(
    search: &mut Search<'_>,
    order: &mut Order,
    runs: &mut Runs,
) -> Result<(), Memory>
    ensures ends { OnOk result (EndsRun search.old runs.old.left search.new runs.new.left) }
    ensures leads { KeepsLeads search.old.trail search.new.trail }
    ensures cnf { cnf_of search.new ≡ cnf_of search.old }
{
    if runs.end_with_conflict() {
        take_back(search, order)?;
    }
    Ok(())
}

/// Takes all decisions back.
pub(crate) fn take_back(search: &mut Search<'_>, order: &mut Order) -> Result<(), Memory>
    ensures none { OnOk result (decisions_of search.new.trail ≡ 0) }
    ensures phase { (search.new.phase ≡ Fresh) ⊎ (search.new.phase ≡ search.old.phase) }
    ensures leads { KeepsLeads search.old.trail search.new.trail }
    ensures cnf { cnf_of search.new ≡ cnf_of search.old }
{
    if search.decisions() > 0 {
        order.release(search.trail(), 0)?;
        search.undo(0);
    }
    Ok(())
}

/// Decides a literal, if one is undecided.
pub(crate) fn decides(search: &mut Search<'_>, order: &mut Order, vars: u32) -> bool
    requires vars { vars ≡ search.old.vars }
    requires few { vars ≤ most }
    requires quiet { search.old.phase ≡ Quiet }
    ensures decides { Decides search.old result search.new }
    ensures leads { (lit : Lit) → Contains (lits_of search.old.trail) lit → Leads lit search.old.trail → Leads lit search.new.trail }
{
    prove!(search.trail().len() <= vars as usize);
    match order.next(search, vars) {
        Some(lit) => {
            search.decide(lit);
            true
        }
        None => false,
    }
}

/// The steps of a search, and behind them one with the empty clause.
fn refuted(search: Search<'_>, last: Step) -> Result<Outcome, Memory>
    requires clauses { length search.clauses ≤ most }
    requires follows { Follows (held_in search) last }
    requires empty { last.clause ≡ [] }
    ensures { IfOk result (IsOutcome (cnf_of search.entry)) }
{
    let mut steps = search.into_steps();
    steps.push(last)?;
    // A view of the steps lets the proof use that they fit into memory.
    let _view = steps.as_slice();
    Ok(Outcome::Refuted(Listed::from_vec(steps)))
}

/// The values of the variables, all of which are decided.
fn model(alloc: Global, search: &Search<'_>, vars: u32) -> Result<Outcome, Memory>
    requires vars { vars ≡ search.now.vars }
    requires few { vars ≤ most }
    requires decided { IsDecided search.now }
    requires open { All (IsOpen (lits_of search.now.trail)) (held_in search.now) }
    ensures { IfOk result (IsOutcome (cnf_of search.now)) }
{
    Ok(Outcome::Model(values(alloc, search, vars)?))
}

/// A value for each variable, where all are decided.
pub(crate) fn values(alloc: Global, search: &Search<'_>, vars: u32) -> Result<Listed<bool>, Memory>
    requires vars { vars ≡ search.now.vars }
    requires few { vars ≤ most }
    requires decided { IsDecided search.now }
    requires open { All (IsOpen (lits_of search.now.trail)) (held_in search.now) }
    ensures each { IfOk result (λ set. length set ≡ search.now.vars) }
    ensures satisfies { IfOk result (λ set. Satisfies set search.now.clauses) }
    ensures stands { IfOk result (λ set. (lit : Lit) → IsWithin search.now.vars lit → Contains (lits_of search.now.trail) lit
        → lit_value set lit ≡ true) }
{
    literals_are_within(search);
    let mut values = Vec::with_capacity(alloc, vars as usize)?;
    for variable in 0..vars {
        values.push(is_true(search, Lit(2 * variable)))?;
    }
    Ok(Listed::from_vec(values))
}

/// A law: the literals of the clauses are of the search's variables.
fn literals_are_within(search: &Search<'_>)
    ensures { All (All (IsWithin search.now.vars)) search.now.clauses }
{
    // A read of a field lets the proof use what always holds of a search.
    let _clauses = search.clauses;
}

/// Whether a literal is true.
fn is_true(search: &Search<'_>, lit: Lit) -> bool
    requires { IsWithin search.now.vars lit }
    ensures { IsTruthOf (lits_of search.now.trail) lit result }
{
    search.value(lit) == Some(true)
}
