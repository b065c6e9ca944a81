//! Many questions of one set of clauses.
ghost use Rattle.std.specs.Prelude.{◌≡◌, ◌⊎◌, ◌<◌, ◌≤◌, length, None, IfOk, MatchBool};
ghost use Rattle.sat_cnf.specs.Clauses.{IsWithin};
ghost use Rattle.sat_cnf.specs.Models.{HasNoModel};
ghost use Rattle.sat_proof.specs.Propagation.{IsFalse, IsUndecided};
ghost use Rattle.sat_core.specs.declared.phase.Phase.TheVariants.{Quiet};
ghost use Rattle.sat_core.specs.Asking.{IsAnswer, Leads};
ghost use Rattle.sat_core.specs.Searching.{IsNotStruck, most};
ghost use Rattle.sat_core.specs.Solving.{ComesFurther, cnf_of};
ghost use Rattle.sat_core.specs.Trails.{decisions_of, lits_of};

use crate::conflict::analyse;
use crate::laws::what_stands_follows;
use crate::order::Order;
use crate::phase::Phase;
use crate::runs::Runs;
use crate::search::Search;
use crate::solving::{decides, end_run, jump_back, take_back, values};
use sat_cnf::{Clauses, Lit, Memory};
use std::alloc::Global;
use std::marker::Model;
use vkb_bytes::Listed;

/// Asks of one set of clauses, time and again, whether some set of variables satisfies them and makes a literal true.
///
/// What was learned for one question stays for those behind it, since it follows from the clauses alone.
#[derive(Drop)]
pub struct Asker<'a> {
    search: Search<'a>,
    order: Order,
    alloc: Global,
}

impl<'a> Model for Asker<'a> {
    ghost use Rattle.sat_cnf.specs.Clauses.{Cnf};
    ghost use Rattle.sat_core.specs.Solving.{cnf_of};

    ghost Value = { Cnf };

    ghost view = { λ a. cnf_of a.search };
}

impl<'a> Asker<'a> {
    /// Begins with no question asked. It takes time and memory in proportion to the variables and the literals of the clauses.
    pub fn new(alloc: Global, clauses: &'a Clauses) -> Result<Asker<'a>, Memory>
        requires vars { clauses.now.vars ≤ most }
        requires clauses { length clauses.now.list ≤ most }
        ensures { IfOk result (λ asker. asker ≡ clauses.now) }
    {
        Ok(Asker {
            search: Search::new(alloc, clauses)?,
            order: Order::new(alloc, clauses.vars())?,
            alloc,
        })
    }

    /// A value for each variable, so that all clauses are satisfied and the literal is true, or `None` where no set of variables does both.
    /// Also after an `Err` it may be asked again.
    pub fn ask(&mut self, lit: Lit) -> Result<Option<Listed<bool>>, Memory>
        requires { IsWithin self.old.vars lit }
        ensures same { self.new ≡ self.old }
        ensures answer { IfOk result (IsAnswer self.old lit) }
    {
        take_back(&mut self.search, &mut self.order)?;
        answer(self.alloc, &mut self.search, &mut self.order, lit)
    }
}

/// The answer to a question, of a search in which no decision stands.
fn answer(
    alloc: Global,
    search: &mut Search<'_>,
    order: &mut Order,
    lit: Lit,
) -> Result<Option<Listed<bool>>, Memory>
    requires within { IsWithin search.old.vars lit }
    requires none { decisions_of search.old.trail ≡ 0 }
    ensures cnf { cnf_of search.new ≡ cnf_of search.old }
    ensures answer { IfOk result (IsAnswer (cnf_of search.old) lit) }
{
    if has_no_model(search) {
        return Ok(None);
    }
    // A law: nothing was decided where no decision stands.
    let _trail = search.trail();
    let vars = search.vars();
    let mut runs = Runs::new();
    loop {
        match search.propagate() {
            Some(conflict) => {
                if has_no_model(search) {
                    return Ok(None);
                }
                let learned = analyse(alloc, search, conflict)?;
                jump_back(search, order, learned)?;
                end_run(search, order, &mut runs)?;
            }
            None => match search.value(lit) {
                None => decide_first(search, lit),
                Some(true) => {
                    if !decides(search, order, vars) {
                        return Ok(Some(values(alloc, search, vars)?));
                    }
                }
                Some(false) => {
                    no_set_has(search, lit);
                    return Ok(None);
                }
            },
        }
    }
}

/// Whether a clause has only false literals though nothing was decided, so that no set of variables satisfies the clauses.
fn has_no_model(search: &Search<'_>) -> bool
    ensures { MatchBool result (HasNoModel search.now.clauses) (IsNotStruck search.now.phase ⊎ (0 < decisions_of search.now.trail)) }
{
    // Laws: what stands follows from the clauses, and each entry of the trail has its reason.
    what_stands_follows(search);
    let _trail = search.trail();
    match search.phase {
        Phase::Struck(_) => search.decisions() == 0,
        Phase::Fresh | Phase::Quiet => false,
    }
}

/// Decides the literal that is asked for.
fn decide_first(search: &mut Search<'_>, lit: Lit)
    requires quiet { search.old.phase ≡ Quiet }
    requires within { IsWithin search.old.vars lit }
    requires undecided { IsUndecided (lits_of search.old.trail) lit }
    ensures further { ComesFurther search.old search.new }
    ensures leads { Leads lit search.old.trail → Leads lit search.new.trail }
{
    // Each variable stands once on the trail, so its weight is bounded.
    let _trail = search.trail();
    search.decide(lit);
}

/// A law: where a literal is false that was decided before all others, no set that satisfies the clauses makes it true.
fn no_set_has(search: &Search<'_>, lit: Lit)
    requires leads { Leads lit search.now.trail }
    requires fails { IsFalse (lits_of search.now.trail) lit }
    ensures { IsAnswer (cnf_of search.now) lit None }
{
    what_stands_follows(search);
    let _trail = search.trail();
}
