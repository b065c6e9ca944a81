//! Learning a step.
ghost use Rattle.std.specs.Prelude.{◌≡◌, ℕ, All, OnOk, OnErr};
ghost use Rattle.sat_cnf.specs.declared.lit.Lit.{Lit};
ghost use Rattle.sat_cnf.specs.Clauses.{IsWithin};
ghost use Rattle.sat_proof.specs.Propagation.{IsFalse};
ghost use Rattle.sat_proof.specs.Refutations.{Follows};
ghost use Rattle.sat_core.specs.Trails.{IsFalseUnder, lits_of};
ghost use Rattle.sat_core.specs.Watching.{IsPairOf};
ghost use Rattle.sat_core.specs.Searching.{IsAsBefore, IsAsserting, IsLearnedPair, IsNotStruck, Learns, held_in};

use crate::pair::{Pair, watch};
use crate::phase::Phase;
use crate::search::Search;
use crate::trail::Trail;
use sat_cnf::{Lit, Memory};
use sat_proof::Step;

/// What a clause asserts: its literal that is undecided, and the pair of that and another that is false under the last decision, where there
/// is another.
#[derive(Drop)]
struct Asserted {
    lit: Lit,
    pair: Option<Pair>,
}

impl Search<'_> {
    /// Takes a step that follows from the clauses and the steps before it. One of its literals is undecided, and all others are false, one of
    /// them under the last decision; where there are no others, no decision stands. That literal is then true. An `Err` leaves all as it was,
    /// but for what is watched behind the lists of the literals.
    pub fn learn(&mut self, step: Step) -> Result<(), Memory>
        requires phase { IsNotStruck self.old.phase }
        requires good { Follows (held_in self.old) step }
        requires within { All (IsWithin self.old.vars) step.clause }
        requires asserts { (lit : Lit) × IsAsserting self.old.trail step.clause lit }
        ensures ok { OnOk result (Learns self.old step self.new) }
        ensures err { OnErr result (IsAsBefore self.old self.new) }
    {
        // As a slice the steps take less than 2^63 bytes, so that there are few enough to count one more.
        let number = self.clauses.len() + self.steps.as_slice().len() as u64;
        let asserted = asserted_by(&self.trail, step.clause.as_slice());
        self.steps.reserve(1)?;
        self.pairs.reserve(1)?;
        watch(
            &mut self.watches,
            2 * self.clauses.vars(),
            asserted.pair,
            number,
        )?;
        self.pairs.push_reserved(asserted.pair);
        self.steps.push_reserved(step);
        self.trail.imply(asserted.lit, number);
        self.phase = Phase::Fresh;
        Ok(())
    }
}

/// What a clause asserts.
fn asserted_by(trail: &Trail, clause: &[Lit]) -> Asserted
    requires within { All (IsWithin trail.now.vars) clause.now }
    requires asserts { (lit : Lit) × IsAsserting trail.now.entries clause.now lit }
    ensures lit { IsAsserting trail.now.entries clause.now result.lit }
    ensures pair { IsPairOf clause.now result.pair }
    ensures learned { IsLearnedPair trail.now.entries clause.now result.lit result.pair }
{
    let last = trail.decisions();
    let mut lit = clause[0];
    let mut other = None;
    for literal in clause {
        match trail.value(*literal) {
            None => lit = *literal,
            Some(_) => {
                if decision_of(trail, *literal) == last {
                    other = Some(*literal);
                }
            }
        }
    }
    match other {
        Some(second) => Asserted {
            lit,
            pair: Some(Pair { first: lit, second }),
        },
        None => Asserted { lit, pair: None },
    }
}

/// The decision under which a literal is false.
fn decision_of(trail: &Trail, lit: Lit) -> u32
    requires { IsFalse (lits_of trail.now.entries) lit }
    ensures stands { IsFalseUnder trail.now.entries lit result }
    ensures alone { (decision : ℕ) → IsFalseUnder trail.now.entries lit decision → decision ≡ result }
{
    let place = trail.place_of(lit.negation());
    trail.entries()[place].decision
}
