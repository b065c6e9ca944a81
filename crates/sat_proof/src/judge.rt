ghost use Rattle.std.specs.Prelude.{◌≡◌, ℕ, ◌+◌, ◌*◌, ◌<◌, ◌^◌, ◌↔◌, [], length, map, false, Some, All, IsTrue};
ghost use Rattle.sat_cnf.specs.declared.lit.Lit.{Lit};
ghost use Rattle.sat_cnf.specs.Lits.{negation_of};
ghost use Rattle.sat_cnf.specs.Clauses.{IsWithin};
ghost use Rattle.sat_proof.specs.Propagation.{Refutes};
ghost use Rattle.sat_proof.specs.Refutations.{AreWithin, Follows, IsConsistent, held_with, hinted};
ghost use Rattle.sat_proof.specs.Trails.{Fits, HasSame, IsFinding};

use crate::step::Step;
use crate::trail::Trail;
use sat_cnf::{Clauses, Lit};

/// What a clause is where some literals are true.
#[derive(Drop)]
pub(crate) enum Finding {
    /// All of its literals are false.
    Falsified,
    /// One of its literals is undecided, and all others are false.
    Unit(Lit),
    Neither,
}

/// Whether a step follows from the clauses and the earlier steps. The literals that became true stay on the trail.
pub(crate) fn follows(trail: &mut Trail, clauses: &Clauses, earlier: &[Step], step: &Step) -> bool
    requires clean { trail.old.known ≡ [] }
    requires limit { trail.old.limit ≡ 2 * clauses.now.vars }
    requires clause { All (IsWithin clauses.now.vars) step.now.clause }
    requires within { AreWithin clauses.now.vars earlier.now }
    requires few { length clauses.now.list + length earlier.now < 2 ^ 63 }
    ensures exact { IsTrue result ↔ Follows (held_with clauses.now.list earlier.now) step.now }
    ensures limit { trail.new.limit ≡ trail.old.limit }
{
    let held = clauses.len() + earlier.len() as u64;
    if !are_below(step.hints.as_slice(), held) {
        return false;
    }
    if !deny(trail, step.clause.as_slice()) {
        return false;
    }
    refutes(trail, clauses, earlier, step.hints.as_slice())
}

/// Whether each hint is below a number.
fn are_below(hints: &[u64], held: u64) -> bool
    ensures { IsTrue result ↔ All (λ hint. hint < held) hints.now }
{
    hints.iter().all(|hint| *hint < held)
}

/// Makes each literal of a clause false, and answers whether none stands there together with its negation.
fn deny(trail: &mut Trail, clause: &[Lit]) -> bool
    requires clean { trail.old.known ≡ [] }
    requires within { All (Fits trail.old.limit) clause.now }
    ensures exact { IsTrue result ↔ IsConsistent clause.now }
    ensures known { IsTrue result → HasSame trail.new.known (map negation_of clause.now) }
    ensures limit { trail.new.limit ≡ trail.old.limit }
{
    for lit in clause {
        if trail.is_true(*lit) {
            return false;
        }
        let negation = lit.negation();
        if !trail.is_true(negation) {
            trail.put(negation);
        }
    }
    true
}

/// Whether the hinted clauses, taken in order, each make a literal true until one has only false literals.
fn refutes(trail: &mut Trail, clauses: &Clauses, earlier: &[Step], hints: &[u64]) -> bool
    requires limit { trail.old.limit ≡ 2 * clauses.now.vars }
    requires within { AreWithin clauses.now.vars earlier.now }
    requires few { length clauses.now.list + length earlier.now < 2 ^ 63 }
    requires hints { All (λ hint. hint < length (held_with clauses.now.list earlier.now)) hints.now }
    ensures exact { IsTrue result
        ↔ Refutes trail.old.known (map (hinted (held_with clauses.now.list earlier.now)) hints.now) }
    ensures limit { trail.new.limit ≡ trail.old.limit }
{
    for hint in hints {
        match examine(trail, clause_at(clauses, earlier, *hint)) {
            Finding::Falsified => return true,
            Finding::Unit(lit) => trail.put(lit),
            Finding::Neither => return false,
        }
    }
    false
}

/// The clause that a hint means.
fn clause_at<'a>(clauses: &'a Clauses, earlier: &'a [Step], hint: u64) -> &'a [Lit]
    requires hint { hint < length (held_with clauses.now.list earlier.now) }
    requires within { AreWithin clauses.now.vars earlier.now }
    ensures clause { result.now ≡ hinted (held_with clauses.now.list earlier.now) hint }
    ensures within { All (IsWithin clauses.now.vars) result.now }
{
    if hint < clauses.len() {
        clauses.clause(hint)
    } else {
        let place = hint - clauses.len();
        earlier[place as usize].clause.as_slice()
    }
}

/// What a clause is where the literals on the trail are true.
fn examine(trail: &Trail, clause: &[Lit]) -> Finding
    requires { All (Fits trail.now.limit) clause.now }
    ensures { IsFinding trail.now.known clause.now result }
{
    let mut only = None;
    for lit in clause {
        if trail.is_true(lit.negation()) {
            continue;
        }
        if trail.is_true(*lit) {
            return Finding::Neither;
        }
        if is_other(only, *lit) {
            return Finding::Neither;
        }
        only = Some(*lit);
    }
    match only {
        None => Finding::Falsified,
        Some(lit) => Finding::Unit(lit),
    }
}

/// Whether the only literal so far that isn't false is another than this one.
fn is_other(only: Option<Lit>, lit: Lit) -> bool
    ensures other { IsTrue result → (other : Lit) × (only ≡ Some other) × ¬ (other ≡ lit) }
    ensures same { result ≡ false → (other : Lit) → only ≡ Some other → other ≡ lit }
{
    match only {
        Some(other) => other != lit,
        None => false,
    }
}
