//! What is learned from a conflict: a clause that asserts a literal (the first unique implication point of GRASP, Marques-Silva and
//! Sakallah 1996), with hints by which it follows.
ghost use Rattle.std.specs.Prelude.{◌≡◌, ◌⊎◌, ◌↔◌, ℕ, ◌+◌, ◌<◌, ◌≤◌, ◌++◌, [], ◌∷◌, length, max, false, true, nat_lt, reverse, set, if◌then◌else◌, Some, None, slice_get, All, IfOk, OnOk, IsTrue};
ghost use Rattle.sat_cnf.specs.Lits.{negation_of};
ghost use Rattle.sat_proof.specs.Propagation.{IsFalse};
ghost use Rattle.sat_proof.specs.Refutations.{held_with, hinted};
ghost use Rattle.sat_core.specs.declared.phase.Phase.TheVariants.{Struck};
ghost use Rattle.sat_core.specs.Analysing.{Found, IsAnalysed, IsCounted, IsMarked, Marks, weight_of};
ghost use Rattle.sat_core.specs.Analysis.{IsLearnedBy, IsLearnedFrom};
ghost use Rattle.sat_core.specs.Searching.{IsConflict};
ghost use Rattle.sat_core.specs.Trails.{IsTrail, decisions_of, lits_of};

use crate::entry::Entry;
use crate::held::held_clause;
use crate::search::Search;
use crate::sparing::{MOST_REASONS, is_spared};
use crate::trail::Trail;
use sat_cnf::{Clauses, Lit, Memory};
use sat_proof::Step;
use std::alloc::Global;
use std::marker::Model;
use vkb_bytes::Listed;

/// What is learned from a conflict.
#[derive(Drop)]
pub struct Learned {
    /// A clause whose literals are all false, and the clauses from which it follows.
    pub step: Step,
    /// The greatest decision under which a literal of it is false, but for that alone under the last decision; 0 where there is no other.
    pub back: u32,
}

/// Learns from the clause by which a search was struck.
///
/// With no decision made the step's clause is empty. Else one literal of it alone is false under the last decision, so that after
/// `undo(back)` it is the only one that isn't false, and `learn` takes the step.
pub fn analyse(alloc: Global, search: &Search<'_>, conflict: u64) -> Result<Learned, Memory>
    requires { search.now.phase ≡ Struck conflict }
    ensures { IfOk result (IsLearnedFrom search.now) }
{
    learn_from(
        alloc,
        &search.trail,
        search.clauses,
        search.steps.as_slice(),
        conflict,
    )
}

/// What is learned of a trail and a clause whose literals are false.
fn learn_from(
    alloc: Global,
    trail: &Trail,
    clauses: &Clauses,
    steps: &[Step],
    conflict: u64,
) -> Result<Learned, Memory>
    requires trail { IsTrail trail.now.vars (held_with clauses.now.list steps.now) trail.now.entries }
    requires known { conflict < length (held_with clauses.now.list steps.now) }
    requires conflict { IsConflict trail.now.entries (hinted (held_with clauses.now.list steps.now) conflict) }
    ensures { IfOk result (IsLearnedBy trail.now.vars (held_with clauses.now.list steps.now) trail.now.entries) }
{
    let mut analysis = Analysis::new(alloc, trail)?;
    analysis.resolve(trail, held_clause(clauses, steps, conflict), None, conflict)?;
    let mut place = trail.entries().len();
    while place > analysis.lowest {
        place -= 1;
        analysis.look_at(trail, clauses, steps, place)?;
    }
    Ok(analysis.finish())
}

/// How far an analysis has come.
#[derive(Drop)]
struct Analysis {
    /// The last decision.
    last: u32,
    /// Which entries of the trail are still to be looked at: they make literals false of clauses from which the clause follows.
    marks: Vec<bool>,
    /// How many of them stand under the last decision.
    pending: usize,
    /// A place before which none of them is.
    lowest: usize,
    /// The literals of the clause that is learned.
    clause: Vec<Lit>,
    /// The clauses from which it follows, from the last on.
    hints: Vec<u64>,
    /// The greatest decision so far of what the clause has of earlier ones.
    back: u32,
}

impl Model for Analysis {
    ghost use Rattle.sat_core.specs.Analysing.{Found};

    ghost Value = { Found };

    ghost view = { λ a. record {
      last = a.last;
      marks = a.marks.items;
      pending = a.pending;
      lowest = a.lowest;
      clause = a.clause.items;
      hints = a.hints.items;
      back = a.back;
    } };
}

impl Analysis {
    /// Nothing is marked yet.
    fn new(alloc: Global, trail: &Trail) -> Result<Analysis, Memory>
        ensures empty { IfOk result (λ a. a ≡ record {
          last = decisions_of trail.now.entries;
          marks = a.marks;
          pending = 0;
          lowest = a.lowest;
          clause = [];
          hints = [];
          back = 0;
        }) }
        ensures each { IfOk result (λ a. length a.marks ≡ length trail.now.entries) }
        ensures none { IfOk result (λ a. (place : ℕ) → ¬ IsMarked a.marks place) }
    {
        Ok(Analysis {
            last: trail.decisions(),
            marks: vec![in alloc; false; trail.entries().len()]?,
            pending: 0,
            lowest: trail.entries().len(),
            clause: Vec::new(alloc),
            hints: Vec::new(alloc),
            back: 0,
        })
    }

    /// Looks at the entry at a place, once those behind it were looked at.
    fn look_at(
        &mut self,
        trail: &Trail,
        clauses: &Clauses,
        steps: &[Step],
        place: usize,
    ) -> Result<(), Memory>
        requires place { place < length trail.now.entries }
        requires trail { IsTrail trail.now.vars (held_with clauses.now.list steps.now) trail.now.entries }
        requires behind { IsAnalysed (held_with clauses.now.list steps.now) trail.now.entries (place + 1) self.old }
        ensures { OnOk result (IsAnalysed (held_with clauses.now.list steps.now) trail.now.entries place self.new) }
    {
        if !self.marks[place] {
            return Ok(());
        }
        let entry = trail.entries()[place];
        self.take(trail, place, entry);
        match self.reason_of(trail, clauses, steps, place, entry) {
            Some(reason) => self.resolve(
                trail,
                held_clause(clauses, steps, reason),
                Some(entry.lit),
                reason,
            ),
            None => self.keep(entry),
        }
    }

    /// Takes the mark off an entry.
    fn take(&mut self, trail: &Trail, place: usize, entry: Entry)
        requires entry { slice_get trail.now.entries place ≡ Some entry }
        requires counted { IsCounted trail.now.entries self.old }
        requires marked { IsMarked self.old.marks place }
        ensures taken { self.new ≡ record self.old { marks = set self.old.marks place false; pending = self.new.pending } }
        ensures counted { IsCounted trail.now.entries self.new }
        ensures pending { self.old.pending ≡ self.new.pending + weight_of self.old.last entry true }
    {
        self.marks[place] = false;
        if entry.decision == self.last {
            self.pending -= 1;
        }
    }

    /// The reason of an entry, where that takes its place: it stands under no decision, or under the last with others that are still ahead, or
    /// under an earlier one and is spared.
    fn reason_of(
        &self,
        trail: &Trail,
        clauses: &Clauses,
        steps: &[Step],
        place: usize,
        entry: Entry,
    ) -> Option<u64>
        requires place { place < length trail.now.entries }
        requires trail { IsTrail trail.now.vars (held_with clauses.now.list steps.now) trail.now.entries }
        ensures some { (reason : ℕ) → result ≡ Some reason → entry.reason ≡ Some reason }
        ensures resolves { (reason : ℕ) → result ≡ Some reason
            → (entry.decision ≡ 0) ⊎ ((entry.decision < self.now.last) ⊎ ((entry.decision ≡ self.now.last) × (0 < self.now.pending))) }
        ensures none { result ≡ None → (entry.reason ≡ None) ⊎ ((0 < entry.decision) × (entry.decision ≡ self.now.last → self.now.pending ≡ 0)) }
    {
        if entry.decision == 0 || entry.decision == self.last && self.pending > 0 {
            return entry.reason;
        }
        let marks = self.marks.as_slice();
        if entry.decision < self.last
            && is_spared(trail, clauses, steps, marks, place, MOST_REASONS)
        {
            return entry.reason;
        }
        None
    }

    /// Hints at a clause, and marks the entries that make its literals false, but for one literal.
    fn resolve(
        &mut self,
        trail: &Trail,
        clause: &[Lit],
        but: Option<Lit>,
        hint: u64,
    ) -> Result<(), Memory>
        requires counted { IsCounted trail.now.entries self.old }
        requires denied { All (λ lit. (but ≡ Some lit) ⊎ IsFalse (lits_of trail.now.entries) lit) clause.now }
        ensures { OnOk result ((marked : Found) × Marks trail.now.entries clause.now but self.old marked
            × (self.new ≡ record marked { hints = marked.hints ++ hint ∷ [] })) }
    {
        self.mark(trail, clause, but);
        self.hints.push(hint)?;
        Ok(())
    }

    /// Marks the entries that make the literals of a clause false, but for one literal.
    fn mark(&mut self, trail: &Trail, clause: &[Lit], but: Option<Lit>)
        requires counted { IsCounted trail.now.entries self.old }
        requires denied { All (λ lit. (but ≡ Some lit) ⊎ IsFalse (lits_of trail.now.entries) lit) clause.now }
        ensures { Marks trail.now.entries clause.now but self.old self.new }
    {
        for lit in clause {
            if !is_left_out(but, *lit) {
                self.mark_at(trail, trail.place_of(lit.negation()));
            }
        }
    }

    /// Marks an entry.
    fn mark_at(&mut self, trail: &Trail, place: usize)
        requires place { place < length trail.now.entries }
        requires counted { IsCounted trail.now.entries self.old }
        ensures marked { self.new ≡ record self.old { marks = set self.old.marks place true; pending = self.new.pending; lowest = self.new.lowest } }
        ensures counted { IsCounted trail.now.entries self.new }
        ensures more { self.old.pending ≤ self.new.pending }
    {
        if !self.marks[place] {
            self.marks[place] = true;
            self.lowest = self.lowest.min(place);
            if trail.entries()[place].decision == self.last {
                self.pending += 1;
            }
        }
    }

    /// Takes the negation of an entry into the clause.
    fn keep(&mut self, entry: Entry) -> Result<(), Memory>
        ensures { OnOk result (self.new ≡ record self.old {
          clause = self.old.clause ++ negation_of entry.lit ∷ [];
          back = if nat_lt entry.decision self.old.last then max self.old.back entry.decision else self.old.back;
        }) }
    {
        self.clause.push(entry.lit.negation())?;
        if entry.decision < self.last && entry.decision > self.back {
            self.back = entry.decision;
        }
        Ok(())
    }

    /// What is learned, once all entries were looked at.
    fn finish(self) -> Learned
        ensures { result ≡ record { step = record { clause = self.clause; hints = reverse self.hints }; back = self.back } }
    {
        let Analysis {
            clause,
            mut hints,
            back,
            ..
        } = self;
        hints.reverse();
        Learned {
            step: Step {
                clause: Listed::from_vec(clause),
                hints: Listed::from_vec(hints),
            },
            back,
        }
    }
}

/// Whether a literal is the one that is left out.
fn is_left_out(but: Option<Lit>, lit: Lit) -> bool
    ensures { IsTrue result ↔ (but ≡ Some lit) }
{
    match but {
        Some(other) => other == lit,
        None => false,
    }
}
