//! The trail: the literals that are true, in the order in which they became so.
ghost use Rattle.std.specs.Prelude.{◌≡◌, ℕ, ◌⊎◌, ◌+◌, ◌*◌, ◌<◌, ◌≤◌, ◌^◌, ◌++◌, [], ◌∷◌, length, Some, None, slice_get, List, All, Contains, IfOk};
ghost use Rattle.sat_cnf.specs.Clauses.{IsWithin};
ghost use Rattle.sat_proof.specs.Propagation.{IsUndecided};
ghost use Rattle.sat_core.specs.declared.entry.Entry.{Entry};
ghost use Rattle.sat_core.specs.Assigning.{AreInOrder};
ghost use Rattle.sat_core.specs.Trails.{IsValueOf, decisions_of, lits_of, under};

use crate::entry::Entry;
use sat_cnf::{Lit, Memory};
use std::alloc::Global;
use std::marker::Model;

/// The literals that are true, each under a decision. It takes memory for all variables at once, and none later.
#[derive(Drop)]
pub(crate) struct Trail {
    vars: u32,
    /// For each literal its value, where its variable has one.
    values: Vec<Option<bool>>,
    /// For each variable where it stands among the entries, if it does.
    places: Vec<usize>,
    entries: Vec<Entry>,
}

impl Model for Trail {
    ghost use Rattle.std.specs.Vec.{vec_capacity};
    ghost use Rattle.sat_core.specs.Assigning.{IsKept};
    ghost use Rattle.sat_core.specs.Trails.{Assigned};

    ghost Value = { Assigned };

    ghost view = { λ t. record { vars = t.vars; entries = t.entries.items } };

    ghost invariant = { λ t. IsKept t.vars t.values.items t.places.items t.entries.items (vec_capacity t.entries) };
}

impl Trail {
    /// No literal is true yet.
    pub(crate) fn new(alloc: Global, vars: u32) -> Result<Trail, Memory>
        requires { vars < 2 ^ 31 }
        ensures { IfOk result (λ trail. trail ≡ record { vars = vars; entries = [] }) }
    {
        let count = vars as usize;
        Ok(Trail {
            vars,
            values: vec![in alloc; None; 2 * count]?,
            places: vec![in alloc; 0; count]?,
            entries: Vec::with_capacity(alloc, count)?,
        })
    }

    /// The literals that are true, in the order in which they became so.
    pub(crate) fn entries(&self) -> &[Entry]
        ensures entries { result.now ≡ self.now.entries }
        ensures few { length result.now ≤ self.now.vars }
        ensures in_order { AreInOrder self.now.vars self.now.entries }
    {
        self.entries.as_slice()
    }

    /// How many decisions stand.
    pub(crate) fn decisions(&self) -> u32
        ensures { result ≡ decisions_of self.now.entries }
    {
        match self.entries.last() {
            Some(entry) => entry.decision,
            None => 0,
        }
    }

    /// Whether a literal is true, or false, or neither.
    pub(crate) fn value(&self, lit: Lit) -> Option<bool>
        requires { IsWithin self.now.vars lit }
        ensures { IsValueOf (lits_of self.now.entries) lit result }
    {
        self.values[lit.0 as usize]
    }

    /// Where a true literal stands among the entries.
    pub(crate) fn place_of(&self, lit: Lit) -> usize
        requires { Contains (lits_of self.now.entries) lit }
        ensures { (entry : Entry) × (slice_get self.now.entries result ≡ Some entry) × (entry.lit ≡ lit) }
    {
        self.places[lit.variable() as usize]
    }

    /// Makes a literal true under the last decision.
    pub(crate) fn imply(&mut self, lit: Lit, reason: u64)
        requires within { IsWithin self.old.vars lit }
        requires undecided { IsUndecided (lits_of self.old.entries) lit }
        ensures { self.new ≡ record self.old {
          entries = self.old.entries ++ record { lit = lit; decision = decisions_of self.old.entries; reason = Some reason } ∷ [];
        } }
    {
        let decision = self.decisions();
        self.put(Entry {
            lit,
            decision,
            reason: Some(reason),
        });
    }

    /// Makes a literal true under a new decision.
    pub(crate) fn decide(&mut self, lit: Lit)
        requires within { IsWithin self.old.vars lit }
        requires undecided { IsUndecided (lits_of self.old.entries) lit }
        ensures { self.new ≡ record self.old {
          entries = self.old.entries ++ record { lit = lit; decision = decisions_of self.old.entries + 1; reason = None } ∷ [];
        } }
    {
        let decision = self.next_decision();
        self.put(Entry {
            lit,
            decision,
            reason: None,
        });
    }

    /// Keeps what stands under the first decisions, in time in proportion to what it takes back.
    pub(crate) fn undo(&mut self, decisions: u32)
        requires { decisions < decisions_of self.old.entries }
        ensures kept { self.new ≡ record self.old { entries = under decisions self.old.entries } }
        ensures first { (more : List Entry) × (self.old.entries ≡ self.new.entries ++ more) × All (λ entry. decisions < entry.decision) more }
    {
        while self.decisions() > decisions {
            self.pop();
        }
    }

    /// The number of the decision that comes next.
    fn next_decision(&self) -> u32
        ensures { result ≡ decisions_of self.now.entries + 1 }
    {
        match self.entries.last() {
            Some(entry) => entry.decision + 1,
            None => 1,
        }
    }

    /// Puts a literal last.
    fn put(&mut self, entry: Entry)
        requires within { IsWithin self.old.vars entry.lit }
        requires undecided { IsUndecided (lits_of self.old.entries) entry.lit }
        requires decision { (entry.decision ≡ decisions_of self.old.entries) ⊎ (entry.decision ≡ decisions_of self.old.entries + 1) }
        ensures { self.new ≡ record self.old { entries = self.old.entries ++ entry ∷ [] } }
    {
        self.values[entry.lit.0 as usize] = Some(true);
        self.values[entry.lit.negation().0 as usize] = Some(false);
        self.places[entry.lit.variable() as usize] = self.entries.len();
        self.entries.push_reserved(entry);
    }

    /// Takes the last literal away.
    fn pop(&mut self)
        requires { 0 < length self.old.entries }
        ensures last { (last : Entry) × (self.old.entries ≡ self.new.entries ++ last ∷ []) × (last.decision ≡ decisions_of self.old.entries) }
        ensures vars { self.new.vars ≡ self.old.vars }
    {
        if let Some(entry) = self.entries.pop() {
            self.values[entry.lit.0 as usize] = None;
            self.values[entry.lit.negation().0 as usize] = None;
        }
    }
}
