//! What a search holds, and the calls that go over it without looking at a clause.
ghost use Rattle.std.specs.Prelude.{◌≡◌, ◌+◌, ◌<◌, ◌≤◌, ◌++◌, [], ◌∷◌, length, None, IfOk};
ghost use Rattle.sat_cnf.specs.Clauses.{IsWithin};
ghost use Rattle.sat_proof.specs.Propagation.{IsUndecided};
ghost use Rattle.sat_proof.specs.Refutations.{AreGood, AreWithin, hinted};
ghost use Rattle.sat_core.specs.declared.phase.Phase.TheVariants.{Fresh, Quiet};
ghost use Rattle.sat_core.specs.Searching.{AreWatched, IsNew, held_in, most};
ghost use Rattle.sat_core.specs.Trails.{IsTrail, IsValueOf, decisions_of, lits_of, under};

use crate::entry::Entry;
use crate::held::held_clause;
use crate::pair::{Pair, first_pair, watch};
use crate::phase::Phase;
use crate::trail::Trail;
use sat_cnf::{Clauses, Lit, Memory};
use sat_proof::Step;
use sat_watch::Watches;
use std::alloc::Global;
use std::marker::Model;

/// A search for a set of variables that satisfies clauses.
///
/// It holds the clauses, the steps that were learned, and a trail: the literals that are true, in the order in which they became so, each
/// under the last decision that had been made. Each clause of two or more different literals is watched at two of them, and `watches` has
/// for each literal the clauses that are watched at it.
#[derive(Drop)]
pub struct Search<'a> {
    pub(crate) clauses: &'a Clauses,
    pub(crate) steps: Vec<Step>,
    pub(crate) trail: Trail,
    pub(crate) watches: Watches,
    /// For each clause the two literals at which it is watched.
    pub(crate) pairs: Vec<Option<Pair>>,
    /// How many entries of the trail propagation has gone past.
    pub(crate) gone: usize,
    /// Whether the clauses of one literal were looked at.
    pub(crate) begun: bool,
    pub(crate) phase: Phase,
}

impl<'a> Model for Search<'a> {
    ghost use Rattle.std.specs.Prelude.{◌≡◌};
    ghost use Rattle.sat_core.specs.Searching.{IsSearch, State};

    ghost Value = { State };

    ghost view = { λ s. record {
      vars = s.clauses.now.vars;
      clauses = s.clauses.now.list;
      steps = s.steps.items;
      trail = s.trail.entries;
      watches = s.watches;
      pairs = s.pairs.items;
      gone = s.gone;
      begun = s.begun;
      phase = s.phase;
    } };

    ghost invariant = { λ s. (s.trail.vars ≡ s.clauses.now.vars) × IsSearch (record {
      vars = s.clauses.now.vars;
      clauses = s.clauses.now.list;
      steps = s.steps.items;
      trail = s.trail.entries;
      watches = s.watches;
      pairs = s.pairs.items;
      gone = s.gone;
      begun = s.begun;
      phase = s.phase;
    }) };
}

impl<'a> Search<'a> {
    /// Begins a search over clauses: no literal is true. It takes time and memory in proportion to the variables and the literals of the clauses.
    pub fn new(alloc: Global, clauses: &'a Clauses) -> Result<Search<'a>, Memory>
        requires vars { clauses.now.vars ≤ most }
        requires clauses { length clauses.now.list ≤ most }
        ensures { IfOk result (IsNew clauses.now) }
    {
        let spare = 2 * clauses.vars();
        let mut watches = Watches::new(alloc, spare + 1)?;
        let mut pairs = Vec::with_capacity(alloc, clauses.len() as usize)?;
        for number in 0..clauses.len() {
            let pair = first_pair(clauses.clause(number));
            watch(&mut watches, spare, pair, number)?;
            pairs.push_reserved(pair);
        }
        Ok(Search {
            clauses,
            steps: Vec::new(alloc),
            trail: Trail::new(alloc, clauses.vars())?,
            watches,
            pairs,
            gone: 0,
            begun: false,
            phase: Phase::Fresh,
        })
    }

    /// Makes a literal true under a new decision. It takes no memory.
    pub fn decide(&mut self, lit: Lit)
        requires quiet { self.old.phase ≡ Quiet }
        requires within { IsWithin self.old.vars lit }
        requires undecided { IsUndecided (lits_of self.old.trail) lit }
        ensures { self.new ≡ record self.old {
          trail = self.old.trail ++ record { lit = lit; decision = decisions_of self.old.trail + 1; reason = None } ∷ [];
          phase = Fresh;
        } }
    {
        self.trail.decide(lit);
        self.phase = Phase::Fresh;
    }

    /// Keeps what stands under the first decisions, fewer than were made. It takes no memory, and time in proportion to what it takes back.
    pub fn undo(&mut self, decisions: u32)
        requires { decisions < decisions_of self.old.trail }
        ensures { self.new ≡ record self.old {
          trail = under decisions self.old.trail;
          gone = length (under decisions self.old.trail);
          phase = Fresh;
        } }
    {
        self.trail.undo(decisions);
        self.gone = self.trail.entries().len();
        self.phase = Phase::Fresh;
    }

    /// How many variables there are. It takes no memory.
    pub fn vars(&self) -> u32
        ensures vars { result ≡ self.now.vars }
        ensures few { self.now.vars ≤ most }
    {
        self.clauses.vars()
    }

    /// Whether a literal is true, or false, or neither. It takes no memory.
    pub fn value(&self, lit: Lit) -> Option<bool>
        requires { IsWithin self.now.vars lit }
        ensures { IsValueOf (lits_of self.now.trail) lit result }
    {
        self.trail.value(lit)
    }

    /// The literals that are true, in the order in which they became so. It takes no memory.
    pub fn trail(&self) -> &[Entry]
        ensures entries { result.now ≡ self.now.trail }
        ensures trail { IsTrail self.now.vars (held_in self.now) self.now.trail }
        ensures few { length self.now.trail ≤ self.now.vars }
    {
        self.trail.entries()
    }

    /// How many decisions stand. It takes no memory.
    pub fn decisions(&self) -> u32
        ensures { result ≡ decisions_of self.now.trail }
    {
        self.trail.decisions()
    }

    /// The clauses by the literals at which they are watched: the list of a literal has those that are watched at it. There is one list more,
    /// for what is learned. It takes no memory.
    pub fn watches(&self) -> &Watches
        ensures watches { result.now ≡ self.now.watches }
        ensures watched { AreWatched self.now }
    {
        &self.watches
    }

    /// The steps that were learned, in order. It takes no memory.
    pub fn into_steps(self) -> Vec<Step>
        ensures steps { result.items ≡ self.entry.steps }
        ensures good { AreGood self.entry.clauses self.entry.steps }
        ensures within { AreWithin self.entry.vars self.entry.steps }
    {
        self.steps
    }

    /// The clause of a number: those that were given come first, and then those that were learned.
    pub(crate) fn clause(&self, number: u64) -> &[Lit]
        requires { number < length (held_in self.now) }
        ensures { result.now ≡ hinted (held_in self.now) number }
    {
        held_clause(self.clauses, self.steps.as_slice(), number)
    }
}
