//! Unit propagation over watched literals.
ghost use Rattle.std.specs.Prelude.{◌≡◌, ℕ, ◌<◌, ◌≤◌, true, false, [], length, slice_index_or, All, Contains, None, MatchOption, MatchBool};
ghost use Rattle.sat_cnf.specs.Clauses.{IsWithin};
ghost use Rattle.sat_proof.specs.Refutations.{hinted};
ghost use Rattle.sat_watch.specs.Watching.{StandsBehind, list_at};
ghost use Rattle.sat_core.specs.declared.phase.Phase.TheVariants.{Fresh};
ghost use Rattle.sat_core.specs.Trails.{lits_of};
ghost use Rattle.sat_core.specs.Searching.{AreWatched, IsNotStruck, IsSettled, Propagates, held_in};
ghost use Rattle.sat_core.specs.Walking.{ComesTo, Grows, HasLit, IsBlocked, IsOther, IsPassedAt, IsReplacement, IsStruck, IsVisited, IsWalked, Replaces, Waits};

use crate::pair::Pair;
use crate::phase::Phase;
use crate::search::Search;
use crate::trail::Trail;
use sat_cnf::Lit;

/// What becomes of a watcher of a literal that is now false.
enum Visit {
    /// It stays: the other watched literal is true.
    Stays,
    /// It has moved to another literal of its clause, which isn't false.
    Moves,
    /// All literals of its clause, which has this number, are false.
    Strikes(u64),
}

impl Search<'_> {
    /// Makes true what follows from the literals that are true by clauses of which one literal is left, until nothing follows (`None`) or
    /// all literals of a clause are false (its number). It takes no memory.
    pub fn propagate(&mut self) -> Option<u64>
        requires { IsNotStruck self.old.phase }
        ensures { Propagates self.old self.new result }
    {
        if !self.begun {
            if let Some(number) = self.settle() {
                self.phase = Phase::Struck(number);
                return Some(number);
            }
        }
        while self.gone < self.trail.entries().len() {
            let lit = self.trail.entries()[self.gone].lit.negation();
            if let Some(number) = self.walk(lit) {
                self.phase = Phase::Struck(number);
                return Some(number);
            }
            self.gone += 1;
        }
        self.phase = Phase::Quiet;
        None
    }

    /// Makes the literals true that are alone in their clauses, until one of them is false or there is none in the clause, whose number it
    /// gives.
    fn settle(&mut self) -> Option<u64>
        requires begun { self.old.begun ≡ false }
        requires fresh { self.old.phase ≡ Fresh }
        ensures grows { Grows self.old self.new }
        ensures fresh { self.new.phase ≡ Fresh }
        ensures found { MatchOption result (self.new.begun ≡ true) (IsStruck self.new) }
    {
        for place in 0..self.pairs.len() {
            if self.pairs[place].is_none() && !self.settles(place as u64) {
                return Some(place as u64);
            }
        }
        self.begun = true;
        None
    }

    /// Whether the one literal of a clause is there, and true or made true.
    fn settles(&mut self, number: u64) -> bool
        requires begun { self.old.begun ≡ false }
        requires fresh { self.old.phase ≡ Fresh }
        requires number { number < length (held_in self.old) }
        requires single { slice_index_or self.old.pairs number None ≡ None }
        ensures grows { Grows self.old self.new }
        ensures waits { Waits self.old self.new }
        ensures pairs { self.new.pairs ≡ self.old.pairs }
        ensures settled { MatchBool result (IsSettled self.new.trail (hinted (held_in self.new) number)) (IsStruck self.new number) }
    {
        let Some(lit) = first_literal(self.clause(number)) else {
            return false;
        };
        match self.trail.value(lit) {
            Some(is_true) => is_true,
            None => {
                self.trail.imply(lit, number);
                true
            }
        }
    }

    /// Goes over the watchers of a literal that is now false, until all literals of a clause are false, whose number it gives.
    fn walk(&mut self, lit: Lit) -> Option<u64>
        requires fresh { self.old.phase ≡ Fresh }
        requires comes { ComesTo self.old lit }
        ensures grows { Grows self.old self.new }
        ensures waits { Waits self.old self.new }
        ensures found { IsWalked self.new lit result }
    {
        let mut before = None;
        let mut at = self.watches.first(lit.0);
        while let Some(watcher) = at {
            // A law: no watcher is come to twice, so the walk ends.
            self.watches.each_stands_once();
            at = self.watches.next(watcher);
            match self.visit(lit, before, watcher) {
                Visit::Stays => before = Some(watcher),
                Visit::Moves => {}
                Visit::Strikes(number) => return Some(number),
            }
        }
        None
    }

    /// Looks at the clause of a watcher of a literal that is now false. Its other watched literal is true then, the watcher has moved, or all of
    /// its literals are false.
    fn visit(&mut self, lit: Lit, before: Option<u64>, watcher: u64) -> Visit
        requires fresh { self.old.phase ≡ Fresh }
        requires comes { ComesTo self.old lit }
        requires known { watcher < length self.old.watches.clauses }
        requires place { StandsBehind (list_at self.old.watches.lists lit.0) before watcher }
        ensures grows { Grows self.old self.new }
        ensures waits { Waits self.old self.new }
        ensures watched { AreWatched self.new }
        ensures keeps { (number : ℕ) → IsPassedAt self.old lit number → IsPassedAt self.new lit number }
        ensures visited { IsVisited self.old self.new lit watcher result }
    {
        let number = self.watches.clause(watcher);
        // A clause with a watcher has a pair.
        let Some(pair) = self.pairs[number as usize] else {
            return Visit::Stays;
        };
        let other = other_of(pair, lit);
        let value = self.trail.value(other);
        if value == Some(true) {
            return Visit::Stays;
        }
        if let Some(to) = self.replacement(number, lit, other) {
            self.watches.move_to(lit.0, before, watcher, to.0);
            self.pairs[number as usize] = Some(Pair {
                first: other,
                second: to,
            });
            return Visit::Moves;
        }
        match value {
            Some(_) => Visit::Strikes(number),
            None => {
                self.trail.imply(other, number);
                Visit::Stays
            }
        }
    }

    /// A literal of a clause, but for the two at which it is watched, that isn't false.
    fn replacement(&self, number: u64, lit: Lit, other: Lit) -> Option<Lit>
        requires { number < length (held_in self.now) }
        ensures { IsReplacement (lits_of self.now.trail) (hinted (held_in self.now) number) lit other result }
    {
        let clause = self.clause(number);
        let (before, behind) = clause.split_at(self.start_in(clause));
        match free_among(&self.trail, behind, lit, other) {
            Some(to) => Some(to),
            None => free_among(&self.trail, before, lit, other),
        }
    }

    /// Where the search in a clause begins: at another place each time, since watchers that all move to the first literals of their
    /// clauses gather there, and are looked at the more often.
    fn start_in(&self, clause: &[Lit]) -> usize
        ensures { result ≤ length clause.now }
    {
        let turn = self.gone.wrapping_add(self.steps.len());
        turn.checked_rem(clause.len()).unwrap_or(0)
    }
}

/// A literal of a part of a clause, but for the two at which it is watched, that isn't false.
fn free_among(trail: &Trail, part: &[Lit], lit: Lit, other: Lit) -> Option<Lit>
    requires { All (IsWithin trail.now.vars) part.now }
    ensures { IsReplacement (lits_of trail.now.entries) part.now lit other result }
{
    for literal in part {
        if replaces(trail, *literal, lit, other) {
            return Some(*literal);
        }
    }
    None
}

/// Whether a literal is another than two and isn't false.
fn replaces(trail: &Trail, literal: Lit, lit: Lit, other: Lit) -> bool
    requires { IsWithin trail.now.vars literal }
    ensures { MatchBool result (Replaces (lits_of trail.now.entries) lit other literal) (IsBlocked (lits_of trail.now.entries) lit other literal) }
{
    literal != other && literal != lit && trail.value(literal) != Some(false)
}

/// The other literal of a pair.
fn other_of(pair: Pair, lit: Lit) -> Lit
    requires { HasLit pair lit }
    ensures { IsOther pair lit result }
{
    if pair.first == lit {
        pair.second
    } else {
        pair.first
    }
}

/// The first literal of a clause, if it has any.
fn first_literal(clause: &[Lit]) -> Option<Lit>
    ensures { MatchOption result (clause.now ≡ []) (Contains clause.now) }
{
    clause.first().copied()
}
