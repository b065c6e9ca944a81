ghost use Rattle.std.specs.Prelude.{◌≡◌, ◌*◌, ◌<◌, ◌≤◌, ◌↔◌, ◌++◌, [], ◌∷◌, ℕ, Bool, true, false, length, slice_index_or, slice_index, All, Contains, IsTrue, IfOk};
ghost use Rattle.std.specs.Vec.{vec_capacity};
ghost use Rattle.sat_cnf.specs.declared.lit.Lit.{Lit};
ghost use Rattle.sat_proof.specs.Propagation.{IsFalse};

use sat_cnf::{Lit, Memory};
use std::alloc::Global;
use std::marker::Model;

/// The literals that are true, in the order in which they became so. A mark for each literal tells in constant time
/// whether it is one of them.
#[derive(Drop)]
pub(crate) struct Trail {
    marks: Vec<bool>,
    known: Vec<Lit>,
}

impl Model for Trail {
    ghost use Rattle.std.specs.Prelude.{length};
    ghost use Rattle.std.specs.Vec.{vec_capacity};
    ghost use Rattle.sat_proof.specs.Trails.{Assignment, IsTrail};

    ghost Value = { Assignment };

    ghost view = { λ t. record { limit = length t.marks.items; known = t.known.items } };

    ghost invariant = { λ t. IsTrail t.marks.items t.known.items (vec_capacity t.known) };
}

impl Trail {
    /// No literal is true yet.
    pub(crate) fn new(alloc: Global, vars: u32) -> Result<Trail, Memory>
        ensures { IfOk result (λ trail. trail ≡ record { limit = 2 * vars; known = [] }) }
    {
        let limit = 2 * vars as usize;
        Ok(Trail {
            marks: vec![in alloc; false; limit]?,
            known: Vec::with_capacity(alloc, limit)?,
        })
    }

    /// Whether a literal is true.
    pub(crate) fn is_true(&self, lit: Lit) -> bool
        requires { lit.0 < self.now.limit }
        ensures { IsTrue result ↔ Contains self.now.known lit }
    {
        self.marks[lit.0 as usize]
    }

    /// Makes a literal true that isn't.
    #[tactic(auto, using(crate::proofs::TrailLemmas::marking))]
    pub(crate) fn put(&mut self, lit: Lit)
        requires within { lit.0 < self.old.limit }
        requires fresh { ¬ Contains self.old.known lit }
        ensures { self.new ≡ record self.old { known = self.old.known ++ lit ∷ [] } }
    {
        self.marks[lit.0 as usize] = true;
        self.known.push_reserved(lit);
    }

    /// Makes every literal undecided again, in time in proportion to the number of those that are true.
    pub(crate) fn clear(&mut self)
        ensures { self.new ≡ record self.old { known = [] } }
    {
        unmark(&mut self.marks, &mut self.known);
    }
}

/// Takes away each literal and its mark.
fn unmark(marks: &mut Vec<bool>, known: &mut Vec<Lit>)
    requires marked { (lit : Lit) → slice_index_or marks.old.items lit.0 false ≡ true → Contains known.old.items lit }
    requires within { All (λ lit. lit.0 < length marks.old.items) known.old.items }
    ensures marks { (place : ℕ) → slice_index_or marks.new.items place false ≡ false }
    ensures count { length marks.new.items ≡ length marks.old.items }
    ensures known { known.new.items ≡ [] }
    ensures room { vec_capacity known.new ≡ vec_capacity known.old }
{
    while let Some(lit) = known.pop() {
        marks[lit.0 as usize] = false;
    }
}
