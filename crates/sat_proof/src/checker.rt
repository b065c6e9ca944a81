ghost use Rattle.std.specs.Prelude.{◌≡◌, ℕ, ◌+◌, ◌<◌, ◌^◌, ◌↔◌, length, IsTrue, IfOk};
ghost use Rattle.sat_proof.specs.Refutations.{AreWithin, Derivation, IsGoodStep};

use crate::judge::follows;
use crate::step::Step;
use crate::trail::Trail;
use sat_cnf::{Clauses, Memory};
use std::alloc::Global;
use std::marker::Model;

/// A judge of steps over clauses. It keeps a mark for each literal, and undoes after each step what that step marked.
#[derive(Drop)]
pub struct Checker<'a> {
    clauses: &'a Clauses,
    steps: &'a [Step],
    trail: Trail,
}

impl<'a> Model for Checker<'a> {
    ghost use Rattle.std.specs.Prelude.{◌≡◌, ◌+◌, ◌*◌, ◌<◌, ◌^◌, [], length};
    ghost use Rattle.sat_proof.specs.Refutations.{AreWithin, Derivation};

    ghost Value = { Derivation };

    ghost view = { λ c. record { vars = c.clauses.now.vars; clauses = c.clauses.now.list; steps = c.steps.now } };

    ghost invariant = { λ c. (c.trail ≡ record { limit = 2 * c.clauses.now.vars; known = [] })
        × AreWithin c.clauses.now.vars c.steps.now
        × (length c.clauses.now.list + length c.steps.now < 2 ^ 63) };
}

impl<'a> Checker<'a> {
    /// A judge of these steps over these clauses. It takes memory in proportion to the number of variables.
    pub fn new(
        alloc: Global,
        clauses: &'a Clauses,
        steps: &'a [Step],
    ) -> Result<Checker<'a>, Memory>
        requires within { AreWithin clauses.now.vars steps.now }
        requires few { length clauses.now.list + length steps.now < 2 ^ 63 }
        ensures { IfOk result (λ checker. checker
            ≡ record { vars = clauses.now.vars; clauses = clauses.now.list; steps = steps.now }) }
    {
        Ok(Checker {
            clauses,
            steps,
            trail: Trail::new(alloc, clauses.vars())?,
        })
    }

    /// Whether a step is good: whether it follows from the clauses and the steps before it. It takes no memory, and time
    /// in proportion to the literals of the step and of the clauses that it hints at.
    pub fn accepts(&mut self, step: u64) -> bool
        requires { step < length self.old.steps }
        ensures exact { IsTrue result ↔ IsGoodStep self.old.clauses self.old.steps step }
        ensures same { self.new ≡ self.old }
    {
        let place = step as usize;
        let steps = self.steps;
        let is_good = follows(
            &mut self.trail,
            self.clauses,
            &steps[..place],
            &steps[place],
        );
        self.trail.clear();
        is_good
    }
}
