//! The order of decisions: the variable first that conflicts had most to do with of late (the decaying sums of Chaff, Moskewicz and others 2001), with
//! the value that it had last (Pipatsrisawat and Darwiche 2007).
ghost use Rattle.std.specs.Prelude.{◌≡◌, ◌<◌, ◌≤◌, All, IfSome, length};
ghost use Rattle.sat_core.specs.Searching.{held_in, most};
ghost use Rattle.sat_core.specs.Solving.{IsChoice, IsNextOf};

use crate::entry::Entry;
use crate::heap::Heap;
use crate::search::Search;
use sat_cnf::{Lit, Memory};
use std::alloc::Global;

/// How much the first conflict adds to the activity of a variable.
const FIRST_BUMP: u64 = 0x1000;

/// What a conflict adds at most, before all is divided.
const MOST_BUMP: u64 = 0x1000_0000_0000;

/// Which variable is decided next, and how.
#[derive(Drop)]
pub(crate) struct Order {
    heap: Heap,
    /// What a conflict adds to the activity of a variable.
    bump: u64,
    /// Whether each variable was true last.
    was_true: Vec<bool>,
}

impl Order {
    /// All variables are alike, and none was true.
    pub(crate) fn new(alloc: Global, vars: u32) -> Result<Order, Memory> {
        Ok(Order {
            heap: Heap::new(alloc, vars)?,
            bump: FIRST_BUMP,
            was_true: vec![in alloc; false; vars as usize]?,
        })
    }

    /// Makes the variables more active of the clauses from which another was learned.
    pub(crate) fn heed(&mut self, search: &Search<'_>, hints: &[u64])
        requires { All (λ hint. hint < length (held_in search.now)) hints.now }
    {
        for hint in hints {
            for lit in search.clause(*hint) {
                self.heap.add(lit.variable(), self.bump);
            }
        }
        self.bump = self.bump.saturating_add(self.bump / 16);
        if self.bump > MOST_BUMP {
            self.heap.shrink();
            self.bump = FIRST_BUMP;
        }
    }

    /// Lets the variables wait again that are true or false behind the first decisions, and keeps their values.
    pub(crate) fn release(&mut self, trail: &[Entry], decisions: u32) -> Result<(), Memory> {
        for entry in trail.iter().rev() {
            if entry.decision <= decisions {
                break;
            }
            if let Some(was_true) = self.was_true.get_mut(entry.lit.variable() as usize) {
                *was_true = !entry.lit.is_negated();
            }
            self.heap.put(entry.lit.variable())?;
        }
        Ok(())
    }

    /// The literal that is decided next, if a variable is undecided.
    pub(crate) fn next(&mut self, search: &Search<'_>, vars: u32) -> Option<Lit>
        requires vars { vars ≡ search.now.vars }
        requires few { vars ≤ most }
        ensures { IsNextOf search.now result }
    {
        while let Some(variable) = self.heap.pop() {
            let lit = self.choice(search, vars, variable);
            if lit.is_some() {
                return lit;
            }
        }
        first_undecided(search, vars)
    }

    /// The literal of a variable by its last value, if it is undecided.
    fn choice(&self, search: &Search<'_>, vars: u32, variable: u32) -> Option<Lit>
        requires vars { vars ≡ search.now.vars }
        requires few { vars ≤ most }
        ensures { IfSome result (IsChoice search.now) }
    {
        if variable >= vars {
            return None;
        }
        let lit = match self.was_true.get(variable as usize) {
            Some(true) => Lit(2 * variable),
            _ => Lit(2 * variable + 1),
        };
        match search.value(lit) {
            Some(_) => None,
            None => Some(lit),
        }
    }
}

/// The first literal that is undecided.
fn first_undecided(search: &Search<'_>, vars: u32) -> Option<Lit>
    requires vars { vars ≡ search.now.vars }
    requires few { vars ≤ most }
    ensures { IsNextOf search.now result }
{
    for variable in 0..vars {
        if search.value(Lit(2 * variable)).is_none() {
            return Some(Lit(2 * variable));
        }
    }
    None
}
