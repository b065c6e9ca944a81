ghost use Rattle.std.specs.Prelude.{◌≡◌, ◌*◌, ◌<◌, ◌++◌, [], ◌∷◌, length, slice_get, slice_index, Some, All, OnOk, OnErr};
ghost use Rattle.std.specs.List.{slice_range};
ghost use Rattle.sat_cnf.specs.Clauses.{Cnf, IsWithin, AreEnds, start_of};

use crate::lit::Lit;
use std::alloc::Global;
use std::marker::Model;
use vkb_formula::Memory;

/// A number of variables and a list of clauses over them. A clause is a list of literals, and is true where one of them
/// is. The variable of each literal is below the number of variables.
///
/// The literals of all clauses lie in one vector, in order, and `ends` has for each clause the place behind its last.
#[derive(Drop)]
pub struct Clauses {
    vars: u32,
    literals: Vec<Lit>,
    ends: Vec<usize>,
}

impl Model for Clauses {
    ghost use Rattle.std.specs.Prelude.{All, length};
    ghost use Rattle.sat_cnf.specs.Clauses.{Cnf, IsWithin, AreEnds, cut_at};

    ghost Value = { Cnf };

    ghost view = { λ c. record { vars = c.vars; list = cut_at 0 c.ends.items c.literals.items } };

    ghost invariant = { λ c. AreEnds 0 c.ends.items (length c.literals.items) × All (IsWithin c.vars) c.literals.items };
}

impl Clauses {
    /// No clauses over so many variables. It takes no memory.
    pub fn new(alloc: Global, vars: u32) -> Clauses
        ensures { result ≡ record { vars = vars; list = [] } }
    {
        Clauses {
            vars,
            literals: Vec::new(alloc),
            ends: Vec::new(alloc),
        }
    }

    /// The number of variables. It takes no memory.
    pub fn vars(&self) -> u32
        ensures { result ≡ self.now.vars }
    {
        self.vars
    }

    /// The number of clauses. It takes no memory.
    pub fn len(&self) -> u64
        ensures { result ≡ length self.now.list }
    {
        self.ends.len() as u64
    }

    /// Puts a clause last. An `Err` leaves the clauses as they were.
    pub fn push(&mut self, clause: &[Lit]) -> Result<(), Memory>
        requires { All (IsWithin self.old.vars) clause.now }
        ensures ok { OnOk result (self.new ≡ record self.old { list = self.old.list ++ clause.now ∷ [] }) }
        ensures err { OnErr result (self.new ≡ self.old) }
    {
        self.ends.reserve(1)?;
        self.literals.extend_from_slice(clause)?;
        self.ends.push_reserved(self.literals.len());
        Ok(())
    }

    /// The clause at a place, from 0. It takes no memory.
    pub fn clause(&self, place: u64) -> &[Lit]
        requires { place < length self.now.list }
        ensures clause { slice_get self.now.list place ≡ Some result.now }
        ensures within { All (IsWithin self.now.vars) result.now }
    {
        piece(
            self.literals.as_slice(),
            self.ends.as_slice(),
            place as usize,
        )
    }
}

/// The literals of a clause.
#[tactic(auto, using(crate::proofs::ClauseLemmas::places))]
fn piece<'a>(literals: &'a [Lit], ends: &[usize], place: usize) -> &'a [Lit]
    requires place { place < length ends.now }
    requires ends { AreEnds 0 ends.now (length literals.now) }
    ensures range { result.now ≡ slice_range literals.now (start_of 0 ends.now place) (slice_index ends.now place) }
{
    &literals[start(ends, place)..ends[place]]
}

/// Where a clause begins: at the end of the one before it.
#[tactic(auto, using(crate::proofs::ClauseLemmas::places))]
fn start(ends: &[usize], place: usize) -> usize
    requires { place < length ends.now }
    ensures { result ≡ start_of 0 ends.now place }
{
    if place == 0 { 0 } else { ends[place - 1] }
}
