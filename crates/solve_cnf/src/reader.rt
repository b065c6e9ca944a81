//! Clauses in DIMACS form.
ghost use Rattle.std.specs.Prelude.{◌≡◌, ℕ, ◌≤◌, ◌<◌, All, length, IfOk, IfSome};
ghost use Rattle.sat_cnf.specs.Clauses.{IsWithin};
ghost use Rattle.sat_core.specs.Searching.{most};

use crate::fault::{Fault, Trouble};
use sat_cnf::{Clauses, Lit};
use std::alloc::Global;

/// How many variables and clauses there are at most.
const MOST: u32 = 16_777_216;

/// Clauses, as far as they are read.
#[derive(Drop)]
pub(crate) struct Reader {
    /// How many clauses there will be, once the first line has said so.
    expected: Option<u32>,
    clauses: Clauses,
    /// The literals of a clause that hasn't ended.
    clause: Vec<Lit>,
    ghost few_vars: { clauses.vars ≤ most },
    ghost few_clauses: { length clauses.list ≤ most },
    ghost within: { All (IsWithin clauses.vars) clause.items },
}

impl Reader {
    /// Nothing is read yet.
    pub(crate) fn new(alloc: Global) -> Reader {
        Reader {
            expected: None,
            clauses: Clauses::new(alloc, 0),
            clause: Vec::new(alloc),
        }
    }

    /// Reads a line: one of comment, the first other one, or one of clauses.
    pub(crate) fn read_line(&mut self, alloc: Global, line: &str) -> Result<(), Trouble> {
        if line.starts_with('c') {
            return Ok(());
        }
        match self.expected {
            None => self.read_header(alloc, line),
            Some(expected) => self.read_numbers(line, expected),
        }
    }

    /// All clauses, if they have ended.
    pub(crate) fn finish(self) -> Result<Clauses, Fault>
        ensures vars { IfOk result (λ clauses. clauses.vars ≤ most) }
        ensures clauses { IfOk result (λ clauses. length clauses.list ≤ most) }
    {
        match self.expected {
            Some(expected) if self.clause.is_empty() && self.clauses.len() == u64::from(expected) =>
                Ok(self.clauses),
            _ => Err(Fault::Unfinished),
        }
    }

    /// Reads the line `p cnf VARIABLES CLAUSES`.
    fn read_header(&mut self, alloc: Global, line: &str) -> Result<(), Trouble> {
        let mut words = line.split_ascii_whitespace();
        if words.next() != Some("p") || words.next() != Some("cnf") {
            return Err(Trouble::NoHeader);
        }
        let vars = number_of(words.next())?;
        let expected = number_of(words.next())?;
        if words.next().is_some() {
            return Err(Trouble::NoHeader);
        }
        self.clauses = Clauses::new(alloc, vars);
        self.clause.clear();
        self.expected = Some(expected);
        Ok(())
    }

    /// Reads numbers, and takes the clauses in that end.
    fn read_numbers(&mut self, line: &str, expected: u32) -> Result<(), Trouble> {
        for word in line.split_ascii_whitespace() {
            let Ok(number) = word.parse::<i32>() else {
                return Err(Trouble::NoNumber);
            };
            if number == 0 {
                self.end_clause(expected)?;
            } else {
                self.put(number)?;
            }
        }
        Ok(())
    }

    /// Takes in the clause that ends.
    fn end_clause(&mut self, expected: u32) -> Result<(), Trouble> {
        if self.clauses.len() >= u64::from(expected) || self.clauses.len() >= u64::from(MOST) {
            return Err(Trouble::TooMany);
        }
        self.clauses.push(self.clause.as_slice())?;
        self.clause.clear();
        Ok(())
    }

    /// Takes in a number of a clause.
    fn put(&mut self, number: i32) -> Result<(), Trouble> {
        let variable = number.unsigned_abs().saturating_sub(1);
        if variable >= self.clauses.vars() || variable >= MOST {
            return Err(Trouble::NoVariable);
        }
        let lit = Lit(2 * variable + u32::from(number < 0));
        self.clause.push(lit)?;
        Ok(())
    }
}

/// A number of variables or clauses.
fn number_of(word: Option<&str>) -> Result<u32, Trouble>
    ensures { IfOk result (λ number. number ≤ most) }
{
    let Some(word) = word else {
        return Err(Trouble::NoHeader);
    };
    match word.parse::<u32>() {
        Ok(number) if number <= MOST => Ok(number),
        Ok(_) => Err(Trouble::TooLarge),
        Err(_) => Err(Trouble::NoHeader),
    }
}
