//! Which of several formulas of a pool can be true where another is.
//!
//! It reads a pool (`vkb_formula`) with one of its nodes, the *rule*, and others, the *questions*, and gives the first question that is
//! true at some set of variables at which the rule is, with such a set; or it gives none, where there is no such question. The pool is put
//! into clauses once (`sat_cnf`), and one search is asked about each question in turn (`sat_core`), so that what it learned for one serves
//! those behind it.
//!
//! ```text
//! nodes      0 Var 0   1 Var 1   2 Not 0   3 All[0, 2]   4 Any[0, 1]
//!
//! first_met(alloc, &pool, NodeId(2), &[NodeId(3), NodeId(0), NodeId(4)], 2, 16_777_216)?
//!
//! Some(Met { question: 2, set: [false, true] })       // where x0 is false, 3 and 0 never are true, and 4 is where x1 is
//! ```
#![tactic(auto)]

mod meeting;

pub use meeting::{Met, first_met};
pub use sat_cnf::{CnfFault, Memory};

#[cfg(test)]
mod tests;
