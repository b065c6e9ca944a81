//! Clauses over numbered variables, as a solver and a judge of its proofs read them.
//!
//! A literal is a number, and the clauses lie one behind the other in one vector, with a second vector that says where each
//! of them ends:
//!
//! ```text
//! (x0 or not x1) and (x1)      literals  0 3 | 2
//!                              ends      2     3
//! ```
//!
//! So the clauses of a problem are made, pushed and read so:
//!
//! ```text
//! let mut clauses = Clauses::new(alloc, 2);
//! clauses.push(&[Lit(0), Lit(3)])?;
//! clauses.push(&[Lit(2)])?;
//! clauses.clause(1)                    // the slice [Lit(2)]
//! ```
//!
//! A formula of a pool becomes clauses with a variable of its own for each node that joins others. They make it what its
//! parts make it, so that whoever satisfies them knows the value of each node that was asked for (Tseitin's form):
//!
//! ```text
//! All[Var 0, Any[Var 1, Not Var 0]]      x2 is the Any, and x3 the All
//!
//! (x2 or not x1) and (x2 or x0) and (not x2 or x1 or not x0)
//! (not x3 or x0) and (not x3 or x2) and (x3 or not x0 or not x2)
//!
//! encode(alloc, &pool, root, 2, 7)?      // these and (x3), over 4 variables
//! ```
#![tactic(auto)]

mod clauses;
mod encoding;
mod gates;
mod lit;
mod reached;
mod sizes;

pub use clauses::Clauses;
pub use encoding::{CnfFault, encode, encode_parts};
pub use lit::Lit;
pub use vkb_formula::Memory;

#[cfg(test)]
mod tests;
