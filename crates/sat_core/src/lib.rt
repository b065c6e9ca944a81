//! A search for a set of variables that satisfies clauses: unit propagation over watched literals, clauses learned from conflicts, and
//! `solve`, which comes to a set or to a refutation that `sat_proof` judges.
//!
//! It reads `Clauses` of at most 16,777,216 variables and as many clauses (`sat_cnf`: variable v is the literal `Lit(2v)`, and its negation
//! `Lit(2v + 1)`). `solve` gives a value for each variable, or the steps of a refutation (`sat_proof`). An `Asker` answers one question after
//! another. A `Search` is what both drive, for callers that drive it themselves.
//!
//! # What a search holds
//!
//! The *trail* has the literals that are true, in the order in which they became so. Each stands under the last *decision* that had been
//! made, and has the clause that made it true as its reason; a literal that was decided has none. Each clause of two literals or more is
//! *watched* at two of them, and needs to be looked at only when one of these becomes false:
//!
//! ```text
//! clauses    0 (x0 or x1)   1 (x0 or not x1)   2 (not x0 or x2)
//! watched    x0: 1 0   not x0: 2   x1: 0   not x1: 1   x2: 2   not x2: -
//! ```
//!
//! So these clauses are searched, from `not x0`:
//!
//! ```text
//! let mut search = Search::new(alloc, &clauses)?;
//! search.propagate()                                    // None: nothing follows yet
//! search.decide(Lit(1));                                // not x0
//! search.propagate()                                    // Some(0): all literals of clause 0 are false
//!
//! trail      not x0 (decision 1)   not x1 (decision 1, by clause 1)
//!
//! let learned = analyse(alloc, &search, 0)?;            // (x0), which follows by clauses 1 and 0
//! search.undo(learned.back);                            // back is 0: the trail is empty
//! search.learn(learned.step)?;                          // (x0) is clause 3, and x0 is true
//! search.propagate()                                    // None
//!
//! trail      x0 (no decision, by clause 3)   x2 (no decision, by clause 2)
//!
//! search.value(Lit(4))                                  // Some(true)
//! ```
//!
//! A clause is learned in the three calls `analyse`, `undo` and `learn`. Where a clause has only false literals and no decision stands,
//! what `analyse` learns is the empty clause: no set satisfies the clauses, and the steps with this one behind them are a refutation.
//!
//! # Many questions of one set of clauses
//!
//! A caller that asks time and again whether the clauses can be satisfied with some literal true makes an `Asker`. Each question begins with
//! no decision and decides its literal first. What was learned stays, since it follows from the clauses alone, whatever was decided
//! (`what_stands_follows`): later questions need fewer conflicts.
//!
//! ```text
//! let mut asker = Asker::new(alloc, &clauses)?;         // the clauses from above
//! asker.ask(Lit(1))?                                    // None: where they are satisfied, x0 is true
//! asker.ask(Lit(4))?                                    // Some([true, false, true])
//! ```
#![tactic(auto)]

mod asking;
mod conflict;
mod entry;
mod heap;
mod held;
mod laws;
mod learning;
mod order;
mod outcome;
mod pair;
mod phase;
mod propagation;
mod runs;
mod search;
mod solving;
mod sparing;
mod trail;

pub use asking::Asker;
pub use conflict::{Learned, analyse};
pub use entry::Entry;
pub use laws::what_stands_follows;
pub use outcome::Outcome;
pub use pair::Pair;
pub use phase::Phase;
pub use search::Search;
pub use solving::solve;

#[cfg(test)]
mod tests;
