//! The first link that breaks at some set of variables at which a rule is true: of the ids that it may have (`lift_survey`), one that it has
//! there hasn't exactly one anchor.
//!
//! ```text
//! anchors    a: node 3          where x is true
//! links      a: node 0          at each set
//!
//! first_broken(alloc, &mut pool, rule, 1, &anchors, &links, 1)?
//!
//! Some(Broken { link: 0, id: a, set: [false], count: 0 })
//! ```
//!
//! `tables` keeps the nodes under each id, `questions` puts a node for each link that is true where it breaks (over `putting`), `asking` finds the
//! first of these that is met (over `sat_ask`), and `breaking` tells what it means for the link.
#![tactic(auto)]

mod asking;
mod breaking;
mod putting;
mod questions;
mod tables;

pub use breaking::{Broken, first_broken};
pub use vkb_bytes::Memory;

#[cfg(test)]
mod tests;
