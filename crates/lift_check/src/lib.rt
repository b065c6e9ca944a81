//! The verdict on all links of a document, over all permitted choices: each link has exactly one anchor at every choice at which
//! it stands, or there is a first one that hasn't.
//!
//! A document is taken apart once, and then formulas are asked:
//!
//! ```text
//! document   options      the names that a choice sets or doesn't, over the options of a registry
//!            conditions   for each condition of its lines a formula over the options, in one pool
//! registry   permits      one for each name that is true where the closure has it, and one that tells which choices are permitted
//! both       nodes        all of these, in one pool
//! document   judging      its anchors and links with the ids that they may have (`lift_survey`), the first link that breaks (`lift_ask`), and
//!                         the verdict: Yes with the number of links, or No with that link and a choice that breaks it
//! ```
//!
//! Where there is no registry, a bare one stands for it, which declares nothing and has the names of the document's conditions as its options.
//! In the document of the lines `ifdef::X[]`, `[[a]]`, `endif::X[]` and `<<a>>` the one link breaks where X isn't chosen:
//!
//! ```text
//! let registry = free_options(alloc, &d, &[])?;           // X
//! check_all(alloc, &text, &d, &registry, &[])?            // No at line 3, byte 0, with the id a, where X isn't chosen, and count 0
//! ```
#![tactic(auto)]

mod conditions;
mod judging;
mod laws;
mod nodes;
mod options;
mod permits;

use doc_build::Place;
pub use judging::check_all;
pub use laws::one_verdict;
pub use options::free_options;
use vkb_bytes::{Bytes, Listed};
use vkb_formula::Memory;

/// What the links of a document come to.
#[derive(Debug, Drop)]
pub enum Verdict {
    /// Each link has exactly one anchor at every permitted choice; there are so many links.
    Yes {
        links: u64,
    },
    /// The first link that hasn't at some permitted choice.
    No {
        place: Place,
        /// Its id at that choice.
        id: Bytes,
        /// One such choice: for each option, in order, whether it is chosen.
        choice: Listed<bool>,
        /// How many anchors the id has at that choice.
        count: u64,
    },
}
