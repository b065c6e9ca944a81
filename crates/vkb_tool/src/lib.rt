//! What a run of `vkbuild` does: it reads the words of a request, reads the files that are asked for, puts those that change, and answers
//! with a report.
#![tactic(auto)]

mod answer;
mod build;
mod check;
mod document;
mod header;
mod laws;
mod program;
mod registry;
mod report;
mod status;
mod tags;
mod words;

pub use laws::{each_has_an_outcome, headers_are_whole, one_fault, one_outcome, one_reading};
pub use program::run;
pub use status::Status;
pub use vkb_bytes::Memory;
pub use words::{Request, WordFault, read_words};

#[cfg(test)]
mod tests;
