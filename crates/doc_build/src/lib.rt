//! The text that is built of a document for a choice of a registry's options: its lines, its bytes, its anchors and links, and which links
//! break.
//!
//! ```text
//! the document                                       the text where VK_A is chosen, and the closure has VkB
//!
//! 0  :refpage: VkB                                   :refpage: VkB
//! 1  ifdef::VK_A[]
//! 2  include::{generated}/api/structs/VkB.adoc[]     [[VkB,VkB]]  and the declaration of VkB in a listing
//! 3  endif::[]
//! 4  ifndef::VK_A[see <<VkB>>]
//! 5  <<VUID-{refpage}-x>>                            <<VUID-{refpage}-x>>, which is a link to VUID-VkB-x
//!
//! let choice = choice_of(alloc, &registry, &names)?;
//! let lines = pieces(alloc, &text, &document, &registry, &choice, &always)?;
//! let bytes = built(alloc, &text, &document, &registry, &choice, &always)?;
//! let anchors = count(alloc, &text, &document, &registry, &choice, &always, b"VkB")?;    // 1
//! ```
//!
//! `keeping` tells which lines a choice keeps, `pages` what the includes of generated pages give, `building` goes over the lines, and `counting`
//! counts anchors by their ids at the choice (`ids`).
#![tactic(auto)]

mod building;
mod counting;
mod ids;
mod keeping;
mod laws;
mod pages;

pub use building::{built, pieces};
pub use counting::count;
pub use ids::filled;
pub use keeping::table_of;
pub use laws::{
    anchors_follow_the_closure, ids_as_written, kept_marks, lines_are_kept_by_number,
    lines_stand_where_kept, links_in_order, links_stand_with_their_lines, marks_at_some_choice,
    marks_follow_the_choice, marks_in_lines, options_are_set, options_follow_the_rule,
    pages_are_of_names, permitted_choices, sites_in_order, texts_are_of_names_asked,
};
pub use pages::{anchor_line, statement_line};
use vkb_bytes::Bytes;
pub use vkb_bytes::Memory;

/// Where a link stands.
#[derive(Clone, Copy, Debug, PartialEq, Eq)]
pub struct Place {
    /// The flat line, from 0.
    pub line: u32,
    /// The statement's number, or 0 in a line that has none.
    pub statement: u32,
    /// The byte in the line, or in the statement's line, from 0.
    pub at: u32,
}

/// A line of a built text.
#[derive(Debug, Drop)]
pub struct Piece {
    /// The flat line that gives it, from 0.
    pub line: u32,
    /// The number of its statement among all of its name, from 1, or 0 in a line that has none.
    pub statement: u64,
    /// The byte of the flat line, or of its statement's line, at which it starts, from 0.
    pub start: u32,
    /// Whether marks are read in it.
    pub marked: bool,
    /// Its bytes, without the byte 10 that ends it.
    pub bytes: Bytes,
}

#[cfg(test)]
mod tests;
