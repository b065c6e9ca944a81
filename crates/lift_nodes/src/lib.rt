//! Nodes of formulas that a check over all choices is put together from: whether exactly one of some nodes is true, as of the anchors of an id,
//! and which id a mark has where lines that are kept at some choices alone set the page.
//!
//! ```text
//! :refpage: VkA            line 0, kept at each choice
//! ifdef::X[]
//! :refpage: VkB            line 2, kept where x is true
//! endif::X[]
//! [[VUID-{refpage}-y]]     covered by line 0: VUID-VkA-y where x is false, and VUID-VkB-y where it is true
//!
//! let cases = put_ids(alloc, &mut pool, constants, b"VUID-{refpage}-y", true, &sources)?;     // nodes: Not x, and x
//! let once = put_exactly_one(alloc, &mut pool, &anchors)?;
//! ```
#![tactic(auto)]

mod counting;
mod giving;
mod ids;
mod putting;

pub use counting::put_exactly_one;
pub use ids::put_ids;
use vkb_bytes::Bytes;
pub use vkb_bytes::Memory;
use vkb_formula::NodeId;

/// Two nodes of a pool.
#[derive(Clone, Copy, Debug, PartialEq, Eq)]
pub struct Constants {
    /// True at each set.
    pub always: NodeId,
    /// True at none.
    pub never: NodeId,
}

/// A line that sets the page.
#[derive(Debug, Drop)]
pub struct Source {
    /// The page's name.
    pub page: Bytes,
    /// True where the line is kept.
    pub line: NodeId,
}

/// An id that a mark may have.
#[derive(Debug, Drop)]
pub struct IdCase {
    pub id: Bytes,
    /// True where the mark has it.
    pub node: NodeId,
}

#[cfg(test)]
mod tests;
