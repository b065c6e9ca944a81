//! Where marks stand.
use doc_tree::CondId;
use vkb_formula::NodeId;

/// Where a line with marks stands.
#[derive(Clone, Copy)]
pub(crate) struct Spot {
    /// The flat line that gives it, from 0.
    pub(crate) line: u32,
    /// The number of its statement, or 0 in a line that has none.
    pub(crate) statement: u32,
    /// The byte of the flat line, or of its statement's line, at which it starts, from 0.
    pub(crate) start: u32,
    /// The innermost conditional round the flat line.
    pub(crate) within: Option<CondId>,
    /// True where the line stands in the built text.
    pub(crate) standing: NodeId,
}
