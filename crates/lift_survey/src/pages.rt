//! The lines that set the page, and which of them may tell the page of a mark.
ghost use Rattle.std.specs.Prelude.{◌≡◌, ◌<◌, ◌++◌, [], true, None, Some, IfSome, OnOk, length, slice_index_or};
ghost use Rattle.doc_tree.specs.Loaded.{IsBefore};
ghost use Rattle.lift_survey.specs.Keeping.{AreOrdered, Covers, sources_at, withins_at};

use crate::Memory;
use doc_cond::LineKind;
use doc_tree::{Cond, CondId, DocLine};
use lift_nodes::Source;
use std::alloc::Global;
use vkb_bytes::Bytes;
use vkb_formula::NodeId;

/// The lines so far that set the page, in order.
#[derive(Drop)]
pub(crate) struct Pages {
    /// The page that each sets, and the node that is true where the line is kept.
    pub(crate) sources: Vec<Source>,
    /// The innermost conditional round each.
    pub(crate) withins: Vec<Option<CondId>>,
}

impl Pages {
    /// None.
    pub(crate) fn new(alloc: Global) -> Pages
        ensures sources { result.sources.items ≡ [] }
        ensures withins { result.withins.items ≡ [] }
    {
        Pages {
            sources: Vec::new(alloc),
            withins: Vec::new(alloc),
        }
    }
}

/// Adds a line, if it sets the page. The node is true where the line is kept.
pub(crate) fn add_page(pages: &mut Pages, line: &DocLine, node: NodeId) -> Result<(), Memory>
    ensures sources { OnOk result (pages.new.sources.items ≡ pages.old.sources.items ++ sources_at line.now.kind node) }
    ensures withins { OnOk result (pages.new.withins.items ≡ pages.old.withins.items ++ withins_at line.now.kind line.now.within) }
{
    match &line.kind {
        LineKind::Refpage { name } => {
            let page = Bytes::from_slice(*pages.sources.allocator(), name.as_slice())?;
            pages.sources.push(Source { page, line: node })?;
            pages.withins.push(line.within)?;
            Ok(())
        }
        _ => Ok(()),
    }
}

/// The place of the last of the lines that is kept wherever a line is that has this conditional innermost round it: each conditional round it is also
/// round that line.
pub(crate) fn last_covering(
    withins: &[Option<CondId>],
    conds: &[Cond],
    inner: Option<CondId>,
) -> Option<usize>
    requires ordered { AreOrdered conds.now }
    requires inner { IsBefore (length conds.now) inner }
    ensures within { IfSome result (λ place. place < length withins.now) }
    ensures covers { IfSome result (λ place. Covers conds.now (slice_index_or withins.now place None) inner) }
{
    let mut left = withins.len();
    while left > 0 {
        left -= 1;
        if is_round(conds, withins[left], inner) {
            return Some(left);
        }
    }
    None
}

/// Whether a conditional is another, or one of those round it; where there is none, it is.
fn is_round(conds: &[Cond], outer: Option<CondId>, inner: Option<CondId>) -> bool
    requires ordered { AreOrdered conds.now }
    requires inner { IsBefore (length conds.now) inner }
    ensures { result ≡ true → Covers conds.now outer inner }
{
    match outer {
        None => true,
        Some(outer) => is_at_or_round(conds, outer, inner),
    }
}

/// Whether a conditional is another, or one of those round it.
fn is_at_or_round(conds: &[Cond], outer: CondId, inner: Option<CondId>) -> bool
    requires ordered { AreOrdered conds.now }
    requires inner { IsBefore (length conds.now) inner }
    ensures { result ≡ true → Covers conds.now (Some outer) inner }
{
    let mut at = inner;
    while let Some(cond) = at {
        if cond.0 == outer.0 {
            return true;
        }
        at = conds[cond.0 as usize].within;
    }
    false
}
