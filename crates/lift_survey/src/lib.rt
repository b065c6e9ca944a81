//! The anchors and links of a document over a registry, for all choices of its options at once: each with the ids that it may have, and for each
//! id a node of a pool of formulas that is true where the mark stands in the built text and has that id.
//!
//! ```text
//! 0  :refpage: VkA
//! 1  ifdef::X[]
//! 2  :refpage: VkB
//! 3  include::{generated}/api/structs/VkB.adoc[]     an anchor: VkB, where x is true and the closure has VkB
//! 4  endif::X[]
//! 5  <<VUID-{refpage}-y>>                            a link: VUID-VkA-y where x is false, and VUID-VkB-y where it is true
//!
//! let survey = survey_document(alloc, &text, &document, &registry, &mut pool, &lines, &names, constants)?;
//! for mark in survey.links.as_slice() {
//!     // `mark.place` says where it stands, and each case of `mark.cases` has the number of an id and a node.
//! }
//! ```
//!
//! `lines` goes over the lines of the document and what their includes of generated pages give, `marks` over the marks of each (`spots` says where
//! one stands). `pages` knows which lines set the page, and which of them is kept wherever a mark stands; `ids` makes the cases of a mark, and
//! `nodes` puts a node for what stands where two things hold.
#![tactic(auto)]

ghost use Rattle.std.specs.Prelude.{◌≡◌, ◌<◌, ℕ, All, Bool, List, IfOk, OnOk, length};
ghost use Rattle.vkb_formula.specs.Names.{AreDifferent};
ghost use Rattle.vkb_formula.specs.Pools.{Extends, pool_reach};
ghost use Rattle.doc_tree.specs.Loaded.{IsLoaded, flat_of};
ghost use Rattle.lift_nodes.specs.Cases.{AreConstant};
ghost use Rattle.lift_nodes.specs.Nodes.{is_true};
ghost use Rattle.lift_survey.specs.Survey.{AreHeld, AreLifted, Tells};

mod ids;
mod lines;
mod marks;
mod nodes;
mod pages;
mod spots;

use crate::lines::survey_lines;
use doc_build::Place;
use doc_tree::Document;
use lift_nodes::Constants;
use reg_registry::Registry;
use std::alloc::Global;
use vkb_bytes::Listed;
pub use vkb_bytes::Memory;
use vkb_formula::{Names, NodeId, Pool};
use vkb_text::Text;

/// The number of an id among those that differ, in the order in which they are first met, from 0.
#[derive(Clone, Copy, Debug, PartialEq, Eq)]
pub struct IdNumber(pub u64);

/// An id that a mark may have, and a node that is true where the mark stands in the built text and has it.
#[derive(Clone, Copy, Debug, PartialEq, Eq)]
pub struct Case {
    pub id: IdNumber,
    pub node: NodeId,
}

/// An anchor or a link over all choices: its place, and the ids that it may have.
#[derive(Debug, Drop)]
pub struct LiftedMark {
    pub place: Place,
    pub cases: Listed<Case>,
}

/// All anchors and links that a document gives at some choice or other, in order, and their ids, each once.
#[derive(Drop)]
pub struct Survey {
    pub ids: Names,
    pub anchors: Vec<LiftedMark>,
    pub links: Vec<LiftedMark>,
}

/// Collects the anchors and links of a document that was loaded into this text, over a registry. `lines` are nodes for the document's lines, each
/// true where its line is kept, `names` nodes for the registry's names, each true where the closure has its name, and `constants` a node that is
/// true at each set, and one that is true at none.
///
/// A mark of a plain line or of the text of a one-line form stands where its line is kept, the anchor of a page where also the closure has the
/// page's name, and a statement of a page where it has besides the name that the statement needs. In the place of each `{refpage}` in an id stands
/// the page that the last kept line before sets, and where none is set, it stays.
///
/// Each node from before stays at its place. An `Err` is want of memory; it is also answered for the line of a statement of 2^32 bytes or more, and
/// for a name of that many statements. The time is in proportion to the bytes of all lines with marks and to the cases, and for each mark with
/// `{refpage}` to the lines behind the last that is kept wherever the mark stands which set the page, each times the depth of its conditionals.
pub fn survey_document(
    alloc: Global,
    text: &Text,
    d: &Document,
    r: &Registry,
    pool: &mut Pool,
    lines: &[NodeId],
    names: &[NodeId],
    constants: Constants,
) -> Result<Survey, Memory>
    requires loaded { IsLoaded text.now.bytes d.now }
    requires constants { AreConstant pool.old constants }
    requires line_count { length lines.now ≡ length d.now.lines }
    requires lines { All (λ node. node.0 < length pool.old) lines.now }
    requires name_count { length names.now ≡ length r.now.names }
    requires names { All (λ node. node.0 < length pool.old) names.now }
    ensures before { OnOk result (Extends pool.old pool.new) }
    ensures reach { OnOk result (pool_reach pool.new ≡ pool_reach pool.old) }
    ensures different { IfOk result (λ survey. AreDifferent survey.ids) }
    ensures anchors { IfOk result (λ survey. All (AreHeld (length pool.new) (length survey.ids)) survey.anchors.items) }
    ensures links { IfOk result (λ survey. All (AreHeld (length pool.new) (length survey.ids)) survey.links.items) }
    ensures marks { IfOk result (λ survey. (choice : List Bool) (set_names : List (List ℕ)) (set : List Bool)
        → Tells r.now (flat_of text.now.bytes d.now) lines.now names.now (is_true pool.new choice) set_names set
        → AreLifted (is_true pool.new choice) set_names set r.now (flat_of text.now.bytes d.now) survey.ids survey.anchors.items survey.links.items) }
{
    let mut survey = Survey {
        ids: Names::new(alloc),
        anchors: Vec::new(alloc),
        links: Vec::new(alloc),
    };
    survey_lines(
        &mut survey,
        pool,
        text,
        d.lines.as_slice(),
        d.conds.as_slice(),
        r,
        lines,
        names,
        constants,
    )?;
    // A table of names holds each once.
    let _count = survey.ids.len();
    Ok(survey)
}

#[cfg(test)]
mod tests;
