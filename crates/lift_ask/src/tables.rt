//! For each id the nodes of the anchors that may have it.
ghost use Rattle.std.specs.Prelude.{◌≡◌, ◌<◌, ◌++◌, ◌∷◌, [], All, IfOk, OnOk, length, map, replicate, slice_index_or, slice_set};
ghost use Rattle.lift_ask.specs.Tables.{AreById, AreNumbered, PutsCases};

use lift_survey::{Case, LiftedMark};
use std::alloc::Global;
use vkb_bytes::Memory;
use vkb_formula::NodeId;

/// For each number of an id the nodes of the anchors' cases that have it, in order. The time is in proportion to the ids and the cases.
pub(crate) fn nodes_by_id(
    alloc: Global,
    ids: usize,
    anchors: &[LiftedMark],
) -> Result<Vec<Vec<NodeId>>, Memory>
    requires { All (λ m. AreNumbered ids m.cases) anchors.now }
    ensures { IfOk result (λ table. AreById ids anchors.now (map (λ list. list.items) table.items)) }
{
    let mut table = empty_table(alloc, ids)?;
    for anchor in anchors {
        put_cases(&mut table, anchor.cases.as_slice())?;
    }
    Ok(table)
}

/// A list of nothing under each of so many numbers.
fn empty_table(alloc: Global, count: usize) -> Result<Vec<Vec<NodeId>>, Memory>
    ensures { IfOk result (λ table. map (λ list. list.items) table.items ≡ replicate count []) }
{
    let mut table = Vec::new(alloc);
    for _ in 0..count {
        table.push(Vec::new(alloc))?;
    }
    Ok(table)
}

/// Puts the node of each case under the number of its id.
fn put_cases(table: &mut Vec<Vec<NodeId>>, cases: &[Case]) -> Result<(), Memory>
    requires { AreNumbered (length table.old.items) cases.now }
    ensures { OnOk result (PutsCases cases.now (map (λ list. list.items) table.old.items) (map (λ list. list.items) table.new.items)) }
{
    for case in cases {
        put_case(table, *case)?;
    }
    Ok(())
}

/// Puts the node of a case under the number of its id.
fn put_case(table: &mut Vec<Vec<NodeId>>, case: Case) -> Result<(), Memory>
    requires { case.id.0 < length table.old.items }
    ensures { OnOk result (map (λ list. list.items) table.new.items
        ≡ slice_set (map (λ list. list.items) table.old.items) case.id.0
        (slice_index_or (map (λ list. list.items) table.old.items) case.id.0 [] ++ case.node ∷ [])) }
{
    table[case.id.0 as usize].push(case.node)?;
    Ok(())
}
