//! Which nodes of a pool some nodes lead to, and what their clauses take.
ghost use Rattle.std.specs.Prelude.{◌≡◌, ◌<◌, ◌||◌, ℕ, length, map, All, IfOk, OnOk};
ghost use Rattle.vkb_formula.specs.Pools.{parts_of, sum_reached_any};
ghost use Rattle.sat_cnf.specs.Coding.{has, AreReached, sum_at};

use std::alloc::Global;
use std::collections::BTreeSet;
use vkb_formula::{Memory, NodeId, Pool, PoolNode, reached_are_the_roots_and_their_parts};

/// The places of all nodes that some nodes lead to, rising. Time and memory are in proportion to these nodes and the
/// entries of their parts, but for a factor that is the logarithm of their number, and not to the pool.
///
/// It goes from the last place down: a node's parts stand before it, so that what is taken out is never put in again.
pub(crate) fn reached(alloc: Global, pool: &Pool, roots: &[NodeId]) -> Result<Vec<u64>, Memory>
    requires { All (λ root. root.0 < length pool.now) roots.now }
    ensures places { IfOk result (λ places. AreReached pool.now (map (λ root. root.0) roots.now) places.items) }
    ensures sums { IfOk result (λ places. (weigh : PoolNode → ℕ)
        → sum_reached_any weigh pool.now (map (λ root. root.0) roots.now) ≡ sum_at weigh pool.now places.items) }
{
    reached_are_the_roots_and_their_parts();
    // The pool's count says that parts stand before their node.
    let _count = pool.len();
    let mut ahead = BTreeSet::new(alloc);
    add(&mut ahead, roots)?;
    let mut places = Vec::new(alloc);
    while let Some(place) = ahead.pop_last() {
        add_parts(&mut ahead, pool.node(NodeId(place)))?;
        places.push(place)?;
    }
    places.reverse();
    Ok(places)
}

/// Adds the parts of a node.
fn add_parts(ahead: &mut BTreeSet<u64>, node: &PoolNode) -> Result<(), Memory>
    ensures { OnOk result ((place : ℕ)
        → has ahead.new.keys place ≡ (has ahead.old.keys place || has (parts_of node.now) place)) }
{
    match node {
        PoolNode::Always | PoolNode::Never | PoolNode::Var(_) => Ok(()),
        PoolNode::Not(part) => add(ahead, &[*part]),
        PoolNode::All(parts) | PoolNode::Any(parts) => add(ahead, parts.as_slice()),
    }
}

/// Adds the places of nodes.
fn add(ahead: &mut BTreeSet<u64>, nodes: &[NodeId]) -> Result<(), Memory>
    ensures { OnOk result ((place : ℕ)
        → has ahead.new.keys place ≡ (has ahead.old.keys place || has (map (λ node. node.0) nodes.now) place)) }
{
    for node in nodes {
        ahead.insert(node.0)?;
    }
    Ok(())
}
