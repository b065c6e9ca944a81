//! How many of some nodes are true.
ghost use Rattle.std.specs.Prelude.{◌≡◌, ◌+◌, ◌*◌, ◌<◌, ◌≤◌, ◌==◌, All, IfOk, OnOk, count_by, length};
ghost use Rattle.vkb_formula.specs.Pools.{Extends, pool_reach, pool_size};
ghost use Rattle.lift_nodes.specs.Nodes.{IsNodeOver, is_true};
ghost use Rattle.lift_nodes.specs.Putting.{CountsTo, IsStep};

use crate::putting::{put, put_both, put_either};
use std::alloc::Global;
use vkb_bytes::Memory;
use vkb_formula::{NodeId, Pool, PoolNode, reached_are_the_roots_and_their_parts};

/// What is known of the nodes so far.
#[derive(Clone, Copy)]
struct SoFar {
    /// True where none of them is.
    none: NodeId,
    /// True where exactly one of them is.
    one: NodeId,
}

/// Puts a node that is true at a set exactly where exactly one of the nodes is; one that stands twice counts twice. Each node from before stays
/// at its place, also where memory ran out. An `Err` is want of memory. The time is in proportion to the number of nodes.
pub fn put_exactly_one(alloc: Global, pool: &mut Pool, nodes: &[NodeId]) -> Result<NodeId, Memory>
    requires { All (λ node. node.0 < length pool.old) nodes.now }
    ensures before { Extends pool.old pool.new }
    ensures reach { OnOk result (pool_reach pool.new ≡ pool_reach pool.old) }
    ensures size { OnOk result (pool_size pool.new ≤ pool_size pool.old + (2 + 14 * length nodes.now)) }
    ensures node { IfOk result (IsNodeOver pool.old pool.new nodes.now (2 + 12 * length nodes.now) (2 + 4 * length nodes.now)
        (λ set. count_by (is_true pool.old set) nodes.now == 1)) }
{
    reached_are_the_roots_and_their_parts();
    let counted = put_counts(alloc, pool, nodes)?;
    // In a pool the parts of each node stand before it.
    let _count = pool.len();
    Ok(counted.one)
}

/// Puts the nodes that tell whether none and whether exactly one of the nodes is true.
fn put_counts(alloc: Global, pool: &mut Pool, nodes: &[NodeId]) -> Result<SoFar, Memory>
    requires { All (λ node. node.0 < length pool.old) nodes.now }
    ensures before { Extends pool.old pool.new }
    ensures counts { IfOk result (CountsTo pool.old pool.new nodes.now (length nodes.now)) }
{
    let none = put(pool, PoolNode::Always)?;
    let one = put(pool, PoolNode::Never)?;
    let mut so_far = SoFar { none, one };
    for node in nodes {
        so_far = put_next(alloc, pool, so_far, *node)?;
    }
    Ok(so_far)
}

/// What is known where the next node is among them.
fn put_next(alloc: Global, pool: &mut Pool, so_far: SoFar, node: NodeId) -> Result<SoFar, Memory>
    requires none { so_far.none.0 < length pool.old }
    requires one { so_far.one.0 < length pool.old }
    requires node { node.0 < length pool.old }
    ensures before { Extends pool.old pool.new }
    ensures step { IfOk result (IsStep pool.old pool.new so_far node) }
{
    let isnt = put(pool, PoolNode::Not(node))?;
    let first = put_both(alloc, pool, node, so_far.none)?;
    let still = put_both(alloc, pool, isnt, so_far.one)?;
    let one = put_either(alloc, pool, first, still)?;
    let none = put_both(alloc, pool, isnt, so_far.none)?;
    Ok(SoFar { none, one })
}
