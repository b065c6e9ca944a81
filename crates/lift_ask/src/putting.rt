//! Nodes that are put over others.
ghost use Rattle.std.specs.Prelude.{◌≡◌, ◌<◌, ◌&&◌, All, IfOk, OnOk, length, not};
ghost use Rattle.std.specs.List.{list_any};
ghost use Rattle.vkb_formula.specs.Pools.{Extends, parts_of, pool_values, reach_at, value_at};
ghost use Rattle.lift_nodes.specs.Nodes.{is_true};
ghost use Rattle.lift_ask.specs.Questions.{SaysOf};

use std::alloc::Global;
use vkb_bytes::{Listed, Memory};
use vkb_formula::{NodeId, Pool, PoolNode, nodes_keep_their_meaning};

/// Puts a node last, which is no variable.
fn put(pool: &mut Pool, node: PoolNode) -> Result<NodeId, Memory>
    requires parts { All (λ part. part < length pool.old) (parts_of node) }
    requires over { reach_at node ≡ 0 }
    ensures before { Extends pool.old pool.new }
    ensures put { IfOk result (SaysOf pool.old pool.new (λ set. value_at set (pool_values set pool.old) node)) }
{
    // The nodes from before keep their values.
    nodes_keep_their_meaning();
    let id = pool.put(node)?;
    Ok(id)
}

/// A node that is true where another isn't.
pub(crate) fn put_not(pool: &mut Pool, node: NodeId) -> Result<NodeId, Memory>
    requires { node.0 < length pool.old }
    ensures before { Extends pool.old pool.new }
    ensures put { IfOk result (SaysOf pool.old pool.new (λ set. not (is_true pool.old set node))) }
{
    put(pool, PoolNode::Not(node))
}

/// A node that is true where both are.
pub(crate) fn put_both(
    alloc: Global,
    pool: &mut Pool,
    left: NodeId,
    right: NodeId,
) -> Result<NodeId, Memory>
    requires left { left.0 < length pool.old }
    requires right { right.0 < length pool.old }
    ensures before { Extends pool.old pool.new }
    ensures put { IfOk result (SaysOf pool.old pool.new (λ set. is_true pool.old set left && is_true pool.old set right)) }
{
    let parts = Listed::from_vec(vec![in alloc; left, right]?);
    let id = put(pool, PoolNode::All(parts))?;
    Ok(id)
}

/// A node that is true where one of some is.
pub(crate) fn put_any(pool: &mut Pool, nodes: Vec<NodeId>) -> Result<NodeId, Memory>
    requires { All (λ node. node.0 < length pool.old) nodes.items }
    ensures before { Extends pool.old pool.new }
    ensures put { IfOk result (SaysOf pool.old pool.new (λ set. list_any (is_true pool.old set) nodes.items)) }
{
    let id = put(pool, PoolNode::Any(Listed::from_vec(nodes)))?;
    Ok(id)
}
