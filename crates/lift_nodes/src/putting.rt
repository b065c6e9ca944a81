//! One node more in a pool, over nodes that it holds.
ghost use Rattle.std.specs.Prelude.{◌≡◌, ◌<◌, [], ◌∷◌, All, IfOk, OnOk, length};
ghost use Rattle.vkb_formula.specs.Pools.{Extends, parts_of, reach_at};
ghost use Rattle.vkb_formula.specs.declared.pool.PoolNode.TheVariants as node;
ghost use Rattle.lift_nodes.specs.Putting.{IsPut};

use std::alloc::Global;
use vkb_bytes::{Listed, Memory};
use vkb_formula::{NodeId, Pool, PoolNode, nodes_keep_their_meaning};

/// Puts a node last, which is no variable.
pub(crate) fn put(pool: &mut Pool, node: PoolNode) -> Result<NodeId, Memory>
    requires parts { All (λ part. part < length pool.old) (parts_of node) }
    requires over { reach_at node ≡ 0 }
    ensures before { Extends pool.old pool.new }
    ensures put { IfOk result (IsPut pool.old node pool.new) }
{
    // The nodes from before keep their values.
    nodes_keep_their_meaning();
    let id = pool.put(node)?;
    Ok(id)
}

/// A node that is true where both are.
pub(crate) fn put_both(
    alloc: Global,
    pool: &mut Pool,
    left: NodeId,
    right: NodeId,
) -> Result<NodeId, Memory>
    requires left { left.0 < length pool.old }
    requires right { right.0 < length pool.old }
    ensures before { Extends pool.old pool.new }
    ensures put { IfOk result (IsPut pool.old (node.All (left ∷ right ∷ [])) pool.new) }
{
    let parts = Listed::from_vec(vec![in alloc; left, right]?);
    let id = put(pool, PoolNode::All(parts))?;
    Ok(id)
}

/// A node that is true where one of the two is.
pub(crate) fn put_either(
    alloc: Global,
    pool: &mut Pool,
    left: NodeId,
    right: NodeId,
) -> Result<NodeId, Memory>
    requires left { left.0 < length pool.old }
    requires right { right.0 < length pool.old }
    ensures before { Extends pool.old pool.new }
    ensures put { IfOk result (IsPut pool.old (node.Any (left ∷ right ∷ [])) pool.new) }
{
    let parts = Listed::from_vec(vec![in alloc; left, right]?);
    let id = put(pool, PoolNode::Any(parts))?;
    Ok(id)
}
