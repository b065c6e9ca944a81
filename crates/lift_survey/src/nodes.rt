//! Nodes that are true where two others are.
ghost use Rattle.std.specs.Prelude.{◌≡◌, ◌<◌, true, Bool, List, IfOk, OnOk, length};
ghost use Rattle.lift_nodes.specs.Nodes.{is_true};
ghost use Rattle.lift_survey.specs.Growth.{Grows, IsBoth};

use crate::Memory;
use std::alloc::Global;
use vkb_bytes::Listed;
use vkb_formula::{NodeId, Pool, PoolNode, nodes_keep_their_meaning};

/// A node that is true where both are. Where one of them is `always`, which is true at each set, the other serves.
pub(crate) fn put_both(
    alloc: Global,
    pool: &mut Pool,
    left: NodeId,
    right: NodeId,
    always: NodeId,
) -> Result<NodeId, Memory>
    requires left { left.0 < length pool.old }
    requires right { right.0 < length pool.old }
    requires always { (set : List Bool) → is_true pool.old set always ≡ true }
    ensures grows { OnOk result (Grows pool.old pool.new) }
    ensures node { IfOk result (IsBoth pool.old pool.new left right) }
{
    if right.0 == always.0 {
        return Ok(left);
    }
    if left.0 == always.0 {
        return Ok(right);
    }
    // The nodes from before keep their values.
    nodes_keep_their_meaning();
    let parts = vec![in alloc; left, right]?;
    let node = pool.put(PoolNode::All(Listed::from_vec(parts)))?;
    Ok(node)
}
