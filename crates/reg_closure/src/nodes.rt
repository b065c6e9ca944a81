//! Nodes that are put into a pool.
ghost use Rattle.std.specs.Prelude.{◌≡◌, ◌+◌, ◌*◌, ◌<◌, ◌++◌, ◌∷◌, All, IfOk, OnOk, Some, length, map, slice_get, sum_by};
ghost use Rattle.std.specs.List.{list_any};
ghost use Rattle.vkb_formula.specs.Formulas.{clauses_of, reach_of, size_of, value_of};
ghost use Rattle.vkb_formula.specs.Pools.{parts_of};
ghost use Rattle.vkb_formula.specs.declared.pool.PoolNode.TheVariants as node;
ghost use Rattle.reg_closure.specs.Made.{Grows, IsMade, IsPut, Keeps, cost, is_true, node_at};

use std::alloc::Global;
use vkb_bytes::{Listed, Memory};
use vkb_formula::{Formula, NodeId, Pool, PoolNode, nodes_keep_their_meaning};

/// Puts a node last.
pub(crate) fn put(pool: &mut Pool, node: PoolNode) -> Result<NodeId, Memory>
    requires { All (λ part. part < length pool.old) (parts_of node) }
    ensures keeps { Keeps pool.old pool.new }
    ensures put { IfOk result (IsPut pool.old node pool.new) }
{
    nodes_keep_their_meaning();
    pool.put(node)
}

/// Puts the nodes of a formula.
pub(crate) fn put_formula(pool: &mut Pool, f: &Formula) -> Result<NodeId, Memory>
    ensures keeps { Keeps pool.old pool.new }
    ensures made { IfOk result (λ id. IsMade pool.new id (λ chosen. value_of chosen f.now) (clauses_of f.now)) }
    ensures grows { OnOk result (Grows pool.old pool.new (2 * size_of f.now) (reach_of f.now)) }
{
    nodes_keep_their_meaning();
    pool.put_tree(f)
}

/// Puts a node that is true where one of those at some places is.
pub(crate) fn any_of(
    alloc: Global,
    pool: &mut Pool,
    ids: &[NodeId],
    places: &[u32],
) -> Result<NodeId, Memory>
    requires held { All (λ id. id.0 < length pool.old) ids.now }
    requires within { All (λ place. place < length ids.now) places.now }
    ensures keeps { Keeps pool.old pool.new }
    ensures made { IfOk result (λ id. IsMade pool.new id (λ chosen. list_any (λ place. is_true pool.old chosen (node_at ids.now place)) places.now)
        (1 + length places.now + sum_by (λ place. cost pool.old (node_at ids.now place)) places.now)) }
    ensures grows { OnOk result (Grows pool.old pool.new (1 + length places.now) 0) }
{
    let mut parts = Vec::with_capacity(alloc, places.len())?;
    push_nodes(&mut parts, ids, places)?;
    put(pool, PoolNode::Any(Listed::from_vec(parts)))
}

/// Puts a name's node, of its root and the nodes of those that name it.
pub(crate) fn name_node(
    alloc: Global,
    pool: &mut Pool,
    root: NodeId,
    ids: &[NodeId],
    namers: &[u32],
) -> Result<NodeId, Memory>
    requires root { root.0 < length pool.old }
    requires held { All (λ id. id.0 < length pool.old) ids.now }
    requires within { All (λ place. place < length ids.now) namers.now }
    ensures keeps { Keeps pool.old pool.new }
    ensures node { IfOk result (λ id. slice_get pool.new id.0 ≡ Some (node.Any (root ∷ map (node_at ids.now) namers.now))) }
    ensures held { IfOk result (λ id. id.0 < length pool.new) }
    ensures grows { OnOk result (Grows pool.old pool.new (2 + length namers.now) 0) }
{
    let mut parts = Vec::with_capacity(alloc, namers.len())?;
    parts.push(root)?;
    push_nodes(&mut parts, ids, namers)?;
    put(pool, PoolNode::Any(Listed::from_vec(parts)))
}

/// Puts the nodes at some places behind others.
fn push_nodes(parts: &mut Vec<NodeId>, ids: &[NodeId], places: &[u32]) -> Result<(), Memory>
    requires { All (λ place. place < length ids.now) places.now }
    ensures { OnOk result (parts.new.items ≡ parts.old.items ++ map (node_at ids.now) places.now) }
{
    for place in places {
        parts.push(ids[*place as usize])?;
    }
    Ok(())
}
