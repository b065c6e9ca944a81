ghost use Rattle.std.specs.Prelude.{◌≡◌, ◌+◌, ◌<◌, ◌≤◌, ◌∷◌, [], max, map, length, All, IfOk, OnOk};
ghost use Rattle.vkb_formula.specs.Pools.{parts_of, pool_reach, reach_at};

use sat_cnf::{Clauses, CnfFault, Memory, encode};
use std::alloc::Global;
use vkb_bytes::Listed;
use vkb_formula::{NodeId, Pool, PoolNode, values_are_by_parts};

/// The most variables and clauses.
const MOST_CLAUSES: u32 = 16_777_216;

/// So many nodes: a variable, and above it nodes each of which leads to the one before it.
pub(crate) fn tower(alloc: Global, count: u64) -> Result<Pool, Memory>
    requires some { 0 < count }
    requires most { count ≤ 4000000 }
    ensures { IfOk result (λ pool. (length pool ≡ count) × (pool_reach pool ≤ 1)) }
{
    let mut pool = Pool::new(alloc);
    put(&mut pool, PoolNode::Var(0))?;
    for below in 0..count - 1 {
        put(&mut pool, node_above(alloc, below)?)?;
    }
    Ok(pool)
}

/// Puts a node last. Of the pool only its length and its reach are told.
fn put(pool: &mut Pool, node: PoolNode) -> Result<(), Memory>
    requires { All (λ part. part < length pool.old) (parts_of node) }
    ensures count { OnOk result (length pool.new ≡ length pool.old + 1) }
    ensures reach { OnOk result (pool_reach pool.new ≡ max (pool_reach pool.old) (reach_at node)) }
{
    pool.put(node)?;
    Ok(())
}

/// The node behind a place: one in ten a `Not`, and else an `All` or an `Any`, in turn, of the node at the place and one
/// half as far.
fn node_above(alloc: Global, below: u64) -> Result<PoolNode, Memory>
    ensures parts { IfOk result (λ node. All (λ part. part ≤ below) (parts_of node)) }
    ensures reach { IfOk result (λ node. reach_at node ≡ 0) }
{
    if below % 10 == 9 {
        return Ok(PoolNode::Not(NodeId(below)));
    }
    let parts = pair(alloc, below, below / 2)?;
    if below % 2 == 0 {
        Ok(PoolNode::All(parts))
    } else {
        Ok(PoolNode::Any(parts))
    }
}

/// Two nodes.
fn pair(alloc: Global, first: u64, second: u64) -> Result<Listed<NodeId>, Memory>
    ensures { IfOk result (λ parts. All (λ part. part ≤ max first second) (map (λ part. part.0) parts)) }
{
    let mut parts = Vec::with_capacity(alloc, 2)?;
    parts.push(NodeId(first))?;
    parts.push(NodeId(second))?;
    Ok(Listed::from_vec(parts))
}

/// The clauses of the last node of a pool of one variable.
pub(crate) fn encoded(alloc: Global, pool: &Pool) -> Result<Clauses, CnfFault>
    requires some { 0 < length pool.now }
    requires reach { pool_reach pool.now ≤ 1 }
{
    values_are_by_parts();
    encode(alloc, pool, NodeId(pool.len() - 1), 1, MOST_CLAUSES)
}
