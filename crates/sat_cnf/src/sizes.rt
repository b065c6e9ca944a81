//! How many variables and clauses the nodes of a pool take.
ghost use Rattle.std.specs.Prelude.{◌≡◌, ◌+◌, ◌<◌, ◌≤◌, ◌⊎◌, length, All, IfOk, OnOk, IsErrOf};
ghost use Rattle.vkb_formula.specs.Pools.{node_variables, node_clauses};
ghost use Rattle.sat_cnf.specs.Coding.{sum_at};

use crate::encoding::CnfFault;
use vkb_formula::{NodeId, Pool, PoolNode};

/// The number of variables where so many stand before those of the nodes at some places.
///
/// `Full` where it, or the number of the nodes' clauses, passes `most`. It takes no memory.
pub(crate) fn variables_of(
    pool: &Pool,
    places: &[u64],
    vars: u32,
    most: u32,
) -> Result<u32, CnfFault>
    requires { All (λ place. place < length pool.now) places.now }
    ensures variables { IfOk result (λ n. n ≡ vars + sum_at node_variables pool.now places.now) }
    ensures few_variables { IfOk result (λ n. n ≤ most) }
    ensures few_clauses { OnOk result (sum_at node_clauses pool.now places.now ≤ most) }
    ensures full { IsErrOf result CnfFault.Full
        → (most < vars + sum_at node_variables pool.now places.now) ⊎ (most < sum_at node_clauses pool.now places.now) }
    ensures no_memory { IsErrOf result CnfFault.Memory → ⊥ }
{
    let most = u64::from(most);
    let mut variables = u64::from(vars);
    let mut clauses: u64 = 0;
    for place in places {
        let node = pool.node(NodeId(*place));
        variables = variables.saturating_add(u64::from(own_variables(node)));
        clauses = clauses.saturating_add(own_clauses(node));
    }
    if variables > most || clauses > most {
        return Err(CnfFault::Full);
    }
    Ok(variables as u32)
}

/// How many variables of its own a node has.
pub(crate) fn own_variables(node: &PoolNode) -> u32
    ensures { result ≡ node_variables node.now }
{
    match node {
        PoolNode::Var(_) | PoolNode::Not(_) => 0,
        _ => 1,
    }
}

/// How many clauses a node takes.
fn own_clauses(node: &PoolNode) -> u64
    ensures { result ≡ node_clauses node.now }
{
    match node {
        PoolNode::Always | PoolNode::Never => 1,
        PoolNode::Not(_) | PoolNode::Var(_) => 0,
        PoolNode::All(parts) | PoolNode::Any(parts) => parts.as_slice().len() as u64 + 1,
    }
}
