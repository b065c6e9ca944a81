//! Formulas that share their parts, as clauses.
ghost use Rattle.std.specs.Prelude.{◌≡◌, ◌+◌, ◌<◌, ◌≤◌, ℕ, true, [], ◌∷◌, length, map, All, Some, slice_get, IfOk, OnOk, IsErrOf};
ghost use Rattle.vkb_formula.specs.Pools.{reach_at, node_variables, node_clauses};
ghost use Rattle.vkb_formula.specs.Reaches.{IsClosed};
ghost use Rattle.vkb_formula.specs.declared.pool.PoolNode.{PoolNode};
ghost use Rattle.sat_cnf.specs.Encoding.{AreVariablesBelow, IsEncoding, Decides, Passes, PassesWithUnit};
ghost use Rattle.sat_cnf.specs.Coding.{has, AreRising, sum_at, lit_in, IsCoded};

use crate::clauses::Clauses;
use crate::gates::{Table, lits_of, put_node};
use crate::lit::Lit;
use crate::reached::reached;
use crate::sizes::{own_variables, variables_of};
use std::alloc::Global;
use std::collections::HashMap;
use thiserror::Error;
use vkb_formula::{
    Memory, NodeId, Pool, reached_are_the_roots_and_their_parts, values_are_by_parts,
};

/// Why formulas weren't put into clauses.
#[derive(Debug, Drop, Error)]
pub enum CnfFault {
    /// They would take more variables or clauses than may be.
    #[error("too many variables or clauses")]
    Full,
    #[error("out of memory")]
    Memory,
}

impl From<Memory> for CnfFault {
    ghost use Rattle.std.specs.Prelude.{◌≡◌};
    ghost use Rattle.sat_cnf.specs.declared.encoding.CnfFault.TheVariants.{Memory};

    ghost from_gives = { λ _ e. e ≡ Memory };

    fn from(_error: Memory) -> CnfFault {
        CnfFault::Memory
    }
}

/// Clauses that say what nodes of a pool are, and for each of some nodes a literal that has its value: every set of the
/// first `vars` variables extends to one that satisfies all clauses, and in every such extension each literal has the
/// value of its node.
///
/// Each node that the roots lead to counts once, and no other: an `All` or `Any` of n parts takes a variable and n + 1
/// clauses, a constant a variable and a clause, a `Var` or `Not` none. So time and memory are in proportion to what is
/// reached, but for a factor that is the logarithm of its number, and not to the pool.
///
/// `Full` where the number of variables or of clauses passes `most`.
pub fn encode_parts(
    alloc: Global,
    pool: &Pool,
    roots: &[NodeId],
    vars: u32,
    most: u32,
) -> Result<(Clauses, Vec<Lit>), CnfFault>
    requires roots { All (λ root. root.0 < length pool.now) roots.now }
    requires variables { AreVariablesBelow pool.now (map (λ root. root.0) roots.now) vars }
    requires most { most ≤ 16777216 }
    ensures encoding { IfOk result (λ made. IsEncoding pool.now (map (λ root. root.0) roots.now) vars made.0 made.1.items) }
    ensures fits { OnOk result (Passes pool.now (map (λ root. root.0) roots.now) vars most → ⊥) }
    ensures full { IsErrOf result CnfFault.Full → Passes pool.now (map (λ root. root.0) roots.now) vars most }
{
    let places = reached(alloc, pool, roots)?;
    let variables = variables_of(pool, places.as_slice(), vars, most)?;
    let mut clauses = Clauses::new(alloc, variables);
    let table = put_nodes(alloc, &mut clauses, pool, places.as_slice(), vars)?;
    let lits = lits_of(alloc, &table, roots)?;
    Ok((clauses, lits))
}

/// Clauses that say that a node is true: a set of the first `vars` variables gives it the value true exactly where it
/// extends to one that satisfies all clauses.
///
/// `Full` where the number of variables or of clauses passes `most`.
pub fn encode(
    alloc: Global,
    pool: &Pool,
    root: NodeId,
    vars: u32,
    most: u32,
) -> Result<Clauses, CnfFault>
    requires root { root.0 < length pool.now }
    requires variables { AreVariablesBelow pool.now (root.0 ∷ []) vars }
    requires most { most ≤ 16777216 }
    ensures decides { IfOk result (λ clauses. Decides pool.now root.0 vars clauses) }
    ensures fits { OnOk result (PassesWithUnit pool.now root.0 vars most → ⊥) }
    ensures full { IsErrOf result CnfFault.Full → PassesWithUnit pool.now root.0 vars most }
{
    reached_are_the_roots_and_their_parts();
    let (mut clauses, lits) = encode_parts(alloc, pool, &[root], vars, most)?;
    if clauses.len() >= u64::from(most) {
        return Err(CnfFault::Full);
    }
    clauses.push(lits.as_slice())?;
    Ok(clauses)
}

/// Puts the clauses of nodes, each after its parts, and answers the literal of each.
fn put_nodes(
    alloc: Global,
    clauses: &mut Clauses,
    pool: &Pool,
    places: &[u64],
    vars: u32,
) -> Result<Table, Memory>
    requires few { clauses.old.vars ≤ 16777216 }
    requires none { clauses.old.list ≡ [] }
    requires count { clauses.old.vars ≡ vars + sum_at node_variables pool.now places.now }
    requires rising { AreRising places.now }
    requires within { All (λ place. place < length pool.now) places.now }
    requires closed { IsClosed pool.now (has places.now) }
    requires variables { (place : ℕ) (node : PoolNode) → slice_get pool.now place ≡ Some node
        → has places.now place ≡ true → reach_at node ≤ vars }
    ensures variables { OnOk result (clauses.new.vars ≡ clauses.old.vars) }
    ensures clauses { OnOk result (length clauses.new.list ≡ sum_at node_clauses pool.now places.now) }
    ensures coded { IfOk result (λ table. IsCoded pool.now vars places.now (lit_in table) clauses.old.vars clauses.new.list) }
{
    values_are_by_parts();
    // The pool's count says that parts stand before their node.
    let _count = pool.len();
    let mut table = HashMap::new(alloc);
    let mut next = vars;
    for place in places {
        let node = pool.node(NodeId(*place));
        let lit = put_node(alloc, clauses, next, node, &table)?;
        table.insert(*place, lit)?;
        next += own_variables(node);
    }
    Ok(table)
}
