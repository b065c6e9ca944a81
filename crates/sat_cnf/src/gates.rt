//! The clauses of one node: it is true exactly where its parts make it so.
ghost use Rattle.std.specs.Prelude.{◌≡◌, ◌+◌, ◌*◌, ◌<◌, ◌≤◌, ◌++◌, [], ◌∷◌, length, map, All, IfOk, OnOk};
ghost use Rattle.vkb_formula.specs.Pools.{parts_of, reach_at, node_variables};
ghost use Rattle.sat_cnf.specs.Lits.{negation_of};
ghost use Rattle.sat_cnf.specs.Clauses.{IsWithin};
ghost use Rattle.sat_cnf.specs.Coding.{lit_in, gate_clauses, node_lit, node_list};

use crate::clauses::Clauses;
use crate::lit::Lit;
use std::alloc::Global;
use std::collections::HashMap;
use vkb_formula::{Memory, NodeId, PoolNode};

/// The literals of nodes that are done, by their places.
pub(crate) type Table = HashMap<u64, Lit>;

/// The literal of a node that is done.
pub(crate) fn lit_of(table: &Table, place: u64) -> Lit
    ensures { result ≡ lit_in table.now place }
{
    table.get(&place).copied().unwrap_or(Lit(0))
}

/// Puts the clauses of a node, and answers its literal. A node with a variable of its own takes `next`.
pub(crate) fn put_node(
    alloc: Global,
    clauses: &mut Clauses,
    next: u32,
    node: &PoolNode,
    table: &Table,
) -> Result<Lit, Memory>
    requires few { clauses.old.vars ≤ 16777216 }
    requires next { next + node_variables node.now ≤ clauses.old.vars }
    requires variable { reach_at node.now ≤ clauses.old.vars }
    requires parts { All (λ part. IsWithin clauses.old.vars (lit_in table.now part)) (parts_of node.now) }
    ensures list { OnOk result (clauses.new
        ≡ record clauses.old { list = clauses.old.list ++ node_list (lit_in table.now) next node.now }) }
    ensures lit { IfOk result (λ lit. lit ≡ node_lit (lit_in table.now) next node.now) }
{
    match node {
        PoolNode::Always => {
            put_gate(alloc, clauses, Lit(2 * next), &[])?;
            Ok(Lit(2 * next))
        }
        PoolNode::Never => {
            put_gate(alloc, clauses, Lit(2 * next + 1), &[])?;
            Ok(Lit(2 * next))
        }
        PoolNode::Var(variable) => Ok(Lit(2 * *variable)),
        PoolNode::Not(part) => Ok(lit_of(table, part.0).negation()),
        PoolNode::All(parts) => {
            let inputs = lits_of(alloc, table, parts.as_slice())?;
            put_gate(alloc, clauses, Lit(2 * next), inputs.as_slice())?;
            Ok(Lit(2 * next))
        }
        PoolNode::Any(parts) => {
            let inputs = negations_of(alloc, table, parts.as_slice())?;
            put_gate(alloc, clauses, Lit(2 * next + 1), inputs.as_slice())?;
            Ok(Lit(2 * next))
        }
    }
}

/// The literals of nodes.
pub(crate) fn lits_of(alloc: Global, table: &Table, parts: &[NodeId]) -> Result<Vec<Lit>, Memory>
    ensures { IfOk result (λ lits. lits.items ≡ map (λ part. lit_in table.now part.0) parts.now) }
{
    let mut lits = Vec::with_capacity(alloc, parts.len())?;
    for part in parts {
        lits.push(lit_of(table, part.0))?;
    }
    Ok(lits)
}

/// The negations of the literals of nodes.
fn negations_of(alloc: Global, table: &Table, parts: &[NodeId]) -> Result<Vec<Lit>, Memory>
    ensures { IfOk result (λ lits. lits.items ≡ map (λ part. negation_of (lit_in table.now part.0)) parts.now) }
{
    let mut lits = Vec::with_capacity(alloc, parts.len())?;
    for part in parts {
        lits.push(lit_of(table, part.0).negation())?;
    }
    Ok(lits)
}

/// Puts clauses that are true exactly where a literal is what several literals are together.
fn put_gate(alloc: Global, clauses: &mut Clauses, head: Lit, inputs: &[Lit]) -> Result<(), Memory>
    requires head { IsWithin clauses.old.vars head }
    requires inputs { All (IsWithin clauses.old.vars) inputs.now }
    ensures { OnOk result (clauses.new ≡ record clauses.old { list = clauses.old.list ++ gate_clauses head inputs.now }) }
{
    put_pairs(clauses, head, inputs)?;
    let last = with_negations(alloc, head, inputs)?;
    clauses.push(last.as_slice())
}

/// Puts for each of some literals the clause that it is true where the head is.
fn put_pairs(clauses: &mut Clauses, head: Lit, inputs: &[Lit]) -> Result<(), Memory>
    requires head { IsWithin clauses.old.vars head }
    requires inputs { All (IsWithin clauses.old.vars) inputs.now }
    ensures { OnOk result (clauses.new ≡ record clauses.old {
      list = clauses.old.list ++ map (λ input. negation_of head ∷ input ∷ []) inputs.now;
    }) }
{
    for input in inputs {
        clauses.push(&[head.negation(), *input])?;
    }
    Ok(())
}

/// The clause that the head is true where all of some literals are.
fn with_negations(alloc: Global, head: Lit, inputs: &[Lit]) -> Result<Vec<Lit>, Memory>
    ensures { IfOk result (λ clause. clause.items ≡ head ∷ map negation_of inputs.now) }
{
    let mut clause = Vec::new(alloc);
    clause.push(head)?;
    for input in inputs {
        clause.push(input.negation())?;
    }
    Ok(clause)
}
