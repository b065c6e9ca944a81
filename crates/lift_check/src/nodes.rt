//! The nodes by which a document over a registry is judged, in one pool.
ghost use Rattle.std.specs.Prelude.{◌≡◌, IfOk, List, ℕ, map};
ghost use Rattle.doc_tree.specs.Loaded.{IsLoaded, flat_of};
ghost use Rattle.lift_check.specs.Keeping.{node_of};
ghost use Rattle.lift_check.specs.Prepared.{AreHeld, SayAll};

use crate::conditions::{CONSTANTS, Conditions, read_conditions};
use crate::options::read_options;
use crate::permits::{RegistryNodes, put_registry};
use doc_tree::{DocLine, Document};
use lift_nodes::Constants;
use reg_registry::Registry;
use std::alloc::Global;
use vkb_bytes::{Bytes, Memory};
use vkb_formula::{NodeId, Pool};

/// The nodes by which a document over a registry is judged.
#[derive(Drop)]
pub(crate) struct Prepared {
    pub(crate) pool: Pool,
    pub(crate) constants: Constants,
    /// For each line of the document, in order, a node that is true where the line is kept.
    pub(crate) lines: Vec<NodeId>,
    /// For each name of the registry, in order, a node that is true where the closure has it.
    pub(crate) names: Vec<NodeId>,
    /// True at the choices that the registry permits.
    pub(crate) permit: NodeId,
}

/// Puts the nodes of a document's conditions, of a registry's names and of the choices that it permits, where some names are always set. An `Err` is
/// want of memory.
pub(crate) fn prepare(
    alloc: Global,
    d: &Document,
    r: &Registry,
    always: &[Bytes],
) -> Result<Prepared, Memory>
    requires { (text : List ℕ) × IsLoaded text d.now }
    ensures held { IfOk result (AreHeld d.now r.now) }
    ensures say { (text : List ℕ) → IsLoaded text d.now → IfOk result (SayAll always.now r.now (flat_of text d.now)) }
{
    r.is_sound();
    let options = read_options(alloc, d, r, always)?;
    let mut conditions = read_conditions(alloc, d, &options)?;
    let lines = line_nodes(alloc, d.lines.as_slice(), &conditions)?;
    let RegistryNodes { names, permit } = put_registry(alloc, r, &mut conditions.pool)?;
    Ok(Prepared {
        pool: conditions.pool,
        constants: CONSTANTS,
        lines,
        names,
        permit,
    })
}

/// The node of each line, in order.
fn line_nodes(
    alloc: Global,
    lines: &[DocLine],
    conditions: &Conditions,
) -> Result<Vec<NodeId>, Memory>
    ensures { IfOk result (λ nodes. nodes.items ≡ map (node_of conditions.now.nodes) lines.now) }
{
    let mut nodes = Vec::with_capacity(alloc, lines.len())?;
    for line in lines {
        let node = conditions.node_of(line);
        nodes.push(node)?;
    }
    Ok(nodes)
}

#[cfg(test)]
mod tests;
