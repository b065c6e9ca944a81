//! Which names a registry declares at each choice, and which choices it permits, as nodes of a pool.
ghost use Rattle.std.specs.Prelude.{IfOk};
ghost use Rattle.lift_check.specs.Permits.{AreOfRegistry};

use crate::Memory;
use reg_closure::presence;
use reg_permit::permit_node;
use reg_registry::Registry;
use std::alloc::Global;
use vkb_formula::{NodeId, Pool, nodes_keep_their_meaning};

/// The nodes of a registry.
#[derive(Drop)]
pub(crate) struct RegistryNodes {
    /// For each name, in order, a node that is true where the closure has it.
    pub(crate) names: Vec<NodeId>,
    /// True at the choices that are permitted.
    pub(crate) permit: NodeId,
}

/// Puts the nodes of a registry behind those of a pool. An `Err` is want of memory.
pub(crate) fn put_registry(
    alloc: Global,
    r: &Registry,
    pool: &mut Pool,
) -> Result<RegistryNodes, Memory>
    ensures { IfOk result (AreOfRegistry r.now pool.old pool.new) }
{
    // The nodes from before keep their values.
    nodes_keep_their_meaning();
    let names = presence(alloc, r, pool)?;
    let permit = permit_node(alloc, r, names.as_slice(), pool)?;
    Ok(RegistryNodes { names, permit })
}
