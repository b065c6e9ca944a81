//! The node of one id.
ghost use Rattle.std.specs.Prelude.{◌≡◌, ◌*◌, ◌<◌, [], ◌∷◌, not, ◌&&◌, ◌||◌, All, IfOk, if◌then◌else◌, length};
ghost use Rattle.vkb_formula.specs.Pools.{Extends};
ghost use Rattle.lift_nodes.specs.Cases.{AreConstant};
ghost use Rattle.lift_nodes.specs.Giving.{IsPutOver, SaysId, SaysIdSoFar, nodes_over};
ghost use Rattle.lift_nodes.specs.Nodes.{is_true};
ghost use Rattle.lift_nodes.specs.Putting.{IsGrown, places_of};

use crate::Constants;
use crate::ids::Giver;
use crate::putting::{put, put_both, put_either};
use std::alloc::Global;
use vkb_bytes::Memory;
use vkb_formula::{NodeId, Pool, PoolNode, reached_are_the_roots_and_their_parts};

/// A node that is true where the givers leave this id, where one stands before them.
pub(crate) fn put_id_node(
    alloc: Global,
    pool: &mut Pool,
    constants: Constants,
    id: &[u8],
    start: &[u8],
    givers: &[Giver],
) -> Result<NodeId, Memory>
    requires constants { AreConstant pool.old constants }
    requires lines { All (λ giver. giver.line.0 < length pool.old) givers.now }
    ensures before { Extends pool.old pool.new }
    ensures grown { IfOk result (λ node. IsGrown pool.old pool.new (places_of (nodes_over constants givers.now))
        (5 * length givers.now) (3 * length givers.now) (length givers.now)) }
    ensures node { IfOk result (SaysId pool.old pool.new constants id.now start.now givers.now) }
{
    reached_are_the_roots_and_their_parts();
    let node = put_along(alloc, pool, constants, id, start, givers)?;
    // In a pool the parts of each node stand before it.
    let _count = pool.len();
    Ok(node)
}

/// The same, along the givers.
fn put_along(
    alloc: Global,
    pool: &mut Pool,
    constants: Constants,
    id: &[u8],
    start: &[u8],
    givers: &[Giver],
) -> Result<NodeId, Memory>
    requires constants { AreConstant pool.old constants }
    requires lines { All (λ giver. giver.line.0 < length pool.old) givers.now }
    ensures before { Extends pool.old pool.new }
    ensures node { IfOk result (SaysIdSoFar pool.old pool.new constants id.now start.now givers.now (length givers.now)) }
{
    let mut node = constant(constants, id == start);
    for giver in givers {
        node = if id == giver.id.as_slice() {
            put_given(alloc, pool, constants, giver.line, node)?
        } else {
            put_taken(alloc, pool, constants, giver.line, node)?
        };
    }
    Ok(node)
}

/// The node that always has this value.
fn constant(constants: Constants, value: bool) -> NodeId
    ensures { result ≡ if value then constants.always else constants.never }
{
    if value {
        constants.always
    } else {
        constants.never
    }
}

/// A node that is true where the line is kept, and else where it was before.
fn put_given(
    alloc: Global,
    pool: &mut Pool,
    constants: Constants,
    line: NodeId,
    before: NodeId,
) -> Result<NodeId, Memory>
    requires constants { AreConstant pool.old constants }
    requires line { line.0 < length pool.old }
    requires before { before.0 < length pool.old }
    ensures before { Extends pool.old pool.new }
    ensures node { IfOk result (IsPutOver pool.old pool.new (line.0 ∷ before.0 ∷ []) 5 3 1
        (λ set. is_true pool.old set line || is_true pool.old set before)) }
{
    if before == constants.never {
        return Ok(line);
    }
    if before == constants.always {
        return Ok(before);
    }
    let node = put_either(alloc, pool, line, before)?;
    Ok(node)
}

/// A node that is true where the line isn't kept and it was before.
fn put_taken(
    alloc: Global,
    pool: &mut Pool,
    constants: Constants,
    line: NodeId,
    before: NodeId,
) -> Result<NodeId, Memory>
    requires constants { AreConstant pool.old constants }
    requires line { line.0 < length pool.old }
    requires before { before.0 < length pool.old }
    ensures before { Extends pool.old pool.new }
    ensures node { IfOk result (IsPutOver pool.old pool.new (line.0 ∷ before.0 ∷ []) 5 3 1
        (λ set. not (is_true pool.old set line) && is_true pool.old set before)) }
{
    if before == constants.never {
        return Ok(before);
    }
    let isnt = put(pool, PoolNode::Not(line))?;
    if before == constants.always {
        return Ok(isnt);
    }
    let node = put_both(alloc, pool, isnt, before)?;
    Ok(node)
}
