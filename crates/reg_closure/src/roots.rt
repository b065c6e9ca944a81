//! For each name a node that says at which choices it is a root.
ghost use Rattle.std.specs.Prelude.{◌+◌, ◌*◌, ◌<◌, ◌≤◌, ◌&&◌, All, IfOk, OnOk, length, map, not, sum_by, true, false};
ghost use Rattle.std.specs.List.{list_any};
ghost use Rattle.vkb_formula.specs.Formulas.{reach_of};
ghost use Rattle.reg_closure.specs.Closure.{is_active, is_root};
ghost use Rattle.reg_closure.specs.Listed.{AreListed, block_lists, block_pairs};
ghost use Rattle.reg_closure.specs.Made.{AreMade, Grows, IsMade, Keeps, block_cost, block_is, block_raise, cost, cost_at, free, is_true, node_at, option_is, root_cost};
ghost use Rattle.reg_closure.specs.Presence.{listed_pairs};

use crate::listed::listing_blocks;
use crate::nodes::{any_of, put, put_formula};
use reg_registry::{Block, Registry};
use std::alloc::Global;
use vkb_bytes::{Listed, Memory};
use vkb_formula::{NodeId, Pool, PoolNode};

/// A node for each name, true where the name is a root.
pub(crate) fn root_nodes(
    alloc: Global,
    r: &Registry,
    pool: &mut Pool,
) -> Result<Vec<NodeId>, Memory>
    ensures keeps { Keeps pool.old pool.new }
    ensures made { IfOk result (λ ids. AreMade (length r.now.names) pool.new ids.items (λ name chosen. is_root r.now.blocks chosen name)
        (root_cost r.now.blocks)) }
    ensures grows { OnOk result (Grows pool.old pool.new
        (length r.now.options + sum_by block_raise r.now.blocks + (7 * length r.now.names + listed_pairs r.now.blocks)) (length r.now.options)) }
{
    let requirers = listing_blocks(alloc, r, true)?;
    let removers = listing_blocks(alloc, r, false)?;
    let options = option_nodes(alloc, pool, r.options().len())?;
    let blocks = block_nodes(alloc, pool, options.as_slice(), r.blocks())?;
    roots_of(
        alloc,
        r,
        pool,
        blocks.as_slice(),
        requirers.as_slice(),
        removers.as_slice(),
    )
}

/// A node for each option.
fn option_nodes(alloc: Global, pool: &mut Pool, count: u32) -> Result<Vec<NodeId>, Memory>
    ensures keeps { Keeps pool.old pool.new }
    ensures made { IfOk result (λ ids. AreMade count pool.new ids.items option_is free) }
    ensures grows { OnOk result (Grows pool.old pool.new count count) }
{
    let mut ids = Vec::new(alloc);
    for option in 0..count {
        let id = put(pool, PoolNode::Var(option))?;
        ids.push(id)?;
    }
    Ok(ids)
}

/// A node for each block, true where it is active.
fn block_nodes(
    alloc: Global,
    pool: &mut Pool,
    options: &[NodeId],
    blocks: &[Block],
) -> Result<Vec<NodeId>, Memory>
    requires options { AreMade (length options.now) pool.old options.now option_is free }
    requires sound { All (λ b. b.owner < length options.now) blocks.now }
    requires reach { All (λ b. reach_of b.depends ≤ length options.now) blocks.now }
    ensures keeps { Keeps pool.old pool.new }
    ensures made { IfOk result (λ ids. AreMade (length blocks.now) pool.new ids.items (block_is blocks.now) (cost_at blocks.now)) }
    ensures grows { OnOk result (Grows pool.old pool.new (sum_by block_raise blocks.now) (length options.now)) }
{
    let mut ids = Vec::new(alloc);
    for block in blocks {
        let id = block_node(alloc, pool, options, block)?;
        ids.push(id)?;
    }
    Ok(ids)
}

/// The node of a block, true where its option is chosen and what it depends on holds.
fn block_node(
    alloc: Global,
    pool: &mut Pool,
    options: &[NodeId],
    block: &Block,
) -> Result<NodeId, Memory>
    requires options { AreMade (length options.now) pool.old options.now option_is free }
    requires owner { block.now.owner < length options.now }
    requires reach { reach_of block.now.depends ≤ length options.now }
    ensures keeps { Keeps pool.old pool.new }
    ensures made { IfOk result (λ id. IsMade pool.new id (λ chosen. is_active chosen block.now) (block_cost block.now)) }
    ensures grows { OnOk result (Grows pool.old pool.new (block_raise block.now) (length options.now)) }
{
    let depends = put_formula(pool, &block.depends)?;
    both(alloc, pool, options[block.owner as usize], depends)
}

/// A node that is true where both of these are.
fn both(alloc: Global, pool: &mut Pool, left: NodeId, right: NodeId) -> Result<NodeId, Memory>
    requires left { left.0 < length pool.old }
    requires right { right.0 < length pool.old }
    ensures keeps { Keeps pool.old pool.new }
    ensures made { IfOk result (λ id. IsMade pool.new id (λ chosen. is_true pool.old chosen left && is_true pool.old chosen right)
        (3 + (cost pool.old left + cost pool.old right))) }
    ensures grows { OnOk result (Grows pool.old pool.new 3 0) }
{
    let parts = vec![in alloc; left, right]?;
    put(pool, PoolNode::All(Listed::from_vec(parts)))
}

/// The roots' nodes, from the nodes of all blocks, and the places of those that require and that remove each name.
fn roots_of(
    alloc: Global,
    r: &Registry,
    pool: &mut Pool,
    blocks: &[NodeId],
    requirers: &[Vec<u32>],
    removers: &[Vec<u32>],
) -> Result<Vec<NodeId>, Memory>
    requires blocks { AreMade (length r.now.blocks) pool.old blocks.now (block_is r.now.blocks) (cost_at r.now.blocks) }
    requires requirers { AreListed (block_lists true) (block_pairs true) (length r.now.names) r.now.blocks (map (λ list. list.items) requirers.now) }
    requires removers { AreListed (block_lists false) (block_pairs false) (length r.now.names) r.now.blocks (map (λ list. list.items) removers.now) }
    ensures keeps { Keeps pool.old pool.new }
    ensures made { IfOk result (λ ids. AreMade (length r.now.names) pool.new ids.items (λ name chosen. is_root r.now.blocks chosen name)
        (root_cost r.now.blocks)) }
    ensures grows { OnOk result (Grows pool.old pool.new (7 * length r.now.names + listed_pairs r.now.blocks) 0) }
{
    r.is_sound();
    let mut ids = Vec::new(alloc);
    for name in 0..r.names().len() {
        let place = name as usize;
        let id = root_node(
            alloc,
            pool,
            blocks,
            requirers[place].as_slice(),
            removers[place].as_slice(),
        )?;
        ids.push(id)?;
    }
    Ok(ids)
}

/// The node of a root, true where one of the blocks that require it is active, and none of those that remove it.
fn root_node(
    alloc: Global,
    pool: &mut Pool,
    blocks: &[NodeId],
    requirers: &[u32],
    removers: &[u32],
) -> Result<NodeId, Memory>
    requires held { All (λ id. id.0 < length pool.old) blocks.now }
    requires requirers { All (λ place. place < length blocks.now) requirers.now }
    requires removers { All (λ place. place < length blocks.now) removers.now }
    ensures keeps { Keeps pool.old pool.new }
    ensures made { IfOk result (λ id. IsMade pool.new id
        (λ chosen. list_any (λ place. is_true pool.old chosen (node_at blocks.now place)) requirers.now
        && not (list_any (λ place. is_true pool.old chosen (node_at blocks.now place)) removers.now))
        (5 + (length requirers.now + sum_by (λ place. cost pool.old (node_at blocks.now place)) requirers.now)
        + (length removers.now + sum_by (λ place. cost pool.old (node_at blocks.now place)) removers.now))) }
    ensures grows { OnOk result (Grows pool.old pool.new (7 + (length requirers.now + length removers.now)) 0) }
{
    let required = any_of(alloc, pool, blocks, requirers)?;
    let removed = any_of(alloc, pool, blocks, removers)?;
    let left = put(pool, PoolNode::Not(removed))?;
    both(alloc, pool, required, left)
}
