//! A node for each declared name, which says at which choices the closure has it.
ghost use Rattle.std.specs.Prelude.{◌≡◌, ◌+◌, ◌<◌, ◌≤◌, All, IfOk, OnOk, length, map, max};
ghost use Rattle.vkb_formula.specs.Pools.{Extends, pool_reach, pool_size};
ghost use Rattle.reg_closure.specs.Made.{AreNamed, AreOrdered, Grows, Keeps, name_raise};
ghost use Rattle.reg_closure.specs.Presence.{KeepBounds, SayPresence, most_raised};

use crate::listed::namers;
use crate::nodes::name_node;
use crate::roots::root_nodes;
use crate::whole::whole_order;
use reg_registry::Registry;
use std::alloc::Global;
use vkb_bytes::Memory;
use vkb_formula::{
    NameId, NodeId, Pool, reached_are_the_roots_and_their_parts, values_are_by_parts,
};

/// A node for each declared name, which says at which choices the closure has it. Each node from before stays at its place, also where memory ran
/// out.
pub fn presence(alloc: Global, r: &Registry, pool: &mut Pool) -> Result<Vec<NodeId>, Memory>
    ensures before { Extends pool.old pool.new }
    ensures presence { IfOk result (λ ids. SayPresence r.now pool.new ids.items) }
    ensures reach { OnOk result (pool_reach pool.new ≤ max (pool_reach pool.old) (length r.now.options)) }
    ensures size { OnOk result (pool_size pool.new ≤ pool_size pool.old + most_raised r.now) }
    ensures bounds { IfOk result (λ ids. KeepBounds r.now pool.new ids.items) }
{
    values_are_by_parts();
    reached_are_the_roots_and_their_parts();
    r.is_sound();
    let order = whole_order(alloc, r)?;
    let table = namers(alloc, r)?;
    let roots = root_nodes(alloc, r, pool)?;
    let ids = name_nodes(
        alloc,
        pool,
        order.as_slice(),
        roots.as_slice(),
        table.as_slice(),
    )?;
    let _count = pool.len();
    Ok(ids)
}

/// The nodes of names, from those of their roots, and from the names that name each. A name's node is put behind those of the names that name it, which
/// stand behind it in the order.
fn name_nodes(
    alloc: Global,
    pool: &mut Pool,
    order: &[NameId],
    roots: &[NodeId],
    table: &[Vec<u32>],
) -> Result<Vec<NodeId>, Memory>
    requires roots { All (λ id. id.0 < length pool.old) roots.now }
    requires count { length table.now ≡ length roots.now }
    requires within { All (λ id. id.0 < length roots.now) order.now }
    requires table { All (λ list. All (λ name. name < length roots.now) list.items) table.now }
    requires behind { AreOrdered (map (λ list. list.items) table.now) (map (λ id. id.0) order.now) }
    ensures keeps { Keeps pool.old pool.new }
    ensures named { IfOk result (λ ids. AreNamed pool.new roots.now ids.items (map (λ list. list.items) table.now) (map (λ id. id.0) order.now)) }
    ensures grows { OnOk result (Grows pool.old pool.new (name_raise (map (λ list. list.items) table.now) (map (λ id. id.0) order.now)) 0) }
{
    let mut ids = Vec::from_slice(alloc, roots)?;
    let mut left = order.len();
    while left > 0 {
        left -= 1;
        let name = order[left].0 as usize;
        let id = name_node(
            alloc,
            pool,
            roots[name],
            ids.as_slice(),
            table[name].as_slice(),
        )?;
        ids[name] = id;
    }
    Ok(ids)
}
