//! Where each name is listed: by which blocks, and by which names.
ghost use Rattle.std.specs.Prelude.{◌≡◌, ◌<◌, ◌++◌, ◌∷◌, [], All, IfOk, OnOk, length, map, replicate, slice_index_or, slice_set};
ghost use Rattle.reg_registry.specs.Naming.{NoneTwice};
ghost use Rattle.reg_closure.specs.Closure.{has_name};
ghost use Rattle.reg_closure.specs.Listed.{AreListed, PutsUnder, block_lists, block_pairs, row_lists, row_pairs};

use reg_registry::{Block, Registry};
use std::alloc::Global;
use vkb_bytes::Memory;
use vkb_formula::NameId;

/// For each name the places of the blocks that require it, or else of those that remove it.
pub(crate) fn listing_blocks(
    alloc: Global,
    r: &Registry,
    adds: bool,
) -> Result<Vec<Vec<u32>>, Memory>
    ensures { IfOk result (λ table. AreListed (block_lists adds) (block_pairs adds) (length r.now.names) r.now.blocks
        (map (λ list. list.items) table.items)) }
{
    r.is_sound();
    let mut table = empty_table(alloc, r.names().len() as usize)?;
    for (place, block) in r.blocks().iter().enumerate() {
        put_block(&mut table, block, adds, place as u32)?;
    }
    Ok(table)
}

/// For each name the names that name it.
pub(crate) fn namers(alloc: Global, r: &Registry) -> Result<Vec<Vec<u32>>, Memory>
    ensures { IfOk result (λ table. AreListed row_lists row_pairs (length r.now.names) r.now.rows (map (λ list. list.items) table.items)) }
{
    r.is_sound();
    let count = r.names().len();
    let mut table = empty_table(alloc, count as usize)?;
    for name in 0..count {
        let row = r.row(NameId(name));
        put_under(&mut table, row.named.as_slice(), name)?;
    }
    Ok(table)
}

/// A list of nothing for each of so many names.
fn empty_table(alloc: Global, count: usize) -> Result<Vec<Vec<u32>>, Memory>
    ensures { IfOk result (λ table. map (λ list. list.items) table.items ≡ replicate count []) }
{
    let mut table = Vec::new(alloc);
    for _ in 0..count {
        table.push(Vec::new(alloc))?;
    }
    Ok(table)
}

/// Puts the place of a block under each name that it lists, if it is one that requires, or else removes.
fn put_block(table: &mut Vec<Vec<u32>>, block: &Block, adds: bool, place: u32) -> Result<(), Memory>
    requires within { All (λ id. id.0 < length table.old.items) block.now.lists }
    requires once { NoneTwice (map (λ id. id.0) block.now.lists) }
    ensures { OnOk result (PutsUnder place (λ name. block_lists adds name block.now) (block_pairs adds block.now)
        (map (λ list. list.items) table.old.items) (map (λ list. list.items) table.new.items)) }
{
    let wanted = if adds { block.adds } else { !block.adds };
    if !wanted {
        return Ok(());
    }
    put_under(table, block.lists.as_slice(), place)
}

/// Puts a place under each of these names, which differ.
fn put_under(table: &mut Vec<Vec<u32>>, ids: &[NameId], place: u32) -> Result<(), Memory>
    requires within { All (λ id. id.0 < length table.old.items) ids.now }
    requires once { NoneTwice (map (λ id. id.0) ids.now) }
    ensures { OnOk result (PutsUnder place (has_name ids.now) (length ids.now) (map (λ list. list.items) table.old.items)
        (map (λ list. list.items) table.new.items)) }
{
    for id in ids {
        put_at(table, *id, place)?;
    }
    Ok(())
}

/// Puts a place under a name.
fn put_at(table: &mut Vec<Vec<u32>>, id: NameId, place: u32) -> Result<(), Memory>
    requires { id.0 < length table.old.items }
    ensures { OnOk result (map (λ list. list.items) table.new.items
        ≡ slice_set (map (λ list. list.items) table.old.items) id.0
        (slice_index_or (map (λ list. list.items) table.old.items) id.0 [] ++ place ∷ [])) }
{
    table[id.0 as usize].push(place)?;
    Ok(())
}
