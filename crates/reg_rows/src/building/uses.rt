//! Which blocks list an enumerant.
ghost use Rattle.std.specs.Prelude.{◌≡◌, ◌<◌, ◌∷◌, ◌++◌, [], IfOk, OnOk, length, map, replicate, if◌then◌else◌};
ghost use Rattle.reg_registry.specs.Naming.{most_bytes};
ghost use Rattle.reg_forms.specs.Sizes.{AreSmall};
ghost use Rattle.reg_rows.specs.Built.{AreUses};
ghost use Rattle.reg_rows.specs.Listing.{AreAlways, AreLists, is_end, value_place};

use reg_forms::{EntryForm, Sort};
use reg_tables::Tables;
use std::alloc::Global;
use vkb_bytes::Memory;

/// What is found for the first row of each enumerant, by its place; other rows have nothing.
#[derive(Drop)]
pub(crate) struct Uses {
    /// One of its rows stands in the block of its type.
    pub(crate) always: Vec<bool>,
    /// The places of the blocks that require it.
    pub(crate) required: Vec<Vec<u32>>,
    /// The places of the blocks that remove it.
    pub(crate) removed: Vec<Vec<u32>>,
}

/// The uses of the enumerants of these forms.
pub(crate) fn find_uses(alloc: Global, tables: &Tables) -> Result<Uses, Memory>
    requires { AreSmall most_bytes tables.now }
    ensures { IfOk result (λ uses. AreUses tables.now uses) }
{
    Ok(Uses {
        always: always_there(alloc, tables)?,
        required: block_lists(alloc, tables, true)?,
        removed: block_lists(alloc, tables, false)?,
    })
}

/// Whether a row of each enumerant stands in the block of its type, by the place of its first row.
fn always_there(alloc: Global, tables: &Tables) -> Result<Vec<bool>, Memory>
    ensures { IfOk result (λ always. AreAlways tables.now tables.now.enumerants always.items) }
{
    let rows = tables.forms().enumerants.as_slice();
    let mut always = vec![in alloc; false; rows.len()]?;
    for row in rows {
        if row.base {
            if let Some(place) = tables.enumerant_at(row.name.as_slice()) {
                always[place] = true;
            }
        }
    }
    Ok(always)
}

/// For each enumerant, by the place of its first row, the places of the blocks that require it, or else of those that
/// remove it.
fn block_lists(alloc: Global, tables: &Tables, adds: bool) -> Result<Vec<Vec<u32>>, Memory>
    requires { AreSmall most_bytes tables.now }
    ensures { IfOk result (λ lists.
        AreLists tables.now adds tables.now.entries (map (λ list. list.items) lists.items)) }
{
    let mut lists = empty_lists(alloc, tables.forms().enumerants.as_slice().len())?;
    for entry in tables.forms().entries.as_slice() {
        if let Some(place) = value_place(tables, adds, entry) {
            put_block(&mut lists[place], entry.block as u32)?;
        }
    }
    Ok(lists)
}

/// So many empty lists.
pub(super) fn empty_lists<T: Drop>(alloc: Global, count: usize) -> Result<Vec<Vec<T>>, Memory>
    ensures { IfOk result (λ lists. map (λ list. list.items) lists.items ≡ replicate count []) }
{
    let mut lists = Vec::new(alloc);
    for _ in 0..count {
        lists.push(Vec::new(alloc))?;
    }
    Ok(lists)
}

/// The place of the enumerant that an entry lists, in a block that requires, or else in one that removes.
fn value_place(tables: &Tables, adds: bool, entry: &EntryForm) -> Option<usize>
    requires { entry.now.block < length tables.now.blocks }
    ensures { result ≡ value_place tables.now adds entry.now }
{
    if !matches!(entry.mention.sort, Sort::Value) {
        return None;
    }
    let blocks = tables.forms().blocks.as_slice();
    if blocks[entry.block].adds != adds {
        return None;
    }
    tables.enumerant_at(entry.mention.name.as_slice())
}

/// Puts a block behind others, where it isn't the last of them.
fn put_block(blocks: &mut Vec<u32>, block: u32) -> Result<(), Memory>
    ensures { OnOk result (blocks.new.items
        ≡ (if is_end blocks.old.items block then blocks.old.items else blocks.old.items ++ block ∷ [])) }
{
    if let Some(last) = blocks.last() {
        if *last == block {
            return Ok(());
        }
    }
    blocks.push(block)?;
    Ok(())
}
