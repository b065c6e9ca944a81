//! The blocks of the options.
ghost use Rattle.std.specs.Prelude.{◌≡◌, ◌<◌, ◌≤◌, ◌^◌, ◌++◌, ◌∷◌, [], All, IfOk, length, map, replicate, slice_index_or, slice_set, if◌then◌else◌, Some, None};
ghost use Rattle.reg_registry.specs.Naming.{most_bytes};
ghost use Rattle.reg_forms.specs.Sizes.{AreSmall, NeverFall};
ghost use Rattle.reg_tables.specs.Bits.{Readings};
ghost use Rattle.reg_tables.specs.Tables.{features_in};
ghost use Rattle.reg_tables.specs.Words.{AreReadings};
ghost use Rattle.reg_rows.specs.BuiltParts.{AreLists, ArePlaces, is_mark};
ghost use Rattle.reg_rows.specs.Rows.{block_rows, formula_at, names_in, option_names};

use super::options::formula_at;
use reg_forms::{BlockForm, Forms};
use reg_registry::Block;
use reg_tables::Tables;
use std::alloc::Global;
use vkb_bytes::{Listed, Memory};
use vkb_formula::{NameId, NameTable};

/// The blocks, in their order.
pub(crate) fn blocks(
    alloc: Global,
    tables: &Tables,
    names: &NameTable,
    options: &NameTable,
) -> Result<Vec<Block>, Memory>
    requires small { AreSmall most_bytes tables.now }
    requires names { names.now ≡ names_in tables.now }
    requires options { (readings : Readings) → AreReadings tables.now readings → options.now ≡ option_names tables.now readings }
    ensures { IfOk result (λ blocks. (readings : Readings) → AreReadings tables.now readings → blocks.items ≡ block_rows tables.now readings 0 tables.now.blocks) }
{
    let forms = tables.forms();
    let owners = option_places(alloc, forms)?;
    let mut listed = lists(alloc, forms, names)?;
    let mut made = Vec::new(alloc);
    for (place, block) in forms.blocks.as_slice().iter().enumerate() {
        let own = take_list(alloc, &mut listed, place);
        let owner = owners[block.owner];
        made.push(block_row(alloc, forms, options, block, owner, own)?)?;
    }
    Ok(made)
}

/// The row of a block of this option that lists these names.
fn block_row(
    alloc: Global,
    forms: &Forms,
    options: &NameTable,
    block: &BlockForm,
    owner: u32,
    names: Vec<NameId>,
) -> Result<Block, Memory>
    requires { All (λ text. length text.text < 2 ^ 32) forms.now.texts }
    ensures { IfOk result (λ made. (readings : Readings) → AreReadings forms.now readings → made ≡ record {
      owner = owner;
      depends = formula_at options.now readings block.now.depends;
      adds = block.now.adds;
      lists = names.items;
    }) }
{
    Ok(Block {
        owner,
        depends: formula_at(alloc, forms, options, block.depends)?,
        adds: block.adds,
        lists: Listed::from_vec(names),
    })
}

/// The place among the options of each that stands in the text: features go before extensions.
fn option_places(alloc: Global, forms: &Forms) -> Result<Vec<u32>, Memory>
    requires { length forms.now.options ≤ most_bytes }
    ensures { IfOk result (λ places. ArePlaces forms.now places.items) }
{
    let mut places = Vec::new(alloc);
    let mut features = 0;
    let mut extensions = feature_count(forms);
    for option in forms.options.as_slice() {
        if option.version.is_some() {
            places.push(features)?;
            features += 1;
        } else {
            places.push(extensions)?;
            extensions += 1;
        }
    }
    Ok(places)
}

/// How many features there are.
fn feature_count(forms: &Forms) -> u32
    requires { length forms.now.options ≤ most_bytes }
    ensures { result ≡ length (features_in forms.now) }
{
    let mut count = 0;
    for option in forms.options.as_slice() {
        if option.version.is_some() {
            count += 1;
        }
    }
    count
}

/// The declared names that each block lists, each once.
fn lists(alloc: Global, forms: &Forms, names: &NameTable) -> Result<Vec<Vec<NameId>>, Memory>
    requires within { All (λ entry. entry.block < length forms.now.blocks) forms.now.entries }
    requires rise { NeverFall 0 (map (λ entry. entry.block) forms.now.entries) }
    requires names { names.now ≡ names_in forms.now }
    ensures { IfOk result (λ lists. AreLists forms.now (map (λ list. list.items) lists.items)) }
{
    let mut lists = empty_lists(alloc, forms.blocks.as_slice().len())?;
    // Which block listed each name last, so that none is put in twice.
    let mut listed_by = no_marks(alloc, names.len() as usize)?;
    for entry in forms.entries.as_slice() {
        if let Some(id) = names.find(entry.mention.name.as_slice()) {
            put_once(&mut lists, &mut listed_by, entry.block, id)?;
        }
    }
    Ok(lists)
}

/// So many empty lists.
fn empty_lists(alloc: Global, count: usize) -> Result<Vec<Vec<NameId>>, Memory>
    ensures { IfOk result (λ lists. map (λ list. list.items) lists.items ≡ replicate count []) }
{
    let mut lists = Vec::new(alloc);
    for _ in 0..count {
        lists.push(Vec::new(alloc))?;
    }
    Ok(lists)
}

/// Marks of so many names, none of which was listed.
fn no_marks(alloc: Global, count: usize) -> Result<Vec<Option<usize>>, Memory>
    ensures { IfOk result (λ marks. marks.items ≡ replicate count None) }
{
    Ok(vec![in alloc; None; count]?)
}

/// Puts a name behind others that a block lists, if it isn't the block that listed it last.
fn put_once(
    lists: &mut Vec<Vec<NameId>>,
    listed_by: &mut Vec<Option<usize>>,
    block: usize,
    id: NameId,
) -> Result<(), Memory>
    requires block_in { block < length lists.old.items }
    requires id_in { id.0 < length listed_by.old.items }
    ensures lists { IfOk result (λ _. map (λ list. list.items) lists.new.items
        ≡ if is_mark block (slice_index_or listed_by.old.items id.0 None) then map (λ list. list.items) lists.old.items
        else slice_set (map (λ list. list.items) lists.old.items) block
        (slice_index_or (map (λ list. list.items) lists.old.items) block [] ++ id ∷ [])) }
    ensures listed_by { IfOk result (λ _. listed_by.new.items ≡ slice_set listed_by.old.items id.0 (Some block)) }
{
    let place = id.0 as usize;
    if is_mark(block, listed_by[place]) {
        return Ok(());
    }
    listed_by[place] = Some(block);
    push_at(lists, block, id)
}

/// Whether the block listed a name last.
fn is_mark(block: usize, last: Option<usize>) -> bool
    ensures { result ≡ is_mark block last }
{
    match last {
        Some(other) => other == block,
        None => false,
    }
}

/// Puts a name behind others that a block lists.
fn push_at(lists: &mut Vec<Vec<NameId>>, block: usize, id: NameId) -> Result<(), Memory>
    requires { block < length lists.old.items }
    ensures { IfOk result (λ _. map (λ list. list.items) lists.new.items
        ≡ slice_set (map (λ list. list.items) lists.old.items) block
        (slice_index_or (map (λ list. list.items) lists.old.items) block [] ++ id ∷ [])) }
{
    lists[block].push(id)?;
    Ok(())
}

/// Takes out what a block lists.
fn take_list(alloc: Global, lists: &mut Vec<Vec<NameId>>, place: usize) -> Vec<NameId>
    requires { place < length lists.old.items }
    ensures taken { result.items ≡ slice_index_or (map (λ list. list.items) lists.old.items) place [] }
    ensures others { map (λ list. list.items) lists.new.items
        ≡ slice_set (map (λ list. list.items) lists.old.items) place [] }
{
    std::mem::replace(&mut lists[place], Vec::new(alloc))
}
