//! Which values stand at a choice.
ghost use Rattle.std.specs.Prelude.{◌≡◌, ◌<◌, ◌≤◌, ◌++◌, All, IfOk, List, OnOk, filter, is_some, length, ℕ};
ghost use Rattle.std.specs.List.{flat_map, list_any};
ghost use Rattle.vkb_formula.specs.Formulas.{reach_of};
ghost use Rattle.vkb_formula.specs.Names.{place_of};
ghost use Rattle.reg_closure.specs.Closure.{is_active};
ghost use Rattle.hdr_writer.specs.EnumTypes.{value_line};
ghost use Rattle.hdr_writer.specs.Values.{active_blocks, is_active_at, is_end, is_left, stands, stands_as_alias, values_at};

use crate::enum_types::put_value_line;
use reg_registry::{Block, Enumerant, Registry, Shape};
use std::alloc::Global;
use vkb_bytes::Memory;
use vkb_formula::Names;

/// For each block whether it is active.
pub(crate) fn active_blocks(
    alloc: Global,
    r: &Registry,
    chosen: &[bool],
) -> Result<Vec<bool>, Memory>
    requires { length chosen.now ≡ length r.now.options }
    ensures { IfOk result (λ active. active.items ≡ active_blocks r.now.blocks chosen.now) }
{
    let mut active = Vec::new(alloc);
    for block in r.blocks() {
        active.push(is_active(block, chosen))?;
    }
    Ok(active)
}

/// Whether a block is active.
fn is_active(block: &Block, chosen: &[bool]) -> bool
    requires owner { block.now.owner < length chosen.now }
    requires reach { reach_of block.now.depends ≤ length chosen.now }
    ensures { result ≡ is_active chosen.now block.now }
{
    chosen[block.owner as usize] && block.depends.value(chosen)
}

/// Puts the lines of the values that stand where these blocks are active behind a text. The time is linear in the values and the blocks that
/// these list.
pub(crate) fn put_values(
    alloc: Global,
    text: &mut Vec<u8>,
    active: &[bool],
    shape: Shape,
    name: &[u8],
    values: &[Enumerant],
) -> Result<(), Memory>
    ensures { OnOk result (text.new.items ≡ text.old.items ++ flat_map (value_line shape name.now) (values_at active.now values.now)) }
{
    let ends = ends_of(alloc, active, values)?;
    put_plain_values(alloc, text, active, &ends, shape, name, values)?;
    put_aliases(alloc, text, active, shape, name, values)
}

/// The names at the ends of the chains of the aliases that are left.
fn ends_of(alloc: Global, active: &[bool], values: &[Enumerant]) -> Result<Names, Memory>
    ensures { IfOk result (λ ends. (name : List ℕ) → is_some (place_of name ends) ≡ is_end active.now values.now name) }
{
    let mut ends = Names::new(alloc);
    for value in values {
        if let Some(end) = &value.end {
            if is_left(active, value) {
                ends.intern(end.as_slice())?;
            }
        }
    }
    Ok(ends)
}

/// Puts the lines of the values that are no aliases and stand.
fn put_plain_values(
    alloc: Global,
    text: &mut Vec<u8>,
    active: &[bool],
    ends: &Names,
    shape: Shape,
    name: &[u8],
    values: &[Enumerant],
) -> Result<(), Memory>
    requires { (name : List ℕ) → is_some (place_of name ends.now) ≡ is_end active.now values.now name }
    ensures { OnOk result (text.new.items
        ≡ text.old.items ++ flat_map (value_line shape name.now) (filter (stands active.now values.now) values.now)) }
{
    for value in values {
        if value.end.is_none()
            && (is_left(active, value) || ends.find(value.name.as_slice()).is_some())
        {
            put_value_line(alloc, text, shape, name, value)?;
        }
    }
    Ok(())
}

/// Puts the lines of the aliases that are left.
fn put_aliases(
    alloc: Global,
    text: &mut Vec<u8>,
    active: &[bool],
    shape: Shape,
    name: &[u8],
    values: &[Enumerant],
) -> Result<(), Memory>
    ensures { OnOk result (text.new.items
        ≡ text.old.items ++ flat_map (value_line shape name.now) (filter (stands_as_alias active.now) values.now)) }
{
    for value in values {
        if value.end.is_some() && is_left(active, value) {
            put_value_line(alloc, text, shape, name, value)?;
        }
    }
    Ok(())
}

/// Whether a value stands in the block of its type or an active block requires it, and none removes it.
fn is_left(active: &[bool], value: &Enumerant) -> bool
    ensures { result ≡ is_left active.now value.now }
{
    (value.always || any_active(active, value.required.as_slice()))
        && !any_active(active, value.removed.as_slice())
}

/// Whether one of the blocks at these places is active.
fn any_active(active: &[bool], places: &[u32]) -> bool
    ensures { result ≡ list_any (is_active_at active.now) places.now }
{
    for place in places {
        if is_active_at(active, *place) {
            return true;
        }
    }
    false
}

/// Whether the block at a place is active.
fn is_active_at(active: &[bool], place: u32) -> bool
    ensures { result ≡ is_active_at active.now place }
{
    match active.get(place as usize) {
        Some(is_active) => *is_active,
        None => false,
    }
}
