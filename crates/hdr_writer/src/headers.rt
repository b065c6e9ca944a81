//! The header.
ghost use Rattle.std.specs.Prelude.{◌≡◌, ◌<◌, ◌++◌, All, Bool, IfOk, List, OnOk, filter, length, not};
ghost use Rattle.std.specs.List.{flat_map};
ghost use Rattle.hdr_writer.specs.Declarations.{declaration_with};
ghost use Rattle.hdr_writer.specs.Headers.{defines, header, is_command, is_defined, prologue};

use crate::chains::{end_from, no_ends};
use crate::declarations::put_declaration;
use crate::functions::put_command;
use crate::lines::put_line;
use crate::values::active_blocks;
use reg_registry::{Choice, Kind, Registry};
use std::alloc::Global;
use vkb_bytes::{Bytes, Memory};
use vkb_formula::NameId;

/// The header at a choice with the declarations of these names, those of commands behind all others.
pub fn header(alloc: Global, r: &Registry, c: &Choice, order: &[NameId]) -> Result<Bytes, Memory>
    requires chosen { length c.now.chosen.items ≡ length r.now.options }
    requires held { All (λ id. id.0 < length r.now.names) order.now }
    ensures { IfOk result (λ text. text ≡ header r.now c.now.chosen.items order.now) }
{
    let active = active_blocks(alloc, r, c.chosen.as_slice())?;
    let mut text = Vec::new(alloc);
    put_prologue(&mut text)?;
    put_defines(&mut text, r, c.chosen.as_slice())?;
    put_types(alloc, &mut text, r, active.as_slice(), order)?;
    put_commands(alloc, &mut text, r, order)?;
    put_line(&mut text, &[b"#endif"])?;
    Ok(Bytes::from_vec(text))
}

/// Puts the first two lines behind a text.
fn put_prologue(text: &mut Vec<u8>) -> Result<(), Memory>
    ensures { OnOk result (text.new.items ≡ text.old.items ++ prologue) }
{
    put_line(text, &[b"#ifndef VULKAN_CORE_H_"])?;
    put_line(text, &[b"#define VULKAN_CORE_H_ 1"])
}

/// Puts a line for each chosen feature and extension behind a text.
fn put_defines(text: &mut Vec<u8>, r: &Registry, chosen: &[bool]) -> Result<(), Memory>
    requires { length chosen.now ≡ length r.now.options }
    ensures { OnOk result (text.new.items ≡ text.old.items ++ defines r.now chosen.now) }
{
    for place in 0..r.options().len() {
        if is_defined(r, chosen, place) {
            put_line(text, &[b"#define ", r.options().name(NameId(place)), b" 1"])?;
        }
    }
    Ok(())
}

/// Whether an option is chosen and no bit.
fn is_defined(r: &Registry, chosen: &[bool], place: u32) -> bool
    requires chosen { length chosen.now ≡ length r.now.options }
    requires held { place < length r.now.options }
    ensures { result ≡ is_defined r.now chosen.now place }
{
    chosen[place as usize] && r.option(place).bit.is_none()
}

/// Puts the declarations of those names behind a text that are no commands.
fn put_types(
    alloc: Global,
    text: &mut Vec<u8>,
    r: &Registry,
    active: &[bool],
    order: &[NameId],
) -> Result<(), Memory>
    requires { All (λ id. id.0 < length r.now.names) order.now }
    ensures { OnOk result (text.new.items
        ≡ text.old.items ++ flat_map (declaration_with r.now active.now) (filter (λ id. not (is_command r.now id)) order.now)) }
{
    for id in order {
        if !is_command(r, *id) {
            put_declaration(alloc, text, r, active, *id)?;
        }
    }
    Ok(())
}

/// Puts the declarations of those names behind a text that are commands, whatever blocks are active. Each chain of aliases is followed once.
fn put_commands(
    alloc: Global,
    text: &mut Vec<u8>,
    r: &Registry,
    order: &[NameId],
) -> Result<(), Memory>
    requires { All (λ id. id.0 < length r.now.names) order.now }
    ensures { OnOk result ((active : List Bool) → text.new.items
        ≡ text.old.items ++ flat_map (declaration_with r.now active) (filter (is_command r.now) order.now)) }
{
    let mut ends = no_ends(alloc, r)?;
    for id in order {
        if is_command(r, *id) {
            let end = end_from(r, &mut ends, *id);
            put_command(alloc, text, r.names().name(*id), r.row(end))?;
        }
    }
    Ok(())
}

/// Whether a name is a command.
fn is_command(r: &Registry, id: NameId) -> bool
    requires { id.0 < length r.now.names }
    ensures { result ≡ is_command r.now id }
{
    matches!(r.row(id).kind, Kind::Command)
}
