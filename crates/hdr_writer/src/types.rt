//! Types that are no aliases.
ghost use Rattle.std.specs.Prelude.{◌≡◌, ◌++◌, ◌∷◌, [], OnOk, codes};
ghost use Rattle.std.specs.List.{flat_map};
ghost use Rattle.hdr_writer.specs.Declarations.{aggregate, include, own_type};
ghost use Rattle.hdr_writer.specs.Lines.{line};

use crate::enum_types::put_enum_type;
use crate::functions::put_func_pointer;
use crate::lines::put_line;
use reg_registry::{Kind, Member, Registry, Row};
use std::alloc::Global;
use vkb_bytes::Memory;

/// Puts the declaration of a type that is no alias behind a text.
pub(crate) fn put_type(
    alloc: Global,
    text: &mut Vec<u8>,
    r: &Registry,
    active: &[bool],
    name: &[u8],
    row: &Row,
) -> Result<(), Memory>
    ensures { OnOk result (text.new.items ≡ text.old.items ++ own_type r.now active.now name.now row.now row.now.kind) }
{
    match row.kind {
        Kind::Include => put_include(text, name, row.text.as_slice()),
        Kind::Define | Kind::Base | Kind::Bitmask | Kind::Handle => {
            put_line(text, &[row.text.as_slice()])
        }
        Kind::EnumType => put_enum_type(alloc, text, r.tags(), active, name, row),
        Kind::FuncPointer => put_func_pointer(alloc, text, name, row),
        Kind::Struct => put_aggregate(text, b"struct", name, row.members.as_slice()),
        Kind::Union => put_aggregate(text, b"union", name, row.members.as_slice()),
        Kind::External | Kind::Constant | Kind::Command => Ok(()),
    }
}

/// Puts an include behind a text, by its text or, where that is empty, by its name.
fn put_include(text: &mut Vec<u8>, name: &[u8], own: &[u8]) -> Result<(), Memory>
    ensures { OnOk result (text.new.items ≡ text.old.items ++ include name.now own.now) }
{
    if own.is_empty() {
        put_line(text, &[b"#include <", name, b">"])
    } else {
        put_line(text, &[own])
    }
}

/// Puts a struct or a union behind a text.
fn put_aggregate(
    text: &mut Vec<u8>,
    word: &[u8],
    name: &[u8],
    members: &[Member],
) -> Result<(), Memory>
    ensures { OnOk result (text.new.items ≡ text.old.items ++ aggregate word.now name.now members.now) }
{
    put_line(text, &[b"typedef ", word, b" ", name, b" {"])?;
    put_members(text, members)?;
    put_line(text, &[b"} ", name, b";"])
}

/// Puts the lines of members behind a text.
fn put_members(text: &mut Vec<u8>, members: &[Member]) -> Result<(), Memory>
    ensures { OnOk result (text.new.items
        ≡ text.old.items ++ flat_map (λ m. line (codes "    " ∷ m.text ∷ codes ";" ∷ [])) members.now) }
{
    for member in members {
        put_line(text, &[b"    ", member.text.as_slice(), b";"])?;
    }
    Ok(())
}
