//! Declarations by kind.
ghost use Rattle.std.specs.Prelude.{◌≡◌, ◌<◌, ◌++◌, ◌∷◌, [], IfOk, IfSome, OnOk, codes, length};
ghost use Rattle.std.specs.Option.{option_map_or};
ghost use Rattle.hdr_writer.specs.Declarations.{any_type, declaration, declaration_with, name_at};
ghost use Rattle.hdr_writer.specs.Lines.{line};

use crate::chains::end_at;
use crate::functions::put_command;
use crate::lines::put_line;
use crate::types::put_type;
use crate::values::active_blocks;
use reg_registry::{Choice, Kind, Registry, Row};
use std::alloc::Global;
use vkb_bytes::{Bytes, Memory};
use vkb_formula::NameId;

/// The declaration of a name at a choice, which is empty for a type that the registry doesn't define.
pub fn declare(alloc: Global, r: &Registry, c: &Choice, name: NameId) -> Result<Bytes, Memory>
    requires chosen { length c.now.chosen.items ≡ length r.now.options }
    requires held { name.0 < length r.now.names }
    ensures { IfOk result (λ text. text ≡ declaration r.now c.now.chosen.items name) }
{
    let active = active_blocks(alloc, r, c.chosen.as_slice())?;
    let mut text = Vec::new(alloc);
    put_declaration(alloc, &mut text, r, active.as_slice(), name)?;
    Ok(Bytes::from_vec(text))
}

/// Puts the declaration of a name where these blocks are active behind a text.
pub(crate) fn put_declaration(
    alloc: Global,
    text: &mut Vec<u8>,
    r: &Registry,
    active: &[bool],
    id: NameId,
) -> Result<(), Memory>
    requires { id.0 < length r.now.names }
    ensures { OnOk result (text.new.items ≡ text.old.items ++ declaration_with r.now active.now id) }
{
    let row = r.row(id);
    let name = r.names().name(id);
    match row.kind {
        Kind::External => Ok(()),
        Kind::Constant => put_constant(text, r, name, row),
        Kind::Command => put_command(alloc, text, name, r.row(end_at(r, id))),
        _ => put_any_type(alloc, text, r, active, name, row),
    }
}

/// Puts a constant behind a text.
fn put_constant(text: &mut Vec<u8>, r: &Registry, name: &[u8], row: &Row) -> Result<(), Memory>
    requires { IfSome row.now.alias (λ id. id.0 < length r.now.names) }
    ensures { OnOk result (text.new.items
        ≡ text.old.items ++ line (codes "#define " ∷ name.now ∷ codes " " ∷ option_map_or (name_at r.now.names) row.now.alias row.now.text ∷ [])) }
{
    match row.alias {
        Some(other) => put_line(text, &[b"#define ", name, b" ", r.names().name(other)]),
        None => put_line(text, &[b"#define ", name, b" ", row.text.as_slice()]),
    }
}

/// Puts a type that the registry defines behind a text.
fn put_any_type(
    alloc: Global,
    text: &mut Vec<u8>,
    r: &Registry,
    active: &[bool],
    name: &[u8],
    row: &Row,
) -> Result<(), Memory>
    requires { IfSome row.now.alias (λ id. id.0 < length r.now.names) }
    ensures { OnOk result (text.new.items ≡ text.old.items ++ any_type r.now active.now name.now row.now row.now.alias) }
{
    match row.alias {
        Some(other) => put_line(
            text,
            &[b"typedef ", r.names().name(other), b" ", name, b";"],
        ),
        None => put_type(alloc, text, r, active, name, row),
    }
}
