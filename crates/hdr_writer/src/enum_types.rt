//! Enum types: what stands before and behind their values, and the line of each value.
ghost use Rattle.std.specs.Prelude.{◌≡◌, ◌<◌, ◌++◌, IfOk, OnOk, Some, length, slice_get};
ghost use Rattle.reg_registry.specs.declared.registry.Enumerant.{Enumerant};
ghost use Rattle.hdr_writer.specs.EnumTypes.{back_of, enum_type, front_of, value_line, value_text};
ghost use Rattle.hdr_writer.specs.Frames.{IsEnumType, back_at, front_at, line_at, values_of};

use crate::lines::put_line;
use crate::max_names::max_name;
use crate::numbers::number_text;
use crate::values::put_values;
use reg_registry::{Enumerant, Registry, Row, Shape};
use std::alloc::Global;
use vkb_bytes::{Bytes, Memory};
use vkb_formula::NameId;

/// What stands before the lines of the values of an enum type and behind them, whatever is chosen.
pub fn frame(alloc: Global, r: &Registry, name: NameId) -> Result<(Bytes, Bytes), Memory>
    requires held { name.0 < length r.now.names }
    requires is_enum_type { IsEnumType r.now name }
    ensures front { IfOk result (λ frame. frame.0 ≡ front_at r.now name) }
    ensures back { IfOk result (λ frame. frame.1 ≡ back_at r.now name) }
{
    let shape = r.row(name).shape;
    let bytes = r.names().name(name);
    let mut front = Vec::new(alloc);
    put_front(&mut front, shape, bytes)?;
    let mut back = Vec::new(alloc);
    put_back(alloc, &mut back, r.tags(), shape, bytes)?;
    Ok((Bytes::from_vec(front), Bytes::from_vec(back)))
}

/// The line that the value at a place of an enum type has wherever it stands.
pub fn value_line(alloc: Global, r: &Registry, name: NameId, place: u32) -> Result<Bytes, Memory>
    requires held { name.0 < length r.now.names }
    requires is_enum_type { IsEnumType r.now name }
    requires has_value { place < length (values_of r.now name) }
    ensures { IfOk result (λ line. (e : Enumerant) → slice_get (values_of r.now name) place ≡ Some e → line ≡ line_at r.now name e) }
{
    let row = r.row(name);
    let mut text = Vec::new(alloc);
    put_value_line(
        alloc,
        &mut text,
        row.shape,
        r.names().name(name),
        &row.values.as_slice()[place as usize],
    )?;
    Ok(Bytes::from_vec(text))
}

/// Puts the declaration of an enum type behind a text.
pub(crate) fn put_enum_type(
    alloc: Global,
    text: &mut Vec<u8>,
    tags: &[Bytes],
    active: &[bool],
    name: &[u8],
    row: &Row,
) -> Result<(), Memory>
    ensures { OnOk result (text.new.items ≡ text.old.items ++ enum_type tags.now active.now row.now.shape name.now row.now.values) }
{
    put_front(text, row.shape, name)?;
    put_values(alloc, text, active, row.shape, name, row.values.as_slice())?;
    put_back(alloc, text, tags, row.shape, name)
}

/// Puts what stands before the values behind a text.
fn put_front(text: &mut Vec<u8>, shape: Shape, name: &[u8]) -> Result<(), Memory>
    ensures { OnOk result (text.new.items ≡ text.old.items ++ front_of shape name.now) }
{
    match shape {
        Shape::Mask64 => put_line(text, &[b"typedef VkFlags64 ", name, b";"]),
        Shape::Mask32 | Shape::List | Shape::Plain => {
            put_line(text, &[b"typedef enum ", name, b" {"])
        }
    }
}

/// Puts what stands behind the values behind a text.
fn put_back(
    alloc: Global,
    text: &mut Vec<u8>,
    tags: &[Bytes],
    shape: Shape,
    name: &[u8],
) -> Result<(), Memory>
    ensures { OnOk result (text.new.items ≡ text.old.items ++ back_of shape tags.now name.now) }
{
    match shape {
        Shape::Mask64 => Ok(()),
        Shape::Mask32 | Shape::List | Shape::Plain => {
            let greatest = max_name(alloc, tags, name)?;
            put_line(text, &[b"    ", greatest.as_slice(), b" = 0x7FFFFFFF"])?;
            put_line(text, &[b"} ", name, b";"])
        }
    }
}

/// Puts the line of a value behind a text.
pub(crate) fn put_value_line(
    alloc: Global,
    text: &mut Vec<u8>,
    shape: Shape,
    name: &[u8],
    value: &Enumerant,
) -> Result<(), Memory>
    ensures { OnOk result (text.new.items ≡ text.old.items ++ value_line shape name.now value.now) }
{
    match shape {
        Shape::Mask64 => {
            let number = number_text(alloc, shape, value.number)?;
            put_line(
                text,
                &[
                    b"static const ",
                    name,
                    b" ",
                    value.name.as_slice(),
                    b" = ",
                    number.as_slice(),
                    b";",
                ],
            )
        }
        Shape::Mask32 | Shape::List | Shape::Plain => {
            let told = value_text(alloc, shape, value)?;
            put_line(
                text,
                &[
                    b"    ",
                    value.name.as_slice(),
                    b" = ",
                    told.as_slice(),
                    b",",
                ],
            )
        }
    }
}

/// The number of a value, or the name at the end of an alias.
fn value_text(alloc: Global, shape: Shape, value: &Enumerant) -> Result<Bytes, Memory>
    ensures { IfOk result (λ text. text ≡ value_text shape value.now value.now.end) }
{
    match &value.end {
        None => number_text(alloc, shape, value.number),
        Some(end) => {
            let copy = Bytes::from_slice(alloc, end.as_slice())?;
            Ok(copy)
        }
    }
}
