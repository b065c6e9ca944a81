//! Blocks of enumerants, and that of the constants.
ghost use Rattle.std.specs.Prelude.{◌≡◌, ◌∷◌, IfOk, [], true, codes};
ghost use Rattle.std.specs.List.{flat_map};
ghost use Rattle.std.specs.Option.{option_map_or};
ghost use Rattle.reg_forms.specs.Attributes.{children};
ghost use Rattle.reg_forms.specs.Enums.{grouped_items, is_lost, enums_items, group_items, group_words, is_held, named_group, shape_of};
ghost use Rattle.reg_forms.specs.Forms.{with_items};
ghost use Rattle.reg_forms.specs.Parts.{is_among};

use crate::attributes::{has_value, is_named};
use crate::draft::Draft;
use crate::enum_attributes::Role;
use crate::enums::read_enum;
use crate::forms::{GroupForm, RowCode};
use crate::words::{put_word_if, put_wrong};
use reg_reader::Element;
use reg_registry::{Shape, is_name};
use std::alloc::Global;
use vkb_bytes::{Bytes, Memory};
use vkb_formula::Names;

/// Reads an `enums` block.
pub(crate) fn read_enums(
    alloc: Global,
    element: &Element,
    api: &[u8],
    enum_types: &Names,
    draft: &mut Draft,
) -> Result<(), Memory>
    ensures { IfOk result (λ _. draft.new
        ≡ with_items draft.old (enums_items api.now (is_held enum_types.now) element.now)) }
{
    match element.attribute(alloc, b"name")? {
        Some(name) => read_named(alloc, element, api, enum_types, name, draft),
        None => put_wrong(alloc, element, RowCode::BadAttribute, b"name", draft),
    }
}

/// Reads a block of a name: of the constants, of an enum type, or of nothing that is declared.
fn read_named(
    alloc: Global,
    element: &Element,
    api: &[u8],
    enum_types: &Names,
    name: Bytes,
    draft: &mut Draft,
) -> Result<(), Memory>
    ensures { IfOk result (λ _. draft.new
        ≡ with_items draft.old (named_group api.now (is_held enum_types.now) element.now name)) }
{
    if name.as_slice() == b"API Constants".as_slice() {
        return read_group(
            alloc,
            element,
            api,
            enum_types,
            name,
            &Role::Constant,
            draft,
        );
    }
    if !is_name(name.as_slice()) {
        return put_wrong(alloc, element, RowCode::BadAttribute, b"name", draft);
    }
    if enum_types.find(name.as_slice()).is_none() {
        return Ok(());
    }
    let of = Bytes::from_slice(alloc, name.as_slice())?;
    read_group(
        alloc,
        element,
        api,
        enum_types,
        name,
        &Role::Base { of },
        draft,
    )
}

/// Reads a block in which each `enum` stands so.
fn read_group(
    alloc: Global,
    element: &Element,
    api: &[u8],
    enum_types: &Names,
    name: Bytes,
    role: &Role,
    draft: &mut Draft,
) -> Result<(), Memory>
    ensures { IfOk result (λ _. draft.new
        ≡ with_items draft.old (group_items api.now (is_held enum_types.now) name role.now element.now)) }
{
    let words = group_words(alloc, element)?;
    if !words.is_empty() {
        return draft.put_bad(element.place(), words);
    }
    let shape = shape_of(alloc, element)?;
    draft.put_group(GroupForm {
        place: element.place(),
        name,
        shape,
    })?;
    read_each(alloc, element, api, enum_types, role, draft)
}

/// Reads each `enum` of a block.
fn read_each(
    alloc: Global,
    element: &Element,
    api: &[u8],
    enum_types: &Names,
    role: &Role,
    draft: &mut Draft,
) -> Result<(), Memory>
    ensures { IfOk result (λ _. draft.new
        ≡ with_items draft.old (flat_map (grouped_items api.now (is_held enum_types.now) role.now) (children (codes "enum") element.now))) }
{
    let mut children = element.children();
    while let Some(next) = children.next() {
        if !is_named(&next, b"enum") {
            continue;
        }
        read_grouped(alloc, &next, api, enum_types, role, draft)?;
    }
    Ok(())
}

/// Reads an `enum` of a block. In that of an enum type what extends no enum type is no enumerant.
fn read_grouped(
    alloc: Global,
    element: &Element,
    api: &[u8],
    enum_types: &Names,
    role: &Role,
    draft: &mut Draft,
) -> Result<(), Memory>
    ensures { IfOk result (λ _. draft.new ≡ with_items draft.old (grouped_items api.now (is_held enum_types.now) role.now element.now)) }
{
    if is_lost(alloc, element, enum_types, role)? {
        return read_enum(alloc, element, api, enum_types, &Role::Lost, None, draft);
    }
    read_enum(alloc, element, api, enum_types, role, None, draft)
}

/// Whether an `enum` of the block of an enum type extends what is no enum type.
fn is_lost(
    alloc: Global,
    element: &Element,
    enum_types: &Names,
    role: &Role,
) -> Result<bool, Memory>
    ensures { IfOk result (λ lost. lost ≡ is_lost (is_held enum_types.now) role.now element.now) }
{
    let Role::Base { .. } = role else {
        return Ok(false);
    };
    match element.attribute(alloc, b"extends")? {
        Some(other) => Ok(enum_types.find(other.as_slice()).is_none()),
        None => Ok(false),
    }
}

/// What is bad in a block.
fn group_words(alloc: Global, element: &Element) -> Result<Vec<Bytes>, Memory>
    ensures { IfOk result (λ words. words.items ≡ group_words element.now) }
{
    let width = element.attribute(alloc, b"bitwidth")?;
    let sort = element.attribute(alloc, b"type")?;
    let mut words = Vec::new(alloc);
    put_word_if(alloc, !is_width(&width), b"bitwidth", &mut words)?;
    put_word_if(alloc, !is_sort(&sort), b"type", &mut words)?;
    Ok(words)
}

/// Whether this is the width of a mask, or none.
fn is_width(text: &Option<Bytes>) -> bool
    ensures { result ≡ option_map_or (is_among (codes "32" ∷ codes "64" ∷ [])) text.now true }
{
    match text {
        Some(text) => text.as_slice() == b"32".as_slice() || text.as_slice() == b"64".as_slice(),
        None => true,
    }
}

/// Whether this is a sort of blocks, or none.
fn is_sort(text: &Option<Bytes>) -> bool
    ensures { result
        ≡ option_map_or (is_among (codes "enum" ∷ codes "bitmask" ∷ codes "constants" ∷ [])) text.now true }
{
    match text {
        Some(text) => {
            text.as_slice() == b"enum".as_slice()
                || text.as_slice() == b"bitmask".as_slice()
                || text.as_slice() == b"constants".as_slice()
        }
        None => true,
    }
}

/// What the values of a block are.
fn shape_of(alloc: Global, element: &Element) -> Result<Shape, Memory>
    ensures { IfOk result (λ shape. shape ≡ shape_of element.now) }
{
    if !has_value(alloc, element, b"type", b"bitmask")? {
        return Ok(Shape::List);
    }
    if has_value(alloc, element, b"bitwidth", b"64")? {
        Ok(Shape::Mask64)
    } else {
        Ok(Shape::Mask32)
    }
}
