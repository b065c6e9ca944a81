//! The blocks of features and extensions.
ghost use Rattle.std.specs.Prelude.{◌≡◌, IfOk};
ghost use Rattle.std.specs.List.{flat_map};
ghost use Rattle.reg_reader.specs.Views.{elements_in};
ghost use Rattle.reg_forms.specs.Enums.{is_held};
ghost use Rattle.reg_forms.specs.Forms.{with_items};
ghost use Rattle.reg_forms.specs.Options.{block_items, blocks_of, named_entry, removed_items, required_items};

use crate::attributes::{counts, is_named, name_of};
use crate::draft::Draft;
use crate::enums::read_required_enum;
use crate::forms::{Mention, RowCode, Sort};
use crate::words::put_wrong;
use reg_reader::Element;
use std::alloc::Global;
use vkb_bytes::Memory;
use vkb_formula::Names;

/// Reads the blocks of a feature, or of an extension of this number.
pub(crate) fn read_blocks(
    alloc: Global,
    element: &Element,
    api: &[u8],
    enum_types: &Names,
    number: Option<u32>,
    draft: &mut Draft,
) -> Result<(), Memory>
    ensures { IfOk result (λ _. draft.new
        ≡ with_items draft.old (blocks_of api.now (is_held enum_types.now) number element.now)) }
{
    let mut children = element.children();
    while let Some(next) = children.next() {
        read_block(alloc, &next, api, enum_types, number, draft)?;
    }
    Ok(())
}

/// Reads a block, if the element is one.
fn read_block(
    alloc: Global,
    element: &Element,
    api: &[u8],
    enum_types: &Names,
    number: Option<u32>,
    draft: &mut Draft,
) -> Result<(), Memory>
    ensures { IfOk result (λ _. draft.new
        ≡ with_items draft.old (block_items api.now (is_held enum_types.now) number element.now)) }
{
    if !counts(alloc, element, api)? {
        return Ok(());
    }
    if is_named(element, b"require") {
        let depends = element.attribute(alloc, b"depends")?;
        draft.open(element.place(), true, depends)?;
        return read_required(alloc, element, api, enum_types, number, draft);
    }
    if is_named(element, b"remove") {
        let depends = element.attribute(alloc, b"depends")?;
        draft.open(element.place(), false, depends)?;
        return read_removed(alloc, element, api, draft);
    }
    Ok(())
}

/// Reads what a block requires.
fn read_required(
    alloc: Global,
    element: &Element,
    api: &[u8],
    enum_types: &Names,
    number: Option<u32>,
    draft: &mut Draft,
) -> Result<(), Memory>
    ensures { IfOk result (λ _. draft.new
        ≡ with_items draft.old (flat_map (required_items api.now (is_held enum_types.now) number) (elements_in element.now.content))) }
{
    let mut children = element.children();
    while let Some(next) = children.next() {
        read_one_required(alloc, &next, api, enum_types, number, draft)?;
    }
    Ok(())
}

/// Reads an element in a `require` block.
fn read_one_required(
    alloc: Global,
    element: &Element,
    api: &[u8],
    enum_types: &Names,
    number: Option<u32>,
    draft: &mut Draft,
) -> Result<(), Memory>
    ensures { IfOk result (λ _. draft.new
        ≡ with_items draft.old (required_items api.now (is_held enum_types.now) number element.now)) }
{
    if is_named(element, b"type") {
        read_entry(alloc, element, api, Sort::Type, draft)
    } else if is_named(element, b"command") {
        read_entry(alloc, element, api, Sort::Command, draft)
    } else if is_named(element, b"enum") {
        read_required_enum(alloc, element, api, enum_types, number, draft)
    } else {
        Ok(())
    }
}

/// Reads what a block removes.
fn read_removed(
    alloc: Global,
    element: &Element,
    api: &[u8],
    draft: &mut Draft,
) -> Result<(), Memory>
    ensures { IfOk result (λ _. draft.new
        ≡ with_items draft.old (flat_map (removed_items api.now) (elements_in element.now.content))) }
{
    let mut children = element.children();
    while let Some(next) = children.next() {
        read_one_removed(alloc, &next, api, draft)?;
    }
    Ok(())
}

/// Reads an element in a `remove` block.
fn read_one_removed(
    alloc: Global,
    element: &Element,
    api: &[u8],
    draft: &mut Draft,
) -> Result<(), Memory>
    ensures { IfOk result (λ _. draft.new ≡ with_items draft.old (removed_items api.now element.now)) }
{
    if is_named(element, b"type") {
        read_entry(alloc, element, api, Sort::Type, draft)
    } else if is_named(element, b"command") {
        read_entry(alloc, element, api, Sort::Command, draft)
    } else if is_named(element, b"enum") {
        read_entry(alloc, element, api, Sort::Value, draft)
    } else {
        Ok(())
    }
}

/// Reads an element that names something of a sort in the block round it.
fn read_entry(
    alloc: Global,
    element: &Element,
    api: &[u8],
    sort: Sort,
    draft: &mut Draft,
) -> Result<(), Memory>
    ensures { IfOk result (λ _. draft.new ≡ with_items draft.old (named_entry api.now sort element.now)) }
{
    if !counts(alloc, element, api)? {
        return Ok(());
    }
    match name_of(alloc, element)? {
        Some(name) => draft.list(Mention {
            place: element.place(),
            name,
            sort,
        }),
        None => put_wrong(alloc, element, RowCode::BadAttribute, b"name", draft),
    }
}
