//! The children of the root, with the numbers of the features so far.
ghost use Rattle.std.specs.Prelude.{◌≡◌, IfOk, [], codes};
ghost use Rattle.std.specs.List.{flat_map};
ghost use Rattle.reg_reader.specs.Views.{elements_in};
ghost use Rattle.reg_forms.specs.Attributes.{children};
ghost use Rattle.reg_forms.specs.Declarations.{command_items, type_items};
ghost use Rattle.reg_forms.specs.Enums.{is_held};
ghost use Rattle.reg_forms.specs.Forms.{child_items, children_items, tag_items, with_items, with_version};
ghost use Rattle.reg_forms.specs.Options.{extension_items, is_feature};

use crate::attributes::{is_named, lists, name_of};
use crate::declarations::{read_command, read_type};
use crate::draft::Draft;
use crate::forms::RowCode;
use crate::groups::read_enums;
use crate::options::{read_extension, read_feature, version_of};
use crate::words::put_wrong;
use reg_reader::Element;
use std::alloc::Global;
use vkb_bytes::Memory;
use vkb_formula::Names;

/// Reads the children of the root.
pub(crate) fn read_children(
    alloc: Global,
    root: &Element,
    api: &[u8],
    enum_types: &Names,
    draft: &mut Draft,
) -> Result<(), Memory>
    ensures { IfOk result (λ _. draft.new
        ≡ with_items draft.old (children_items api.now (is_held enum_types.now) [] (elements_in root.now.content))) }
{
    let mut versions = Vec::new(alloc);
    let mut children = root.children();
    while let Some(next) = children.next() {
        read_child(alloc, &next, api, enum_types, versions.as_slice(), draft)?;
        put_version(alloc, &next, api, &mut versions)?;
    }
    Ok(())
}

/// Reads a child of the root, where the features before it have these numbers.
fn read_child(
    alloc: Global,
    element: &Element,
    api: &[u8],
    enum_types: &Names,
    earlier: &[(u32, u32)],
    draft: &mut Draft,
) -> Result<(), Memory>
    ensures { IfOk result (λ _. draft.new
        ≡ with_items draft.old (child_items api.now (is_held enum_types.now) earlier.now element.now)) }
{
    if is_named(element, b"tags") {
        read_tags(alloc, element, draft)
    } else if is_named(element, b"types") {
        read_types(alloc, element, api, draft)
    } else if is_named(element, b"enums") {
        read_enums(alloc, element, api, enum_types, draft)
    } else if is_named(element, b"commands") {
        read_commands(alloc, element, api, draft)
    } else if is_feature(alloc, element, api)? {
        read_feature(alloc, element, api, enum_types, earlier, draft)
    } else if is_named(element, b"extensions") {
        read_extensions(alloc, element, api, enum_types, draft)
    } else {
        Ok(())
    }
}

/// Whether an element is a feature of the API.
fn is_feature(alloc: Global, element: &Element, api: &[u8]) -> Result<bool, Memory>
    ensures { IfOk result (λ found. found ≡ is_feature api.now element.now) }
{
    if !is_named(element, b"feature") {
        return Ok(false);
    }
    let listed = lists(alloc, element, b"api", api)?;
    Ok(listed)
}

/// Puts the number of an element behind those of the features before it, if it is one.
fn put_version(
    alloc: Global,
    element: &Element,
    api: &[u8],
    versions: &mut Vec<(u32, u32)>,
) -> Result<(), Memory>
    ensures { IfOk result (λ _. versions.new.items ≡ with_version api.now versions.old.items element.now) }
{
    if !is_feature(alloc, element, api)? {
        return Ok(());
    }
    if let Some(version) = version_of(alloc, element)? {
        versions.push(version)?;
    }
    Ok(())
}

/// Reads the tags of a block.
fn read_tags(alloc: Global, element: &Element, draft: &mut Draft) -> Result<(), Memory>
    ensures { IfOk result (λ _. draft.new
        ≡ with_items draft.old (flat_map tag_items (children (codes "tag") element.now))) }
{
    let mut children = element.children();
    while let Some(next) = children.next() {
        if !is_named(&next, b"tag") {
            continue;
        }
        read_tag(alloc, &next, draft)?;
    }
    Ok(())
}

/// Reads a tag.
fn read_tag(alloc: Global, element: &Element, draft: &mut Draft) -> Result<(), Memory>
    ensures { IfOk result (λ _. draft.new ≡ with_items draft.old (tag_items element.now)) }
{
    match name_of(alloc, element)? {
        Some(name) => draft.put_tag(name),
        None => put_wrong(alloc, element, RowCode::BadAttribute, b"name", draft),
    }
}

/// Reads the types of a block.
fn read_types(alloc: Global, element: &Element, api: &[u8], draft: &mut Draft) -> Result<(), Memory>
    ensures { IfOk result (λ _. draft.new
        ≡ with_items draft.old (flat_map (type_items api.now) (children (codes "type") element.now))) }
{
    let mut children = element.children();
    while let Some(next) = children.next() {
        if !is_named(&next, b"type") {
            continue;
        }
        read_type(alloc, &next, api, draft)?;
    }
    Ok(())
}

/// Reads the commands of a block.
fn read_commands(
    alloc: Global,
    element: &Element,
    api: &[u8],
    draft: &mut Draft,
) -> Result<(), Memory>
    ensures { IfOk result (λ _. draft.new
        ≡ with_items draft.old (flat_map (command_items api.now) (children (codes "command") element.now))) }
{
    let mut children = element.children();
    while let Some(next) = children.next() {
        if !is_named(&next, b"command") {
            continue;
        }
        read_command(alloc, &next, api, draft)?;
    }
    Ok(())
}

/// Reads the extensions of a block.
fn read_extensions(
    alloc: Global,
    element: &Element,
    api: &[u8],
    enum_types: &Names,
    draft: &mut Draft,
) -> Result<(), Memory>
    ensures { IfOk result (λ _. draft.new
        ≡ with_items draft.old (flat_map (extension_items api.now (is_held enum_types.now)) (children (codes "extension") element.now))) }
{
    let mut children = element.children();
    while let Some(next) = children.next() {
        if !is_named(&next, b"extension") {
            continue;
        }
        read_extension(alloc, &next, api, enum_types, draft)?;
    }
    Ok(())
}
