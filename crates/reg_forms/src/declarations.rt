//! Types and commands.
ghost use Rattle.std.specs.Prelude.{◌≡◌, ◌∷◌, [], Some, None, true, codes, map, IfOk};
ghost use Rattle.reg_forms.specs.Attributes.{child, counts, value_of};
ghost use Rattle.reg_forms.specs.Declarations.{command_items, kind_named, kind_of, name_in_text, type_items, type_name};
ghost use Rattle.reg_forms.specs.Forms.{with_items};
ghost use Rattle.reg_forms.specs.Items.{Item, bad_at};

use crate::attributes::{child, counts, has, name_in, name_of};
use crate::draft::Draft;
use crate::forms::{Fault, Mention, RowCode};
use crate::parts::{name_inside, proto_in, read_parts};
use crate::rows::{alias_row, command_alias_row, plain_command_row, plain_mentions, plain_row};
use reg_reader::Element;
use reg_registry::Kind;
use std::alloc::Global;
use vkb_bytes::{Bytes, Memory};

/// Reads a type.
pub(crate) fn read_type(
    alloc: Global,
    element: &Element,
    api: &[u8],
    draft: &mut Draft,
) -> Result<(), Memory>
    ensures { IfOk result (λ _. draft.new ≡ with_items draft.old (type_items api.now element.now)) }
{
    if !counts(alloc, element, api)? {
        return Ok(());
    }
    match kind_of(alloc, element)? {
        Some(kind) => read_kind(alloc, element, api, kind, draft),
        None => put_bad(alloc, element, b"category", draft),
    }
}

/// Reads a command.
pub(crate) fn read_command(
    alloc: Global,
    element: &Element,
    api: &[u8],
    draft: &mut Draft,
) -> Result<(), Memory>
    ensures { IfOk result (λ _. draft.new ≡ with_items draft.old (command_items api.now element.now)) }
{
    if !counts(alloc, element, api)? {
        return Ok(());
    }
    match element.attribute(alloc, b"alias")? {
        Some(alias) => read_command_alias(alloc, element, api, alias, draft),
        None => match child(element, b"proto") {
            Some(proto) => read_plain_command(alloc, element, api, &proto, draft),
            None => put_bad(alloc, element, b"proto", draft),
        },
    }
}

/// The kind of a type, where its category is known.
pub(crate) fn kind_of(alloc: Global, element: &Element) -> Result<Option<Kind>, Memory>
    ensures { IfOk result (λ kind. kind ≡ kind_of element.now) }
{
    match element.attribute(alloc, b"category")? {
        Some(text) => Ok(kind_named(text.as_slice())),
        None => Ok(Some(Kind::External)),
    }
}

/// The kind that a category names.
fn kind_named(text: &[u8]) -> Option<Kind>
    ensures { result ≡ kind_named text.now }
{
    if text == b"include".as_slice() {
        Some(Kind::Include)
    } else if text == b"define".as_slice() {
        Some(Kind::Define)
    } else if text == b"basetype".as_slice() {
        Some(Kind::Base)
    } else if text == b"bitmask".as_slice() {
        Some(Kind::Bitmask)
    } else if text == b"handle".as_slice() {
        Some(Kind::Handle)
    } else if text == b"enum".as_slice() {
        Some(Kind::EnumType)
    } else if text == b"funcpointer".as_slice() {
        Some(Kind::FuncPointer)
    } else if text == b"struct".as_slice() {
        Some(Kind::Struct)
    } else if text == b"union".as_slice() {
        Some(Kind::Union)
    } else {
        None
    }
}

/// The name of a type of a kind, where it has one.
pub(crate) fn type_name(
    alloc: Global,
    element: &Element,
    kind: Kind,
) -> Result<Option<Bytes>, Memory>
    ensures { IfOk result (λ name. name ≡ type_name kind element.now) }
{
    match element.attribute(alloc, b"name")? {
        Some(text) => Ok(name_in(Some(text))),
        None => {
            if has(alloc, element, b"alias")? {
                Ok(None)
            } else {
                name_in_text(alloc, element, kind)
            }
        }
    }
}

/// The name that a type has in its text: that of its prototype, where it has one.
fn name_in_text(alloc: Global, element: &Element, kind: Kind) -> Result<Option<Bytes>, Memory>
    ensures { IfOk result (λ name. name ≡ name_in_text kind element.now) }
{
    match proto_in(element, kind) {
        Some(proto) => name_inside(alloc, &proto),
        None => name_inside(alloc, element),
    }
}

/// Reads a type of a kind that counts.
fn read_kind(
    alloc: Global,
    element: &Element,
    api: &[u8],
    kind: Kind,
    draft: &mut Draft,
) -> Result<(), Memory>
    requires counted { counts api.now element.now ≡ true }
    requires kind { kind_of element.now ≡ Some kind }
    ensures { IfOk result (λ _. draft.new ≡ with_items draft.old (type_items api.now element.now)) }
{
    match element.attribute(alloc, b"alias")? {
        Some(alias) => read_type_alias(alloc, element, api, kind, alias, draft),
        None => match type_name(alloc, element, kind)? {
            Some(name) => declare_type(alloc, element, api, kind, name, draft),
            None => read_nameless(alloc, element, api, kind, draft),
        },
    }
}

/// Reads a type that is an alias.
fn read_type_alias(
    alloc: Global,
    element: &Element,
    api: &[u8],
    kind: Kind,
    alias: Bytes,
    draft: &mut Draft,
) -> Result<(), Memory>
    requires counted { counts api.now element.now ≡ true }
    requires kind { kind_of element.now ≡ Some kind }
    requires alias { value_of (codes "alias") element.now ≡ Some alias }
    ensures { IfOk result (λ _. draft.new ≡ with_items draft.old (type_items api.now element.now)) }
{
    match name_of(alloc, element)? {
        Some(name) => {
            let row = alias_row(alloc, element, kind, alias, name)?;
            draft.declare(row)
        }
        None => put_bad(alloc, element, b"name", draft),
    }
}

/// Puts in a type that is no alias, under its name.
fn declare_type(
    alloc: Global,
    element: &Element,
    api: &[u8],
    kind: Kind,
    name: Bytes,
    draft: &mut Draft,
) -> Result<(), Memory>
    requires counted { counts api.now element.now ≡ true }
    requires kind { kind_of element.now ≡ Some kind }
    requires plain { value_of (codes "alias") element.now ≡ None }
    requires named { type_name kind element.now ≡ Some name }
    ensures { IfOk result (λ _. draft.new ≡ with_items draft.old (type_items api.now element.now)) }
{
    let parts = read_parts(alloc, element, api, kind, draft)?;
    let row = plain_row(alloc, element, api, kind, name, parts)?;
    draft.declare(row)?;
    Ok(())
}

/// Reads a type without a name, which is no alias: its prototype may be at fault.
fn read_nameless(
    alloc: Global,
    element: &Element,
    api: &[u8],
    kind: Kind,
    draft: &mut Draft,
) -> Result<(), Memory>
    requires counted { counts api.now element.now ≡ true }
    requires kind { kind_of element.now ≡ Some kind }
    requires plain { value_of (codes "alias") element.now ≡ None }
    requires nameless { type_name kind element.now ≡ None }
    ensures { IfOk result (λ _. draft.new ≡ with_items draft.old (type_items api.now element.now)) }
{
    if has(alloc, element, b"name")? {
        return put_bad(alloc, element, b"name", draft);
    }
    match proto_in(element, kind) {
        Some(_) => {
            let parts = read_parts(alloc, element, api, kind, draft)?;
            let mentions = plain_mentions(alloc, element, parts.mentions)?;
            put_mentions(mentions, draft)?;
            Ok(())
        }
        None => put_bad(alloc, element, b"name", draft),
    }
}

/// Reads a command that is an alias.
fn read_command_alias(
    alloc: Global,
    element: &Element,
    api: &[u8],
    alias: Bytes,
    draft: &mut Draft,
) -> Result<(), Memory>
    requires counted { counts api.now element.now ≡ true }
    requires alias { value_of (codes "alias") element.now ≡ Some alias }
    ensures { IfOk result (λ _. draft.new ≡ with_items draft.old (command_items api.now element.now)) }
{
    match name_of(alloc, element)? {
        Some(name) => {
            let row = command_alias_row(alloc, element, alias, name)?;
            draft.declare(row)
        }
        None => put_bad(alloc, element, b"name", draft),
    }
}

/// Reads a command that is no alias and has this prototype.
fn read_plain_command(
    alloc: Global,
    element: &Element,
    api: &[u8],
    proto: &Element,
    draft: &mut Draft,
) -> Result<(), Memory>
    requires counted { counts api.now element.now ≡ true }
    requires plain { value_of (codes "alias") element.now ≡ None }
    requires proto { child (codes "proto") element.now ≡ Some proto.now }
    ensures { IfOk result (λ _. draft.new ≡ with_items draft.old (command_items api.now element.now)) }
{
    let parts = read_parts(alloc, element, api, Kind::Command, draft)?;
    match name_inside(alloc, proto)? {
        Some(name) => {
            let row = plain_command_row(alloc, element, api, name, parts);
            draft.declare(row)?;
            Ok(())
        }
        None => {
            put_mentions(parts.mentions, draft)?;
            Ok(())
        }
    }
}

/// Puts in names that are mentioned and nothing else.
fn put_mentions(mentions: Vec<Mention>, draft: &mut Draft) -> Result<(), Memory>
    ensures { IfOk result (λ _. draft.new ≡ with_items draft.old (map Item.mentions mentions.items)) }
{
    for mention in mentions {
        draft.put_mention(mention)?;
    }
    Ok(())
}

/// Puts in that an element is bad, by a word.
fn put_bad(alloc: Global, element: &Element, word: &[u8], draft: &mut Draft) -> Result<(), Memory>
    ensures { IfOk result (λ _. draft.new ≡ with_items draft.old (bad_at element.now word.now ∷ [])) }
{
    let word = Bytes::from_slice(alloc, word)?;
    draft.put_fault(Fault {
        code: RowCode::BadAttribute,
        at: element.place(),
        word,
    })
}
