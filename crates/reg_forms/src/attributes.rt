//! What the attributes and children of an element say.
ghost use Rattle.std.specs.Prelude.{◌≡◌, ◌∷◌, [], IfOk};
ghost use Rattle.std.specs.List.{list_any};
ghost use Rattle.std.specs.Option.{option_map_or};
ghost use Rattle.std.specs.Str.{bytes_eq};
ghost use Rattle.reg_forms.specs.Attributes.{child, count_in, counts, first_part, has, has_value, is_named, lists, name_in, name_of, parts_of, value_or_empty};
ghost use Rattle.reg_forms.specs.Parts.{text_inside};

use reg_reader::Element;
use reg_registry::is_name;
use std::alloc::Global;
use vkb_bytes::{Bytes, Memory};

/// Whether an element has an attribute.
pub(crate) fn has(alloc: Global, element: &Element, attribute: &[u8]) -> Result<bool, Memory>
    ensures { IfOk result (λ found. found ≡ has attribute.now element.now) }
{
    let value = element.attribute(alloc, attribute)?;
    Ok(value.is_some())
}

/// Whether an element has an attribute of this value.
pub(crate) fn has_value(
    alloc: Global,
    element: &Element,
    attribute: &[u8],
    value: &[u8],
) -> Result<bool, Memory>
    ensures { IfOk result (λ found. found ≡ has_value attribute.now value.now element.now) }
{
    match element.attribute(alloc, attribute)? {
        Some(own) => Ok(value == own.as_slice()),
        None => Ok(false),
    }
}

/// The value of an attribute, or nothing.
pub(crate) fn value_or_empty(
    alloc: Global,
    element: &Element,
    attribute: &[u8],
) -> Result<Bytes, Memory>
    ensures { IfOk result (λ value. value ≡ value_or_empty attribute.now element.now) }
{
    match element.attribute(alloc, attribute)? {
        Some(value) => Ok(value),
        None => Ok(Bytes::from_vec(Vec::new(alloc))),
    }
}

/// Whether the list in an attribute has a name.
pub(crate) fn lists(
    alloc: Global,
    element: &Element,
    attribute: &[u8],
    name: &[u8],
) -> Result<bool, Memory>
    ensures { IfOk result (λ listed. listed ≡ lists attribute.now name.now element.now) }
{
    match element.attribute(alloc, attribute)? {
        Some(list) => Ok(has_part(list.as_slice(), name)),
        None => Ok(false),
    }
}

/// Whether an element is one of an API.
pub(crate) fn counts(alloc: Global, element: &Element, api: &[u8]) -> Result<bool, Memory>
    ensures { IfOk result (λ counted. counted ≡ counts api.now element.now) }
{
    match element.attribute(alloc, b"api")? {
        Some(list) => Ok(has_part(list.as_slice(), api)),
        None => Ok(true),
    }
}

/// Whether an element has this name.
pub(crate) fn is_named(element: &Element, name: &[u8]) -> bool
    ensures { result ≡ is_named name.now element.now }
{
    name == element.name()
}

/// The first direct child of a name.
pub(crate) fn child<'a>(element: &Element<'a>, name: &[u8]) -> Option<Element<'a>>
    ensures { result ≡ child name.now element.now }
{
    let mut children = element.children();
    while let Some(next) = children.next() {
        if name == next.name() {
            return Some(next);
        }
    }
    None
}

/// The text of the first child of a name, or nothing.
pub(crate) fn text_inside(alloc: Global, element: &Element, name: &[u8]) -> Result<Bytes, Memory>
    ensures { IfOk result (λ text. text ≡ text_inside name.now element.now) }
{
    match child(element, name) {
        Some(inner) => inner.text(alloc),
        None => Ok(Bytes::from_vec(Vec::new(alloc))),
    }
}

/// The attribute `name`, where it is a name.
pub(crate) fn name_of(alloc: Global, element: &Element) -> Result<Option<Bytes>, Memory>
    ensures { IfOk result (λ name. name ≡ name_of element.now) }
{
    let value = element.attribute(alloc, b"name")?;
    Ok(name_in(value))
}

/// A text, where it is a name.
pub(crate) fn name_in(text: Option<Bytes>) -> Option<Bytes>
    ensures { result ≡ name_in text }
{
    let own = text?;
    if is_name(own.as_slice()) {
        Some(own)
    } else {
        None
    }
}

/// The part of a text before the first comma.
pub(crate) fn first_part(text: &[u8]) -> &[u8]
    ensures { result.now ≡ first_part text.now }
{
    cut(text).0
}

/// The parts between the commas of a text.
pub(crate) fn parts(alloc: Global, text: &[u8]) -> Result<Vec<Bytes>, Memory>
    ensures { IfOk result (λ parts. parts.items ≡ parts_of text.now) }
{
    let mut parts = Vec::new(alloc);
    let mut rest = Some(text);
    while let Some(ahead) = rest {
        let (part, behind) = cut(ahead);
        parts.push(Bytes::from_slice(alloc, part)?)?;
        rest = behind;
    }
    Ok(parts)
}

/// How many bytes of a text are stars.
pub(crate) fn stars_in(text: &[u8]) -> usize
    ensures { result ≡ count_in 42 text.now }
{
    let mut count = 0;
    for byte in text {
        if *byte == b'*' {
            count += 1;
        }
    }
    count
}

/// Whether a text has this part between its commas.
fn has_part(text: &[u8], part: &[u8]) -> bool
    ensures { result ≡ list_any (bytes_eq part.now) (parts_of text.now) }
{
    let mut rest = Some(text);
    while let Some(ahead) = rest {
        let (next, behind) = cut(ahead);
        if part == next {
            return true;
        }
        rest = behind;
    }
    false
}

/// The part before the first comma, and what stands behind that comma, if there is one.
fn cut(text: &[u8]) -> (&[u8], Option<&[u8]>)
    ensures front { result.0.now ≡ first_part text.now }
    ensures parts { parts_of text.now ≡ result.0.now ∷ option_map_or (λ rest. parts_of rest.now) result.1 [] }
{
    match memchr::memchr(b',', text) {
        Some(at) => (&text[..at], Some(&text[at + 1..])),
        None => (text, None),
    }
}
