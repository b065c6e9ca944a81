//! Features and extensions.
ghost use Rattle.std.specs.Prelude.{◌≡◌, IfOk, true, codes};
ghost use Rattle.std.specs.List.{list_any};
ghost use Rattle.std.specs.Option.{option_map_or};
ghost use Rattle.reg_forms.specs.Enums.{is_held, number_in};
ghost use Rattle.reg_forms.specs.Forms.{with_items};
ghost use Rattle.reg_forms.specs.Options.{before_dot, behind_dot, extension_items, extension_words, feature_items, feature_words, is_bad_name, is_option_name, is_same_version, supported_items, version_in, version_of};

use crate::attributes::{has, lists, name_of, value_or_empty};
use crate::blocks::read_blocks;
use crate::draft::Draft;
use crate::enums::number_in;
use crate::forms::RowCode;
use crate::words::{put_word_if, put_wrong};
use reg_reader::Element;
use std::alloc::Global;
use vkb_bytes::{Bytes, Memory, short_number};
use vkb_formula::Names;

/// Reads a feature of the API, where those before it have these numbers.
pub(crate) fn read_feature(
    alloc: Global,
    element: &Element,
    api: &[u8],
    enum_types: &Names,
    earlier: &[(u32, u32)],
    draft: &mut Draft,
) -> Result<(), Memory>
    ensures { IfOk result (λ _. draft.new
        ≡ with_items draft.old (feature_items api.now (is_held enum_types.now) earlier.now element.now)) }
{
    let version = version_of(alloc, element)?;
    let words = feature_words(alloc, element, version, earlier)?;
    if !words.is_empty() {
        return draft.put_bad(element.place(), words);
    }
    let name = value_or_empty(alloc, element, b"name")?;
    if has(alloc, element, b"apitype")? {
        put_wrong(alloc, element, RowCode::ApiType, name.as_slice(), draft)?;
    }
    draft.offer(element.place(), name, version, None)?;
    read_blocks(alloc, element, api, enum_types, None, draft)
}

/// Reads an extension.
pub(crate) fn read_extension(
    alloc: Global,
    element: &Element,
    api: &[u8],
    enum_types: &Names,
    draft: &mut Draft,
) -> Result<(), Memory>
    ensures { IfOk result (λ _. draft.new
        ≡ with_items draft.old (extension_items api.now (is_held enum_types.now) element.now)) }
{
    if !has(alloc, element, b"supported")? {
        return put_wrong(alloc, element, RowCode::BadAttribute, b"supported", draft);
    }
    if !lists(alloc, element, b"supported", api)? {
        return Ok(());
    }
    read_supported(alloc, element, api, enum_types, draft)
}

/// Reads an extension that is supported for the API.
fn read_supported(
    alloc: Global,
    element: &Element,
    api: &[u8],
    enum_types: &Names,
    draft: &mut Draft,
) -> Result<(), Memory>
    ensures { IfOk result (λ _. draft.new
        ≡ with_items draft.old (supported_items api.now (is_held enum_types.now) element.now)) }
{
    let number = number_in(alloc, element, b"number")?;
    let words = extension_words(alloc, element, number)?;
    if !words.is_empty() {
        return draft.put_bad(element.place(), words);
    }
    let name = value_or_empty(alloc, element, b"name")?;
    let depends = element.attribute(alloc, b"depends")?;
    draft.offer(element.place(), name, None, depends)?;
    read_blocks(alloc, element, api, enum_types, number, draft)
}

/// The number of a feature, where it has one.
pub(crate) fn version_of(alloc: Global, element: &Element) -> Result<Option<(u32, u32)>, Memory>
    ensures { IfOk result (λ version. version ≡ version_of element.now) }
{
    match element.attribute(alloc, b"number")? {
        Some(text) => Ok(version_in(text.as_slice())),
        None => Ok(None),
    }
}

/// What is bad in a feature of this number, where those before it have these.
fn feature_words(
    alloc: Global,
    element: &Element,
    version: Option<(u32, u32)>,
    earlier: &[(u32, u32)],
) -> Result<Vec<Bytes>, Memory>
    requires { version ≡ version_of element.now }
    ensures { IfOk result (λ words. words.items ≡ feature_words earlier.now element.now) }
{
    let mut words = Vec::new(alloc);
    put_word_if(alloc, is_bad_name(alloc, element)?, b"name", &mut words)?;
    put_word_if(alloc, is_taken(version, earlier), b"number", &mut words)?;
    Ok(words)
}

/// What is bad in an extension of this number.
fn extension_words(
    alloc: Global,
    element: &Element,
    number: Option<u32>,
) -> Result<Vec<Bytes>, Memory>
    requires { number ≡ number_in (codes "number") element.now }
    ensures { IfOk result (λ words. words.items ≡ extension_words element.now) }
{
    let mut words = Vec::new(alloc);
    put_word_if(alloc, is_bad_name(alloc, element)?, b"name", &mut words)?;
    put_word_if(alloc, number.is_none(), b"number", &mut words)?;
    Ok(words)
}

/// Whether an option has no name, or one with a `:` in it.
fn is_bad_name(alloc: Global, element: &Element) -> Result<bool, Memory>
    ensures { IfOk result (λ bad. bad ≡ is_bad_name element.now) }
{
    match name_of(alloc, element)? {
        Some(name) => Ok(!is_option_name(name.as_slice())),
        None => Ok(true),
    }
}

fn is_option_name(name: &[u8]) -> bool
    ensures { result ≡ is_option_name name.now }
{
    for byte in name {
        if *byte == b':' {
            return false;
        }
    }
    true
}

/// Whether there is no number, or one of those before it.
fn is_taken(version: Option<(u32, u32)>, earlier: &[(u32, u32)]) -> bool
    ensures { result ≡ option_map_or (λ number. list_any (is_same_version number) earlier.now) version true }
{
    let Some(number) = version else {
        return true;
    };
    for other in earlier {
        if number == *other {
            return true;
        }
    }
    false
}

/// The number of a version: one to nine digits on each side of a dot.
fn version_in(text: &[u8]) -> Option<(u32, u32)>
    ensures { result ≡ version_in text.now }
{
    let (before, behind) = cut_at_dot(text);
    let major = short_number(before)?;
    let minor = short_number(behind)?;
    Some((major, minor))
}

/// The text before the first dot, and the text behind it, if there is one.
fn cut_at_dot(text: &[u8]) -> (&[u8], &[u8])
    ensures before { result.0.now ≡ before_dot text.now }
    ensures behind { result.1.now ≡ behind_dot text.now }
{
    match memchr::memchr(b'.', text) {
        Some(at) => (&text[..at], &text[at + 1..]),
        None => (text, &[]),
    }
}
