//! The attributes of an `enum`, and what is bad in them.
ghost use Rattle.std.specs.Prelude.{◌≡◌, Bool, false, not, ◌&&◌, ◌||◌, IfOk, is_none, is_some, codes};
ghost use Rattle.std.specs.Option.{option_flatten, option_map_or};
ghost use Rattle.std.specs.Prelude.{option_map};
ghost use Rattle.vkb_bytes.specs.Numbers.{short_numeral_of};
ghost use Rattle.reg_values.specs.Literal.{literal_of};
ghost use Rattle.reg_forms.specs.Attributes.{has, has_value, is_bad_number, name_of};
ghost use Rattle.reg_forms.specs.EnumAttributes.{HoldsAttributes};
ghost use Rattle.reg_forms.specs.Enums.{enum_words, is_bad_offset, is_bad_value, is_enumerant, takes_bits, takes_offsets, wants_value, ways_of};

use crate::words::put_word_if;
use reg_reader::Element;
use reg_registry::is_name;
use reg_values::{ValueFault, literal_value};
use std::alloc::Global;
use vkb_bytes::{Bytes, Memory, short_number};

/// Where an `enum` stands.
#[derive(Debug, Drop)]
pub(crate) enum Role {
    /// In the block of an enum type.
    Base { of: Bytes },
    /// In the block of the constants.
    Constant,
    /// In the block of an enum type, and it extends what is no enum type.
    Lost,
    /// In a `require` block, and it extends an enum type.
    Extending { of: Bytes },
    /// In a `require` block, and it extends what is no enum type.
    Astray,
    /// In a `require` block, and it extends nothing.
    Plain,
}

/// The attributes of an `enum`, each fetched once.
#[derive(Debug, Drop)]
pub(crate) struct EnumAttributes {
    pub name: Option<Bytes>,
    pub value: Option<Bytes>,
    pub bitpos: Option<Bytes>,
    pub offset: Option<Bytes>,
    pub alias: Option<Bytes>,
    pub extends: Option<Bytes>,
    pub extnumber: Option<Bytes>,
    pub dir: Option<Bytes>,
}

/// Fetches the attributes of an `enum`.
pub(crate) fn attributes_of(alloc: Global, element: &Element) -> Result<EnumAttributes, Memory>
    ensures { IfOk result (λ own. HoldsAttributes element.now own) }
{
    Ok(EnumAttributes {
        name: element.attribute(alloc, b"name")?,
        value: element.attribute(alloc, b"value")?,
        bitpos: element.attribute(alloc, b"bitpos")?,
        offset: element.attribute(alloc, b"offset")?,
        alias: element.attribute(alloc, b"alias")?,
        extends: element.attribute(alloc, b"extends")?,
        extnumber: element.attribute(alloc, b"extnumber")?,
        dir: element.attribute(alloc, b"dir")?,
    })
}

/// The number that a text is, where it is one to nine digits.
pub(crate) fn number_of(text: &Option<Bytes>) -> Option<u32>
    ensures { result ≡ option_flatten (option_map short_numeral_of text.now) }
{
    match text {
        Some(text) => short_number(text.as_slice()),
        None => None,
    }
}

/// What is bad in an `enum` with these attributes, in an extension of this number.
pub(crate) fn enum_words(
    alloc: Global,
    element: &Element,
    own: &EnumAttributes,
    role: &Role,
    number: Option<u32>,
) -> Result<Vec<Bytes>, Memory>
    requires { HoldsAttributes element.now own.now }
    ensures { IfOk result (λ words. words.items ≡ enum_words role.now number element.now) }
{
    let mut words = Vec::new(alloc);
    put_word_if(alloc, is_bad_bit(element, own, role), b"bitpos", &mut words)?;
    put_word_if(alloc, is_bad_direction(element, own), b"dir", &mut words)?;
    put_word_if(
        alloc,
        is_bad_number(&own.extnumber),
        b"extnumber",
        &mut words,
    )?;
    put_word_if(alloc, !is_named(element, own), b"name", &mut words)?;
    put_word_if(
        alloc,
        is_bad_offset(element, own, role, number),
        b"offset",
        &mut words,
    )?;
    put_word_if(
        alloc,
        is_bad_value(element, own, role),
        b"value",
        &mut words,
    )?;
    Ok(words)
}

/// Whether a text is there and isn't one to nine digits.
fn is_bad_number(text: &Option<Bytes>) -> bool
    ensures { result ≡ option_map_or (λ value. is_none (short_numeral_of value)) text.now false }
{
    match text {
        Some(text) => short_number(text.as_slice()).is_none(),
        None => false,
    }
}

/// Whether the `bitpos` is no number, or one where there is to be none.
fn is_bad_bit(element: &Element, own: &EnumAttributes, role: &Role) -> bool
    requires { HoldsAttributes element.now own.now }
    ensures { result ≡ (is_bad_number (codes "bitpos") element.now || (has (codes "bitpos") element.now && not (takes_bits role.now))) }
{
    is_bad_number(&own.bitpos) || own.bitpos.is_some() && !takes_bits(role)
}

/// Whether the `dir` isn't a `-`.
fn is_bad_direction(element: &Element, own: &EnumAttributes) -> bool
    requires { HoldsAttributes element.now own.now }
    ensures { result ≡ (has (codes "dir") element.now && not (has_value (codes "dir") (codes "-") element.now)) }
{
    match &own.dir {
        Some(text) => text.as_slice() != b"-".as_slice(),
        None => false,
    }
}

/// Whether there is a name.
fn is_named(element: &Element, own: &EnumAttributes) -> bool
    requires { HoldsAttributes element.now own.now }
    ensures { result ≡ is_some (name_of element.now) }
{
    match &own.name {
        Some(text) => is_name(text.as_slice()),
        None => false,
    }
}

/// Whether the `offset` is no number, or one where there is to be none, or one with no number to go with.
fn is_bad_offset(element: &Element, own: &EnumAttributes, role: &Role, number: Option<u32>) -> bool
    requires { HoldsAttributes element.now own.now }
    ensures { result ≡ is_bad_offset role.now number element.now }
{
    let counted = own.extnumber.is_some() || number.is_some();
    is_bad_number(&own.offset) || own.offset.is_some() && !(takes_offsets(role) && counted)
}

/// Whether the value is given in two ways, or in none where there is to be one, or is no literal.
fn is_bad_value(element: &Element, own: &EnumAttributes, role: &Role) -> bool
    requires { HoldsAttributes element.now own.now }
    ensures { result ≡ is_bad_value role.now element.now }
{
    let ways = ways_of(element, own);
    ways > 1 || wants_value(role) && ways < 1 || is_enumerant(role) && is_no_literal(&own.value)
}

/// How many of the four ways to give a value there are.
fn ways_of(element: &Element, own: &EnumAttributes) -> usize
    requires { HoldsAttributes element.now own.now }
    ensures { result ≡ ways_of element.now }
{
    usize::from(own.value.is_some())
        + usize::from(own.bitpos.is_some())
        + usize::from(own.offset.is_some())
        + usize::from(own.alias.is_some())
}

/// Whether a text is there and is no literal.
fn is_no_literal(text: &Option<Bytes>) -> bool
    ensures { result ≡ option_map_or (λ value. is_none (literal_of value)) text.now false }
{
    match text {
        Some(text) => !is_literal(text.as_slice()),
        None => false,
    }
}

fn is_literal(text: &[u8]) -> bool
    ensures { result ≡ is_some (literal_of text.now) }
{
    match literal_value(text) {
        Err(ValueFault::Literal) => false,
        _ => true,
    }
}

/// Whether an enumerant of some enum type stands there.
fn is_enumerant(role: &Role) -> bool
    ensures { result ≡ is_enumerant role.now }
{
    matches!(role, Role::Base { .. } | Role::Extending { .. })
}

/// Whether it has to have a value.
fn wants_value(role: &Role) -> bool
    ensures { result ≡ wants_value role.now }
{
    matches!(role, Role::Base { .. } | Role::Constant | Role::Lost)
}

/// Whether a value may be given by a bit there.
fn takes_bits(role: &Role) -> bool
    ensures { result ≡ takes_bits role.now }
{
    !matches!(role, Role::Constant | Role::Plain)
}

/// Whether a value may be given by an offset there.
fn takes_offsets(role: &Role) -> bool
    ensures { result ≡ takes_offsets role.now }
{
    matches!(role, Role::Extending { .. } | Role::Astray)
}
