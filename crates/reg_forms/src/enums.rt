//! Enumerants and constants.
ghost use Rattle.std.specs.Prelude.{◌≡◌, IfOk, [], is_some, option_map, codes, ◌∷◌};
ghost use Rattle.std.specs.Option.{option_map_or, option_or};
ghost use Rattle.reg_forms.specs.EnumAttributes.{HoldsAttributes};
ghost use Rattle.reg_forms.specs.Enums.{constant_row, entry_of, enum_items, enum_row, given_of, is_held, number_in, offset_of, role_in_block, role_items, strays};
ghost use Rattle.reg_forms.specs.Forms.{with_item, with_items};
ghost use Rattle.reg_forms.specs.Items.{Item};

use crate::attributes::counts;
use crate::draft::Draft;
use crate::enum_attributes::{EnumAttributes, Role, attributes_of, enum_words, number_of};
use crate::forms::{Declaration, EnumForm, Given, Mention, RowCode, Sort};
use crate::parts::mention_in;
use crate::words::put_wrong;
use reg_reader::Element;
use reg_registry::Kind;
use std::alloc::Global;
use vkb_bytes::{Bytes, Listed, Memory};
use vkb_formula::Names;

/// Reads an `enum` of a `require` block, in an extension of this number.
pub(crate) fn read_required_enum(
    alloc: Global,
    element: &Element,
    api: &[u8],
    enum_types: &Names,
    number: Option<u32>,
    draft: &mut Draft,
) -> Result<(), Memory>
    ensures { IfOk result (λ _. draft.new
        ≡ with_items draft.old (enum_items api.now (is_held enum_types.now) (role_in_block (is_held enum_types.now) element.now) number element.now)) }
{
    let role = role_in_block(alloc, element, enum_types)?;
    read_enum(alloc, element, api, enum_types, &role, number, draft)
}

/// The number in an attribute, where it is one to nine digits.
pub(crate) fn number_in(
    alloc: Global,
    element: &Element,
    attribute: &[u8],
) -> Result<Option<u32>, Memory>
    ensures { IfOk result (λ number. number ≡ number_in attribute.now element.now) }
{
    match element.attribute(alloc, attribute)? {
        Some(text) => Ok(vkb_bytes::short_number(text.as_slice())),
        None => Ok(None),
    }
}

/// Reads an `enum` that stands so.
pub(crate) fn read_enum(
    alloc: Global,
    element: &Element,
    api: &[u8],
    enum_types: &Names,
    role: &Role,
    number: Option<u32>,
    draft: &mut Draft,
) -> Result<(), Memory>
    ensures { IfOk result (λ _. draft.new
        ≡ with_items draft.old (enum_items api.now (is_held enum_types.now) role.now number element.now)) }
{
    if !counts(alloc, element, api)? {
        return Ok(());
    }
    let own = attributes_of(alloc, element)?;
    let words = enum_words(alloc, element, &own, role, number)?;
    if !words.is_empty() {
        return draft.put_bad(element.place(), words);
    }
    put_stray(alloc, element, &own, enum_types, draft)?;
    put_enum(alloc, element, own, role, number, draft)
}

/// Where an `enum` of a `require` block stands.
fn role_in_block(alloc: Global, element: &Element, enum_types: &Names) -> Result<Role, Memory>
    ensures { IfOk result (λ role. role ≡ role_in_block (is_held enum_types.now) element.now) }
{
    match element.attribute(alloc, b"extends")? {
        Some(of) => {
            if enum_types.find(of.as_slice()).is_some() {
                Ok(Role::Extending { of })
            } else {
                Ok(Role::Astray)
            }
        }
        None => Ok(Role::Plain),
    }
}

/// Puts in a fault where what an `enum` extends is no enum type.
fn put_stray(
    alloc: Global,
    element: &Element,
    own: &EnumAttributes,
    enum_types: &Names,
    draft: &mut Draft,
) -> Result<(), Memory>
    requires { HoldsAttributes element.now own.now }
    ensures { IfOk result (λ _. draft.new ≡ with_items draft.old (strays (is_held enum_types.now) element.now)) }
{
    match &own.extends {
        Some(of) => {
            if enum_types.find(of.as_slice()).is_some() {
                Ok(())
            } else {
                put_wrong(alloc, element, RowCode::UnknownName, of.as_slice(), draft)
            }
        }
        None => Ok(()),
    }
}

/// Puts in what an `enum` says that has nothing bad in it.
fn put_enum(
    alloc: Global,
    element: &Element,
    own: EnumAttributes,
    role: &Role,
    number: Option<u32>,
    draft: &mut Draft,
) -> Result<(), Memory>
    requires { HoldsAttributes element.now own }
    ensures { IfOk result (λ _. draft.new ≡ with_items draft.old (role_items role.now number element.now)) }
{
    match role {
        Role::Base { of } => {
            put_enumerant(alloc, element, own, of.as_slice(), true, number, draft)
        }
        Role::Constant => declare_constant(alloc, element, own, draft),
        Role::Lost => Ok(()),
        Role::Extending { of } => {
            let entry = entry_of(alloc, element, &own)?;
            put_enumerant(alloc, element, own, of.as_slice(), false, number, draft)?;
            draft.list(entry)
        }
        Role::Astray => {
            if is_given(element, &own, number) {
                return Ok(());
            }
            draft.list(entry_of(alloc, element, &own)?)
        }
        Role::Plain => put_plain(alloc, element, own, number, draft),
    }
}

/// Puts in what an `enum` says that extends nothing: a constant, where it has a value, and its name in the block round it.
fn put_plain(
    alloc: Global,
    element: &Element,
    own: EnumAttributes,
    number: Option<u32>,
    draft: &mut Draft,
) -> Result<(), Memory>
    requires { HoldsAttributes element.now own }
    ensures { IfOk result (λ _. draft.new ≡ with_items draft.old (role_items Role.Plain number element.now)) }
{
    let entry = entry_of(alloc, element, &own)?;
    if is_given(element, &own, number) {
        declare_constant(alloc, element, own, draft)?;
    }
    draft.list(entry)
}

/// The name of an `enum`, as it stands in the block round it.
fn entry_of(alloc: Global, element: &Element, own: &EnumAttributes) -> Result<Mention, Memory>
    requires { HoldsAttributes element.now own.now }
    ensures { IfOk result (λ mention. Item.lists mention ≡ entry_of element.now) }
{
    let name = match &own.name {
        Some(name) => Bytes::from_slice(alloc, name.as_slice())?,
        None => Bytes::from_vec(Vec::new(alloc)),
    };
    Ok(Mention {
        place: element.place(),
        name,
        sort: Sort::Value,
    })
}

/// Puts in a constant.
fn declare_constant(
    alloc: Global,
    element: &Element,
    own: EnumAttributes,
    draft: &mut Draft,
) -> Result<(), Memory>
    requires { HoldsAttributes element.now own }
    ensures { IfOk result (λ _. draft.new ≡ with_item draft.old (Item.declares (constant_row element.now))) }
{
    let mut mentions = Vec::new(alloc);
    mention_in(alloc, element, b"alias", Sort::Constant, &mut mentions)?;
    let EnumAttributes {
        name,
        value,
        alias,
        ..
    } = own;
    draft.declare(Declaration {
        place: element.place(),
        name: or_empty(alloc, name),
        kind: Kind::Constant,
        alias,
        text: or_empty(alloc, value),
        result: Bytes::from_vec(Vec::new(alloc)),
        prototyped: false,
        returned: false,
        bits: None,
        extends: Listed::from_vec(Vec::new(alloc)),
        members: Listed::from_vec(Vec::new(alloc)),
        mentions: Listed::from_vec(mentions),
    })
}

/// Puts in an enumerant of a type, where its value is given.
fn put_enumerant(
    alloc: Global,
    element: &Element,
    own: EnumAttributes,
    of: &[u8],
    base: bool,
    number: Option<u32>,
    draft: &mut Draft,
) -> Result<(), Memory>
    requires { HoldsAttributes element.now own }
    ensures { IfOk result (λ _. draft.new
        ≡ with_items draft.old (option_map_or (λ given. Item.numbers (enum_row of.now base element.now given) ∷ []) (given_of number element.now) [])) }
{
    let bit = number_of(&own.bitpos);
    let offset = offset_given(element, &own, number);
    let EnumAttributes {
        name,
        value,
        alias,
        ..
    } = own;
    match given(value, bit, offset, alias) {
        Some(given) => draft.put_enumerant(EnumForm {
            place: element.place(),
            of: Bytes::from_slice(alloc, of)?,
            name: or_empty(alloc, name),
            given,
            base,
        }),
        None => Ok(()),
    }
}

/// The text, or nothing where there is none.
fn or_empty(alloc: Global, text: Option<Bytes>) -> Bytes
    ensures { result ≡ option_map_or (λ own. own) text [] }
{
    match text {
        Some(own) => own,
        None => Bytes::from_vec(Vec::new(alloc)),
    }
}

/// The value of an `enum` by an offset, if it is given so.
fn offset_given(element: &Element, own: &EnumAttributes, number: Option<u32>) -> Option<Given>
    requires { HoldsAttributes element.now own.now }
    ensures { result ≡ option_map (offset_of number element.now) (number_in (codes "offset") element.now) }
{
    let offset = number_of(&own.offset)?;
    let extension = match number_of(&own.extnumber) {
        Some(extension) => extension,
        None => number.unwrap_or(0),
    };
    Some(Given::Offset {
        extension,
        offset,
        negative: own.dir.is_some(),
    })
}

/// How a value is given, if it is.
fn given(
    value: Option<Bytes>,
    bit: Option<u32>,
    offset: Option<Given>,
    alias: Option<Bytes>,
) -> Option<Given>
    ensures { result
        ≡ option_or (option_map Given.Literal value) (option_or (option_map Given.Bit bit) (option_or offset (option_map Given.Alias alias))) }
{
    if let Some(text) = value {
        return Some(Given::Literal { text });
    }
    if let Some(position) = bit {
        return Some(Given::Bit { position });
    }
    if offset.is_some() {
        return offset;
    }
    match alias {
        Some(name) => Some(Given::Alias { name }),
        None => None,
    }
}

/// Whether an `enum` gives a value.
fn is_given(element: &Element, own: &EnumAttributes, number: Option<u32>) -> bool
    requires { HoldsAttributes element.now own.now }
    ensures { result ≡ is_some (given_of number element.now) }
{
    own.value.is_some()
        || number_of(&own.bitpos).is_some()
        || number_of(&own.offset).is_some()
        || own.alias.is_some()
}
