//! The rows of types and commands.
ghost use Rattle.std.specs.Prelude.{◌≡◌, ◌++◌, [], ℕ, List, Some, None, codes, is_some, map, IfOk};
ghost use Rattle.std.specs.Option.{option_map_or};
ghost use Rattle.vkb_bytes.specs.Trimming.{trim};
ghost use Rattle.reg_registry.specs.declared.kinds.Kind.TheVariants as kind;
ghost use Rattle.reg_forms.specs.declared.forms.Sort.TheVariants as sort;
ghost use Rattle.reg_forms.specs.Attributes.{children, parts_of, text_of, value_of};
ghost use Rattle.reg_forms.specs.Declarations.{bits_of, command_row, type_row};
ghost use Rattle.reg_forms.specs.Parts.{inner_mentions, member_of, mention_in, mention_of, proto_in, result_of, sound_members};

use crate::attributes::{has_value, parts};
use crate::forms::{Declaration, Mention, Sort};
use crate::parts::{Parts, mention_in, mention_of};
use reg_reader::Element;
use reg_registry::Kind;
use std::alloc::Global;
use vkb_bytes::{Bytes, Listed, Memory, trim};

/// The row of a type that is an alias, under its name.
pub(crate) fn alias_row(
    alloc: Global,
    element: &Element,
    kind: Kind,
    alias: Bytes,
    name: Bytes,
) -> Result<Declaration, Memory>
    requires { value_of (codes "alias") element.now ≡ Some alias }
    ensures { IfOk result (λ row. (api : List ℕ) → row ≡ type_row api kind element.now name) }
{
    let mentions = attribute_mentions(alloc, element)?;
    let returned = has_value(alloc, element, b"returnedonly", b"true")?;
    let bits = bits_of(alloc, element, kind)?;
    let extends = extends_of(alloc, element)?;
    Ok(Declaration {
        place: element.place(),
        name,
        kind,
        alias: Some(alias),
        text: nothing(alloc),
        result: nothing(alloc),
        prototyped: false,
        returned,
        bits,
        extends,
        members: Listed::from_vec(Vec::new(alloc)),
        mentions: Listed::from_vec(mentions),
    })
}

/// The row of a type that is no alias, under its name and with its parts.
pub(crate) fn plain_row(
    alloc: Global,
    element: &Element,
    api: &[u8],
    kind: Kind,
    name: Bytes,
    parts: Parts,
) -> Result<Declaration, Memory>
    requires plain { value_of (codes "alias") element.now ≡ None }
    requires result { parts.result ≡ result_of kind element.now }
    requires prototyped { parts.prototyped ≡ is_some (proto_in kind element.now) }
    requires members { parts.members.items ≡ map member_of (sound_members api.now kind element.now) }
    requires mentions { parts.mentions.items ≡ inner_mentions api.now kind element.now }
    ensures { IfOk result (λ row. row ≡ type_row api.now kind element.now name) }
{
    let Parts {
        result: before,
        prototyped,
        members,
        mentions: inner,
    } = parts;
    let mentions = plain_mentions(alloc, element, inner)?;
    let text = own_text(alloc, element)?;
    let returned = has_value(alloc, element, b"returnedonly", b"true")?;
    let bits = bits_of(alloc, element, kind)?;
    let extends = extends_of(alloc, element)?;
    Ok(Declaration {
        place: element.place(),
        name,
        kind,
        alias: None,
        text,
        result: before,
        prototyped,
        returned,
        bits,
        extends,
        members: Listed::from_vec(members),
        mentions: Listed::from_vec(mentions),
    })
}

/// The row of a command that is an alias, under its name.
pub(crate) fn command_alias_row(
    alloc: Global,
    element: &Element,
    alias: Bytes,
    name: Bytes,
) -> Result<Declaration, Memory>
    requires { value_of (codes "alias") element.now ≡ Some alias }
    ensures { IfOk result (λ row. (api : List ℕ) → row ≡ command_row api element.now name) }
{
    let mut mentions = Vec::new(alloc);
    mention_in(alloc, element, b"alias", Sort::Command, &mut mentions)?;
    Ok(Declaration {
        place: element.place(),
        name,
        kind: Kind::Command,
        alias: Some(alias),
        text: nothing(alloc),
        result: nothing(alloc),
        prototyped: false,
        returned: false,
        bits: None,
        extends: Listed::from_vec(Vec::new(alloc)),
        members: Listed::from_vec(Vec::new(alloc)),
        mentions: Listed::from_vec(mentions),
    })
}

/// The row of a command that is no alias, under its name and with its parts.
pub(crate) fn plain_command_row(
    alloc: Global,
    element: &Element,
    api: &[u8],
    name: Bytes,
    parts: Parts,
) -> Declaration
    requires plain { value_of (codes "alias") element.now ≡ None }
    requires result { parts.result ≡ result_of kind.Command element.now }
    requires members { parts.members.items ≡ map member_of (sound_members api.now kind.Command element.now) }
    requires mentions { parts.mentions.items ≡ inner_mentions api.now kind.Command element.now }
    ensures { result ≡ command_row api.now element.now name }
{
    let Parts {
        result: before,
        prototyped: _,
        members,
        mentions,
    } = parts;
    Declaration {
        place: element.place(),
        name,
        kind: Kind::Command,
        alias: None,
        text: nothing(alloc),
        result: before,
        prototyped: true,
        returned: false,
        bits: None,
        extends: Listed::from_vec(Vec::new(alloc)),
        members: Listed::from_vec(members),
        mentions: Listed::from_vec(mentions),
    }
}

/// What a type that is no alias mentions, where its parts mention these.
pub(crate) fn plain_mentions(
    alloc: Global,
    element: &Element,
    mut inner: Vec<Mention>,
) -> Result<Vec<Mention>, Memory>
    ensures { IfOk result (λ mentions. mentions.items
        ≡ mention_in (codes "alias") sort.Type element.now ++ mention_in (codes "requires") sort.Type element.now
        ++ mention_in (codes "bitvalues") sort.Type element.now
        ++ (map (mention_of sort.Type) (children (codes "type") element.now) ++ inner.items)) }
{
    let mut mentions = attribute_mentions(alloc, element)?;
    put_type_mentions(alloc, element, &mut mentions)?;
    mentions.append(&mut inner)?;
    Ok(mentions)
}

/// What the attributes of a type mention.
fn attribute_mentions(alloc: Global, element: &Element) -> Result<Vec<Mention>, Memory>
    ensures { IfOk result (λ mentions. mentions.items
        ≡ mention_in (codes "alias") sort.Type element.now ++ mention_in (codes "requires") sort.Type element.now
        ++ mention_in (codes "bitvalues") sort.Type element.now) }
{
    let mut mentions = Vec::new(alloc);
    mention_in(alloc, element, b"alias", Sort::Type, &mut mentions)?;
    mention_in(alloc, element, b"requires", Sort::Type, &mut mentions)?;
    mention_in(alloc, element, b"bitvalues", Sort::Type, &mut mentions)?;
    Ok(mentions)
}

/// Puts the children `type` of an element behind other mentions.
fn put_type_mentions(
    alloc: Global,
    element: &Element,
    mentions: &mut Vec<Mention>,
) -> Result<(), Memory>
    ensures { IfOk result (λ _. mentions.new.items
        ≡ mentions.old.items ++ map (mention_of sort.Type) (children (codes "type") element.now)) }
{
    let mut ahead = element.children();
    while let Some(next) = ahead.next() {
        if b"type".as_slice() == next.name() {
            let mention = mention_of(alloc, &next, Sort::Type)?;
            mentions.push(mention)?;
        }
    }
    Ok(())
}

/// The text of an element, trimmed.
fn own_text(alloc: Global, element: &Element) -> Result<Bytes, Memory>
    ensures { IfOk result (λ text. text ≡ trim (text_of element.now)) }
{
    let text = element.text(alloc)?;
    let own = Bytes::from_slice(alloc, trim(text.as_slice()))?;
    Ok(own)
}

/// The type of a bitmask's bits.
fn bits_of(alloc: Global, element: &Element, kind: Kind) -> Result<Option<Bytes>, Memory>
    ensures { IfOk result (λ bits. bits ≡ bits_of kind element.now) }
{
    match kind {
        Kind::Bitmask => match element.attribute(alloc, b"bitvalues")? {
            Some(bits) => Ok(Some(bits)),
            None => element.attribute(alloc, b"requires"),
        },
        _ => Ok(None),
    }
}

/// The names in `structextends`.
fn extends_of(alloc: Global, element: &Element) -> Result<Listed<Bytes>, Memory>
    ensures { IfOk result (λ names.
        names ≡ option_map_or parts_of (value_of (codes "structextends") element.now) []) }
{
    match element.attribute(alloc, b"structextends")? {
        Some(list) => {
            let names = parts(alloc, list.as_slice())?;
            Ok(Listed::from_vec(names))
        }
        None => Ok(Listed::from_vec(Vec::new(alloc))),
    }
}

/// An empty text, which takes no memory.
fn nothing(alloc: Global) -> Bytes
    ensures { result ≡ [] }
{
    Bytes::from_vec(Vec::new(alloc))
}
