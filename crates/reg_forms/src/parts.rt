//! Members, parameters and prototypes.
ghost use Rattle.std.specs.Prelude.{◌≡◌, ◌∷◌, ◌++◌, [], List, ℕ, Some, None, true, false, IfOk, IfSome, codes, filter, map, is_some};
ghost use Rattle.std.specs.List.{flat_map};
ghost use Rattle.std.specs.Option.{option_map_or, option_to_list};
ghost use Rattle.std.specs.Str.{bytes_eq};
ghost use Rattle.vkb_bytes.specs.Trimming.{collapse};
ghost use Rattle.reg_reader.specs.Views.{text_before};
ghost use Rattle.reg_forms.specs.Attributes.{child, children, counts, first_part, value_or_empty, word_if};
ghost use Rattle.reg_forms.specs.Forms.{with_items};
ghost use Rattle.reg_forms.specs.Items.{bad_at};
ghost use Rattle.reg_forms.specs.Parts.{inner_mentions, is_sound, lacks, member_mentions, member_of, members_in, mention_in, mention_of, name_inside, part_faults, part_words, proto_in, result_of, sound_members, type_mention};
ghost use Rattle.reg_forms.specs.declared.forms.Sort.TheVariants as sort;

use crate::attributes::{child, counts, first_part, has_value, name_in, stars_in, value_or_empty};
use crate::draft::Draft;
use crate::forms::{Fault, MemberForm, Mention, RowCode, Sort};
use crate::repeats::put_repeated;
use reg_reader::Element;
use reg_registry::Kind;
use std::alloc::Global;
use vkb_bytes::{Bytes, Memory, collapse};

/// The parts of an element that is no alias.
#[derive(Drop)]
pub(crate) struct Parts {
    /// What stands before the name in its prototype.
    pub result: Bytes,
    /// Whether it has a prototype.
    pub prototyped: bool,
    pub members: Vec<MemberForm>,
    pub mentions: Vec<Mention>,
}

/// The text of the first child `name`, where it is a name.
pub(crate) fn name_inside(alloc: Global, element: &Element) -> Result<Option<Bytes>, Memory>
    ensures { IfOk result (λ name. name ≡ name_inside element.now) }
{
    match child(element, b"name") {
        Some(inner) => {
            let text = inner.text(alloc)?;
            Ok(name_in(Some(text)))
        }
        None => Ok(None),
    }
}

/// The prototype of an element of a kind that is no alias.
pub(crate) fn proto_in<'a>(element: &Element<'a>, kind: Kind) -> Option<Element<'a>>
    ensures { result ≡ proto_in kind element.now }
{
    match kind {
        Kind::FuncPointer | Kind::Command => child(element, b"proto"),
        _ => None,
    }
}

/// Reads the prototype, the members and the parameters of an element that is no alias, and puts in what is wrong with them.
pub(crate) fn read_parts(
    alloc: Global,
    element: &Element,
    api: &[u8],
    kind: Kind,
    draft: &mut Draft,
) -> Result<Parts, Memory>
    ensures faults { IfOk result (λ _. draft.new ≡ with_items draft.old (part_faults api.now kind element.now)) }
    ensures result { IfOk result (λ parts. parts.result ≡ result_of kind element.now) }
    ensures prototyped { IfOk result (λ parts. parts.prototyped ≡ is_some (proto_in kind element.now)) }
    ensures members { IfOk result (λ parts. parts.members.items
        ≡ map member_of (sound_members api.now kind element.now)) }
    ensures mentions { IfOk result (λ parts. parts.mentions.items ≡ inner_mentions api.now kind element.now) }
{
    let mut members = Vec::new(alloc);
    let mut mentions = Vec::new(alloc);
    let proto = proto_in(element, kind);
    let prototyped = proto.is_some();
    let result = read_proto(alloc, proto, &mut mentions, draft)?;
    read_members(
        alloc,
        element,
        api,
        kind,
        &mut members,
        &mut mentions,
        draft,
    )?;
    put_repeated(alloc, members.as_slice(), draft)?;
    Ok(Parts {
        result,
        prototyped,
        members,
        mentions,
    })
}

/// The text of an element, as the name of something of a sort.
pub(crate) fn mention_of(alloc: Global, element: &Element, sort: Sort) -> Result<Mention, Memory>
    ensures { IfOk result (λ mention. mention ≡ mention_of sort element.now) }
{
    let name = element.text(alloc)?;
    Ok(Mention {
        place: element.place(),
        name,
        sort,
    })
}

/// Puts the name in an attribute behind others, as that of something of a sort.
pub(crate) fn mention_in(
    alloc: Global,
    element: &Element,
    attribute: &[u8],
    sort: Sort,
    mentions: &mut Vec<Mention>,
) -> Result<(), Memory>
    ensures { IfOk result (λ _. mentions.new.items
        ≡ mentions.old.items ++ mention_in attribute.now sort element.now) }
{
    if let Some(name) = element.attribute(alloc, attribute)? {
        mentions.push(Mention {
            place: element.place(),
            name,
            sort,
        })?;
    }
    Ok(())
}

/// The name of the children that are the members or parameters of an element of a kind that is no alias.
fn member_tag(element: &Element, kind: Kind) -> Option<&'static [u8]>
    ensures { (api : List ℕ) → members_in api kind element.now
        ≡ option_map_or (λ name. filter (counts api) (children name.now element.now)) result [] }
{
    match kind {
        Kind::Struct | Kind::Union => Some(b"member".as_slice()),
        Kind::Command => Some(b"param".as_slice()),
        Kind::FuncPointer => {
            let _proto = child(element, b"proto")?;
            Some(b"param".as_slice())
        }
        _ => None,
    }
}

/// Reads a prototype, if there is one, and gives what stands before its name.
fn read_proto(
    alloc: Global,
    proto: Option<Element>,
    mentions: &mut Vec<Mention>,
    draft: &mut Draft,
) -> Result<Bytes, Memory>
    ensures faults { IfOk result (λ _. draft.new ≡ with_items draft.old (lacks (option_to_list proto.entry))) }
    ensures result { IfOk result (λ text. text
        ≡ option_map_or (λ own. collapse (text_before (codes "name") own.content)) proto.entry []) }
    ensures mentions { IfOk result (λ _. mentions.new.items
        ≡ mentions.old.items ++ flat_map type_mention (filter is_sound (option_to_list proto.entry))) }
{
    match proto {
        Some(own) => {
            if let Some(part) = read_part(alloc, &own, draft)? {
                mentions.push(mention_of(alloc, &part.base, Sort::Type)?)?;
            }
            let text = own.text_before(alloc, b"name")?;
            let before = collapse(alloc, text.as_slice())?;
            Ok(before)
        }
        None => Ok(Bytes::from_vec(Vec::new(alloc))),
    }
}

/// Reads the members and the parameters of an element of a kind that is no alias.
fn read_members(
    alloc: Global,
    element: &Element,
    api: &[u8],
    kind: Kind,
    members: &mut Vec<MemberForm>,
    mentions: &mut Vec<Mention>,
    draft: &mut Draft,
) -> Result<(), Memory>
    ensures faults { IfOk result (λ _. draft.new
        ≡ with_items draft.old (lacks (members_in api.now kind element.now))) }
    ensures members { IfOk result (λ _. members.new.items
        ≡ members.old.items ++ map member_of (sound_members api.now kind element.now)) }
    ensures mentions { IfOk result (λ _. mentions.new.items
        ≡ mentions.old.items ++ flat_map member_mentions (sound_members api.now kind element.now)) }
{
    match member_tag(element, kind) {
        Some(name) => {
            read_children(alloc, element, api, name, members, mentions, draft)?;
            Ok(())
        }
        None => Ok(()),
    }
}

/// Reads the children of a name that count, as members or parameters.
fn read_children(
    alloc: Global,
    element: &Element,
    api: &[u8],
    name: &[u8],
    members: &mut Vec<MemberForm>,
    mentions: &mut Vec<Mention>,
    draft: &mut Draft,
) -> Result<(), Memory>
    ensures faults { IfOk result (λ _. draft.new
        ≡ with_items draft.old (lacks (filter (counts api.now) (children name.now element.now)))) }
    ensures members { IfOk result (λ _. members.new.items
        ≡ members.old.items ++ map member_of (filter is_sound (filter (counts api.now) (children name.now element.now)))) }
    ensures mentions { IfOk result (λ _. mentions.new.items
        ≡ mentions.old.items ++ flat_map member_mentions (filter is_sound (filter (counts api.now) (children name.now element.now)))) }
{
    let mut children = element.children();
    while let Some(next) = children.next() {
        if name == next.name() {
            read_member(alloc, &next, api, members, mentions, draft)?;
        }
    }
    Ok(())
}

/// Reads a member or parameter, if it counts.
fn read_member(
    alloc: Global,
    element: &Element,
    api: &[u8],
    members: &mut Vec<MemberForm>,
    mentions: &mut Vec<Mention>,
    draft: &mut Draft,
) -> Result<(), Memory>
    ensures faults { IfOk result (λ _. draft.new
        ≡ with_items draft.old (lacks (filter (counts api.now) (element.now ∷ [])))) }
    ensures members { IfOk result (λ _. members.new.items
        ≡ members.old.items ++ map member_of (filter is_sound (filter (counts api.now) (element.now ∷ [])))) }
    ensures mentions { IfOk result (λ _. mentions.new.items
        ≡ mentions.old.items ++ flat_map member_mentions (filter is_sound (filter (counts api.now) (element.now ∷ [])))) }
{
    if !counts(alloc, element, api)? {
        return Ok(());
    }
    if let Some(part) = read_part(alloc, element, draft)? {
        put_member(alloc, element, part, members, mentions)?;
    }
    Ok(())
}

/// Puts in a member or parameter that has a name and a type, and what it mentions.
fn put_member(
    alloc: Global,
    element: &Element,
    part: SoundPart,
    members: &mut Vec<MemberForm>,
    mentions: &mut Vec<Mention>,
) -> Result<(), Memory>
    requires name { name_inside element.now ≡ Some part.name }
    requires base { child (codes "type") element.now ≡ Some part.base }
    ensures members { IfOk result (λ _. members.new.items ≡ members.old.items ++ member_of element.now ∷ []) }
    ensures mentions { IfOk result (λ _. mentions.new.items ≡ mentions.old.items ++ member_mentions element.now) }
{
    let SoundPart { name, base } = part;
    let of = mention_of(alloc, &base, Sort::Type)?;
    let member = member_of(
        alloc,
        element,
        name,
        Bytes::from_slice(alloc, of.name.as_slice())?,
    )?;
    members.push(member)?;
    mentions.push(of)?;
    mention_bounds(alloc, element, mentions)?;
    Ok(())
}

/// What a member or parameter says that has a name and the name of a type.
fn member_of(
    alloc: Global,
    element: &Element,
    name: Bytes,
    base: Bytes,
) -> Result<MemberForm, Memory>
    ensures { IfOk result (λ member. member ≡ record (member_of element.now) { name = name; base = base }) }
{
    let text = element.text(alloc)?;
    let stars = stars_in(text.as_slice());
    let text = collapse(alloc, text.as_slice())?;
    let values = value_or_empty(alloc, element, b"values")?;
    let len = first_of(alloc, element, b"len")?;
    let optional = is_optional(alloc, element)?;
    let silent = has_value(alloc, element, b"noautovalidity", b"true")?;
    Ok(MemberForm {
        place: element.place(),
        name,
        text,
        base,
        stars,
        values,
        len,
        optional,
        silent,
    })
}

/// Whether the attribute `optional` is `true` up to its first comma.
fn is_optional(alloc: Global, element: &Element) -> Result<bool, Memory>
    ensures { IfOk result (λ optional. optional
        ≡ bytes_eq (codes "true") (first_part (value_or_empty (codes "optional") element.now))) }
{
    match element.attribute(alloc, b"optional")? {
        Some(value) => Ok(b"true".as_slice() == first_part(value.as_slice())),
        None => Ok(false),
    }
}

/// The value of an attribute up to its first comma, or nothing.
fn first_of(alloc: Global, element: &Element, attribute: &[u8]) -> Result<Bytes, Memory>
    ensures { IfOk result (λ first. first ≡ first_part (value_or_empty attribute.now element.now)) }
{
    let value = value_or_empty(alloc, element, attribute)?;
    let first = Bytes::from_slice(alloc, first_part(value.as_slice()))?;
    Ok(first)
}

/// Puts the constants that bound the arrays of a member behind other mentions.
fn mention_bounds(
    alloc: Global,
    element: &Element,
    mentions: &mut Vec<Mention>,
) -> Result<(), Memory>
    ensures { IfOk result (λ _. mentions.new.items
        ≡ mentions.old.items ++ map (mention_of sort.Constant) (children (codes "enum") element.now)) }
{
    let mut children = element.children();
    while let Some(next) = children.next() {
        if b"enum".as_slice() == next.name() {
            mentions.push(mention_of(alloc, &next, Sort::Constant)?)?;
        }
    }
    Ok(())
}

/// What a member, parameter or prototype has.
#[derive(Drop)]
struct SoundPart<'a> {
    name: Bytes,
    base: Element<'a>,
}

/// The name and the type of a member, parameter or prototype, and none where it lacks one: what it lacks is put in.
fn read_part<'a>(
    alloc: Global,
    element: &Element<'a>,
    draft: &mut Draft,
) -> Result<Option<SoundPart<'a>>, Memory>
    ensures faults { IfOk result (λ _. draft.new
        ≡ with_items draft.old (map (bad_at element.now) (part_words element.now))) }
    ensures sound { IfOk result (λ found. is_some found ≡ is_sound element.now) }
    ensures name { IfOk result (λ found. IfSome found (λ part. name_inside element.now ≡ Some part.name)) }
    ensures base { IfOk result (λ found. IfSome found (λ part. child (codes "type") element.now
        ≡ Some part.base)) }
{
    let name = name_inside(alloc, element)?;
    let base = child(element, b"type");
    put_lack(alloc, element, name.is_none(), b"name", draft)?;
    put_lack(alloc, element, base.is_none(), b"type", draft)?;
    match name {
        Some(name) => match base {
            Some(base) => Ok(Some(SoundPart { name, base })),
            None => Ok(None),
        },
        None => Ok(None),
    }
}

/// Puts in that an element lacks what a word says, if it does.
fn put_lack(
    alloc: Global,
    element: &Element,
    lacks: bool,
    word: &[u8],
    draft: &mut Draft,
) -> Result<(), Memory>
    ensures { IfOk result (λ _. draft.new
        ≡ with_items draft.old (map (bad_at element.now) (word_if lacks word.now))) }
{
    if lacks {
        draft.put_fault(Fault {
            code: RowCode::BadAttribute,
            at: element.place(),
            word: Bytes::from_slice(alloc, word)?,
        })?;
    }
    Ok(())
}
