//! How statements are worded and tagged.
ghost use Rattle.std.specs.Prelude.{◌≡◌, ◌<◌, ◌++◌, ◌∷◌, [], length, IfOk, OnOk};
ghost use Rattle.vu_implicit.specs.Wording.{link, name_of, says, tag_of};

use crate::statement::Statement;
use reg_registry::{Kind, Registry};
use std::alloc::Global;
use vkb_bytes::{Bytes, Memory};
use vkb_formula::NameId;

/// The declared name at a place. It takes no memory.
pub(crate) fn name_of(r: &Registry, id: NameId) -> &[u8]
    requires { id.0 < length r.now.names }
    ensures { result.now ≡ name_of r.now id }
{
    r.names().name(id)
}

/// A text with a name in it.
pub(crate) fn worded(
    alloc: Global,
    before: &[u8],
    name: &[u8],
    behind: &[u8],
) -> Result<Vec<u8>, Memory>
    ensures { IfOk result (λ text. text.items ≡ before.now ++ name.now ++ behind.now) }
{
    let mut text = Vec::from_slice(alloc, before)?;
    text.extend_from_slice(name)?;
    text.extend_from_slice(behind)?;
    Ok(text)
}

/// A text with two names in it.
pub(crate) fn worded_twice(
    alloc: Global,
    before: &[u8],
    name: &[u8],
    between: &[u8],
    other: &[u8],
    behind: &[u8],
) -> Result<Vec<u8>, Memory>
    ensures { IfOk result (λ text. text.items ≡ before.now ++ name.now ++ between.now ++ other.now ++ behind.now) }
{
    let mut text = worded(alloc, before, name, between)?;
    text.extend_from_slice(other)?;
    text.extend_from_slice(behind)?;
    Ok(text)
}

/// The tag of a statement on a part of an owner.
pub(crate) fn tag_of(alloc: Global, owner: &[u8], on: &[u8], end: &[u8]) -> Result<Bytes, Memory>
    ensures { IfOk result (λ tag. tag ≡ tag_of owner.now on.now end.now) }
{
    let mut tag = worded_twice(alloc, b"VUID-", owner, b"-", on, b"-")?;
    tag.extend_from_slice(end)?;
    Ok(Bytes::from_vec(tag))
}

/// Says something of a part of an owner, which needs no name.
pub(crate) fn say(
    said: &mut Vec<Statement>,
    owner: &[u8],
    on: &[u8],
    end: &[u8],
    text: Vec<u8>,
) -> Result<(), Memory>
    ensures { OnOk result (said.new.items ≡ said.old.items ++ says owner.now on.now end.now text.items ∷ []) }
{
    let alloc = *said.allocator();
    let tag = tag_of(alloc, owner, on, end)?;
    said.push(Statement {
        tag,
        text: Bytes::from_vec(text),
        needs: None,
    })?;
    Ok(())
}

/// A link to a type of this kind, or its name between backquotes.
pub(crate) fn link(alloc: Global, kind: Kind, name: &[u8]) -> Result<Vec<u8>, Memory>
    ensures { IfOk result (λ text. text.items ≡ link kind name.now) }
{
    match kind {
        Kind::Struct | Kind::Union | Kind::Handle => linked(alloc, b"slink:", name),
        Kind::EnumType => linked(alloc, b"elink:", name),
        Kind::Bitmask | Kind::FuncPointer => linked(alloc, b"tlink:", name),
        _ => worded(alloc, b"`", name, b"`"),
    }
}

/// A text that ends in a name.
pub(crate) fn linked(alloc: Global, before: &[u8], name: &[u8]) -> Result<Vec<u8>, Memory>
    ensures { IfOk result (λ text. text.items ≡ before.now ++ name.now) }
{
    let mut text = Vec::from_slice(alloc, before)?;
    text.extend_from_slice(name)?;
    Ok(text)
}
