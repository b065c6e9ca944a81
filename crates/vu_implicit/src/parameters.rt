//! What is said of members and parameters that are no pointers.
ghost use Rattle.std.specs.Prelude.{◌≡◌, ◌<◌, ◌++◌, ◌∷◌, [], codes, length, IfOk, IfSome, OnOk};
ghost use Rattle.vu_implicit.specs.Parameters.{bits_of, enum_value, flags, function, handle, handle_text, is_plain, required_flags, structure, zero_flags};
ghost use Rattle.vu_implicit.specs.Wording.{says};

use crate::kinds::{is_bitmask, is_enum, is_function, is_handle, is_structure};
use crate::statement::Statement;
use crate::wording::{name_of, say, worded, worded_twice};
use reg_registry::{Member, Registry, Row};
use std::alloc::Global;
use vkb_bytes::Memory;
use vkb_formula::NameId;

/// Whether the text of a member has no star.
pub(crate) fn is_plain(m: &Member) -> bool
    ensures { result ≡ is_plain m.now }
{
    m.stars == 0
}

/// What a handle must be.
fn handle_text(alloc: Global, optional: bool, name: &[u8], base: &[u8]) -> Result<Vec<u8>, Memory>
    ensures { IfOk result (λ text. text.items ≡ handle_text optional name.now base.now) }
{
    if optional {
        let unless = b" is not `VK_NULL_HANDLE`, it must: be a valid slink:";
        worded_twice(alloc, b"If pname:", name, unless, base, b" handle")
    } else {
        let must = b" must: be a valid slink:";
        worded_twice(alloc, b"pname:", name, must, base, b" handle")
    }
}

/// Says that a member is valid, with the name of its type or of its bits in the text.
fn say_valid(
    said: &mut Vec<Statement>,
    owner: &[u8],
    m: &Member,
    before: &[u8],
    name: &[u8],
    behind: &[u8],
) -> Result<(), Memory>
    ensures { OnOk result (said.new.items
        ≡ said.old.items ++ says owner.now m.now.name (codes "parameter") (codes "pname:" ++ m.now.name ++ before.now ++ name.now ++ behind.now) ∷ []) }
{
    let of = m.name.as_slice();
    let text = worded_twice(*said.allocator(), b"pname:", of, before, name, behind)?;
    say(said, owner, of, b"parameter", text)
}

/// Says something of a member whose text has no other name.
pub(crate) fn say_alone(
    said: &mut Vec<Statement>,
    owner: &[u8],
    m: &Member,
    end: &[u8],
    behind: &[u8],
) -> Result<(), Memory>
    ensures { OnOk result (said.new.items
        ≡ said.old.items ++ says owner.now m.now.name end.now (codes "pname:" ++ m.now.name ++ behind.now) ∷ []) }
{
    let of = m.name.as_slice();
    let text = worded(*said.allocator(), b"pname:", of, behind)?;
    say(said, owner, of, end, text)
}

/// Of a handle.
pub(crate) fn say_handle(
    said: &mut Vec<Statement>,
    r: &Registry,
    owner: &[u8],
    declared: &Row,
    m: &Member,
) -> Result<(), Memory>
    requires { m.now.base.0 < length r.now.names }
    ensures { OnOk result (said.new.items ≡ said.old.items ++ handle r.now owner.now declared.now m.now) }
{
    if is_plain(m) && is_handle(declared.kind) {
        let of = m.name.as_slice();
        let text = handle_text(*said.allocator(), m.optional, of, name_of(r, m.base))?;
        say(said, owner, of, b"parameter", text)?;
    }
    Ok(())
}

/// Of a value of an enum type.
pub(crate) fn say_enum_value(
    said: &mut Vec<Statement>,
    r: &Registry,
    owner: &[u8],
    declared: &Row,
    m: &Member,
) -> Result<(), Memory>
    requires { m.now.base.0 < length r.now.names }
    ensures { OnOk result (said.new.items ≡ said.old.items ++ enum_value r.now owner.now declared.now m.now) }
{
    if is_plain(m) && is_enum(declared.kind) {
        let before = b" must: be a valid elink:";
        say_valid(said, owner, m, before, name_of(r, m.base), b" value")?;
    }
    Ok(())
}

/// The type of the bits, where a member is a bitmask that has one.
fn bits_of(declared: &Row, m: &Member) -> Option<NameId>
    ensures { result ≡ bits_of declared.now m.now }
{
    if is_plain(m) && is_bitmask(declared.kind) {
        declared.bits
    } else {
        None
    }
}

/// Of a bitmask with bits.
pub(crate) fn say_flags(
    said: &mut Vec<Statement>,
    r: &Registry,
    owner: &[u8],
    declared: &Row,
    m: &Member,
) -> Result<(), Memory>
    requires { IfSome declared.now.bits (λ bits. bits.0 < length r.now.names) }
    ensures { OnOk result (said.new.items ≡ said.old.items ++ flags r.now owner.now declared.now m.now) }
{
    if let Some(bits) = bits_of(declared, m) {
        let before = b" must: be a valid combination of elink:";
        say_valid(said, owner, m, before, name_of(r, bits), b" values")?;
    }
    Ok(())
}

/// Of a bitmask with bits that isn't optional.
pub(crate) fn say_required_flags(
    said: &mut Vec<Statement>,
    owner: &[u8],
    declared: &Row,
    m: &Member,
) -> Result<(), Memory>
    ensures { OnOk result (said.new.items ≡ said.old.items ++ required_flags owner.now declared.now m.now) }
{
    if bits_of(declared, m).is_some() && !m.optional {
        say_alone(said, owner, m, b"requiredbitmask", b" must: not be `0`")?;
    }
    Ok(())
}

/// Of a bitmask without bits.
pub(crate) fn say_zero_flags(
    said: &mut Vec<Statement>,
    owner: &[u8],
    declared: &Row,
    m: &Member,
) -> Result<(), Memory>
    ensures { OnOk result (said.new.items ≡ said.old.items ++ zero_flags owner.now declared.now m.now) }
{
    if is_plain(m) && is_bitmask(declared.kind) && declared.bits.is_none() {
        say_alone(said, owner, m, b"zerobitmask", b" must: be `0`")?;
    }
    Ok(())
}

/// Of a struct or union.
pub(crate) fn say_structure(
    said: &mut Vec<Statement>,
    r: &Registry,
    owner: &[u8],
    declared: &Row,
    m: &Member,
) -> Result<(), Memory>
    requires { m.now.base.0 < length r.now.names }
    ensures { OnOk result (said.new.items ≡ said.old.items ++ structure r.now owner.now declared.now m.now) }
{
    if is_plain(m) && is_structure(declared.kind) {
        let before = b" must: be a valid slink:";
        say_valid(said, owner, m, before, name_of(r, m.base), b" structure")?;
    }
    Ok(())
}

/// Of a function pointer.
pub(crate) fn say_function(
    said: &mut Vec<Statement>,
    r: &Registry,
    owner: &[u8],
    declared: &Row,
    m: &Member,
) -> Result<(), Memory>
    requires { m.now.base.0 < length r.now.names }
    ensures { OnOk result (said.new.items ≡ said.old.items ++ function r.now owner.now declared.now m.now) }
{
    if is_plain(m) && is_function(declared.kind) {
        let before = b" must: be a valid tlink:";
        say_valid(said, owner, m, before, name_of(r, m.base), b" pointer")?;
    }
    Ok(())
}
