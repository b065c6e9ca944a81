//! Headers, byte for byte.
ghost use Rattle.std.specs.Prelude.{◌≡◌, ◌<◌, length, true};
ghost use Rattle.hdr_writer.specs.Frames.{IsEnumType};

use super::header_texts::{
    KINDS, KINDS_1, MASKS, MASKS_1, NAMED, NAMED_3, OWN, OWN_1, REMOVED, REMOVED_3, TAGS, TAGS_1,
    VALUES, VALUES_1, VALUES_3, VALUES_5, VALUES_7, WINDOWS, WINDOWS_1, WINDOWS_7, WITH_BIT,
    WITH_BIT_8, WITH_BIT_15,
};
use super::*;
use hdr_writer::{declare, frame, value_line};
use reg_registry::Kind;

/// The header at the choice of a number.
fn header_at(alloc: Global, text: &[u8], number: u32) -> Result<Vec<u8>, Fail> {
    let registry = registry_of(alloc, text)?;
    let choice = choice_at(alloc, &registry, number)?;
    let set = closure(alloc, &registry, &choice)?;
    let order = order(alloc, &registry, &set)?;
    if !are_below(&order, registry.names().len()) {
        return Err(Fail::from("no such name"));
    }
    Ok(header(alloc, &registry, &choice, &order)?.into_vec())
}

#[test]
fn headers_are_as_the_table_says(rt: HostRuntime) -> Result<(), Fail> {
    let alloc = rt.alloc();
    let table: [(&[u8], u32, &[u8]); 14] = [
        (WINDOWS, 7, WINDOWS_7),
        (WINDOWS, 1, WINDOWS_1),
        (WITH_BIT, 15, WITH_BIT_15),
        (WITH_BIT, 8, WITH_BIT_8),
        (OWN, 1, OWN_1),
        (NAMED, 3, NAMED_3),
        (REMOVED, 3, REMOVED_3),
        (TAGS, 1, TAGS_1),
        (MASKS, 1, MASKS_1),
        (VALUES, 1, VALUES_1),
        (VALUES, 3, VALUES_3),
        (VALUES, 5, VALUES_5),
        (VALUES, 7, VALUES_7),
        (KINDS, 1, KINDS_1),
    ];
    for (text, number, told) in table {
        let header = header_at(alloc, text, number)?;
        assert_eq!(rt; header.as_slice(), told);
    }
    Ok(())
}

/// The declaration of a name at the choice of a number.
fn declaration_at(alloc: Global, text: &[u8], number: u32, name: &[u8]) -> Result<Vec<u8>, Fail> {
    let registry = registry_of(alloc, text)?;
    let choice = choice_at(alloc, &registry, number)?;
    match registry.names().find(name) {
        Some(id) => Ok(declare(alloc, &registry, &choice, id)?.into_vec()),
        None => Err(Fail::from("no such name")),
    }
}

/// Whether an enum type that is no alias is declared under a name.
fn is_enum_type(registry: &Registry, id: NameId) -> bool
    requires { id.0 < length registry.now.names }
    ensures { result ≡ true → IsEnumType registry.now id }
{
    let row = registry.row(id);
    row.kind == Kind::EnumType && row.alias.is_none()
}

/// The parts of the declaration of an enum type, with the lines of all its values.
fn parts_of(alloc: Global, text: &[u8], name: &[u8]) -> Result<Vec<u8>, Fail> {
    let registry = registry_of(alloc, text)?;
    match registry.names().find(name) {
        Some(id) if is_enum_type(&registry, id) => parts_at(alloc, &registry, id),
        _ => Err(Fail::from("no enum type")),
    }
}

fn parts_at(alloc: Global, registry: &Registry, id: NameId) -> Result<Vec<u8>, Fail>
    requires held { id.0 < length registry.now.names }
    requires is_enum_type { IsEnumType registry.now id }
{
    let (front, back) = frame(alloc, registry, id)?;
    let mut text = front.into_vec();
    for place in 0..registry.row(id).values.as_slice().len() {
        let line = value_line(alloc, registry, id, place as u32)?;
        text.extend_from_slice(line.as_slice())?;
    }
    text.extend_from_slice(back.as_slice())?;
    Ok(text)
}

#[test]
fn enum_types_are_made_of_their_parts(rt: HostRuntime) -> Result<(), Fail> {
    let alloc = rt.alloc();
    let table: [(&[u8], &[u8], &[u8]); 3] = [
        (
            MASKS,
            b"VkM",
            b"\
    typedef enum VkM {\n\
    \x20\x20\x20\x20M_OLD = M_TOP,\n\
    \x20\x20\x20\x20M_NONE = 0,\n\
    \x20\x20\x20\x20M_TOP = 0x80000000,\n\
    \x20\x20\x20\x20M_ALL = 0x00ABCDEF,\n\
    \x20\x20\x20\x20VK_M_MAX_ENUM = 0x7FFFFFFF\n\
    } VkM;\n",
        ),
        (
            MASKS,
            b"VkW",
            b"\
    typedef VkFlags64 VkW;\n\
    static const VkW W_OLD = 0x8000000000000000ULL;\n\
    static const VkW W_NONE = 0ULL;\n\
    static const VkW W_TOP = 0x8000000000000000ULL;\n\
    static const VkW W_LOW = 0x00000400ULL;\n",
        ),
        (
            VALUES,
            b"VkE",
            b"\
    typedef enum VkE {\n\
    \x20\x20\x20\x20E_LOW = -3,\n\
    \x20\x20\x20\x20E_ONE = 1,\n\
    \x20\x20\x20\x20E_A = 1000000002,\n\
    \x20\x20\x20\x20E_B = E_A2,\n\
    \x20\x20\x20\x20E_C = E_ONE,\n\
    \x20\x20\x20\x20E_A2 = -1000001000,\n\
    \x20\x20\x20\x20VK_E_MAX_ENUM = 0x7FFFFFFF\n\
    } VkE;\n",
        ),
    ];
    for (text, name, told) in table {
        assert_eq!(rt; parts_of(alloc, text, name)?.as_slice(), told);
    }
    Ok(())
}

#[test]
fn a_name_is_declared_alone(rt: HostRuntime) -> Result<(), Fail> {
    let alloc = rt.alloc();
    let table: [(&[u8], u32, &[u8], &[u8]); 6] = [
        (KINDS, 0, b"int", b""),
        (KINDS, 0, b"VkUOld", b"typedef VkU VkUOld;\n"),
        (KINDS, 0, b"VK_EMPTY", b"\n"),
        (
            VALUES,
            0,
            b"VkE",
            b"typedef enum VkE {\n    E_LOW = -3,\n    E_ONE = 1,\n    VK_E_MAX_ENUM = 0x7FFFFFFF\n} VkE;\n",
        ),
        (
            VALUES,
            2,
            b"VkE",
            b"\
    typedef enum VkE {\n\
    \x20\x20\x20\x20E_LOW = -3,\n\
    \x20\x20\x20\x20E_ONE = 1,\n\
    \x20\x20\x20\x20E_A = 1000000002,\n\
    \x20\x20\x20\x20E_A2 = -1000001000,\n\
    \x20\x20\x20\x20E_B = E_A2,\n\
    \x20\x20\x20\x20E_C = E_ONE,\n\
    \x20\x20\x20\x20VK_E_MAX_ENUM = 0x7FFFFFFF\n\
    } VkE;\n",
        ),
        (
            VALUES,
            4,
            b"VkE",
            b"\
    typedef enum VkE {\n\
    \x20\x20\x20\x20E_LOW = -3,\n\
    \x20\x20\x20\x20E_A2 = -1000001000,\n\
    \x20\x20\x20\x20VK_E_MAX_ENUM = 0x7FFFFFFF\n\
    } VkE;\n",
        ),
    ];
    for (text, number, name, told) in table {
        assert_eq!(rt; declaration_at(alloc, text, number, name)?.as_slice(), told);
    }
    Ok(())
}
