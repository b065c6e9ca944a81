//! Whether a name is that of a member of a struct.
ghost use Rattle.std.specs.Prelude.{◌≡◌, ◌<◌, IfOk, IfSome, None, Some, length, map, slice_get, if◌then◌else◌};
ghost use Rattle.std.specs.Option.{option_and_then, option_flatten};
ghost use Rattle.reg_tables.specs.Bits.{is_bit, is_member_name, is_struct_kind, member_in, owner_in};
ghost use Rattle.reg_tables.specs.Found.{AreLasts, aliased_at, last_struct_of, members_table};
ghost use Rattle.reg_tables.specs.Lists.{each_name};
ghost use Rattle.reg_forms.specs.declared.forms.Declaration.{Declaration};

use crate::chains::last_places;
use crate::tables::Tables;
use reg_forms::{Declaration, Forms, MemberForm};
use reg_registry::Kind;
use std::alloc::Global;
use vkb_bytes::Memory;
use vkb_formula::Names;

/// Whether a name is that of a member of a declared struct, or of the struct that this is an alias of.
pub(crate) fn is_bit(
    tables: &Tables,
    lasts: &[Option<usize>],
    members: &[Names],
    name: &[u8],
) -> bool
    requires lasts { AreLasts tables.now lasts.now }
    requires members { members.now ≡ map members_table tables.now.declarations }
    ensures { result ≡ is_bit tables.now name.now }
{
    if !is_member_name(name) {
        return false;
    }
    match last_struct(tables, lasts, owner(name)) {
        Some(at) => members[at].find(member(name)).is_some(),
        None => false,
    }
}

/// The place of the last declaration of the chain of aliases that begins with a struct of this name.
fn last_struct(tables: &Tables, lasts: &[Option<usize>], owner: &[u8]) -> Option<usize>
    requires { AreLasts tables.now lasts.now }
    ensures last { option_and_then (slice_get tables.now.declarations) result ≡ last_struct_of tables.now owner.now }
    ensures within { IfSome result (λ at. at < length tables.now.declarations) }
{
    match tables.declared_at(owner) {
        Some(at) => last_from(tables.forms().declarations.as_slice(), lasts, at),
        None => None,
    }
}

/// The place of the last declaration of the chain that begins at a place, where a struct stands there.
fn last_from(declarations: &[Declaration], lasts: &[Option<usize>], at: usize) -> Option<usize>
    requires within { at < length declarations.now }
    requires count { length lasts.now ≡ length declarations.now }
    ensures { (d : Declaration) → slice_get declarations.now at ≡ Some d
        → result ≡ (if is_struct_kind d.kind then option_flatten (slice_get lasts.now at) else None) }
{
    if is_struct(declarations[at].kind) {
        lasts[at]
    } else {
        None
    }
}

/// Whether a kind is that of structs.
fn is_struct(kind: Kind) -> bool
    ensures { result ≡ is_struct_kind kind }
{
    match kind {
        Kind::Struct => true,
        _ => false,
    }
}

/// Whether a name has a `:`.
pub(crate) fn is_member_name(name: &[u8]) -> bool
    ensures { result ≡ is_member_name name.now }
{
    for byte in name {
        if *byte == b':' {
            return true;
        }
    }
    false
}

/// What stands before the first `:`.
fn owner(name: &[u8]) -> &[u8]
    ensures { result.now ≡ owner_in name.now }
{
    for (at, byte) in name.iter().enumerate() {
        if *byte == b':' {
            return &name[..at];
        }
    }
    name
}

/// What stands behind the byte after the first `:`.
fn member(name: &[u8]) -> &[u8]
    ensures { result.now ≡ member_in name.now }
{
    let before = owner(name).len();
    if name.len() < before + 2 {
        return &[];
    }
    &name[before + 2..]
}

/// The place of the last declaration of the chain of aliases that begins at each.
pub(crate) fn last_declarations(
    alloc: Global,
    tables: &Tables,
) -> Result<Vec<Option<usize>>, Memory>
    ensures { IfOk result (λ lasts. AreLasts tables.now lasts.items) }
{
    let mut next = Vec::new(alloc);
    for declaration in tables.forms().declarations.as_slice() {
        next.push(aliased(tables, declaration))?;
    }
    let lasts = last_places(alloc, next.as_slice())?;
    Ok(lasts)
}

/// The place of what a type is an alias of.
fn aliased(tables: &Tables, declaration: &Declaration) -> Option<usize>
    ensures { result ≡ aliased_at tables.now declaration.now }
{
    match &declaration.alias {
        Some(alias) => tables.declared_at(alias.as_slice()),
        None => None,
    }
}

/// The members of each declaration that is a struct and no alias, as a table.
pub(crate) fn members_of_structs(alloc: Global, forms: &Forms) -> Result<Vec<Names>, Memory>
    ensures { IfOk result (λ members. members.items ≡ map members_table forms.now.declarations) }
{
    let mut members = Vec::new(alloc);
    for declaration in forms.declarations.as_slice() {
        members.push(members_of(alloc, declaration)?)?;
    }
    Ok(members)
}

/// The members of a struct that is no alias; none of all else.
fn members_of(alloc: Global, declaration: &Declaration) -> Result<Names, Memory>
    ensures { IfOk result (λ members. members ≡ members_table declaration.now) }
{
    match (declaration.kind, &declaration.alias) {
        (Kind::Struct, None) => member_names(alloc, declaration.members.as_slice()),
        _ => Ok(Names::new(alloc)),
    }
}

/// The names of members, each once.
fn member_names(alloc: Global, members: &[MemberForm]) -> Result<Names, Memory>
    ensures { IfOk result (λ names. names ≡ each_name (map (λ member. member.name) members.now)) }
{
    let mut names = Names::new(alloc);
    for member in members {
        names.intern(member.name.as_slice())?;
    }
    Ok(names)
}
