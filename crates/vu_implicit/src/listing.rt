//! All statements of a name.
ghost use Rattle.std.specs.Prelude.{◌≡◌, ◌<◌, ◌++◌, length, All, IfOk, OnOk};
ghost use Rattle.std.specs.List.{flat_map};
ghost use Rattle.reg_registry.specs.Naming.{IsSoundMember, IsSoundRow};
ghost use Rattle.vu_implicit.specs.Statements.{has_statements, is_asked, member_statements, statements_of, typed_statements};

use crate::chains::{is_pnext, is_stype, say_of_chain};
use crate::kinds::{has_statements_kind, is_struct};
use crate::lengths::Lengths;
use crate::parameters::{
    say_enum_value, say_flags, say_function, say_handle, say_required_flags, say_structure,
    say_zero_flags,
};
use crate::pointers::{say_array_length, say_pointer};
use crate::statement::Statement;
use crate::types::end_row;
use crate::wording::name_of;
use reg_registry::{Member, Registry, Row};
use std::alloc::Global;
use vkb_bytes::Memory;
use vkb_formula::NameId;

/// The valid usage statements of a declared name that follow from the registry. The number of each is its place in the list,
/// from 1.
///
/// The time is in proportion to the members and their texts; where a struct has a member `pNext`, also to what all rows extend; and each type that
/// is an alias adds the steps to its end.
pub fn statements(alloc: Global, r: &Registry, name: NameId) -> Result<Vec<Statement>, Memory>
    requires { name.0 < length r.now.names }
    ensures { IfOk result (λ list. list.items ≡ statements_of r.now name) }
{
    let row = r.row(name);
    let mut said = Vec::new(alloc);
    if has_statements(row) {
        say_of_members(&mut said, r, name, row)?;
    }
    Ok(said)
}

/// Whether a row has statements: a struct or command that is no alias.
fn has_statements(row: &Row) -> bool
    ensures { result ≡ has_statements row.now }
{
    has_statements_kind(row.kind) && row.alias.is_none()
}

/// All that is said of the members of a row, in their order.
fn say_of_members(
    said: &mut Vec<Statement>,
    r: &Registry,
    owner: NameId,
    row: &Row,
) -> Result<(), Memory>
    requires held { owner.0 < length r.now.names }
    requires members { All (IsSoundMember (length r.now.names)) row.now.members }
    ensures { OnOk result (said.new.items ≡ said.old.items ++ flat_map (member_statements r.now owner row.now) row.now.members) }
{
    let lengths = Lengths::new(*said.allocator(), row.members.as_slice())?;
    for m in row.members.as_slice() {
        say_of_member(said, r, owner, row, &lengths, m)?;
    }
    Ok(())
}

/// All that is said of a member or parameter.
fn say_of_member(
    said: &mut Vec<Statement>,
    r: &Registry,
    owner: NameId,
    row: &Row,
    lengths: &Lengths,
    m: &Member,
) -> Result<(), Memory>
    requires held { owner.0 < length r.now.names }
    requires base { m.now.base.0 < length r.now.names }
    requires members { lengths.now ≡ row.now.members }
    ensures { OnOk result (said.new.items ≡ said.old.items ++ member_statements r.now owner row.now m.now) }
{
    if is_struct(row.kind) {
        say_of_chain(said, r, owner, m)?;
    }
    if is_asked(row, m) {
        say_by_type(said, r, name_of(r, owner), lengths, end_row(r, m.base), m)?;
    }
    Ok(())
}

/// Whether the rules for all types ask something of a member.
fn is_asked(row: &Row, m: &Member) -> bool
    ensures { result ≡ is_asked row.now m.now }
{
    !row.returned && !m.silent && !(is_struct(row.kind) && (is_stype(m) || is_pnext(m)))
}

/// All that is said of a member by what its type is.
fn say_by_type(
    said: &mut Vec<Statement>,
    r: &Registry,
    owner: &[u8],
    lengths: &Lengths,
    declared: &Row,
    m: &Member,
) -> Result<(), Memory>
    requires base { m.now.base.0 < length r.now.names }
    requires sound { IsSoundRow (length r.now.names) (length r.now.blocks) declared.now }
    ensures { OnOk result (said.new.items ≡ said.old.items ++ typed_statements r.now owner.now lengths.now m.now declared.now) }
{
    say_handle(said, r, owner, declared, m)?;
    say_enum_value(said, r, owner, declared, m)?;
    say_flags(said, r, owner, declared, m)?;
    say_required_flags(said, owner, declared, m)?;
    say_zero_flags(said, owner, declared, m)?;
    say_pointer(said, r, owner, lengths, declared, m)?;
    say_structure(said, r, owner, declared, m)?;
    say_function(said, r, owner, declared, m)?;
    say_array_length(said, owner, lengths, m)?;
    Ok(())
}
