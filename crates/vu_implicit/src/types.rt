//! The type of a member, and the structs that extend a struct.
ghost use Rattle.std.specs.Prelude.{◌≡◌, ◌<◌, length, slice_get, All, Some, IfOk};
ghost use Rattle.reg_registry.specs.Naming.{IsSoundRow};
ghost use Rattle.vu_implicit.specs.Types.{end_of, extending, extends};

use crate::kinds::is_struct;
use reg_registry::{Registry, Row};
use std::alloc::Global;
use vkb_bytes::Memory;
use vkb_formula::NameId;

/// What is declared where the chain of aliases of a name ends. It takes no memory.
pub(crate) fn end_row(r: &Registry, name: NameId) -> &Row
    requires { name.0 < length r.now.names }
    ensures row { slice_get r.now.rows (end_of r.now.rows name).0 ≡ Some result.now }
    ensures sound { IsSoundRow (length r.now.names) (length r.now.blocks) result.now }
{
    r.row(end_of(r, name))
}

/// Where the chain of aliases of a name ends.
fn end_of(r: &Registry, name: NameId) -> NameId
    requires { name.0 < length r.now.names }
    ensures end { result ≡ end_of r.now.rows name }
    ensures held { result.0 < length r.now.names }
{
    r.is_sound();
    let mut end = name;
    for step in 0..r.names().len() {
        match r.row(end).alias {
            Some(next) => end = next,
            None => return end,
        }
    }
    end
}

/// The structs that extend a struct, in the order of the registry. The time is in proportion to what all rows extend.
pub(crate) fn extending(alloc: Global, r: &Registry, owner: NameId) -> Result<Vec<NameId>, Memory>
    ensures all { IfOk result (λ ids. ids.items ≡ extending r.now.rows owner) }
    ensures held { IfOk result (λ ids. All (λ id. id.0 < length r.now.names) ids.items) }
{
    r.is_sound();
    let mut ids = Vec::new(alloc);
    for place in 0..r.names().len() {
        if extends(r.row(NameId(place)), owner) {
            ids.push(NameId(place))?;
        }
    }
    Ok(ids)
}

/// Whether a row is a struct that extends another.
fn extends(row: &Row, owner: NameId) -> bool
    ensures { result ≡ extends owner row.now }
{
    is_struct(row.kind) && row.alias.is_none() && row.extends.as_slice().contains(&owner)
}
