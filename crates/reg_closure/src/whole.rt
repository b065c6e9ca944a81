//! An order of all names.
ghost use Rattle.std.specs.Prelude.{◌≡◌, length, map, replicate, true, IfOk};
ghost use Rattle.reg_closure.specs.Listed.{IsWholeOrder};

use crate::{order, orders_are_whole};
use reg_registry::Registry;
use std::alloc::Global;
use vkb_bytes::Memory;
use vkb_formula::{NameId, NameSet};

/// All declared names, each before those that name it.
pub(crate) fn whole_order(alloc: Global, r: &Registry) -> Result<Vec<NameId>, Memory>
    ensures { IfOk result (λ order. IsWholeOrder r.now.rows (length r.now.names) (map (λ id. id.0) order.items)) }
{
    orders_are_whole();
    r.is_sound();
    let set = all_names(alloc, r.names().len())?;
    let names = order(alloc, r, &set)?;
    Ok(names)
}

/// The set of all places below a number.
fn all_names(alloc: Global, count: u32) -> Result<NameSet, Memory>
    ensures { IfOk result (λ set. set ≡ replicate count true) }
{
    let mut set = NameSet::new(alloc, count)?;
    for place in 0..count {
        set.add(NameId(place));
    }
    Ok(set)
}
