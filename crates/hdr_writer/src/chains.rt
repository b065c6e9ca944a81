//! Where chains of aliases end.
ghost use Rattle.std.specs.Prelude.{◌≡◌, ◌<◌, IfOk, Some, length, slice_get};
ghost use Rattle.reg_registry.specs.declared.registry.Row.{Row};
ghost use Rattle.hdr_writer.specs.Aliases.{end_of};
ghost use Rattle.hdr_writer.specs.Ends.{AreEnds, IsEnd};

use reg_registry::Registry;
use std::alloc::Global;
use vkb_bytes::Memory;
use vkb_formula::NameId;

/// Where a chain of aliases ends, and behind how many of them.
#[derive(Clone, Copy)]
pub(crate) struct End {
    place: NameId,
    steps: u32,
}

/// A table for the ends of the chains that begin with each name, none of which is known yet.
pub(crate) fn no_ends(alloc: Global, r: &Registry) -> Result<Vec<Option<End>>, Memory>
    ensures { IfOk result (λ known. AreEnds r.now.rows known.items) }
{
    r.is_sound();
    let known = vec![in alloc; None; r.names().len() as usize]?;
    Ok(known)
}

/// The name at the end of the chain of aliases that begins with one, which is known from then on.
pub(crate) fn end_from(r: &Registry, known: &mut Vec<Option<End>>, id: NameId) -> NameId
    requires held { id.0 < length r.now.names }
    requires known { AreEnds r.now.rows known.old.items }
    ensures known { AreEnds r.now.rows known.new.items }
    ensures held { result.0 < length r.now.names }
    ensures end { (row : Row) → slice_get r.now.rows id.0 ≡ Some row → slice_get r.now.rows result.0 ≡ Some (end_of r.now.rows row) }
{
    let end = next_end(r, known, id);
    known[id.0 as usize] = Some(end);
    end.place
}

/// The name at the end of the chain of aliases that begins with one.
pub(crate) fn end_at(r: &Registry, id: NameId) -> NameId
    requires { id.0 < length r.now.names }
    ensures held { result.0 < length r.now.names }
    ensures end { (row : Row) → slice_get r.now.rows id.0 ≡ Some row → slice_get r.now.rows result.0 ≡ Some (end_of r.now.rows row) }
{
    follow(r, id).place
}

/// Where a chain ends, one alias before what is known of the next, or else alias by alias.
fn next_end(r: &Registry, known: &[Option<End>], id: NameId) -> End
    requires held { id.0 < length r.now.names }
    requires known { AreEnds r.now.rows known.now }
    ensures end { IsEnd r.now.rows id.0 result }
    ensures held { result.place.0 < length r.now.names }
{
    r.is_sound();
    if let Some(other) = r.row(id).alias {
        if let Some(end) = known[other.0 as usize] {
            if end.steps < r.names().len() {
                return End {
                    place: end.place,
                    steps: end.steps + 1,
                };
            }
        }
    }
    follow(r, id)
}

/// Where a chain ends, alias by alias.
fn follow(r: &Registry, id: NameId) -> End
    requires { id.0 < length r.now.names }
    ensures end { IsEnd r.now.rows id.0 result }
    ensures held { result.place.0 < length r.now.names }
{
    r.is_sound();
    let count = r.names().len();
    let mut place = id;
    for steps in 0..count {
        match r.row(place).alias {
            Some(other) => place = other,
            None => return End { place, steps },
        }
    }
    End {
        place,
        steps: count,
    }
}
