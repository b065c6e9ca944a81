//! Names that name each other in a circle.
ghost use Rattle.std.specs.Prelude.{◌≡◌, ◌<◌, ◌^◌, ◌∷◌, ℕ, List, All, IfOk, length, MatchOption};
ghost use Rattle.reg_registry.specs.Naming.{IsCircle, IsOnCircle};

mod groups;
mod walk;
mod way;

use crate::registry::Row;
use std::alloc::Global;
use vkb_bytes::Memory;

/// A circle of names through the first name that lies on any, if there is one. The time is linear in the pairs of names of
/// which one names the other.
pub fn first_circle(alloc: Global, rows: &[Row]) -> Result<Option<Vec<u32>>, Memory>
    requires ids { All (λ row. All (λ id. id.0 < length rows.now) row.named) rows.now }
    requires few { length rows.now < 2 ^ 32 }
    ensures { IfOk result (λ found. MatchOption found
        ((place : ℕ) → IsOnCircle rows.now place → ⊥)
        (λ circle. (first : ℕ) × (others : List ℕ) × (circle.items ≡ first ∷ others) × IsCircle rows.now first others)) }
{
    match walk::first_on_circle(alloc, rows)? {
        None => Ok(None),
        Some(first) => way::way_round(alloc, rows, first),
    }
}
