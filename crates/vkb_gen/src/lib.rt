//! Samples: a registry and a chapter that are made from a seed and a size, for trying a check on much of one kind.
//!
//! A sample has as many structs and extensions as its size says. Each but the first has a parent, drawn among all before it, to
//! which the struct points and for which the extension asks; every third extension asks for a second one too. The chapter links
//! each struct to its parent's, and is made so that every link holds at every choice at which an extension comes with all that it
//! asks for.
#![tactic(auto)]

ghost use Rattle.std.specs.Prelude.{◌≡◌, ◌≤◌, IfOk};
ghost use Rattle.vkb_gen.specs.Chapter.{chapter_of};
ghost use Rattle.vkb_gen.specs.Registry.{registry_of};

mod chapter;
mod draws;
mod files;
mod items;
mod laws;
mod registry;

use crate::chapter::chapter_text;
use crate::items::items_of;
use crate::registry::registry_text;
pub use files::Sample;
pub use laws::parents_stand_before;
use std::alloc::Global;
pub use vkb_bytes::Memory;

/// The sample of a seed and a size: always the same bytes, whose parents are drawn by Knuth's generator for MMIX. `Memory` is
/// answered where memory runs out.
pub fn sample(alloc: Global, seed: u64, size: u32) -> Result<Sample, Memory>
    requires least { 1 ≤ size }
    requires most { size ≤ 2000 }
    ensures registry { IfOk result (λ sample. sample.registry ≡ registry_of seed size) }
    ensures chapter { IfOk result (λ sample. sample.chapter ≡ chapter_of seed size) }
{
    let items = items_of(alloc, seed, size)?;
    let registry = registry_text(alloc, &items)?;
    let chapter = chapter_text(alloc, &items)?;
    Ok(Sample { registry, chapter })
}

#[cfg(test)]
mod tests;
