//! Which choices of a registry's options are permitted: for one choice, and for all at once as a node of a pool.
//!
//! ```text
//! VK_V 1.0, VK_W 1.1, VK_B depends on VK_A        permitted: VK_V; VK_V VK_W; VK_V VK_A VK_B
//!                                                 not: none at all; VK_W alone; VK_V VK_B
//!
//! let choice = choice_of(alloc, &registry, &words)?;
//! let here = closure(alloc, &registry, &choice)?;
//! let permitted = is_permitted(&registry, &choice, &here);
//! let node = permit_node(alloc, &registry, &nodes, &mut pool)?;     // nodes of `presence`
//! ```
#![tactic(auto)]

mod choosing;
mod features;
mod laws;
mod lowest;
mod permitting;
mod putting;
mod rules;

pub use choosing::{ChoiceFault, choice_of, is_permitted};
pub use laws::{
    bare_is_free, choices_are_permitted_or_break_one_first, choices_are_permitted_or_not,
    lowest_is_permitted,
};
pub use permitting::permit_node;
pub use vkb_bytes::Memory;

#[cfg(test)]
mod tests;
