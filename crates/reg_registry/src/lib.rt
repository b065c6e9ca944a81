//! What a registry declares, as it is kept: names with what is declared under each, options with what they ask for, and the blocks of
//! names that these require and remove.
//!
//! ```text
//! names    0 int, 1 VkA          VkA is a struct with a member of type 0, so it names 0
//! options  0 VK_V, 1 VK_B        VK_B is an extension that depends on VK_V
//! blocks   VK_V requires 1
//!
//! let registry = Registry::bare(alloc, &options)?;        // declares nothing, and its options are free
//! ```
//!
//! A `Registry` is always sound: what its rows name is there, no text or list is too long, and no names name each other in a circle
//! (`first_circle` finds one). Who reads a registry puts it together by `Registry::from_parts`.
#![tactic(auto)]

mod bare;
mod circles;
mod kinds;
mod laws;
mod names;
mod registry;
mod words;

pub use circles::first_circle;
pub use kinds::{Kind, Shape};
pub use laws::{circles_are_there_or_not, names_lead_or_not};
pub use names::put_name;
pub use registry::{Block, Choice, Enumerant, Member, OptionRow, Registry, Row};
pub use vkb_bytes::Memory;
pub use words::is_name;

#[cfg(test)]
mod tests;
