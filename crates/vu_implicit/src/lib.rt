//! The valid usage statements of structs and commands that follow from the registry alone.
//!
//! ```text
//! struct VkA { sType (VK_A), pNext, VkDevice device }     VUID-VkA-sType-sType        pname:sType must: be ename:VK_A
//!                                                         VUID-VkA-pNext-pNext        pname:pNext must: be `NULL`
//!                                                         VUID-VkA-device-parameter   pname:device must: be a valid slink:VkDevice handle
//!
//! let list = statements(alloc, &registry, name)?;         // the number of each statement is its place in this list, from 1
//! ```
#![tactic(auto)]

mod chains;
mod kinds;
mod laws;
mod lengths;
mod listing;
mod parameters;
mod pointers;
mod statement;
mod types;
mod wording;

pub use laws::chains_of_aliases_end;
pub use listing::statements;
pub use statement::Statement;
pub use vkb_bytes::Memory;

#[cfg(test)]
mod tests;
