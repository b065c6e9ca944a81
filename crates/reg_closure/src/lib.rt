//! What a registry declares at a choice of its options, in which order, and for all choices at once.
//!
//! ```text
//! VkA has a member of type VkB        VkA names VkB
//! VK_V requires VkA                   at a choice with VK_V the closure has VkA and VkB
//!                                     the order is VkB, VkA, whatever stands first in the text
//!
//! let set = closure(alloc, &registry, &choice)?;
//! let order = order(alloc, &registry, &set)?;
//! let nodes = presence(alloc, &registry, &mut pool)?;     // node k is true where the closure has name k
//! ```
//!
//! `closing` marks what the roots lead to, `ordering` puts names behind those that they name, and `presences` makes a node of each name along
//! that order (`whole`), from the nodes of the roots (`roots`, put by `nodes`) and the lists of who lists each name (`listed`).
#![tactic(auto)]

mod closing;
mod laws;
mod listed;
mod nodes;
mod ordering;
mod presences;
mod roots;
mod whole;

pub use closing::closure;
pub use laws::{
    closures_are_closed, closures_are_there, names_are_declared_or_not, one_closure, one_order,
    orders_are_there, orders_are_whole, orders_have_all, orders_of_parts,
};
pub use ordering::order;
pub use presences::presence;
pub use vkb_bytes::Memory;

#[cfg(test)]
mod tests;
