//! Names and where they stand, formulas over options, the `depends` expressions of the Vulkan registry, and pools of
//! shared formulas.
#![tactic(auto)]

mod building;
mod depends;
mod formula;
mod mark;
mod name_set;
mod name_table;
mod names;
mod pool;

pub use depends::{
    ExprFault, a_stop_is_the_longest_front, a_text_is_one_expression, each_text_is_read,
    read_depends, words_of,
};
pub use formula::{Formula, all, any, not};
pub use name_set::NameSet;
pub use name_table::{NameFault, NameId, NameTable};
pub use names::Names;
pub use pool::{
    NodeId, Pool, PoolNode, nodes_keep_their_meaning, reached_are_the_roots_and_their_parts,
    values_are_by_parts,
};
pub use vkb_bytes::Memory;

#[cfg(test)]
mod tests;
