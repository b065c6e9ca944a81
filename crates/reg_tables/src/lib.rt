//! Tables over what the elements of a registry say: what is found under a name, which values enumerants have, where chains of aliases
//! end, and which names in texts of `depends` are members of structs. With them stands what can be wrong with values and texts, and with
//! the number of the names.
//!
//! ```text
//! <types><type category="enum" name="VkE"/>                            declaration of VkE    an enum type
//!   <type category="struct" name="VkA">                                declaration of VkA    a struct
//!     <member><type>int</type> <name>n</name></member></type></types>
//! <enums name="VkE"><enum name="VK_ONE" value="1"/>                    enumerant VK_ONE      its first row, at place 0
//!   <enum name="VK_UNO" alias="VK_ONE"/></enums>                       values                1, none; the chains end in 0, 0
//! <extension name="VK_B" number="2" depends="VkA::n"/>                 bits                  VkA::n
//!
//! let forms = read_forms(alloc, &root, b"vulkan")?;
//! let tables = Tables::new(alloc, &forms)?;
//! let values = Values::new(alloc, &tables)?;
//! let places = words(alloc, tables.forms())?;
//! let bits = find_bits(alloc, &tables, &places)?;
//! ```
//!
//! A name may stand more than once: what is found is the first thing that has it (`tables`, over `places`). The value of an enumerant is
//! given by itself or by the last row of its aliases (`values`, over `chains`), and a member of a struct that some `depends` names is an
//! option of its own (`bits`, over `members`). The time is linear, but for names that are chosen to collide in a table.
//!
//! Three calls put what is wrong behind other faults: `put_wrong_values`, `put_bad_texts` and `put_limits`. The faults of names, and which
//! of all faults is told, are no concern of this crate.
#![tactic(auto)]

mod bits;
mod chains;
mod counted;
mod faults;
mod limits;
mod members;
mod places;
mod tables;
mod values;

pub use bits::{Bit, find_bits, put_bad_texts, words};
pub use faults::put_fault;
pub use limits::put_limits;
pub use tables::Tables;
pub use values::{Values, put_wrong_values};

#[cfg(test)]
mod tests;
