//! C declarations of what a registry declares at a choice of its options, and the header of them all.
//!
//! ```text
//! VkFlags          typedef uint32_t VkFlags;
//! VkResult         typedef enum VkResult {
//!                      VK_SUCCESS = 0,
//!                      VK_RESULT_MAX_ENUM = 0x7FFFFFFF
//!                  } VkResult;
//!
//! let set = closure(alloc, &registry, &choice)?;
//! let order = order(alloc, &registry, &set)?;
//! let text = header(alloc, &registry, &choice, &order)?;
//! ```
//!
//! Each part is put behind a text that grows (`lines`): a type's values that stand at a choice (`values`, with `numbers`) between what stands
//! before and behind them (`enum_types`, with `max_names`), the declarations by kind (`declarations`, with `types`, `functions` and `chains`),
//! and the header (`headers`).
#![tactic(auto)]

mod chains;
mod declarations;
mod enum_types;
mod functions;
mod headers;
mod laws;
mod lines;
mod max_names;
mod numbers;
mod types;
mod values;

pub use declarations::declare;
pub use enum_types::{frame, value_line};
pub use headers::header;
pub use laws::enum_types_are_framed;
pub use vkb_bytes::Memory;

#[cfg(test)]
mod tests;
