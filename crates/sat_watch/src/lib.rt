//! Lists of watchers, as a solver keeps them: a watcher stands for a clause, and the list of a literal has a watcher for each
//! clause that is to be looked at when the literal becomes false.
//!
//! A watcher has an index, and its link says which clause it is for and which watcher comes behind it. So a watcher moves to
//! another list while its own is walked, and no memory is taken:
//!
//! ```text
//! heads    list 0: 1   list 1: 2   list 2: -        list 0 is 1, 0 and list 1 is 2
//! links    0: clause 7, last
//!          1: clause 8, then 0
//!          2: clause 9, last
//! ```
//!
//! These lists are made, and the first is walked, so:
//!
//! ```text
//! let mut watches = Watches::new(alloc, 3)?;
//! watches.attach(0, 7)?                    // 0
//! watches.attach(0, 8)?                    // 1, in front of 0
//! watches.attach(1, 9)?                    // 2
//! watches.first(0)                         // Some(1)
//! watches.next(1)                          // Some(0)
//! watches.move_to(0, Some(1), 0, 2);       // 0, behind 1 in list 0, goes to list 2
//! watches.next(1)                          // None
//! ```
#![tactic(auto)]

mod links;
mod watches;

pub use vkb_bytes::Memory;
pub use watches::Watches;

#[cfg(test)]
mod tests;
