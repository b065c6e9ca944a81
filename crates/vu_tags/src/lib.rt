//! Tags (VUIDs) for the valid usage statements of the Vulkan specification's chapters: which statements a file has, and new tags
//! for those that have none.
//!
//! A block of valid usage begins with a line `.Valid Usage` and directly behind it a line `****`, outside another block, and
//! ends before the next line `****` or with the file. Spaces, tabs and carriage returns at these lines' ends don't count. A
//! statement begins with a line of the block that begins `  * ` and runs to the next such line or the block's end:
//!
//! ```text
//! include::{generated}/api/structs/VkFoo.adoc[]
//! .Valid Usage
//! ****
//!   * [[VUID-VkFoo-size-00007]]       a statement with a tag
//!     pname:size must: be 4
//!   * pname:data must: be null        and one without
//! ****
//! ```
//!
//! `tag_files` puts `[[VUID-VkFoo-data-00008]]` behind the second `*`, and the rest of the statement on a line of its own.
#![tactic(auto)]

ghost use Rattle.std.specs.Prelude.{◌≡◌, ◌+◌, ◌++◌, ◌^◌, ◌<◌, ◌≤◌, length, MatchResult, IfOk};
ghost use Rattle.std.specs.List.{sum_by};
ghost use Rattle.vu_tags.specs.Lines.{lines_of};
ghost use Rattle.vu_tags.specs.Progress.{usage_in};
ghost use Rattle.vu_tags.specs.Statements.{usages_of};
ghost use Rattle.vu_tags.specs.Tagged.{AreTagged, IsTagFault};

mod blocks;
mod laws;
mod lines;
mod pieces;
mod search;
mod survey;
mod tags;
mod writing;

use crate::blocks::{Block, further};
use crate::lines::{is_bullet, line_len};
use crate::survey::survey;
use crate::writing::write_files;
pub use laws::{old_bytes_stay, old_tags_stand, pages_are_one, tagging_again_changes_nothing};
use std::alloc::{AllocError, AllocFailed, Global};
use thiserror::Error;
use vkb_bytes::{Bytes, Listed, Memory};

/// The first and the last line of a statement, in lines of the file from 0.
#[derive(Clone, Copy, Debug, PartialEq, Eq)]
pub struct Usage {
    pub first: u64,
    pub last: u64,
}

/// Files with tags, in the order of those that were given, and how many of their tags are new.
#[derive(Debug, Drop)]
pub struct Tagged {
    pub files: Listed<Bytes>,
    pub count: u32,
}

/// Why no tags are given.
#[derive(Debug, Drop, Error)]
pub enum TagFault {
    /// The first malformed tag: the place of its file, from 0, and its line, from 1.
    #[error("a malformed tag (file {file} from 0, line {line})")]
    BadTag { file: u32, line: u32 },
    /// How many statements need a number, and how many numbers are left.
    #[error("{needed} statements need a number, and {left} are left")]
    NoNumber { needed: u32, left: u32 },
    #[error("out of memory")]
    Memory,
}

impl From<Memory> for TagFault {
    ghost use Rattle.vu_tags.specs.declared.TagFault.TheVariants.{Memory as OutOfMemory};

    ghost from_gives = { λ _ fault. fault ≡ OutOfMemory };

    fn from(_error: Memory) -> TagFault {
        TagFault::Memory
    }
}

/// The statements of a file, with and without a tag, in order. `Memory` is answered where memory runs out.
pub fn usages(alloc: Global, file: &[u8]) -> Result<Vec<Usage>, Memory>
    ensures { IfOk result (λ usages. usages.items ≡ usages_of file.now) }
{
    let mut usages = Vec::new(alloc);
    let mut at = 0;
    let mut number: u64 = 0;
    let mut block = Block::outside();
    while at < file.len() {
        let rest = &file[at..];
        let len = line_len(rest);
        let (line, after) = rest.split_at(len);
        put_usage(&mut usages, block, number, line, after)?;
        block = block.after(line);
        at += len;
        number += 1;
    }
    Ok(usages)
}

/// Puts the statement that begins with a line, if one does, behind those before it.
fn put_usage(
    usages: &mut Vec<Usage>,
    block: Block,
    number: u64,
    line: &[u8],
    after: &[u8],
) -> Result<(), Memory>
    requires { number + length after.now < 2 ^ 64 }
    ensures { IfOk result (λ _. usages.new.items ≡ usages.old.items ++ usage_in block number line.now (lines_of after.now)) }
{
    if block.inside && is_bullet(line) {
        let last = number + further(after).lines as u64;
        usages.push(Usage {
            first: number,
            last,
        })?;
    }
    Ok(())
}

/// The files, with a new tag for each statement that has none. `first` is the least number that a new tag may have.
///
/// A tag is `[[VUID-`, one or more letters, digits, `_`, `-`, `:`, `.`, `{` and `}`, and `]]`. Its number is what stands behind
/// its last `-`, where that is five digits. New tags are numbered in order of files and lines, from the greater of `first` and
/// one more than the greatest number of all tags of all files. A new tag stands directly behind the statement's `  * `, a line
/// feed and four spaces behind it, and nothing else is changed. It is `[[VUID-PAGE-PARAMETER-NNNNN]]`, where PAGE is the name
/// of the last generated page that a line above includes, else `{refpage}`, and PARAMETER the run of letters, digits and `_`
/// behind the statement's first `pname:` that has one, else `None`.
///
/// `BadTag` is answered where a `[[VUID-` of any line begins no tag, or one whose last part is digits but not five. Where there
/// is none, `NoNumber` is answered where the statements without a tag are more than the numbers that are left. `Memory` is
/// answered where memory runs out.
pub fn tag_files(alloc: Global, files: &[Bytes], first: u32) -> Result<Tagged, TagFault>
    requires least { 1 ≤ first }
    requires most { first ≤ 99999 }
    requires few { length files.now < 2 ^ 32 }
    requires small { sum_by length files.now < 2 ^ 32 }
    ensures { MatchResult result (AreTagged first files.now) (IsTagFault first files.now) }
{
    let plan = survey(files, first)?;
    if plan.needed > plan.left {
        return Err(TagFault::NoNumber {
            needed: plan.needed,
            left: plan.left,
        });
    }
    let files = write_files(alloc, files, plan.start)?;
    Ok(Tagged {
        files: Listed::from_vec(files),
        count: plan.needed,
    })
}

#[cfg(test)]
mod tests;
