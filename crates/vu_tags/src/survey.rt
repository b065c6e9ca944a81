//! What all files say before any tag is given.
ghost use Rattle.std.specs.Prelude.{◌≡◌, ◌<◌, ◌≤◌, ◌^◌, false, length, MatchResult};
ghost use Rattle.std.specs.List.{list_any, sum_by};
ghost use Rattle.vu_tags.specs.Statements.{needed_of};
ghost use Rattle.vu_tags.specs.Surveyed.{IsPlan, IsFirstBadFault};
ghost use Rattle.vu_tags.specs.Tags.{IsFirstBad, has_malformed, start_of};

use crate::TagFault;
use crate::blocks::untagged_in;
use crate::tags::{line_at, start_behind};
use vkb_bytes::Bytes;

/// The number that new tags begin with, how many statements need one, and how many numbers are left.
#[derive(Clone, Copy)]
pub(crate) struct Plan {
    pub(crate) start: u32,
    pub(crate) needed: u32,
    pub(crate) left: u32,
}

/// The number that new tags begin with.
fn start_of(files: &[Bytes], first: u32) -> Result<u32, TagFault>
    requires most { first ≤ 99999 }
    requires few { length files.now < 2 ^ 32 }
    requires small { sum_by length files.now < 2 ^ 32 }
    ensures { MatchResult result
        (λ start. (list_any has_malformed files.now ≡ false) × (start ≡ start_of first files.now) × (start < 2 ^ 31))
        (IsFirstBadFault files.now) }
{
    let mut start = first;
    for (file, bytes) in files.iter().enumerate() {
        let bytes = bytes.as_slice();
        start = match start_behind(bytes, start) {
            Ok(next) => next,
            Err(place) => {
                return Err(TagFault::BadTag {
                    file: file as u32,
                    line: line_at(bytes, place),
                });
            }
        };
    }
    Ok(start)
}

/// How many statements have no tag.
#[tactic(auto, unfolding(crate::specs::Statements::needed_of))]
fn needed_of(files: &[Bytes]) -> u32
    requires { sum_by length files.now < 2 ^ 32 }
    ensures { result ≡ needed_of files.now }
{
    let mut needed = 0;
    for file in files {
        needed += untagged_in(file.as_slice());
    }
    needed
}

/// The first malformed tag, or what new tags need.
pub(crate) fn survey(files: &[Bytes], first: u32) -> Result<Plan, TagFault>
    requires most { first ≤ 99999 }
    requires few { length files.now < 2 ^ 32 }
    requires small { sum_by length files.now < 2 ^ 32 }
    ensures { MatchResult result (IsPlan first files.now) (IsFirstBadFault files.now) }
{
    let start = start_of(files, first)?;
    Ok(Plan {
        start,
        needed: needed_of(files),
        left: 100_000_u32.saturating_sub(start),
    })
}
