//! The tags of a file.
ghost use Rattle.std.specs.Prelude.{◌≡◌, ◌<◌, ◌≤◌, ◌^◌, ◌-◌, ◌+◌, true, false, length, drop, take, codes, count_by, MatchOption, MatchResult, IfSome};
ghost use Rattle.std.specs.Option.{option_copied};
ghost use Rattle.std.specs.List.{fold, suffix_len};
ghost use Rattle.vkb_bytes.specs.Bytes.{begins};
ghost use Rattle.vu_tags.specs.Lines.{is_line_feed};
ghost use Rattle.vu_tags.specs.Statements.{tag_front};
ghost use Rattle.vu_tags.specs.Tags.{IsFirstMalformed, has_malformed, is_malformed, is_misnumbered, last_part, number_at, number_of, numbers_of, past, tag_at};
ghost use Rattle.vu_tags.specs.Reading.{IsRead};

use crate::search::{place_of, tag_run_len};
use vkb_bytes::{decimal_number, short_number};

pub(crate) const TAG_FRONT: &[u8] = b"[[VUID-";

/// What a `[[VUID-` begins.
#[derive(Clone, Copy)]
pub(crate) enum Front {
    /// No tag, or one whose last part is digits but not five.
    Malformed,
    /// A tag without a number.
    Plain,
    Numbered(u32),
}

/// What stands between the brackets of the tag that the bytes begin with, if they begin with one.
#[tactic(auto, unfolding(crate::specs::Tags::tag_at))]
fn tag_at(bytes: &[u8]) -> Option<&[u8]>
    requires { begins bytes.now tag_front ≡ true }
    ensures { option_copied result ≡ tag_at bytes.now }
{
    let behind = &bytes[TAG_FRONT.len()..];
    let len = tag_run_len(behind);
    let (run, rest) = behind.split_at(len);
    if !run.is_empty() && rest.starts_with(b"]]") {
        Some(run)
    } else {
        None
    }
}

/// What stands behind the last `-`, or the whole text.
fn last_part(text: &[u8]) -> &[u8]
    ensures { result.now ≡ last_part text.now }
{
    let mut from = text.len();
    while from > 0 && text[from - 1] != b'-' {
        from -= 1;
    }
    &text[from..]
}

/// What a tag with this text between its brackets is.
fn read_text(text: &[u8]) -> Front
    ensures { IsRead (is_misnumbered text.now) (number_of text.now) result }
{
    let last = last_part(text);
    if last.len() == 5 {
        return match short_number(last) {
            Some(number) => Front::Numbered(number),
            None => Front::Plain,
        };
    }
    match decimal_number(last) {
        Some(_) => Front::Malformed,
        None => Front::Plain,
    }
}

/// What the bytes, which begin `[[VUID-`, begin with.
fn read_front(bytes: &[u8]) -> Front
    requires { begins bytes.now tag_front ≡ true }
    ensures { IsRead (is_malformed bytes.now) (number_at bytes.now) result }
{
    match tag_at(bytes) {
        Some(text) => read_text(text),
        None => Front::Malformed,
    }
}

/// The greater of a start and one more than the greatest number of a file's tags. Where a tag is malformed, the place of the
/// first such in its stead.
pub(crate) fn start_behind(file: &[u8], first: u32) -> Result<u32, usize>
    requires { first < 2 ^ 31 }
    ensures small { MatchResult result (λ next. next < 2 ^ 31) (λ place. place < length file.now) }
    ensures value { MatchResult result
        (λ next. (has_malformed file.now ≡ false) × (next ≡ fold past first (numbers_of file.now)))
        (IsFirstMalformed file.now) }
{
    let mut start = first;
    let mut at = 0;
    while let Some(step) = place_of(&file[at..], TAG_FRONT) {
        let place = at + step;
        match read_front(&file[place..]) {
            Front::Malformed => return Err(place),
            Front::Plain => {}
            Front::Numbered(number) => start = start.max(number + 1),
        }
        at = place + 1;
    }
    Ok(start)
}

/// The line in which a place of a file stands, from 1.
pub(crate) fn line_at(file: &[u8], place: usize) -> u32
    requires small { length file.now < 2 ^ 32 }
    requires within { place < length file.now }
    ensures { result ≡ count_by is_line_feed (take place file.now) + 1 }
{
    let feeds = file[..place].iter().filter(|byte| **byte == b'\n').count();
    feeds as u32 + 1
}
