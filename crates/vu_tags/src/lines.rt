//! The first line of a text, and what a line is.
ghost use Rattle.std.specs.Prelude.{◌≡◌, ◌<◌, ◌≤◌, ◌∷◌, length, take, drop};
ghost use Rattle.doc_cond.specs.Lines.{bare};
ghost use Rattle.vu_tags.specs.Lines.{is_bullet, is_fence, is_text, is_title, lines_of, unfed};

use memchr::memchr;

/// The length of a text's first line with its line feed.
pub(crate) fn line_len(text: &[u8]) -> usize
    requires { 0 < length text.now }
    ensures some { 0 < result }
    ensures within { result ≤ length text.now }
    ensures first { lines_of text.now ≡ take result text.now ∷ lines_of (drop result text.now) }
{
    match memchr(b'\n', text) {
        Some(end) => end + 1,
        None => text.len(),
    }
}

#[tactic(auto, unfolding(crate::specs::Lines::unfed))]
pub(crate) fn unfed(line: &[u8]) -> &[u8]
    ensures value { result.now ≡ unfed line.now }
    ensures short { length result.now ≤ length line.now }
{
    let mut end = line.len();
    while end > 0 && line[end - 1] == b'\n' {
        end -= 1;
    }
    &line[..end]
}

fn is_end_blank(byte: u8) -> bool
    ensures { result ≡ Rattle.doc_cond.specs.Lines.is_end_blank byte }
{
    matches!(byte, b' ' | b'\t' | b'\r')
}

fn bare(line: &[u8]) -> &[u8]
    ensures { result.now ≡ bare line.now }
{
    let mut end = line.len();
    while end > 0 && is_end_blank(line[end - 1]) {
        end -= 1;
    }
    &line[..end]
}

fn is_text(text: &[u8], line: &[u8]) -> bool
    ensures { result ≡ is_text text.now line.now }
{
    bare(unfed(line)) == text
}

#[tactic(auto, unfolding(crate::specs::Lines::is_title))]
pub(crate) fn is_title(line: &[u8]) -> bool
    ensures { result ≡ is_title line.now }
{
    is_text(b".Valid Usage", line)
}

#[tactic(auto, unfolding(crate::specs::Lines::is_fence))]
pub(crate) fn is_fence(line: &[u8]) -> bool
    ensures { result ≡ is_fence line.now }
{
    is_text(b"****", line)
}

#[tactic(auto, unfolding(crate::specs::Lines::is_bullet))]
pub(crate) fn is_bullet(line: &[u8]) -> bool
    ensures { result ≡ is_bullet line.now }
{
    line.starts_with(b"  * ")
}
