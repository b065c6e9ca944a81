//! Blocks and statements, line by line.
ghost use Rattle.std.specs.Prelude.{◌≡◌, ◌≤◌, ◌<◌, ◌^◌, ◌||◌, not, false, length, take};
ghost use Rattle.std.specs.List.{concat};
ghost use Rattle.vu_tags.specs.Lines.{is_bullet, is_fence, lines_of};
ghost use Rattle.vu_tags.specs.Statements.{further_lines, lacks_tag, untagged_in};
ghost use Rattle.vu_tags.specs.Progress.{block_after, is_untagged_in};

use crate::lines::{is_bullet, is_fence, is_title, line_len};

#[tactic(auto, unfolding(crate::specs::Statements::lacks_tag))]
fn lacks_tag(line: &[u8]) -> bool
    ensures { result ≡ lacks_tag line.now }
{
    !line.starts_with(b"  * [[VUID-")
}

/// What is known of the lines so far: whether the next one lies in a block, and whether the last one is a title.
#[derive(Clone, Copy)]
pub(crate) struct Block {
    pub(crate) inside: bool,
    pub(crate) titled: bool,
}

impl Block {
    pub(crate) fn outside() -> Block
        ensures { result ≡ record { inside = false; titled = false } }
    {
        Block {
            inside: false,
            titled: false,
        }
    }

    pub(crate) fn after(self, line: &[u8]) -> Block
        ensures { result ≡ block_after self line.now }
    {
        Block {
            inside: if is_fence(line) {
                self.titled && !self.inside
            } else {
                self.inside
            },
            titled: is_title(line),
        }
    }

    /// Whether a statement without a tag begins with the line.
    pub(crate) fn needs_tag(self, line: &[u8]) -> bool
        ensures { result ≡ is_untagged_in self line.now }
    {
        self.inside && is_bullet(line) && lacks_tag(line)
    }
}

/// The lines of a statement behind its first: how many they are, and how many bytes they have.
#[derive(Clone, Copy)]
pub(crate) struct Reach {
    pub(crate) lines: usize,
    pub(crate) len: usize,
}

/// Whether a statement goes on with the line.
fn goes_on(line: &[u8]) -> bool
    ensures { result ≡ not (is_bullet line.now || is_fence line.now) }
{
    !is_bullet(line) && !is_fence(line)
}

/// What goes on with a statement, of the lines that follow its first.
pub(crate) fn further(text: &[u8]) -> Reach
    ensures lines { result.lines ≡ length (further_lines (lines_of text.now)) }
    ensures bytes { take result.len text.now ≡ concat (further_lines (lines_of text.now)) }
    ensures few { result.lines ≤ result.len }
    ensures within { result.len ≤ length text.now }
{
    let mut lines = 0;
    let mut at = 0;
    while at < text.len() {
        let rest = &text[at..];
        let len = line_len(rest);
        if !goes_on(&rest[..len]) {
            break;
        }
        lines += 1;
        at += len;
    }
    Reach { lines, len: at }
}

/// How many statements of a file have no tag.
#[tactic(auto, unfolding(crate::specs::Statements::untagged_in))]
pub(crate) fn untagged_in(file: &[u8]) -> u32
    requires { length file.now < 2 ^ 32 }
    ensures value { result ≡ untagged_in file.now }
    ensures few { result ≤ length file.now }
{
    let mut count = 0;
    let mut at = 0;
    let mut block = Block::outside();
    while at < file.len() {
        let rest = &file[at..];
        let len = line_len(rest);
        let line = &rest[..len];
        count += u32::from(block.needs_tag(line));
        block = block.after(line);
        at += len;
    }
    count
}
