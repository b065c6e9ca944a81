//! The lines of a text.
ghost use Rattle.std.specs.Prelude.{◌≡◌, ◌+◌, ◌≤◌, ◌<◌, ◌^◌, ◌∷◌, take, drop, length, IfOk};
ghost use Rattle.vkb_text.specs.Lines.{lines_of};
ghost use Rattle.vkb_text.specs.Placed.{AreLines};
ghost use Rattle.vkb_text.specs.Spans.{IsWithin};

use crate::{Line, Memory, Span, Text};
use memchr::memchr;
use std::alloc::Global;

/// The lines of the part of the buffer at `whole`, in order, as lines of the file of this number. A line ends at a line feed,
/// which is not of it, and what stands behind the last line feed is a line where it isn't empty.
pub fn lines(alloc: Global, text: &Text, whole: Span, file: u32) -> Result<Vec<Line>, Memory>
    requires { IsWithin text.now.bytes whole }
    ensures { IfOk result (λ lines. AreLines text.now.bytes whole file lines.items) }
{
    let mut lines = Vec::new(alloc);
    let mut from = whole.from;
    while from < whole.to {
        let rest = text.slice(Span { from, to: whole.to });
        let to = from + line_len(rest) as u32;
        let number = lines.len() as u32 + 1;
        let span = Span { from, to };
        lines.push(Line { file, number, span })?;
        from = to + 1;
    }
    Ok(lines)
}

/// The length of the first line of a text.
fn line_len(text: &[u8]) -> usize
    requires { 0 < length text.now }
    ensures within { result ≤ length text.now }
    ensures first { lines_of text.now ≡ take result text.now ∷ lines_of (drop (result + 1) text.now) }
{
    match memchr(b'\n', text) {
        Some(end) => end,
        None => text.len(),
    }
}
