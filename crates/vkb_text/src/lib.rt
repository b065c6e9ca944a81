//! All texts of a call in one buffer, spans of it that keep their bytes, and the lines of a text.
//!
//! A text is given as bytes and comes back as a span, which names its bytes from then on: nothing is ever taken out of the buffer
//! or moved in it, so what was told of a span stays true. A line is a span too, so that no text is copied to be read.
//!
//! Two texts in one buffer, the first of three lines, the second of one:
//!
//! ```text
//! place    0   1   2   3   4   5   6
//! byte     a   b  \n  \n   c   d  \n
//! texts    [ . . . first . . ] [second]    0 to 5, and 5 to 7
//! lines    0 to 2, 3 to 3, 4 to 5 of the first, and 5 to 6 of the second
//! ```
//!
//! ```text
//! let mut text = Text::new(alloc, 268_435_456);
//! let first = text.add(b"ab\n\nc")?;             // 0 to 5
//! let second = text.add(b"d\n")?;                // 5 to 7
//! let lines = lines(alloc, &text, first, 0)?;    // lines 1 to 3 of file 0: 0 to 2, 3 to 3, 4 to 5
//! text.slice(lines[0].span)                      // ab
//! ```
#![tactic(auto)]

mod buffer;
mod fault;
mod laws;
mod placed;

pub use buffer::Text;
pub use fault::TextFault;
pub use laws::{lines_join, spans_stay};
pub use placed::lines;
pub use vkb_bytes::Memory;

#[cfg(test)]
mod tests;

/// A part of the buffer, in bytes from 0: from `from` to before `to`.
#[derive(Clone, Copy, Debug, PartialEq, Eq)]
pub struct Span {
    pub from: u32,
    pub to: u32,
}

/// A line of a file: the number of its file, from 0, its own number in the file, from 1, and where it stands in the buffer. A
/// span of a line has no line feed.
#[derive(Clone, Copy, Debug, PartialEq, Eq)]
pub struct Line {
    pub file: u32,
    pub number: u32,
    pub span: Span,
}
