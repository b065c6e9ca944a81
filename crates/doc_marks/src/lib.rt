//! The marks of a line of a specification's AsciiDoc: anchors, and the links that lead to them.
#![tactic(auto)]

ghost use Rattle.std.specs.Prelude.{◌≡◌, ◌+◌, ◌^◌, ◌<◌, ◌≤◌, ◌↔◌, [], ◌++◌, length, option_to_list, IsNone, IfSome};
ghost use Rattle.doc_marks.specs.Marks.{marks_of};
ghost use Rattle.doc_marks.specs.Spelling.{ListsMarks};

mod ids;
mod places;
mod search;

use search::{Found, next_mark};
use std::marker::Model;

#[cfg(test)]
mod tests;

/// A place `at` of a line, in bytes from the line's first, at which an anchor or a link begins, and the bytes `from..to` of
/// the line, which are its id as it is written.
///
/// An anchor is `[[`, the longest id, and then `]]` or `,`. A link is `<<`, the longest id, and then `>>` or `,`: its text
/// may run over the line's end. A link is also one of the macros `flink:`, `slink:`, `elink:`, `dlink:`, `tlink:`, `reflink:`
/// and `apiext:`, not directly after a letter, digit or `_`, and then its id, the longest run of letters, digits and `_`. No
/// mark begins directly after a `\`. Marks may overlap.
///
/// The id of an anchor or of a link in brackets has one or more pieces. A piece is a letter, a digit, `_`, `:` or
/// `{refpage}`, and after the first piece also `-` or `.`.
///
/// The brackets are those of AsciiDoc. The macros, and `{refpage}` for the name of the page that a text is shown on, are
/// those of the style guide, "Vulkan Documentation and Extensions: Procedures and Conventions".
#[derive(Clone, Copy, Debug, PartialEq, Eq)]
pub struct Mark {
    pub anchor: bool,
    pub at: u32,
    pub from: u32,
    pub to: u32,
}

/// The marks of a line, in order of place.
#[derive(Debug, Drop)]
pub struct Marks<'a> {
    line: &'a [u8],
    scan: usize,
}

impl<'a> Model for Marks<'a> {
    ghost use Rattle.std.specs.Prelude.{◌^◌, ◌<◌, ◌≤◌, length};
    ghost use Rattle.doc_marks.specs.Marks.{Pending, marks_from};

    ghost Value = { Pending };

    ghost view = { λ m. record { line = m.line.now; left = marks_from m.line.now m.scan } };

    ghost invariant = { λ m. (m.scan ≤ length m.line.now) × (length m.line.now < 2 ^ 32) };
}

impl<'a> Marks<'a> {
    /// All marks of a line of fewer than 2^32 bytes. It takes no memory.
    #[tactic(auto, using(crate::proofs::RangeLemmas::few_marks), unfolding(crate::specs::Marks::marks_of))]
    pub fn new(line: &'a [u8]) -> Marks<'a>
        requires { length line.now < 2 ^ 32 }
        ensures line { result.line ≡ line.now }
        ensures left { result.left ≡ marks_of line.now }
        ensures few { length result.left ≤ length line.now }
    {
        Marks { line, scan: 0 }
    }

    /// The next mark, and `None` where none is left. It takes no memory.
    ///
    /// It is a method of the type's own and no `Iterator`'s, whose callers would know less of what it gives.
    #[tactic(auto, using(crate::proofs::SearchLemmas::none_at_end))]
    pub fn next(&mut self) -> Option<Mark>
        ensures first { self.old.left ≡ option_to_list result ++ self.new.left }
        ensures none { IsNone result ↔ (self.old.left ≡ []) }
        ensures line { self.new.line ≡ self.old.line }
        ensures within { IfSome result
            (λ m. (m.at < m.from) × (m.from < m.to) × (m.to ≤ length self.old.line)) }
    {
        match next_mark(self.line, self.scan) {
            Some(Found { mark, after }) => {
                self.scan = after;
                Some(mark)
            }
            None => {
                self.scan = self.line.len();
                None
            }
        }
    }
}

/// The marks of a line in the words of the rule: those that `Marks` gives are all anchors and links that begin in the line
/// and nothing else, in order of place, each with the longest id and with what has to stand before it and after it. The call
/// does nothing: its contract is the theorem.
pub fn marks_follow_the_rule(line: &[u8])
    ensures { ListsMarks line.now (marks_of line.now) }
{}
