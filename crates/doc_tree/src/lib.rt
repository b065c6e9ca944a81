//! A document of several files: its lines in their flat order, each with the conditions round it.
//!
//! [`load`] reads a root file, and behind each include line of a chapter the file that it names, within that line's conditions:
//!
//! ```text
//! r.adoc                           chapters/c.adoc
//! ifdef::A[]                       ifndef::B[]
//! include::{chapters}/c.adoc[]     x
//! endif::[]                        endif::[]
//!
//! the flat document                round the line
//! r.adoc:1  ifdef::A[]
//! r.adoc:2  include::..            ifdef A
//! c.adoc:1  ifndef::B[]            ifdef A
//! c.adoc:2  x                      ifdef A, ifndef B
//! c.adoc:3  endif::[]              ifdef A
//! r.adoc:3  endif::[]
//! ```
//!
//! Each file is read once, however often it is included, and its bytes lie once in the buffer. A condition stands once for its line,
//! and knows the one that it is in, so a line has a number in place of a list. The names of conditions are numbers too.
//!
//! ```text
//! let mut text = Text::new(alloc, 268_435_456);
//! let d = load(alloc, &mut shelf, &mut text, "r.adoc")?;
//! for line in d.lines.as_slice() {
//!     // `line.line` says where it stands, `line.kind` what it is, `line.within` what is round it.
//! }
//! ```
#![tactic(auto)]

ghost use Rattle.std.specs.Prelude.{◌≡◌, ◌+◌, ◌++◌, ℕ, List, length, IfOk};
ghost use Rattle.doc_tree.specs.Answer.{Answers, CountsLoad, IsReadBy};
ghost use Rattle.doc_tree.specs.Loaded.{IsLoaded};
ghost use Rattle.doc_tree.specs.Sources.{AreSources, Sources};
ghost use Rattle.doc_tree.specs.Walk.{walk};

mod draft;
mod fault;
mod laws;
mod source;
mod walk;

use crate::draft::Draft;
use crate::walk::{open_file, walk_file};
use doc_cond::LineKind;
pub use fault::DocFault;
pub use laws::{files_have_sources, one_walk};
use std::alloc::Global;
use vkb_bytes::{Bytes, Listed};
use vkb_formula::{NameId, NameTable};
use vkb_outside::Shelf;
use vkb_text::{Line, Text};

/// The place of a condition in its document, from 0.
#[derive(Clone, Copy, Debug, PartialEq, Eq)]
pub struct CondId(pub u32);

/// The condition of an opener or a one-line form.
#[derive(Drop)]
pub struct Cond {
    /// `ifndef` in place of `ifdef`.
    pub negated: bool,
    /// Whether one of the names suffices, in place of all.
    pub any: bool,
    pub names: Listed<NameId>,
    /// The innermost conditional round it, in its file or at an include line above it. It stands before this one.
    pub within: Option<CondId>,
}

/// A line of a document.
#[derive(Drop)]
pub struct DocLine {
    pub line: Line,
    pub kind: LineKind,
    /// The innermost conditional round the line, in its file or at an include line above it.
    pub within: Option<CondId>,
    /// The condition of a one-line form; no other line has one.
    pub own: Option<CondId>,
}

/// A document: its files in the order in which they were first opened, the names of its conditions in order of first mention,
/// its conditions, and its lines in flat order.
#[derive(Drop)]
pub struct Document {
    pub files: Listed<Bytes>,
    pub names: NameTable,
    pub conds: Listed<Cond>,
    pub lines: Listed<DocLine>,
}

/// How many files may be open in one another below the root.
const MOST_BELOW: u32 = 15;

/// The document of a root file. Its files are read from the shelf into the buffer, each once.
///
/// The walk opens the root and takes its lines in order; behind an include line of a chapter it opens the file that is named there
/// and takes its lines, whatever the conditions round the include line say. The first fault on the way is answered in the
/// document's place: a file that would be the 17th open (`IncludeDepth`), one that the shelf lacks (`Missing`), one of more than
/// 16,777,216 bytes (`TooLarge`) or for which the buffer has no room (`DocTooLong` with line 0), its first ill spelled conditional
/// (`BadCondition`), its first ill nested one (`Unbalanced`, `CondDepth`), and of each line in turn that it would be the 4,000,001st
/// (`DocTooLong`) or its names more than 1,048,576 (`NameLimit`). `ReadFault` is answered only where the shelf failed, and `Memory`
/// where memory runs out. After a fault the buffer may have more files.
///
/// The files are those that the shelf tells. Where it tells none, there are files whose document or first fault this is: each name is
/// read once, so that no two lines take different bytes of one file.
pub fn load<S: Shelf>(
    alloc: Global,
    shelf: &mut S,
    text: &mut Text,
    root: &str,
) -> Result<Document, DocFault>
    ensures loaded { IfOk result (IsLoaded text.new.bytes) }
    // `room` is what the buffer has left at the start.
    ensures document { IsReadBy (S.holds shelf.old) (λ files. (sources : Sources) → AreSources files sources
        → (room : ℕ) → length text.old.bytes + room ≡ text.old.most → Answers sources room (walk sources root.now) text.new.bytes result) }
    ensures counted { CountsLoad (S.read_faults shelf.old) (S.read_faults shelf.new) result }
    ensures kept { S.holds shelf.new ≡ S.holds shelf.old }
    ensures puts { S.put_faults shelf.new ≡ S.put_faults shelf.old }
    ensures buffer { (more : List ℕ) × (text.new.bytes ≡ text.old.bytes ++ more) }
    ensures most { text.new.most ≡ text.old.most }
{
    let mut draft = Draft::new(alloc);
    let mut kept = Vec::new(alloc);
    let file = open_file(alloc, shelf, text, &mut draft, &mut kept, root)?;
    walk_file(
        alloc, shelf, text, &mut draft, &mut kept, file, MOST_BELOW, None,
    )?;
    draft.finish(alloc)
}

#[cfg(test)]
mod tests;
