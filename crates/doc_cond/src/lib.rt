//! What each line of the conditional AsciiDoc of the Vulkan sources is, and which `endif` closes which `ifdef`.
#![tactic(auto)]

ghost use Rattle.std.specs.Prelude.{◌≡◌, ◌≢◌, ◌⊎◌, ℕ, ◌^◌, ◌<◌, ◌++◌, Bool, List, length, IsTrue, IfOk, MatchResult};
ghost use Rattle.std.specs.List.{list_all};
ghost use Rattle.doc_cond.specs.Lines.{GivesAscii, Includes, IsApi, IsBadCondition, IsBegin, IsChapter, IsClose, IsKind, IsKindFault, IsOneLine, IsRefpage, IsValidity, IsWithin, bare, is_end_blank};
ghost use Rattle.doc_cond.specs.Nesting.{ArePairs, IsCloserOf, IsFirstFault};
ghost use Rattle.doc_cond.specs.declared.CondFault.{CondFault};
ghost use Rattle.doc_cond.specs.declared.CondFault.TheVariants.{Memory};
ghost use Rattle.doc_cond.specs.declared.LineKind.{LineKind};
ghost use Rattle.doc_cond.specs.declared.LineKind.TheVariants.{Begin, OneLine, Close, Chapter, Api, Validity, Refpage};

mod lines;
mod names;
mod nest;
mod paths;
mod spans;

use crate::nest::Nest;
pub use spans::is_name;
use std::alloc::{AllocError, AllocFailed, Global};
use thiserror::Error;
use vkb_bytes::{Bytes, Listed};

/// What a line is. Places in a line are in bytes, from 0.
#[derive(Debug, Drop)]
pub enum LineKind {
    /// A line of no other kind.
    Plain,
    /// A line that begins with `//` and no third `/`, or with `////`.
    Comment,
    /// An include of any other form; it stays as it is.
    Other,
    /// `ifdef::NAMES[]`, or where `negated` `ifndef::NAMES[]`. Where `any`, the names are separated by `,`, or there is
    /// one; else they are separated by `+`. A name is one or more letters, digits, `_` and `-`.
    Begin {
        negated: bool,
        any: bool,
        names: Listed<Bytes>,
    },
    /// `ifdef::NAMES[TEXT]` or `ifndef::NAMES[TEXT]`. The text lies in the line from `from` to before `to`.
    OneLine {
        negated: bool,
        any: bool,
        names: Listed<Bytes>,
        from: u32,
        to: u32,
    },
    /// `endif::NAMES[]` or `endif::[]`. Without names `any` is true.
    Close {
        any: bool,
        names: Listed<Bytes>,
    },
    /// `include::{chapters}/PATH[..]`, where `file` is `chapters/PATH`, or `include::{appendices}/PATH[..]`, where it is
    /// `appendices/PATH`. A path is one or more parts with a `/` between any two; a part is one or more letters, digits,
    /// `_`, `-` and `.`, but not `.` or `..`.
    Chapter {
        file: Bytes,
    },
    /// `include::{generated}/api/KIND/NAME.adoc[..]`: an include of the generated page of this name. A kind is one or more
    /// letters, a name one or more letters, digits and `_`.
    Api {
        name: Bytes,
    },
    /// `include::{generated}/validity/KIND/NAME.adoc[..]`: an include of the valid usage of this name, with a kind and a
    /// name as in `Api`.
    Validity {
        name: Bytes,
    },
    /// `:refpage: NAME`, with one or more spaces and tabs before the name: the line sets the attribute `refpage` to it. A
    /// name is one or more letters, digits and `_`.
    Refpage {
        name: Bytes,
    },
}

/// What is wrong with a line or a list of lines. Lines are places in the list, from 0.
#[derive(Debug, Drop, Error)]
pub enum CondFault {
    #[error("a conditional directive of no known form")]
    BadCondition,
    #[error("an opening conditional without its closing one, or a closing one without its opening one (line {line} from 0)")]
    Unbalanced { line: u32 },
    #[error("more than 64 conditionals open (line {line} from 0)")]
    CondDepth { line: u32 },
    #[error("out of memory")]
    Memory,
}

impl From<AllocError> for CondFault {
    ghost from_gives = { λ _ fault. fault ≡ Memory };

    fn from(_error: AllocError) -> CondFault {
        CondFault::Memory
    }
}

impl<T: Drop> From<AllocFailed<T>> for CondFault {
    ghost from_gives = { λ _ fault. fault ≡ Memory };

    fn from(_error: AllocFailed<T>) -> CondFault {
        CondFault::Memory
    }
}

/// The kind of a line. Conditionals and comments have the forms of the AsciiDoc language documentation, includes and the
/// lines that set `refpage` those of the style guide "Vulkan Documentation and Extensions: Procedures and Conventions".
/// Spaces, tabs and carriage returns at the line's end don't count. `BadCondition` is answered where the line begins with
/// `ifdef::`, `ifndef::`, `endif::` or `ifeval::` and has no form of a conditional, `Memory` where memory runs out, and no
/// other fault. It is this tool's own rule that `ifeval` is refused, and names with both `,` and `+` between them, and
/// `endif` with a text in its brackets.
pub fn kind_of(alloc: Global, text: &[u8]) -> Result<LineKind, CondFault>
    requires { length text.now < 2 ^ 32 }
    ensures kind { MatchResult result (IsKind text.now) (IsKindFault text.now) }
    // What a kind spells is read as that kind, unless memory runs out.
    ensures only { (kind : LineKind) → IsKind text.now kind → MatchResult result (λ read. read ≡ kind) (λ fault. fault ≡ Memory) }
    ensures within { IfOk result (IsWithin text.now) }
    ensures ascii { IfOk result GivesAscii }
{
    lines::spelled(alloc, spans::bare(text))
}

/// A line has one kind.
pub fn one_kind()
    ensures { (line : List ℕ) (kind other : LineKind) → IsKind line kind → IsKind line other → kind ≡ other }
{}

/// Each line has a kind, or begins as a conditional and is spelled as none.
pub fn each_line_is_read()
    ensures { (line : List ℕ) → ((kind : LineKind) × IsKind line kind) ⊎ IsBadCondition (bare line) }
{}

/// What is added to a line's end and doesn't count there changes nothing, and a line that is made by a form is read by it.
pub fn made_lines()
    ensures ends { (line ends : List ℕ) → IsTrue (list_all is_end_blank ends) → bare (line ++ ends) ≡ bare line }
    ensures begin { (negated any : Bool) (names : List (List ℕ)) (line : List ℕ) → IsBegin negated any names line → IsKind line (Begin negated any names) }
    ensures one_line { (negated any : Bool) (names : List (List ℕ)) (from to : ℕ) (line : List ℕ) → IsOneLine negated any names from to line → IsKind line (OneLine negated any names from to) }
    ensures close { (any : Bool) (names : List (List ℕ)) (line : List ℕ) → IsClose any names line → IsKind line (Close any names) }
    ensures chapter { (file line : List ℕ) → Includes (IsChapter file) line → IsKind line (Chapter file) }
    ensures api { (name line : List ℕ) → Includes (IsApi name) line → IsKind line (Api name) }
    ensures validity { (name line : List ℕ) → Includes (IsValidity name) line → IsKind line (Validity name) }
    ensures refpage { (name line : List ℕ) → IsRefpage name line → IsKind line (Refpage name) }
{}

/// Each opener of a list of lines with its closer, in the order of the openers, as the AsciiDoc language documentation nests
/// them. The first fault is answered in their place: `Unbalanced` for a closer that has no opener or repeats other names,
/// `CondDepth` for an opener before which 64 are open, which is this tool's own limit, and where no line has such a fault,
/// `Unbalanced` for the first opener that is left open. `Memory` is answered where memory runs out, and `BadCondition`
/// never.
pub fn pairs(alloc: Global, kinds: &[LineKind]) -> Result<Vec<(u32, u32)>, CondFault>
    requires { length kinds.now < 2 ^ 32 }
    ensures { MatchResult result (λ pairs. ArePairs kinds.now pairs.items) (IsFirstFault kinds.now) }
{
    let mut nest = Nest::new(alloc);
    for line in 0..kinds.len() {
        nest.pass(kinds, line)?;
    }
    if nest.waiting.is_empty() {
        let Nest { pairs, waiting: _ } = nest;
        return Ok(pairs);
    }
    let left = nest.waiting[0];
    Err(CondFault::Unbalanced {
        line: nest.pairs[left].0,
    })
}

/// Each list of kinds has its pairs, or a first fault that isn't want of memory.
pub fn each_list_is_paired()
    ensures { (kinds : List LineKind) → ((pairs : List (ℕ × ℕ)) × ArePairs kinds pairs) ⊎ ((fault : CondFault) × IsFirstFault kinds fault × (fault ≢ Memory)) }
{}

/// An opener has one closer.
pub fn one_closer()
    ensures { (kinds : List LineKind) (opener closer other : ℕ) → IsCloserOf kinds opener closer → IsCloserOf kinds opener other → closer ≡ other }
{}

#[cfg(test)]
mod tests;
