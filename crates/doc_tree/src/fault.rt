//! What can be wrong with a document.
use std::alloc::{AllocError, AllocFailed};
use thiserror::Error;
use vkb_bytes::{Bytes, Memory};

/// Why a document wasn't loaded: the first thing that is wrong with it, with the name of the file in which it stands. Lines
/// count from 1.
#[derive(Debug, Drop, Error)]
pub enum DocFault {
    #[error("a file could not be read")]
    ReadFault,
    #[error("there is no such file")]
    Missing { name: Bytes },
    /// The file has more than 16,777,216 bytes.
    #[error("the file has too many bytes")]
    TooLarge { name: Bytes },
    /// The include line would open a file within 16 others.
    #[error("too many files are open in one another (line {line})")]
    IncludeDepth { name: Bytes, line: u32 },
    /// With this line the document would have more than 4,000,000 lines, or, at line 0, with this file the buffer more bytes
    /// than it holds.
    #[error("the document is too long (line {line})")]
    DocTooLong { name: Bytes, line: u32 },
    /// With this line the conditions would have more than 1,048,576 names.
    #[error("the conditions have too many names (line {line})")]
    NameLimit { name: Bytes, line: u32 },
    /// The line begins as a conditional and is none.
    #[error("a conditional directive of no known form (line {line})")]
    BadCondition { name: Bytes, line: u32 },
    /// The line closes nothing, or repeats other names than its opener, or opens what nothing in its file closes.
    #[error("an opening conditional without its closing one, or a closing one without its opening one (line {line})")]
    Unbalanced { name: Bytes, line: u32 },
    /// The line opens a conditional within 64 others of its file.
    #[error("more than 64 conditionals open (line {line})")]
    CondDepth { name: Bytes, line: u32 },
    #[error("out of memory")]
    Memory,
}

impl From<AllocError> for DocFault {
    ghost use Rattle.std.specs.Prelude.{◌≡◌};
    ghost use Rattle.doc_tree.specs.declared.fault.DocFault.TheVariants.{Memory};

    ghost from_gives = { λ _ fault. fault ≡ Memory };

    fn from(_error: AllocError) -> DocFault {
        DocFault::Memory
    }
}

impl<T: Drop> From<AllocFailed<T>> for DocFault {
    ghost use Rattle.std.specs.Prelude.{◌≡◌};
    ghost use Rattle.doc_tree.specs.declared.fault.DocFault.TheVariants.{Memory};

    ghost from_gives = { λ _ fault. fault ≡ Memory };

    fn from(_error: AllocFailed<T>) -> DocFault {
        DocFault::Memory
    }
}

impl From<Memory> for DocFault {
    ghost use Rattle.std.specs.Prelude.{◌≡◌};
    ghost use Rattle.doc_tree.specs.declared.fault.DocFault.TheVariants.{Memory};

    ghost from_gives = { λ _ fault. fault ≡ Memory };

    fn from(_error: Memory) -> DocFault {
        DocFault::Memory
    }
}
