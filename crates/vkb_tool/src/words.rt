ghost use Rattle.std.specs.Prelude.{◌≡◌, ℕ, ◌^◌, ◌<◌, ◌↔◌, length, slice_get, IsTrue, IfSome, IfNone, IfOk, IfErr, List, Some};
ghost use Rattle.std.specs.Option.{option_copied};
ghost use Rattle.vkb_tool.specs.Reading.{IsNamed};
ghost use Rattle.vkb_tool.specs.Words.{IsWordFault, Spells, items_of};

mod build;
mod check;
mod header;
mod tag;

use build::read_build;
use check::read_check;
use header::read_header;
use std::alloc::{AllocError, AllocFailed, Global};
use std::str;
use tag::read_tag;
use thiserror::Error;
use vkb_bytes::{Bytes, Listed, Memory, Text};

/// What the words ask for.
#[derive(Debug, Drop)]
pub enum Request {
    /// A verdict on the links of the document of a root, where these names of conditions are always set. Its options and
    /// pages are those of a registry for an API; without one the API is `-`.
    Check {
        registry: Option<Text>,
        root: Text,
        api: Bytes,
        always: Listed<Bytes>,
    },
    /// The text that is built of the document of a root at the choice of these options, where these names of conditions are always
    /// set. Its options and pages are those of a registry for an API; without one the API is `-`.
    Build {
        registry: Option<Text>,
        root: Text,
        api: Bytes,
        names: Listed<Bytes>,
        always: Listed<Bytes>,
    },
    /// The header of what a registry declares for an API at the choice of these options, of which one may stand twice.
    Header {
        registry: Text,
        api: Bytes,
        names: Listed<Bytes>,
    },
    /// New tags, numbered from `first` on, for the statements of these files that have none.
    Tag {
        first: u32,
        files: Listed<Text>,
    },
}

/// Why words were not read.
#[derive(Clone, Copy, Debug, PartialEq, Eq, Error)]
pub enum WordFault {
    /// The position, from 1, of the first word that has no place, or one past the last word where one is missing.
    #[error("the word at position {position} has no place")]
    Usage { position: u32 },
    #[error("out of memory")]
    Memory,
}

impl From<AllocError> for WordFault {
    ghost use Rattle.std.specs.Prelude.{◌≡◌};
    ghost use Rattle.vkb_tool.specs.declared.words.WordFault.TheVariants.{Memory};

    ghost from_gives = { λ _ fault. fault ≡ Memory };

    fn from(_: AllocError) -> WordFault {
        WordFault::Memory
    }
}

impl<T: Drop> From<AllocFailed<T>> for WordFault {
    ghost use Rattle.std.specs.Prelude.{◌≡◌};
    ghost use Rattle.vkb_tool.specs.declared.words.WordFault.TheVariants.{Memory};

    ghost from_gives = { λ _ fault. fault ≡ Memory };

    fn from(_: AllocFailed<T>) -> WordFault {
        WordFault::Memory
    }
}

impl From<Memory> for WordFault {
    ghost use Rattle.std.specs.Prelude.{◌≡◌};
    ghost use Rattle.vkb_tool.specs.declared.words.WordFault.TheVariants.{Memory as NoMemory};

    ghost from_gives = { λ _ fault. fault ≡ NoMemory };

    fn from(_: Memory) -> WordFault {
        WordFault::Memory
    }
}

/// Reads the words of a request, by the first of them:
///
/// - `check REG ROOT API`, where REG and ROOT are files' names and API is one or more letters and digits, or REG and API are both `-`; and then any
///   number of `+ATTR`, where ATTR is one or more letters, digits, `_` and `-`;
/// - `build REG ROOT API`, where these are as in `check`, then any number of NAME, none of which is empty or begins with `+`, and then any number of
///   `+ATTR` as there;
/// - `header REG API`, where REG is a file's name that isn't `-`, and then any number of NAME, none of which is empty or begins with `+`;
/// - `tag FIRST` and one or more FILE, where FIRST is one to five digits, from 1 to 99999, and each FILE is another file's name.
pub fn read_words(alloc: Global, words: &[Vec<u8>]) -> Result<Request, WordFault>
    requires { length words.now < 2 ^ 32 }
    ensures request { IfOk result (Spells (items_of words.now)) }
    ensures misplaced { IfErr result (IsWordFault (items_of words.now)) }
{
    if has_word(words, 0, b"check") {
        return read_check(alloc, words);
    }
    if has_word(words, 0, b"build") {
        return read_build(alloc, words);
    }
    if has_word(words, 0, b"header") {
        return read_header(alloc, words);
    }
    if has_word(words, 0, b"tag") {
        return read_tag(alloc, words);
    }
    Err(WordFault::Usage { position: 1 })
}

/// The word at an index, from 0.
fn word_at(words: &[Vec<u8>], at: usize) -> Option<&[u8]>
    ensures { option_copied result ≡ slice_get (items_of words.now) at }
{
    match words.get(at) {
        Some(word) => Some(word.as_slice()),
        None => None,
    }
}

/// Whether a word stands at an index, from 0.
fn has_word(words: &[Vec<u8>], at: usize, text: &[u8]) -> bool
    ensures { IsTrue result ↔ (slice_get (items_of words.now) at ≡ Some text.now) }
{
    match word_at(words, at) {
        Some(word) => word == text,
        None => false,
    }
}

/// The file's name that stands at an index, from 0.
fn file_name(words: &[Vec<u8>], at: usize) -> Option<&str>
    ensures named { IfSome result (λ name. IsNamed (items_of words.now) at name.now) }
    ensures none { IfNone result ((name : List ℕ) → ¬ (IsNamed (items_of words.now) at name)) }
{
    let word = word_at(words, at)?;
    if word.is_empty() {
        return None;
    }
    match str::from_utf8(word) {
        Ok(name) => Some(name),
        Err(_) => None,
    }
}
