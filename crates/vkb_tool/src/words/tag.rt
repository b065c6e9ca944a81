//! The words of a request to tag.
ghost use Rattle.std.specs.Prelude.{◌≡◌, ℕ, ◌^◌, ◌<◌, ◌≤◌, codes, Some, length, slice_get, List, IfSome, IfNone, IfOk, IfErr};
ghost use Rattle.vkb_tool.specs.Reading.{IsFileFault, IsNew, IsNumbered, NamesFiles};
ghost use Rattle.vkb_tool.specs.Words.{IsWordFault, Spells, WritesFirst, items_of};

use super::{Request, WordFault, file_name, word_at};
use std::alloc::Global;
use vkb_bytes::{Listed, Text, short_number};
use vkb_formula::Names;

/// Reads the words behind `tag`.
pub(super) fn read_tag(alloc: Global, words: &[Vec<u8>]) -> Result<Request, WordFault>
    requires few { length words.now < 2 ^ 32 }
    requires first { slice_get (items_of words.now) 0 ≡ Some (codes "tag") }
    ensures request { IfOk result (Spells (items_of words.now)) }
    ensures misplaced { IfErr result (IsWordFault (items_of words.now)) }
{
    let Some(first) = first_number(words) else {
        return Err(WordFault::Usage { position: 2 });
    };
    if words.len() < 3 {
        return Err(WordFault::Usage { position: 3 });
    }
    let files = file_names(alloc, words)?;
    Ok(Request::Tag {
        first,
        files: Listed::from_vec(files),
    })
}

/// The number that the second word writes, if it is one from which tags may be numbered.
fn first_number(words: &[Vec<u8>]) -> Option<u32>
    ensures written { IfSome result (IsNumbered (items_of words.now) 1) }
    ensures none { IfNone result ((first : ℕ) → ¬ (IsNumbered (items_of words.now) 1 first)) }
{
    let word = word_at(words, 1)?;
    number_from(word)
}

/// The number that a word writes, if it is one from which tags may be numbered.
fn number_from(word: &[u8]) -> Option<u32>
    ensures written { IfSome result (WritesFirst word.now) }
    ensures none { IfNone result ((first : ℕ) → ¬ (WritesFirst word.now first)) }
{
    if word.len() > 5 {
        return None;
    }
    match short_number(word) {
        Some(number) if 1 <= number && number <= 99_999 => Some(number),
        _ => None,
    }
}

/// The names of the files that the words from the third on name, each once.
fn file_names(alloc: Global, words: &[Vec<u8>]) -> Result<Vec<Text>, WordFault>
    requires few { length words.now < 2 ^ 32 }
    requires enough { 3 ≤ length words.now }
    ensures read { IfOk result (λ names. NamesFiles (items_of words.now) names.items) }
    ensures wrong { IfErr result (IsFileFault (items_of words.now)) }
{
    let mut seen = Names::new(alloc);
    let mut names = Vec::new(alloc);
    for at in 2..words.len() {
        let Some(name) = new_name(words, at, &seen) else {
            return Err(WordFault::Usage {
                position: at as u32 + 1,
            });
        };
        seen.intern(name.as_bytes())?;
        names.push(Text::from_string(String::from_str(alloc, name)?))?;
    }
    Ok(names)
}

/// The file's name that stands at an index, from 0, if it isn't among these.
fn new_name<'a>(words: &'a [Vec<u8>], at: usize, seen: &Names) -> Option<&'a str>
    ensures new { IfSome result (λ name. IsNew (items_of words.now) seen.now at name.now) }
    ensures none { IfNone result ((name : List ℕ) → ¬ (IsNew (items_of words.now) seen.now at name)) }
{
    let name = file_name(words, at)?;
    match seen.find(name.as_bytes()) {
        Some(_) => None,
        None => Some(name),
    }
}
