//! The words of a check.
ghost use Rattle.std.specs.Prelude.{◌≡◌, ◌≢◌, ℕ, ◌+◌, ◌^◌, ◌<◌, ◌≤◌, codes, Some, length, slice_get, List, IfSome, IfNone, IfOk, IfErr};
ghost use Rattle.std.specs.List.{list_all};
ghost use Rattle.doc_cond.specs.Lines.{is_run};
ghost use Rattle.vkb_tool.specs.Reading.{IsApiAt, IsAttributeFault, SetsAttributes, goes_with, registry_by};
ghost use Rattle.vkb_tool.specs.Words.{IsAttribute, IsWordFault, Spells, attribute_word, is_api_byte, items_of};

use super::{Request, WordFault, file_name, word_at};
use doc_cond::is_name;
use std::alloc::Global;
use vkb_bytes::{Bytes, Listed, Text, is_digit, is_letter};

/// Reads the words behind `check`.
pub(super) fn read_check(alloc: Global, words: &[Vec<u8>]) -> Result<Request, WordFault>
    requires few { length words.now < 2 ^ 32 }
    requires first { slice_get (items_of words.now) 0 ≡ Some (codes "check") }
    ensures request { IfOk result (Spells (items_of words.now)) }
    ensures misplaced { IfErr result (IsWordFault (items_of words.now)) }
{
    let Some(registry) = file_name(words, 1) else {
        return Err(WordFault::Usage { position: 2 });
    };
    let Some(root) = file_name(words, 2) else {
        return Err(WordFault::Usage { position: 3 });
    };
    let Some(api) = api_of(words, registry) else {
        return Err(WordFault::Usage { position: 4 });
    };
    let always = attributes(alloc, words, 4)?;
    let root = String::from_str(alloc, root)?;
    let api = Bytes::from_slice(alloc, api)?;
    Ok(Request::Check {
        registry: registry_file(alloc, registry)?,
        root: Text::from_string(root),
        api,
        always: Listed::from_vec(always),
    })
}

/// The file of a registry by its word, which is `-` where there is none.
pub(super) fn registry_file(alloc: Global, word: &str) -> Result<Option<Text>, WordFault>
    ensures read { IfOk result (λ file. file ≡ registry_by word.now) }
    ensures wrong { IfErr result (λ fault. fault ≡ WordFault.Memory) }
{
    if word == "-" {
        return Ok(None);
    }
    let file = String::from_str(alloc, word)?;
    Ok(Some(Text::from_string(file)))
}

/// The word of the API, the fourth, if it goes with the word of the registry.
pub(super) fn api_of<'a>(words: &'a [Vec<u8>], registry: &str) -> Option<&'a [u8]>
    ensures goes { IfSome result (λ api. IsApiAt (items_of words.now) registry.now api.now) }
    ensures none { IfNone result ((api : List ℕ) → ¬ (IsApiAt (items_of words.now) registry.now api)) }
{
    let api = word_at(words, 3)?;
    if goes_with(registry, api) {
        Some(api)
    } else {
        None
    }
}

/// Whether the word of an API goes with the word of a registry: a `-` with a `-`, and a name with any other.
fn goes_with(registry: &str, api: &[u8]) -> bool
    ensures { result ≡ goes_with registry.now api.now }
{
    if registry == "-" {
        return api == b"-".as_slice();
    }
    is_api_name(api)
}

/// Whether a word is the name of an API: one or more letters and digits.
pub(super) fn is_api_name(api: &[u8]) -> bool
    ensures { result ≡ is_run is_api_byte api.now }
{
    !api.is_empty() && all_api_bytes(api)
}

fn all_api_bytes(api: &[u8]) -> bool
    ensures { result ≡ list_all is_api_byte api.now }
{
    api.iter().all(|byte| is_letter(*byte) || is_digit(*byte))
}

/// The names of the attributes that the words from an index on, from 0, set.
pub(super) fn attributes(
    alloc: Global,
    words: &[Vec<u8>],
    from: usize,
) -> Result<Vec<Bytes>, WordFault>
    requires few { length words.now < 2 ^ 32 }
    requires enough { from ≤ length words.now }
    ensures read { IfOk result (λ names. SetsAttributes from (items_of words.now) names.items) }
    ensures wrong { IfErr result (IsAttributeFault from (items_of words.now)) }
{
    let mut names = Vec::new(alloc);
    for at in from..words.len() {
        let Some(name) = attribute(words[at].as_slice()) else {
            return Err(WordFault::Usage {
                position: at as u32 + 1,
            });
        };
        names.push(Bytes::from_slice(alloc, name)?)?;
    }
    Ok(names)
}

/// The name of the attribute that a word sets.
fn attribute(word: &[u8]) -> Option<&[u8]>
    ensures set { IfSome result (λ name. IsAttribute name.now × (word.now ≡ attribute_word name.now)) }
    ensures none { IfNone result ((name : List ℕ) → IsAttribute name → word.now ≢ attribute_word name) }
{
    match word {
        [b'+', name @ ..] if is_name(name) => Some(name),
        _ => None,
    }
}
