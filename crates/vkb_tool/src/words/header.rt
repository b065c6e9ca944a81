//! The words of a request for a header.
ghost use Rattle.std.specs.Prelude.{◌≡◌, ℕ, ◌+◌, ◌^◌, ◌<◌, ◌≤◌, codes, Some, length, slice_get, List, IfSome, IfNone, IfOk, IfErr};
ghost use Rattle.vkb_tool.specs.Reading.{IsApiThird, IsRegistryNamed, LeadsOptions};
ghost use Rattle.vkb_tool.specs.Words.{IsOptionWord, IsWordFault, Spells, items_of, names_option};

use super::check::is_api_name;
use super::{Request, WordFault, file_name, word_at};
use std::alloc::Global;
use vkb_bytes::{Bytes, Listed, Memory, Text};

/// Reads the words behind `header`.
pub(super) fn read_header(alloc: Global, words: &[Vec<u8>]) -> Result<Request, WordFault>
    requires few { length words.now < 2 ^ 32 }
    requires first { slice_get (items_of words.now) 0 ≡ Some (codes "header") }
    ensures request { IfOk result (Spells (items_of words.now)) }
    ensures misplaced { IfErr result (IsWordFault (items_of words.now)) }
{
    let Some(registry) = registry_name(words) else {
        return Err(WordFault::Usage { position: 2 });
    };
    let Some(api) = api_name(words) else {
        return Err(WordFault::Usage { position: 3 });
    };
    let names = option_words(alloc, words, 3)?;
    let end = 3 + names.len();
    if end < words.len() {
        return Err(WordFault::Usage {
            position: end as u32 + 1,
        });
    }
    let registry = String::from_str(alloc, registry)?;
    let api = Bytes::from_slice(alloc, api)?;
    Ok(Request::Header {
        registry: Text::from_string(registry),
        api,
        names: Listed::from_vec(names),
    })
}

/// The name of the registry's file, the second word.
fn registry_name(words: &[Vec<u8>]) -> Option<&str>
    ensures named { IfSome result (λ name. IsRegistryNamed (items_of words.now) name.now) }
    ensures none { IfNone result ((name : List ℕ) → ¬ (IsRegistryNamed (items_of words.now) name)) }
{
    let name = file_name(words, 1)?;
    if name == "-" { None } else { Some(name) }
}

/// The name of the API, the third word.
fn api_name(words: &[Vec<u8>]) -> Option<&[u8]>
    ensures named { IfSome result (λ api. IsApiThird (items_of words.now) api.now) }
    ensures none { IfNone result ((api : List ℕ) → ¬ (IsApiThird (items_of words.now) api)) }
{
    let api = word_at(words, 2)?;
    if is_api_name(api) { Some(api) } else { None }
}

/// The words for options that stand from an index on, from 0, up to the first word that is none.
pub(super) fn option_words(
    alloc: Global,
    words: &[Vec<u8>],
    from: usize,
) -> Result<Vec<Bytes>, Memory>
    requires { from ≤ length words.now }
    ensures { IfOk result (λ names. LeadsOptions from (items_of words.now) names.items) }
{
    let mut names = Vec::new(alloc);
    for at in from..words.len() {
        let Some(name) = option_word(words[at].as_slice()) else {
            return Ok(names);
        };
        names.push(Bytes::from_slice(alloc, name)?)?;
    }
    Ok(names)
}

/// The word, if it is one for an option.
fn option_word(word: &[u8]) -> Option<&[u8]>
    ensures named { IfSome result (λ name. IsOptionWord name.now × (word.now ≡ name.now)) }
    ensures none { IfNone result (¬ (IsOptionWord word.now)) }
{
    if names_option(word) { Some(word) } else { None }
}

/// Whether a word may stand for an option: it isn't empty and doesn't begin with `+`.
fn names_option(word: &[u8]) -> bool
    ensures { result ≡ names_option word.now }
{
    match word {
        [] => false,
        [byte, ..] => *byte != b'+',
    }
}
