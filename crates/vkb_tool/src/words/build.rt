//! The words of a request to build.
ghost use Rattle.std.specs.Prelude.{◌≡◌, ◌^◌, ◌<◌, codes, Some, length, slice_get, IfOk, IfErr};
ghost use Rattle.vkb_tool.specs.Words.{IsWordFault, Spells, items_of};

use super::check::{api_of, attributes, registry_file};
use super::header::option_words;
use super::{Request, WordFault, file_name};
use std::alloc::Global;
use vkb_bytes::{Bytes, Listed, Text};

/// Reads the words behind `build`.
pub(super) fn read_build(alloc: Global, words: &[Vec<u8>]) -> Result<Request, WordFault>
    requires few { length words.now < 2 ^ 32 }
    requires first { slice_get (items_of words.now) 0 ≡ Some (codes "build") }
    ensures request { IfOk result (Spells (items_of words.now)) }
    ensures misplaced { IfErr result (IsWordFault (items_of words.now)) }
{
    let Some(registry) = file_name(words, 1) else {
        return Err(WordFault::Usage { position: 2 });
    };
    let Some(root) = file_name(words, 2) else {
        return Err(WordFault::Usage { position: 3 });
    };
    let Some(api) = api_of(words, registry) else {
        return Err(WordFault::Usage { position: 4 });
    };
    let names = option_words(alloc, words, 4)?;
    let always = attributes(alloc, words, 4 + names.len())?;
    let root = String::from_str(alloc, root)?;
    let api = Bytes::from_slice(alloc, api)?;
    Ok(Request::Build {
        registry: registry_file(alloc, registry)?,
        root: Text::from_string(root),
        api,
        names: Listed::from_vec(names),
        always: Listed::from_vec(always),
    })
}
