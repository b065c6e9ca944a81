//! The names of the last lines of enum types.
ghost use Rattle.std.specs.Prelude.{◌≡◌, ◌-◌, ◌≤◌, ◌++◌, IfOk, OnOk, drop, length};
ghost use Rattle.hdr_writer.specs.MaxNames.{begins_word, max_name, tag_end, tag_of, words};

use crate::lines::put;
use std::alloc::Global;
use vkb_bytes::{Bytes, Memory, is_digit};

/// The words of a name without the tag at its end, `MAX_ENUM`, and the tag.
pub(crate) fn max_name(alloc: Global, tags: &[Bytes], name: &[u8]) -> Result<Bytes, Memory>
    ensures { IfOk result (λ text. text ≡ max_name tags.now name.now) }
{
    let length = name.len() - tag_length(tags, name);
    let mut text = Vec::new(alloc);
    put_words(&mut text, &name[..length])?;
    put(&mut text, b"_MAX_ENUM")?;
    put_tag(&mut text, &name[length..])?;
    Ok(Bytes::from_vec(text))
}

/// How long the longest tag is in which a name ends.
fn tag_length(tags: &[Bytes], name: &[u8]) -> usize
    ensures length { result ≡ length (tag_of tags.now name.now) }
    ensures within { result ≤ length name.now }
    ensures tag { drop (length name.now - result) name.now ≡ tag_of tags.now name.now }
{
    let mut longest = 0;
    for tag in tags {
        let tag = tag.as_slice();
        if tag.len() > longest && tag.len() < name.len() && name.ends_with(tag) {
            longest = tag.len();
        }
    }
    longest
}

/// Puts a name in upper case behind a text, with `_` before each byte that begins a word.
fn put_words(text: &mut Vec<u8>, name: &[u8]) -> Result<(), Memory>
    ensures { OnOk result (text.new.items ≡ text.old.items ++ words name.now) }
{
    let mut before = 0;
    for byte in name {
        if begins_word(before, *byte) {
            text.push(b'_')?;
        }
        text.push(byte.to_ascii_uppercase())?;
        before = *byte;
    }
    Ok(())
}

/// Whether a word begins with a byte behind another.
fn begins_word(before: u8, byte: u8) -> bool
    ensures { result ≡ begins_word before byte }
{
    (byte.is_ascii_uppercase() && (before.is_ascii_lowercase() || is_digit(before)))
        || (is_digit(byte) && before.is_ascii_lowercase())
}

/// Puts a tag behind a text, if there is one.
fn put_tag(text: &mut Vec<u8>, tag: &[u8]) -> Result<(), Memory>
    ensures { OnOk result (text.new.items ≡ text.old.items ++ tag_end tag.now) }
{
    if !tag.is_empty() {
        put(text, b"_")?;
        put(text, tag)?;
    }
    Ok(())
}
