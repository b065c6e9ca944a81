ghost use Rattle.std.specs.Prelude.{◌≡◌, ◌+◌, ◌++◌, ◌-◌, ◌<◌, ◌≤◌, ◌^◌, IfOk, None, length, slice_range};
ghost use Rattle.reg_reader.specs.Markup.{HasCharacters, AreCharactersOf};
ghost use Rattle.reg_reader.specs.Characters.{undone, with_byte};
ghost use Rattle.reg_reader.specs.Shown.{characters_of};
ghost use Rattle.reg_reader.specs.Within.{Within};

use crate::markup::Part;
use crate::reference::{Progress, progress_of};
use memchr::memchr;
use std::alloc::Global;
use vkb_bytes::Memory;

/// Puts what the byte at a place stands for behind a text, and says where the reference begins that is then open.
fn put_byte(
    bytes: &[u8],
    n: u32,
    reference: Option<u32>,
    text: &mut Vec<u8>,
) -> Result<Option<u32>, Memory>
    requires within { n < length bytes.now }
    requires place { Within reference n }
    ensures open { IfOk result (λ next. next ≡ (with_byte bytes.now n reference text.old.items).0) }
    ensures text { IfOk result (λ next. text.new.items ≡ (with_byte bytes.now n reference text.old.items).1) }
    ensures place { IfOk result (λ next. Within next (n + 1)) }
{
    let Some(place) = reference else {
        let byte = bytes[n as usize];
        if byte == b'&' {
            return Ok(Some(n));
        }
        text.push(byte)?;
        return Ok(None);
    };
    match progress_of(&bytes[place as usize..n as usize + 1]) {
        Progress::Whole(value) => {
            text.push(value)?;
            Ok(None)
        }
        Progress::Partial | Progress::Wrong => Ok(Some(place)),
    }
}

/// The place up to which characters stand for themselves: that of the first `&`, or their end.
fn plain_end(bytes: &[u8], part: Part) -> u32
    requires order { part.from ≤ part.to }
    requires within { part.to ≤ length bytes.now }
    ensures low { part.from ≤ result }
    ensures high { result ≤ part.to }
    ensures plain { undone bytes.now part.from (result - part.from) ≡ (None, slice_range bytes.now part.from result) }
{
    match memchr(b'&', &bytes[part.from as usize..part.to as usize]) {
        Some(length) => part.from + length as u32,
        None => part.to,
    }
}

/// The bytes that characters stand for.
pub fn undo(alloc: Global, bytes: &[u8], part: Part) -> Result<Vec<u8>, Memory>
    requires part { HasCharacters bytes.now part }
    requires small { length bytes.now < 2 ^ 32 }
    ensures meaning { IfOk result (λ text. AreCharactersOf bytes.now part text.items) }
    ensures value { IfOk result (λ text. text.items ≡ characters_of bytes.now part) }
{
    if part.from == part.to {
        return Ok(Vec::new(alloc));
    }
    let plain = plain_end(bytes, part);
    let mut text = Vec::from_slice(alloc, &bytes[part.from as usize..plain as usize])?;
    let mut reference = None;
    for n in plain..part.to {
        reference = put_byte(bytes, n, reference, &mut text)?;
    }
    Ok(text)
}

/// Puts what characters stand for behind a text.
pub fn put(alloc: Global, bytes: &[u8], part: Part, text: &mut Vec<u8>) -> Result<(), Memory>
    requires part { HasCharacters bytes.now part }
    requires small { length bytes.now < 2 ^ 32 }
    ensures { IfOk result (λ _. text.new.items ≡ text.old.items ++ characters_of bytes.now part) }
{
    if part.from == part.to {
        return Ok(());
    }
    if plain_end(bytes, part) == part.to {
        text.extend_from_slice(&bytes[part.from as usize..part.to as usize])?;
        return Ok(());
    }
    let characters = undo(alloc, bytes, part)?;
    text.extend_from_slice(&characters)?;
    Ok(())
}
