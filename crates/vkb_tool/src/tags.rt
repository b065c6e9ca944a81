//! The command `tag`: new tags for the valid usage statements of files.
ghost use Rattle.std.specs.Prelude.{◌≡◌, ◌^◌, ◌<◌, ◌≤◌, ◌++◌, List, ℕ, [], ◌∷◌, length, map, IfOk, IfSome, OnOk};
ghost use Rattle.std.specs.List.{sum_by};
ghost use Rattle.doc_tree.specs.Answer.{CountsLoad};
ghost use Rattle.doc_tree.specs.Sources.{most_bytes};
ghost use Rattle.vkb_tool.specs.Answer.{AreHeld, CountsReading, IsRequestStatus, effect_of, put_of};
ghost use Rattle.vkb_tool.specs.Outcome.{Outcome, most_text};
ghost use Rattle.vkb_tool.specs.Tagging.{ReadsFile, ReadsFiles, TellsOfTags};
ghost use Rattle.vkb_tool.specs.Tags.{changed as changed_files};
ghost use Rattle.vkb_tool.specs.Words.{Spells};

use crate::answer::{Answer, FilePut, Trouble, refuse, written};
use crate::report::{bad_tag_text, no_number_text, tagged_text};
use crate::{Memory, Request, Status};
use doc_tree::DocFault;
use std::alloc::Global;
use vkb_bytes::{Bytes, Listed, Text};
use vkb_outside::{ReadTrouble, Shelf};
use vu_tags::{TagFault, pages_are_one, tag_files};

/// How many bytes a file may have.
const MOST_BYTES: u32 = 16_777_216;

/// How many bytes all texts of a call may have.
const MOST_TEXT: u32 = 268_435_456;

/// Answers a request to tag the statements of files that the shelf holds, from a first number on.
pub fn tag<S: Shelf>(
    alloc: Global,
    shelf: &mut S,
    first: u32,
    names: &[Text],
) -> Result<Answer, Trouble>
    requires least { 1 ≤ first }
    requires most { first ≤ 99999 }
    requires few { length names.now < 2 ^ 32 }
    ensures outcome { IfOk result (λ answer. IfSome (S.holds shelf.old) (λ files. (words : List (List ℕ)) → Spells words (Request.Tag first names.now) → Outcome words files (effect_of answer))) }
    ensures status { IfOk result (λ answer. IsRequestStatus answer.status) }
    ensures held { IfOk result (λ answer. AreHeld (S.holds shelf.old) (effect_of answer).puts) }
    ensures counted { CountsReading (S.read_faults shelf.old) (S.read_faults shelf.new) result }
    ensures kept { S.holds shelf.new ≡ S.holds shelf.old }
    ensures puts { S.put_faults shelf.new ≡ S.put_faults shelf.old }
{
    // Each line that includes a page has one, so that the definitions speak of these pages.
    pages_are_one();
    match read_files(alloc, shelf, names) {
        Ok(texts) => Ok(tell(alloc, first, names, texts.as_slice())?),
        Err(fault) => refuse(alloc, &fault),
    }
}

/// The bytes of files, read in order.
fn read_files<S: Shelf>(
    alloc: Global,
    shelf: &mut S,
    names: &[Text],
) -> Result<Vec<Bytes>, DocFault>
    ensures read { IfSome (S.holds shelf.old) (λ files. ReadsFiles files most_text names.now result) }
    ensures count { IfOk result (λ texts. length texts.items ≡ length names.now) }
    ensures small { IfOk result (λ texts. sum_by length texts.items ≤ most_text) }
    ensures counted { CountsLoad (S.read_faults shelf.old) (S.read_faults shelf.new) result }
    ensures kept { S.holds shelf.new ≡ S.holds shelf.old }
    ensures puts { S.put_faults shelf.new ≡ S.put_faults shelf.old }
{
    let mut room = MOST_TEXT;
    let mut texts = Vec::new(alloc);
    for name in names {
        let bytes = read_file(alloc, shelf, name.as_str(), room)?;
        room -= bytes.len() as u32;
        texts.push(Bytes::from_vec(bytes))?;
    }
    Ok(texts)
}

/// The bytes of a file, where so many have room.
fn read_file<S: Shelf>(
    alloc: Global,
    shelf: &mut S,
    name: &str,
    room: u32,
) -> Result<Vec<u8>, DocFault>
    ensures read { IfSome (S.holds shelf.old) (λ files. ReadsFile room name.now (files name.now) result) }
    ensures within { IfOk result (λ bytes. length bytes.items ≤ room) }
    ensures counted { CountsLoad (S.read_faults shelf.old) (S.read_faults shelf.new) result }
    ensures kept { S.holds shelf.new ≡ S.holds shelf.old }
    ensures puts { S.put_faults shelf.new ≡ S.put_faults shelf.old }
{
    match shelf.read(alloc, name, MOST_BYTES) {
        Ok(Some(bytes)) => {
            if bytes.len() > room as usize {
                let name = Bytes::from_slice(alloc, name.as_bytes())?;
                return Err(DocFault::DocTooLong { name, line: 0 });
            }
            Ok(bytes)
        }
        Ok(None) => Err(DocFault::Missing {
            name: Bytes::from_slice(alloc, name.as_bytes())?,
        }),
        Err(ReadTrouble::TooLong) => Err(DocFault::TooLarge {
            name: Bytes::from_slice(alloc, name.as_bytes())?,
        }),
        Err(ReadTrouble::Failed) => Err(DocFault::ReadFault),
        Err(ReadTrouble::Memory) => Err(DocFault::Memory),
    }
}

/// What is told of files that were read: the first malformed tag, that the numbers don't suffice, or how many tags are new. Then
/// the files that change are put.
fn tell(alloc: Global, first: u32, names: &[Text], texts: &[Bytes]) -> Result<Answer, Memory>
    requires least { 1 ≤ first }
    requires most { first ≤ 99999 }
    requires few { length names.now < 2 ^ 32 }
    requires count { length texts.now ≡ length names.now }
    requires small { sum_by length texts.now ≤ most_text }
    ensures told { IfOk result (λ answer. TellsOfTags names.now texts.now first (effect_of answer)) }
    ensures status { IfOk result (λ answer. IsRequestStatus answer.status) }
{
    pages_are_one();
    match tag_files(alloc, texts, first) {
        Ok(tagged) => {
            let output = tagged_text(alloc, tagged.count)?;
            let puts = changed(alloc, names, texts, tagged.files.into_vec())?;
            Ok(Answer {
                status: Status::Done,
                output: Bytes::from_vec(output),
                puts: Listed::from_vec(puts),
            })
        }
        Err(TagFault::BadTag { file, line }) => {
            let output = bad_tag_text(alloc, names[file as usize].as_str(), line)?;
            Ok(written(alloc, Status::Refused, output))
        }
        Err(TagFault::NoNumber { needed, left }) => {
            let output = no_number_text(alloc, needed, left)?;
            Ok(written(alloc, Status::Refused, output))
        }
        Err(TagFault::Memory) => Err(Memory),
    }
}

/// The files whose bytes change, in order.
fn changed(
    alloc: Global,
    names: &[Text],
    olds: &[Bytes],
    news: Vec<Bytes>,
) -> Result<Vec<FilePut>, Memory>
    requires olds { length olds.now ≡ length names.now }
    requires news { length news.items ≡ length names.now }
    ensures { IfOk result (λ puts. map put_of puts.items ≡ changed_files names.now olds.now news.items) }
{
    let mut puts = Vec::new(alloc);
    let mut at = 0;
    for bytes in news {
        put_changed(alloc, &names[at], olds[at].as_slice(), bytes, &mut puts)?;
        at += 1;
    }
    Ok(puts)
}

/// Puts a file behind others, if its bytes change.
fn put_changed(
    alloc: Global,
    name: &Text,
    old: &[u8],
    bytes: Bytes,
    puts: &mut Vec<FilePut>,
) -> Result<(), Memory>
    ensures { OnOk result (map put_of puts.new.items ≡ map put_of puts.old.items ++ changed_files (name.now ∷ []) (old.now ∷ []) (bytes ∷ [])) }
{
    if old != bytes.as_slice() {
        let name = String::from_str(alloc, name.as_str())?;
        puts.push(FilePut {
            name: Text::from_string(name),
            bytes,
        })?;
    }
    Ok(())
}
