//! Files with their new tags.
ghost use Rattle.std.specs.Prelude.{◌≡◌, ◌+◌, ◌<◌, ◌≤◌, ◌^◌, ◌-◌, ◌++◌, ◌∷◌, length, take, drop, IfOk};
ghost use Rattle.std.specs.List.{concat, sum_by};
ghost use Rattle.vu_tags.specs.Lines.{lines_of};
ghost use Rattle.vu_tags.specs.Progress.{line_in, number_after};
ghost use Rattle.vu_tags.specs.Statements.{further_lines, needed_of, untagged_in};
ghost use Rattle.vu_tags.specs.Tagged.{Names, TellsPages, tagged_file, tagged_from};

use crate::blocks::{Block, further};
use crate::lines::line_len;
use crate::pieces::{page_after, parameter_of, put_piece};
use std::alloc::Global;
use vkb_bytes::{Bytes, Memory};

/// The statement that the first line of a text begins, of which the length is given.
fn statement_of(rest: &[u8], len: usize) -> &[u8]
    requires { len ≤ length rest.now }
    ensures { result.now ≡ concat (take len rest.now ∷ further_lines (lines_of (drop len rest.now))) }
{
    let end = len + further(&rest[len..]).len;
    &rest[..end]
}

/// Puts the first line of `rest`, of which the length is given, behind a text, with a new tag if it needs one, and says what
/// number the next tag has.
fn put_line(
    text: &mut Vec<u8>,
    block: Block,
    page: &[u8],
    number: u32,
    rest: &[u8],
    len: usize,
) -> Result<u32, Memory>
    requires within { len ≤ length rest.now }
    requires small { number < 2 ^ 32 - 1 }
    ensures line { IfOk result (λ next. text.new.items ≡ text.old.items ++ line_in block page.now number (take len rest.now) (lines_of (drop len rest.now))) }
    ensures next { IfOk result (λ next. next ≡ number_after block number (take len rest.now)) }
{
    let line = &rest[..len];
    if !block.needs_tag(line) {
        text.extend_from_slice(line)?;
        return Ok(number);
    }
    let (bullet, behind) = line.split_at(4);
    let parameter = parameter_of(statement_of(rest, len));
    text.extend_from_slice(bullet)?;
    put_piece(text, page, parameter, number)?;
    text.extend_from_slice(behind)?;
    Ok(number + 1)
}

/// A file with its new tags, and the number that the next one has.
#[derive(Drop)]
struct Written {
    text: Bytes,
    next: u32,
}

/// A file with new tags, numbered from `first` on.
fn write_file(alloc: Global, file: &[u8], first: u32) -> Result<Written, Memory>
    requires small { length file.now < 2 ^ 32 }
    requires few { first + untagged_in file.now < 2 ^ 32 - 1 }
    ensures text { IfOk result (λ written. (names : Names) → TellsPages names → written.text ≡ tagged_file names first file.now) }
    ensures next { IfOk result (λ written. written.next ≡ first + untagged_in file.now) }
{
    let mut text = Vec::with_capacity(alloc, file.len())?;
    let mut page = Bytes::from_slice(alloc, b"{refpage}")?;
    let mut number = first;
    let mut block = Block::outside();
    let mut at = 0;
    while at < file.len() {
        let rest = &file[at..];
        let len = line_len(rest);
        number = put_line(&mut text, block, page.as_slice(), number, rest, len)?;
        page = page_after(alloc, page, &rest[..len])?;
        block = block.after(&rest[..len]);
        at += len;
    }
    Ok(Written {
        text: Bytes::from_vec(text),
        next: number,
    })
}

/// The files with new tags, numbered from `start` on.
pub(crate) fn write_files(alloc: Global, files: &[Bytes], start: u32) -> Result<Vec<Bytes>, Memory>
    requires small { sum_by length files.now < 2 ^ 32 }
    requires few { start + needed_of files.now < 2 ^ 32 - 1 }
    ensures { IfOk result (λ texts. (names : Names) → TellsPages names → texts.items ≡ tagged_from names start files.now) }
{
    let mut texts = Vec::with_capacity(alloc, files.len())?;
    let mut number = start;
    for file in files {
        let Written { text, next } = write_file(alloc, file.as_slice(), number)?;
        number = next;
        texts.push(text)?;
    }
    Ok(texts)
}
