//! How many anchors of the text that is built at a choice have an id there.
ghost use Rattle.std.specs.Prelude.{◌≡◌, ◌^◌, ◌<◌, Bool, List, All, None, count_by, length, min, IfOk, if◌then◌else◌};
ghost use Rattle.std.specs.Option.{option_copied};
ghost use Rattle.doc_marks.specs.Marks.{IsWithin, marks_of};
ghost use Rattle.doc_tree.specs.Loaded.{IsLoaded, flat_of};
ghost use Rattle.reg_closure.specs.Closure.{IsClosure};
ghost use Rattle.doc_build.specs.Built.{choice_count};
ghost use Rattle.doc_build.specs.Counting.{is_anchor_of, lines_count, most, page_behind, piece_count, pieces_count};
ghost use Rattle.doc_build.specs.Lines.{IsLineIn};
ghost use Rattle.doc_build.specs.Pages.{lines_given};

use crate::building::put_pieces;
use crate::ids::is_id;
use crate::keeping::{conditions_met, is_kept};
use crate::{Memory, Piece};
use doc_cond::LineKind;
use doc_marks::{Mark, Marks};
use doc_tree::{DocLine, Document};
use reg_closure::{closure, one_closure};
use reg_registry::{Choice, Registry};
use std::alloc::Global;
use vkb_bytes::Bytes;
use vkb_formula::NameSet;
use vkb_text::Text;

/// How many anchors of the text have this id there, or 2^64 - 1 where they are more. `Memory` is answered where memory runs out, or where the line
/// of a statement has 2^32 bytes or more.
pub fn count(
    alloc: Global,
    text: &Text,
    d: &Document,
    r: &Registry,
    c: &Choice,
    always: &[Bytes],
    id: &[u8],
) -> Result<u64, Memory>
    requires loaded { IsLoaded text.now.bytes d.now }
    requires chosen { length c.now.chosen.items ≡ length r.now.options }
    ensures { IfOk result (λ count. (set : List Bool) → IsClosure r.now c.now.chosen.items set
        → count ≡ min (choice_count always.now r.now c.now.chosen.items set (flat_of text.now.bytes d.now) id.now) most) }
{
    let made = conditions_met(alloc, d, r, c.chosen.as_slice(), always)?;
    let set = closure(alloc, r, c)?;
    // The choice has one closure.
    one_closure();
    let count = count_kept(
        alloc,
        text,
        d.lines.as_slice(),
        r,
        c,
        &set,
        made.as_slice(),
        id,
    )?;
    Ok(count)
}

/// How many anchors of this id stand in what the lines give that are kept by what is met of the conditions.
fn count_kept(
    alloc: Global,
    text: &Text,
    lines: &[DocLine],
    r: &Registry,
    c: &Choice,
    set: &NameSet,
    made: &[bool],
    id: &[u8],
) -> Result<u64, Memory>
    requires there { All (IsLineIn text.now.bytes) lines.now }
    requires few { length lines.now < 2 ^ 32 }
    requires chosen { length c.now.chosen.items ≡ length r.now.options }
    requires count { length set.now ≡ length r.now.names }
    ensures { IfOk result (λ count. count ≡ min (lines_count (lines_given r.now c.now.chosen.items set.now) text.now.bytes made.now id.now None 0 lines.now) most) }
{
    let mut page = None;
    let mut count: u64 = 0;
    for (number, line) in lines.iter().enumerate() {
        if is_kept(made, line) {
            let bytes = text.slice(line.line.span);
            let mut given = Vec::new(alloc);
            put_pieces(&mut given, bytes, &line.kind, number as u32, r, c, set)?;
            count = count.saturating_add(count_in(alloc, given.as_slice(), page, id)?);
            page = page_behind(page, &line.kind);
        }
    }
    Ok(count)
}

/// The page behind a kept line.
fn page_behind<'a>(page: Option<&'a [u8]>, kind: &'a LineKind) -> Option<&'a [u8]>
    ensures { option_copied result ≡ page_behind (option_copied page.entry) kind.now }
{
    match kind {
        LineKind::Refpage { name } => Some(name.as_slice()),
        _ => page,
    }
}

/// How many anchors of this id stand in lines, where this is the page, if there is one.
fn count_in(alloc: Global, pieces: &[Piece], page: Option<&[u8]>, id: &[u8]) -> Result<u64, Memory>
    ensures { IfOk result (λ count. count ≡ min (pieces_count (option_copied page.entry) id.now pieces.now) most) }
{
    let mut count: u64 = 0;
    for piece in pieces {
        count = count.saturating_add(count_of(alloc, piece, page, id)?);
    }
    Ok(count)
}

/// How many anchors of this id stand in a line.
fn count_of(alloc: Global, piece: &Piece, page: Option<&[u8]>, id: &[u8]) -> Result<u64, Memory>
    ensures { IfOk result (λ count. count ≡ min (piece_count (option_copied page.entry) id.now piece.now) most) }
{
    if !piece.marked {
        return Ok(0);
    }
    let count = anchors_in(alloc, piece.bytes.as_slice(), page, id)?;
    Ok(count)
}

/// How many anchors of this id stand in a line in which marks are read.
fn anchors_in(alloc: Global, line: &[u8], page: Option<&[u8]>, id: &[u8]) -> Result<u64, Memory>
    ensures { IfOk result (λ count. count ≡ min (count_by (is_anchor_of (option_copied page.entry) id.now line.now) (marks_of line.now)) most) }
{
    if line.len() > u32::MAX as usize {
        return Err(Memory);
    }
    let mut count: u64 = 0;
    let mut marks = Marks::new(line);
    while let Some(mark) = marks.next() {
        let here = anchor_count(alloc, line, &mark, page, id)?;
        count = count.saturating_add(here);
    }
    Ok(count)
}

/// 1 where a mark of a line is an anchor of this id, and else 0.
fn anchor_count(
    alloc: Global,
    line: &[u8],
    mark: &Mark,
    page: Option<&[u8]>,
    id: &[u8],
) -> Result<u64, Memory>
    requires { IsWithin line.now mark.now }
    ensures { IfOk result (λ count. count ≡ (if is_anchor_of (option_copied page.entry) id.now line.now mark.now then 1 else 0)) }
{
    if !mark.anchor {
        return Ok(0);
    }
    let written = &line[mark.from as usize..mark.to as usize];
    if is_id(alloc, page, written, id)? {
        Ok(1)
    } else {
        Ok(0)
    }
}
