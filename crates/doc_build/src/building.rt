//! The lines of a document that a choice keeps, and what they give.
ghost use Rattle.std.specs.Prelude.{◌≡◌, ◌≤◌, ◌^◌, ℕ, Bool, List, [], ◌++◌, ◌∷◌, ◌<◌, All, filter, map, length, IfOk, OnOk};
ghost use Rattle.std.specs.List.{enumerate_from};
ghost use Rattle.std.specs.Option.{option_or};
ghost use Rattle.vkb_text.specs.Spans.{IsWithin, slice_at};
ghost use Rattle.doc_cond.specs.Lines.{IsWithin as IsKindWithin};
ghost use Rattle.doc_tree.specs.Loaded.{IsLoaded, flat_line, flat_of};
ghost use Rattle.doc_tree.specs.declared.DocLine.{DocLine};
ghost use Rattle.reg_closure.specs.Closure.{IsClosure};
ghost use Rattle.doc_build.specs.Built.{choice_pieces, choice_text, text_of};
ghost use Rattle.doc_build.specs.Keeping.{met_at};
ghost use Rattle.doc_build.specs.Lines.{IsLineIn, pieces_kept};
ghost use Rattle.doc_build.specs.Pages.{lines_given};
ghost use Rattle.doc_build.specs.Pieces.{pieces_at};

use crate::keeping::{conditions_met, is_kept};
use crate::pages::{page_name, put_listing, put_usage};
use crate::{Memory, Piece};
use doc_cond::LineKind;
use doc_tree::{DocLine, Document};
use reg_closure::{closure, one_closure};
use reg_registry::{Choice, Registry};
use std::alloc::Global;
use vkb_bytes::Bytes;
use vkb_formula::NameSet;
use vkb_text::Text;

/// The lines of the text that is built of a document at a choice of a registry's options, where some names are always set. The document was
/// loaded into this text. `Memory` is answered where memory runs out.
///
/// A plain line, a comment, another include and a line that sets the page stand as they are, and a one-line form gives its text. The include of a
/// generated page gives lines where the closure has the page's name: its anchor and its declaration, or the statements of valid usage whose needed
/// name the closure has. All other lines give none.
pub fn pieces(
    alloc: Global,
    text: &Text,
    d: &Document,
    r: &Registry,
    c: &Choice,
    always: &[Bytes],
) -> Result<Vec<Piece>, Memory>
    requires loaded { IsLoaded text.now.bytes d.now }
    requires chosen { length c.now.chosen.items ≡ length r.now.options }
    ensures { IfOk result (λ pieces. (set : List Bool) → IsClosure r.now c.now.chosen.items set
        → pieces.items ≡ choice_pieces always.now r.now c.now.chosen.items set (flat_of text.now.bytes d.now)) }
{
    let made = conditions_met(alloc, d, r, c.chosen.as_slice(), always)?;
    let set = closure(alloc, r, c)?;
    // The choice has one closure.
    one_closure();
    let given = kept_pieces(alloc, text, d.lines.as_slice(), r, c, &set, made.as_slice())?;
    Ok(given)
}

/// The text itself: the lines of [`pieces`], each followed by the byte 10.
pub fn built(
    alloc: Global,
    text: &Text,
    d: &Document,
    r: &Registry,
    c: &Choice,
    always: &[Bytes],
) -> Result<Vec<u8>, Memory>
    requires loaded { IsLoaded text.now.bytes d.now }
    requires chosen { length c.now.chosen.items ≡ length r.now.options }
    ensures { IfOk result (λ bytes. (set : List Bool) → IsClosure r.now c.now.chosen.items set
        → bytes.items ≡ choice_text always.now r.now c.now.chosen.items set (flat_of text.now.bytes d.now)) }
{
    let pieces = pieces(alloc, text, d, r, c, always)?;
    text_of(alloc, pieces.as_slice())
}

/// Lines as a text.
fn text_of(alloc: Global, pieces: &[Piece]) -> Result<Vec<u8>, Memory>
    ensures { IfOk result (λ bytes. bytes.items ≡ text_of pieces.now) }
{
    let mut bytes = Vec::new(alloc);
    for piece in pieces {
        bytes.extend_from_slice(piece.bytes.as_slice())?;
        bytes.push(b'\n')?;
    }
    Ok(bytes)
}

/// What the lines give that are kept by what is met of the conditions.
fn kept_pieces(
    alloc: Global,
    text: &Text,
    lines: &[DocLine],
    r: &Registry,
    c: &Choice,
    set: &NameSet,
    made: &[bool],
) -> Result<Vec<Piece>, Memory>
    requires there { All (IsLineIn text.now.bytes) lines.now }
    requires few { length lines.now < 2 ^ 32 }
    requires chosen { length c.now.chosen.items ≡ length r.now.options }
    requires count { length set.now ≡ length r.now.names }
    ensures { IfOk result (λ pieces. pieces.items ≡ pieces_kept (lines_given r.now c.now.chosen.items set.now) text.now.bytes made.now lines.now) }
{
    let mut pieces = Vec::new(alloc);
    for (number, line) in lines.iter().enumerate() {
        if is_kept(made, line) {
            let bytes = text.slice(line.line.span);
            put_pieces(&mut pieces, bytes, &line.kind, number as u32, r, c, set)?;
        }
    }
    Ok(pieces)
}

/// Puts what a line gives behind other lines.
pub(crate) fn put_pieces(
    pieces: &mut Vec<Piece>,
    line: &[u8],
    kind: &LineKind,
    number: u32,
    r: &Registry,
    c: &Choice,
    set: &NameSet,
) -> Result<(), Memory>
    requires within { IsKindWithin line.now kind.now }
    requires chosen { length c.now.chosen.items ≡ length r.now.options }
    requires count { length set.now ≡ length r.now.names }
    ensures { OnOk result (pieces.new.items ≡ pieces.old.items ++ pieces_at (lines_given r.now c.now.chosen.items set.now) number line.now kind.now) }
{
    match kind {
        LineKind::Plain => put_part(pieces, line, number, 0, true),
        LineKind::Comment | LineKind::Other | LineKind::Refpage { .. } => {
            put_part(pieces, line, number, 0, false)
        }
        LineKind::OneLine { from, to, .. } => put_part(
            pieces,
            &line[*from as usize..*to as usize],
            number,
            *from,
            true,
        ),
        LineKind::Api { name } => match page_name(r, set, name.as_slice()) {
            Some(id) => put_listing(pieces, r, c, id, name.as_slice(), number),
            None => Ok(()),
        },
        LineKind::Validity { name } => match page_name(r, set, name.as_slice()) {
            Some(id) => put_usage(pieces, r, set, id, number),
            None => Ok(()),
        },
        LineKind::Begin { .. } | LineKind::Close { .. } | LineKind::Chapter { .. } => Ok(()),
    }
}

/// Puts a part of a line, which starts at a byte of it, behind other lines.
fn put_part(
    pieces: &mut Vec<Piece>,
    part: &[u8],
    number: u32,
    start: u32,
    marked: bool,
) -> Result<(), Memory>
    ensures { OnOk result (pieces.new.items
        ≡ pieces.old.items ++ (record { line = number; statement = 0; start = start; marked = marked; bytes = part.now }) ∷ []) }
{
    let bytes = Bytes::from_slice(*pieces.allocator(), part)?;
    pieces.push(Piece {
        line: number,
        statement: 0,
        start,
        marked,
        bytes,
    })?;
    Ok(())
}
