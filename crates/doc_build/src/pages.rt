//! What the includes of generated pages give.
ghost use Rattle.std.specs.Prelude.{◌≡◌, ℕ, Bool, ◌+◌, ◌<◌, ◌≤◌, ◌++◌, ◌∷◌, List, [], take, drop, map, filter, length, IfOk, IfSome, OnOk};
ghost use Rattle.std.specs.List.{concat, enumerate_from, list_any};
ghost use Rattle.std.specs.Option.{option_map_or};
ghost use Rattle.vkb_formula.specs.declared.name_table.NameId.{NameId};
ghost use Rattle.vkb_text.specs.Lines.{lines_of};
ghost use Rattle.hdr_writer.specs.Declarations.{declaration};
ghost use Rattle.doc_build.specs.Choices.{PageLine};
ghost use Rattle.doc_build.specs.Pages.{anchor_line, block, has, listing, page_of, silent_line, stands, statement_line, usage};
ghost use Rattle.doc_build.specs.Pieces.{page_piece};

use crate::{Memory, Piece};
use hdr_writer::declare;
use memchr::memchr;
use reg_registry::{Choice, Registry};
use std::alloc::Global;
use vkb_bytes::Bytes;
use vkb_formula::{NameId, NameSet};
use vu_implicit::{Statement, statements};

/// The declared name that a page is of, if the closure has it.
pub(crate) fn page_name(r: &Registry, set: &NameSet, name: &[u8]) -> Option<NameId>
    requires { length set.now ≡ length r.now.names }
    ensures within { IfSome result (λ id. id.0 < length r.now.names) }
    ensures page { (page : NameId → List PageLine) → page_of r.now set.now page name.now ≡ option_map_or page result [] }
{
    let id = r.names().find(name)?;
    if set.has(id) { Some(id) } else { None }
}

/// Puts the anchor of a name and its declaration at a choice behind other lines.
pub(crate) fn put_listing(
    pieces: &mut Vec<Piece>,
    r: &Registry,
    c: &Choice,
    id: NameId,
    name: &[u8],
    number: u32,
) -> Result<(), Memory>
    requires chosen { length c.now.chosen.items ≡ length r.now.options }
    requires held { id.0 < length r.now.names }
    ensures { OnOk result (pieces.new.items
        ≡ pieces.old.items ++ map (page_piece number) (listing name.now (declaration r.now c.now.chosen.items id))) }
{
    let declared = declare(*pieces.allocator(), r, c, id)?;
    put_anchor(pieces, name, number)?;
    put_silent(pieces, b"[source,c++]", number)?;
    put_silent(pieces, b"----", number)?;
    put_lines(pieces, declared.as_slice(), number)?;
    put_silent(pieces, b"----", number)?;
    Ok(())
}

/// The bytes of the line with the anchor of a page that has this name. `Memory` is answered where memory runs out.
pub fn anchor_line(alloc: Global, name: &[u8]) -> Result<Bytes, Memory>
    ensures { IfOk result (λ bytes. bytes ≡ (anchor_line name.now).bytes) }
{
    joined(alloc, &[b"[[", name, b",", name, b"]]"])
}

/// The bytes of the line of a statement of valid usage, whatever its number. `Memory` is answered where memory runs out.
pub fn statement_line(alloc: Global, statement: &Statement) -> Result<Bytes, Memory>
    ensures { IfOk result (λ bytes. (number : ℕ) → bytes ≡ (statement_line (number, statement.now)).bytes) }
{
    joined(
        alloc,
        &[
            b"  * [[",
            statement.tag.as_slice(),
            b"]] ",
            statement.text.as_slice(),
        ],
    )
}

/// Puts the statements of valid usage of a name that stand where the closure has this set behind other lines.
pub(crate) fn put_usage(
    pieces: &mut Vec<Piece>,
    r: &Registry,
    set: &NameSet,
    id: NameId,
    number: u32,
) -> Result<(), Memory>
    requires count { length set.now ≡ length r.now.names }
    requires held { id.0 < length r.now.names }
    ensures { OnOk result (pieces.new.items ≡ pieces.old.items ++ map (page_piece number) (usage r.now set.now id)) }
{
    let all = statements(*pieces.allocator(), r, id)?;
    put_block(pieces, r.names().len(), set, all.as_slice(), number)
}

/// Puts a block of the statements that stand behind other lines, and nothing where none does.
fn put_block(
    pieces: &mut Vec<Piece>,
    names: u32,
    set: &NameSet,
    all: &[Statement],
    number: u32,
) -> Result<(), Memory>
    requires { length set.now ≡ names }
    ensures { OnOk result (pieces.new.items
        ≡ pieces.old.items ++ map (page_piece number) (block (map statement_line (filter (λ p. stands set.now p.1) (enumerate_from 1 all.now))))) }
{
    if !any_stands(names, set, all) {
        return Ok(());
    }
    put_silent(pieces, b".Valid Usage (Implicit)", number)?;
    put_silent(pieces, b"****", number)?;
    put_standing(pieces, names, set, all, number)?;
    put_silent(pieces, b"****", number)?;
    Ok(())
}

/// Whether one of the statements stands.
fn any_stands(names: u32, set: &NameSet, all: &[Statement]) -> bool
    requires { length set.now ≡ names }
    ensures { result ≡ list_any (stands set.now) all.now }
{
    all.iter().any(|statement| stands(names, set, statement))
}

/// Whether a statement stands: it needs no name, or the closure has the name that it needs.
fn stands(names: u32, set: &NameSet, statement: &Statement) -> bool
    requires { length set.now ≡ names }
    ensures { result ≡ stands set.now statement.now }
{
    match statement.needs {
        Some(id) => id.0 < names && set.has(id),
        None => true,
    }
}

/// Puts the statements that stand behind other lines, each with the number that it has among all.
fn put_standing(
    pieces: &mut Vec<Piece>,
    names: u32,
    set: &NameSet,
    all: &[Statement],
    number: u32,
) -> Result<(), Memory>
    requires { length set.now ≡ names }
    ensures { OnOk result (pieces.new.items
        ≡ pieces.old.items ++ map (page_piece number) (map statement_line (filter (λ p. stands set.now p.1) (enumerate_from 1 all.now)))) }
{
    for (place, statement) in all.iter().enumerate() {
        if stands(names, set, statement) {
            put_statement(pieces, statement, place as u64 + 1, number)?;
        }
    }
    Ok(())
}

/// Puts the line of a statement behind other lines.
fn put_statement(
    pieces: &mut Vec<Piece>,
    statement: &Statement,
    place: u64,
    number: u32,
) -> Result<(), Memory>
    ensures { OnOk result (pieces.new.items ≡ pieces.old.items ++ page_piece number (statement_line (place, statement.now)) ∷ []) }
{
    let bytes = statement_line(*pieces.allocator(), statement)?;
    pieces.push(Piece {
        line: number,
        statement: place,
        start: 0,
        marked: true,
        bytes,
    })?;
    Ok(())
}

/// Puts the anchor of a page behind other lines.
fn put_anchor(pieces: &mut Vec<Piece>, name: &[u8], number: u32) -> Result<(), Memory>
    ensures { OnOk result (pieces.new.items ≡ pieces.old.items ++ page_piece number (anchor_line name.now) ∷ []) }
{
    let bytes = anchor_line(*pieces.allocator(), name)?;
    pieces.push(Piece {
        line: number,
        statement: 0,
        start: 0,
        marked: true,
        bytes,
    })?;
    Ok(())
}

/// Puts the lines of a text, in which no marks are read, behind other lines.
fn put_lines(pieces: &mut Vec<Piece>, text: &[u8], number: u32) -> Result<(), Memory>
    ensures { OnOk result (pieces.new.items ≡ pieces.old.items ++ map (page_piece number) (map silent_line (lines_of text.now))) }
{
    let mut start = 0;
    while start < text.len() {
        let rest = &text[start..];
        let end = line_len(rest);
        put_silent(pieces, &rest[..end], number)?;
        start += end + 1;
    }
    Ok(())
}

/// The length of the first line of a text.
fn line_len(text: &[u8]) -> usize
    requires { 0 < length text.now }
    ensures within { result ≤ length text.now }
    ensures first { lines_of text.now ≡ take result text.now ∷ lines_of (drop (result + 1) text.now) }
{
    match memchr(b'\n', text) {
        Some(end) => end,
        None => text.len(),
    }
}

/// Puts a line in which no marks are read behind other lines.
fn put_silent(pieces: &mut Vec<Piece>, bytes: &[u8], number: u32) -> Result<(), Memory>
    ensures { OnOk result (pieces.new.items ≡ pieces.old.items ++ page_piece number (silent_line bytes.now) ∷ []) }
{
    let bytes = Bytes::from_slice(*pieces.allocator(), bytes)?;
    pieces.push(Piece {
        line: number,
        statement: 0,
        start: 0,
        marked: false,
        bytes,
    })?;
    Ok(())
}

/// The bytes of these parts, one behind the other.
fn joined(alloc: Global, parts: &[&[u8]]) -> Result<Bytes, Memory>
    ensures { IfOk result (λ bytes. bytes ≡ concat (map (λ part. part.now) parts.now)) }
{
    let mut bytes = Vec::new(alloc);
    for part in parts {
        bytes.extend_from_slice(part)?;
    }
    Ok(Bytes::from_vec(bytes))
}
