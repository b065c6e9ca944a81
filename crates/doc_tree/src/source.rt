//! The files of a document: each is read once, and its lines and pairs are kept.
ghost use Rattle.std.specs.Prelude.{◌≡◌, ◌+◌, ◌<◌, ◌≤◌, ◌++◌, ◌^◌, ℕ, List, All, length, map, IfOk, IfErr, OnOk};
ghost use Rattle.std.specs.List.{AllZip, range_with_len};
ghost use Rattle.vkb_text.specs.Spans.{IsWithin as IsSpanWithin, slice_at};
ghost use Rattle.doc_cond.specs.Lines.{IsKind};
ghost use Rattle.doc_cond.specs.Nesting.{ArePairs};
ghost use Rattle.doc_cond.specs.declared.LineKind.{LineKind};
ghost use Rattle.doc_tree.specs.Answer.{CountsLoad};
ghost use Rattle.doc_tree.specs.Opening.{Fits, IsFetched, IsKindFault, IsPairsFault, IsSourceFault, IsSourceFile, IsSpellingFault, IsSure};
ghost use Rattle.doc_tree.specs.Progress.{Extends};
ghost use Rattle.doc_tree.specs.Sources.{most_bytes};

use crate::DocFault;
use doc_cond::{CondFault, LineKind, kind_of, pairs};
use std::alloc::Global;
use vkb_bytes::{Bytes, Listed};
use vkb_outside::{ReadTrouble, Shelf};
use vkb_text::{Line, Span, Text, TextFault, lines};

/// How many bytes a file may have.
const MOST_BYTES: u32 = 16_777_216;

/// A file that was read: its lines, and its openers, each with its closer, as places of lines from 0.
#[derive(Drop)]
pub(crate) struct SourceFile {
    pub lines: Listed<Line>,
    pub pairs: Listed<(u32, u32)>,
}

/// The bytes of a file.
pub(crate) fn fetch<S: Shelf>(alloc: Global, shelf: &mut S, name: &str) -> Result<Vec<u8>, DocFault>
    ensures fetched { IsFetched (S.holds shelf.old) name.now result }
    ensures within { IfOk result (λ bytes. length bytes.items ≤ most_bytes) }
    ensures counted { CountsLoad (S.read_faults shelf.old) (S.read_faults shelf.new) result }
    ensures kept { S.holds shelf.new ≡ S.holds shelf.old }
    ensures puts { S.put_faults shelf.new ≡ S.put_faults shelf.old }
{
    match shelf.read(alloc, name, MOST_BYTES) {
        Ok(Some(bytes)) => Ok(bytes),
        Ok(None) => Err(DocFault::Missing {
            name: Bytes::from_slice(alloc, name.as_bytes())?,
        }),
        Err(ReadTrouble::TooLong) => Err(DocFault::TooLarge {
            name: Bytes::from_slice(alloc, name.as_bytes())?,
        }),
        Err(ReadTrouble::Failed) => Err(DocFault::ReadFault),
        Err(ReadTrouble::Memory) => Err(DocFault::Memory),
    }
}

/// Puts the bytes of a file of a number into the buffer, and reads its lines.
pub(crate) fn read_source(
    alloc: Global,
    text: &mut Text,
    name: &str,
    bytes: &[u8],
    file: u32,
) -> Result<SourceFile, DocFault>
    requires { length bytes.now ≤ most_bytes }
    ensures source { IfOk result (λ source. IsSourceFile text.new.bytes bytes.now file source) }
    ensures text { OnOk result (text.new.bytes ≡ text.old.bytes ++ bytes.now) }
    ensures fits { OnOk result (Fits text.old bytes.now) }
    ensures fault { IfErr result (IsSourceFault text.old name.now bytes.now) }
    ensures grows { Extends text.old.bytes text.new.bytes }
    ensures most { text.new.most ≡ text.old.most }
{
    let whole = put(alloc, text, name, bytes)?;
    let lines = lines(alloc, text, whole, file)?;
    let kinds = read_kinds(alloc, text, name, &lines)?;
    let pairs = read_pairs(alloc, name, &kinds)?;
    Ok(SourceFile {
        lines: Listed::from_vec(lines),
        pairs: Listed::from_vec(pairs),
    })
}

/// Puts the bytes of a file into the buffer.
fn put(alloc: Global, text: &mut Text, name: &str, bytes: &[u8]) -> Result<Span, DocFault>
    ensures text { OnOk result (text.new.bytes ≡ text.old.bytes ++ bytes.now) }
    ensures span { IfOk result (λ span. span ≡ record { from = length text.old.bytes; to = length text.old.bytes + length bytes.now }) }
    ensures fits { OnOk result (Fits text.old bytes.now) }
    ensures fault { IfErr result (IsSourceFault text.old name.now bytes.now) }
    ensures grows { Extends text.old.bytes text.new.bytes }
    ensures most { text.new.most ≡ text.old.most }
{
    match text.add(bytes) {
        Ok(span) => Ok(span),
        Err(TextFault::Full) => Err(DocFault::DocTooLong {
            name: Bytes::from_slice(alloc, name.as_bytes())?,
            line: 0,
        }),
        Err(TextFault::Memory) => Err(DocFault::Memory),
    }
}

/// The kind of each line of a file.
fn read_kinds(
    alloc: Global,
    text: &Text,
    name: &str,
    lines: &[Line],
) -> Result<Vec<LineKind>, DocFault>
    requires within { All (λ line. IsSpanWithin text.now.bytes line.span) lines.now }
    requires numbers { map (λ line. line.number) lines.now ≡ range_with_len 1 (length lines.now) }
    ensures kinds { IfOk result (λ kinds. AllZip IsSure (map (λ line. slice_at text.now.bytes line.span) lines.now) kinds.items) }
    ensures fault { IfErr result (IsSpellingFault name.now (map (λ line. slice_at text.now.bytes line.span) lines.now)) }
{
    let mut kinds = Vec::new(alloc);
    for line in lines {
        let kind = line_kind(alloc, name, text.slice(line.span), line.number)?;
        kinds.push(kind)?;
    }
    Ok(kinds)
}

/// The kind of the line of a number.
fn line_kind(alloc: Global, name: &str, line: &[u8], number: u32) -> Result<LineKind, DocFault>
    requires { length line.now < 2 ^ 32 }
    ensures kind { IfOk result (IsKind line.now) }
    ensures only { IfOk result (λ kind. (other : LineKind) → IsKind line.now other → kind ≡ other) }
    ensures fault { IfErr result (IsKindFault name.now line.now number) }
{
    match kind_of(alloc, line) {
        Ok(kind) => Ok(kind),
        Err(CondFault::BadCondition) => Err(DocFault::BadCondition {
            name: Bytes::from_slice(alloc, name.as_bytes())?,
            line: number,
        }),
        // There is no other fault of a line by itself.
        Err(_) => Err(DocFault::Memory),
    }
}

/// Each opener of a file with its closer, as places of lines, from 0.
fn read_pairs(alloc: Global, name: &str, kinds: &[LineKind]) -> Result<Vec<(u32, u32)>, DocFault>
    requires { length kinds.now ≤ most_bytes }
    ensures pairs { IfOk result (λ pairs. ArePairs kinds.now pairs.items) }
    ensures fault { IfErr result (IsPairsFault name.now kinds.now) }
{
    match pairs(alloc, kinds) {
        Ok(pairs) => Ok(pairs),
        Err(CondFault::Unbalanced { line }) => Err(DocFault::Unbalanced {
            name: Bytes::from_slice(alloc, name.as_bytes())?,
            line: line + 1,
        }),
        Err(CondFault::CondDepth { line }) => Err(DocFault::CondDepth {
            name: Bytes::from_slice(alloc, name.as_bytes())?,
            line: line + 1,
        }),
        // There is no other fault of openers and closers.
        Err(_) => Err(DocFault::Memory),
    }
}
