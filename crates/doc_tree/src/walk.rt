//! The walk over the files of a document.
ghost use Rattle.std.specs.Prelude.{◌≡◌, ◌+◌, ◌<◌, ◌≤◌, ◌^◌, [], ◌∷◌, ℕ, Some, length, slice_get, slice_index_or, IfOk, OnOk};
ghost use Rattle.doc_tree.specs.Answer.{CountsLoad};
ghost use Rattle.doc_tree.specs.Flat.{FlatLine};
ghost use Rattle.doc_tree.specs.Loaded.{IsBefore};
ghost use Rattle.doc_tree.specs.Opening.{AreThere};
ghost use Rattle.doc_tree.specs.Progress.{Extends};
ghost use Rattle.doc_tree.specs.Running.{ByReads, Goes, IsFlatAt, Runs, TurnsOut, chapter_steps, opened_steps};
ghost use Rattle.doc_tree.specs.Walk.{Opens, steps_below};
ghost use Rattle.doc_tree.specs.declared.source.SourceFile.{SourceFile};

use crate::draft::Draft;
use crate::source::{SourceFile, fetch, read_source};
use crate::{CondId, DocFault};
use std::alloc::Global;
use vkb_bytes::Text as FileName;
use vkb_outside::Shelf;
use vkb_text::{Line, Text};

/// Opens a file, which is read where it wasn't opened before, and gives its number.
pub(crate) fn open_file<S: Shelf>(
    alloc: Global,
    shelf: &mut S,
    text: &mut Text,
    draft: &mut Draft,
    kept: &mut Vec<SourceFile>,
    name: &str,
) -> Result<usize, DocFault>
    requires there { AreThere text.old.bytes draft.old kept.old.items }
    requires few { length draft.old.files < 2 ^ 32 }
    ensures goes { OnOk result (Goes text.new draft.old draft.new kept.old.items kept.new.items) }
    ensures lines { OnOk result (draft.new.lines ≡ draft.old.lines) }
    ensures one_more { OnOk result (length draft.new.files ≤ length draft.old.files + 1) }
    ensures file { IfOk result (λ file. slice_get draft.new.files file ≡ Some name.now) }
    ensures runs { ByReads (S.holds shelf.old) draft.old.files (TurnsOut result draft.new.files) (λ files. Runs files text.old draft.old kept.old.items text.new draft.new kept.new.items (λ sources. Opens name.now ∷ []) result) }
    ensures counted { CountsLoad (S.read_faults shelf.old) (S.read_faults shelf.new) result }
    ensures kept { S.holds shelf.new ≡ S.holds shelf.old }
    ensures puts { S.put_faults shelf.new ≡ S.put_faults shelf.old }
    ensures grows { Extends text.old.bytes text.new.bytes }
    ensures most { text.new.most ≡ text.old.most }
{
    if let Some(file) = draft.find_file(name.as_bytes()) {
        return Ok(file);
    }
    let bytes = fetch(alloc, shelf, name)?;
    let file = draft.add_file(name.as_bytes())?;
    let source = read_source(alloc, text, name, &bytes, file as u32)?;
    kept.push(source)?;
    Ok(file)
}

/// Takes the lines of an opened file, where a conditional is round the file and so many files more may be opened in one another.
#[cycle(walk)]
pub(crate) fn walk_file<S: Shelf>(
    alloc: Global,
    shelf: &mut S,
    text: &mut Text,
    draft: &mut Draft,
    kept: &mut Vec<SourceFile>,
    file: usize,
    left: u32,
    round: Option<CondId>,
) -> Result<(), DocFault>
    requires there { AreThere text.old.bytes draft.old kept.old.items }
    requires few { length draft.old.files ≤ length draft.old.lines + 1 }
    requires file { file < length draft.old.files }
    requires round { IsBefore (length draft.old.conds) round }
    ensures goes { OnOk result (Goes text.new draft.old draft.new kept.old.items kept.new.items) }
    ensures few { OnOk result (length draft.new.files ≤ length draft.new.lines + 1) }
    ensures runs { ByReads (S.holds shelf.old) draft.old.files (TurnsOut result draft.new.files) (λ files. Runs files text.old draft.old kept.old.items text.new draft.new kept.new.items (opened_steps draft.old left file round) result) }
    ensures counted { CountsLoad (S.read_faults shelf.old) (S.read_faults shelf.new) result }
    ensures kept { S.holds shelf.new ≡ S.holds shelf.old }
    ensures puts { S.put_faults shelf.new ≡ S.put_faults shelf.old }
    ensures grows { Extends text.old.bytes text.new.bytes }
    ensures most { text.new.most ≡ text.old.most }
{
    let mut within = round;
    let count = line_count(kept.as_slice(), file);
    for place in 0..count {
        let line = line_at(kept.as_slice(), file, place);
        let taken = draft.take(alloc, text, line, within)?;
        within = taken.behind;
        follow(
            alloc,
            shelf,
            text,
            draft,
            kept,
            line,
            taken.chapter,
            left,
            within,
        )?;
    }
    Ok(())
}

/// Takes the lines of the file that a line includes, if it includes one.
#[cycle(walk)]
fn follow<S: Shelf>(
    alloc: Global,
    shelf: &mut S,
    text: &mut Text,
    draft: &mut Draft,
    kept: &mut Vec<SourceFile>,
    line: Line,
    chapter: Option<FileName>,
    left: u32,
    within: Option<CondId>,
) -> Result<(), DocFault>
    requires there { AreThere text.old.bytes draft.old kept.old.items }
    requires few { length draft.old.files ≤ length draft.old.lines }
    requires file { line.file < length draft.old.files }
    requires within { IsBefore (length draft.old.conds) within }
    ensures goes { OnOk result (Goes text.new draft.old draft.new kept.old.items kept.new.items) }
    ensures few { OnOk result (length draft.new.files ≤ length draft.new.lines + 1) }
    ensures runs { ByReads (S.holds shelf.old) draft.old.files (TurnsOut result draft.new.files) (λ files. (flat : FlatLine) → IsFlatAt draft.old line within chapter flat
        → Runs files text.old draft.old kept.old.items text.new draft.new kept.new.items (λ sources. chapter_steps (steps_below sources left) flat chapter) result) }
    ensures counted { CountsLoad (S.read_faults shelf.old) (S.read_faults shelf.new) result }
    ensures kept { S.holds shelf.new ≡ S.holds shelf.old }
    ensures puts { S.put_faults shelf.new ≡ S.put_faults shelf.old }
    ensures grows { Extends text.old.bytes text.new.bytes }
    ensures most { text.new.most ≡ text.old.most }
{
    let Some(chapter) = chapter else {
        return Ok(());
    };
    if left == 0 {
        let name = draft.file_name(alloc, line.file as usize)?;
        return Err(DocFault::IncludeDepth {
            name,
            line: line.number,
        });
    }
    let file = open_file(alloc, shelf, text, draft, kept, chapter.as_str())?;
    walk_file(alloc, shelf, text, draft, kept, file, left - 1, within)
}

/// How many lines a file has.
fn line_count(kept: &[SourceFile], file: usize) -> usize
    requires { file < length kept.now }
    ensures { (source : SourceFile) → slice_get kept.now file ≡ Some source → result ≡ length source.lines }
{
    kept[file].lines.as_slice().len()
}

/// The line of a file at a place.
fn line_at(kept: &[SourceFile], file: usize, place: usize) -> Line
    requires file { file < length kept.now }
    requires place { (source : SourceFile) → slice_get kept.now file ≡ Some source → place < length source.lines }
    ensures { (source : SourceFile) → slice_get kept.now file ≡ Some source → slice_get source.lines place ≡ Some result }
{
    kept[file].lines.as_slice()[place]
}
