//! A document while its lines are taken.
ghost use Rattle.std.specs.Prelude.{◌≡◌, ◌≢◌, ◌+◌, ◌<◌, ◌≤◌, ◌^◌, ◌∷◌, ◌++◌, [], ℕ, List, None, Some, All, length, map, slice_get, slice_index_or, IfOk, IfErr, IfSome, IfNone, OnOk, IsErrOf};
ghost use Rattle.vkb_formula.specs.Names.{AreDifferent, most_names};
ghost use Rattle.vkb_text.specs.Spans.{IsWithin as IsSpanWithin, slice_at};
ghost use Rattle.doc_cond.specs.Lines.{GivesAscii, IsKind, IsWithin as IsKindWithin};
ghost use Rattle.doc_cond.specs.declared.LineKind.{LineKind};
ghost use Rattle.doc_tree.specs.Loaded.{IsBefore};
ghost use Rattle.doc_tree.specs.Names.{names_in};
ghost use Rattle.doc_tree.specs.Progress.{AreCondsThere, IsDraft, IsNoReadFault, IsTaken, IsTakeFault, Puts, Stands, Takes, chapter_in, outer, with_names};

use crate::{Cond, CondId, DocFault, DocLine, Document};
use doc_cond::{LineKind, kind_of};
use std::alloc::{AllocError, Global};
use std::marker::Model;
use vkb_bytes::{Bytes, Listed, Text as FileName};
use vkb_formula::{NameFault, NameId, NameTable, Names};
use vkb_text::{Line, Text};

/// How many lines a document has at most.
const MOST_LINES: usize = 4_000_000;

/// The document so far. Its files are the ones that were opened.
#[derive(Drop)]
pub(crate) struct Draft {
    files: Names,
    names: NameTable,
    conds: Vec<Cond>,
    lines: Vec<DocLine>,
}

impl Model for Draft {
    ghost use Rattle.doc_tree.specs.declared.Document.{Document};

    ghost Value = { Document };

    ghost view = { λ d. record { files = d.files; names = d.names; conds = d.conds.items; lines = d.lines.items } };
}

/// Where a line stands.
#[derive(Clone, Copy)]
pub(crate) struct Standing {
    /// The innermost conditional round the line.
    pub within: Option<CondId>,
    /// The condition of a one-line form.
    pub own: Option<CondId>,
    /// The innermost conditional behind the line.
    pub behind: Option<CondId>,
}

/// What a line that was taken leads to.
#[derive(Drop)]
pub(crate) struct Taken {
    /// The innermost conditional behind the line.
    pub behind: Option<CondId>,
    /// The file that the line includes.
    pub chapter: Option<FileName>,
}

impl Draft {
    /// A document of nothing. It takes no memory.
    pub(crate) fn new(alloc: Global) -> Draft
        ensures { result ≡ record { files = []; names = []; conds = []; lines = [] } }
    {
        Draft {
            files: Names::new(alloc),
            names: NameTable::new(alloc),
            conds: Vec::new(alloc),
            lines: Vec::new(alloc),
        }
    }

    /// The number of a file that was opened.
    pub(crate) fn find_file(&self, name: &[u8]) -> Option<usize>
        ensures found { IfSome result (λ file. slice_get self.now.files file ≡ Some name.now) }
        ensures none { IfNone result ((file : ℕ) → slice_get self.now.files file ≢ Some name.now) }
    {
        self.files.find(name)
    }

    /// Puts in a file that wasn't opened before, and gives its number.
    pub(crate) fn add_file(&mut self, name: &[u8]) -> Result<usize, DocFault>
        requires new { (file : ℕ) → slice_get self.old.files file ≢ Some name.now }
        ensures files { OnOk result (self.new ≡ record self.old { files = self.old.files ++ name.now ∷ [] }) }
        ensures last { IfOk result (λ file. file ≡ length self.old.files) }
        ensures fault { IfErr result (λ fault. fault ≡ DocFault.Memory) }
    {
        match self.files.intern(name) {
            Ok(file) => Ok(file),
            Err(_) => Err(DocFault::Memory),
        }
    }

    /// A copy of the name of a file.
    pub(crate) fn file_name(&self, alloc: Global, file: usize) -> Result<Bytes, DocFault>
        requires { file < length self.now.files }
        ensures name { IfOk result (λ name. name ≡ slice_index_or self.now.files file []) }
        ensures fault { IfErr result (λ fault. fault ≡ DocFault.Memory) }
    {
        let name = Bytes::from_slice(alloc, self.files.name(file))?;
        Ok(name)
    }

    /// Takes a line of an opened file, where a conditional is the innermost behind the line before it.
    pub(crate) fn take(
        &mut self,
        alloc: Global,
        text: &Text,
        line: Line,
        within: Option<CondId>,
    ) -> Result<Taken, DocFault>
        requires draft { IsDraft text.now.bytes self.old }
        requires span { IsSpanWithin text.now.bytes line.span }
        requires file { line.file < length self.old.files }
        requires within { IsBefore (length self.old.conds) within }
        ensures draft { IfOk result (λ taken. IsTaken text.now.bytes self.old self.new taken.behind) }
        ensures line { IfOk result (λ taken. (kind : LineKind) → IsKind (slice_at text.now.bytes line.span) kind
            → Takes text.now.bytes self.old self.new line kind within taken) }
        ensures fault { IfErr result (λ fault. (kind : LineKind) → IsKind (slice_at text.now.bytes line.span) kind
            → IsTakeFault self.old line kind fault) }
        ensures shelf { IfErr result IsNoReadFault }
    {
        if self.lines.len() >= MOST_LINES {
            let name = self.file_name(alloc, line.file as usize)?;
            return Err(DocFault::DocTooLong {
                name,
                line: line.number,
            });
        }
        let kind = read_kind(alloc, text.slice(line.span))?;
        let chapter = chapter_of(alloc, &kind)?;
        match self.stand(alloc, &kind, within) {
            Ok(standing) => {
                let Standing {
                    within,
                    own,
                    behind,
                } = standing;
                self.lines.push(DocLine {
                    line,
                    kind,
                    within,
                    own,
                })?;
                Ok(Taken { behind, chapter })
            }
            Err(NameFault::Full) => {
                let name = self.file_name(alloc, line.file as usize)?;
                Err(DocFault::NameLimit {
                    name,
                    line: line.number,
                })
            }
            Err(NameFault::Memory) => Err(DocFault::Memory),
        }
    }

    /// Where a line of a kind stands. The condition of an opener or a one-line form is put in, with its names.
    fn stand(
        &mut self,
        alloc: Global,
        kind: &LineKind,
        within: Option<CondId>,
    ) -> Result<Standing, NameFault>
        requires conds { AreCondsThere self.old }
        requires different { AreDifferent self.old.names }
        requires few { length self.old.conds < 2 ^ 32 }
        requires within { IsBefore (length self.old.conds) within }
        ensures stands { IfOk result (λ standing. Stands self.old self.new kind.now within standing) }
        ensures few { length self.old.names ≤ most_names → OnOk result (length self.new.names ≤ most_names) }
        ensures full { IsErrOf result NameFault.Full → most_names < length (with_names (names_in kind.now) self.old.names) }
        ensures kept { self.new.files ≡ self.old.files }
    {
        match kind {
            LineKind::Begin {
                negated,
                any,
                names,
            } => {
                let cond = self.put_cond(alloc, *negated, *any, names.as_slice(), within)?;
                Ok(Standing {
                    within,
                    own: None,
                    behind: Some(cond),
                })
            }
            LineKind::OneLine {
                negated,
                any,
                names,
                ..
            } => {
                let cond = self.put_cond(alloc, *negated, *any, names.as_slice(), within)?;
                Ok(Standing {
                    within,
                    own: Some(cond),
                    behind: within,
                })
            }
            LineKind::Close { .. } => {
                let outer = self.outer(within);
                Ok(Standing {
                    within: outer,
                    own: None,
                    behind: outer,
                })
            }
            _ => Ok(Standing {
                within,
                own: None,
                behind: within,
            }),
        }
    }

    /// The conditional round a conditional.
    fn outer(&self, cond: Option<CondId>) -> Option<CondId>
        requires { IsBefore (length self.now.conds) cond }
        ensures { result ≡ outer self.now.conds cond }
    {
        match cond {
            Some(id) => self.conds[id.0 as usize].within,
            None => None,
        }
    }

    /// Puts a condition in, with its names, and gives its place.
    fn put_cond(
        &mut self,
        alloc: Global,
        negated: bool,
        any: bool,
        names: &[Bytes],
        within: Option<CondId>,
    ) -> Result<CondId, NameFault>
        requires { length self.old.conds < 2 ^ 32 }
        ensures puts { IfOk result (λ id. Puts self.old self.new negated any names.now within id) }
        ensures few { length self.old.names ≤ most_names → OnOk result (length self.new.names ≤ most_names) }
        ensures full { IsErrOf result NameFault.Full → most_names < length (with_names names.now self.old.names) }
        ensures kept { self.new.files ≡ self.old.files }
    {
        let place = self.conds.len() as u32;
        let ids = intern_all(alloc, &mut self.names, names)?;
        let cond = Cond {
            negated,
            any,
            names: Listed::from_vec(ids),
            within,
        };
        match self.conds.push(cond) {
            Ok(()) => Ok(CondId(place)),
            Err(_) => Err(NameFault::Memory),
        }
    }

    /// The document. It takes memory for the names of its files.
    pub(crate) fn finish(self, alloc: Global) -> Result<Document, DocFault>
        ensures document { IfOk result (λ d. d ≡ self) }
        ensures fault { IfErr result (λ fault. fault ≡ DocFault.Memory) }
    {
        let Draft {
            files,
            names,
            conds,
            lines,
        } = self;
        let files = all_names(alloc, &files)?;
        Ok(Document {
            files: Listed::from_vec(files),
            names,
            conds: Listed::from_vec(conds),
            lines: Listed::from_vec(lines),
        })
    }
}

/// Copies of all names of a table, in order.
fn all_names(alloc: Global, table: &Names) -> Result<Vec<Bytes>, DocFault>
    ensures names { IfOk result (λ names. names.items ≡ table.now) }
    ensures fault { IfErr result (λ fault. fault ≡ DocFault.Memory) }
{
    let mut names = Vec::new(alloc);
    for place in 0..table.len() {
        let name = Bytes::from_slice(alloc, table.name(place))?;
        names.push(name)?;
    }
    Ok(names)
}

/// The places of names in a table, into which new ones are put.
fn intern_all(
    alloc: Global,
    table: &mut NameTable,
    names: &[Bytes],
) -> Result<Vec<NameId>, NameFault>
    ensures table { OnOk result (table.new ≡ with_names names.now table.old) }
    ensures ids { IfOk result (λ ids. map (λ id. slice_index_or table.new id.0 []) ids.items ≡ names.now) }
    ensures each { IfOk result (λ ids. All (λ id. id.0 < length table.new) ids.items) }
    ensures few { length table.old ≤ most_names → OnOk result (length table.new ≤ most_names) }
    ensures full { IsErrOf result NameFault.Full → most_names < length (with_names names.now table.old) }
{
    let mut ids = Vec::new(alloc);
    for name in names {
        let id = table.intern(name.as_slice())?;
        put_last(&mut ids, id)?;
    }
    Ok(ids)
}

fn put_last(ids: &mut Vec<NameId>, id: NameId) -> Result<(), NameFault>
    ensures ids { OnOk result (ids.new.items ≡ ids.old.items ++ id ∷ []) }
    ensures fault { IfErr result (λ fault. fault ≡ NameFault.Memory) }
{
    match ids.push(id) {
        Ok(()) => Ok(()),
        Err(_) => Err(NameFault::Memory),
    }
}

/// The kind of a line that was read before.
fn read_kind(alloc: Global, line: &[u8]) -> Result<LineKind, DocFault>
    requires { length line.now < 2 ^ 32 }
    ensures kind { IfOk result (IsKind line.now) }
    ensures only { IfOk result (λ read. (kind : LineKind) → IsKind line.now kind → read ≡ kind) }
    ensures within { IfOk result (IsKindWithin line.now) }
    ensures ascii { IfOk result GivesAscii }
    ensures fault { IfErr result (λ fault. fault ≡ DocFault.Memory) }
{
    match kind_of(alloc, line) {
        Ok(kind) => Ok(kind),
        Err(_) => Err(DocFault::Memory),
    }
}

/// The file that a line of a kind includes.
fn chapter_of(alloc: Global, kind: &LineKind) -> Result<Option<FileName>, DocFault>
    requires { GivesAscii kind.now }
    ensures chapter { IfOk result (λ chapter. chapter ≡ chapter_in kind.now) }
    ensures fault { IfErr result (λ fault. fault ≡ DocFault.Memory) }
{
    match kind {
        LineKind::Chapter { file } => {
            let name = String::from_utf8(Vec::from_slice(alloc, file.as_slice())?);
            match name {
                Ok(name) => Ok(Some(FileName::from_string(name))),
                Err(_) => Err(DocFault::Memory),
            }
        }
        _ => Ok(None),
    }
}
