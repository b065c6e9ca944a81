ghost use Rattle.std.specs.Prelude.{◌≡◌, ◌++◌, ◌^◌, ◌<◌, List, ℕ, Some, codes, length, string_bytes, IfErr, IfOk, OnOk};
ghost use Rattle.std.specs.List.{flat_map};
ghost use Rattle.doc_tree.specs.Answer.{told_of};
ghost use Rattle.doc_tree.specs.Fault.{Fault as DocumentFault};
ghost use Rattle.doc_tree.specs.Loaded.{flat_of};
ghost use Rattle.doc_build.specs.Choices.{chosen_of};
ghost use Rattle.vkb_tool.specs.Check.{AreFilesThere, IsTroubleOf, NamesWithin};
ghost use Rattle.vkb_tool.specs.Fault.{BadTag, NoNumber, NotPermitted, UnknownOption};
ghost use Rattle.vkb_tool.specs.Report.{broken_lines, document_fault_line, fault_line, file_fault_line, line_fault_line, place_text, report_of, spot_in, tagged_line, usage_line, with_line, word_fault_line};

mod registry;

use crate::Memory;
use crate::answer::Trouble;
use doc_build::Place;
use doc_tree::{DocFault, Document};
use lift_check::Verdict;
pub use registry::registry_fault_text;
use std::alloc::Global;
use vkb_formula::{NameId, NameTable};

/// The line for words whose position, from 1, has no place.
pub fn usage_text(alloc: Global, position: u32) -> Result<Vec<u8>, Memory>
    ensures { IfOk result (λ text. text.items ≡ usage_line position) }
{
    Ok(format!(in alloc; "usage {position}\n")?.into_bytes())
}

/// The line for a fault of a document. A failed read and want of memory have none.
pub fn document_fault_text(alloc: Global, fault: &DocFault) -> Result<Vec<u8>, Trouble>
    ensures told { IfOk result (λ text. (named : DocumentFault) × (told_of fault.now ≡ Some named) × (text.items ≡ document_fault_line named)) }
    ensures untold { IfErr result (IsTroubleOf fault.now) }
{
    match fault {
        DocFault::Missing { name } => Ok(file_fault_text(alloc, b"Missing", name.as_slice())?),
        DocFault::TooLarge { name } => Ok(file_fault_text(alloc, b"TooLarge", name.as_slice())?),
        DocFault::IncludeDepth { name, line } => {
            Ok(line_fault_text(alloc, b"IncludeDepth", name.as_slice(), *line)?)
        }
        DocFault::DocTooLong { name, line } => {
            Ok(line_fault_text(alloc, b"DocTooLong", name.as_slice(), *line)?)
        }
        DocFault::NameLimit { name, line } => {
            Ok(line_fault_text(alloc, b"NameLimit", name.as_slice(), *line)?)
        }
        DocFault::BadCondition { name, line } => {
            Ok(line_fault_text(alloc, b"BadCondition", name.as_slice(), *line)?)
        }
        DocFault::Unbalanced { name, line } => {
            Ok(line_fault_text(alloc, b"Unbalanced", name.as_slice(), *line)?)
        }
        DocFault::CondDepth { name, line } => {
            Ok(line_fault_text(alloc, b"CondDepth", name.as_slice(), *line)?)
        }
        DocFault::ReadFault => Err(Trouble::ReadFailed),
        DocFault::Memory => Err(Trouble::NoMemory),
    }
}

/// The report of so many new tags.
pub fn tagged_text(alloc: Global, count: u32) -> Result<Vec<u8>, Memory>
    ensures { IfOk result (λ text. text.items ≡ tagged_line count) }
{
    Ok(format!(in alloc; "tagged {count}\n")?.into_bytes())
}

/// The line for a malformed tag in a line of a file.
pub fn bad_tag_text(alloc: Global, file: &str, line: u32) -> Result<Vec<u8>, Memory>
    ensures { IfOk result (λ text. text.items ≡ fault_line (BadTag file.now line)) }
{
    line_fault_text(alloc, b"BadTag", file.as_bytes(), line)
}

/// The line for statements that need more numbers than are left.
pub fn no_number_text(alloc: Global, needed: u32, left: u32) -> Result<Vec<u8>, Memory>
    ensures { IfOk result (λ text. text.items ≡ fault_line (NoNumber needed left)) }
{
    Ok(format!(in alloc; "refused NoNumber {needed} {left}\n")?.into_bytes())
}

/// The line for a word that is no option.
pub fn unknown_option_text(alloc: Global, word: &[u8]) -> Result<Vec<u8>, Memory>
    ensures { IfOk result (λ text. text.items ≡ fault_line (UnknownOption word.now)) }
{
    word_fault_text(alloc, b"UnknownOption", word)
}

/// The line for a choice that isn't permitted, by the option whose rule doesn't hold.
pub fn not_permitted_text(alloc: Global, option: &[u8]) -> Result<Vec<u8>, Memory>
    ensures { IfOk result (λ text. text.items ≡ fault_line (NotPermitted option.now)) }
{
    word_fault_text(alloc, b"NotPermitted", option)
}

/// The line for a fault in the words for options, by its code.
fn word_fault_text(alloc: Global, code: &[u8], word: &[u8]) -> Result<Vec<u8>, Memory>
    ensures { IfOk result (λ text. text.items ≡ word_fault_line code.now word.now) }
{
    let mut text = refused(alloc, code)?;
    text.extend_from_slice(word)?;
    text.push(b'\n')?;
    Ok(text)
}

/// The line for a fault of a file, by its code.
fn file_fault_text(alloc: Global, code: &[u8], file: &[u8]) -> Result<Vec<u8>, Memory>
    ensures { IfOk result (λ text. text.items ≡ file_fault_line code.now file.now) }
{
    let mut text = refused(alloc, code)?;
    text.extend_from_slice(file)?;
    text.push(b'\n')?;
    Ok(text)
}

/// The line for a fault at a line of a file, from 1, by its code.
fn line_fault_text(alloc: Global, code: &[u8], file: &[u8], line: u32) -> Result<Vec<u8>, Memory>
    ensures { IfOk result (λ text. text.items ≡ line_fault_line code.now file.now line) }
{
    let mut text = refused(alloc, code)?;
    text.extend_from_slice(file)?;
    let tail = format!(in alloc; ":{line}\n")?;
    text.extend_from_slice(tail.as_bytes())?;
    Ok(text)
}

/// What the line of a fault begins with, by its code.
fn refused(alloc: Global, code: &[u8]) -> Result<Vec<u8>, Memory>
    ensures { IfOk result (λ text. text.items ≡ codes "refused " ++ code.now ++ codes " ") }
{
    let mut text = Vec::from_slice(alloc, b"refused ")?;
    text.extend_from_slice(code)?;
    text.push(b' ')?;
    Ok(text)
}

/// The report of a verdict on a document, by the names of the options.
pub fn report(
    alloc: Global,
    document: &Document,
    options: &NameTable,
    verdict: &Verdict,
) -> Result<Vec<u8>, Memory>
    requires files { AreFilesThere document.now }
    requires few { length options.now < 2 ^ 32 }
    requires within { NamesWithin (length document.now.lines) (length options.now) verdict.now }
    ensures { IfOk result (λ text. (whole : List ℕ) → text.items ≡ report_of (flat_of whole document.now) options.now verdict.now) }
{
    match verdict {
        Verdict::Yes { links } => Ok(format!(in alloc; "yes {links}\n")?.into_bytes()),
        Verdict::No {
            place,
            id,
            choice,
            count,
        } => {
            let mut text = broken_text(alloc, document, *place, id.as_slice(), *count)?;
            add_choice(&mut text, options, choice.as_slice())?;
            Ok(text)
        }
    }
}

/// The lines on a link that hasn't exactly one anchor.
fn broken_text(
    alloc: Global,
    document: &Document,
    place: Place,
    id: &[u8],
    count: u64,
) -> Result<Vec<u8>, Memory>
    requires files { AreFilesThere document.now }
    requires line { place.line < length document.now.lines }
    ensures { IfOk result (λ text. (whole : List ℕ) → text.items ≡ broken_lines (flat_of whole document.now) place id.now count) }
{
    let mut text = Vec::from_slice(alloc, b"no ")?;
    add_place(alloc, &mut text, document, place)?;
    text.push(b'\n')?;
    text.extend_from_slice(id)?;
    let tail = format!(in alloc; " {count}\n")?;
    text.extend_from_slice(tail.as_bytes())?;
    Ok(text)
}

/// Adds a place in a document.
fn add_place(
    alloc: Global,
    text: &mut Vec<u8>,
    document: &Document,
    place: Place,
) -> Result<(), Memory>
    requires files { AreFilesThere document.now }
    requires line { place.line < length document.now.lines }
    ensures { OnOk result ((whole : List ℕ) → text.new.items ≡ text.old.items ++ place_text (flat_of whole document.now) place) }
{
    let line = document.lines.as_slice()[place.line as usize].line;
    text.extend_from_slice(document.files.as_slice()[line.file as usize].as_slice())?;
    let spot = spot_text(alloc, line.number, place.statement, place.at)?;
    text.extend_from_slice(spot.as_bytes())?;
    Ok(())
}

/// A place in a line of a file, without the file's name.
fn spot_text(alloc: Global, number: u32, statement: u32, at: u32) -> Result<String, Memory>
    ensures { IfOk result (λ text. string_bytes text ≡ spot_in number statement at) }
{
    let column = u64::from(at) + 1;
    if statement == 0 {
        Ok(format!(in alloc; ":{number}:{column}")?)
    } else {
        Ok(format!(in alloc; ":{number}/{statement}:{column}")?)
    }
}

/// Adds a line for each chosen option.
fn add_choice(text: &mut Vec<u8>, options: &NameTable, choice: &[bool]) -> Result<(), Memory>
    requires whole { length choice.now ≡ length options.now }
    requires few { length options.now < 2 ^ 32 }
    ensures { OnOk result (text.new.items ≡ text.old.items ++ flat_map with_line (chosen_of options.now choice.now)) }
{
    for (option, chosen) in choice.iter().enumerate() {
        if *chosen {
            text.extend_from_slice(b"with ")?;
            text.extend_from_slice(options.name(NameId(option as u32)))?;
            text.push(b'\n')?;
        }
    }
    Ok(())
}
