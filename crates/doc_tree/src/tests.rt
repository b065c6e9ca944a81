ghost use Rattle.std.specs.Prelude.{◌≤◌};

use crate::{CondId, DocFault, Document, load};
use std::alloc::{AllocError, Global};
use std::process::Abort;
use std::test::Fail;
use vkb_bytes::Bytes;
use vkb_outside::{MemoryShelf, SureShelf, names_differ};
use vkb_text::Text;

/// Files, each of a name and a text.
fn files_of(alloc: Global, files: &[(&str, &str)]) -> Result<Vec<(String, Vec<u8>)>, AllocError> {
    let mut held = Vec::new(alloc);
    for (name, text) in files {
        held.push((
            String::from_str(alloc, name)?,
            Vec::from_slice(alloc, text.as_bytes())?,
        ))?;
    }
    Ok(held)
}

fn number_of(cond: Option<CondId>) -> u32 {
    match cond {
        Some(id) => id.0,
        None => 99,
    }
}

/// The lines of a document: the file, the number, what stands round it and its own condition, each by its place, and 99 for none.
fn lines_of(alloc: Global, d: &Document) -> Result<String, AllocError> {
    let mut told = String::new(alloc);
    for line in d.lines.as_slice() {
        let one = format!(in alloc;
            "{}:{} {} {}\n",
            line.line.file,
            line.line.number,
            number_of(line.within),
            number_of(line.own)
        )?;
        told.push_str(one.as_str())?;
    }
    Ok(told)
}

/// The conditions of a document: whether they are negated, whether one name suffices, how many names, and what stands round them.
fn conds_of(alloc: Global, d: &Document) -> Result<String, AllocError> {
    let mut told = String::new(alloc);
    for cond in d.conds.as_slice() {
        let one = format!(in alloc;
            "{} {} {} {}\n",
            cond.negated,
            cond.any,
            cond.names.as_slice().len(),
            number_of(cond.within)
        )?;
        told.push_str(one.as_str())?;
    }
    Ok(told)
}

fn at(alloc: Global, word: &str, name: &Bytes, line: u32) -> Result<String, AllocError> {
    let name = std::str::from_utf8(name.as_slice()).unwrap_or("");
    format!(in alloc; "{word} {name}:{line}")
}

/// What is told of a fault.
fn told_of(alloc: Global, fault: &DocFault) -> Result<String, AllocError> {
    match fault {
        DocFault::ReadFault => String::from_str(alloc, "ReadFault"),
        DocFault::Missing { name } => at(alloc, "Missing", name, 0),
        DocFault::TooLarge { name } => at(alloc, "TooLarge", name, 0),
        DocFault::IncludeDepth { name, line } => at(alloc, "IncludeDepth", name, *line),
        DocFault::DocTooLong { name, line } => at(alloc, "DocTooLong", name, *line),
        DocFault::NameLimit { name, line } => at(alloc, "NameLimit", name, *line),
        DocFault::BadCondition { name, line } => at(alloc, "BadCondition", name, *line),
        DocFault::Unbalanced { name, line } => at(alloc, "Unbalanced", name, *line),
        DocFault::CondDepth { name, line } => at(alloc, "CondDepth", name, *line),
        DocFault::Memory => String::from_str(alloc, "Memory"),
    }
}

/// What is told of the document of a root in a buffer for so many bytes: how many lines it has, or its fault.
fn outcome(
    rt: &impl Abort,
    alloc: Global,
    files: Vec<(String, Vec<u8>)>,
    root: &str,
    most: u32,
) -> Result<String, AllocError>
    requires { most ≤ 268435456 }
{
    assert!(rt; names_differ(&files));
    let mut shelf = SureShelf::new(files);
    let mut text = Text::new(alloc, most);
    match load(alloc, &mut shelf, &mut text, root) {
        Ok(d) => format!(in alloc; "{}", d.lines.as_slice().len()),
        Err(fault) => told_of(alloc, &fault),
    }
}

const INCLUDED: &str = "ifndef::B[]\nx\nendif::B[]\nifdef::A,B[one]";

#[test]
fn conditions_round_an_include_reach_its_lines_and_each_file_is_read_once(
    rt: HostRuntime,
) -> Result<(), Fail> {
    let alloc = rt.alloc();
    let root =
        "ifdef::A[]\ninclude::{chapters}/c.adoc[]\nendif::[]\ninclude::{chapters}/c.adoc[]\n";
    let files = files_of(alloc, &[("r.adoc", root), ("chapters/c.adoc", INCLUDED)])?;
    assert!(rt; names_differ(&files));
    // A third read would fail.
    let mut shelf = MemoryShelf::new(files, vec![in alloc; 3]?);
    let mut text = Text::new(alloc, 268_435_456);
    let d = load(alloc, &mut shelf, &mut text, "r.adoc")?;
    let lines = lines_of(alloc, &d)?;
    assert_eq!(rt;
        lines.as_str(),
        "0:1 99 99\n0:2 0 99\n1:1 0 99\n1:2 1 99\n1:3 0 99\n1:4 0 2\n0:3 99 99\n0:4 99 99\n1:1 99 99\n1:2 3 99\n1:3 99 99\n1:4 99 4\n"
    );
    let conds = conds_of(alloc, &d)?;
    assert_eq!(rt;
        conds.as_str(),
        "false true 1 99\ntrue true 1 0\nfalse true 2 0\ntrue true 1 99\nfalse true 2 99\n"
    );
    assert_eq!(rt; d.names.len(), 2);
    assert!(rt; d.names.find(b"A").is_some());
    assert!(rt; d.names.find(b"B").is_some());
    assert_eq!(rt; d.files.as_slice().len(), 2);
    assert_eq!(rt; text.len() as usize, root.len() + INCLUDED.len());
    Ok(())
}

#[test]
fn each_fault_is_told_with_its_place(rt: HostRuntime) -> Result<(), Fail> {
    let alloc = rt.alloc();
    let cases = [
        (
            "include::{chapters}/c.adoc[]\n",
            "x\nifdef::[]\n",
            "BadCondition chapters/c.adoc:2",
        ),
        (
            "include::{chapters}/c.adoc[]\nendif::[]\n",
            "ifdef::A[]\n",
            "Unbalanced r.adoc:2",
        ),
        (
            "include::{chapters}/c.adoc[]\n",
            "x\nifdef::A[]\n",
            "Unbalanced chapters/c.adoc:2",
        ),
        (
            "ifdef::A[]\ninclude::{chapters}/d.adoc[]\nendif::[]\n",
            "x\n",
            "Missing chapters/d.adoc:0",
        ),
        (
            "x\ninclude::{chapters}/c.adoc[]\n",
            "include::{chapters}/c.adoc[]\n",
            "IncludeDepth chapters/c.adoc:1",
        ),
        ("include::{chapters}/c.adoc[]\nx\n", "y\nz\n", "4"),
    ];
    for (root, chapter, wanted) in cases {
        let files = files_of(alloc, &[("r.adoc", root), ("chapters/c.adoc", chapter)])?;
        let told = outcome(&rt, alloc, files, "r.adoc", 268_435_456)?;
        assert_eq!(rt; told.as_str(), wanted);
    }
    Ok(())
}

/// A text of so many same lines.
fn lines(alloc: Global, line: &str, count: u32) -> Result<String, AllocError> {
    let mut text = String::new(alloc);
    for _ in 0..count {
        text.push_str(line)?;
    }
    Ok(text)
}

#[test]
fn at_most_64_conditionals_of_a_file_are_open(rt: HostRuntime) -> Result<(), Fail> {
    let alloc = rt.alloc();
    for (count, wanted) in [(64, "129"), (65, "CondDepth chapters/c.adoc:65")] {
        let mut text = lines(alloc, "ifdef::A[]\n", count)?;
        text.push_str(lines(alloc, "endif::[]\n", count)?.as_str())?;
        let files = files_of(
            alloc,
            &[
                ("r.adoc", "include::{chapters}/c.adoc[]\n"),
                ("chapters/c.adoc", text.as_str()),
            ],
        )?;
        let told = outcome(&rt, alloc, files, "r.adoc", 268_435_456)?;
        assert_eq!(rt; told.as_str(), wanted);
    }
    Ok(())
}

#[test]
fn a_buffer_and_a_document_have_an_end(rt: HostRuntime) -> Result<(), Fail> {
    let alloc = rt.alloc();
    let root = "include::{chapters}/c.adoc[]\n";
    for (most, wanted) in [
        (31, "2"),
        (30, "DocTooLong chapters/c.adoc:0"),
        (28, "DocTooLong r.adoc:0"),
    ] {
        let files = files_of(alloc, &[("r.adoc", root), ("chapters/c.adoc", "x\n")])?;
        let told = outcome(&rt, alloc, files, "r.adoc", most)?;
        assert_eq!(rt; told.as_str(), wanted);
    }
    Ok(())
}

#[test]
fn a_document_has_at_most_4_000_000_lines(rt: HostRuntime) -> Result<(), Fail> {
    let alloc = rt.alloc();
    let root = "include::{chapters}/c.adoc[]\n";
    // Each include and its 4,000 lines are 4,001 lines.
    for (last, wanted) in [("", "3996999"), (root, "DocTooLong chapters/c.adoc:3001")] {
        let mut text = lines(alloc, root, 999)?;
        text.push_str(last)?;
        let chapter = lines(alloc, "x\n", 4000)?;
        let files = files_of(
            alloc,
            &[
                ("r.adoc", text.as_str()),
                ("chapters/c.adoc", chapter.as_str()),
            ],
        )?;
        let told = outcome(&rt, alloc, files, "r.adoc", 268_435_456)?;
        assert_eq!(rt; told.as_str(), wanted);
    }
    Ok(())
}

/// A chain of so many chapters, each with an include of the next and the last with a line of text, behind a root.
fn chain(alloc: Global, count: u32) -> Result<Vec<(String, Vec<u8>)>, AllocError> {
    let mut held = files_of(alloc, &[("r.adoc", "include::{chapters}/1.adoc[]\n")])?;
    for below in 0..count {
        let number = u64::from(below) + 1;
        let next = number + 1;
        let text = if number < u64::from(count) {
            format!(in alloc; "include::{{chapters}}/{next}.adoc[]\n")?
        } else {
            String::from_str(alloc, "x\n")?
        };
        let name = format!(in alloc; "chapters/{number}.adoc")?;
        held.push((name, text.into_bytes()))?;
    }
    Ok(held)
}

#[test]
fn files_are_open_16_in_one_another(rt: HostRuntime) -> Result<(), Fail> {
    let alloc = rt.alloc();
    let told = outcome(&rt, alloc, chain(alloc, 15)?, "r.adoc", 268_435_456)?;
    assert_eq!(rt; told.as_str(), "16");
    let told = outcome(&rt, alloc, chain(alloc, 16)?, "r.adoc", 268_435_456)?;
    assert_eq!(rt; told.as_str(), "IncludeDepth chapters/15.adoc:1");
    Ok(())
}

/// A line that opens a conditional on so many different names, and one that closes it.
fn many_names(alloc: Global, count: u32) -> Result<String, AllocError> {
    let mut text = String::from_str(alloc, "ifdef::n")?;
    for number in 1..count {
        text.push_str(format!(in alloc; ",{number}")?.as_str())?;
    }
    text.push_str("[]\nendif::[]\n")?;
    Ok(text)
}

#[test]
fn conditions_have_at_most_1_048_576_names(rt: HostRuntime) -> Result<(), Fail> {
    let alloc = rt.alloc();
    let text = many_names(alloc, 1_048_576)?;
    let files = files_of(alloc, &[("r.adoc", text.as_str())])?;
    let told = outcome(&rt, alloc, files, "r.adoc", 268_435_456)?;
    assert_eq!(rt; told.as_str(), "2");
    let text = many_names(alloc, 1_048_577)?;
    let files = files_of(alloc, &[("r.adoc", text.as_str())])?;
    let told = outcome(&rt, alloc, files, "r.adoc", 268_435_456)?;
    assert_eq!(rt; told.as_str(), "NameLimit r.adoc:1");
    Ok(())
}

#[test]
fn a_failed_read_is_told(rt: HostRuntime) -> Result<(), Fail> {
    let alloc = rt.alloc();
    let files = files_of(
        alloc,
        &[
            ("r.adoc", "include::{chapters}/c.adoc[]\n"),
            ("chapters/c.adoc", "x\n"),
        ],
    )?;
    assert!(rt; names_differ(&files));
    let mut shelf = MemoryShelf::new(files, vec![in alloc; 2]?);
    let mut text = Text::new(alloc, 100);
    let fault = load(alloc, &mut shelf, &mut text, "r.adoc").err();
    assert!(rt; matches!(fault, Some(DocFault::ReadFault)));
    Ok(())
}

#[test]
fn files_have_one_walk(_rt: HostRuntime) {
    crate::files_have_sources();
    crate::one_walk();
}
