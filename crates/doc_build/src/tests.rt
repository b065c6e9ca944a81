ghost use Rattle.std.specs.Prelude.{◌≡◌, length, IfOk};
ghost use Rattle.doc_tree.specs.Loaded.{IsLoaded};

use crate::{Memory, Piece, anchor_line, built, count, pieces, statement_line};
use doc_tree::{DocFault, Document, load};
use reg_registry::{Choice, Registry};
use std::alloc::{AllocError, Global};
use std::process::Abort;
use std::test::Fail;
use vkb_bytes::Bytes;
use vkb_outside::{SureShelf, names_differ};
use vkb_text::Text;
use vu_implicit::Statement;

/// The document of a chapter, as the only file.
fn document(
    rt: &impl Abort,
    alloc: Global,
    text: &mut Text,
    chapter: &str,
) -> Result<Document, DocFault>
    ensures loaded { IfOk result (IsLoaded text.new.bytes) }
{
    let mut files = Vec::new(alloc);
    files.push((
        String::from_str(alloc, "a.adoc")?,
        Vec::from_slice(alloc, chapter.as_bytes())?,
    ))?;
    assert!(rt; names_differ(&files));
    let mut shelf = SureShelf::new(files);
    load(alloc, &mut shelf, text, "a.adoc")
}

fn names_of(alloc: Global, names: &[&str]) -> Result<Vec<Bytes>, AllocError> {
    let mut always = Vec::new(alloc);
    for name in names {
        always.push(Bytes::from_slice(alloc, name.as_bytes())?)?;
    }
    Ok(always)
}

/// The registry that has no options and declares nothing, and the choice of them.
fn bare(alloc: Global) -> Result<(Registry, Choice), Memory>
    ensures { IfOk result (λ p. length p.1.chosen.items ≡ length p.0.options) }
{
    let registry = Registry::bare(alloc, &[])?;
    let chosen = Vec::new(alloc);
    Ok((registry, Choice { chosen }))
}

/// Puts a piece behind others: its flat line, statement, start and whether marks are read in it, and its bytes.
fn put_told(out: &mut String, alloc: Global, piece: &Piece) -> Result<(), AllocError> {
    let bytes = std::str::from_utf8(piece.bytes.as_slice()).unwrap_or("");
    let told = format!(in alloc;
        "{} {} {} {} {bytes}\n",
        piece.line, piece.statement, piece.start, piece.marked
    )?;
    out.push_str(told.as_str())
}

fn told(alloc: Global, pieces: &[Piece]) -> Result<String, AllocError> {
    let mut out = String::new(alloc);
    for piece in pieces {
        put_told(&mut out, alloc, piece)?;
    }
    Ok(out)
}

/// Checks what a chapter gives where these names are set and no other.
fn check_pieces(
    rt: &impl Abort,
    alloc: Global,
    chapter: &str,
    always: &[&str],
    want: &str,
) -> Result<(), Fail> {
    let mut text = Text::new(alloc, 1_000_000);
    let d = document(rt, alloc, &mut text, chapter)?;
    let (registry, choice) = bare(alloc)?;
    let always = names_of(alloc, always)?;
    let given = pieces(alloc, &text, &d, &registry, &choice, always.as_slice())?;
    let told = told(alloc, given.as_slice())?;
    assert_eq!(rt; told.as_str(), want);
    Ok(())
}

/// Checks how many anchors of an id a chapter has where these names are set and no other.
fn check_count(
    rt: &impl Abort,
    alloc: Global,
    chapter: &str,
    always: &[&str],
    id: &str,
    want: u64,
) -> Result<(), Fail> {
    let mut text = Text::new(alloc, 1_000_000);
    let d = document(rt, alloc, &mut text, chapter)?;
    let (registry, choice) = bare(alloc)?;
    let always = names_of(alloc, always)?;
    let anchors = count(
        alloc,
        &text,
        &d,
        &registry,
        &choice,
        always.as_slice(),
        id.as_bytes(),
    )?;
    assert_eq!(rt; anchors, want);
    Ok(())
}

#[test]
fn lines_give_what_their_kinds_say(rt: HostRuntime) -> Result<(), Fail> {
    let alloc = rt.alloc();
    check_pieces(
        &rt,
        alloc,
        "[[a]] [[a]]\n  <<a,the\nwords>>\n",
        &[],
        "0 0 0 true [[a]] [[a]]\n1 0 0 true   <<a,the\n2 0 0 true words>>\n",
    )?;
    check_pieces(
        &rt,
        alloc,
        "// [[a]]\n///[[b]]\ninclude::x[]\n:refpage: VkA\n:!refpage:\ninclude::{generated}/api/structs/VkA.adoc[]\n",
        &[],
        "0 0 0 false // [[a]]\n1 0 0 true ///[[b]]\n2 0 0 false include::x[]\n3 0 0 false :refpage: VkA\n4 0 0 true :!refpage:\n",
    )
}

#[test]
fn conditions_keep_lines_by_the_names_that_are_set(rt: HostRuntime) -> Result<(), Fail> {
    let alloc = rt.alloc();
    let chapter =
        "ifdef::X[see <<a>>]\nifndef::X,Y[]\nno\nifdef::X[]\nnever\nendif::[]\nendif::X,Y[]\nifdef::X+Y[both]\n";
    check_pieces(&rt, alloc, chapter, &["X"], "0 0 9 true see <<a>>\n")?;
    check_pieces(&rt, alloc, chapter, &[], "2 0 0 true no\n")?;
    check_pieces(&rt, alloc, chapter, &["Y", "Z"], "")?;
    check_pieces(
        &rt,
        alloc,
        chapter,
        &["Y", "X"],
        "0 0 9 true see <<a>>\n7 0 11 true both\n",
    )
}

const SHARED: &str =
    "ifdef::X[]\n:refpage: VkA\nendif::X[]\nifndef::X[]\n:refpage: VkB\nendif::X[]\n[[VUID-{refpage}-x]]\n<<VUID-VkA-x>>\n";

#[test]
fn anchors_are_counted_by_their_ids_at_the_choice(rt: HostRuntime) -> Result<(), Fail> {
    let alloc = rt.alloc();
    check_count(&rt, alloc, "[[a]] [[a]]\n  <<a,the\nwords>>\n", &[], "a", 2)?;
    check_count(&rt, alloc, SHARED, &["X"], "VUID-VkA-x", 1)?;
    check_count(&rt, alloc, SHARED, &["X"], "VUID-VkB-x", 0)?;
    check_count(&rt, alloc, SHARED, &[], "VUID-VkA-x", 0)?;
    check_count(&rt, alloc, SHARED, &[], "VUID-VkB-x", 1)?;
    check_count(&rt, alloc, SHARED, &[], "VUID-{refpage}-x", 0)?;
    check_count(
        &rt,
        alloc,
        "[[p-{refpage}]]\n:refpage: V\n// [[p-V]]\n[[{refpage}{refpage}.x]]\n",
        &[],
        "p-{refpage}",
        1,
    )?;
    check_count(
        &rt,
        alloc,
        ":refpage: V\n[[{refpage}{refpage}.x]] [[VV.x]]\n",
        &[],
        "VV.x",
        2,
    )
}

#[test]
fn a_large_text_is_built_whole(rt: HostRuntime) -> Result<(), Fail> {
    let alloc = rt.alloc();
    let mut chapter = String::new(alloc);
    for _ in 0..50_000 {
        chapter.push_str("ifdef::X[a [[b]]]\nifndef::X[]\nc\nendif::[]\n")?;
    }
    let mut text = Text::new(alloc, 10_000_000);
    let d = document(&rt, alloc, &mut text, chapter.as_str())?;
    let (registry, choice) = bare(alloc)?;
    let always = names_of(alloc, &["X"])?;
    let bytes = built(alloc, &text, &d, &registry, &choice, always.as_slice())?;
    assert_eq!(rt; bytes.len(), 400_000);
    assert!(rt; bytes.starts_with(b"a [[b]]\na [[b]]\n"));
    assert!(rt; bytes.ends_with(b"\na [[b]]\n"));
    let anchors = count(
        alloc,
        &text,
        &d,
        &registry,
        &choice,
        always.as_slice(),
        b"b",
    )?;
    assert_eq!(rt; anchors, 50_000);
    Ok(())
}

#[test]
fn the_lines_of_pages_are_told(rt: HostRuntime) -> Result<(), Fail> {
    let alloc = rt.alloc();
    let anchor = anchor_line(alloc, b"VkB")?;
    assert!(rt; anchor.as_slice() == b"[[VkB,VkB]]".as_slice());
    let statement = Statement {
        tag: Bytes::from_slice(alloc, b"VUID-VkB-x")?,
        text: Bytes::from_slice(alloc, b"`x` must: be 0")?,
        needs: None,
    };
    let line = statement_line(alloc, &statement)?;
    assert!(rt; line.as_slice() == b"  * [[VUID-VkB-x]] `x` must: be 0".as_slice());
    let mut long = Vec::new(alloc);
    for _ in 0..1_000_000 {
        long.push(b'V')?;
    }
    let anchor = anchor_line(alloc, long.as_slice())?;
    assert_eq!(rt; anchor.as_slice().len(), 2_000_005);
    Ok(())
}
