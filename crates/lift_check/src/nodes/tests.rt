//! The nodes of small documents over a registry of three options, at each choice of them.
ghost use Rattle.std.specs.Prelude.{◌≡◌, ◌≤◌, IfOk, length};
ghost use Rattle.doc_tree.specs.Loaded.{IsLoaded};
ghost use Rattle.vkb_formula.specs.Pools.{pool_reach};

use super::{Prepared, prepare};
use doc_tree::{DocFault, Document, load};
use reg_reader::read_markup;
use reg_registry::Registry;
use reg_rows::rows;
use std::alloc::{AllocError, Global};
use std::process::Abort;
use std::test::Fail;
use vkb_bytes::{Bytes, Memory};
use vkb_formula::{NodeId, Pool};
use vkb_outside::{SureShelf, names_differ};
use vkb_text::Text;

/// A feature and two extensions. The second depends on the first, and it alone requires the one name that is declared.
const REGISTRY: &[u8] =
    b"<registry><types><type name='VkE' category='enum'/></types><enums name='VkE' type='enum'><enum value='0' name='VK_E_A'/></enums><feature api='vulkan' name='VK_V' number='1.0'/><extensions><extension name='VK_A' number='1' supported='vulkan'/><extension name='VK_B' number='2' supported='vulkan' depends='VK_A'><require><type name='VkE'/></require></extension></extensions></registry>";

/// The document of a chapter, as the only file.
fn document(
    rt: &impl Abort,
    alloc: Global,
    text: &mut Text,
    chapter: &str,
) -> Result<Document, DocFault>
    ensures loaded { IfOk result (IsLoaded text.new.bytes) }
{
    let mut files = Vec::new(alloc);
    files.push((
        String::from_str(alloc, "a.adoc")?,
        Vec::from_slice(alloc, chapter.as_bytes())?,
    ))?;
    assert!(rt; names_differ(&files));
    let mut shelf = SureShelf::new(files);
    load(alloc, &mut shelf, text, "a.adoc")
}

fn registry(alloc: Global) -> Result<Registry, Fail> {
    let tree = read_markup(alloc, REGISTRY)?;
    match rows(alloc, REGISTRY, &tree, b"vulkan") {
        Ok(registry) => Ok(registry),
        Err(_) => Err(Fail::from("no registry")),
    }
}

/// The choice of a number: option k is chosen where its bit k is set.
fn choice_at(alloc: Global, options: u32, number: u32) -> Result<Vec<bool>, AllocError>
    ensures { IfOk result (λ choice. length choice.items ≡ options) }
{
    let mut choice = Vec::new(alloc);
    let mut rest = number;
    for _ in 0..options {
        choice.push(rest % 2 == 1)?;
        rest /= 2;
    }
    Ok(choice)
}

/// The values of all nodes at each of eight choices.
fn values_at_all(alloc: Global, pool: &Pool, options: u32) -> Result<Vec<Vec<bool>>, Memory>
    requires { pool_reach pool.now ≤ options }
{
    let mut all = Vec::new(alloc);
    for number in 0..8 {
        let choice = choice_at(alloc, options, number)?;
        all.push(pool.values(choice.as_slice())?)?;
    }
    Ok(all)
}

/// Puts a line behind what was told: a digit for the value of a node at each choice.
fn put_node(out: &mut String, all: &[Vec<bool>], node: NodeId) -> Result<(), AllocError> {
    for values in all {
        let is_true = values.get(node.0 as usize) == Some(&true);
        out.push_str(if is_true { "1" } else { "0" })?;
    }
    out.push_str("\n")
}

/// The values of the nodes of lines, of those of names, and of that of permitted choices.
fn told(alloc: Global, p: &Prepared, options: u32) -> Result<String, Memory>
    requires { pool_reach p.now.pool ≤ options }
{
    let all = values_at_all(alloc, &p.pool, options)?;
    let mut out = String::new(alloc);
    for node in p.lines.as_slice() {
        put_node(&mut out, all.as_slice(), *node)?;
    }
    out.push_str("and\n")?;
    for node in p.names.as_slice() {
        put_node(&mut out, all.as_slice(), *node)?;
    }
    out.push_str("and\n")?;
    put_node(&mut out, all.as_slice(), p.permit)?;
    Ok(out)
}

/// What is told of a document, where the name `SET` is always set.
fn prepared_told(alloc: Global, text: &Text, d: &Document, r: &Registry) -> Result<String, Memory>
    requires { IsLoaded text.now.bytes d.now }
{
    let always = vec![in alloc; Bytes::from_slice(alloc, b"SET")?]?;
    let prepared = prepare(alloc, d, r, always.as_slice())?;
    told(alloc, &prepared, r.options().len())
}

/// Checks the values of a chapter's nodes, those of the name `VkE`, and where a choice is permitted.
fn check(rt: &impl Abort, alloc: Global, chapter: &str, lines: &str) -> Result<(), Fail> {
    let mut text = Text::new(alloc, 1_000_000);
    let d = document(rt, alloc, &mut text, chapter)?;
    let r = registry(alloc)?;
    let told = prepared_told(alloc, &text, &d, &r)?;
    let want = format!(in alloc; "{lines}and\n00001111\nand\n01010001\n")?;
    assert_eq!(rt; told.as_str(), want.as_str(), "{chapter:?}");
    Ok(())
}

#[test]
fn nodes_tell_of_lines_names_and_choices(rt: HostRuntime) -> Result<(), Fail> {
    let table = [
        ("", ""),
        (
            "a\nifdef::VK_B[]\nb\nendif::VK_B[]\n",
            "11111111\n11111111\n00001111\n11111111\n",
        ),
        (
            "ifndef::SET[a]\nifdef::VK_A,SET[b]\nifdef::VK_A+SET[c]\n",
            "00000000\n11111111\n00110011\n",
        ),
        (
            "ifdef::VK_A[]\nifndef::VK_B[a]\nifdef::VK_X[b]\nendif::VK_A[]\n",
            "11111111\n00110000\n00000000\n11111111\n",
        ),
    ];
    for (chapter, lines) in table {
        check(&rt, rt.alloc(), chapter, lines)?;
    }
    Ok(())
}

#[test]
fn ten_thousand_lines_have_nodes(rt: HostRuntime) -> Result<(), Fail> {
    let alloc = rt.alloc();
    let mut chapter = String::new(alloc);
    let mut lines = String::new(alloc);
    for _ in 0..5_000 {
        chapter.push_str("ifdef::VK_A[a]\nifndef::VK_V,VK_B[b]\n")?;
        lines.push_str("00110011\n10100000\n")?;
    }
    check(&rt, alloc, chapter.as_str(), lines.as_str())
}
