//! Marks and their ids, over a pool of two variables x and y.
ghost use Rattle.std.specs.Prelude.{◌≡◌, ◌<◌, ◌≤◌, All, IfOk, length};
ghost use Rattle.vkb_formula.specs.Pools.{pool_reach};
ghost use Rattle.doc_tree.specs.Loaded.{IsLoaded};
ghost use Rattle.lift_nodes.specs.Cases.{AreConstant};

use crate::lines::add_statements;
use crate::pages::Pages;
use crate::spots::Spot;
use crate::{Case, LiftedMark, Memory, Survey, survey_document};
use doc_tree::{DocFault, Document, load};
use lift_nodes::Constants;
use reg_registry::Registry;
use std::alloc::{AllocError, Global};
use std::process::Abort;
use std::test::Fail;
use vkb_bytes::Bytes;
use vkb_formula::{NameId, Names, NodeId, Pool, PoolNode};
use vkb_outside::{SureShelf, names_differ};
use vkb_text::Text;
use vu_implicit::Statement;

const CONSTANTS: Constants = Constants {
    always: NodeId(0),
    never: NodeId(1),
};

/// A pool of a node that is true, one that isn't, x and y.
fn two_variables(alloc: Global) -> Result<Pool, Memory>
    ensures count { IfOk result (λ pool. length pool ≡ 4) }
    ensures reach { IfOk result (λ pool. pool_reach pool ≡ 2) }
    ensures constants { IfOk result (λ pool. AreConstant pool (record { always = record { 0 = 0 }; never = record { 0 = 1 } })) }
{
    let mut pool = Pool::new(alloc);
    pool.put(PoolNode::Always)?;
    pool.put(PoolNode::Never)?;
    pool.put(PoolNode::Var(0))?;
    pool.put(PoolNode::Var(1))?;
    Ok(pool)
}

/// The node of that name: 1, 0, x or else y.
fn node_of(name: u8) -> NodeId
    ensures { result.0 < 4 }
{
    match name {
        b'1' => NodeId(0),
        b'0' => NodeId(1),
        b'x' => NodeId(2),
        _ => NodeId(3),
    }
}

fn nodes_of(alloc: Global, names: &[u8]) -> Result<Vec<NodeId>, Memory>
    ensures { IfOk result (λ nodes. All (λ node. node.0 < 4) nodes.items) }
{
    let mut nodes = Vec::new(alloc);
    for name in names {
        nodes.push(node_of(*name))?;
    }
    Ok(nodes)
}

/// The document of a chapter, as the only file.
fn document(
    rt: &impl Abort,
    alloc: Global,
    text: &mut Text,
    chapter: &str,
) -> Result<Document, DocFault>
    ensures loaded { IfOk result (IsLoaded text.new.bytes) }
{
    let mut files = Vec::new(alloc);
    files.push((
        String::from_str(alloc, "a.adoc")?,
        Vec::from_slice(alloc, chapter.as_bytes())?,
    ))?;
    assert!(rt; names_differ(&files));
    let mut shelf = SureShelf::new(files);
    load(alloc, &mut shelf, text, "a.adoc")
}

fn digit(pool: &Pool, node: NodeId, x: bool, y: bool) -> Result<u8, Memory>
    requires reach { pool_reach pool.now ≤ 2 }
    requires held { node.0 < length pool.now }
{
    let values = pool.values(&[x, y])?;
    Ok(if values[node.0 as usize] { 1 } else { 0 })
}

/// A node's values where neither x nor y is true, where y is, where x is, and where both are.
fn values_told(alloc: Global, pool: &Pool, node: NodeId) -> Result<String, Memory>
    requires reach { pool_reach pool.now ≤ 2 }
    requires held { node.0 < length pool.now }
{
    let neither = digit(pool, node, false, false)?;
    let second = digit(pool, node, false, true)?;
    let first = digit(pool, node, true, false)?;
    let both = digit(pool, node, true, true)?;
    Ok(format!(in alloc; "{neither}{second}{first}{both}")?)
}

/// Puts a case behind what was told: its id and its values.
fn put_case(
    out: &mut String,
    alloc: Global,
    pool: &Pool,
    ids: &Names,
    case: Case,
) -> Result<(), Memory>
    requires { pool_reach pool.now ≤ 2 }
{
    if case.node.0 >= pool.len() || case.id.0 >= ids.len() as u64 {
        return Err(Memory);
    }
    let id = std::str::from_utf8(ids.name(case.id.0 as usize)).unwrap_or("");
    let values = values_told(alloc, pool, case.node)?;
    let told = format!(in alloc; " {id} {values}")?;
    out.push_str(told.as_str())?;
    Ok(())
}

/// Puts cases behind what was told.
fn put_cases(
    out: &mut String,
    alloc: Global,
    pool: &Pool,
    ids: &Names,
    cases: &[Case],
) -> Result<(), Memory>
    requires { pool_reach pool.now ≤ 2 }
{
    for case in cases {
        put_case(out, alloc, pool, ids, *case)?;
    }
    Ok(())
}

/// Puts marks behind what was told, each on a line: its flat line, statement and byte, and its cases.
fn put_marks(
    out: &mut String,
    alloc: Global,
    pool: &Pool,
    ids: &Names,
    marks: &[LiftedMark],
) -> Result<(), Memory>
    requires { pool_reach pool.now ≤ 2 }
{
    for mark in marks {
        let place = mark.place;
        let told = format!(in alloc; "{} {} {}:", place.line, place.statement, place.at)?;
        out.push_str(told.as_str())?;
        put_cases(out, alloc, pool, ids, mark.cases.as_slice())?;
        out.push_str("\n")?;
    }
    Ok(())
}

/// All anchors, and then all links.
fn told(alloc: Global, pool: &Pool, survey: &Survey) -> Result<String, Memory>
    requires { pool_reach pool.now ≤ 2 }
{
    let mut out = String::new(alloc);
    put_marks(
        &mut out,
        alloc,
        pool,
        &survey.ids,
        survey.anchors.as_slice(),
    )?;
    out.push_str("and\n")?;
    put_marks(&mut out, alloc, pool, &survey.ids, survey.links.as_slice())?;
    Ok(out)
}

/// What a document has over a registry that declares nothing, where each line has one of four nodes.
fn survey_told(alloc: Global, text: &Text, d: &Document, nodes: &str) -> Result<String, Memory>
    requires { IsLoaded text.now.bytes d.now }
{
    let mut pool = two_variables(alloc)?;
    let r = Registry::bare(alloc, &[])?;
    let nodes = nodes_of(alloc, nodes.as_bytes())?;
    if nodes.len() != d.lines.as_slice().len() {
        return Err(Memory);
    }
    let survey = survey_document(
        alloc,
        text,
        d,
        &r,
        &mut pool,
        nodes.as_slice(),
        &[],
        CONSTANTS,
    )?;
    told(alloc, &pool, &survey)
}

/// Checks what a chapter has.
fn check(
    rt: &impl Abort,
    alloc: Global,
    chapter: &str,
    nodes: &str,
    want: &str,
) -> Result<(), Fail> {
    let mut text = Text::new(alloc, 1_000_000);
    let d = document(rt, alloc, &mut text, chapter)?;
    let told = survey_told(alloc, &text, &d, nodes)?;
    assert_eq!(rt; told.as_str(), want);
    Ok(())
}

#[test]
fn marks_stand_where_their_lines_do(rt: HostRuntime) -> Result<(), Fail> {
    let table = [
        ("", "", "and\n"),
        (
            "[[a]] <<b>>\nslink:a\n",
            "1x",
            "0 0 0: a 1111\nand\n0 0 6: b 1111\n1 0 0: a 0011\n",
        ),
        (
            "// [[a]]\nifdef::X[see [[b]]]\ninclude::x[]\n",
            "1x1",
            "1 0 13: b 0011\nand\n",
        ),
        (
            "include::{generated}/api/structs/VkA.adoc[]\n[[p.{refpage}]]\n:refpage: Q\n<<{refpage}{refpage}>>\n",
            "1y11",
            "1 0 0: p.{refpage} 0101\nand\n3 0 0: QQ 1111\n",
        ),
    ];
    for (chapter, nodes, want) in table {
        check(&rt, rt.alloc(), chapter, nodes, want)?;
    }
    Ok(())
}

#[test]
fn the_lines_that_set_the_page_tell_the_id(rt: HostRuntime) -> Result<(), Fail> {
    let table = [
        (
            "ifdef::X[]\n:refpage: P\nendif::X[]\nifdef::Y[]\n:refpage: Q\n[[{refpage}]]\nendif::Y[]\n<<{refpage}>>\n",
            "1x11yy11",
            "5 0 0: Q 0101\nand\n7 0 0: {refpage} 1000 P 0010 Q 0101\n",
        ),
        (
            ":refpage: A\nifdef::X[]\n:refpage: B\n[[{refpage}]]\nendif::X[]\n<<{refpage}>>\n",
            "11xx11",
            "3 0 0: B 0011\nand\n5 0 0: A 1100 B 0011\n",
        ),
        (
            ":refpage: A\nifdef::X[]\n:refpage: A\nifdef::Y[<<{refpage}>>]\nendif::X[]\nifdef::Y[<<{refpage}>>]\n",
            "11xx1y",
            "and\n3 0 9: A 0011\n5 0 9: A 0101\n",
        ),
        (
            "ifdef::X[]\n:refpage: A\nendif::X[]\nifdef::X[<<{refpage}>>]\n",
            "1x1x",
            "and\n3 0 9: {refpage} 0000 A 0011\n",
        ),
    ];
    for (chapter, nodes, want) in table {
        check(&rt, rt.alloc(), chapter, nodes, want)?;
    }
    Ok(())
}

fn statement(
    alloc: Global,
    tag: &[u8],
    text: &[u8],
    needs: Option<NameId>,
) -> Result<Statement, AllocError> {
    Ok(Statement {
        tag: Bytes::from_slice(alloc, tag)?,
        text: Bytes::from_slice(alloc, text)?,
        needs,
    })
}

/// The marks of three statements of a page that stands where x is true. The two names of the registry have the nodes x and y.
fn statements_told(alloc: Global) -> Result<String, Memory> {
    let mut pool = two_variables(alloc)?;
    let all = [
        statement(alloc, b"a", b"slink:n", None)?,
        statement(alloc, b"b", b"<<c>>", Some(NameId(1)))?,
        statement(alloc, b"c", b"", Some(NameId(2)))?,
    ];
    let mut survey = Survey {
        ids: Names::new(alloc),
        anchors: Vec::new(alloc),
        links: Vec::new(alloc),
    };
    let spot = Spot {
        line: 7,
        statement: 0,
        start: 0,
        within: None,
        standing: NodeId(2),
    };
    add_statements(
        &mut survey,
        &mut pool,
        &all,
        &[NodeId(2), NodeId(3)],
        spot,
        &Pages::new(alloc),
        &[],
        CONSTANTS,
    )?;
    told(alloc, &pool, &survey)
}

#[test]
fn statements_stand_where_the_names_that_they_need_do(rt: HostRuntime) -> Result<(), Fail> {
    let alloc = rt.alloc();
    let told = statements_told(alloc)?;
    assert_eq!(rt;
        told.as_str(),
        "7 1 4: a 0011\n7 2 4: b 0001\n7 3 4: c 0000\nand\n7 1 10: n 0011\n7 2 10: c 0001\n"
    );
    Ok(())
}

#[test]
fn many_marks_are_surveyed(rt: HostRuntime) -> Result<(), Fail> {
    let alloc = rt.alloc();
    let mut chapter = String::from_str(alloc, ":refpage: A\n")?;
    let mut nodes = String::from_str(alloc, "1")?;
    let mut want = String::new(alloc);
    let mut links = String::from_str(alloc, "and\n")?;
    for line in 1..10_001 {
        chapter.push_str("[[{refpage}]] <<{refpage}-b>>\n")?;
        nodes.push_str("y")?;
        want.push_str(format!(in alloc; "{line} 0 0: A 0101\n")?.as_str())?;
        links.push_str(format!(in alloc; "{line} 0 14: A-b 0101\n")?.as_str())?;
    }
    want.push_str(links.as_str())?;
    check(&rt, alloc, chapter.as_str(), nodes.as_str(), want.as_str())
}
