//! Where nodes are true, over two variables x and y.
ghost use Rattle.std.specs.Prelude.{◌≡◌, ◌<◌, ◌≤◌, All, IfOk, length};
ghost use Rattle.vkb_formula.specs.Pools.{pool_reach};
ghost use Rattle.lift_nodes.specs.Cases.{AreConstant};

use super::*;
use std::alloc::{AllocError, Global};
use std::test::Fail;
use vkb_formula::{Pool, PoolNode};

const CONSTANTS: Constants = Constants {
    always: NodeId(0),
    never: NodeId(1),
};

/// A pool of a node that is true, one that isn't, x and y.
fn two_variables(alloc: Global) -> Result<Pool, Memory>
    ensures count { IfOk result (λ pool. length pool ≡ 4) }
    ensures reach { IfOk result (λ pool. pool_reach pool ≡ 2) }
    ensures constants { IfOk result (λ pool. AreConstant pool (record { always = record { 0 = 0 }; never = record { 0 = 1 } })) }
{
    let mut pool = Pool::new(alloc);
    pool.put(PoolNode::Always)?;
    pool.put(PoolNode::Never)?;
    pool.put(PoolNode::Var(0))?;
    pool.put(PoolNode::Var(1))?;
    Ok(pool)
}

/// The node of that name: 1, 0, x or else y.
fn node_of(name: u8) -> NodeId
    ensures { result.0 < 4 }
{
    match name {
        b'1' => NodeId(0),
        b'0' => NodeId(1),
        b'x' => NodeId(2),
        _ => NodeId(3),
    }
}

fn nodes_of(alloc: Global, names: &[u8]) -> Result<Vec<NodeId>, Memory>
    ensures { IfOk result (λ nodes. All (λ node. node.0 < 4) nodes.items) }
{
    let mut nodes = Vec::new(alloc);
    for name in names {
        nodes.push(node_of(*name))?;
    }
    Ok(nodes)
}

/// One source for each word: a page's name, and behind it the name of its node.
fn sources_of(alloc: Global, words: &str) -> Result<Vec<Source>, Memory>
    ensures { IfOk result (λ sources. All (λ source. source.line.0 < 4) sources.items) }
{
    let mut sources = Vec::new(alloc);
    for word in words.split(' ') {
        if let [page @ .., line] = word.as_bytes() {
            sources.push(Source {
                page: Bytes::from_slice(alloc, page)?,
                line: node_of(*line),
            })?;
        }
    }
    Ok(sources)
}

fn digit(pool: &Pool, node: NodeId, x: bool, y: bool) -> Result<u8, Memory>
    requires reach { pool_reach pool.now ≤ 2 }
    requires held { node.0 < length pool.now }
{
    let values = pool.values(&[x, y])?;
    Ok(if values[node.0 as usize] { 1 } else { 0 })
}

/// A node's values where neither x nor y is true, where y is, where x is, and where both are.
fn told(alloc: Global, pool: &Pool, node: NodeId) -> Result<String, Memory>
    requires reach { pool_reach pool.now ≤ 2 }
    requires held { node.0 < length pool.now }
{
    let neither = digit(pool, node, false, false)?;
    let second = digit(pool, node, false, true)?;
    let first = digit(pool, node, true, false)?;
    let both = digit(pool, node, true, true)?;
    Ok(format!(in alloc; "{neither}{second}{first}{both}")?)
}

fn exactly_one(alloc: Global, names: &str) -> Result<String, Memory> {
    let mut pool = two_variables(alloc)?;
    let nodes = nodes_of(alloc, names.as_bytes())?;
    let one = put_exactly_one(alloc, &mut pool, nodes.as_slice())?;
    told(alloc, &pool, one)
}

#[test]
fn exactly_one_of_some_nodes_is_true(rt: HostRuntime) -> Result<(), Fail> {
    let table = [
        ("", "0000"),
        ("1", "1111"),
        ("0", "0000"),
        ("x", "0011"),
        ("xy", "0110"),
        ("xx", "0000"),
        ("1x", "1100"),
        ("x1y", "1000"),
        ("0x0", "0011"),
        ("xyx", "0100"),
    ];
    for (names, values) in table {
        assert_eq!(rt; exactly_one(rt.alloc(), names)?.as_str(), values);
    }
    Ok(())
}

/// The cases of a mark, each with its id and its values, and how many nodes they took.
fn cases(alloc: Global, written: &str, covered: bool, words: &str) -> Result<String, Memory> {
    let mut pool = two_variables(alloc)?;
    let sources = sources_of(alloc, words)?;
    let cases = put_ids(
        alloc,
        &mut pool,
        CONSTANTS,
        written.as_bytes(),
        covered,
        sources.as_slice(),
    )?;
    let mut out = String::new(alloc);
    for case in cases.as_slice() {
        let id = std::str::from_utf8(case.id.as_slice()).unwrap_or("");
        let values = told(alloc, &pool, case.node)?;
        let text = format!(in alloc; "{id} {values}, ")?;
        out.push_str(text.as_str())?;
    }
    let count = format!(in alloc; "{} nodes", pool.len())?;
    out.push_str(count.as_str())?;
    Ok(out)
}

#[test]
fn the_last_kept_source_gives_the_page(rt: HostRuntime) -> Result<(), Fail> {
    let table = [
        ("v", "Ax By", "v 1111, 4 nodes"),
        ("v-{refpage}", "", "v-{refpage} 1111, 4 nodes"),
        ("v-{refpage}", "Ax", "v-{refpage} 1100, v-A 0011, 5 nodes"),
        (
            "v-{refpage}",
            "Ax By",
            "v-{refpage} 1000, v-A 0010, v-B 0101, 9 nodes",
        ),
        (
            "v-{refpage}",
            "Ax Ay",
            "v-{refpage} 1000, v-A 0111, 8 nodes",
        ),
        (
            "v-{refpage}",
            "{refpage}x Ay",
            "v-{refpage} 1010, v-A 0101, 5 nodes",
        ),
    ];
    for (written, words, told) in table {
        assert_eq!(rt; cases(rt.alloc(), written, false, words)?.as_str(), told);
    }
    Ok(())
}

#[test]
fn a_covering_source_counts_as_kept(rt: HostRuntime) -> Result<(), Fail> {
    let table = [
        ("v", "Ax By", "v 1111, 4 nodes"),
        ("v-{refpage}", "", "v-{refpage} 1111, 4 nodes"),
        ("v-{refpage}", "A0", "v-A 1111, 4 nodes"),
        ("v-{refpage}", "Ax By", "v-A 1010, v-B 0101, 5 nodes"),
        ("v-{refpage}", "A1 Bx Ay", "v-A 1101, v-B 0010, 8 nodes"),
        (
            "{refpage}-{refpage}",
            "A1 Bx",
            "A-A 1100, B-B 0011, 5 nodes",
        ),
    ];
    for (written, words, told) in table {
        assert_eq!(rt; cases(rt.alloc(), written, true, words)?.as_str(), told);
    }
    Ok(())
}

#[test]
fn many_nodes_are_counted(rt: HostRuntime) -> Result<(), Fail> {
    let alloc = rt.alloc();
    let names = vec![in alloc; b'0'; 10_000]?;
    let mut pool = two_variables(alloc)?;
    let nodes = nodes_of(alloc, names.as_slice())?;
    let one = put_exactly_one(alloc, &mut pool, nodes.as_slice())?;
    assert_eq!(rt; told(alloc, &pool, one)?.as_str(), "0000");
    Ok(())
}

/// The words of so many sources, each with a page of its own.
fn many_words(alloc: Global, count: u32) -> Result<String, AllocError> {
    let mut words = String::new(alloc);
    for page in 0..count {
        let word = format!(in alloc; "{page}x ")?;
        words.push_str(word.as_str())?;
    }
    Ok(words)
}

#[test]
fn many_sources_give_an_id_each(rt: HostRuntime) -> Result<(), Fail> {
    let alloc = rt.alloc();
    let words = many_words(alloc, 300)?;
    let mut pool = two_variables(alloc)?;
    let sources = sources_of(alloc, words.as_str())?;
    let cases = put_ids(
        alloc,
        &mut pool,
        CONSTANTS,
        b"{refpage}",
        false,
        sources.as_slice(),
    )?;
    assert_eq!(rt; cases.len(), 301);
    Ok(())
}
