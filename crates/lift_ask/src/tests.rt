//! Which link breaks first, over two variables x and y.
ghost use Rattle.std.specs.Prelude.{◌≡◌, ◌<◌, ◌≤◌, All, IfOk, length};
ghost use Rattle.vkb_formula.specs.Pools.{pool_reach};
ghost use Rattle.lift_survey.specs.Survey.{AreHeld};

use crate::asking::first_asked;
use crate::{Broken, Memory, first_broken};
use doc_build::Place;
use lift_survey::{Case, IdNumber, LiftedMark};
use std::alloc::Global;
use std::test::Fail;
use vkb_bytes::Listed;
use vkb_formula::{NodeId, Pool, PoolNode};

/// A pool of a node that is true, one that isn't, x, y, and where x and where y isn't true.
fn two_variables(alloc: Global) -> Result<Pool, Memory>
    ensures count { IfOk result (λ pool. length pool ≡ 6) }
    ensures reach { IfOk result (λ pool. pool_reach pool ≡ 2) }
{
    let mut pool = Pool::new(alloc);
    pool.put(PoolNode::Always)?;
    pool.put(PoolNode::Never)?;
    pool.put(PoolNode::Var(0))?;
    pool.put(PoolNode::Var(1))?;
    pool.put(PoolNode::Not(NodeId(2)))?;
    pool.put(PoolNode::Not(NodeId(3)))?;
    Ok(pool)
}

/// The node of that name: 1, 0, x, y, X where x isn't true, or else Y where y isn't.
fn node_of(name: u8) -> NodeId
    ensures { result.0 < 6 }
{
    match name {
        b'1' => NodeId(0),
        b'0' => NodeId(1),
        b'x' => NodeId(2),
        b'y' => NodeId(3),
        b'X' => NodeId(4),
        _ => NodeId(5),
    }
}

/// The id of that name: a, b or else c.
fn id_of(name: u8) -> IdNumber
    ensures { result.0 < 3 }
{
    match name {
        b'a' => IdNumber(0),
        b'b' => IdNumber(1),
        _ => IdNumber(2),
    }
}

/// A case of each two letters: its id, and its node.
fn cases_of(alloc: Global, letters: &[u8]) -> Result<Vec<Case>, Memory>
    ensures { IfOk result (λ cases. All (λ case. (case.node.0 < 6) × (case.id.0 < 3)) cases.items) }
{
    let mut cases = Vec::new(alloc);
    for pair in letters.chunks_exact(2) {
        if let [id, node] = pair {
            cases.push(Case {
                id: id_of(*id),
                node: node_of(*node),
            })?;
        }
    }
    Ok(cases)
}

/// The mark of a word.
fn mark_of(alloc: Global, word: &[u8]) -> Result<LiftedMark, Memory>
    ensures { IfOk result (AreHeld 6 3) }
{
    let cases = cases_of(alloc, word)?;
    Ok(LiftedMark {
        place: Place {
            line: 0,
            statement: 0,
            at: 0,
        },
        cases: Listed::from_vec(cases),
    })
}

/// A mark of each word.
fn marks_of(alloc: Global, words: &str) -> Result<Vec<LiftedMark>, Memory>
    ensures { IfOk result (λ marks. All (AreHeld 6 3) marks.items) }
{
    let mut marks = Vec::new(alloc);
    for word in words.split_ascii_whitespace() {
        let mark = mark_of(alloc, word.as_bytes())?;
        marks.push(mark)?;
    }
    Ok(marks)
}

/// The link that breaks first, where its rule is the node of that name.
fn first(alloc: Global, rule: u8, anchors: &str, links: &str) -> Result<Option<Broken>, Memory> {
    let mut pool = two_variables(alloc)?;
    let anchors = marks_of(alloc, anchors)?;
    let links = marks_of(alloc, links)?;
    let first = first_broken(
        alloc,
        &mut pool,
        node_of(rule),
        3,
        anchors.as_slice(),
        links.as_slice(),
        2,
    )?;
    Ok(first)
}

/// A digit for each value.
fn digits(alloc: Global, set: &[bool]) -> Result<String, Memory> {
    let mut digits = String::new(alloc);
    for value in set {
        digits.push(if *value { '1' } else { '0' })?;
    }
    Ok(digits)
}

/// The place of the link, the number of its id, the set, and how many anchors the id has there.
fn told(alloc: Global, rule: u8, anchors: &str, links: &str) -> Result<String, Memory> {
    let Some(broken) = first(alloc, rule, anchors, links)? else {
        return Ok(String::from_str(alloc, "none")?);
    };
    let set = digits(alloc, broken.set.as_slice())?;
    let text = format!(in alloc;
        "{} {} {} {}",
        broken.link,
        broken.id.0,
        set.as_str(),
        broken.count
    )?;
    Ok(text)
}

#[test]
fn a_link_breaks_where_its_id_has_no_anchor(rt: HostRuntime) -> Result<(), Fail> {
    let alloc = rt.alloc();
    assert_eq!(rt; told(alloc, b'1', "a1", "a1")?.as_str(), "none");
    assert_eq!(rt; told(alloc, b'1', "ax", "aY")?.as_str(), "0 0 00 0");
    assert_eq!(rt; told(alloc, b'1', "ax", "ax")?.as_str(), "none");
    assert_eq!(rt; told(alloc, b'y', "", "ax")?.as_str(), "0 0 11 0");
    assert_eq!(rt; told(alloc, b'y', "b1 c1", "ax")?.as_str(), "0 0 11 0");
    assert_eq!(rt; told(alloc, b'1', "axbX", "aY")?.as_str(), "0 0 00 0");
    assert_eq!(rt; told(alloc, b'1', "axbX", "ax bX")?.as_str(), "none");
    Ok(())
}

#[test]
fn a_link_breaks_where_its_id_has_two_anchors(rt: HostRuntime) -> Result<(), Fail> {
    let alloc = rt.alloc();
    assert_eq!(rt; told(alloc, b'y', "ax ax", "ax")?.as_str(), "0 0 11 2");
    assert_eq!(rt; told(alloc, b'1', "ax ay", "ax")?.as_str(), "0 0 11 2");
    assert_eq!(rt; told(alloc, b'1', "ax aX", "a1")?.as_str(), "none");
    assert_eq!(rt;
        told(alloc, b'x', "a1 by ax a1", "aY")?.as_str(),
        "0 0 10 3"
    );
    Ok(())
}

#[test]
fn the_first_case_that_is_wrong_is_told(rt: HostRuntime) -> Result<(), Fail> {
    let alloc = rt.alloc();
    assert_eq!(rt; told(alloc, b'1', "ax bX", "axbX")?.as_str(), "none");
    assert_eq!(rt; told(alloc, b'1', "ax by", "axbX")?.as_str(), "0 1 00 0");
    assert_eq!(rt; told(alloc, b'y', "b1 b1", "axbx")?.as_str(), "0 0 11 0");
    assert_eq!(rt;
        told(alloc, b'y', "a1 b1 b1 cX", "axcXbxcx")?.as_str(),
        "0 1 11 2"
    );
    Ok(())
}

#[test]
fn the_first_link_that_breaks_is_told(rt: HostRuntime) -> Result<(), Fail> {
    let alloc = rt.alloc();
    assert_eq!(rt;
        told(alloc, b'x', "ax", "ax bY aY by")?.as_str(),
        "1 1 10 0"
    );
    assert_eq!(rt; told(alloc, b'x', "ax", "ax by bY")?.as_str(), "1 1 11 0");
    assert_eq!(rt;
        told(alloc, b'x', "ax", "- ax b0 - aX cy")?.as_str(),
        "5 2 11 0"
    );
    assert_eq!(rt; told(alloc, b'x', "ax", "- ax b0 - aX")?.as_str(), "none");
    assert_eq!(rt; told(alloc, b'1', "ax", "")?.as_str(), "none");
    Ok(())
}

#[test]
fn a_link_breaks_only_where_the_rule_is_true(rt: HostRuntime) -> Result<(), Fail> {
    let alloc = rt.alloc();
    assert_eq!(rt; told(alloc, b'x', "ax", "a1")?.as_str(), "none");
    assert_eq!(rt; told(alloc, b'Y', "ax", "a1")?.as_str(), "0 0 00 0");
    assert_eq!(rt; told(alloc, b'0', "", "a1")?.as_str(), "none");
    Ok(())
}

/// One link of a node that is true at each set, and no anchor.
fn without_variables(alloc: Global) -> Result<Option<Broken>, Memory> {
    let mut pool = Pool::new(alloc);
    let always = pool.put(PoolNode::Always)?;
    let cases = vec![in alloc;
        Case {
            id: IdNumber(0),
            node: always
        },
    ]?;
    let link = LiftedMark {
        place: Place {
            line: 0,
            statement: 0,
            at: 0,
        },
        cases: Listed::from_vec(cases),
    };
    first_broken(alloc, &mut pool, always, 1, &[], &[link], 0)
}

#[test]
fn a_link_breaks_where_there_is_no_variable(rt: HostRuntime) -> Result<(), Fail> {
    match without_variables(rt.alloc())? {
        None => assert!(rt; false),
        Some(broken) => {
            assert!(rt; broken.link == 0 && broken.count == 0);
            assert!(rt; broken.set.as_slice().is_empty());
        }
    }
    Ok(())
}

/// So many anchors of the id a that never stand, one that does, and as many links to it, before one to b.
fn many(alloc: Global, count: usize) -> Result<String, Memory> {
    let mut anchors = String::from_str(alloc, "a1")?;
    let mut links = String::new(alloc);
    for _ in 0..count {
        anchors.push_str(" a0")?;
        links.push_str("a1 ")?;
    }
    links.push_str("by")?;
    told(alloc, b'x', anchors.as_str(), links.as_str())
}

#[test]
fn a_thousand_links_are_asked(rt: HostRuntime) -> Result<(), Fail> {
    assert_eq!(rt; many(rt.alloc(), 1000)?.as_str(), "1000 1 11 0");
    Ok(())
}

/// Puts a node that is true where two are.
fn put_both(alloc: Global, pool: &mut Pool, left: u64, right: u64) -> Result<NodeId, Memory>
    requires left { left < length pool.old }
    requires right { right < length pool.old }
    ensures held { IfOk result (λ node. node.0 < length pool.new) }
    ensures more { length pool.old ≤ length pool.new }
    ensures reach { pool_reach pool.new ≤ pool_reach pool.old }
{
    let parts = vec![in alloc; NodeId(left), NodeId(right)]?;
    let node = pool.put(PoolNode::All(Listed::from_vec(parts)))?;
    Ok(node)
}

/// The place of the first of four questions that is met, each of three clauses, of which the first two never are, and the rule takes none.
fn of_four(alloc: Global, most: u32) -> Result<Option<usize>, Memory>
    requires { most ≤ 16777216 }
{
    let mut pool = two_variables(alloc)?;
    let first = put_both(alloc, &mut pool, 2, 4)?;
    let second = put_both(alloc, &mut pool, 4, 2)?;
    let third = put_both(alloc, &mut pool, 2, 3)?;
    let fourth = put_both(alloc, &mut pool, 3, 2)?;
    let questions = [first, second, third, fourth];
    match first_asked(alloc, &pool, NodeId(2), &questions, 2, most)? {
        None => Ok(None),
        Some(met) => Ok(Some(met.question)),
    }
}

#[test]
fn questions_that_are_too_many_are_asked_in_halves(rt: HostRuntime) -> Result<(), Fail> {
    let alloc = rt.alloc();
    assert!(rt; of_four(alloc, 13)? == Some(2));
    assert!(rt; of_four(alloc, 12)? == Some(2));
    assert!(rt; of_four(alloc, 7)? == Some(2));
    assert!(rt; of_four(alloc, 6)? == Some(2));
    assert!(rt; of_four(alloc, 4)? == Some(2));
    assert!(rt; matches!(of_four(alloc, 3), Err(Memory)));
    Ok(())
}
