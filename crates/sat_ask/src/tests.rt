ghost use Rattle.std.specs.Prelude.{◌≡◌, ◌+◌, ◌<◌, ◌≤◌, max, map, length, All, IfOk, OnOk};
ghost use Rattle.vkb_formula.specs.Pools.{parts_of, pool_reach, reach_at};
ghost use Rattle.vkb_formula.specs.declared.pool.NodeId.{NodeId};

use super::*;
use std::alloc::Global;
use std::test::Fail;
use vkb_bytes::Listed;
use vkb_formula::{NodeId, Pool, PoolNode, values_are_by_parts};

/// Puts a node, of which little is told.
fn put(pool: &mut Pool, node: PoolNode) -> Result<(), Memory>
    requires { All (λ part. part < length pool.old) (parts_of node) }
    ensures count { OnOk result (length pool.new ≡ length pool.old + 1) }
    ensures reach { OnOk result (pool_reach pool.new ≡ max (pool_reach pool.old) (reach_at node)) }
{
    pool.put(node)?;
    Ok(())
}

/// Two nodes.
fn pair(alloc: Global, first: u64, second: u64) -> Result<Listed<NodeId>, Memory>
    ensures { IfOk result (λ parts. All (λ part. part ≤ max first second) (map (λ part. part.0) parts)) }
{
    let mut parts = Vec::new(alloc);
    parts.push(NodeId(first))?;
    parts.push(NodeId(second))?;
    Ok(Listed::from_vec(parts))
}

/// Two variables, `Not` of the first, `All` of the first and its `Not`, `Any` of both variables, and the constants.
fn small(alloc: Global) -> Result<Pool, Memory>
    ensures { IfOk result (λ pool. (length pool ≡ 7) × (pool_reach pool ≤ 2)) }
{
    let mut pool = Pool::new(alloc);
    put(&mut pool, PoolNode::Var(0))?;
    put(&mut pool, PoolNode::Var(1))?;
    put(&mut pool, PoolNode::Not(NodeId(0)))?;
    put(&mut pool, PoolNode::All(pair(alloc, 0, 2)?))?;
    put(&mut pool, PoolNode::Any(pair(alloc, 0, 1)?))?;
    put(&mut pool, PoolNode::Always)?;
    put(&mut pool, PoolNode::Never)?;
    Ok(pool)
}

/// The first question that is met, of a pool of two variables.
fn first(
    alloc: Global,
    pool: &Pool,
    rule: u64,
    questions: &[NodeId],
    most: u32,
) -> Result<Option<Met>, CnfFault>
    requires rule { rule < length pool.now }
    requires questions { All (λ question. question.0 < length pool.now) questions.now }
    requires reach { pool_reach pool.now ≤ 2 }
    requires most { most ≤ 16777216 }
{
    values_are_by_parts();
    first_met(alloc, pool, NodeId(rule), questions, 2, most)
}

/// The place of that question.
fn place(
    alloc: Global,
    pool: &Pool,
    rule: u64,
    questions: &[NodeId],
) -> Result<Option<usize>, CnfFault>
    requires rule { rule < length pool.now }
    requires questions { All (λ question. question.0 < length pool.now) questions.now }
    requires reach { pool_reach pool.now ≤ 2 }
{
    match first(alloc, pool, rule, questions, 1_000_000)? {
        None => Ok(None),
        Some(met) => Ok(Some(met.question)),
    }
}

#[test]
fn the_first_question_is_met(rt: HostRuntime) -> Result<(), Fail> {
    let alloc = rt.alloc();
    let pool = small(alloc)?;
    assert!(rt; place(alloc, &pool, 5, &[])?.is_none());
    assert!(rt; place(alloc, &pool, 3, &[NodeId(5), NodeId(3)])?.is_none());
    assert!(rt; place(alloc, &pool, 2, &[NodeId(0), NodeId(3), NodeId(6)])?.is_none());
    assert!(rt; place(alloc, &pool, 5, &[NodeId(0), NodeId(1)])? == Some(0));
    assert!(rt; place(alloc, &pool, 2, &[NodeId(0), NodeId(4), NodeId(1)])? == Some(1));
    assert!(rt; place(alloc, &pool, 2, &[NodeId(6), NodeId(3), NodeId(2)])? == Some(2));
    Ok(())
}

#[test]
fn a_question_is_met_at_a_set(rt: HostRuntime) -> Result<(), Fail> {
    let alloc = rt.alloc();
    let pool = small(alloc)?;
    match first(alloc, &pool, 2, &[NodeId(3), NodeId(0), NodeId(4)], 8)? {
        None => assert!(rt; false),
        Some(met) => {
            assert!(rt; met.question == 2);
            assert!(rt; met.set.as_slice() == [false, true].as_slice());
        }
    }
    Ok(())
}

#[test]
fn more_clauses_than_may_be_are_refused(rt: HostRuntime) -> Result<(), Fail> {
    let alloc = rt.alloc();
    let pool = small(alloc)?;
    assert!(rt; first(alloc, &pool, 0, &[NodeId(4), NodeId(4)], 4)?.is_some());
    assert!(rt;
        matches!(
            first(alloc, &pool, 0, &[NodeId(4), NodeId(4)], 3),
            Err(CnfFault::Full)
        )
    );
    assert!(rt; first(alloc, &pool, 0, &[], 2)?.is_none());
    assert!(rt; matches!(first(alloc, &pool, 0, &[], 1), Err(CnfFault::Full)));
    Ok(())
}

/// Two variables, `Not` of the first, and so many nodes each of which is `All` of the first and the node before it.
fn many(alloc: Global, count: u64) -> Result<Pool, Memory>
    requires { count ≤ 100000 }
    ensures { IfOk result (λ pool. (length pool ≡ count + 3) × (pool_reach pool ≤ 2)) }
{
    let mut pool = Pool::new(alloc);
    put(&mut pool, PoolNode::Var(0))?;
    put(&mut pool, PoolNode::Var(1))?;
    put(&mut pool, PoolNode::Not(NodeId(0)))?;
    for place in 0..count {
        put(&mut pool, PoolNode::All(pair(alloc, 0, place + 2)?))?;
    }
    Ok(pool)
}

/// The nodes behind the third, and then the second.
fn questions_behind(alloc: Global, count: u64) -> Result<Vec<NodeId>, Memory>
    requires { count ≤ 100000 }
    ensures { IfOk result (λ questions. All (λ question. question.0 < count + 3) questions.items) }
{
    let mut questions = Vec::new(alloc);
    for place in 0..count {
        questions.push(NodeId(place + 3))?;
    }
    questions.push(NodeId(1))?;
    Ok(questions)
}

#[test]
fn ten_thousand_questions_are_asked(rt: HostRuntime) -> Result<(), Fail> {
    let alloc = rt.alloc();
    let pool = many(alloc, 10_000)?;
    let questions = questions_behind(alloc, 10_000)?;
    assert!(rt; place(alloc, &pool, 2, questions.as_slice())? == Some(10_000));
    Ok(())
}
