//! A node for each link, which is true where it breaks.
ghost use Rattle.std.specs.Prelude.{◌≡◌, ◌<◌, All, IfOk, OnOk, length, map};
ghost use Rattle.std.specs.List.{list_any};
ghost use Rattle.vkb_formula.specs.Pools.{Extends};
ghost use Rattle.lift_survey.specs.Survey.{AreHeld};
ghost use Rattle.lift_ask.specs.Questions.{AreQuestions, AreWrong, AreWrongCases, SaysOf, is_wrong_by, isnt_one};

use crate::putting::{put_any, put_both, put_not};
use lift_nodes::put_exactly_one;
use lift_survey::{Case, LiftedMark};
use std::alloc::Global;
use vkb_bytes::Memory;
use vkb_formula::{NodeId, Pool, nodes_keep_their_meaning};

/// For each of some lists of nodes a node that is true where not exactly one of the list is.
pub(crate) fn put_wrong(
    alloc: Global,
    pool: &mut Pool,
    table: &[Vec<NodeId>],
) -> Result<Vec<NodeId>, Memory>
    requires { All (λ list. All (λ node. node.0 < length pool.old) list.items) table.now }
    ensures before { Extends pool.old pool.new }
    ensures wrong { IfOk result (λ wrong. AreWrong pool.old pool.new (map (λ list. list.items) table.now) wrong.items) }
{
    let mut wrong = Vec::with_capacity(alloc, table.len())?;
    for list in table {
        let node = put_isnt_one(alloc, pool, list.as_slice())?;
        wrong.push(node)?;
    }
    Ok(wrong)
}

/// A node that is true where not exactly one of some nodes is.
fn put_isnt_one(alloc: Global, pool: &mut Pool, nodes: &[NodeId]) -> Result<NodeId, Memory>
    requires { All (λ node. node.0 < length pool.old) nodes.now }
    ensures before { Extends pool.old pool.new }
    ensures put { IfOk result (SaysOf pool.old pool.new (isnt_one pool.old nodes.now)) }
{
    // The nodes from before keep their values.
    nodes_keep_their_meaning();
    let one = put_exactly_one(alloc, pool, nodes)?;
    let node = put_not(pool, one)?;
    Ok(node)
}

/// For each link a node that is true where a case of it is wrong: where its own node is true, and that under the number of its id.
pub(crate) fn put_questions(
    alloc: Global,
    pool: &mut Pool,
    wrong: &[NodeId],
    links: &[LiftedMark],
) -> Result<Vec<NodeId>, Memory>
    requires wrong { All (λ node. node.0 < length pool.old) wrong.now }
    requires links { All (AreHeld (length pool.old) (length wrong.now)) links.now }
    ensures before { Extends pool.old pool.new }
    ensures questions { IfOk result (λ questions. AreQuestions pool.old pool.new wrong.now links.now questions.items) }
{
    let mut questions = Vec::with_capacity(alloc, links.len())?;
    for link in links {
        let node = put_question(alloc, pool, wrong, link.cases.as_slice())?;
        questions.push(node)?;
    }
    Ok(questions)
}

/// A node that is true where one of some cases is wrong.
fn put_question(
    alloc: Global,
    pool: &mut Pool,
    wrong: &[NodeId],
    cases: &[Case],
) -> Result<NodeId, Memory>
    requires wrong { All (λ node. node.0 < length pool.old) wrong.now }
    requires nodes { All (λ case. case.node.0 < length pool.old) cases.now }
    requires ids { All (λ case. case.id.0 < length wrong.now) cases.now }
    ensures before { Extends pool.old pool.new }
    ensures put { IfOk result (SaysOf pool.old pool.new (λ set. list_any (is_wrong_by pool.old wrong.now set) cases.now)) }
{
    let nodes = put_wrong_cases(alloc, pool, wrong, cases)?;
    let node = put_any(pool, nodes)?;
    Ok(node)
}

/// For each case a node that is true where it is wrong.
fn put_wrong_cases(
    alloc: Global,
    pool: &mut Pool,
    wrong: &[NodeId],
    cases: &[Case],
) -> Result<Vec<NodeId>, Memory>
    requires wrong { All (λ node. node.0 < length pool.old) wrong.now }
    requires nodes { All (λ case. case.node.0 < length pool.old) cases.now }
    requires ids { All (λ case. case.id.0 < length wrong.now) cases.now }
    ensures before { Extends pool.old pool.new }
    ensures cases { IfOk result (λ nodes. AreWrongCases pool.old pool.new wrong.now cases.now nodes.items) }
{
    let mut nodes = Vec::with_capacity(alloc, cases.len())?;
    for case in cases {
        let node = put_both(alloc, pool, case.node, wrong[case.id.0 as usize])?;
        nodes.push(node)?;
    }
    Ok(nodes)
}
