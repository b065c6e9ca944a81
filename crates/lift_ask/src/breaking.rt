//! The first link that breaks.
ghost use Rattle.std.specs.Prelude.{◌≡◌, ◌<◌, ◌≤◌, true, All, IfOk, count_by, length, map, position};
ghost use Rattle.std.specs.List.{list_any};
ghost use Rattle.vkb_formula.specs.Pools.{Extends, pool_reach};
ghost use Rattle.lift_survey.specs.Survey.{AreHeld};
ghost use Rattle.lift_ask.specs.Breaking.{IsFound};
ghost use Rattle.lift_ask.specs.Questions.{is_wrong_by};
ghost use Rattle.lift_ask.specs.Telling.{IsToldOf, is_on, is_wrong_in};

use crate::asking::first_asked;
use crate::questions::{put_questions, put_wrong};
use crate::tables::nodes_by_id;
use lift_survey::{Case, IdNumber, LiftedMark};
use sat_ask::Met;
use std::alloc::Global;
use vkb_bytes::{Listed, Memory};
use vkb_formula::{NodeId, Pool};

/// How many variables, and how many clauses, one search may have.
const MOST: u32 = 16_777_216;

/// A link that breaks at a set of variables.
#[derive(Debug, Drop)]
pub struct Broken {
    /// The place of the link among all, from 0.
    pub link: usize,
    /// An id that it has there, and that hasn't exactly one anchor.
    pub id: IdNumber,
    /// A value for each variable.
    pub set: Listed<bool>,
    /// How many anchors the id has there.
    pub count: u64,
}

/// The first of some links that breaks at a set of `vars` variables at which the rule's node is true, with such a set; `None` where none breaks.
/// The ids are numbered below `ids`. Each node from before stays at its place, also where memory ran out.
///
/// An `Err` is want of memory. It is also answered where the question of one link by itself takes more than 16,777,216 variables or clauses.
pub fn first_broken(
    alloc: Global,
    pool: &mut Pool,
    rule: NodeId,
    ids: usize,
    anchors: &[LiftedMark],
    links: &[LiftedMark],
    vars: u32,
) -> Result<Option<Broken>, Memory>
    requires rule { rule.0 < length pool.old }
    requires reach { pool_reach pool.old ≤ vars }
    requires anchors { All (AreHeld (length pool.old) ids) anchors.now }
    requires links { All (AreHeld (length pool.old) ids) links.now }
    ensures before { Extends pool.old pool.new }
    ensures first { IfOk result (IsFound pool.old rule vars anchors.now links.now) }
{
    let table = nodes_by_id(alloc, ids, anchors)?;
    let wrong = put_wrong(alloc, pool, table.as_slice())?;
    let questions = put_questions(alloc, pool, wrong.as_slice(), links)?;
    let found = first_asked(alloc, pool, rule, questions.as_slice(), vars, MOST)?;
    match found {
        None => Ok(None),
        Some(met) => {
            let link = &links[met.question];
            let broken = broken_at(
                pool,
                wrong.as_slice(),
                table.as_slice(),
                link.cases.as_slice(),
                met,
            )?;
            Ok(Some(broken))
        }
    }
}

/// What is told of a link that is met, which has these cases.
fn broken_at(
    pool: &Pool,
    wrong: &[NodeId],
    table: &[Vec<NodeId>],
    cases: &[Case],
    met: Met,
) -> Result<Broken, Memory>
    requires reach { pool_reach pool.now ≤ length met.set }
    requires wrong { All (λ node. node.0 < length pool.now) wrong.now }
    requires count { length wrong.now ≡ length table.now }
    requires lists { All (λ list. All (λ node. node.0 < length pool.now) list.items) table.now }
    requires nodes { All (λ case. case.node.0 < length pool.now) cases.now }
    requires ids { All (λ case. case.id.0 < length wrong.now) cases.now }
    requires broken { list_any (is_wrong_by pool.now wrong.now met.set) cases.now ≡ true }
    ensures { IfOk result (IsToldOf pool.now wrong.now (map (λ list. list.items) table.now) cases.now met) }
{
    let values = pool.values(met.set.as_slice())?;
    let Some(place) = wrong_place(values.as_slice(), wrong, cases) else {
        unreachable!()
    };
    let id = cases[place].id;
    let count = count_true(values.as_slice(), table[id.0 as usize].as_slice());
    Ok(Broken {
        link: met.question,
        id,
        set: met.set,
        count,
    })
}

/// The place of the first case that is wrong.
fn wrong_place(values: &[bool], wrong: &[NodeId], cases: &[Case]) -> Option<usize>
    requires wrong { All (λ node. node.0 < length values.now) wrong.now }
    requires nodes { All (λ case. case.node.0 < length values.now) cases.now }
    requires ids { All (λ case. case.id.0 < length wrong.now) cases.now }
    ensures { result ≡ position (is_wrong_in values.now wrong.now) cases.now }
{
    cases.iter().position(|case| is_true(values, case.node)
        && is_true(values, wrong[case.id.0 as usize]))
}

/// How many of some nodes are true.
fn count_true(values: &[bool], nodes: &[NodeId]) -> u64
    requires { All (λ node. node.0 < length values.now) nodes.now }
    ensures { result ≡ count_by (is_on values.now) nodes.now }
{
    let mut count = 0;
    for node in nodes {
        if is_true(values, *node) {
            count += 1;
        }
    }
    count
}

/// The value of a node.
fn is_true(values: &[bool], node: NodeId) -> bool
    requires { node.0 < length values.now }
    ensures { result ≡ is_on values.now node }
{
    values[node.0 as usize]
}
