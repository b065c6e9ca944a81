//! The first of some questions that is met, in as many searches as the limit on clauses asks for.
ghost use Rattle.std.specs.Prelude.{◌≡◌, ◌<◌, ◌≤◌, All, IfOk, length};
ghost use Rattle.vkb_formula.specs.Pools.{pool_reach};
ghost use Rattle.sat_ask.specs.Meeting.{IsFirstOf};

use sat_ask::{CnfFault, Met, first_met};
use std::alloc::Global;
use vkb_bytes::Memory;
use vkb_formula::{NodeId, Pool, values_are_by_parts};

/// The first question that is true at a set of variables at which the rule is, with such a set. Where all take more than `most` variables or clauses,
/// it is looked for among the first half of them, and then among the second.
///
/// An `Err` is want of memory. It is also answered where one question by itself takes more.
#[cycle(asking)]
pub(crate) fn first_asked(
    alloc: Global,
    pool: &Pool,
    rule: NodeId,
    questions: &[NodeId],
    vars: u32,
    most: u32,
) -> Result<Option<Met>, Memory>
    requires rule { rule.0 < length pool.now }
    requires reach { pool_reach pool.now ≤ vars }
    requires questions { All (λ question. question.0 < length pool.now) questions.now }
    requires most { most ≤ 16777216 }
    ensures { IfOk result (IsFirstOf pool.now rule.0 questions.now vars) }
{
    // No variable is beyond the pool's reach.
    values_are_by_parts();
    match first_met(alloc, pool, rule, questions, vars, most) {
        Ok(met) => Ok(met),
        Err(CnfFault::Memory) => Err(Memory),
        Err(CnfFault::Full) => first_in_halves(alloc, pool, rule, questions, vars, most),
    }
}

/// The same, among the first half of the questions, and then among the second.
#[cycle(asking)]
fn first_in_halves(
    alloc: Global,
    pool: &Pool,
    rule: NodeId,
    questions: &[NodeId],
    vars: u32,
    most: u32,
) -> Result<Option<Met>, Memory>
    requires rule { rule.0 < length pool.now }
    requires reach { pool_reach pool.now ≤ vars }
    requires questions { All (λ question. question.0 < length pool.now) questions.now }
    requires most { most ≤ 16777216 }
    ensures { IfOk result (IsFirstOf pool.now rule.0 questions.now vars) }
{
    if questions.len() < 2 {
        return Err(Memory);
    }
    let half = questions.len() / 2;
    let first = first_asked(alloc, pool, rule, &questions[..half], vars, most)?;
    if let Some(met) = first {
        return Ok(Some(met));
    }
    let second = first_asked(alloc, pool, rule, &questions[half..], vars, most)?;
    match second {
        None => Ok(None),
        Some(met) => Ok(Some(Met {
            question: half + met.question,
            set: met.set,
        })),
    }
}
