//! The first question that is met.
ghost use Rattle.std.specs.Prelude.{◌≡◌, ◌≤◌, ◌<◌, ◌∷◌, length, take, map, All, IfOk, OnOk, IsErrOf};
ghost use Rattle.sat_cnf.specs.Clauses.{IsWithin};
ghost use Rattle.sat_cnf.specs.Encoding.{AreVariablesBelow};
ghost use Rattle.sat_core.specs.Searching.{most as most_of_a_search};
ghost use Rattle.sat_ask.specs.Finding.{IsFound};
ghost use Rattle.sat_ask.specs.Meeting.{IsFirstOf, PassesWithRule, roots_of};

use sat_cnf::{Clauses, CnfFault, Lit, Memory, encode_parts};
use sat_core::Asker;
use std::alloc::Global;
use vkb_bytes::Listed;
use vkb_formula::{NodeId, Pool};

/// A question that is true at a set of variables at which the rule is.
#[derive(Drop)]
pub struct Met {
    /// The place of the question among all, from 0.
    pub question: usize,
    /// A value for each variable.
    pub set: Listed<bool>,
}

/// The first of some nodes of a pool that is true at a set of `vars` variables at which the rule's node is, with such a set; `None` where
/// there is none.
///
/// `Full` where the clauses of the rule and the questions, each node that they lead to once and one more for the rule itself, or their
/// variables are more than `most`.
pub fn first_met(
    alloc: Global,
    pool: &Pool,
    rule: NodeId,
    questions: &[NodeId],
    vars: u32,
    most: u32,
) -> Result<Option<Met>, CnfFault>
    requires rule { rule.0 < length pool.now }
    requires questions { All (λ question. question.0 < length pool.now) questions.now }
    requires variables { AreVariablesBelow pool.now (roots_of rule.0 questions.now) vars }
    requires most { most ≤ 16777216 }
    ensures first { IfOk result (IsFirstOf pool.now rule.0 questions.now vars) }
    ensures fits { OnOk result (PassesWithRule pool.now rule.0 questions.now vars most → ⊥) }
    ensures full { IsErrOf result CnfFault.Full → PassesWithRule pool.now rule.0 questions.now vars most }
{
    let roots = with_rule(alloc, rule, questions)?;
    let (mut clauses, lits) = encode_parts(alloc, pool, roots.as_slice(), vars, most)?;
    if clauses.len() >= u64::from(most) {
        return Err(CnfFault::Full);
    }
    clauses.push(&lits.as_slice()[..1])?;
    let first = first_true(alloc, &clauses, &lits.as_slice()[1..], vars)?;
    Ok(first)
}

/// The rule, and behind it the questions.
fn with_rule(alloc: Global, rule: NodeId, questions: &[NodeId]) -> Result<Vec<NodeId>, Memory>
    ensures { IfOk result (λ roots. roots.items ≡ rule ∷ questions.now) }
{
    let mut roots = Vec::new(alloc);
    roots.push(rule)?;
    roots.extend_from_slice(questions)?;
    Ok(roots)
}

/// The first of some literals that is true in a set that satisfies clauses, with the first values of such a set.
fn first_true(
    alloc: Global,
    clauses: &Clauses,
    lits: &[Lit],
    vars: u32,
) -> Result<Option<Met>, Memory>
    requires variables { clauses.now.vars ≤ most_of_a_search }
    requires clauses { length clauses.now.list ≤ most_of_a_search }
    requires within { All (IsWithin clauses.now.vars) lits.now }
    requires vars { vars ≤ clauses.now.vars }
    ensures { IfOk result (IsFound clauses.now lits.now vars) }
{
    let mut asker = Asker::new(alloc, clauses)?;
    let first = ask_each(&mut asker, lits, vars)?;
    Ok(first)
}

/// Asks about literals in turn, until one is true in a set that satisfies the clauses.
fn ask_each(asker: &mut Asker<'_>, lits: &[Lit], vars: u32) -> Result<Option<Met>, Memory>
    requires within { All (IsWithin asker.old.vars) lits.now }
    requires vars { vars ≤ asker.old.vars }
    ensures { IfOk result (IsFound asker.old lits.now vars) }
{
    for question in 0..lits.len() {
        if let Some(values) = asker.ask(lits[question])? {
            let set = first_values(values, vars);
            return Ok(Some(Met { question, set }));
        }
    }
    Ok(None)
}

/// The first of some values.
fn first_values(values: Listed<bool>, count: u32) -> Listed<bool>
    ensures { result ≡ take count values }
{
    let mut first = values.into_vec();
    first.truncate(count as usize);
    Listed::from_vec(first)
}
