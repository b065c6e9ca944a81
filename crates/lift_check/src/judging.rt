//! The verdict on all links of a document, for all permitted choices at once.
ghost use Rattle.std.specs.Prelude.{◌<◌, ◌≤◌, All, IfOk, IfSome, List, ℕ, length};
ghost use Rattle.vkb_formula.specs.Pools.{pool_reach};
ghost use Rattle.doc_tree.specs.Loaded.{IsLoaded, flat_of};
ghost use Rattle.lift_survey.specs.Survey.{AreHeld as IsHeld};
ghost use Rattle.lift_check.specs.Judging.{IsAsked, IsVerdictBy};
ghost use Rattle.lift_check.specs.Prepared.{AreHeld, SayAll};
ghost use Rattle.lift_check.specs.Verdict.{IsJudged};

use crate::Verdict;
use crate::nodes::{Prepared, prepare};
use doc_build::{links_stand_with_their_lines, marks_at_some_choice, marks_follow_the_choice};
use doc_tree::Document;
use lift_ask::{Broken, first_broken};
use lift_survey::{LiftedMark, survey_document};
use reg_closure::closures_are_there;
use reg_registry::Registry;
use std::alloc::Global;
use vkb_bytes::{Bytes, Memory};
use vkb_formula::{Names, NodeId, Pool, nodes_keep_their_meaning};
use vkb_text::Text;

/// The verdict on all links of a document that was loaded into this text, over all permitted choices of a registry's options, where some names
/// are always set. No text is built for a choice: it is asked of one formula a link.
///
/// An `Err` is want of memory. It is also answered where the question of one link by itself takes more than 16,777,216 variables or clauses.
pub fn check_all(
    alloc: Global,
    text: &Text,
    d: &Document,
    r: &Registry,
    always: &[Bytes],
) -> Result<Verdict, Memory>
    requires loaded { IsLoaded text.now.bytes d.now }
    ensures { IfOk result (IsJudged always.now r.now (flat_of text.now.bytes d.now)) }
{
    let prepared = prepare(alloc, d, r, always)?;
    let verdict = judge(alloc, text, d, r, prepared)?;
    Ok(verdict)
}

/// The verdict by the nodes of a document over a registry.
fn judge(
    alloc: Global,
    text: &Text,
    d: &Document,
    r: &Registry,
    prepared: Prepared,
) -> Result<Verdict, Memory>
    requires loaded { IsLoaded text.now.bytes d.now }
    requires held { AreHeld d.now r.now prepared }
    ensures { (always : List (List ℕ)) → SayAll always r.now (flat_of text.now.bytes d.now) prepared
        → IfOk result (IsJudged always r.now (flat_of text.now.bytes d.now)) }
{
    // Each choice has a closure, the nodes from before keep their values, and what is surveyed is what the built texts have, by these laws.
    r.is_sound();
    closures_are_there();
    marks_at_some_choice();
    marks_follow_the_choice();
    links_stand_with_their_lines();
    nodes_keep_their_meaning();
    let Prepared {
        mut pool,
        constants,
        lines,
        names,
        permit,
    } = prepared;
    let survey = survey_document(
        alloc,
        text,
        d,
        r,
        &mut pool,
        lines.as_slice(),
        names.as_slice(),
        constants,
    )?;
    let verdict = ask(
        alloc,
        &mut pool,
        permit,
        r.options().len(),
        &survey.ids,
        survey.anchors.as_slice(),
        survey.links.as_slice(),
    )?;
    Ok(verdict)
}

/// The verdict on links and anchors with the ids that they may have, over the sets of so many variables at which the rule's node is true.
fn ask(
    alloc: Global,
    pool: &mut Pool,
    rule: NodeId,
    vars: u32,
    ids: &Names,
    anchors: &[LiftedMark],
    links: &[LiftedMark],
) -> Result<Verdict, Memory>
    requires rule { rule.0 < length pool.old }
    requires reach { pool_reach pool.old ≤ vars }
    requires anchors { All (IsHeld (length pool.old) (length ids.now)) anchors.now }
    requires links { All (IsHeld (length pool.old) (length ids.now)) links.now }
    ensures { IfOk result (IsAsked pool.old rule vars ids.now anchors.now links.now) }
{
    let broken = first_broken(alloc, pool, rule, ids.len(), anchors, links, vars)?;
    let verdict = verdict_by(alloc, ids, links, broken)?;
    Ok(verdict)
}

/// The verdict by the first link that breaks, if one does.
fn verdict_by(
    alloc: Global,
    ids: &Names,
    links: &[LiftedMark],
    broken: Option<Broken>,
) -> Result<Verdict, Memory>
    requires found { IfSome broken (λ b. b.link < length links.now) }
    requires numbered { IfSome broken (λ b. b.id.0 < length ids.now) }
    ensures { IfOk result (IsVerdictBy ids.now links.now broken) }
{
    let Some(
        Broken {
            link,
            id,
            set,
            count,
        },
    ) = broken
    else {
        return Ok(Verdict::Yes {
            links: links.len() as u64,
        });
    };
    let place = links[link].place;
    let id = Bytes::from_slice(alloc, ids.name(id.0 as usize))?;
    Ok(Verdict::No {
        place,
        id,
        choice: set,
        count,
    })
}

#[cfg(test)]
mod tests;
