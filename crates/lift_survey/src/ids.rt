//! The ids that a mark may have, each with a node.
ghost use Rattle.std.specs.Prelude.{◌≡◌, ◌<◌, [], ◌∷◌, All, false, true, Bool, List, ℕ, Option, Some, IfOk, OnOk, length, slice_get};
ghost use Rattle.std.specs.List.{AllZip};
ghost use Rattle.doc_build.specs.Ids.{filled};
ghost use Rattle.doc_tree.specs.Loaded.{IsBefore};
ghost use Rattle.lift_nodes.specs.Cases.{AreConstant};
ghost use Rattle.lift_nodes.specs.Nodes.{is_true};
ghost use Rattle.lift_survey.specs.Growth.{Grows, HasMore};
ghost use Rattle.lift_survey.specs.Keeping.{AreCases, AreOrdered, AreTold, IsCaseOf, IsReady};

use crate::nodes::put_both;
use crate::pages::{Pages, last_covering};
use crate::spots::Spot;
use crate::{Case, IdNumber, Memory};
use doc_tree::{Cond, CondId};
use lift_nodes::{Constants, IdCase, put_ids};
use memchr::memchr;
use std::alloc::Global;
use vkb_bytes::Listed;
use vkb_formula::{Names, NodeId, Pool, nodes_keep_their_meaning};

/// The ids that a mark may have at its spot, with numbers among all ids. Each has a node that is true where the mark stands and has the id.
pub(crate) fn put_cases(
    alloc: Global,
    pool: &mut Pool,
    ids: &mut Names,
    written: &[u8],
    spot: Spot,
    pages: &Pages,
    conds: &[Cond],
    constants: Constants,
) -> Result<Listed<Case>, Memory>
    requires { IsReady pool.old constants conds.now spot pages.now }
    ensures grows { OnOk result (Grows pool.old pool.new) }
    ensures ids { OnOk result (HasMore ids.old ids.new) }
    ensures cases { IfOk result (AreCases pool.old pool.new ids.new conds.now spot pages.now written.now) }
{
    if !may_name_page(written) {
        let cases = one_case(alloc, ids, written, spot.standing)?;
        return Ok(cases);
    }
    let told = id_cases(alloc, pool, written, spot, pages, conds, constants)?;
    let cases = standing_cases(alloc, pool, ids, told.as_slice(), spot.standing, constants)?;
    Ok(cases)
}

/// Whether `{refpage}` may be in an id.
fn may_name_page(written: &[u8]) -> bool
    ensures { result ≡ false → (page : Option (List ℕ)) → filled page written.now ≡ written.now }
{
    match memchr(b'{', written) {
        Some(_) => true,
        None => false,
    }
}

/// An id that a mark has wherever it stands.
fn one_case(
    alloc: Global,
    ids: &mut Names,
    written: &[u8],
    standing: NodeId,
) -> Result<Listed<Case>, Memory>
    ensures ids { OnOk result (HasMore ids.old ids.new) }
    ensures case { IfOk result (λ cases. (number : ℕ) × (cases ≡ record { id = record { 0 = number }; node = standing } ∷ []) × (slice_get ids.new number ≡ Some written.now)) }
{
    let number = ids.intern(written)?;
    let case = Case {
        id: IdNumber(number as u64),
        node: standing,
    };
    let mut cases = Vec::with_capacity(alloc, 1)?;
    cases.push(case)?;
    Ok(Listed::from_vec(cases))
}

/// The ids that a mark may have, by the lines before it that set the page: from the last one on that is kept wherever the mark stands, or all.
fn id_cases(
    alloc: Global,
    pool: &mut Pool,
    written: &[u8],
    spot: Spot,
    pages: &Pages,
    conds: &[Cond],
    constants: Constants,
) -> Result<Vec<IdCase>, Memory>
    requires { IsReady pool.old constants conds.now spot pages.now }
    ensures grows { OnOk result (Grows pool.old pool.new) }
    ensures told { IfOk result (λ told. AreTold pool.old pool.new conds.now spot.within pages.now written.now told.items) }
{
    // The nodes from before keep their values.
    nodes_keep_their_meaning();
    let sources = pages.sources.as_slice();
    match last_covering(pages.withins.as_slice(), conds, spot.within) {
        Some(place) => {
            let told = put_ids(alloc, pool, constants, written, true, &sources[place..])?;
            Ok(told)
        }
        None => {
            let told = put_ids(alloc, pool, constants, written, false, sources)?;
            Ok(told)
        }
    }
}

/// These ids with their numbers, each with a node that is true where its own and another are.
fn standing_cases(
    alloc: Global,
    pool: &mut Pool,
    ids: &mut Names,
    told: &[IdCase],
    standing: NodeId,
    constants: Constants,
) -> Result<Listed<Case>, Memory>
    requires constants { AreConstant pool.old constants }
    requires standing { standing.0 < length pool.old }
    requires told { All (λ case. case.node.0 < length pool.old) told.now }
    ensures grows { OnOk result (Grows pool.old pool.new) }
    ensures ids { OnOk result (HasMore ids.old ids.new) }
    ensures cases { IfOk result (AllZip (IsCaseOf pool.old pool.new ids.new standing) told.now) }
{
    let mut cases = Vec::with_capacity(alloc, told.len())?;
    for case in told {
        let kept = standing_case(alloc, pool, ids, case, standing, constants.always)?;
        cases.push(kept)?;
    }
    Ok(Listed::from_vec(cases))
}

/// An id with its number, and a node that is true where its own and another are.
fn standing_case(
    alloc: Global,
    pool: &mut Pool,
    ids: &mut Names,
    case: &IdCase,
    standing: NodeId,
    always: NodeId,
) -> Result<Case, Memory>
    requires standing { standing.0 < length pool.old }
    requires node { case.now.node.0 < length pool.old }
    requires always { (set : List Bool) → is_true pool.old set always ≡ true }
    ensures grows { OnOk result (Grows pool.old pool.new) }
    ensures ids { OnOk result (HasMore ids.old ids.new) }
    ensures case { IfOk result (IsCaseOf pool.old pool.new ids.new standing case.now) }
{
    let number = ids.intern(case.id.as_slice())?;
    let node = put_both(alloc, pool, standing, case.node, always)?;
    Ok(Case {
        id: IdNumber(number as u64),
        node,
    })
}
