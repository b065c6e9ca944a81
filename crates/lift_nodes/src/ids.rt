//! The ids that a mark may have, and a node for each.
ghost use Rattle.std.specs.Prelude.{◌≡◌, ℕ, ◌+◌, ◌*◌, ◌<◌, ◌≤◌, [], ◌∷◌, All, Bool, Contains, IfOk, List, OnOk, Some, count_by, length, map};
ghost use Rattle.std.specs.Bool.{OnTrue};
ghost use Rattle.std.specs.List.{list_any};
ghost use Rattle.std.specs.Option.{option_copied};
ghost use Rattle.std.specs.Str.{bytes_eq};
ghost use Rattle.vkb_formula.specs.Names.{AreDifferent};
ghost use Rattle.vkb_formula.specs.Pools.{Extends, pool_reach, pool_size};
ghost use Rattle.doc_tree.specs.Names.{each_once};
ghost use Rattle.doc_build.specs.Ids.{filled as filled_id};
ghost use Rattle.lift_nodes.specs.Cases.{AreConstant, id_of, later_sources, nodes_under, possible_ids, start_page};
ghost use Rattle.lift_nodes.specs.Giving.{HaveNodes, giver_of, with_id};
ghost use Rattle.lift_nodes.specs.Nodes.{IsNodeOver, is_true};

use crate::giving::put_id_node;
use crate::{Constants, IdCase, Source};
use doc_build::filled;
use std::alloc::Global;
use vkb_bytes::{Bytes, Memory};
use vkb_formula::{NodeId, Pool, nodes_keep_their_meaning};

/// The id that a line gives a mark where it is kept, and the node that is true there.
#[derive(Drop)]
pub(crate) struct Giver {
    pub(crate) id: Bytes,
    pub(crate) line: NodeId,
}

/// The ids that a mark may have, each once, in the order of their sources, and for each a node that is true at a set exactly where the mark has
/// that id there: in the place of each `{refpage}` in what is `written` stands the page of the last source whose node is true at the set, and
/// before all sources it stays. Where the mark is `covered`, its first source counts as true at each set, whatever its node says. Each node from
/// before stays at its place, also where memory ran out. An `Err` is want of memory. The time is in proportion to the number of ids times that of
/// sources, and where `{refpage}` isn't written, to the bytes alone.
pub fn put_ids(
    alloc: Global,
    pool: &mut Pool,
    constants: Constants,
    written: &[u8],
    covered: bool,
    sources: &[Source],
) -> Result<Vec<IdCase>, Memory>
    requires constants { AreConstant pool.old constants }
    requires lines { All (λ source. source.line.0 < length pool.old) sources.now }
    ensures before { Extends pool.old pool.new }
    ensures reach { OnOk result (pool_reach pool.new ≡ pool_reach pool.old) }
    ensures size { IfOk result (λ cases. pool_size pool.new
        ≤ pool_size pool.old + 5 * (length cases.items * length (later_sources covered sources.now))) }
    ensures ids { IfOk result (λ cases. map (λ case. case.id) cases.items ≡ possible_ids written.now covered sources.now) }
    ensures different { IfOk result (λ cases. AreDifferent (map (λ case. case.id) cases.items)) }
    ensures among { IfOk result (λ cases. (set : List Bool)
        → Contains (map (λ case. case.id) cases.items) (id_of (is_true pool.old set) written.now covered sources.now)) }
    ensures one { IfOk result (λ cases. (set : List Bool) → count_by (λ case. is_true pool.new set case.node) cases.items ≡ 1) }
    ensures nodes { IfOk result (λ cases. All (λ case. IsNodeOver pool.old pool.new (nodes_under constants covered sources.now)
        (3 * length (later_sources covered sources.now)) (length (later_sources covered sources.now))
        (λ set. bytes_eq case.id (id_of (is_true pool.old set) written.now covered sources.now)) case.node) cases.items) }
{
    let plain = is_plain(alloc, written)?;
    if plain {
        let only = always(alloc, constants, written)?;
        return Ok(only);
    }
    let later = behind_start(covered, sources);
    let start = start_id(alloc, page_before(covered, sources), written)?;
    let givers = givers_of(alloc, written, later)?;
    let cases = put_cases(alloc, pool, constants, start.as_slice(), givers.as_slice())?;
    Ok(cases)
}

/// Whether each page leaves what is written as it is.
fn is_plain(alloc: Global, written: &[u8]) -> Result<bool, Memory>
    ensures { IfOk result (λ plain. OnTrue plain ((page : List ℕ) → filled_id (Some page) written.now ≡ written.now)) }
{
    // An empty page takes each `{refpage}` away.
    let bare = filled(alloc, &[], written)?;
    Ok(bare.as_slice() == written)
}

/// The one case of an id that a mark always has.
fn always(alloc: Global, constants: Constants, id: &[u8]) -> Result<Vec<IdCase>, Memory>
    ensures { IfOk result (λ cases. cases.items ≡ record { id = id.now; node = constants.always } ∷ []) }
{
    let id = Bytes::from_slice(alloc, id)?;
    let mut cases = Vec::with_capacity(alloc, 1)?;
    cases.push(IdCase {
        id,
        node: constants.always,
    })?;
    Ok(cases)
}

/// The page before the sources that may change it.
fn page_before(covered: bool, sources: &[Source]) -> Option<&[u8]>
    ensures { option_copied result ≡ start_page covered sources.now }
{
    match sources {
        [first, ..] if covered => Some(first.page.as_slice()),
        _ => None,
    }
}

/// The sources that may change the page.
fn behind_start(covered: bool, sources: &[Source]) -> &[Source]
    ensures { result.now ≡ later_sources covered sources.now }
{
    match sources {
        [_, later @ ..] if covered => later,
        _ => sources,
    }
}

/// What is written, where this is the page, if there is one.
fn start_id(alloc: Global, page: Option<&[u8]>, written: &[u8]) -> Result<Vec<u8>, Memory>
    ensures { IfOk result (λ id. id.items ≡ filled_id (option_copied page.entry) written.now) }
{
    match page {
        Some(page) => {
            let id = filled(alloc, page, written)?;
            Ok(id)
        }
        None => {
            let id = Vec::from_slice(alloc, written)?;
            Ok(id)
        }
    }
}

/// What each source gives.
fn givers_of(alloc: Global, written: &[u8], sources: &[Source]) -> Result<Vec<Giver>, Memory>
    ensures { IfOk result (λ givers. givers.items ≡ map (giver_of written.now) sources.now) }
{
    let mut givers = Vec::with_capacity(alloc, sources.len())?;
    for source in sources {
        let id = filled(alloc, source.page.as_slice(), written)?;
        givers.push(Giver {
            id: Bytes::from_vec(id),
            line: source.line,
        })?;
    }
    Ok(givers)
}

/// A node for each id that the givers may leave, where one stands before them.
fn put_cases(
    alloc: Global,
    pool: &mut Pool,
    constants: Constants,
    start: &[u8],
    givers: &[Giver],
) -> Result<Vec<IdCase>, Memory>
    requires constants { AreConstant pool.old constants }
    requires lines { All (λ giver. giver.line.0 < length pool.old) givers.now }
    ensures before { Extends pool.old pool.new }
    ensures nodes { IfOk result (λ cases. HaveNodes pool.old pool.new constants start.now givers.now
        (each_once (start.now ∷ map (λ giver. giver.id) givers.now)) cases.items) }
{
    let ids = ids_of(alloc, start, givers)?;
    let cases = put_id_nodes(alloc, pool, constants, start, givers, ids.as_slice())?;
    Ok(cases)
}

/// A node for each of some ids.
fn put_id_nodes(
    alloc: Global,
    pool: &mut Pool,
    constants: Constants,
    start: &[u8],
    givers: &[Giver],
    ids: &[Bytes],
) -> Result<Vec<IdCase>, Memory>
    requires constants { AreConstant pool.old constants }
    requires lines { All (λ giver. giver.line.0 < length pool.old) givers.now }
    ensures before { Extends pool.old pool.new }
    ensures nodes { IfOk result (λ cases. HaveNodes pool.old pool.new constants start.now givers.now ids.now cases.items) }
{
    // What the nodes from before say and reach stays.
    nodes_keep_their_meaning();
    let mut cases = Vec::with_capacity(alloc, ids.len())?;
    for id in ids {
        let node = put_id_node(alloc, pool, constants, id.as_slice(), start, givers)?;
        let id = Bytes::from_slice(alloc, id.as_slice())?;
        cases.push(IdCase { id, node })?;
    }
    Ok(cases)
}

/// The ids that the givers may leave, each once.
fn ids_of(alloc: Global, start: &[u8], givers: &[Giver]) -> Result<Vec<Bytes>, Memory>
    ensures { IfOk result (λ ids. ids.items ≡ each_once (start.now ∷ map (λ giver. giver.id) givers.now)) }
{
    let mut ids = Vec::new(alloc);
    ids.push(Bytes::from_slice(alloc, start)?)?;
    for giver in givers {
        put_new(alloc, &mut ids, giver.id.as_slice())?;
    }
    Ok(ids)
}

/// Puts an id behind others, where it is new.
fn put_new(alloc: Global, ids: &mut Vec<Bytes>, id: &[u8]) -> Result<(), Memory>
    ensures { OnOk result (ids.new.items ≡ with_id ids.old.items id.now) }
{
    if is_among(ids.as_slice(), id) {
        return Ok(());
    }
    let copy = Bytes::from_slice(alloc, id)?;
    ids.push(copy)?;
    Ok(())
}

/// Whether an id is one of these.
fn is_among(ids: &[Bytes], id: &[u8]) -> bool
    ensures { result ≡ list_any (bytes_eq id.now) ids.now }
{
    for other in ids {
        if id == other.as_slice() {
            return true;
        }
    }
    false
}
