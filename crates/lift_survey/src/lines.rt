//! The marks that the lines of a document give.
ghost use Rattle.std.specs.Prelude.{◌≡◌, ◌<◌, ◌^◌, ◌++◌, [], ◌∷◌, ℕ, All, Bool, List, IfOk, IfSome, OnOk, length, map, true};
ghost use Rattle.std.specs.List.{enumerate_from, flat_map, list_all};
ghost use Rattle.std.specs.Option.{option_to_list};
ghost use Rattle.vkb_formula.specs.declared.name_table.NameId.{NameId};
ghost use Rattle.vkb_text.specs.Spans.{IsWithin as IsSpanWithin};
ghost use Rattle.doc_cond.specs.Lines.{IsWithin as IsKindWithin};
ghost use Rattle.doc_tree.specs.Loaded.{IsBefore};
ghost use Rattle.reg_registry.specs.Rows.{Rows};
ghost use Rattle.doc_build.specs.Pages.{has, numbered};
ghost use Rattle.doc_build.specs.Sites.{anchor_site, sites_at, statement_site};
ghost use Rattle.lift_nodes.specs.Cases.{AreConstant};
ghost use Rattle.lift_nodes.specs.Nodes.{is_true};
ghost use Rattle.lift_survey.specs.Growth.{Grows, IsNeeded};
ghost use Rattle.lift_survey.specs.Keeping.{AreOrdered, IsDocumentOf, IsLineIn, IsReady, IsSpot, IsWorldOf, Keeps, Told, World, anchor_sites, usage_sites};
ghost use Rattle.lift_survey.specs.Survey.{Sighted, sighted, sighted_at};

use crate::marks::add_marks;
use crate::nodes::put_both;
use crate::pages::{Pages, add_page};
use crate::spots::Spot;
use crate::{Memory, Survey};
use doc_build::{anchor_line, statement_line};
use doc_cond::LineKind;
use doc_tree::{Cond, DocLine};
use lift_nodes::Constants;
use reg_registry::Registry;
use std::alloc::Global;
use vkb_formula::{NameId, NodeId, Pool};
use vkb_text::Text;
use vu_implicit::{Statement, statements};

/// Adds the marks that lines give, in order.
pub(crate) fn survey_lines(
    survey: &mut Survey,
    pool: &mut Pool,
    text: &Text,
    lines: &[DocLine],
    conds: &[Cond],
    r: &Registry,
    nodes: &[NodeId],
    names: &[NodeId],
    constants: Constants,
) -> Result<(), Memory>
    requires there { All (IsLineIn text.now.bytes) lines.now }
    requires few { length lines.now < 2 ^ 32 }
    requires ordered { AreOrdered conds.now }
    requires withins { All (λ line. IsBefore (length conds.now) line.within) lines.now }
    requires constants { AreConstant pool.old constants }
    requires count { length nodes.now ≡ length lines.now }
    requires nodes { All (λ node. node.0 < length pool.old) nodes.now }
    requires names { length names.now ≡ length r.now.names }
    requires held { All (λ node. node.0 < length pool.old) names.now }
    ensures grows { OnOk result (Grows pool.old pool.new) }
    ensures keeps { OnOk result ((w : World) (files : List (List ℕ))
        → IsWorldOf w pool.old r.now names.now
        → IsDocumentOf w text.now.bytes files lines.now conds.now nodes.now
        → Keeps w pool.old survey.old.ids survey.old.anchors.items survey.old.links.items []
        → Keeps w pool.new survey.new.ids survey.new.anchors.items survey.new.links.items (sighted r.now w.lines)) }
{
    let mut pages = Pages::new(*survey.anchors.allocator());
    for (number, line) in lines.iter().enumerate() {
        let spot = Spot {
            line: number as u32,
            statement: 0,
            start: 0,
            within: line.within,
            standing: nodes[number],
        };
        let bytes = text.slice(line.line.span);
        add_line(
            survey, pool, bytes, &line.kind, r, names, spot, &pages, conds, constants,
        )?;
        add_page(&mut pages, line, nodes[number])?;
    }
    Ok(())
}

/// Adds the marks that a line gives.
fn add_line(
    survey: &mut Survey,
    pool: &mut Pool,
    line: &[u8],
    kind: &LineKind,
    r: &Registry,
    names: &[NodeId],
    spot: Spot,
    pages: &Pages,
    conds: &[Cond],
    constants: Constants,
) -> Result<(), Memory>
    requires ready { IsReady pool.old constants conds.now spot pages.now }
    requires start { (spot.statement ≡ 0) × (spot.start ≡ 0) }
    requires names { length names.now ≡ length r.now.names }
    requires held { All (λ node. node.0 < length pool.old) names.now }
    requires within { IsKindWithin line.now kind.now }
    ensures grows { OnOk result (Grows pool.old pool.new) }
    ensures keeps { OnOk result ((w : World) (seen : List Sighted)
        → IsWorldOf w pool.old r.now names.now
        → IsSpot w pool.old conds.now spot pages.now []
        → Keeps w pool.old survey.old.ids survey.old.anchors.items survey.old.links.items seen
        → Keeps w pool.new survey.new.ids survey.new.anchors.items survey.new.links.items (seen ++ flat_map sighted_at (sites_at r.now spot.line line.now kind.now))) }
{
    match kind {
        LineKind::Plain => {
            add_marks(survey, pool, line, spot, pages, conds, constants)?;
            Ok(())
        }
        LineKind::OneLine { from, to, .. } => {
            let part = &line[*from as usize..*to as usize];
            let inside = Spot {
                start: *from,
                ..spot
            };
            add_marks(survey, pool, part, inside, pages, conds, constants)?;
            Ok(())
        }
        LineKind::Api { name } => {
            add_page_anchor(
                survey,
                pool,
                r,
                names,
                name.as_slice(),
                spot,
                pages,
                conds,
                constants,
            )?;
            Ok(())
        }
        LineKind::Validity { name } => {
            add_page_usage(
                survey,
                pool,
                r,
                names,
                name.as_slice(),
                spot,
                pages,
                conds,
                constants,
            )?;
            Ok(())
        }
        LineKind::Comment
        | LineKind::Other
        | LineKind::Refpage { .. }
        | LineKind::Begin { .. }
        | LineKind::Close { .. }
        | LineKind::Chapter { .. } => Ok(()),
    }
}

/// Adds the anchor of a page, if its name is declared.
fn add_page_anchor(
    survey: &mut Survey,
    pool: &mut Pool,
    r: &Registry,
    names: &[NodeId],
    name: &[u8],
    spot: Spot,
    pages: &Pages,
    conds: &[Cond],
    constants: Constants,
) -> Result<(), Memory>
    requires ready { IsReady pool.old constants conds.now spot pages.now }
    requires start { (spot.statement ≡ 0) × (spot.start ≡ 0) }
    requires names { length names.now ≡ length r.now.names }
    requires held { All (λ node. node.0 < length pool.old) names.now }
    ensures grows { OnOk result (Grows pool.old pool.new) }
    ensures keeps { OnOk result ((w : World) (seen : List Sighted)
        → IsWorldOf w pool.old r.now names.now
        → IsSpot w pool.old conds.now spot pages.now []
        → Keeps w pool.old survey.old.ids survey.old.anchors.items survey.old.links.items seen
        → Keeps w pool.new survey.new.ids survey.new.anchors.items survey.new.links.items (seen ++ flat_map sighted_at (anchor_sites r.now spot.line name.now))) }
{
    match r.names().find(name) {
        Some(id) => {
            let node = names[id.0 as usize];
            add_anchor(survey, pool, name, node, spot, pages, conds, constants)?;
            Ok(())
        }
        None => Ok(()),
    }
}

/// Adds the marks of the statements of a page, if its name is declared.
fn add_page_usage(
    survey: &mut Survey,
    pool: &mut Pool,
    r: &Registry,
    names: &[NodeId],
    name: &[u8],
    spot: Spot,
    pages: &Pages,
    conds: &[Cond],
    constants: Constants,
) -> Result<(), Memory>
    requires ready { IsReady pool.old constants conds.now spot pages.now }
    requires start { (spot.statement ≡ 0) × (spot.start ≡ 0) }
    requires names { length names.now ≡ length r.now.names }
    requires held { All (λ node. node.0 < length pool.old) names.now }
    ensures grows { OnOk result (Grows pool.old pool.new) }
    ensures keeps { OnOk result ((w : World) (seen : List Sighted)
        → IsWorldOf w pool.old r.now names.now
        → IsSpot w pool.old conds.now spot pages.now []
        → Keeps w pool.old survey.old.ids survey.old.anchors.items survey.old.links.items seen
        → Keeps w pool.new survey.new.ids survey.new.anchors.items survey.new.links.items (seen ++ flat_map sighted_at (usage_sites r.now spot.line name.now))) }
{
    match r.names().find(name) {
        Some(id) => {
            add_usage(survey, pool, r, names, id, spot, pages, conds, constants)?;
            Ok(())
        }
        None => Ok(()),
    }
}

/// Adds the anchor of a name's page. The node is true where the closure has the name.
fn add_anchor(
    survey: &mut Survey,
    pool: &mut Pool,
    name: &[u8],
    node: NodeId,
    spot: Spot,
    pages: &Pages,
    conds: &[Cond],
    constants: Constants,
) -> Result<(), Memory>
    requires ready { IsReady pool.old constants conds.now spot pages.now }
    requires start { (spot.statement ≡ 0) × (spot.start ≡ 0) }
    requires held { node.0 < length pool.old }
    ensures grows { OnOk result (Grows pool.old pool.new) }
    ensures keeps { OnOk result ((w : World) (seen : List Sighted) (id : NameId)
        → IsSpot w pool.old conds.now spot pages.now []
        → ((choice : List Bool) (names : List (List ℕ)) (set : List Bool) → Told w choice names set → is_true pool.old choice node ≡ has set id)
        → Keeps w pool.old survey.old.ids survey.old.anchors.items survey.old.links.items seen
        → Keeps w pool.new survey.new.ids survey.new.anchors.items survey.new.links.items (seen ++ sighted_at (anchor_site spot.line name.now id))) }
{
    let alloc = *survey.anchors.allocator();
    let standing = put_both(alloc, pool, spot.standing, node, constants.always)?;
    let bytes = anchor_line(alloc, name)?;
    let spot = Spot { standing, ..spot };
    add_marks(
        survey,
        pool,
        bytes.as_slice(),
        spot,
        pages,
        conds,
        constants,
    )?;
    Ok(())
}

/// Adds the marks of the statements of a name.
fn add_usage(
    survey: &mut Survey,
    pool: &mut Pool,
    r: &Registry,
    names: &[NodeId],
    id: NameId,
    spot: Spot,
    pages: &Pages,
    conds: &[Cond],
    constants: Constants,
) -> Result<(), Memory>
    requires ready { IsReady pool.old constants conds.now spot pages.now }
    requires start { (spot.statement ≡ 0) × (spot.start ≡ 0) }
    requires names { length names.now ≡ length r.now.names }
    requires held { All (λ node. node.0 < length pool.old) names.now }
    requires id { id.0 < length r.now.names }
    ensures grows { OnOk result (Grows pool.old pool.new) }
    ensures keeps { OnOk result ((w : World) (seen : List Sighted)
        → IsWorldOf w pool.old r.now names.now
        → IsSpot w pool.old conds.now spot pages.now []
        → Keeps w pool.old survey.old.ids survey.old.anchors.items survey.old.links.items seen
        → Keeps w pool.new survey.new.ids survey.new.anchors.items survey.new.links.items (seen ++ flat_map sighted_at (map (statement_site spot.line id) (numbered r.now id)))) }
{
    let alloc = *survey.anchors.allocator();
    let all = statements(alloc, r, id)?;
    let node = names[id.0 as usize];
    let standing = put_both(alloc, pool, spot.standing, node, constants.always)?;
    let spot = Spot { standing, ..spot };
    add_statements(
        survey,
        pool,
        all.as_slice(),
        names,
        spot,
        pages,
        conds,
        constants,
    )?;
    Ok(())
}

/// Adds the marks of statements, which are numbered from 1. `Memory` is also answered where they are 2^32 or more.
pub(crate) fn add_statements(
    survey: &mut Survey,
    pool: &mut Pool,
    all: &[Statement],
    names: &[NodeId],
    spot: Spot,
    pages: &Pages,
    conds: &[Cond],
    constants: Constants,
) -> Result<(), Memory>
    requires ready { IsReady pool.old constants conds.now spot pages.now }
    requires start { spot.start ≡ 0 }
    requires held { All (λ node. node.0 < length pool.old) names.now }
    ensures grows { OnOk result (Grows pool.old pool.new) }
    ensures keeps { OnOk result ((w : World) (seen : List Sighted) (r : Rows) (id : NameId)
        → IsWorldOf w pool.old r names.now
        → IsSpot w pool.old conds.now spot pages.now (id ∷ [])
        → Keeps w pool.old survey.old.ids survey.old.anchors.items survey.old.links.items seen
        → Keeps w pool.new survey.new.ids survey.new.anchors.items survey.new.links.items (seen ++ flat_map sighted_at (map (statement_site spot.line id) (enumerate_from 1 all.now)))) }
{
    if all.len() >= u32::MAX as usize {
        return Err(Memory);
    }
    for (place, statement) in all.iter().enumerate() {
        let spot = Spot {
            statement: place as u32 + 1,
            ..spot
        };
        add_statement(
            survey, pool, statement, names, spot, pages, conds, constants,
        )?;
    }
    Ok(())
}

/// Adds the marks of a statement of a page that stands where the node of the spot is true.
fn add_statement(
    survey: &mut Survey,
    pool: &mut Pool,
    statement: &Statement,
    names: &[NodeId],
    spot: Spot,
    pages: &Pages,
    conds: &[Cond],
    constants: Constants,
) -> Result<(), Memory>
    requires ready { IsReady pool.old constants conds.now spot pages.now }
    requires start { spot.start ≡ 0 }
    requires held { All (λ node. node.0 < length pool.old) names.now }
    ensures grows { OnOk result (Grows pool.old pool.new) }
    ensures keeps { OnOk result ((w : World) (seen : List Sighted) (r : Rows) (id : NameId)
        → IsWorldOf w pool.old r names.now
        → IsSpot w pool.old conds.now spot pages.now (id ∷ [])
        → Keeps w pool.old survey.old.ids survey.old.anchors.items survey.old.links.items seen
        → Keeps w pool.new survey.new.ids survey.new.anchors.items survey.new.links.items (seen ++ sighted_at (statement_site spot.line id (spot.statement, statement.now)))) }
{
    let alloc = *survey.anchors.allocator();
    let standing = put_need(
        alloc,
        pool,
        spot.standing,
        statement.needs,
        names,
        constants,
    )?;
    let bytes = statement_line(alloc, statement)?;
    let spot = Spot { standing, ..spot };
    add_marks(
        survey,
        pool,
        bytes.as_slice(),
        spot,
        pages,
        conds,
        constants,
    )?;
    Ok(())
}

/// A node that is true where another is and the closure has a name, if one is needed.
fn put_need(
    alloc: Global,
    pool: &mut Pool,
    standing: NodeId,
    needs: Option<NameId>,
    names: &[NodeId],
    constants: Constants,
) -> Result<NodeId, Memory>
    requires constants { AreConstant pool.old constants }
    requires standing { standing.0 < length pool.old }
    requires held { All (λ node. node.0 < length pool.old) names.now }
    ensures grows { OnOk result (Grows pool.old pool.new) }
    ensures node { IfOk result (IsNeeded pool.old pool.new standing needs names.now) }
{
    let Some(id) = needs else {
        return Ok(standing);
    };
    if id.0 as usize >= names.len() {
        return Ok(constants.never);
    }
    put_both(
        alloc,
        pool,
        standing,
        names[id.0 as usize],
        constants.always,
    )
}
