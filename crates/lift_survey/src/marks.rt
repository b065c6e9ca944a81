//! The marks of one line.
ghost use Rattle.std.specs.Prelude.{◌≡◌, ◌+◌, ◌<◌, ◌^◌, ◌++◌, [], ◌∷◌, ℕ, List, true, OnOk, length};
ghost use Rattle.vkb_formula.specs.declared.name_table.NameId.{NameId};
ghost use Rattle.doc_marks.specs.Marks.{IsWithin};
ghost use Rattle.lift_survey.specs.Growth.{Grows};
ghost use Rattle.lift_survey.specs.Keeping.{IsReady, IsSpot, Keeps, World, site_at};
ghost use Rattle.lift_survey.specs.Survey.{Sighted, sighted_at};

use crate::ids::put_cases;
use crate::pages::Pages;
use crate::spots::Spot;
use crate::{LiftedMark, Memory, Survey};
use doc_build::Place;
use doc_marks::{Mark, Marks};
use doc_tree::Cond;
use lift_nodes::Constants;
use vkb_formula::Pool;

/// Adds the marks of a line's bytes. `Memory` is also answered where the line has 2^32 bytes or more.
pub(crate) fn add_marks(
    survey: &mut Survey,
    pool: &mut Pool,
    bytes: &[u8],
    spot: Spot,
    pages: &Pages,
    conds: &[Cond],
    constants: Constants,
) -> Result<(), Memory>
    requires { IsReady pool.old constants conds.now spot pages.now }
    ensures grows { OnOk result (Grows pool.old pool.new) }
    ensures keeps { OnOk result ((w : World) (seen : List Sighted) (needs : List NameId)
        → IsSpot w pool.old conds.now spot pages.now needs
        → Keeps w pool.old survey.old.ids survey.old.anchors.items survey.old.links.items seen
        → Keeps w pool.new survey.new.ids survey.new.anchors.items survey.new.links.items
        (seen ++ sighted_at (site_at spot bytes.now needs))) }
{
    if bytes.len() > (u32::MAX - spot.start) as usize {
        return Err(Memory);
    }
    let mut marks = Marks::new(bytes);
    while let Some(mark) = marks.next() {
        add_mark(survey, pool, bytes, mark, spot, pages, conds, constants)?;
    }
    Ok(())
}

/// Adds a mark of a line's bytes.
fn add_mark(
    survey: &mut Survey,
    pool: &mut Pool,
    bytes: &[u8],
    mark: Mark,
    spot: Spot,
    pages: &Pages,
    conds: &[Cond],
    constants: Constants,
) -> Result<(), Memory>
    requires ready { IsReady pool.old constants conds.now spot pages.now }
    requires within { IsWithin bytes.now mark }
    requires short { spot.start + length bytes.now < 2 ^ 32 }
    ensures grows { OnOk result (Grows pool.old pool.new) }
    ensures keeps { OnOk result ((w : World) (seen : List Sighted) (needs : List NameId)
        → IsSpot w pool.old conds.now spot pages.now needs
        → Keeps w pool.old survey.old.ids survey.old.anchors.items survey.old.links.items seen
        → Keeps w pool.new survey.new.ids survey.new.anchors.items survey.new.links.items
        (seen ++ record { site = site_at spot bytes.now needs; mark = mark } ∷ [])) }
{
    let alloc = *survey.anchors.allocator();
    let written = &bytes[mark.from as usize..mark.to as usize];
    let cases = put_cases(
        alloc,
        pool,
        &mut survey.ids,
        written,
        spot,
        pages,
        conds,
        constants,
    )?;
    let place = Place {
        line: spot.line,
        statement: spot.statement,
        at: spot.start + mark.at,
    };
    let lifted = LiftedMark { place, cases };
    if mark.anchor {
        survey.anchors.push(lifted)?;
    } else {
        survey.links.push(lifted)?;
    }
    Ok(())
}
