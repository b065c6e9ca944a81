//! A way round a circle: the names to which one leads, each with the one that named it first, until one names the first.
ghost use Rattle.std.specs.Prelude.{◌≡◌, ◌<◌, ◌^◌, ℕ, true, length, slice_get, Some, All, IfOk, OnOk, MatchOption};
ghost use Rattle.reg_registry.specs.Naming.{IsOnCircle, Names};
ghost use Rattle.reg_registry.specs.Ways.{AreLookedAt, IsMore, IsSearch, IsSeen, IsWayRound};
ghost use Rattle.reg_registry.specs.declared.circles.way.Met.{Met};

use crate::circles::walk::names;
use crate::registry::Row;
use std::alloc::Global;
use std::marker::Model;
use vkb_bytes::Memory;

/// A name to which the first leads.
#[derive(Clone, Copy)]
pub(crate) struct Met {
    pub(crate) name: u32,
    /// Where the one that named it first was met.
    pub(crate) by: usize,
}

/// What was met so far.
#[derive(Drop)]
struct Search {
    /// Whether each name was met.
    seen: Vec<bool>,
    met: Vec<Met>,
}

impl Model for Search {
    ghost use Rattle.reg_registry.specs.Ways.{Searched};

    ghost Value = { Searched };

    ghost view = { λ s. record { seen = s.seen.items; met = s.met.items } };
}

/// A circle through a name, if it lies on one.
pub(crate) fn way_round(alloc: Global, rows: &[Row], first: u32) -> Result<Option<Vec<u32>>, Memory>
    requires ids { All (λ row. All (λ id. id.0 < length rows.now) row.named) rows.now }
    requires first { first < length rows.now }
    ensures { IfOk result (λ found. MatchOption found (¬ IsOnCircle rows.now first) (λ circle. IsWayRound rows.now first circle.items)) }
{
    let mut search = Search::new(alloc, rows, first)?;
    let mut place = 0;
    while place < search.len() {
        if names(rows, search.name(place), first) {
            return Ok(Some(search.way_back(alloc, rows, first, place)?));
        }
        search.look_at(rows, first, place)?;
        place += 1;
    }
    Ok(None)
}

impl Search {
    /// The first is met.
    fn new(alloc: Global, rows: &[Row], first: u32) -> Result<Search, Memory>
        requires first { first < length rows.now }
        ensures { IfOk result (IsSearch rows.now first) }
    {
        let mut seen = vec![in alloc; false; rows.len()]?;
        seen[first as usize] = true;
        let mut met = Vec::new(alloc);
        met.push(Met { name: first, by: 0 })?;
        Ok(Search { seen, met })
    }

    /// How many were met.
    fn len(&self) -> usize
        ensures { result ≡ length self.now.met }
    {
        self.met.len()
    }

    /// The name that was met at a place.
    fn name(&self, place: usize) -> u32
        requires { place < length self.now.met }
        ensures { (entry : Met) × (slice_get self.now.met place ≡ Some entry) × (entry.name ≡ result) }
    {
        self.met[place].name
    }

    /// Meets what a name names.
    fn look_at(&mut self, rows: &[Row], first: u32, place: usize) -> Result<(), Memory>
        requires ids { All (λ row. All (λ id. id.0 < length rows.now) row.named) rows.now }
        requires search { IsSearch rows.now first self.old }
        requires place { place < length self.old.met }
        ensures search { OnOk result (IsSearch rows.now first self.new) }
        ensures more { OnOk result (IsMore self.old self.new) }
        ensures met { OnOk result ((entry : Met) → slice_get self.old.met place ≡ Some entry → (other : ℕ) → Names rows.now entry.name other → IsSeen self.new.seen other) }
    {
        let name = self.name(place);
        for id in rows[name as usize].named.as_slice() {
            self.meet(rows, first, place, id.0)?;
        }
        Ok(())
    }

    /// Meets a name that is named by one that was met, if it wasn't yet.
    fn meet(&mut self, rows: &[Row], first: u32, place: usize, name: u32) -> Result<(), Memory>
        requires search { IsSearch rows.now first self.old }
        requires within { name < length rows.now }
        requires named { (entry : Met) × (slice_get self.old.met place ≡ Some entry) × Names rows.now entry.name name }
        ensures search { OnOk result (IsSearch rows.now first self.new) }
        ensures more { OnOk result (IsMore self.old self.new) }
        ensures seen { OnOk result (IsSeen self.new.seen name) }
    {
        if !self.seen[name as usize] {
            self.seen[name as usize] = true;
            self.met.push(Met { name, by: place })?;
        }
        Ok(())
    }

    /// The way from the first to what was met at a place, which names the first.
    fn way_back(
        &self,
        alloc: Global,
        rows: &[Row],
        first: u32,
        place: usize,
    ) -> Result<Vec<u32>, Memory>
        requires search { IsSearch rows.now first self.now }
        requires last { (entry : Met) × (slice_get self.now.met place ≡ Some entry) × Names rows.now entry.name first }
        ensures { IfOk result (λ circle. IsWayRound rows.now first circle.items) }
    {
        let mut back = Vec::new(alloc);
        let mut at = place;
        while at > 0 {
            back.push(self.met[at].name)?;
            at = self.met[at].by;
        }
        back.push(self.met[0].name)?;
        back.as_mut_slice().reverse();
        Ok(back)
    }
}
