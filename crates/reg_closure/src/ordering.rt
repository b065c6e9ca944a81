//! The order of a set of names: names wait for those that they name, and the first of those that wait for none stands next.
ghost use Rattle.std.specs.Prelude.{◌≡◌, ◌↔◌, ℕ, ◌+◌, ◌<◌, ◌≤◌, ◌++◌, ◌∷◌, [], length, map, replicate, slice_get, slice_set, slice_index_or, Some, All, Contains, IfOk, OnOk, MatchOption};
ghost use Rattle.vkb_formula.specs.Names.{most_names};
ghost use Rattle.reg_registry.specs.Naming.{NoneTwice};
ghost use Rattle.reg_closure.specs.Closure.{IsIn};
ghost use Rattle.reg_closure.specs.Orders.{IsOrder};
ghost use Rattle.reg_closure.specs.Waiting.{AreNamers, IsWaiting, Puts, Releases};

use reg_registry::Registry;
use std::alloc::Global;
use std::collections::BTreeSet;
use std::marker::Model;
use vkb_bytes::Memory;
use vkb_formula::{NameId, NameSet};

/// The names of a set, each behind all that it names, and else in the order of the registry: each place has the first name of those that aren't
/// placed and whose named ones are. Where the set has all that its names name, each of its names stands there (the law `orders_are_whole`). The
/// time is in proportion to the names and the pairs of names of which one names the other, but for a factor that is the logarithm of their number.
pub fn order(alloc: Global, r: &Registry, set: &NameSet) -> Result<Vec<NameId>, Memory>
    requires { length set.now ≡ length r.now.names }
    ensures { IfOk result (λ order. IsOrder r.now.rows set.now (map (λ id. id.0) order.items)) }
{
    r.is_sound();
    let namers = namers_in(alloc, r, set)?;
    let mut waiting = none_placed(alloc, r, set)?;
    let mut order = Vec::new(alloc);
    while let Some(name) = waiting.take_first() {
        order.push(NameId(name))?;
        waiting.release(namers.of(name))?;
    }
    Ok(order)
}

/// For each name those of a set that name it.
fn namers_in(alloc: Global, r: &Registry, set: &NameSet) -> Result<Namers, Memory>
    requires { length set.now ≡ length r.now.names }
    ensures { IfOk result (AreNamers r.now.rows set.now (length r.now.names)) }
{
    r.is_sound();
    let count = r.names().len();
    let mut namers = Namers::new(alloc, count)?;
    for name in 0..count {
        if set.has(NameId(name)) {
            namers.put(name, r.row(NameId(name)).named.as_slice())?;
        }
    }
    Ok(namers)
}

/// The names of a set, with none placed.
fn none_placed(alloc: Global, r: &Registry, set: &NameSet) -> Result<Waiting, Memory>
    requires { length set.now ≡ length r.now.names }
    ensures { IfOk result (IsWaiting r.now.rows set.now []) }
{
    r.is_sound();
    let counts = counts(alloc, r)?;
    let ready = ready(alloc, set, counts.as_slice())?;
    Ok(Waiting { counts, ready })
}

/// How many names each names.
fn counts(alloc: Global, r: &Registry) -> Result<Vec<u32>, Memory>
    ensures { IfOk result (λ counts. counts.items ≡ map (λ row. length row.named) r.now.rows) }
{
    r.is_sound();
    let mut counts = Vec::new(alloc);
    for name in 0..r.names().len() {
        counts.push(r.row(NameId(name)).named.as_slice().len() as u32)?;
    }
    Ok(counts)
}

/// The names of a set that wait for none.
fn ready(alloc: Global, set: &NameSet, counts: &[u32]) -> Result<BTreeSet<u32>, Memory>
    requires count { length set.now ≡ length counts.now }
    requires few { length counts.now ≤ most_names }
    ensures { IfOk result (λ ready. (place : ℕ) → Contains ready.keys place ↔ (IsIn set.now place × (slice_get counts.now place ≡ Some 0))) }
{
    let mut ready = BTreeSet::new(alloc);
    for (place, count) in counts.iter().enumerate() {
        let name = place as u32;
        if *count == 0 && set.has(NameId(name)) {
            ready.insert(name)?;
        }
    }
    Ok(ready)
}

/// Names that wait for those that they name.
#[derive(Drop)]
struct Waiting {
    /// For how many each waits.
    counts: Vec<u32>,
    /// Those of the set that wait for none.
    ready: BTreeSet<u32>,
}

impl Model for Waiting {
    ghost use Rattle.reg_closure.specs.Waiting.{Waits};

    ghost Value = { Waits };

    ghost view = { λ w. record { counts = w.counts.items; ready = w.ready.keys } };
}

impl Waiting {
    /// Takes out the first name of those that wait for none.
    fn take_first(&mut self) -> Option<u32>
        ensures counts { self.new.counts ≡ self.old.counts }
        ensures first { MatchOption result (self.old.ready ≡ []) (λ name. self.old.ready ≡ name ∷ self.new.ready) }
        ensures least { MatchOption result (self.new.ready ≡ []) (λ name. All (λ other. name < other) self.new.ready) }
    {
        self.ready.pop_first()
    }

    /// Lets names wait for one less.
    fn release(&mut self, names: &[u32]) -> Result<(), Memory>
        requires once { NoneTwice names.now }
        requires wait { (place : ℕ) → Contains names.now place → (n : ℕ) × (slice_get self.old.counts place ≡ Some (n + 1)) }
        ensures { OnOk result (Releases names.now self.old self.new) }
    {
        for name in names {
            self.release_one(*name)?;
        }
        Ok(())
    }

    /// Lets a name wait for one less.
    fn release_one(&mut self, name: u32) -> Result<(), Memory>
        requires { (n : ℕ) × (slice_get self.old.counts name ≡ Some (n + 1)) }
        ensures { OnOk result (Releases (name ∷ []) self.old self.new) }
    {
        let left = self.counts[name as usize] - 1;
        self.counts[name as usize] = left;
        if left == 0 {
            self.ready.insert(name)?;
        }
        Ok(())
    }
}

/// For each name those that name it.
#[derive(Drop)]
struct Namers {
    lists: Vec<Vec<u32>>,
}

impl Model for Namers {
    ghost use Rattle.std.specs.Prelude.{List, ℕ, map};

    ghost Value = { List (List ℕ) };

    ghost view = { λ n. map (λ list. list.items) n.lists.items };
}

impl Namers {
    /// No namer of any name below a count.
    fn new(alloc: Global, count: u32) -> Result<Namers, Memory>
        ensures { IfOk result (λ n. n ≡ replicate count []) }
    {
        let mut lists = Vec::new(alloc);
        for _ in 0..count {
            lists.push(Vec::new(alloc))?;
        }
        Ok(Namers { lists })
    }

    /// Puts a name behind the namers of others.
    fn put(&mut self, namer: u32, names: &[NameId]) -> Result<(), Memory>
        requires within { All (λ id. id.0 < length self.old) names.now }
        requires once { NoneTwice (map (λ id. id.0) names.now) }
        ensures { OnOk result (Puts namer names.now self.old self.new) }
    {
        for id in names {
            self.push(id.0, namer)?;
        }
        Ok(())
    }

    /// Puts a name behind the namers of another.
    fn push(&mut self, name: u32, namer: u32) -> Result<(), Memory>
        requires { name < length self.old }
        ensures { OnOk result (self.new ≡ slice_set self.old name (slice_index_or self.old name [] ++ namer ∷ [])) }
    {
        self.lists[name as usize].push(namer)?;
        Ok(())
    }

    /// The namers of a name.
    fn of(&self, name: u32) -> &[u32]
        requires { name < length self.now }
        ensures { slice_get self.now name ≡ Some result.now }
    {
        self.lists[name as usize].as_slice()
    }
}
