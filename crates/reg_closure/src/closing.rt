//! The closure at a choice: the roots are marked, and then, name by name, what marked names name.
ghost use Rattle.std.specs.Prelude.{◌≡◌, ◌||◌, ℕ, Bool, ◌&&◌, ◌<◌, ◌≤◌, length, slice_get, true, false, Some, All, Contains, IfOk, OnOk};
ghost use Rattle.vkb_formula.specs.Formulas.{reach_of};
ghost use Rattle.reg_registry.specs.Naming.{Names};
ghost use Rattle.reg_closure.specs.Closure.{IsClosure, IsIn, has_name, is_active, is_root};
ghost use Rattle.reg_closure.specs.Marking.{IsMarking, Marks, Tells, is_kind, is_listed};

use reg_registry::{Block, Choice, Registry};
use std::alloc::Global;
use std::marker::Model;
use vkb_bytes::Memory;
use vkb_formula::{NameId, NameSet};

/// The names that a registry declares at a choice: those that its active blocks require and don't remove, and all that these name, and what that
/// names, and so on. The time is linear in the names, the blocks with the formulas that they depend on, the pairs of a block and a name that it
/// lists, and the pairs of names of which one names the other.
pub fn closure(alloc: Global, r: &Registry, c: &Choice) -> Result<NameSet, Memory>
    requires { length c.now.chosen.items ≡ length r.now.options }
    ensures { IfOk result (λ set. IsClosure r.now c.now.chosen.items set) }
{
    r.is_sound();
    let mut marking = roots(alloc, r, c.chosen.as_slice())?;
    let mut place = 0;
    while let Some(name) = marking.name(place) {
        marking.mark_named(r, name)?;
        place += 1;
    }
    Ok(marking.into_set())
}

/// The roots at a choice, marked.
fn roots(alloc: Global, r: &Registry, chosen: &[bool]) -> Result<Marking, Memory>
    requires { length chosen.now ≡ length r.now.options }
    ensures marking { IfOk result IsMarking }
    ensures count { IfOk result (λ m. length m.marked ≡ length r.now.names) }
    ensures only { IfOk result (λ m. (place : ℕ) → IsIn m.marked place → (place < length r.now.names) × (is_root r.now.blocks chosen.now place ≡ true)) }
    ensures all { IfOk result (λ m. (place : ℕ) → place < length r.now.names → is_root r.now.blocks chosen.now place ≡ true → IsIn m.marked place) }
{
    let count = r.names().len();
    let required = listed(alloc, r, chosen, true)?;
    let removed = listed(alloc, r, chosen, false)?;
    let mut marking = Marking::new(alloc, count)?;
    marking.mark_kept(count, &required, &removed)?;
    Ok(marking)
}

/// The names that the active blocks of a kind list: those that require, or those that remove.
fn listed(alloc: Global, r: &Registry, chosen: &[bool], adds: bool) -> Result<NameSet, Memory>
    requires { length chosen.now ≡ length r.now.options }
    ensures { IfOk result (Tells (length r.now.names) (is_listed adds r.now.blocks chosen.now)) }
{
    let mut set = NameSet::new(alloc, r.names().len())?;
    for block in r.blocks() {
        if counts(block, chosen, adds) {
            add_all(&mut set, block.lists.as_slice());
        }
    }
    Ok(set)
}

/// Whether a block is active and of a kind.
fn counts(block: &Block, chosen: &[bool], adds: bool) -> bool
    requires owner { block.now.owner < length chosen.now }
    requires reach { reach_of block.now.depends ≤ length chosen.now }
    ensures { result ≡ (is_kind adds block.now && is_active chosen.now block.now) }
{
    block.adds == adds && chosen[block.owner as usize] && block.depends.value(chosen)
}

/// Adds names to a set.
fn add_all(set: &mut NameSet, ids: &[NameId])
    requires { All (λ id. id.0 < length set.old) ids.now }
    ensures count { length set.new ≡ length set.old }
    ensures each { (place : ℕ) (was : Bool) → slice_get set.old place ≡ Some was → slice_get set.new place ≡ Some (was || has_name ids.now place) }
{
    for id in ids {
        set.add(*id);
    }
}

/// Marked names, and in which order they were marked.
#[derive(Drop)]
struct Marking {
    marked: NameSet,
    names: Vec<u32>,
}

impl Model for Marking {
    ghost use Rattle.reg_closure.specs.Marking.{Marked};

    ghost Value = { Marked };

    ghost view = { λ m. record { marked = m.marked; names = m.names.items } };
}

impl Marking {
    /// No name below a count is marked.
    fn new(alloc: Global, count: u32) -> Result<Marking, Memory>
        ensures marking { IfOk result IsMarking }
        ensures count { IfOk result (λ m. length m.marked ≡ count) }
        ensures none { IfOk result (λ m. (place : ℕ) → IsIn m.marked place → ⊥) }
    {
        Ok(Marking {
            marked: NameSet::new(alloc, count)?,
            names: Vec::new(alloc),
        })
    }

    /// Marks the names that are in the one set and not in the other.
    fn mark_kept(&mut self, count: u32, required: &NameSet, removed: &NameSet) -> Result<(), Memory>
        requires marking { IsMarking self.old }
        requires count { length self.old.marked ≡ count }
        requires required { length required.now ≡ count }
        requires removed { length removed.now ≡ count }
        ensures { OnOk result (Marks (λ place. IsIn required.now place × (slice_get removed.now place ≡ Some false)) self.old self.new) }
    {
        for name in 0..count {
            if required.has(NameId(name)) && !removed.has(NameId(name)) {
                self.mark(name)?;
            }
        }
        Ok(())
    }

    /// Marks what a name names.
    fn mark_named(&mut self, r: &Registry, name: u32) -> Result<(), Memory>
        requires marking { IsMarking self.old }
        requires count { length self.old.marked ≡ length r.now.names }
        requires within { name < length r.now.names }
        ensures { OnOk result (Marks (Names r.now.rows name) self.old self.new) }
    {
        for id in r.row(NameId(name)).named.as_slice() {
            self.mark(id.0)?;
        }
        Ok(())
    }

    /// Marks a name, if it isn't yet.
    fn mark(&mut self, name: u32) -> Result<(), Memory>
        requires marking { IsMarking self.old }
        requires within { name < length self.old.marked }
        ensures { OnOk result (Marks (λ place. place ≡ name) self.old self.new) }
    {
        if !self.marked.has(NameId(name)) {
            self.marked.add(NameId(name));
            self.names.push(name)?;
        }
        Ok(())
    }

    /// The name that was marked at a place.
    fn name(&self, place: usize) -> Option<u32>
        ensures { result ≡ slice_get self.now.names place }
    {
        self.names.get(place).copied()
    }

    /// The marked names.
    fn into_set(self) -> NameSet
        ensures { result ≡ self.marked }
    {
        let Marking { marked, names: _ } = self;
        marked
    }
}
