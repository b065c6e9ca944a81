//! A walk along the names that each row names, which finds the first name on a circle (the path-based search for strongly connected
//! components of Purdom 1970 and Gabow 2000).
//!
//! Names are entered one behind the other on a path, which is cut into groups of names that lead to each other. Where a name names
//! one on the path, all groups from there on become one. A group that has nothing more ahead is done: its names lie on a circle where
//! there are two or more, or where the one names itself.
ghost use Rattle.std.specs.Prelude.{◌≡◌, ◌↔◌, ◌⊎◌, ℕ, ◌+◌, ◌<◌, ◌≤◌, ◌^◌, ◌++◌, ◌∷◌, [], true, false, length, map, take, drop, slice_get, Some, All, Contains, List, Ok, IfOk, OnOk, IsTrue, IsSomeAnd, MatchOption};
ghost use Rattle.vkb_bytes.specs.First.{IsFirst, first_of};
ghost use Rattle.reg_registry.specs.Naming.{IsOnCircle, Names};
ghost use Rattle.reg_registry.specs.Walks.{IsAhead, IsDone, IsFirstWith, IsFrom, IsNext, IsPast, IsSpent, IsSpentAt, IsWalk, NoneBehind, steps_of, with_done};
ghost use Rattle.reg_registry.specs.declared.circles.groups.Group.{Group};
ghost use Rattle.reg_registry.specs.declared.circles.walk.Mark.TheVariants.{Unseen, OnPath};
ghost use Rattle.reg_registry.specs.declared.circles.walk.Next.TheVariants.{End};

use crate::circles::groups::{Group, Groups};
use crate::registry::Row;
use std::alloc::Global;
use std::marker::Model;
use vkb_bytes::Memory;
use vkb_formula::NameId;

/// How far a walk has come with a name.
#[derive(Clone, Copy)]
pub(crate) enum Mark {
    Unseen,
    /// It stands on the path at this place.
    OnPath(usize),
    /// All names to which it leads are done too.
    Done,
}

/// What a walk does next.
#[derive(Clone, Copy)]
pub(crate) enum Next {
    /// The name ahead comes to the path.
    Enter(u32),
    /// The name ahead stands on the path at this place, so the groups from there on are one.
    Join(usize),
    /// The name ahead is done.
    Skip,
    /// The last group is done.
    Close,
    End,
}

/// A walk along the names that each row names.
#[derive(Drop)]
struct Walk {
    /// A mark for each name.
    marks: Vec<Mark>,
    path: Vec<u32>,
    /// Names that are still to be looked at, from the last on.
    ahead: Vec<u32>,
    groups: Groups,
    /// The first name on a circle among those that are done.
    first: Option<u32>,
}

impl Model for Walk {
    ghost use Rattle.reg_registry.specs.Walks.{Walked};

    ghost Value = { Walked };

    ghost view = { λ w. record { marks = w.marks.items; path = w.path.items; ahead = w.ahead.items; groups = w.groups; first = w.first } };
}

/// The first name that lies on a circle.
pub(crate) fn first_on_circle(alloc: Global, rows: &[Row]) -> Result<Option<u32>, Memory>
    requires ids { All (λ row. All (λ id. id.0 < length rows.now) row.named) rows.now }
    requires few { length rows.now < 2 ^ 32 }
    ensures { IfOk result (λ found. MatchOption found
        ((place : ℕ) → IsOnCircle rows.now place → ⊥)
        (IsFirst (IsOnCircle rows.now))) }
{
    let mut walk = Walk::new(alloc, rows)?;
    while walk.step(rows)? {}
    Ok(walk.first)
}

impl Walk {
    /// No name is seen, and all are ahead.
    fn new(alloc: Global, rows: &[Row]) -> Result<Walk, Memory>
        requires few { length rows.now < 2 ^ 32 }
        ensures { IfOk result (IsWalk rows.now) }
    {
        Ok(Walk {
            marks: vec![in alloc; Mark::Unseen; rows.len()]?,
            path: Vec::new(alloc),
            ahead: numbers_below(alloc, rows.len() as u32)?,
            groups: Groups::new(alloc),
            first: None,
        })
    }

    /// Goes one step, or says that there is none.
    fn step(&mut self, rows: &[Row]) -> Result<bool, Memory>
        requires ids { All (λ row. All (λ id. id.0 < length rows.now) row.named) rows.now }
        requires walk { IsWalk rows.now self.old }
        ensures walk { OnOk result (IsWalk rows.now self.new) }
        ensures fewer { result ≡ Ok true → steps_of rows.now self.new < steps_of rows.now self.old }
        ensures over { result ≡ Ok false → IsNext self.new End }
    {
        match self.next(rows) {
            Next::Enter(name) => {
                self.enter(rows, name)?;
                Ok(true)
            }
            Next::Join(place) => {
                self.join(rows, place);
                self.skip(rows);
                Ok(true)
            }
            Next::Skip => {
                self.skip(rows);
                Ok(true)
            }
            Next::Close => {
                self.close(rows);
                Ok(true)
            }
            Next::End => Ok(false),
        }
    }

    /// What is to be done next.
    fn next(&self, rows: &[Row]) -> Next
        requires walk { IsWalk rows.now self.now }
        ensures { IsNext self.now result }
    {
        if self.is_spent() {
            return Next::Close;
        }
        match self.ahead.last() {
            None => Next::End,
            Some(name) => match self.marks[*name as usize] {
                Mark::Unseen => Next::Enter(*name),
                Mark::OnPath(place) => Next::Join(place),
                Mark::Done => Next::Skip,
            },
        }
    }

    /// Whether the last group has nothing more ahead.
    fn is_spent(&self) -> bool
        ensures { IsTrue result ↔ IsSpent self.now }
    {
        match self.groups.last() {
            Some(group) => group.ahead == self.ahead.len(),
            None => false,
        }
    }

    /// Puts a name on the path, as a group of its own, and ahead what it names.
    fn enter(&mut self, rows: &[Row], name: u32) -> Result<(), Memory>
        requires ids { All (λ row. All (λ id. id.0 < length rows.now) row.named) rows.now }
        requires walk { IsWalk rows.now self.old }
        requires ahead { IsAhead self.old name }
        requires unseen { slice_get self.old.marks name ≡ Some Unseen }
        ensures walk { OnOk result (IsWalk rows.now self.new) }
        ensures fewer { OnOk result (steps_of rows.now self.new < steps_of rows.now self.old) }
    {
        let group = Group {
            start: self.path.len(),
            ahead: self.ahead.len(),
        };
        self.marks[name as usize] = Mark::OnPath(group.start);
        self.path.push(name)?;
        self.groups.push(group)?;
        put_ahead(&mut self.ahead, &rows[name as usize])
    }

    /// Makes one group of those that stand on the path from a place on, at which the name ahead stands.
    fn join(&mut self, rows: &[Row], place: usize)
        requires walk { IsWalk rows.now self.old }
        requires ahead { (name : ℕ) × IsAhead self.old name × (slice_get self.old.marks name ≡ Some (OnPath place)) }
        ensures walk { IsWalk rows.now self.new }
        ensures ahead { (name : ℕ) × IsAhead self.new name × (slice_get self.new.marks name ≡ Some (OnPath place)) }
        ensures joined { NoneBehind self.new.groups place }
        ensures no_more { steps_of rows.now self.new ≤ steps_of rows.now self.old }
    {
        while self.begins_behind(place) {
            self.join_last(rows, place);
        }
    }

    /// Whether the last group begins behind a place.
    fn begins_behind(&self, place: usize) -> bool
        ensures behind { result ≡ true → (group : Group) × (more : List Group) × (self.now.groups ≡ group ∷ more) × (place < group.start) }
        ensures none { result ≡ false → MatchOption (first_of self.now.groups) (self.now.groups ≡ []) (λ group. group.start ≤ place) }
    {
        match self.groups.last() {
            Some(group) => group.start > place,
            None => false,
        }
    }

    /// Makes one group of the last, which begins behind the place of the name ahead, and the one before it.
    fn join_last(&mut self, rows: &[Row], place: usize)
        requires walk { IsWalk rows.now self.old }
        requires ahead { (name : ℕ) × IsAhead self.old name × (slice_get self.old.marks name ≡ Some (OnPath place)) }
        requires behind { (group : Group) × (more : List Group) × (self.old.groups ≡ group ∷ more) × (place < group.start) }
        ensures walk { IsWalk rows.now self.new }
        ensures ahead { (name : ℕ) × IsAhead self.new name × (slice_get self.new.marks name ≡ Some (OnPath place)) }
        ensures fewer { length self.new.groups < length self.old.groups }
        ensures no_more { steps_of rows.now self.new ≤ steps_of rows.now self.old }
    {
        self.groups.pop();
    }

    /// Leaves the name ahead, which is done or stands in the last group.
    fn skip(&mut self, rows: &[Row])
        requires walk { IsWalk rows.now self.old }
        requires ahead { (name : ℕ) × IsAhead self.old name × IsPast self.old name }
        ensures walk { IsWalk rows.now self.new }
        ensures fewer { steps_of rows.now self.new < steps_of rows.now self.old }
    {
        self.ahead.pop();
    }

    /// The last group has nothing more ahead, so its names are done.
    fn close(&mut self, rows: &[Row])
        requires walk { IsWalk rows.now self.old }
        requires spent { IsSpent self.old }
        ensures walk { IsWalk rows.now self.new }
        ensures fewer { steps_of rows.now self.new < steps_of rows.now self.old }
    {
        if let Some(group) = self.groups.last() {
            self.first = self.first_with(rows, group.start);
            self.groups.pop();
            finish(&mut self.path, &mut self.marks, group.start);
        }
    }

    /// The first name on a circle, with those of the last group.
    fn first_with(&self, rows: &[Row], start: usize) -> Option<u32>
        requires walk { IsWalk rows.now self.now }
        requires spent { IsSpentAt self.now start }
        ensures { IsFirstWith rows.now self.now start result }
    {
        if self.is_circular(rows, start) {
            least(&self.path[start..], self.first)
        } else {
            self.first
        }
    }

    /// Whether the names of the last group lie on circles. All of them do, or none.
    fn is_circular(&self, rows: &[Row], start: usize) -> bool
        requires walk { IsWalk rows.now self.now }
        requires spent { IsSpentAt self.now start }
        ensures all { result ≡ true → (name : ℕ) → IsFrom self.now.path start name → IsOnCircle rows.now name }
        ensures none { result ≡ false → (name : ℕ) → IsFrom self.now.path start name → ¬ IsOnCircle rows.now name }
    {
        if self.path.len() - start > 1 {
            return true;
        }
        let name = self.path[start];
        names(rows, name, name)
    }
}

/// The numbers from 0 up to another.
fn numbers_below(alloc: Global, end: u32) -> Result<Vec<u32>, Memory>
    ensures below { IfOk result (λ numbers. All (λ number. number < end) numbers.items) }
    ensures each { IfOk result (λ numbers. (number : ℕ) → number < end → Contains numbers.items number) }
{
    let mut numbers = Vec::with_capacity(alloc, end as usize)?;
    for number in 0..end {
        numbers.push(number)?;
    }
    Ok(numbers)
}

/// Puts ahead what a row names.
fn put_ahead(ahead: &mut Vec<u32>, row: &Row) -> Result<(), Memory>
    ensures { OnOk result (ahead.new.items ≡ ahead.old.items ++ map (λ id. id.0) row.now.named) }
{
    for id in row.named.as_slice() {
        ahead.push(id.0)?;
    }
    Ok(())
}

/// Whether the one name names the other.
pub(crate) fn names(rows: &[Row], name: u32, other: u32) -> bool
    requires { name < length rows.now }
    ensures { IsTrue result ↔ Names rows.now name other }
{
    rows[name as usize]
        .named
        .as_slice()
        .contains(&NameId(other))
}

/// The least of some names and one that was found before.
fn least(names: &[u32], first: Option<u32>) -> Option<u32>
    ensures among { (name : ℕ) → Contains names.now name → IsSomeAnd result (λ least. least ≤ name) }
    ensures before { (name : ℕ) → first ≡ Some name → IsSomeAnd result (λ least. least ≤ name) }
    ensures one { (name : ℕ) → result ≡ Some name → Contains names.now name ⊎ (first ≡ Some name) }
{
    let mut least = first;
    for name in names {
        least = lesser(least, *name);
    }
    least
}

/// The lesser of a name and one that was found before.
fn lesser(first: Option<u32>, name: u32) -> Option<u32>
    ensures here { IsSomeAnd result (λ least. least ≤ name) }
    ensures before { (other : ℕ) → first ≡ Some other → IsSomeAnd result (λ least. least ≤ other) }
    ensures one { (other : ℕ) → result ≡ Some other → (name ≡ other) ⊎ (first ≡ Some other) }
{
    match first {
        Some(least) => Some(least.min(name)),
        None => Some(name),
    }
}

/// Takes the names off a path that stand from a place on: they are done.
fn finish(path: &mut Vec<u32>, marks: &mut Vec<Mark>, start: usize)
    requires start { start ≤ length path.old.items }
    requires known { All (λ name. name < length marks.old.items) path.old.items }
    ensures path { path.new.items ≡ take start path.old.items }
    ensures marks { marks.new.items ≡ with_done (drop start path.old.items) marks.old.items }
{
    while path.len() > start {
        if let Some(name) = path.pop() {
            marks[name as usize] = Mark::Done;
        }
    }
}
