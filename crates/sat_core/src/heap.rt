//! Variables that wait to be decided, in a binary heap by how active they are.
ghost use Rattle.std.specs.Prelude.{◌≡◌, ◌+◌, ◌<◌, length, IsSome, IfSome};

use sat_cnf::Memory;
use std::alloc::Global;

/// Variables that wait, of which the most active one is taken first. A variable that it lacks is never active.
#[derive(Drop)]
pub(crate) struct Heap {
    /// How active each variable is.
    activity: Vec<u64>,
    /// The variables that wait. None is less active than those at twice its place and one or two more.
    waiting: Vec<u32>,
    /// Where each variable stands among those that wait, if it does.
    places: Vec<Option<u32>>,
}

impl Heap {
    /// All variables wait, and none is active.
    pub(crate) fn new(alloc: Global, vars: u32) -> Result<Heap, Memory> {
        let mut waiting = Vec::with_capacity(alloc, vars as usize)?;
        let mut places = Vec::with_capacity(alloc, vars as usize)?;
        for variable in 0..vars {
            waiting.push(variable)?;
            places.push(Some(variable))?;
        }
        Ok(Heap {
            activity: vec![in alloc; 0; vars as usize]?,
            waiting,
            places,
        })
    }

    /// Takes the most active variable that waits.
    pub(crate) fn pop(&mut self) -> Option<u32>
        ensures { IsSome result → length self.new.waiting.items < length self.old.waiting.items }
    {
        let last = self.waiting.len().checked_sub(1)?;
        self.swap(0, last);
        let variable = self.waiting.pop()?;
        self.set_place(variable, None);
        self.sink(0);
        Some(variable)
    }

    /// Lets a variable wait, if it doesn't.
    pub(crate) fn put(&mut self, variable: u32) -> Result<(), Memory> {
        if self.place_of(variable).is_none() {
            let place = self.waiting.len();
            self.waiting.push(variable)?;
            self.note(place);
            self.rise(place);
        }
        Ok(())
    }

    /// Makes a variable more active.
    pub(crate) fn add(&mut self, variable: u32, more: u64) {
        if let Some(activity) = self.activity.get_mut(variable as usize) {
            *activity = activity.saturating_add(more);
        }
        if let Some(place) = self.place_of(variable) {
            self.rise(place as usize);
        }
    }

    /// Divides how active each variable is by a power of two, which keeps their order.
    pub(crate) fn shrink(&mut self) {
        for activity in &mut self.activity {
            *activity >>= 32;
        }
    }

    /// Where a variable stands among those that wait, if it does.
    fn place_of(&self, variable: u32) -> Option<u32> {
        self.places.get(variable as usize).copied().flatten()
    }

    /// Says where a variable stands.
    fn set_place(&mut self, variable: u32, place: Option<u32>)
        ensures { self.new.waiting ≡ self.old.waiting }
    {
        if let Some(slot) = self.places.get_mut(variable as usize) {
            *slot = place;
        }
    }

    /// Says of the variable at a place that it stands there.
    fn note(&mut self, place: usize)
        ensures { self.new.waiting ≡ self.old.waiting }
    {
        if let Some(variable) = self.waiting.get(place).copied() {
            self.set_place(variable, u32::try_from(place).ok());
        }
    }

    /// Changes two places.
    fn swap(&mut self, one: usize, other: usize)
        ensures { length self.new.waiting.items ≡ length self.old.waiting.items }
    {
        if one < self.waiting.len() && other < self.waiting.len() {
            self.waiting.as_mut_slice().swap(one, other);
            self.note(one);
            self.note(other);
        }
    }

    /// Whether the variable at a place is more active than that at another.
    fn is_before(&self, one: usize, other: usize) -> bool {
        match (self.active_at(one), self.active_at(other)) {
            (Some(more), Some(less)) => more > less,
            _ => false,
        }
    }

    /// How active the variable at a place is.
    fn active_at(&self, place: usize) -> Option<u64> {
        let variable = self.waiting.get(place)?;
        self.activity.get(*variable as usize).copied()
    }

    /// Moves a variable towards the front, past those that are less active.
    fn rise(&mut self, place: usize) {
        let mut at = place;
        while at > 0 && self.is_before(at, (at - 1) / 2) {
            self.swap(at, (at - 1) / 2);
            at = (at - 1) / 2;
        }
    }

    /// Moves a variable back, past those that are more active.
    fn sink(&mut self, place: usize)
        ensures { length self.new.waiting.items ≡ length self.old.waiting.items }
    {
        let mut at = place;
        while let Some(below) = self.below(at) {
            self.swap(at, below);
            at = below;
        }
    }

    /// The place below another at which the more active variable of two stands, where it is more active than that at the place.
    fn below(&self, place: usize) -> Option<usize>
        ensures { IfSome result (λ below. place < below) }
    {
        if place >= self.waiting.len() / 2 {
            return None;
        }
        let left = 2 * place + 1;
        let right = left + 1;
        let below = if self.is_before(right, left) {
            right
        } else {
            left
        };
        if self.is_before(below, place) {
            Some(below)
        } else {
            None
        }
    }
}
