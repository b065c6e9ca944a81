//! Where each name stands first in a list of names.
ghost use Rattle.std.specs.Prelude.{◌≡◌, ◌∷◌, ◌++◌, [], List, ℕ, length, IfOk, slice_get};
ghost use Rattle.std.specs.Option.{option_and_then, option_copied};
ghost use Rattle.reg_tables.specs.Places.{AreFirstPlaces, place_in};

use std::alloc::Global;
use vkb_bytes::Memory;
use vkb_formula::Names;

/// A table from names to the places at which they stand first.
#[derive(Drop)]
pub(crate) struct Places {
    pub(crate) names: Names,
    pub(crate) places: Vec<usize>,
}

impl Places {
    /// The table of no names. It takes no memory.
    pub(crate) fn new(alloc: Global) -> Places
        ensures { AreFirstPlaces result.names result.places.items [] }
    {
        Places {
            names: Names::new(alloc),
            places: Vec::new(alloc),
        }
    }

    /// Puts in a name that stands behind those of the table, at this place.
    pub(crate) fn put(&mut self, name: &[u8], place: usize) -> Result<(), Memory>
        ensures { IfOk result (λ _. (names : List (List ℕ)) → length names ≡ place
            → AreFirstPlaces self.old.names self.old.places.items names
            → AreFirstPlaces self.new.names self.new.places.items (names ++ name.now ∷ [])) }
    {
        let count = self.names.len();
        if self.names.intern(name)? == count {
            self.places.push(place)?;
        }
        Ok(())
    }

    /// The place at which a name stands first.
    pub(crate) fn find(&self, name: &[u8]) -> Option<usize>
        ensures { result ≡ place_in self.now.names self.now.places.items name.now }
    {
        let at = self.names.find(name)?;
        if at < self.places.len() {
            Some(self.places[at])
        } else {
            None
        }
    }

    /// The thing at the place at which a name stands first.
    pub(crate) fn first<'a, T>(&self, things: &'a [T], name: &[u8]) -> Option<&'a T>
        ensures { option_copied result ≡ option_and_then (slice_get things.now)
            (place_in self.now.names self.now.places.items name.now) }
    {
        let at = self.find(name)?;
        things.get(at)
    }
}
