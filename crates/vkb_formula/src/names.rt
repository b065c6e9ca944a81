ghost use Rattle.std.specs.Prelude.{◌≡◌, ◌++◌, [], ◌∷◌, ◌+◌, ◌<◌, List, ℕ, length, slice_get, Some, None, IfSome, IfNone, IfOk, OnOk, OnErr, map};
ghost use Rattle.vkb_formula.specs.Names.{place_of, with_name, AreDifferent};

use indexmap::IndexSet;
use std::alloc::Global;
use std::marker::Model;
use vkb_bytes::Memory;

/// Different names, each at the place at which it was first put in, from 0. Their number has no limit. A name is found by
/// its hash.
#[derive(Drop)]
pub struct Names {
    names: IndexSet<Vec<u8>>,
}

impl Model for Names {
    ghost use Rattle.std.specs.Prelude.{List, ℕ, map};
    ghost use Rattle.vkb_formula.specs.Names.{AreDifferent};

    ghost Value = { List (List ℕ) };

    ghost view = { λ t. map (λ name. name.items) t.names.keys };

    ghost invariant = { λ t. AreDifferent (map (λ name. name.items) t.names.keys) };
}

impl Names {
    /// An empty table. It takes no memory.
    pub fn new(alloc: Global) -> Names
        ensures { result ≡ [] }
    {
        Names {
            names: IndexSet::new(alloc),
        }
    }

    /// The number of names, which all differ. It takes no memory.
    pub fn len(&self) -> usize
        ensures count { result ≡ length self.now }
        ensures different { AreDifferent self.now }
    {
        self.names.len()
    }

    /// The place of a name, which is put last if it is new, and takes memory then. An `Err` leaves the table as it was.
    #[tactic(auto, using(crate::proofs::NameLemmas::place_facts))]
    pub fn intern(&mut self, name: &[u8]) -> Result<usize, Memory>
        ensures table { OnOk result (self.new ≡ with_name name.now self.old) }
        ensures place { IfOk result (λ place. place_of name.now self.new ≡ Some place) }
        ensures held { IfOk result (λ place. slice_get self.new place ≡ Some name.now) }
        ensures within { IfOk result (λ place. place < length self.new) }
        ensures keeps { OnOk result ((other : List ℕ) (place : ℕ)
            → place_of other self.old ≡ Some place → place_of other self.new ≡ Some place) }
        ensures different { AreDifferent self.new }
        ensures err { OnErr result (self.new ≡ self.old) }
    {
        if let Some(place) = place_in(&self.names, name) {
            return Ok(place);
        }
        let place = put_last(&mut self.names, name)?;
        Ok(place)
    }

    /// The place of a name, if it is held. It takes no memory.
    #[tactic(auto, using(crate::proofs::NameLemmas::place_facts))]
    pub fn find(&self, name: &[u8]) -> Option<usize>
        ensures place { result ≡ place_of name.now self.now }
        ensures found { IfSome result (λ place. slice_get self.now place ≡ Some name.now) }
        ensures within { IfSome result (λ place. place < length self.now) }
        ensures absent { IfNone result ((place : ℕ) → slice_get self.now place ≡ Some name.now → ⊥) }
        ensures different { AreDifferent self.now }
    {
        let place = place_in(&self.names, name)?;
        Some(place)
    }

    /// The name at a place. It takes no memory.
    pub fn name(&self, place: usize) -> &[u8]
        requires { place < length self.now }
        ensures held { slice_get self.now place ≡ Some result.now }
        ensures different { AreDifferent self.now }
    {
        self.names.as_slice()[place].as_slice()
    }
}

/// The place of a name in a set.
fn place_in(names: &IndexSet<Vec<u8>>, name: &[u8]) -> Option<usize>
    ensures place { result ≡ place_of name.now (map (λ held. held.items) names.now.keys) }
    ensures within { IfSome result (λ place. place < length names.now.keys) }
{
    names.get_index_of(name)
}

/// Puts a new name last, and answers its place.
fn put_last(names: &mut IndexSet<Vec<u8>>, name: &[u8]) -> Result<usize, Memory>
    requires { place_of name.now (map (λ held. held.items) names.old.keys) ≡ None }
    ensures names { OnOk result (map (λ held. held.items) names.new.keys
        ≡ map (λ held. held.items) names.old.keys ++ name.now ∷ []) }
    ensures count { OnOk result (length names.new.keys ≡ length names.old.keys + 1) }
    ensures place { IfOk result (λ place. place ≡ length names.old.keys) }
    ensures found { IfOk result (λ place. place_of name.now (map (λ held. held.items) names.new.keys) ≡ Some place) }
    ensures different { OnOk result (AreDifferent (map (λ held. held.items) names.new.keys)) }
    ensures err { OnErr result (names.new.keys ≡ names.old.keys) }
{
    let alloc = *names.allocator();
    let owned = Vec::from_slice(alloc, name)?;
    let (place, _) = names.insert_full(owned)?;
    Ok(place)
}
