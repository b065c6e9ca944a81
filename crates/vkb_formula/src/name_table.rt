ghost use Rattle.std.specs.Prelude.{◌≡◌, [], ◌<◌, ◌≤◌, ◌↔◌, List, ℕ, length, slice_get, Some, None, IfSome, IfNone, IfOk, OnOk, OnErr, IsErrOf, option_map};
ghost use Rattle.vkb_formula.specs.Names.{most_names, place_of, with_name, AreDifferent};

use crate::names::Names;
use std::alloc::Global;
use std::marker::Model;
use thiserror::Error;
use vkb_bytes::Memory;

/// The place of a name in a table, from 0.
#[derive(Clone, Copy, Debug, PartialEq, Eq, PartialOrd, Ord, Hash)]
pub struct NameId(pub u32);

/// Why a name wasn't put into a table.
#[derive(Debug, Drop, Error)]
pub enum NameFault {
    #[error("the table of names is full")]
    Full,
    #[error("out of memory")]
    Memory,
}

impl From<Memory> for NameFault {
    ghost use Rattle.std.specs.Prelude.{◌≡◌};
    ghost use Rattle.vkb_formula.specs.declared.name_table.NameFault.TheVariants.{Memory};

    ghost from_gives = { λ _ e. e ≡ Memory };

    fn from(_error: Memory) -> NameFault {
        NameFault::Memory
    }
}

/// The most names that a table holds.
const MOST_NAMES: usize = 1_048_576;

/// Different names, each at the place at which it was first put in. A name is found by its hash.
#[derive(Drop)]
pub struct NameTable {
    names: Names,
}

impl Model for NameTable {
    ghost use Rattle.std.specs.Prelude.{List, ℕ, length, ◌≤◌};
    ghost use Rattle.vkb_formula.specs.Names.{most_names};

    ghost Value = { List (List ℕ) };

    ghost view = { λ t. t.names };

    ghost invariant = { λ t. length t.names ≤ most_names };
}

impl NameTable {
    /// An empty table. It takes no memory.
    pub fn new(alloc: Global) -> NameTable
        ensures { result ≡ [] }
    {
        NameTable {
            names: Names::new(alloc),
        }
    }

    /// The number of names, which all differ.
    pub fn len(&self) -> u32
        ensures count { result ≡ length self.now }
        ensures few { result ≤ most_names }
        ensures different { AreDifferent self.now }
    {
        self.names.len() as u32
    }

    /// The place of a name, which is put last if it is new. An `Err` leaves the table as it was.
    ///
    /// `Full` where the name is new and 1,048,576 names are held.
    #[tactic(auto, using(crate::proofs::NameLemmas::place_facts))]
    pub fn intern(&mut self, name: &[u8]) -> Result<NameId, NameFault>
        ensures table { OnOk result (self.new ≡ with_name name.now self.old) }
        ensures place { IfOk result (λ id. place_of name.now self.new ≡ Some id.0) }
        ensures held { IfOk result (λ id. slice_get self.new id.0 ≡ Some name.now) }
        ensures keeps { OnOk result ((other : List ℕ) (place : ℕ)
            → place_of other self.old ≡ Some place → place_of other self.new ≡ Some place) }
        ensures different { AreDifferent self.new }
        ensures full { IsErrOf result NameFault.Full
            ↔ ((place_of name.now self.old ≡ None) × (length self.old ≡ most_names)) }
        ensures err { OnErr result (self.new ≡ self.old) }
    {
        if self.names.len() >= MOST_NAMES {
            return self.find(name).ok_or(NameFault::Full);
        }
        let place = self.names.intern(name)?;
        Ok(NameId(place as u32))
    }

    /// The place of a name, if it is held. It takes no memory.
    #[tactic(auto, using(crate::proofs::NameLemmas::place_facts))]
    pub fn find(&self, name: &[u8]) -> Option<NameId>
        ensures place { option_map (λ id. id.0) result ≡ place_of name.now self.now }
        ensures found { IfSome result (λ id. slice_get self.now id.0 ≡ Some name.now) }
        ensures absent { IfNone result ((place : ℕ) → slice_get self.now place ≡ Some name.now → ⊥) }
        ensures different { AreDifferent self.now }
    {
        let place = self.names.find(name)?;
        Some(NameId(place as u32))
    }

    /// The name at a place.
    pub fn name(&self, id: NameId) -> &[u8]
        requires { id.0 < length self.now }
        ensures held { slice_get self.now id.0 ≡ Some result.now }
        ensures different { AreDifferent self.now }
    {
        self.names.name(id.0 as usize)
    }
}
