ghost use Rattle.std.specs.Prelude.{◌≡◌, ◌<◌, length, replicate, false, true, slice_set, slice_get, Some, IfOk};

use crate::name_table::NameId;
use std::alloc::Global;
use std::marker::Model;
use vkb_bytes::Memory;

/// A set of places of names. Contracts see it as a list that tells of each place whether it was added.
#[derive(Drop)]
pub struct NameSet {
    added: Vec<bool>,
}

impl Model for NameSet {
    ghost use Rattle.std.specs.Prelude.{List, Bool};

    ghost Value = { List Bool };

    ghost view = { λ s. s.added.items };
}

impl NameSet {
    /// The empty set of places below `count`.
    pub fn new(alloc: Global, count: u32) -> Result<NameSet, Memory>
        ensures { IfOk result (λ s. s ≡ replicate count false) }
    {
        let added = vec![in alloc; false; count as usize]?;
        Ok(NameSet { added })
    }

    /// Adds a place. It takes no memory.
    pub fn add(&mut self, id: NameId)
        requires { id.0 < length self.old }
        ensures { self.new ≡ slice_set self.old id.0 true }
    {
        self.added[id.0 as usize] = true;
    }

    /// Whether a place was added. It takes no memory.
    pub fn has(&self, id: NameId) -> bool
        requires { id.0 < length self.now }
        ensures { slice_get self.now id.0 ≡ Some result }
    {
        self.added[id.0 as usize]
    }
}
