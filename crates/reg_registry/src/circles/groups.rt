//! The groups of names into which a path is cut.
ghost use Rattle.std.specs.Prelude.{◌≡◌, ◌∷◌, [], IfOk, OnOk, MatchOption};
ghost use Rattle.vkb_bytes.specs.First.{first_of};

use std::alloc::Global;
use std::marker::Model;
use vkb_bytes::Memory;

/// Names on a path that lead to each other.
#[derive(Clone, Copy)]
pub(crate) struct Group {
    /// Where it begins on the path.
    pub(crate) start: usize,
    /// How many names were ahead before any that it names.
    pub(crate) ahead: usize,
}

/// The groups of a path. Contracts see them from the last on.
#[derive(Drop)]
pub(crate) struct Groups {
    groups: Vec<Group>,
}

impl Model for Groups {
    ghost use Rattle.std.specs.Prelude.{List, reverse};
    ghost use Rattle.reg_registry.specs.declared.circles.groups.Group.{Group};

    ghost Value = { List Group };

    ghost view = { λ g. reverse g.groups.items };
}

impl Groups {
    pub(crate) fn new(alloc: Global) -> Groups
        ensures { result ≡ [] }
    {
        Groups {
            groups: Vec::new(alloc),
        }
    }

    pub(crate) fn last(&self) -> Option<Group>
        ensures { result ≡ first_of self.now }
    {
        self.groups.last().copied()
    }

    pub(crate) fn push(&mut self, group: Group) -> Result<(), Memory>
        ensures { OnOk result (self.new ≡ group ∷ self.old) }
    {
        self.groups.push(group)?;
        Ok(())
    }

    pub(crate) fn pop(&mut self) -> Option<Group>
        ensures { MatchOption result ((self.old ≡ []) × (self.new ≡ [])) (λ group. self.old ≡ group ∷ self.new) }
    {
        self.groups.pop()
    }
}
