//! Which members tell the length of others.
ghost use Rattle.std.specs.Prelude.{◌≡◌, IfOk};
ghost use Rattle.vu_implicit.specs.Lengths.{HasLengths, HasNames, asks_for_length};
ghost use Rattle.vu_implicit.specs.Pointers.{has_length, is_length};

use reg_registry::Member;
use std::alloc::Global;
use std::marker::Model;
use vkb_bytes::Memory;
use vkb_formula::Names;

/// All members of an owner, with the names of all, and the lengths that tell of others than themselves.
#[derive(Drop)]
pub(crate) struct Lengths<'a> {
    members: &'a [Member],
    names: Names,
    lengths: Names,
}

impl<'a> Model for Lengths<'a> {
    ghost use Rattle.std.specs.Prelude.{List};
    ghost use Rattle.reg_registry.specs.declared.registry.Member.{Member};
    ghost use Rattle.vu_implicit.specs.Lengths.{AreLengths};

    ghost Value = { List Member };

    ghost view = { λ l. l.members.now };

    ghost invariant = { λ l. AreLengths l.members.now l.names l.lengths };
}

impl<'a> Lengths<'a> {
    pub(crate) fn new(alloc: Global, members: &'a [Member]) -> Result<Lengths<'a>, Memory>
        ensures { IfOk result (λ lengths. lengths ≡ members.now) }
    {
        Ok(Lengths {
            members,
            names: names_of(alloc, members)?,
            lengths: lengths_of(alloc, members)?,
        })
    }

    /// Whether the `len` of a member is the name of another. It takes no memory.
    pub(crate) fn has_length(&self, m: &Member) -> bool
        ensures { result ≡ has_length self.now m.now }
    {
        m.len.as_slice() != m.name.as_slice() && self.names.find(m.len.as_slice()).is_some()
    }

    /// Whether a member is the `len` of another that is neither optional nor silent. It takes no memory.
    pub(crate) fn is_length(&self, m: &Member) -> bool
        ensures { result ≡ is_length self.now m.now }
    {
        self.lengths.find(m.name.as_slice()).is_some()
    }
}

/// The names of all members.
fn names_of(alloc: Global, members: &[Member]) -> Result<Names, Memory>
    ensures { IfOk result (HasNames members.now) }
{
    let mut names = Names::new(alloc);
    for m in members {
        names.intern(m.name.as_slice())?;
    }
    Ok(names)
}

/// Each `len` of a member that is neither optional nor silent, where it isn't the member's own name.
fn lengths_of(alloc: Global, members: &[Member]) -> Result<Names, Memory>
    ensures { IfOk result (HasLengths members.now) }
{
    let mut lengths = Names::new(alloc);
    for m in members {
        if asks_for_length(m) {
            lengths.intern(m.len.as_slice())?;
        }
    }
    Ok(lengths)
}

/// Whether the member's `len` must not be 0, where it is another member.
fn asks_for_length(m: &Member) -> bool
    ensures { result ≡ asks_for_length m.now }
{
    !m.optional && !m.silent && m.len.as_slice() != m.name.as_slice()
}
