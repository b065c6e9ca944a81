//! Names that are counted up to what a table holds.
ghost use Rattle.std.specs.Prelude.{◌≡◌, ◌∷◌, ◌++◌, [], List, IfOk};
ghost use Rattle.std.specs.Option.{option_to_list};
ghost use Rattle.reg_tables.specs.Bits.{Atom};
ghost use Rattle.reg_tables.specs.Counts.{IsCounted};

use reg_forms::{Fault, RowCode};
use std::alloc::Global;
use vkb_bytes::{Bytes, Memory};
use vkb_formula::Names;

/// The most names that a table holds.
pub(crate) const MOST_NAMES: usize = 1_048_576;

/// Different names, and the fault of the first that is one too many.
#[derive(Drop)]
pub(crate) struct Counted {
    pub(crate) names: Names,
    pub(crate) past: Option<Fault>,
}

impl Counted {
    /// No names. It takes no memory.
    pub(crate) fn new(alloc: Global) -> Counted
        ensures { IsCounted [] result.names result.past }
    {
        Counted {
            names: Names::new(alloc),
            past: None,
        }
    }

    /// Counts a name, which the element at a place has.
    pub(crate) fn put(&mut self, alloc: Global, place: u32, name: &[u8]) -> Result<(), Memory>
        ensures { IfOk result (λ _. (named : List Atom) → IsCounted named self.old.names self.old.past
            → IsCounted (named ++ (place, name.now) ∷ []) self.new.names self.new.past) }
    {
        let count = self.names.len();
        let at = self.names.intern(name)?;
        if at != count || count != MOST_NAMES {
            return Ok(());
        }
        self.past = Some(Fault {
            code: RowCode::NameLimit,
            at: place,
            word: Bytes::from_slice(alloc, name)?,
        });
        Ok(())
    }

    /// Puts the fault, if there is one, behind others.
    pub(crate) fn put_past(self, faults: &mut Vec<Fault>) -> Result<(), Memory>
        ensures { IfOk result (λ _. faults.new.items ≡ faults.old.items ++ option_to_list self.past) }
    {
        let Counted {
            names: _names,
            past,
        } = self;
        if let Some(fault) = past {
            faults.push(fault)?;
        }
        Ok(())
    }
}
