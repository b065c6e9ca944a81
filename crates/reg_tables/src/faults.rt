//! Faults, one behind another.
ghost use Rattle.std.specs.Prelude.{◌≡◌, ◌++◌, ◌∷◌, [], IfOk, true};
ghost use Rattle.reg_tables.specs.Wrong.{fault_if};

use reg_forms::{Fault, RowCode};
use std::alloc::Global;
use vkb_bytes::{Bytes, Memory};

/// Puts a fault behind others.
pub fn put_fault(
    alloc: Global,
    code: RowCode,
    at: u32,
    word: &[u8],
    faults: &mut Vec<Fault>,
) -> Result<(), Memory>
    ensures { IfOk result (λ _. faults.new.items ≡ faults.old.items ++ fault_if true code at word.now) }
{
    let word = Bytes::from_slice(alloc, word)?;
    faults.push(Fault { code, at, word })?;
    Ok(())
}
