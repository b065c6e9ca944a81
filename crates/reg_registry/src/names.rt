//! Tables of names that are filled one after another.
ghost use Rattle.std.specs.Prelude.{◌≡◌, ◌≤◌, length, OnOk};
ghost use Rattle.vkb_formula.specs.Names.{most_names, with_name};

use vkb_bytes::Memory;
use vkb_formula::{NameFault, NameTable};

/// Puts a name into a table that has room for it. It stands last where it is new.
pub fn put_name(names: &mut NameTable, name: &[u8]) -> Result<(), Memory>
    requires { length (with_name name.now names.old) ≤ most_names }
    ensures { OnOk result (names.new ≡ with_name name.now names.old) }
{
    match names.intern(name) {
        Ok(_) => Ok(()),
        Err(NameFault::Memory) => Err(Memory),
        Err(NameFault::Full) => unreachable!(),
    }
}
