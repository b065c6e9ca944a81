//! A registry that declares nothing.
ghost use Rattle.std.specs.Prelude.{◌≡◌, ◌≤◌, true, All, IfOk, length, map};
ghost use Rattle.vkb_formula.specs.Names.{AreDifferent, most_names};
ghost use Rattle.reg_registry.specs.Words.{is_name};
ghost use Rattle.reg_registry.specs.Rows.{bare_rows, free_option};

use crate::names::put_name;
use crate::registry::{OptionRow, Registry};
use std::alloc::Global;
use vkb_bytes::{Bytes, Memory};
use vkb_formula::{Formula, NameTable};

/// A registry without names, rows and blocks, whose options ask for nothing.
pub(crate) fn bare_registry(alloc: Global, options: &[Bytes]) -> Result<Registry, Memory>
    requires few { length options.now ≤ most_names }
    requires differ { AreDifferent options.now }
    requires named { All (λ name. is_name name ≡ true) options.now }
    ensures { IfOk result (λ r. r ≡ bare_rows options.now) }
{
    let names = option_table(alloc, options)?;
    let rows = free_options(alloc, options)?;
    Ok(Registry::from_parts(
        NameTable::new(alloc),
        Vec::new(alloc),
        names,
        rows,
        Vec::new(alloc),
        Vec::new(alloc),
    ))
}

/// The table of these names.
fn option_table(alloc: Global, options: &[Bytes]) -> Result<NameTable, Memory>
    requires few { length options.now ≤ most_names }
    requires differ { AreDifferent options.now }
    ensures { IfOk result (λ names. names ≡ options.now) }
{
    let mut names = NameTable::new(alloc);
    for option in options {
        put_name(&mut names, option.as_slice())?;
    }
    Ok(names)
}

/// A row that asks for nothing, for each of these options.
fn free_options(alloc: Global, options: &[Bytes]) -> Result<Vec<OptionRow>, Memory>
    ensures { IfOk result (λ rows. rows.items ≡ map (λ name. free_option) options.now) }
{
    let mut rows = Vec::new(alloc);
    for _ in options {
        rows.push(OptionRow {
            version: None,
            depends: Formula::Always,
            bit: None,
        })?;
    }
    Ok(rows)
}
