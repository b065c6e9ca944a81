//! The rows of a registry that has no faults, from its forms.
ghost use Rattle.std.specs.Prelude.{◌≡◌, ◌<◌, All, IfOk, Some, length, map, slice_get};
ghost use Rattle.reg_registry.specs.Naming.{most_bytes};
ghost use Rattle.reg_forms.specs.Sizes.{AreSmall};
ghost use Rattle.reg_tables.specs.Bits.{Readings, atom_of, bits_of};
ghost use Rattle.reg_tables.specs.Values.{AreValues};
ghost use Rattle.reg_tables.specs.Words.{AreReadings};
ghost use Rattle.reg_rows.specs.Answer.{AreReadOnce, IsAccepted, IsAnswer};

mod bit_parts;
mod blocks;
mod declared;
pub(crate) mod names;
mod options;
mod uses;
mod values;

use crate::fault::RowFault;
use blocks::blocks;
use declared::declared_rows;
use names::{declared_names, option_names};
use options::option_rows;
use reg_registry::{Registry, first_circle};
use reg_tables::{Bit, Tables, Values};
use std::alloc::Global;
use vkb_bytes::{Bytes, Listed, Memory};
use vkb_formula::{NameId, NameTable};

/// The registry of these forms, or a circle of names.
pub(crate) fn build(
    alloc: Global,
    tables: &Tables,
    values: &Values,
    bits: &[Bit],
) -> Result<Registry, RowFault>
    requires small { AreSmall most_bytes tables.now }
    requires accepted { (readings : Readings) × IsAccepted tables.now readings }
    requires once { AreReadOnce tables.now }
    requires values { AreValues tables.now values.now.numbers.items values.now.lasts.items }
    requires bits { (readings : Readings) → AreReadings tables.now readings → map atom_of bits.now ≡ bits_of tables.now readings }
    ensures { IsAnswer tables.now result }
{
    let names = declared_names(alloc, tables)?;
    let rows = declared_rows(alloc, tables, values, &names)?;
    if let Some(places) = first_circle(alloc, &rows)? {
        let names = names_at(alloc, &names, &places)?;
        return Err(RowFault::NamingCycle {
            names: Listed::from_vec(names),
        });
    }
    let options = option_names(alloc, tables, bits)?;
    let asked = option_rows(alloc, tables, &names, &options, bits)?;
    let listed = blocks(alloc, tables, &names, &options)?;
    let tags = copies(alloc, tables.forms().tags.as_slice())?;
    Ok(Registry::from_parts(names, rows, options, asked, listed, tags))
}

/// The names at these places of a table.
fn names_at(alloc: Global, names: &NameTable, places: &[u32]) -> Result<Vec<Bytes>, Memory>
    requires { All (λ place. place < length names.now) places.now }
    ensures { IfOk result (λ found. map Some found.items ≡ map (slice_get names.now) places.now) }
{
    let mut found = Vec::new(alloc);
    for place in places {
        found.push(Bytes::from_slice(alloc, names.name(NameId(*place)))?)?;
    }
    Ok(found)
}

/// Copies of texts.
fn copies(alloc: Global, texts: &[Bytes]) -> Result<Vec<Bytes>, Memory>
    ensures { IfOk result (λ made. made.items ≡ texts.now) }
{
    let mut made = Vec::new(alloc);
    for text in texts {
        made.push(Bytes::from_slice(alloc, text.as_slice())?)?;
    }
    Ok(made)
}
