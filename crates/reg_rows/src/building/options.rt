//! The row of each option.
ghost use Rattle.std.specs.Prelude.{◌≡◌, ◌<◌, ◌^◌, ◌++◌, All, IfOk, length, map};
ghost use Rattle.reg_registry.specs.Naming.{most_bytes};
ghost use Rattle.reg_forms.specs.Sizes.{AreSmall};
ghost use Rattle.reg_tables.specs.Bits.{Readings, atom_of};
ghost use Rattle.reg_tables.specs.Tables.{extensions_in, features_in};
ghost use Rattle.reg_tables.specs.Words.{AreReadings};
ghost use Rattle.reg_rows.specs.Built.{AreOptions};
ghost use Rattle.reg_rows.specs.Rows.{bit_row, formula_at, names_in, option_names, option_row, option_rows_of};

use super::bit_parts::bit_parts;
use reg_forms::{Forms, OptionForm};
use reg_registry::OptionRow;
use reg_tables::{Bit, Tables};
use std::alloc::Global;
use vkb_bytes::{Bytes, Memory};
use vkb_formula::{ExprFault, Formula, NameId, NameTable, read_depends};

/// The rows of the options, in their order.
pub(crate) fn option_rows(
    alloc: Global,
    tables: &Tables,
    names: &NameTable,
    options: &NameTable,
    bits: &[Bit],
) -> Result<Vec<OptionRow>, Memory>
    requires small { AreSmall most_bytes tables.now }
    requires names { names.now ≡ names_in tables.now }
    requires options { (readings : Readings) → AreReadings tables.now readings → options.now ≡ option_names tables.now readings }
    requires bits { AreOptions tables.now bits.now }
    ensures { IfOk result (λ rows. (readings : Readings) → AreReadings tables.now readings → rows.items ≡ option_rows_of tables.now readings) }
{
    let mut rows = Vec::new(alloc);
    put_features(alloc, tables.forms(), options, &mut rows)?;
    put_extensions(alloc, tables.forms(), options, &mut rows)?;
    put_bits(alloc, names, bits, &mut rows)?;
    Ok(rows)
}

/// Puts the rows of the features behind others.
fn put_features(
    alloc: Global,
    forms: &Forms,
    options: &NameTable,
    rows: &mut Vec<OptionRow>,
) -> Result<(), Memory>
    requires { All (λ text. length text.text < 2 ^ 32) forms.now.texts }
    ensures { IfOk result (λ _. (readings : Readings) → AreReadings forms.now readings
        → rows.new.items ≡ rows.old.items ++ map (option_row options.now readings) (features_in forms.now)) }
{
    for option in forms.options.as_slice() {
        if option.version.is_some() {
            rows.push(option_row(alloc, forms, options, option)?)?;
        }
    }
    Ok(())
}

/// Puts the rows of the extensions behind others.
fn put_extensions(
    alloc: Global,
    forms: &Forms,
    options: &NameTable,
    rows: &mut Vec<OptionRow>,
) -> Result<(), Memory>
    requires { All (λ text. length text.text < 2 ^ 32) forms.now.texts }
    ensures { IfOk result (λ _. (readings : Readings) → AreReadings forms.now readings
        → rows.new.items ≡ rows.old.items ++ map (option_row options.now readings) (extensions_in forms.now)) }
{
    for option in forms.options.as_slice() {
        if option.version.is_none() {
            rows.push(option_row(alloc, forms, options, option)?)?;
        }
    }
    Ok(())
}

/// Puts the rows of bits behind others.
fn put_bits(
    alloc: Global,
    names: &NameTable,
    bits: &[Bit],
    rows: &mut Vec<OptionRow>,
) -> Result<(), Memory>
    ensures { IfOk result (λ _. rows.new.items ≡ rows.old.items ++ map (bit_row names.now) (map atom_of bits.now)) }
{
    for bit in bits {
        rows.push(bit_row(alloc, names, bit)?)?;
    }
    Ok(())
}

/// The row of a feature or an extension.
fn option_row(
    alloc: Global,
    forms: &Forms,
    options: &NameTable,
    option: &OptionForm,
) -> Result<OptionRow, Memory>
    requires { All (λ text. length text.text < 2 ^ 32) forms.now.texts }
    ensures { IfOk result (λ row. (readings : Readings) → AreReadings forms.now readings
        → row ≡ option_row options.now readings option.now) }
{
    Ok(OptionRow {
        version: option.version,
        depends: formula_at(alloc, forms, options, option.depends)?,
        bit: None,
    })
}

/// The formula of the text at a place, and of no text what is always true.
pub(crate) fn formula_at(
    alloc: Global,
    forms: &Forms,
    options: &NameTable,
    place: Option<usize>,
) -> Result<Formula, Memory>
    requires { All (λ text. length text.text < 2 ^ 32) forms.now.texts }
    ensures { IfOk result (λ formula. (readings : Readings) → AreReadings forms.now readings
        → formula ≡ formula_at options.now readings place) }
{
    let texts = forms.texts.as_slice();
    let Some(at) = place else {
        return Ok(Formula::Always);
    };
    if at >= texts.len() {
        return Ok(Formula::Always);
    }
    match read_depends(alloc, texts[at].text.as_slice(), options) {
        Ok(formula) => Ok(formula),
        Err(ExprFault::Memory) => Err(Memory),
        Err(ExprFault::BadExpression { .. }) => Ok(Formula::Always),
    }
}

/// The row of a bit.
fn bit_row(alloc: Global, names: &NameTable, bit: &Bit) -> Result<OptionRow, Memory>
    ensures { IfOk result (λ row. row ≡ bit_row names.now (atom_of bit.now)) }
{
    let (owner, member) = bit_parts(bit.name.as_slice());
    Ok(OptionRow {
        version: None,
        depends: Formula::Always,
        bit: Some((
            names.find(owner).unwrap_or(NameId(0)),
            Bytes::from_slice(alloc, member)?,
        )),
    })
}
