//! The tables of declared names and of options.
ghost use Rattle.std.specs.Prelude.{◌≡◌, ◌≤◌, IfOk, length, map};
ghost use Rattle.vkb_formula.specs.Names.{most_names};
ghost use Rattle.reg_tables.specs.Bits.{Readings};
ghost use Rattle.reg_tables.specs.Tables.{extensions_in, features_in};
ghost use Rattle.reg_tables.specs.Words.{AreReadings};
ghost use Rattle.reg_rows.specs.Built.{AreOptions};
ghost use Rattle.reg_rows.specs.BuiltParts.{with_names};
ghost use Rattle.reg_rows.specs.Rows.{names_in, option_names};

use reg_forms::Forms;
use reg_registry::put_name;
use reg_tables::{Bit, Tables};
use std::alloc::Global;
use vkb_bytes::Memory;
use vkb_formula::NameTable;

/// The declared names, in the order of the text.
pub(crate) fn declared_names(alloc: Global, tables: &Tables) -> Result<NameTable, Memory>
    requires { length (names_in tables.now) ≤ most_names }
    ensures { IfOk result (λ names. names ≡ names_in tables.now) }
{
    let mut names = NameTable::new(alloc);
    for declaration in tables.forms().declarations.as_slice() {
        put_name(&mut names, declaration.name.as_slice())?;
    }
    Ok(names)
}

/// The names of the options: features, extensions, bits.
pub(crate) fn option_names(
    alloc: Global,
    tables: &Tables,
    bits: &[Bit],
) -> Result<NameTable, Memory>
    requires { AreOptions tables.now bits.now }
    ensures { IfOk result (λ names. (readings : Readings) → AreReadings tables.now readings → names ≡ option_names tables.now readings) }
{
    let mut names = NameTable::new(alloc);
    put_features(&mut names, tables.forms())?;
    put_extensions(&mut names, tables.forms())?;
    put_bits(&mut names, bits)?;
    Ok(names)
}

/// Puts the names of the features behind others.
fn put_features(names: &mut NameTable, forms: &Forms) -> Result<(), Memory>
    requires { length (with_names names.old (map (λ o. o.name) (features_in forms.now))) ≤ most_names }
    ensures { IfOk result (λ _. names.new ≡ with_names names.old (map (λ o. o.name) (features_in forms.now))) }
{
    for option in forms.options.as_slice() {
        if option.version.is_some() {
            put_name(names, option.name.as_slice())?;
        }
    }
    Ok(())
}

/// Puts the names of the extensions behind others.
fn put_extensions(names: &mut NameTable, forms: &Forms) -> Result<(), Memory>
    requires { length (with_names names.old (map (λ o. o.name) (extensions_in forms.now))) ≤ most_names }
    ensures { IfOk result (λ _. names.new ≡ with_names names.old (map (λ o. o.name) (extensions_in forms.now))) }
{
    for option in forms.options.as_slice() {
        if option.version.is_none() {
            put_name(names, option.name.as_slice())?;
        }
    }
    Ok(())
}

/// Puts the names of bits behind others.
fn put_bits(names: &mut NameTable, bits: &[Bit]) -> Result<(), Memory>
    requires { length (with_names names.old (map (λ bit. bit.name) bits.now)) ≤ most_names }
    ensures { IfOk result (λ _. names.new ≡ with_names names.old (map (λ bit. bit.name) bits.now)) }
{
    for bit in bits {
        put_name(names, bit.name.as_slice())?;
    }
    Ok(())
}
