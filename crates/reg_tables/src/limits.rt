//! Names past what a table holds.
ghost use Rattle.std.specs.Prelude.{◌≡◌, ◌++◌, [], List, IfOk, map, filter, is_none, is_some};
ghost use Rattle.reg_tables.specs.Bits.{Atom, Readings, atom_of, bits_of};
ghost use Rattle.reg_tables.specs.Counts.{IsCounted};
ghost use Rattle.reg_tables.specs.Wrong.{limits_in, past_limit};

use crate::bits::Bit;
use crate::counted::{Counted, MOST_NAMES};
use crate::tables::Tables;
use reg_forms::{Declaration, EnumForm, Fault, OptionForm};
use std::alloc::Global;
use vkb_bytes::Memory;

/// Puts names past what a table holds behind other faults.
pub fn put_limits(
    alloc: Global,
    tables: &Tables,
    bits: &[Bit],
    faults: &mut Vec<Fault>,
) -> Result<(), Memory>
    ensures { IfOk result (λ _. (readings : Readings) → map atom_of bits.now ≡ bits_of tables.now readings
        → faults.new.items ≡ faults.old.items ++ limits_in tables.now readings) }
{
    let forms = tables.forms();
    put_declared(alloc, forms.declarations.as_slice(), faults)?;
    put_options(alloc, forms.options.as_slice(), bits, faults)?;
    put_enumerants(alloc, forms.enumerants.as_slice(), faults)
}

/// Puts the first declared name that is one too many. Where there are few enough in all, none is looked at.
fn put_declared(
    alloc: Global,
    declarations: &[Declaration],
    faults: &mut Vec<Fault>,
) -> Result<(), Memory>
    ensures { IfOk result (λ _. faults.new.items
        ≡ faults.old.items ++ past_limit (map (λ d. (d.place, d.name)) declarations.now)) }
{
    if declarations.len() <= MOST_NAMES {
        return Ok(());
    }
    let mut counted = Counted::new(alloc);
    for declaration in declarations {
        counted.put(alloc, declaration.place, declaration.name.as_slice())?;
    }
    counted.put_past(faults)
}

/// Puts the first name of an enumerant that is one too many.
fn put_enumerants(
    alloc: Global,
    enumerants: &[EnumForm],
    faults: &mut Vec<Fault>,
) -> Result<(), Memory>
    ensures { IfOk result (λ _. faults.new.items
        ≡ faults.old.items ++ past_limit (map (λ e. (e.place, e.name)) enumerants.now)) }
{
    if enumerants.len() <= MOST_NAMES {
        return Ok(());
    }
    let mut counted = Counted::new(alloc);
    for enumerant in enumerants {
        counted.put(alloc, enumerant.place, enumerant.name.as_slice())?;
    }
    counted.put_past(faults)
}

/// Puts the first option that is one too many: features go before extensions, and these before bits.
fn put_options(
    alloc: Global,
    options: &[OptionForm],
    bits: &[Bit],
    faults: &mut Vec<Fault>,
) -> Result<(), Memory>
    ensures { IfOk result (λ _. faults.new.items ≡ faults.old.items
        ++ past_limit (map (λ o. (o.place, o.name)) (filter (λ o. is_some o.version) options.now)
        ++ map (λ o. (o.place, o.name)) (filter (λ o. is_none o.version) options.now) ++ map atom_of bits.now)) }
{
    if options.len() <= MOST_NAMES && bits.len() <= MOST_NAMES - options.len() {
        return Ok(());
    }
    let mut counted = Counted::new(alloc);
    count_features(alloc, options, &mut counted)?;
    count_extensions(alloc, options, &mut counted)?;
    count_bits(alloc, bits, &mut counted)?;
    counted.put_past(faults)
}

/// Counts the names of features.
fn count_features(
    alloc: Global,
    options: &[OptionForm],
    counted: &mut Counted,
) -> Result<(), Memory>
    ensures { IfOk result (λ _. (named : List Atom) → IsCounted named counted.old.names counted.old.past
        → IsCounted (named ++ map (λ o. (o.place, o.name)) (filter (λ o. is_some o.version) options.now))
        counted.new.names counted.new.past) }
{
    for option in options {
        if option.version.is_some() {
            counted.put(alloc, option.place, option.name.as_slice())?;
        }
    }
    Ok(())
}

/// Counts the names of extensions.
fn count_extensions(
    alloc: Global,
    options: &[OptionForm],
    counted: &mut Counted,
) -> Result<(), Memory>
    ensures { IfOk result (λ _. (named : List Atom) → IsCounted named counted.old.names counted.old.past
        → IsCounted (named ++ map (λ o. (o.place, o.name)) (filter (λ o. is_none o.version) options.now))
        counted.new.names counted.new.past) }
{
    for option in options {
        if option.version.is_none() {
            counted.put(alloc, option.place, option.name.as_slice())?;
        }
    }
    Ok(())
}

/// Counts the names of bits.
fn count_bits(alloc: Global, bits: &[Bit], counted: &mut Counted) -> Result<(), Memory>
    ensures { IfOk result (λ _. (named : List Atom) → IsCounted named counted.old.names counted.old.past
        → IsCounted (named ++ map atom_of bits.now) counted.new.names counted.new.past) }
{
    for bit in bits {
        counted.put(alloc, bit.place, bit.name.as_slice())?;
    }
    Ok(())
}
