//! Values that are none, or clash, or lead nowhere.
ghost use Rattle.std.specs.Prelude.{◌≡◌, ◌++◌, ◌&&◌, Some, IfOk, is_none, slice_get};
ghost use Rattle.std.specs.List.{flat_map};
ghost use Rattle.std.specs.Str.{bytes_eq};
ghost use Rattle.reg_tables.specs.Tables.{is_constant};
ghost use Rattle.reg_tables.specs.Values.{AreValues, alias_of};
ghost use Rattle.reg_tables.specs.Wrong.{alias_of_itself, are_different, clash, constant_clash, endless, is_same_alias, out_of_range};

use super::Values;
use crate::faults::put_fault;
use crate::tables::Tables;
use reg_forms::{Declaration, EnumForm, Fault, Given, RowCode};
use reg_registry::Kind;
use std::alloc::Global;
use vkb_bytes::{Bytes, Memory};

/// Puts rows whose own value is none of their type behind other faults.
pub(crate) fn put_out_of_range(
    alloc: Global,
    tables: &Tables,
    values: &Values,
    rows: &[EnumForm],
    faults: &mut Vec<Fault>,
) -> Result<(), Memory>
    requires values { AreValues tables.now values.now.numbers.items values.now.lasts.items }
    requires rows { rows.now ≡ tables.now.enumerants }
    ensures { IfOk result (λ _. faults.new.items ≡ faults.old.items ++ flat_map (out_of_range tables.now) rows.now) }
{
    for (place, row) in rows.iter().enumerate() {
        put_if_out_of_range(alloc, tables, values, place, row, faults)?;
    }
    Ok(())
}

/// Puts a row behind other faults if its own value is none of its type.
fn put_if_out_of_range(
    alloc: Global,
    tables: &Tables,
    values: &Values,
    place: usize,
    row: &EnumForm,
    faults: &mut Vec<Fault>,
) -> Result<(), Memory>
    requires values { AreValues tables.now values.now.numbers.items values.now.lasts.items }
    requires row { slice_get tables.now.enumerants place ≡ Some row.now }
    ensures { IfOk result (λ _. faults.new.items ≡ faults.old.items ++ out_of_range tables.now row.now) }
{
    if is_out_of_range(values.number_at(place), row) {
        put_fault(
            alloc,
            RowCode::ValueRange,
            row.place,
            row.name.as_slice(),
            faults,
        )?;
    }
    Ok(())
}

/// Whether a row gives itself a value, and none of its type.
fn is_out_of_range(number: Option<i128>, row: &EnumForm) -> bool
    ensures { result ≡ (is_none (alias_of row.now) && is_none number) }
{
    match &row.given {
        Given::Alias { .. } => false,
        _ => number.is_none(),
    }
}

/// Puts rows whose value isn't that of the first row of their enumerant behind other faults.
pub(crate) fn put_clashes(
    alloc: Global,
    tables: &Tables,
    values: &Values,
    rows: &[EnumForm],
    faults: &mut Vec<Fault>,
) -> Result<(), Memory>
    requires values { AreValues tables.now values.now.numbers.items values.now.lasts.items }
    requires rows { rows.now ≡ tables.now.enumerants }
    ensures { IfOk result (λ _. faults.new.items ≡ faults.old.items ++ flat_map (clash tables.now) rows.now) }
{
    for (place, row) in rows.iter().enumerate() {
        put_if_clash(alloc, tables, values, place, row, faults)?;
    }
    Ok(())
}

/// Puts a row behind other faults if its value isn't that of the first row of its enumerant.
fn put_if_clash(
    alloc: Global,
    tables: &Tables,
    values: &Values,
    place: usize,
    row: &EnumForm,
    faults: &mut Vec<Fault>,
) -> Result<(), Memory>
    requires values { AreValues tables.now values.now.numbers.items values.now.lasts.items }
    requires row { slice_get tables.now.enumerants place ≡ Some row.now }
    ensures { IfOk result (λ _. faults.new.items ≡ faults.old.items ++ clash tables.now row.now) }
{
    let name = row.name.as_slice();
    let Some(first) = tables.enumerant(name) else {
        return Ok(());
    };
    let Some(at) = tables.enumerant_at(name) else {
        return Ok(());
    };
    if is_clash(first, values.value_at(at), row, values.value_at(place)) {
        put_fault(alloc, RowCode::ValueClash, row.place, name, faults)?;
    }
    Ok(())
}

/// Whether rows of one type have values that differ.
fn is_clash(first: &EnumForm, value: Option<i128>, row: &EnumForm, other: Option<i128>) -> bool
    ensures { result ≡ (bytes_eq first.now.of row.now.of && are_different value other) }
{
    first.of.as_slice() == row.of.as_slice() && are_different(value, other)
}

/// Whether there are two values, and they differ.
fn are_different(value: Option<i128>, other: Option<i128>) -> bool
    ensures { result ≡ are_different value other }
{
    match (value, other) {
        (Some(value), Some(other)) => value != other,
        _ => false,
    }
}

/// Puts rows whose aliases never end behind other faults.
pub(crate) fn put_endless(
    alloc: Global,
    tables: &Tables,
    values: &Values,
    rows: &[EnumForm],
    faults: &mut Vec<Fault>,
) -> Result<(), Memory>
    requires values { AreValues tables.now values.now.numbers.items values.now.lasts.items }
    requires rows { rows.now ≡ tables.now.enumerants }
    ensures { IfOk result (λ _. faults.new.items ≡ faults.old.items ++ flat_map (endless tables.now) rows.now) }
{
    for (place, row) in rows.iter().enumerate() {
        put_if_endless(alloc, tables, values, place, row, faults)?;
    }
    Ok(())
}

/// Puts a row behind other faults if its aliases never end.
fn put_if_endless(
    alloc: Global,
    tables: &Tables,
    values: &Values,
    place: usize,
    row: &EnumForm,
    faults: &mut Vec<Fault>,
) -> Result<(), Memory>
    requires values { AreValues tables.now values.now.numbers.items values.now.lasts.items }
    requires row { slice_get tables.now.enumerants place ≡ Some row.now }
    ensures { IfOk result (λ _. faults.new.items ≡ faults.old.items ++ endless tables.now row.now) }
{
    if values.last_at(place).is_none() {
        put_fault(
            alloc,
            RowCode::AliasCircle,
            row.place,
            row.name.as_slice(),
            faults,
        )?;
    }
    Ok(())
}

/// Puts constants that differ from the first of their name behind other faults.
pub(crate) fn put_constant_clashes(
    alloc: Global,
    tables: &Tables,
    declarations: &[Declaration],
    faults: &mut Vec<Fault>,
) -> Result<(), Memory>
    ensures { IfOk result (λ _. faults.new.items ≡ faults.old.items ++ flat_map (constant_clash tables.now) declarations.now) }
{
    for declaration in declarations {
        put_if_constant_clash(alloc, tables, declaration, faults)?;
    }
    Ok(())
}

/// Puts a constant behind other faults if it differs from the first of its name.
fn put_if_constant_clash(
    alloc: Global,
    tables: &Tables,
    declaration: &Declaration,
    faults: &mut Vec<Fault>,
) -> Result<(), Memory>
    ensures { IfOk result (λ _. faults.new.items ≡ faults.old.items ++ constant_clash tables.now declaration.now) }
{
    let name = declaration.name.as_slice();
    let Some(first) = tables.declaration(name) else {
        return Ok(());
    };
    if is_constant(first) && is_constant(declaration) && !are_same(first, declaration) {
        put_fault(alloc, RowCode::ValueClash, declaration.place, name, faults)?;
    }
    Ok(())
}

/// Whether a constant is declared.
fn is_constant(declaration: &Declaration) -> bool
    ensures { result ≡ is_constant declaration.now }
{
    matches!(declaration.kind, Kind::Constant)
}

/// Whether constants have the same text and alias.
fn are_same(first: &Declaration, other: &Declaration) -> bool
    ensures { result ≡ (bytes_eq first.now.text other.now.text && is_same_alias first.now.alias other.now.alias) }
{
    first.text.as_slice() == other.text.as_slice() && is_same_alias(&first.alias, &other.alias)
}

/// Whether both are aliases of the same name, or none is one.
fn is_same_alias(alias: &Option<Bytes>, other: &Option<Bytes>) -> bool
    ensures { result ≡ is_same_alias alias.now other.now }
{
    match (alias, other) {
        (None, None) => true,
        (Some(name), Some(other)) => name.as_slice() == other.as_slice(),
        _ => false,
    }
}

/// Puts declarations that are aliases of themselves behind other faults.
pub(crate) fn put_self_aliases(
    alloc: Global,
    declarations: &[Declaration],
    faults: &mut Vec<Fault>,
) -> Result<(), Memory>
    ensures { IfOk result (λ _. faults.new.items ≡ faults.old.items ++ flat_map alias_of_itself declarations.now) }
{
    for declaration in declarations {
        put_if_self_alias(alloc, declaration, faults)?;
    }
    Ok(())
}

/// Puts a declaration behind other faults if it is an alias of itself.
fn put_if_self_alias(
    alloc: Global,
    declaration: &Declaration,
    faults: &mut Vec<Fault>,
) -> Result<(), Memory>
    ensures { IfOk result (λ _. faults.new.items ≡ faults.old.items ++ alias_of_itself declaration.now) }
{
    let Some(alias) = &declaration.alias else {
        return Ok(());
    };
    let name = declaration.name.as_slice();
    if name == alias.as_slice() {
        put_fault(alloc, RowCode::AliasCircle, declaration.place, name, faults)?;
    }
    Ok(())
}
