//! Names that stand twice.
ghost use Rattle.std.specs.Prelude.{◌≡◌, ◌++◌, ◌&&◌, [], IfOk};
ghost use Rattle.std.specs.List.{flat_map};
ghost use Rattle.reg_tables.specs.Tables.{is_constant};
ghost use Rattle.reg_rows.specs.Faults.{declared_besides, declared_twice, duplicates_in, grouped_twice, of_two_types, offered_twice};

use reg_forms::{Declaration, EnumForm, Fault, GroupForm, OptionForm, RowCode};
use reg_registry::Kind;
use reg_tables::{Tables, put_fault};
use std::alloc::Global;
use vkb_bytes::Memory;
use vkb_formula::Names;

/// Puts names that stand twice behind other faults.
pub(crate) fn put_duplicates(
    alloc: Global,
    tables: &Tables,
    faults: &mut Vec<Fault>,
) -> Result<(), Memory>
    ensures { IfOk result (λ _. faults.new.items ≡ faults.old.items ++ duplicates_in tables.now) }
{
    let forms = tables.forms();
    put_declared_twice(alloc, tables, forms.declarations.as_slice(), faults)?;
    put_offered_twice(alloc, forms.options.as_slice(), faults)?;
    put_grouped_twice(alloc, tables, forms.groups.as_slice(), faults)?;
    put_of_two_types(alloc, tables, forms.enumerants.as_slice(), faults)?;
    put_declared_besides(alloc, tables, forms.enumerants.as_slice(), faults)
}

/// Puts declarations whose name was declared before behind other faults.
fn put_declared_twice(
    alloc: Global,
    tables: &Tables,
    declarations: &[Declaration],
    faults: &mut Vec<Fault>,
) -> Result<(), Memory>
    ensures { IfOk result (λ _. faults.new.items ≡ faults.old.items
        ++ flat_map (declared_twice tables.now) declarations.now) }
{
    for declaration in declarations {
        put_if_declared(alloc, tables, declaration, faults)?;
    }
    Ok(())
}

/// Puts a declaration behind other faults if its name was declared before.
fn put_if_declared(
    alloc: Global,
    tables: &Tables,
    declaration: &Declaration,
    faults: &mut Vec<Fault>,
) -> Result<(), Memory>
    ensures { IfOk result (λ _. faults.new.items ≡ faults.old.items ++ declared_twice tables.now declaration.now) }
{
    let name = declaration.name.as_slice();
    let Some(first) = tables.declaration(name) else {
        return Ok(());
    };
    if first.place < declaration.place && !are_constants(first, declaration) {
        put_fault(
            alloc,
            RowCode::DuplicateName,
            declaration.place,
            name,
            faults,
        )?;
    }
    Ok(())
}

/// Whether both declare a constant.
fn are_constants(first: &Declaration, declaration: &Declaration) -> bool
    ensures { result ≡ (is_constant first.now && is_constant declaration.now) }
{
    matches!(
        (first.kind, declaration.kind),
        (Kind::Constant, Kind::Constant)
    )
}

/// Puts options whose name stands before behind other faults.
fn put_offered_twice(
    alloc: Global,
    options: &[OptionForm],
    faults: &mut Vec<Fault>,
) -> Result<(), Memory>
    ensures { IfOk result (λ _. faults.new.items ≡ faults.old.items ++ offered_twice [] options.now) }
{
    let mut seen = Names::new(alloc);
    for option in options {
        let name = option.name.as_slice();
        let before = seen.len();
        seen.intern(name)?;
        if seen.len() == before {
            put_fault(alloc, RowCode::DuplicateName, option.place, name, faults)?;
        }
    }
    Ok(())
}

/// Puts blocks of enums whose name stands before behind other faults.
fn put_grouped_twice(
    alloc: Global,
    tables: &Tables,
    groups: &[GroupForm],
    faults: &mut Vec<Fault>,
) -> Result<(), Memory>
    ensures { IfOk result (λ _. faults.new.items ≡ faults.old.items
        ++ flat_map (grouped_twice tables.now) groups.now) }
{
    for group in groups {
        put_if_grouped(alloc, tables, group, faults)?;
    }
    Ok(())
}

/// Puts a block of enums behind other faults if its name stands before.
fn put_if_grouped(
    alloc: Global,
    tables: &Tables,
    group: &GroupForm,
    faults: &mut Vec<Fault>,
) -> Result<(), Memory>
    ensures { IfOk result (λ _. faults.new.items ≡ faults.old.items ++ grouped_twice tables.now group.now) }
{
    let name = group.name.as_slice();
    let Some(first) = tables.group(name) else {
        return Ok(());
    };
    if first.place < group.place {
        put_fault(alloc, RowCode::DuplicateName, group.place, name, faults)?;
    }
    Ok(())
}

/// Puts rows of enumerants whose first row is one of another type behind other faults.
fn put_of_two_types(
    alloc: Global,
    tables: &Tables,
    enumerants: &[EnumForm],
    faults: &mut Vec<Fault>,
) -> Result<(), Memory>
    ensures { IfOk result (λ _. faults.new.items ≡ faults.old.items
        ++ flat_map (of_two_types tables.now) enumerants.now) }
{
    for row in enumerants {
        put_if_of_another_type(alloc, tables, row, faults)?;
    }
    Ok(())
}

/// Puts a row of an enumerant behind other faults if its first row is one of another type.
fn put_if_of_another_type(
    alloc: Global,
    tables: &Tables,
    row: &EnumForm,
    faults: &mut Vec<Fault>,
) -> Result<(), Memory>
    ensures { IfOk result (λ _. faults.new.items ≡ faults.old.items ++ of_two_types tables.now row.now) }
{
    let name = row.name.as_slice();
    let Some(first) = tables.enumerant(name) else {
        return Ok(());
    };
    if first.of.as_slice() != row.of.as_slice() {
        put_fault(alloc, RowCode::DuplicateName, row.place, name, faults)?;
    }
    Ok(())
}

/// Puts rows of enumerants that have a declared name, too, behind other faults.
fn put_declared_besides(
    alloc: Global,
    tables: &Tables,
    enumerants: &[EnumForm],
    faults: &mut Vec<Fault>,
) -> Result<(), Memory>
    ensures { IfOk result (λ _. faults.new.items ≡ faults.old.items
        ++ flat_map (declared_besides tables.now) enumerants.now) }
{
    for row in enumerants {
        put_if_declared_besides(alloc, tables, row, faults)?;
    }
    Ok(())
}

/// Puts a row of an enumerant that has a declared name, too, behind other faults, at the later of the two places.
fn put_if_declared_besides(
    alloc: Global,
    tables: &Tables,
    row: &EnumForm,
    faults: &mut Vec<Fault>,
) -> Result<(), Memory>
    ensures { IfOk result (λ _. faults.new.items ≡ faults.old.items ++ declared_besides tables.now row.now) }
{
    let name = row.name.as_slice();
    let Some(declaration) = tables.declaration(name) else {
        return Ok(());
    };
    let later = declaration.place.max(row.place);
    put_fault(alloc, RowCode::DuplicateName, later, name, faults)
}
