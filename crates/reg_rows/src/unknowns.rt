//! Names that nothing has.
ghost use Rattle.std.specs.Prelude.{◌≡◌, ◌++◌, IfOk, is_some};
ghost use Rattle.std.specs.List.{flat_map};
ghost use Rattle.std.specs.Option.{option_and_then};
ghost use Rattle.reg_tables.specs.Tables.{enumerant_of, is_mask64};
ghost use Rattle.reg_tables.specs.Values.{within};
ghost use Rattle.reg_rows.specs.Faults.{unknown, unknown_alias, unknowns_in, without_flags};

use reg_forms::{Declaration, EntryForm, EnumForm, Fault, Given, Mention, RowCode, Sort};
use reg_registry::Shape;
use reg_tables::{Tables, put_fault};
use std::alloc::Global;
use vkb_bytes::Memory;

/// Puts names that nothing has behind other faults.
pub(crate) fn put_unknowns(
    alloc: Global,
    tables: &Tables,
    faults: &mut Vec<Fault>,
) -> Result<(), Memory>
    ensures { IfOk result (λ _. faults.new.items ≡ faults.old.items ++ unknowns_in tables.now) }
{
    let forms = tables.forms();
    put_unknown_in_declarations(alloc, tables, forms.declarations.as_slice(), faults)?;
    put_unknown_entries(alloc, tables, forms.entries.as_slice(), faults)?;
    put_unknown_mentions(alloc, tables, forms.mentions.as_slice(), faults)?;
    put_unknown_aliases(alloc, tables, forms.enumerants.as_slice(), faults)?;
    put_without_flags(alloc, tables, forms.declarations.as_slice(), faults)
}

/// Puts names that declarations mention and nothing has behind other faults.
fn put_unknown_in_declarations(
    alloc: Global,
    tables: &Tables,
    declarations: &[Declaration],
    faults: &mut Vec<Fault>,
) -> Result<(), Memory>
    ensures { IfOk result (λ _. faults.new.items ≡ faults.old.items
        ++ flat_map (λ d. flat_map (unknown tables.now) d.mentions) declarations.now) }
{
    for declaration in declarations {
        put_unknown_mentions(alloc, tables, declaration.mentions.as_slice(), faults)?;
    }
    Ok(())
}

/// Puts mentioned names that nothing has behind other faults.
fn put_unknown_mentions(
    alloc: Global,
    tables: &Tables,
    mentions: &[Mention],
    faults: &mut Vec<Fault>,
) -> Result<(), Memory>
    ensures { IfOk result (λ _. faults.new.items ≡ faults.old.items ++ flat_map (unknown tables.now) mentions.now) }
{
    for mention in mentions {
        put_if_unknown(alloc, tables, mention, faults)?;
    }
    Ok(())
}

/// Puts names that blocks list and nothing has behind other faults.
fn put_unknown_entries(
    alloc: Global,
    tables: &Tables,
    entries: &[EntryForm],
    faults: &mut Vec<Fault>,
) -> Result<(), Memory>
    ensures { IfOk result (λ _. faults.new.items ≡ faults.old.items
        ++ flat_map (λ entry. unknown tables.now entry.mention) entries.now) }
{
    for entry in entries {
        put_if_unknown(alloc, tables, &entry.mention, faults)?;
    }
    Ok(())
}

/// Puts a mentioned name behind other faults if nothing of its sort has it.
fn put_if_unknown(
    alloc: Global,
    tables: &Tables,
    mention: &Mention,
    faults: &mut Vec<Fault>,
) -> Result<(), Memory>
    ensures { IfOk result (λ _. faults.new.items ≡ faults.old.items ++ unknown tables.now mention.now) }
{
    let name = mention.name.as_slice();
    if !tables.is_known(mention.sort, name) {
        put_fault(alloc, RowCode::UnknownName, mention.place, name, faults)?;
    }
    Ok(())
}

/// Puts aliases that are no enumerants of their types behind other faults.
fn put_unknown_aliases(
    alloc: Global,
    tables: &Tables,
    enumerants: &[EnumForm],
    faults: &mut Vec<Fault>,
) -> Result<(), Memory>
    ensures { IfOk result (λ _. faults.new.items ≡ faults.old.items
        ++ flat_map (unknown_alias tables.now) enumerants.now) }
{
    for row in enumerants {
        put_if_unknown_alias(alloc, tables, row, faults)?;
    }
    Ok(())
}

/// Puts what a row is an alias of behind other faults if that is no enumerant of its type.
fn put_if_unknown_alias(
    alloc: Global,
    tables: &Tables,
    row: &EnumForm,
    faults: &mut Vec<Fault>,
) -> Result<(), Memory>
    ensures { IfOk result (λ _. faults.new.items ≡ faults.old.items ++ unknown_alias tables.now row.now) }
{
    let Given::Alias { name } = &row.given else {
        return Ok(());
    };
    let name = name.as_slice();
    if !is_value_of(tables, row.of.as_slice(), name) {
        put_fault(alloc, RowCode::UnknownName, row.place, name, faults)?;
    }
    Ok(())
}

/// Whether a name is that of an enumerant of a type.
fn is_value_of(tables: &Tables, of: &[u8], name: &[u8]) -> bool
    ensures { result ≡ is_some (option_and_then (within of.now) (enumerant_of tables.now name.now)) }
{
    match tables.enumerant(name) {
        Some(row) => of == row.of.as_slice(),
        None => false,
    }
}

/// Puts the type of flags of 64 bits behind other faults for each declaration that needs it, if it isn't there.
fn put_without_flags(
    alloc: Global,
    tables: &Tables,
    declarations: &[Declaration],
    faults: &mut Vec<Fault>,
) -> Result<(), Memory>
    ensures { IfOk result (λ _. faults.new.items ≡ faults.old.items
        ++ flat_map (without_flags tables.now) declarations.now) }
{
    for declaration in declarations {
        put_if_without_flags(alloc, tables, declaration, faults)?;
    }
    Ok(())
}

/// The type of flags of 64 bits.
const FLAGS: &[u8] = b"VkFlags64";

/// Puts the type of flags of 64 bits behind other faults if the declaration needs it and it isn't there.
fn put_if_without_flags(
    alloc: Global,
    tables: &Tables,
    declaration: &Declaration,
    faults: &mut Vec<Fault>,
) -> Result<(), Memory>
    ensures { IfOk result (λ _. faults.new.items ≡ faults.old.items ++ without_flags tables.now declaration.now) }
{
    if is_mask64(tables.shape_of(declaration)) && !tables.is_known(Sort::Type, FLAGS) {
        put_fault(
            alloc,
            RowCode::UnknownName,
            declaration.place,
            FLAGS,
            faults,
        )?;
    }
    Ok(())
}

/// Whether values are flags of 64 bits.
fn is_mask64(shape: Shape) -> bool
    ensures { result ≡ is_mask64 shape }
{
    matches!(shape, Shape::Mask64)
}
