//! The enumerants of each enum type.
ghost use Rattle.std.specs.Prelude.{◌≡◌, ◌<◌, ◌==◌, false, pos, None, Some, All, IfOk, IfSome, is_some, length, map, option_map, slice_get, if◌then◌else◌};
ghost use Rattle.std.specs.Option.{option_and_then, option_flatten, option_map_or, unwrap_or};
ghost use Rattle.reg_registry.specs.Naming.{most_bytes};
ghost use Rattle.reg_forms.specs.Declarations.{is_enum_row};
ghost use Rattle.reg_forms.specs.Sizes.{AreSmall};
ghost use Rattle.reg_tables.specs.Values.{AreValues, alias_of, last_of};
ghost use Rattle.reg_rows.specs.Built.{AreUses, IsFirstRow};
ghost use Rattle.reg_rows.specs.Listing.{AreByType, enum_place};
ghost use Rattle.reg_rows.specs.Rows.{enumerant_row, names_in};

use super::uses::{Uses, empty_lists, find_uses};
use reg_forms::{Declaration, EnumForm, Given};
use reg_registry::{Enumerant, Kind};
use reg_tables::{Tables, Values};
use std::alloc::Global;
use vkb_bytes::{Bytes, Listed, Memory};
use vkb_formula::NameTable;

/// The enumerants of each declared name, in the order of their first rows.
pub(crate) fn enumerants_by_type(
    alloc: Global,
    tables: &Tables,
    values: &Values,
    names: &NameTable,
) -> Result<Vec<Vec<Enumerant>>, Memory>
    requires small { AreSmall most_bytes tables.now }
    requires names { names.now ≡ names_in tables.now }
    requires values { AreValues tables.now values.now.numbers.items values.now.lasts.items }
    ensures { IfOk result (λ by_type.
        AreByType tables.now 0 tables.now.enumerants (map (λ list. list.items) by_type.items)) }
{
    let uses = find_uses(alloc, tables)?;
    let mut by_type = empty_lists(alloc, names.len() as usize)?;
    for (place, row) in tables.forms().enumerants.as_slice().iter().enumerate() {
        if is_at(tables.enumerant_at(row.name.as_slice()), place) {
            if let Some(of) = enum_place(tables, names, row.of.as_slice()) {
                let made = enumerant(alloc, tables, values, &uses, place, row)?;
                by_type[of].push(made)?;
            }
        }
    }
    Ok(by_type)
}

/// Whether something was found at this place.
pub(super) fn is_at(found: Option<usize>, place: usize) -> bool
    ensures { result ≡ option_map_or (λ at. at == place) found false }
{
    match found {
        Some(at) => at == place,
        None => false,
    }
}

/// The place of an enum type that is no alias.
fn enum_place(tables: &Tables, names: &NameTable, name: &[u8]) -> Option<usize>
    ensures { result ≡ enum_place tables.now names.now name.now }
{
    let declaration = tables.declaration(name)?;
    if !is_enum_row(declaration) {
        return None;
    }
    let id = names.find(name)?;
    Some(id.0 as usize)
}

/// Whether a declaration is an enum type, and no alias.
fn is_enum_row(declaration: &Declaration) -> bool
    ensures { result ≡ is_enum_row declaration.now }
{
    matches!(
        (declaration.kind, &declaration.alias),
        (Kind::EnumType, None)
    )
}

/// The enumerant whose first row stands at a place.
fn enumerant(
    alloc: Global,
    tables: &Tables,
    values: &Values,
    uses: &Uses,
    place: usize,
    row: &EnumForm,
) -> Result<Enumerant, Memory>
    requires values { AreValues tables.now values.now.numbers.items values.now.lasts.items }
    requires uses { AreUses tables.now uses.now }
    requires first { IsFirstRow tables.now place row.now }
    ensures { IfOk result (λ made. made ≡ enumerant_row tables.now row.now) }
{
    Ok(Enumerant {
        name: Bytes::from_slice(alloc, row.name.as_slice())?,
        number: number_at(values, place),
        end: end_of(alloc, tables, values, place, row)?,
        always: uses.always[place],
        required: Listed::from_vec(Vec::from_slice(alloc, uses.required[place].as_slice())?),
        removed: Listed::from_vec(Vec::from_slice(alloc, uses.removed[place].as_slice())?),
    })
}

/// The value of the row at a place, by itself or at the end of its aliases.
fn number_at(values: &Values, place: usize) -> i128
    requires place { place < length values.now.lasts.items }
    requires lasts { All (λ last. IfSome last (λ at. at < length values.now.numbers.items)) values.now.lasts.items }
    ensures { result ≡ unwrap_or (option_and_then (λ last. option_flatten (slice_get values.now.numbers.items last))
        (option_flatten (slice_get values.now.lasts.items place))) (pos 0) }
{
    match values.lasts[place] {
        Some(last) => values.numbers[last].unwrap_or(0),
        None => 0,
    }
}

/// The name at the end of the aliases, where the row is one.
fn end_of(
    alloc: Global,
    tables: &Tables,
    values: &Values,
    place: usize,
    row: &EnumForm,
) -> Result<Option<Bytes>, Memory>
    requires values { AreValues tables.now values.now.numbers.items values.now.lasts.items }
    requires row { slice_get tables.now.enumerants place ≡ Some row.now }
    ensures { IfOk result (λ end. end
        ≡ (if is_some (alias_of row.now) then option_map (λ last. last.name) (last_of tables.now row.now) else None)) }
{
    let Given::Alias { .. } = &row.given else {
        return Ok(None);
    };
    let Some(last) = values.lasts[place] else {
        return Ok(None);
    };
    let rows = tables.forms().enumerants.as_slice();
    let name = Bytes::from_slice(alloc, rows[last].name.as_slice())?;
    Ok(Some(name))
}
