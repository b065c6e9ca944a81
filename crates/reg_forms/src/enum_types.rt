//! Which names are those of enum types: what extends one has to be known before its element is read.
ghost use Rattle.std.specs.Prelude.{◌≡◌, ◌&&◌, ◌++◌, ◌∷◌, [], List, ℕ, IfOk, codes, is_none, is_some, if◌then◌else◌};
ghost use Rattle.vkb_formula.specs.Names.{place_of, with_name};
ghost use Rattle.reg_forms.specs.declared.forms.Declaration.{Declaration};
ghost use Rattle.reg_forms.specs.Attributes.{value_of};
ghost use Rattle.reg_forms.specs.Declarations.{is_enum_kind, is_enum_row, is_enum_type, type_rows};
ghost use Rattle.reg_forms.specs.EnumTypes.{AreNamesOf, rows_in, rows_of};

use crate::attributes::{counts, has};
use crate::declarations::{kind_of, type_name};
use reg_reader::Element;
use reg_registry::Kind;
use std::alloc::Global;
use vkb_bytes::Memory;
use vkb_formula::Names;

/// The names of the enum types of a registry that are no aliases. The first type of a name decides, so the names of the other
/// types are kept meanwhile.
pub(crate) fn enum_types(alloc: Global, root: &Element, api: &[u8]) -> Result<Names, Memory>
    ensures { IfOk result (λ names. (name : List ℕ)
        → is_some (place_of name names) ≡ is_enum_type (type_rows api.now root.now) name) }
{
    let mut enums = Names::new(alloc);
    let mut others = Names::new(alloc);
    let mut ahead = root.children();
    while let Some(next) = ahead.next() {
        if b"types".as_slice() == next.name() {
            put_block(alloc, &next, api, &mut enums, &mut others)?;
        }
    }
    Ok(enums)
}

/// Puts in the names of a block of types.
fn put_block(
    alloc: Global,
    block: &Element,
    api: &[u8],
    enums: &mut Names,
    others: &mut Names,
) -> Result<(), Memory>
    ensures { IfOk result (λ _. (rows : List Declaration) → AreNamesOf rows enums.old others.old
        → AreNamesOf (rows ++ rows_in api.now block.now) enums.new others.new) }
{
    let mut ahead = block.children();
    while let Some(next) = ahead.next() {
        if b"type".as_slice() == next.name() {
            put_type(alloc, &next, api, enums, others)?;
        }
    }
    Ok(())
}

/// Puts in the name of a type, if it is one of the API and has one.
fn put_type(
    alloc: Global,
    element: &Element,
    api: &[u8],
    enums: &mut Names,
    others: &mut Names,
) -> Result<(), Memory>
    ensures { IfOk result (λ _. (rows : List Declaration) → AreNamesOf rows enums.old others.old
        → AreNamesOf (rows ++ rows_of api.now element.now) enums.new others.new) }
{
    if !counts(alloc, element, api)? {
        return Ok(());
    }
    match kind_of(alloc, element)? {
        Some(kind) => match type_name(alloc, element, kind)? {
            Some(name) => {
                put_row(alloc, element, kind, name.as_slice(), enums, others)?;
                Ok(())
            }
            None => Ok(()),
        },
        None => Ok(()),
    }
}

/// Puts in the name of a type of a kind, unless a type before it has the name.
fn put_row(
    alloc: Global,
    element: &Element,
    kind: Kind,
    name: &[u8],
    enums: &mut Names,
    others: &mut Names,
) -> Result<(), Memory>
    ensures { IfOk result (λ _. (rows : List Declaration) (row : Declaration) → row.name ≡ name.now
        → is_enum_row row ≡ (is_enum_kind kind && is_none (value_of (codes "alias") element.now))
        → AreNamesOf rows enums.old others.old → AreNamesOf (rows ++ row ∷ []) enums.new others.new) }
{
    if is_enum(alloc, element, kind)? {
        put_unless(name, others, enums)?;
        Ok(())
    } else {
        put_unless(name, enums, others)?;
        Ok(())
    }
}

/// Whether a type of a kind is an enum type and no alias.
fn is_enum(alloc: Global, element: &Element, kind: Kind) -> Result<bool, Memory>
    ensures { IfOk result (λ found. found ≡ (is_enum_kind kind && is_none (value_of (codes "alias") element.now))) }
{
    match kind {
        Kind::EnumType => {
            let alias = has(alloc, element, b"alias")?;
            Ok(!alias)
        }
        _ => Ok(false),
    }
}

/// Puts a name in, unless another table has it.
fn put_unless(name: &[u8], other: &Names, names: &mut Names) -> Result<(), Memory>
    ensures { IfOk result (λ _. names.new
        ≡ (if is_some (place_of name.now other.now) then names.old else with_name name.now names.old)) }
{
    match other.find(name) {
        Some(_) => Ok(()),
        None => {
            let _place = names.intern(name)?;
            Ok(())
        }
    }
}
