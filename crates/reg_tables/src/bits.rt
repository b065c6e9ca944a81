//! The texts of `depends`, and the members of structs that they name.
ghost use Rattle.std.specs.Prelude.{◌≡◌, ◌<◌, ◌≤◌, ◌^◌, ◌∷◌, ◌++◌, [], List, All, IfOk, filter, length, map, slice_range};
ghost use Rattle.std.specs.List.{flat_map};
ghost use Rattle.reg_forms.specs.declared.forms.RowCode.TheVariants.{BadExpression};
ghost use Rattle.reg_tables.specs.Bits.{Atom, Readings, atom_of, atoms_in, bits_of, is_bit, is_member_name};
ghost use Rattle.reg_tables.specs.Found.{AreLasts, ArePut, IsRead, members_table};
ghost use Rattle.reg_tables.specs.Lists.{firsts};
ghost use Rattle.reg_tables.specs.Words.{AreReadings, AreWords};
ghost use Rattle.reg_tables.specs.Wrong.{bad_text};

use crate::members::{is_bit, is_member_name, last_declarations, members_of_structs};
use crate::tables::Tables;
use reg_forms::{DependsText, Fault, Forms, RowCode};
use std::alloc::Global;
use vkb_bytes::{Bytes, Listed, Memory};
use vkb_formula::{ExprFault, Names, a_text_is_one_expression, words_of};

/// A member of a struct that is an option of its own.
#[derive(Debug, Drop)]
pub struct Bit {
    /// The place of the element whose `depends` mentions it first.
    pub place: u32,
    /// The name of the struct and that of the member, with `::` between them.
    pub name: Bytes,
}

/// Where the names of each text stand; none of a text that is no expression.
pub fn words(alloc: Global, forms: &Forms) -> Result<Vec<Option<Listed<(u32, u32)>>>, Memory>
    requires { All (λ text. length text.text < 2 ^ 32) forms.now.texts }
    ensures { IfOk result (λ words. AreWords forms.now words.items) }
{
    a_text_is_one_expression();
    let mut words = Vec::new(alloc);
    for text in forms.texts.as_slice() {
        words.push(words_of_text(alloc, text.text.as_slice())?)?;
    }
    Ok(words)
}

/// Where the names of a text stand, where it is an expression.
fn words_of_text(alloc: Global, text: &[u8]) -> Result<Option<Listed<(u32, u32)>>, Memory>
    requires { length text.now < 2 ^ 32 }
    ensures { IfOk result (IsRead text.now) }
{
    match words_of(alloc, text) {
        Ok(places) => Ok(Some(Listed::from_vec(places))),
        Err(ExprFault::BadExpression { .. }) => Ok(None),
        Err(ExprFault::Memory) => Err(Memory),
    }
}

/// Puts texts that are no expressions behind other faults.
pub fn put_bad_texts(
    alloc: Global,
    forms: &Forms,
    words: &[Option<Listed<(u32, u32)>>],
    faults: &mut Vec<Fault>,
) -> Result<(), Memory>
    requires { AreWords forms.now words.now }
    ensures { IfOk result (λ _. (readings : Readings) → AreReadings forms.now readings
        → faults.new.items ≡ faults.old.items ++ flat_map bad_text readings) }
{
    let texts = forms.texts.as_slice();
    for (at, places) in words.iter().enumerate() {
        if places.is_none() {
            faults.push(bad_text(alloc, &texts[at])?)?;
        }
    }
    Ok(())
}

/// The fault of a text that is no expression.
fn bad_text(alloc: Global, text: &DependsText) -> Result<Fault, Memory>
    ensures { IfOk result (λ fault. fault ≡ record { code = BadExpression; at = text.now.place; word = text.now.text }) }
{
    Ok(Fault {
        code: RowCode::BadExpression,
        at: text.place,
        word: Bytes::from_slice(alloc, text.text.as_slice())?,
    })
}

/// The bits that the texts name, each where it is named first.
pub fn find_bits(
    alloc: Global,
    tables: &Tables,
    words: &[Option<Listed<(u32, u32)>>],
) -> Result<Vec<Bit>, Memory>
    requires { AreWords tables.now words.now }
    ensures { IfOk result (λ bits. (readings : Readings) → AreReadings tables.now readings
        → map atom_of bits.items ≡ bits_of tables.now readings) }
{
    let named = member_names(alloc, tables.forms(), words)?;
    if named.is_empty() {
        return Ok(named);
    }
    let lasts = last_declarations(alloc, tables)?;
    let members = members_of_structs(alloc, tables.forms())?;
    let bits = only_bits(alloc, tables, lasts.as_slice(), members.as_slice(), named)?;
    Ok(bits)
}

/// Those of some names that are bits, each once.
fn only_bits(
    alloc: Global,
    tables: &Tables,
    lasts: &[Option<usize>],
    members: &[Names],
    named: Vec<Bit>,
) -> Result<Vec<Bit>, Memory>
    requires lasts { AreLasts tables.now lasts.now }
    requires members { members.now ≡ map members_table tables.now.declarations }
    ensures { IfOk result (λ bits. map atom_of bits.items
        ≡ firsts (λ atom. atom.1) (filter (λ atom. is_bit tables.now atom.1) (map atom_of named.items))) }
{
    let mut seen = Names::new(alloc);
    let mut bits = Vec::new(alloc);
    for bit in named {
        if is_bit(tables, lasts, members, bit.name.as_slice()) {
            put_new(&mut seen, &mut bits, bit)?;
        }
    }
    Ok(bits)
}

/// Puts a bit behind others, unless one of its name is there.
fn put_new(seen: &mut Names, bits: &mut Vec<Bit>, bit: Bit) -> Result<(), Memory>
    ensures { IfOk result (λ _. (atoms : List Atom) → ArePut atoms seen.old bits.old.items
        → ArePut (atoms ++ atom_of bit ∷ []) seen.new bits.new.items) }
{
    let count = seen.len();
    let at = seen.intern(bit.name.as_slice())?;
    if at == count {
        bits.push(bit)?;
    }
    Ok(())
}

/// The names in the texts that have a `:`, each with the place of its element.
fn member_names(
    alloc: Global,
    forms: &Forms,
    words: &[Option<Listed<(u32, u32)>>],
) -> Result<Vec<Bit>, Memory>
    requires { AreWords forms.now words.now }
    ensures { IfOk result (λ named. (readings : Readings) → AreReadings forms.now readings
        → map atom_of named.items ≡ filter (λ atom. is_member_name atom.1) (flat_map atoms_in readings)) }
{
    let texts = forms.texts.as_slice();
    let mut named = Vec::new(alloc);
    for (at, places) in words.iter().enumerate() {
        if let Some(places) = places {
            put_member_names(alloc, &texts[at], places.as_slice(), &mut named)?;
        }
    }
    Ok(named)
}

/// Puts the names in a text that have a `:` behind others.
fn put_member_names(
    alloc: Global,
    text: &DependsText,
    places: &[(u32, u32)],
    named: &mut Vec<Bit>,
) -> Result<(), Memory>
    requires { All (λ place. (place.0 < place.1) × (place.1 ≤ length text.now.text)) places.now }
    ensures { IfOk result (λ _. map atom_of named.new.items ≡ map atom_of named.old.items
        ++ filter (λ atom. is_member_name atom.1)
        (map (λ place. (text.now.place, slice_range text.now.text place.0 place.1)) places.now)) }
{
    let bytes = text.text.as_slice();
    for (from, to) in places {
        let name = &bytes[*from as usize..*to as usize];
        if is_member_name(name) {
            named.push(Bit {
                place: text.place,
                name: Bytes::from_slice(alloc, name)?,
            })?;
        }
    }
    Ok(())
}
