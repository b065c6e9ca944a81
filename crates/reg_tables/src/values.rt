//! The values of enumerants.
ghost use Rattle.std.specs.Prelude.{◌≡◌, ◌++◌, ◌<◌, ◌^◌, ◌⊎◌, ℕ, Some, IfOk, IfSome, length, map, option_map, pos, slice_get};
ghost use Rattle.std.specs.Option.{option_and_then, option_flatten};
ghost use Rattle.reg_forms.specs.declared.forms.EnumForm.{EnumForm};
ghost use Rattle.reg_forms.specs.declared.forms.Forms.{Forms};
ghost use Rattle.reg_values.specs.Literal.{literal_value};
ghost use Rattle.reg_values.specs.Values.{bit_value, offset_value};
ghost use Rattle.reg_tables.specs.Aliases.{AreAliases};
ghost use Rattle.reg_tables.specs.Tables.{enumerant_of};
ghost use Rattle.reg_tables.specs.Values.{AreValues, greatest_of, in_shape, least_of, next_of, number_given, number_of, value_of, where_ok, width_of, within};
ghost use Rattle.reg_tables.specs.Wrong.{wrong_values_in};

mod clashes;

use crate::chains::last_places;
use crate::tables::Tables;
use clashes::{put_clashes, put_constant_clashes, put_endless, put_out_of_range, put_self_aliases};
use reg_forms::{EnumForm, Fault, Given};
use reg_registry::Shape;
use reg_values::{bit_value, literal_value, offset_value};
use std::alloc::Global;
use vkb_bytes::Memory;

/// The values of the rows of enumerants.
#[derive(Drop)]
pub struct Values {
    /// What each row gives itself, where that is in its range.
    pub numbers: Vec<Option<i128>>,
    /// The place of the last row of each one's chain of aliases, where the chain ends.
    pub lasts: Vec<Option<usize>>,
}

impl Values {
    /// The values of these forms.
    pub fn new(alloc: Global, tables: &Tables) -> Result<Values, Memory>
        ensures { IfOk result (λ values. AreValues tables.now values.numbers.items values.lasts.items) }
    {
        let rows = tables.forms().enumerants.as_slice();
        let numbers = numbers(alloc, tables, rows)?;
        let next = aliases(alloc, tables, rows)?;
        let lasts = last_places(alloc, next.as_slice())?;
        Ok(Values { numbers, lasts })
    }

    /// The place of the last row of the chain of aliases that begins at a place, where it ends.
    pub(crate) fn last_at(&self, place: usize) -> Option<usize>
        ensures { result ≡ option_flatten (slice_get self.now.lasts.items place) }
    {
        if place < self.lasts.len() {
            self.lasts[place]
        } else {
            None
        }
    }

    /// What the row at a place gives itself, where that is in its range.
    pub(crate) fn number_at(&self, place: usize) -> Option<i128>
        ensures { result ≡ option_flatten (slice_get self.now.numbers.items place) }
    {
        if place < self.numbers.len() {
            self.numbers[place]
        } else {
            None
        }
    }

    /// The value of the row at a place, by itself or at the end of its aliases.
    pub(crate) fn value_at(&self, place: usize) -> Option<i128>
        ensures { (f : Forms) (e : EnumForm) → AreValues f self.now.numbers.items self.now.lasts.items
            → slice_get f.enumerants place ≡ Some e → result ≡ value_of f e }
    {
        match self.last_at(place) {
            Some(last) => self.number_at(last),
            None => None,
        }
    }
}

/// Puts values that are none, or clash, or lead nowhere behind other faults.
pub fn put_wrong_values(
    alloc: Global,
    tables: &Tables,
    values: &Values,
    faults: &mut Vec<Fault>,
) -> Result<(), Memory>
    requires { AreValues tables.now values.now.numbers.items values.now.lasts.items }
    ensures { IfOk result (λ _. faults.new.items ≡ faults.old.items ++ wrong_values_in tables.now) }
{
    let forms = tables.forms();
    let rows = forms.enumerants.as_slice();
    let declarations = forms.declarations.as_slice();
    put_out_of_range(alloc, tables, values, rows, faults)?;
    put_clashes(alloc, tables, values, rows, faults)?;
    put_endless(alloc, tables, values, rows, faults)?;
    put_constant_clashes(alloc, tables, declarations, faults)?;
    put_self_aliases(alloc, declarations, faults)
}

/// What each row gives itself.
fn numbers(alloc: Global, tables: &Tables, rows: &[EnumForm]) -> Result<Vec<Option<i128>>, Memory>
    ensures { IfOk result (λ numbers. numbers.items ≡ map (number_of tables.now) rows.now) }
{
    let mut numbers = Vec::new(alloc);
    for row in rows {
        numbers.push(number_of(tables, row))?;
    }
    Ok(numbers)
}

/// What a row gives itself.
fn number_of(tables: &Tables, row: &EnumForm) -> Option<i128>
    ensures { result ≡ number_of tables.now row.now }
{
    let shape = tables.shape_named(row.of.as_slice());
    in_shape(shape, number_given(shape, &row.given))
}

/// The number that is given, where it is in its range.
fn number_given(shape: Shape, given: &Given) -> Option<i128>
    ensures { result ≡ number_given shape given.now }
{
    match given {
        Given::Literal { text } => literal_number(text.as_slice()),
        Given::Bit { position } => bit_number(shape, *position),
        Given::Offset {
            extension,
            offset,
            negative,
        } => offset_number(*extension, *offset, *negative),
        Given::Alias { .. } => None,
    }
}

/// The value of a literal, where it has one.
fn literal_number(text: &[u8]) -> Option<i128>
    ensures { result ≡ where_ok (literal_value text.now) }
{
    match literal_value(text) {
        Ok(value) => Some(value),
        Err(_) => None,
    }
}

/// The value of a bit, where the mask has it.
fn bit_number(shape: Shape, position: u32) -> Option<i128>
    ensures { result ≡ option_map pos (where_ok (bit_value position (width_of shape))) }
{
    match bit_value(position, width_of(shape)) {
        Ok(value) => Some(i128::from(value)),
        Err(_) => None,
    }
}

/// How many bits a value has that is given by one.
fn width_of(shape: Shape) -> u32
    ensures width { result ≡ width_of shape }
    ensures known { (result ≡ 32) ⊎ (result ≡ 64) }
{
    match shape {
        Shape::Mask64 => 64,
        _ => 32,
    }
}

/// The value of an offset, where there is one.
fn offset_number(extension: u32, offset: u32, negative: bool) -> Option<i128>
    ensures { result ≡ where_ok (offset_value extension offset negative) }
{
    match offset_value(extension, offset, negative) {
        Ok(value) => Some(i128::from(value)),
        Err(_) => None,
    }
}

/// The value, where it is one of the shape.
fn in_shape(shape: Shape, value: Option<i128>) -> Option<i128>
    ensures { result ≡ option_and_then (in_shape shape) value }
{
    let value = value?;
    if value < least_of(shape) {
        return None;
    }
    if value > greatest_of(shape) {
        return None;
    }
    Some(value)
}

/// The least value of a shape.
fn least_of(shape: Shape) -> i128
    ensures { result ≡ least_of shape }
{
    match shape {
        Shape::List => -2_147_483_648,
        _ => 0,
    }
}

/// The greatest value of a shape.
fn greatest_of(shape: Shape) -> i128
    ensures { result ≡ greatest_of shape }
{
    match shape {
        Shape::Mask32 => 4_294_967_295,
        Shape::Mask64 => 18_446_744_073_709_551_615,
        _ => 2_147_483_647,
    }
}

/// The places of the rows that rows are aliases of.
fn aliases(alloc: Global, tables: &Tables, rows: &[EnumForm]) -> Result<Vec<Option<usize>>, Memory>
    requires { rows.now ≡ tables.now.enumerants }
    ensures { IfOk result (λ next. AreAliases tables.now next.items) }
{
    let mut next = Vec::new(alloc);
    for row in rows {
        next.push(alias_at(tables, row))?;
    }
    Ok(next)
}

/// The place of the row that a row is an alias of.
fn alias_at(tables: &Tables, row: &EnumForm) -> Option<usize>
    ensures next { option_and_then (slice_get tables.now.enumerants) result ≡ next_of tables.now row.now }
    ensures within { IfSome result (λ place. place < length tables.now.enumerants) }
{
    match &row.given {
        Given::Alias { name } => first_of_type(tables, row.of.as_slice(), name.as_slice()),
        _ => None,
    }
}

/// The place of the first row of a name, where that is one of this type.
fn first_of_type(tables: &Tables, of: &[u8], name: &[u8]) -> Option<usize>
    ensures row { option_and_then (slice_get tables.now.enumerants) result ≡ option_and_then (within of.now) (enumerant_of tables.now name.now) }
    ensures within { IfSome result (λ place. place < length tables.now.enumerants) }
{
    let Some(place) = tables.enumerant_at(name) else {
        return None;
    };
    let Some(first) = tables.enumerant(name) else {
        return None;
    };
    if of == first.of.as_slice() {
        Some(place)
    } else {
        None
    }
}
