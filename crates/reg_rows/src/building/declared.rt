//! The row of each declared name.
ghost use Rattle.std.specs.Prelude.{◌≡◌, ◌+◌, ◌<◌, ◌∷◌, ◌++◌, [], ℕ, List, All, IfOk, OnOk, length, map};
ghost use Rattle.std.specs.List.{filter_map};
ghost use Rattle.std.specs.Option.{option_and_then};
ghost use Rattle.reg_registry.specs.Naming.{most_bytes};
ghost use Rattle.reg_registry.specs.Rows.{id_at, id_of};
ghost use Rattle.reg_forms.specs.Sizes.{AreSmall, IsSmallDeclaration, IsSmallMember};
ghost use Rattle.reg_tables.specs.Tables.{is_mask64};
ghost use Rattle.reg_tables.specs.Values.{AreValues};
ghost use Rattle.reg_rows.specs.Listing.{AreBefore, AreMarked, mentioned_by, places_besides};
ghost use Rattle.reg_rows.specs.Lists.{each_number};
ghost use Rattle.reg_rows.specs.Rows.{declared_in, member_row, names_in, row_of, values_of};

use super::values::{enumerants_by_type, is_at};
use reg_forms::{Declaration, MemberForm};
use reg_registry::{Enumerant, Member, Row, Shape};
use reg_tables::{Tables, Values};
use std::alloc::Global;
use vkb_bytes::{Bytes, Listed, Memory};
use vkb_formula::{NameId, NameTable};

/// The rows of the declared names, in their order.
pub(crate) fn declared_rows(
    alloc: Global,
    tables: &Tables,
    values: &Values,
    names: &NameTable,
) -> Result<Vec<Row>, Memory>
    requires small { AreSmall most_bytes tables.now }
    requires names { names.now ≡ names_in tables.now }
    requires values { AreValues tables.now values.now.numbers.items values.now.lasts.items }
    ensures { IfOk result (λ rows. rows.items ≡ map (row_of tables.now) (declared_in tables.now)) }
{
    let mut rows = Vec::new(alloc);
    let mut by_type = enumerants_by_type(alloc, tables, values, names)?;
    // In which round each name was named last, so that none is put in twice.
    let mut named_in = vec![in alloc; 0; by_type.len()]?;
    for (at, declaration) in tables.forms().declarations.as_slice().iter().enumerate() {
        if is_at(tables.declared_at(declaration.name.as_slice()), at) {
            let place = rows.len();
            let own = std::mem::replace(&mut by_type[place], Vec::new(alloc));
            let row = row_of(
                alloc,
                tables,
                names,
                declaration,
                own,
                place + 1,
                &mut named_in,
            )?;
            rows.push(row)?;
        }
    }
    Ok(rows)
}

/// The row of a declaration, with its values. The names that it names are marked with a round of its own.
fn row_of(
    alloc: Global,
    tables: &Tables,
    names: &NameTable,
    declaration: &Declaration,
    values: Vec<Enumerant>,
    round: usize,
    named_in: &mut Vec<usize>,
) -> Result<Row, Memory>
    requires small { IsSmallDeclaration most_bytes declaration.now }
    requires names { names.now ≡ names_in tables.now }
    requires values { values.items ≡ values_of tables.now declaration.now }
    requires marks { length named_in.old.items ≡ length names.now }
    requires before { AreBefore round named_in.old.items }
    ensures row { IfOk result (λ row. row ≡ row_of tables.now declaration.now) }
    ensures marks { OnOk result (length named_in.new.items ≡ length names.now) }
    ensures after { OnOk result (AreBefore (round + 1) named_in.new.items) }
{
    let shape = tables.shape_of(declaration);
    Ok(Row {
        kind: declaration.kind,
        alias: id_of(names, &declaration.alias),
        text: copy(alloc, &declaration.text)?,
        result: copy(alloc, &declaration.result)?,
        prototyped: declaration.prototyped,
        members: Listed::from_vec(members(alloc, names, declaration.members.as_slice())?),
        bits: id_of(names, &declaration.bits),
        shape,
        returned: declaration.returned,
        extends: Listed::from_vec(extended(alloc, names, declaration.extends.as_slice())?),
        values: Listed::from_vec(values),
        named: Listed::from_vec(named(alloc, names, declaration, shape, round, named_in)?),
    })
}

/// The declared name of a text, if there is one.
fn id_of(names: &NameTable, name: &Option<Bytes>) -> Option<NameId>
    ensures { result ≡ option_and_then (id_of names.now) name.now }
{
    match name {
        Some(text) => names.find(text.as_slice()),
        None => None,
    }
}

fn copy(alloc: Global, text: &Bytes) -> Result<Bytes, Memory>
    ensures { IfOk result (λ made. made ≡ text.now) }
{
    Ok(Bytes::from_slice(alloc, text.as_slice())?)
}

/// Members with the places of their types.
fn members(alloc: Global, names: &NameTable, forms: &[MemberForm]) -> Result<Vec<Member>, Memory>
    requires { All (IsSmallMember most_bytes) forms.now }
    ensures { IfOk result (λ members. members.items ≡ map (member_row names.now) forms.now) }
{
    let mut made = Vec::new(alloc);
    for form in forms {
        made.push(member(alloc, names, form)?)?;
    }
    Ok(made)
}

fn member(alloc: Global, names: &NameTable, form: &MemberForm) -> Result<Member, Memory>
    requires { IsSmallMember most_bytes form.now }
    ensures { IfOk result (λ member. member ≡ member_row names.now form.now) }
{
    Ok(Member {
        name: copy(alloc, &form.name)?,
        text: copy(alloc, &form.text)?,
        // A type that isn't declared is a fault, and told before.
        base: names.find(form.base.as_slice()).unwrap_or(NameId(0)),
        stars: form.stars as u32,
        values: copy(alloc, &form.values)?,
        len: copy(alloc, &form.len)?,
        optional: form.optional,
        silent: form.silent,
    })
}

/// Those of these names that are declared.
fn extended(alloc: Global, names: &NameTable, texts: &[Bytes]) -> Result<Vec<NameId>, Memory>
    ensures { IfOk result (λ ids. ids.items ≡ filter_map (id_of names.now) texts.now) }
{
    let mut ids = Vec::new(alloc);
    for text in texts {
        if let Some(id) = names.find(text.as_slice()) {
            ids.push(id)?;
        }
    }
    Ok(ids)
}

/// The other names that a declaration names, each once.
fn named(
    alloc: Global,
    names: &NameTable,
    declaration: &Declaration,
    shape: Shape,
    round: usize,
    named_in: &mut Vec<usize>,
) -> Result<Vec<NameId>, Memory>
    requires marks { length named_in.old.items ≡ length names.now }
    requires before { AreBefore round named_in.old.items }
    ensures ids { IfOk result (λ ids. ids.items ≡ map id_at (each_number
        (places_besides names.now declaration.now.name (mentioned_by declaration.now shape)))) }
    ensures marks { OnOk result (length named_in.new.items ≡ length names.now) }
    ensures after { OnOk result (AreBefore (round + 1) named_in.new.items) }
{
    let own = declaration.name.as_slice();
    let mut ids = Vec::new(alloc);
    for mention in declaration.mentions.as_slice() {
        put_named(
            names,
            own,
            mention.name.as_slice(),
            round,
            named_in,
            &mut ids,
        )?;
    }
    if is_mask64(shape) {
        put_named(names, own, b"VkFlags64", round, named_in, &mut ids)?;
    }
    Ok(ids)
}

/// Whether the values of a shape are flags of 64 bits.
fn is_mask64(shape: Shape) -> bool
    ensures { result ≡ is_mask64 shape }
{
    matches!(shape, Shape::Mask64)
}

/// Puts a name behind others, where it is declared, isn't the row's own, and wasn't put in in this round before.
fn put_named(
    names: &NameTable,
    own: &[u8],
    name: &[u8],
    round: usize,
    named_in: &mut Vec<usize>,
    ids: &mut Vec<NameId>,
) -> Result<(), Memory>
    requires { length named_in.old.items ≡ length names.now }
    ensures marks { OnOk result (length named_in.new.items ≡ length names.now) }
    ensures put { OnOk result ((so_far : List ℕ)
        → AreMarked round so_far named_in.old.items ids.old.items
        → AreMarked round (so_far ++ places_besides names.now own.now (name.now ∷ []))
        named_in.new.items ids.new.items) }
{
    if own == name {
        return Ok(());
    }
    if let Some(id) = names.find(name) {
        let place = id.0 as usize;
        if named_in[place] != round {
            named_in[place] = round;
            ids.push(id)?;
        }
    }
    Ok(())
}
