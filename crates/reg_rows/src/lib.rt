//! What a registry declares for an API: its types, constants and commands, each with a number, the features and extensions that can be
//! chosen, and the blocks of names that these require and remove. Or else the first thing that is wrong with it.
//!
//! ```text
//! <registry>
//!   <types><type name="int"/><type category="struct" name="VkA">         names   0 int, 1 VkA
//!     <member><type>int</type> <name>n</name></member></type></types>    VkA is a struct with a member n of type 0
//!   <feature api="vulkan" name="VK_V" number="1.0">                      options 0 VK_V
//!     <require><type name="VkA"/></require></feature>                    blocks  VK_V requires 1
//! </registry>
//!
//! let tree = read_markup(alloc, bytes)?;
//! let registry = rows(alloc, bytes, &tree, b"vulkan")?;
//! let name = registry.names().find(b"VkA");
//! ```
//!
//! What an element says by itself is read by `reg_forms`, and what is found under a name, and has which value, by `reg_tables`. Here the
//! faults are put together, one function for each rule (`duplicates`, `unknowns`, and the rules of `reg_tables`), the first of them is
//! told (`order`), and where there is none, the rows are built (`building`). The `Registry` that keeps them, and the search for names that
//! are a circle, are those of `reg_registry`.
#![tactic(auto)]

ghost use Rattle.std.specs.Prelude.{◌≡◌, ◌≤◌, [], IfOk, is_some, length, map, MatchOption};
ghost use Rattle.std.specs.List.{list_any};
ghost use Rattle.reg_registry.specs.Naming.{most_bytes};
ghost use Rattle.reg_reader.specs.Markup.{Spells};
ghost use Rattle.reg_reader.specs.Shown.{IsElementOf};
ghost use Rattle.reg_reader.specs.Views.{Element};
ghost use Rattle.reg_forms.specs.Forms.{forms_of};
ghost use Rattle.reg_forms.specs.Sizes.{AreSmall};
ghost use Rattle.reg_tables.specs.Bits.{Readings, atom_of, bits_of};
ghost use Rattle.reg_tables.specs.Values.{AreValues};
ghost use Rattle.reg_tables.specs.Words.{AreReadings, AreWords};
ghost use Rattle.reg_rows.specs.Answer.{IsAnswer};
ghost use Rattle.reg_rows.specs.Faults.{IsFirst, faults_of};

mod building;
mod duplicates;
mod fault;
mod laws;
mod order;
mod unknowns;

use crate::building::build;
use crate::duplicates::put_duplicates;
use crate::order::first_of;
use crate::unknowns::put_unknowns;
pub use fault::RowFault;
pub use laws::{
    answers_are_one, each_registry_is_answered, only_commands_name_commands, rows_are_within,
};
pub use reg_forms::RowCode;
use reg_forms::{Fault, Forms, OptionForm, read_forms};
use reg_reader::{Element, Node};
use reg_registry::Registry;
use reg_tables::{
    Bit, Tables, Values, find_bits, put_bad_texts, put_limits, put_wrong_values, words,
};
use std::alloc::Global;
pub use vkb_bytes::Memory;
use vkb_bytes::{Bytes, Listed};

#[cfg(test)]
mod tests;

/// What a registry declares for an API, by the Vulkan registry manual (`registry.html`). The tree was read from these bytes.
///
/// The elements and attributes that are taken, and all that can be wrong with them, stand in `docs/FORMATS.md`. `Bad` is the first
/// fault by its place in the text, then by its code, then by its word. Where there is none, `NoFeature` is told where no feature is
/// one of the API, and `NamingCycle` where names name each other in a circle: one through the first name that lies on any.
///
/// The time is linear in the bytes, but for names that are chosen to collide in a table.
pub fn rows(alloc: Global, bytes: &[u8], tree: &Node, api: &[u8]) -> Result<Registry, RowFault>
    requires tree { Spells 32 tree.now bytes.now }
    requires small { length bytes.now ≤ 33554432 }
    ensures answer { (root : Element) → IsElementOf bytes.now tree.now root → IsAnswer (forms_of api.now root) result }
{
    let root = Element::root(bytes, tree);
    let forms = read_forms(alloc, &root, api)?;
    accept(alloc, &forms)
}

/// The rows of forms, or what is wrong with them.
fn accept(alloc: Global, forms: &Forms) -> Result<Registry, RowFault>
    requires { AreSmall most_bytes forms.now }
    ensures { IsAnswer forms.now result }
{
    let tables = Tables::new(alloc, forms)?;
    let values = Values::new(alloc, &tables)?;
    judge(alloc, &tables, &values)
}

/// The rows of forms of which tables and values are known.
fn judge(alloc: Global, tables: &Tables, values: &Values) -> Result<Registry, RowFault>
    requires small { AreSmall most_bytes tables.now }
    requires values { AreValues tables.now values.now.numbers.items values.now.lasts.items }
    ensures { IsAnswer tables.now result }
{
    let places = words(alloc, tables.forms())?;
    let members = find_bits(alloc, tables, &places)?;
    answer(alloc, tables, values, &places, &members)
}

/// The rows of forms of which all is known, or what is wrong with them.
fn answer(
    alloc: Global,
    tables: &Tables,
    values: &Values,
    words: &[Option<Listed<(u32, u32)>>],
    bits: &[Bit],
) -> Result<Registry, RowFault>
    requires small { AreSmall most_bytes tables.now }
    requires values { AreValues tables.now values.now.numbers.items values.now.lasts.items }
    requires words { AreWords tables.now words.now }
    requires bits { (readings : Readings) → AreReadings tables.now readings → map atom_of bits.now ≡ bits_of tables.now readings }
    ensures { IsAnswer tables.now result }
{
    if let Some(fault) = first_fault(alloc, tables, values, words, bits)? {
        return Err(bad(fault));
    }
    if !has_feature(tables.forms().options.as_slice()) {
        return Err(RowFault::NoFeature);
    }
    build(alloc, tables, values, bits)
}

/// A fault as an answer.
fn bad(fault: Fault) -> RowFault
    ensures { result ≡ RowFault.Bad fault.code fault.at fault.word }
{
    let Fault { code, at, word } = fault;
    RowFault::Bad { code, at, word }
}

/// The first fault of all.
fn first_fault(
    alloc: Global,
    tables: &Tables,
    values: &Values,
    words: &[Option<Listed<(u32, u32)>>],
    bits: &[Bit],
) -> Result<Option<Fault>, Memory>
    requires values { AreValues tables.now values.now.numbers.items values.now.lasts.items }
    requires words { AreWords tables.now words.now }
    requires bits { (readings : Readings) → AreReadings tables.now readings → map atom_of bits.now ≡ bits_of tables.now readings }
    ensures { IfOk result (λ found. (readings : Readings) → AreReadings tables.now readings
        → MatchOption found (faults_of tables.now readings ≡ []) (IsFirst (faults_of tables.now readings))) }
{
    let mut faults = own_faults(alloc, tables.forms())?;
    put_bad_texts(alloc, tables.forms(), words, &mut faults)?;
    put_duplicates(alloc, tables, &mut faults)?;
    put_unknowns(alloc, tables, &mut faults)?;
    put_wrong_values(alloc, tables, values, &mut faults)?;
    put_limits(alloc, tables, bits, &mut faults)?;
    Ok(first_of(faults))
}

/// A copy of the faults of elements by themselves.
fn own_faults(alloc: Global, forms: &Forms) -> Result<Vec<Fault>, Memory>
    ensures { IfOk result (λ faults. faults.items ≡ forms.now.faults) }
{
    let mut faults = Vec::new(alloc);
    for fault in forms.faults.as_slice() {
        faults.push(Fault {
            code: fault.code,
            at: fault.at,
            word: Bytes::from_slice(alloc, fault.word.as_slice())?,
        })?;
    }
    Ok(faults)
}

/// Whether there is a feature.
fn has_feature(options: &[OptionForm]) -> bool
    ensures { result ≡ list_any (λ o. is_some o.version) options.now }
{
    for option in options {
        if option.version.is_some() {
            return true;
        }
    }
    false
}
