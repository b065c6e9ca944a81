//! The names of a document's conditions, and what each of them is over the options of a registry.
ghost use Rattle.std.specs.Prelude.{◌≡◌, ◌≤◌, List, ℕ, All, true, length, IfOk};
ghost use Rattle.vkb_formula.specs.Names.{AreDifferent, most_names};
ghost use Rattle.doc_tree.specs.Flat.{is_among};
ghost use Rattle.doc_tree.specs.Loaded.{IsLoaded, flat_of};
ghost use Rattle.reg_registry.specs.Rows.{bare_rows};
ghost use Rattle.reg_registry.specs.Words.{is_name};
ghost use Rattle.doc_build.specs.Choices.{free_names};
ghost use Rattle.lift_check.specs.Lines.{AreOptionsOf};
ghost use Rattle.lift_check.specs.Options.{AreSettings, IsBelow, IsSetting, free_among, setting_of};

use crate::Memory;
use doc_build::table_of;
use doc_tree::Document;
use reg_registry::Registry;
use std::alloc::Global;
use std::marker::Model;
use vkb_bytes::Bytes;
use vkb_formula::{NameId, NameTable, Names};

/// The number of an option, from 0.
#[derive(Clone, Copy, Debug, PartialEq, Eq)]
pub(crate) struct OptionId(pub(crate) u32);

/// What a name of a condition is.
#[derive(Clone, Copy, Debug, PartialEq, Eq)]
pub(crate) enum Setting {
    /// It is always set.
    Fixed,
    /// It is set where this option is chosen.
    Free(OptionId),
    /// It is neither, and never set.
    Unset,
}

/// What each name of a document is. The names of the options are those of the registry.
#[derive(Drop)]
pub(crate) struct Options {
    count: u32,
    settings: Vec<Setting>,
}

impl Model for Options {
    ghost use Rattle.std.specs.Prelude.{All};
    ghost use Rattle.lift_check.specs.Options.{IsBelow, Settings};

    ghost Value = { Settings };

    ghost view = { λ o. record { count = o.count; each = o.settings.items } };

    ghost invariant = { λ o. All (IsBelow o.count) o.settings.items };
}

impl Options {
    /// The number of options. It takes no memory.
    pub(crate) fn len(&self) -> u32
        ensures { result ≡ self.now.count }
    {
        self.count
    }

    /// What a name of the document is; a name that the document hasn't is never set. It takes no memory.
    pub(crate) fn setting_of(&self, name: NameId) -> Setting
        ensures setting { result ≡ setting_of self.now name }
        ensures below { IsBelow self.now.count result }
    {
        self.settings
            .get(name.0 as usize)
            .copied()
            .unwrap_or(Setting::Unset)
    }
}

/// What the names of a document are over a registry, where some names are always set: each other name is an option where the registry
/// has one of that name. An `Err` is want of memory.
pub(crate) fn read_options(
    alloc: Global,
    d: &Document,
    r: &Registry,
    always: &[Bytes],
) -> Result<Options, Memory>
    ensures { IfOk result (AreOptionsOf always.now r.now d.now) }
{
    let fixed = table_of(alloc, always)?;
    let options = settings_over(alloc, &fixed, r.options(), &d.names)?;
    Ok(options)
}

/// What names are over options, where those of a table are always set.
fn settings_over(
    alloc: Global,
    fixed: &Names,
    options: &NameTable,
    names: &NameTable,
) -> Result<Options, Memory>
    ensures count { IfOk result (λ o. o.count ≡ length options.now) }
    ensures settings { IfOk result (λ o. AreSettings fixed.now options.now names.now o.each) }
{
    let count = names.len();
    let mut settings = Vec::with_capacity(alloc, count as usize)?;
    for id in 0..count {
        let setting = setting_over(fixed, options, names.name(NameId(id)));
        settings.push(setting)?;
    }
    Ok(Options {
        count: options.len(),
        settings,
    })
}

/// What a name is over options, where those of a table are always set.
fn setting_over(fixed: &Names, options: &NameTable, name: &[u8]) -> Setting
    ensures { IsSetting fixed.now options.now name.now result }
{
    if fixed.find(name).is_some() {
        return Setting::Fixed;
    }
    match options.find(name) {
        Some(option) => Setting::Free(OptionId(option.0)),
        None => Setting::Unset,
    }
}

/// The registry that stands for none: it declares nothing, and its options are the names of a document's conditions that aren't always
/// set, in the order of first mention. An `Err` is want of memory.
pub fn free_options(alloc: Global, d: &Document, always: &[Bytes]) -> Result<Registry, Memory>
    requires { (text : List ℕ) × IsLoaded text d.now }
    ensures { (text : List ℕ) → IsLoaded text d.now
        → IfOk result (λ r. r ≡ bare_rows (free_names always.now (flat_of text d.now))) }
{
    let registry = bare_but(alloc, &d.names, always)?;
    Ok(registry)
}

/// A registry that declares nothing, whose options are names, but for those that are always set.
fn bare_but(alloc: Global, names: &NameTable, always: &[Bytes]) -> Result<Registry, Memory>
    requires { All (λ name. is_name name ≡ true) names.now }
    ensures { IfOk result (λ r. r ≡ bare_rows (free_among always.now names.now)) }
{
    let set = table_of(alloc, always)?;
    let free = names_but(alloc, names, &set)?;
    let registry = Registry::bare(alloc, free.as_slice())?;
    Ok(registry)
}

/// The names that aren't always set, in order, where those of a table are.
fn names_but(alloc: Global, names: &NameTable, fixed: &Names) -> Result<Vec<Bytes>, Memory>
    ensures free { IfOk result (λ free. free.items ≡ free_among fixed.now names.now) }
    ensures few { IfOk result (λ free. length free.items ≤ most_names) }
    ensures differ { AreDifferent names.now }
{
    let mut free = Vec::new(alloc);
    for id in 0..names.len() {
        let name = names.name(NameId(id));
        if fixed.find(name).is_none() {
            free.push(Bytes::from_slice(alloc, name)?)?;
        }
    }
    Ok(free)
}

#[cfg(test)]
pub(crate) mod tests;
