//! Which lines of a document a choice keeps.
ghost use Rattle.std.specs.Prelude.{◌≡◌, ◌&&◌, ◌++◌, ℕ, List, [], length, map, IfOk};
ghost use Rattle.std.specs.List.{list_all, list_any};
ghost use Rattle.doc_tree.specs.Flat.{is_among};
ghost use Rattle.doc_tree.specs.Loaded.{IsLoaded};
ghost use Rattle.doc_build.specs.Built.{set_names};
ghost use Rattle.doc_build.specs.Choices.{chosen_of};
ghost use Rattle.doc_build.specs.Names.{is_on};
ghost use Rattle.doc_build.specs.Keeping.{KeepsLines, line_met, meets_by, met_at, met_from};

use crate::Memory;
use doc_tree::{Cond, CondId, DocLine, Document};
use reg_registry::Registry;
use std::alloc::Global;
use vkb_bytes::Bytes;
use vkb_formula::{NameId, NameTable, Names};

/// For each condition of a document whether it and those round it are met at a choice, where some names are always set.
pub(crate) fn conditions_met(
    alloc: Global,
    d: &Document,
    r: &Registry,
    chosen: &[bool],
    always: &[Bytes],
) -> Result<Vec<bool>, Memory>
    requires { length chosen.now ≡ length r.now.options }
    ensures { (text : List ℕ) → IsLoaded text d.now → IfOk result (λ made. KeepsLines (set_names always.now r.now chosen.now) text d.now made.items) }
{
    let fixed = table_of(alloc, always)?;
    let set = names_set(alloc, &d.names, r.options(), &fixed, chosen)?;
    let made = met_among(alloc, d.conds.as_slice(), set.as_slice())?;
    Ok(made)
}

/// Whether the choice keeps a line, by what is met of the conditions.
pub(crate) fn is_kept(made: &[bool], line: &DocLine) -> bool
    ensures { result ≡ line_met made.now line.now }
{
    is_met_at(made, line.own.or(line.within))
}

/// For each condition whether it and those round it are met, where a value for each name tells whether it is set.
fn met_among(alloc: Global, conds: &[Cond], set: &[bool]) -> Result<Vec<bool>, Memory>
    ensures { IfOk result (λ made. made.items ≡ met_from (meets_by (is_on set.now)) [] conds.now) }
{
    let mut made = Vec::with_capacity(alloc, conds.len())?;
    for cond in conds {
        let met = is_met(made.as_slice(), set, cond);
        made.push(met)?;
    }
    Ok(made)
}

/// Whether a condition and those round it are met, by what was made of those before it.
fn is_met(made: &[bool], set: &[bool], cond: &Cond) -> bool
    ensures { result ≡ (met_at made.now cond.now.within && meets_by (is_on set.now) cond.now) }
{
    is_met_at(made, cond.within) && meets(set, cond)
}

/// What was made of a condition; where there is none, true.
fn is_met_at(made: &[bool], cond: Option<CondId>) -> bool
    ensures { result ≡ met_at made.now cond }
{
    match cond {
        Some(cond) => made.get(cond.0 as usize).copied().unwrap_or(true),
        None => true,
    }
}

/// Whether a condition is met by itself.
fn meets(set: &[bool], cond: &Cond) -> bool
    ensures { result ≡ meets_by (is_on set.now) cond.now }
{
    let names = cond.names.as_slice();
    let held = if cond.any {
        any_on(set, names)
    } else {
        all_on(set, names)
    };
    if cond.negated { !held } else { held }
}

fn any_on(set: &[bool], names: &[NameId]) -> bool
    ensures { result ≡ list_any (is_on set.now) names.now }
{
    names.iter().any(|name| is_on(set, *name))
}

fn all_on(set: &[bool], names: &[NameId]) -> bool
    ensures { result ≡ list_all (is_on set.now) names.now }
{
    names.iter().all(|name| is_on(set, *name))
}

/// Whether a name is set.
fn is_on(set: &[bool], name: NameId) -> bool
    ensures { result ≡ is_on set.now name }
{
    set.get(name.0 as usize).copied().unwrap_or(false)
}

/// For each name whether it is set: it always is, or it is a chosen option.
fn names_set(
    alloc: Global,
    names: &NameTable,
    options: &NameTable,
    fixed: &Names,
    chosen: &[bool],
) -> Result<Vec<bool>, Memory>
    requires { length chosen.now ≡ length options.now }
    ensures { IfOk result (λ set. (always : List (List ℕ)) → ((name : List ℕ) → is_among fixed.now name ≡ is_among always name)
        → set.items ≡ map (λ name. is_among (always ++ chosen_of options.now chosen.now) name) names.now) }
{
    let count = names.len();
    let mut set = Vec::with_capacity(alloc, count as usize)?;
    for id in 0..count {
        let value = is_set(names.name(NameId(id)), options, fixed, chosen);
        set.push(value)?;
    }
    Ok(set)
}

/// Whether a name is set.
fn is_set(name: &[u8], options: &NameTable, fixed: &Names, chosen: &[bool]) -> bool
    requires { length chosen.now ≡ length options.now }
    ensures { result ≡ is_among (fixed.now ++ chosen_of options.now chosen.now) name.now }
{
    if fixed.find(name).is_some() {
        return true;
    }
    match options.find(name) {
        Some(option) => chosen[option.0 as usize],
        None => false,
    }
}

/// A table of names, in which each is found by its hash.
pub fn table_of(alloc: Global, names: &[Bytes]) -> Result<Names, Memory>
    ensures { IfOk result (λ table. (name : List ℕ) → is_among table name ≡ is_among names.now name) }
{
    let mut table = Names::new(alloc);
    for name in names {
        table.intern(name.as_slice())?;
    }
    Ok(table)
}
