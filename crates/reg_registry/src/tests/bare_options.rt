//! Registries that declare nothing: want of memory is the one answer that no contract binds.
ghost use Rattle.std.specs.Prelude.{◌≡◌, ◌≤◌, IfOk, All, length, true};
ghost use Rattle.vkb_formula.specs.Names.{AreDifferent, most_names};
ghost use Rattle.reg_registry.specs.Words.{is_name};

use super::*;
use vkb_bytes::Bytes;
use vkb_formula::{Formula, NameId, NameTable};

/// The names of a table, in their order.
fn held(alloc: Global, table: &NameTable) -> Result<Vec<Bytes>, Memory>
    ensures names { IfOk result (λ names. names.items ≡ table.now) }
    ensures few { IfOk result (λ names. length names.items ≤ most_names) }
    ensures differ { IfOk result (λ names. AreDifferent names.items) }
{
    let mut names = Vec::new(alloc);
    for place in 0..table.len() {
        names.push(Bytes::from_slice(alloc, table.name(NameId(place)))?)?;
    }
    Ok(names)
}

/// Whether all have the form of names.
fn are_names(texts: &[Bytes]) -> bool
    ensures { result ≡ true → All (λ name. is_name name ≡ true) texts.now }
{
    for text in texts {
        if !is_name(text.as_slice()) {
            return false;
        }
    }
    true
}

/// A registry that declares nothing, with the options of a table.
fn bare_of(alloc: Global, table: &NameTable) -> Result<Registry, Fail> {
    let options = held(alloc, table)?;
    if !are_names(&options) {
        return Err(Fail::from("no name"));
    }
    Ok(Registry::bare(alloc, &options)?)
}

/// An option is there, and asks for nothing.
fn is_free(registry: &Registry, name: &[u8], place: u32) -> bool {
    if registry.options().find(name) != Some(NameId(place)) || registry.options().len() <= place {
        return false;
    }
    let row = registry.option(place);
    row.version.is_none() && row.bit.is_none() && matches!(row.depends, Formula::Always)
}

#[test]
fn bare_registries_have_free_options(rt: HostRuntime) -> Result<(), Fail> {
    let alloc = rt.alloc();
    let mut table = NameTable::new(alloc);
    put_name(&mut table, b"VK_B")?;
    put_name(&mut table, b"VK_A")?;
    put_name(&mut table, b"VK_B")?;
    let registry = bare_of(alloc, &table)?;
    assert_eq!(rt; registry.options().len(), 2);
    assert!(rt; is_free(&registry, b"VK_B", 0) && is_free(&registry, b"VK_A", 1));
    assert_eq!(rt; registry.names().len(), 0);
    assert!(rt; registry.blocks().is_empty() && registry.tags().is_empty());
    Ok(())
}

#[test]
fn bare_registries_have_many_options(rt: HostRuntime) -> Result<(), Fail> {
    let alloc = rt.alloc();
    let mut table = NameTable::new(alloc);
    for number in 0u32..10_000 {
        table.intern(format!(in alloc; "VK_{number}")?.as_bytes())?;
    }
    let registry = bare_of(alloc, &table)?;
    assert!(rt; is_free(&registry, b"VK_9999", 9999));
    Ok(())
}
