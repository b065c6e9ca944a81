ghost use Rattle.std.specs.Prelude.{◌≡◌, true, All, IfOk};
ghost use Rattle.reg_registry.specs.Words.{is_name};

use super::{OptionId, Options, Setting, bare_but, read_options};
use doc_tree::Document;
use reg_registry::{Registry, is_name};
use std::alloc::{AllocError, Global};
use std::process::Abort;
use std::test::Fail;
use vkb_bytes::{Bytes, Listed};
use vkb_formula::{NameFault, NameId, NameTable};

/// A document of no lines whose conditions mention the words of a text, in order.
fn mentioning(alloc: Global, text: &str) -> Result<Document, NameFault> {
    let mut names = NameTable::new(alloc);
    for name in text.split(' ') {
        if !name.is_empty() {
            names.intern(name.as_bytes())?;
        }
    }
    Ok(Document {
        files: Listed::from_vec(Vec::new(alloc)),
        names,
        conds: Listed::from_vec(Vec::new(alloc)),
        lines: Listed::from_vec(Vec::new(alloc)),
    })
}

/// The words of a text, at spaces.
fn words(alloc: Global, text: &str) -> Result<Vec<Bytes>, AllocError> {
    let mut words = Vec::new(alloc);
    for word in text.split(' ') {
        if !word.is_empty() {
            words.push(Bytes::from_slice(alloc, word.as_bytes())?)?;
        }
    }
    Ok(words)
}

/// The names of a table that a registry can have, in order.
fn named(alloc: Global, names: &NameTable) -> Result<NameTable, NameFault>
    ensures { IfOk result (λ kept. All (λ name. is_name name ≡ true) kept) }
{
    let mut kept = NameTable::new(alloc);
    for id in 0..names.len() {
        let name = names.name(NameId(id));
        if is_name(name) {
            kept.intern(name)?;
        }
    }
    Ok(kept)
}

/// A registry that declares nothing, whose options are these names but for those that are always set.
pub fn registry_of(alloc: Global, names: &NameTable, always: &[Bytes]) -> Result<Registry, Fail> {
    let names = named(alloc, names)?;
    let registry = bare_but(alloc, &names, always)?;
    Ok(registry)
}

/// The names of a registry's options, with a space behind each.
fn option_names(alloc: Global, r: &Registry) -> Result<Vec<u8>, AllocError> {
    let mut text = Vec::new(alloc);
    for option in 0..r.options().len() {
        text.extend_from_slice(r.options().name(NameId(option)))?;
        text.push(b' ')?;
    }
    Ok(text)
}

/// Asserts which of the mentioned names are options over no registry, where the words of `always` are always set.
fn has_options(
    rt: &impl Abort,
    alloc: Global,
    mentioned: &str,
    always: &str,
    want: &str,
) -> Result<(), Fail> {
    let d = mentioning(alloc, mentioned)?;
    let always = words(alloc, always)?;
    let registry = registry_of(alloc, &d.names, always.as_slice())?;
    let found = option_names(alloc, &registry)?;
    assert_eq!(rt; found.as_slice(), want.as_bytes(), "at {mentioned:?}");
    Ok(())
}

#[test]
fn options_are_the_names_that_are_not_always_set(rt: HostRuntime) -> Result<(), Fail> {
    let alloc = rt.alloc();
    has_options(&rt, alloc, "", "", "")?;
    has_options(&rt, alloc, "", "A", "")?;
    has_options(&rt, alloc, "B A", "", "B A ")?;
    has_options(&rt, alloc, "C A D B", "A", "C D B ")?;
    has_options(&rt, alloc, "C A D B", "B X C B", "A D ")?;
    has_options(&rt, alloc, "C A B", "B A C", "")?;
    has_options(&rt, alloc, "VK_a VK_A VK_", "VK_A", "VK_a VK_ ")
}

/// What the words of `mentioned` are over the options of `offered`, where the words of `always` are always set.
fn settings(alloc: Global, mentioned: &str, offered: &str, always: &str) -> Result<Options, Fail> {
    let d = mentioning(alloc, mentioned)?;
    let offers = mentioning(alloc, offered)?;
    let registry = registry_of(alloc, &offers.names, &[])?;
    let always = words(alloc, always)?;
    let options = read_options(alloc, &d, &registry, always.as_slice())?;
    Ok(options)
}

#[test]
fn each_name_has_its_setting(rt: HostRuntime) -> Result<(), Fail> {
    let options = settings(rt.alloc(), "C A D B E", "B C A F", "A X E")?;
    assert_eq!(rt; options.len(), 4);
    assert_eq!(rt; options.setting_of(NameId(0)), Setting::Free(OptionId(1)));
    assert_eq!(rt; options.setting_of(NameId(1)), Setting::Fixed);
    assert_eq!(rt; options.setting_of(NameId(2)), Setting::Unset);
    assert_eq!(rt; options.setting_of(NameId(3)), Setting::Free(OptionId(0)));
    assert_eq!(rt; options.setting_of(NameId(4)), Setting::Fixed);
    assert_eq!(rt; options.setting_of(NameId(5)), Setting::Unset);
    Ok(())
}

#[test]
fn ten_thousand_names_are_read(rt: HostRuntime) -> Result<(), Fail> {
    let alloc = rt.alloc();
    let mut names = NameTable::new(alloc);
    let mut always = Vec::new(alloc);
    for number in 0..10_000u32 {
        let name = format!(in alloc; "{number}")?;
        names.intern(name.as_bytes())?;
        if number % 2 == 0 {
            always.push(Bytes::from_slice(alloc, name.as_bytes())?)?;
        }
    }
    let d = Document {
        files: Listed::from_vec(Vec::new(alloc)),
        names,
        conds: Listed::from_vec(Vec::new(alloc)),
        lines: Listed::from_vec(Vec::new(alloc)),
    };
    let registry = registry_of(alloc, &d.names, always.as_slice())?;
    let options = read_options(alloc, &d, &registry, always.as_slice())?;
    assert!(rt; options.len() == 5_000);
    assert_eq!(rt; options.setting_of(NameId(9_998)), Setting::Fixed);
    assert_eq!(rt;
        options.setting_of(NameId(9_999)),
        Setting::Free(OptionId(4_999))
    );
    Ok(())
}
