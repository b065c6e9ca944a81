//! Whole registries, with what their rows are.
ghost use Rattle.std.specs.Prelude.{◌≤◌, length};
ghost use Rattle.reg_reader.specs.Markup.{Spells};

use super::*;
use reg_reader::Node;
use vkb_formula::{Formula, NameId};

/// The rows of a registry.
fn read(alloc: Global, text: &[u8], tree: &Node) -> Result<Registry, Fail>
    requires tree { Spells 32 tree.now text.now }
    requires small { length text.now ≤ 33554432 }
{
    match rows(alloc, text, tree, b"vulkan") {
        Ok(registry) => Ok(registry),
        Err(_) => Err(Fail::from("a fault")),
    }
}

const WITH_BIT: &[u8] =
    b"<registry><types><type name='VkBool32'/><type category='struct' name='VkF'><member><type>VkBool32</type> <name>m</name></member></type></types><feature api='vulkan' name='VK_V' number='1.0'/><extensions><extension name='VK_A' number='1' supported='vulkan'><require><type name='VkF'/></require></extension><extension name='VK_B' number='2' supported='vulkan' depends='VkF::m+VkF::n'/></extensions></registry>";

#[test]
fn members_of_structs_are_options(rt: HostRuntime) -> Result<(), Fail> {
    let alloc = rt.alloc();
    let tree = read_markup(alloc, WITH_BIT)?;
    let registry = read(alloc, WITH_BIT, &tree)?;
    let names: [&[u8]; 4] = [b"VK_V", b"VK_A", b"VK_B", b"VkF::m"];
    assert_eq!(rt; registry.options().len(), 4);
    for (place, name) in names.iter().enumerate() {
        assert_eq!(rt; registry.options().find(name), Some(NameId(place as u32)));
    }
    if registry.options().len() < 4 {
        return Err(Fail::from("too few"));
    }
    assert_eq!(rt; registry.option(0).version, Some((1, 0)));
    assert!(rt; matches!(registry.option(2).depends, Formula::All(_)));
    let Some((owner, member)) = &registry.option(3).bit else {
        return Err(Fail::from("no bit"));
    };
    assert_eq!(rt; *owner, NameId(1));
    assert_eq!(rt; member.as_slice(), b"m".as_slice());
    Ok(())
}

#[test]
fn many_names_are_read(rt: HostRuntime) -> Result<(), Fail> {
    let alloc = rt.alloc();
    let mut elements = Vec::from_slice(alloc, b"<types>")?;
    for number in 0u32..10_000 {
        let element = format!(in alloc; "<type name='T{number}'/>")?;
        elements.extend_from_slice(element.as_bytes())?;
    }
    elements.extend_from_slice(b"</types>")?;
    sound(&rt, alloc, elements.as_slice())?;
    elements.extend_from_slice(b"<types>@<type name='T9999'/></types>")?;
    wrong(&rt, alloc, elements.as_slice(), "DuplicateName", "T9999")
}
