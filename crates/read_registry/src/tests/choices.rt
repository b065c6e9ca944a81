//! Choices that words name, and permitted choices.
use super::*;
use reg_permit::{ChoiceFault, choice_of, is_permitted, permit_node};
use vkb_bytes::Bytes;

/// What words come to: the chosen options with a space behind each, or what is wrong with them.
fn told(alloc: Global, text: &[u8], words: &[&[u8]]) -> Result<Vec<u8>, Fail> {
    let registry = registry_of(alloc, text)?;
    let words = copies(alloc, words)?;
    match choice_of(alloc, &registry, &words) {
        Ok(choice) => chosen_text(alloc, &registry, choice.chosen.as_slice()),
        Err(ChoiceFault::UnknownOption { word }) => {
            let mut told = Vec::from_slice(alloc, b"unknown ")?;
            told.extend_from_slice(word.as_slice())?;
            Ok(told)
        }
        Err(ChoiceFault::NotPermitted { option }) => {
            Ok(format!(in alloc; "not permitted {option:?}")?.into_bytes())
        }
        Err(ChoiceFault::Memory) => Err(Fail::from("out of memory")),
    }
}

fn copies(alloc: Global, words: &[&[u8]]) -> Result<Vec<Bytes>, Memory> {
    let mut copies = Vec::new(alloc);
    for word in words {
        copies.push(Bytes::from_slice(alloc, word)?)?;
    }
    Ok(copies)
}

/// The chosen options, with a space behind each.
fn chosen_text(alloc: Global, registry: &Registry, chosen: &[bool]) -> Result<Vec<u8>, Fail> {
    let mut text = Vec::new(alloc);
    for place in 0..registry.options().len() {
        if let Some(true) = chosen.get(place as usize) {
            text.extend_from_slice(registry.options().name(NameId(place)))?;
            text.push(b' ')?;
        }
    }
    Ok(text)
}

/// An extension depends on another.
const DEPENDS: &[u8] =
    b"<registry><feature api='vulkan' name='VK_V' number='1.0'/><extensions><extension name='VK_A' number='1' supported='vulkan'/><extension name='VK_B' number='2' supported='vulkan' depends='VK_A'/></extensions></registry>";

/// An extension depends on a member of a struct that another requires.
const WITH_BIT: &[u8] =
    b"<registry><types><type name='VkBool32'/><type category='struct' name='VkF'><member><type>VkBool32</type> <name>m</name></member></type></types><feature api='vulkan' name='VK_V' number='1.0'/><extensions><extension name='VK_A' number='1' supported='vulkan'><require><type name='VkF'/></require></extension><extension name='VK_B' number='2' supported='vulkan' depends='VkF::m'/></extensions></registry>";

/// Features whose numbers don't rise.
const VERSIONS: &[u8] =
    b"<registry><feature api='vulkan' name='VK_2' number='1.10'/><feature api='vulkan' name='VK_0' number='1.0'/><feature api='vulkan' name='VK_3' number='2.0'/><feature api='vulkan' name='VK_1' number='1.9'/></registry>";

#[test]
fn words_name_permitted_choices(rt: HostRuntime) -> Result<(), Fail> {
    let alloc = rt.alloc();
    let table: [(&[u8], &[&[u8]], &[u8]); 16] = [
        (DEPENDS, &[b"VK_V"], b"VK_V "),
        (
            DEPENDS,
            &[b"VK_B", b"VK_V", b"VK_A", b"VK_B"],
            b"VK_V VK_A VK_B ",
        ),
        (DEPENDS, &[b"VK_V", b"VK_B"], b"not permitted NameId(2)"),
        (DEPENDS, &[b"VK_A"], b"not permitted NameId(0)"),
        (DEPENDS, &[], b"not permitted NameId(0)"),
        (DEPENDS, &[b"VK_B"], b"not permitted NameId(0)"),
        (DEPENDS, &[b"VK_B", b"VK_C", b"VK_D"], b"unknown VK_C"),
        (WITH_BIT, &[b"VK_V", b"VkF::m"], b"not permitted NameId(3)"),
        (
            WITH_BIT,
            &[b"VK_V", b"VK_A", b"VkF::m"],
            b"VK_V VK_A VkF::m ",
        ),
        (
            WITH_BIT,
            &[b"VK_V", b"VK_A", b"VK_B"],
            b"not permitted NameId(2)",
        ),
        (
            WITH_BIT,
            &[b"VK_V", b"VK_A", b"VK_B", b"VkF::m"],
            b"VK_V VK_A VK_B VkF::m ",
        ),
        (WITH_BIT, &[b"VK_V", b"VkF::n"], b"unknown VkF::n"),
        (VERSIONS, &[b"VK_0"], b"VK_0 "),
        (VERSIONS, &[b"VK_0", b"VK_1", b"VK_2"], b"VK_2 VK_0 VK_1 "),
        (VERSIONS, &[b"VK_0", b"VK_2"], b"not permitted NameId(0)"),
        (
            VERSIONS,
            &[b"VK_0", b"VK_1", b"VK_3"],
            b"not permitted NameId(2)",
        ),
    ];
    for (text, words, said) in table {
        let answer = told(alloc, text, words)?;
        assert_eq!(rt; answer.as_slice(), said);
    }
    Ok(())
}

/// Whether the choice of a number is permitted.
fn permits(alloc: Global, registry: &Registry, number: u32) -> Result<bool, Fail> {
    let choice = choice_at(alloc, registry, number)?;
    let here = closure(alloc, registry, &choice)?;
    Ok(is_permitted(registry, &choice, &here))
}

/// Whether the node of permitted choices is true at the choice of a number.
fn node_permits(alloc: Global, registry: &Registry, number: u32) -> Result<bool, Fail> {
    let mut pool = Pool::new(alloc);
    let here = presence(alloc, registry, &mut pool)?;
    let node = permit_node(alloc, registry, &here, &mut pool)?;
    let choice = choice_at(alloc, registry, number)?;
    let values = pool.values(choice.chosen.as_slice())?;
    match values.get(node.0 as usize) {
        Some(value) => Ok(*value),
        None => Err(Fail::from("no such node")),
    }
}

/// How many of so many choices are permitted.
fn count_permitted(
    rt: &(impl Abort + Print),
    alloc: Global,
    registry: &Registry,
    choices: u32,
) -> Result<u32, Fail> {
    let mut count = 0u32;
    for number in 0..choices {
        let permitted = permits(alloc, registry, number)?;
        let node = node_permits(alloc, registry, number)?;
        assert_eq!(rt; node, permitted);
        if permitted && count < choices {
            count += 1;
        }
    }
    Ok(count)
}

#[test]
fn the_node_of_permitted_choices_is_true_at_these(rt: HostRuntime) -> Result<(), Fail> {
    let alloc = rt.alloc();
    let table: [(&[u8], u32, u32); 3] = [(DEPENDS, 8, 3), (WITH_BIT, 16, 4), (VERSIONS, 16, 4)];
    for (text, choices, permitted) in table {
        let registry = registry_of(alloc, text)?;
        let count = count_permitted(&rt, alloc, &registry, choices)?;
        assert_eq!(rt; count, permitted);
    }
    Ok(())
}
