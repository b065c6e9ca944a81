//! Closures, orders, and the presence of names.
ghost use Rattle.std.specs.Prelude.{◌≡◌, length};

use super::*;
use vkb_formula::{NameSet, NodeId};

/// The names that a registry declares at the choice of a number, in order, with a space behind each.
fn declared(alloc: Global, text: &[u8], number: u32) -> Result<Vec<u8>, Fail> {
    let registry = registry_of(alloc, text)?;
    let ids = declared_ids(alloc, &registry, number)?;
    names_at(alloc, &registry, &ids)
}

fn declared_ids(alloc: Global, registry: &Registry, number: u32) -> Result<Vec<NameId>, Memory> {
    let choice = choice_at(alloc, registry, number)?;
    let set = closure(alloc, registry, &choice)?;
    order(alloc, registry, &set)
}

/// A struct that names itself.
const OWN: &[u8] =
    b"<registry><types><type category='struct' name='VkN'><member>const struct <type>VkN</type>* <name>pNext</name></member></type></types><feature api='vulkan' name='VK_V' number='1.0'><require><type name='VkN'/></require></feature></registry>";

/// An extension removes a name that another has as its member's type.
const REMOVED_AND_NAMED: &[u8] =
    b"<registry><types><type category='struct' name='VkFoo'><member><type>VkBar</type> <name>m</name></member></type><type category='struct' name='VkBar'/></types><feature api='vulkan' name='VK_V' number='1.0'><require><type name='VkFoo'/><type name='VkBar'/></require></feature><extensions><extension name='VK_R' number='1' supported='vulkan'><remove><type name='VkBar'/></remove></extension></extensions></registry>";

/// The same, where nothing names it.
const REMOVED: &[u8] =
    b"<registry><types><type category='struct' name='VkFoo'/><type category='struct' name='VkBar'/></types><feature api='vulkan' name='VK_V' number='1.0'><require><type name='VkFoo'/><type name='VkBar'/></require></feature><extensions><extension name='VK_R' number='1' supported='vulkan'><remove><type name='VkBar'/></remove></extension></extensions></registry>";

/// A struct whose array's length is a constant, and a bitmask with its bits.
const MENTIONS: &[u8] =
    b"<registry><types><type name='int'/><type category='struct' name='VkA'><member><type>int</type> <name>a</name>[<enum>VK_N</enum>]</member></type><type category='bitmask' name='VkM' bitvalues='VkB'>x</type><type category='enum' name='VkB'/></types><enums name='API Constants'><enum name='VK_N' value='4'/></enums><feature api='vulkan' name='VK_V' number='1.0'><require><type name='VkA'/></require></feature><extensions><extension name='VK_M' number='1' supported='vulkan'><require><type name='VkM'/></require></extension></extensions></registry>";

/// Blocks that depend on an extension.
const DEPENDING: &[u8] =
    b"<registry><types><type name='a'/><type name='b'/><type name='c'/></types><feature api='vulkan' name='VK_V' number='1.0'><require><type name='a'/></require></feature><extensions><extension name='VK_A' number='1' supported='vulkan'/><extension name='VK_B' number='2' supported='vulkan'><require depends='VK_A'><type name='b'/></require><require><type name='c'/></require><remove depends='VK_A+VK_V'><type name='a'/></remove></extension></extensions></registry>";

/// Names that stand before what they name, and one that several name.
const BACKWARDS: &[u8] =
    b"<registry><types><type category='struct' name='VkA'><member><type>VkB</type> <name>m</name></member><member><type>VkD</type> <name>n</name></member></type><type category='struct' name='VkB'><member><type>VkC</type> <name>m</name></member></type><type category='struct' name='VkC'/><type category='struct' name='VkD'><member><type>VkC</type> <name>m</name></member></type><type category='struct' name='VkE'/></types><feature api='vulkan' name='VK_V' number='1.0'><require><type name='VkA'/><type name='VkE'/></require></feature></registry>";

/// A 64-bit enum type, which names the type of its flags.
const FLAGS: &[u8] =
    b"<registry><types><type category='enum' name='VkX'/><type name='VkFlags64'/></types><enums name='VkX' type='bitmask' bitwidth='64'/><feature api='vulkan' name='VK_V' number='1.0'/><extensions><extension name='VK_X' number='1' supported='vulkan'><require><type name='VkX'/></require></extension></extensions></registry>";

/// A struct that an extension requires.
const REQUIRED: &[u8] =
    b"<registry><types><type category='struct' name='VkFoo'/></types><feature api='vulkan' name='VK_V' number='1.0'/><extensions><extension name='VK_B' number='1' supported='vulkan'><require><type name='VkFoo'/></require></extension></extensions></registry>";

#[test]
fn names_are_declared_behind_what_they_name(rt: HostRuntime) -> Result<(), Fail> {
    let alloc = rt.alloc();
    let table: [(&[u8], u32, &[u8]); 19] = [
        (OWN, 0, b""),
        (OWN, 1, b"VkN "),
        (REMOVED_AND_NAMED, 1, b"VkBar VkFoo "),
        (REMOVED_AND_NAMED, 2, b""),
        (REMOVED_AND_NAMED, 3, b"VkBar VkFoo "),
        (REMOVED, 1, b"VkFoo VkBar "),
        (REMOVED, 3, b"VkFoo "),
        (MENTIONS, 1, b"int VK_N VkA "),
        (MENTIONS, 2, b"VkB VkM "),
        (MENTIONS, 3, b"int VkB VkM VK_N VkA "),
        (DEPENDING, 1, b"a "),
        (DEPENDING, 4, b"c "),
        (DEPENDING, 5, b"a c "),
        (DEPENDING, 6, b"b c "),
        (DEPENDING, 7, b"b c "),
        (BACKWARDS, 1, b"VkC VkB VkD VkA VkE "),
        (FLAGS, 2, b"VkFlags64 VkX "),
        (REQUIRED, 1, b""),
        (REQUIRED, 3, b"VkFoo "),
    ];
    for (text, number, names) in table {
        let said = declared(alloc, text, number)?;
        assert_eq!(rt; said.as_slice(), names);
    }
    Ok(())
}

/// The names whose nodes are true at the choice of a number, in the order of the registry.
fn present(alloc: Global, registry: &Registry, number: u32) -> Result<Vec<u8>, Fail> {
    let mut pool = Pool::new(alloc);
    let ids = presence(alloc, registry, &mut pool)?;
    let choice = choice_at(alloc, registry, number)?;
    let values = pool.values(choice.chosen.as_slice())?;
    let here = places_on(alloc, registry.names().len(), &ids, values.as_slice())?;
    names_at(alloc, registry, &here)
}

/// The places of the nodes that are true, among so many.
fn places_on(
    alloc: Global,
    count: u32,
    nodes: &[NodeId],
    values: &[bool],
) -> Result<Vec<NameId>, Memory> {
    let mut here = Vec::new(alloc);
    for place in 0..count {
        if is_on(nodes.get(place as usize), values) {
            here.push(NameId(place))?;
        }
    }
    Ok(here)
}

/// Whether there is a node, and it is true.
fn is_on(node: Option<&NodeId>, values: &[bool]) -> bool {
    match node {
        Some(node) => matches!(values.get(node.0 as usize), Some(true)),
        None => false,
    }
}

/// The names that the closure has at the choice of a number, in the order of the registry.
fn closed(alloc: Global, registry: &Registry, number: u32) -> Result<Vec<u8>, Fail> {
    let choice = choice_at(alloc, registry, number)?;
    let set = closure(alloc, registry, &choice)?;
    let here = places_in(alloc, registry, &set)?;
    names_at(alloc, registry, &here)
}

/// The places of the names of a set.
fn places_in(alloc: Global, registry: &Registry, set: &NameSet) -> Result<Vec<NameId>, Memory>
    requires { length set.now ≡ length registry.now.names }
{
    let mut here = Vec::new(alloc);
    for place in 0..registry.names().len() {
        if set.has(NameId(place)) {
            here.push(NameId(place))?;
        }
    }
    Ok(here)
}

#[test]
fn presence_is_the_closure_at_each_choice(rt: HostRuntime) -> Result<(), Fail> {
    let alloc = rt.alloc();
    let table: [(&[u8], u32); 8] = [
        (OWN, 2),
        (REMOVED_AND_NAMED, 4),
        (REMOVED, 4),
        (MENTIONS, 4),
        (DEPENDING, 8),
        (BACKWARDS, 2),
        (FLAGS, 4),
        (REQUIRED, 4),
    ];
    for (text, choices) in table {
        let registry = registry_of(alloc, text)?;
        agree(&rt, alloc, &registry, choices)?;
    }
    Ok(())
}

fn agree(
    rt: &(impl Abort + Print),
    alloc: Global,
    registry: &Registry,
    choices: u32,
) -> Result<(), Fail> {
    for number in 0..choices {
        let present = present(alloc, registry, number)?;
        let closed = closed(alloc, registry, number)?;
        assert_eq!(rt; present.as_slice(), closed.as_slice());
    }
    Ok(())
}

/// A registry of 10,000 structs, each with a pointer to the next; the first is required.
fn long_chain(alloc: Global) -> Result<Vec<u8>, Fail> {
    let mut text = Vec::from_slice(alloc, b"<registry><types>")?;
    for number in 0u32..9_999 {
        let next = number + 1;
        let element = format!(in alloc;
            "<type category='struct' name='S{number}'><member><type>S{next}</type>* <name>m</name></member></type>"
        )?;
        text.extend_from_slice(element.as_bytes())?;
    }
    text.extend_from_slice(
        b"<type category='struct' name='S9999'/></types><feature api='vulkan' name='VK_V' number='1.0'><require><type name='S0'/></require></feature></registry>",
    )?;
    Ok(text)
}

#[test]
fn a_long_chain_of_names_is_declared(rt: HostRuntime) -> Result<(), Fail> {
    let alloc = rt.alloc();
    let text = long_chain(alloc)?;
    let registry = registry_of(alloc, &text)?;
    let ids = declared_ids(alloc, &registry, 1)?;
    assert_eq!(rt; ids.len(), 10_000);
    assert_eq!(rt; ids.first().copied(), Some(NameId(9_999)));
    assert_eq!(rt; ids.last().copied(), Some(NameId(0)));
    let present = present(alloc, &registry, 1)?;
    let closed = closed(alloc, &registry, 1)?;
    assert!(rt; closed.len() > 50_000);
    assert_eq!(rt; present.as_slice(), closed.as_slice());
    Ok(())
}
