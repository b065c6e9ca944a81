//! Valid usage statements that follow from a registry.
use super::*;
use vu_implicit::{Statement, statements};

/// Types of all kinds, of which some are aliases.
const TYPES: &[u8] =
    b"<registry><types><type name='void'/><type name='u32'/><type category='basetype'><name>B</name></type><type category='handle'><name>H</name></type><type category='handle' name='HA' alias='H'/><type category='handle' name='HB' alias='HA'/><type category='enum' name='E'/><type category='enum' name='EA' alias='E'/><type category='enum' name='Bits'/><type category='enum' name='Old'/><type category='bitmask' requires='Bits'><name>M</name></type><type category='bitmask' name='MA' alias='M' requires='Old'/><type category='bitmask' bitvalues='Bits' requires='Old'><name>V</name></type><type category='bitmask'><name>Z</name></type><type category='funcpointer'><name>F</name></type><type category='struct' name='S'/><type category='struct' name='SA' alias='S'/><type category='union' name='U'/><type category='basetype' name='Turned' alias='E'/>";

/// What stands behind the types.
const END: &[u8] =
    b"</types><commands><command name='c_alias' alias='c'/><command><proto><type>void</type> <name>c</name></proto><param><type>H</type> <name>sType</name></param><param len='n'>const <type>F</type>* <name>pNext</name></param><param><type>u32</type> <name>n</name></param></command></commands><feature api='vulkan' name='VK_V' number='1.0'/></registry>";

/// Adds a line with a statement, and with the name that it needs.
fn add_statement(text: &mut Vec<u8>, registry: &Registry, said: &Statement) -> Result<(), Fail> {
    text.extend_from_slice(said.tag.as_slice())?;
    text.extend_from_slice(b": ")?;
    text.extend_from_slice(said.text.as_slice())?;
    if let Some(id) = said.needs {
        if id.0 >= registry.names().len() {
            return Err(Fail::from("no such name"));
        }
        text.extend_from_slice(b" (needs ")?;
        text.extend_from_slice(registry.names().name(id))?;
        text.push(b')')?;
    }
    text.push(b'\n')?;
    Ok(())
}

/// The statements of a name, each in a line.
fn said_of(alloc: Global, registry: &Registry, name: &[u8]) -> Result<Vec<u8>, Fail> {
    let Some(id) = registry.names().find(name) else {
        return Err(Fail::from("no such name"));
    };
    let mut text = Vec::new(alloc);
    if id.0 < registry.names().len() {
        for said in statements(alloc, registry, id)?.as_slice() {
            add_statement(&mut text, registry, said)?;
        }
    }
    Ok(text)
}

/// The statements of a name, where these types stand behind those of all kinds.
fn said_with(alloc: Global, types: &[u8], name: &[u8]) -> Result<Vec<u8>, Fail> {
    let mut text = Vec::from_slice(alloc, TYPES)?;
    text.extend_from_slice(types)?;
    text.extend_from_slice(END)?;
    let registry = registry_of(alloc, text.as_slice())?;
    said_of(alloc, &registry, name)
}

/// The statements of a struct `X` with these members.
fn said_by(alloc: Global, members: &[u8]) -> Result<Vec<u8>, Fail> {
    let mut text = Vec::from_slice(alloc, b"<type category='struct' name='X'>")?;
    text.extend_from_slice(members)?;
    text.extend_from_slice(b"</type>")?;
    said_with(alloc, text.as_slice(), b"X")
}

/// Each of these structs `X` has these statements.
fn are_said(rt: &impl Abort, alloc: Global, table: &[(&[u8], &[u8])]) -> Result<(), Fail> {
    for (members, lines) in table {
        let said = said_by(alloc, members)?;
        assert_eq!(rt; said.as_slice(), *lines);
    }
    Ok(())
}

#[test]
fn handles_and_enum_types_are_valid(rt: HostRuntime) -> Result<(), Fail> {
    let table: [(&[u8], &[u8]); 9] = [
        (
            b"<member><type>H</type> <name>h</name></member>",
            b"VUID-X-h-parameter: pname:h must: be a valid slink:H handle\n",
        ),
        (
            b"<member optional='true'><type>H</type> <name>h</name></member>",
            b"VUID-X-h-parameter: If pname:h is not `VK_NULL_HANDLE`, it must: be a valid slink:H handle\n",
        ),
        (
            b"<member optional='false,true'><type>HB</type> <name>h</name></member>",
            b"VUID-X-h-parameter: pname:h must: be a valid slink:HB handle\n",
        ),
        (
            b"<member><type>E</type> <name>e</name></member>",
            b"VUID-X-e-parameter: pname:e must: be a valid elink:E value\n",
        ),
        (
            b"<member optional='true'><type>EA</type> <name>e</name></member>",
            b"VUID-X-e-parameter: pname:e must: be a valid elink:EA value\n",
        ),
        (
            b"<member><type>Turned</type> <name>e</name></member>",
            b"VUID-X-e-parameter: pname:e must: be a valid elink:Turned value\n",
        ),
        (
            b"<member noautovalidity='true'><type>H</type> <name>h</name></member>",
            b"",
        ),
        (b"<member><type>u32</type> <name>n</name></member>", b""),
        (b"<member><type>B</type> <name>b</name></member>", b""),
    ];
    are_said(&rt, rt.alloc(), &table)
}

#[test]
fn flags_are_of_their_bits(rt: HostRuntime) -> Result<(), Fail> {
    let table: [(&[u8], &[u8]); 6] = [
        (
            b"<member><type>M</type> <name>f</name></member>",
            b"VUID-X-f-parameter: pname:f must: be a valid combination of elink:Bits values\nVUID-X-f-requiredbitmask: pname:f must: not be `0`\n",
        ),
        (
            b"<member optional='true'><type>M</type> <name>f</name></member>",
            b"VUID-X-f-parameter: pname:f must: be a valid combination of elink:Bits values\n",
        ),
        (
            b"<member optional='true'><type>MA</type> <name>f</name></member>",
            b"VUID-X-f-parameter: pname:f must: be a valid combination of elink:Bits values\n",
        ),
        (
            b"<member optional='true'><type>V</type> <name>f</name></member>",
            b"VUID-X-f-parameter: pname:f must: be a valid combination of elink:Bits values\n",
        ),
        (
            b"<member optional='true'><type>Z</type> <name>f</name></member>",
            b"VUID-X-f-zerobitmask: pname:f must: be `0`\n",
        ),
        (
            b"<member><type>Z</type> <name>f</name></member>",
            b"VUID-X-f-zerobitmask: pname:f must: be `0`\n",
        ),
    ];
    are_said(&rt, rt.alloc(), &table)
}

#[test]
fn structures_and_functions_are_valid(rt: HostRuntime) -> Result<(), Fail> {
    let table: [(&[u8], &[u8]); 5] = [
        (
            b"<member><type>S</type> <name>s</name></member>",
            b"VUID-X-s-parameter: pname:s must: be a valid slink:S structure\n",
        ),
        (
            b"<member optional='true'><type>SA</type> <name>s</name></member>",
            b"VUID-X-s-parameter: pname:s must: be a valid slink:SA structure\n",
        ),
        (
            b"<member><type>U</type> <name>u</name></member>",
            b"VUID-X-u-parameter: pname:u must: be a valid slink:U structure\n",
        ),
        (
            b"<member><type>F</type> <name>f</name></member>",
            b"VUID-X-f-parameter: pname:f must: be a valid tlink:F pointer\n",
        ),
        (
            b"<member noautovalidity='true'><type>F</type> <name>f</name></member>",
            b"",
        ),
    ];
    are_said(&rt, rt.alloc(), &table)
}

#[test]
fn pointers_point_to_their_types(rt: HostRuntime) -> Result<(), Fail> {
    let table: [(&[u8], &[u8]); 10] = [
        (
            b"<member>const <type>S</type>* <name>p</name></member>",
            b"VUID-X-p-parameter: pname:p must: be a valid pointer to slink:S\n",
        ),
        (
            b"<member optional='true'><type>U</type>* <name>p</name></member>",
            b"VUID-X-p-parameter: If pname:p is not `NULL`, pname:p must: be a valid pointer to slink:U\n",
        ),
        (
            b"<member><type>HA</type>* <name>p</name></member>",
            b"VUID-X-p-parameter: pname:p must: be a valid pointer to slink:HA\n",
        ),
        (
            b"<member><type>EA</type>** <name>p</name></member>",
            b"VUID-X-p-parameter: pname:p must: be a valid pointer to elink:EA\n",
        ),
        (
            b"<member><type>M</type>* <name>p</name></member>",
            b"VUID-X-p-parameter: pname:p must: be a valid pointer to tlink:M\n",
        ),
        (
            b"<member><type>F</type>* <name>p</name></member>",
            b"VUID-X-p-parameter: pname:p must: be a valid pointer to tlink:F\n",
        ),
        (
            b"<member><type>void</type>* <name>p</name></member>",
            b"VUID-X-p-parameter: pname:p must: be a valid pointer to `void`\n",
        ),
        (
            b"<member len='null-terminated'><type>u32</type>* <name>p</name></member>",
            b"VUID-X-p-parameter: pname:p must: be a null-terminated string\n",
        ),
        (
            b"<member optional='true' len='null-terminated,1'><type>u32</type>* <name>p</name></member>",
            b"VUID-X-p-parameter: If pname:p is not `NULL`, pname:p must: be a null-terminated string\n",
        ),
        (
            b"<member noautovalidity='true'><type>u32</type>* <name>p</name></member>",
            b"",
        ),
    ];
    are_said(&rt, rt.alloc(), &table)
}

#[test]
fn lengths_are_other_members(rt: HostRuntime) -> Result<(), Fail> {
    let table: [(&[u8], &[u8]); 8] = [
        (
            b"<member><type>u32</type> <name>n</name></member><member len='n'>const <type>void</type>* <name>p</name></member>",
            b"VUID-X-n-arraylength: pname:n must: be greater than `0`\nVUID-X-p-parameter: pname:p must: be a valid pointer to an array of pname:n `void`\n",
        ),
        (
            b"<member><type>u32</type> <name>n</name></member><member len='n,null-terminated' optional='true'><type>S</type>* <name>p</name></member>",
            b"VUID-X-p-parameter: If pname:p is not `NULL`, pname:p must: be a valid pointer to an array of pname:n slink:S\n",
        ),
        (
            b"<member optional='true'><type>u32</type> <name>n</name></member><member len='n'><type>E</type>* <name>p</name></member>",
            b"VUID-X-p-parameter: pname:p must: be a valid pointer to an array of pname:n elink:E\n",
        ),
        (
            b"<member><type>u32</type> <name>n</name></member><member len='n' noautovalidity='true'><type>E</type>* <name>p</name></member>",
            b"",
        ),
        (
            b"<member len='n'><type>u32</type> <name>n</name></member><member len='p'><type>E</type>* <name>p</name></member><member len='k'><type>E</type>* <name>q</name></member>",
            b"VUID-X-p-parameter: pname:p must: be a valid pointer to elink:E\nVUID-X-q-parameter: pname:q must: be a valid pointer to elink:E\n",
        ),
        (
            b"<member len='n'><type>E</type>* <name>p</name></member><member><type>u32</type>* <name>n</name></member>",
            b"VUID-X-p-parameter: pname:p must: be a valid pointer to an array of pname:n elink:E\nVUID-X-n-parameter: pname:n must: be a valid pointer to `u32`\n",
        ),
        (
            b"<member len='n' optional='true'><type>E</type>* <name>p</name></member><member len='n'><type>E</type>* <name>q</name></member><member><type>H</type> <name>n</name></member>",
            b"VUID-X-p-parameter: If pname:p is not `NULL`, pname:p must: be a valid pointer to an array of pname:n elink:E\nVUID-X-q-parameter: pname:q must: be a valid pointer to an array of pname:n elink:E\nVUID-X-n-parameter: pname:n must: be a valid slink:H handle\nVUID-X-n-arraylength: pname:n must: be greater than `0`\n",
        ),
        (
            b"<member noautovalidity='true'><type>u32</type> <name>n</name></member><member len='n'><type>E</type>* <name>p</name></member>",
            b"VUID-X-p-parameter: pname:p must: be a valid pointer to an array of pname:n elink:E\n",
        ),
    ];
    are_said(&rt, rt.alloc(), &table)
}

#[test]
fn structs_have_their_type_and_their_chain(rt: HostRuntime) -> Result<(), Fail> {
    let table: [(&[u8], &[u8]); 6] = [
        (
            b"<member values='VK_X_1'><type>E</type> <name>sType</name></member>",
            b"VUID-X-sType-sType: pname:sType must: be ename:VK_X_1\n",
        ),
        (b"<member><type>E</type> <name>sType</name></member>", b""),
        (
            b"<member values='VK_X,VK_Y'><type>E</type> <name>sType</name></member>",
            b"",
        ),
        (
            b"<member values='VK_X' noautovalidity='true'><type>H</type>* <name>sType</name></member>",
            b"VUID-X-sType-sType: pname:sType must: be ename:VK_X\n",
        ),
        (
            b"<member optional='true'><type>void</type>* <name>pNext</name></member>",
            b"VUID-X-pNext-pNext: pname:pNext must: be `NULL`\n",
        ),
        (
            b"<member values='VK_X'><type>H</type> <name>pnext</name></member>",
            b"VUID-X-pnext-parameter: pname:pnext must: be a valid slink:H handle\n",
        ),
    ];
    are_said(&rt, rt.alloc(), &table)
}

/// A struct with each of the members that a chain begins with, which is only returned.
const RETURNED: &[u8] =
    b"<type category='struct' name='B2' structextends='X,B2'/><type category='struct' name='X' returnedonly='true'><member values='VK_X'><type>E</type> <name>sType</name></member><member noautovalidity='true'><type>void</type>* <name>pNext</name></member><member><type>H</type> <name>h</name></member></type><type category='union' name='N' structextends='X'/><type category='struct' name='XA' alias='X'/><type category='struct' name='C' structextends='XA'/><type category='struct' name='A1' structextends='S,X,X'/>";

const RETURNED_SAID: &[u8] =
    b"VUID-X-sType-sType: pname:sType must: be ename:VK_X\nVUID-X-pNext-pNext: Each pname:pNext pointer must: be `NULL` or point to a structure of the next statements\nVUID-X-pNext-B2: The pname:pNext chain can: include slink:B2 (needs B2)\nVUID-X-pNext-A1: The pname:pNext chain can: include slink:A1 (needs A1)\nVUID-X-sType-unique: Each pname:sType value in the pname:pNext chain must: be unique\n";

/// A struct that extends itself.
const ITSELF: &[u8] =
    b"<type category='struct' name='X' structextends='X'><member><type>X</type>* <name>pNext</name></member></type>";

const ITSELF_SAID: &[u8] =
    b"VUID-X-pNext-pNext: Each pname:pNext pointer must: be `NULL` or point to a structure of the next statements\nVUID-X-pNext-X: The pname:pNext chain can: include slink:X (needs X)\nVUID-X-sType-unique: Each pname:sType value in the pname:pNext chain must: be unique\n";

/// A union, whose members nothing is said of.
const UNION: &[u8] =
    b"<type category='union' name='X'><member values='VK_X'><type>E</type> <name>sType</name></member><member><type>H</type> <name>pNext</name></member></type><type category='struct' name='Y' structextends='X'/>";

const COMMAND_SAID: &[u8] =
    b"VUID-c-sType-parameter: pname:sType must: be a valid slink:H handle\nVUID-c-pNext-parameter: pname:pNext must: be a valid pointer to an array of pname:n tlink:F\nVUID-c-n-arraylength: pname:n must: be greater than `0`\n";

#[test]
fn structs_and_commands_alone_have_statements(rt: HostRuntime) -> Result<(), Fail> {
    let alloc = rt.alloc();
    let table: [(&[u8], &[u8], &[u8]); 9] = [
        (RETURNED, b"X", RETURNED_SAID),
        (RETURNED, b"XA", b""),
        (RETURNED, b"N", b""),
        (ITSELF, b"X", ITSELF_SAID),
        (UNION, b"X", b""),
        (b"", b"c", COMMAND_SAID),
        (b"", b"c_alias", b""),
        (b"", b"M", b""),
        (b"", b"void", b""),
    ];
    for (types, name, lines) in table {
        let said = said_with(alloc, types, name)?;
        assert_eq!(rt; said.as_slice(), lines);
    }
    Ok(())
}

/// The struct of a swapchain, with what it is declared by, after the registry.
const SWAPCHAIN: &[u8] =
    b"<registry><types><type name='void'/><type name='uint32_t'/><type category='basetype'>typedef <type>uint32_t</type> <name>VkFlags</name>;</type><type name='VkStructureType' category='enum'/><type name='VkPresentModeKHR' category='enum'/><type name='VkSwapchainCreateFlagBitsKHR' category='enum'/><type requires='VkSwapchainCreateFlagBitsKHR' category='bitmask'>typedef <type>VkFlags</type> <name>VkSwapchainCreateFlagsKHR</name>;</type><type category='handle'><name>VkSurfaceKHR</name></type><type category='struct' name='VkSwapchainCreateInfoKHR'><member values='VK_STRUCTURE_TYPE_SWAPCHAIN_CREATE_INFO_KHR'><type>VkStructureType</type> <name>sType</name></member><member optional='true'>const <type>void</type>*   <name>pNext</name></member><member optional='true'><type>VkSwapchainCreateFlagsKHR</type> <name>flags</name></member><member><type>VkSurfaceKHR</type> <name>surface</name></member><member><type>VkPresentModeKHR</type> <name>presentMode</name></member></type></types><feature api='vulkan' name='VK_VERSION_1_0' number='1.0'/></registry>";

/// What is said of it, from outside.
const SWAPCHAIN_SAID: &[u8] =
    b"VUID-VkSwapchainCreateInfoKHR-sType-sType: pname:sType must: be ename:VK_STRUCTURE_TYPE_SWAPCHAIN_CREATE_INFO_KHR\nVUID-VkSwapchainCreateInfoKHR-pNext-pNext: pname:pNext must: be `NULL`\nVUID-VkSwapchainCreateInfoKHR-flags-parameter: pname:flags must: be a valid combination of elink:VkSwapchainCreateFlagBitsKHR values\nVUID-VkSwapchainCreateInfoKHR-surface-parameter: pname:surface must: be a valid slink:VkSurfaceKHR handle\nVUID-VkSwapchainCreateInfoKHR-presentMode-parameter: pname:presentMode must: be a valid elink:VkPresentModeKHR value\n";

#[test]
fn a_swapchain_has_its_statements(rt: HostRuntime) -> Result<(), Fail> {
    let registry = registry_of(rt.alloc(), SWAPCHAIN)?;
    let said = said_of(rt.alloc(), &registry, b"VkSwapchainCreateInfoKHR")?;
    assert_eq!(rt; said.as_slice(), SWAPCHAIN_SAID);
    Ok(())
}
