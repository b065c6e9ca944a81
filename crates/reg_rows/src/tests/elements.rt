//! What is bad in an element by itself: each rule, at both sides of its border.
use super::*;

fn bad(rt: &impl Abort, alloc: Global, elements: &[u8], word: &str) -> Result<(), Fail> {
    wrong(rt, alloc, elements, "BadAttribute", word)
}

#[test]
fn the_root_is_a_registry(rt: HostRuntime) -> Result<(), Fail> {
    let alloc = rt.alloc();
    let told = told_of(alloc, b" <registri><feature/></registri>")?;
    assert_eq!(rt; told.as_slice(), b"BadAttribute 1 registry".as_slice());
    let told = told_of(alloc, b"<registry/>")?;
    assert_eq!(rt; told.as_slice(), b"no feature".as_slice());
    let told = told_of(
        alloc,
        b"<registry><feature api='vulkansc' name='' number=''/></registry>",
    )?;
    assert_eq!(rt; told.as_slice(), b"no feature".as_slice());
    Ok(())
}

#[test]
fn types_have_names(rt: HostRuntime) -> Result<(), Fail> {
    let alloc = rt.alloc();
    bad(&rt, alloc, b"<types>@<type/></types>", "name")?;
    bad(&rt, alloc, b"<types>@<type name=''/></types>", "name")?;
    bad(&rt, alloc, b"<types>@<type name='a b'/></types>", "name")?;
    bad(&rt, alloc, b"<types>@<type name='&#127;'/></types>", "name")?;
    bad(
        &rt,
        alloc,
        b"<types>@<type>a <name>b c</name></type></types>",
        "name",
    )?;
    bad(
        &rt,
        alloc,
        b"<types><type name='A'/>@<type alias='A'><name>b</name></type></types>",
        "name",
    )?;
    sound(&rt, alloc, b"<types><type name='!~'/></types>")?;
    sound(&rt, alloc, b"<types><type>a <name>b</name></type></types>")?;
    sound(&rt, alloc, b"<types><type api='vulkansc'/></types><type/>")
}

#[test]
fn other_elements_have_names(rt: HostRuntime) -> Result<(), Fail> {
    let alloc = rt.alloc();
    bad(&rt, alloc, b"<tags>@<tag/></tags>", "name")?;
    bad(&rt, alloc, b"@<enums/>", "name")?;
    bad(&rt, alloc, b"@<enums name='a b'/>", "name")?;
    bad(
        &rt,
        alloc,
        b"<types><type name='v'/></types><commands><command><proto><type>v</type><name>a</name></proto></command>@<command alias='a'/></commands>",
        "name",
    )?;
    bad(&rt, alloc, b"@<feature api='vulkan' number='1.1'/>", "name")?;
    bad(
        &rt,
        alloc,
        b"@<feature api='vulkan' name='a:b' number='1.1'/>",
        "name",
    )?;
    bad(
        &rt,
        alloc,
        b"<extensions>@<extension name='a::b' number='1' supported='vulkan'/></extensions>",
        "name",
    )?;
    bad(
        &rt,
        alloc,
        b"<feature api='vulkan' name='a' number='1.1'><require>@<type/></require></feature>",
        "name",
    )?;
    bad(
        &rt,
        alloc,
        b"<feature api='vulkan' name='a' number='1.1'><remove>@<enum/></remove></feature>",
        "name",
    )?;
    sound(&rt, alloc, b"<tags><tag name='KHR' api='none'/></tags>")?;
    sound(&rt, alloc, b"<enums name='API Constants'/>")?;
    sound(
        &rt,
        alloc,
        b"<enums name='VkNone' type='x' bitwidth='1'><enum/></enums><enums name='VkNone'/>",
    )?;
    sound(
        &rt,
        alloc,
        b"<feature api='vulkan' name='a' number='1.1'><require><type api='vulkansc'/><member/></require></feature>",
    )
}

#[test]
fn parts_have_types_and_names(rt: HostRuntime) -> Result<(), Fail> {
    let alloc = rt.alloc();
    bad(
        &rt,
        alloc,
        b"<types><type name='int'/><type category='struct' name='A'>@<member><type>int</type></member></type></types>",
        "name",
    )?;
    bad(
        &rt,
        alloc,
        b"<types><type name='int'/><type category='union' name='A'>@<member><type>int</type><name>a b</name></member></type></types>",
        "name",
    )?;
    bad(
        &rt,
        alloc,
        b"<types><type category='struct' name='A'>@<member><name>a</name></member></type></types>",
        "type",
    )?;
    bad(
        &rt,
        alloc,
        b"<types><type category='struct' name='A'>@<member/></type></types>",
        "name",
    )?;
    bad(
        &rt,
        alloc,
        b"<types><type name='v'/><type category='funcpointer'><proto><type>v</type><name>A</name></proto>@<param/></type></types>",
        "name",
    )?;
    bad(
        &rt,
        alloc,
        b"<types><type category='funcpointer'>@<proto><name>A</name></proto></type></types>",
        "type",
    )?;
    sound(
        &rt,
        alloc,
        b"<types><type name='int'/><type category='struct' name='A'><member><type>int</type><name>a</name></member></type></types>",
    )?;
    sound(
        &rt,
        alloc,
        b"<types><type category='struct' name='A'><member api='vulkansc'/></type><type category='handle' name='B'><member/></type></types>",
    )?;
    sound(
        &rt,
        alloc,
        b"<types><type name='A'/><type category='struct' name='B' alias='A'><member/></type></types>",
    )
}

#[test]
fn commands_have_prototypes(rt: HostRuntime) -> Result<(), Fail> {
    let alloc = rt.alloc();
    bad(&rt, alloc, b"<commands>@<command/></commands>", "proto")?;
    bad(
        &rt,
        alloc,
        b"<commands>@<command name='a'/></commands>",
        "proto",
    )?;
    bad(
        &rt,
        alloc,
        b"<commands><command>@<proto/></command></commands>",
        "name",
    )?;
    bad(
        &rt,
        alloc,
        b"<types><type name='v'/></types><commands><command>@<proto><type>v</type></proto></command></commands>",
        "name",
    )?;
    bad(
        &rt,
        alloc,
        b"<commands><command>@<proto><name>a</name></proto></command></commands>",
        "type",
    )?;
    // What lacks its type alone still gives the name.
    bad(
        &rt,
        alloc,
        b"<feature api='vulkan' name='a' number='1.1'><require><command name='vkA'/></require></feature><commands><command>@<proto><name>vkA</name></proto></command></commands>",
        "type",
    )?;
    sound(
        &rt,
        alloc,
        b"<types><type name='v'/></types><commands><command><proto><type>v</type> <name>a</name></proto></command><command name='b' alias='a'><proto/></command></commands>",
    )
}

#[test]
fn attributes_have_their_forms(rt: HostRuntime) -> Result<(), Fail> {
    let alloc = rt.alloc();
    bad(
        &rt,
        alloc,
        b"<types>@<type category='x'/></types>",
        "category",
    )?;
    bad(
        &rt,
        alloc,
        b"<types><type category='enum' name='E'/></types>@<enums name='E' type='flags'/>",
        "type",
    )?;
    bad(
        &rt,
        alloc,
        b"<types><type category='enum' name='E'/></types>@<enums name='E' type='' bitwidth='16'/>",
        "bitwidth",
    )?;
    bad(
        &rt,
        alloc,
        b"<types><type category='enum' name='E'/></types><enums name='E'>@<enum name='A' value='1' dir='+'/></enums>",
        "dir",
    )?;
    bad(
        &rt,
        alloc,
        b"<types><type category='enum' name='E'/></types><enums name='E'>@<enum name='A' bitpos='1234567890'/></enums>",
        "bitpos",
    )?;
    bad(
        &rt,
        alloc,
        b"<types><type category='enum' name='E'/></types><enums name='E'>@<enum name='A' value='1' extnumber='x'/></enums>",
        "extnumber",
    )?;
    bad(&rt, alloc, b"@<feature api='vulkan' name='a'/>", "number")?;
    bad(
        &rt,
        alloc,
        b"@<feature api='vulkan' name='a' number='1'/>",
        "number",
    )?;
    bad(
        &rt,
        alloc,
        b"@<feature api='vulkan' name='a' number='1.1.1'/>",
        "number",
    )?;
    bad(
        &rt,
        alloc,
        b"@<feature api='vulkan' name='a' number='1234567890.1'/>",
        "number",
    )?;
    bad(
        &rt,
        alloc,
        b"<extensions>@<extension name='a' number='-1' supported='vulkan'/></extensions>",
        "number",
    )?;
    sound(
        &rt,
        alloc,
        b"<types><type category='enum' name='E'/></types><enums name='E' type='bitmask' bitwidth='32'><enum name='A' bitpos='000000001' dir='-' extnumber='999999999'/></enums>",
    )?;
    sound(
        &rt,
        alloc,
        b"<feature api='vulkansc,vulkan' name='a' number='123456789.000000001'/>",
    )
}

#[test]
fn options_have_numbers(rt: HostRuntime) -> Result<(), Fail> {
    let alloc = rt.alloc();
    bad(
        &rt,
        alloc,
        b"<feature api='vulkan' name='a' number='1.1'/>@<feature api='vulkan' name='b' number='01.001'/>",
        "number",
    )?;
    bad(
        &rt,
        alloc,
        b"<extensions>@<extension name='a' supported='vulkan'/></extensions>",
        "number",
    )?;
    bad(
        &rt,
        alloc,
        b"<extensions>@<extension name='' number='x'/></extensions>",
        "supported",
    )?;
    sound(
        &rt,
        alloc,
        b"<feature api='vulkan' name='a' number='1.1'/><feature api='vulkan' name='b' number='1.10'/>",
    )?;
    sound(
        &rt,
        alloc,
        b"<feature api='vulkansc' name='a' number='1.1'/><feature api='vulkan' name='b' number='1.1'/>",
    )?;
    sound(
        &rt,
        alloc,
        b"<extensions><extension name='' supported='disabled'/><extension supported='vulkansc,vulkan2'/></extensions>",
    )
}

#[test]
fn values_are_given_in_one_way(rt: HostRuntime) -> Result<(), Fail> {
    let alloc = rt.alloc();
    bad(
        &rt,
        alloc,
        b"<types><type category='enum' name='E'/></types><enums name='E'>@<enum name='A'/></enums>",
        "value",
    )?;
    bad(
        &rt,
        alloc,
        b"<types><type category='enum' name='E'/></types><enums name='E'>@<enum name='A' value='1' alias='B'/></enums>",
        "value",
    )?;
    bad(
        &rt,
        alloc,
        b"<types><type category='enum' name='E'/></types><enums name='E'>@<enum name='A' value='1U'/></enums>",
        "value",
    )?;
    bad(
        &rt,
        alloc,
        b"<types><type category='enum' name='E'/></types><enums name='E'>@<enum name='A' offset='1' extnumber='1'/></enums>",
        "offset",
    )?;
    bad(
        &rt,
        alloc,
        b"<enums name='API Constants'>@<enum name='A' bitpos='1'/></enums>",
        "bitpos",
    )?;
    bad(
        &rt,
        alloc,
        b"<enums name='API Constants'>@<enum name='A'/></enums>",
        "value",
    )?;
    bad(
        &rt,
        alloc,
        b"<feature api='vulkan' name='a' number='1.1'><require>@<enum name='A' bitpos='1'/></require></feature>",
        "bitpos",
    )?;
    bad(
        &rt,
        alloc,
        b"<feature api='vulkan' name='a' number='1.1'><require>@<enum name='A' offset='1' extnumber='1'/></require></feature>",
        "offset",
    )?;
    bad(
        &rt,
        alloc,
        b"<types><type category='enum' name='E'/></types><feature api='vulkan' name='a' number='1.1'><require>@<enum extends='E' name='A' offset='1'/></require></feature>",
        "offset",
    )?;
    sound(
        &rt,
        alloc,
        b"<enums name='API Constants'><enum name='A' value='(~0U)'/><enum name='B' alias='A'/></enums>",
    )?;
    sound(
        &rt,
        alloc,
        b"<types><type category='enum' name='E'/></types><feature api='vulkan' name='a' number='1.1'><require><enum extends='E' name='A' offset='1' extnumber='1'/><enum name='A'/></require></feature>",
    )?;
    sound(
        &rt,
        alloc,
        b"<types><type category='enum' name='E'/></types><extensions><extension name='a' number='1' supported='vulkan'><require><enum extends='E' name='A' offset='1'/></require><remove><enum name='A' value='x' bitpos='y'/></remove></extension></extensions>",
    )
}
