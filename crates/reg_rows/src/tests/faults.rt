//! What is wrong between elements: each code, at both sides of its border, and which fault is the first.
use super::*;

#[test]
fn features_without_a_kind_alone_are_read(rt: HostRuntime) -> Result<(), Fail> {
    let alloc = rt.alloc();
    wrong(
        &rt,
        alloc,
        b"@<feature api='vulkan' apitype='internal' name='a' number='1.1'/>",
        "ApiType",
        "a",
    )?;
    sound(
        &rt,
        alloc,
        b"<feature api='vulkanbase' apitype='internal' name='a' number='1.1'/>",
    )
}

#[test]
fn conditions_are_expressions(rt: HostRuntime) -> Result<(), Fail> {
    let alloc = rt.alloc();
    wrong(
        &rt,
        alloc,
        b"<extensions>@<extension name='a' number='1' supported='vulkan' depends='VK_V,'/></extensions>",
        "BadExpression",
        "VK_V,",
    )?;
    wrong(
        &rt,
        alloc,
        b"<extensions>@<extension name='a' number='1' supported='vulkan' depends=''/></extensions>",
        "BadExpression",
        "",
    )?;
    wrong(
        &rt,
        alloc,
        b"<feature api='vulkan' name='a' number='1.1'>@<require depends='VkF:m'/></feature>",
        "BadExpression",
        "VkF:m",
    )?;
    sound(
        &rt,
        alloc,
        b"<extensions><extension name='a' number='1' supported='vulkan' depends='(VK_V+b),VkF::m'/><extension name='b' number='2' supported='no' depends=','/></extensions>",
    )?;
    sound(
        &rt,
        alloc,
        b"<feature api='vulkan' name='a' number='1.1' depends=','><require depends=',' api='vulkansc'/></feature>",
    )
}

#[test]
fn names_stand_once(rt: HostRuntime) -> Result<(), Fail> {
    let alloc = rt.alloc();
    let code = "DuplicateName";
    wrong(
        &rt,
        alloc,
        b"<types><type name='A'/>@<type name='A'/></types>",
        code,
        "A",
    )?;
    wrong(
        &rt,
        alloc,
        b"<types><type name='A'/></types><commands>@<command><proto><type>A</type><name>A</name></proto></command></commands>",
        code,
        "A",
    )?;
    wrong(
        &rt,
        alloc,
        b"<types><type name='A'/></types><enums name='API Constants'>@<enum name='A' value='1'/></enums>",
        code,
        "A",
    )?;
    wrong(
        &rt,
        alloc,
        b"<enums name='API Constants'><enum name='A' value='1'/></enums><types>@<type name='A'/></types>",
        code,
        "A",
    )?;
    wrong(
        &rt,
        alloc,
        b"<feature api='vulkan' name='a' number='1.1'/><extensions>@<extension name='a' number='1' supported='vulkan'/></extensions>",
        code,
        "a",
    )?;
    wrong(
        &rt,
        alloc,
        b"<enums name='API Constants'/>@<enums name='API Constants'/>",
        code,
        "API Constants",
    )?;
    wrong(
        &rt,
        alloc,
        b"<types><type category='enum' name='E'/></types><enums name='E'/>@<enums name='E'/>",
        code,
        "E",
    )?;
    wrong(
        &rt,
        alloc,
        b"<types><type category='enum' name='E'/><type category='enum' name='F'/></types><enums name='E'><enum name='A' value='1'/></enums><enums name='F'>@<enum name='A' value='1'/></enums>",
        code,
        "A",
    )?;
    wrong(
        &rt,
        alloc,
        b"<types><type category='enum' name='E'/></types><enums name='E'><enum name='A' value='1'/></enums><types>@<type name='A'/></types>",
        code,
        "A",
    )?;
    wrong(
        &rt,
        alloc,
        b"<types><type category='enum' name='E'/></types><enums name='E'>@<enum name='E' value='1'/></enums>",
        code,
        "E",
    )?;
    wrong(
        &rt,
        alloc,
        b"<types><type name='int'/><type category='struct' name='A'><member><type>int</type><name>a</name></member>@<member><type>int</type><name>a</name></member></type></types>",
        code,
        "a",
    )?;
    sound(
        &rt,
        alloc,
        b"<enums name='API Constants'><enum name='A' value='1'/><enum name='A' value='1'/></enums>",
    )?;
    sound(
        &rt,
        alloc,
        b"<types><type name='A'/><type name='A' api='vulkansc'/><type name='VK_V'/></types>",
    )?;
    sound(
        &rt,
        alloc,
        b"<types><type category='enum' name='E'/></types><enums name='E'><enum name='A' value='1'/><enum name='A' value='0x1'/></enums>",
    )?;
    sound(
        &rt,
        alloc,
        b"<types><type name='int'/><type category='struct' name='A'><member><type>int</type><name>a</name></member><member api='vulkansc'><type>int</type><name>a</name></member></type></types>",
    )
}

#[test]
fn names_are_known(rt: HostRuntime) -> Result<(), Fail> {
    let alloc = rt.alloc();
    let code = "UnknownName";
    wrong(
        &rt,
        alloc,
        b"<types><type category='basetype' name='A'>x @<type>B</type></type></types>",
        code,
        "B",
    )?;
    wrong(
        &rt,
        alloc,
        b"<types><type category='struct' name='A'><member>@<type>B</type><name>a</name></member></type></types>",
        code,
        "B",
    )?;
    wrong(
        &rt,
        alloc,
        b"<types><type name='int'/><type category='struct' name='A'><member><type>int</type><name>a</name>[@<enum>N</enum>]</member></type></types>",
        code,
        "N",
    )?;
    wrong(
        &rt,
        alloc,
        b"<types>@<type name='A' requires='B'/></types>",
        code,
        "B",
    )?;
    wrong(
        &rt,
        alloc,
        b"<types>@<type category='bitmask' name='A' bitvalues='B' requires='C'/></types>",
        code,
        "B",
    )?;
    wrong(
        &rt,
        alloc,
        b"<types>@<type name='A' alias='B'/></types>",
        code,
        "B",
    )?;
    wrong(
        &rt,
        alloc,
        b"<types><type name='A'/></types><commands>@<command name='b' alias='A'/></commands>",
        code,
        "A",
    )?;
    wrong(
        &rt,
        alloc,
        b"<types><type name='A'/></types><enums name='API Constants'>@<enum name='B' alias='A'/></enums>",
        code,
        "A",
    )?;
    wrong(
        &rt,
        alloc,
        b"<types><type category='enum' name='E'/></types><enums name='E'>@<enum name='A' alias='B'/></enums>",
        code,
        "B",
    )?;
    wrong(
        &rt,
        alloc,
        b"<feature api='vulkan' name='a' number='1.1'><require>@<enum extends='E' name='A' value='x'/></require></feature>",
        code,
        "E",
    )?;
    wrong(
        &rt,
        alloc,
        b"<types><type name='E'/></types><feature api='vulkan' name='a' number='1.1'><require>@<enum extends='E' name='A' value='1'/></require></feature>",
        code,
        "E",
    )?;
    wrong(
        &rt,
        alloc,
        b"<feature api='vulkan' name='a' number='1.1'><require>@<type name='A'/></require></feature>",
        code,
        "A",
    )?;
    wrong(
        &rt,
        alloc,
        b"<types><type name='A'/></types><feature api='vulkan' name='a' number='1.1'><require>@<command name='A'/></require></feature>",
        code,
        "A",
    )?;
    wrong(
        &rt,
        alloc,
        b"<types><type name='A'/></types><feature api='vulkan' name='a' number='1.1'><remove>@<enum name='A'/></remove></feature>",
        code,
        "A",
    )?;
    wrong(
        &rt,
        alloc,
        b"<types>@<type category='enum' name='E'/></types><enums name='E' type='bitmask' bitwidth='64'/>",
        code,
        "VkFlags64",
    )?;
    sound(
        &rt,
        alloc,
        b"<types><type category='enum' name='E'/><type name='VkFlags64'/></types><enums name='E' type='bitmask' bitwidth='64'/>",
    )?;
    sound(
        &rt,
        alloc,
        b"<types><type name='B'/><type name='A' requires='B' structextends='C,D'/><type name='C' alias='A'>x<type>D</type></type></types>",
    )?;
    sound(
        &rt,
        alloc,
        b"<feature api='vulkan' name='a' number='1.1'><require><enum name='N' value='3'/><enum name='N'/></require></feature>",
    )
}

#[test]
fn the_first_fault_is_told(rt: HostRuntime) -> Result<(), Fail> {
    let alloc = rt.alloc();
    // By place,
    wrong(
        &rt,
        alloc,
        b"<types>@<type name='A' requires='B'/><type/></types>",
        "UnknownName",
        "B",
    )?;
    // then by code,
    wrong(
        &rt,
        alloc,
        b"<types><type name='A'/>@<type name='A' requires='B'/></types>",
        "DuplicateName",
        "A",
    )?;
    wrong(
        &rt,
        alloc,
        b"<feature api='vulkan' name='a' number='1.1'/>@<feature api='vulkan' apitype='x' name='a' number='1.2'/>",
        "ApiType",
        "a",
    )?;
    // then by word.
    wrong(
        &rt,
        alloc,
        b"<types>@<type name='A' requires='C' bitvalues='B'/></types>",
        "UnknownName",
        "B",
    )?;
    wrong(
        &rt,
        alloc,
        b"<types>@<type name='A' requires='B' alias='BA'/></types>",
        "UnknownName",
        "B",
    )
}

#[test]
fn names_in_circles_are_told(rt: HostRuntime) -> Result<(), Fail> {
    let alloc = rt.alloc();
    let circle: &[u8] =
        b"<types><type category='struct' name='VkN'><member>const <type>VkN</type>* <name>n</name></member></type><type category='struct' name='VkP'><member><type>VkQ</type>* <name>q</name></member></type><type category='struct' name='VkQ'><member><type>VkP</type>* <name>p</name></member></type></types>";
    let text = registry_of(alloc, circle)?;
    assert_eq!(rt;
        told_of(alloc, &text)?.as_slice(),
        b"circle VkP VkQ".as_slice()
    );
    sound(
        &rt,
        alloc,
        b"<types><type category='struct' name='VkN'><member>const <type>VkN</type>* <name>n</name></member></type></types>",
    )
}
