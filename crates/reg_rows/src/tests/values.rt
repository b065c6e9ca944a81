//! Values of enumerants and their aliases: each fault, at both sides of its border.
use super::*;

fn in_enum(
    rt: &impl Abort,
    alloc: Global,
    block: &str,
    row: &str,
    is_sound: bool,
) -> Result<(), Fail> {
    let text = format!(in alloc;
        "<types><type name='VkFlags64'/><type category='enum' name='E'/></types><enums name='E' {block}>@<enum name='A' {row}/></enums>"
    )?;
    if is_sound {
        return sound(rt, alloc, text.as_bytes());
    }
    wrong(rt, alloc, text.as_bytes(), "ValueRange", "A")
}

#[test]
fn values_are_in_their_range(rt: HostRuntime) -> Result<(), Fail> {
    let alloc = rt.alloc();
    let (mask32, mask64) = ("type='bitmask'", "type='bitmask' bitwidth='64'");
    in_enum(&rt, alloc, "", "value='-2147483648'", true)?;
    in_enum(&rt, alloc, "", "value='-2147483649'", false)?;
    in_enum(&rt, alloc, "bitwidth='64'", "value='0x7fffffff'", true)?;
    in_enum(&rt, alloc, "", "value='2147483648'", false)?;
    in_enum(&rt, alloc, "", "bitpos='30'", true)?;
    in_enum(&rt, alloc, "", "bitpos='31'", false)?;
    in_enum(&rt, alloc, mask32, "value='4294967295'", true)?;
    in_enum(&rt, alloc, mask32, "value='4294967296'", false)?;
    in_enum(&rt, alloc, mask32, "value='-1'", false)?;
    in_enum(&rt, alloc, mask32, "bitpos='31'", true)?;
    in_enum(&rt, alloc, mask32, "bitpos='32'", false)?;
    in_enum(&rt, alloc, mask64, "value='0xFFFFFFFFFFFFFFFF'", true)?;
    in_enum(&rt, alloc, mask64, "value='18446744073709551616'", false)?;
    in_enum(&rt, alloc, mask64, "bitpos='63'", true)?;
    in_enum(&rt, alloc, mask64, "bitpos='64'", false)
}

fn in_extension(rt: &impl Abort, alloc: Global, row: &str, is_sound: bool) -> Result<(), Fail> {
    let text = format!(in alloc;
        "<types><type category='enum' name='E'/></types><extensions><extension name='a' number='1147484' supported='vulkan'><require>@<enum extends='E' name='A' {row}/></require></extension></extensions>"
    )?;
    if is_sound {
        return sound(rt, alloc, text.as_bytes());
    }
    wrong(rt, alloc, text.as_bytes(), "ValueRange", "A")
}

#[test]
fn offsets_are_in_their_range(rt: HostRuntime) -> Result<(), Fail> {
    let alloc = rt.alloc();
    in_extension(&rt, alloc, "offset='647'", true)?;
    in_extension(&rt, alloc, "offset='648'", false)?;
    in_extension(&rt, alloc, "offset='648' dir='-'", true)?;
    in_extension(&rt, alloc, "offset='649' dir='-'", false)?;
    in_extension(&rt, alloc, "offset='999' extnumber='1'", true)?;
    in_extension(&rt, alloc, "offset='1000' extnumber='1'", false)?;
    in_extension(&rt, alloc, "offset='0' extnumber='0'", false)
}

#[test]
fn rows_of_a_name_agree(rt: HostRuntime) -> Result<(), Fail> {
    let alloc = rt.alloc();
    let code = "ValueClash";
    wrong(
        &rt,
        alloc,
        b"<types><type category='enum' name='E'/></types><enums name='E'><enum name='A' value='1'/>@<enum name='A' value='2'/></enums>",
        code,
        "A",
    )?;
    wrong(
        &rt,
        alloc,
        b"<types><type category='enum' name='E'/></types><enums name='E'><enum name='B' value='2'/><enum name='A' value='1'/>@<enum name='A' alias='B'/></enums>",
        code,
        "A",
    )?;
    wrong(
        &rt,
        alloc,
        b"<enums name='API Constants'><enum name='A' value='1'/>@<enum name='A' value='01'/></enums>",
        code,
        "A",
    )?;
    wrong(
        &rt,
        alloc,
        b"<enums name='API Constants'><enum name='B' value='1'/><enum name='A' value='1'/>@<enum name='A' alias='B'/></enums>",
        code,
        "A",
    )?;
    wrong(
        &rt,
        alloc,
        b"<types><type category='enum' name='E'/></types><enums name='E'>@<enum name='A' value='2147483648'/><enum name='A' value='2'/></enums>",
        "ValueRange",
        "A",
    )?;
    sound(
        &rt,
        alloc,
        b"<types><type category='enum' name='E'/></types><enums name='E'><enum name='B' value='2'/><enum name='A' bitpos='1'/><enum name='A' alias='B'/></enums>",
    )?;
    sound(
        &rt,
        alloc,
        b"<enums name='API Constants'><enum name='A' value='1'/></enums><feature api='vulkan' name='a' number='1.1'><require><enum name='A' value='1'/></require></feature>",
    )
}

#[test]
fn aliases_end(rt: HostRuntime) -> Result<(), Fail> {
    let alloc = rt.alloc();
    let code = "AliasCircle";
    wrong(
        &rt,
        alloc,
        b"<types><type category='enum' name='E'/></types><enums name='E'>@<enum name='A' alias='B'/><enum name='B' alias='A'/></enums>",
        code,
        "A",
    )?;
    wrong(
        &rt,
        alloc,
        b"<types><type category='enum' name='E'/></types><enums name='E'><enum name='A' value='1'/>@<enum name='B' alias='B'/><enum name='C' alias='B'/></enums>",
        code,
        "B",
    )?;
    wrong(
        &rt,
        alloc,
        b"<types>@<type category='struct' name='A' alias='A'/></types>",
        code,
        "A",
    )?;
    wrong(
        &rt,
        alloc,
        b"<commands>@<command name='a' alias='a'/></commands>",
        code,
        "a",
    )?;
    wrong(
        &rt,
        alloc,
        b"<enums name='API Constants'>@<enum name='A' alias='A'/></enums>",
        code,
        "A",
    )?;
    sound(
        &rt,
        alloc,
        b"<types><type category='enum' name='E'/></types><enums name='E'><enum name='C' alias='B'/><enum name='B' alias='A'/><enum name='A' value='1'/></enums>",
    )
}
