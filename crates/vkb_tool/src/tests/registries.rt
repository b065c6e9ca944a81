use super::*;
use std::alloc::{AllocError, Global};
use std::process::Abort;
use std::test::Fail;
use vkb_outside::{MemoryShelf, SureShelf, names_differ};

/// A registry of two extensions, the second of which depends on this.
pub const TWO: &str =
    "<registry><feature api=\"vulkan\" name=\"VK_V\" number=\"1.0\"/><extensions><extension name=\"VK_A\" number=\"1\" supported=\"vulkan\"/><extension name=\"VK_B\" number=\"2\" supported=\"vulkan\" depends=\"VK_A\"/></extensions></registry>";

/// The same without that.
pub const APART: &str =
    "<registry><feature api=\"vulkan\" name=\"VK_V\" number=\"1.0\"/><extensions><extension name=\"VK_A\" number=\"1\" supported=\"vulkan\"/><extension name=\"VK_B\" number=\"2\" supported=\"vulkan\"/></extensions></registry>";

/// A registry of one struct, which an extension requires.
pub const FOO: &str =
    "<registry><types><type category=\"struct\" name=\"VkFoo\"/></types><feature api=\"vulkan\" name=\"VK_V\" number=\"1.0\"/><extensions><extension name=\"VK_B\" number=\"1\" supported=\"vulkan\"><require><type name=\"VkFoo\"/></require></extension></extensions></registry>";

/// A registry in which an extension depends on a member of a struct that another requires.
pub const BIT: &str =
    "<registry><types><type name=\"VkBool32\"/><type category=\"struct\" name=\"VkF\"><member><type>VkBool32</type> <name>m</name></member></type></types><feature api=\"vulkan\" name=\"VK_V\" number=\"1.0\"/><extensions><extension name=\"VK_A\" number=\"1\" supported=\"vulkan\"><require><type name=\"VkF\"/></require></extension><extension name=\"VK_B\" number=\"2\" supported=\"vulkan\" depends=\"VkF::m\"/></extensions></registry>";

/// A chapter whose link wants `VK_A` with `VK_B`.
pub const LINK: &str = "ifdef::VK_A[]\n[[a]]\nendif::VK_A[]\nifdef::VK_B[]\n<<a>>\nendif::VK_B[]\n";

pub const ASK: &str = "check r.xml a.adoc vulkan";

/// A registry `r.xml` and a chapter `a.adoc` of these texts.
pub fn two_files(alloc: Global, registry: &str, text: &str) -> Result<Files, AllocError> {
    let registry = file(alloc, "r.xml", registry)?;
    let text = file(alloc, "a.adoc", text)?;
    Ok(vec![in alloc; registry, text]?)
}

/// Asserts what the words come to over a registry and a chapter.
pub fn asks(
    rt: &impl Abort,
    alloc: Global,
    registry: &str,
    text: &str,
    words: &str,
    written: &str,
) -> Result<Status, AllocError> {
    let files = two_files(alloc, registry, text)?;
    assert!(rt; names_differ(&files));
    let mut shelf = SureShelf::new(files);
    let (status, output) = answer_on(rt, alloc, &mut shelf, words)?;
    assert_eq!(rt;
        output.as_slice(),
        written.as_bytes(),
        "{words} on {registry} and {text:?}"
    );
    Ok(status)
}

/// Asserts that a check of an empty chapter over a registry is refused.
fn refuses_registry(
    rt: &impl Abort,
    alloc: Global,
    registry: &str,
    written: &str,
) -> Result<(), AllocError> {
    let status = asks(rt, alloc, registry, "", ASK, written)?;
    assert_eq!(rt; status, Status::Refused);
    Ok(())
}

#[test]
fn only_permitted_choices_are_looked_at(rt: HostRuntime) -> Result<(), Fail> {
    let alloc = rt.alloc();
    let status = asks(&rt, alloc, TWO, LINK, ASK, "yes 1\n")?;
    assert_eq!(rt; status, Status::Done);
    let written = "no a.adoc:5:1\na 0\nwith VK_V\nwith VK_B\n";
    let status = asks(&rt, alloc, APART, LINK, ASK, written)?;
    assert_eq!(rt; status, Status::Broken);
    let text = "ifndef::VK_V[<<a>>]\nifdef::X[]\nifndef::VK_A[<<b>>]\nendif::[]\n";
    asks(&rt, alloc, TWO, text, ASK, "yes 2\n")?;
    let written = "no a.adoc:3:14\nb 0\nwith VK_V\n";
    let words = "check r.xml a.adoc vulkan +X";
    asks(&rt, alloc, TWO, text, words, written)?;
    let text = "ifdef::VK_B[]\nifndef::VK_A[<<a>>]\nendif::[]\n";
    asks(&rt, alloc, TWO, text, ASK, "yes 1\n")?;
    let written = "no a.adoc:2:14\na 0\nwith VK_V\nwith VK_B\n";
    asks(&rt, alloc, APART, text, ASK, written)?;
    asks(&rt, alloc, BIT, LINK, ASK, "yes 1\n")?;
    let text = "ifdef::VK_B[<<a>>]";
    let written = "no a.adoc:1:13\na 0\nwith VK_V\nwith VK_A\nwith VK_B\nwith VkF::m\n";
    asks(&rt, alloc, BIT, text, ASK, written)?;
    Ok(())
}

#[test]
fn a_registry_stops_being_markup_at_a_byte(rt: HostRuntime) -> Result<(), Fail> {
    let alloc = rt.alloc();
    refuses_registry(
        &rt,
        alloc,
        "<registry></regis",
        "refused BadMarkup r.xml 17\n",
    )?;
    refuses_registry(
        &rt,
        alloc,
        "<registry></other>",
        "refused BadMarkup r.xml 12\n",
    )?;
    refuses_registry(
        &rt,
        alloc,
        "<a x=\"1\" x=\"2\"/>",
        "refused BadMarkup r.xml 10\n",
    )?;
    refuses_registry(&rt, alloc, "", "refused BadMarkup r.xml 0\n")?;
    let deep =
        "<a><a><a><a><a><a><a><a><a><a><a><a><a><a><a><a><a><a><a><a><a><a><a><a><a><a><a><a><a><a><a><a><a>";
    refuses_registry(&rt, alloc, deep, "refused TooDeep r.xml 96\n")?;
    Ok(())
}

#[test]
fn rows_of_a_registry_may_be_wrong(rt: HostRuntime) -> Result<(), Fail> {
    let alloc = rt.alloc();
    refuses_registry(
        &rt,
        alloc,
        "<other/>",
        "refused BadAttribute r.xml 0 registry\n",
    )?;
    refuses_registry(
        &rt,
        alloc,
        "<registry/>",
        "refused NoFeature r.xml vulkan\n",
    )?;
    let text =
        "<registry><types><type category=\"struct\" name=\"VkA\" alias=\"VkA\"/></types></registry>";
    refuses_registry(&rt, alloc, text, "refused AliasCircle r.xml 17 VkA\n")?;
    let text = "<registry><types><type name=\"VkA\" requires=\"B\"/></types></registry>";
    refuses_registry(&rt, alloc, text, "refused UnknownName r.xml 17 B\n")?;
    let text = "<registry><types><type name=\"VkA\"/><type name=\"VkA\"/></types></registry>";
    refuses_registry(&rt, alloc, text, "refused DuplicateName r.xml 35 VkA\n")?;
    let text =
        "<registry><feature api=\"vulkan\" name=\"VK_V\" number=\"1.0\" apitype=\"x\"/></registry>";
    refuses_registry(&rt, alloc, text, "refused ApiType r.xml 10 VK_V\n")?;
    let text =
        "<registry><extensions><extension name=\"VK_A\" number=\"1\" supported=\"vulkan\" depends=\"\"/></extensions></registry>";
    refuses_registry(&rt, alloc, text, "refused BadExpression r.xml 22 \n")?;
    Ok(())
}

/// A registry of one extension with this text of `depends`, whose row begins at byte 70.
fn depends(alloc: Global, text: &str) -> Result<String, AllocError> {
    format!(in alloc;
        "<registry><feature api=\"vulkan\" name=\"VK_V\" number=\"1.0\"/><extensions><extension name=\"VK_A\" number=\"1\" supported=\"vulkan\" depends=\"{text}\"/></extensions></registry>"
    )
}

/// A text so many times.
fn repeated(alloc: Global, text: &str, times: u32) -> Result<String, AllocError> {
    let mut all = String::new(alloc);
    for _ in 0..times {
        all.push_str(text)?;
    }
    Ok(all)
}

/// Asserts that an extension may have this text of `depends`.
fn takes_depends(rt: &impl Abort, alloc: Global, text: &str) -> Result<(), AllocError> {
    let registry = depends(alloc, text)?;
    let status = asks(rt, alloc, registry.as_str(), "", ASK, "yes 0\n")?;
    assert_eq!(rt; status, Status::Done);
    Ok(())
}

/// Asserts that an extension may not.
fn refuses_depends(rt: &impl Abort, alloc: Global, text: &str) -> Result<(), AllocError> {
    let registry = depends(alloc, text)?;
    let written = format!(in alloc; "refused BadExpression r.xml 70 {text}\n")?;
    refuses_registry(rt, alloc, registry.as_str(), written.as_str())
}

#[test]
fn texts_of_depends_have_limits(rt: HostRuntime) -> Result<(), Fail> {
    let alloc = rt.alloc();
    refuses_depends(&rt, alloc, "")?;
    refuses_depends(&rt, alloc, "VK_A,")?;
    refuses_depends(&rt, alloc, "VkF:m")?;
    let names = repeated(alloc, "A+", 4_095)?;
    let most = format!(in alloc; "{names}A")?;
    takes_depends(&rt, alloc, most.as_str())?;
    let more = format!(in alloc; "{names}A+A")?;
    refuses_depends(&rt, alloc, more.as_str())?;
    let opened = repeated(alloc, "(", 64)?;
    let closed = repeated(alloc, ")", 64)?;
    let most = format!(in alloc; "{opened}A{closed}")?;
    takes_depends(&rt, alloc, most.as_str())?;
    let more = format!(in alloc; "{opened}(A){closed}")?;
    refuses_depends(&rt, alloc, more.as_str())?;
    Ok(())
}

#[test]
fn values_of_a_registry_may_be_wrong(rt: HostRuntime) -> Result<(), Fail> {
    let alloc = rt.alloc();
    let text =
        "<registry><types><type category=\"enum\" name=\"VkE\"/></types><enums name=\"VkE\"><enum name=\"A\" value=\"4294967296\"/></enums></registry>";
    refuses_registry(&rt, alloc, text, "refused ValueRange r.xml 77 A\n")?;
    let text =
        "<registry><types><type category=\"enum\" name=\"VkE\"/></types><enums name=\"VkE\"><enum name=\"A\" value=\"1\"/><enum name=\"A\" value=\"2\"/></enums></registry>";
    refuses_registry(&rt, alloc, text, "refused ValueClash r.xml 103 A\n")?;
    Ok(())
}

#[test]
fn names_may_be_a_circle(rt: HostRuntime) -> Result<(), Fail> {
    let alloc = rt.alloc();
    let text =
        "<registry><types><type category=\"struct\" name=\"VkN\"><member>const <type>VkN</type>* <name>pNext</name></member></type></types><feature api=\"vulkan\" name=\"VK_V\" number=\"1.0\"/></registry>";
    asks(&rt, alloc, text, "", ASK, "yes 0\n")?;
    let text =
        "<registry><types><type category=\"struct\" name=\"VkP\"><member><type>VkQ</type>* <name>q</name></member></type><type category=\"struct\" name=\"VkQ\"><member><type>VkP</type>* <name>p</name></member></type></types><feature api=\"vulkan\" name=\"VK_V\" number=\"1.0\"/></registry>";
    refuses_registry(&rt, alloc, text, "refused NamingCycle r.xml VkP VkQ\n")?;
    Ok(())
}

#[test]
fn a_registry_goes_before_its_document(rt: HostRuntime) -> Result<(), Fail> {
    let alloc = rt.alloc();
    let words = "check r.xml b.adoc vulkan";
    asks(
        &rt,
        alloc,
        "<registry/>",
        "",
        words,
        "refused NoFeature r.xml vulkan\n",
    )?;
    asks(&rt, alloc, TWO, "", words, "refused Missing b.adoc\n")?;
    let words = "check s.xml b.adoc vulkan";
    asks(&rt, alloc, TWO, "", words, "refused Missing s.xml\n")?;
    let words = "check r.xml a.adoc vulkansc";
    asks(
        &rt,
        alloc,
        TWO,
        "endif::[]",
        words,
        "refused NoFeature r.xml vulkansc\n",
    )?;
    asks(
        &rt,
        alloc,
        TWO,
        "endif::[]",
        ASK,
        "refused Unbalanced a.adoc:1\n",
    )?;
    asks(
        &rt,
        alloc,
        TWO,
        "<<a>>",
        "check r.xml r.xml vulkan",
        "yes 0\n",
    )?;
    Ok(())
}

/// Asserts what a check comes to where a call of the shelf fails.
fn fails_at(
    rt: &impl Abort,
    alloc: Global,
    words: &str,
    call: u32,
    written: &str,
) -> Result<Status, AllocError> {
    let files = two_files(alloc, TWO, LINK)?;
    assert!(rt; names_differ(&files));
    let mut shelf = MemoryShelf::new(files, vec![in alloc; call]?);
    let (status, output) = answer_on(rt, alloc, &mut shelf, words)?;
    assert_eq!(rt;
        output.as_slice(),
        written.as_bytes(),
        "{words} with call {call}"
    );
    Ok(status)
}

#[test]
fn a_registry_is_read_once(rt: HostRuntime) -> Result<(), Fail> {
    let alloc = rt.alloc();
    for call in [1, 2] {
        let status = fails_at(&rt, alloc, ASK, call, "")?;
        assert_eq!(rt; status, Status::ReadFault);
    }
    let status = fails_at(&rt, alloc, ASK, 3, "yes 1\n")?;
    assert_eq!(rt; status, Status::Done);
    let words = "check r.xml r.xml vulkan";
    let status = fails_at(&rt, alloc, words, 2, "")?;
    assert_eq!(rt; status, Status::ReadFault);
    let status = fails_at(&rt, alloc, words, 3, "yes 0\n")?;
    assert_eq!(rt; status, Status::Done);
    Ok(())
}
