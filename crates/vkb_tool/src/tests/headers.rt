use super::registries::{BIT, TWO};
use super::*;
use std::alloc::{AllocError, Global};
use std::process::Abort;
use std::test::Fail;
use vkb_outside::{MemoryShelf, SureShelf, names_differ};

/// An extension that no API has.
const DISABLED: &str =
    "<registry><feature api=\"vulkan\" name=\"VK_V\" number=\"1.0\"/><extensions><extension name=\"VK_A\" number=\"1\" supported=\"disabled\"/></extensions></registry>";

/// A struct with a member of type `VkBar`, which an extension removes.
const KEPT: &str =
    "<registry><types><type category=\"struct\" name=\"VkFoo\"><member><type>VkBar</type> <name>bar</name></member></type><type category=\"struct\" name=\"VkBar\"/></types><feature api=\"vulkan\" name=\"VK_V\" number=\"1.0\"><require><type name=\"VkFoo\"/><type name=\"VkBar\"/></require></feature><extensions><extension name=\"VK_R\" number=\"1\" supported=\"vulkan\"><remove><type name=\"VkBar\"/></remove></extension></extensions></registry>";

/// The same without that member.
const REMOVED: &str =
    "<registry><types><type category=\"struct\" name=\"VkFoo\"/><type category=\"struct\" name=\"VkBar\"/></types><feature api=\"vulkan\" name=\"VK_V\" number=\"1.0\"><require><type name=\"VkFoo\"/><type name=\"VkBar\"/></require></feature><extensions><extension name=\"VK_R\" number=\"1\" supported=\"vulkan\"><remove><type name=\"VkBar\"/></remove></extension></extensions></registry>";

/// A struct with a pointer to itself.
const OWN: &str =
    "<registry><types><type category=\"struct\" name=\"VkN\"><member>const struct <type>VkN</type>* <name>pNext</name></member></type></types><feature api=\"vulkan\" name=\"VK_V\" number=\"1.0\"><require><type name=\"VkN\"/></require></feature></registry>";

/// Two structs with pointers to each other.
const CIRCLE: &str =
    "<registry><types><type category=\"struct\" name=\"VkP\"><member><type>VkQ</type>* <name>q</name></member></type><type category=\"struct\" name=\"VkQ\"><member><type>VkP</type>* <name>p</name></member></type></types><feature api=\"vulkan\" name=\"VK_V\" number=\"1.0\"/></registry>";

/// A command ahead of a type that it names.
const COMMAND: &str =
    "<registry><commands><command><proto><type>VkE</type> <name>vkA</name></proto></command></commands><types><type category=\"enum\" name=\"VkE\"/></types><feature api=\"vulkan\" name=\"VK_V\" number=\"1.0\"><require><command name=\"vkA\"/></require></feature></registry>";

/// Asserts what the words come to over one file of this text, `r.xml`.
fn declares(
    rt: &impl Abort,
    alloc: Global,
    registry: &str,
    words: &str,
    written: &str,
) -> Result<Status, AllocError> {
    let registry_file = file(alloc, "r.xml", registry)?;
    let files = vec![in alloc; registry_file]?;
    assert!(rt; names_differ(&files));
    let mut shelf = SureShelf::new(files);
    let (status, output) = answer_on(rt, alloc, &mut shelf, words)?;
    assert_eq!(rt;
        output.as_slice(),
        written.as_bytes(),
        "{words} on {registry}"
    );
    Ok(status)
}

#[test]
fn headers_declare_what_is_chosen(rt: HostRuntime) -> Result<(), Fail> {
    let alloc = rt.alloc();
    for (registry, words, written) in [
        (
            KEPT,
            "header r.xml vulkan VK_V VK_R",
            "#ifndef VULKAN_CORE_H_\n#define VULKAN_CORE_H_ 1\n#define VK_V 1\n#define VK_R 1\ntypedef struct VkBar {\n} VkBar;\ntypedef struct VkFoo {\n    VkBar bar;\n} VkFoo;\n#endif\n",
        ),
        (
            REMOVED,
            "header r.xml vulkan VK_V VK_R",
            "#ifndef VULKAN_CORE_H_\n#define VULKAN_CORE_H_ 1\n#define VK_V 1\n#define VK_R 1\ntypedef struct VkFoo {\n} VkFoo;\n#endif\n",
        ),
        (
            REMOVED,
            "header r.xml vulkan VK_V VK_V",
            "#ifndef VULKAN_CORE_H_\n#define VULKAN_CORE_H_ 1\n#define VK_V 1\ntypedef struct VkFoo {\n} VkFoo;\ntypedef struct VkBar {\n} VkBar;\n#endif\n",
        ),
        (
            OWN,
            "header r.xml vulkan VK_V",
            "#ifndef VULKAN_CORE_H_\n#define VULKAN_CORE_H_ 1\n#define VK_V 1\ntypedef struct VkN {\n    const struct VkN* pNext;\n} VkN;\n#endif\n",
        ),
        (
            BIT,
            "header r.xml vulkan VkF::m VK_B VK_A VK_V",
            "#ifndef VULKAN_CORE_H_\n#define VULKAN_CORE_H_ 1\n#define VK_V 1\n#define VK_A 1\n#define VK_B 1\ntypedef struct VkF {\n    VkBool32 m;\n} VkF;\n#endif\n",
        ),
        (
            COMMAND,
            "header r.xml vulkan VK_V",
            "#ifndef VULKAN_CORE_H_\n#define VULKAN_CORE_H_ 1\n#define VK_V 1\ntypedef enum VkE {\n    VK_E_MAX_ENUM = 0x7FFFFFFF\n} VkE;\ntypedef VkE (VKAPI_PTR *PFN_vkA)(void);\nVKAPI_ATTR VkE VKAPI_CALL vkA(void);\n#endif\n",
        ),
    ] {
        let status = declares(&rt, alloc, registry, words, written)?;
        assert_eq!(rt; status, Status::Done);
    }
    Ok(())
}

#[test]
fn choices_may_be_wrong(rt: HostRuntime) -> Result<(), Fail> {
    let alloc = rt.alloc();
    for (registry, words, written) in [
        (
            TWO,
            "header r.xml vulkan VK_V VK_B",
            "refused NotPermitted VK_B\n",
        ),
        (
            TWO,
            "header r.xml vulkan VK_A",
            "refused NotPermitted VK_V\n",
        ),
        (TWO, "header r.xml vulkan", "refused NotPermitted VK_V\n"),
        (
            TWO,
            "header r.xml vulkan X VK_B Y",
            "refused UnknownOption X\n",
        ),
        (
            TWO,
            "header r.xml vulkan VK_V vk_a",
            "refused UnknownOption vk_a\n",
        ),
        (
            DISABLED,
            "header r.xml vulkan VK_V VK_A",
            "refused UnknownOption VK_A\n",
        ),
        (
            BIT,
            "header r.xml vulkan VK_V VK_B",
            "refused NotPermitted VK_B\n",
        ),
        (
            BIT,
            "header r.xml vulkan VK_V VkF::m",
            "refused NotPermitted VkF::m\n",
        ),
    ] {
        let status = declares(&rt, alloc, registry, words, written)?;
        assert_eq!(rt; status, Status::Refused);
    }
    Ok(())
}

#[test]
fn a_registry_goes_before_its_choice(rt: HostRuntime) -> Result<(), Fail> {
    let alloc = rt.alloc();
    for (registry, words, written) in [
        (
            CIRCLE,
            "header r.xml vulkan X",
            "refused NamingCycle r.xml VkP VkQ\n",
        ),
        (TWO, "header s.xml vulkan X", "refused Missing s.xml\n"),
        (
            TWO,
            "header r.xml vulkansc X",
            "refused NoFeature r.xml vulkansc\n",
        ),
        (
            "<registry></regis",
            "header r.xml vulkan VK_V",
            "refused BadMarkup r.xml 17\n",
        ),
        (
            "<registry",
            "header r.xml vulkan VK_V",
            "refused BadMarkup r.xml 9\n",
        ),
        (
            "",
            "header r.xml vulkan VK_V",
            "refused BadMarkup r.xml 0\n",
        ),
    ] {
        let status = declares(&rt, alloc, registry, words, written)?;
        assert_eq!(rt; status, Status::Refused);
    }
    Ok(())
}

#[test]
fn a_header_reads_once(rt: HostRuntime) -> Result<(), Fail> {
    let alloc = rt.alloc();
    for (call, wanted) in [(1, Status::ReadFault), (2, Status::Refused)] {
        let registry = file(alloc, "r.xml", TWO)?;
        let files = vec![in alloc; registry]?;
        assert!(rt; names_differ(&files));
        let mut shelf = MemoryShelf::new(files, vec![in alloc; call]?);
        let (status, output) = answer_on(&rt, alloc, &mut shelf, "header r.xml vulkan VK_A")?;
        assert_eq!(rt; status, wanted);
        assert_eq!(rt; output.is_empty(), call == 1);
    }
    Ok(())
}

/// The struct of this number, with a pointer to the next, as a registry has it.
fn linked_row(alloc: Global, number: u32, next: u32) -> Result<String, AllocError> {
    format!(in alloc;
        "<type category=\"struct\" name=\"VkS{number}\"><member><type>VkS{next}</type>* <name>next</name></member></type>"
    )
}

/// The same as a header has it.
fn linked_struct(alloc: Global, number: u32, next: u32) -> Result<String, AllocError> {
    format!(in alloc; "typedef struct VkS{number} {{\n    VkS{next}* next;\n}} VkS{number};\n")
}

#[test]
fn a_long_chain_is_declared_from_its_end(rt: HostRuntime) -> Result<(), Fail> {
    let alloc = rt.alloc();
    let mut registry = String::from_str(alloc, "<registry><types>")?;
    for number in 0..9_999u32 {
        registry.push_str(linked_row(alloc, number, number + 1)?.as_str())?;
    }
    registry.push_str(
        "<type category=\"struct\" name=\"VkS9999\"/></types><feature api=\"vulkan\" name=\"VK_V\" number=\"1.0\"><require><type name=\"VkS0\"/></require></feature></registry>",
    )?;
    let mut written = String::from_str(
        alloc,
        "#ifndef VULKAN_CORE_H_\n#define VULKAN_CORE_H_ 1\n#define VK_V 1\ntypedef struct VkS9999 {\n} VkS9999;\n",
    )?;
    for back in 0..9_999u32 {
        let number = 9_998 - back;
        written.push_str(linked_struct(alloc, number, number + 1)?.as_str())?;
    }
    written.push_str("#endif\n")?;
    let status = declares(
        &rt,
        alloc,
        registry.as_str(),
        "header r.xml vulkan VK_V",
        written.as_str(),
    )?;
    assert_eq!(rt; status, Status::Done);
    Ok(())
}
