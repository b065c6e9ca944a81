use super::registries::TWO;
use super::*;
use std::alloc::{AllocError, Global};
use std::process::Abort;
use std::test::Fail;
use vkb_outside::{MemoryShelf, SureShelf, names_differ};

/// A small registry, cut down from the real one and partly invented.
pub const SWAPCHAIN: &str =
    "<?xml version=\"1.0\"?>\n<registry>\n<tags><tag name=\"KHR\" author=\"Khronos\"/></tags>\n<types>\n<type name=\"vk_platform\" category=\"include\">#include \"vk_platform.h\"</type>\n<type requires=\"vk_platform\" name=\"void\"/>\n<type requires=\"vk_platform\" name=\"uint32_t\"/>\n<type category=\"define\">#define <name>VK_DEFINE_HANDLE</name>(object) typedef struct object##_T* object;</type>\n<type category=\"define\">#define <name>VK_DEFINE_NON_DISPATCHABLE_HANDLE</name>(object) typedef struct object##_T *object;</type>\n<type category=\"basetype\">typedef <type>uint32_t</type> <name>VkFlags</name>;</type>\n<type name=\"VkResult\" category=\"enum\"/>\n<type name=\"VkStructureType\" category=\"enum\"/>\n<type name=\"VkPresentModeKHR\" category=\"enum\"/>\n<type name=\"VkSwapchainCreateFlagBitsKHR\" category=\"enum\"/>\n<type requires=\"VkSwapchainCreateFlagBitsKHR\" category=\"bitmask\">typedef <type>VkFlags</type> <name>VkSwapchainCreateFlagsKHR</name>;</type>\n<type category=\"handle\"><type>VK_DEFINE_HANDLE</type>(<name>VkDevice</name>)</type>\n<type category=\"handle\"><type>VK_DEFINE_NON_DISPATCHABLE_HANDLE</type>(<name>VkSurfaceKHR</name>)</type>\n<type category=\"handle\"><type>VK_DEFINE_NON_DISPATCHABLE_HANDLE</type>(<name>VkSwapchainKHR</name>)</type>\n<type category=\"struct\" name=\"VkSwapchainCreateInfoKHR\">\n<member values=\"VK_STRUCTURE_TYPE_SWAPCHAIN_CREATE_INFO_KHR\"><type>VkStructureType</type> <name>sType</name></member>\n<member optional=\"true\">const <type>void</type>*   <name>pNext</name></member>\n<member optional=\"true\"><type>VkSwapchainCreateFlagsKHR</type> <name>flags</name></member>\n<member><type>VkSurfaceKHR</type> <name>surface</name></member>\n<member><type>VkPresentModeKHR</type> <name>presentMode</name></member>\n</type>\n</types>\n<enums name=\"VkResult\" type=\"enum\">\n<enum value=\"0\" name=\"VK_SUCCESS\"/><enum value=\"5\" name=\"VK_INCOMPLETE\"/>\n</enums>\n<enums name=\"VkPresentModeKHR\" type=\"enum\">\n<enum value=\"0\" name=\"VK_PRESENT_MODE_IMMEDIATE_KHR\"/><enum value=\"2\" name=\"VK_PRESENT_MODE_FIFO_KHR\"/>\n</enums>\n<enums name=\"VkSwapchainCreateFlagBitsKHR\" type=\"bitmask\">\n<enum bitpos=\"0\" name=\"VK_SWAPCHAIN_CREATE_SAMPLE_BIT_KHR\"/>\n</enums>\n<commands>\n<command><proto><type>VkResult</type> <name>vkCreateSwapchainKHR</name></proto>\n<param><type>VkDevice</type> <name>device</name></param>\n<param>const <type>VkSwapchainCreateInfoKHR</type>* <name>pCreateInfo</name></param>\n<param><type>VkSwapchainKHR</type>* <name>pSwapchain</name></param></command>\n</commands>\n<feature api=\"vulkan\" name=\"VK_VERSION_1_0\" number=\"1.0\"><require>\n<type name=\"vk_platform\"/><type name=\"VkDevice\"/><type name=\"VkResult\"/></require></feature>\n<extensions>\n<extension name=\"VK_KHR_surface\" number=\"1\" supported=\"vulkan\"><require>\n<enum value=\"25\" name=\"VK_KHR_SURFACE_SPEC_VERSION\"/>\n<enum value=\"&quot;VK_KHR_surface&quot;\" name=\"VK_KHR_SURFACE_EXTENSION_NAME\"/>\n<enum offset=\"0\" extends=\"VkResult\" dir=\"-\" name=\"VK_ERROR_SURFACE_LOST_KHR\"/>\n<type name=\"VkSurfaceKHR\"/><type name=\"VkPresentModeKHR\"/></require></extension>\n<extension name=\"VK_KHR_swapchain\" number=\"2\" depends=\"VK_KHR_surface\" supported=\"vulkan\"><require>\n<enum offset=\"0\" extends=\"VkStructureType\" name=\"VK_STRUCTURE_TYPE_SWAPCHAIN_CREATE_INFO_KHR\"/>\n<enum offset=\"3\" extends=\"VkResult\" name=\"VK_SUBOPTIMAL_KHR\"/>\n<command name=\"vkCreateSwapchainKHR\"/></require></extension>\n</extensions>\n</registry>\n";

/// A chapter on it, `chapters/wsi.adoc`.
pub const WSI: &str =
    "[[wsi]]\nifdef::VK_KHR_surface[]\ninclude::{generated}/api/handles/VkSurfaceKHR.adoc[]\ninclude::{generated}/api/enums/VkPresentModeKHR.adoc[]\nendif::VK_KHR_surface[]\nifdef::VK_KHR_swapchain[]\ninclude::{generated}/api/enums/VkSwapchainCreateFlagBitsKHR.adoc[]\ninclude::{generated}/api/structs/VkSwapchainCreateInfoKHR.adoc[]\ninclude::{generated}/validity/structs/VkSwapchainCreateInfoKHR.adoc[]\nendif::VK_KHR_swapchain[]\n";

/// What includes it, `all.adoc`.
pub const ALL: &str = "= Window system\nSee <<wsi>>.\ninclude::{chapters}/wsi.adoc[]\n";

/// What is built of these where no page is there.
const PLAIN_TEXT: &str = "= Window system\nSee <<wsi>>.\n[[wsi]]\n";

/// What `VK_KHR_surface` puts behind that.
const SURFACE_TEXT: &str =
    "[[VkSurfaceKHR,VkSurfaceKHR]]\n[source,c++]\n----\nVK_DEFINE_NON_DISPATCHABLE_HANDLE(VkSurfaceKHR)\n----\n[[VkPresentModeKHR,VkPresentModeKHR]]\n[source,c++]\n----\ntypedef enum VkPresentModeKHR {\n    VK_PRESENT_MODE_IMMEDIATE_KHR = 0,\n    VK_PRESENT_MODE_FIFO_KHR = 2,\n    VK_PRESENT_MODE_MAX_ENUM_KHR = 0x7FFFFFFF\n} VkPresentModeKHR;\n----\n";

/// And what `VK_KHR_swapchain` does.
const SWAPCHAIN_TEXT: &str =
    "[[VkSwapchainCreateFlagBitsKHR,VkSwapchainCreateFlagBitsKHR]]\n[source,c++]\n----\ntypedef enum VkSwapchainCreateFlagBitsKHR {\n    VK_SWAPCHAIN_CREATE_SAMPLE_BIT_KHR = 0x00000001,\n    VK_SWAPCHAIN_CREATE_FLAG_BITS_MAX_ENUM_KHR = 0x7FFFFFFF\n} VkSwapchainCreateFlagBitsKHR;\n----\n[[VkSwapchainCreateInfoKHR,VkSwapchainCreateInfoKHR]]\n[source,c++]\n----\ntypedef struct VkSwapchainCreateInfoKHR {\n    VkStructureType sType;\n    const void* pNext;\n    VkSwapchainCreateFlagsKHR flags;\n    VkSurfaceKHR surface;\n    VkPresentModeKHR presentMode;\n} VkSwapchainCreateInfoKHR;\n----\n.Valid Usage (Implicit)\n****\n  * [[VUID-VkSwapchainCreateInfoKHR-sType-sType]] pname:sType must: be ename:VK_STRUCTURE_TYPE_SWAPCHAIN_CREATE_INFO_KHR\n  * [[VUID-VkSwapchainCreateInfoKHR-pNext-pNext]] pname:pNext must: be `NULL`\n  * [[VUID-VkSwapchainCreateInfoKHR-flags-parameter]] pname:flags must: be a valid combination of elink:VkSwapchainCreateFlagBitsKHR values\n  * [[VUID-VkSwapchainCreateInfoKHR-surface-parameter]] pname:surface must: be a valid slink:VkSurfaceKHR handle\n  * [[VUID-VkSwapchainCreateInfoKHR-presentMode-parameter]] pname:presentMode must: be a valid elink:VkPresentModeKHR value\n****\n";

/// A registry of one external type.
const EXTERNAL: &str =
    "<registry><types><type name=\"int\"/></types><feature api=\"vulkan\" name=\"VK_V\" number=\"1.0\"><require><type name=\"int\"/></require></feature></registry>";

/// Asserts what the words come to over a registry `r.xml` and a chapter `a.adoc` of these texts.
fn builds(
    rt: &impl Abort,
    alloc: Global,
    registry: &str,
    text: &str,
    words: &str,
    written: &str,
) -> Result<Status, AllocError> {
    let registry_file = file(alloc, "r.xml", registry)?;
    let chapter = file(alloc, "a.adoc", text)?;
    let files = vec![in alloc; registry_file, chapter]?;
    assert!(rt; names_differ(&files));
    let mut shelf = SureShelf::new(files);
    let (status, output) = answer_on(rt, alloc, &mut shelf, words)?;
    assert_eq!(rt;
        output.as_slice(),
        written.as_bytes(),
        "{words} on {registry} and {text:?}"
    );
    Ok(status)
}

/// Asserts what is built of the small registry and its chapter at the choice of these options.
fn builds_wsi(
    rt: &impl Abort,
    alloc: Global,
    options: &str,
    written: &str,
) -> Result<(), AllocError> {
    let registry = file(alloc, "s.xml", SWAPCHAIN)?;
    let all = file(alloc, "all.adoc", ALL)?;
    let chapter = file(alloc, "chapters/wsi.adoc", WSI)?;
    let files = vec![in alloc; registry, all, chapter]?;
    assert!(rt; names_differ(&files));
    let mut shelf = SureShelf::new(files);
    let words = format!(in alloc; "build s.xml all.adoc vulkan {options}")?;
    let (status, output) = answer_on(rt, alloc, &mut shelf, words.as_str())?;
    assert_eq!(rt; output.as_slice(), written.as_bytes(), "{options}");
    assert_eq!(rt; status, Status::Done);
    Ok(())
}

#[test]
fn pages_are_built(rt: HostRuntime) -> Result<(), Fail> {
    let alloc = rt.alloc();
    let mut written = String::from_str(alloc, PLAIN_TEXT)?;
    builds_wsi(&rt, alloc, "VK_VERSION_1_0", written.as_str())?;
    written.push_str(SURFACE_TEXT)?;
    let options = "VK_VERSION_1_0 VK_KHR_surface";
    builds_wsi(&rt, alloc, options, written.as_str())?;
    written.push_str(SWAPCHAIN_TEXT)?;
    let options = "VK_VERSION_1_0 VK_KHR_surface VK_KHR_swapchain";
    builds_wsi(&rt, alloc, options, written.as_str())?;
    Ok(())
}

#[test]
fn texts_are_built_at_a_choice(rt: HostRuntime) -> Result<(), Fail> {
    let alloc = rt.alloc();
    for (text, words, written) in [
        ("", "build - a.adoc -", ""),
        ("ifdef::X[see <<a>>]\n", "build - a.adoc - X", "see <<a>>\n"),
        ("ifdef::X[see <<a>>]\n", "build - a.adoc -", ""),
        (
            "ifdef::X[see <<a>>]\n",
            "build - a.adoc - X X",
            "see <<a>>\n",
        ),
        ("ifdef::A+B[x]\n", "build - a.adoc - A +B", "x\n"),
        ("ifdef::A+B[x]\n", "build - a.adoc - +B +A", "x\n"),
        ("ifdef::A+B[x]\n", "build - a.adoc - +B", ""),
        ("ifdef::a[x]\nifdef::A[y]\n", "build - a.adoc - A", "y\n"),
        (
            "ifndef::A,B[]\nx\nendif::A,B[]\nifndef::A+B[]\ny\nendif::[]\n",
            "build - a.adoc - A",
            "y\n",
        ),
        (
            "ifdef::A,B[x]\nifdef::A+B[y]\nifdef::B[z]\n",
            "build - a.adoc - A",
            "x\n",
        ),
        (
            "a \t\r\n// b\r\nifdef::X[c ] \r\ninclude::d[] \n\n/// e",
            "build - a.adoc - X",
            "a \t\r\n// b\r\nc \ninclude::d[] \n\n/// e\n",
        ),
        (
            "include::{generated}/api/a/VkX.adoc[]\ninclude::{generated}/validity/a/VkX.adoc[]\nx\n",
            "build - a.adoc -",
            "x\n",
        ),
        (
            ":refpage: VkA\n[[x{refpage}]]\n",
            "build - a.adoc -",
            ":refpage: VkA\n[[x{refpage}]]\n",
        ),
    ] {
        says(&rt, alloc, text, words, written, Status::Done)?;
    }
    Ok(())
}

#[test]
fn a_page_of_a_declared_name_is_built(rt: HostRuntime) -> Result<(), Fail> {
    let alloc = rt.alloc();
    let text = "include::{generated}/api/basetypes/int.adoc[]\n";
    let written = "[[int,int]]\n[source,c++]\n----\n----\n";
    let words = "build r.xml a.adoc vulkan VK_V";
    let status = builds(&rt, alloc, EXTERNAL, text, words, written)?;
    assert_eq!(rt; status, Status::Done);
    Ok(())
}

#[test]
fn faults_of_a_build_are_told_in_their_order(rt: HostRuntime) -> Result<(), Fail> {
    let alloc = rt.alloc();
    for (registry, text, words, written) in [
        (
            "<a/>",
            "endif::[]\n",
            "build r.xml a.adoc vulkan NONE",
            "refused BadAttribute r.xml 0 registry\n",
        ),
        (
            TWO,
            "endif::[]\n",
            "build r.xml a.adoc vulkan NONE",
            "refused Unbalanced a.adoc:1\n",
        ),
        (
            TWO,
            "x\n",
            "build r.xml b.adoc vulkan NONE",
            "refused Missing b.adoc\n",
        ),
        (
            TWO,
            "x\n",
            "build r.xml a.adoc vulkan NONE VK_B",
            "refused UnknownOption NONE\n",
        ),
        (
            TWO,
            "x\n",
            "build r.xml a.adoc vulkan VK_V VK_B",
            "refused NotPermitted VK_B\n",
        ),
        (
            TWO,
            "x\n",
            "build r.xml a.adoc vulkan +VK_V",
            "refused NotPermitted VK_V\n",
        ),
        (
            TWO,
            "ifdef::A+B[x]\n",
            "build - a.adoc - B +B",
            "refused UnknownOption B\n",
        ),
    ] {
        let status = builds(&rt, alloc, registry, text, words, written)?;
        assert_eq!(rt; status, Status::Refused);
    }
    Ok(())
}

#[test]
fn a_build_reads_each_file_once(rt: HostRuntime) -> Result<(), Fail> {
    let alloc = rt.alloc();
    for (call, wanted) in [
        (1, Status::ReadFault),
        (2, Status::ReadFault),
        (3, Status::Refused),
    ] {
        let registry = file(alloc, "r.xml", TWO)?;
        let chapter = file(alloc, "a.adoc", "x\n")?;
        let files = vec![in alloc; registry, chapter]?;
        assert!(rt; names_differ(&files));
        let mut shelf = MemoryShelf::new(files, vec![in alloc; call]?);
        let words = "build r.xml a.adoc vulkan VK_A";
        let (status, output) = answer_on(&rt, alloc, &mut shelf, words)?;
        assert_eq!(rt; status, wanted);
        assert_eq!(rt; output.is_empty(), call < 3);
    }
    Ok(())
}

#[test]
fn many_options_may_be_chosen(rt: HostRuntime) -> Result<(), Fail> {
    let alloc = rt.alloc();
    let mut text = String::new(alloc);
    for number in 0..1_000u32 {
        text.push_str(format!(in alloc; "ifdef::X{number}[{number}]\n")?.as_str())?;
    }
    let words = "build - a.adoc - X0 X13 X999";
    says(
        &rt,
        alloc,
        text.as_str(),
        words,
        "0\n13\n999\n",
        Status::Done,
    )?;
    Ok(())
}
