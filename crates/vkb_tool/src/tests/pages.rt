//! Checks of documents with lines that set the page, and with generated pages of a registry.
use super::builds::{ALL, SWAPCHAIN, WSI};
use super::registries::{ASK, FOO, TWO, asks};
use super::*;
use std::alloc::{AllocError, Global};
use std::process::Abort;
use std::test::Fail;
use vkb_outside::{SureShelf, names_differ};

/// A chapter that sets one of two pages, with an anchor of that page and this link.
fn either_page(alloc: Global, link: &str) -> Result<String, AllocError> {
    format!(in alloc;
        "ifdef::X[]\n:refpage: VkA\nendif::X[]\nifndef::X[]\n:refpage: VkB\nendif::X[]\n[[VUID-{{refpage}}-x]]\n{link}\n"
    )
}

#[test]
fn ids_follow_the_page(rt: HostRuntime) -> Result<(), Fail> {
    let alloc = rt.alloc();
    let text = either_page(alloc, "<<VUID-VkA-x>>")?;
    breaks(&rt, alloc, text.as_str(), "no a.adoc:8:1\nVUID-VkA-x 0\n")?;
    let text = either_page(alloc, "<<VUID-VkB-x>>")?;
    let written = "no a.adoc:8:1\nVUID-VkB-x 0\nwith X\n";
    breaks(&rt, alloc, text.as_str(), written)?;
    let text = either_page(alloc, "<<VUID-{refpage}-x>>")?;
    holds(&rt, alloc, text.as_str(), "yes 1\n")?;
    let text = ":refpage: VkA\n<<p-{refpage}>>\n";
    breaks(&rt, alloc, text, "no a.adoc:2:1\np-VkA 0\n")?;
    let text = "[[p-{refpage}]]\n<<p-{refpage}>>\n";
    holds(&rt, alloc, text, "yes 1\n")?;
    Ok(())
}

#[test]
fn a_page_holds_from_its_line_on(rt: HostRuntime) -> Result<(), Fail> {
    let alloc = rt.alloc();
    let text = "// [[a]]\n:refpage: VkA\n[[x{refpage}]] <<xVkA>>\n";
    holds(&rt, alloc, text, "yes 1\n")?;
    let text = "[[x{refpage}]]\n:refpage: VkA\n<<x{refpage}>>\n";
    breaks(&rt, alloc, text, "no a.adoc:3:1\nxVkA 0\n")?;
    let text =
        ":refpage: VkA\n[[{refpage}]]\n:refpage: VkB\n[[VkA]] [[{refpage}]]\n<<VkB>> <<VkA>>\n";
    breaks(&rt, alloc, text, "no a.adoc:5:9\nVkA 2\n")?;
    let text = ":refpage: VkA\n";
    holds(&rt, alloc, text, "yes 0\n")?;
    asks(&rt, alloc, TWO, text, ASK, "yes 0\n")?;
    let text =
        ":refpage: A\nifdef::VK_B[]\n:refpage: B\nendif::[]\n[[{refpage}]]\nifndef::VK_A[<<A>>]\nifdef::VK_B[<<B>>]\n";
    asks(&rt, alloc, TWO, text, ASK, "yes 2\n")?;
    Ok(())
}

/// The line that includes the declaration of the one struct.
const DECLARATION: &str = "include::{generated}/api/structs/VkFoo.adoc[]\n";

/// Asserts what a check of that line between two others comes to, over the registry in which an extension requires the struct.
fn declares(
    rt: &impl Abort,
    alloc: Global,
    before: &str,
    behind: &str,
    written: &str,
) -> Result<(), AllocError> {
    let text = format!(in alloc; "{before}{DECLARATION}{behind}")?;
    asks(rt, alloc, FOO, text.as_str(), ASK, written)?;
    Ok(())
}

#[test]
fn a_declaration_has_an_anchor_where_it_stands(rt: HostRuntime) -> Result<(), Fail> {
    let alloc = rt.alloc();
    let written = "no a.adoc:2:1\nVkFoo 0\nwith VK_V\n";
    declares(&rt, alloc, "", "slink:VkFoo\n", written)?;
    declares(&rt, alloc, "", "ifdef::VK_B[slink:VkFoo]\n", "yes 1\n")?;
    let opened = "ifdef::VK_B[]\n";
    let behind = "endif::[]\n<<VkFoo>>\n";
    let written = "no a.adoc:4:1\nVkFoo 0\nwith VK_V\n";
    declares(&rt, alloc, opened, behind, written)?;
    declares(&rt, alloc, opened, "slink:VkFoo\nendif::[]\n", "yes 1\n")?;
    let written = "no a.adoc:3:1\nVkFoo 2\nwith VK_V\nwith VK_B\n";
    declares(&rt, alloc, "[[VkFoo]]\n", "<<VkFoo>>\n", written)?;
    let behind = "ifdef::VK_B[<<VkFoo>>]\n";
    let written = "no a.adoc:3:13\nVkFoo 2\nwith VK_V\nwith VK_B\n";
    declares(&rt, alloc, DECLARATION, behind, written)?;
    Ok(())
}

#[test]
fn a_page_of_no_declared_name_has_nothing(rt: HostRuntime) -> Result<(), Fail> {
    let alloc = rt.alloc();
    let validity = "include::{generated}/validity/structs/VkFoo.adoc[]\n";
    asks(&rt, alloc, FOO, validity, ASK, "yes 0\n")?;
    asks(&rt, alloc, TWO, validity, ASK, "yes 0\n")?;
    asks(&rt, alloc, FOO, validity, "check - a.adoc -", "yes 0\n")?;
    asks(&rt, alloc, TWO, DECLARATION, ASK, "yes 0\n")?;
    asks(&rt, alloc, FOO, DECLARATION, "check - a.adoc -", "yes 0\n")?;
    Ok(())
}

/// A registry of a struct that an extension's struct extends.
pub const CHAIN: &str =
    "<registry><types><type name=\"void\"/><type category=\"struct\" name=\"VkBase\"><member><type>void</type>* <name>pNext</name></member></type><type category=\"struct\" name=\"VkMore\" structextends=\"VkBase\"/></types><feature api=\"vulkan\" name=\"VK_V\" number=\"1.0\"><require><type name=\"VkBase\"/></require></feature><extensions><extension name=\"VK_B\" number=\"1\" supported=\"vulkan\"><require><type name=\"VkMore\"/></require></extension></extensions></registry>";

/// Asserts what a check of the statements on that struct comes to, with lines behind them.
fn states(rt: &impl Abort, alloc: Global, behind: &str, written: &str) -> Result<(), AllocError> {
    let text = format!(in alloc;
        "include::{{generated}}/validity/structs/VkBase.adoc[]\n{behind}"
    )?;
    asks(rt, alloc, CHAIN, text.as_str(), ASK, written)?;
    Ok(())
}

#[test]
fn a_statement_stands_where_its_name_is_declared(rt: HostRuntime) -> Result<(), Fail> {
    let alloc = rt.alloc();
    let written = "no a.adoc:1/2:69\nVkMore 0\nwith VK_V\nwith VK_B\n";
    states(&rt, alloc, "", written)?;
    states(&rt, alloc, "[[VkMore]]\n", "yes 1\n")?;
    let page = "include::{generated}/api/structs/VkMore.adoc[]\n";
    states(&rt, alloc, page, "yes 1\n")?;
    let behind = "[[VkMore]]\nifdef::VK_B[<<VUID-VkBase-pNext-VkMore>>]\n";
    states(&rt, alloc, behind, "yes 2\n")?;
    let behind = "[[VkMore]]\n<<VUID-VkBase-sType-unique>>\n<<VUID-VkBase-pNext-VkMore>>\n";
    let written = "no a.adoc:4:1\nVUID-VkBase-pNext-VkMore 0\nwith VK_V\n";
    states(&rt, alloc, behind, written)?;
    Ok(())
}

/// Asserts what a check of the small registry and this chapter on it comes to.
fn asks_wsi(
    rt: &impl Abort,
    alloc: Global,
    chapter: &str,
    written: &str,
) -> Result<(), AllocError> {
    let registry = file(alloc, "s.xml", SWAPCHAIN)?;
    let all = file(alloc, "all.adoc", ALL)?;
    let chapter = file(alloc, "chapters/wsi.adoc", chapter)?;
    let files = vec![in alloc; registry, all, chapter]?;
    assert!(rt; names_differ(&files));
    let mut shelf = SureShelf::new(files);
    let (_, output) = answer_on(rt, alloc, &mut shelf, "check s.xml all.adoc vulkan")?;
    assert_eq!(rt; output.as_slice(), written.as_bytes());
    Ok(())
}

/// The chapter without the declaration of an enum type that a statement links to.
const WITHOUT: &str =
    "[[wsi]]\nifdef::VK_KHR_surface[]\ninclude::{generated}/api/handles/VkSurfaceKHR.adoc[]\nendif::VK_KHR_surface[]\nifdef::VK_KHR_swapchain[]\ninclude::{generated}/api/enums/VkSwapchainCreateFlagBitsKHR.adoc[]\ninclude::{generated}/api/structs/VkSwapchainCreateInfoKHR.adoc[]\ninclude::{generated}/validity/structs/VkSwapchainCreateInfoKHR.adoc[]\nendif::VK_KHR_swapchain[]\n";

#[test]
fn statements_link_to_declarations(rt: HostRuntime) -> Result<(), Fail> {
    let alloc = rt.alloc();
    asks_wsi(&rt, alloc, WSI, "yes 4\n")?;
    let written =
        "no chapters/wsi.adoc:8/5:96\nVkPresentModeKHR 0\nwith VK_VERSION_1_0\nwith VK_KHR_surface\nwith VK_KHR_swapchain\n";
    asks_wsi(&rt, alloc, WITHOUT, written)?;
    let link = "ifdef::VK_KHR_swapchain[<<VUID-VkSwapchainCreateInfoKHR-flags-parameter>>]\n";
    let text = format!(in alloc; "{WSI}{link}")?;
    asks_wsi(&rt, alloc, text.as_str(), "yes 5\n")?;
    let link = "<<VUID-VkSwapchainCreateInfoKHR-flags-parameter>>\n";
    let text = format!(in alloc; "ifndef::VK_KHR_surface[]\n{link}endif::[]\n{WSI}")?;
    let written =
        "no chapters/wsi.adoc:2:1\nVUID-VkSwapchainCreateInfoKHR-flags-parameter 0\nwith VK_VERSION_1_0\n";
    asks_wsi(&rt, alloc, text.as_str(), written)?;
    Ok(())
}

/// A registry of so many extensions beside its feature.
fn extensions(alloc: Global, count: u32) -> Result<String, AllocError> {
    let mut text = String::from_str(
        alloc,
        "<registry><feature api=\"vulkan\" name=\"VK_V\" number=\"1.0\"/><extensions>",
    )?;
    for number in 0..count {
        let row = format!(in alloc;
            "<extension name=\"VK_{number}\" number=\"1\" supported=\"vulkan\"/>"
        )?;
        text.push_str(row.as_str())?;
    }
    text.push_str("</extensions></registry>")?;
    Ok(text)
}

/// A link that stands where so many of these extensions are chosen.
fn link_at_all(alloc: Global, count: u32) -> Result<String, AllocError> {
    let mut text = String::from_str(alloc, "ifdef::VK_V")?;
    for number in 0..count {
        text.push_str(format!(in alloc; "+VK_{number}")?.as_str())?;
    }
    text.push_str("[]\n <<a>>\nendif::[]\n")?;
    Ok(text)
}

#[test]
fn a_registry_may_have_many_options(rt: HostRuntime) -> Result<(), Fail> {
    let alloc = rt.alloc();
    let registry = extensions(alloc, 300)?;
    let text = "[[a]]\nifdef::VK_299[<<a>>]\n";
    asks(&rt, alloc, registry.as_str(), text, ASK, "yes 1\n")?;
    let text = link_at_all(alloc, 300)?;
    let mut written = String::from_str(alloc, "no a.adoc:2:2\na 0\nwith VK_V\n")?;
    for number in 0..300 {
        written.push_str(format!(in alloc; "with VK_{number}\n")?.as_str())?;
    }
    asks(
        &rt,
        alloc,
        registry.as_str(),
        text.as_str(),
        ASK,
        written.as_str(),
    )?;
    Ok(())
}
