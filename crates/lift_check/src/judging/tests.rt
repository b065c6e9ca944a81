//! Verdicts on small documents, over no registry and over small ones.
ghost use Rattle.std.specs.Prelude.{IfOk, List, ℕ};
ghost use Rattle.doc_tree.specs.Loaded.{IsLoaded};

use super::check_all;
use crate::{Verdict, free_options};
use doc_tree::{DocFault, Document, load};
use reg_reader::read_markup;
use reg_registry::Registry;
use reg_rows::rows;
use std::alloc::{AllocError, Global};
use std::process::Abort;
use std::test::Fail;
use vkb_bytes::{Bytes, Memory};
use vkb_outside::{SureShelf, names_differ};
use vkb_text::Text;

/// Two extensions, of which the second depends on the first.
const DEPENDENT: &[u8] =
    b"<registry><feature api='vulkan' name='VK_V' number='1.0'/><extensions><extension name='VK_A' number='1' supported='vulkan'/><extension name='VK_B' number='2' supported='vulkan' depends='VK_A'/></extensions></registry>";

/// The same without that.
const APART: &[u8] =
    b"<registry><feature api='vulkan' name='VK_V' number='1.0'/><extensions><extension name='VK_A' number='1' supported='vulkan'/><extension name='VK_B' number='2' supported='vulkan'/></extensions></registry>";

/// An extension that requires a struct, whose member is of an enum type.
const STRUCT: &[u8] =
    b"<registry><types><type name='VkE' category='enum'/><type category='struct' name='VkFoo'><member><type>VkE</type> <name>e</name></member></type></types><enums name='VkE' type='enum'><enum value='0' name='VK_E_A'/></enums><feature api='vulkan' name='VK_V' number='1.0'/><extensions><extension name='VK_B' number='1' supported='vulkan'><require><type name='VkFoo'/></require></extension></extensions></registry>";

/// The document of a chapter, as the only file.
fn document(
    rt: &impl Abort,
    alloc: Global,
    text: &mut Text,
    chapter: &str,
) -> Result<Document, DocFault>
    ensures loaded { IfOk result (IsLoaded text.new.bytes) }
{
    let mut files = Vec::new(alloc);
    files.push((
        String::from_str(alloc, "a.adoc")?,
        Vec::from_slice(alloc, chapter.as_bytes())?,
    ))?;
    assert!(rt; names_differ(&files));
    let mut shelf = SureShelf::new(files);
    load(alloc, &mut shelf, text, "a.adoc")
}

/// The registry of a text.
fn registry(alloc: Global, text: &[u8]) -> Result<Registry, Fail> {
    if text.len() > 33_554_432 {
        return Err(Fail::from("too long"));
    }
    let tree = read_markup(alloc, text)?;
    match rows(alloc, text, &tree, b"vulkan") {
        Ok(registry) => Ok(registry),
        Err(_) => Err(Fail::from("no registry")),
    }
}

/// A digit for each option of a choice: 1 where it is chosen.
fn digits(alloc: Global, choice: &[bool]) -> Result<String, AllocError> {
    let mut digits = String::new(alloc);
    for chosen in choice {
        digits.push_str(if *chosen { "1" } else { "0" })?;
    }
    Ok(digits)
}

/// A verdict in words: the number of links, or the place of one, its id with the count of its anchors, and a choice.
fn told(alloc: Global, verdict: &Verdict) -> Result<String, AllocError> {
    match verdict {
        Verdict::Yes { links } => format!(in alloc; "yes {links}"),
        Verdict::No {
            place,
            id,
            choice,
            count,
        } => {
            let name = std::str::from_utf8(id.as_slice()).unwrap_or("");
            let digits = digits(alloc, choice.as_slice())?;
            format!(in alloc;
                "no {} {} {}: {name} {count} at [{digits}]",
                place.line, place.statement, place.at
            )
        }
    }
}

/// The verdict on a document, where some names are always set.
fn verdict_told(
    alloc: Global,
    text: &Text,
    d: &Document,
    r: &Registry,
    always: &[Bytes],
) -> Result<String, Memory>
    requires { IsLoaded text.now.bytes d.now }
{
    let verdict = check_all(alloc, text, d, r, always)?;
    Ok(told(alloc, &verdict)?)
}

/// The verdict on a document over no registry.
fn free_told(alloc: Global, text: &Text, d: &Document, always: &[Bytes]) -> Result<String, Memory>
    requires { IsLoaded text.now.bytes d.now }
{
    let r = free_options(alloc, d, always)?;
    verdict_told(alloc, text, d, &r, always)
}

/// Checks the verdict on a chapter over no registry, where one name is always set.
fn check_free(rt: &impl Abort, alloc: Global, chapter: &str, want: &str) -> Result<(), Fail> {
    let mut text = Text::new(alloc, 1_000_000);
    let d = document(rt, alloc, &mut text, chapter)?;
    let always = vec![in alloc; Bytes::from_slice(alloc, b"SET")?]?;
    let told = free_told(alloc, &text, &d, always.as_slice())?;
    assert_eq!(rt; told.as_str(), want, "{chapter:?}");
    Ok(())
}

/// Checks the verdict on a chapter over a registry.
fn check_over(
    rt: &impl Abort,
    alloc: Global,
    registry_text: &[u8],
    chapter: &str,
    want: &str,
) -> Result<(), Fail> {
    let mut text = Text::new(alloc, 1_000_000);
    let d = document(rt, alloc, &mut text, chapter)?;
    let r = registry(alloc, registry_text)?;
    let told = verdict_told(alloc, &text, &d, &r, &[])?;
    assert_eq!(rt; told.as_str(), want, "{chapter:?}");
    Ok(())
}

#[test]
fn links_that_hold_at_every_choice_are_counted(rt: HostRuntime) -> Result<(), Fail> {
    let alloc = rt.alloc();
    check_free(&rt, alloc, "", "yes 0")?;
    check_free(&rt, alloc, "[[a]] <<a>> slink:a\n", "yes 2")?;
    check_free(
        &rt,
        alloc,
        "ifdef::X[]\n[[a]]\nendif::X[]\nifndef::X[]\n[[a]]\nendif::X[]\n<<a>>\n",
        "yes 1",
    )?;
    check_free(
        &rt,
        alloc,
        "ifdef::X,Y[]\n[[a]]\nendif::X,Y[]\nifdef::X[<<a>>]\nifdef::X+Y[<<a>>]\n",
        "yes 2",
    )?;
    check_free(
        &rt,
        alloc,
        "ifdef::SET[[[a]]]\n<<a>>\nifndef::SET[<<b>>]\n",
        "yes 2",
    )?;
    check_free(&rt, alloc, "// [[a]]\n[[a]]\n<<a>>\n// <<b>>\n", "yes 1")
}

#[test]
fn the_first_link_that_breaks_is_told(rt: HostRuntime) -> Result<(), Fail> {
    let alloc = rt.alloc();
    check_free(
        &rt,
        alloc,
        "ifdef::X[]\n[[a]]\nendif::X[]\n<<a>>\n",
        "no 3 0 0: a 0 at [0]",
    )?;
    check_free(
        &rt,
        alloc,
        "ifdef::X+Y[]\n[[a]]\nendif::X+Y[]\nifdef::X[<<a>>]\n",
        "no 3 0 9: a 0 at [10]",
    )?;
    check_free(
        &rt,
        alloc,
        "[[a]]\nifdef::X[[[a]]]\n<<a>>\n",
        "no 2 0 0: a 2 at [1]",
    )?;
    check_free(
        &rt,
        alloc,
        "[[b]]\n<<b>> <<a>>\n<<c>>\n",
        "no 1 0 6: a 0 at []",
    )?;
    check_free(
        &rt,
        alloc,
        "ifdef::X[]\n<<b>>\nendif::X[]\n<<a>>\n",
        "no 1 0 0: b 0 at [1]",
    )
}

/// Lines that set one page where X is chosen, and another where it isn't.
const TWO_PAGES: &str =
    "ifdef::X[]\n:refpage: VkA\nendif::X[]\nifndef::X[]\n:refpage: VkB\nendif::X[]\n";

#[test]
fn ids_are_those_of_the_choice(rt: HostRuntime) -> Result<(), Fail> {
    let alloc = rt.alloc();
    let both = format!(in alloc; "{TWO_PAGES}[[{{refpage}}-x]]\n<<{{refpage}}-x>>\n<<VkA-x>>\n")?;
    check_free(&rt, alloc, both.as_str(), "no 8 0 0: VkA-x 0 at [0]")?;
    let one = format!(in alloc; "[[VkA-x]]\n{TWO_PAGES}<<{{refpage}}-x>>\n")?;
    check_free(&rt, alloc, one.as_str(), "no 7 0 0: VkB-x 0 at [0]")?;
    check_free(
        &rt,
        alloc,
        ":refpage: VkA\n[[{refpage}]]\nifdef::X[]\n:refpage: VkB\n[[VkB]]\nendif::X[]\n<<{refpage}>>\n<<VkA>>\n",
        "yes 2",
    )
}

#[test]
fn only_permitted_choices_break_links(rt: HostRuntime) -> Result<(), Fail> {
    let alloc = rt.alloc();
    let chapter =
        "ifdef::VK_A[]\n[[a]]\nendif::VK_A[]\nifdef::VK_B[]\n<<a>>\nendif::VK_B[]\nifndef::VK_V[<<b>>]\n";
    check_over(&rt, alloc, DEPENDENT, chapter, "yes 2")?;
    check_over(&rt, alloc, APART, chapter, "no 4 0 0: a 0 at [101]")
}

/// Checks the verdict on a chapter over the registry of the struct.
fn check_struct(rt: &impl Abort, alloc: Global, chapter: &str, want: &str) -> Result<(), Fail> {
    check_over(rt, alloc, STRUCT, chapter, want)
}

#[test]
fn pages_stand_where_the_closure_has_their_names(rt: HostRuntime) -> Result<(), Fail> {
    let alloc = rt.alloc();
    check_struct(
        &rt,
        alloc,
        "include::{generated}/api/structs/VkFoo.adoc[]\nslink:VkFoo\n",
        "no 1 0 0: VkFoo 0 at [10]",
    )?;
    check_struct(
        &rt,
        alloc,
        "include::{generated}/api/enums/VkE.adoc[]\nifdef::VK_B[elink:VkE]\n",
        "yes 1",
    )?;
    check_struct(
        &rt,
        alloc,
        "include::{generated}/api/enums/VkE.adoc[]\n[[VkE]]\nifdef::VK_B[elink:VkE]\n",
        "no 2 0 12: VkE 2 at [11]",
    )
}

/// The statements of the struct, of which one links to the enum type.
const STATEMENTS: &str = "include::{generated}/validity/structs/VkFoo.adoc[]\n";

#[test]
fn statements_stand_where_the_closure_has_their_names(rt: HostRuntime) -> Result<(), Fail> {
    let alloc = rt.alloc();
    let alone = format!(in alloc; "{STATEMENTS}<<VUID-VkFoo-e-parameter>>\n")?;
    check_struct(&rt, alloc, alone.as_str(), "no 0 1 56: VkE 0 at [11]")?;
    let api = "include::{generated}/api/enums/VkE.adoc[]\n";
    let always = format!(in alloc; "{api}{STATEMENTS}<<VUID-VkFoo-e-parameter>>\n")?;
    let want = "no 2 0 0: VUID-VkFoo-e-parameter 0 at [10]";
    check_struct(&rt, alloc, always.as_str(), want)?;
    let under = format!(in alloc; "{api}{STATEMENTS}ifdef::VK_B[<<VUID-VkFoo-e-parameter>>]\n")?;
    check_struct(&rt, alloc, under.as_str(), "yes 2")
}

#[test]
fn a_hundred_options_are_judged(rt: HostRuntime) -> Result<(), Fail> {
    let alloc = rt.alloc();
    let mut chapter = String::new(alloc);
    for number in 0..100 {
        let lines = format!(in alloc;
            "ifdef::X{number}[[[a{number}]]]\nifndef::X{number}[[[a{number}]]]\n<<a{number}>>\n"
        )?;
        chapter.push_str(lines.as_str())?;
    }
    check_free(&rt, alloc, chapter.as_str(), "yes 100")
}

#[test]
fn many_links_are_judged(rt: HostRuntime) -> Result<(), Fail> {
    let alloc = rt.alloc();
    let mut chapter = String::new(alloc);
    for number in 0..2_000 {
        let line = format!(in alloc; "[[a{number}]] <<a{number}>>\n")?;
        chapter.push_str(line.as_str())?;
    }
    check_free(&rt, alloc, chapter.as_str(), "yes 2000")?;
    chapter.push_str("<<b>>\n")?;
    check_free(&rt, alloc, chapter.as_str(), "no 2000 0 0: b 0 at []")
}
