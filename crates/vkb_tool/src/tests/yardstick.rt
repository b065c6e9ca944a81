//! Verdicts held against a trial of all choices: at each permitted choice the text is built, and the anchors of each of its links are counted.
ghost use Rattle.std.specs.Prelude.{◌≡◌, length, IfOk, IfSome};
ghost use Rattle.doc_tree.specs.Loaded.{IsLoaded};

use super::pages::CHAIN;
use super::registries::{APART, BIT, FOO, LINK, TWO, two_files};
use super::*;
use crate::registry::read_registry;
use doc_build::{Piece, Place, count, filled, pieces};
use doc_cond::LineKind;
use doc_marks::Marks;
use doc_tree::{DocFault, Document, load};
use lift_check::{Verdict, check_all, free_options};
use reg_permit::{ChoiceFault, choice_of};
use reg_registry::{Choice, Registry};
use std::alloc::{AllocError, Global};
use std::process::Abort;
use std::test::Fail;
use vkb_bytes::Bytes;
use vkb_formula::{NameId, NameTable};
use vkb_outside::{SureShelf, names_differ};
use vkb_text::Text;

/// Where a link stands, as in [`Place`].
#[derive(Clone, Copy, Debug, PartialEq, Eq)]
struct Spot {
    line: u32,
    statement: u64,
    at: u64,
}

impl Spot {
    fn of(place: Place) -> Spot {
        Spot {
            line: place.line,
            statement: u64::from(place.statement),
            at: u64::from(place.at),
        }
    }

    fn is_before(&self, other: &Spot) -> bool {
        if self.line != other.line {
            return self.line < other.line;
        }
        if self.statement != other.statement {
            return self.statement < other.statement;
        }
        self.at < other.at
    }
}

/// A link of a built text: its place, and its id there.
#[derive(Debug, Drop)]
struct Link {
    spot: Spot,
    id: Vec<u8>,
}

/// The name of the page that a line of the document sets, if it does.
fn page_set(document: &Document, line: u32) -> Option<&[u8]> {
    match document.lines.as_slice().get(line as usize) {
        Some(line) => match &line.kind {
            LineKind::Refpage { name } => Some(name.as_slice()),
            _ => None,
        },
        None => None,
    }
}

/// A written id where this is the page, if there is one.
fn id_at(alloc: Global, page: Option<&[u8]>, written: &[u8]) -> Result<Vec<u8>, Memory> {
    match page {
        Some(page) => filled(alloc, page, written),
        None => Ok(Vec::from_slice(alloc, written)?),
    }
}

/// Puts the links of a line of a built text behind others.
fn put_links(
    alloc: Global,
    piece: &Piece,
    page: Option<&[u8]>,
    links: &mut Vec<Link>,
) -> Result<(), Memory> {
    let bytes = piece.bytes.as_slice();
    if !piece.marked || bytes.len() > 1_000_000 {
        return Ok(());
    }
    let mut marks = Marks::new(bytes);
    while let Some(mark) = marks.next() {
        if !mark.anchor {
            let id = id_at(alloc, page, &bytes[mark.from as usize..mark.to as usize])?;
            let spot = Spot {
                line: piece.line,
                statement: piece.statement,
                at: u64::from(piece.start) + u64::from(mark.at),
            };
            links.push(Link { spot, id })?;
        }
    }
    Ok(())
}

/// The links of the text that is built at a choice, in order.
fn links_at(
    alloc: Global,
    text: &Text,
    document: &Document,
    registry: &Registry,
    choice: &Choice,
    always: &[Bytes],
) -> Result<Vec<Link>, Memory>
    requires loaded { IsLoaded text.now.bytes document.now }
    requires chosen { length choice.now.chosen.items ≡ length registry.now.options }
{
    let lines = pieces(alloc, text, document, registry, choice, always)?;
    let mut page: Option<&[u8]> = None;
    let mut links = Vec::new(alloc);
    for line in lines.as_slice() {
        put_links(alloc, line, page, &mut links)?;
        page = page_set(document, line.line).or(page);
    }
    Ok(links)
}

/// The names of chosen options.
fn names_of(alloc: Global, options: &NameTable, chosen: &[bool]) -> Result<Vec<Bytes>, AllocError> {
    let mut names = Vec::new(alloc);
    for option in 0..options.len() {
        if chosen.get(option as usize).copied().unwrap_or(false) {
            names.push(Bytes::from_slice(alloc, options.name(NameId(option)))?)?;
        }
    }
    Ok(names)
}

/// So many options, of which those are chosen whose bit is set in a number.
fn chosen_by(alloc: Global, number: u32, options: u32) -> Result<Vec<bool>, AllocError> {
    let mut chosen = Vec::new(alloc);
    let mut rest = number;
    for _ in 0..options {
        chosen.push(rest % 2 == 1)?;
        rest /= 2;
    }
    Ok(chosen)
}

/// The choice of these options, if it is permitted.
fn permitted(alloc: Global, registry: &Registry, chosen: &[bool]) -> Result<Option<Choice>, Memory>
    ensures { IfOk result (λ choice. IfSome choice (λ c. length c.chosen.items ≡ length registry.now.options)) }
{
    let names = names_of(alloc, registry.options(), chosen)?;
    match choice_of(alloc, registry, names.as_slice()) {
        Ok(choice) => Ok(Some(choice)),
        Err(ChoiceFault::NotPermitted { .. }) => Ok(None),
        Err(ChoiceFault::UnknownOption { word }) => {
            drop(word);
            Err(Memory)
        }
        Err(ChoiceFault::Memory) => Err(Memory),
    }
}

/// What a trial of choices has found: the first link that one of them breaks, and the places of all links.
#[derive(Drop)]
struct Trial {
    first: Option<Spot>,
    spots: Vec<Spot>,
}

impl Trial {
    /// Takes a link of a built text, in which its id has so many anchors.
    fn take(&mut self, spot: Spot, anchors: u64) -> Result<(), Memory> {
        if anchors != 1 && self.is_first(&spot) {
            self.first = Some(spot);
        }
        if !self.spots.as_slice().contains(&spot) {
            self.spots.push(spot)?;
        }
        Ok(())
    }

    /// Whether no link before this one broke.
    fn is_first(&self, spot: &Spot) -> bool {
        match self.first {
            Some(first) => spot.is_before(&first),
            None => true,
        }
    }
}

/// Tries a choice.
fn try_choice(
    alloc: Global,
    text: &Text,
    document: &Document,
    registry: &Registry,
    choice: &Choice,
    always: &[Bytes],
    trial: &mut Trial,
) -> Result<(), Memory>
    requires loaded { IsLoaded text.now.bytes document.now }
    requires chosen { length choice.now.chosen.items ≡ length registry.now.options }
{
    let links = links_at(alloc, text, document, registry, choice, always)?;
    for link in links.as_slice() {
        let id = link.id.as_slice();
        let anchors = count(alloc, text, document, registry, choice, always, id)?;
        trial.take(link.spot, anchors)?;
    }
    Ok(())
}

/// Tries all permitted choices of at most five options.
fn try_all(
    alloc: Global,
    text: &Text,
    document: &Document,
    registry: &Registry,
    always: &[Bytes],
) -> Result<Trial, Memory>
    requires { IsLoaded text.now.bytes document.now }
{
    let options = registry.options().len();
    let mut trial = Trial {
        first: None,
        spots: Vec::new(alloc),
    };
    for number in 0..32 {
        let chosen = chosen_by(alloc, number, options)?;
        match permitted(alloc, registry, chosen.as_slice())? {
            Some(choice) => try_choice(
                alloc, text, document, registry, &choice, always, &mut trial,
            )?,
            None => (),
        }
    }
    Ok(trial)
}

/// The link that stands at a place.
fn link_at(links: &[Link], spot: Spot) -> Option<&Link> {
    for link in links {
        if link.spot == spot {
            return Some(link);
        }
    }
    None
}

/// Asserts that a choice is permitted, and that at it a link stands at a place, and has this id with so many anchors, and not one.
fn is_broken(
    rt: &impl Abort,
    alloc: Global,
    text: &Text,
    document: &Document,
    registry: &Registry,
    always: &[Bytes],
    place: Place,
    id: &[u8],
    chosen: &[bool],
    anchors: u64,
) -> Result<(), Memory>
    requires { IsLoaded text.now.bytes document.now }
{
    match permitted(alloc, registry, chosen)? {
        Some(choice) => {
            let links = links_at(alloc, text, document, registry, &choice, always)?;
            let told = link_at(links.as_slice(), Spot::of(place)).map(|link| link.id.as_slice());
            assert_eq!(rt; told, Some(id));
            let counted = count(alloc, text, document, registry, &choice, always, id)?;
            assert_eq!(rt; anchors, counted);
            assert!(rt; anchors != 1);
        }
        None => panic!(rt; "the choice isn't permitted"),
    }
    Ok(())
}

/// Asserts that the verdict on a document is what the trial of all permitted choices finds.
fn is_as_tried(
    rt: &impl Abort,
    alloc: Global,
    text: &Text,
    document: &Document,
    registry: &Registry,
    always: &[Bytes],
) -> Result<(), Memory>
    requires { IsLoaded text.now.bytes document.now }
{
    assert!(rt; registry.options().len() <= 5);
    let trial = try_all(alloc, text, document, registry, always)?;
    match check_all(alloc, text, document, registry, always)? {
        Verdict::Yes { links } => {
            assert_eq!(rt; trial.first, None);
            assert!(rt; links >= trial.spots.len() as u64);
        }
        Verdict::No {
            place,
            id,
            choice,
            count,
        } => {
            assert_eq!(rt; trial.first, Some(Spot::of(place)));
            is_broken(
                rt,
                alloc,
                text,
                document,
                registry,
                always,
                place,
                id.as_slice(),
                choice.as_slice(),
                count,
            )?;
        }
    }
    Ok(())
}

/// The names of a text, at spaces.
fn set_names(alloc: Global, text: &str) -> Result<Vec<Bytes>, AllocError> {
    let mut names = Vec::new(alloc);
    for word in words_of(alloc, text)? {
        names.push(Bytes::from_vec(word))?;
    }
    Ok(names)
}

/// Asserts that the verdict on a chapter over a registry is what a trial finds, where these names are always set.
fn agrees_over(
    rt: &impl Abort,
    alloc: Global,
    registry: &str,
    chapter: &str,
    always: &str,
) -> Result<(), Fail> {
    let files = two_files(alloc, registry, chapter)?;
    assert!(rt; names_differ(&files));
    let mut shelf = SureShelf::new(files);
    let always = set_names(alloc, always)?;
    let mut text = Text::new(alloc, 1_000_000);
    let document = load(alloc, &mut shelf, &mut text, "a.adoc")?;
    match read_registry(alloc, &mut shelf, "r.xml", b"vulkan") {
        Ok(registry) => is_as_tried(rt, alloc, &text, &document, &registry, always.as_slice())?,
        Err(_) => panic!(rt; "no registry"),
    }
    Ok(())
}

/// Asserts that of a chapter over no registry.
fn agrees_alone(rt: &impl Abort, alloc: Global, chapter: &str, always: &str) -> Result<(), Fail> {
    let files = one_file(alloc, chapter.as_bytes())?;
    assert!(rt; names_differ(&files));
    let mut shelf = SureShelf::new(files);
    let always = set_names(alloc, always)?;
    let mut text = Text::new(alloc, 1_000_000);
    let document = load(alloc, &mut shelf, &mut text, "a.adoc")?;
    let bare = free_options(alloc, &document, always.as_slice())?;
    is_as_tried(rt, alloc, &text, &document, &bare, always.as_slice())?;
    Ok(())
}

/// Asserts that of a chapter over each of these registries, and over none.
fn agrees(rt: &impl Abort, alloc: Global, chapter: &str) -> Result<(), Fail> {
    for registry in [TWO, APART, FOO, BIT, CHAIN] {
        agrees_over(rt, alloc, registry, chapter, "")?;
        agrees_over(rt, alloc, registry, chapter, "VK_A x")?;
    }
    agrees_alone(rt, alloc, chapter, "")?;
    agrees_alone(rt, alloc, chapter, "VK_B")?;
    Ok(())
}

#[test]
fn verdicts_on_conditions_are_as_tried(rt: HostRuntime) -> Result<(), Fail> {
    let alloc = rt.alloc();
    agrees(&rt, alloc, "")?;
    agrees(&rt, alloc, LINK)?;
    agrees(&rt, alloc, "[[a]] <<a>> <<b>>\n")?;
    agrees(&rt, alloc, "[[a]]\nifdef::VK_A,VK_B[[[a]]]\n<<a>>\n")?;
    agrees(
        &rt,
        alloc,
        "ifdef::VK_A[[[a]]]\nifndef::VK_A[[[a]]]\n<<a>>\n",
    )?;
    let text = "ifdef::VK_A[[[a]]]\nifdef::VK_B[[[a]]]\nifdef::VK_A,VK_B[<<a>>]\n";
    agrees(&rt, alloc, text)?;
    let text =
        "ifdef::VK_A[]\n[[a]]\nifndef::VK_B[<<b>>]\nendif::[]\nifdef::VK_B+VK_A[ <<a>> [[b]] ]\n<<b>>\n";
    agrees(&rt, alloc, text)?;
    let text = "ifdef::VK_V[]\n[[a]]\nendif::[]\nifndef::x[]\n<<a>>\nendif::[]\n";
    agrees(&rt, alloc, text)?;
    Ok(())
}

#[test]
fn verdicts_on_pages_are_as_tried(rt: HostRuntime) -> Result<(), Fail> {
    let alloc = rt.alloc();
    agrees(&rt, alloc, ":refpage: A\n[[x-{refpage}]] <<x-A>>\n")?;
    let text = "ifdef::VK_A[]\n:refpage: A\nendif::[]\n[[{refpage}-{refpage}]]\n<<A-A>>\n";
    agrees(&rt, alloc, text)?;
    let text =
        ":refpage: A\nifdef::VK_B[]\n:refpage: B\nendif::[]\n[[{refpage}]]\nifdef::VK_B[<<B>>]\nifndef::VK_B[<<A>>]\n<<{refpage}>>\n";
    agrees(&rt, alloc, text)?;
    let text =
        "ifdef::VK_A[]\n:refpage: A\nifdef::VK_B[]\n:refpage: B\nendif::[]\nendif::[]\n[[A]] [[{refpage}]]\n:refpage: C\n[[B]] <<A>> <<B>> <<{refpage}>>\n";
    agrees(&rt, alloc, text)?;
    Ok(())
}

#[test]
fn verdicts_on_declarations_are_as_tried(rt: HostRuntime) -> Result<(), Fail> {
    let alloc = rt.alloc();
    let foo = "include::{generated}/api/structs/VkFoo.adoc[]\n";
    let more = "include::{generated}/api/structs/VkMore.adoc[]\n";
    let member = "include::{generated}/api/structs/VkF.adoc[]\n";
    let text = format!(in alloc; "{foo}slink:VkFoo\n")?;
    agrees(&rt, alloc, text.as_str())?;
    let text = format!(in alloc; "{foo}ifdef::VK_B[slink:VkFoo]\n")?;
    agrees(&rt, alloc, text.as_str())?;
    let text = format!(in alloc; "[[VkMore]]\n{more}{member}slink:VkMore slink:VkF\n")?;
    agrees(&rt, alloc, text.as_str())?;
    let text = format!(in alloc; "ifdef::VK_A[]\n{member}endif::[]\nifdef::VK_B[slink:VkF]\n")?;
    agrees(&rt, alloc, text.as_str())?;
    let text = format!(in alloc; "ifndef::VK_A[]\n{member}{member}endif::[]\n{member}slink:VkF\n")?;
    agrees(&rt, alloc, text.as_str())?;
    Ok(())
}

#[test]
fn verdicts_on_statements_are_as_tried(rt: HostRuntime) -> Result<(), Fail> {
    let alloc = rt.alloc();
    let base = "include::{generated}/validity/structs/VkBase.adoc[]\n";
    let more = "include::{generated}/api/structs/VkMore.adoc[]\n";
    agrees(&rt, alloc, base)?;
    let text = format!(in alloc; "{more}{base}<<VUID-VkBase-pNext-VkMore>>\n")?;
    agrees(&rt, alloc, text.as_str())?;
    let text = format!(in alloc; "{more}{base}{base}ifdef::VK_B[<<VUID-VkBase-pNext-VkMore>>]\n")?;
    agrees(&rt, alloc, text.as_str())?;
    let text = format!(in alloc;
        "ifdef::VK_B[]\n{base}endif::[]\n:refpage: VkBase\nifdef::VK_B[<<VUID-{{refpage}}-pNext-VkMore>>]\n[[VkMore]]\n"
    )?;
    agrees(&rt, alloc, text.as_str())?;
    Ok(())
}
