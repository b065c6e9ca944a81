use crate::draft::Draft;
use crate::forms::{Fault, MemberForm, Mention, RowCode, Sort};
use crate::parts::read_parts;
use reg_reader::{Element, read_markup};
use reg_registry::Kind;
use std::alloc::{AllocError, Global};
use std::test::Fail;
use vkb_bytes::decimal_text;

/// Puts a place behind a text.
fn show_place(alloc: Global, place: u32, shown: &mut Vec<u8>) -> Result<(), AllocError> {
    let digits = decimal_text(alloc, u64::from(place))?;
    shown.extend_from_slice(b"@")?;
    shown.extend_from_slice(digits.as_slice())
}

/// Puts a member behind a text: its texts, and what it is.
fn show_member(alloc: Global, member: &MemberForm, shown: &mut Vec<u8>) -> Result<(), AllocError> {
    let stars = decimal_text(alloc, member.stars as u64)?;
    let texts: [&[u8]; 6] = [
        member.name.as_slice(),
        member.base.as_slice(),
        member.text.as_slice(),
        stars.as_slice(),
        member.values.as_slice(),
        member.len.as_slice(),
    ];
    for text in texts {
        shown.extend_from_slice(b"/")?;
        shown.extend_from_slice(text)?;
    }
    if member.optional {
        shown.extend_from_slice(b"/optional")?;
    }
    if member.silent {
        shown.extend_from_slice(b"/silent")?;
    }
    show_place(alloc, member.place, shown)
}

/// Puts a mention behind a text.
fn show_mention(alloc: Global, mention: &Mention, shown: &mut Vec<u8>) -> Result<(), AllocError> {
    let sort: &[u8] = match mention.sort {
        Sort::Type => b" type ",
        Sort::Constant => b" constant ",
        _ => b" other ",
    };
    shown.extend_from_slice(sort)?;
    shown.extend_from_slice(mention.name.as_slice())?;
    show_place(alloc, mention.place, shown)
}

/// Puts a fault behind a text.
fn show_fault(alloc: Global, fault: &Fault, shown: &mut Vec<u8>) -> Result<(), AllocError> {
    let code: &[u8] = match fault.code {
        RowCode::BadAttribute => b" bad ",
        RowCode::DuplicateName => b" twice ",
        _ => b" other ",
    };
    shown.extend_from_slice(code)?;
    shown.extend_from_slice(fault.word.as_slice())?;
    show_place(alloc, fault.at, shown)
}

/// The parts of the root as a text: its result, and then each member, each mention and each fault.
fn shown(alloc: Global, bytes: &[u8], kind: Kind) -> Result<Vec<u8>, Fail> {
    if bytes.len() > 1_000_000 {
        return Err(Fail::from("too long"));
    }
    let tree = read_markup(alloc, bytes)?;
    let mut draft = Draft::new(alloc);
    let parts = read_parts(
        alloc,
        &Element::root(bytes, &tree),
        b"vulkan",
        kind,
        &mut draft,
    )?;
    let mut text = parts.result.into_vec();
    for member in parts.members.as_slice() {
        show_member(alloc, member, &mut text)?;
    }
    for mention in parts.mentions.as_slice() {
        show_mention(alloc, mention, &mut text)?;
    }
    for fault in draft.finish().faults.as_slice() {
        show_fault(alloc, fault, &mut text)?;
    }
    Ok(text)
}

#[test]
fn members_have_a_name_and_a_type(rt: HostRuntime) -> Result<(), Fail> {
    let table: [(Kind, &[u8], &[u8]); 8] = [
        (
            Kind::Struct,
            b"<a><member><type>A</type>* <name>b</name></member></a>",
            b"/b/A/A* b/1//@3 type A@11",
        ),
        (
            Kind::Union,
            b"<a><member values='V' len='n,null-terminated' optional='true,false' noautovalidity='true'>const <type>C</type>\n  **<name>d</name></member></a>",
            b"/d/C/const C **d/2/V/n/optional/silent@3 type C@96",
        ),
        (
            Kind::Struct,
            b"<a><member optional='false,true' noautovalidity='false'><type>A</type> <name>b</name></member></a>",
            b"/b/A/A b/0//@3 type A@56",
        ),
        (
            Kind::Struct,
            b"<a><member><type>A</type> <name>b</name>[<enum>N</enum>][<enum>M</enum>]</member></a>",
            b"/b/A/A b[N][M]/0//@3 type A@11 constant N@41 constant M@57",
        ),
        (
            Kind::Struct,
            b"<a><member><comment>*x</comment><name>b</name><name>c</name><type>A</type><type>B</type></member></a>",
            b"/b/A/bcAB/0//@3 type A@60",
        ),
        (Kind::Struct, b"<a><b><member/></b><param/>x</a>", b""),
        (Kind::Handle, b"<a><member/><param/><proto/></a>", b""),
        (
            Kind::Struct,
            b"<a><member api='other'/><member api='other,vulkan'><type>A</type><name>b</name></member></a>",
            b"/b/A/Ab/0//@24 type A@51",
        ),
    ];
    for (kind, bytes, text) in table {
        let found = shown(rt.alloc(), bytes, kind)?;
        assert_eq!(rt; found.as_slice(), text);
    }
    Ok(())
}

#[test]
fn members_without_or_twice_are_faults(rt: HostRuntime) -> Result<(), Fail> {
    let table: [(Kind, &[u8], &[u8]); 8] = [
        (
            Kind::Struct,
            b"<a><member><type>A</type><enum>N</enum></member></a>",
            b" bad name@3",
        ),
        (
            Kind::Struct,
            b"<a><member><name>b</name><enum>N</enum></member></a>",
            b" bad type@3",
        ),
        (Kind::Command, b"<a><param/></a>", b" bad name@3 bad type@3"),
        (
            Kind::Struct,
            b"<a><member><type>A</type><name>b c</name></member></a>",
            b" bad name@3",
        ),
        (
            Kind::Struct,
            b"<a><member><type>A</type><name/><name>b</name></member></a>",
            b" bad name@3",
        ),
        (
            Kind::Struct,
            b"<a><member><type/><name>b</name></member></a>",
            b"/b//b/0//@3 type @11",
        ),
        (
            Kind::Struct,
            b"<a><member><type>A</type><name>b</name></member><member><type>A</type><name>c</name></member><member><type>A</type><name>b</name></member></a>",
            b"/b/A/Ab/0//@3/c/A/Ac/0//@48/b/A/Ab/0//@93 type A@11 type A@56 type A@101 twice b@93",
        ),
        (
            Kind::Union,
            b"<a><member><type>A</type><name>b</name></member><member><name>b</name></member><member><type>A</type><name>b</name></member><member><type>A</type><name>b</name></member></a>",
            b"/b/A/Ab/0//@3/b/A/Ab/0//@79/b/A/Ab/0//@124 type A@11 type A@87 type A@132 bad type@48 twice b@79 twice b@124",
        ),
    ];
    for (kind, bytes, text) in table {
        let found = shown(rt.alloc(), bytes, kind)?;
        assert_eq!(rt; found.as_slice(), text);
    }
    Ok(())
}

#[test]
fn prototypes_stand_before_parameters(rt: HostRuntime) -> Result<(), Fail> {
    let table: [(Kind, &[u8], &[u8]); 8] = [
        (
            Kind::Command,
            b"<a><proto>const <type>R</type>\n* <name>f</name> x</proto><param><type>A</type> <name>b</name></param></a>",
            b"const R */b/A/A b/0//@57 type R@16 type A@64",
        ),
        (
            Kind::FuncPointer,
            b"<a><param><type>A</type> <name>b</name></param><proto><type>R</type> <name>f</name></proto></a>",
            b"R/b/A/A b/0//@3 type R@54 type A@10",
        ),
        (
            Kind::FuncPointer,
            b"<a>typedef <type>R</type> (*<name>f</name>)(<type>A</type> b);<param/></a>",
            b"",
        ),
        (
            Kind::Command,
            b"<a><param><type>A</type> <name>b</name></param></a>",
            b"/b/A/A b/0//@3 type A@10",
        ),
        (
            Kind::Command,
            b"<a><proto>void <name>f</name></proto></a>",
            b"void bad type@3",
        ),
        (
            Kind::Command,
            b"<a><proto><type>void</type></proto></a>",
            b"void bad name@3",
        ),
        (
            Kind::Command,
            b"<a><proto/><proto><type>R</type><name>f</name></proto></a>",
            b" bad name@3 bad type@3",
        ),
        (Kind::Struct, b"<a><proto/></a>", b""),
    ];
    for (kind, bytes, text) in table {
        let found = shown(rt.alloc(), bytes, kind)?;
        assert_eq!(rt; found.as_slice(), text);
    }
    Ok(())
}
