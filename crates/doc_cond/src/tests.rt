ghost use Rattle.std.specs.Prelude.{◌^◌, ◌<◌, length};

use super::*;
use std::process::Abort;
use std::test::Fail;

fn add_names(out: &mut Vec<u8>, names: &Listed<Bytes>) -> Result<(), AllocError> {
    for name in names.as_slice() {
        out.push(b' ')?;
        out.extend_from_slice(name.as_slice())?;
    }
    Ok(())
}

fn add_condition(
    out: &mut Vec<u8>,
    negated: bool,
    any: bool,
    names: &Listed<Bytes>,
) -> Result<(), AllocError> {
    out.extend_from_slice(if negated { b" not" } else { b"" })?;
    out.extend_from_slice(if any { b" any" } else { b" all" })?;
    add_names(out, names)
}

/// What a line is read as, in words.
fn shown(alloc: Global, line: &[u8]) -> Result<Vec<u8>, AllocError>
    requires { length line.now < 2 ^ 32 }
{
    let mut out = Vec::new(alloc);
    match kind_of(alloc, line) {
        Ok(LineKind::Plain) => out.extend_from_slice(b"plain")?,
        Ok(LineKind::Comment) => out.extend_from_slice(b"comment")?,
        Ok(LineKind::Other) => out.extend_from_slice(b"other")?,
        Ok(
            LineKind::Begin {
                negated,
                any,
                names,
            },
        ) => {
            out.extend_from_slice(b"begin")?;
            add_condition(&mut out, negated, any, &names)?;
        }
        Ok(
            LineKind::OneLine {
                negated,
                any,
                names,
                from,
                to,
            },
        ) => {
            out.extend_from_slice(b"one line")?;
            add_condition(&mut out, negated, any, &names)?;
            out.extend_from_slice(b" | ")?;
            out.extend_from_slice(line.get(from as usize..to as usize).unwrap_or(b"?"))?;
        }
        Ok(LineKind::Close { any, names }) => {
            out.extend_from_slice(b"close")?;
            add_condition(&mut out, false, any, &names)?;
        }
        Ok(LineKind::Chapter { file }) => {
            out.extend_from_slice(b"chapter ")?;
            out.extend_from_slice(file.as_slice())?;
        }
        Ok(LineKind::Api { name }) => {
            out.extend_from_slice(b"api ")?;
            out.extend_from_slice(name.as_slice())?;
        }
        Ok(LineKind::Validity { name }) => {
            out.extend_from_slice(b"validity ")?;
            out.extend_from_slice(name.as_slice())?;
        }
        Ok(LineKind::Refpage { name }) => {
            out.extend_from_slice(b"refpage ")?;
            out.extend_from_slice(name.as_slice())?;
        }
        Err(CondFault::BadCondition) => out.extend_from_slice(b"bad")?,
        Err(_) => out.extend_from_slice(b"another fault")?,
    }
    Ok(out)
}

/// Checks what a line is read as, with and without blanks at its end.
fn check_line(rt: &impl Abort, alloc: Global, line: &[u8], want: &[u8]) -> Result<(), Fail> {
    for end in [b"".as_slice(), b" ", b"\t \r", b"\r\r"] {
        let mut text = Vec::from_slice(alloc, line)?;
        text.extend_from_slice(end)?;
        assert!(rt; text.len() < 1000);
        let found = shown(alloc, text.as_slice())?;
        assert_eq!(rt; found.as_slice(), want, "at {text:?}");
    }
    Ok(())
}

/// Checks a table of lines and what they are read as.
fn check_all(rt: &impl Abort, alloc: Global, table: &[(&str, &str)]) -> Result<(), Fail> {
    for (line, want) in table {
        check_line(rt, alloc, line.as_bytes(), want.as_bytes())?;
    }
    Ok(())
}

#[test]
fn conditions_are_read(rt: HostRuntime) -> Result<(), Fail> {
    check_all(
        &rt,
        rt.alloc(),
        &[
            ("ifdef::A[]", "begin any A"),
            ("ifndef::A,b_1,c-d[]", "begin not any A b_1 c-d"),
            ("ifdef::A+B[]", "begin all A B"),
            ("ifdef::[]", "bad"),
            ("ifdef::A[", "bad"),
            ("ifdef::A", "bad"),
            ("ifdef::A+B,C[]", "bad"),
            ("ifdef::A,B+C[]", "bad"),
            ("ifdef::A,,B[]", "bad"),
            ("ifdef::A,[]", "bad"),
            ("ifdef::+A[]", "bad"),
            ("ifdef::A.b[]", "bad"),
            ("ifdef:: A[]", "bad"),
            ("ifdef::A[] x", "bad"),
            ("ifdef::X[see <<a>>]", "one line any X | see <<a>>"),
            ("ifndef::X+Y[ z ]", "one line not all X Y |  z "),
            ("ifdef::A[]x]", "one line any A | ]x"),
            ("ifdef::A[[]]", "one line any A | []"),
            ("endif::[]", "close any"),
            ("endif::A[]", "close any A"),
            ("endif::A+B[]", "close all A B"),
            ("endif::A[x]", "bad"),
            ("endif::", "bad"),
            ("endif::,[]", "bad"),
            ("ifeval::[1]", "bad"),
            ("ifeval::", "bad"),
            (" ifdef::A[]", "plain"),
            ("ifdef:A[]", "plain"),
            ("Ifdef::A[]", "plain"),
        ],
    )
}

#[test]
fn other_lines_are_read(rt: HostRuntime) -> Result<(), Fail> {
    check_all(
        &rt,
        rt.alloc(),
        &[
            ("include::{chapters}/a.adoc[]", "chapter chapters/a.adoc"),
            (
                "include::{chapters}/a..b.adoc[]",
                "chapter chapters/a..b.adoc",
            ),
            (
                "include::{appendices}/VK_A/b-c.adoc[leveloffset=1]",
                "chapter appendices/VK_A/b-c.adoc",
            ),
            ("include::{chapters}/.../...[[]", "chapter chapters/.../..."),
            ("include::{chapters}/../a.adoc[]", "other"),
            ("include::{chapters}/a/./b.adoc[]", "other"),
            ("include::{chapters}/a//b.adoc[]", "other"),
            ("include::{chapters}/[]", "other"),
            ("include::{chapters}/a b[]", "other"),
            ("include::{chapters}/a[]]", "other"),
            ("include::{chapters}/a[] x", "other"),
            ("include::{config}/a.adoc[]", "other"),
            ("include::", "other"),
            ("include::{generated}/api/structs/VkA.adoc[tag]", "api VkA"),
            (
                "include::{generated}/validity/protos/vkA_1.adoc[]",
                "validity vkA_1",
            ),
            ("include::{generated}/api/structs/VkA.txt[]", "other"),
            ("include::{generated}/api/structs/Vk-A.adoc[]", "other"),
            ("include::{generated}/api/structs/a/VkA.adoc[]", "other"),
            ("include::{generated}/api/s1/VkA.adoc[]", "other"),
            ("include::{generated}/api//VkA.adoc[]", "other"),
            ("include:{chapters}/a.adoc[]", "plain"),
            ("//", "comment"),
            ("///", "plain"),
            ("////", "comment"),
            ("/////", "comment"),
            ("// x", "comment"),
            ("///x", "plain"),
            ("/", "plain"),
            (":refpage: VkA", "refpage VkA"),
            (":refpage: \t VkA_2", "refpage VkA_2"),
            (":refpage:VkA", "plain"),
            (":refpage:", "plain"),
            (":refpage: Vk A", "plain"),
            (":!refpage:", "plain"),
            ("", "plain"),
            ("[[a]] <<b>>", "plain"),
        ],
    )
}

#[test]
fn odd_bytes_are_read(rt: HostRuntime) -> Result<(), Fail> {
    let alloc = rt.alloc();
    check_line(&rt, alloc, b"ifdef::\xC3\xA9[]", b"bad")?;
    check_line(&rt, alloc, b"ifdef::A\0[]", b"bad")?;
    check_line(&rt, alloc, b"A\0b", b"plain")?;
    check_line(&rt, alloc, b"ifdef::A[\xFF]", b"one line any A | \xFF")?;
    Ok(())
}

#[test]
fn names_of_conditions_are_told(rt: HostRuntime) {
    for (bytes, is) in [("", false), ("A-1_b", true), ("a.b", false), ("+X", false)] {
        assert_eq!(rt; is_name(bytes.as_bytes()), is, "at {bytes:?}");
    }
}

/// The pairs of lines, by what they are read as.
fn pairs_of(rt: &impl Abort, alloc: Global, lines: &[&str]) -> Result<Vec<(u32, u32)>, CondFault> {
    let mut kinds = Vec::new(alloc);
    for line in lines {
        assert!(rt; line.len() < 1000);
        kinds.push(kind_of(alloc, line.as_bytes())?)?;
    }
    assert!(rt; kinds.len() < 1000);
    pairs(alloc, kinds.as_slice())
}

#[test]
fn openers_have_their_closers(rt: HostRuntime) -> Result<(), Fail> {
    let alloc = rt.alloc();
    let apart = [
        "ifdef::X[]",
        "[[a]]",
        "endif::X[]",
        "ifndef::X[]",
        "[[a]]",
        "endif::[]",
        "<<a>>",
    ];
    let found = pairs_of(&rt, alloc, &apart)?;
    assert_eq!(rt; found.as_slice(), [(0, 2), (3, 5)].as_slice());

    let nested = [
        "ifdef::X+Y[]",
        "ifdef::Z[text]",
        "ifdef::X,Y[]",
        "endif::X,Y[]",
        "ifdef::Y[]",
        "endif::[]",
        "endif::X+Y[]",
    ];
    let found = pairs_of(&rt, alloc, &nested)?;
    assert_eq!(rt; found.as_slice(), [(0, 6), (2, 3), (4, 5)].as_slice());
    assert_eq!(rt; pairs_of(&rt, alloc, &[])?.len(), 0);
    Ok(())
}

#[test]
fn the_first_fault_is_told(rt: HostRuntime) -> Result<(), Fail> {
    let alloc = rt.alloc();
    let table: [(&[&str], u32); 7] = [
        (&["endif::X[]"], 0),
        (&["", "ifdef::X[]"], 1),
        (&["ifdef::X[]", "endif::Y[]", "endif::[]"], 1),
        (&["ifdef::X,Y[]", "endif::X+Y[]"], 1),
        (&["ifdef::X,Y[]", "endif::Y,X[]"], 1),
        (
            &[
                "ifdef::A[]",
                "endif::[]",
                "ifdef::B[]",
                "ifdef::C[]",
                "endif::C[]",
            ],
            2,
        ),
        (&["ifdef::A[]", "ifdef::B[]", "ifdef::C[]", "endif::[]"], 0),
    ];
    for (lines, want) in table {
        match pairs_of(&rt, alloc, lines) {
            Err(CondFault::Unbalanced { line }) => assert_eq!(rt; line, want),
            _ => assert!(rt; false, "no such fault"),
        }
    }

    let mut kinds = Vec::new(alloc);
    for _ in 0..64 {
        kinds.push(kind_of(alloc, b"ifdef::X[]")?)?;
    }
    assert!(rt; kinds.len() == 64);
    let found = pairs(alloc, kinds.as_slice());
    assert!(rt; matches!(found, Err(CondFault::Unbalanced { line: 0 })));
    kinds.push(kind_of(alloc, b"ifdef::X[]")?)?;
    assert!(rt; kinds.len() == 65);
    let found = pairs(alloc, kinds.as_slice());
    assert!(rt; matches!(found, Err(CondFault::CondDepth { line: 64 })));
    Ok(())
}
