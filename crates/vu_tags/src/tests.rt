ghost use Rattle.std.specs.Prelude.{◌<◌, ◌≤◌, length};

use super::*;
use std::process::Abort;
use std::test::Fail;
use vkb_bytes::decimal_text;

fn put_number(out: &mut Vec<u8>, alloc: Global, number: u32) -> Result<(), AllocError> {
    let text = decimal_text(alloc, u64::from(number))?;
    out.extend_from_slice(text.as_slice())
}

fn put_files(out: &mut Vec<u8>, files: &[Bytes]) -> Result<(), AllocError> {
    for file in files {
        out.push(b'|')?;
        out.extend_from_slice(file.as_slice())?;
    }
    Ok(())
}

/// What is answered for files, in words.
fn told(alloc: Global, answer: Result<Tagged, TagFault>) -> Result<Vec<u8>, AllocError> {
    let mut out = Vec::new(alloc);
    match answer {
        Ok(tagged) => {
            put_number(&mut out, alloc, tagged.count)?;
            put_files(&mut out, tagged.files.as_slice())?;
        }
        Err(TagFault::BadTag { file, line }) => {
            out.extend_from_slice(b"bad ")?;
            put_number(&mut out, alloc, file)?;
            out.push(b':')?;
            put_number(&mut out, alloc, line)?;
        }
        Err(TagFault::NoNumber { needed, left }) => {
            out.extend_from_slice(b"needed ")?;
            put_number(&mut out, alloc, needed)?;
            out.extend_from_slice(b" left ")?;
            put_number(&mut out, alloc, left)?;
        }
        Err(TagFault::Memory) => out.extend_from_slice(b"no memory")?,
    }
    Ok(out)
}

/// Checks what two files become, one behind the other with a `|` before each, and how many tags are new.
fn check_two(
    rt: &impl Abort,
    alloc: Global,
    first: u32,
    files: (&[u8], &[u8]),
    want: &[u8],
) -> Result<(), Fail>
    requires least { 1 ≤ first }
    requires most { first ≤ 99999 }
{
    let (left, right) = files;
    assert!(rt; left.len() < 1000 && right.len() < 1000);
    let files = [
        Bytes::from_slice(alloc, left)?,
        Bytes::from_slice(alloc, right)?,
    ];
    let answer = told(alloc, tag_files(alloc, &files, first))?;
    assert!(rt; answer.as_slice() == want);
    Ok(())
}

#[test]
fn numbers_go_on_behind_those_of_all_files(rt: HostRuntime) -> Result<(), Fail> {
    let alloc = rt.alloc();
    let untagged: &[u8] =
        b"include::{generated}/api/structs/VkA.adoc[]\n.Valid Usage\n****\n  * pname:x must: be 1\n****\n";
    let tagged: &[u8] =
        b"include::{generated}/api/structs/VkA.adoc[]\n.Valid Usage\n****\n  * [[VUID-VkA-x-00008]]\n    pname:x must: be 1\n****\n";
    check_two(
        &rt,
        alloc,
        1,
        (untagged, b"[[VUID-VkB-y-00007]]\n"),
        b"1|include::{generated}/api/structs/VkA.adoc[]\n.Valid Usage\n****\n  * [[VUID-VkA-x-00008]]\n    pname:x must: be 1\n****\n|[[VUID-VkB-y-00007]]\n",
    )?;
    check_two(
        &rt,
        alloc,
        1,
        (tagged, b"[[VUID-VkB-y-00007]]\n"),
        b"0|include::{generated}/api/structs/VkA.adoc[]\n.Valid Usage\n****\n  * [[VUID-VkA-x-00008]]\n    pname:x must: be 1\n****\n|[[VUID-VkB-y-00007]]\n",
    )?;
    check_two(
        &rt,
        alloc,
        1,
        (untagged, b"[[VUID-VkB-y-99999]]\n"),
        b"needed 1 left 0",
    )?;
    check_two(
        &rt,
        alloc,
        1,
        (untagged, b"[[VUID-VkB-y-123]]\n"),
        b"bad 1:1",
    )?;
    check_two(
        &rt,
        alloc,
        99999,
        (b".Valid Usage\n****\n  * a\n", b""),
        b"1|.Valid Usage\n****\n  * [[VUID-{refpage}-None-99999]]\n    a\n|",
    )?;
    check_two(
        &rt,
        alloc,
        99999,
        (b".Valid Usage\n****\n  * a\n", b".Valid Usage\n****\n  * b"),
        b"needed 2 left 1",
    )?;
    check_two(
        &rt,
        alloc,
        70,
        (b".Valid Usage\n****\n  * a\n", b".Valid Usage\n****\n  * b"),
        b"2|.Valid Usage\n****\n  * [[VUID-{refpage}-None-00070]]\n    a\n|.Valid Usage\n****\n  * [[VUID-{refpage}-None-00071]]\n    b",
    )
}

#[test]
fn malformed_tags_are_told(rt: HostRuntime) -> Result<(), Fail> {
    let alloc = rt.alloc();
    check_two(&rt, alloc, 1, (b"// [[VUID-]]\n", b""), b"bad 0:1")?;
    check_two(
        &rt,
        alloc,
        1,
        (b"\n\nx [[VUID-a b]]\n", b"[[VUID-\n"),
        b"bad 0:3",
    )?;
    check_two(
        &rt,
        alloc,
        1,
        (b"[[VUID-a-00001]] [[VUID-a-000001]]", b""),
        b"bad 0:1",
    )?;
    check_two(&rt, alloc, 1, (b"[[VUID-a-00001]", b""), b"bad 0:1")?;
    check_two(&rt, alloc, 1, (b"[[VUID-a\n]]", b""), b"bad 0:1")?;
    check_two(&rt, alloc, 1, (b"[[VUID-[[VUID-a]]", b""), b"bad 0:1")?;
    check_two(
        &rt,
        alloc,
        1,
        (
            b"[[[VUID-a]] [VUID- [[VUI",
            b"[[VUID-a-1-b]][[VUID-{x}:y.z-]]",
        ),
        b"0|[[[VUID-a]] [VUID- [[VUI|[[VUID-a-1-b]][[VUID-{x}:y.z-]]",
    )?;
    check_two(
        &rt,
        alloc,
        1,
        (
            b"[[VUID-12345]] [[VUID-54321]]\n.Valid Usage\n****\n  * \n",
            b"",
        ),
        b"1|[[VUID-12345]] [[VUID-54321]]\n.Valid Usage\n****\n  * [[VUID-{refpage}-None-54322]]\n    \n|",
    )
}

#[test]
fn statements_stand_in_blocks_alone(rt: HostRuntime) -> Result<(), Fail> {
    let alloc = rt.alloc();
    check_two(
        &rt,
        alloc,
        1,
        (
            b"  * a\n****\n  * b\n.Valid Usage\n\n****\n  * c\n",
            b"  * d",
        ),
        b"0|  * a\n****\n  * b\n.Valid Usage\n\n****\n  * c\n|  * d",
    )?;
    check_two(
        &rt,
        alloc,
        7,
        (
            b".Valid Usage \t\r\n****\r\n  * a\r\n  *b\n * c\n****\n  * d\n",
            b".Valid Usage\n****\n.Valid Usage\n****\n  * e\n",
        ),
        b"1|.Valid Usage \t\r\n****\r\n  * [[VUID-{refpage}-None-00007]]\n    a\r\n  *b\n * c\n****\n  * d\n|.Valid Usage\n****\n.Valid Usage\n****\n  * e\n",
    )
}

#[test]
fn pages_and_parameters_are_found(rt: HostRuntime) -> Result<(), Fail> {
    let alloc = rt.alloc();
    check_two(
        &rt,
        alloc,
        1,
        (
            b".Valid Usage\n****\n  * pname: xpname:a_1-b\n  * c\npname:d\n****\ninclude::{generated}/api/structs/VkA.adoc[]\npname:e\n.Valid Usage\n****\n  * f\n",
            b"",
        ),
        b"3|.Valid Usage\n****\n  * [[VUID-{refpage}-a_1-00001]]\n    pname: xpname:a_1-b\n  * [[VUID-{refpage}-d-00002]]\n    c\npname:d\n****\ninclude::{generated}/api/structs/VkA.adoc[]\npname:e\n.Valid Usage\n****\n  * [[VUID-VkA-None-00003]]\n    f\n|",
    )?;
    check_two(
        &rt,
        alloc,
        1,
        (
            b"include::{generated}/api/structs/VkA.adoc[]\ninclude::{generated}/api/protos/vkB.adoc[]\r\ninclude::{generated}/validity/protos/vkC.adoc[]\n.Valid Usage\n****\n  * a",
            b".Valid Usage\n****\n  * b",
        ),
        b"2|include::{generated}/api/structs/VkA.adoc[]\ninclude::{generated}/api/protos/vkB.adoc[]\r\ninclude::{generated}/validity/protos/vkC.adoc[]\n.Valid Usage\n****\n  * [[VUID-vkB-None-00001]]\n    a|.Valid Usage\n****\n  * [[VUID-{refpage}-None-00002]]\n    b",
    )
}

/// Checks the statements of a file, by their first and last lines.
fn check_usages(rt: &impl Abort, alloc: Global, file: &[u8], want: &[Usage]) -> Result<(), Fail> {
    let found = usages(alloc, file)?;
    assert!(rt; found.as_slice() == want);
    Ok(())
}

#[test]
fn usages_are_found(rt: HostRuntime) -> Result<(), Fail> {
    let alloc = rt.alloc();
    check_usages(
        &rt,
        alloc,
        b".Valid Usage\n****\n  * [[VUID-VkA-x-00001]]\n    pname:x must: be 1\n  * no tag\n****\n",
        &[Usage { first: 2, last: 3 }, Usage { first: 4, last: 4 }],
    )?;
    check_usages(&rt, alloc, b"", &[])?;
    check_usages(
        &rt,
        alloc,
        b"  * a\n.Valid Usage\n****\n\n  * b\n\n",
        &[Usage { first: 4, last: 5 }],
    )
}
