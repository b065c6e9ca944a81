use super::*;
use std::alloc::{AllocError, Global};
use std::process::Abort;
use std::test::Fail;
use vkb_outside::{MemoryShelf, Shelf, SureShelf, names_differ};

/// A statement without a tag, below the page of `VkA`.
const UNTAGGED: &str =
    "include::{generated}/api/structs/VkA.adoc[]\n.Valid Usage\n****\n  * pname:x must: be 1\n****\n";

/// The same with the tag of number 8, and with those of 1 and 2.
const TAGGED_8: &str =
    "include::{generated}/api/structs/VkA.adoc[]\n.Valid Usage\n****\n  * [[VUID-VkA-x-00008]]\n    pname:x must: be 1\n****\n";

const TAGGED_1: &str =
    "include::{generated}/api/structs/VkA.adoc[]\n.Valid Usage\n****\n  * [[VUID-VkA-x-00001]]\n    pname:x must: be 1\n****\n";

const TAGGED_2: &str =
    "include::{generated}/api/structs/VkA.adoc[]\n.Valid Usage\n****\n  * [[VUID-VkA-x-00002]]\n    pname:x must: be 1\n****\n";

/// A tag of number 7.
const NUMBER_7: &str = "[[VUID-VkB-y-00007]]\n";

/// The files `a` and `b` of these texts.
fn two_files(alloc: Global, a: &str, b: &str) -> Result<Files, AllocError> {
    let a = file(alloc, "a", a)?;
    let b = file(alloc, "b", b)?;
    Ok(vec![in alloc; a, b]?)
}

/// Whether a shelf holds a text under a name. A read that fails is tried again.
fn holds_text(alloc: Global, shelf: &mut MemoryShelf, name: &str, text: &str) -> bool {
    for _ in 0..2 {
        if let Ok(found) = shelf.read(alloc, name, 1000) {
            return match found {
                Some(bytes) => bytes.as_slice() == text.as_bytes(),
                None => false,
            };
        }
    }
    false
}

/// Runs the words over `a` and `b` where some calls of the shelf fail. Asserts the status and what is written, and what `a` and
/// `b` hold then.
fn leaves(
    rt: &impl Abort,
    alloc: Global,
    words: &str,
    (a, b): (&str, &str),
    failing: u32,
    (status, written): (Status, &str),
    (a_then, b_then): (&str, &str),
) -> Result<(), AllocError> {
    let files = two_files(alloc, a, b)?;
    assert!(rt; names_differ(&files));
    let mut shelf = MemoryShelf::new(files, vec![in alloc; failing]?);
    let (ended, output) = answer_on(rt, alloc, &mut shelf, words)?;
    assert_eq!(rt; ended, status, "{words} where call {failing} fails");
    assert_eq!(rt; output.as_slice(), written.as_bytes());
    for (name, text) in [("a", a_then), ("b", b_then)] {
        assert!(rt;
            holds_text(alloc, &mut shelf, name, text),
            "{name} after {words} where call {failing} fails"
        );
    }
    Ok(())
}

#[test]
fn new_tags_are_put_and_counted(rt: HostRuntime) -> Result<(), Fail> {
    let alloc = rt.alloc();
    let done = (Status::Done, "tagged 1\n");
    leaves(
        &rt,
        alloc,
        "tag 1 a b",
        (UNTAGGED, NUMBER_7),
        9,
        done,
        (TAGGED_8, NUMBER_7),
    )?;
    leaves(
        &rt,
        alloc,
        "tag 00002 a",
        (UNTAGGED, NUMBER_7),
        9,
        done,
        (TAGGED_2, NUMBER_7),
    )?;
    let done = (Status::Done, "tagged 2\n");
    leaves(
        &rt,
        alloc,
        "tag 1 b a",
        (UNTAGGED, UNTAGGED),
        9,
        done,
        (TAGGED_2, TAGGED_1),
    )?;
    Ok(())
}

#[test]
fn files_with_tags_are_not_put(rt: HostRuntime) -> Result<(), Fail> {
    let alloc = rt.alloc();
    // The third call would be the first put.
    let none = (Status::Done, "tagged 0\n");
    leaves(
        &rt,
        alloc,
        "tag 1 a b",
        (TAGGED_8, NUMBER_7),
        3,
        none,
        (TAGGED_8, NUMBER_7),
    )?;
    // And the fourth one that of `b`.
    let one = (Status::Done, "tagged 1\n");
    leaves(
        &rt,
        alloc,
        "tag 1 a b",
        (UNTAGGED, NUMBER_7),
        4,
        one,
        (TAGGED_8, NUMBER_7),
    )?;
    Ok(())
}

#[test]
fn a_call_that_fails_leaves_what_was_done(rt: HostRuntime) -> Result<(), Fail> {
    let alloc = rt.alloc();
    let words = "tag 1 a b";
    let same = (UNTAGGED, UNTAGGED);
    let unread = (Status::ReadFault, "");
    let unput = (Status::WriteFault, "");
    leaves(&rt, alloc, words, same, 1, unread, same)?;
    leaves(&rt, alloc, words, same, 2, unread, same)?;
    leaves(&rt, alloc, words, same, 3, unput, same)?;
    leaves(&rt, alloc, words, same, 4, unput, (TAGGED_1, UNTAGGED))?;
    let then = (UNTAGGED, NUMBER_7);
    leaves(&rt, alloc, words, then, 3, unput, then)?;
    Ok(())
}

#[test]
fn faults_are_told_and_nothing_is_put(rt: HostRuntime) -> Result<(), Fail> {
    let alloc = rt.alloc();
    for (words, b, written) in [
        (
            "tag 1 a b",
            "[[VUID-VkB-y-99999]]\n",
            "refused NoNumber 1 0\n",
        ),
        ("tag 1 a b", "[[VUID-VkB-y-123]]\n", "refused BadTag b:1\n"),
        (
            "tag 1 a b",
            "\n[[VUID-\n[[VUID-VkB-y-99999]]",
            "refused BadTag b:2\n",
        ),
        ("tag 99999 b a", UNTAGGED, "refused NoNumber 2 1\n"),
        ("tag 1 a c b", "[[VUID-", "refused Missing c\n"),
    ] {
        let then = (UNTAGGED, b);
        leaves(&rt, alloc, words, then, 9, (Status::Refused, written), then)?;
    }
    Ok(())
}

#[test]
fn words_to_tag_that_are_misplaced_are_told(rt: HostRuntime) -> Result<(), Fail> {
    let alloc = rt.alloc();
    for (words, written) in [
        ("tag", "usage 2\n"),
        ("tag 1", "usage 3\n"),
        ("tag 0 a", "usage 2\n"),
        ("tag 00000", "usage 2\n"),
        ("tag 100000 a", "usage 2\n"),
        ("tag 000001 a", "usage 2\n"),
        ("tag x a", "usage 2\n"),
        ("tag -1 a", "usage 2\n"),
        ("tag 1 a a", "usage 4\n"),
        ("tag 1 b a c b a", "usage 6\n"),
        ("tags 1 a", "usage 1\n"),
    ] {
        says(&rt, alloc, "", words, written, Status::Usage)?;
    }
    Ok(())
}

#[test]
fn a_long_file_is_not_tagged(rt: HostRuntime) -> Result<(), Fail> {
    let alloc = rt.alloc();
    for (len, written) in [
        (16_777_216, "tagged 0\n"),
        (16_777_217, "refused TooLarge a.adoc\n"),
    ] {
        let files = one_file(alloc, vec![in alloc; b'x'; len]?.as_slice())?;
        assert!(rt; names_differ(&files));
        let mut shelf = SureShelf::new(files);
        let (_, output) = answer_on(&rt, alloc, &mut shelf, "tag 1 a.adoc")?;
        assert_eq!(rt; output.as_slice(), written.as_bytes());
    }
    Ok(())
}
