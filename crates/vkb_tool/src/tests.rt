mod builds;
mod chapters;
mod headers;
mod marks;
mod pages;
mod registries;
mod tags;
mod words;
mod yardstick;

use super::*;
use std::alloc::{AllocError, Global};
use std::process::Abort;
use std::test::Fail;
use vkb_outside::{MemoryShelf, MemorySink, Shelf, SureShelf, SureSink, names_differ};

type Files = Vec<(String, Vec<u8>)>;

/// The words of a text, at spaces.
fn words_of(alloc: Global, text: &str) -> Result<Vec<Vec<u8>>, AllocError> {
    let mut words = Vec::new(alloc);
    for word in text.split(' ') {
        if !word.is_empty() {
            words.push(word.as_bytes().to_vec(alloc)?)?;
        }
    }
    Ok(words)
}

/// A file of this name and text.
fn file(alloc: Global, name: &str, text: &str) -> Result<(String, Vec<u8>), AllocError> {
    Ok((
        String::from_str(alloc, name)?,
        text.as_bytes().to_vec(alloc)?,
    ))
}

/// One file of this text, `a.adoc`.
fn one_file(alloc: Global, text: &[u8]) -> Result<Files, AllocError> {
    let file = (String::from_str(alloc, "a.adoc")?, text.to_vec(alloc)?);
    Ok(vec![in alloc; file]?)
}

/// Runs the words over a shelf, and gives the status and what was written.
fn answer_on<S: Shelf>(
    rt: &impl Abort,
    alloc: Global,
    shelf: &mut S,
    words: &str,
) -> Result<(Status, Vec<u8>), AllocError> {
    let words = words_of(alloc, words)?;
    assert!(rt; words.len() < 100);
    let mut sink = SureSink::new(alloc);
    let status = run(alloc, &words, shelf, &mut sink);
    Ok((status, sink.written().to_vec(alloc)?))
}

/// Asserts what the words come to over one file of this text.
fn says(
    rt: &impl Abort,
    alloc: Global,
    text: &str,
    words: &str,
    written: &str,
    wanted: Status,
) -> Result<(), AllocError> {
    let files = one_file(alloc, text.as_bytes())?;
    assert!(rt; names_differ(&files));
    let mut shelf = SureShelf::new(files);
    let (status, output) = answer_on(rt, alloc, &mut shelf, words)?;
    assert_eq!(rt; status, wanted, "{words} on {text:?}");
    assert_eq!(rt;
        output.as_slice(),
        written.as_bytes(),
        "{words} on {text:?}"
    );
    Ok(())
}

/// Asserts that a check of a text says yes, to so many links.
fn holds(rt: &impl Abort, alloc: Global, text: &str, written: &str) -> Result<(), AllocError> {
    says(rt, alloc, text, "check - a.adoc -", written, Status::Done)
}

/// Asserts that a check of a text names this link.
fn breaks(rt: &impl Abort, alloc: Global, text: &str, written: &str) -> Result<(), AllocError> {
    says(rt, alloc, text, "check - a.adoc -", written, Status::Broken)
}

/// Asserts that a check of a text is refused.
fn refuses(rt: &impl Abort, alloc: Global, text: &str, written: &str) -> Result<(), AllocError> {
    says(
        rt,
        alloc,
        text,
        "check - a.adoc -",
        written,
        Status::Refused,
    )
}

#[test]
fn plain_lines_are_always_kept(rt: HostRuntime) -> Result<(), Fail> {
    let alloc = rt.alloc();
    holds(&rt, alloc, "", "yes 0\n")?;
    holds(&rt, alloc, "[[a]]\n<<a>>\n", "yes 1\n")?;
    holds(&rt, alloc, "[[VkA]] slink:VkA\r\n", "yes 1\n")?;
    let text = "[[a]] [[a]]\n  <<a,the\nwords>>\n";
    breaks(&rt, alloc, text, "no a.adoc:2:3\na 2\n")?;
    let text = "[[a]]\n<<a>> <<b>>\n<<c>>";
    breaks(&rt, alloc, text, "no a.adoc:2:7\nb 0\n")?;
    let text = "// <<a>>\n//// <<a>>\n/// <<b>>\n// [[b]]\n";
    breaks(&rt, alloc, text, "no a.adoc:3:5\nb 0\n")?;
    breaks(&rt, alloc, ":!refpage:\n <<a>>", "no a.adoc:2:2\na 0\n")?;
    Ok(())
}

#[test]
fn each_choice_is_looked_at(rt: HostRuntime) -> Result<(), Fail> {
    let alloc = rt.alloc();
    let text = "ifdef::X[]\n[[a]]\nendif::X[]\n<<a>>\n";
    breaks(&rt, alloc, text, "no a.adoc:4:1\na 0\n")?;
    let text = "ifdef::X[]\n[[a]]\nendif::X[]\nifndef::X[]\n[[a]]\nendif::[]\n<<a>>\n";
    holds(&rt, alloc, text, "yes 1\n")?;
    let text = "ifdef::X[see <<a>>]\n";
    breaks(&rt, alloc, text, "no a.adoc:1:14\na 0\nwith X\n")?;
    let text = "[[a]]\nifdef::Y+X[]\n[[a]]\nendif::[]\nifndef::Z[<<a>>]";
    breaks(&rt, alloc, text, "no a.adoc:5:11\na 2\nwith Y\nwith X\n")?;
    let text = "[[a]] <<a>> <<b>>\nifdef::X+Y[]\n[[a]]\nendif::X+Y[]\nifndef::X,Y[ [[b]] ]";
    let written = "no a.adoc:1:7\na 2\nwith X\nwith Y\n";
    breaks(&rt, alloc, text, written)?;
    let text = "[[a]] ifdef::X[] is text, <<a>>\n ifdef::X[]\n<<a>>";
    holds(&rt, alloc, text, "yes 2\n")?;
    Ok(())
}

#[test]
fn names_may_be_set_always(rt: HostRuntime) -> Result<(), Fail> {
    let alloc = rt.alloc();
    let text = "ifdef::X[see <<a>>]\n";
    let written = "no a.adoc:1:14\na 0\n";
    let words = "check - a.adoc - +X";
    says(&rt, alloc, text, words, written, Status::Broken)?;
    let text = "ifndef::X,Y[<<a>>]\nifdef::X,Y[[[b]]]\n<<b>>";
    let words = "check - a.adoc - +X +Z-1_ +X";
    says(&rt, alloc, text, words, "yes 2\n", Status::Done)?;
    let words = "check - a.adoc - +x";
    let written = "no a.adoc:1:13\na 0\n";
    says(&rt, alloc, text, words, written, Status::Broken)?;
    Ok(())
}

#[test]
fn faults_are_told_in_their_order(rt: HostRuntime) -> Result<(), Fail> {
    let alloc = rt.alloc();
    let missing = "refused Missing b.adoc\n";
    let words = "check - b.adoc -";
    says(&rt, alloc, "", words, missing, Status::Refused)?;
    refuses(&rt, alloc, "endif::X[]\n", "refused Unbalanced a.adoc:1\n")?;
    refuses(
        &rt,
        alloc,
        "\nifdef::X[]\n",
        "refused Unbalanced a.adoc:2\n",
    )?;
    let text = "ifdef::A[]\nendif::B[]\n";
    refuses(&rt, alloc, text, "refused Unbalanced a.adoc:2\n")?;
    let text = "ifdef::A,B+C[]\nendif::[]\n";
    refuses(&rt, alloc, text, "refused BadCondition a.adoc:1\n")?;
    let text = "endif::[]\ninclude::a[]\n\nifeval::[]\n";
    refuses(&rt, alloc, text, "refused BadCondition a.adoc:4\n")?;
    let text = "include::a[]\nendif::[]\n";
    refuses(&rt, alloc, text, "refused Unbalanced a.adoc:2\n")?;
    let text = "slink:A\nifdef::X[]\n";
    refuses(&rt, alloc, text, "refused Unbalanced a.adoc:2\n")?;
    let text = "endif::[]\nifeval::[1]\n";
    refuses(&rt, alloc, text, "refused BadCondition a.adoc:2\n")?;
    let text = "ifdef::A,B[]\nendif::A+B[]\n";
    refuses(&rt, alloc, text, "refused Unbalanced a.adoc:2\n")?;
    let text = "ifdef::A,B[]\nendif::B,A[]\n";
    refuses(&rt, alloc, text, "refused Unbalanced a.adoc:2\n")?;
    Ok(())
}

#[test]
fn includes_of_other_forms_stay_as_they_are(rt: HostRuntime) -> Result<(), Fail> {
    let alloc = rt.alloc();
    let text = "[[a]]\n\nifdef::A[]\ninclude::b[<<c>>]\n<<b>>\nendif::[]";
    breaks(&rt, alloc, text, "no a.adoc:5:1\nb 0\nwith A\n")?;
    let text = "include::{generated}/api/structs/VkA.adoc[]\nslink:VkA\n";
    breaks(&rt, alloc, text, "no a.adoc:2:1\nVkA 0\n")?;
    let text = "include::{generated}/validity/structs/VkA.adoc[]\n";
    holds(&rt, alloc, text, "yes 0\n")?;
    Ok(())
}

#[test]
fn conditionals_nest_64_deep(rt: HostRuntime) -> Result<(), Fail> {
    let alloc = rt.alloc();
    for (depth, written, wanted) in [
        (64, "yes 0\n", Status::Done),
        (65, "refused CondDepth a.adoc:65\n", Status::Refused),
    ] {
        let mut text = String::new(alloc);
        for _ in 0..depth {
            text.push_str("ifdef::X[]\n")?;
        }
        for _ in 0..depth {
            text.push_str("endif::[]\n")?;
        }
        says(
            &rt,
            alloc,
            text.as_str(),
            "check - a.adoc -",
            written,
            wanted,
        )?;
    }
    Ok(())
}

#[test]
fn there_may_be_many_options(rt: HostRuntime) -> Result<(), Fail> {
    let alloc = rt.alloc();
    let text = "ifdef::A+L+K[]\nifndef::B,C,D,E,F,G,H,I,J,M,N,O,P[<<a>>]\nendif::[]";
    let written = "no a.adoc:2:35\na 0\nwith A\nwith L\nwith K\n";
    breaks(&rt, alloc, text, written)?;
    let text = "ifdef::A,B,C,D,E,F,G,H,I,J,K,L,M[]\nendif::[]\n";
    holds(&rt, alloc, text, "yes 0\n")?;
    let words = "check - a.adoc - +F";
    says(&rt, alloc, text, words, "yes 0\n", Status::Done)?;
    Ok(())
}

/// A text of so many options, each of which adds an anchor `a`, and a link to it where all are chosen but the last.
fn anchors_of_options(alloc: Global, count: u32) -> Result<String, AllocError> {
    let mut text = String::new(alloc);
    let mut all = String::new(alloc);
    for number in 0..count {
        text.push_str(format!(in alloc; "ifdef::X{number}[[[a]]]\n")?.as_str())?;
        all.push_str(format!(in alloc; "ifdef::X{number}[]\n")?.as_str())?;
    }
    text.push_str(all.as_str())?;
    text.push_str("ifndef::Y[<<a>>]\n")?;
    for _ in 0..count {
        text.push_str("endif::[]\n")?;
    }
    Ok(text)
}

#[test]
fn all_options_may_have_to_be_chosen(rt: HostRuntime) -> Result<(), Fail> {
    let alloc = rt.alloc();
    let text = anchors_of_options(alloc, 40)?;
    let mut written = String::from_str(alloc, "no a.adoc:81:11\na 40\n")?;
    for number in 0..40 {
        written.push_str(format!(in alloc; "with X{number}\n")?.as_str())?;
    }
    breaks(&rt, alloc, text.as_str(), written.as_str())?;
    Ok(())
}

#[test]
fn a_file_past_the_limit_is_refused(rt: HostRuntime) -> Result<(), Fail> {
    let alloc = rt.alloc();
    for (len, written) in [
        (16_777_216, "yes 0\n"),
        (16_777_217, "refused TooLarge a.adoc\n"),
    ] {
        let files = one_file(alloc, vec![in alloc; b'x'; len]?.as_slice())?;
        assert!(rt; names_differ(&files));
        let mut shelf = SureShelf::new(files);
        let (_, output) = answer_on(&rt, alloc, &mut shelf, "check - a.adoc -")?;
        assert_eq!(rt; output.as_slice(), written.as_bytes());
    }
    Ok(())
}

#[test]
fn a_failed_read_leaves_nothing_written(rt: HostRuntime) -> Result<(), Fail> {
    let alloc = rt.alloc();
    let files = one_file(alloc, b"<<a>>")?;
    assert!(rt; names_differ(&files));
    let mut shelf = MemoryShelf::new(files, vec![in alloc; 1]?);
    let (status, output) = answer_on(&rt, alloc, &mut shelf, "check - a.adoc -")?;
    assert_eq!(rt; status, Status::ReadFault);
    assert!(rt; output.is_empty());
    let (status, _) = answer_on(&rt, alloc, &mut shelf, "check - a.adoc -")?;
    assert_eq!(rt; status, Status::Broken);
    Ok(())
}

#[test]
fn a_check_reads_once_and_writes_once(rt: HostRuntime) -> Result<(), Fail> {
    let alloc = rt.alloc();
    let files = one_file(alloc, b"[[a]]\n<<a>>\n")?;
    assert!(rt; names_differ(&files));
    let mut shelf = MemoryShelf::new(files, vec![in alloc; 2]?);
    let words = words_of(alloc, "check - a.adoc -")?;
    assert!(rt; words.len() < 100);
    let mut sink = MemorySink::new(alloc, vec![in alloc; (2, 0)]?);
    assert_eq!(rt; run(alloc, &words, &mut shelf, &mut sink), Status::Done);
    assert_eq!(rt; sink.written(), b"yes 1\n".as_slice());
    Ok(())
}

#[test]
fn a_failed_write_leaves_a_prefix(rt: HostRuntime) -> Result<(), Fail> {
    let alloc = rt.alloc();
    for (count, written) in [(0, ""), (3, "yes"), (5, "yes 1"), (9, "yes 1\n")] {
        let files = one_file(alloc, b"[[a]]\n<<a>>\n")?;
        assert!(rt; names_differ(&files));
        let mut shelf = SureShelf::new(files);
        let words = words_of(alloc, "check - a.adoc -")?;
        assert!(rt; words.len() < 100);
        let mut sink = MemorySink::new(alloc, vec![in alloc; (1, count)]?);
        assert_eq!(rt;
            run(alloc, &words, &mut shelf, &mut sink),
            Status::WriteFault
        );
        assert_eq!(rt; sink.written(), written.as_bytes());
    }
    Ok(())
}

#[test]
fn statuses_have_their_numbers(rt: HostRuntime) {
    one_reading();
    one_fault();
    one_outcome();
    each_has_an_outcome();
    assert_eq!(rt; Status::Done.number(), 0);
    assert_eq!(rt; Status::Broken.number(), 1);
    assert_eq!(rt; Status::Usage.number(), 2);
    assert_eq!(rt; Status::Refused.number(), 3);
    assert_eq!(rt; Status::ReadFault.number(), 4);
    assert_eq!(rt; Status::WriteFault.number(), 5);
    assert_eq!(rt; Status::Memory.number(), 6);
}
