use super::*;
use std::alloc::{AllocError, Global};
use std::process::Abort;
use std::test::Fail;
use vkb_outside::{SureShelf, names_differ};

/// Two chapters of these texts, `chapters/a.adoc` and `chapters/b.adoc`.
fn two_chapters(alloc: Global, first: &str, second: &str) -> Result<Files, AllocError> {
    let first = file(alloc, "chapters/a.adoc", first)?;
    let second = file(alloc, "chapters/b.adoc", second)?;
    Ok(vec![in alloc; first, second]?)
}

/// Asserts what a check of `chapters/a.adoc` comes to, beside `chapters/b.adoc`.
fn reads(
    rt: &impl Abort,
    alloc: Global,
    first: &str,
    second: &str,
    written: &str,
) -> Result<(), AllocError> {
    let files = two_chapters(alloc, first, second)?;
    assert!(rt; names_differ(&files));
    let mut shelf = SureShelf::new(files);
    let (_, output) = answer_on(rt, alloc, &mut shelf, "check - chapters/a.adoc -")?;
    assert_eq!(rt;
        output.as_slice(),
        written.as_bytes(),
        "{first:?} with {second:?}"
    );
    Ok(())
}

#[test]
fn chapters_are_followed(rt: HostRuntime) -> Result<(), Fail> {
    let alloc = rt.alloc();
    let a = "<<b>>\ninclude::{chapters}/b.adoc[]\n[[a]]\n";
    reads(&rt, alloc, a, "[[b]]\n<<a>>\n", "yes 2\n")?;
    reads(
        &rt,
        alloc,
        a,
        "[[b]]\n\n x <<c>>\n",
        "no chapters/b.adoc:3:4\nc 0\n",
    )?;
    let twice = "include::{chapters}/b.adoc[]\ninclude::{chapters}/b.adoc[]\n<<b>>\n";
    reads(
        &rt,
        alloc,
        twice,
        "[[b]]\n",
        "no chapters/a.adoc:3:1\nb 2\n",
    )?;
    let under = "ifdef::X[]\ninclude::{chapters}/b.adoc[]\nendif::X[]\n<<b>>\n";
    reads(
        &rt,
        alloc,
        under,
        "[[b]]\n",
        "no chapters/a.adoc:4:1\nb 0\n",
    )?;
    reads(
        &rt,
        alloc,
        under,
        "<<c>>\n",
        "no chapters/b.adoc:1:1\nc 0\nwith X\n",
    )?;
    let round =
        "ifdef::X[]\ninclude::{chapters}/b.adoc[]\nendif::[]\nifdef::X[]\n<<b>>\nendif::[]\n";
    reads(&rt, alloc, round, "[[b]]\n", "yes 1\n")?;
    Ok(())
}

#[test]
fn faults_of_chapters_have_their_places(rt: HostRuntime) -> Result<(), Fail> {
    let alloc = rt.alloc();
    let a = "include::{chapters}/b.adoc[]\n";
    reads(
        &rt,
        alloc,
        a,
        "\nendif::[]\n",
        "refused Unbalanced chapters/b.adoc:2\n",
    )?;
    let opened = "ifdef::X[]\ninclude::{chapters}/b.adoc[]\n";
    reads(
        &rt,
        alloc,
        opened,
        "endif::X[]\n",
        "refused Unbalanced chapters/a.adoc:1\n",
    )?;
    reads(
        &rt,
        alloc,
        a,
        "ifeval::[]\n",
        "refused BadCondition chapters/b.adoc:1\n",
    )?;
    reads(
        &rt,
        alloc,
        "include::{chapters}/b.adoc[]\nendif::[]\n",
        "endif::[]\n",
        "refused Unbalanced chapters/a.adoc:2\n",
    )?;
    reads(
        &rt,
        alloc,
        "ifdef::X[]\nifndef::X[]\ninclude::{chapters}/b.adoc[]\nendif::[]\nendif::[]\n",
        "endif::[]\n",
        "refused Unbalanced chapters/b.adoc:1\n",
    )?;
    let missing = "ifdef::X[]\ninclude::{chapters}/c.adoc[]\nendif::X[]\n";
    reads(&rt, alloc, missing, "", "refused Missing chapters/c.adoc\n")?;
    let itself = "include::{chapters}/a.adoc[]\n";
    reads(
        &rt,
        alloc,
        itself,
        "",
        "refused IncludeDepth chapters/a.adoc:1\n",
    )?;
    reads(
        &rt,
        alloc,
        "include::{chapters}/a.adoc[]\ninclude::{chapters}/c.adoc[]\n",
        "",
        "refused IncludeDepth chapters/a.adoc:1\n",
    )?;
    reads(
        &rt,
        alloc,
        a,
        itself,
        "refused IncludeDepth chapters/b.adoc:1\n",
    )?;
    Ok(())
}

/// Chapters `chapters/1.adoc` up to so many, of which each includes the next, and the last has an anchor and a link.
fn nested(alloc: Global, count: u32) -> Result<Files, AllocError> {
    let mut files = Vec::new(alloc);
    for number in 1..count {
        let name = format!(in alloc; "chapters/{number}.adoc")?;
        let next = number + 1;
        let text = format!(in alloc; "include::{{chapters}}/{next}.adoc[]\n")?;
        files.push(file(alloc, name.as_str(), text.as_str())?)?;
    }
    let name = format!(in alloc; "chapters/{count}.adoc")?;
    files.push(file(alloc, name.as_str(), "[[a]]\n<<a>>\n")?)?;
    Ok(files)
}

/// Asserts what a check of so many chapters in one another comes to.
fn reads_nested(
    rt: &impl Abort,
    alloc: Global,
    count: u32,
    written: &str,
) -> Result<(), AllocError> {
    let files = nested(alloc, count)?;
    assert!(rt; names_differ(&files));
    let mut shelf = SureShelf::new(files);
    let (_, output) = answer_on(rt, alloc, &mut shelf, "check - chapters/1.adoc -")?;
    assert_eq!(rt; output.as_slice(), written.as_bytes());
    Ok(())
}

#[test]
fn chapters_nest_16_deep(rt: HostRuntime) -> Result<(), Fail> {
    let alloc = rt.alloc();
    reads_nested(&rt, alloc, 16, "yes 1\n")?;
    let written = "refused IncludeDepth chapters/16.adoc:1\n";
    reads_nested(&rt, alloc, 17, written)?;
    Ok(())
}
