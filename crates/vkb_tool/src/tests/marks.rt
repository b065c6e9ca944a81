use super::*;
use std::test::Fail;

#[test]
fn marks_are_read_where_they_may_stand(rt: HostRuntime) -> Result<(), Fail> {
    let alloc = rt.alloc();
    let text = "\\[[a]] [[b,B]] xslink:Vk <<c\n[[[d]]]\n<<b>> <<d>>\n";
    holds(&rt, alloc, text, "yes 2\n")?;
    let text = "\\[[a]] [[b,B]] xslink:Vk <<c\n[[[d]]]\n<<b>> <<d>> <<a>>\n";
    breaks(&rt, alloc, text, "no a.adoc:3:13\na 0\n")?;
    let text = "// [[a]]\n/// [[b]]\n//// [[c]]\n<<b>>\n";
    holds(&rt, alloc, text, "yes 1\n")?;
    let text = "////\n[[c]]\n////\n<<c>>\n";
    holds(&rt, alloc, text, "yes 1\n")?;
    let text = "\\[[a]] \\<<b>> [[a]] <<a>>\n";
    holds(&rt, alloc, text, "yes 1\n")?;
    let text = "[[[a]]] <<<a>>> [[b [[c]] <<-d>> [[a\n]]\n";
    holds(&rt, alloc, text, "yes 1\n")?;
    let text = "[[a\n<<a\n<<a,b\n";
    breaks(&rt, alloc, text, "no a.adoc:3:1\na 0\n")?;
    let text = "\u{e9}\u{e9}<<a>>\n";
    breaks(&rt, alloc, text, "no a.adoc:1:5\na 0\n")?;
    Ok(())
}

#[test]
fn ends_of_lines_may_differ(rt: HostRuntime) -> Result<(), Fail> {
    let alloc = rt.alloc();
    let text = "ifdef::X[]\r\n[[a]]\r\nendif::X[]\t\r\nifndef::X[]\r\n[[a]]\r\nendif::[] \r\n<<a>>";
    holds(&rt, alloc, text, "yes 1\n")?;
    Ok(())
}

#[test]
fn links_that_never_stand_are_counted(rt: HostRuntime) -> Result<(), Fail> {
    let alloc = rt.alloc();
    let text = "ifdef::X[]\nifndef::X[]\n<<a>>\n<<b>>\nendif::[]\nendif::[]\n";
    holds(&rt, alloc, text, "yes 2\n")?;
    Ok(())
}

#[test]
fn an_id_may_have_many_anchors(rt: HostRuntime) -> Result<(), Fail> {
    let alloc = rt.alloc();
    let mut text = String::from_str(alloc, "<<a>>\n")?;
    for _ in 0..1_447 {
        text.push_str("[[a]]\n")?;
    }
    breaks(&rt, alloc, text.as_str(), "no a.adoc:1:1\na 1447\n")?;
    Ok(())
}
