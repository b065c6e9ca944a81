ghost use Rattle.std.specs.Prelude.{◌^◌, ◌<◌, length};

use super::*;
use std::test::Fail;

/// The marks of a line in order, each as its place, its id and whether it is an anchor.
fn holds(line: &[u8], expected: &[(usize, &[u8], bool)]) -> bool {
    if line.len() > 1000 {
        return false;
    }
    let mut marks = Marks::new(line);
    for (at, id, anchor) in expected {
        match marks.next() {
            Some(mark) => {
                let found = line.get(mark.from as usize..mark.to as usize);
                if mark.at as usize != *at || mark.anchor != *anchor || found != Some(*id) {
                    return false;
                }
            }
            None => return false,
        }
    }
    marks.next() == None && marks.next() == None
}

#[test]
fn anchors_and_links_by_brackets(rt: HostRuntime) {
    assert!(rt; holds(br"\[[a]] [[b,B]] xslink:Vk <<c", &[(7, b"b", true)]));
    assert!(rt; holds(b"[[[d]]]", &[(1, b"d", true)]));
    assert!(rt; holds(b"[[a]] [[a]]", &[(0, b"a", true), (6, b"a", true)]));
    assert!(rt; holds(b"  <<a,the", &[(2, b"a", false)]));
    assert!(rt; holds(b"[[a,", &[(0, b"a", true)]));
    assert!(rt; holds(b"[[a]", &[]));
    assert!(rt; holds(b"[[a>>", &[]));
    assert!(rt; holds(b"<<a]]", &[]));
    assert!(rt; holds(b"<<a>> <<b>", &[(0, b"a", false)]));
    assert!(rt; holds(b"[[-a]] [[a b]] [[]] [[,]] [[", &[]));
    assert!(rt; holds(br"\\[[a]] \<<b>>", &[]));
    assert!(rt; holds(b"[[a-b.c:d_9]]", &[(0, b"a-b.c:d_9", true)]));
    assert!(rt; holds("[[\u{e9}]] [[a\u{e9}]] flink:\u{e9}".as_bytes(), &[]));
    assert!(rt; holds(b"<<<x,y", &[(1, b"x", false)]));
    assert!(rt; holds(b"", &[]));
}

#[test]
fn ids_with_the_refpage_attribute(rt: HostRuntime) {
    assert!(rt; holds(b"[[{refpage}]]", &[(0, b"{refpage}", true)]));
    assert!(rt; holds(b"[[a{refpage}-x]]", &[(0, b"a{refpage}-x", true)]));
    assert!(rt;
        holds(
            b"<<{refpage}{refpage},",
            &[(0, b"{refpage}{refpage}", false)]
        )
    );
    assert!(rt; holds(b"[[{refpag}]] [[a{refpage]] [[{a}]]", &[]));
    assert!(rt; holds(b"flink:{refpage}", &[]));
}

#[test]
fn links_by_macros(rt: HostRuntime) {
    assert!(rt; holds(b"slink:", &[]));
    assert!(rt; holds(b"slink:Vk-x", &[(0, b"Vk", false)]));
    assert!(rt; holds(b"aslink:Vk _slink:Vk 9slink:Vk", &[]));
    assert!(rt; holds(b":slink:Vk", &[(1, b"Vk", false)]));
    assert!(rt; holds(b"slink:slink:a", &[(0, b"slink", false), (6, b"a", false)]));
    assert!(rt; holds(b"reflink:a", &[(0, b"a", false)]));
    assert!(rt; holds(br"\flink:a", &[]));
    assert!(rt;
        holds(
            b"flink:a elink:b dlink:c tlink:d apiext:VK_e slink:_f Flink:g",
            &[
                (0, b"a", false),
                (8, b"b", false),
                (16, b"c", false),
                (24, b"d", false),
                (32, b"VK_e", false),
                (44, b"_f", false),
            ]
        )
    );
    assert!(rt;
        holds(
            b"[[a:flink:b]]",
            &[(0, b"a:flink:b", true), (4, b"b", false)]
        )
    );
}

/// The length of the longest id of a line.
fn longest_id(line: &[u8]) -> usize
    requires { length line.now < 2 ^ 32 }
{
    let mut longest = 0;
    let mut marks = Marks::new(line);
    while let Some(mark) = marks.next() {
        let id = &line[mark.from as usize..mark.to as usize];
        if id.len() > longest {
            longest = id.len();
        }
    }
    longest
}

#[test]
fn the_theorem_on_marks_is_a_call(rt: HostRuntime) {
    let line = b"<<a>> [[b]]";
    marks_follow_the_rule(line);
    assert!(rt; holds(line, &[(0, b"a", false), (6, b"b", true)]));
}

#[test]
fn a_long_line_takes_one_pass(rt: HostRuntime) -> Result<(), Fail> {
    let alloc = rt.alloc();
    for byte in [b'[', b'<', b':'] {
        let line = vec![in alloc; byte; 1_000_000]?;
        assert_eq!(rt; longest_id(line.as_slice()), 0);
    }
    let mut line = Vec::new(alloc);
    for _ in 0..300_000 {
        line.extend_from_slice(b"[[a")?;
    }
    assert!(rt; line.len() < 1_000_000);
    assert_eq!(rt; longest_id(line.as_slice()), 0);
    Ok(())
}
