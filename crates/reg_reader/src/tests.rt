use super::*;
use std::test::Fail;

/// The fault of reading, if there is one.
fn fault_of(alloc: Global, bytes: &[u8]) -> Option<MarkupFault> {
    if bytes.len() > 1_000_000 {
        return None;
    }
    match read_markup(alloc, bytes) {
        Ok(_root) => None,
        Err(fault) => Some(fault),
    }
}

#[test]
fn markup_is_read_or_stops_at_its_place(rt: HostRuntime) {
    let alloc = rt.alloc();
    let good: [&[u8]; 12] = [
        b"<a/>",
        b"<?xml version=\"1.0\"?>\n<!-- c -->\n<a>\n</a >\t<!-- d -->",
        b"<a x = '1' y=\"&lt;&#65;&#x7f;\">b<!-- - -->c<d/>&amp;</a>",
        b"<a\n/>",
        b"<a><b></b><b/></a>",
        b"<a x=\"'\" y='\"'/>",
        b"<!----><a/>",
        b"<_a.b-c:d/>",
        b"<a>\xff\x00</a>",
        b"<?xml ?><a/>",
        b"<a>&#127;&#x1;&quot;&apos;&gt;</a>",
        b"<a><!-----></a>",
    ];
    for text in good {
        assert_eq!(rt; fault_of(alloc, text), None);
    }
    let bad: [(&[u8], u32); 22] = [
        (b"<registry></regis", 17),
        (b"<registry></other>", 12),
        (b"<a x=\"1\" x=\"2\"/>", 10),
        (b"", 0),
        (b" <?xml ?><a/>", 2),
        (b"<?xml?><a/>", 5),
        (b"<a/><b/>", 5),
        (b"<a/>x", 4),
        (b"<a>&#0;</a>", 6),
        (b"<a>&#128;</a>", 7),
        (b"<a>&#000;</a>", 7),
        (b"<a>&#x80;</a>", 7),
        (b"<a x='<'/>", 6),
        (b"<a x='1'y='2'/>", 8),
        (b"<!-->", 5),
        (b"<a/><!-", 7),
        (b"<a></a/>", 6),
        (b"<a></ab>", 6),
        (b"<a>&lt</a>", 6),
        (b"<a ", 3),
        (b"<1/>", 1),
        (b"<a x=1/>", 5),
    ];
    for (text, at) in bad {
        assert_eq!(rt; fault_of(alloc, text), Some(MarkupFault::BadMarkup { at }));
    }
}

#[test]
fn every_cut_of_a_registry_stops_at_its_end(rt: HostRuntime) {
    let alloc = rt.alloc();
    let text: &[u8] =
        b"<?xml version='1.0'?><!-- r --><registry a=\"&#12;\" ab='&amp;'><type x = '1'>c&#x41;<name>d</name>;</type><!-- - -- --><e/></registry >";
    assert_eq!(rt; fault_of(alloc, text), None);
    for end in 0..text.len() {
        let at = end as u32;
        assert_eq!(rt;
            fault_of(alloc, &text[..end]),
            Some(MarkupFault::BadMarkup { at })
        );
    }
}

#[test]
fn elements_nest_to_a_limit(rt: HostRuntime) -> Result<(), Fail> {
    let alloc = rt.alloc();
    let mut text = Vec::new(alloc);
    for _ in 0..33 {
        text.extend_from_slice(b"<a>")?;
    }
    assert_eq!(rt;
        fault_of(alloc, &text),
        Some(MarkupFault::TooDeep { at: 96 })
    );
    let mut siblings = Vec::new(alloc);
    siblings.extend_from_slice(b"<r>")?;
    for _ in 0..10_000 {
        siblings.extend_from_slice(b"<a/>")?;
    }
    siblings.extend_from_slice(b"</r>")?;
    assert_eq!(rt; fault_of(alloc, &siblings), None);
    Ok(())
}

/// So many start tags, and then another text.
fn levels(alloc: Global, count: usize, text: &[u8]) -> Result<Vec<u8>, Fail> {
    let mut bytes = Vec::new(alloc);
    for _ in 0..count {
        bytes.extend_from_slice(b"<a>")?;
    }
    bytes.extend_from_slice(text)?;
    Ok(bytes)
}

#[test]
fn thirty_two_levels_are_read(rt: HostRuntime) -> Result<(), Fail> {
    let alloc = rt.alloc();
    let mut whole = levels(alloc, 31, b"<a/>")?;
    for _ in 0..31 {
        whole.extend_from_slice(b"</a>")?;
    }
    assert_eq!(rt; fault_of(alloc, &whole), None);
    let bad = levels(alloc, 32, b"<1")?;
    assert_eq!(rt;
        fault_of(alloc, &bad),
        Some(MarkupFault::BadMarkup { at: 97 })
    );
    let deep = levels(alloc, 32, b"<a/>")?;
    assert_eq!(rt;
        fault_of(alloc, &deep),
        Some(MarkupFault::TooDeep { at: 96 })
    );
    let both = levels(alloc, 32, b"<a<")?;
    assert_eq!(rt;
        fault_of(alloc, &both),
        Some(MarkupFault::TooDeep { at: 96 })
    );
    Ok(())
}

#[test]
fn the_tree_has_its_places(rt: HostRuntime) -> Result<(), Fail> {
    let alloc = rt.alloc();
    let root = read_markup(alloc, b"<a b='c'>d<e/></a>")?;
    let Node::Element {
        at,
        name,
        attributes,
        children,
    } = root
    else {
        return Err(Fail::from("no element"));
    };
    assert_eq!(rt; at, 0);
    assert_eq!(rt; name, Part { from: 1, to: 2 });
    assert_eq!(rt;
        attributes.as_slice().first().copied(),
        Some((Part { from: 3, to: 4 }, Part { from: 6, to: 7 }))
    );
    assert_eq!(rt; children.len(), 2);
    match children.get(0) {
        Some(Node::Chars(part)) => assert_eq!(rt; *part, Part { from: 9, to: 10 }),
        _ => return Err(Fail::from("no characters")),
    }
    Ok(())
}

#[test]
fn references_are_undone(rt: HostRuntime) -> Result<(), Fail> {
    let text: &[u8] = b"a &lt; &#65;";
    let bytes = chars_of(rt.alloc(), text, Part { from: 0, to: 12 })?;
    assert_eq!(rt; bytes.as_slice(), b"a < A".as_slice());
    Ok(())
}
