use super::*;
use std::test::Fail;

/// The text of the root.
fn text_of(alloc: Global, bytes: &[u8]) -> Result<Vec<u8>, Fail> {
    if bytes.len() > 1_000_000 {
        return Err(Fail::from("too long"));
    }
    let tree = read_markup(alloc, bytes)?;
    let text = Element::root(bytes, &tree).text(alloc)?;
    Ok(text.into_vec())
}

#[test]
fn texts_are_without_comments(rt: HostRuntime) -> Result<(), Fail> {
    let alloc = rt.alloc();
    let table: [(&[u8], &[u8]); 6] = [
        (b"<a/>", b""),
        (b"<a>b&lt;<c d='e'>f&#65;</c>\n</a>", b"b<fA\n"),
        (
            b"<a>b<comment>c<d>e</d></comment>f<g><comment>h</comment>i</g></a>",
            b"bfi",
        ),
        (b"<comment>a<comment>b</comment></comment>", b"a"),
        (b"<a><!-- b -->c<comments>d</comments></a>", b"cd"),
        (b"<?xml ?><!-- a --><b>c</b> ", b"c"),
    ];
    for (bytes, text) in table {
        let found = text_of(alloc, bytes)?;
        assert_eq!(rt; found.as_slice(), text);
    }
    Ok(())
}

/// The text of the root before its first child of a name.
fn text_before_in(alloc: Global, bytes: &[u8], name: &[u8]) -> Result<Vec<u8>, Fail> {
    if bytes.len() > 1_000_000 {
        return Err(Fail::from("too long"));
    }
    let tree = read_markup(alloc, bytes)?;
    let text = Element::root(bytes, &tree).text_before(alloc, name)?;
    Ok(text.into_vec())
}

#[test]
fn texts_end_before_the_first_child_of_a_name(rt: HostRuntime) -> Result<(), Fail> {
    let alloc = rt.alloc();
    let bytes: &[u8] =
        b"<a>b&lt;<c>d<n>e</n></c><comment>f</comment><!-- g -->h<n>i</n>j<n/><k/></a>";
    let table: [(&[u8], &[u8]); 5] = [
        (b"c", b"b<"),
        (b"n", b"b<deh"),
        (b"comment", b"b<de"),
        (b"k", b"b<dehij"),
        (b"a", b"b<dehij"),
    ];
    for (name, text) in table {
        let found = text_before_in(alloc, bytes, name)?;
        assert_eq!(rt; found.as_slice(), text);
    }
    Ok(())
}

/// The value of an attribute of the root, or `-` where there is none.
fn value_of(alloc: Global, bytes: &[u8], name: &[u8]) -> Result<Vec<u8>, Fail> {
    if bytes.len() > 1_000_000 {
        return Err(Fail::from("too long"));
    }
    let tree = read_markup(alloc, bytes)?;
    match Element::root(bytes, &tree).attribute(alloc, name)? {
        Some(value) => Ok(value.into_vec()),
        None => Ok(Vec::from_slice(alloc, b"-")?),
    }
}

#[test]
fn attributes_are_found_by_name(rt: HostRuntime) -> Result<(), Fail> {
    let alloc = rt.alloc();
    let bytes: &[u8] = b"<a b = 'c&gt;&#x41;' bb=\"\" d='e'><b f='g'/></a>";
    let table: [(&[u8], &[u8]); 6] = [
        (b"b", b"c>A"),
        (b"bb", b""),
        (b"d", b"e"),
        (b"f", b"-"),
        (b"bbb", b"-"),
        (b"", b"-"),
    ];
    for (name, value) in table {
        let found = value_of(alloc, bytes, name)?;
        assert_eq!(rt; found.as_slice(), value);
    }
    Ok(())
}

#[test]
fn children_come_in_order(rt: HostRuntime) -> Result<(), Fail> {
    let bytes: &[u8] = b"<r>a<b/>\n<c><d/></c><!-- --><e f='g'/>h</r>";
    let tree = read_markup(rt.alloc(), bytes)?;
    let root = Element::root(bytes, &tree);
    assert_eq!(rt; root.name(), b"r".as_slice());
    assert_eq!(rt; root.place(), 0);
    let mut children = root.children();
    let table: [(&[u8], u32); 3] = [(b"b", 4), (b"c", 9), (b"e", 28)];
    for (name, place) in table {
        let Some(child) = children.next() else {
            return Err(Fail::from("no child"));
        };
        assert_eq!(rt; child.name(), name);
        assert_eq!(rt; child.place(), place);
    }
    assert!(rt; children.next().is_none());
    Ok(())
}
