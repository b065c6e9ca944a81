use crate::attributes::{counts, first_part, lists, parts};
use reg_reader::{Element, read_markup};
use std::alloc::Global;
use std::test::Fail;

/// Whether the list in the attribute `b` of the root has a name.
fn lists_in(alloc: Global, bytes: &[u8], name: &[u8]) -> Result<bool, Fail> {
    if bytes.len() > 1_000_000 {
        return Err(Fail::from("too long"));
    }
    let tree = read_markup(alloc, bytes)?;
    Ok(lists(alloc, &Element::root(bytes, &tree), b"b", name)?)
}

#[test]
fn names_stand_between_commas(rt: HostRuntime) -> Result<(), Fail> {
    let table: [(&[u8], &[u8], bool); 10] = [
        (b"<a b='c'/>", b"c", true),
        (b"<a b='c,d'/>", b"d", true),
        (b"<a b='c,d,e'/>", b"d", true),
        (b"<a b='cd'/>", b"c", false),
        (b"<a b='c, d'/>", b"d", false),
        (b"<a b='c,d'/>", b"c,d", false),
        (b"<a b='c,'/>", b"", true),
        (b"<a b=''/>", b"", true),
        (b"<a b='c'/>", b"", false),
        (b"<a c='c'/>", b"c", false),
    ];
    for (bytes, name, listed) in table {
        let found = lists_in(rt.alloc(), bytes, name)?;
        assert_eq!(rt; found, listed);
    }
    Ok(())
}

/// Whether the root is one of the API `c`.
fn counts_in(alloc: Global, bytes: &[u8]) -> Result<bool, Fail> {
    if bytes.len() > 1_000_000 {
        return Err(Fail::from("too long"));
    }
    let tree = read_markup(alloc, bytes)?;
    Ok(counts(alloc, &Element::root(bytes, &tree), b"c")?)
}

#[test]
fn elements_count_for_an_api(rt: HostRuntime) -> Result<(), Fail> {
    let table: [(&[u8], bool); 6] = [
        (b"<a/>", true),
        (b"<a api='c'/>", true),
        (b"<a api='d,c'/>", true),
        (b"<a api='d'/>", false),
        (b"<a api=''/>", false),
        (b"<a b='d'/>", true),
    ];
    for (bytes, counted) in table {
        let found = counts_in(rt.alloc(), bytes)?;
        assert_eq!(rt; found, counted);
    }
    Ok(())
}

#[test]
fn texts_are_cut_at_commas(rt: HostRuntime) -> Result<(), Fail> {
    let table: [(&[u8], &[u8], usize); 6] = [
        (b"", b"", 1),
        (b"a", b"a", 1),
        (b"a,b", b"a", 2),
        (b",", b"", 2),
        (b"ab,,c", b"ab", 3),
        (b"a,b,", b"a", 3),
    ];
    for (text, first, count) in table {
        assert_eq!(rt; first_part(text), first);
        let found = parts(rt.alloc(), text)?;
        assert_eq!(rt; found.len(), count);
    }
    Ok(())
}
