//! How statements are worded: want of memory is the one answer that no contract binds.
use super::*;
use crate::wording::{link, say, tag_of};
use reg_registry::Kind;
use std::process::Abort;
use std::test::Fail;

#[test]
fn links_are_of_their_kind(rt: HostRuntime) -> Result<(), Fail> {
    let table: [(Kind, &[u8]); 12] = [
        (Kind::External, b"`T`"),
        (Kind::Include, b"`T`"),
        (Kind::Define, b"`T`"),
        (Kind::Base, b"`T`"),
        (Kind::Bitmask, b"tlink:T"),
        (Kind::Handle, b"slink:T"),
        (Kind::EnumType, b"elink:T"),
        (Kind::FuncPointer, b"tlink:T"),
        (Kind::Struct, b"slink:T"),
        (Kind::Union, b"slink:T"),
        (Kind::Constant, b"`T`"),
        (Kind::Command, b"`T`"),
    ];
    for (kind, text) in table {
        assert_eq!(rt; link(rt.alloc(), kind, b"T")?.as_slice(), text);
    }
    Ok(())
}

#[test]
fn statements_have_tags(rt: HostRuntime) -> Result<(), Fail> {
    let tag = tag_of(rt.alloc(), b"VkA", b"pNext", b"VkB")?;
    assert_eq!(rt; tag.as_slice(), b"VUID-VkA-pNext-VkB".as_slice());
    Ok(())
}

#[test]
fn what_is_said_stands_last(rt: HostRuntime) -> Result<(), Fail> {
    let alloc = rt.alloc();
    let mut said = Vec::new(alloc);
    say(
        &mut said,
        b"VkA",
        b"m",
        b"parameter",
        Vec::from_slice(alloc, b"one")?,
    )?;
    say(
        &mut said,
        b"VkA",
        b"n",
        b"parameter",
        Vec::from_slice(alloc, b"two")?,
    )?;
    assert_eq!(rt; said.len(), 2);
    if let Some(last) = said.pop() {
        assert_eq!(rt; last.tag.as_slice(), b"VUID-VkA-n-parameter".as_slice());
        assert_eq!(rt; last.text.as_slice(), b"two".as_slice());
        assert!(rt; last.needs.is_none());
    }
    Ok(())
}
