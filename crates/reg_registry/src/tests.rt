//! Names, registries that declare nothing, and circles among rows made by hand.
use super::*;
use std::alloc::Global;
use std::process::Abort;
use std::test::Fail;

mod bare_options;
mod made_rows;

#[test]
fn names_are_of_some_bytes(rt: HostRuntime) {
    let table: [(&[u8], bool); 8] = [
        (b"VkA", true),
        (b"!~", true),
        (b"a:b", true),
        (b"", false),
        (b" a", false),
        (b"a b", false),
        (b"a\x7f", false),
        (b"\xc3\xa4", false),
    ];
    for (text, named) in table {
        assert_eq!(rt; is_name(text), named);
    }
}
