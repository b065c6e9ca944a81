//! Headers of registries that declare nothing.
use super::*;
use reg_registry::{Choice, Registry, is_name};
use std::alloc::Global;
use std::test::Fail;
use vkb_bytes::Bytes;

/// The header of two free options at a choice.
fn bare_header(alloc: Global, first: bool, second: bool) -> Result<Bytes, Fail> {
    let options = vec![in alloc;
        Bytes::from_slice(alloc, b"X")?,
        Bytes::from_slice(alloc, b"Y")?,
    ]?;
    let registry = Registry::bare(alloc, &options)?;
    let choice = Choice {
        chosen: vec![in alloc; first, second]?,
    };
    Ok(header(alloc, &registry, &choice, &[])?)
}

#[test]
fn free_options_are_defined(rt: HostRuntime) -> Result<(), Fail> {
    let alloc = rt.alloc();
    let none = bare_header(alloc, false, false)?;
    assert_eq!(rt;
        none.as_slice(),
        b"#ifndef VULKAN_CORE_H_\n#define VULKAN_CORE_H_ 1\n#endif\n".as_slice()
    );
    let one = bare_header(alloc, true, false)?;
    assert_eq!(rt;
        one.as_slice(),
        b"#ifndef VULKAN_CORE_H_\n#define VULKAN_CORE_H_ 1\n#define X 1\n#endif\n".as_slice()
    );
    let both = bare_header(alloc, true, true)?;
    assert_eq!(rt;
        both.as_slice(),
        b"#ifndef VULKAN_CORE_H_\n#define VULKAN_CORE_H_ 1\n#define X 1\n#define Y 1\n#endif\n".as_slice()
    );
    Ok(())
}
