//! Where nothing is declared: a registry with names can't be put together here without reading one.
use super::*;
use reg_registry::{Choice, Registry};
use std::test::Fail;

#[test]
fn a_bare_registry_declares_nothing(rt: HostRuntime) -> Result<(), Fail> {
    let alloc = rt.alloc();
    let registry = Registry::bare(alloc, &[])?;
    let choice = Choice {
        chosen: Vec::new(alloc),
    };
    let set = closure(alloc, &registry, &choice)?;
    let names = order(alloc, &registry, &set)?;
    assert_eq!(rt; names.len(), 0);
    Ok(())
}
