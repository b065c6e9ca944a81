//! What registries declare at choices of their options, in which order, which choices are permitted, and the statements that follow.
ghost use Rattle.std.specs.Prelude.{◌≡◌, length, IfOk};

use super::*;
use std::process::Abort;
use std::test::Fail;
use vkb_formula::NameId;

mod choices;
mod header_texts;
mod headers;
mod names;
mod statements;

/// The registry of a text, for the API `vulkan`.
fn registry_of(alloc: Global, text: &[u8]) -> Result<Registry, Fail> {
    if text.len() > MOST_BYTES {
        return Err(Fail::from("too long"));
    }
    let tree = read_markup(alloc, text)?;
    match rows(alloc, text, &tree, b"vulkan") {
        Ok(registry) => Ok(registry),
        Err(_) => Err(Fail::from("a fault")),
    }
}

/// The choice of a number: option k is chosen where its bit k is set.
fn choice_at(alloc: Global, registry: &Registry, number: u32) -> Result<Choice, Memory>
    ensures { IfOk result (λ c. length c.chosen.items ≡ length registry.now.options) }
{
    let mut chosen = Vec::new(alloc);
    let mut rest = number;
    for _ in 0..registry.options().len() {
        chosen.push(rest % 2 == 1)?;
        rest /= 2;
    }
    Ok(Choice { chosen })
}

/// The names at these places, with a space behind each.
fn names_at(alloc: Global, registry: &Registry, ids: &[NameId]) -> Result<Vec<u8>, Fail> {
    let mut text = Vec::new(alloc);
    for id in ids {
        if id.0 >= registry.names().len() {
            return Err(Fail::from("no such name"));
        }
        text.extend_from_slice(registry.names().name(*id))?;
        text.push(b' ')?;
    }
    Ok(text)
}
