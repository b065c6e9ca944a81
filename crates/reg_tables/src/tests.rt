ghost use Rattle.std.specs.Prelude.{◌<◌, ◌≤◌, ◌^◌, All, IfOk, length};
ghost use Rattle.reg_reader.specs.Markup.{Spells};

use super::*;
use reg_forms::{Fault, Forms, read_forms};
use reg_reader::{Element, Node, read_markup};
use std::alloc::Global;
use std::process::Abort;
use std::test::Fail;

mod names;
mod options;

/// What the elements of a registry say.
fn forms_in(alloc: Global, text: &[u8]) -> Result<Forms, Fail>
    ensures { IfOk result (λ forms. All (λ one. length one.text < 2 ^ 32) forms.texts) }
{
    if text.len() > 33_554_432 {
        return Err(Fail::from("too long"));
    }
    let tree = read_markup(alloc, text)?;
    forms_under(alloc, text, &tree)
}

/// What the elements of a registry say, of which this is the tree.
fn forms_under(alloc: Global, text: &[u8], tree: &Node) -> Result<Forms, Fail>
    requires tree { Spells 32 tree.now text.now }
    requires small { length text.now ≤ 33554432 }
    ensures { IfOk result (λ forms. All (λ one. length one.text < 2 ^ 32) forms.texts) }
{
    let root = Element::root(text, tree);
    let forms = read_forms(alloc, &root, b"vulkan")?;
    Ok(forms)
}

/// The first of some faults with code, place and word, or `sound`.
fn told_of(alloc: Global, faults: &[Fault]) -> Result<Vec<u8>, Fail> {
    match faults.first() {
        Some(fault) => {
            let mut text = format!(in alloc; "{:?} {} ", fault.code, fault.at)?.into_bytes();
            text.extend_from_slice(fault.word.as_slice())?;
            Ok(text)
        }
        None => Ok(Vec::from_slice(alloc, b"sound")?),
    }
}
