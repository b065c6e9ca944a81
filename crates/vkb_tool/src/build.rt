//! The command `build`: the text of a document at a choice of options.
ghost use Rattle.std.specs.Prelude.{◌≡◌, [], length, IfOk};
ghost use Rattle.doc_tree.specs.Loaded.{IsLoaded, flat_of};
ghost use Rattle.vkb_tool.specs.Answer.{IsRequestStatus, effect_of};
ghost use Rattle.vkb_tool.specs.Declaring.{TellsAtChoice, TellsText};

use crate::answer::{Answer, refuse_choice, written};
use crate::{Memory, Status};
use doc_build::built;
use doc_tree::Document;
use reg_closure::closures_are_there;
use reg_permit::choice_of;
use reg_registry::{Choice, Registry};
use std::alloc::Global;
use vkb_bytes::Bytes;
use vkb_text::Text;

/// What is told of words for options, over a document whose walk has no fault and a registry: the text that is built at the choice that
/// they name.
pub fn tell(
    alloc: Global,
    text: &Text,
    document: &Document,
    registry: &Registry,
    always: &[Bytes],
    names: &[Bytes],
) -> Result<Answer, Memory>
    requires { IsLoaded text.now.bytes document.now }
    ensures told { IfOk result (λ answer. TellsAtChoice registry.now names.now
        (TellsText always.now registry.now (flat_of text.now.bytes document.now)) (effect_of answer)) }
    ensures status { IfOk result (λ answer. IsRequestStatus answer.status) }
    ensures unput { IfOk result (λ answer. answer.puts ≡ []) }
{
    match choice_of(alloc, registry, names) {
        Ok(choice) => write_text(alloc, text, document, registry, &choice, always),
        Err(fault) => refuse_choice(alloc, registry, &fault),
    }
}

/// The text of a document at a choice.
fn write_text(
    alloc: Global,
    text: &Text,
    document: &Document,
    registry: &Registry,
    choice: &Choice,
    always: &[Bytes],
) -> Result<Answer, Memory>
    requires loaded { IsLoaded text.now.bytes document.now }
    requires chosen { length choice.now.chosen.items ≡ length registry.now.options }
    ensures told { IfOk result (λ answer. TellsText always.now registry.now (flat_of text.now.bytes document.now) choice.now.chosen.items (effect_of answer)) }
    ensures status { IfOk result (λ answer. IsRequestStatus answer.status) }
    ensures unput { IfOk result (λ answer. answer.puts ≡ []) }
{
    // The choice has a closure, of which the text is told.
    closures_are_there();
    registry.is_sound();
    let bytes = built(alloc, text, document, registry, choice, always)?;
    Ok(written(alloc, Status::Done, bytes))
}
