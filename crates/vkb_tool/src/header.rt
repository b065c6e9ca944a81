//! The command `header`: the C header of what a registry declares at a choice of its options.
ghost use Rattle.std.specs.Prelude.{◌≡◌, [], length, IfOk, IfSome};
ghost use Rattle.vkb_tool.specs.Answer.{CountsReading, IsRequestStatus, effect_of};
ghost use Rattle.vkb_tool.specs.Check.{Carries};
ghost use Rattle.vkb_tool.specs.Declaring.{TellsAtChoice, TellsHeader};

use crate::answer::{Answer, Trouble, refuse_choice, refuse_registry, written};
use crate::registry::{Unread, read_registry};
use crate::{Memory, Request, Status};
use hdr_writer::header as header_text;
use reg_closure::{closure, order};
use reg_permit::choice_of;
use reg_reader::one_answer;
use reg_registry::{Choice, Registry};
use reg_rows::answers_are_one;
use std::alloc::Global;
use vkb_bytes::Bytes;
use vkb_outside::Shelf;

/// Answers a request for the header of what the registry of a file that the shelf holds declares for an API at the choice of the options that
/// these words name.
pub fn header<S: Shelf>(
    alloc: Global,
    shelf: &mut S,
    file: &str,
    api: &[u8],
    names: &[Bytes],
) -> Result<Answer, Trouble>
    ensures outcome { IfOk result (λ answer. IfSome (S.holds shelf.old) (λ files. Carries (Request.Header file.now api.now names.now) files (effect_of answer))) }
    ensures status { IfOk result (λ answer. IsRequestStatus answer.status) }
    ensures unput { IfOk result (λ answer. answer.puts ≡ []) }
    ensures counted { CountsReading (S.read_faults shelf.old) (S.read_faults shelf.new) result }
    ensures kept { S.holds shelf.new ≡ S.holds shelf.old }
    ensures puts { S.put_faults shelf.new ≡ S.put_faults shelf.old }
{
    // What is no registry is never one.
    one_answer();
    answers_are_one();
    match read_registry(alloc, shelf, file, api) {
        Ok(registry) => Ok(tell(alloc, &registry, names)?),
        Err(Unread::Faulty(fault)) => Ok(refuse_registry(alloc, file, api, &fault)?),
        Err(Unread::Troubled(trouble)) => Err(trouble),
    }
}

/// What is told of words for options, over a registry.
fn tell(alloc: Global, registry: &Registry, names: &[Bytes]) -> Result<Answer, Memory>
    ensures told { IfOk result (λ answer. TellsAtChoice registry.now names.now (TellsHeader registry.now) (effect_of answer)) }
    ensures status { IfOk result (λ answer. IsRequestStatus answer.status) }
    ensures unput { IfOk result (λ answer. answer.puts ≡ []) }
{
    match choice_of(alloc, registry, names) {
        Ok(choice) => declare(alloc, registry, &choice),
        Err(fault) => refuse_choice(alloc, registry, &fault),
    }
}

/// The header of what a registry declares at a choice.
fn declare(alloc: Global, registry: &Registry, choice: &Choice) -> Result<Answer, Memory>
    requires { length choice.now.chosen.items ≡ length registry.now.options }
    ensures told { IfOk result (λ answer. TellsHeader registry.now choice.now.chosen.items (effect_of answer)) }
    ensures status { IfOk result (λ answer. IsRequestStatus answer.status) }
    ensures unput { IfOk result (λ answer. answer.puts ≡ []) }
{
    let names = closure(alloc, registry, choice)?;
    let order = order(alloc, registry, &names)?;
    let text = header_text(alloc, registry, choice, order.as_slice())?;
    Ok(written(alloc, Status::Done, text.into_vec()))
}
