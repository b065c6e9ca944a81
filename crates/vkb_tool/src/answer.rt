ghost use Rattle.std.specs.Prelude.{◌≡◌, ◌^◌, ◌<◌, List, ℕ, [], length, map, Some, IfErr, IfOk, IfSome};
ghost use Rattle.doc_tree.specs.Answer.{told_of};
ghost use Rattle.doc_tree.specs.Fault.{Fault as DocumentFault};
ghost use Rattle.vkb_tool.specs.Answer.{AnswersWords, AreHeld, CountsReading, Delivers, IsAskedFor, PutsAll, effect_of, put_of};
ghost use Rattle.reg_permit.specs.Choices.{IsChoiceFault};
ghost use Rattle.vkb_tool.specs.Check.{IsTroubleOf, TellsFault};
ghost use Rattle.vkb_tool.specs.Fault.{InRegistry};
ghost use Rattle.vkb_tool.specs.Outcome.{IsFaultAt, Outcome, writes_alone};
ghost use Rattle.vkb_tool.specs.Report.{document_fault_line, fault_line, usage_line};
ghost use Rattle.vkb_tool.specs.Words.{items_of};

use crate::document::{Task, answer_on};
use crate::header::header;
use crate::registry::RegistryFault;
use crate::report::{
    document_fault_text, not_permitted_text, registry_fault_text, unknown_option_text, usage_text,
};
use crate::tags::tag;
use crate::words::{Request, WordFault, read_words};
use crate::{Memory, Status};
use doc_tree::DocFault;
use reg_permit::ChoiceFault;
use reg_registry::Registry;
use std::alloc::Global;
use vkb_bytes::{Bytes, Listed, Text};
use vkb_outside::{PutTrouble, Shelf, Sink};

/// A file that is put in the place of one that is held.
#[derive(Debug, Drop)]
pub struct FilePut {
    pub name: Text,
    pub bytes: Bytes,
}

/// What a run comes to before anything is put or written: its status, its whole output, and the files that it puts, in order.
#[derive(Debug, Drop)]
pub struct Answer {
    pub status: Status,
    pub output: Bytes,
    pub puts: Listed<FilePut>,
}

/// Why there is no answer.
#[derive(Clone, Copy, Debug, PartialEq, Eq)]
pub enum Trouble {
    /// The shelf failed to read.
    ReadFailed,
    NoMemory,
}

impl From<Memory> for Trouble {
    ghost use Rattle.std.specs.Prelude.{◌≡◌};
    ghost use Rattle.vkb_tool.specs.declared.answer.Trouble.TheVariants.{NoMemory};

    ghost from_gives = { λ _ e. e ≡ NoMemory };

    fn from(_: Memory) -> Trouble {
        Trouble::NoMemory
    }
}

/// An answer that puts nothing.
pub fn written(alloc: Global, status: Status, output: Vec<u8>) -> Answer
    ensures { effect_of result ≡ writes_alone status output.items }
{
    Answer {
        status,
        output: Bytes::from_vec(output),
        puts: Listed::from_vec(Vec::new(alloc)),
    }
}

/// Answers the words by what the shelf holds, and changes nothing.
pub fn answer_words<S: Shelf>(
    alloc: Global,
    words: &[Vec<u8>],
    shelf: &mut S,
) -> Result<Answer, Trouble>
    requires { length words.now < 2 ^ 32 }
    ensures outcome { IfOk result (λ answer. IfSome (S.holds shelf.old) (λ files. Outcome (items_of words.now) files (effect_of answer))) }
    ensures words { IfOk result (AnswersWords (items_of words.now)) }
    ensures held { IfOk result (λ answer. AreHeld (S.holds shelf.old) (effect_of answer).puts) }
    ensures asked { IsAskedFor (items_of words.now) result }
    ensures counted { CountsReading (S.read_faults shelf.old) (S.read_faults shelf.new) result }
    ensures kept { S.holds shelf.new ≡ S.holds shelf.old }
    ensures puts { S.put_faults shelf.new ≡ S.put_faults shelf.old }
{
    match read_words(alloc, words) {
        Ok(
            Request::Check {
                registry,
                root,
                api,
                always,
            },
        ) => answer_on(
            alloc,
            shelf,
            &Task::Check,
            &registry,
            root.as_str(),
            api.as_slice(),
            always.as_slice(),
        ),
        Ok(
            Request::Build {
                registry,
                root,
                api,
                names,
                always,
            },
        ) => answer_on(
            alloc,
            shelf,
            &Task::Build { names },
            &registry,
            root.as_str(),
            api.as_slice(),
            always.as_slice(),
        ),
        Ok(
            Request::Header {
                registry,
                api,
                names,
            },
        ) => header(
            alloc,
            shelf,
            registry.as_str(),
            api.as_slice(),
            names.as_slice(),
        ),
        Ok(Request::Tag { first, files }) => tag(alloc, shelf, first, files.as_slice()),
        Err(WordFault::Usage { position }) => Ok(misplaced(alloc, position)?),
        Err(WordFault::Memory) => Err(Trouble::NoMemory),
    }
}

/// The answer to words that are no request.
fn misplaced(alloc: Global, position: u32) -> Result<Answer, Memory>
    ensures { IfOk result (λ answer. effect_of answer ≡ writes_alone Status.Usage (usage_line position)) }
{
    let output = usage_text(alloc, position)?;
    Ok(written(alloc, Status::Usage, output))
}

/// The answer to a request in whose files a fault stands. A failed read and want of memory have none.
pub fn refuse(alloc: Global, fault: &DocFault) -> Result<Answer, Trouble>
    ensures told { IfOk result (λ answer. (named : DocumentFault) × (told_of fault.now ≡ Some named) × (effect_of answer ≡ writes_alone Status.Refused (document_fault_line named))) }
    ensures status { IfOk result (λ answer. answer.status ≡ Status.Refused) }
    ensures unput { IfOk result (λ answer. answer.puts ≡ []) }
    ensures untold { IfErr result (IsTroubleOf fault.now) }
{
    let output = document_fault_text(alloc, fault)?;
    Ok(written(alloc, Status::Refused, output))
}

/// The answer to a request whose file of a registry has a fault.
pub fn refuse_registry(
    alloc: Global,
    file: &str,
    api: &[u8],
    fault: &RegistryFault,
) -> Result<Answer, Memory>
    ensures { IfOk result (λ answer. effect_of answer
        ≡ writes_alone Status.Refused (fault_line (InRegistry file.now api.now fault.now))) }
{
    let output = registry_fault_text(alloc, file, api, fault)?;
    Ok(written(alloc, Status::Refused, output))
}

/// The answer to words that name no permitted choice of a registry's options. Want of memory has none.
pub fn refuse_choice(
    alloc: Global,
    registry: &Registry,
    fault: &ChoiceFault,
) -> Result<Answer, Memory>
    requires { (names : List (List ℕ)) × IsChoiceFault registry.now names fault.now }
    ensures told { (names : List (List ℕ)) → IsChoiceFault registry.now names fault.now
        → IfOk result (λ answer. TellsFault (IsFaultAt registry.now names) (effect_of answer)) }
    ensures status { IfOk result (λ answer. answer.status ≡ Status.Refused) }
    ensures unput { IfOk result (λ answer. answer.puts ≡ []) }
{
    // The option whose rule doesn't hold has a name.
    registry.is_sound();
    match fault {
        ChoiceFault::UnknownOption { word } => {
            let output = unknown_option_text(alloc, word.as_slice())?;
            Ok(written(alloc, Status::Refused, output))
        }
        ChoiceFault::NotPermitted { option } => {
            let output = not_permitted_text(alloc, registry.options().name(*option))?;
            Ok(written(alloc, Status::Refused, output))
        }
        ChoiceFault::Memory => Err(Memory),
    }
}

/// Puts the files of an answer and then writes its output, and gives its status where that is done. It takes memory before the
/// first put alone.
pub fn deliver<S: Shelf, K: Sink>(answer: Answer, shelf: &mut S, out: &mut K) -> Status
    requires { AreHeld (S.holds shelf.old) (effect_of answer).puts }
    ensures { Delivers (effect_of answer) result
        (record { files = S.holds shelf.old; written = K.written out.old; read_faults = S.read_faults shelf.old; put_faults = S.put_faults shelf.old; write_faults = K.faults out.old })
        (record { files = S.holds shelf.new; written = K.written out.new; read_faults = S.read_faults shelf.new; put_faults = S.put_faults shelf.new; write_faults = K.faults out.new }) }
{
    let Answer {
        status,
        output,
        puts,
    } = answer;
    let output = output.as_slice();
    if out.ready(output.len()).is_err() {
        return Status::Memory;
    }
    if put_all(shelf, puts.into_vec()).is_err() {
        return Status::WriteFault;
    }
    match out.write(output) {
        Ok(()) => status,
        Err(_) => Status::WriteFault,
    }
}

/// Puts files in order, up to the first put that fails.
fn put_all<S: Shelf>(shelf: &mut S, puts: Vec<FilePut>) -> Result<(), PutTrouble>
    requires { AreHeld (S.holds shelf.old) (map put_of puts.items) }
    ensures put { PutsAll (map put_of puts.items) result (S.holds shelf.old) (S.holds shelf.new) (S.put_faults shelf.old) (S.put_faults shelf.new) }
    ensures reads { S.read_faults shelf.new ≡ S.read_faults shelf.old }
{
    for put in puts {
        let FilePut { name, bytes } = put;
        shelf.put(name.as_str(), bytes.into_vec())?;
    }
    Ok(())
}

#[cfg(test)]
mod tests;
