//! What is asked of the document of a root, over the registry of a file or over none: the registry is read, then the document, and then
//! the command tells of both.
ghost use Rattle.std.specs.Prelude.{◌≡◌, List, ℕ, [], Option, Some, IfOk, IfSome};
ghost use Rattle.doc_tree.specs.Loaded.{IsLoaded, flat_of};
ghost use Rattle.vkb_tool.specs.Answer.{CountsReading, IsRequestStatus, effect_of};
ghost use Rattle.vkb_tool.specs.Asked.{TellsFor, TellsOver, request_of};
ghost use Rattle.vkb_tool.specs.Check.{Carries, IsOwn};

use crate::answer::{Answer, Trouble, refuse, refuse_registry};
use crate::registry::{Unread, read_registry};
use crate::{Memory, build, check};
use doc_tree::{Document, files_have_sources, load};
use lift_check::free_options;
use reg_reader::one_answer;
use reg_registry::Registry;
use reg_rows::answers_are_one;
use std::alloc::Global;
use vkb_bytes::{Bytes, Listed, Text as FileName};
use vkb_outside::Shelf;
use vkb_text::Text;

/// How many bytes all texts of a call may have.
const MOST_TEXT: u32 = 268_435_456;

/// What is asked of a document.
#[derive(Debug, Drop)]
pub enum Task {
    /// A verdict on its links.
    Check,
    /// The text that is built of it at the choice of these options.
    Build { names: Listed<Bytes> },
}

/// Answers what is asked of the document of a root that the shelf holds, where some names of conditions are always set, over the
/// registry of a file for an API, or over none.
pub fn answer_on<S: Shelf>(
    alloc: Global,
    shelf: &mut S,
    task: &Task,
    registry: &Option<FileName>,
    root: &str,
    api: &[u8],
    always: &[Bytes],
) -> Result<Answer, Trouble>
    ensures outcome { IfOk result (λ answer. IfSome (S.holds shelf.old) (λ files. Carries (request_of task.now registry.now root.now api.now always.now) files (effect_of answer))) }
    ensures status { IfOk result (λ answer. IsRequestStatus answer.status) }
    ensures unput { IfOk result (λ answer. answer.puts ≡ []) }
    ensures counted { CountsReading (S.read_faults shelf.old) (S.read_faults shelf.new) result }
    ensures kept { S.holds shelf.new ≡ S.holds shelf.old }
    ensures puts { S.put_faults shelf.new ≡ S.put_faults shelf.old }
{
    match registry {
        Some(file) => answer_over(alloc, shelf, task, file.as_str(), root, api, always),
        None => {
            let none: Option<Registry> = None;
            answer_with(alloc, shelf, task, &none, root, always)
        }
    }
}

/// Answers it over the registry of a file.
fn answer_over<S: Shelf>(
    alloc: Global,
    shelf: &mut S,
    task: &Task,
    file: &str,
    root: &str,
    api: &[u8],
    always: &[Bytes],
) -> Result<Answer, Trouble>
    ensures outcome { IfOk result (λ answer. IfSome (S.holds shelf.old) (λ files. Carries (request_of task.now (Some file.now) root.now api.now always.now) files (effect_of answer))) }
    ensures status { IfOk result (λ answer. IsRequestStatus answer.status) }
    ensures unput { IfOk result (λ answer. answer.puts ≡ []) }
    ensures counted { CountsReading (S.read_faults shelf.old) (S.read_faults shelf.new) result }
    ensures kept { S.holds shelf.new ≡ S.holds shelf.old }
    ensures puts { S.put_faults shelf.new ≡ S.put_faults shelf.old }
{
    match read_registry(alloc, shelf, file, api) {
        Ok(registry) => {
            let own = Some(registry);
            answer_with(alloc, shelf, task, &own, root, always)
        }
        Err(Unread::Faulty(fault)) => Ok(refuse_registry(alloc, file, api, &fault)?),
        Err(Unread::Troubled(trouble)) => Err(trouble),
    }
}

/// Answers it over the registry that was read, or over none.
fn answer_with<S: Shelf>(
    alloc: Global,
    shelf: &mut S,
    task: &Task,
    own: &Option<Registry>,
    root: &str,
    always: &[Bytes],
) -> Result<Answer, Trouble>
    ensures outcome { IfOk result (λ answer. IfSome (S.holds shelf.old) (λ files. (registry : Option (List ℕ)) (api : List ℕ)
        → IsOwn files registry api own.now → Carries (request_of task.now registry root.now api always.now) files (effect_of answer))) }
    ensures status { IfOk result (λ answer. IsRequestStatus answer.status) }
    ensures unput { IfOk result (λ answer. answer.puts ≡ []) }
    ensures counted { CountsReading (S.read_faults shelf.old) (S.read_faults shelf.new) result }
    ensures kept { S.holds shelf.new ≡ S.holds shelf.old }
    ensures puts { S.put_faults shelf.new ≡ S.put_faults shelf.old }
{
    // Something is found under each name, so that the definitions speak of these files.
    files_have_sources();
    // And what is no registry is never one.
    one_answer();
    answers_are_one();
    let mut text = Text::new(alloc, MOST_TEXT);
    match load(alloc, shelf, &mut text, root) {
        Ok(document) => Ok(tell_over(alloc, task, &text, &document, own, always)?),
        Err(fault) => refuse(alloc, &fault),
    }
}

/// What is told of a document whose walk has no fault, over the registry that was read or, where there is none, over the bare one of
/// its names.
fn tell_over(
    alloc: Global,
    task: &Task,
    text: &Text,
    document: &Document,
    own: &Option<Registry>,
    always: &[Bytes],
) -> Result<Answer, Memory>
    requires { IsLoaded text.now.bytes document.now }
    ensures told { IfOk result (λ answer. TellsOver task.now always.now own.now (flat_of text.now.bytes document.now) (effect_of answer)) }
    ensures status { IfOk result (λ answer. IsRequestStatus answer.status) }
    ensures unput { IfOk result (λ answer. answer.puts ≡ []) }
{
    match own {
        Some(registry) => tell(alloc, task, text, document, registry, always),
        None => {
            let bare = free_options(alloc, document, always)?;
            tell(alloc, task, text, document, &bare, always)
        }
    }
}

/// What is told of such a document over a registry, by what is asked.
fn tell(
    alloc: Global,
    task: &Task,
    text: &Text,
    document: &Document,
    registry: &Registry,
    always: &[Bytes],
) -> Result<Answer, Memory>
    requires { IsLoaded text.now.bytes document.now }
    ensures told { IfOk result (λ answer. TellsFor task.now always.now registry.now (flat_of text.now.bytes document.now) (effect_of answer)) }
    ensures status { IfOk result (λ answer. IsRequestStatus answer.status) }
    ensures unput { IfOk result (λ answer. answer.puts ≡ []) }
{
    match task {
        Task::Check => check::tell(alloc, text, document, registry, always),
        Task::Build { names } => {
            build::tell(alloc, text, document, registry, always, names.as_slice())
        }
    }
}
