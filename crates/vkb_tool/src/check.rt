//! The command `check`: a verdict on the links of a document.
ghost use Rattle.std.specs.Prelude.{◌≡◌, [], IfOk};
ghost use Rattle.doc_tree.specs.Loaded.{IsLoaded, flat_of};
ghost use Rattle.vkb_tool.specs.Answer.{IsRequestStatus, effect_of};
ghost use Rattle.vkb_tool.specs.Check.{TellsVerdict};
ghost use Rattle.vkb_tool.specs.Outcome.{status_of};

use crate::answer::{Answer, written};
use crate::report::report;
use crate::{Memory, Status};
use doc_build::{marks_at_some_choice, sites_in_order};
use doc_tree::Document;
use lift_check::{Verdict, check_all};
use reg_registry::Registry;
use std::alloc::Global;
use vkb_bytes::Bytes;
use vkb_text::Text;

/// What is told of a document whose walk has no fault, over a registry, where some names are always set: the verdict on its links over all
/// permitted choices.
pub fn tell(
    alloc: Global,
    text: &Text,
    document: &Document,
    registry: &Registry,
    always: &[Bytes],
) -> Result<Answer, Memory>
    requires { IsLoaded text.now.bytes document.now }
    ensures told { IfOk result (λ answer. TellsVerdict always.now registry.now (flat_of text.now.bytes document.now) (effect_of answer)) }
    ensures status { IfOk result (λ answer. IsRequestStatus answer.status) }
    ensures unput { IfOk result (λ answer. answer.puts ≡ []) }
{
    let verdict = check_all(alloc, text, document, registry, always)?;
    // The link that a verdict names is in a line of the document, and the options are few.
    marks_at_some_choice();
    sites_in_order();
    registry.is_sound();
    let output = report(alloc, document, registry.options(), &verdict)?;
    Ok(written(alloc, status_by(&verdict), output))
}

/// The status by which a verdict is told.
fn status_by(verdict: &Verdict) -> Status
    ensures { result ≡ status_of verdict.now }
{
    match verdict {
        Verdict::Yes { .. } => Status::Done,
        Verdict::No { .. } => Status::Broken,
    }
}
