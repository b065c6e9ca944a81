//! The bytes of a new tag.
ghost use Rattle.std.specs.Prelude.{◌≡◌, ◌≢◌, ◌<◌, ◌++◌, ◌^◌, List, ℕ, None, true, drop, length, IfOk};
ghost use Rattle.vkb_bytes.specs.Bytes.{begins};
ghost use Rattle.vu_tags.specs.Lines.{unfed};
ghost use Rattle.vu_tags.specs.Tagged.{Names, TellsPages, parameter_front, parameter_of, piece_of, word_run};
ghost use Rattle.vu_tags.specs.Progress.{api_of, page_after};
ghost use Rattle.doc_cond.specs.declared.CondFault.TheVariants.{Memory as OutOfMemory};

use crate::lines::unfed;
use crate::search::{place_of, word_run_len};
use crate::tags::TAG_FRONT;
use doc_cond::{CondFault, LineKind, kind_of};
use std::alloc::{AllocError, Global};
use vkb_bytes::{Bytes, Memory};

const PARAMETER_FRONT: &[u8] = b"pname:";

/// The run of letters, digits and `_` behind the `pname:` that a text begins with.
fn word_behind(text: &[u8]) -> &[u8]
    requires { begins text.now parameter_front ≡ true }
    ensures { result.now ≡ word_run (drop (length parameter_front) text.now) }
{
    let behind = &text[PARAMETER_FRONT.len()..];
    let len = word_run_len(behind);
    &behind[..len]
}

/// The first parameter of a statement, else `None`.
pub(crate) fn parameter_of(statement: &[u8]) -> &[u8]
    ensures { result.now ≡ parameter_of statement.now }
{
    let mut at = 0;
    while let Some(step) = place_of(&statement[at..], PARAMETER_FRONT) {
        let place = at + step;
        let word = word_behind(&statement[place..]);
        if !word.is_empty() {
            return word;
        }
        at = place + 1;
    }
    b"None"
}

fn digit_of(number: u32, power: u32) -> u8
    requires { 0 < power }
    ensures { result ≡ Rattle.vu_tags.specs.Tagged.digit_of number power }
{
    b'0' + (number / power % 10) as u8
}

/// Puts a new tag behind a text, with a line feed and four spaces behind it.
#[tactic(auto, unfolding(crate::specs::Tagged::piece_of, crate::specs::Tagged::five_digits))]
pub(crate) fn put_piece(
    text: &mut Vec<u8>,
    page: &[u8],
    parameter: &[u8],
    number: u32,
) -> Result<(), AllocError>
    ensures { IfOk result (λ _. text.new.items ≡ text.old.items ++ piece_of page.now parameter.now number) }
{
    let digits = [
        digit_of(number, 10_000),
        digit_of(number, 1_000),
        digit_of(number, 100),
        digit_of(number, 10),
        digit_of(number, 1),
    ];
    text.extend_from_slice(TAG_FRONT)?;
    text.extend_from_slice(page)?;
    text.extend_from_slice(b"-")?;
    text.extend_from_slice(parameter)?;
    text.extend_from_slice(b"-")?;
    text.extend_from_slice(&digits)?;
    text.extend_from_slice(b"]]\n    ")
}

/// The page that a line of a kind includes, if it includes one.
fn api_of(kind: LineKind) -> Option<Bytes>
    ensures { result ≡ api_of kind }
{
    match kind {
        LineKind::Api { name } => Some(name),
        _ => None,
    }
}

/// No page for a line that has no kind.
fn no_page(fault: CondFault) -> Result<Option<Bytes>, Memory>
    ensures { IfOk result (λ page. (page ≡ None) × (fault ≢ OutOfMemory)) }
{
    match fault {
        CondFault::Memory => Err(Memory),
        _ => Ok(None),
    }
}

/// The page whose generated file a line includes, if it includes one.
fn page_in(alloc: Global, line: &[u8]) -> Result<Option<Bytes>, Memory>
    requires { length line.now < 2 ^ 32 }
    ensures { IfOk result (λ page. (names : Names) → TellsPages names → names (unfed line.now) ≡ page) }
{
    // `kind_of` takes memory, and most lines include nothing.
    if !line.starts_with(b"include::") {
        return Ok(None);
    }
    match kind_of(alloc, unfed(line)) {
        Ok(kind) => Ok(api_of(kind)),
        Err(fault) => no_page(fault),
    }
}

/// The page behind a line, where `page` is the one before it.
pub(crate) fn page_after(alloc: Global, page: Bytes, line: &[u8]) -> Result<Bytes, Memory>
    requires { length line.now < 2 ^ 32 }
    ensures { IfOk result (λ next. (names : Names) → TellsPages names → next ≡ page_after names page line.now) }
{
    match page_in(alloc, line)? {
        Some(next) => Ok(next),
        None => Ok(page),
    }
}
