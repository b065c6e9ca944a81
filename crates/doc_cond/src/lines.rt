//! The kind of a line, by what it begins with.
ghost use Rattle.std.specs.Prelude.{◌≡◌, ◌+◌, ◌^◌, ◌<◌, ◌++◌, Bool, List, ℕ, false, IsTrue, IfOk, IfSome, IfNone, MatchOption, MatchResult, length, codes};
ghost use Rattle.doc_cond.specs.Lines.{Includes, IsFile, IsPage, IsRefpage, IsSpellingFault, Spells, begins_comment, lacks, opening};

use crate::names::names_of;
use crate::paths::is_path;
use crate::spans::{after, are_letters, before_last, begins, cut, gap_len, is_word, lacks, same};
use crate::{CondFault, LineKind};
use std::alloc::{AllocError, Global};
use vkb_bytes::{Bytes, Listed};

fn opening(negated: bool) -> &'static [u8]
    ensures { result.now ≡ opening negated }
{
    if negated { b"ifndef::" } else { b"ifdef::" }
}

/// The kind of what stands behind `ifdef::` or `ifndef::`.
fn opener(alloc: Global, negated: bool, rest: &[u8]) -> Result<LineKind, CondFault>
    requires { length (opening negated) + length rest.now < 2 ^ 32 }
    ensures { MatchResult result (λ kind. Spells kind (opening negated ++ rest.now)) (IsSpellingFault (opening negated ++ rest.now)) }
{
    let Some((text, tail)) = cut(rest, b'[') else {
        return Err(CondFault::BadCondition);
    };
    let Some(inner) = before_last(tail, b']') else {
        return Err(CondFault::BadCondition);
    };
    let Some(condition) = names_of(alloc, text)? else {
        return Err(CondFault::BadCondition);
    };
    let any = condition.any;
    let names = Listed::from_vec(condition.names);
    if inner.is_empty() {
        return Ok(LineKind::Begin {
            negated,
            any,
            names,
        });
    }
    let from = (opening(negated).len() + text.len()) as u32 + 1;
    Ok(LineKind::OneLine {
        negated,
        any,
        names,
        from,
        to: from + inner.len() as u32,
    })
}

/// The kind of what stands behind `endif::`.
fn closer(alloc: Global, rest: &[u8]) -> Result<LineKind, CondFault>
    ensures { MatchResult result (λ kind. Spells kind (codes "endif::" ++ rest.now)) (IsSpellingFault (codes "endif::" ++ rest.now)) }
{
    let Some((text, tail)) = cut(rest, b'[') else {
        return Err(CondFault::BadCondition);
    };
    if !same(tail, b"]") {
        return Err(CondFault::BadCondition);
    }
    if text.is_empty() {
        return Ok(LineKind::Close {
            any: true,
            names: Listed::from_vec(Vec::new(alloc)),
        });
    }
    let Some(condition) = names_of(alloc, text)? else {
        return Err(CondFault::BadCondition);
    };
    Ok(LineKind::Close {
        any: condition.any,
        names: Listed::from_vec(condition.names),
    })
}

/// The target of `TARGET[ATTRIBUTES]`.
fn target_of(rest: &[u8]) -> Option<&[u8]>
    ensures found { IfSome result (λ target. Includes (λ found. found ≡ target.now) (codes "include::" ++ rest.now)) }
    ensures none { IfNone result ((target : List ℕ) → ¬ Includes (λ found. found ≡ target) (codes "include::" ++ rest.now)) }
{
    let (target, tail) = cut(rest, b'[')?;
    let (_attributes, end) = cut(tail, b']')?;
    if end.is_empty() { Some(target) } else { None }
}

/// The file that a target with this front names in a folder.
fn file_of(
    alloc: Global,
    target: &[u8],
    front: &[u8],
    folder: &[u8],
) -> Result<Option<Bytes>, AllocError>
    ensures { IfOk result (λ read. MatchOption read
        ((file : List ℕ) → ¬ IsFile front.now folder.now file target.now)
        (λ file. IsFile front.now folder.now file target.now)) }
{
    let Some(path) = after(target, front) else {
        return Ok(None);
    };
    if !is_path(path) {
        return Ok(None);
    }
    let mut file = Vec::with_capacity(alloc, folder.len() + path.len())?;
    file.extend_from_slice(folder)?;
    file.extend_from_slice(path)?;
    Ok(Some(Bytes::from_vec(file)))
}

/// The name of the page of a target with this front.
fn page_name<'a>(target: &'a [u8], front: &[u8]) -> Option<&'a [u8]>
    ensures found { IfSome result (λ name. IsPage front.now name.now target.now) }
    ensures none { IfNone result ((name : List ℕ) → ¬ IsPage front.now name target.now) }
{
    let page = after(target, front)?;
    let (kind, file) = cut(page, b'/')?;
    let (name, ending) = cut(file, b'.')?;
    if are_letters(kind) && is_word(name) && same(ending, b"adoc") {
        Some(name)
    } else {
        None
    }
}

/// The kind of what stands behind `include::`.
fn include(alloc: Global, rest: &[u8]) -> Result<LineKind, AllocError>
    ensures { IfOk result (λ kind. Spells kind (codes "include::" ++ rest.now)) }
{
    let Some(target) = target_of(rest) else {
        return Ok(LineKind::Other);
    };
    if let Some(file) = file_of(alloc, target, b"{chapters}/", b"chapters/")? {
        return Ok(LineKind::Chapter { file });
    }
    if let Some(file) = file_of(alloc, target, b"{appendices}/", b"appendices/")? {
        return Ok(LineKind::Chapter { file });
    }
    if let Some(name) = page_name(target, b"{generated}/api/") {
        let name = Bytes::from_slice(alloc, name)?;
        return Ok(LineKind::Api { name });
    }
    if let Some(name) = page_name(target, b"{generated}/validity/") {
        let name = Bytes::from_slice(alloc, name)?;
        return Ok(LineKind::Validity { name });
    }
    Ok(LineKind::Other)
}

/// The name that a refpage line sets.
fn refpage_name(line: &[u8]) -> Option<&[u8]>
    ensures found { IfSome result (λ name. IsRefpage name.now line.now) }
    ensures none { IfNone result ((name : List ℕ) → ¬ IsRefpage name line.now) }
{
    let rest = after(line, b":refpage:")?;
    let gap = gap_len(rest);
    let name = &rest[gap..];
    if gap > 0 && is_word(name) {
        Some(name)
    } else {
        None
    }
}

fn is_comment(line: &[u8]) -> bool
    ensures { result ≡ begins_comment line.now }
{
    begins(line, b"//") && !begins(line, b"///") || begins(line, b"////")
}

/// The kind of a line that ends in no blank.
pub(crate) fn spelled(alloc: Global, line: &[u8]) -> Result<LineKind, CondFault>
    requires { length line.now < 2 ^ 32 }
    ensures { MatchResult result (λ kind. Spells kind line.now) (IsSpellingFault line.now) }
{
    if let Some(rest) = after(line, opening(false)) {
        return opener(alloc, false, rest);
    }
    if let Some(rest) = after(line, opening(true)) {
        return opener(alloc, true, rest);
    }
    if let Some(rest) = after(line, b"endif::") {
        return closer(alloc, rest);
    }
    if begins(line, b"ifeval::") {
        return Err(CondFault::BadCondition);
    }
    if let Some(rest) = after(line, b"include::") {
        return Ok(include(alloc, rest)?);
    }
    if is_comment(line) {
        return Ok(LineKind::Comment);
    }
    if let Some(name) = refpage_name(line) {
        let name = Bytes::from_slice(alloc, name)?;
        return Ok(LineKind::Refpage { name });
    }
    Ok(LineKind::Plain)
}
