//! What is said of pointers, and of members that tell the length of others.
ghost use Rattle.std.specs.Prelude.{◌≡◌, ◌<◌, ◌++◌, codes, length, IfOk, OnOk};
ghost use Rattle.vu_implicit.specs.Pointers.{array_length, array_text, pointer, points_to, unless_null};

use crate::lengths::Lengths;
use crate::parameters::{is_plain, say_alone};
use crate::statement::Statement;
use crate::wording::{link, name_of, say, worded, worded_twice};
use reg_registry::{Member, Registry, Row};
use std::alloc::Global;
use vkb_bytes::Memory;

/// What a statement on an optional pointer begins with.
fn unless_null(alloc: Global, m: &Member) -> Result<Vec<u8>, Memory>
    ensures { IfOk result (λ text. text.items ≡ unless_null m.now) }
{
    if m.optional {
        worded(alloc, b"If pname:", m.name.as_slice(), b" is not `NULL`, ")
    } else {
        Ok(Vec::new(alloc))
    }
}

/// What a pointer points to: a string, an array, or one of its type.
fn points_to(
    alloc: Global,
    r: &Registry,
    lengths: &Lengths,
    declared: &Row,
    m: &Member,
) -> Result<Vec<u8>, Memory>
    requires { m.now.base.0 < length r.now.names }
    ensures { IfOk result (λ text. text.items ≡ points_to r.now lengths.now declared.now m.now) }
{
    let of = m.name.as_slice();
    if m.len.as_slice() == b"null-terminated".as_slice() {
        return worded(alloc, b"pname:", of, b" must: be a null-terminated string");
    }
    let link = link(alloc, declared.kind, name_of(r, m.base))?;
    if lengths.has_length(m) {
        array_text(alloc, of, m.len.as_slice(), link.as_slice())
    } else {
        one_text(alloc, of, link.as_slice())
    }
}

/// That a member points to one thing.
fn one_text(alloc: Global, of: &[u8], link: &[u8]) -> Result<Vec<u8>, Memory>
    ensures { IfOk result (λ text. text.items ≡ codes "pname:" ++ of.now ++ codes " must: be a valid pointer to " ++ link.now) }
{
    let mut text = worded(alloc, b"pname:", of, b" must: be a valid pointer to ")?;
    text.extend_from_slice(link)?;
    Ok(text)
}

/// That a member points to an array, of so many as another member says.
fn array_text(alloc: Global, of: &[u8], len: &[u8], link: &[u8]) -> Result<Vec<u8>, Memory>
    ensures { IfOk result (λ text. text.items ≡ array_text of.now len.now link.now) }
{
    let must = b" must: be a valid pointer to an array of pname:";
    let mut text = worded_twice(alloc, b"pname:", of, must, len, b" ")?;
    text.extend_from_slice(link)?;
    Ok(text)
}

/// Of a pointer.
pub(crate) fn say_pointer(
    said: &mut Vec<Statement>,
    r: &Registry,
    owner: &[u8],
    lengths: &Lengths,
    declared: &Row,
    m: &Member,
) -> Result<(), Memory>
    requires { m.now.base.0 < length r.now.names }
    ensures { OnOk result (said.new.items ≡ said.old.items ++ pointer r.now owner.now lengths.now declared.now m.now) }
{
    if m.stars > 0 {
        let alloc = *said.allocator();
        let mut text = unless_null(alloc, m)?;
        let what = points_to(alloc, r, lengths, declared, m)?;
        text.extend_from_slice(what.as_slice())?;
        say(said, owner, m.name.as_slice(), b"parameter", text)?;
    }
    Ok(())
}

/// Of a member that tells the length of another.
pub(crate) fn say_array_length(
    said: &mut Vec<Statement>,
    owner: &[u8],
    lengths: &Lengths,
    m: &Member,
) -> Result<(), Memory>
    ensures { OnOk result (said.new.items ≡ said.old.items ++ array_length owner.now lengths.now m.now) }
{
    if is_plain(m) && !m.optional && lengths.is_length(m) {
        say_alone(
            said,
            owner,
            m,
            b"arraylength",
            b" must: be greater than `0`",
        )?;
    }
    Ok(())
}
