//! The names of a condition.
ghost use Rattle.std.specs.Prelude.{◌≡◌, ◌==◌, if◌then◌else◌, Bool, List, ℕ, false, IsTrue, IfOk, MatchOption};
ghost use Rattle.std.specs.List.{list_all, slice_split};
ghost use Rattle.doc_cond.specs.Lines.{AreNames, is_name_byte, is_run, joined};

use crate::spans::{cut, is_name, lacks};
use std::alloc::{AllocError, Global};
use vkb_bytes::Bytes;

/// Names, and whether any of them has to be set or all.
#[derive(Drop)]
pub(crate) struct Names {
    pub(crate) any: bool,
    pub(crate) names: Vec<Bytes>,
}

/// The parts between the separators, or nothing where one of them is no name.
fn parts(alloc: Global, text: &[u8], separator: u8) -> Result<Option<Vec<Bytes>>, AllocError>
    ensures { IfOk result (λ read. let parts = slice_split (λ b. b == separator) text.now in
        MatchOption read (list_all (is_run is_name_byte) parts ≡ false)
        (λ names. (names.items ≡ parts) × IsTrue (list_all (is_run is_name_byte) parts))) }
{
    let mut names = Vec::new(alloc);
    let mut rest = text;
    while let Some((name, more)) = cut(rest, separator) {
        if !is_name(name) {
            return Ok(None);
        }
        names.push(Bytes::from_slice(alloc, name)?)?;
        rest = more;
    }
    if !is_name(rest) {
        return Ok(None);
    }
    names.push(Bytes::from_slice(alloc, rest)?)?;
    Ok(Some(names))
}

/// The names that a text is, or nothing where it is none.
pub(crate) fn names_of(alloc: Global, text: &[u8]) -> Result<Option<Names>, AllocError>
    ensures { IfOk result (λ read. MatchOption read
        ((any : Bool) (names : List (List ℕ)) → AreNames any names → ¬ (text.now ≡ joined any names))
        (λ n. AreNames n.any n.names.items × (text.now ≡ joined n.any n.names.items))) }
{
    let any = lacks(text, b'+');
    let separator = if any { b',' } else { b'+' };
    let Some(names) = parts(alloc, text, separator)? else {
        return Ok(None);
    };
    Ok(Some(Names { any, names }))
}
