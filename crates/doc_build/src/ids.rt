//! Ids at a choice: the page's name stands in the place of each `{refpage}`.
ghost use Rattle.std.specs.Prelude.{◌≡◌, IfOk};
ghost use Rattle.std.specs.Option.{option_copied};
ghost use Rattle.std.specs.Str.{bytes_eq};
ghost use Rattle.doc_build.specs.Ids.{filled, filled_from};

use crate::Memory;
use std::alloc::Global;

/// The attribute that stands for the page's name.
const REFPAGE: &[u8] = b"{refpage}";

/// Whether a written id is this one, where this is the page, if there is one.
pub(crate) fn is_id(
    alloc: Global,
    page: Option<&[u8]>,
    written: &[u8],
    id: &[u8],
) -> Result<bool, Memory>
    ensures { IfOk result (λ is. is ≡ bytes_eq id.now (filled (option_copied page.entry) written.now)) }
{
    match page {
        Some(page) => {
            let filled = filled(alloc, page, written)?;
            Ok(id == filled.as_slice())
        }
        None => Ok(id == written),
    }
}

/// A written id with the page's name in the place of each `{refpage}`. An `Err` is want of memory.
pub fn filled(alloc: Global, page: &[u8], written: &[u8]) -> Result<Vec<u8>, Memory>
    ensures { IfOk result (λ id. id.items ≡ filled_from page.now 0 written.now) }
{
    let mut id = Vec::new(alloc);
    let mut at = 0;
    while at < written.len() {
        let rest = &written[at..];
        if rest.starts_with(REFPAGE) {
            id.extend_from_slice(page)?;
            at += REFPAGE.len();
        } else {
            id.push(written[at])?;
            at += 1;
        }
    }
    Ok(id)
}
