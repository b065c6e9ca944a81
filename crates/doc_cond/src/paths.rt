//! Paths of included files.
ghost use Rattle.std.specs.Prelude.{◌↔◌, IsTrue};
ghost use Rattle.doc_cond.specs.Lines.{IsPath};

use crate::spans::{cut, is_part};

pub(crate) fn is_path(text: &[u8]) -> bool
    ensures { IsTrue result ↔ IsPath text.now }
{
    let mut rest = text;
    while let Some((part, more)) = cut(rest, b'/') {
        if !is_part(part) {
            return false;
        }
        rest = more;
    }
    is_part(rest)
}
