//! The words that tell of something bad in an element.
ghost use Rattle.std.specs.Prelude.{◌≡◌, ◌++◌, IfOk};
ghost use Rattle.reg_forms.specs.Attributes.{word_if};
ghost use Rattle.reg_forms.specs.Forms.{with_item};
ghost use Rattle.reg_forms.specs.Items.{wrong_at};

use crate::draft::Draft;
use crate::forms::{Fault, RowCode};
use reg_reader::Element;
use std::alloc::Global;
use vkb_bytes::{Bytes, Memory};

/// Puts a word behind others where something is so.
pub(crate) fn put_word_if(
    alloc: Global,
    test: bool,
    word: &[u8],
    words: &mut Vec<Bytes>,
) -> Result<(), Memory>
    ensures { IfOk result (λ _. words.new.items ≡ words.old.items ++ word_if test word.now) }
{
    if test {
        words.push(Bytes::from_slice(alloc, word)?)?;
    }
    Ok(())
}

/// Puts in a fault of an element.
pub(crate) fn put_wrong(
    alloc: Global,
    element: &Element,
    code: RowCode,
    word: &[u8],
    draft: &mut Draft,
) -> Result<(), Memory>
    ensures { IfOk result (λ _. draft.new ≡ with_item draft.old (wrong_at code element.now word.now)) }
{
    let word = Bytes::from_slice(alloc, word)?;
    draft.put_fault(Fault {
        code,
        at: element.place(),
        word,
    })
}
