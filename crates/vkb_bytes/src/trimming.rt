//! Texts without needless white bytes.
ghost use Rattle.std.specs.Prelude.{◌≡◌, ◌≤◌, length, IfOk};
ghost use Rattle.vkb_bytes.specs.Trimming.{trim, trim_start, trim_end, begins_white, spaced, collapse};

use crate::classes::is_white;
use crate::lists::Bytes;
use std::alloc::{AllocError, Global};

fn trim_start(text: &[u8]) -> &[u8]
    ensures { result.now ≡ trim_start text.now }
{
    let mut start = 0;
    while start < text.len() && is_white(text[start]) {
        start += 1;
    }
    &text[start..]
}

fn trim_end(text: &[u8]) -> &[u8]
    ensures { result.now ≡ trim_end text.now }
{
    let mut end = text.len();
    while end > 0 && is_white(text[end - 1]) {
        end -= 1;
    }
    &text[..end]
}

/// The text without the white bytes at both ends.
pub fn trim(text: &[u8]) -> &[u8]
    ensures { result.now ≡ trim text.now }
{
    trim_end(trim_start(text))
}

/// The text with one space for each run of white bytes, and then none at its ends.
pub fn collapse(alloc: Global, text: &[u8]) -> Result<Bytes, AllocError>
    ensures { IfOk result (λ bytes. bytes ≡ collapse text.now) }
{
    let made = spaced(alloc, text)?;
    Bytes::from_slice(alloc, trim(made.as_slice()))
}

fn spaced(alloc: Global, text: &[u8]) -> Result<Bytes, AllocError>
    ensures { IfOk result (λ bytes. bytes ≡ spaced text.now) }
{
    let mut made = Vec::with_capacity(alloc, text.len())?;
    for (place, byte) in text.iter().enumerate() {
        if !is_white(*byte) {
            made.push(*byte)?;
        } else if !begins_white(&text[place + 1..]) {
            made.push(b' ')?;
        }
    }
    Ok(Bytes::from_vec(made))
}

fn begins_white(text: &[u8]) -> bool
    ensures { result ≡ begins_white text.now }
{
    match text {
        [first, ..] => is_white(*first),
        [] => false,
    }
}
