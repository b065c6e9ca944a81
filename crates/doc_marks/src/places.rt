//! The mark that begins at a place of a line.
ghost use Rattle.std.specs.Prelude.{◌≡◌, ◌+◌, ◌^◌, ◌<◌, ◌≤◌, length, IfSome};
ghost use Rattle.doc_marks.specs.Marks.{closed_id_len, macro_len, mark_at, mark_with, IsWithin};

use crate::Mark;
use crate::ids::{id_len, word_len};
use vkb_bytes::is_word_byte;

/// The length of the id that `bytes` begin with, if a comma or `close` follows it, and else 0.
#[tactic(auto, unfolding(crate::specs::Marks::closed_id_len))]
fn closed_id_len(bytes: &[u8], close: &[u8]) -> usize
    ensures value { result ≡ closed_id_len close.now bytes.now }
    ensures within { result ≤ length bytes.now }
{
    let len = id_len(bytes);
    let after = &bytes[len..];
    if after.starts_with(close) || after.starts_with(b",") {
        len
    } else {
        0
    }
}

/// The length of the link macro's name that `bytes` begin with, 0 where they begin with none.
#[tactic(auto, unfolding(crate::specs::Marks::macro_len))]
fn macro_len(bytes: &[u8]) -> usize
    ensures value { result ≡ macro_len bytes.now }
    ensures within { result ≤ length bytes.now }
{
    if bytes.starts_with(b"flink:")
        || bytes.starts_with(b"slink:")
        || bytes.starts_with(b"elink:")
        || bytes.starts_with(b"dlink:")
        || bytes.starts_with(b"tlink:")
    {
        6
    } else if bytes.starts_with(b"reflink:") {
        8
    } else if bytes.starts_with(b"apiext:") {
        7
    } else {
        0
    }
}

/// The mark at `at` whose id has `len` bytes from `from` on, if it has any.
#[tactic(auto, unfolding(crate::specs::Marks::mark_with))]
fn mark_with(anchor: bool, at: usize, from: usize, len: usize) -> Option<Mark>
    requires ordered { at < from }
    requires small { from + len < 2 ^ 32 }
    ensures value { result ≡ mark_with anchor at from len }
    ensures parts { IfSome result
        (λ m. (m.at ≡ at) × (m.from ≡ from) × (m.to ≡ from + len) × (0 < len)) }
{
    if len == 0 {
        return None;
    }
    Some(Mark {
        anchor,
        at: at as u32,
        from: from as u32,
        to: (from + len) as u32,
    })
}

/// The mark that begins at `at`.
#[tactic(auto, unfolding(crate::specs::Marks::mark_at))]
pub fn mark_at(line: &[u8], at: usize) -> Option<Mark>
    requires at_in_line { at ≤ length line.now }
    requires small { length line.now < 2 ^ 32 }
    ensures value { result ≡ mark_at line.now at }
    ensures within { IfSome result (IsWithin line.now) }
{
    let here = &line[at..];
    if at > 0 && line[at - 1] == b'\\' {
        return None;
    }
    if here.starts_with(b"[[") {
        return mark_with(true, at, at + 2, closed_id_len(&here[2..], b"]]"));
    }
    if here.starts_with(b"<<") {
        return mark_with(false, at, at + 2, closed_id_len(&here[2..], b">>"));
    }
    let name = macro_len(here);
    if name == 0 || at > 0 && is_word_byte(line[at - 1]) {
        return None;
    }
    mark_with(false, at, at + name, word_len(&here[name..]))
}
