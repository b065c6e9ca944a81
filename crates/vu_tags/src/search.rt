//! Searches for a text and for runs of bytes.
ghost use Rattle.std.specs.Prelude.{◌≡◌, ◌≤◌, ◌<◌, ℕ, true, false, drop, length, IfNone, IfSome};
ghost use Rattle.std.specs.List.{prefix_len};
ghost use Rattle.vkb_bytes.specs.Bytes.{begins, is_word_byte};
ghost use Rattle.vu_tags.specs.Tags.{is_tag_byte};

use memchr::memmem;
use vkb_bytes::is_word_byte;

/// The first place at which a word stands in a text.
pub(crate) fn place_of(text: &[u8], word: &[u8]) -> Option<usize>
    requires { 0 < length word.now }
    ensures here { IfSome result (λ place. begins (drop place text.now) word.now ≡ true) }
    ensures within { IfSome result (λ place. place < length text.now) }
    ensures before { IfSome result (λ place. (k : ℕ) → k < place → begins (drop k text.now) word.now ≡ false) }
    ensures none { IfNone result ((k : ℕ) → begins (drop k text.now) word.now ≡ false) }
{
    memmem::find(text, word)
}

fn is_tag_byte(byte: u8) -> bool
    ensures { result ≡ is_tag_byte byte }
{
    is_word_byte(byte) || matches!(byte, b'-' | b':' | b'.' | b'{' | b'}')
}

/// How many bytes of a text's front may stand in a tag.
pub(crate) fn tag_run_len(text: &[u8]) -> usize
    ensures within { result ≤ length text.now }
    ensures value { result ≡ prefix_len is_tag_byte text.now }
{
    let mut len = 0;
    while len < text.len() && is_tag_byte(text[len]) {
        len += 1;
    }
    len
}

/// How many bytes of a text's front are letters, digits and `_`.
pub(crate) fn word_run_len(text: &[u8]) -> usize
    ensures within { result ≤ length text.now }
    ensures value { result ≡ prefix_len is_word_byte text.now }
{
    let mut len = 0;
    while len < text.len() && is_word_byte(text[len]) {
        len += 1;
    }
    len
}
