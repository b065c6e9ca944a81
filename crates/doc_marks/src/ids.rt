//! The ids of anchors and links, as they are written.
ghost use Rattle.std.specs.Prelude.{◌≡◌, ◌≤◌, length, if◌then◌else◌};
ghost use Rattle.std.specs.List.{prefix_len};
ghost use Rattle.vkb_bytes.specs.Bytes.{begins, is_word_byte};
ghost use Rattle.doc_marks.specs.Ids.{id_len, is_id_byte, is_id_start, piece_len, refpage};

use vkb_bytes::is_word_byte;

const REFPAGE: &[u8; 9] = b"{refpage}";

/// Whether a byte may begin an id by itself.
fn is_id_start(byte: u8) -> bool
    ensures { result ≡ is_id_start byte }
{
    is_word_byte(byte) || byte == b':'
}

/// Whether a byte may stand in an id after its first piece by itself.
fn is_id_byte(byte: u8) -> bool
    ensures { result ≡ is_id_byte byte }
{
    is_id_start(byte) || byte == b'-' || byte == b'.'
}

/// The length of the attribute for a page's name if `bytes` begin with it, and else 0.
fn attribute_len(bytes: &[u8]) -> usize
    ensures value { result ≡ (if begins bytes.now refpage then length refpage else 0) }
    ensures within { result ≤ length bytes.now }
{
    if bytes.starts_with(REFPAGE) {
        REFPAGE.len()
    } else {
        0
    }
}

/// The length of the first piece of an id that `bytes` begin with, 0 where they begin with none.
#[tactic(auto, unfolding(crate::specs::Ids::piece_len))]
fn first_piece_len(bytes: &[u8]) -> usize
    ensures value { result ≡ piece_len is_id_start bytes.now }
    ensures within { result ≤ length bytes.now }
{
    match bytes {
        [first, ..] if is_id_start(*first) => 1,
        _ => attribute_len(bytes),
    }
}

/// The length of a later piece of an id that `bytes` begin with, 0 where they begin with none.
#[tactic(auto, unfolding(crate::specs::Ids::piece_len))]
fn later_piece_len(bytes: &[u8]) -> usize
    ensures value { result ≡ piece_len is_id_byte bytes.now }
    ensures within { result ≤ length bytes.now }
{
    match bytes {
        [first, ..] if is_id_byte(*first) => 1,
        _ => attribute_len(bytes),
    }
}

/// The length of the longest id that `bytes` begin with, 0 where they begin with none.
pub fn id_len(bytes: &[u8]) -> usize
    ensures value { result ≡ id_len bytes.now }
    ensures within { result ≤ length bytes.now }
{
    let mut len = 0;
    let mut piece = first_piece_len(bytes);
    while piece > 0 {
        len += piece;
        piece = later_piece_len(&bytes[len..]);
    }
    len
}

/// How many letters, digits and `_` `bytes` begin with.
pub fn word_len(bytes: &[u8]) -> usize
    ensures value { result ≡ prefix_len is_word_byte bytes.now }
    ensures within { result ≤ length bytes.now }
{
    let mut len = 0;
    while len < bytes.len() && is_word_byte(bytes[len]) {
        len += 1;
    }
    len
}
