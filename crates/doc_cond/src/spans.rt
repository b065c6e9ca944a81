//! Cutting a line into its parts.
ghost use Rattle.std.specs.Prelude.{◌≡◌, ◌↔◌, ◌&&◌, ◌||◌, ◌==◌, [], ◌∷◌, ◌++◌, ◌≤◌, List, ℕ, length, false, IsTrue, IfNone, IfSome};
ghost use Rattle.std.specs.List.{list_all, prefix_len};
ghost use Rattle.vkb_bytes.specs.Bytes.{begins, is_letter, is_word_byte};
ghost use Rattle.doc_cond.specs.Lines.{IsPart, bare, is_blank, is_end_blank, is_name_byte, is_path_byte, is_run, lacks};

use vkb_bytes::{is_letter, is_word_byte};

fn is_end_blank(byte: u8) -> bool
    ensures { result ≡ is_end_blank byte }
{
    matches!(byte, b' ' | b'\t' | b'\r')
}

pub(crate) fn bare(line: &[u8]) -> &[u8]
    ensures { result.now ≡ bare line.now }
{
    let mut end = line.len();
    while end > 0 && is_end_blank(line[end - 1]) {
        end -= 1;
    }
    &line[..end]
}

pub(crate) fn begins(line: &[u8], word: &[u8]) -> bool
    ensures { result ≡ begins line.now word.now }
{
    line.starts_with(word)
}

/// What follows a word at the line's front.
pub(crate) fn after<'a>(line: &'a [u8], word: &[u8]) -> Option<&'a [u8]>
    ensures found { IfSome result (λ rest. line.now ≡ word.now ++ rest.now) }
    ensures none { IfNone result (begins line.now word.now ≡ false) }
{
    if begins(line, word) {
        Some(&line[word.len()..])
    } else {
        None
    }
}

/// What stands before and after the first place of a byte.
pub(crate) fn cut(text: &[u8], byte: u8) -> Option<(&[u8], &[u8])>
    ensures found { IfSome result (λ parts. (text.now ≡ parts.0.now ++ byte ∷ parts.1.now) × IsTrue (lacks parts.0.now byte)) }
    ensures none { IfNone result (IsTrue (lacks text.now byte)) }
{
    for (place, found) in text.iter().enumerate() {
        if *found == byte {
            return Some((&text[..place], &text[place + 1..]));
        }
    }
    None
}

/// What stands before the last byte, where that is this one.
pub(crate) fn before_last(text: &[u8], byte: u8) -> Option<&[u8]>
    ensures found { IfSome result (λ front. text.now ≡ front.now ++ byte ∷ []) }
    ensures none { IfNone result ((front : List ℕ) → ¬ (text.now ≡ front ++ byte ∷ [])) }
{
    let (last, front) = text.split_last()?;
    if *last == byte { Some(front) } else { None }
}

pub(crate) fn lacks(bytes: &[u8], byte: u8) -> bool
    ensures { result ≡ lacks bytes.now byte }
{
    bytes.iter().all(|found| *found != byte)
}

/// How many bytes at the front are spaces and tabs.
pub(crate) fn gap_len(text: &[u8]) -> usize
    ensures within { result ≤ length text.now }
    ensures value { result ≡ prefix_len is_blank text.now }
{
    let mut len = 0;
    while len < text.len() && matches!(text[len], b' ' | b'\t') {
        len += 1;
    }
    len
}

fn all_letters(bytes: &[u8]) -> bool
    ensures { result ≡ list_all is_letter bytes.now }
{
    bytes.iter().all(|byte| is_letter(*byte))
}

fn all_word_bytes(bytes: &[u8]) -> bool
    ensures { result ≡ list_all is_word_byte bytes.now }
{
    bytes.iter().all(|byte| is_word_byte(*byte))
}

fn all_name_bytes(bytes: &[u8]) -> bool
    ensures { result ≡ list_all is_name_byte bytes.now }
{
    bytes
        .iter()
        .all(|byte| is_word_byte(*byte) || *byte == b'-')
}

fn all_path_bytes(bytes: &[u8]) -> bool
    ensures { result ≡ list_all is_path_byte bytes.now }
{
    bytes.iter().all(|byte| is_word_byte(*byte) || *byte == b'-' || *byte == b'.')
}

pub(crate) fn are_letters(bytes: &[u8]) -> bool
    ensures { result ≡ is_run is_letter bytes.now }
{
    !bytes.is_empty() && all_letters(bytes)
}

pub(crate) fn is_word(bytes: &[u8]) -> bool
    ensures { result ≡ is_run is_word_byte bytes.now }
{
    !bytes.is_empty() && all_word_bytes(bytes)
}

/// Whether the bytes are a name as conditions have it: one or more letters, digits, `_` and `-`. It takes no memory.
pub fn is_name(bytes: &[u8]) -> bool
    ensures { result ≡ is_run is_name_byte bytes.now }
{
    !bytes.is_empty() && all_name_bytes(bytes)
}

fn is_path_run(bytes: &[u8]) -> bool
    ensures { result ≡ is_run is_path_byte bytes.now }
{
    !bytes.is_empty() && all_path_bytes(bytes)
}

pub(crate) fn same(left: &[u8], right: &[u8]) -> bool
    ensures { IsTrue result ↔ (left.now ≡ right.now) }
{
    left == right
}

pub(crate) fn is_part(bytes: &[u8]) -> bool
    ensures { IsTrue result ↔ IsPart bytes.now }
{
    is_path_run(bytes) && !same(bytes, b".") && !same(bytes, b"..")
}
