//! Bytes of characters that stand for themselves are passed many at a time.
ghost use Rattle.std.specs.Prelude.{◌≡◌, ◌+◌, ◌<◌, ◌≤◌, ◌^◌, length};
ghost use Rattle.reg_reader.specs.Markup.{Each};
ghost use Rattle.reg_reader.specs.Machine.{run, Next};
ghost use Rattle.reg_reader.specs.Reading.{state_of, ending_of, is_plain};

use crate::phase::Phase;
use crate::reader::Reader;
use memchr::memchr3;

/// The byte that ends the characters that are being read, where no reference is open in them.
fn ending_of(phase: Phase) -> Option<u8>
    ensures { result ≡ ending_of phase }
{
    match phase {
        Phase::Text(run) if run.reference.is_none() => Some(b'<'),
        Phase::Value(_, quote, run) if run.reference.is_none() => Some(quote),
        _ => None,
    }
}

/// How many bytes at the front of a text stand for themselves, before one that ends it.
fn plain_len(text: &[u8], ending: u8) -> usize
    ensures within { result ≤ length text.now }
    ensures plain { Each text.now (is_plain ending) 0 result }
{
    match memchr3(b'<', b'&', ending, text) {
        Some(end) => end,
        None => text.len(),
    }
}

/// The place up to which bytes stand for themselves, from a place on.
fn plain_end(bytes: &[u8], n: u32, ending: u8) -> u32
    requires within { n ≤ length bytes.now }
    requires small { length bytes.now < 2 ^ 32 }
    ensures order { n ≤ result }
    ensures within { result ≤ length bytes.now }
    ensures plain { Each bytes.now (is_plain ending) n result }
{
    n + plain_len(&bytes[n as usize..], ending) as u32
}

/// The place up to which bytes leave a reader as it is, from a place on.
pub fn passed(reader: &Reader, bytes: &[u8], n: u32) -> u32
    requires within { n ≤ length bytes.now }
    requires small { length bytes.now < 2 ^ 32 }
    ensures order { n ≤ result }
    ensures within { result ≤ length bytes.now }
    ensures same { run 32 bytes.now n ≡ Next (state_of reader.now) → run 32 bytes.now result ≡ Next (state_of reader.now) }
{
    match ending_of(reader.phase) {
        Some(ending) => plain_end(bytes, n, ending),
        None => n,
    }
}
