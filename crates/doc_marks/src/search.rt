//! The search for the next mark of a line.
ghost use Rattle.std.specs.Prelude.{◌≡◌, ℕ, ◌+◌, ◌^◌, ◌<◌, ◌≤◌, [], ◌∷◌, ◌++◌, length, slice_index, option_to_list, IfNone, IfSome};
ghost use Rattle.doc_marks.specs.Marks.{marks_from, IsWithin};
ghost use Rattle.doc_marks.specs.Search.{IsNextMarkByte};

use crate::Mark;
use crate::places::mark_at;
use memchr::memchr3;

/// A mark of a line, and the place that all later marks begin at or after.
pub struct Found {
    pub mark: Mark,
    pub after: usize,
}

/// The mark of the link macro whose name ends at `colon`, the first `[`, `<` or `:` from `scan` on. A macro's name has five
/// to seven letters.
fn macro_before(line: &[u8], scan: usize, colon: usize) -> Option<Mark>
    requires next { IsNextMarkByte line.now scan colon }
    requires is_colon { slice_index line.now colon ≡ 58 }
    requires small { length line.now < 2 ^ 32 }
    ensures value { marks_from line.now scan ≡ option_to_list result ++ marks_from line.now (colon + 1) }
    ensures within { IfSome result (IsWithin line.now) }
{
    for letters in 5..8 {
        if letters <= colon - scan {
            if let Some(mark) = mark_at(line, colon - letters) {
                return Some(mark);
            }
        }
    }
    None
}

/// The one mark from `scan` on that begins at `place` or before it, where `place` has the first `[`, `<` or `:`: only a mark
/// with that byte can begin there.
fn mark_by(line: &[u8], scan: usize, place: usize) -> Option<Mark>
    requires next { IsNextMarkByte line.now scan place }
    requires small { length line.now < 2 ^ 32 }
    ensures value { marks_from line.now scan ≡ option_to_list result ++ marks_from line.now (place + 1) }
    ensures within { IfSome result (IsWithin line.now) }
{
    if line[place] == b':' {
        macro_before(line, scan, place)
    } else {
        mark_at(line, place)
    }
}

/// The first mark at `scan` or after it.
pub fn next_mark(line: &[u8], mut scan: usize) -> Option<Found>
    requires scan_in_line { scan ≤ length line.now }
    requires small { length line.now < 2 ^ 32 }
    ensures none { IfNone result (marks_from line.now scan ≡ []) }
    ensures some { IfSome result
        (λ f. marks_from line.now scan ≡ f.mark ∷ marks_from line.now f.after) }
    ensures after_in_line { IfSome result (λ f. f.after ≤ length line.now) }
    ensures within { IfSome result (λ f. IsWithin line.now f.mark) }
{
    while let Some(step) = memchr3(b'[', b'<', b':', &line[scan..]) {
        let place = scan + step;
        if let Some(mark) = mark_by(line, scan, place) {
            return Some(Found {
                mark,
                after: place + 1,
            });
        }
        scan = place + 1;
    }
    None
}
