//! Openers that wait for their closers.
ghost use Rattle.std.specs.Prelude.{◌≡◌, ◌↔◌, ◌+◌, ◌^◌, ◌<◌, [], IsTrue, MatchResult, length};
ghost use Rattle.doc_cond.specs.Nesting.{IsFirstFault, Repeats, closes_at, is_closer, is_opener, opens_at};
ghost use Rattle.doc_cond.specs.Progress.{Nests};

use crate::spans::same;
use crate::{CondFault, LineKind};
use std::alloc::Global;
use vkb_bytes::Bytes;

/// How many conditionals may be open at once.
const MAX_OPEN: usize = 64;

/// The openers so far, each with the line of its closer or 0, and the places in that list of those that wait.
#[derive(Drop)]
pub(crate) struct Nest {
    pub(crate) pairs: Vec<(u32, u32)>,
    pub(crate) waiting: Vec<usize>,
}

fn same_names(left: &[Bytes], right: &[Bytes]) -> bool
    ensures { IsTrue result ↔ (left.now ≡ right.now) }
{
    if left.len() != right.len() {
        return false;
    }
    for (place, name) in left.iter().enumerate() {
        if !same(name.as_slice(), right[place].as_slice()) {
            return false;
        }
    }
    true
}

fn repeats(opener: &LineKind, closer: &LineKind) -> bool
    ensures { IsTrue result ↔ Repeats opener.now closer.now }
{
    match (opener, closer) {
        (
            LineKind::Begin { any, names, .. },
            LineKind::Close {
                any: closed,
                names: repeated,
            },
        ) => {
            repeated.as_slice().is_empty()
                || closed == any && same_names(repeated.as_slice(), names.as_slice())
        }
        _ => false,
    }
}

fn is_opener(kind: &LineKind) -> bool
    ensures { result ≡ is_opener kind.now }
{
    matches!(kind, LineKind::Begin { .. })
}

fn is_closer(kind: &LineKind) -> bool
    ensures { result ≡ is_closer kind.now }
{
    matches!(kind, LineKind::Close { .. })
}

impl Nest {
    pub(crate) fn new(alloc: Global) -> Nest
        ensures pairs { result.pairs.items ≡ [] }
        ensures waiting { result.waiting.items ≡ [] }
    {
        Nest {
            pairs: Vec::new(alloc),
            waiting: Vec::new(alloc),
        }
    }

    /// Passes an opener.
    fn open(&mut self, kinds: &[LineKind], line: usize) -> Result<(), CondFault>
        requires within { line < length kinds.now }
        requires small { length kinds.now < 2 ^ 32 }
        requires opens { IsTrue (opens_at kinds.now line) }
        requires nests { Nests kinds.now line self.old.pairs.items self.old.waiting.items }
        ensures { MatchResult result (λ _. Nests kinds.now (line + 1) self.new.pairs.items self.new.waiting.items) (IsFirstFault kinds.now) }
    {
        if self.waiting.len() >= MAX_OPEN {
            return Err(CondFault::CondDepth { line: line as u32 });
        }
        let slot = self.pairs.len();
        self.pairs.push((line as u32, 0))?;
        self.waiting.push(slot)?;
        Ok(())
    }

    /// Passes a closer.
    fn close(&mut self, kinds: &[LineKind], line: usize) -> Result<(), CondFault>
        requires within { line < length kinds.now }
        requires small { length kinds.now < 2 ^ 32 }
        requires closes { IsTrue (closes_at kinds.now line) }
        requires nests { Nests kinds.now line self.old.pairs.items self.old.waiting.items }
        ensures { MatchResult result (λ _. Nests kinds.now (line + 1) self.new.pairs.items self.new.waiting.items) (IsFirstFault kinds.now) }
    {
        let Some(slot) = self.waiting.pop() else {
            return Err(CondFault::Unbalanced { line: line as u32 });
        };
        let opener = self.pairs[slot].0;
        if !repeats(&kinds[opener as usize], &kinds[line]) {
            return Err(CondFault::Unbalanced { line: line as u32 });
        }
        self.pairs[slot] = (opener, line as u32);
        Ok(())
    }

    /// Passes a line.
    pub(crate) fn pass(&mut self, kinds: &[LineKind], line: usize) -> Result<(), CondFault>
        requires within { line < length kinds.now }
        requires small { length kinds.now < 2 ^ 32 }
        requires nests { Nests kinds.now line self.old.pairs.items self.old.waiting.items }
        ensures { MatchResult result (λ _. Nests kinds.now (line + 1) self.new.pairs.items self.new.waiting.items) (IsFirstFault kinds.now) }
    {
        if is_opener(&kinds[line]) {
            return self.open(kinds, line);
        }
        if is_closer(&kinds[line]) {
            return self.close(kinds, line);
        }
        Ok(())
    }
}
