//! The runs of a search. Each begins with no decision, and with all that was learned before: so the variables are decided first that count
//! most by now, and no early decision stands for long (Gomes, Selman and Kautz 1998).
ghost use Rattle.std.specs.Prelude.{◌≡◌, ◌<◌, MatchBool};

/// How many conflicts the first run has.
const FIRST_RUN: u64 = 100;

/// How many runs there may be behind the first. So a search ends, and in practice none comes so far.
const MOST_RUNS: u32 = u32::MAX;

/// How far a run has come. Each has half as many conflicts again as the one before.
#[derive(Drop)]
pub(crate) struct Runs {
    /// How many more may begin.
    left: u32,
    /// How many conflicts this one has.
    conflicts: u64,
    /// How many of them are still ahead.
    ahead: u64,
}

impl Runs {
    /// The first run begins.
    pub(crate) fn new() -> Runs {
        Runs {
            left: MOST_RUNS,
            conflicts: FIRST_RUN,
            ahead: FIRST_RUN,
        }
    }

    /// Counts a conflict, and tells whether another run begins behind it.
    pub(crate) fn end_with_conflict(&mut self) -> bool
        ensures { MatchBool result (self.new.left < self.old.left) (self.new.left ≡ self.old.left) }
    {
        self.ahead = self.ahead.saturating_sub(1);
        if self.ahead > 0 || self.left == 0 {
            return false;
        }
        self.left -= 1;
        self.conflicts = self.conflicts.saturating_add(self.conflicts / 2);
        self.ahead = self.conflicts;
        true
    }
}
