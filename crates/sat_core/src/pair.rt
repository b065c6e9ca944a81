ghost use Rattle.std.specs.Prelude.{◌≡◌, ◌≢◌, ℕ, ◌+◌, ◌<◌, ◌==◌, if◌then◌else◌, length, take, Some, IfSome, OnOk, OnErr};
ghost use Rattle.sat_cnf.specs.declared.lit.Lit.{Lit};
ghost use Rattle.sat_core.specs.Watching.{IsPairOf, times_in, watches_at};

use sat_cnf::{Lit, Memory};
use sat_watch::Watches;

/// The two different literals at which a clause is watched.
#[derive(Clone, Copy)]
pub struct Pair {
    pub first: Lit,
    pub second: Lit,
}

/// The first literal of a clause and the first that is another, where there are two.
pub(crate) fn first_pair(clause: &[Lit]) -> Option<Pair>
    ensures { IsPairOf clause.now result }
{
    let first = clause.first()?;
    for lit in clause {
        if lit != first {
            return Some(Pair {
                first: *first,
                second: *lit,
            });
        }
    }
    None
}

/// Watches a clause at its two literals, where it has two. An `Err` may leave a watcher behind the lists of the literals, in that of the number
/// `spare`, and all else as it was.
pub(crate) fn watch(
    watches: &mut Watches,
    spare: u32,
    pair: Option<Pair>,
    number: u64,
) -> Result<(), Memory>
    requires lists { length watches.old.lists ≡ spare + 1 }
    requires pair { IfSome pair (λ two. (two.first.0 < spare) × (two.second.0 < spare) × (two.first ≢ two.second)) }
    ensures lists { length watches.new.lists ≡ length watches.old.lists }
    ensures ok { OnOk result ((lit : Lit) (other : ℕ) → lit.0 < spare
        → watches_at watches.new lit other ≡ watches_at watches.old lit other + (if other == number then times_in pair lit else 0)) }
    ensures err { OnErr result (take spare watches.new.lists ≡ take spare watches.old.lists) }
    ensures same { OnErr result ((lit : Lit) (other : ℕ) → lit.0 < spare → watches_at watches.new lit other ≡ watches_at watches.old lit other) }
{
    match pair {
        None => Ok(()),
        Some(two) => watch_two(watches, spare, two, number),
    }
}

/// Watches a clause at two literals.
fn watch_two(watches: &mut Watches, spare: u32, pair: Pair, number: u64) -> Result<(), Memory>
    requires lists { length watches.old.lists ≡ spare + 1 }
    requires first { pair.first.0 < spare }
    requires second { pair.second.0 < spare }
    requires different { pair.first ≢ pair.second }
    ensures lists { length watches.new.lists ≡ length watches.old.lists }
    ensures ok { OnOk result ((lit : Lit) (other : ℕ) → lit.0 < spare
        → watches_at watches.new lit other ≡ watches_at watches.old lit other + (if other == number then times_in (Some pair) lit else 0)) }
    ensures err { OnErr result (take spare watches.new.lists ≡ take spare watches.old.lists) }
    ensures same { OnErr result ((lit : Lit) (other : ℕ) → lit.0 < spare → watches_at watches.new lit other ≡ watches_at watches.old lit other) }
{
    // What was watched stays counted, since each watcher in a list is known.
    watches.each_stands_once();
    let first = watches.attach(spare, number)?;
    let second = watches.attach(spare, number)?;
    watches.move_to(spare, None, second, pair.second.0);
    watches.move_to(spare, None, first, pair.first.0);
    Ok(())
}
