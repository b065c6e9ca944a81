//! The clauses of a search: those that were given, and behind them those that were learned.
ghost use Rattle.std.specs.Prelude.{◌≡◌, ◌<◌, length, All};
ghost use Rattle.sat_cnf.specs.Clauses.{IsWithin};
ghost use Rattle.sat_proof.specs.Refutations.{AreWithin, held_with, hinted};

use sat_cnf::{Clauses, Lit};
use sat_proof::Step;

/// The clause of a number.
pub(crate) fn held_clause<'a>(clauses: &'a Clauses, steps: &'a [Step], number: u64) -> &'a [Lit]
    requires { number < length (held_with clauses.now.list steps.now) }
    ensures clause { result.now ≡ hinted (held_with clauses.now.list steps.now) number }
    ensures within { AreWithin clauses.now.vars steps.now → All (IsWithin clauses.now.vars) result.now }
{
    if number < clauses.len() {
        clauses.clause(number)
    } else {
        steps[(number - clauses.len()) as usize].clause.as_slice()
    }
}
