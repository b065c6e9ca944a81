//! What follows of a search. The function does nothing, and its clauses are what is proved.
ghost use Rattle.sat_core.specs.Searching.{FollowsFromClauses, FollowsFromDecisions};

use crate::search::Search;
use sat_proof::what_follows_is_true;

/// What a search has found holds wherever the clauses do: a literal that stands under a decision is true in each set of variables that
/// satisfies the clauses and makes the literals decided up to there true, and a clause that was learned is true in each set that satisfies the clauses.
pub fn what_stands_follows(search: &Search<'_>)
    ensures trail { FollowsFromDecisions search.now }
    ensures steps { FollowsFromClauses search.now }
{
    // A read of a field lets the proof use what always holds of a search.
    let _steps = &search.steps;
    what_follows_is_true();
}
