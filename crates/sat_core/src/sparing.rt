//! Which literals a learned clause can be spared (Sörensson and Biere 2009): those whose reason has no other literals than the clause has anyway.
ghost use Rattle.std.specs.Prelude.{◌<◌, length};
ghost use Rattle.sat_proof.specs.Refutations.{held_with};
ghost use Rattle.sat_core.specs.Trails.{IsTrail};

use crate::held::held_clause;
use crate::trail::Trail;
use sat_cnf::Clauses;
use sat_proof::Step;

/// How many reasons are looked at behind the first. More would hardly make clauses shorter, and could take long.
pub(crate) const MOST_REASONS: u32 = 2;

/// Whether the entry at a place has a reason whose other literals are all false by entries that are marked or stand under no decision, or that
/// can be spared in turn. No contract rests on the answer: it only makes clauses shorter.
pub(crate) fn is_spared(
    trail: &Trail,
    clauses: &Clauses,
    steps: &[Step],
    marks: &[bool],
    place: usize,
    reasons: u32,
) -> bool
    requires place { place < length trail.now.entries }
    requires trail { IsTrail trail.now.vars (held_with clauses.now.list steps.now) trail.now.entries }
{
    let entry = trail.entries()[place];
    let Some(reason) = entry.reason else {
        return false;
    };
    for lit in held_clause(clauses, steps, reason) {
        if *lit != entry.lit {
            let other = trail.place_of(lit.negation());
            if !is_found(trail, marks, other) {
                if reasons == 0 {
                    return false;
                }
                if !is_spared(trail, clauses, steps, marks, other, reasons - 1) {
                    return false;
                }
            }
        }
    }
    true
}

/// Whether the entry at a place is marked, or stands under no decision.
fn is_found(trail: &Trail, marks: &[bool], place: usize) -> bool
    requires { place < length trail.now.entries }
{
    marks.get(place) == Some(&true) || trail.entries()[place].decision == 0
}
