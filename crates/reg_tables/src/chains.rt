//! Where chains of places end.
ghost use Rattle.std.specs.Prelude.{◌≡◌, ◌+◌, ◌<◌, ℕ, List, Option, Some, All, IfOk, IfSome, length, map, slice_index_or};
ghost use Rattle.std.specs.List.{range_with_len};
ghost use Rattle.reg_tables.specs.Chains.{AreEndsReached, AreLeaders, AreReached, Grow, IsLedBack, IsReached};
ghost use Rattle.reg_tables.specs.Places.{last_place_in};

use std::alloc::Global;
use vkb_bytes::Memory;

/// The places that lead to each place, as lists that are linked by place: the greatest that leads to it, and from each the next
/// smaller one that leads to the same.
#[derive(Drop)]
struct Leaders<'a> {
    next: &'a [Option<usize>],
    greatest: Vec<Option<usize>>,
    smaller: Vec<Option<usize>>,
}

/// The last place of the chain that begins at each place, where each place leads to at most one other, and `None` where the
/// chain never ends. The time is linear in the number of places.
pub(crate) fn last_places(
    alloc: Global,
    next: &[Option<usize>],
) -> Result<Vec<Option<usize>>, Memory>
    requires { All (λ place. IfSome place (λ p. p < length next.now)) next.now }
    ensures lasts { IfOk result (λ lasts. lasts.items ≡ map (last_place_in (length next.now + 1) next.now) (range_with_len 0 (length next.now))) }
    ensures within { IfOk result (λ lasts. All (λ last. IfSome last (λ p. p < length next.now)) lasts.items) }
{
    let leaders = find_leaders(alloc, next)?;
    let mut lasts = vec![in alloc; None; next.len()]?;
    let mut order = Vec::new(alloc);
    reach_ends(next, &mut lasts, &mut order)?;
    for at in 0..next.len() {
        if at < order.len() {
            reach_leaders(&leaders, order[at], at, &mut lasts, &mut order)?;
        }
    }
    Ok(lasts)
}

/// Who leads to each place.
fn find_leaders<'a>(alloc: Global, next: &'a [Option<usize>]) -> Result<Leaders<'a>, Memory>
    requires { All (λ place. IfSome place (λ p. p < length next.now)) next.now }
    ensures next { IfOk result (λ leaders. leaders.next.now ≡ next.now) }
    ensures leaders { IfOk result (λ leaders. AreLeaders next.now (length next.now) leaders.greatest.items leaders.smaller.items) }
{
    let mut greatest = vec![in alloc; None; next.len()]?;
    let mut smaller = vec![in alloc; None; next.len()]?;
    for (place, to) in next.iter().enumerate() {
        if let Some(to) = to {
            smaller[place] = greatest[*to];
            greatest[*to] = Some(place);
        }
    }
    Ok(Leaders {
        next,
        greatest,
        smaller,
    })
}

/// Reaches the places that lead nowhere.
fn reach_ends(
    next: &[Option<usize>],
    lasts: &mut Vec<Option<usize>>,
    order: &mut Vec<usize>,
) -> Result<(), Memory>
    requires { AreReached next.now lasts.old.items order.old.items }
    ensures reached { IfOk result (λ _. AreReached next.now lasts.new.items order.new.items) }
    ensures ends { IfOk result (λ _. AreEndsReached next.now (length next.now) lasts.new.items) }
{
    for (place, to) in next.iter().enumerate() {
        if to.is_none() {
            reach(place, place, lasts, order)?;
        }
    }
    Ok(())
}

/// Reaches the places that lead to one, which was reached as the one at this place of the order.
fn reach_leaders(
    leaders: &Leaders,
    place: usize,
    at: usize,
    lasts: &mut Vec<Option<usize>>,
    order: &mut Vec<usize>,
) -> Result<(), Memory>
    requires leaders { AreLeaders leaders.now.next.now (length leaders.now.next.now) leaders.now.greatest.items leaders.now.smaller.items }
    requires reached { AreReached leaders.now.next.now lasts.old.items order.old.items }
    requires at { at < length order.old.items }
    requires place { place ≡ slice_index_or order.old.items at 0 }
    ensures grown { IfOk result (λ _. Grow lasts.old.items order.old.items lasts.new.items order.new.items) }
    ensures reached { IfOk result (λ _. AreReached leaders.now.next.now lasts.new.items order.new.items) }
    ensures back { IfOk result (λ _. IsLedBack leaders.now.next.now place lasts.new.items) }
{
    let Some(last) = lasts[place] else {
        return Ok(());
    };
    let mut leader = leaders.greatest[place];
    while let Some(from) = leader {
        reach(from, last, lasts, order)?;
        leader = leaders.smaller[from];
    }
    Ok(())
}

/// Reaches a place whose chain ends in another, if it wasn't reached before.
fn reach(
    place: usize,
    last: usize,
    lasts: &mut Vec<Option<usize>>,
    order: &mut Vec<usize>,
) -> Result<(), Memory>
    requires { place < length lasts.old.items }
    ensures grown { IfOk result (λ _. Grow lasts.old.items order.old.items lasts.new.items order.new.items) }
    ensures here { IfOk result (λ _. IsReached lasts.new.items place) }
    ensures reached { IfOk result (λ _. (next : List (Option ℕ))
        → AreReached next lasts.old.items order.old.items
        → last_place_in (length order.old.items + 1) next place ≡ Some last
        → AreReached next lasts.new.items order.new.items) }
{
    if lasts[place].is_none() {
        lasts[place] = Some(last);
        order.push(place)?;
    }
    Ok(())
}
