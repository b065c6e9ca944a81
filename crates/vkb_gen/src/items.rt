//! The items of a sample, and who their parents are.
ghost use Rattle.std.specs.Prelude.{◌≡◌, ◌+◌, ◌<◌, ◌≤◌, ℕ, IfOk};
ghost use Rattle.vkb_gen.specs.Draws.{state_after};
ghost use Rattle.vkb_gen.specs.Items.{draws_before, items_of, parents_of};

use crate::draws::Draws;
use std::alloc::Global;
use vkb_bytes::Memory;

/// The numbers of an item's parents. A struct points to the first, and an extension asks for all.
#[derive(Clone, Copy)]
pub(crate) enum Parents {
    Nobody,
    One(u32),
    Two(u32, u32),
}

/// A struct and the extension that requires it, by their number.
#[derive(Clone, Copy)]
pub(crate) struct Item {
    pub(crate) number: u32,
    pub(crate) parents: Parents,
}

/// The items of a sample, in order.
pub(crate) fn items_of(alloc: Global, seed: u64, size: u32) -> Result<Vec<Item>, Memory>
    requires { size ≤ 2000 }
    ensures { IfOk result (λ items. items.items ≡ items_of seed size) }
{
    let mut items = Vec::with_capacity(alloc, size as usize)?;
    let mut draws = Draws::from_seed(seed);
    for number in 1..size + 1 {
        let parents = draw_parents(&mut draws, number);
        items.push(Item { number, parents })?;
    }
    Ok(items)
}

/// Draws the parents of an item, each among all items before it.
fn draw_parents(draws: &mut Draws, number: u32) -> Parents
    requires { 1 ≤ number }
    ensures parents { (seed : ℕ) → draws.old.state ≡ state_after seed (draws_before number) → result ≡ parents_of seed number }
    ensures state { (seed : ℕ) → draws.old.state ≡ state_after seed (draws_before number) → draws.new.state ≡ state_after seed (draws_before (number + 1)) }
{
    if number < 2 {
        return Parents::Nobody;
    }
    let parent = 1 + draws.below(number - 1);
    if number % 3 != 0 {
        return Parents::One(parent);
    }
    let other = 1 + draws.below(number - 1);
    Parents::Two(parent, other)
}
