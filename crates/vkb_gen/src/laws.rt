//! What the definitions say of any sample.
ghost use Rattle.std.specs.Prelude.{ℕ};
ghost use Rattle.vkb_gen.specs.Items.{AreBefore, parents_of};

/// The parents of an item stand before it, so no items ask for each other in a circle. The call does nothing: its contract is the
/// theorem.
pub fn parents_stand_before()
    ensures { (seed number : ℕ) → AreBefore number (parents_of seed number) }
{}
