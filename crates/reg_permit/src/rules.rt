//! Whether a choice keeps the rule of each option.
ghost use Rattle.std.specs.Prelude.{◌≡◌, ◌<◌, ℕ, List, length, slice_get, true, false, Some, None, IfSome, IsSomeAnd, MatchBool, MatchOption};
ghost use Rattle.vkb_bytes.specs.First.{IsFirst};
ghost use Rattle.vkb_formula.specs.Formulas.{value_of};
ghost use Rattle.vkb_formula.specs.declared.name_table.NameId.{NameId};
ghost use Rattle.reg_registry.specs.Naming.{IsSoundOption};
ghost use Rattle.reg_registry.specs.declared.registry.OptionRow.{OptionRow};
ghost use Rattle.reg_closure.specs.Closure.{IsClosure};
ghost use Rattle.reg_permit.specs.Lowest.{IsLeast, IsLeftOut, IsNumber};
ghost use Rattle.reg_permit.specs.Permitted.{BreaksRule, IsLower, IsPermitted, KeepsRule};

use crate::lowest::{Lowest, has_lower, lowest_of};
use reg_registry::{OptionRow, Registry};
use vkb_formula::NameSet;

/// The first option whose rule a choice breaks, if there is one. The time is in proportion to the options and the words that they depend on.
pub(crate) fn first_broken(r: &Registry, chosen: &[bool], here: &NameSet) -> Option<u32>
    requires count { length chosen.now ≡ length r.now.options }
    requires closure { IsClosure r.now chosen.now here.now }
    ensures { MatchOption result (IsPermitted r.now chosen.now) (IsFirst (BreaksRule r.now chosen.now)) }
{
    r.is_sound();
    let lowest = lowest_of(r, chosen);
    for place in 0..r.options().len() {
        if !keeps_rule(r, chosen, here, &lowest, place) {
            return Some(place);
        }
    }
    None
}

/// Whether the rule of an option holds, where the least numbers of features are known.
fn keeps_rule(r: &Registry, chosen: &[bool], here: &NameSet, lowest: &Lowest, place: u32) -> bool
    requires count { length chosen.now ≡ length r.now.options }
    requires closure { IsClosure r.now chosen.now here.now }
    requires all { IsLeast (IsNumber r.now.option_rows (length r.now.options)) lowest.now.all }
    requires left_out { IsLeast (IsLeftOut r.now.option_rows chosen.now (length r.now.options)) lowest.now.left_out }
    requires here { place < length r.now.options }
    ensures { (o : OptionRow) → slice_get r.now.option_rows place ≡ Some o
        → MatchBool result (KeepsRule r.now chosen.now place o) (KeepsRule r.now chosen.now place o → ⊥) }
{
    r.is_sound();
    let option = r.option(place);
    let is_chosen = chosen[place as usize];
    match option.version {
        Some(version) => keeps_feature(lowest, version, is_chosen),
        None => !is_chosen || has_asked(r, option, chosen, here),
    }
}

/// Whether the rule of a feature of this number holds.
fn keeps_feature(lowest: &Lowest, version: (u32, u32), is_chosen: bool) -> bool
    ensures chosen { is_chosen ≡ true
        → MatchBool result (IfSome lowest.now.left_out (λ low. IsLower low version → ⊥)) (IsSomeAnd lowest.now.left_out (λ low. IsLower low version)) }
    ensures left_out { is_chosen ≡ false
        → MatchBool result (IsSomeAnd lowest.now.all (λ low. IsLower low version)) (IfSome lowest.now.all (λ low. IsLower low version → ⊥)) }
{
    if is_chosen {
        !has_lower(lowest.left_out, version)
    } else {
        has_lower(lowest.all, version)
    }
}

/// Whether a choice has what a bit or an extension asks for.
fn has_asked(r: &Registry, option: &OptionRow, chosen: &[bool], here: &NameSet) -> bool
    requires count { length chosen.now ≡ length r.now.options }
    requires names { length here.now ≡ length r.now.names }
    requires sound { IsSoundOption (length r.now.names) (length r.now.options) option.now }
    ensures bit { (owner : NameId) (member : List ℕ) → option.now.bit ≡ Some (owner, member) → slice_get here.now owner.0 ≡ Some result }
    ensures depends { option.now.bit ≡ None → result ≡ value_of chosen.now option.now.depends }
{
    match &option.bit {
        Some(bit) => here.has(bit.0),
        None => option.depends.value(chosen),
    }
}
