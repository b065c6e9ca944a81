//! The features of a registry by their numbers.
ghost use Rattle.std.specs.Prelude.{length, IfOk, List, MatchOption};
ghost use Rattle.reg_registry.specs.declared.registry.OptionRow.{OptionRow};
ghost use Rattle.reg_permit.specs.Nodes.{HasFeatures, IsNextLower, NoneIsLower};

use reg_registry::Registry;
use std::alloc::Global;
use std::collections::BTreeMap;
use vkb_bytes::Memory;

/// The place of each feature, under its number.
pub(crate) type Features = BTreeMap<(u32, u32), u32>;

/// The features of a registry.
pub(crate) fn features_of(alloc: Global, r: &Registry) -> Result<Features, Memory>
    ensures { IfOk result (HasFeatures r.now.option_rows (length r.now.options)) }
{
    r.is_sound();
    let mut features = BTreeMap::new(alloc);
    for place in 0..r.options().len() {
        if let Some(version) = r.option(place).version {
            features.insert(version, place)?;
        }
    }
    Ok(features)
}

/// The feature of the next lower number, if any is lower.
pub(crate) fn next_lower(features: &Features, version: (u32, u32)) -> Option<u32>
    ensures { (options : List OptionRow) → HasFeatures options (length options) features.now
        → MatchOption result (NoneIsLower options version) (IsNextLower options version) }
{
    match features.range(..version).next_back() {
        Some((_, place)) => Some(*place),
        None => None,
    }
}
