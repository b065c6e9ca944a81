//! The node that says which choices are permitted.
ghost use Rattle.std.specs.Prelude.{◌≡◌, ◌<◌, ◌≤◌, List, Bool, length, max, IfOk, OnOk};
ghost use Rattle.vkb_formula.specs.Pools.{Extends, pool_reach};
ghost use Rattle.reg_closure.specs.Presence.{KeepBounds, SayPresence};
ghost use Rattle.reg_permit.specs.Nodes.{HasFeatures, SayRules};
ghost use Rattle.reg_permit.specs.Size.{KeepsSize, SaysPermitted};

use crate::features::{Features, features_of};
use crate::putting::put_rule;
use reg_registry::Registry;
use std::alloc::Global;
use vkb_bytes::{Listed, Memory};
use vkb_formula::{NodeId, Pool, PoolNode, nodes_keep_their_meaning};

/// A node that is true exactly at the permitted choices, where the nodes of declared names are known. Each node from before stays at its place,
/// also where memory ran out. The time is in proportion to the options and the words that they depend on, but for a factor that is the logarithm of
/// the number of features.
pub fn permit_node(
    alloc: Global,
    r: &Registry,
    here: &[NodeId],
    pool: &mut Pool,
) -> Result<NodeId, Memory>
    requires presence { SayPresence r.now pool.old here.now }
    requires bounds { KeepBounds r.now pool.old here.now }
    ensures before { Extends pool.old pool.new }
    ensures held { IfOk result (λ id. id.0 < length pool.new) }
    ensures reach { OnOk result (pool_reach pool.new ≤ max (pool_reach pool.old) (length r.now.options)) }
    ensures permitted { IfOk result (λ id. (chosen : List Bool) → length chosen ≡ length r.now.options → SaysPermitted r.now pool.new id chosen) }
    ensures size { IfOk result (KeepsSize r.now pool.new) }
{
    nodes_keep_their_meaning();
    r.is_sound();
    let features = features_of(alloc, r)?;
    let rules = put_rules(alloc, pool, r, &features, here)?;
    pool.put(PoolNode::All(Listed::from_vec(rules)))
}

/// The rules of all options that have one.
fn put_rules(
    alloc: Global,
    pool: &mut Pool,
    r: &Registry,
    features: &Features,
    here: &[NodeId],
) -> Result<Vec<NodeId>, Memory>
    requires features { HasFeatures r.now.option_rows (length r.now.options) features.now }
    requires presence { SayPresence r.now pool.old here.now }
    requires bounds { KeepBounds r.now pool.old here.now }
    ensures before { Extends pool.old pool.new }
    ensures reach { OnOk result (pool_reach pool.new ≤ max (pool_reach pool.old) (length r.now.options)) }
    ensures rules { IfOk result (λ rules. SayRules r.now pool.new (length r.now.options) rules.items) }
{
    nodes_keep_their_meaning();
    r.is_sound();
    let mut rules = Vec::new(alloc);
    for place in 0..r.options().len() {
        if let Some(rule) = put_rule(alloc, pool, r, features, here, place)? {
            rules.push(rule)?;
        }
    }
    Ok(rules)
}
