//! Nodes for the rules of single options.
ghost use Rattle.std.specs.Prelude.{◌≡◌, ◌+◌, ◌<◌, ◌≤◌, ℕ, length, max, slice_get, Some, IfOk, OnOk, IfSome, MatchOption};
ghost use Rattle.vkb_formula.specs.Formulas.{clauses_of, reach_of, value_of};
ghost use Rattle.vkb_formula.specs.Pools.{Extends, node_clauses, pool_reach, sum_reached};
ghost use Rattle.reg_registry.specs.declared.registry.OptionRow.{OptionRow};
ghost use Rattle.reg_closure.specs.Presence.{KeepBounds, SayPresence};
ghost use Rattle.reg_permit.specs.Nodes.{HasFeatures, IsNodeOf, IsRule, asks_formula, asks_node, feature_says};

use crate::features::{Features, next_lower};
use reg_registry::Registry;
use std::alloc::Global;
use vkb_bytes::{Listed, Memory};
use vkb_formula::{Formula, NodeId, Pool, PoolNode, nodes_keep_their_meaning};

/// A node that is true where an option isn't chosen, or where another node is true.
fn put_asks(alloc: Global, pool: &mut Pool, place: u32, asked: NodeId) -> Result<NodeId, Memory>
    requires { asked.0 < length pool.old }
    ensures before { Extends pool.old pool.new }
    ensures reach { OnOk result (pool_reach pool.new ≤ max (pool_reach pool.old) (place + 1)) }
    ensures node { IfOk result (λ id. IsNodeOf pool.new id (asks_node pool.old place asked) (3 + sum_reached node_clauses pool.old asked.0)) }
{
    nodes_keep_their_meaning();
    let chosen = pool.put(PoolNode::Var(place))?;
    let left = pool.put(PoolNode::Not(chosen))?;
    let parts = Listed::from_vec(vec![in alloc; left, asked]?);
    pool.put(PoolNode::Any(parts))
}

/// The rule of a feature: it is chosen, or, where one of a lower number is there, the next lower one is if it is.
fn put_feature(
    alloc: Global,
    pool: &mut Pool,
    place: u32,
    lower: Option<u32>,
) -> Result<NodeId, Memory>
    ensures before { Extends pool.old pool.new }
    ensures reach { OnOk result ((count : ℕ) → place < count → IfSome lower (λ next. next < count)
        → pool_reach pool.new ≤ max (pool_reach pool.old) count) }
    ensures node { IfOk result (λ id. IsNodeOf pool.new id (feature_says place lower) 3) }
{
    nodes_keep_their_meaning();
    match lower {
        None => pool.put(PoolNode::Var(place)),
        Some(lower) => {
            let asked = pool.put(PoolNode::Var(lower))?;
            put_asks(alloc, pool, place, asked)
        }
    }
}

/// The rule of an extension, or nothing where it depends on nothing.
fn put_extension(
    alloc: Global,
    pool: &mut Pool,
    place: u32,
    depends: &Formula,
) -> Result<Option<NodeId>, Memory>
    ensures before { Extends pool.old pool.new }
    ensures reach { OnOk result ((count : ℕ) → place < count → reach_of depends.now ≤ count
        → pool_reach pool.new ≤ max (pool_reach pool.old) count) }
    ensures node { IfOk result (λ rule. MatchOption rule (depends.now ≡ Formula.Always)
        (λ id. IsNodeOf pool.new id (asks_formula (λ set. value_of set depends.now) place) (3 + clauses_of depends.now) × (depends.now ≡ Formula.Always → ⊥))) }
{
    nodes_keep_their_meaning();
    if let Formula::Always = depends {
        return Ok(None);
    }
    let asked = pool.put_tree(depends)?;
    let rule = put_asks(alloc, pool, place, asked)?;
    Ok(Some(rule))
}

/// The rule of an option, or nothing where it has none, where the nodes of declared names are known.
pub(crate) fn put_rule(
    alloc: Global,
    pool: &mut Pool,
    r: &Registry,
    features: &Features,
    here: &[NodeId],
    place: u32,
) -> Result<Option<NodeId>, Memory>
    requires features { HasFeatures r.now.option_rows (length r.now.options) features.now }
    requires presence { SayPresence r.now pool.old here.now }
    requires bounds { KeepBounds r.now pool.old here.now }
    requires place { place < length r.now.options }
    ensures before { Extends pool.old pool.new }
    ensures reach { OnOk result (pool_reach pool.new ≤ max (pool_reach pool.old) (length r.now.options)) }
    ensures rule { IfOk result (λ rule. (o : OptionRow) → slice_get r.now.option_rows place ≡ Some o → IsRule r.now pool.new place o rule) }
{
    r.is_sound();
    let option = r.option(place);
    if let Some(version) = option.version {
        let rule = put_feature(alloc, pool, place, next_lower(features, version))?;
        return Ok(Some(rule));
    }
    if let Some(bit) = &option.bit {
        let rule = put_asks(alloc, pool, place, here[bit.0.0 as usize])?;
        return Ok(Some(rule));
    }
    put_extension(alloc, pool, place, &option.depends)
}
