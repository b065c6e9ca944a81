//! A formula for each condition of a document, in one pool.
ghost use Rattle.std.specs.Prelude.{◌≡◌, ◌<◌, ◌≤◌, ℕ, Bool, List, [], true, ◌&&◌, All, IfOk, if◌then◌else◌, length, map};
ghost use Rattle.std.specs.List.{list_all, list_any};
ghost use Rattle.vkb_formula.specs.Names.{AreDifferent};
ghost use Rattle.vkb_formula.specs.Pools.{parts_of, pool_reach, pool_values};
ghost use Rattle.vkb_formula.specs.declared.pool.PoolNode.{PoolNode};
ghost use Rattle.doc_tree.specs.Loaded.{IsLoaded};
ghost use Rattle.reg_registry.specs.Rows.{Rows};
ghost use Rattle.doc_build.specs.Choices.{pageless_setting};
ghost use Rattle.doc_build.specs.Keeping.{met_from};
ghost use Rattle.lift_check.specs.Keeping.{KeepsLines, is_on, node_in, node_of};
ghost use Rattle.lift_check.specs.Nodes.{AreNodes, HoldsOptions, IsNode, IsPut, has_name, meets, node_for};
ghost use Rattle.lift_check.specs.Lines.{AreOptionsOf};
ghost use Rattle.lift_nodes.specs.Cases.{AreConstant};

use crate::Memory;
use crate::options::{Options, Setting};
use doc_build::{lines_are_kept_by_number, options_are_set};
use doc_tree::{Cond, CondId, DocLine, Document};
use lift_nodes::Constants;
use std::alloc::Global;
use vkb_bytes::Listed;
use vkb_formula::{NameId, NodeId, Pool, PoolNode, nodes_keep_their_meaning};

/// The first node of each pool here, which is true at every choice.
const ALWAYS: NodeId = NodeId(0);

/// The second node, which is true at none.
const NEVER: NodeId = NodeId(1);

/// These two.
pub(crate) const CONSTANTS: Constants = Constants {
    always: ALWAYS,
    never: NEVER,
};

/// For each condition of a document a formula over the options, which is true at the choices that meet the condition and
/// all those round it.
#[derive(Drop)]
pub(crate) struct Conditions {
    pub(crate) pool: Pool,
    /// The node of each condition, in order.
    pub(crate) nodes: Listed<NodeId>,
}

impl Conditions {
    /// The node of a line of the document, which is true at the choices that keep the line. It takes no memory.
    pub(crate) fn node_of(&self, line: &DocLine) -> NodeId
        ensures { result ≡ node_of self.now.nodes line.now }
    {
        node_in(self.nodes.as_slice(), line.own.or(line.within))
    }
}

/// The formulas of the conditions of a document whose names are what the settings say. An `Err` is want of memory.
pub(crate) fn read_conditions(
    alloc: Global,
    d: &Document,
    options: &Options,
) -> Result<Conditions, Memory>
    ensures reach { IfOk result (λ c. pool_reach c.pool ≤ options.now.count) }
    ensures constants { IfOk result (λ c. AreConstant c.pool (record { always = ALWAYS; never = NEVER })) }
    ensures lines { (text : List ℕ) (always : List (List ℕ)) (r : Rows) → IsLoaded text d.now → AreDifferent r.options
        → AreOptionsOf always r d.now options.now → IfOk result (λ c. KeepsLines (pageless_setting always r) text d.now c.pool c.nodes) }
{
    // What is made of the conditions tells of the lines, and a choice of names, by these laws.
    lines_are_kept_by_number();
    options_are_set();
    let mut pool = option_nodes(alloc, options.len())?;
    let nodes = cond_nodes(alloc, &mut pool, options, d.conds.as_slice())?;
    Ok(Conditions {
        pool,
        nodes: Listed::from_vec(nodes),
    })
}

/// A pool of a node that is true, one that is false, and then one for each of so many options.
fn option_nodes(alloc: Global, count: u32) -> Result<Pool, Memory>
    ensures { IfOk result (HoldsOptions count) }
{
    let mut pool = Pool::new(alloc);
    put(&mut pool, PoolNode::Always)?;
    put(&mut pool, PoolNode::Never)?;
    for option in 0..count {
        put(&mut pool, PoolNode::Var(option))?;
    }
    Ok(pool)
}

/// The nodes of conditions, each true where the condition and those round it are met.
fn cond_nodes(
    alloc: Global,
    pool: &mut Pool,
    options: &Options,
    conds: &[Cond],
) -> Result<Vec<NodeId>, Memory>
    requires { HoldsOptions (options.now.count) pool.old }
    ensures { IfOk result (λ nodes. AreNodes pool.old pool.new nodes.items
        (λ choice. met_from (meets options.now choice) [] conds.now)) }
{
    let mut nodes = Vec::with_capacity(alloc, conds.len())?;
    for cond in conds {
        // The conditions round this one are met where the node of the innermost is true.
        let around = node_in(nodes.as_slice(), cond.within);
        let node = inner_node(alloc, pool, options, cond, around)?;
        nodes.push(node)?;
    }
    Ok(nodes)
}

/// The node of a condition, from those of all conditions in order.
fn node_in(nodes: &[NodeId], cond: Option<CondId>) -> NodeId
    ensures { result ≡ node_in nodes.now cond }
{
    match cond {
        Some(cond) => nodes.get(cond.0 as usize).copied().unwrap_or(ALWAYS),
        None => ALWAYS,
    }
}

/// The node of a condition within those that a node tells of.
fn inner_node(
    alloc: Global,
    pool: &mut Pool,
    options: &Options,
    cond: &Cond,
    around: NodeId,
) -> Result<NodeId, Memory>
    requires holds { HoldsOptions (options.now.count) pool.old }
    requires within { around.0 < length pool.old }
    ensures { IfOk result (λ id. IsNode pool.old pool.new id
        (λ choice. is_on (pool_values choice pool.old) around && meets options.now choice cond.now)) }
{
    let own = own_node(alloc, pool, options, cond)?;
    both(alloc, pool, around, own)
}

/// The node of a condition by itself.
fn own_node(
    alloc: Global,
    pool: &mut Pool,
    options: &Options,
    cond: &Cond,
) -> Result<NodeId, Memory>
    requires { HoldsOptions (options.now.count) pool.old }
    ensures { IfOk result (λ id. IsNode pool.old pool.new id (λ choice. meets options.now choice cond.now)) }
{
    let nodes = name_nodes(alloc, options, cond.names.as_slice())?;
    let held = joined(pool, cond.any, nodes)?;
    if cond.negated {
        return put(pool, PoolNode::Not(held));
    }
    Ok(held)
}

/// The nodes of names, in order, each true where the name is set.
fn name_nodes(alloc: Global, options: &Options, names: &[NameId]) -> Result<Vec<NodeId>, Memory>
    ensures { (pool : List PoolNode) → HoldsOptions (options.now.count) pool → IfOk result (λ nodes.
        AreNodes pool pool nodes.items (λ choice. map (has_name options.now choice) names.now)) }
{
    let mut nodes = Vec::with_capacity(alloc, names.len())?;
    for name in names {
        nodes.push(name_node(options.setting_of(*name)))?;
    }
    Ok(nodes)
}

/// The node of a name that is this.
fn name_node(setting: Setting) -> NodeId
    ensures { result ≡ node_for setting }
{
    match setting {
        Setting::Fixed => ALWAYS,
        Setting::Unset => NEVER,
        Setting::Free(option) => NodeId(option.0 as u64 + 2),
    }
}

/// A node that is true where one of the nodes is, or where not `any`, all of them.
fn joined(pool: &mut Pool, any: bool, nodes: Vec<NodeId>) -> Result<NodeId, Memory>
    requires { All (λ node. node.0 < length pool.old) nodes.items }
    ensures { IfOk result (λ id. IsNode pool.old pool.new id
        (λ choice. if any then list_any (is_on (pool_values choice pool.old)) nodes.items
        else list_all (is_on (pool_values choice pool.old)) nodes.items)) }
{
    if nodes.len() == 1 {
        return Ok(nodes[0]);
    }
    let parts = Listed::from_vec(nodes);
    if any {
        put(pool, PoolNode::Any(parts))
    } else {
        put(pool, PoolNode::All(parts))
    }
}

/// A node that is true where both nodes are.
fn both(alloc: Global, pool: &mut Pool, left: NodeId, right: NodeId) -> Result<NodeId, Memory>
    requires always { (choice : List Bool) → is_on (pool_values choice pool.old) ALWAYS ≡ true }
    requires left { left.0 < length pool.old }
    requires right { right.0 < length pool.old }
    ensures { IfOk result (λ id. IsNode pool.old pool.new id
        (λ choice. is_on (pool_values choice pool.old) left && is_on (pool_values choice pool.old) right)) }
{
    if left == ALWAYS {
        return Ok(right);
    }
    let parts = Listed::from_vec(vec![in alloc; left, right]?);
    put(pool, PoolNode::All(parts))
}

/// Puts a node last.
fn put(pool: &mut Pool, node: PoolNode) -> Result<NodeId, Memory>
    requires { All (λ part. part < length pool.old) (parts_of node) }
    ensures { IfOk result (IsPut pool.old node pool.new) }
{
    // The nodes from before keep their values.
    nodes_keep_their_meaning();
    let id = pool.put(node)?;
    Ok(id)
}

#[cfg(test)]
mod tests;
