ghost use Rattle.std.specs.Prelude.{◌≡◌, ◌+◌, ◌*◌, ◌<◌, ◌≤◌, ◌++◌, [], ◌∷◌, max, All, List, Bool, ℕ, sum_by, length, take, slice_get, slice_index_or, Some, false, IfOk, OnOk, OnErr};
ghost use Rattle.std.specs.List.{list_all, list_any};
ghost use Rattle.vkb_formula.specs.Formulas.{reach_of, size_of, variables_of, clauses_of};
ghost use Rattle.vkb_formula.specs.Pools.{parts_of, IsPool, Extends, unfolded, pool_values, value_at, entries_of, pool_size, reach_at, pool_reach, formula_at, node_variables, node_clauses, sum_reached};
ghost use Rattle.vkb_formula.specs.Reaches.{ReachIsByParts, ReachIsDown, ReachHasRoots, ReachIsClosed, ReachIsLeast, SumIsLeast, SumIsExact, OneRoot, ValuesAreByParts, ReachIsGreatest};
ghost use Rattle.vkb_formula.specs.Trees.{PutsTree, PutsTrees};

use crate::formula::Formula;
use std::alloc::Global;
use std::marker::Model;
use vkb_bytes::{Listed, Memory};

/// The place of a node in a pool, from 0.
#[derive(Clone, Copy, Debug, PartialEq, Eq)]
pub struct NodeId(pub u64);

/// One node of a formula, whose parts are nodes before it in its pool. An empty `All` is true, and an empty `Any` is
/// false.
#[derive(Drop)]
pub enum PoolNode {
    Always,
    Never,
    Var(u32),
    Not(NodeId),
    All(Listed<NodeId>),
    Any(Listed<NodeId>),
}

/// Formulas that share their parts: a list of nodes in which the parts of each stand before it.
#[derive(Drop)]
pub struct Pool {
    nodes: Vec<PoolNode>,
    size: u64,
}

impl Model for Pool {
    ghost use Rattle.std.specs.Prelude.{List, ◌≡◌};
    ghost use Rattle.vkb_formula.specs.declared.pool.PoolNode.{PoolNode};
    ghost use Rattle.vkb_formula.specs.Pools.{IsPool, pool_size};

    ghost Value = { List PoolNode };

    ghost view = { λ p. p.nodes.items };

    ghost invariant = { λ p. IsPool p.nodes.items × (p.size ≡ pool_size p.nodes.items) };
}

impl Pool {
    /// An empty pool. It takes no memory.
    pub fn new(alloc: Global) -> Pool
        ensures { result ≡ [] }
    {
        Pool {
            nodes: Vec::new(alloc),
            size: 0,
        }
    }

    fn alloc(&self) -> Global {
        *self.nodes.allocator()
    }

    /// The number of nodes. It takes no memory.
    pub fn len(&self) -> u64
        ensures count { result ≡ length self.now }
        ensures ordered { IsPool self.now }
    {
        self.nodes.len() as u64
    }

    /// The number of nodes, and that of the entries of their parts. It takes no memory.
    pub fn size(&self) -> u64
        ensures { result ≡ pool_size self.now }
    {
        self.size
    }

    /// Puts a node last. An `Err` leaves the pool as it was.
    pub fn put(&mut self, node: PoolNode) -> Result<NodeId, Memory>
        requires { All (λ part. part < length self.old) (parts_of node) }
        ensures ok { OnOk result (self.new ≡ self.old ++ node ∷ []) }
        ensures place { IfOk result (λ id. id.0 ≡ length self.old) }
        ensures reach { OnOk result (pool_reach self.new ≡ max (pool_reach self.old) (reach_at node)) }
        ensures size { OnOk result (pool_size self.new ≡ pool_size self.old + entries_of node) }
        ensures values { OnOk result ((set : List Bool)
            → pool_values set self.new ≡ pool_values set self.old ++ value_at set (pool_values set self.old) node ∷ []) }
        ensures err { OnErr result (self.new ≡ self.old) }
    {
        let Some(size) = self.size.checked_add(entries(&node)) else {
            return Err(Memory);
        };
        let place = self.nodes.len() as u64;
        self.nodes.push(node)?;
        self.size = size;
        Ok(NodeId(place))
    }

    /// Puts the nodes of a formula, and answers the place of its own. Each node from before stays at its place, also where
    /// memory ran out.
    pub fn put_tree(&mut self, f: &Formula) -> Result<NodeId, Memory>
        ensures before { Extends self.old self.new }
        ensures unfolds { IfOk result (λ id. slice_get (unfolded self.new) id.0 ≡ Some f.now) }
        ensures held { IfOk result (λ id. id.0 < length self.new) }
        ensures reach { OnOk result (pool_reach self.new ≡ max (pool_reach self.old) (reach_of f.now)) }
        ensures size { OnOk result (pool_size self.new ≤ pool_size self.old + 2 * size_of f.now) }
        ensures variables { IfOk result (λ id. sum_reached node_variables self.new id.0 ≤ variables_of f.now) }
        ensures clauses { IfOk result (λ id. sum_reached node_clauses self.new id.0 ≤ clauses_of f.now) }
    {
        put_nodes(self, f)
    }

    /// The node at a place. It takes no memory.
    pub fn node(&self, id: NodeId) -> &PoolNode
        requires { id.0 < length self.now }
        ensures node { slice_get self.now id.0 ≡ Some result.now }
        ensures parts { All (λ part. part < id.0) (parts_of result.now) }
        ensures reach { reach_at result.now ≤ pool_reach self.now }
    {
        &self.nodes[id.0 as usize]
    }

    /// The value of each node at a set, which tells of each variable whether it is true.
    pub fn values(&self, set: &[bool]) -> Result<Vec<bool>, Memory>
        requires { pool_reach self.now ≤ length set.now }
        ensures values { IfOk result (λ values. values.items ≡ pool_values set.now self.now) }
        ensures count { IfOk result (λ values. length values.items ≡ length self.now) }
    {
        values_of(self.alloc(), self.nodes.as_slice(), set)
    }

    /// Lets the nodes from a place on go. It takes no memory.
    #[tactic(auto, using(crate::proofs::PoolLemmas::pool_facts))]
    pub fn cut(&mut self, len: u64)
        requires { len ≤ length self.old }
        ensures kept { self.new ≡ take len self.old }
        ensures reach { pool_reach self.new ≤ pool_reach self.old }
    {
        self.size = cut_nodes(&mut self.nodes, self.size, len as usize);
    }
}

/// A law: each node has one formula. When nodes are put last, the formulas of those from before and the sums over what
/// they reach stay, and the sum over what the new node reaches is at most its own weight and the sums of its parts.
pub fn nodes_keep_their_meaning()
    ensures formulas { (nodes more : List PoolNode) (place : ℕ) → place < length nodes
        → slice_get (unfolded (nodes ++ more)) place ≡ slice_get (unfolded nodes) place }
    ensures next { (nodes : List PoolNode) (last : PoolNode)
        → unfolded (nodes ++ last ∷ []) ≡ unfolded nodes ++ formula_at (unfolded nodes) last ∷ [] }
    ensures count { (nodes : List PoolNode) → length (unfolded nodes) ≡ length nodes }
    ensures sums { (nodes more : List PoolNode) (root : ℕ) (weigh : PoolNode → ℕ) → root < length nodes
        → sum_reached weigh (nodes ++ more) root ≡ sum_reached weigh nodes root }
    ensures shared { (nodes : List PoolNode) (last : PoolNode) (weigh : PoolNode → ℕ)
        → sum_reached weigh (nodes ++ last ∷ []) (length nodes)
        ≤ weigh last + sum_by (sum_reached weigh nodes) (parts_of last) }
{}

/// A law: what nodes reach, from both sides. It is the least set that has them, and with each node its parts, so that
/// who marks them from the roots down has marked it.
pub fn reached_are_the_roots_and_their_parts()
    ensures parts { ReachIsByParts }
    ensures down { ReachIsDown }
    ensures roots { ReachHasRoots }
    ensures closed { ReachIsClosed }
    ensures least { ReachIsLeast }
    ensures sum { SumIsLeast }
    ensures exact { SumIsExact }
    ensures one { OneRoot }
{}

/// A law: what a node says is what its parts say, and a variable lies within the reach of its pool.
pub fn values_are_by_parts()
    ensures values { ValuesAreByParts }
    ensures reach { ReachIsGreatest }
{}

/// One for a node, and one for each of its parts.
fn entries(node: &PoolNode) -> u64
    ensures count { result ≡ entries_of node.now }
{
    match node {
        PoolNode::Always | PoolNode::Never | PoolNode::Var(_) => 1,
        PoolNode::Not(_) => 2,
        PoolNode::All(parts) | PoolNode::Any(parts) => parts.as_slice().len() as u64 + 1,
    }
}

/// Lets the nodes from a place on go, and answers the size of those that stay.
#[tactic(auto, using(crate::proofs::PoolLemmas::pool_facts))]
fn cut_nodes(nodes: &mut Vec<PoolNode>, size: u64, len: usize) -> u64
    requires within { len ≤ length nodes.old.items }
    requires size { size ≡ pool_size nodes.old.items }
    ensures kept { nodes.new.items ≡ take len nodes.old.items }
    ensures size { result ≡ pool_size nodes.new.items }
{
    let mut left = size;
    while nodes.len() > len {
        if let Some(node) = nodes.pop() {
            left -= entries(&node);
        }
    }
    left
}

/// Puts the nodes of a formula.
#[cycle(put_nodes)]
fn put_nodes(pool: &mut Pool, f: &Formula) -> Result<NodeId, Memory>
    ensures before { Extends pool.old pool.new }
    ensures tree { IfOk result (λ id. PutsTree pool.old pool.new f.now id.0) }
{
    match f {
        Formula::Always => pool.put(PoolNode::Always),
        Formula::Never => pool.put(PoolNode::Never),
        Formula::Var(variable) => pool.put(PoolNode::Var(*variable)),
        Formula::Not(part) => {
            let root = put_nodes(pool, part.get())?;
            pool.put(PoolNode::Not(root))
        }
        Formula::All(parts) => {
            let roots = put_parts(pool, parts.as_slice())?;
            pool.put(PoolNode::All(roots))
        }
        Formula::Any(parts) => {
            let roots = put_parts(pool, parts.as_slice())?;
            pool.put(PoolNode::Any(roots))
        }
    }
}

/// Puts the nodes of several formulas.
#[cycle(put_nodes)]
fn put_parts(pool: &mut Pool, parts: &[Formula]) -> Result<Listed<NodeId>, Memory>
    ensures before { Extends pool.old pool.new }
    ensures trees { IfOk result (λ ids. PutsTrees pool.old pool.new parts.now ids) }
{
    let mut roots = Vec::new(pool.alloc());
    for part in parts {
        let root = put_nodes(pool, part)?;
        roots.push(root)?;
    }
    Ok(Listed::from_vec(roots))
}

/// The value of each node at a set.
fn values_of(alloc: Global, nodes: &[PoolNode], set: &[bool]) -> Result<Vec<bool>, Memory>
    requires pool { IsPool nodes.now }
    requires reach { pool_reach nodes.now ≤ length set.now }
    ensures { IfOk result (λ values. values.items ≡ pool_values set.now nodes.now) }
{
    let mut values = Vec::with_capacity(alloc, nodes.len())?;
    for node in nodes {
        let value = value_in(node, values.as_slice(), set);
        values.push(value)?;
    }
    Ok(values)
}

/// The value of a node at a set, from the values of the nodes before it.
fn value_in(node: &PoolNode, values: &[bool], set: &[bool]) -> bool
    requires parts { All (λ part. part < length values.now) (parts_of node.now) }
    requires reach { reach_at node.now ≤ length set.now }
    ensures { result ≡ value_at set.now values.now node.now }
{
    match node {
        PoolNode::Always => true,
        PoolNode::Never => false,
        PoolNode::Var(variable) => set[*variable as usize],
        PoolNode::Not(part) => !values[part.0 as usize],
        PoolNode::All(parts) => all_are_true(parts.as_slice(), values),
        PoolNode::Any(parts) => any_is_true(parts.as_slice(), values),
    }
}

/// Whether each of the nodes is true.
fn all_are_true(parts: &[NodeId], values: &[bool]) -> bool
    requires { All (λ part. part.0 < length values.now) parts.now }
    ensures { result ≡ list_all (λ part. slice_index_or values.now part.0 false) parts.now }
{
    for part in parts {
        if !values[part.0 as usize] {
            return false;
        }
    }
    true
}

/// Whether one of the nodes is true.
fn any_is_true(parts: &[NodeId], values: &[bool]) -> bool
    requires { All (λ part. part.0 < length values.now) parts.now }
    ensures { result ≡ list_any (λ part. slice_index_or values.now part.0 false) parts.now }
{
    for part in parts {
        if values[part.0 as usize] {
            return true;
        }
    }
    false
}
