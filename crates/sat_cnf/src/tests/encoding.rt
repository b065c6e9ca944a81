ghost use Rattle.std.specs.Prelude.{◌≡◌, ◌+◌, ◌<◌, ◌≤◌, ◌∷◌, [], max, map, length, All, IfOk, OnOk};
ghost use Rattle.vkb_formula.specs.Pools.{parts_of, pool_reach, reach_at};

use super::*;
use std::alloc::Global;
use std::process::Abort;
use std::test::Fail;
use vkb_bytes::Listed;
use vkb_formula::{NodeId, Pool, PoolNode, values_are_by_parts};

/// Puts a node, of which little is told.
fn put(pool: &mut Pool, node: PoolNode) -> Result<(), Memory>
    requires { All (λ part. part < length pool.old) (parts_of node) }
    ensures count { OnOk result (length pool.new ≡ length pool.old + 1) }
    ensures reach { OnOk result (pool_reach pool.new ≡ max (pool_reach pool.old) (reach_at node)) }
{
    pool.put(node)?;
    Ok(())
}

/// Two nodes.
fn pair(alloc: Global, first: u64, second: u64) -> Result<Listed<NodeId>, Memory>
    ensures { IfOk result (λ parts. All (λ part. part ≤ max first second) (map (λ part. part.0) parts)) }
{
    let mut parts = Vec::new(alloc);
    parts.push(NodeId(first))?;
    parts.push(NodeId(second))?;
    Ok(Listed::from_vec(parts))
}

/// `All[Var 0, Any[Var 1, Not Var 0]]`, and nodes that it doesn't lead to.
fn conjunction(alloc: Global) -> Result<Pool, Memory>
    ensures { IfOk result (λ pool. (length pool ≡ 7) × (pool_reach pool ≤ 2)) }
{
    let mut pool = Pool::new(alloc);
    put(&mut pool, PoolNode::Var(0))?;
    put(&mut pool, PoolNode::Var(1))?;
    put(&mut pool, PoolNode::Always)?;
    put(&mut pool, PoolNode::Not(NodeId(0)))?;
    put(&mut pool, PoolNode::Any(pair(alloc, 1, 3)?))?;
    put(&mut pool, PoolNode::All(pair(alloc, 0, 4)?))?;
    put(&mut pool, PoolNode::All(pair(alloc, 2, 5)?))?;
    Ok(pool)
}

/// `Var 0`, `Var 1`, `Any` of both, `Not` of that, and `All` of the last two.
fn contradiction(alloc: Global) -> Result<Pool, Memory>
    ensures { IfOk result (λ pool. (length pool ≡ 5) × (pool_reach pool ≤ 2)) }
{
    let mut pool = Pool::new(alloc);
    put(&mut pool, PoolNode::Var(0))?;
    put(&mut pool, PoolNode::Var(1))?;
    put(&mut pool, PoolNode::Any(pair(alloc, 0, 1)?))?;
    put(&mut pool, PoolNode::Not(NodeId(2)))?;
    put(&mut pool, PoolNode::All(pair(alloc, 2, 3)?))?;
    Ok(pool)
}

/// The clauses of a pool of two variables.
fn clauses_of(alloc: Global, pool: &Pool, root: u64, most: u32) -> Result<Clauses, CnfFault>
    requires held { root < length pool.now }
    requires reach { pool_reach pool.now ≤ 2 }
    requires most { most ≤ 1000000 }
{
    values_are_by_parts();
    encode(alloc, pool, NodeId(root), 2, most)
}

/// The clauses of some nodes of a pool of two variables, and their literals.
fn parts_of_pool(
    alloc: Global,
    pool: &Pool,
    roots: &[NodeId],
    most: u32,
) -> Result<(Clauses, Vec<Lit>), CnfFault>
    requires held { All (λ root. root.0 < length pool.now) roots.now }
    requires reach { pool_reach pool.now ≤ 2 }
    requires most { most ≤ 1000000 }
{
    values_are_by_parts();
    encode_parts(alloc, pool, roots, 2, most)
}

/// Whether a literal is true in a set.
fn is_true(lit: Lit, set: &[bool]) -> bool {
    set.get(lit.variable() as usize).copied().unwrap_or(false) != lit.is_negated()
}

/// Whether a clause is true in a set.
fn holds(clause: &[Lit], set: &[bool]) -> bool {
    for lit in clause {
        if is_true(*lit, set) {
            return true;
        }
    }
    false
}

/// Whether a set satisfies all clauses.
fn satisfies(clauses: &Clauses, set: &[bool]) -> bool {
    for place in 0..clauses.len() {
        if !holds(clauses.clause(place), set) {
            return false;
        }
    }
    true
}

/// The set of four variables by the bits of a number.
fn set_of(bits: u32) -> [bool; 4] {
    [bits & 1 != 0, bits & 2 != 0, bits & 4 != 0, bits & 8 != 0]
}

/// How many of the four extensions of a set of two variables satisfy all clauses, and whether a literal is true in the last
/// of them.
fn extensions(clauses: &Clauses, lit: Lit, first: u32) -> (u32, bool)
    requires { first < 4 }
{
    let mut count: u32 = 0;
    let mut value = false;
    for more in 0..4u32 {
        let set = set_of(first + 4 * more);
        if satisfies(clauses, &set) {
            count = count.saturating_add(1);
            value = is_true(lit, &set);
        }
    }
    (count, value)
}

#[test]
fn a_node_has_its_clauses(rt: HostRuntime) -> Result<(), Fail> {
    let alloc = rt.alloc();
    let pool = conjunction(alloc)?;
    let clauses = clauses_of(alloc, &pool, 5, 7)?;
    assert_eq!(rt; clauses.vars(), 4);
    assert_eq!(rt; clauses.len(), 7);
    assert!(rt; matches!(clauses_of(alloc, &pool, 5, 6), Err(CnfFault::Full)));
    let variable = clauses_of(alloc, &pool, 1, 2)?;
    assert_eq!(rt; variable.vars(), 2);
    assert_eq!(rt; variable.len(), 1);
    assert_eq!(rt; variable.clause(0), [Lit(2)].as_slice());
    assert!(rt; matches!(clauses_of(alloc, &pool, 1, 1), Err(CnfFault::Full)));
    Ok(())
}

#[test]
fn a_shared_node_has_its_clauses_once(rt: HostRuntime) -> Result<(), Fail> {
    let alloc = rt.alloc();
    let pool = contradiction(alloc)?;
    let clauses = clauses_of(alloc, &pool, 4, 7)?;
    assert_eq!(rt; clauses.vars(), 4);
    assert_eq!(rt; clauses.len(), 7);
    for bits in 0..16 {
        assert!(rt; !satisfies(&clauses, &set_of(bits)));
    }
    let (parts, lits) = parts_of_pool(alloc, &pool, &[NodeId(4)], 6)?;
    assert_eq!(rt; parts.vars(), 4);
    assert_eq!(rt; parts.len(), 6);
    assert_eq!(rt; lits.as_slice(), [Lit(6)].as_slice());
    assert!(rt;
        matches!(
            parts_of_pool(alloc, &pool, &[NodeId(4)], 5),
            Err(CnfFault::Full)
        )
    );
    Ok(())
}

#[test]
fn a_set_has_one_extension_and_it_has_the_nodes_value(rt: HostRuntime) -> Result<(), Fail> {
    let alloc = rt.alloc();
    let pool = conjunction(alloc)?;
    let whole = clauses_of(alloc, &pool, 5, 7)?;
    let (parts, lits) = parts_of_pool(alloc, &pool, &[NodeId(5), NodeId(3), NodeId(5)], 6)?;
    assert_eq!(rt; lits.as_slice(), [Lit(6), Lit(1), Lit(6)].as_slice());
    for (set, value) in [(0, false), (1, false), (2, false), (3, true)] {
        assert_eq!(rt; extensions(&parts, Lit(6), set), (1, value));
        assert_eq!(rt; extensions(&parts, Lit(1), set).1, set % 2 == 0);
        assert_eq!(rt; extensions(&whole, Lit(6), set), (u32::from(value), value));
    }
    Ok(())
}

/// A variable, and so many nodes of which each is the `All` of the one before it.
fn ladder(alloc: Global, count: u64) -> Result<Pool, Memory>
    requires { count < 1000000 }
    ensures { IfOk result (λ pool. (length pool ≡ count + 1) × (pool_reach pool ≤ 1)) }
{
    let mut pool = Pool::new(alloc);
    put(&mut pool, PoolNode::Var(0))?;
    for place in 0..count {
        put(&mut pool, PoolNode::All(pair(alloc, place, place)?))?;
    }
    Ok(pool)
}

#[test]
fn a_hundred_thousand_nodes_are_put_into_clauses(rt: HostRuntime) -> Result<(), Fail> {
    let alloc = rt.alloc();
    let pool = ladder(alloc, 100_000)?;
    let clauses = clauses_of(alloc, &pool, 100_000, 300_001)?;
    assert_eq!(rt; clauses.vars(), 100_002);
    assert_eq!(rt; clauses.len(), 300_001);
    assert!(rt;
        matches!(
            clauses_of(alloc, &pool, 100_000, 300_000),
            Err(CnfFault::Full)
        )
    );
    let mut set = vec![in alloc; true; 100_002]?;
    assert!(rt; satisfies(&clauses, set.as_slice()));
    set[50_000] = false;
    assert!(rt; !satisfies(&clauses, set.as_slice()));
    Ok(())
}
