ghost use Rattle.std.specs.Prelude.{◌≡◌, ◌+◌, ◌*◌, ◌<◌, ◌≤◌, ◌∷◌, [], max, map, length, All, IfOk, OnOk};
ghost use Rattle.vkb_formula.specs.Formulas.{reach_of};
ghost use Rattle.vkb_formula.specs.Pools.{parts_of, pool_reach, reach_at};

use super::*;
use std::alloc::Global;
use std::process::Abort;
use std::test::Fail;
use vkb_bytes::Listed;

fn table(alloc: Global, names: &[&[u8]]) -> Result<NameTable, NameFault> {
    let mut table = NameTable::new(alloc);
    for name in names {
        table.intern(name)?;
    }
    Ok(table)
}

#[test]
fn a_name_keeps_its_first_place(rt: HostRuntime) -> Result<(), Fail> {
    let mut table = NameTable::new(rt.alloc());
    for (name, place) in [(b"x", 0), (b"y", 1), (b"x", 0)] {
        assert_eq!(rt; table.intern(name)?, NameId(place));
    }
    assert_eq!(rt; table.len(), 2);
    assert_eq!(rt; table.find(b"y"), Some(NameId(1)));
    assert_eq!(rt; table.find(b""), None);
    assert!(rt; table.len() > 1);
    assert_eq!(rt; table.name(NameId(1)), b"y".as_slice());
    Ok(())
}

#[test]
fn a_name_has_one_place(rt: HostRuntime) -> Result<(), Fail> {
    let mut names = Names::new(rt.alloc());
    for (name, place) in [(b"x", 0), (b"y", 1), (b"x", 0)] {
        assert_eq!(rt; names.intern(name)?, place);
    }
    assert_eq!(rt; names.len(), 2);
    assert_eq!(rt; names.find(b"y"), Some(1));
    assert_eq!(rt; names.find(b""), None);
    assert!(rt; names.len() > 1);
    assert_eq!(rt; names.name(1), b"y".as_slice());
    Ok(())
}

#[test]
fn a_set_has_what_was_added(rt: HostRuntime) -> Result<(), Fail> {
    let mut set = NameSet::new(rt.alloc(), 2)?;
    assert!(rt; !set.has(NameId(0)) && !set.has(NameId(1)));
    set.add(NameId(1));
    assert!(rt; !set.has(NameId(0)) && set.has(NameId(1)));
    Ok(())
}

/// Reads an expression of at most a million bytes.
fn read(alloc: Global, text: &[u8], options: &NameTable) -> Result<Formula, ExprFault>
    ensures { IfOk result (λ f. reach_of f ≤ length options.now) }
{
    if text.len() > 1_000_000 {
        return Err(ExprFault::Memory);
    }
    read_depends(alloc, text, options)
}

/// Where the names of an expression stand.
fn places(alloc: Global, text: &[u8]) -> Result<Vec<(u32, u32)>, ExprFault> {
    if text.len() > 1_000_000 {
        return Err(ExprFault::Memory);
    }
    words_of(alloc, text)
}

/// A set that has the first option alone.
fn first_alone(alloc: Global, count: u32) -> Result<Vec<bool>, Memory>
    ensures { IfOk result (λ set. length set.items ≡ count) }
{
    let mut set = Vec::new(alloc);
    for place in 0..count {
        set.push(place == 0)?;
    }
    Ok(set)
}

/// The value of an expression where the first option alone is chosen.
fn value_at_first(alloc: Global, text: &[u8], options: &NameTable) -> Result<bool, ExprFault> {
    let set = first_alone(alloc, options.len())?;
    let formula = read(alloc, text, options)?;
    Ok(formula.value(set.as_slice()))
}

/// Asserts what an expression says where the first option alone is chosen.
fn says(rt: &impl Abort, alloc: Global, options: &NameTable, text: &[u8], value: bool) {
    let said = value_at_first(alloc, text, options);
    assert!(rt; matches!(said, Ok(found) if found == value), "{text:?}");
}

#[test]
fn expressions_group_from_the_left(rt: HostRuntime) -> Result<(), Fail> {
    let alloc = rt.alloc();
    let options = table(alloc, &[b"VK_A", b"VK_B", b"VK_C"])?;
    says(&rt, alloc, &options, b"VK_A,VK_B+VK_C", false);
    says(&rt, alloc, &options, b"VK_A,(VK_B+VK_C)", true);
    says(&rt, alloc, &options, b"VK_B+VK_C,VK_A", true);
    says(&rt, alloc, &options, b"((VK_A))", true);
    says(&rt, alloc, &options, b"VkF::m,VK_A", true);
    says(&rt, alloc, &options, b"VK_D", false);
    Ok(())
}

/// The place at which reading a text stops.
fn stop(alloc: Global, text: &[u8], options: &NameTable) -> Option<u32> {
    match read(alloc, text, options) {
        Err(ExprFault::BadExpression { at }) => Some(at),
        _ => None,
    }
}

/// The same of reading where the names stand.
fn stop_of_words(alloc: Global, text: &[u8]) -> Option<u32> {
    match places(alloc, text) {
        Err(ExprFault::BadExpression { at }) => Some(at),
        _ => None,
    }
}

/// Asserts where a text stops.
fn stops(rt: &impl Abort, alloc: Global, options: &NameTable, text: &[u8], at: u32) {
    assert_eq!(rt; stop(alloc, text, options), Some(at), "{text:?}");
    assert_eq!(rt; stop_of_words(alloc, text), Some(at), "{text:?}");
}

#[test]
fn a_fault_stands_where_no_expression_goes_on(rt: HostRuntime) {
    let alloc = rt.alloc();
    let options = NameTable::new(alloc);
    stops(&rt, alloc, &options, b"VK_A,", 5);
    stops(&rt, alloc, &options, b"", 0);
    stops(&rt, alloc, &options, b"VkF:m", 4);
    stops(&rt, alloc, &options, b"VkF::m::n", 6);
    stops(&rt, alloc, &options, b"A++B", 2);
    stops(&rt, alloc, &options, b"(A", 2);
    stops(&rt, alloc, &options, b"A)", 1);
    stops(&rt, alloc, &options, b"(A)B", 3);
    stops(&rt, alloc, &options, b"A:::B", 3);
    stops(&rt, alloc, &options, b"A::", 3);
    stops(&rt, alloc, &options, b"::A", 0);
    stops(&rt, alloc, &options, b"()", 1);
    stops(&rt, alloc, &options, b"A\xff", 1);
}

#[test]
fn places_of_names_are_found(rt: HostRuntime) -> Result<(), Fail> {
    let alloc = rt.alloc();
    let found = places(alloc, b"VK_A,VkF::m")?;
    assert_eq!(rt; found.as_slice(), [(0, 4), (5, 11)].as_slice());
    let found = places(alloc, b"((a)+(b,c))")?;
    assert_eq!(rt; found.as_slice(), [(2, 3), (6, 7), (8, 9)].as_slice());
    Ok(())
}

/// So many copies of a byte, with another between them.
fn repeated(alloc: Global, byte: u8, between: Option<u8>, count: u32) -> Result<Vec<u8>, Memory> {
    let mut text = Vec::new(alloc);
    for place in 0..count {
        if place > 0 {
            if let Some(joint) = between {
                text.push(joint)?;
            }
        }
        text.push(byte)?;
    }
    Ok(text)
}

#[test]
fn the_greatest_expressions_are_read(rt: HostRuntime) -> Result<(), Fail> {
    let alloc = rt.alloc();
    let options = table(alloc, &[b"A"])?;
    let most = repeated(alloc, b'A', Some(b'+'), 4096)?;
    says(&rt, alloc, &options, most.as_slice(), true);
    let more = repeated(alloc, b'A', Some(b'+'), 4097)?;
    stops(&rt, alloc, &options, more.as_slice(), 8191);
    let open = repeated(alloc, b'(', None, 100_000)?;
    stops(&rt, alloc, &options, open.as_slice(), 64);
    let root = tree_root(alloc, most.as_slice(), &options)?;
    assert_eq!(rt; root, NodeId(8190));
    Ok(())
}

/// The name `A` in so many parentheses.
fn nested(alloc: Global, depth: u32) -> Result<Vec<u8>, Memory> {
    let mut text = repeated(alloc, b'(', None, depth)?;
    text.push(b'A')?;
    let shut = repeated(alloc, b')', None, depth)?;
    text.extend_from_slice(shut.as_slice())?;
    Ok(text)
}

#[test]
fn parentheses_add_nothing(rt: HostRuntime) -> Result<(), Fail> {
    let alloc = rt.alloc();
    let options = table(alloc, &[b"A"])?;
    let deepest = nested(alloc, 64)?;
    says(&rt, alloc, &options, deepest.as_slice(), true);
    let deeper = nested(alloc, 65)?;
    stops(&rt, alloc, &options, deeper.as_slice(), 64);
    Ok(())
}

/// The place of an expression's node in a new pool.
fn tree_root(alloc: Global, text: &[u8], options: &NameTable) -> Result<NodeId, ExprFault> {
    let formula = read(alloc, text, options)?;
    let mut pool = Pool::new(alloc);
    Ok(pool.put_tree(&formula)?)
}

/// Two nodes.
fn pair(alloc: Global, first: u64, second: u64) -> Result<Listed<NodeId>, Memory>
    ensures { IfOk result (λ parts. All (λ part. part ≤ max first second) (map (λ part. part.0) parts)) }
{
    let mut parts = Vec::new(alloc);
    parts.push(NodeId(first))?;
    parts.push(NodeId(second))?;
    Ok(Listed::from_vec(parts))
}

/// Puts a node, of which little is told.
fn put(pool: &mut Pool, node: PoolNode) -> Result<(), Memory>
    requires { All (λ part. part < length pool.old) (parts_of node) }
    ensures count { OnOk result (length pool.new ≡ length pool.old + 1) }
    ensures reach { OnOk result (pool_reach pool.new ≡ max (pool_reach pool.old) (reach_at node)) }
{
    pool.put(node)?;
    Ok(())
}

#[test]
fn nodes_of_a_pool_have_values(rt: HostRuntime) -> Result<(), Fail> {
    let alloc = rt.alloc();
    let mut pool = Pool::new(alloc);
    put(&mut pool, PoolNode::Var(0))?;
    put(&mut pool, PoolNode::Var(1))?;
    put(&mut pool, PoolNode::Any(pair(alloc, 0, 1)?))?;
    put(&mut pool, PoolNode::Not(NodeId(2)))?;
    put(&mut pool, PoolNode::All(pair(alloc, 2, 3)?))?;
    let values = pool.values(&[true, false])?;
    assert_eq!(rt;
        values.as_slice(),
        [true, false, true, false, false].as_slice()
    );
    assert_eq!(rt; pool.size(), 10);
    assert!(rt; matches!(pool.node(NodeId(1)), PoolNode::Var(1)));
    assert!(rt; matches!(pool.node(NodeId(3)), PoolNode::Not(NodeId(2))));
    pool.cut(2);
    assert_eq!(rt; pool.size(), 2);
    Ok(())
}

/// The formula that a variable is false.
fn negated(alloc: Global, variable: u32) -> Result<Formula, Memory>
    ensures { IfOk result (λ f. reach_of f ≤ variable + 1) }
{
    not(alloc, Formula::Var(variable))
}

#[test]
fn a_tree_in_a_pool_has_its_value(rt: HostRuntime) -> Result<(), Fail> {
    let alloc = rt.alloc();
    let mut pool = Pool::new(alloc);
    let tree = negated(alloc, 0)?;
    let root = pool.put_tree(&tree)?;
    assert_eq!(rt; root, NodeId(1));
    let values = pool.values(&[true])?;
    assert_eq!(rt; values.as_slice(), [true, false].as_slice());
    Ok(())
}

#[test]
#[tactic(auto, using(crate::proofs::FormulaLemmas::formula_facts))]
fn a_formula_of_no_variables_has_a_value(rt: HostRuntime) -> Result<(), Fail> {
    let alloc = rt.alloc();
    assert!(rt; all(Vec::new(alloc)).value(&[]));
    assert!(rt; !any(Vec::new(alloc)).value(&[]));
    let truth = not(alloc, Formula::Never)?;
    assert!(rt; truth.value(&[]));
    Ok(())
}
