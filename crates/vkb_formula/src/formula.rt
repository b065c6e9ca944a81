ghost use Rattle.std.specs.Prelude.{◌≡◌, ◌+◌, ◌≤◌, Bool, List, length, not, sum_by, map, IfOk};
ghost use Rattle.std.specs.List.{list_all, list_any};
ghost use Rattle.vkb_formula.specs.Formulas.{value_of, reach_of, greatest, size_of, variables_of, clauses_of};

use sqlite_items::{Boxed, Items};
use std::alloc::Global;
use vkb_bytes::Memory;

/// A formula over numbered variables. An empty `All` is true, and an empty `Any` is false.
#[derive(Drop)]
pub enum Formula {
    Always,
    Never,
    Var(u32),
    Not(Boxed<Formula>),
    All(Items<Formula>),
    Any(Items<Formula>),
}

impl Formula {
    /// The value of the formula at a set, which tells of each variable whether it is true. It takes no memory.
    #[cycle(value)]
    #[tactic(auto, using(crate::proofs::FormulaLemmas::formula_facts))]
    pub fn value(&self, set: &[bool]) -> bool
        requires { reach_of self.now ≤ length set.now }
        ensures { result ≡ value_of set.now self.now }
    {
        match self {
            Formula::Always => true,
            Formula::Never => false,
            Formula::Var(variable) => set[*variable as usize],
            Formula::Not(part) => !part.get().value(set),
            Formula::All(parts) => all_hold(parts.as_slice(), set),
            Formula::Any(parts) => any_holds(parts.as_slice(), set),
        }
    }
}

/// Whether each of the formulas holds.
#[cycle(value)]
fn all_hold(parts: &[Formula], set: &[bool]) -> bool
    requires { greatest (map reach_of parts.now) ≤ length set.now }
    ensures { result ≡ list_all (value_of set.now) parts.now }
{
    for part in parts {
        if !part.value(set) {
            return false;
        }
    }
    true
}

/// Whether one of the formulas holds.
#[cycle(value)]
fn any_holds(parts: &[Formula], set: &[bool]) -> bool
    requires { greatest (map reach_of parts.now) ≤ length set.now }
    ensures { result ≡ list_any (value_of set.now) parts.now }
{
    for part in parts {
        if part.value(set) {
            return true;
        }
    }
    false
}

/// The formula that holds where each of the parts does. It takes no memory.
#[tactic(auto, using(crate::proofs::FormulaLemmas::formula_facts))]
pub fn all(parts: Vec<Formula>) -> Formula
    ensures shape { result ≡ Formula.All parts.items }
    ensures value { (set : List Bool) → value_of set result ≡ list_all (value_of set) parts.items }
    ensures reach { reach_of result ≡ greatest (map reach_of parts.items) }
    ensures size { size_of result ≡ 1 + sum_by size_of parts.items }
    ensures variables { variables_of result ≡ 1 + sum_by variables_of parts.items }
    ensures clauses { clauses_of result ≡ length parts.items + 1 + sum_by clauses_of parts.items }
{
    Formula::All(Items::from_vec(parts))
}

/// The formula that holds where one of the parts does. It takes no memory.
#[tactic(auto, using(crate::proofs::FormulaLemmas::formula_facts))]
pub fn any(parts: Vec<Formula>) -> Formula
    ensures shape { result ≡ Formula.Any parts.items }
    ensures value { (set : List Bool) → value_of set result ≡ list_any (value_of set) parts.items }
    ensures reach { reach_of result ≡ greatest (map reach_of parts.items) }
    ensures size { size_of result ≡ 1 + sum_by size_of parts.items }
    ensures variables { variables_of result ≡ 1 + sum_by variables_of parts.items }
    ensures clauses { clauses_of result ≡ length parts.items + 1 + sum_by clauses_of parts.items }
{
    Formula::Any(Items::from_vec(parts))
}

/// The formula that holds where the part doesn't.
pub fn not(alloc: Global, part: Formula) -> Result<Formula, Memory>
    ensures shape { IfOk result (λ f. f ≡ Formula.Not part) }
    ensures value { IfOk result (λ f. (set : List Bool) → value_of set f ≡ not (value_of set part)) }
    ensures reach { IfOk result (λ f. reach_of f ≡ reach_of part) }
    ensures size { IfOk result (λ f. size_of f ≡ 1 + size_of part) }
    ensures variables { IfOk result (λ f. variables_of f ≡ variables_of part) }
    ensures clauses { IfOk result (λ f. clauses_of f ≡ clauses_of part) }
{
    Ok(Formula::Not(Boxed::new(alloc, part)?))
}
