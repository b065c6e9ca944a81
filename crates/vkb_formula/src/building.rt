ghost use Rattle.std.specs.Prelude.{◌≡◌, ◌≤◌, ◌<◌, ◌+◌, ◌++◌, ◌∷◌, [], length, fold, Some, None, IfOk, slice_range, slice_index_or};
ghost use Rattle.vkb_formula.specs.Expressions.{formula_of_name};
ghost use Rattle.vkb_formula.specs.Building.{Built, joined, joined_by, atom_built, level_built, with_byte, built_from, joint_of, nothing_built, built_so_far};

use crate::formula::{Formula, all, any};
use crate::name_table::NameTable;
use std::alloc::Global;
use vkb_bytes::Memory;

/// How two formulas are joined.
#[derive(Clone, Copy)]
pub enum Joint {
    /// Both must hold: `+`.
    And,
    /// One must hold: `,`.
    Or,
}

/// What stands before an atom, and how it is joined with it.
#[derive(Drop)]
pub struct Left {
    pub formula: Formula,
    pub joint: Joint,
}

/// The formulas of an expression that was read in part.
#[derive(Drop)]
pub struct Building {
    /// What stands before each open parenthesis, the outermost first.
    pub outer: Vec<Option<Left>>,
    /// What stands before the atom in the innermost one.
    pub left: Option<Left>,
    /// The expression in the parentheses that were just closed.
    pub closed: Option<Formula>,
    /// Where the name that is being read begins.
    pub from: usize,
}

/// How a byte joins two formulas.
fn joint_of(byte: u8) -> Option<Joint>
    ensures { result ≡ joint_of byte }
{
    match byte {
        b'+' => Some(Joint::And),
        b',' => Some(Joint::Or),
        _ => None,
    }
}

/// The formula of a name: its variable, or what is false where it is no option.
fn name_formula(options: &NameTable, name: &[u8]) -> Formula
    ensures { result ≡ formula_of_name options.now name.now }
{
    match options.find(name) {
        Some(id) => Formula::Var(id.0),
        None => Formula::Never,
    }
}

/// A formula joined with what stands before it.
fn join(alloc: Global, left: Option<Left>, formula: Formula) -> Result<Formula, Memory>
    ensures { IfOk result (λ f. f ≡ joined left formula) }
{
    let Some(left) = left else {
        return Ok(formula);
    };
    let Left {
        formula: first,
        joint,
    } = left;
    let mut parts = Vec::with_capacity(alloc, 2)?;
    parts.push(first)?;
    parts.push(formula)?;
    Ok(match joint {
        Joint::And => all(parts),
        Joint::Or => any(parts),
    })
}

/// The formula of an expression.
pub fn build(alloc: Global, text: &[u8], options: &NameTable) -> Result<Formula, Memory>
    ensures { IfOk result (λ f. f ≡ built_from options.now text.now) }
{
    let mut building = Building {
        outer: Vec::new(alloc),
        left: None,
        closed: None,
        from: 0,
    };
    for at in 0..text.len() {
        building = with_byte(alloc, building, text, at, options)?;
    }
    level(
        alloc,
        building.left,
        building.closed,
        &text[building.from..],
        options,
    )
}

/// All that stands in the innermost open parenthesis: the atom that was read last, which is the expression just closed
/// or else a name, joined with what stands before it.
fn level(
    alloc: Global,
    left: Option<Left>,
    closed: Option<Formula>,
    name: &[u8],
    options: &NameTable,
) -> Result<Formula, Memory>
    ensures { IfOk result (λ f. f ≡ level_built options.now (record { outer = []; left = left; closed = closed; name = name.now })) }
{
    let atom = match closed {
        Some(formula) => formula,
        None => name_formula(options, name),
    };
    join(alloc, left, atom)
}

/// The formulas after one more byte.
fn with_byte(
    alloc: Global,
    building: Building,
    text: &[u8],
    at: usize,
    options: &NameTable,
) -> Result<Building, Memory>
    requires from { building.from ≤ at }
    requires at { at < length text.now }
    ensures from { IfOk result (λ b. b.from ≤ at + 1) }
    ensures built { IfOk result (λ b. built_so_far text.now (at + 1) b
        ≡ with_byte options.now (built_so_far text.now at building) (slice_index_or text.now at 0)) }
{
    let Building {
        mut outer,
        left,
        closed,
        from,
    } = building;
    let byte = text[at];
    if byte == b'(' {
        outer.push(left)?;
        return Ok(Building {
            outer,
            left: None,
            closed: None,
            from: at + 1,
        });
    }
    let name = &text[from..at];
    if byte == b')' {
        let inner = level(alloc, left, closed, name, options)?;
        let left = outer.pop().flatten();
        return Ok(Building {
            outer,
            left,
            closed: Some(inner),
            from: at + 1,
        });
    }
    let Some(joint) = joint_of(byte) else {
        return Ok(Building {
            outer,
            left,
            closed,
            from,
        });
    };
    let formula = level(alloc, left, closed, name, options)?;
    Ok(Building {
        outer,
        left: Some(Left { formula, joint }),
        closed: None,
        from: at + 1,
    })
}
