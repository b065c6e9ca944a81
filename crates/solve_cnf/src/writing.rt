//! What is found, in the forms in which solvers tell it.
ghost use Rattle.std.specs.Prelude.{◌≡◌};

use sat_cnf::Lit;
use sat_proof::Step;
use std::io;
use std::io::Write;

/// How many variables stand in a line.
const A_LINE: usize = 10;

/// Writes which variables are true.
pub(crate) fn write_model(out: &mut impl Write, values: &[bool]) -> io::Result<()> {
    writeln!(out, "s SATISFIABLE")?;
    let mut number = 0u64;
    for line in values.chunks(A_LINE) {
        write!(out, "v")?;
        for value in line {
            number = number.saturating_add(1);
            let sign = if *value { "" } else { "-" };
            write!(out, " {sign}{number}")?;
        }
        writeln!(out)?;
    }
    writeln!(out, "v 0")
}

/// Writes steps behind so many clauses.
pub(crate) fn write_steps(out: &mut impl Write, clauses: u64, steps: &[Step]) -> io::Result<()> {
    let mut number = clauses;
    for step in steps {
        number = number.saturating_add(1);
        write!(out, "{number}")?;
        for lit in step.clause.as_slice() {
            write_lit(out, *lit)?;
        }
        write!(out, " 0")?;
        for hint in step.hints.as_slice() {
            let clause = hint.saturating_add(1);
            write!(out, " {clause}")?;
        }
        writeln!(out, " 0")?;
    }
    Ok(())
}

/// Writes a literal.
fn write_lit(out: &mut impl Write, lit: Lit) -> io::Result<()> {
    let variable = lit.variable().saturating_add(1);
    let sign = if lit.is_negated() { "-" } else { "" };
    write!(out, " {sign}{variable}")
}
