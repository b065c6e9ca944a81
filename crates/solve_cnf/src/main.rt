//! Solves clauses in DIMACS form, which it reads from standard input.
//!
//! ```text
//! c three clauses over two variables
//! p cnf 2 3
//! 1 2 0
//! -1 2 0
//! -2 0
//! ```
//!
//! It prints `s SATISFIABLE` and the variables that are true, and with a `-` those that are false, in `v` lines, and ends with status 10;
//! or it prints `s UNSATISFIABLE`, and behind it, with the word `proof`, a refutation in LRAT form, and ends with status 20. With a fault
//! in what it reads, it says so with the line's number, and ends with status 1.
#![tactic(auto)]

ghost use Rattle.std.specs.Prelude.{◌≡◌, ◌≤◌, length, IfOk};
ghost use Rattle.sat_core.specs.Outcomes.{IsOutcome};
ghost use Rattle.sat_core.specs.Searching.{most};

mod fault;
mod reader;
mod writing;

use fault::{Fault, Trouble};
use reader::Reader;
use sat_cnf::Clauses;
use sat_core::{Outcome, solve};
use sat_proof::trim;
use std::alloc::Global;
use std::io::{BufRead, BufReader, BufWriter, Write};
use std::process::ExitCode;
use std::{env, io};
use writing::{write_model, write_steps};

fn main(rt: HostRuntime) -> ExitCode {
    match solve_input(&rt) {
        Ok(status) => ExitCode::from(status),
        Err(fault) => {
            let _ = println!(rt; "c {fault}");
            ExitCode::from(1)
        }
    }
}

/// Solves what standard input has, and gives the status.
fn solve_input(rt: &HostRuntime) -> Result<u8, Fault> {
    let alloc = rt.alloc();
    let wants_proof = wants_proof(rt)?;
    let clauses = read(rt, alloc)?;
    let outcome = solve(alloc, &clauses)?;
    answer(rt, alloc, &clauses, outcome, wants_proof)
}

/// Whether the first word is `proof`.
fn wants_proof(rt: &HostRuntime) -> Result<bool, Fault> {
    let words: Vec<String> = env::args(rt)?.skip(1).collect(rt.alloc())?;
    Ok(matches!(words.first(), Some(word) if word.as_str() == "proof"))
}

/// Why a line isn't read.
fn fault_at(number: u64, error: io::Error) -> Fault {
    if error.kind() == io::ErrorKind::InvalidData {
        Fault::Line(number, Trouble::NoText)
    } else {
        Fault::Io(error)
    }
}

/// Reads clauses.
fn read(rt: &HostRuntime, alloc: Global) -> Result<Clauses, Fault>
    ensures vars { IfOk result (λ clauses. clauses.vars ≤ most) }
    ensures clauses { IfOk result (λ clauses. length clauses.list ≤ most) }
{
    let mut reader = Reader::new(alloc);
    let mut number = 0u64;
    for line in BufReader::new(alloc, rt.reader())?.lines(alloc) {
        number = number.saturating_add(1);
        let line = line.map_err(|error| fault_at(number, error))?;
        reader
            .read_line(alloc, line.as_str())
            .map_err(|trouble| Fault::Line(number, trouble))?;
    }
    reader.finish()
}

/// Prints an outcome, and gives the status.
fn answer(
    rt: &HostRuntime,
    alloc: Global,
    clauses: &Clauses,
    outcome: Outcome,
    wants_proof: bool,
) -> Result<u8, Fault>
    requires { IsOutcome clauses.now outcome }
{
    let mut out = BufWriter::new(alloc, io::writer(rt))?;
    match outcome {
        Outcome::Model(values) => {
            write_model(&mut out, values.as_slice())?;
            Ok(10)
        }
        Outcome::Refuted(steps) => {
            writeln!(out, "s UNSATISFIABLE")?;
            if wants_proof {
                let kept = trim(alloc, clauses, steps.as_slice())?;
                write_steps(&mut out, clauses.len(), kept.as_slice())?;
            }
            Ok(20)
        }
    }
}
