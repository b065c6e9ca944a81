//! Puts a pool of nodes into clauses, or judges a refutation, of as many nodes or steps as the words say: for the measure of how
//! long that takes.
//!
//! ```text
//! time_clauses encode 1000000      // 1000000 nodes 900001 variables 2700001 clauses
//! time_clauses judge 100000        // 100001 steps true
//! ```
//!
//! More pairs of words are done in order.
#![tactic(auto)]

ghost use Rattle.std.specs.Prelude.{◌<◌, ◌≤◌};

mod nodes;
mod refutation;

use anyhow::Result;
use nodes::{encoded, tower};
use refutation::{chain, steps_along};
use sat_proof::check;
use std::alloc::Global;
use std::env;
use std::io::Print;

/// The most nodes, or implications.
const MOST: u32 = 4_000_000;

fn main(rt: HostRuntime) -> Result<()> {
    let words: Vec<String> = env::args(&rt)?.skip(1).collect(rt.alloc())?;
    for pair in words.as_slice().chunks(2) {
        match pair {
            [work, number] => measure(&rt, rt.alloc(), work.as_str(), number.as_str())?,
            _ => println!(rt; "the last word has no number")?,
        }
    }
    Ok(())
}

/// Does one work.
fn measure(rt: &impl Print, alloc: Global, work: &str, number: &str) -> Result<()> {
    let Ok(count) = number.parse::<u32>() else {
        println!(rt; "{number}: no number")?;
        return Ok(());
    };
    if count == 0 || count > MOST {
        println!(rt; "{number}: not from 1 to {MOST}")?;
        return Ok(());
    }
    match work {
        "encode" => encode_nodes(rt, alloc, count),
        "judge" => judge_steps(rt, alloc, count),
        _ => {
            println!(rt; "{work}: neither encode nor judge")?;
            Ok(())
        }
    }
}

/// Puts so many nodes into clauses.
fn encode_nodes(rt: &impl Print, alloc: Global, count: u32) -> Result<()>
    requires some { 0 < count }
    requires most { count ≤ 4000000 }
{
    let pool = tower(alloc, u64::from(count))?;
    let clauses = encoded(alloc, &pool)?;
    let nodes = pool.len();
    let variables = clauses.vars();
    let number = clauses.len();
    println!(rt; "{nodes} nodes {variables} variables {number} clauses")?;
    Ok(())
}

/// Judges a refutation that goes along so many implications.
fn judge_steps(rt: &impl Print, alloc: Global, count: u32) -> Result<()>
    requires { count ≤ 4000000 }
{
    let clauses = chain(alloc, count)?;
    let steps = steps_along(alloc, count)?;
    let answer = check(alloc, &clauses, steps.as_slice())?;
    let number = steps.len();
    println!(rt; "{number} steps {answer}")?;
    Ok(())
}
