//! Reads the files that are named as markup of the registry, and says of each whether it could; behind the word `rows` also what each
//! declares for the API `vulkan`, or what is wrong with it. Behind `names` it also says how many names are declared where all options are
//! chosen, and what the nodes take that say at which choices each name is; behind `header` it prints the header of that choice; behind
//! `statements` it says how many statements of valid usage follow. It is there for the measure of how long that takes.
#![tactic(auto)]

ghost use Rattle.std.specs.Prelude.{◌≡◌, ◌<◌, ◌≤◌, length, true, All, IfOk};
ghost use Rattle.reg_reader.specs.Markup.{Spells};

use hdr_writer::header;
use reg_closure::{closure, order, presence};
use reg_reader::{Node, read_markup};
use reg_registry::{Choice, Registry};
use reg_rows::rows;
use std::alloc::Global;
use std::io::Print;
use std::{env, fs, io};
use vkb_bytes::Memory;
use vkb_formula::{NameId, Pool};
use vu_implicit::statements;

/// The longest registry of which rows are asked, in bytes.
const MOST_BYTES: usize = 33_554_432;

/// What is asked of a file.
#[derive(Clone, Copy, PartialEq, Eq)]
enum Wish {
    Markup,
    Rows,
    Names,
    Header,
    Statements,
}

/// What a registry declares where all its options are chosen.
struct Counts {
    /// How many names.
    declared: usize,
    /// How many nodes say at which choices each name is, and their number with that of the entries of their parts.
    nodes: u64,
    size: u64,
}

fn main(rt: HostRuntime) -> io::Result<()> {
    let mut wish = Wish::Markup;
    for path in env::args(&rt)?.skip(1) {
        match path.as_str() {
            "rows" => wish = Wish::Rows,
            "names" => wish = Wish::Names,
            "header" => wish = Wish::Header,
            "statements" => wish = Wish::Statements,
            path => print_file(&rt, rt.alloc(), path, wish)?,
        }
    }
    Ok(())
}

/// Says of a file what is asked.
fn print_file(rt: &HostRuntime, alloc: Global, path: &str, wish: Wish) -> io::Result<()> {
    let bytes = fs::read(rt, path)?;
    if bytes.len() > MOST_BYTES {
        return println!(rt; "{path}: too long");
    }
    let length = bytes.len();
    match read_markup(alloc, &bytes) {
        Ok(tree) => {
            println!(rt; "{path}: {length} bytes are markup")?;
            if wish != Wish::Markup {
                print_rows(rt, alloc, path, &bytes, &tree, wish)?;
            }
            Ok(())
        }
        Err(fault) => println!(rt; "{path}: {fault}"),
    }
}

/// Says what a registry declares for the API `vulkan`, or what is wrong with it.
fn print_rows(
    rt: &impl Print,
    alloc: Global,
    path: &str,
    bytes: &[u8],
    tree: &Node,
    wish: Wish,
) -> io::Result<()>
    requires tree { Spells 32 tree.now bytes.now }
    requires small { length bytes.now ≤ 33554432 }
{
    match rows(alloc, bytes, tree, b"vulkan") {
        Ok(registry) => {
            let names = registry.names().len();
            let options = registry.options().len();
            let blocks = registry.blocks().len();
            println!(rt; "{path}: {names} names, {options} options, {blocks} blocks")?;
            match wish {
                Wish::Markup | Wish::Rows => Ok(()),
                Wish::Names => print_names(rt, alloc, path, &registry),
                Wish::Header => print_header(rt, alloc, path, &registry),
                Wish::Statements => print_statements(rt, alloc, path, &registry),
            }
        }
        Err(fault) => println!(rt; "{path}: {fault}"),
    }
}

/// Says how many names a registry declares where all its options are chosen.
fn print_names(rt: &impl Print, alloc: Global, path: &str, registry: &Registry) -> io::Result<()> {
    match count_names(alloc, registry) {
        Ok(
            Counts {
                declared,
                nodes,
                size,
            },
        ) => println!(rt; "{path}: {declared} of them in order, {nodes} nodes of size {size}"),
        Err(Memory) => println!(rt; "{path}: out of memory"),
    }
}

/// Prints the header of a registry where all its options are chosen.
fn print_header(rt: &impl Print, alloc: Global, path: &str, registry: &Registry) -> io::Result<()> {
    match whole_header(alloc, registry) {
        Ok(text) => match String::from_utf8(text) {
            Ok(text) => print!(rt; "{text}"),
            Err(_) => println!(rt; "{path}: no text"),
        },
        Err(Memory) => println!(rt; "{path}: out of memory"),
    }
}

/// Says how many statements of valid usage follow from a registry.
fn print_statements(
    rt: &impl Print,
    alloc: Global,
    path: &str,
    registry: &Registry,
) -> io::Result<()> {
    match count_statements(alloc, registry) {
        Ok(count) => println!(rt; "{path}: {count} statements"),
        Err(Memory) => println!(rt; "{path}: out of memory"),
    }
}

/// The header of a registry where all its options are chosen.
fn whole_header(alloc: Global, registry: &Registry) -> Result<Vec<u8>, Memory> {
    let choice = all_chosen(alloc, registry)?;
    let set = closure(alloc, registry, &choice)?;
    let order = order(alloc, registry, &set)?;
    let mut text = Vec::new(alloc);
    if are_below(&order, registry.names().len()) {
        text = header(alloc, registry, &choice, &order)?.into_vec();
    }
    Ok(text)
}

/// Whether all of these are below a number.
fn are_below(ids: &[NameId], end: u32) -> bool
    ensures { result ≡ true → All (λ id. id.0 < end) ids.now }
{
    for id in ids {
        if id.0 >= end {
            return false;
        }
    }
    true
}

/// Counts the statements of all names.
fn count_statements(alloc: Global, registry: &Registry) -> Result<usize, Memory> {
    let mut count: usize = 0;
    for place in 0..registry.names().len() {
        let said = statements(alloc, registry, NameId(place))?;
        count = count.saturating_add(said.len());
    }
    Ok(count)
}

/// Counts what a registry declares where all its options are chosen.
fn count_names(alloc: Global, registry: &Registry) -> Result<Counts, Memory> {
    let choice = all_chosen(alloc, registry)?;
    let set = closure(alloc, registry, &choice)?;
    let declared = order(alloc, registry, &set)?.len();
    let mut pool = Pool::new(alloc);
    let _ids = presence(alloc, registry, &mut pool)?;
    Ok(Counts {
        declared,
        nodes: pool.len(),
        size: pool.size(),
    })
}

/// The choice of all options of a registry.
fn all_chosen(alloc: Global, registry: &Registry) -> Result<Choice, Memory>
    ensures { IfOk result (λ c. length c.chosen.items ≡ length registry.now.options) }
{
    let chosen = vec![in alloc; true; registry.options().len() as usize]?;
    Ok(Choice { chosen })
}

#[cfg(test)]
mod tests;
