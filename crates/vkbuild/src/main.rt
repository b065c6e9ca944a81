//! The program: its words, the files of the current folder and standard output, given to the one call that does the work.
#![tactic(auto)]

mod folder;
mod output;
mod pieces;
mod words;

use folder::FolderShelf;
use output::OutSink;
use std::io;
use std::process::ExitCode;
use vkb_tool::run;
use words::{WordsTrouble, words_of};

fn main(rt: HostRuntime) -> ExitCode {
    let alloc = rt.alloc();
    match words_of(&rt, alloc) {
        Ok(words) => {
            let mut shelf = FolderShelf::new(&rt);
            let mut output = OutSink::new(io::writer(&rt));
            ExitCode::from(run(alloc, &words, &mut shelf, &mut output).number())
        }
        Err(WordsTrouble::Memory) => ExitCode::from(6),
        Err(WordsTrouble::TooMany) => ExitCode::from(7),
    }
}

#[cfg(test)]
mod tests;
