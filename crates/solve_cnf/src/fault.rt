use sat_cnf::Memory;
use std::alloc::{AllocError, AllocFailed};
use std::io;
use thiserror::Error;

/// Why a line isn't in DIMACS form.
#[derive(Clone, Copy, Debug, PartialEq, Eq, Error)]
pub enum Trouble {
    #[error("it isn't text")]
    NoText,
    #[error("it must be `p cnf VARIABLES CLAUSES`")]
    NoHeader,
    #[error("there are at most 16777216 variables and clauses")]
    TooLarge,
    #[error("it has a word that isn't a number")]
    NoNumber,
    #[error("it has a number of no variable")]
    NoVariable,
    #[error("it has more clauses than the first line says")]
    TooMany,
    #[error("out of memory")]
    Memory,
}

/// Why clauses aren't solved.
#[derive(Debug, Drop, Error)]
pub enum Fault {
    #[error("line {0}: {1}")]
    Line(u64, Trouble),
    #[error("the clauses end too early")]
    Unfinished,
    #[error("out of memory")]
    Memory,
    #[error("{0}")]
    Io(io::Error),
}

impl From<Memory> for Trouble {
    fn from(_: Memory) -> Trouble {
        Trouble::Memory
    }
}

impl From<AllocError> for Trouble {
    fn from(_: AllocError) -> Trouble {
        Trouble::Memory
    }
}

impl<T: Drop> From<AllocFailed<T>> for Trouble {
    fn from(_: AllocFailed<T>) -> Trouble {
        Trouble::Memory
    }
}

impl From<Memory> for Fault {
    fn from(_: Memory) -> Fault {
        Fault::Memory
    }
}

impl From<AllocError> for Fault {
    fn from(_: AllocError) -> Fault {
        Fault::Memory
    }
}

impl From<io::Error> for Fault {
    fn from(error: io::Error) -> Fault {
        Fault::Io(error)
    }
}
