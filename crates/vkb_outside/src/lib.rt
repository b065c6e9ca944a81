//! What the program reads, puts and writes: files by name on a shelf, and bytes into a sink.
//!
//! Both are traits with a written meaning, so that a contract of the code above can say what was read, put and written, and that a
//! fault is answered only where the outside failed. The shelves and sinks here are in memory, and two of them fail when they are told to.
#![tactic(auto)]

mod failing;
mod held;
mod memory_shelf;
mod memory_sink;
mod room;
mod shelf;
mod sink;
mod sure_shelf;
mod sure_sink;

pub use held::names_differ;
pub use memory_shelf::MemoryShelf;
pub use memory_sink::MemorySink;
pub use shelf::{PutTrouble, ReadTrouble, Shelf};
pub use sink::{Memory, Sink, SinkTrouble};
pub use sure_shelf::SureShelf;
pub use sure_sink::SureSink;

#[cfg(test)]
mod tests;
