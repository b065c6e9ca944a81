ghost use Rattle.std.specs.Prelude.{◌≡◌, ◌<◌, ◌≤◌, ◌^◌, ℕ, length, reverse};
ghost use Rattle.reg_reader.specs.Machine.{run};
ghost use Rattle.reg_reader.specs.Reading.{IsRead, IsFaultAt, IsEndOf, state_of};

use crate::markup::{MarkupFault, Node};
use crate::passing::passed;
use crate::phase::Phase;
use crate::reader::{Reader, Stop};
use std::alloc::Global;

/// The fault of a reader that stopped at a place.
fn fault_at(stop: Stop, n: u32) -> MarkupFault
    ensures { IsFaultAt n stop result }
{
    match stop {
        Stop::Wrong => MarkupFault::BadMarkup { at: n },
        Stop::TooDeep => MarkupFault::TooDeep {
            at: n.saturating_sub(1),
        },
        Stop::Memory => MarkupFault::Memory,
    }
}

/// What was read where the bytes end.
fn finish(reader: Reader, end: u32) -> Result<Node, MarkupFault>
    ensures { IsEndOf end (state_of reader) result }
{
    let Reader {
        phase,
        opens: _opens,
        root,
    } = reader;
    match (phase, root) {
        (Phase::Outside, Some(root)) => Ok(root),
        _ => Err(MarkupFault::BadMarkup { at: end }),
    }
}

/// Reads all bytes.
pub fn read(alloc: Global, bytes: &[u8]) -> Result<Node, MarkupFault>
    requires { length bytes.now < 2 ^ 32 }
    ensures { IsRead bytes.now result }
{
    let mut reader = Reader::new(alloc);
    let end = bytes.len() as u32;
    let mut n = 0;
    while n < end {
        if let Err(stop) = reader.step(alloc, bytes, n) {
            return Err(fault_at(stop, n));
        }
        n = passed(&reader, bytes, n + 1);
    }
    finish(reader, end)
}
