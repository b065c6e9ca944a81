ghost use Rattle.std.specs.Prelude.{◌≡◌, ℕ, ◌≤◌, List, length, Option, OnOk, OnErr};
ghost use Rattle.vkb_outside.specs.Sink.{Writes, CountsWrite};

use thiserror::Error;

/// There was no memory.
#[derive(Clone, Copy, Debug, PartialEq, Eq, Error)]
#[error("out of memory")]
pub struct Memory;

/// The system failed to take all the bytes.
#[derive(Clone, Copy, Debug, PartialEq, Eq, Error)]
#[error("the bytes could not be written")]
pub struct SinkTrouble;

/// Where the output goes.
pub trait Sink {
    /// The bytes that were written, where the sink tells them.
    ghost written: { Self → Option (List ℕ) };

    /// How many bytes can be written with no more memory.
    ghost spare: { Self → ℕ };

    /// How often a write has failed.
    ghost faults: { Self → ℕ };

    /// Makes room for `count` more bytes.
    fn ready(&mut self, count: usize) -> Result<(), Memory>
        ensures room { OnOk result (count ≤ spare self.new) }
        ensures kept { written self.new ≡ written self.old }
        ensures same { OnErr result (spare self.new ≡ spare self.old) }
        ensures counted { faults self.new ≡ faults self.old };

    /// Appends the bytes, and takes no memory. After an error a prefix of them was appended.
    fn write(&mut self, bytes: &[u8]) -> Result<(), SinkTrouble>
        requires { length bytes.now ≤ spare self.old }
        ensures written { Writes bytes.now result (written self.old) (written self.new) }
        ensures counted { CountsWrite (faults self.old) (faults self.new) result };
}
