ghost use Rattle.std.specs.Prelude.{◌≡◌, ℕ, Option, IsSome, IfSome};
ghost use Rattle.vkb_outside.specs.Shelf.{Files, Reads, IsWithin, CountsRead, Puts, CountsPut};

use std::alloc::Global;
use thiserror::Error;

/// Why a file wasn't read.
#[derive(Clone, Copy, Debug, PartialEq, Eq, Error)]
pub enum ReadTrouble {
    /// The file has more bytes than were asked for.
    #[error("the file is too long")]
    TooLong,
    /// The system failed.
    #[error("the read failed")]
    Failed,
    #[error("out of memory")]
    Memory,
}

/// The system failed to store a file.
#[derive(Clone, Copy, Debug, PartialEq, Eq, Error)]
#[error("the file could not be stored")]
pub struct PutTrouble;

/// Files by name.
pub trait Shelf {
    /// The files, where the shelf tells them.
    ghost holds: { Self → Option Files };

    /// How often a read has failed.
    ghost read_faults: { Self → ℕ };

    /// How often a put has failed.
    ghost put_faults: { Self → ℕ };

    /// All bytes of the file under a name, of which there are at most `most`; `None` where there is no such file.
    fn read(&mut self, alloc: Global, name: &str, most: u32) -> Result<Option<Vec<u8>>, ReadTrouble>
        ensures read { IfSome (holds self.old) (λ files. Reads files name.now most result) }
        ensures within { IsWithin most result }
        ensures kept { holds self.new ≡ holds self.old }
        ensures counted { CountsRead (read_faults self.old) (read_faults self.new) result }
        ensures puts { put_faults self.new ≡ put_faults self.old };

    /// Puts bytes in the place of a file that is held. After an error the file is still held, and its bytes aren't told.
    fn put(&mut self, name: &str, bytes: Vec<u8>) -> Result<(), PutTrouble>
        requires { IfSome (holds self.old) (λ files. IsSome (files name.now)) }
        ensures put { Puts name.now bytes.items result (holds self.old) (holds self.new) }
        ensures counted { CountsPut (put_faults self.old) (put_faults self.new) result }
        ensures reads { read_faults self.new ≡ read_faults self.old };
}
