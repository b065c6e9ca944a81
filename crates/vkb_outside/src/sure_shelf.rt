ghost use Rattle.std.specs.Prelude.{◌≡◌, Some, IsTrue, IsSome, IsOk};
ghost use Rattle.vkb_outside.specs.Held.{held, names_differ, file_at, with_file, IsAnswer};
ghost use Rattle.vkb_outside.specs.Shelf.{Reads, IsWithin, CountsRead, Puts, CountsPut};

use crate::held::{put_into, read_from};
use crate::{PutTrouble, ReadTrouble, Shelf};
use std::alloc::Global;
use std::marker::Model;

/// Files in memory. No call fails.
#[derive(Debug, Drop)]
pub struct SureShelf {
    files: Vec<(String, Vec<u8>)>,
}

impl Model for SureShelf {
    ghost use Rattle.std.specs.Prelude.{ℕ, List, IsTrue};
    ghost use Rattle.vkb_outside.specs.Held.{held, names_differ};

    ghost Value = { List (List ℕ × List ℕ) };

    ghost view = { λ s. held s.files.items };

    ghost invariant = { λ s. IsTrue (names_differ (held s.files.items)) };
}

impl SureShelf {
    /// A shelf of these files, each a name and its bytes. It takes no memory.
    pub fn new(files: Vec<(String, Vec<u8>)>) -> SureShelf
        requires { IsTrue (names_differ (held files.items)) }
        ensures { result ≡ held files.items }
    {
        SureShelf { files }
    }

    /// The files that are held.
    pub fn files(&self) -> &[(String, Vec<u8>)]
        ensures files { held result.now ≡ self.now }
        ensures differ { IsTrue (names_differ self.now) }
    {
        self.files.as_slice()
    }
}

impl Shelf for SureShelf {
    ghost holds = { λ s. Some (file_at s) };

    ghost read_faults = { λ s. 0 };

    ghost put_faults = { λ s. 0 };

    fn read(&mut self, alloc: Global, name: &str, most: u32) -> Result<Option<Vec<u8>>, ReadTrouble>
        ensures read { Reads (file_at self.old) name.now most result }
        ensures within { IsWithin most result }
        ensures kept { self.new ≡ self.old }
        ensures counted { CountsRead 0 0 result }
        ensures answers { IsAnswer (file_at self.old name.now) most result }
    {
        read_from(alloc, &self.files, name, most)
    }

    fn put(&mut self, name: &str, bytes: Vec<u8>) -> Result<(), PutTrouble>
        requires { IsSome (file_at self.old name.now) }
        ensures put { Puts name.now bytes.items result (Some (file_at self.old)) (Some (file_at self.new)) }
        ensures counted { CountsPut 0 0 result }
        ensures sure { IsOk result }
        ensures shelf { self.new ≡ with_file self.old name.now bytes.items }
    {
        put_into(&mut self.files, name, bytes);
        Ok(())
    }
}
