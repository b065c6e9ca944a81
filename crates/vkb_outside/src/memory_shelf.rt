ghost use Rattle.std.specs.Prelude.{◌≡◌, ◌<◌, ◌^◌, ◌↔◌, Some, IsTrue, IsSome, IsErr};
ghost use Rattle.std.specs.Bool.{OnTrue, OnFalse};
ghost use Rattle.vkb_outside.specs.Held.{held, names_differ, file_at, IsAnswer};
ghost use Rattle.vkb_outside.specs.MemoryShelf.{fails, after_read, after_put};
ghost use Rattle.vkb_outside.specs.Shelf.{Reads, IsWithin, CountsRead, Puts, CountsPut};

use crate::failing::is_among;
use crate::held::{put_into, read_from};
use crate::{PutTrouble, ReadTrouble, Shelf};
use std::alloc::Global;
use std::marker::Model;

/// Files in memory, some of whose calls fail.
#[derive(Debug, Drop)]
pub struct MemoryShelf {
    files: Vec<(String, Vec<u8>)>,
    failing: Vec<u32>,
    calls: u64,
    read_faults: u64,
    put_faults: u64,
}

impl Model for MemoryShelf {
    ghost use Rattle.std.specs.Prelude.{◌+◌, ◌≤◌, IsTrue};
    ghost use Rattle.vkb_outside.specs.Held.{held, names_differ};
    ghost use Rattle.vkb_outside.specs.MemoryShelf.{FailingFiles};

    ghost Value = { FailingFiles };

    ghost view = { λ s. record {
      files = held s.files.items;
      failing = s.failing.items;
      calls = s.calls;
      read_faults = s.read_faults;
      put_faults = s.put_faults;
    } };

    ghost invariant = { λ s. (s.read_faults + s.put_faults ≤ s.calls) × IsTrue (names_differ (held s.files.items)) };
}

impl MemoryShelf {
    /// A shelf of these files, each a name and its bytes. The calls of `read` and `put` are counted together from 1, and those whose
    /// number is in `failing` fail. It takes no memory.
    pub fn new(files: Vec<(String, Vec<u8>)>, failing: Vec<u32>) -> MemoryShelf
        requires { IsTrue (names_differ (held files.items)) }
        ensures { result ≡ record {
          files = held files.items;
          failing = failing.items;
          calls = 0;
          read_faults = 0;
          put_faults = 0;
        } }
    {
        MemoryShelf {
            files,
            failing,
            calls: 0,
            read_faults: 0,
            put_faults: 0,
        }
    }

    /// The files that are held.
    pub fn files(&self) -> &[(String, Vec<u8>)]
        ensures files { held result.now ≡ self.now.files }
        ensures differ { IsTrue (names_differ self.now.files) }
    {
        self.files.as_slice()
    }
}

impl Shelf for MemoryShelf {
    ghost holds = { λ s. Some (file_at s.files) };

    ghost read_faults = { λ s. s.read_faults };

    ghost put_faults = { λ s. s.put_faults };

    fn read(&mut self, alloc: Global, name: &str, most: u32) -> Result<Option<Vec<u8>>, ReadTrouble>
        ensures read { Reads (file_at self.old.files) name.now most result }
        ensures within { IsWithin most result }
        ensures kept { self.new.files ≡ self.old.files }
        ensures counted { CountsRead self.old.read_faults self.new.read_faults result }
        ensures puts { self.new.put_faults ≡ self.old.put_faults }

        ensures fails { OnTrue (fails self.old) (result ≡ Err ReadTrouble.Failed) }
        ensures answers { OnFalse (fails self.old) (IsAnswer (file_at self.old.files name.now) most result) }
        ensures shelf { self.new ≡ after_read self.old }

        // No call after the 4,294,967,295th fails.
        ensures early { result ≡ Err ReadTrouble.Failed → self.new.calls < 2 ^ 32 }
    {
        let number = self.calls.saturating_add(1);
        self.calls = number;
        if is_among(&self.failing, number) {
            self.read_faults += 1;
            return Err(ReadTrouble::Failed);
        }
        read_from(alloc, &self.files, name, most)
    }

    fn put(&mut self, name: &str, bytes: Vec<u8>) -> Result<(), PutTrouble>
        requires { IsSome (file_at self.old.files name.now) }
        ensures put { Puts name.now bytes.items result (Some (file_at self.old.files)) (Some (file_at self.new.files)) }
        ensures counted { CountsPut self.old.put_faults self.new.put_faults result }
        ensures reads { self.new.read_faults ≡ self.old.read_faults }

        ensures fails { IsErr result ↔ IsTrue (fails self.old) }
        ensures shelf { self.new ≡ after_put self.old name.now bytes.items }

        // No call after the 4,294,967,295th fails.
        ensures early { IsErr result → self.new.calls < 2 ^ 32 }
    {
        let number = self.calls.saturating_add(1);
        self.calls = number;
        if is_among(&self.failing, number) {
            self.put_faults += 1;
            return Err(PutTrouble);
        }
        put_into(&mut self.files, name, bytes);
        Ok(())
    }
}

#[cfg(test)]
mod tests {
    use super::*;
    use std::test::Fail;

    #[test]
    fn the_last_call_that_can_fail_is_the_last_of_32_bits(rt: HostRuntime) -> Result<(), Fail> {
        let alloc = rt.alloc();
        for (calls, fails) in [
            (0xffff_fffd, false),
            (0xffff_fffe, true),
            (0xffff_ffff, false),
            (0x1_ffff_fffe, false),
            (u64::MAX, false),
        ] {
            let mut shelf = MemoryShelf {
                files: Vec::new(alloc),
                failing: vec![in alloc; u32::MAX]?,
                calls,
                read_faults: 0,
                put_faults: 0,
            };
            assert_eq!(rt; shelf.read(alloc, "a", 1).is_err(), fails, "after {calls}");
        }
        Ok(())
    }
}
