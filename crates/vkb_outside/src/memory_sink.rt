ghost use Rattle.std.specs.Prelude.{◌≡◌, ◌≤◌, ◌<◌, ◌^◌, ◌↔◌, [], Some, length, IsSome, IsOk, IsErr, OnOk, OnErr};
ghost use Rattle.vkb_outside.specs.MemorySink.{fault_of, after_write};
ghost use Rattle.vkb_outside.specs.Sink.{Writes, CountsWrite};

use crate::failing::first_of;
use crate::room::append;
use crate::{Memory, Sink, SinkTrouble};
use std::alloc::Global;
use std::marker::Model;

/// Output in memory, some of whose writes fail.
#[derive(Debug, Drop)]
pub struct MemorySink {
    bytes: Vec<u8>,
    failing: Vec<(u32, usize)>,
    writes: u64,
    faults: u64,
}

impl Model for MemorySink {
    ghost use Rattle.std.specs.Prelude.{◌-◌, ◌≤◌, vec_len};
    ghost use Rattle.std.specs.Vec.{vec_capacity};
    ghost use Rattle.vkb_outside.specs.MemorySink.{FailingOutput};

    ghost Value = { FailingOutput };

    ghost view = { λ s. record {
      bytes = s.bytes.items;
      spare = vec_capacity s.bytes - vec_len s.bytes;
      failing = s.failing.items;
      writes = s.writes;
      faults = s.faults;
    } };

    ghost invariant = { λ s. s.faults ≤ s.writes };
}

impl MemorySink {
    /// An empty sink. A pair `(n, k)` in `failing` lets the write of number `n`, counted from 1, fail after its first `k` bytes were
    /// appended, or after all of them where they are fewer. Of several pairs with one `n` the first counts.
    pub fn new(alloc: Global, failing: Vec<(u32, usize)>) -> MemorySink
        ensures { result ≡ record { bytes = []; spare = 0; failing = failing.items; writes = 0; faults = 0 } }
    {
        MemorySink {
            bytes: Vec::new(alloc),
            failing,
            writes: 0,
            faults: 0,
        }
    }

    /// The bytes that were written.
    pub fn written(&self) -> &[u8]
        ensures { result.now ≡ self.now.bytes }
    {
        self.bytes.as_slice()
    }
}

impl Sink for MemorySink {
    ghost written = { λ s. Some s.bytes };

    ghost spare = { λ s. s.spare };

    ghost faults = { λ s. s.faults };

    fn ready(&mut self, count: usize) -> Result<(), Memory>
        ensures room { OnOk result (count ≤ self.new.spare) }
        ensures kept { self.new.bytes ≡ self.old.bytes }
        ensures same { OnErr result (self.new.spare ≡ self.old.spare) }
        ensures counted { self.new.faults ≡ self.old.faults }

        // Nothing but the room changes, and that doesn't shrink.
        ensures sink { self.new ≡ record self.old { spare = self.new.spare } }
        ensures grows { self.old.spare ≤ self.new.spare }
        ensures enough { count ≤ self.old.spare → IsOk result }
        ensures err { OnErr result (self.new ≡ self.old) }
    {
        self.bytes.reserve(count).map_err(|_| Memory)
    }

    fn write(&mut self, bytes: &[u8]) -> Result<(), SinkTrouble>
        requires { length bytes.now ≤ self.old.spare }
        ensures written { Writes bytes.now result (Some self.old.bytes) (Some self.new.bytes) }
        ensures counted { CountsWrite self.old.faults self.new.faults result }

        ensures fails { IsErr result ↔ IsSome (fault_of self.old) }
        ensures sink { self.new ≡ after_write self.old bytes.now }

        // No write after the 4,294,967,295th fails.
        ensures early { IsErr result → self.new.writes < 2 ^ 32 }
    {
        let number = self.writes.saturating_add(1);
        self.writes = number;
        match first_of(&self.failing, number) {
            None => {
                append(&mut self.bytes, bytes);
                Ok(())
            }
            Some(count) => {
                append(&mut self.bytes, &bytes[..count.min(bytes.len())]);
                self.faults += 1;
                Err(SinkTrouble)
            }
        }
    }
}

#[cfg(test)]
mod tests {
    use super::*;
    use std::test::Fail;

    #[test]
    fn the_last_write_that_can_fail_is_the_last_of_32_bits(rt: HostRuntime) -> Result<(), Fail> {
        let alloc = rt.alloc();
        for (writes, fails) in [
            (0xffff_fffd, false),
            (0xffff_fffe, true),
            (0xffff_ffff, false),
            (0x1_ffff_fffe, false),
            (u64::MAX, false),
        ] {
            let mut sink = MemorySink {
                bytes: Vec::new(alloc),
                failing: vec![in alloc; (u32::MAX, 0)]?,
                writes,
                faults: 0,
            };
            assert_eq!(rt; sink.write(b"").is_err(), fails, "after {writes}");
        }
        Ok(())
    }
}
