ghost use Rattle.std.specs.Prelude.{◌≡◌, ◌≤◌, [], Some, length, IsOk, OnOk, OnErr};
ghost use Rattle.vkb_outside.specs.Sink.{Writes, CountsWrite};
ghost use Rattle.vkb_outside.specs.SureSink.{after_write};

use crate::room::append;
use crate::{Memory, Sink, SinkTrouble};
use std::alloc::Global;
use std::marker::Model;

/// Output in memory. No write fails.
#[derive(Debug, Drop)]
pub struct SureSink {
    bytes: Vec<u8>,
}

impl Model for SureSink {
    ghost use Rattle.std.specs.Prelude.{◌-◌, vec_len};
    ghost use Rattle.std.specs.Vec.{vec_capacity};
    ghost use Rattle.vkb_outside.specs.SureSink.{Output};

    ghost Value = { Output };

    ghost view = { λ s. record { bytes = s.bytes.items; spare = vec_capacity s.bytes - vec_len s.bytes } };
}

impl SureSink {
    /// An empty sink.
    pub fn new(alloc: Global) -> SureSink
        ensures { result ≡ record { bytes = []; spare = 0 } }
    {
        SureSink {
            bytes: Vec::new(alloc),
        }
    }

    /// The bytes that were written.
    pub fn written(&self) -> &[u8]
        ensures { result.now ≡ self.now.bytes }
    {
        self.bytes.as_slice()
    }
}

impl Sink for SureSink {
    ghost written = { λ s. Some s.bytes };

    ghost spare = { λ s. s.spare };

    ghost faults = { λ s. 0 };

    fn ready(&mut self, count: usize) -> Result<(), Memory>
        ensures room { OnOk result (count ≤ self.new.spare) }
        ensures kept { self.new.bytes ≡ self.old.bytes }
        ensures same { OnErr result (self.new.spare ≡ self.old.spare) }

        // The room doesn't shrink.
        ensures grows { self.old.spare ≤ self.new.spare }
        ensures enough { count ≤ self.old.spare → IsOk result }
        ensures err { OnErr result (self.new ≡ self.old) }
    {
        self.bytes.reserve(count).map_err(|_| Memory)
    }

    fn write(&mut self, bytes: &[u8]) -> Result<(), SinkTrouble>
        requires { length bytes.now ≤ self.old.spare }
        ensures written { Writes bytes.now result (Some self.old.bytes) (Some self.new.bytes) }
        ensures counted { CountsWrite 0 0 result }
        ensures sure { IsOk result }
        ensures sink { self.new ≡ after_write self.old bytes.now }
    {
        append(&mut self.bytes, bytes);
        Ok(())
    }
}
