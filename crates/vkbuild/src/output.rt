ghost use Rattle.std.specs.Prelude.{◌≡◌, ◌^◌, ◌≤◌, None, IsOk, OnOk, OnErr};
ghost use Rattle.std.specs.Io.KnownBytes.{Appends};
ghost use Rattle.vkb_outside.specs.Sink.{Writes, CountsWrite};
ghost use Rattle.vkbuild.specs.Faults.{after_write};
ghost use Rattle.vkbuild.specs.Output.{AppendsPrefix};

use crate::pieces::write_whole;
use std::io::Write;
use std::marker::Model;
use vkb_outside::{Memory, Sink, SinkTrouble};

/// Standard output, or another stream of the system. What was written is known to no clause. It keeps nothing back, so it takes no
/// memory.
#[derive(Drop)]
pub struct OutSink<W> {
    output: W,
    faults: u64,
}

impl<W> Model for OutSink<W> {
    ghost use Rattle.vkbuild.specs.Output.{Output, output_code};

    ghost Value = { Output W };

    ghost coded = { output_code W.code };

    ghost view = { λ s. record { stream = s.output; faults = s.faults } };
}

impl<W: Write> OutSink<W> {
    pub fn new(output: W) -> Self
        ensures { result ≡ record { stream = output; faults = 0 } }
    {
        OutSink { output, faults: 0 }
    }
}

impl<W: Write> Sink for OutSink<W> {
    ghost written = { λ s. None };

    ghost spare = { λ s. 2 ^ 64 };

    ghost faults = { λ s. s.faults };

    fn ready(&mut self, _count: usize) -> Result<(), Memory>
        ensures room { OnOk result (_count ≤ 2 ^ 64) }
        ensures sure { IsOk result }
        ensures counted { self.new ≡ self.old }
    {
        Ok(())
    }

    fn write(&mut self, bytes: &[u8]) -> Result<(), SinkTrouble>
        ensures written { Writes bytes.now result None None }
        ensures counted { CountsWrite self.old.faults self.new.faults result }
        ensures faults { self.new.faults ≡ after_write self.old.faults result }

        // Where the stream tells what it holds.
        ensures output { OnOk result (Appends (W.contents self.old.stream) (W.contents self.new.stream) bytes.now) }
        ensures part { OnErr result (AppendsPrefix (W.contents self.old.stream) (W.contents self.new.stream) bytes.now) }
    {
        match write_whole(&mut self.output, bytes) {
            Ok(()) => Ok(()),
            Err(_) => {
                self.faults = self.faults.saturating_add(1);
                Err(SinkTrouble)
            }
        }
    }
}
