ghost use Rattle.std.specs.Prelude.{◌^◌, ◌<◌, length, IfSome};
ghost use Rattle.vkb_tool.specs.Endings.{Ending, IsAlways, IsComplete};
ghost use Rattle.vkb_tool.specs.Words.{items_of};

use crate::Status;
use crate::answer::{Trouble, answer_words, deliver};
use std::alloc::Global;
use vkb_outside::{Shelf, Sink};

/// Carries out the request of the words: reads files from the shelf, puts those that it changes, and then writes the report to the sink
/// by one write.
///
/// The words don't include the program's own name. Whatever the answer, the contract says what stands on the shelf and in the sink.
pub fn run<S: Shelf, K: Sink>(
    alloc: Global,
    words: &[Vec<u8>],
    shelf: &mut S,
    out: &mut K,
) -> Status
    requires { length words.now < 2 ^ 32 }

    // On a shelf that tells its files, the run ends in one of five ways.
    ensures ends { IfSome (S.holds shelf.old) (λ files. Ending (items_of words.now) files result
        (record { files = S.holds shelf.old; written = K.written out.old; read_faults = S.read_faults shelf.old; put_faults = S.put_faults shelf.old; write_faults = K.faults out.old })
        (record { files = S.holds shelf.new; written = K.written out.new; read_faults = S.read_faults shelf.new; put_faults = S.put_faults shelf.new; write_faults = K.faults out.new })) }

    // Where nothing outside failed and no fault stands in what is asked, it is carried out as `Done` or `Broken`, or there was no memory.
    ensures complete { IfSome (S.holds shelf.old) (λ files. IsComplete (items_of words.now) files result
        (record { files = S.holds shelf.old; written = K.written out.old; read_faults = S.read_faults shelf.old; put_faults = S.put_faults shelf.old; write_faults = K.faults out.old })
        (record { files = S.holds shelf.new; written = K.written out.new; read_faults = S.read_faults shelf.new; put_faults = S.put_faults shelf.new; write_faults = K.faults out.new })) }

    // And this stands whether the shelf tells its files or not.
    ensures always { IsAlways (items_of words.now) result
        (record { files = S.holds shelf.old; written = K.written out.old; read_faults = S.read_faults shelf.old; put_faults = S.put_faults shelf.old; write_faults = K.faults out.old })
        (record { files = S.holds shelf.new; written = K.written out.new; read_faults = S.read_faults shelf.new; put_faults = S.put_faults shelf.new; write_faults = K.faults out.new }) }
{
    match answer_words(alloc, words, shelf) {
        Ok(answer) => deliver(answer, shelf, out),
        Err(Trouble::ReadFailed) => Status::ReadFault,
        Err(Trouble::NoMemory) => Status::Memory,
    }
}
