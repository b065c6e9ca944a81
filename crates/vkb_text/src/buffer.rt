//! The buffer of all texts.
ghost use Rattle.std.specs.Prelude.{◌≡◌, ◌+◌, ◌≤◌, ◌<◌, ◌↔◌, ◌++◌, [], Err, length, OnOk, OnErr, IfOk};
ghost use Rattle.vkb_text.specs.Spans.{IsWithin, slice_at};
ghost use Rattle.vkb_text.specs.declared.fault.TextFault.TheVariants.{Full};

use crate::{Span, TextFault};
use std::alloc::Global;
use std::marker::Model;

/// Texts, one behind the other in one buffer, each known by its span. What was added stays as it is, so a span keeps its bytes
/// whatever is added later.
#[derive(Debug, Drop)]
pub struct Text {
    bytes: Vec<u8>,
    most: u32,
}

impl Model for Text {
    ghost use Rattle.std.specs.Prelude.{◌≤◌, length};
    ghost use Rattle.vkb_text.specs.Buffer.{Buffer};

    ghost Value = { Buffer };

    ghost view = { λ t. record { bytes = t.bytes.items; most = t.most } };

    ghost invariant = { λ t. (length t.bytes.items ≤ t.most) × (t.most ≤ 268435456) };
}

impl Text {
    /// An empty buffer for at most `most` bytes, which are 268,435,456 at the most. It takes no memory.
    pub fn new(alloc: Global, most: u32) -> Text
        requires { most ≤ 268435456 }
        ensures { result ≡ record { bytes = []; most = most } }
    {
        Text {
            bytes: Vec::new(alloc),
            most,
        }
    }

    /// Puts a text behind the others, and gives its span. `Full` is answered exactly where there would be more than `most` bytes,
    /// and `Memory` where memory runs out. Then the buffer is as it was.
    pub fn add(&mut self, bytes: &[u8]) -> Result<Span, TextFault>
        ensures bytes { OnOk result (self.new.bytes ≡ self.old.bytes ++ bytes.now) }
        ensures span { IfOk result (λ span. span ≡ record { from = length self.old.bytes; to = length self.old.bytes + length bytes.now }) }
        ensures most { self.new.most ≡ self.old.most }
        ensures full { (result ≡ Err Full) ↔ (self.old.most < length self.old.bytes + length bytes.now) }
        ensures err { OnErr result (self.new ≡ self.old) }
        ensures small { length self.new.bytes ≤ self.new.most }
    {
        let from = self.bytes.len();
        if bytes.len() > self.most as usize - from {
            return Err(TextFault::Full);
        }
        self.bytes.extend_from_slice(bytes)?;
        Ok(Span {
            from: from as u32,
            to: self.bytes.len() as u32,
        })
    }

    /// The bytes at a span. It takes no memory.
    pub fn slice(&self, span: Span) -> &[u8]
        requires { IsWithin self.now.bytes span }
        ensures bytes { result.now ≡ slice_at self.now.bytes span }
        ensures len { length result.now + span.from ≡ span.to }
        ensures small { length self.now.bytes ≤ 268435456 }
    {
        &self.bytes[span.from as usize..span.to as usize]
    }

    /// How many bytes all texts have together.
    pub fn len(&self) -> u32
        ensures len { result ≡ length self.now.bytes }
        ensures most { result ≤ self.now.most }
        ensures small { self.now.most ≤ 268435456 }
    {
        self.bytes.len() as u32
    }
}
