//! Texts that grow at their end.
ghost use Rattle.std.specs.Prelude.{◌≡◌, ◌++◌, OnOk, map};
ghost use Rattle.hdr_writer.specs.Lines.{line};

use vkb_bytes::Memory;

/// Puts bytes behind a text.
pub(crate) fn put(text: &mut Vec<u8>, bytes: &[u8]) -> Result<(), Memory>
    ensures { OnOk result (text.new.items ≡ text.old.items ++ bytes.now) }
{
    text.extend_from_slice(bytes)?;
    Ok(())
}

/// Puts a line of these parts behind a text.
pub(crate) fn put_line(text: &mut Vec<u8>, parts: &[&[u8]]) -> Result<(), Memory>
    ensures { OnOk result (text.new.items ≡ text.old.items ++ line (map (λ part. part.now) parts.now)) }
{
    for part in parts {
        text.extend_from_slice(part)?;
    }
    text.push(b'\n')?;
    Ok(())
}
