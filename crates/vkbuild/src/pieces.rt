//! Whole files, read and written piece by piece.
ghost use Rattle.std.specs.Prelude.{◌≡◌, ◌≢◌, ◌↔◌, ◌<◌, ◌≤◌, length, IfSome, IfOk, OnOk, OnErr};
ghost use Rattle.std.specs.IoError.{error_kind};
ghost use Rattle.std.specs.Io.KnownBytes.{Appends};
ghost use Rattle.vkb_outside.specs.Shelf.{IsWithin};
ghost use Rattle.vkbuild.specs.Output.{AppendsPrefix};

use std::alloc::Global;
use std::io::{ErrorKind, Read, Write};
use std::rt::Files;
use std::{fs, io};
use vkb_outside::ReadTrouble;

/// How many bytes are read at a time.
const PIECE: usize = 16384;

/// All bytes of a file of which there are at most `most`, or that there is no such file.
pub fn read_file<R: Files>(
    system: &R,
    alloc: Global,
    name: &str,
    most: u32,
) -> Result<Option<Vec<u8>>, ReadTrouble>
    ensures { IsWithin most result }
{
    match fs::open(system, name) {
        Ok(mut file) => {
            let bytes = read_within(alloc, &mut file, most)?;
            Ok(Some(bytes))
        }
        Err(error) => match error.kind() {
            ErrorKind::NotFound => Ok(None),
            _ => Err(trouble_of(&error)),
        },
    }
}

/// Puts a file in the place of what stands under its name.
pub fn write_file<R: Files>(system: &R, name: &str, bytes: &[u8]) -> io::Result<()> {
    let mut file = fs::create(system, name)?;
    write_whole(&mut file, bytes)
}

/// All bytes that are left, of which there are at most `most`. It takes at most one byte more.
fn read_within<F: Read>(alloc: Global, file: &mut F, most: u32) -> Result<Vec<u8>, ReadTrouble>
    ensures within { IfOk result (λ bytes. length bytes.items ≤ most) }

    // Where it is known what was left.
    ensures whole { IfOk result (λ bytes. IfSome (F.remaining file.old) (λ left. bytes.items ≡ left)) }
    ensures long { result ≡ Err ReadTrouble.TooLong → IfSome (F.remaining file.old) (λ left. most < length left) }
{
    let limit = most as usize;
    let mut bytes = Vec::new(alloc);
    let mut piece = [0; PIECE];
    while bytes.len() <= limit {
        let room = PIECE.min(limit + 1 - bytes.len());
        let count = match file.read(&mut piece[..room]) {
            Ok(count) => count,
            Err(error) => return Err(trouble_of(&error)),
        };
        if count == 0 {
            return Ok(bytes);
        }
        if bytes.extend_from_slice(&piece[..count]).is_err() {
            return Err(ReadTrouble::Memory);
        }
    }
    Err(ReadTrouble::TooLong)
}

/// Writes all the bytes, or a prefix of them at an error. A write that takes none of them is an error.
pub fn write_whole<W: Write>(output: &mut W, bytes: &[u8]) -> io::Result<()>
    ensures whole { OnOk result (Appends (W.contents output.old) (W.contents output.new) bytes.now) }
    ensures part { OnErr result (AppendsPrefix (W.contents output.old) (W.contents output.new) bytes.now) }
{
    let mut rest = bytes;
    while !rest.is_empty() {
        let count = output.write(rest)?;
        if count == 0 {
            return Err(io::Error::from(ErrorKind::WriteZero));
        }
        rest = &rest[count..];
    }
    Ok(())
}

/// Want of memory is no failure of the system.
fn trouble_of(error: &io::Error) -> ReadTrouble
    ensures memory { result ≡ ReadTrouble.Memory ↔ error_kind error.now ≡ ErrorKind.OutOfMemory }
    ensures failed { result ≢ ReadTrouble.TooLong }
{
    match error.kind() {
        ErrorKind::OutOfMemory => ReadTrouble::Memory,
        _ => ReadTrouble::Failed,
    }
}
