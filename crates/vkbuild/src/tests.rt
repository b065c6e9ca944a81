use crate::folder::FolderShelf;
use crate::output::OutSink;
use crate::words::words_of;
use std::env::{Env, FillError};
use std::test::Fail;
use std::{fs, io};
use vkb_outside::{PutTrouble, ReadTrouble, Shelf, Sink, SinkTrouble};

#[test]
fn a_folder_is_read_and_put_into(rt: HostRuntime) -> Result<(), Fail> {
    let alloc = rt.alloc();
    fs::write(&rt, "a.adoc", "abc")?;
    fs::create_dir_all(&rt, "text")?;
    let mut shelf = FolderShelf::new(&rt);
    let bytes = shelf.read(alloc, "a.adoc", 3)?.ok_or("not found")?;
    assert_eq!(rt; bytes.as_slice(), b"abc".as_slice());
    assert_eq!(rt;
        shelf.read(alloc, "a.adoc", 2).err(),
        Some(ReadTrouble::TooLong)
    );
    assert!(rt; shelf.read(alloc, "b.adoc", 3)?.is_none());
    assert_eq!(rt;
        shelf.read(alloc, "text", 3).err(),
        Some(ReadTrouble::Failed)
    );
    assert_eq!(rt;
        shelf.read(alloc, "a.adoc/b", 3).err(),
        Some(ReadTrouble::Failed)
    );
    shelf.put("a.adoc", b"z".to_vec(alloc)?)?;
    let bytes = shelf.read(alloc, "a.adoc", 3)?.ok_or("not found")?;
    assert_eq!(rt; bytes.as_slice(), b"z".as_slice());
    assert_eq!(rt; shelf.put("text", b"z".to_vec(alloc)?), Err(PutTrouble));
    fs::remove_dir(&rt, "text")?;
    fs::remove_file(&rt, "a.adoc")?;
    Ok(())
}

/// Takes two bytes at a time, up to its room.
#[derive(Drop)]
struct Narrow {
    taken: Vec<u8>,
    room: usize,
}

impl io::Write for Narrow {
    fn write(&mut self, bytes: &[u8]) -> io::Result<usize> {
        let count = bytes.len().min(2).min(self.room);
        self.taken.extend_from_slice(&bytes[..count])?;
        self.room -= count;
        Ok(count)
    }

    fn flush(&mut self) -> io::Result<()> {
        Ok(())
    }
}

#[test]
fn output_is_written_in_turns(rt: HostRuntime) -> Result<(), Fail> {
    let mut narrow = Narrow {
        taken: Vec::new(rt.alloc()),
        room: 8,
    };
    let mut sink = OutSink::new(&mut narrow);
    sink.ready(5)?;
    sink.write(b"abcde")?;
    sink.write(b"")?;
    assert_eq!(rt; sink.write(b"fghi"), Err(SinkTrouble));
    assert_eq!(rt; narrow.taken.as_slice(), b"abcdefgh".as_slice());
    Ok(())
}

/// A system that gives these words.
#[derive(Clone, Copy)]
struct Words<'a> {
    words: &'a [&'a [u8]],
}

impl Env for Words<'_> {
    fn arg(&self, at: usize, into: &mut [u8]) -> Result<usize, FillError> {
        let word = *self.words.get(at).ok_or(FillError::NotPresent)?;
        if into.len() < word.len() {
            return Err(FillError::TooLong);
        }
        into[..word.len()].copy_from_slice(word);
        Ok(word.len())
    }

    fn var(&self, _name: &str, _into: &mut [u8]) -> Result<usize, FillError> {
        Err(FillError::NotPresent)
    }

    fn var_at(&self, _at: usize, _into: &mut [u8]) -> Result<usize, FillError> {
        Err(FillError::NotPresent)
    }
}

#[test]
fn words_are_any_bytes(rt: HostRuntime) -> Result<(), Fail> {
    let alloc = rt.alloc();
    let long = [b'x'; 600];
    let all = [
        b"vkbuild".as_slice(),
        b"check".as_slice(),
        b"".as_slice(),
        b"a\xff".as_slice(),
        long.as_slice(),
    ];
    let words = words_of(&Words { words: &all }, alloc)?;
    assert_eq!(rt; words.len(), 4);
    for (at, word) in words.iter().enumerate() {
        assert_eq!(rt; word.as_slice(), all[at + 1]);
    }
    Ok(())
}
