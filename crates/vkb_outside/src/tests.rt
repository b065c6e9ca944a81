use super::*;
use std::alloc::{AllocError, Global};
use std::test::Fail;

fn two_files(alloc: Global) -> Result<Vec<(String, Vec<u8>)>, AllocError> {
    let text = (String::from_str(alloc, "a.adoc")?, b"abc".to_vec(alloc)?);
    let registry = (
        String::from_str(alloc, "vk.xml")?,
        b"<registry/>".to_vec(alloc)?,
    );
    Ok(vec![in alloc; text, registry]?)
}

#[test]
fn names_that_stand_twice_are_seen(rt: HostRuntime) -> Result<(), Fail> {
    let alloc = rt.alloc();
    let mut files = two_files(alloc)?;
    assert!(rt; names_differ(&files));
    files.push((String::from_str(alloc, "a.adoc")?, Vec::new(alloc)))?;
    assert!(rt; !names_differ(&files));
    Ok(())
}

#[test]
fn a_sure_shelf_reads_and_puts(rt: HostRuntime) -> Result<(), Fail> {
    let alloc = rt.alloc();
    let files = two_files(alloc)?;
    assert!(rt; names_differ(&files));
    let mut shelf = SureShelf::new(files);
    let bytes = shelf.read(alloc, "a.adoc", 3)?.ok_or("not found")?;
    assert_eq!(rt; bytes.as_slice(), b"abc".as_slice());
    shelf.put("a.adoc", b"z".to_vec(alloc)?)?;
    let bytes = shelf.read(alloc, "a.adoc", 3)?.ok_or("not found")?;
    assert_eq!(rt; bytes.as_slice(), b"z".as_slice());
    assert_eq!(rt;
        shelf.read(alloc, "vk.xml", 10).err(),
        Some(ReadTrouble::TooLong)
    );
    assert!(rt; shelf.read(alloc, "A.adoc", 10)?.is_none());
    assert_eq!(rt; shelf.files().len(), 2);
    Ok(())
}

#[test]
fn the_calls_of_a_shelf_fail_by_number(rt: HostRuntime) -> Result<(), Fail> {
    let alloc = rt.alloc();
    let files = two_files(alloc)?;
    assert!(rt; names_differ(&files));
    let mut shelf = MemoryShelf::new(files, vec![in alloc; 5, 2]?);
    let bytes = shelf.read(alloc, "a.adoc", 3)?.ok_or("not found")?;
    assert_eq!(rt; bytes.as_slice(), b"abc".as_slice());
    assert_eq!(rt;
        shelf.read(alloc, "a.adoc", 3).err(),
        Some(ReadTrouble::Failed)
    );
    assert_eq!(rt;
        shelf.read(alloc, "a.adoc", 2).err(),
        Some(ReadTrouble::TooLong)
    );
    assert!(rt; shelf.read(alloc, "a", 9)?.is_none());

    assert_eq!(rt; shelf.put("a.adoc", b"z".to_vec(alloc)?), Err(PutTrouble));
    for ((name, bytes), (wanted_name, wanted)) in shelf
        .files()
        .iter()
        .zip([("a.adoc", 3), ("vk.xml", 11)])
    {
        assert_eq!(rt; name.as_str(), wanted_name);
        assert_eq!(rt; bytes.len(), wanted);
    }

    shelf.put("a.adoc", b"z".to_vec(alloc)?)?;
    let bytes = shelf.read(alloc, "a.adoc", 9)?.ok_or("not found")?;
    assert_eq!(rt; bytes.as_slice(), b"z".as_slice());
    Ok(())
}

#[test]
fn a_sure_sink_keeps_what_is_written(rt: HostRuntime) -> Result<(), Fail> {
    let mut sink = SureSink::new(rt.alloc());
    sink.ready(5)?;
    sink.write(b"ab")?;
    sink.write(b"cde")?;
    assert_eq!(rt; sink.written(), b"abcde".as_slice());
    Ok(())
}

#[test]
fn the_writes_of_a_sink_fail_by_number(rt: HostRuntime) -> Result<(), Fail> {
    let alloc = rt.alloc();
    let mut sink = MemorySink::new(alloc, vec![in alloc; (2, 3), (4, 9), (2, 0)]?);
    sink.ready(20)?;
    sink.write(b"one ")?;
    assert_eq!(rt; sink.write(b"two "), Err(SinkTrouble));
    sink.write(b"three")?;
    assert_eq!(rt; sink.write(b"four"), Err(SinkTrouble));
    assert_eq!(rt; sink.written(), b"one twothreefour".as_slice());
    Ok(())
}
