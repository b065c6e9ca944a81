ghost use Rattle.std.specs.Prelude.{◌≡◌, IfOk};

use super::*;
use std::alloc::AllocError;
use std::process::Abort;
use std::test::Fail;
use vkb_outside::{MemoryShelf, MemorySink, names_differ};

/// A file that is put.
fn put(alloc: Global, name: &str, bytes: &[u8]) -> Result<FilePut, AllocError>
    ensures { IfOk result (λ put. put.name ≡ name.now) }
{
    Ok(FilePut {
        name: Text::from_string(String::from_str(alloc, name)?),
        bytes: Bytes::from_slice(alloc, bytes)?,
    })
}

/// Delivers an answer that puts `x` in `a` and `y` in `b` and writes `told`, where one call of the shelf fails. Asserts the
/// status, and what `a` and `b` hold and what is written afterwards.
fn delivers(
    rt: &impl Abort,
    alloc: Global,
    failing: u32,
    wanted: Status,
    left: &str,
) -> Result<(), AllocError> {
    let a = (String::from_str(alloc, "a")?, b"old".to_vec(alloc)?);
    let b = (String::from_str(alloc, "b")?, b"old".to_vec(alloc)?);
    let files = vec![in alloc; a, b]?;
    assert!(rt; names_differ(&files));
    let mut shelf = MemoryShelf::new(files, vec![in alloc; failing]?);
    let mut sink = MemorySink::new(alloc, Vec::new(alloc));
    let answer = Answer {
        status: Status::Done,
        output: Bytes::from_slice(alloc, b"told")?,
        puts: Listed::from_vec(vec![in alloc; put(alloc, "a", b"x")?, put(alloc, "b", b"y")?]?),
    };
    assert_eq!(rt; deliver(answer, &mut shelf, &mut sink), wanted);
    let mut now = String::new(alloc);
    for name in ["a", "b"] {
        if let Ok(Some(bytes)) = shelf.read(alloc, name, 100) {
            now.push_str(std::str::from_utf8(bytes.as_slice()).unwrap_or("no text"))?;
            now.push(' ')?;
        }
    }
    now.push_str(std::str::from_utf8(sink.written()).unwrap_or("no text"))?;
    assert_eq!(rt; now.as_str(), left);
    Ok(())
}

#[test]
fn files_are_put_in_order_before_the_write(rt: HostRuntime) -> Result<(), Fail> {
    let alloc = rt.alloc();
    delivers(&rt, alloc, 9, Status::Done, "x y told")?;
    delivers(&rt, alloc, 1, Status::WriteFault, "old old ")?;
    delivers(&rt, alloc, 2, Status::WriteFault, "x old ")?;
    Ok(())
}
