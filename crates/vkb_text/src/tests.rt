use super::*;
use std::alloc::Global;
use std::process::Abort;
use std::test::Fail;

#[test]
fn texts_fill_the_buffer_up_to_its_limit(rt: HostRuntime) -> Result<(), Fail> {
    let mut text = Text::new(rt.alloc(), 5);
    assert_eq!(rt; text.add(b"ab\n\nc")?, Span { from: 0, to: 5 });
    assert_eq!(rt; text.add(b"d"), Err(TextFault::Full));
    assert_eq!(rt; text.add(b"")?, Span { from: 5, to: 5 });
    assert_eq!(rt; text.len(), 5);
    let whole = Span { from: 0, to: 5 };
    assert_eq!(rt; text.slice(whole), b"ab\n\nc".as_slice());
    Ok(())
}

#[test]
fn a_span_keeps_its_bytes(rt: HostRuntime) -> Result<(), Fail> {
    let mut text = Text::new(rt.alloc(), 268_435_456);
    let first = text.add(b"ab")?;
    let second = text.add(b"\0\xFF")?;
    assert_eq!(rt; second, Span { from: 2, to: 4 });
    assert_eq!(rt; text.slice(first), b"ab".as_slice());
    assert_eq!(rt; text.slice(second), b"\0\xFF".as_slice());
    Ok(())
}

/// Asserts where the lines of a text stand, behind another text of three bytes.
fn stand_at(
    rt: &impl Abort,
    alloc: Global,
    bytes: &[u8],
    places: &[(u32, u32)],
) -> Result<(), Fail> {
    let mut text = Text::new(alloc, 100);
    text.add(b"x\ny")?;
    let whole = text.add(bytes)?;
    let found = lines(alloc, &text, whole, 7)?;
    assert_eq!(rt; found.len(), places.len(), "{bytes:?}");
    let mut number = 0u32;
    for (line, (from, to)) in found.iter().zip(places) {
        number = number.wrapping_add(1);
        let span = Span {
            from: *from,
            to: *to,
        };
        assert_eq!(rt;
            *line,
            Line {
                file: 7,
                number,
                span
            },
            "{bytes:?}"
        );
    }
    Ok(())
}

#[test]
fn lines_end_at_line_feeds(rt: HostRuntime) -> Result<(), Fail> {
    let alloc = rt.alloc();
    stand_at(&rt, alloc, b"", &[])?;
    stand_at(&rt, alloc, b"\n", &[(3, 3)])?;
    stand_at(&rt, alloc, b"a", &[(3, 4)])?;
    stand_at(&rt, alloc, b"a\n", &[(3, 4)])?;
    stand_at(&rt, alloc, b"\na", &[(3, 3), (4, 5)])?;
    stand_at(&rt, alloc, b"a\r\n\n", &[(3, 5), (6, 6)])?;
    stand_at(&rt, alloc, b"ab\n\nc", &[(3, 5), (6, 6), (7, 8)])?;
    Ok(())
}

#[test]
fn a_part_of_a_text_has_its_own_lines(rt: HostRuntime) -> Result<(), Fail> {
    let alloc = rt.alloc();
    let mut text = Text::new(alloc, 5);
    text.add(b"ab\n\nc")?;
    assert!(rt; text.len() == 5);
    let found = lines(alloc, &text, Span { from: 1, to: 4 }, 0)?;
    let first = Line {
        file: 0,
        number: 1,
        span: Span { from: 1, to: 2 },
    };
    let second = Line {
        file: 0,
        number: 2,
        span: Span { from: 3, to: 3 },
    };
    assert_eq!(rt; found.as_slice(), [first, second].as_slice());
    Ok(())
}

#[test]
fn a_million_lines_are_placed(rt: HostRuntime) -> Result<(), Fail> {
    let alloc = rt.alloc();
    let feeds = vec![in alloc; b'\n'; 1_000_000]?;
    let mut text = Text::new(alloc, 3_000_000);
    let whole = text.add(&feeds)?;
    let found = lines(alloc, &text, whole, 0)?;
    assert_eq!(rt; found.len(), 1_000_000);
    let mut from = 0u32;
    for line in &found {
        let number = from.wrapping_add(1);
        let span = Span { from, to: from };
        assert_eq!(rt;
            *line,
            Line {
                file: 0,
                number,
                span
            }
        );
        from = number;
    }

    let letters = vec![in alloc; b'a'; 2_000_000]?;
    let more = text.add(&letters)?;
    let found = lines(alloc, &text, more, 1)?;
    let span = Span {
        from: 1_000_000,
        to: 3_000_000,
    };
    let line = Line {
        file: 1,
        number: 1,
        span,
    };
    assert_eq!(rt; found.as_slice(), [line].as_slice());
    assert_eq!(rt; text.slice(more), letters.as_slice());
    assert_eq!(rt; text.add(b"b"), Err(TextFault::Full));
    Ok(())
}
