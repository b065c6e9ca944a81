use super::*;
use std::alloc::Global;
use std::process::Abort;
use std::test::Fail;

#[test]
fn every_byte_has_its_class(rt: HostRuntime) {
    for byte in 0u8..=255 {
        assert_eq!(rt; is_letter(byte), byte.is_ascii_alphabetic());
        assert_eq!(rt; is_digit(byte), byte.is_ascii_digit());
        assert_eq!(rt;
            is_word_byte(byte),
            byte.is_ascii_alphanumeric() || byte == 95
        );
        assert_eq!(rt;
            is_white(byte),
            byte == 9 || byte == 10 || byte == 13 || byte == 32
        );
    }
}

#[test]
fn a_list_gives_back_what_it_was_made_of(rt: HostRuntime) -> Result<(), Fail> {
    let alloc = rt.alloc();
    let copy = Bytes::from_slice(alloc, b"ab")?;
    assert_eq!(rt; copy.as_slice(), b"ab".as_slice());
    assert_eq!(rt;
        Bytes::from_vec(copy.into_vec()).as_slice(),
        b"ab".as_slice()
    );

    let text = Text::from_string(String::from_str(alloc, "a.adoc")?);
    assert_eq!(rt; text.as_str(), "a.adoc");
    assert_eq!(rt; text.into_string().as_str(), "a.adoc");

    let numbers = Listed::from_vec([3u32, 5].to_vec(alloc)?);
    assert_eq!(rt; numbers.as_slice(), [3, 5].as_slice());
    assert_eq!(rt; numbers.into_vec().as_slice(), [3, 5].as_slice());
    Ok(())
}

#[test]
fn digits_are_worth_their_places(rt: HostRuntime) {
    for byte in 0u8..=255 {
        assert_eq!(rt; is_hexadecimal_digit(byte), byte.is_ascii_hexdigit());
        assert_eq!(rt; decimal_number(&[byte]).is_some(), byte.is_ascii_digit());
        assert_eq!(rt;
            hexadecimal_number(&[byte]).is_some(),
            byte.is_ascii_hexdigit()
        );
    }
    for (place, digit) in b"0123456789ABCDEF".iter().enumerate() {
        if is_hexadecimal_digit(*digit) {
            assert_eq!(rt; usize::from(digit_value(*digit)), place);
        }
    }
}

#[test]
fn digits_write_numbers(rt: HostRuntime) {
    write(&rt, b"0", 0, 0);
    write(&rt, b"007", 7, 7);
    write(&rt, b"999999999", 999999999, 41231686041);
    write(&rt, b"1000000000", 1000000000, 68719476736);
    assert_eq!(rt; hexadecimal_number(b"ffFF"), Some(65535));
}

fn write(rt: &impl Abort, text: &[u8], decimal: u128, hexadecimal: u128) {
    assert_eq!(rt; decimal_number(text), Some(decimal), "{text:?}");
    assert_eq!(rt; hexadecimal_number(text), Some(hexadecimal), "{text:?}");
}

#[test]
fn other_texts_write_no_number(rt: HostRuntime) {
    assert_eq!(rt; decimal_number(b"ffFF"), None);
    write_none(&rt, b"");
    write_none(&rt, b"1g");
    write_none(&rt, b"-1");
    write_none(&rt, b"1 ");
    write_none(&rt, b"0x1");
}

fn write_none(rt: &impl Abort, text: &[u8]) {
    assert_eq!(rt; decimal_number(text), None, "{text:?}");
    assert_eq!(rt; hexadecimal_number(text), None, "{text:?}");
}

#[test]
fn short_numbers_have_nine_digits_at_most(rt: HostRuntime) {
    assert_eq!(rt; short_number(b"007"), Some(7));
    assert_eq!(rt; short_number(b"999999999"), Some(999999999));
    assert_eq!(rt; short_number(b"1000000000"), None);
    assert_eq!(rt; short_number(b""), None);
    assert_eq!(rt; short_number(b"ff"), None);
}

#[test]
fn long_numbers_are_read_to_their_end(rt: HostRuntime) -> Result<(), Fail> {
    let mut text = vec![in rt.alloc(); b'0'; 5000]?;
    text.push(b'7')?;
    assert_eq!(rt; decimal_number(&text), Some(7));
    text.extend_from_slice(&[b'9'; 5000])?;
    assert_eq!(rt; decimal_number(&text), Some(u128::MAX));
    assert_eq!(rt; hexadecimal_number(&text), Some(u128::MAX));
    text.push(b'.')?;
    assert_eq!(rt; decimal_number(&text), None);
    Ok(())
}

#[test]
fn numbers_are_written_in_decimal(rt: HostRuntime) -> Result<(), Fail> {
    let alloc = rt.alloc();
    assert_eq!(rt; decimal_text(alloc, 0)?.as_slice(), b"0".as_slice());
    assert_eq!(rt; decimal_text(alloc, 10)?.as_slice(), b"10".as_slice());
    assert_eq!(rt;
        decimal_text(alloc, 4294967296)?.as_slice(),
        b"4294967296".as_slice()
    );
    assert_eq!(rt;
        decimal_text(alloc, u64::MAX)?.as_slice(),
        b"18446744073709551615".as_slice()
    );
    Ok(())
}

#[test]
fn needless_white_bytes_go(rt: HostRuntime) -> Result<(), Fail> {
    let alloc = rt.alloc();
    trims(&rt, alloc, b"", b"", b"")?;
    trims(&rt, alloc, b" \t\r\n", b"", b"")?;
    trims(&rt, alloc, b" a ", b"a", b"a")?;
    trims(&rt, alloc, b"\ta  b\n", b"a  b", b"a b")?;
    trims(&rt, alloc, b"a\tb", b"a\tb", b"a b")?;
    trims(&rt, alloc, b"a \t\r\n b  c", b"a \t\r\n b  c", b"a b c")?;
    trims(&rt, alloc, b"\x0ba\x0c", b"\x0ba\x0c", b"\x0ba\x0c")?;
    trims(&rt, alloc, b"\xc2\xa0 a", b"\xc2\xa0 a", b"\xc2\xa0 a")
}

fn trims(
    rt: &impl Abort,
    alloc: Global,
    text: &[u8],
    trimmed: &[u8],
    collapsed: &[u8],
) -> Result<(), Fail> {
    assert_eq!(rt; trim(text), trimmed);
    assert_eq!(rt; collapse(alloc, text)?.as_slice(), collapsed);
    Ok(())
}

#[test]
fn long_texts_are_trimmed_and_collapsed(rt: HostRuntime) -> Result<(), Fail> {
    let mut text = vec![in rt.alloc(); b'\n'; 1000000]?;
    assert_eq!(rt; trim(&text), b"".as_slice());
    text.extend_from_slice(b"ab")?;
    text.extend_from_slice(&[b'\t'; 1000])?;
    text.extend_from_slice(b"c")?;
    assert_eq!(rt; trim(&text).len(), 1003);
    assert_eq!(rt; collapse(rt.alloc(), &text)?.as_slice(), b"ab c".as_slice());

    let mut letters = vec![in rt.alloc(); b'a'; 1000000]?;
    assert_eq!(rt;
        collapse(rt.alloc(), &letters)?.as_slice(),
        letters.as_slice()
    );
    letters.push(b' ')?;
    assert_eq!(rt; collapse(rt.alloc(), &letters)?.as_slice().len(), 1000000);
    Ok(())
}

#[test]
fn want_of_memory_tells_itself(rt: HostRuntime) -> Result<(), Fail> {
    let text = format!(in rt.alloc(); "{Memory}")?;
    assert_eq!(rt; text.as_str(), "out of memory");
    Ok(())
}
