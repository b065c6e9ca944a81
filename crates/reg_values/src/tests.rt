use super::*;
use std::test::Fail;

#[test]
fn offsets_have_the_manuals_values(rt: HostRuntime) {
    for (extension, offset, negative, value) in [
        (2, 3, false, Ok(1000001003)),
        (1, 0, true, Ok(-1000000000)),
        (1147484, 647, false, Ok(2147483647)),
        (1147484, 648, false, Err(ValueFault::Range)),
        (1147484, 648, true, Ok(-2147483648)),
        (1147484, 649, true, Err(ValueFault::Range)),
        (0, 0, false, Err(ValueFault::Range)),
        (1, 999, false, Ok(1000000999)),
        (1, 1000, false, Err(ValueFault::Range)),
        (u32::MAX, 0, false, Err(ValueFault::Range)),
        (u32::MAX, u32::MAX, true, Err(ValueFault::Range)),
    ] {
        assert_eq!(rt; offset_value(extension, offset, negative), value);
    }
}

#[test]
fn bits_have_the_values_of_their_places(rt: HostRuntime) {
    for (position, value) in [
        (0, Ok(1)),
        (31, Ok(0x80000000)),
        (32, Err(ValueFault::Range)),
        (u32::MAX, Err(ValueFault::Range)),
    ] {
        assert_eq!(rt; bit_value(position, 32), value);
    }
    for (position, value) in [
        (32, Ok(0x100000000)),
        (63, Ok(9223372036854775808)),
        (64, Err(ValueFault::Range)),
    ] {
        assert_eq!(rt; bit_value(position, 64), value);
    }
}

#[test]
fn literals_have_the_values_that_they_spell(rt: HostRuntime) {
    let texts: [(&[u8], Result<i128, ValueFault>); 27] = [
        (b"0x7F", Ok(127)),
        (b"-5", Ok(-5)),
        (b"1.0", Err(ValueFault::Literal)),
        (b"18446744073709551616", Err(ValueFault::Range)),
        (b"18446744073709551615", Ok(18446744073709551615)),
        (b"-9223372036854775808", Ok(-9223372036854775808)),
        (b"-9223372036854775809", Err(ValueFault::Range)),
        (b"0xFFFFFFFFFFFFFFFF", Ok(18446744073709551615)),
        (b"0x10000000000000000", Err(ValueFault::Range)),
        (b"-0x8000000000000000", Ok(-9223372036854775808)),
        (b"-0x8000000000000001", Err(ValueFault::Range)),
        (b"0xabcdefABCDEF0189", Ok(12379814471884800393)),
        (b"00012", Ok(12)),
        (b"-0", Ok(0)),
        (b"-0x0", Ok(0)),
        (b"", Err(ValueFault::Literal)),
        (b"-", Err(ValueFault::Literal)),
        (b"0x", Err(ValueFault::Literal)),
        (b"-0x", Err(ValueFault::Literal)),
        (b"0X1", Err(ValueFault::Literal)),
        (b"--1", Err(ValueFault::Literal)),
        (b"0x-1", Err(ValueFault::Literal)),
        (b"1F", Err(ValueFault::Literal)),
        (b"0xg", Err(ValueFault::Literal)),
        (b"+1", Err(ValueFault::Literal)),
        (b" 1", Err(ValueFault::Literal)),
        (b"1 ", Err(ValueFault::Literal)),
    ];
    for (text, value) in texts {
        assert_eq!(rt; literal_value(text), value, "{text:?}");
    }
}

#[test]
fn long_literals_are_read_to_their_end(rt: HostRuntime) -> Result<(), Fail> {
    let mut text = vec![in rt.alloc(); b'0'; 5000]?;
    text.push(b'7')?;
    assert_eq!(rt; literal_value(&text), Ok(7));
    text.extend_from_slice(&[b'9'; 5000])?;
    assert_eq!(rt; literal_value(&text), Err(ValueFault::Range));
    text.push(b'.')?;
    assert_eq!(rt; literal_value(&text), Err(ValueFault::Literal));
    Ok(())
}
