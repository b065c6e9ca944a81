ghost use Rattle.std.specs.Prelude.{◌≡◌, ◌+◌, ◌*◌, ◌<◌, ◌≤◌, ◌-◌, ◌^◌, length, true};
ghost use Rattle.std.specs.Char.{digit_value};
ghost use Rattle.vkb_bytes.specs.Bytes.{is_digit};
ghost use Rattle.vkb_bytes.specs.Numbers.{is_digit_in};
ghost use Rattle.reg_reader.specs.References.{number_end, partial_if, in_hexadecimal, in_decimal, in_number, begins_named, in_named, progress_of};

use vkb_bytes::{digit_value, is_digit, is_hexadecimal_digit};

/// How far a reference was read.
#[derive(Clone, Copy)]
pub enum Progress {
    /// It ended, and stands for this byte.
    Whole(u8),
    /// It may go on.
    Partial,
    /// It is none, and begins none.
    Wrong,
}

fn partial_if(good: bool) -> Progress
    ensures { result ≡ partial_if good }
{
    if good {
        Progress::Partial
    } else {
        Progress::Wrong
    }
}

/// What a hexadecimal digit is worth.
fn hexadecimal_digit(byte: u8) -> u16
    requires { is_digit_in 16 byte ≡ true }
    ensures value { result ≡ digit_value byte }
    ensures small { result < 16 }
{
    u16::from(digit_value(byte))
}

/// What a decimal digit is worth.
fn decimal_digit(byte: u8) -> u16
    requires { is_digit byte ≡ true }
    ensures value { result ≡ digit_value byte }
    ensures small { result < 16 }
{
    u16::from(digit_value(byte))
}

fn number_end(byte: u8, value: u16) -> Progress
    ensures { result ≡ number_end byte value }
{
    if byte == b';' && value >= 1 && value <= 127 {
        Progress::Whole(value as u8)
    } else {
        Progress::Wrong
    }
}

/// What stands behind `&#x`.
fn in_hexadecimal(text: &[u8]) -> Progress
    ensures { result ≡ in_hexadecimal text.now }
{
    match text {
        [] => Progress::Partial,
        [a] => partial_if(is_hexadecimal_digit(*a)),
        [a, b] => {
            if !is_hexadecimal_digit(*a) {
                return Progress::Wrong;
            }
            if !is_hexadecimal_digit(*b) {
                return number_end(*b, hexadecimal_digit(*a));
            }
            let value = 16 * hexadecimal_digit(*a) + hexadecimal_digit(*b);
            partial_if(value >= 1 && value <= 127)
        }
        [a, b, c] => {
            if !is_hexadecimal_digit(*a) || !is_hexadecimal_digit(*b) {
                return Progress::Wrong;
            }
            number_end(*c, 16 * hexadecimal_digit(*a) + hexadecimal_digit(*b))
        }
        _ => Progress::Wrong,
    }
}

/// What stands behind `&#`, and begins with a digit.
fn in_decimal(text: &[u8]) -> Progress
    ensures { result ≡ in_decimal text.now }
{
    match text {
        [] => Progress::Partial,
        [a] => partial_if(is_digit(*a)),
        [a, b] => {
            if !is_digit(*a) {
                return Progress::Wrong;
            }
            if is_digit(*b) {
                return Progress::Partial;
            }
            number_end(*b, decimal_digit(*a))
        }
        [a, b, c] => {
            if !is_digit(*a) || !is_digit(*b) {
                return Progress::Wrong;
            }
            let high = 10 * decimal_digit(*a) + decimal_digit(*b);
            if !is_digit(*c) {
                return number_end(*c, high);
            }
            let value = 10 * high + decimal_digit(*c);
            partial_if(value >= 1 && value <= 127)
        }
        [a, b, c, d] => {
            if !is_digit(*a) || !is_digit(*b) || !is_digit(*c) {
                return Progress::Wrong;
            }
            number_end(
                *d,
                10 * (10 * decimal_digit(*a) + decimal_digit(*b)) + decimal_digit(*c),
            )
        }
        _ => Progress::Wrong,
    }
}

/// What stands behind `&#`.
fn in_number(text: &[u8]) -> Progress
    ensures { result ≡ in_number text.now }
{
    match text {
        [] => Progress::Partial,
        [b'x', more @ ..] => in_hexadecimal(more),
        _ => in_decimal(text),
    }
}

fn in_named(text: &[u8]) -> Progress
    ensures { result ≡ in_named text.now }
{
    if text == b"&lt;".as_slice() {
        Progress::Whole(b'<')
    } else if text == b"&gt;".as_slice() {
        Progress::Whole(b'>')
    } else if text == b"&amp;".as_slice() {
        Progress::Whole(b'&')
    } else if text == b"&quot;".as_slice() {
        Progress::Whole(b'"')
    } else if text == b"&apos;".as_slice() {
        Progress::Whole(b'\'')
    } else {
        partial_if(begins_named(text))
    }
}

/// Whether a text begins one of the names.
fn begins_named(text: &[u8]) -> bool
    ensures { result ≡ begins_named text.now }
{
    b"&lt;".starts_with(text)
        || b"&gt;".starts_with(text)
        || b"&amp;".starts_with(text)
        || b"&quot;".starts_with(text)
        || b"&apos;".starts_with(text)
}

/// How far the text of a reference goes.
pub fn progress_of(text: &[u8]) -> Progress
    ensures { result ≡ progress_of text.now }
{
    match text {
        [b'&', b'#', more @ ..] => in_number(more),
        _ => in_named(text),
    }
}
