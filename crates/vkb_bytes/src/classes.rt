ghost use Rattle.std.specs.Prelude.{◌≡◌};
ghost use Rattle.vkb_bytes.specs.Bytes.{is_letter, is_digit, is_word_byte, is_white};

/// Whether a byte is `A` to `Z` or `a` to `z`.
pub fn is_letter(byte: u8) -> bool
    ensures { result ≡ is_letter byte }
{
    matches!(byte, b'A'..=b'Z' | b'a'..=b'z')
}

/// Whether a byte is `0` to `9`.
pub fn is_digit(byte: u8) -> bool
    ensures { result ≡ is_digit byte }
{
    matches!(byte, b'0'..=b'9')
}

/// Whether a byte is a letter, a digit or `_`.
pub fn is_word_byte(byte: u8) -> bool
    ensures { result ≡ is_word_byte byte }
{
    is_letter(byte) || is_digit(byte) || byte == b'_'
}

/// Whether a byte is a tab, a line feed, a carriage return or a space.
pub fn is_white(byte: u8) -> bool
    ensures { result ≡ is_white byte }
{
    matches!(byte, b'\t' | b'\n' | b'\r' | b' ')
}
