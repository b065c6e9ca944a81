//! Digits, and the numbers that they write.
ghost use Rattle.std.specs.Prelude.{◌≡◌, ◌-◌, ◌^◌, ◌<◌, ◌⊎◌, ◌↔◌, true, List, min, option_map, ℕ, decimal, Some, IfOk, IfSome};
ghost use Rattle.std.specs.Char.{digit_value};
ghost use Rattle.vkb_bytes.specs.Numbers.{is_digit_in, numeral_of, short_numeral_of, IsNumeral, IsDecimalDigit, IsHexadecimalDigit};

use crate::lists::Bytes;
use std::alloc::{AllocError, Global};

/// Whether a byte is `0` to `9`, `A` to `F` or `a` to `f`.
pub fn is_hexadecimal_digit(byte: u8) -> bool
    ensures { result ≡ is_digit_in 16 byte }
{
    char::from(byte).is_digit(16)
}

/// What a digit is worth, a hexadecimal one of either case too.
pub fn digit_value(byte: u8) -> u8
    requires { is_digit_in 16 byte ≡ true }
    ensures value { result ≡ digit_value byte }
    ensures small { result < 16 }
{
    match byte {
        b'0'..=b'9' => byte - b'0',
        b'A'..=b'F' => byte - b'A' + 10,
        _ => byte - b'a' + 10,
    }
}

/// The number that a text writes in a base, or `u128::MAX` where it is more. `None` where a byte is no digit of the base, or
/// where there is none.
#[tactic(auto, unfolding(crate::specs::Numbers::numeral_of))]
fn numeral(text: &[u8], base: u32) -> Option<u128>
    requires { (base ≡ 10) ⊎ (base ≡ 16) }
    ensures { result ≡ option_map (λ n. min n (2 ^ 128 - 1)) (numeral_of base text.now) }
{
    if text.is_empty() {
        return None;
    }
    let mut number: u128 = 0;
    for byte in text {
        let digit = char::from(*byte).to_digit(base)?;
        number = number
            .saturating_mul(u128::from(base))
            .saturating_add(u128::from(digit));
    }
    Some(number)
}

/// The number that decimal digits write, or `u128::MAX` where it is more. `None` where the text has another byte, or none.
pub fn decimal_number(text: &[u8]) -> Option<u128>
    ensures { result ≡ option_map (λ n. min n (2 ^ 128 - 1)) (numeral_of 10 text.now) }
{
    numeral(text, 10)
}

/// The number that hexadecimal digits of either case write, or `u128::MAX` where it is more. `None` where the text has another
/// byte, or none.
pub fn hexadecimal_number(text: &[u8]) -> Option<u128>
    ensures { result ≡ option_map (λ n. min n (2 ^ 128 - 1)) (numeral_of 16 text.now) }
{
    numeral(text, 16)
}

/// The number that one to nine decimal digits write. `None` where the text isn't of this form.
#[tactic(auto, unfolding(crate::specs::Numbers::short_numeral_of))]
pub fn short_number(text: &[u8]) -> Option<u32>
    ensures value { result ≡ short_numeral_of text.now }
    ensures small { IfSome result (λ number. number < 10 ^ 9) }
{
    if text.len() > 9 {
        return None;
    }
    match numeral(text, 10) {
        Some(number) => Some(number as u32),
        None => None,
    }
}

/// The decimal digits of a number, without zeros before them.
pub fn decimal_text(alloc: Global, number: u64) -> Result<Bytes, AllocError>
    ensures { IfOk result (λ text. text ≡ decimal number) }
{
    Ok(Bytes::from_vec(format!(in alloc; "{number}")?.into_bytes()))
}

/// What a numeral is in the words of the rule: `numeral_of` gives a text the number that its digits write, each by its place in
/// the list of digits, and a text that isn't digits alone gets none. The call does nothing: its contract is the theorem.
pub fn numerals_follow_the_rule()
    ensures decimal { (text : List ℕ) (number : ℕ)
        → (numeral_of 10 text ≡ Some number) ↔ IsNumeral IsDecimalDigit 10 text number }
    ensures hexadecimal { (text : List ℕ) (number : ℕ)
        → (numeral_of 16 text ≡ Some number) ↔ IsNumeral IsHexadecimalDigit 16 text number }
{}
