//! The numbers that the registry gives to enumerants and constants.
#![tactic(auto)]

ghost use Rattle.std.specs.Prelude.{◌≡◌, ◌-◌, ◌^◌, ◌<◌, ◌⊎◌, ◌↔◌, ℤ, pos, neg_ℤ, ◌≤ℤ◌, ◌≤◌, Some, IsNone, IsSomeAnd, IfOk};
ghost use Rattle.reg_values.specs.Literal.{literal_of, literal_value};
ghost use Rattle.reg_values.specs.Spelling.{IsLiteral};
ghost use Rattle.reg_values.specs.Values.{bit_value, in_range, offset_number, offset_value, IsOutside};

mod numerals;

use numerals::magnitude;
use thiserror::Error;
use vkb_bytes::numerals_follow_the_rule;

#[cfg(test)]
mod tests;

/// Why there is no value.
#[derive(Clone, Copy, Debug, PartialEq, Eq, Error)]
pub enum ValueFault {
    /// The value, or a number that gives it, is out of its range.
    #[error("the value is out of range")]
    Range,
    /// The text is no literal.
    #[error("the text is no literal")]
    Literal,
}

/// The value of an enumerant of an extension, by the extension's number, which is from 1 on, and the enumerant's offset, which
/// is below 1000: `1000000000 + (extension - 1) * 1000 + offset`, negated where `negative`. These are `extnumber`, `offset` and
/// `dir` of the Vulkan registry manual, and the rule is that of the style guide, "Vulkan Documentation and Extensions: Procedures
/// and Conventions".
///
/// The one fault is `Range`: there is no such extension or offset, or the value isn't a number of 32 bits with a sign. The call
/// takes no memory.
#[tactic(auto, unfolding(crate::specs::Values::offset_value))]
pub fn offset_value(extension: u32, offset: u32, negative: bool) -> Result<i64, ValueFault>
    ensures value { result ≡ offset_value extension offset negative }
    ensures ok { IfOk result (λ value. value ≡ offset_number extension offset negative) }
    ensures range { (result ≡ Err ValueFault.Range)
        ↔ ((extension ≡ 0) ⊎ (999 < offset)
        ⊎ IsOutside (neg_ℤ (pos 2147483648)) (pos 2147483647) (offset_number extension offset negative)) }
    ensures within { IfOk result
        (λ value. (neg_ℤ (pos 2147483648) ≤ℤ value) × (value ≤ℤ pos 2147483647)) }
{
    if extension == 0 || offset > 999 {
        return Err(ValueFault::Range);
    }
    in_32_bits(offset_number(extension, offset, negative))
}

/// The value of an offset, whether or not 32 bits hold it.
fn offset_number(extension: u32, offset: u32, negative: bool) -> i64
    requires { 0 < extension }
    ensures { result ≡ offset_number extension offset negative }
{
    let number = 1_000_000_000 + i64::from(extension - 1) * 1000 + i64::from(offset);
    if negative { -number } else { number }
}

/// The value itself, where it is one of 32 bits with a sign.
fn in_32_bits(value: i64) -> Result<i64, ValueFault>
    ensures value { result ≡ in_range (neg_ℤ (pos 2147483648)) (pos 2147483647) value }
    ensures range { (result ≡ Err ValueFault.Range) ↔ IsOutside (neg_ℤ (pos 2147483648)) (pos 2147483647) value }
{
    if value < i64::from(i32::MIN) || value > i64::from(i32::MAX) {
        return Err(ValueFault::Range);
    }
    Ok(value)
}

/// The value of a flag by the position of its bit, from 0 on, in a mask of `width` bits: 2 to the power of the position. These
/// are `bitpos` and `bitwidth` of the Vulkan registry manual.
///
/// The one fault is `Range`: the mask has no such bit. The call takes no memory.
#[tactic(auto, unfolding(crate::specs::Values::bit_value))]
pub fn bit_value(position: u32, width: u32) -> Result<u64, ValueFault>
    requires { (width ≡ 32) ⊎ (width ≡ 64) }
    ensures value { result ≡ bit_value position width }
    ensures ok { IfOk result (λ value. value ≡ 2 ^ position) }
    ensures range { (result ≡ Err ValueFault.Range) ↔ (width ≤ position) }
    ensures within { IfOk result (λ value. value < 2 ^ width) }
{
    if position >= width {
        return Err(ValueFault::Range);
    }
    Ok(1 << position)
}

/// The value of a literal: decimal digits, or `0x` and hexadecimal digits of either case, and a `-` before them or none. The
/// Vulkan registry manual lets the attribute `value` be any expression of C, of which these forms are read.
///
/// The fault is `Literal` where the text isn't of this form. It is `Range` where it is, and the value is below -2^63 or above
/// 2^64 - 1. The call takes no memory.
#[tactic(auto, unfolding(crate::specs::Literal::literal_of, crate::specs::Literal::literal_value))]
pub fn literal_value(text: &[u8]) -> Result<i128, ValueFault>
    ensures value { result ≡ literal_value text.now }
    ensures ok { IfOk result (λ value. literal_of text.now ≡ Some value) }
    ensures literal { (result ≡ Err ValueFault.Literal) ↔ IsNone (literal_of text.now) }
    ensures range { (result ≡ Err ValueFault.Range)
        ↔ IsSomeAnd (literal_of text.now) (IsOutside (neg_ℤ (pos (2 ^ 63))) (pos (2 ^ 64 - 1))) }
    ensures within { IfOk result
        (λ value. (neg_ℤ (pos (2 ^ 63)) ≤ℤ value) × (value ≤ℤ pos (2 ^ 64 - 1))) }
{
    let (negative, digits) = match text {
        [b'-', digits @ ..] => (true, digits),
        _ => (false, text),
    };
    let Some(size) = magnitude(digits) else {
        return Err(ValueFault::Literal);
    };
    let most = if negative {
        1 << 63
    } else {
        u128::from(u64::MAX)
    };
    if size > most {
        return Err(ValueFault::Range);
    }
    let size = size as i128;
    Ok(if negative { -size } else { size })
}

/// What a literal is in the words of the rule: `literal_value` gives a text the value that it spells, if it spells one, and
/// none spells two. The call does nothing: its contract is the theorem.
pub fn literals_follow_the_rule(text: &[u8])
    ensures spelled { (value : ℤ) → (literal_of text.now ≡ Some value) ↔ IsLiteral text.now value }
    ensures unique { (value other : ℤ) → IsLiteral text.now value → IsLiteral text.now other → value ≡ other }
{
    numerals_follow_the_rule();
}
