//! Numbers as they are written, without a sign.
ghost use Rattle.std.specs.Prelude.{◌≡◌, ◌-◌, ◌^◌, min, option_map};
ghost use Rattle.reg_values.specs.Literal.{magnitude_of};

use vkb_bytes::{decimal_number, hexadecimal_number};

/// The number that a text writes in base 16 after `0x`, else in base ten, or `u128::MAX` where it is more. `None` where it
/// writes none.
#[tactic(auto, unfolding(crate::specs::Literal::magnitude_of))]
pub fn magnitude(text: &[u8]) -> Option<u128>
    ensures { result ≡ option_map (λ n. min n (2 ^ 128 - 1)) (magnitude_of text.now) }
{
    match text {
        [b'0', b'x', digits @ ..] => hexadecimal_number(digits),
        _ => decimal_number(text),
    }
}
