//! What every other crate is written in: the classes of bytes, digits and the numbers that they write, white bytes taken away,
//! small types over `Vec` and `String` that contracts see as lists, and want of memory.
#![tactic(auto)]

ghost use Rattle.std.specs.Prelude.{◌≡◌, ℕ, Bool, IsTrue};
ghost use Rattle.vkb_bytes.specs.First.{IsFirst};

mod classes;
mod digits;
mod lists;
mod memory;
mod trimming;

pub use classes::{is_digit, is_letter, is_white, is_word_byte};
pub use digits::{
    decimal_number, decimal_text, digit_value, hexadecimal_number, is_hexadecimal_digit,
    numerals_follow_the_rule, short_number,
};
pub use lists::{Bytes, Listed, Text};
pub use memory::Memory;
pub use trimming::{collapse, trim};

#[cfg(test)]
mod tests;

/// There is one first place of a kind, if there is any. The call does nothing: its contract is the theorem.
pub fn a_first_place_is_one()
    ensures { (passes : ℕ → Bool) (place other : ℕ)
        → IsFirst (λ k. IsTrue (passes k)) place → IsFirst (λ k. IsTrue (passes k)) other → place ≡ other }
{}
