ghost use Rattle.std.specs.Prelude.{◌≡◌, ◌<◌, ◌^◌, ◌++◌, ◌≤◌, ◌≢◌, ◌↔◌, ℕ, length, take, map, slice_range, Bool, List, None, IfOk, IfErr, All, ◌⊎◌};
ghost use Rattle.vkb_formula.specs.Expressions.{Expression, Spells, formula_of, holds, has_option, places_of, words_in, names_of, IsNoExpression, IsSized, IsFront, IsStop};
ghost use Rattle.vkb_formula.specs.Formulas.{value_of, reach_of};
ghost use Rattle.vkb_formula.specs.Building.{runs_of};
ghost use Rattle.vkb_formula.specs.Faults.{IsStopFault, GivesOrMemory, GivesItemsOrMemory};

use crate::building::build;
use crate::formula::Formula;
use crate::mark::stop_of;
use crate::name_table::NameTable;
use std::alloc::Global;
use thiserror::Error;
use vkb_bytes::{Memory, is_word_byte};

/// Why a `depends` expression wasn't read.
#[derive(Debug, Drop, Error)]
pub enum ExprFault {
    /// The text is no expression. `at` is the length in bytes of its longest part from its start with which some
    /// expression begins.
    #[error("no expression goes on after {at} bytes")]
    BadExpression { at: u32 },
    #[error("out of memory")]
    Memory,
}

impl From<Memory> for ExprFault {
    ghost use Rattle.std.specs.Prelude.{◌≡◌};
    ghost use Rattle.vkb_formula.specs.declared.depends.ExprFault.TheVariants.{Memory};

    ghost from_gives = { λ _ e. e ≡ Memory };

    fn from(_error: Memory) -> ExprFault {
        ExprFault::Memory
    }
}

/// The formula of an expression of the attribute `depends`. The Vulkan registry manual has names, joined by `+` for and,
/// and `,` for or, and parentheses. This tool's own are the rest: a name is a word of letters, digits and `_`, or two
/// words with `::` between them, which name a structure's member; `+` and `,` bind alike and group from the left;
/// parentheses nest at most 64 deep, and there are at most 4,096 names, a member being one.
///
/// A name is the variable of its place among the options, or false where it is none. `BadExpression` where the text is
/// no expression.
pub fn read_depends(alloc: Global, text: &[u8], options: &NameTable) -> Result<Formula, ExprFault>
    requires { length text.now < 2 ^ 32 }

    // What is read is spelled so, and the formula has its shape.
    ensures read { IfOk result (λ f. (e : Expression) × Spells e text.now × (f ≡ formula_of options.now e)) }

    // What is spelled is read, unless memory runs out: so all that a text spells has one formula.
    ensures only { (e : Expression) → Spells e text.now → GivesOrMemory (formula_of options.now e) result }

    // It says what the expression says, at every set of options.
    ensures value { IfOk result (λ f. (e : Expression) → Spells e text.now → (set : List Bool)
        → value_of set f ≡ holds (has_option options.now set) e) }

    ensures fault { IsStopFault text.now result }
    ensures reach { IfOk result (λ f. reach_of f ≤ length options.now) }
    ensures sizes { IfOk result (λ f. (e : Expression) → Spells e text.now → IsSized f (words_in e)) }
{
    check(text)?;
    Ok(build(alloc, text, options)?)
}

/// Where each name of an expression begins and ends, in order, one entry for each: the place of its first byte, and that
/// after its last.
///
/// `BadExpression` as from `read_depends`.
pub fn words_of(alloc: Global, text: &[u8]) -> Result<Vec<(u32, u32)>, ExprFault>
    requires { length text.now < 2 ^ 32 }
    ensures read { IfOk result (λ places. (e : Expression) × Spells e text.now × (places.items ≡ places_of 0 e)) }
    ensures only { (e : Expression) → Spells e text.now → GivesItemsOrMemory (places_of 0 e) result }

    // They are its names, in their order, and no others.
    ensures names { IfOk result (λ places. (e : Expression) → Spells e text.now
        → map (λ place. slice_range text.now place.0 place.1) places.items ≡ names_of e) }

    ensures count { IfOk result (λ places. (e : Expression) → Spells e text.now → length places.items ≡ words_in e) }
    ensures within { IfOk result (λ places. All (λ place. (place.0 < place.1) × (place.1 ≤ length text.now)) places.items) }
    ensures fault { IsStopFault text.now result }
{
    check(text)?;
    Ok(name_places(alloc, text)?)
}

/// A law: of the parts with which a text begins, those as long as the text's stop or shorter are the fronts of
/// expressions, and the longer ones aren't.
pub fn a_stop_is_the_longest_front()
    ensures { (text : List ℕ) (at n : ℕ) → IsStop text at → n ≤ length text
        → (IsFront (take n text) ↔ (n ≤ at)) }
{}

/// A law: a text is one expression at most.
pub fn a_text_is_one_expression()
    ensures { (e f : Expression) (text : List ℕ) → Spells e text → Spells f text → e ≡ f }
{}

/// A law: a text is an expression or it is none.
pub fn each_text_is_read()
    ensures { (text : List ℕ) → ((e : Expression) × Spells e text) ⊎ IsNoExpression text }
{}

/// Whether a text is an expression.
fn check(text: &[u8]) -> Result<(), ExprFault>
    requires { length text.now < 2 ^ 32 }
    ensures spelled { IfOk result (λ _. (e : Expression) × Spells e text.now) }
    ensures fault { IsStopFault text.now result }
    ensures no_memory { IfErr result (λ e. e ≢ ExprFault.Memory) }
{
    match stop_of(text) {
        None => Ok(()),
        Some(at) => Err(ExprFault::BadExpression { at: at as u32 }),
    }
}

/// Where each run of the bytes of names begins and ends.
fn name_places(alloc: Global, text: &[u8]) -> Result<Vec<(u32, u32)>, Memory>
    requires { length text.now < 2 ^ 32 }
    ensures { IfOk result (λ places. places.items ≡ runs_of 0 None text.now) }
{
    let mut places = Vec::new(alloc);
    let mut from: Option<u32> = None;
    for (at, byte) in text.iter().enumerate() {
        if is_word_byte(*byte) || *byte == b':' {
            from = from.or(Some(at as u32));
        } else if let Some(first) = from.take() {
            places.push((first, at as u32))?;
        }
    }
    if let Some(first) = from {
        places.push((first, text.len() as u32))?;
    }
    Ok(places)
}
