//! The choice that words name, and whether a choice is permitted.
ghost use Rattle.std.specs.Prelude.{◌≡◌, ◌⊎◌, ℕ, List, length, replicate, true, false, None, Some, MatchOption, IfErr, IfOk, OnOk};
ghost use Rattle.vkb_bytes.specs.First.{IsFirst};
ghost use Rattle.reg_closure.specs.Closure.{IsClosure};
ghost use Rattle.reg_permit.specs.Choices.{IsChoice, IsChoiceFault, chosen_by, unknown_in};
ghost use Rattle.reg_permit.specs.Permitted.{BreaksRule, IsPermitted};

use crate::rules::first_broken;
use reg_closure::closure;
use reg_registry::{Choice, Registry};
use std::alloc::Global;
use thiserror::Error;
use vkb_bytes::{Bytes, Memory};
use vkb_formula::{NameId, NameSet, NameTable};

/// Why words name no permitted choice.
#[derive(Debug, Drop, Error)]
pub enum ChoiceFault {
    /// The word is no option of the registry: the first such word.
    #[error("an option that the registry doesn't have")]
    UnknownOption { word: Bytes },
    /// All words are options, and the choice isn't permitted: the first option, in their order, whose rule doesn't hold, by its place.
    #[error("a choice that isn't permitted")]
    NotPermitted { option: NameId },
    #[error("out of memory")]
    Memory,
}

impl From<Memory> for ChoiceFault {
    ghost use Rattle.std.specs.Prelude.{◌≡◌};
    ghost use Rattle.reg_permit.specs.declared.choosing.ChoiceFault.TheVariants.{Memory};

    ghost from_gives = { λ _ fault. fault ≡ Memory };

    fn from(_error: Memory) -> ChoiceFault {
        ChoiceFault::Memory
    }
}

/// The choice of the options that the words name, a word that stands twice once. `NotPermitted` is told only where all words are options.
pub fn choice_of(alloc: Global, r: &Registry, words: &[Bytes]) -> Result<Choice, ChoiceFault>
    ensures choice { IfOk result (λ c. IsChoice r.now words.now c.chosen.items) }
    ensures fault { IfErr result (IsChoiceFault r.now words.now) }
{
    let choice = Choice {
        chosen: named_options(alloc, r.options(), words)?,
    };
    match first_broken_by(alloc, r, &choice)? {
        None => Ok(choice),
        Some(place) => Err(ChoiceFault::NotPermitted {
            option: NameId(place),
        }),
    }
}

/// Whether a choice is permitted, where its closure is known. It takes no memory.
pub fn is_permitted(r: &Registry, c: &Choice, here: &NameSet) -> bool
    requires count { length c.now.chosen.items ≡ length r.now.options }
    requires closure { IsClosure r.now c.now.chosen.items here.now }
    ensures yes { result ≡ true → IsPermitted r.now c.now.chosen.items }
    ensures no { result ≡ false → (place : ℕ) × BreaksRule r.now c.now.chosen.items place }
{
    first_broken(r, c.chosen.as_slice(), here).is_none()
}

/// The first option whose rule a choice breaks, if there is one.
fn first_broken_by(alloc: Global, r: &Registry, c: &Choice) -> Result<Option<u32>, Memory>
    requires { length c.now.chosen.items ≡ length r.now.options }
    ensures { IfOk result (λ found. MatchOption found (IsPermitted r.now c.now.chosen.items) (IsFirst (BreaksRule r.now c.now.chosen.items))) }
{
    let here = closure(alloc, r, c)?;
    Ok(first_broken(r, c.chosen.as_slice(), &here))
}

/// Which options the words name.
fn named_options(
    alloc: Global,
    options: &NameTable,
    words: &[Bytes],
) -> Result<Vec<bool>, ChoiceFault>
    ensures known { OnOk result (unknown_in options.now words.now ≡ None) }
    ensures named { IfOk result (λ chosen. chosen.items ≡ chosen_by options.now words.now) }
    ensures fault { IfErr result (λ fault. (fault ≡ ChoiceFault.Memory)
        ⊎ ((word : List ℕ) × (fault ≡ ChoiceFault.UnknownOption word) × (unknown_in options.now words.now ≡ Some word))) }
{
    let mut chosen = none_chosen(alloc, options.len())?;
    for word in words {
        match options.find(word.as_slice()) {
            Some(option) => chosen[option.0 as usize] = true,
            None => return Err(unknown(alloc, word.as_slice())?),
        }
    }
    Ok(chosen)
}

/// A word is no option.
fn unknown(alloc: Global, word: &[u8]) -> Result<ChoiceFault, Memory>
    ensures { IfOk result (λ fault. fault ≡ ChoiceFault.UnknownOption word.now) }
{
    Ok(ChoiceFault::UnknownOption {
        word: Bytes::from_slice(alloc, word)?,
    })
}

/// No option is chosen.
fn none_chosen(alloc: Global, count: u32) -> Result<Vec<bool>, Memory>
    ensures { IfOk result (λ chosen. chosen.items ≡ replicate count false) }
{
    Ok(vec![in alloc; false; count as usize]?)
}
