ghost use Rattle.std.specs.Prelude.{◌^◌, ◌<◌, length, IfOk};

use std::alloc::{AllocError, AllocFailed, Global};
use std::env::{Env, FillError};

/// As many words as are too many, 2^32.
const TOO_MANY: usize = 4_294_967_296;

/// Why there are no words.
#[derive(Clone, Copy, Debug, PartialEq, Eq)]
pub enum WordsTrouble {
    /// There are 2^32 words or more.
    TooMany,
    Memory,
}

impl From<AllocError> for WordsTrouble {
    fn from(_: AllocError) -> WordsTrouble {
        WordsTrouble::Memory
    }
}

impl<T: Drop> From<AllocFailed<T>> for WordsTrouble {
    fn from(_: AllocFailed<T>) -> WordsTrouble {
        WordsTrouble::Memory
    }
}

/// The words that the program was called with, without its own name. A word is any bytes.
pub fn words_of<E: Env>(system: &E, alloc: Global) -> Result<Vec<Vec<u8>>, WordsTrouble>
    ensures { IfOk result (λ words. length words.items < 2 ^ 32) }
{
    let mut words = Vec::new(alloc);
    while words.len() < TOO_MANY {
        let Some(word) = word_at(system, alloc, words.len() + 1)? else {
            return Ok(words);
        };
        words.push(word)?;
    }
    Err(WordsTrouble::TooMany)
}

/// The bytes of a word, or `None` past the last one.
fn word_at<E: Env>(system: &E, alloc: Global, at: usize) -> Result<Option<Vec<u8>>, WordsTrouble> {
    let mut capacity = 256usize;
    for _ in 0..usize::BITS {
        let mut word = vec![in alloc; 0u8; capacity]?;
        match system.arg(at, &mut word) {
            Ok(len) => {
                word.truncate(len);
                return Ok(Some(word));
            }
            Err(FillError::NotPresent) => return Ok(None),
            Err(FillError::TooLong) => capacity = capacity.saturating_add(capacity),
        }
    }
    Err(WordsTrouble::Memory)
}
