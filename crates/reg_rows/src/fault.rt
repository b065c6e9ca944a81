//! What can be wrong with a registry.
use reg_forms::RowCode;
use thiserror::Error;
use vkb_bytes::{Bytes, Listed, Memory};

/// Why a registry has no rows: the first thing that is wrong with it.
#[derive(Debug, Drop, Error)]
pub enum RowFault {
    /// An element is wrong. `at` is the place of its `<`, in bytes from 0.
    #[error("a fault in the registry at byte {at}")]
    Bad { code: RowCode, at: u32, word: Bytes },
    /// No feature is one of the API.
    #[error("the registry has no feature for the API")]
    NoFeature,
    /// Each of these names names the next, and the last the first.
    #[error("names of the registry name each other in a circle")]
    NamingCycle { names: Listed<Bytes> },
    #[error("out of memory")]
    Memory,
}

impl From<Memory> for RowFault {
    ghost use Rattle.std.specs.Prelude.{◌≡◌};
    ghost use Rattle.reg_rows.specs.declared.fault.RowFault.TheVariants.{Memory};

    ghost from_gives = { λ _ fault. fault ≡ Memory };

    fn from(_error: Memory) -> RowFault {
        RowFault::Memory
    }
}
