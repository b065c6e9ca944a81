//! Why a text may not be added.
ghost use Rattle.std.specs.Prelude.{◌≡◌};
ghost use Rattle.vkb_text.specs.declared.fault.TextFault.TheVariants.{Memory};

use std::alloc::AllocError;
use thiserror::Error;

/// Why a text wasn't added.
#[derive(Clone, Copy, Debug, PartialEq, Eq, Error)]
pub enum TextFault {
    #[error("the texts together are too long")]
    Full,
    #[error("out of memory")]
    Memory,
}

impl From<AllocError> for TextFault {
    ghost from_gives = { λ _ fault. fault ≡ Memory };

    fn from(_error: AllocError) -> TextFault {
        TextFault::Memory
    }
}
