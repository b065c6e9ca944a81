//! The names of a registry.
ghost use Rattle.std.specs.Prelude.{◌≡◌};
ghost use Rattle.reg_registry.specs.Words.{is_name};

/// Whether a text is a name: bytes from 33 to 126, at least one.
pub fn is_name(text: &[u8]) -> bool
    ensures { result ≡ is_name text.now }
{
    for byte in text {
        if *byte < 33 || *byte > 126 {
            return false;
        }
    }
    !text.is_empty()
}
