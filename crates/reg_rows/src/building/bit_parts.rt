//! The parts of a bit's name.
ghost use Rattle.std.specs.Prelude.{◌≡◌, ◌≤◌, length};
ghost use Rattle.reg_tables.specs.Bits.{member_in, owner_in};

/// The name of the struct, before the first `:`, and that of the member, behind the one after it.
pub(crate) fn bit_parts(name: &[u8]) -> (&[u8], &[u8])
    ensures owner { result.0.now ≡ owner_in name.now }
    ensures member { result.1.now ≡ member_in name.now }
{
    let (owner, rest) = name.split_at(owner_end(name));
    (owner, &rest[rest.len().min(2)..])
}

/// Where the name of the struct ends.
fn owner_end(name: &[u8]) -> usize
    ensures { result ≡ length (owner_in name.now) }
{
    for (place, byte) in name.iter().enumerate() {
        if *byte == b':' {
            return place;
        }
    }
    name.len()
}
