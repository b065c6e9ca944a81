//! Files in a list, each a name and its bytes.
ghost use Rattle.std.specs.Prelude.{◌≡◌, ◌≢◌, ◌↔◌, IsTrue, IsSome};
ghost use Rattle.std.specs.List.{position, AllPairs};
ghost use Rattle.std.specs.Map.{keys_of};
ghost use Rattle.std.specs.Str.{bytes_eq};
ghost use Rattle.std.specs.String.{string_bytes};
ghost use Rattle.vkb_outside.specs.Held.{held, names_differ, file_at, with_file, IsAnswer};

use crate::ReadTrouble;
use std::alloc::Global;

/// Whether no two files have one name. It compares each name with all later ones.
pub fn names_differ(files: &[(String, Vec<u8>)]) -> bool
    ensures value { result ≡ names_differ (held files.now) }
    ensures meaning { IsTrue result ↔ AllPairs (λ a b. a ≢ b) (keys_of (held files.now)) }
{
    for (place, (name, _)) in files.iter().enumerate() {
        if place_of(&files[place + 1..], name.as_str()).is_some() {
            return false;
        }
    }
    true
}

/// What a read answers that doesn't fail.
pub fn read_from(
    alloc: Global,
    files: &[(String, Vec<u8>)],
    name: &str,
    most: u32,
) -> Result<Option<Vec<u8>>, ReadTrouble>
    ensures { IsAnswer (file_at (held files.now) name.now) most result }
{
    let Some(place) = place_of(files, name) else {
        return Ok(None);
    };
    let (_, bytes) = &files[place];
    if bytes.len() > most as usize {
        return Err(ReadTrouble::TooLong);
    }
    match Vec::from_slice(alloc, bytes) {
        Ok(copy) => Ok(Some(copy)),
        Err(_) => Err(ReadTrouble::Memory),
    }
}

/// Puts bytes in the place of those under a name that is held.
pub fn put_into(files: &mut [(String, Vec<u8>)], name: &str, bytes: Vec<u8>)
    requires { IsSome (file_at (held files.old) name.now) }
    ensures { held files.new ≡ with_file (held files.old) name.now bytes.items }
{
    if let Some(place) = place_of(files, name) {
        files[place].1 = bytes;
    }
}

/// The place of the first file of a name.
fn place_of(files: &[(String, Vec<u8>)], name: &str) -> Option<usize>
    ensures { result ≡ position (λ file. bytes_eq name.now (string_bytes file.0)) files.now }
{
    files.iter().position(|file| name == file.0.as_str())
}
