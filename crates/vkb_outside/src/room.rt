//! Bytes that are appended where there is room for them.
ghost use Rattle.std.specs.Prelude.{◌≡◌, ◌+◌, ◌≤◌, ◌++◌, length, vec_len};
ghost use Rattle.std.specs.Vec.{vec_capacity};

/// Appends bytes, and takes no memory.
pub fn append(bytes: &mut Vec<u8>, more: &[u8])
    requires { vec_len bytes.old + length more.now ≤ vec_capacity bytes.old }
    ensures items { bytes.new.items ≡ bytes.old.items ++ more.now }
    ensures capacity { vec_capacity bytes.new ≡ vec_capacity bytes.old }
{
    for byte in more {
        bytes.push_reserved(*byte);
    }
}
