//! The numbers of the calls that fail. Calls are counted from 1.
ghost use Rattle.std.specs.Prelude.{◌≡◌, ◌<◌, ◌^◌, ◌==◌, IsTrue, IsSome};
ghost use Rattle.std.specs.List.{list_any};
ghost use Rattle.std.specs.Map.{lookup};

/// Whether a number is among those.
pub fn is_among(failing: &[u32], number: u64) -> bool
    ensures value { result ≡ list_any (λ n. n == number) failing.now }
    ensures small { IsTrue result → number < 2 ^ 32 }
{
    for other in failing {
        if u64::from(*other) == number {
            return true;
        }
    }
    false
}

/// What the first pair of a number has beside it.
pub fn first_of(failing: &[(u32, usize)], number: u64) -> Option<usize>
    ensures value { result ≡ lookup (λ n. n == number) failing.now }
    ensures small { IsSome result → number < 2 ^ 32 }
{
    for (other, count) in failing {
        if u64::from(*other) == number {
            return Some(*count);
        }
    }
    None
}
