//! The least of the numbers of features, of all and of those that aren't chosen.
ghost use Rattle.std.specs.Prelude.{◌≡◌, ◌⊎◌, length, true, false, Some, IfSome, IsSomeAnd, MatchBool};
ghost use Rattle.reg_permit.specs.Lowest.{IsLeast, IsLeastWith, IsLeftOut, IsLowerOf, IsNumber};
ghost use Rattle.reg_permit.specs.Permitted.{IsLower};

use reg_registry::Registry;

/// The least numbers of a registry's features.
#[derive(Clone, Copy)]
pub(crate) struct Lowest {
    /// Of all features.
    pub(crate) all: Option<(u32, u32)>,
    /// Of those that aren't chosen.
    pub(crate) left_out: Option<(u32, u32)>,
}

/// Whether a number is below another.
pub(crate) fn is_lower(version: (u32, u32), other: (u32, u32)) -> bool
    ensures { MatchBool result (IsLower version other) (IsLower version other → ⊥) }
{
    if version.0 == other.0 {
        return version.1 < other.1;
    }
    version.0 < other.0
}

/// Whether the least of several numbers is below a number.
pub(crate) fn has_lower(least: Option<(u32, u32)>, version: (u32, u32)) -> bool
    ensures { MatchBool result (IsSomeAnd least (λ low. IsLower low version)) (IfSome least (λ low. IsLower low version → ⊥)) }
{
    match least {
        Some(low) => is_lower(low, version),
        None => false,
    }
}

/// The lower of a number and the least so far.
fn lower_of(least: Option<(u32, u32)>, version: (u32, u32)) -> (u32, u32)
    ensures { IsLowerOf least version result }
{
    match least {
        Some(low) if is_lower(low, version) => low,
        _ => version,
    }
}

/// The least numbers with that of one more feature.
fn with_feature(lowest: Lowest, version: (u32, u32), is_chosen: bool) -> Lowest
    ensures all { IsLeastWith lowest.all version result.all }
    ensures chosen { is_chosen ≡ true → result.left_out ≡ lowest.left_out }
    ensures left_out { is_chosen ≡ false → IsLeastWith lowest.left_out version result.left_out }
{
    let all = Some(lower_of(lowest.all, version));
    if is_chosen {
        return Lowest {
            all,
            left_out: lowest.left_out,
        };
    }
    Lowest {
        all,
        left_out: Some(lower_of(lowest.left_out, version)),
    }
}

/// The least numbers of all features, and of those that aren't chosen.
pub(crate) fn lowest_of(r: &Registry, chosen: &[bool]) -> Lowest
    requires { length chosen.now ≡ length r.now.options }
    ensures all { IsLeast (IsNumber r.now.option_rows (length r.now.options)) result.all }
    ensures left_out { IsLeast (IsLeftOut r.now.option_rows chosen.now (length r.now.options)) result.left_out }
{
    let mut lowest = Lowest {
        all: None,
        left_out: None,
    };
    for place in 0..r.options().len() {
        if let Some(version) = r.option(place).version {
            lowest = with_feature(lowest, version, chosen[place as usize]);
        }
    }
    lowest
}
