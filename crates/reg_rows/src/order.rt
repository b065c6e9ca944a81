//! The order of faults, and the first of all.
ghost use Rattle.std.specs.Prelude.{◌≡◌, [], MatchOption, if◌then◌else◌};
ghost use Rattle.std.specs.Option.{option_map_or};
ghost use Rattle.reg_rows.specs.Faults.{IsFirst, rank, stands_before};

use reg_forms::{Fault, RowCode};

/// The first of faults, by place, then by code, then by word. It takes no memory.
pub(crate) fn first_of(faults: Vec<Fault>) -> Option<Fault>
    ensures { MatchOption result (faults.items ≡ []) (IsFirst faults.items) }
{
    let mut first: Option<Fault> = None;
    for fault in faults {
        first = Some(earlier(first, fault));
    }
    first
}

/// Of two faults the one that stands before the other, or the first where they are alike.
fn earlier(first: Option<Fault>, other: Fault) -> Fault
    ensures { result ≡ option_map_or (λ fault. if stands_before other fault then other else fault) first other }
{
    match first {
        Some(fault) => {
            if stands_before(&other, &fault) {
                other
            } else {
                fault
            }
        }
        None => other,
    }
}

/// Whether a fault stands before another.
fn stands_before(a: &Fault, b: &Fault) -> bool
    ensures { result ≡ stands_before a.now b.now }
{
    if a.at != b.at {
        return a.at < b.at;
    }
    let (rank, other) = (rank(a.code), rank(b.code));
    if rank != other {
        return rank < other;
    }
    a.word.as_slice() < b.word.as_slice()
}

/// The place of a code among all.
fn rank(code: RowCode) -> u32
    ensures { result ≡ rank code }
{
    match code {
        RowCode::BadAttribute => 0,
        RowCode::ApiType => 1,
        RowCode::BadExpression => 2,
        RowCode::DuplicateName => 3,
        RowCode::UnknownName => 4,
        RowCode::ValueRange => 5,
        RowCode::ValueClash => 6,
        RowCode::AliasCircle => 7,
        RowCode::NameLimit => 8,
    }
}
