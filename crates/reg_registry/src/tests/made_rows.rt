//! Circles among rows that are made by hand.
ghost use Rattle.std.specs.Prelude.{◌≡◌, ◌<◌, IfOk, All, length, true};

use super::*;
use vkb_bytes::{Bytes, Listed};
use vkb_formula::NameId;

/// A row that names these names.
fn row_naming(alloc: Global, names: &[u32]) -> Result<Row, Memory> {
    let mut named = Vec::new(alloc);
    for name in names {
        named.push(NameId(*name))?;
    }
    Ok(Row {
        kind: Kind::Struct,
        alias: None,
        text: Bytes::from_vec(Vec::new(alloc)),
        result: Bytes::from_vec(Vec::new(alloc)),
        prototyped: false,
        members: Listed::from_vec(Vec::new(alloc)),
        bits: None,
        shape: Shape::Plain,
        returned: false,
        extends: Listed::from_vec(Vec::new(alloc)),
        values: Listed::from_vec(Vec::new(alloc)),
        named: Listed::from_vec(named),
    })
}

/// Whether all of these are below a number.
fn are_below(ids: &[NameId], end: usize) -> bool
    ensures { result ≡ true → All (λ id. id.0 < end) ids.now }
{
    for id in ids {
        if id.0 as usize >= end {
            return false;
        }
    }
    true
}

/// Whether rows name only what is below a number.
fn name_below(rows: &[Row], end: usize) -> bool
    ensures { result ≡ true → All (λ row. All (λ id. id.0 < end) row.named) rows.now }
{
    for row in rows {
        if !are_below(row.named.as_slice(), end) {
            return false;
        }
    }
    true
}

/// The circle that is found among rows, of which each names these names, or nothing.
fn circle_of(alloc: Global, naming: &[&[u32]]) -> Result<Vec<u32>, Fail> {
    let mut rows = Vec::new(alloc);
    for names in naming {
        rows.push(row_naming(alloc, names)?)?;
    }
    if rows.len() > 10 || !name_below(&rows, rows.len()) {
        return Err(Fail::from("no such name"));
    }
    Ok(first_circle(alloc, &rows)?.unwrap_or(Vec::new(alloc)))
}

#[test]
fn circles_begin_with_their_first_name(rt: HostRuntime) -> Result<(), Fail> {
    let alloc = rt.alloc();
    let table: [(&[&[u32]], &[u32]); 6] = [
        (&[], &[]),
        (&[&[1, 2], &[2], &[]], &[]),
        (&[&[1], &[2], &[1]], &[1, 2]),
        (&[&[], &[1]], &[1]),
        (&[&[2], &[1], &[0]], &[0, 2]),
        (&[&[3], &[2], &[3, 1], &[]], &[1, 2]),
    ];
    for (naming, circle) in table {
        assert_eq!(rt; circle_of(alloc, naming)?.as_slice(), circle);
    }
    Ok(())
}
