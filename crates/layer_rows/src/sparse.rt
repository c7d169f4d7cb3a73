//! Entries that are written and read.

use fix_core::Fix;
use sparse_rows::SparseRows;
use std::test::Fail;

fn whole(n: i32) -> Fix {
    Fix::exactly(i128::from(n) * 1_000_000_000_000)
}

/// Written in no order, one written again, and one written as 0.
#[test]
fn entries_are_read_as_written(rt: HostRuntime) -> Result<(), Fail> {
    let mut rows = SparseRows::new(rt.alloc(), 3)?;
    assert_eq!(rt; rows.len(), 3);
    rows.set(1, 3, whole(5));
    rows.set(1, 0, whole(2));
    rows.set(1, 1, whole(7));
    rows.set(1, 0, whole(-4));
    rows.set(1, 1, whole(0));
    assert_eq!(rt; rows.get(1, 0), whole(-4));
    assert_eq!(rt; rows.get(1, 1), whole(0));
    assert_eq!(rt; rows.get(1, 2), whole(0));
    assert_eq!(rt; rows.get(1, 3), whole(5));
    assert_eq!(rt; rows.get(2, 0), whole(0));
    rows.clear(1);
    assert_eq!(rt; rows.get(1, 3), whole(0));
    Ok(())
}
