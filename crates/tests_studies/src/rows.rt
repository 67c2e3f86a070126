//! Rows by hand.
use crate::looks::{Given, expect, look_of, looks_of};
use field_core::{List, Text};
use graph_io::Look;
use std::alloc::Global;
use study_sqlite::{LookRow, RowsFault, from_row, read_rows, to_row};

/// The columns of a row.
type Columns = (i64, i64, &'static str);

/// Rows and their looks. The parts of the last have 39 digits each.
const ROWS: &[(Columns, Given)] = &[
    ((0, 1, "1/50"), (0, 1, (1, 50))),
    ((4294967295, 0, "-1/50"), (4294967295, 0, (-1, 50))),
    ((2, 3, "1"), (2, 3, (1, 1))),
    ((2, 3, "0"), (2, 3, (0, 1))),
    (
        (
            7,
            2,
            "-170141183460469231731687303715884105727/170141183460469231731687303715884105726",
        ),
        (7, 2, (-i128::MAX, i128::MAX - 1)),
    ),
];

/// Whether a row has these columns.
fn has(row: &LookRow, columns: &Columns) -> bool {
    let (hypothesis, stage, p) = *columns;
    row.hypothesis == hypothesis && row.stage == stage && row.p.as_bytes() == p.as_bytes()
}

#[test]
fn rows_and_looks_correspond(rt: HostRuntime) {
    for (columns, given) in ROWS {
        let (hypothesis, stage, p) = *columns;
        let look = look_of(given).expect(&rt, p);
        let row = to_row(rt.alloc(), &look).expect(&rt, "memory");
        expect(&rt, has(&row, columns), p);
        let read = from_row(hypothesis, stage, p.as_bytes());
        expect(&rt, read == Some(look), p);
    }
}

/// Rows that are not those of a look: other spellings of a number, texts that are not numbers, numbers that no look has, and
/// parts of 128 bits and more.
const OTHERS: &[Columns] = &[
    (0, 1, "2/100"),
    (0, 1, "0.02"),
    (0, 1, "+1/50"),
    (0, 1, "1/050"),
    (0, 1, "1/1"),
    (0, 1, "-0"),
    (0, 1, "1/-50"),
    (0, 1, "1/50 "),
    (0, 1, ""),
    (0, 1, "1/"),
    (0, 1, "/50"),
    (0, 1, "1/2/3"),
    (0, 1, "1/0"),
    (-1, 1, "1/50"),
    (4294967296, 1, "1/50"),
    (0, -1, "1/50"),
    (0, 4294967296, "1/50"),
    (0, 1, "-170141183460469231731687303715884105728"),
    (0, 1, "1/170141183460469231731687303715884105728"),
    (0, 1, "1000000000000000000000000000000000000000000"),
];

#[test]
fn other_rows_are_of_no_look(rt: HostRuntime) {
    for (hypothesis, stage, p) in OTHERS {
        let look = from_row(*hypothesis, *stage, p.as_bytes());
        expect(&rt, look.is_none(), p);
    }
    assert!(rt; from_row(0, 1, b"\xFF").is_none());
}

/// Returns the rows of these columns, or nothing when out of memory.
fn rows_of(alloc: Global, columns: &[Columns]) -> Option<List<LookRow>> {
    let mut rows = List::new(alloc);
    for (hypothesis, stage, p) in columns {
        let p = Text::copy(alloc, p.as_bytes()).ok()?;
        let row = LookRow {
            hypothesis: *hypothesis,
            stage: *stage,
            p,
        };
        rows.push(row).ok()?;
    }
    Some(rows)
}

/// Returns what is read from these columns: the looks, or the place of the first row that is not the row of a look.
fn read(alloc: Global, columns: &[Columns]) -> Option<Result<List<Look>, RowsFault>> {
    let rows = rows_of(alloc, columns)?;
    Some(read_rows(alloc, rows.as_slice()))
}

#[test]
fn rows_are_read_in_their_order(rt: HostRuntime) {
    let looks = read(rt.alloc(), &[(0, 2, "1/50"), (0, 1, "3/100")]);
    let wanted = looks_of(rt.alloc(), &[(0, 2, (1, 50)), (0, 1, (3, 100))]);
    let looks = looks.expect(&rt, "rows").expect(&rt, "looks");
    let wanted = wanted.expect(&rt, "looks");
    assert!(rt; looks.as_slice() == wanted.as_slice());
    let bad = read(rt.alloc(), &[(0, 1, "1/50"), (0, 2, "2/100"), (0, 3, "x")]);
    assert!(rt; matches!(bad, Some(Err(RowsFault::Bad(2)))));
}
