//! Many rows of p-values, with marks by hand.
use crate::cases::{BARE_HOLM, CHAIN, WIDE_OPENING, case_of};
use field_core::{Op, Place, WideAt};
use std::alloc::Global;
use std::process::Abort;
use std::test::Fail;
use trial_rows::{RowsFault, test_rows};

/// The double 0.
const ZERO: u64 = 0;

/// The double 1.
const ONE: u64 = 0x3ff0_0000_0000_0000;

/// The double 0.025, at the limit of the second rejection.
const AT_LIMIT: u64 = 0x3f99_9999_9999_999a;

/// The double 2.
const TWO: u64 = 0x4000_0000_0000_0000;

/// A NaN.
const NAN: u64 = 0x7ff8_0000_0000_0000;

/// Minus 0.5.
const MINUS_HALF: u64 = 0xbfe0_0000_0000_0000;

/// The case of a text, doubles, the answer to them, and the marks and the statuses then. Each is 9 before.
type Row<'a> = (
    &'a str,
    &'a [u64],
    Result<(), RowsFault>,
    &'a [u8],
    &'a [u8],
);

fn expect(rt: &impl Abort, alloc: Global, rows: &[Row]) -> Result<(), Fail> {
    for &(text, doubles, answer, marks, statuses) in rows {
        let case = case_of(rt, alloc, text);
        let mut rejected = Vec::from_elem(alloc, 9, marks.len())?;
        let mut ends = Vec::from_elem(alloc, 9, statuses.len())?;
        assert!(rt; test_rows(alloc, &case, doubles, &mut rejected, &mut ends) == answer);
        assert!(rt; rejected.as_slice() == marks);
        assert!(rt; ends.as_slice() == statuses);
    }
    Ok(())
}

const DECIDED: &[Row] = table! {
    (BARE_HOLM, &[ZERO, ONE, AT_LIMIT, ONE, ONE, ONE, ZERO, ZERO, ZERO, ONE, AT_LIMIT, ONE], Ok(()),
     &[1, 0, 1, 0, 0, 0, 1, 1, 1, 0, 0, 0], &[0, 0, 0, 0]),
};

/// Whether each row is decided with its own p-values, whatever was decided before.
#[test]
fn rows_are_decided(rt: HostRuntime) -> Result<(), Fail> {
    expect(&rt, rt.alloc(), DECIDED)
}

const UNREAD: &[Row] = table! {
    (BARE_HOLM, &[ZERO, ONE, ONE, ZERO, NAN, ZERO, TWO, ZERO, ZERO, ZERO, ZERO, MINUS_HALF, ZERO, ONE, ONE], Ok(()),
     &[1, 0, 0, 0, 0, 0, 0, 0, 0, 0, 0, 0, 1, 0, 0], &[0, 3, 3, 3, 0]),
};

/// Whether a row with a double that has no reading is marked nowhere, and the rows round it are decided.
#[test]
fn rows_that_cannot_be_read_are_unmarked(rt: HostRuntime) -> Result<(), Fail> {
    expect(&rt, rt.alloc(), UNREAD)
}

const TOO_WIDE: &[Row] = table! {
    // If H1 to H3 are rejected, the weight of H4 would be 1/10^18 times 1/999999999999999999 times 1/999999999999999997.
    (CHAIN, &[ZERO, ONE, ZERO, ZERO, ZERO, ZERO, ZERO, ZERO, ZERO, ZERO, ONE, ZERO, ZERO, ZERO, ZERO, NAN], Ok(()),
     &[1, 0, 0, 0, 0, 0, 0, 0, 1, 1, 0, 0, 0, 0, 0, 0], &[0, 5, 0, 3]),
};

/// Whether a row whose run is undefined is marked nowhere, and the rows round it are decided.
#[test]
fn rows_that_are_too_wide_are_unmarked(rt: HostRuntime) -> Result<(), Fail> {
    expect(&rt, rt.alloc(), TOO_WIDE)
}

/// The least common denominator of the three terms of the edge is near 10^54.
const WIDE: Result<(), RowsFault> = Err(RowsFault::Wide(WideAt {
    component: 0,
    place: Place::Edge(0, 1),
    op: Op::Add,
}));

const LENGTHS: Result<(), RowsFault> = Err(RowsFault::Lengths);

const NOT_OPENED: &[Row] = table! {
    (WIDE_OPENING, &[ZERO; 4], WIDE, &[9; 4], &[9; 2]),
    (WIDE_OPENING, &[NAN; 2], WIDE, &[9; 2], &[9; 1]),
    (WIDE_OPENING, &[], WIDE, &[], &[]),
    (WIDE_OPENING, &[ZERO; 3], LENGTHS, &[9; 3], &[9; 1]),
};

/// Whether nothing is written if the opening is undefined, and the lengths are compared before.
#[test]
fn rows_are_refused_if_the_opening_is_too_wide(rt: HostRuntime) -> Result<(), Fail> {
    expect(&rt, rt.alloc(), NOT_OPENED)
}

const OTHER_LENGTHS: &[Row] = &[
    (BARE_HOLM, &[], Ok(()), &[], &[]),
    (BARE_HOLM, &[ZERO; 3], LENGTHS, &[9; 3], &[9; 2]),
    (BARE_HOLM, &[ZERO; 4], LENGTHS, &[9; 4], &[9; 1]),
    (BARE_HOLM, &[ZERO; 3], LENGTHS, &[9; 6], &[9; 2]),
    (BARE_HOLM, &[ZERO; 6], LENGTHS, &[9; 3], &[9; 1]),
];

/// Whether nothing is written if a length doesn't fit.
#[test]
fn rows_of_other_lengths_are_refused(rt: HostRuntime) -> Result<(), Fail> {
    expect(&rt, rt.alloc(), OTHER_LENGTHS)
}
