//! Fractions with their operations, limits and texts, worked by hand.
use crate::fraction_vectors::{ADD, COMPARE, DIV, MUL, SUB, Terms, Written};
use crate::rows::{expect, result};
use field_core::{List, NoMemory, Number, Op};
use fraction::{Fraction, FractionFault, NumberFault};
use numerals::decimal_len;
use std::alloc::Global;
use std::cmp::Ordering;
use std::process::Abort;

fn terms(x: Fraction) -> Terms {
    (x.ratio().num(), x.ratio().den())
}

pub fn fraction(rt: &impl Abort, terms: Terms) -> Fraction {
    Fraction::new(terms.0, terms.1).expect(rt, "no fraction")
}

// ---- texts

const VALUES: &[(&str, i128, i128)] = table! {
    ("0", 0, 1),
    ("-0", 0, 1),
    ("+0", 0, 1),
    ("00", 0, 1),
    ("0.0", 0, 1),
    (".0", 0, 1),
    ("0.", 0, 1),
    ("-0.000e5", 0, 1),
    ("0e999999999999", 0, 1),
    ("0e-999999999999999999999999999999", 0, 1),
    ("0/7", 0, 1),
    ("-0/7", 0, 1),
    ("1", 1, 1),
    ("+1", 1, 1),
    ("-1", -1, 1),
    ("007", 7, 1),
    ("1.", 1, 1),
    ("+1.", 1, 1),
    (".5", 1, 2),
    ("-.5", -1, 2),
    ("1.5", 3, 2),
    ("-1.5", -3, 2),
    ("1.50", 3, 2),
    ("01.250", 5, 4),
    ("0.125", 1, 8),
    ("100", 100, 1),
    ("1e2", 100, 1),
    ("1E2", 100, 1),
    ("1e+2", 100, 1),
    ("1e-2", 1, 100),
    ("12.5e1", 125, 1),
    ("12.5e-1", 5, 4),
    (".5e1", 5, 1),
    ("5.e1", 50, 1),
    ("1e00002", 100, 1),
    ("250e-3", 1, 4),
    ("2/4", 1, 2),
    ("-6/4", -3, 2),
    ("+3/9", 1, 3),
    ("0012/0008", 3, 2),
    ("5/5", 1, 1),
    ("1e37", 10000000000000000000000000000000000000, 1),
    ("10e36", 10000000000000000000000000000000000000, 1),
    ("1e-38", 1, 100000000000000000000000000000000000000),
    ("10e-39", 1, 100000000000000000000000000000000000000),
    ("99999999999999999999999999999999999999", 99999999999999999999999999999999999999, 1),
    ("-99999999999999999999999999999999999999", -99999999999999999999999999999999999999, 1),
    ("10000000000000000000000000000000000000", 10000000000000000000000000000000000000, 1),
    ("0.00000000000000000000000000000000000001", 1, 100000000000000000000000000000000000000),
    ("1000000000000000000000000000000000000000e-2", 10000000000000000000000000000000000000, 1),
    ("12345678901234567890123456789012345678", 12345678901234567890123456789012345678, 1),
    ("12345678901234567890.123456789012345678", 6172839450617283945061728394506172839, 500000000000000000),
    ("99999999999999999999999999999999999999/99999999999999999999999999999999999998", 99999999999999999999999999999999999999,
     99999999999999999999999999999999999998),
    ("000000000000000000000000000000000000000000000000001/2", 1, 2),
    ("1.00000000000000000000000000000000000000000000000000", 1, 1),
    ("-000000000000000000000000000000000000000000000000001.50e1", -15, 1),
};

fn parsed(text: &str) -> Result<Terms, NumberFault> {
    Ok(terms(Fraction::parse(text.as_bytes())?))
}

#[test]
fn numerals_have_their_values(rt: HostRuntime) {
    for row in VALUES {
        let (text, num, den) = row;
        expect(&rt, parsed(text) == Ok((*num, *den)), row);
    }
}

const FAULTS: &[(&str, NumberFault)] = table! {
    ("", NumberFault::Empty),
    ("+", NumberFault::BadByte(1)),
    ("-", NumberFault::BadByte(1)),
    (".", NumberFault::BadByte(1)),
    ("+.", NumberFault::BadByte(2)),
    ("+-1", NumberFault::BadByte(1)),
    ("--1", NumberFault::BadByte(1)),
    ("1e", NumberFault::BadByte(2)),
    ("1e+", NumberFault::BadByte(3)),
    ("e5", NumberFault::BadByte(0)),
    (" 1", NumberFault::BadByte(0)),
    ("1 ", NumberFault::BadByte(1)),
    ("1.5/2", NumberFault::BadByte(3)),
    ("1/2/3", NumberFault::BadByte(3)),
    ("1/", NumberFault::BadByte(2)),
    ("/2", NumberFault::BadByte(0)),
    ("1/-2", NumberFault::BadByte(2)),
    ("1/2e3", NumberFault::BadByte(3)),
    ("1/2.5", NumberFault::BadByte(3)),
    ("1..2", NumberFault::BadByte(2)),
    (".e1", NumberFault::BadByte(1)),
    ("1.2.3", NumberFault::BadByte(3)),
    ("1e5.0", NumberFault::BadByte(3)),
    ("1e5/2", NumberFault::BadByte(3)),
    ("1e--5", NumberFault::BadByte(3)),
    ("0x10", NumberFault::BadByte(1)),
    ("1_000", NumberFault::BadByte(1)),
    ("5%", NumberFault::BadByte(1)),
    ("00/0", NumberFault::ZeroDenominator),
    ("0/0", NumberFault::ZeroDenominator),
    ("7/000", NumberFault::ZeroDenominator),
    ("100000000000000000000000000000000000000/0", NumberFault::ZeroDenominator),
    ("123456789012345678901234567890123456789", NumberFault::TooManyDigits),
    ("1e38", NumberFault::TooManyDigits),
    ("100000000000000000000000000000000000000", NumberFault::TooManyDigits),
    ("12e37", NumberFault::TooManyDigits),
    ("1e-39", NumberFault::TooManyDigits),
    ("0.000000000000000000000000000000000000001", NumberFault::TooManyDigits),
    ("-1e999999999999999999999999999999999999999999", NumberFault::TooManyDigits),
    ("1e-999999999999999999999999999999999999999999", NumberFault::TooManyDigits),
    ("1/100000000000000000000000000000000000000", NumberFault::TooManyDigits),
    ("100000000000000000000000000000000000000/1", NumberFault::TooManyDigits),
    ("1234567890123456789.01234567890123456789", NumberFault::TooManyDigits),
};

#[test]
fn other_texts_have_their_faults(rt: HostRuntime) {
    for row in FAULTS {
        let (text, fault) = row;
        expect(&rt, parsed(text) == Err(*fault), row);
    }
}

const DECIMALS: &[(&str, usize)] = &[("1.5e+2x", 6), ("12/7", 2), ("-1", 0)];

#[test]
fn decimals_end_where_no_decimal_goes_on(rt: HostRuntime) {
    for row in DECIMALS {
        expect(&rt, decimal_len(row.0.as_bytes()) == row.1, row);
    }
    assert!(rt; Fraction::parse_decimal(b"1.5e1").map(terms) == Some((15, 1)));
    assert!(rt; Fraction::parse_decimal(b"1e38").is_none());
}

const TEXTS: &[(Terms, &str)] = &[
    ((5, 1), "5"),
    ((-5, 1), "-5"),
    ((1, 2), "1/2"),
    ((0, 1), "0"),
    ((-30, 7), "-30/7"),
    ((100, 999), "100/999"),
    ((i128::MAX, 1), "170141183460469231731687303715884105727"),
    (
        (-i128::MAX, i128::MAX - 1),
        "-170141183460469231731687303715884105727/170141183460469231731687303715884105726",
    ),
];

/// Whether this is the text of a fraction.
fn prints(alloc: Global, x: Fraction, text: &str) -> Result<bool, NoMemory> {
    let mut out = List::new(alloc);
    x.print(&mut out)?;
    Ok(out.as_slice() == text.as_bytes())
}

#[test]
fn fractions_are_printed(rt: HostRuntime) {
    for row in TEXTS {
        let (terms, text) = row;
        let printed = prints(rt.alloc(), fraction(&rt, *terms), text);
        expect(&rt, printed == Ok(true), row);
    }
}

// ---- values

const QUOTIENTS: &[(i128, i128, Result<Terms, FractionFault>)] = &[
    (6, 4, Ok((3, 2))),
    (6, -4, Ok((-3, 2))),
    (-6, -4, Ok((3, 2))),
    (0, -5, Ok((0, 1))),
    (i128::MAX, i128::MAX, Ok((1, 1))),
    (-i128::MAX, 1, Ok((-i128::MAX, 1))),
    (i128::MIN, 2, Ok((-0x40000000000000000000000000000000, 1))),
    (i128::MIN, -2, Ok((0x40000000000000000000000000000000, 1))),
    (i128::MIN, i128::MIN, Ok((1, 1))),
    (2, i128::MIN, Ok((-1, 0x40000000000000000000000000000000))),
    (0, i128::MIN, Ok((0, 1))),
    (1, i128::MIN, Err(FractionFault::TooWide)),
    (i128::MIN, 1, Err(FractionFault::TooWide)),
    (i128::MIN, 3, Err(FractionFault::TooWide)),
    (1, 0, Err(FractionFault::ZeroDenominator)),
    (i128::MIN, 0, Err(FractionFault::ZeroDenominator)),
];

fn lowest_terms(num: i128, den: i128) -> Result<Terms, FractionFault> {
    Ok(terms(Fraction::new(num, den)?))
}

#[test]
fn quotients_are_in_lowest_terms(rt: HostRuntime) {
    for row in QUOTIENTS {
        let (num, den, wanted) = row;
        expect(&rt, lowest_terms(*num, *den) == *wanted, row);
    }
}

#[test]
fn a_fraction_is_a_number(rt: HostRuntime) {
    let half = fraction(&rt, (1, 2));
    assert!(rt; terms(Fraction::zero()) == (0, 1));
    assert!(rt; terms(Fraction::one()) == (1, 1));
    assert!(rt; half.sign() == Ordering::Greater);
    assert!(rt; terms(Fraction::of(half.ratio())) == (1, 2));
}

// ---- operations

fn expect_written(rt: &impl Abort, op: Op, rows: &[Written]) {
    for row in rows {
        let (x, y, wanted) = row;
        let found = result(rt, &fraction(rt, *x), op, &fraction(rt, *y));
        expect(rt, found.map(terms) == *wanted, row);
    }
}

#[test]
fn operations_are_stored(rt: HostRuntime) {
    expect_written(&rt, Op::Add, ADD);
    expect_written(&rt, Op::Sub, SUB);
    expect_written(&rt, Op::Mul, MUL);
    expect_written(&rt, Op::Div, DIV);
}

#[test]
fn comparisons_are_never_refused(rt: HostRuntime) {
    for row in COMPARE {
        let (x, y, wanted) = row;
        let order = fraction(&rt, *x).compare(&fraction(&rt, *y));
        expect(&rt, order == Ok(*wanted), row);
    }
}
