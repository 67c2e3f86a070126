//! Quotients with their operations and texts, worked by hand.
use crate::fractions::fraction;
use crate::polynomials::{Listed, MOST, has, poly};
use crate::rows::{expect, given, result};
use eps_quotient::EpsQuotient;
use field_core::{List, NoMemory, Number, Op, Ratio};
use std::alloc::Global;
use std::cmp::Ordering;
use std::process::Abort;

/// The coefficients of a numerator and a denominator.
type Terms = (Listed, Listed);

fn quotient(rt: &impl Abort, terms: Terms) -> EpsQuotient {
    EpsQuotient::new(&poly(rt, terms.0), &poly(rt, terms.1)).expect(rt, "over 0")
}

/// Whether the quotient that is found has the wanted terms; or whether none is found, if none is wanted.
fn agrees(found: Option<EpsQuotient>, wanted: Option<Terms>) -> bool {
    match (found, wanted) {
        (Some(x), Some(terms)) => has(&x.numerator(), terms.0) && has(&x.denominator(), terms.1),
        (None, None) => true,
        _ => false,
    }
}

// ---- quotients of polynomials

const ZERO: Listed = &[];

const ONE: Listed = &[1];

/// Two polynomials, and their quotient as it is stored.
const LOWERED: &[(Terms, Option<Terms>)] = &[
    // 0 is 0/1
    ((ZERO, &[0, -7]), Some((ZERO, ONE))),
    // the common content is divided out, and the numerator carries the sign
    ((&[6], &[-9]), Some((&[-2], &[3]))),
    // common powers of epsilon are divided out
    ((&[0, 0, 4], &[0, 6]), Some((&[0, 2], &[3]))),
    // equal cores are divided out, also with other contents and powers
    ((&[2, 2], &[0, 3, 3]), Some((&[2], &[0, 3]))),
    ((&[-2, 2], &[3, -3]), Some((&[-2], &[3]))),
    // other common factors stay: (1 - e^2) / (1 + e)
    ((&[1, 0, -1], &[1, 1]), Some((&[1, 0, -1], &[1, 1]))),
    // the lowest coefficient of the denominator is positive
    ((&[0, 1], &[0, 0, -1, 3]), Some((&[-1], &[0, 1, -3]))),
    ((&[1, -1], &[-1, 2]), Some((&[-1, 1], &[1, -2]))),
    // nothing is over 0
    ((ONE, ZERO), None),
    ((ZERO, ZERO), None),
];

#[test]
fn a_quotient_is_lowered(rt: HostRuntime) {
    for row in LOWERED {
        let ((num, den), lowered) = row;
        let found = EpsQuotient::new(&poly(&rt, num), &poly(&rt, den));
        expect(&rt, agrees(found, *lowered), row);
    }
}

// ---- operations

/// 1/2, 1/3, e, 1/e, 1 - e, 1 + e and the inverses of these two.
const HALF: Terms = (ONE, &[2]);

const THIRD: Terms = (ONE, &[3]);

const EPSILON: Terms = (&[0, 1], ONE);

const LARGE: Terms = (ONE, &[0, 1]);

const LESS: Terms = (&[1, -1], ONE);

const MORE: Terms = (&[1, 1], ONE);

const OVER_LESS: Terms = (ONE, &[1, -1]);

const OVER_MORE: Terms = (ONE, &[1, 1]);

const UNIT: Terms = (ONE, ONE);

const NOTHING: Terms = (ZERO, ONE);

const WIDEST: Terms = (&[MOST], ONE);

/// The powers 31 and 32 of epsilon.
const BEFORE_LAST: Terms = (
    &[
        0, 0, 0, 0, 0, 0, 0, 0, 0, 0, 0, 0, 0, 0, 0, 0, 0, 0, 0, 0, 0, 0, 0, 0, 0, 0, 0, 0, 0, 0,
        0, 1,
    ],
    ONE,
);

const LAST: Terms = (
    &[
        0, 0, 0, 0, 0, 0, 0, 0, 0, 0, 0, 0, 0, 0, 0, 0, 0, 0, 0, 0, 0, 0, 0, 0, 0, 0, 0, 0, 0, 0,
        0, 0, 1,
    ],
    ONE,
);

/// An operation on two quotients, and its result as it is stored; `None` if it is refused.
const OPERATIONS: &[(Terms, Op, Terms, Option<Terms>)] = table! {
    (HALF, Op::Add, THIRD, Some((&[5], &[6]))),
    (LESS, Op::Add, LESS, Some((&[2, -2], ONE))),
    // over the same denominator: e/(1 + e) + 1/(1 + e)
    ((&[0, 1], &[1, 1]), Op::Add, OVER_MORE, Some(UNIT)),
    // over others: (1 - e + 1 + e) / (1 - e^2)
    (OVER_MORE, Op::Add, OVER_LESS, Some((&[2], &[1, 0, -1]))),
    (LARGE, Op::Add, UNIT, Some((&[1, 1], &[0, 1]))),
    // a summand that is 0 has no written part
    (WIDEST, Op::Add, NOTHING, Some(WIDEST)),
    (NOTHING, Op::Add, WIDEST, Some(WIDEST)),
    (WIDEST, Op::Add, UNIT, None),
    (UNIT, Op::Sub, LESS, Some(EPSILON)),
    (HALF, Op::Sub, HALF, Some(NOTHING)),
    (HALF, Op::Sub, THIRD, Some((ONE, &[6]))),
    (NOTHING, Op::Sub, LESS, Some((&[-1, 1], ONE))),
    // equal, though the cores of the first are not cut: (1 - e^2) / (1 + e)
    ((&[1, 0, -1], &[1, 1]), Op::Sub, LESS, Some(NOTHING)),
    (WIDEST, Op::Sub, (&[-1], ONE), None),
    (MORE, Op::Mul, LESS, Some((&[1, 0, -1], ONE))),
    // each numerator is lowered with the other denominator
    ((&[2], &[1, 1]), Op::Mul, (&[1, 1], &[3]), Some((&[2], &[3]))),
    ((&[0, 1], &[2]), Op::Mul, (&[2], &[0, 1]), Some(UNIT)),
    // other common factors stay
    ((&[1, 0, -1], ONE), Op::Mul, OVER_MORE, Some((&[1, 0, -1], &[1, 1]))),
    (WIDEST, Op::Mul, NOTHING, Some(NOTHING)),
    (NOTHING, Op::Mul, WIDEST, Some(NOTHING)),
    (WIDEST, Op::Mul, UNIT, Some(WIDEST)),
    (UNIT, Op::Mul, WIDEST, Some(WIDEST)),
    (WIDEST, Op::Mul, (&[2], ONE), None),
    // degrees go to 32
    (LAST, Op::Mul, LARGE, Some(BEFORE_LAST)),
    (LAST, Op::Mul, EPSILON, None),
    (UNIT, Op::Div, LESS, Some(OVER_LESS)),
    (HALF, Op::Div, THIRD, Some((&[3], &[2]))),
    (UNIT, Op::Div, (&[0, -1], ONE), Some((&[-1], &[0, 1]))),
    (LESS, Op::Div, LESS, Some(UNIT)),
    (NOTHING, Op::Div, LESS, Some(NOTHING)),
    (WIDEST, Op::Div, UNIT, Some(WIDEST)),
    (WIDEST, Op::Div, HALF, None),
};

#[test]
fn operations_are_stored(rt: HostRuntime) {
    for row in OPERATIONS {
        let (x, op, y, wanted) = row;
        let found = result(&rt, &quotient(&rt, *x), *op, &quotient(&rt, *y));
        expect(&rt, agrees(found, *wanted), row);
    }
}

/// Coefficients by ascending power, and the sum of their terms; `None` if it is refused.
const SUMMED: &[([(i128, i128); 5], Option<Terms>)] = &[
    // e/2 + e^3/3
    (
        [(0, 1), (1, 2), (0, 1), (1, 3), (0, 1)],
        Some((&[0, 3, 0, 2], &[6])),
    ),
    // the denominator would be 2 (2^127 - 1)
    ([(1, 2), (1, MOST), (0, 1), (0, 1), (0, 1)], None),
];

fn summed(rt: &impl Abort, coefficients: &[(i128, i128); 5]) -> Option<EpsQuotient> {
    let mut parts = [fraction(rt, (0, 1)).ratio(); 5];
    for power in 0..5 {
        parts[power] = fraction(rt, coefficients[power]).ratio();
    }
    given(rt, Op::Add, EpsQuotient::from_parts(&parts))
}

#[test]
fn a_polynomial_is_summed_term_by_term(rt: HostRuntime) {
    for row in SUMMED {
        expect(&rt, agrees(summed(&rt, &row.0), row.1), row);
    }
}

// ---- order

/// Two quotients, and how the first compares with the second; `None` if the difference is refused.
const ORDERS: &[(Terms, Terms, Option<Ordering>)] = &[
    (EPSILON, (ONE, &[1000000]), Some(Ordering::Less)),
    (EPSILON, NOTHING, Some(Ordering::Greater)),
    (OVER_MORE, UNIT, Some(Ordering::Less)),
    (OVER_LESS, UNIT, Some(Ordering::Greater)),
    ((&[0, 2], ONE), EPSILON, Some(Ordering::Greater)),
    (LARGE, WIDEST, Some(Ordering::Greater)),
    ((&[1, 0, -1], &[1, 1]), LESS, Some(Ordering::Equal)),
    (NOTHING, LESS, Some(Ordering::Less)),
    (WIDEST, (&[-1], ONE), None),
];

#[test]
fn epsilon_is_below_each_fraction(rt: HostRuntime) {
    for row in ORDERS {
        let (x, y, wanted) = row;
        let order = quotient(&rt, *x).compare(&quotient(&rt, *y));
        expect(&rt, given(&rt, Op::Sub, order) == *wanted, row);
    }
}

const SIGNS: &[(Terms, Ordering)] = &[
    (NOTHING, Ordering::Equal),
    (EPSILON, Ordering::Greater),
    ((&[0, 1, -5], &[1, 1]), Ordering::Greater),
    ((&[0, 1, -5], &[-1, 1]), Ordering::Less),
];

#[test]
fn the_lowest_coefficient_tells_the_sign(rt: HostRuntime) {
    for row in SIGNS {
        let (x, sign) = row;
        let x = quotient(&rt, *x);
        expect(&rt, x.sign() == *sign, row);
        expect(&rt, x.is_zero() == sign.is_eq(), row);
    }
}

// ---- limits

/// Returns the limit of a value from 0 to 1.
fn limit(x: &EpsQuotient) -> Option<Ratio> {
    let Ok(order) = x.compare(&EpsQuotient::one()) else {
        return None;
    };
    if order.is_gt() {
        return None;
    }
    if x.sign().is_lt() {
        return None;
    }
    Some(x.limit())
}

/// Values and their limits, which are quotients of first coefficients.
const LIMITS: &[(Terms, (i128, i128))] = &[
    (NOTHING, (0, 1)),
    (EPSILON, (0, 1)),
    (LESS, (1, 1)),
    ((&[2, -1], &[6, 1]), (1, 3)),
    ((&[0, 1], &[3, 1]), (0, 1)),
];

#[test]
fn values_have_limits(rt: HostRuntime) {
    for row in LIMITS {
        let (x, wanted) = row;
        let found = limit(&quotient(&rt, *x));
        expect(&rt, found == Some(fraction(&rt, *wanted).ratio()), row);
    }
}

// ---- texts

const PRINTED: &[(Terms, &str)] = &[
    (NOTHING, "0"),
    ((&[-7], ONE), "-7"),
    ((&[-1], &[2]), "-1/2"),
    (EPSILON, "[0,1]/[1]"),
    (LARGE, "[1]/[0,1]"),
    ((&[1, 0, -2], &[3, 1]), "[1,0,-2]/[3,1]"),
    (WIDEST, "170141183460469231731687303715884105727"),
];

/// Whether this text of a quotient is appended.
fn appends(alloc: Global, x: &EpsQuotient, text: &str) -> Result<bool, NoMemory> {
    let mut out = List::new(alloc);
    out.push(b'=')?;
    x.print(&mut out)?;
    Ok(&out.as_slice()[1..] == text.as_bytes())
}

#[test]
fn quotients_are_printed(rt: HostRuntime) {
    for row in PRINTED {
        let (x, text) = row;
        let appended = appends(rt.alloc(), &quotient(&rt, *x), text);
        expect(&rt, appended == Ok(true), row);
    }
}

/// Texts and the quotients that are read from them, if any.
const READ: &[(&str, Option<Terms>)] = table! {
    ("0", Some(NOTHING)),
    ("-0", Some(NOTHING)),
    ("007", Some((&[7], ONE))),
    ("-2/4", Some((&[-1], &[2]))),
    ("0/5", Some(NOTHING)),
    ("[0,1]/[1]", Some(EPSILON)),
    // unlowered pairs and zeros after the last coefficient are taken
    ("[00,-2,0,0]/[-2]", Some(EPSILON)),
    ("[1,1]/[0,3,3]", Some((ONE, &[0, 3]))),
    ("[5]/[1]", Some((&[5], ONE))),
    ("170141183460469231731687303715884105727", Some(WIDEST)),
    ("", None),
    ("-", None),
    ("+1", None),
    (" 1", None),
    ("1/", None),
    ("/1", None),
    ("1/0", None),
    ("1/-2", None),
    ("1/2/3", None),
    ("1.5", None),
    ("[1]", None),
    ("[1]/2", None),
    ("1/[2]", None),
    ("[]/[1]", None),
    ("[1,]/[1]", None),
    ("[1]/[0,0]", None),
    ("[1]/[1]/[1]", None),
    ("[1 ]/[1]", None),
    ("[+1]/[1]", None),
    // both parts are past their size, though the quotient isn't
    ("170141183460469231731687303715884105728/170141183460469231731687303715884105728", None),
    // the degree would be 33
    ("[0,0,0,0,0,0,0,0,0,0,0,0,0,0,0,0,0,0,0,0,0,0,0,0,0,0,0,0,0,0,0,0,0,1]/[1]", None),
};

#[test]
fn texts_are_read(rt: HostRuntime) {
    for row in READ {
        let (text, wanted) = row;
        expect(
            &rt,
            agrees(EpsQuotient::read(text.as_bytes()), *wanted),
            row,
        );
    }
}
