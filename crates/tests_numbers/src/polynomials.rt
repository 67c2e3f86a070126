//! Polynomials with their sums, products, quotients and factors, worked by hand.
use crate::rows::{expect, given};
use eps_poly::EpsPoly;
use field_core::{Op, TooWide, Whole};
use std::process::Abort;

/// The greatest size of a coefficient.
pub const MOST: i128 = i128::MAX;

/// Coefficients by ascending power, 0 after the last.
pub type Listed = &'static [i128];

pub fn poly(rt: &impl Abort, coefficients: &[i128]) -> EpsPoly {
    assert!(rt; coefficients.len() <= 33);
    let mut p = EpsPoly::zero();
    for power in 0..coefficients.len() {
        p = p
            .with(power, coefficients[power])
            .expect(rt, "a coefficient");
    }
    p
}

/// Whether a polynomial has these coefficients.
pub fn has(p: &EpsPoly, coefficients: &[i128]) -> bool {
    (0..33).all(|power| p.coefficient(power) == coefficients.get(power).copied().unwrap_or(0))
}

/// Whether the polynomial that is found has the wanted coefficients; or whether none is found, if none is wanted.
fn agrees(found: Option<EpsPoly>, wanted: Option<Listed>) -> bool {
    match (found, wanted) {
        (Some(p), Some(coefficients)) => has(&p, coefficients),
        (None, None) => true,
        _ => false,
    }
}

// ---- operations

const LONG: Listed = &[MOST, 1, 1];

const SHORT: Listed = &[1, -1, -1];

const PRODUCT: Listed = &[MOST, 1 - MOST, -MOST, -2, -1];

/// An operation on two polynomials, and its result; `None` if it is refused. A quotient is exact, and `None` if no exact one
/// exists.
const OPERATIONS: &[(Listed, Op, Listed, Option<Listed>)] = table! {
    // at the limit of a size
    (&[MOST - 1, 3, -4], Op::Add, &[1, -5], Some(&[MOST, -2, -4])),
    (&[MOST - 1, 3, -4], Op::Add, &[2], None),
    (&[0, 1 - MOST], Op::Sub, &[0, 1], Some(&[0, -MOST])),
    (&[0, 1 - MOST], Op::Sub, &[0, 2], None),
    (&[1, 1], Op::Mul, &[1, -1], Some(&[1, 0, -1])),
    (&[2, 3], Op::Mul, &[5, 7, 11], Some(&[10, 29, 43, 33])),
    (&[], Op::Mul, &[1, 1], Some(&[])),
    (&[1 << 64], Op::Mul, &[(1 << 63) - 1], Some(&[MOST - ((1 << 64) - 1)])),
    (&[1 << 64], Op::Mul, &[1 << 63], None),
    (&[1 << 126, 1 << 126], Op::Mul, &[1, 1], None),
    (&[1 << 126, 1 << 126], Op::Mul, &[1, -1], Some(&[1 << 126, 0, -(1 << 126)])),
    // the sizes of partial sums are tested in their order
    (SHORT, Op::Mul, LONG, Some(PRODUCT)),
    (LONG, Op::Mul, SHORT, None),
    (PRODUCT, Op::Div, SHORT, None),
    (PRODUCT, Op::Div, LONG, Some(SHORT)),
    // with and without remainders
    (&[1, 0, -1], Op::Div, &[1, 1], Some(&[1, -1])),
    (&[0, 0, -4, 0, 4], Op::Div, &[0, 0, -2, -2], Some(&[2, -2])),
    (&[], Op::Div, &[1, 0, -1], Some(&[])),
    (&[1, 0, -1], Op::Div, &[2], None),
    (&[1, 0, -1], Op::Div, &[1, 2], None),
    (&[1, 0, -1], Op::Div, &[0, 1], None),
    (&[1], Op::Div, &[1, 1], None),
};

fn written(rt: &impl Abort, p: &EpsPoly, op: Op, q: &EpsPoly) -> Option<EpsPoly> {
    match op {
        Op::Add => given(rt, op, p.add(q)),
        Op::Sub => given(rt, op, p.sub(q)),
        Op::Mul => given(rt, op, p.mul(q)),
        Op::Div => {
            assert!(rt; !q.is_zero());
            p.divide_exact(q)
        }
    }
}

#[test]
fn operations_are_written(rt: HostRuntime) {
    for row in OPERATIONS {
        let (p, op, q, wanted) = row;
        let found = written(&rt, &poly(&rt, p), *op, &poly(&rt, q));
        expect(&rt, agrees(found, *wanted), row);
    }
}

#[test]
fn the_degree_goes_to_32(rt: HostRuntime) {
    let middle = EpsPoly::monomial(Whole::new(3), 16);
    let higher = EpsPoly::monomial(Whole::new(1), 17);
    let last = EpsPoly::monomial(Whole::new(2), 32);
    let refused = Err(TooWide { op: Op::Mul });
    assert!(rt; middle.mul(&middle) == EpsPoly::zero().with(32, 9));
    assert!(rt; middle.mul(&higher) == refused);
    assert!(rt; higher.mul(&middle) == refused);
    assert!(rt; last.mul(&poly(&rt, &[-3])) == EpsPoly::zero().with(32, -6));
    assert!(rt; last.mul(&EpsPoly::zero()) == Ok(EpsPoly::zero()));
    assert!(rt; last.mul(&poly(&rt, &[1, 1])) == refused);
    let by = EpsPoly::monomial(Whole::new(-3), 32);
    assert!(rt; !by.is_zero());
    let quotient = EpsPoly::monomial(Whole::new(6), 32).divide_exact(&by);
    assert!(rt; agrees(quotient, Some(&[-2])));
}

// ---- factors

/// A polynomial as c * epsilon^k * P.
struct Factored {
    of: Listed,
    content: u128,
    lowest: i128,
    factor: i128,
    power: Option<usize>,
    core: Option<Listed>,
}

const FACTORED: &[Factored] = table! {
    Factored { of: &[0, -6, 9], content: 3, lowest: -6, factor: -3, power: Some(1), core: Some(&[2, -3]) },
    Factored {
        of: &[
            0, 0, 0, 0, 0, 0, 0, 0, 0, 0, 0, 0, 0, 0, 0, 0, 0, 0, 0, 0, 0, 0, 0, 0, 0, 0, 0, 0, 0,
            0, 0, 0, 12,
        ],
        content: 12,
        lowest: 12,
        factor: 12,
        power: Some(32),
        core: Some(&[1]),
    },
    Factored { of: &[-MOST, MOST], content: MOST as u128, lowest: -MOST, factor: -MOST, power: Some(0), core: Some(&[1, -1]) },
    Factored { of: &[], content: 0, lowest: 0, factor: 0, power: None, core: None },
};

fn core(p: &EpsPoly) -> Option<EpsPoly> {
    if p.is_zero() {
        return None;
    }
    Some(p.core())
}

fn has_factors(p: &EpsPoly, wanted: &Factored) -> bool {
    p.content() == wanted.content
        && p.lowest().value() == wanted.lowest
        && p.factor().value() == wanted.factor
        && p.low_order() == wanted.power
        && agrees(core(p), wanted.core)
}

#[test]
fn polynomials_have_factors(rt: HostRuntime) {
    for wanted in FACTORED {
        let p = poly(&rt, wanted.of);
        expect(&rt, has_factors(&p, wanted), &wanted.of);
    }
}

// ---- one by one

#[test]
fn coefficients_are_set_and_read(rt: HostRuntime) {
    let p = poly(&rt, &[1, 2, 3]);
    let refused = Err(TooWide { op: Op::Add });
    assert!(rt; has(&EpsPoly::zero(), &[]));
    assert!(rt; EpsPoly::constant(-7) == Ok(poly(&rt, &[-7])));
    assert!(rt; EpsPoly::constant(i128::MIN) == refused);
    assert!(rt; p.with(1, -MOST) == Ok(poly(&rt, &[1, -MOST, 3])));
    assert!(rt; p.with(0, i128::MIN) == refused);
    assert!(rt; has(&EpsPoly::monomial(Whole::new(4), 2), &[0, 0, 4]));
    let last = EpsPoly::monomial(Whole::new(5), 32);
    assert!(rt; last.coefficient(32) == 5);
    assert!(rt; last.coefficient(31) == 0);
    assert!(rt; has(&poly(&rt, &[0, 1 - MOST]).negate(), &[0, MOST - 1]));
    assert!(rt;
        has(
            &poly(&rt, &[0, 0, 4, -6]).lowered(1, Whole::new(2)),
            &[0, 2, -3]
        )
    );
}

#[test]
fn polynomials_change_in_place(rt: HostRuntime) {
    let mut p = EpsPoly::monomial(Whole::new(5), 7);
    let product = p.put_product(&poly(&rt, &[1, 2]), &poly(&rt, &[3, -1]));
    assert!(rt; product.is_ok() && has(&p, &[3, 5, -2]) && p.degree() == 2);
    let sum = p.add_assign(&poly(&rt, &[-3, 1, 2]));
    assert!(rt; sum.is_ok() && has(&p, &[0, 6]) && p.degree() == 1);
    p.lower(1, Whole::new(2));
    assert!(rt; has(&p, &[3]));
    p.lower(0, Whole::new(3));
    assert!(rt; has(&p, &[1]));
    p.put(0, Whole::new(0));
    assert!(rt; p.is_zero() && p.order() == 33);
    let sum = p.add_assign(&poly(&rt, &[0, 0, MOST]));
    assert!(rt; sum.is_ok() && has(&p, &[0, 0, MOST]));
}

#[test]
fn refusals_in_place_are_told(rt: HostRuntime) {
    let mut p = poly(&rt, &[0, 0, MOST]);
    let sum = p.add_assign(&poly(&rt, &[0, 0, 1]));
    assert!(rt; sum == Err(TooWide { op: Op::Add }));
    let power = EpsPoly::monomial(Whole::new(1), 17);
    let product = p.put_product(&power, &power);
    assert!(rt; product == Err(TooWide { op: Op::Mul }));
    p.clear();
    assert!(rt; p == EpsPoly::zero());
}

#[test]
fn polynomials_are_compared(rt: HostRuntime) {
    let p = poly(&rt, &[0, -6, 9]);
    assert!(rt; p == poly(&rt, &[0, -6, 9]));
    assert!(rt; Ok(p) != p.with(32, 1));
    assert!(rt; EpsPoly::zero().is_zero());
    assert!(rt; !EpsPoly::monomial(Whole::new(-1), 32).is_zero());
}
