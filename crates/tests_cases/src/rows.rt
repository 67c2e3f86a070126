//! How the rows of a table are tested.
use fraction::Fraction;
use std::fmt::Debug;
use std::process::Abort;

/// Numerator and denominator.
pub type Terms = (i128, i128);

pub fn fraction(rt: &impl Abort, terms: Terms) -> Fraction {
    Fraction::new(terms.0, terms.1).expect(rt, "no fraction")
}

/// Asserts that a statement about a row holds.
pub fn expect<R: Abort, D: Debug>(rt: &R, holds: bool, row: &D) {
    assert!(rt; holds, "{row:?}");
}
