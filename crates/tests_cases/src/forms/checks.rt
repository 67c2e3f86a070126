//! The one assertion of these tests, and the numbers that their tables hold.
use case_model::Entry;
use fraction::Fraction;
use std::process::Abort;

/// Numerator and denominator, in lowest terms.
pub type Terms = (i128, i128);

/// Asserts that something holds for a text, which a failure names.
pub fn expect(rt: &impl Abort, holds: bool, text: &str) {
    assert!(rt; holds, "{text}");
}

/// Whether a fraction has these terms.
pub fn has_terms(fraction: &Fraction, terms: Terms) -> bool {
    let ratio = fraction.ratio();
    ratio.num() == terms.0 && ratio.den() == terms.1
}

/// Whether these are the terms of the fractions, in their order.
pub fn have_terms(fractions: &[Fraction], all: &[Terms]) -> bool {
    for (fraction, terms) in fractions.iter().zip(all) {
        if !has_terms(fraction, *terms) {
            return false;
        }
    }
    fractions.len() == all.len()
}

/// Whether an entry has these coefficients by ascending power, and 0 after the last.
pub fn has_coefficients(entry: &Entry, coefficients: &[Terms]) -> bool {
    for power in 0..5 {
        let wanted = coefficients.get(power).copied().unwrap_or((0, 1));
        if !has_terms(&entry.coefficient(power), wanted) {
            return false;
        }
    }
    true
}
