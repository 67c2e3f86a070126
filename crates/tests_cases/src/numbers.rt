//! Entries of edges, and the numbers of cases with and without epsilon.
use crate::lines::{entry, numbers};
use crate::rows::{expect, fraction};
use case_model::Entry;
use case_numbers::CaseNumber;
use eps_quotient::EpsQuotient;
use field_core::{Op, TooWide};
use fraction::Fraction;
use std::process::Abort;
use text_lines::Words;

fn entry_of(rt: &(impl Abort + AllocGlobal), coefficients: &str) -> Entry {
    entry(
        rt,
        numbers(rt, Words::new(coefficients.as_bytes())).as_slice(),
    )
}

/// The coefficients of powers 0 to 4.
const COEFFICIENTS: &[(i128, i128)] = &[(1, 2), (-1, 3), (0, 1), (2, 5), (-7, 1)];

#[test]
fn an_entry_has_its_coefficients(rt: HostRuntime) {
    let entry = entry_of(&rt, "1/2 -1/3 0 2/5 -7");
    for (power, terms) in COEFFICIENTS.iter().enumerate() {
        assert!(rt; power < 5);
        expect(
            &rt,
            entry.coefficient(power) == fraction(&rt, *terms),
            terms,
        );
    }
}

/// Returns a weight and an edge as numbers of one type, through the trait.
fn both<F: CaseNumber>(weight: &Fraction, edge: &Entry) -> Result<(F, F), TooWide> {
    Ok((F::weight(weight), F::edge(edge)?))
}

#[test]
fn a_plain_entry_is_its_first_coefficient(rt: HostRuntime) {
    let third = fraction(&rt, (1, 3));
    let found = both::<Fraction>(&third, &entry_of(&rt, "1/3"));
    assert!(rt; found == Ok((third, third)));
}

/// Whether the coefficients of powers 0 and 1 are over a number.
fn is_over(x: &EpsQuotient, numerator: [i128; 2], denominator: i128) -> bool {
    x.numerator().degree() < 2
        && x.numerator().coefficient(0) == numerator[0]
        && x.numerator().coefficient(1) == numerator[1]
        && x.denominator().degree() == 0
        && x.denominator().coefficient(0) == denominator
}

#[test]
fn an_entry_is_the_polynomial_of_its_coefficients(rt: HostRuntime) {
    let half = fraction(&rt, (1, 2));
    let (weight, edge) = both::<EpsQuotient>(&half, &entry_of(&rt, "1/2 -1/3")).expect(
        &rt, "too wide",
    );
    assert!(rt; is_over(&weight, [1, 0], 2));
    assert!(rt; is_over(&edge, [3, -2], 6));
}

/// Whether a sum is too wide whose common denominator has 54 digits. The largest number of 127 bits has 39.
#[test]
fn a_sum_of_long_coefficients_is_too_wide(rt: HostRuntime) {
    let entry = entry_of(
        &rt,
        "1/1000000000000000000 1/999999999999999999 1/999999999999999997",
    );
    assert!(rt; EpsQuotient::edge(&entry) == Err(TooWide { op: Op::Add }));
}
