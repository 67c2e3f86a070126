//! Adjusted values by hand.
use crate::cases::{
    CHAIN, EPSILON, FALLBACK, HOLM, NO_WEIGHT, SEQUENCE, TIE, WIDE_OPENING, case_of, expect,
};
use adjusted_p::{Adjusted, adjust};
use field_core::{List, Op, Place, WideAt};
use sequential::{RunFault, is_single};
use std::alloc::Global;
use std::process::Abort;

/// A value with the parts of this fraction, and whether it is reached.
type Value = (i128, i128, bool);

/// The ratios are 1 and 2: the first is reached at the level 1, and the run stops before the second.
const UP_TO_ONE: &str = "alpha 0.05\nhypotheses H1 H2\np 1 0.5\nweights 1/2 1/2\n";

const ROWS: &[(&str, &[Value])] = &[
    // Without edges each value is the p-value over the weight: 2 times 1/40, and 2 times 13/500.
    (TIE, &[(1, 20, true), (13, 250, true)]),
    // 3 times 1/200, 2 times 1/100, and once 1/50.
    (HOLM, &[(1, 50, true), (3, 200, true), (1, 50, true)]),
    // First H3, with 3 times 1/200. It passes nothing on, and neither does H2 once H3 is out: so H2 has 3 times 3/200, and
    // H1 3 times 1/50.
    (FALLBACK, &[(3, 50, true), (9, 200, true), (3, 200, true)]),
    // The last p-value is the least, and the value before it is the greater.
    (SEQUENCE, &[(1, 100, true), (3, 100, true), (3, 100, true)]),
    (EPSILON, &[(1, 100, true), (9, 10, true), (1, 1, false)]),
    (NO_WEIGHT, &[(1, 5, true), (1, 1, false)]),
    (UP_TO_ONE, &[(1, 1, false), (1, 1, true)]),
];

fn adjusted(rt: &impl Abort, alloc: Global, text: &str) -> Result<List<Adjusted>, RunFault> {
    let case = case_of(rt, alloc, text);
    assert!(rt; is_single(&case));
    adjust(alloc, &case)
}

fn is_value(adjusted: &Adjusted, (num, den, reached): Value) -> bool {
    let ratio = adjusted.value.ratio();
    ratio.num() == num && ratio.den() == den && adjusted.reached == reached
}

fn are_values(values: &[Adjusted], wanted: &[Value]) -> bool {
    for (value, wanted) in values.iter().zip(wanted) {
        if !is_value(value, *wanted) {
            return false;
        }
    }
    values.len() == wanted.len()
}

#[test]
fn values_by_hand(rt: HostRuntime) {
    for (text, wanted) in ROWS {
        let Ok(values) = adjusted(&rt, rt.alloc(), text) else {
            panic!(&rt; "no values");
        };
        expect(&rt, are_values(values.as_slice(), wanted), text);
    }
}

/// The ratio is 10^30 - 11 times 10^12 - 11, over 10^30: in lowest terms, with a numerator above 2^127.
const WIDE: &str =
    "alpha 0.05\nhypotheses H1\np 0.999999999999999999999999999989\nweights 1/999999999989\n";

/// Cases whose runs are undefined, and where they are.
const FAULTS: &[(&str, RunFault)] = table! {
    // The opening is step 0.
    (WIDE_OPENING, RunFault::Wide(0, WideAt { component: 0, place: Place::Edge(0, 1), op: Op::Add })),
    (WIDE, RunFault::Wide(1, WideAt { component: 0, place: Place::Ratio(0), op: Op::Div })),
    // H1 and H2 are rejected, and H3 passes on to H4: its weight would be 1/10^18 times 1/999999999999999999 times
    // 1/999999999999999997.
    (CHAIN, RunFault::Wide(3, WideAt { component: 0, place: Place::Weight(3), op: Op::Mul })),
};

/// Whether the first operation that is undefined is reported, with its step.
#[test]
fn runs_can_be_too_wide(rt: HostRuntime) {
    for (text, fault) in FAULTS {
        let found = adjusted(&rt, rt.alloc(), text).err();
        expect(&rt, found == Some(*fault), text);
    }
}
