//! Rejections requested in any order.
use crate::cases::{HOLM, case_of};
use sequential::{Trial, is_single};
use std::process::Abort;
use std::test::Fail;

/// Requests the rejection of each of these hypotheses once.
fn ask(rt: &impl Abort, trial: &mut Trial, order: &[usize]) {
    for hypothesis in order {
        assert!(rt; *hypothesis < trial.size());
        let _ = trial.reject(*hypothesis);
    }
}

/// Whether some hypothesis can be rejected.
fn some_is_legal(rt: &impl Abort, trial: &Trial) -> bool {
    for hypothesis in 0..trial.size() {
        assert!(rt; hypothesis < trial.size());
        if trial.can_reject(hypothesis) {
            return true;
        }
    }
    false
}

/// Requests all rejections again and again, until none can be rejected; a round that rejects nothing is the last.
fn ask_all(rt: &impl Abort, trial: &mut Trial, order: &[usize]) {
    for _ in 0..trial.size() {
        if !some_is_legal(rt, trial) {
            return;
        }
        ask(rt, trial, order);
    }
}

/// Two hypotheses that pass on nothing, and one that doesn't pass: the order of the calls is that of the rejections.
const APART: &str = "alpha 0.05\nhypotheses H1 H2 H3\np 0.01 0.9 0.015\nweights 1/3 1/3 1/3\n";

/// A case, the order of the calls, and that of the rejections. The first two thresholds of Holm's procedure let only one
/// hypothesis pass each.
const ROWS: &[(&str, &[usize], &[usize])] = &[
    (HOLM, &[0, 1, 2], &[1, 0, 2]),
    (HOLM, &[0, 2, 1], &[1, 0, 2]),
    (HOLM, &[1, 0, 2], &[1, 0, 2]),
    (HOLM, &[1, 2, 0], &[1, 0, 2]),
    (HOLM, &[2, 0, 1], &[1, 0, 2]),
    (HOLM, &[2, 1, 0], &[1, 0, 2]),
    (APART, &[0, 1, 2], &[0, 2]),
    (APART, &[2, 1, 0], &[2, 0]),
];

#[test]
fn hypotheses_may_be_asked_for_in_any_order(rt: HostRuntime) -> Result<(), Fail> {
    for (text, order, rejected) in ROWS {
        let case = case_of(&rt, rt.alloc(), text);
        assert!(rt; is_single(&case));
        let Ok(mut trial) = Trial::open(rt.alloc(), &case) else {
            panic!(rt; "not opened");
        };
        ask_all(&rt, &mut trial, order);
        assert!(rt; !some_is_legal(&rt, &trial));
        assert!(rt; trial.rejected() == *rejected);
    }
    Ok(())
}
