//! Trials: rejections that are requested one after another, by hand.
ghost use Rattle.std.specs.Prelude.{◌≡◌, not};
ghost use Rattle.field_core.specs.Sets.{set_of};

use crate::cases::{CHAIN, HOLM, IMPROVED_GATEKEEPING, Parts, case_of, expect};
use field_core::{Number, Op, Place, WideAt};
use sequential::{RejectFault, Trial, is_single};
use std::alloc::Global;
use std::process::Abort;

/// The answer of a trial to the request for a rejection.
enum Answer {
    Done,
    /// The hypothesis is rejected already.
    Again,
    /// The hypothesis isn't legal at this weight.
    NotLegal(Parts),
    /// The hypothesis is legal, and its removal is too wide at this operation.
    Wide(WideAt),
}

/// The hypothesis whose rejection is requested, the answer, and some weights then.
type Call<'a> = (usize, Answer, &'a [(usize, Parts)]);

/// A case, calls in turn, and what is rejected in the end.
struct Row<'a> {
    case: &'a str,
    calls: &'a [Call<'a>],
    rejected: &'a [usize],
}

const ROWS: &[Row] = table! {
    Row { case: HOLM,
        calls: &[(2, Answer::NotLegal((1, 3)), &[]), (1, Answer::Done, &[]), (1, Answer::Again, &[(0, (1, 2))]),
          (0, Answer::Done, &[])],
        rejected: &[1, 0] },
    // A rejection that is too wide changes nothing. The weight of H4 would be that of H3 times 1/999999999999999997.
    Row { case: CHAIN,
        calls: &[(0, Answer::Done, &[]), (1, Answer::Done, &[(2, LONG)]),
          (2, Answer::Wide(WideAt { component: 0, place: Place::Weight(3), op: Op::Mul }), &[(2, LONG), (3, (0, 1))])],
        rejected: &[0, 1] },
    // The same beside H1, which keeps its half of the weight, and would pass all of it to H5.
    Row { case: BESIDE_A_CHAIN,
        calls: &[(1, Answer::Done, &[]), (2, Answer::Done, &[]),
          (3, Answer::Wide(WideAt { component: 0, place: Place::Weight(4), op: Op::Mul }), &[(0, (1, 2)), (4, (0, 1))])],
        rejected: &[1, 2] },
    Row { case: IMPROVED_GATEKEEPING,
        calls: &[(0, Answer::Done, &[(2, (1, 4))]), (2, Answer::Done, &[(1, (1, 2)), (3, (1, 2))]),
          (3, Answer::Done, &[(1, (1, 1))]), (1, Answer::Done, &[])],
        rejected: &[0, 2, 3, 1] },
};

const BESIDE_A_CHAIN: &str =
    "alpha 0.05\nhypotheses H1 H2 H3 H4 H5\np 1 0 0 0 0\nweights 1/2 1/2 0 0 0\n\
    edge H1 H5 1\nedge H2 H3 1/1000000000000000000\nedge H3 H4 1/999999999999999999\nedge H4 H5 1/999999999999999997\n";

/// The product of the first two edges of the chain.
const LONG: Parts = (1, 999_999_999_999_999_999_000_000_000_000_000_000);

fn opened(rt: &impl Abort, alloc: Global, text: &str) -> Trial {
    let case = case_of(rt, alloc, text);
    assert!(rt; is_single(&case));
    let Ok(trial) = Trial::open(alloc, &case) else {
        panic!(rt; "not opened");
    };
    trial
}

/// Whether a position isn't on a list.
fn is_missing(positions: &[usize], k: usize) -> bool
    ensures { result ≡ not (set_of positions.now k) }
{
    match positions {
        [] => true,
        [first, rest @ ..] => k != *first && is_missing(rest, k),
    }
}

/// Returns the weight of `k`, or `None` if it was rejected.
fn weight_of(trial: &Trial, k: usize) -> Option<Parts> {
    if k < trial.size() && is_missing(trial.rejected(), k) {
        let weight = trial.weight_limit(k).ratio();
        return Some((weight.num(), weight.den()));
    }
    None
}

fn has_weights(trial: &Trial, wanted: &[(usize, Parts)]) -> bool {
    for (k, weight) in wanted {
        if weight_of(trial, *k) != Some(*weight) {
            return false;
        }
    }
    true
}

fn is_answer(answer: Result<(), RejectFault>, wanted: &Answer) -> bool {
    match (answer, wanted) {
        (Ok(()), Answer::Done) => true,
        (Err(RejectFault::Rejected), Answer::Again) => true,
        (Err(RejectFault::NotLegal(weight)), Answer::NotLegal((num, den))) => {
            weight.num() == *num && weight.den() == *den
        }
        (Err(RejectFault::Wide(wide)), Answer::Wide(wanted)) => wide == *wanted,
        _ => false,
    }
}

/// Requests a rejection, and asserts its answer; exactly if the hypothesis is legal, the rejection is done or too wide.
fn expect_call(rt: &impl Abort, trial: &mut Trial, call: &Call, label: &str) {
    let (hypothesis, answer, weights) = call;
    assert!(rt; *hypothesis < trial.size());
    let is_legal = matches!(answer, Answer::Done | Answer::Wide(_));
    expect(rt, trial.can_reject(*hypothesis) == is_legal, label);
    expect(rt, is_answer(trial.reject(*hypothesis), answer), label);
    expect(rt, has_weights(trial, weights), label);
}

fn expect_row(rt: &impl Abort, alloc: Global, row: &Row) {
    let mut trial = opened(rt, alloc, row.case);
    for call in row.calls {
        expect_call(rt, &mut trial, call, row.case);
    }
    expect(rt, trial.rejected() == row.rejected, row.case);
}

#[test]
fn trials_reject_what_is_legal(rt: HostRuntime) {
    for row in ROWS {
        expect_row(&rt, rt.alloc(), row);
    }
}
