//! Removals from nets of fractions, worked by hand.
ghost use Rattle.std.specs.Prelude.{◌≡◌, OnOk};
ghost use Rattle.std.specs.Option.{IsSome};

use crate::graphs::cases::{CHAIN, HOLM, Terms, case_of, expect};
use crate::graphs::reading::{edge_of, remove, weight_of};
use entangled::loading::net;
use field_core::{Number, Op, Place, Ratio, Wide};
use fraction::Fraction;
use removal::{Net, Remover};
use std::alloc::Global;
use std::process::Abort;

/// A graph, the hypotheses that are removed in turn, the weights then (`None` if one was removed), and some edges.
struct Row<'a> {
    case: &'a str,
    removed: &'a [usize],
    weights: &'a [Option<Terms>],
    edges: &'a [(usize, usize, Terms)],
}

/// Two primary hypotheses, each of which passes half to either of two secondary ones, and these pass all to each other.
const GATEKEEPING: &str = "alpha 0.05\nhypotheses A B C D\nweights 1/2 1/2 0 0\n\
    edge A C 1/2\nedge A D 1/2\nedge B C 1/2\nedge B D 1/2\nedge C D 1\nedge D C 1\n";

const ROWS: &[Row] = table! {
    Row { case: HOLM, removed: &[], weights: &[Some((1, 3)), Some((1, 3)), Some((1, 3))],
        edges: &[(0, 0, (0, 1)), (0, 1, (1, 2)), (2, 1, (1, 2))] },
    Row { case: HOLM, removed: &[1], weights: &[Some((1, 2)), None, Some((1, 2))],
        edges: &[(0, 0, (0, 1)), (0, 2, (1, 1)), (2, 0, (1, 1)), (2, 2, (0, 1))] },
    Row { case: HOLM, removed: &[1, 0], weights: &[None, None, Some((1, 1))], edges: &[] },
    Row { case: GATEKEEPING, removed: &[0], weights: &[None, Some((1, 2)), Some((1, 4)), Some((1, 4))],
        edges: &[(1, 2, (1, 2)), (1, 3, (1, 2)), (2, 1, (0, 1)), (2, 3, (1, 1)), (3, 1, (0, 1)), (3, 2, (1, 1))] },
    Row { case: GATEKEEPING, removed: &[0, 2], weights: &[None, Some((1, 2)), None, Some((1, 2))],
        edges: &[(1, 3, (1, 1)), (3, 1, (0, 1))] },
    Row { case: GATEKEEPING, removed: &[0, 2, 3], weights: &[None, Some((1, 2)), None, None], edges: &[] },
};

const CHAIN_OF_TWO: &Row = &Row {
    case: CHAIN,
    removed: &[0, 1],
    weights: &[
        None,
        None,
        Some((1, 999_999_999_999_999_999_000_000_000_000_000_000)),
        Some((0, 1)),
    ],
    edges: &[(2, 3, (1, 999_999_999_999_999_997)), (3, 2, (0, 1))],
};

/// Returns the net of a graph, in which all hypotheses remain.
fn opened(rt: &impl Abort, alloc: Global, text: &str) -> Net<Fraction> {
    let case = case_of(rt, alloc, text);
    assert!(rt; case.is_plain());
    assert!(rt; case.components() > 0);
    let Ok(net) = net(alloc, &case, 0) else {
        panic!(rt; "no net");
    };
    net
}

/// Returns the net of a graph after these removals.
fn after(rt: &impl Abort, alloc: Global, text: &str, removed: &[usize]) -> Net<Fraction> {
    let mut net = opened(rt, alloc, text);
    for j in removed {
        expect(rt, remove(rt, &mut net, *j).is_ok(), text);
    }
    net
}

/// Whether a number is that of these terms, or neither is there.
fn is_number(number: Option<Fraction>, wanted: Option<Terms>) -> bool {
    match (number, wanted) {
        (Some(number), Some((num, den))) => {
            let ratio = number.ratio();
            ratio.num() == num && ratio.den() == den
        }
        (None, None) => true,
        _ => false,
    }
}

fn has_weights(net: &Net<Fraction>, wanted: &[Option<Terms>]) -> bool {
    for (k, weight) in wanted.iter().enumerate() {
        if !is_number(weight_of(net, k), *weight) {
            return false;
        }
    }
    net.size() == wanted.len()
}

fn has_edges(net: &Net<Fraction>, wanted: &[(usize, usize, Terms)]) -> bool {
    for (l, k, edge) in wanted {
        if !is_number(edge_of(net, *l, *k), Some(*edge)) {
            return false;
        }
    }
    true
}

fn expect_row(rt: &impl Abort, net: &Net<Fraction>, row: &Row) {
    expect(rt, has_weights(net, row.weights), row.case);
    expect(rt, has_edges(net, row.edges), row.case);
}

#[test]
fn removals_leave_these_weights_and_edges(rt: HostRuntime) {
    for row in ROWS {
        let net = after(&rt, rt.alloc(), row.case, row.removed);
        expect_row(&rt, &net, row);
    }
}

#[test]
fn a_removal_that_is_too_wide_changes_nothing(rt: HostRuntime) {
    let mut net = after(&rt, rt.alloc(), CHAIN, CHAIN_OF_TWO.removed);
    expect_row(&rt, &net, CHAIN_OF_TWO);
    let wide = Wide {
        place: Place::Weight(3),
        op: Op::Mul,
    };
    assert!(&rt; remove(&rt, &mut net, 2) == Err(wide));
    expect_row(&rt, &net, CHAIN_OF_TWO);
}

/// Prepares the removal of `j`, and returns the limit of the weight that `k` then has.
fn prepare<R: Remover>(rt: &impl Abort, net: &mut R, j: usize, k: usize) -> Result<Ratio, Wide>
    ensures present { R.present net.new ≡ R.present net.old }
    ensures prepared { OnOk result (IsSome (R.prepared net.new)) }
{
    assert!(rt; j < net.size());
    assert!(rt; k < net.size());
    assert!(rt; k != j);
    assert!(rt; net.is_live(j));
    assert!(rt; net.is_live(k));
    net.prepare(j)?;
    Ok(net.prepared_limit(k))
}

#[test]
fn a_prepared_removal_waits_for_its_commit(rt: HostRuntime) {
    let mut net = opened(&rt, rt.alloc(), HOLM);
    let Ok(limit) = prepare(&rt, &mut net, 0, 1) else {
        panic!(&rt; "too wide");
    };
    assert!(&rt; limit.num() == 1 && limit.den() == 2);
    let weights = &[Some((1, 3)), Some((1, 3)), Some((1, 3))];
    assert!(&rt; has_weights(&net, weights));
    net.commit();
    assert!(&rt; has_weights(&net, &[None, Some((1, 2)), Some((1, 2))]));
}
