//! Removals from rows over one denominator, worked by hand.
use crate::graphs::cases::{IMPROVED_GATEKEEPING, case_of, expect};
use crate::graphs::reading::{edge_of, remove, weight_of};
use entangled::loading::net;
use eps_quotient::EpsQuotient;
use removal::Remover;
use row_removal::RowNet;
use std::alloc::Global;
use std::process::Abort;

/// A graph, the hypotheses that are removed in turn, the weights then (`None` if one was removed), and some edges.
struct Row<'a> {
    case: &'a str,
    removed: &'a [usize],
    weights: &'a [Option<&'a str>],
    edges: &'a [(usize, usize, &'a str)],
}

const ROWS: &[Row] = table! {
    Row { case: IMPROVED_GATEKEEPING, removed: &[], weights: &[Some("1/2"), Some("1/2"), Some("0"), Some("0")],
        edges: &[(0, 0, "0"), (2, 0, "[0,1]/[1]"), (2, 3, "[1,-1]/[1]"), (3, 1, "[0,1]/[1]")] },
    // (1 - e + e/2) / (1 - e/2) is 1
    Row { case: IMPROVED_GATEKEEPING, removed: &[0], weights: &[None, Some("1/2"), Some("1/4"), Some("1/4")],
        edges: &[(1, 2, "1/2"), (1, 3, "1/2"), (2, 1, "0"), (2, 3, "1"), (3, 1, "[0,1]/[1]"), (3, 2, "[1,-1]/[1]")] },
    // e / (1 - (1 - e)) is 1
    Row { case: IMPROVED_GATEKEEPING, removed: &[0, 2], weights: &[None, Some("1/2"), None, Some("1/2")],
        edges: &[(1, 3, "1"), (3, 1, "1")] },
    Row { case: IMPROVED_GATEKEEPING, removed: &[0, 2, 3], weights: &[None, Some("1"), None, None], edges: &[] },
    Row { case: POLYNOMIAL, removed: &[0, 1, 2], weights: &[None, None, None, Some("[1]/[4,0,-4]")], edges: &[] },
    Row { case: POWERS, removed: &[0, 1, 2, 3, 4], weights: &[None, None, None, None, None, Some("1/2")], edges: &[] },
    Row { case: CONTENT, removed: &[0, 1, 2], weights: &[None, None, None, Some("1")], edges: &[] },
};

/// D gets a quarter of what A and B pass round, 1 / (1 - e^2). Once C is removed, both parts of its weight have been divided by
/// 1 - e^2, the denominator of the row of B. A number by itself keeps such a factor.
const POLYNOMIAL: &str = "alpha 0.05\nhypotheses A B C D\nweights 1 0 0 0\n\
    edge A B \\epsilon\nedge A C 1/2\nedge B A \\epsilon\nedge C D 1/2\n";

/// All that A has continues, and F gets half of it. Each pair has e^4 in the denominators of its rows; if it weren't divided
/// out, e^40 would be in the denominators of the weights in the end.
const POWERS: &str = "alpha 0.05\nhypotheses A B C D E F\nweights 1 0 0 0 0 0\n\
    edge A B 1\nedge B A 1-\\epsilon^4\nedge B C \\epsilon^4\nedge C D 1\nedge D C 1-\\epsilon^4\nedge D E \\epsilon^4\n\
    edge E F 1/2\n";

/// The rows of hypotheses without weight: if their denominators weren't divided out, those of the weights would have 54 digits.
const CONTENT: &str = "alpha 0.05\nhypotheses A B C D\nweights 0 0 0 1\n\
    edge A D 1/1000000000000000000\nedge B D 1/999999999999999999\nedge C D 1/999999999999999997\nedge D A \\epsilon\n";

/// Returns the rows of a graph, in which all hypotheses remain.
fn opened(rt: &impl Abort, alloc: Global, text: &str) -> RowNet {
    let case = case_of(rt, alloc, text);
    assert!(rt; case.components() > 0);
    let Ok(net) = net(alloc, &case, 0) else {
        panic!(rt; "no rows");
    };
    net
}

/// Returns the rows of a graph after these removals.
fn after(rt: &impl Abort, alloc: Global, text: &str, removed: &[usize]) -> RowNet {
    let mut net = opened(rt, alloc, text);
    for j in removed {
        expect(rt, remove(rt, &mut net, *j).is_ok(), text);
    }
    net
}

/// Whether a number is stored as the one that a text denotes, or neither is there.
fn is_number(number: Option<EpsQuotient>, wanted: Option<&str>) -> bool {
    match (number, wanted) {
        (Some(number), Some(text)) => EpsQuotient::read(text.as_bytes()) == Some(number),
        (None, None) => true,
        _ => false,
    }
}

fn has_weights(net: &RowNet, wanted: &[Option<&str>]) -> bool {
    for (k, weight) in wanted.iter().enumerate() {
        if !is_number(weight_of(net, k), *weight) {
            return false;
        }
    }
    net.size() == wanted.len()
}

fn has_edges(net: &RowNet, wanted: &[(usize, usize, &str)]) -> bool {
    for (l, k, edge) in wanted {
        if !is_number(edge_of(net, *l, *k), Some(*edge)) {
            return false;
        }
    }
    true
}

#[test]
fn removals_leave_these_weights_and_edges(rt: HostRuntime) {
    for row in ROWS {
        let net = after(&rt, rt.alloc(), row.case, row.removed);
        expect(&rt, has_weights(&net, row.weights), row.case);
        expect(&rt, has_edges(&net, row.edges), row.case);
    }
}

#[test]
fn rows_are_set_to_others(rt: HostRuntime) {
    let start = opened(&rt, rt.alloc(), IMPROVED_GATEKEEPING);
    let mut net = after(&rt, rt.alloc(), IMPROVED_GATEKEEPING, &[0]);
    assert!(&rt; net.size() == start.size());
    net.set_to(&start);
    let weights = &[Some("1/2"), Some("1/2"), Some("0"), Some("0")];
    assert!(&rt; has_weights(&net, weights));
    assert!(&rt; remove(&rt, &mut net, 1).is_ok());
    let weights = &[Some("1/2"), None, Some("1/4"), Some("1/4")];
    assert!(&rt; has_weights(&net, weights));
}
