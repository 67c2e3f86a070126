//! Rows compared with the net of quotients that they denote, removal by removal.
ghost use Rattle.std.specs.Prelude.{◌<◌, length};
ghost use Rattle.case_model.specs.CaseView.{content};

use crate::graphs::cases::{case_of, expect};
use crate::graphs::reading::{edge_of, remove, weight_of};
use case_model::Case;
use entangled::OpenFault;
use entangled::loading::{edges, net, weights};
use eps_quotient::EpsQuotient;
use field_core::{List, Number};
use removal::{Net, Remover};
use row_removal::RowNet;
use std::alloc::Global;
use std::cmp::Ordering;
use std::process::Abort;

/// Graphs of three hypotheses of weight 1/3.
const GRAPHS_OF_THREE: &[&str] = table! {
    // One that keeps all, one that epsilon leaves.
    "alpha 0.05\nhypotheses A B C\nweights 1/3 1/3 1/3\nedge A B 1-\\epsilon\nedge A C \\epsilon\nedge B A 1\n",
    // A fallback in which epsilon goes back.
    "alpha 0.05\nhypotheses A B C\nweights 1/3 1/3 1/3\nedge A B 1\nedge B C 1-\\epsilon\nedge B A \\epsilon\nedge C A 1\n",
    // Epsilon both ways.
    "alpha 0.05\nhypotheses A B C\nweights 1/3 1/3 1/3\n\
     edge A B \\epsilon\nedge B A \\epsilon\nedge B C \\epsilon\nedge C B \\epsilon\n",
    // The square of epsilon alone continues.
    "alpha 0.05\nhypotheses A B C\nweights 1/3 1/3 1/3\nedge A B \\epsilon\nedge B C 1\nedge C A 1-\\epsilon^2\n",
    "alpha 0.05\nhypotheses A B C\nweights 1/3 1/3 1/3\n\
     edge A B 1/2-1/3*\\epsilon\nedge A C 1/3-1/7*\\epsilon+2/5*\\epsilon^2\nedge B A 1/2\nedge B C 1/2-1/3*\\epsilon\n\
     edge C A 1/3\nedge C B 1/3\n",
    // To one that passes nothing on.
    "alpha 0.05\nhypotheses A B C\nweights 1/3 1/3 1/3\nedge A C 1-\\epsilon\nedge A B \\epsilon^2\nedge B C \\epsilon\n",
};

/// Graphs of four hypotheses, the first of which has all the weight.
const GRAPHS_OF_FOUR: &[&str] = table! {
    "alpha 0.05\nhypotheses A B C D\nweights 1 0 0 0\n\
     edge A B 1/2-1/3*\\epsilon\nedge A C 1/3\nedge B A 1/2+1/4*\\epsilon\nedge B D 1/3-1/7*\\epsilon+2/5*\\epsilon^2\n\
     edge C D 1/2\nedge D A 1/3\n",
    "alpha 0.05\nhypotheses A B C D\nweights 1 0 0 0\n\
     edge A D 1/3-1/7*\\epsilon+2/5*\\epsilon^2\nedge D B 1/2+1/4*\\epsilon\nedge B A 1/2-1/3*\\epsilon\nedge C B 1/2\n",
    // Improved gatekeeping.
    "alpha 0.05\nhypotheses A B C D\nweights 1 0 0 0\n\
     edge A C 1/2\nedge A D 1/2\nedge B C 1/2\nedge B D 1/2\nedge C A \\epsilon\nedge C D 1-\\epsilon\nedge D B \\epsilon\n\
     edge D C 1-\\epsilon\n",
    // The square of epsilon.
    "alpha 0.05\nhypotheses A B C D\nweights 1 0 0 0\n\
     edge A B 1-\\epsilon^2\nedge A C \\epsilon^2\nedge B D \\epsilon\nedge C D 1\nedge D B 1-\\epsilon\n",
    "alpha 0.05\nhypotheses A B C D\nweights 1 0 0 0\n\
     edge A B 1/2\nedge A C 1/2\nedge B A 1-\\epsilon\nedge B C \\epsilon\nedge C A 1-\\epsilon\nedge C D \\epsilon\n\
     edge D A 1/2\nedge D B 1/2-1/3*\\epsilon\n",
    "alpha 0.05\nhypotheses A B C D\nweights 1 0 0 0\n\
     edge A B 1-\\epsilon\nedge A C \\epsilon\nedge B C 1-\\epsilon^2\nedge C D 1/2+1/4*\\epsilon\nedge D A \\epsilon\n",
};

const ORDERS_OF_THREE: &[&[usize]] = &[&[0, 1, 2], &[1, 2, 0], &[2, 0, 1]];

const ORDERS_OF_FOUR: &[&[usize]] = &[&[0, 1, 2, 3], &[2, 0, 3, 1]];

/// Returns the net of quotients of the first component.
fn quotient_net(alloc: Global, case: &Case) -> Result<Net<EpsQuotient>, OpenFault>
    requires { 0 < length (content case.now).components }
{
    let weights: List<EpsQuotient> = weights(alloc, case, 0)?;
    let edges: Vec<EpsQuotient> = edges(alloc, case, 0)?;
    Ok(Net::try_new(alloc, weights.as_slice(), &edges)?)
}

/// Whether two numbers are equal, or neither is there.
fn are_equal(x: Option<EpsQuotient>, y: Option<EpsQuotient>) -> bool {
    match (x, y) {
        (Some(x), Some(y)) => x.compare(&y) == Ok(Ordering::Equal),
        (None, None) => true,
        _ => false,
    }
}

/// Whether both have equal edges from a hypothesis.
fn have_equal_edges(rows: &RowNet, quotients: &Net<EpsQuotient>, l: usize) -> bool {
    for k in 0..rows.size() {
        if !are_equal(edge_of(rows, l, k), edge_of(quotients, l, k)) {
            return false;
        }
    }
    true
}

/// Whether the same hypotheses remain in both, with equal weights and equal edges.
fn are_same(rows: &RowNet, quotients: &Net<EpsQuotient>) -> bool {
    for k in 0..rows.size() {
        if !are_equal(weight_of(rows, k), weight_of(quotients, k))
            || !have_equal_edges(rows, quotients, k)
        {
            return false;
        }
    }
    rows.size() == quotients.size()
}

/// Asserts that rows and quotients stay the same while the hypotheses of a case are removed in this order.
fn expect_same(rt: &impl Abort, alloc: Global, text: &str, order: &[usize]) {
    let case = case_of(rt, alloc, text);
    assert!(rt; !case.is_plain());
    assert!(rt; case.components() > 0);
    let (Ok(mut rows), Ok(mut quotients)) = (net(alloc, &case, 0), quotient_net(alloc, &case))
    else {
        panic!(rt; "not opened");
    };
    expect(rt, are_same(&rows, &quotients), text);
    for j in order {
        expect(rt, remove(rt, &mut rows, *j).is_ok(), text);
        expect(rt, remove(rt, &mut quotients, *j).is_ok(), text);
        expect(rt, are_same(&rows, &quotients), text);
    }
}

fn expect_same_in_orders(rt: &impl Abort, alloc: Global, text: &str, orders: &[&[usize]]) {
    for order in orders {
        expect_same(rt, alloc, text, order);
    }
}

#[test]
fn rows_of_three_are_the_same_as_quotients(rt: HostRuntime) {
    for text in GRAPHS_OF_THREE {
        expect_same_in_orders(&rt, rt.alloc(), text, ORDERS_OF_THREE);
    }
}

#[test]
fn rows_of_four_are_the_same_as_quotients(rt: HostRuntime) {
    for text in GRAPHS_OF_FOUR {
        expect_same_in_orders(&rt, rt.alloc(), text, ORDERS_OF_FOUR);
    }
}
