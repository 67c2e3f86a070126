//! Where the written runs of cases are too wide, at their openings and in removals.
use crate::graphs::case_nets::{opened, remove};
use crate::graphs::cases::{case_of, expect};
use entangled::{CaseNet, OpenFault};
use field_core::{Op, Place, WideAt};
use std::alloc::Global;
use std::process::Abort;

/// Cases, each with the component, the place and the operation at which its opening is too wide.
///
/// Three denominators with no common factors have a product of 54 digits, and the largest number of 127 bits has 39.
const OPENINGS: &[(&str, usize, Place, Op)] = table! {
    // One edge, with two and three fractions.
    ("alpha 0.05\nhypotheses A B\nweights 1 0\n\
      edge A B 1/1000000000000000000+1/999999999999999999*\\epsilon+1/999999999999999997*\\epsilon^2\n\
      edge B A 1/1000000000000000000+1/999999999999999999*\\epsilon\n", 0, Place::Edge(0, 1), Op::Add),
    ("alpha 0.05\nhypotheses A B\n\
      component 1/2\nweights 1 0\nedge A B 1/1000000000000000000+1/999999999999999999*\\epsilon\n\
      component 1/2\nweights 0 1\nedge A B 1/1000000000000000000+1/999999999999999999*\\epsilon\n\
      edge B A 1/1000000000000000000+1/999999999999999999*\\epsilon+1/999999999999999997*\\epsilon^2\n",
     1, Place::Edge(1, 0), Op::Add),
    // Weights that make 1/8 by twos, over six denominators; those of three pairs have no common factor.
    ("alpha 0.05\nhypotheses A B C D E F\n\
      weights 1/99999999999999997 99999999999999989/799999999999999976 1/99999999999999999 99999999999999991/799999999999999992 1/100000000000000003 99999999999999995/800000000000000024\n\
      edge A B \\epsilon\n", 0, Place::Weight(4), Op::Mul),
    // Edges over three denominators with no common factor.
    ("alpha 0.05\nhypotheses A B C D\nweights 1 0 0 0\n\
      edge A B 1/1000000000000000000\nedge A C 1/999999999999999999\nedge A D 1/999999999999999997*\\epsilon\n",
     0, Place::Edge(0, 3), Op::Mul),
    // A numerator over the common denominator of the other edges.
    ("alpha 0.05\nhypotheses A B C D\nweights 1 0 0 0\n\
      edge A B 1000000000000000000*\\epsilon\nedge A C 1/1000000000000000000\nedge A D 1/999999999999999999\n",
     0, Place::Edge(0, 1), Op::Mul),
};

/// Cases of which A has all the weight, each with the place of the product that is too wide once the hypotheses are removed in
/// their order.
const REMOVALS: &[(&str, Place)] = table! {
    // The numerator of a weight: 10^18 epsilon, three times by itself.
    ("alpha 0.05\nhypotheses A B C D\nweights 1 0 0 0\n\
      edge A B 1000000000000000000*\\epsilon\nedge B C 1000000000000000000*\\epsilon\nedge C D 1000000000000000000*\\epsilon\n",
     Place::Weight(3)),
    // The denominator of the weights.
    ("alpha 0.05\nhypotheses A B C D\nweights 1 0 0 0\n\
      edge A B 1/1000000000000000000\nedge B C 1/999999999999999999\nedge C D 1/999999999999999997\nedge D A \\epsilon\n",
     Place::Weight(2)),
    // The denominators of two rows.
    ("alpha 0.05\nhypotheses A B C D\nweights 1 0 0 0\n\
      edge A B 1/1000000000000000000\nedge A C 1/999999999999999999\nedge B A 1/1000000000000000000\n\
      edge B C 1/999999999999999999\nedge C A \\epsilon\n", Place::Loss(1)),
    // The numerator of an edge.
    ("alpha 0.05\nhypotheses A B C D\nweights 1 0 0 0\n\
      edge A B 1/1000000000000000000\nedge A C 1/999999999999999999\nedge B C 1000000000000000000*\\epsilon\n",
     Place::Edge(1, 2)),
};

/// Returns the first operation of the opening that is too wide, if one is.
fn wide_opening(rt: &impl Abort, alloc: Global, text: &str) -> Option<WideAt> {
    match CaseNet::load(alloc, &case_of(rt, alloc, text)) {
        Err(OpenFault::Wide(wide)) => Some(wide),
        _ => None,
    }
}

/// Returns the first operation that is too wide while all hypotheses are removed in their order, if one is.
fn wide_removal(rt: &impl Abort, alloc: Global, text: &str) -> Option<WideAt> {
    let mut nets = opened(rt, alloc, text);
    for j in 0..nets.size() {
        if let Err(wide) = remove(rt, &mut nets, j) {
            return Some(wide);
        }
    }
    None
}

#[test]
fn openings_are_too_wide_at_their_places(rt: HostRuntime) {
    for &(text, component, place, op) in OPENINGS {
        let wide = WideAt {
            component,
            place,
            op,
        };
        expect(&rt, wide_opening(&rt, rt.alloc(), text) == Some(wide), text);
    }
}

#[test]
fn removals_are_too_wide_at_their_places(rt: HostRuntime) {
    for &(text, place) in REMOVALS {
        let wide = WideAt {
            component: 0,
            place,
            op: Op::Mul,
        };
        expect(&rt, wide_removal(&rt, rt.alloc(), text) == Some(wide), text);
    }
}
