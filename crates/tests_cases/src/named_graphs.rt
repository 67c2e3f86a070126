//! Graphs that have names, and the refusals of sizes and seeds.
use crate::contents::expect_case;
use crate::lines::{draft, numbers};
use crate::rows::{Terms, expect, fraction};
use case_model::{Case, CaseFault, PartPlace};
use catalogue::{
    CatalogueFault, equal_fallback, fallback, fixed_sequence, holm, improved_parallel, parallel,
    sample,
};
use std::process::Abort;
use text_lines::Words;

/// A graph, with the numbers that it is made from.
#[derive(Clone, Copy, Debug)]
enum Graph {
    Holm(u64),
    FixedSequence(u64),
    Fallback(&'static str),
    EqualFallback(u64),
    Parallel(u64, u64),
    ImprovedParallel(u64, u64),
    Sample(u64, u64),
}

/// Returns the case of a graph at a level, with these p-values. A sample has its own.
fn made(
    rt: &(impl Abort + AllocGlobal),
    graph: Graph,
    alpha: Terms,
    p: &str,
) -> Result<Case, CatalogueFault> {
    let alloc = rt.alloc();
    let alpha = fraction(rt, alpha);
    let p = numbers(rt, Words::new(p.as_bytes()));
    let p = p.as_slice();
    match graph {
        Graph::Holm(n) => holm(alloc, n, alpha, p),
        Graph::FixedSequence(n) => fixed_sequence(alloc, n, alpha, p),
        Graph::Fallback(weights) => {
            let weights = numbers(rt, Words::new(weights.as_bytes()));
            fallback(alloc, weights.as_slice(), alpha, p)
        }
        Graph::EqualFallback(n) => equal_fallback(alloc, n, alpha, p),
        Graph::Parallel(a, b) => parallel(alloc, a, b, alpha, p),
        Graph::ImprovedParallel(a, b) => improved_parallel(alloc, a, b, alpha, p),
        Graph::Sample(n, seed) => sample(alloc, n, seed),
    }
}

// ---- graphs that are made

const LEVEL: Terms = (1, 20);

/// Graphs at the level 1/20, their p-values, and what their cases hold.
const MADE: &[(Graph, &str, &str)] = table! {
    (Graph::Holm(1), "", "hypotheses H1\n component A 1 1"),
    (Graph::Holm(3), "1/2 1/2 1/2",
     "hypotheses H1 H2 H3\n p 1/2 1/2 1/2\n\
      component A 1 1/3 1/3 1/3\n edge A H1 H2 1/2\n edge A H1 H3 1/2\n edge A H2 H1 1/2\n edge A H2 H3 1/2\n\
      edge A H3 H1 1/2\n edge A H3 H2 1/2"),
    (Graph::FixedSequence(2), "", "hypotheses H1 H2\n component A 1 1 0\n edge A H1 H2 1"),
    (Graph::Fallback("1/2 1/2"), "", "hypotheses H1 H2\n component A 1 1/2 1/2\n edge A H1 H2 1"),
    (Graph::EqualFallback(3), "", "hypotheses H1 H2 H3\n component A 1 1/3 1/3 1/3\n edge A H1 H2 1\n edge A H2 H3 1"),
    (Graph::Parallel(1, 1), "", "hypotheses H1 H2\n component A 1 1 0\n edge A H1 H2 1"),
    (Graph::Parallel(1, 3), "",
     "hypotheses H1 H2 H3 H4\n\
      component A 1 1 0 0 0\n edge A H1 H2 1/3\n edge A H1 H3 1/3\n edge A H1 H4 1/3\n edge A H2 H3 1/2\n edge A H2 H4 1/2\n\
      edge A H3 H2 1/2\n edge A H3 H4 1/2\n edge A H4 H2 1/2\n edge A H4 H3 1/2"),
    (Graph::Parallel(2, 1), "", "hypotheses H1 H2 H3\n component A 1 1/2 1/2 0\n edge A H1 H3 1\n edge A H2 H3 1"),
    (Graph::ImprovedParallel(2, 2), "",
     "hypotheses H1 H2 H3 H4\n\
      component A 1 1/2 1/2 0 0\n edge A H1 H3 1/2\n edge A H1 H4 1/2\n edge A H2 H3 1/2\n edge A H2 H4 1/2\n\
      edge A H3 H1 0 1\n edge A H3 H4 1 -1\n edge A H4 H2 0 1\n edge A H4 H3 1 -1"),
    (Graph::ImprovedParallel(1, 1), "", "hypotheses H1 H2\n component A 1 1 0\n edge A H1 H2 1\n edge A H2 H1 0 1"),
    // the turns of the secondary hypotheses begin again
    (Graph::ImprovedParallel(1, 2), "",
     "hypotheses H1 H2 H3\n\
      component A 1 1 0 0\n edge A H1 H2 1/2\n edge A H1 H3 1/2\n edge A H2 H1 0 1\n edge A H2 H3 1 -1\n edge A H3 H1 0 1\n\
      edge A H3 H2 1 -1"),
    (Graph::ImprovedParallel(2, 3), "",
     "hypotheses H1 H2 H3 H4 H5\n\
      component A 1 1/2 1/2 0 0 0\n edge A H1 H3 1/3\n edge A H1 H4 1/3\n edge A H1 H5 1/3\n edge A H2 H3 1/3\n\
      edge A H2 H4 1/3\n edge A H2 H5 1/3\n edge A H3 H1 0 1\n edge A H3 H4 1/2 -1/2\n edge A H3 H5 1/2 -1/2\n\
      edge A H4 H2 0 1\n edge A H4 H3 1/2 -1/2\n edge A H4 H5 1/2 -1/2\n edge A H5 H1 0 1\n edge A H5 H3 1/2 -1/2\n\
      edge A H5 H4 1/2 -1/2"),
    (Graph::Sample(2, 1), "", "hypotheses H1 H2\n p 12023/50000000 60273/12500000\n component A 1 1/2 1/2\n edge A H1 H2 1/2"),
};

#[test]
fn graphs_are_made(rt: HostRuntime) {
    for (graph, p, text) in MADE {
        let case = made(&rt, *graph, LEVEL, p).ok().expect(&rt, text);
        expect_case(&rt, &case, &draft(&rt, text, ""));
    }
}

/// Whether the greatest size and the greatest seed are accepted.
#[test]
fn the_last_sample_is_made(rt: HostRuntime) {
    assert!(rt; sample(rt.alloc(), 64, (1 << 48) - 1).is_ok());
}

// ---- graphs that are refused

/// Graphs, their levels and p-values, and why they are refused.
const REFUSED: &[(Graph, Terms, &str, CatalogueFault)] = table! {
    (Graph::Holm(0), LEVEL, "", CatalogueFault::Size(0)),
    (Graph::FixedSequence(65), LEVEL, "", CatalogueFault::Size(65)),
    (Graph::Fallback(""), LEVEL, "", CatalogueFault::Size(0)),
    (Graph::EqualFallback(0), LEVEL, "", CatalogueFault::Size(0)),
    (Graph::EqualFallback(u64::MAX), LEVEL, "", CatalogueFault::Size(u64::MAX)),
    (Graph::Parallel(70, 0), LEVEL, "", CatalogueFault::Size(0)),
    (Graph::Parallel(60, 5), LEVEL, "", CatalogueFault::Size(65)),
    (Graph::ImprovedParallel(u64::MAX, 2), LEVEL, "", CatalogueFault::Size(u64::MAX)),
    (Graph::Sample(65, u64::MAX), LEVEL, "", CatalogueFault::Size(65)),
    (Graph::Sample(64, 1 << 48), LEVEL, "", CatalogueFault::Seed(1 << 48)),
    // faults of their drafts
    (Graph::Holm(2), (1, 10_001), "", CatalogueFault::Case(CaseFault::PartTooLong(PartPlace::Alpha))),
    (Graph::Holm(2), LEVEL, "1/20", CatalogueFault::Case(CaseFault::PCount(1))),
    (Graph::Fallback("2/3 2/3"), LEVEL, "", CatalogueFault::Case(CaseFault::WeightSum(0))),
};

#[test]
fn graphs_are_refused(rt: HostRuntime) {
    for row in REFUSED {
        let (graph, alpha, p, fault) = row;
        let found = made(&rt, *graph, *alpha, p).err();
        expect(&rt, found == Some(*fault), &(graph, alpha, p));
    }
}
