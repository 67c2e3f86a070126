//! Graphs after removals, with texts by hand.
use crate::cases::{BARE_HOLM, CHAIN, WIDE_OPENING, case_of};
use field_core::{Op, Place, WideAt};
use graph_update::{UpdateFault, update};
use std::alloc::Global;
use std::process::Abort;
use std::test::Fail;

/// A trial in diabetes with two doses: a primary hypothesis passes half to the other dose, and half to its own secondary one.
const DIABETES: &str =
    "alpha 0.025\nhypotheses H1 H2 H3 H4\np 0.018 0.01 0.105 0.006\nweights 1/2 1/2 0 0\n\
    edge H1 H2 1/2\nedge H1 H3 1/2\nedge H2 H1 1/2\nedge H2 H4 1/2\nedge H3 H2 1\nedge H4 H1 1\n";

/// A passes on to B and a little to C; what B passes on comes back to it but for this little.
const EPSILON: &str = "alpha 0.05\nhypotheses A B C\nweights 1 0 0\n\
    edge A B 1-\\epsilon\nedge A C \\epsilon\nedge B A 1\n";

/// In the first graph A passes on to C and C to B; in the second B passes on to C and C to D.
const ENTANGLED: &str = "alpha 0.05\nhypotheses A B C D\n\
    component 1/2\nweights 1 0 0 0\nedge A C 1\nedge C B 1\n\
    component 1/2\nweights 0 1 0 0\nedge B C 1\nedge C D 1\n";

/// Two hypotheses that pass all to each other.
const STAGED: &str = "alpha 0.05\nhypotheses A B\nweights 1/2 1/2\n\
    edge A B 1\nedge B A 1\nstages 1\nspend A 1\nspend B 1\n";

/// The text of a case, the positions that are removed, and the text of the graph.
type Row<'a> = (&'a str, &'a [usize], &'a str);

/// Graphs of the examples and small ones.
const ROWS: &[Row] = table! {
    (STAGED, &[], "component 1\nweight A 1/2\nedge A B 1\nweight B 1/2\nedge B A 1\nlevel A 1/2\nlevel B 1/2\nend\n"),
    (STAGED, &[1], "component 1\nweight A 1\nlevel A 1\nend\n"),
    (STAGED, &[1, 0], "component 1\nend\n"),
    // 1/2 + 1/2 * 1/2 = 3/4; 1/2 / (1 - 1/4) = 2/3
    (DIABETES, &[1],
     "component 1\nweight H1 3/4\nedge H1 H3 2/3\nedge H1 H4 1/3\nweight H3 0\nedge H3 H1 1/2\nedge H3 H4 1/2\nweight H4 1/4\n\
      edge H4 H1 1\nlevel H1 3/4\nlevel H3 0\nlevel H4 1/4\nend\n"),
    // 1/4 + 3/4 * 1/3 = 1/2; (1/2 + 1/2 * 1/3) / (1 - 1/2 * 2/3) = 1
    (DIABETES, &[1, 0],
     "component 1\nweight H3 1/2\nedge H3 H4 1\nweight H4 1/2\nedge H4 H3 1\nlevel H3 1/2\nlevel H4 1/2\nend\n"),
    // (1/2 + 1/2 * 1/2) / (1 - 1/4) = 1
    (BARE_HOLM, &[1],
     "component 1\nweight H1 1/2\nedge H1 H3 1\nweight H3 1/2\nedge H3 H1 1\nlevel H1 1/2\nlevel H3 1/2\nend\n"),
    // (0 + 1 * epsilon) / (1 - 1 * (1 - epsilon)) = 1
    (EPSILON, &[0], "component 1\nweight B [1,-1]/[1]\nedge B C 1\nweight C [0,1]/[1]\nlevel B 1\nlevel C 0\nend\n"),
    (EPSILON, &[0, 1], "component 1\nweight C 1\nlevel C 1\nend\n"),
    (ENTANGLED, &[0],
     "component 1\nweight B 0\nweight C 1\nedge C B 1\nweight D 0\n\
      component 2\nweight B 1\nedge B C 1\nweight C 0\nedge C D 1\nweight D 0\nlevel B 1/2\nlevel C 1/2\nlevel D 0\nend\n"),
    (ENTANGLED, &[0, 2],
     "component 1\nweight B 1\nweight D 0\ncomponent 2\nweight B 1\nedge B D 1\nweight D 0\nlevel B 1\nlevel D 0\nend\n"),
};

/// Whether the text of the graph is that by hand.
#[test]
fn graphs_are_updated(rt: HostRuntime) -> Result<(), Fail> {
    let alloc = rt.alloc();
    for (text, removed, graph) in ROWS {
        let case = case_of(&rt, alloc, text);
        match update(alloc, &case, removed) {
            Ok(found) => assert!(rt; found.as_slice() == graph.as_bytes()),
            Err(_) => panic!(rt; "no graph"),
        }
    }
    Ok(())
}

/// Tests why there is no graph of a case after removals.
fn expect(rt: &impl Abort, alloc: Global, text: &str, removed: &[usize], fault: UpdateFault) {
    let case = case_of(rt, alloc, text);
    match update(alloc, &case, removed) {
        Ok(_) => panic!(rt; "a graph"),
        Err(found) => assert!(rt; found == fault),
    }
}

/// Whether positions past the last hypothesis, and those that are there twice, are refused before anything else.
#[test]
fn other_positions_are_refused(rt: HostRuntime) -> Result<(), Fail> {
    let alloc = rt.alloc();
    expect(&rt, alloc, BARE_HOLM, &[3], UpdateFault::Positions);
    expect(&rt, alloc, BARE_HOLM, &[0, 1, 2, 0], UpdateFault::Positions);
    expect(&rt, alloc, BARE_HOLM, &[1, 1], UpdateFault::Positions);
    expect(&rt, alloc, BARE_HOLM, &[usize::MAX], UpdateFault::Positions);
    expect(&rt, alloc, WIDE_OPENING, &[0, 0], UpdateFault::Positions);
    Ok(())
}

/// Whether the first undefined operation is reported with the number of its removal.
#[test]
fn wide_removals_are_refused(rt: HostRuntime) -> Result<(), Fail> {
    let alloc = rt.alloc();
    let edge = WideAt {
        component: 0,
        place: Place::Edge(0, 1),
        op: Op::Add,
    };
    let weight = WideAt {
        component: 0,
        place: Place::Weight(3),
        op: Op::Mul,
    };
    expect(&rt, alloc, WIDE_OPENING, &[], UpdateFault::Wide(0, edge));
    expect(&rt, alloc, WIDE_OPENING, &[0], UpdateFault::Wide(0, edge));
    expect(
        &rt,
        alloc,
        CHAIN,
        &[0, 1, 2, 3],
        UpdateFault::Wide(3, weight),
    );
    Ok(())
}
