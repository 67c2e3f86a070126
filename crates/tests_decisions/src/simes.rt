//! Simes' test and its closed test of all sets, by hand.
use crate::cases::{case_of, expect, fits};
use case_model::{Case, SetTable};
use closed_test::{ClosedTable, WeightTable};
use discovery_bound::Bounds;
use field_core::{Op, Place, WideAt};
use sequential::is_single;
use simes_test::{SimesFault, SimesTable, leaders};
use std::alloc::Global;
use std::process::Abort;

/// A set, whether Simes' test rejects it, whether its closed test does, and its bound.
type Answer = (u32, bool, bool, u8);

/// A case, the answers for its sets, and the order of its hypotheses.
struct Row<'a> {
    case: &'a str,
    answers: &'a [Answer],
    order: &'a [usize],
}

/// Both p-values are at most the level, and none at most half of it.
const HALVES: &str = "alpha 0.05\nhypotheses H1 H2\np 0.04 0.05\nweights 1/2 1/2\n";

/// The case `HALVES` with edges: each hypothesis passes its weight on to the other.
const EXCHANGED: &str = "alpha 0.05\nhypotheses H1 H2\np 0.04 0.05\nweights 1/2 1/2\n\
    edge H1 H2 1\nedge H2 H1 1\n";

/// Holm's graph. Hommel's procedure takes the greatest i such that the k-th of the i greatest p-values is above k/i of the
/// level, for each k up to i. Here no such i exists, so all are rejected, while Holm's procedure rejects none.
const HOMMEL_ALL: &str = "alpha 0.05\nhypotheses H1 H2 H3\np 0.02 0.04 0.045\nweights 1/3 1/3 1/3\n\
    edge H1 H2 1/2\nedge H1 H3 1/2\nedge H2 H1 1/2\nedge H2 H3 1/2\nedge H3 H1 1/2\nedge H3 H2 1/2\n";

/// The i of Hommel's procedure is 2, so a p-value of at most half of the level is rejected, which is 0.02 alone. Holm's procedure
/// rejects none.
const HOMMEL_ONE: &str = "alpha 0.05\nhypotheses H1 H2 H3\np 0.03 0.06 0.02\nweights 1/3 1/3 1/3\n\
    edge H1 H2 1/2\nedge H1 H3 1/2\nedge H2 H1 1/2\nedge H2 H3 1/2\nedge H3 H1 1/2\nedge H3 H2 1/2\n";

/// No i of Hommel's procedure exists; two p-values are equal, and count for each other.
const HOMMEL_TIE: &str = "alpha 0.05\nhypotheses H1 H2 H3\np 0.03 0.03 0.05\nweights 1/3 1/3 1/3\n\
    edge H1 H2 1/2\nedge H1 H3 1/2\nedge H2 H1 1/2\nedge H2 H3 1/2\nedge H3 H1 1/2\nedge H3 H2 1/2\n";

/// H1 passes epsilon on to H3 and the rest to H2, and H2 all to H3. In the set of H2 and H3 the weight of H2 is 1 in the limit,
/// and that of H3 is 0. H3 has the least p-value, and its sum rejects nothing, but that of H2 rejects. H1 alone keeps 1/2.
const EPSILON: &str = "alpha 0.05\nhypotheses H1 H2 H3\np 0.04 0.05 0.03\nweights 1/2 1/2 0\n\
    edge H1 H2 1-\\epsilon\nedge H1 H3 \\epsilon\nedge H2 H3 1\n";

const ALL_THREE: &[Answer] = &[
    (7, true, true, 3),
    (6, true, true, 2),
    (5, true, true, 2),
    (4, true, true, 1),
    (3, true, true, 2),
    (2, true, true, 1),
    (1, true, true, 1),
];

const ROWS: &[Row] = table! {
    Row { case: HALVES, answers: &[(3, true, true, 1), (2, false, false, 0), (1, false, false, 0), (0, false, false, 0)],
        order: &[0, 1] },
    Row { case: EXCHANGED, answers: &[(3, true, true, 2), (2, true, true, 1), (1, true, true, 1), (0, false, false, 0)],
        order: &[0, 1] },
    Row { case: HOMMEL_ALL, answers: ALL_THREE, order: &[0, 1, 2] },
    Row { case: HOMMEL_ONE,
        answers: &[(7, true, true, 1), (6, true, true, 1), (5, true, true, 1), (4, true, true, 1), (3, false, false, 0),
          (2, false, false, 0), (1, true, false, 0)],
        order: &[2, 0, 1] },
    Row { case: HOMMEL_TIE, answers: ALL_THREE, order: &[0, 1, 2] },
    Row { case: EPSILON,
        answers: &[(7, true, true, 2), (6, true, true, 2), (5, true, true, 1), (4, true, true, 1), (3, true, true, 1),
          (2, true, true, 1), (1, false, false, 0)],
        order: &[2, 0, 1] },
};

/// Returns the table of a case by Simes' test.
fn simes_table(rt: &impl Abort, alloc: Global, case: &Case) -> Result<SimesTable, SimesFault> {
    assert!(rt; is_single(case));
    let Ok(weights) = WeightTable::build(alloc, case) else {
        panic!(rt; "no weights");
    };
    SimesTable::build(alloc, case, &weights)
}

/// Returns the bounds over the answers of a closed test.
fn bounds_of(rt: &impl Abort, alloc: Global, closed: &SetTable) -> Bounds {
    let Ok(bounds) = Bounds::build(alloc, closed.size(), closed) else {
        panic!(rt; "no bounds");
    };
    bounds
}

/// Whether the sets have these answers and bounds.
fn has_answers(rt: &impl Abort, table: &SimesTable, bounds: &Bounds, wanted: &[Answer]) -> bool {
    let size = table.closed_table().size();
    for &(set, local, closed, bound) in wanted {
        assert!(rt; fits(size, set) && fits(bounds.size(), set));
        if table.local(set) != local || table.closed(set) != closed || bounds.bound(set) != bound {
            return false;
        }
    }
    true
}

#[test]
fn answers_of_all_sets(rt: HostRuntime) {
    for row in ROWS {
        let case = case_of(&rt, rt.alloc(), row.case);
        let Ok(table) = simes_table(&rt, rt.alloc(), &case) else {
            panic!(&rt; "no table");
        };
        let bounds = bounds_of(&rt, rt.alloc(), table.closed_table());
        expect(
            &rt,
            has_answers(&rt, &table, &bounds, row.answers),
            row.case,
        );
    }
}

#[test]
fn hypotheses_come_by_their_p_values(rt: HostRuntime) {
    for row in ROWS {
        let case = case_of(&rt, rt.alloc(), row.case);
        assert!(&rt; is_single(&case));
        let Ok(order) = leaders(rt.alloc(), &case) else {
            panic!(&rt; "no order");
        };
        expect(&rt, order.as_slice() == row.order, row.case);
    }
}

/// Whether the closed test by weights rejects neither alone, nor both.
#[test]
fn the_closed_test_rejects_less(rt: HostRuntime) {
    let case = case_of(&rt, rt.alloc(), HALVES);
    assert!(&rt; is_single(&case));
    let Ok(table) = ClosedTable::build(rt.alloc(), &case) else {
        panic!(&rt; "no table");
    };
    let bounds = bounds_of(&rt, rt.alloc(), table.closed_table());
    for set in 1..4 {
        assert!(&rt; fits(bounds.size(), set));
        assert!(&rt; bounds.bound(set) == 0);
    }
}

/// The first two weights sum to 1/2, and each with the last two has a sum that isn't defined. In the set of all, H2 has the
/// least p-value and H1 the next, so all sums are defined; the next set leaves out H1.
const WIDE: &str = "alpha 0.05\nhypotheses H1 H2 H3 H4\np 0.02 0.01 0.03 0.04\n\
    weights 1/100000000000000003 100000000000000001/200000000000000006 1/999999999999999989 1/999999999999999999\n";

#[test]
fn the_first_sum_that_is_not_defined(rt: HostRuntime) {
    let table = simes_table(&rt, rt.alloc(), &case_of(&rt, rt.alloc(), WIDE));
    let wide = WideAt {
        component: 0,
        place: Place::Level(3),
        op: Op::Add,
    };
    assert!(&rt; table.err() == Some(SimesFault::Wide(14, wide)));
}
