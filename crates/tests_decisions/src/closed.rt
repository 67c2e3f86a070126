//! Weights and answers of all sets by hand.
use crate::cases::{
    CHAIN, ENTANGLED, HOLM, IMPROVED_GATEKEEPING, Parts, SEQUENCE, WIDE_OPENING, case_of, expect,
    fits,
};
use closed_test::{ClosedFault, ClosedTable, WeightTable, sets_in_order};
use field_core::{Op, Place, WideAt};
use sequential::is_single;
use std::alloc::Global;
use std::process::Abort;

/// A set, one of its members, and the weight of the member there.
type Weight = (u32, usize, Parts);

const WEIGHTS: &[(&str, &[Weight])] = table! {
    // The members of each set share the level.
    (HOLM,
     &[(7, 0, (1, 3)), (7, 1, (1, 3)), (7, 2, (1, 3)), (6, 1, (1, 2)), (6, 2, (1, 2)), (5, 0, (1, 2)), (5, 2, (1, 2)),
       (3, 0, (1, 2)), (3, 1, (1, 2)), (4, 2, (1, 1)), (2, 1, (1, 1)), (1, 0, (1, 1))]),
    (ENTANGLED, &[(3, 0, (1, 2)), (3, 1, (1, 2)), (2, 1, (1, 1)), (1, 0, (1, 1))]),
    (IMPROVED_GATEKEEPING,
     &[(15, 0, (1, 2)), (15, 1, (1, 2)), (15, 2, (0, 1)), (15, 3, (0, 1)), (14, 1, (1, 2)), (14, 2, (1, 4)), (14, 3, (1, 4)),
       (12, 2, (1, 2)), (12, 3, (1, 2)), (8, 3, (1, 1)), (4, 2, (1, 1)), (10, 1, (1, 2)), (10, 3, (1, 2)), (2, 1, (1, 1)),
       (6, 1, (1, 2)), (6, 2, (1, 2)), (13, 0, (1, 2)), (13, 2, (1, 4)), (13, 3, (1, 4)), (9, 0, (1, 2)), (9, 3, (1, 2)),
       (1, 0, (1, 1)), (5, 0, (1, 2)), (5, 2, (1, 2)), (11, 0, (1, 2)), (11, 1, (1, 2)), (11, 3, (0, 1)), (3, 0, (1, 2)),
       (3, 1, (1, 2)), (7, 0, (1, 2)), (7, 1, (1, 2)), (7, 2, (0, 1))]),
};

/// Whether the members of the sets have these weights.
fn has_weights(rt: &impl Abort, table: &WeightTable, wanted: &[Weight]) -> bool {
    for &(set, k, (num, den)) in wanted {
        assert!(rt; fits(table.size(), set) && k < 16);
        let weight = table.weight(set, k).ratio();
        if weight.num() != num || weight.den() != den {
            return false;
        }
    }
    true
}

#[test]
fn weights_of_all_sets(rt: HostRuntime) {
    for (text, wanted) in WEIGHTS {
        let case = case_of(&rt, rt.alloc(), text);
        let Ok(table) = WeightTable::build(rt.alloc(), &case) else {
            panic!(&rt; "no table");
        };
        expect(&rt, has_weights(&rt, &table, wanted), text);
    }
}

/// The sets of the fixed sequence, each with the answers of the local test and the closed test. The local test rejects H3
/// alone, and each set with H1. The closed test rejects each set that holds H1.
const ANSWERS: &[(u32, bool, bool)] = &[
    (0, false, false),
    (1, true, true),
    (2, false, false),
    (3, true, true),
    (4, true, false),
    (5, true, true),
    (6, false, false),
    (7, true, true),
];

#[test]
fn answers_of_all_sets(rt: HostRuntime) {
    let case = case_of(&rt, rt.alloc(), SEQUENCE);
    assert!(&rt; is_single(&case));
    let Ok(table) = ClosedTable::build(rt.alloc(), &case) else {
        panic!(&rt; "no table");
    };
    assert!(&rt; table.weights().size() == 3);
    for &(set, local, closed) in ANSWERS {
        assert!(&rt; fits(table.weights().size(), set));
        assert!(&rt; table.local(set) == local);
        assert!(&rt; table.closed(set) == closed);
        assert!(&rt; table.closed_table().get(set) == closed);
    }
}

/// 17 hypotheses.
const MANY: &str =
    "alpha 0.05\nhypotheses A B C D E F G H I J K L M N O P Q\nweights 1 0 0 0 0 0 0 0 0 0 0 0 0 0 0 0 0\n";

/// 18 hypotheses.
const ONE_MORE: &str = "alpha 0.05\nhypotheses A B C D E F G H I J K L M N O P Q R\n\
    weights 1 0 0 0 0 0 0 0 0 0 0 0 0 0 0 0 0 0\n";

const FAULTS: &[(&str, ClosedFault)] = table! {
    // The weight of H4 alone would be 1/10^18 times 1/999999999999999999 times 1/999999999999999997.
    (CHAIN, ClosedFault::Wide(8, WideAt { component: 0, place: Place::Weight(3), op: Op::Mul })),
    (WIDE_OPENING, ClosedFault::Wide(3, WideAt { component: 0, place: Place::Edge(0, 1), op: Op::Add })),
    (MANY, ClosedFault::TooMany(17)),
    (ONE_MORE, ClosedFault::TooMany(18)),
};

/// Whether the first set whose run is undefined is reported, and more than sixteen hypotheses are refused.
#[test]
fn tables_are_refused(rt: HostRuntime) {
    for (text, fault) in FAULTS {
        let table = WeightTable::build(rt.alloc(), &case_of(&rt, rt.alloc(), text));
        expect(&rt, table.err() == Some(*fault), text);
    }
}

const SETS_OF_TWO: &[u32] = &[3, 2, 0, 1];

const SETS_OF_THREE: &[u32] = &[7, 6, 4, 0, 2, 5, 1, 3];

/// Whether each set comes before those that leave out one more hypothesis, after the last one that it leaves out.
#[test]
fn sets_come_in_order(rt: HostRuntime) {
    let (Ok(two), Ok(three)) = (sets_in_order(rt.alloc(), 2), sets_in_order(rt.alloc(), 3)) else {
        panic!(&rt; "no sets");
    };
    assert!(&rt; two.as_slice() == SETS_OF_TWO);
    assert!(&rt; three.as_slice() == SETS_OF_THREE);
}
