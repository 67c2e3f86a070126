//! Bounds over tables whose answer is yes for some sets.
use crate::cases::{expect, fits};
use case_model::SetTable;
use discovery_bound::Bounds;
use field_core::NoMemory;
use std::alloc::Global;
use std::process::Abort;

/// A label of the sets that are rejected, the number of hypotheses, these sets, for which the table answers yes, and sets with
/// their bounds.
struct Row<'a> {
    label: &'a str,
    size: usize,
    rejected: &'a [u32],
    bounds: &'a [(u32, u8)],
}

const ROWS: &[Row] = table! {
    // The closed test by weights has no such answers, since {0, 1} and {0, 2} aren't rejected.
    Row { label: "{1, 2} and {0, 1, 2} alone", size: 3, rejected: &[6, 7],
        bounds: &[(7, 1), (6, 1), (5, 0), (3, 0), (4, 0), (0, 0)] },
    // The empty set counts as not rejected, so each bound is the size of the set.
    Row { label: "each set, the empty one too", size: 2, rejected: &[0, 1, 2, 3], bounds: &[(0, 0), (1, 1), (2, 1), (3, 2)] },
    // The greatest set that isn't rejected is the whole.
    Row { label: "{0} and not {0, 1}", size: 2, rejected: &[1], bounds: &[(3, 0), (2, 0), (1, 1)] },
    // The set of all but the last isn't rejected.
    Row { label: "of sixteen, all, and all but one that isn't the last", size: 16,
        rejected: &[65_535, 65_534, 65_533, 65_531, 65_527, 65_519, 65_503, 65_471, 65_407, 65_279, 65_023, 64_511, 63_487,
          61_439, 57_343, 49_151],
        bounds: &[(65_535, 1), (65_534, 1), (49_151, 1), (32_767, 0), (0, 0)] },
};

/// Returns the bounds over the table of a row.
fn bounds_of(rt: &impl Abort, alloc: Global, row: &Row) -> Result<Bounds, NoMemory> {
    assert!(rt; row.size <= 16);
    let mut table = SetTable::new(alloc, row.size)?;
    for set in row.rejected {
        assert!(rt; fits(table.size(), *set));
        table.put(*set, true);
    }
    Bounds::build(alloc, table.size(), &table)
}

fn expect_bounds(rt: &impl Abort, bounds: &Bounds, row: &Row) {
    assert!(rt; bounds.size() == row.size);
    for (set, bound) in row.bounds {
        assert!(rt; fits(bounds.size(), *set));
        expect(rt, bounds.bound(*set) == *bound, row.label);
    }
}

#[test]
fn bounds_by_hand(rt: HostRuntime) {
    for row in ROWS {
        let Ok(bounds) = bounds_of(&rt, rt.alloc(), row) else {
            panic!(&rt; "no bounds");
        };
        expect_bounds(&rt, &bounds, row);
    }
}
