//! Levels of small cases, as they are opened and after removals.
ghost use Rattle.std.specs.Prelude.{◌≡◌};
ghost use Rattle.entangled.specs.CaseNetView.{case_state};

use crate::graphs::cases::{CHAIN, HOLM, IMPROVED_GATEKEEPING, Terms, case_of, expect};
use entangled::CaseNet;
use field_core::{Number, Op, Place, WideAt};
use removal::Remover;
use std::alloc::Global;
use std::process::Abort;

/// A case, the hypotheses that are removed in turn, and the level of each then, `None` if it was removed.
struct Row<'a> {
    case: &'a str,
    removed: &'a [usize],
    levels: &'a [Option<Terms>],
}

/// Two components: in each of them one hypothesis has all the weight, and passes it to the other one.
const SHARED: &str = "alpha 0.05\nhypotheses A B\n\
    component 1/2\nweights 1 0\nedge A B 1\n\
    component 1/2\nweights 0 1\nedge B A 1\n";

/// A weight of epsilon is a level of 0.
const EPSILON: &str = "alpha 0.05\nhypotheses A B C\nweights 1 0 0\n\
    edge A B 1-\\epsilon\nedge A C \\epsilon\n";

/// The common denominator of the edge has 36 digits.
const LONG: &str = "alpha 0.05\nhypotheses A B\nweights 1 0\n\
    edge A B 1/1000000000000000000+1/999999999999999999*\\epsilon\n";

const ROWS: &[Row] = table! {
    Row { case: HOLM, removed: &[], levels: &[Some((1, 3)), Some((1, 3)), Some((1, 3))] },
    Row { case: HOLM, removed: &[1], levels: &[Some((1, 2)), None, Some((1, 2))] },
    Row { case: HOLM, removed: &[1, 0], levels: &[None, None, Some((1, 1))] },
    Row { case: SHARED, removed: &[], levels: &[Some((1, 2)), Some((1, 2))] },
    Row { case: SHARED, removed: &[0], levels: &[None, Some((1, 1))] },
    // All but epsilon goes from C to D and back, and only what is left of it continues.
    Row { case: IMPROVED_GATEKEEPING, removed: &[], levels: &[Some((1, 2)), Some((1, 2)), Some((0, 1)), Some((0, 1))] },
    Row { case: IMPROVED_GATEKEEPING, removed: &[0], levels: &[None, Some((1, 2)), Some((1, 4)), Some((1, 4))] },
    Row { case: IMPROVED_GATEKEEPING, removed: &[0, 2], levels: &[None, Some((1, 2)), None, Some((1, 2))] },
    Row { case: IMPROVED_GATEKEEPING, removed: &[0, 2, 3], levels: &[None, Some((1, 1)), None, None] },
    Row { case: IMPROVED_GATEKEEPING, removed: &[0, 2, 3, 1], levels: &[None, None, None, None] },
    Row { case: EPSILON, removed: &[], levels: &[Some((1, 1)), Some((0, 1)), Some((0, 1))] },
    Row { case: EPSILON, removed: &[0], levels: &[None, Some((1, 1)), Some((0, 1))] },
    Row { case: LONG, removed: &[], levels: &[Some((1, 1)), Some((0, 1))] },
};

/// Returns the nets of a case, in which all hypotheses remain.
pub fn opened(rt: &impl Abort, alloc: Global, text: &str) -> CaseNet {
    let Ok(nets) = CaseNet::load(alloc, &case_of(rt, alloc, text)) else {
        panic!(rt; "not opened");
    };
    nets
}

/// Removes the remaining hypothesis `j`.
pub fn remove(rt: &impl Abort, nets: &mut CaseNet, j: usize) -> Result<(), WideAt> {
    assert!(rt; j < nets.size());
    assert!(rt; nets.is_live(j));
    nets.remove(j)
}

/// Returns the nets of a case after these removals.
fn after(rt: &impl Abort, alloc: Global, text: &str, removed: &[usize]) -> CaseNet {
    let mut nets = opened(rt, alloc, text);
    for j in removed {
        expect(rt, remove(rt, &mut nets, *j).is_ok(), text);
    }
    nets
}

/// Returns the level of `k`, or `None` if it was removed.
fn level_of(nets: &CaseNet, k: usize) -> Option<Terms> {
    if k < nets.size() && nets.is_live(k) {
        let level = nets.weight_limit(k).ratio();
        return Some((level.num(), level.den()));
    }
    None
}

fn has_levels(nets: &CaseNet, wanted: &[Option<Terms>]) -> bool {
    for (k, level) in wanted.iter().enumerate() {
        if level_of(nets, k) != *level {
            return false;
        }
    }
    nets.size() == wanted.len()
}

#[test]
fn removals_leave_these_levels(rt: HostRuntime) {
    for row in ROWS {
        let nets = after(&rt, rt.alloc(), row.case, row.removed);
        expect(&rt, has_levels(&nets, row.levels), row.case);
    }
}

/// Returns the number of nets and the size of the first, if they are of fractions.
fn plain_nets(nets: &CaseNet) -> Option<(usize, usize)> {
    match nets {
        CaseNet::Plain(bundle) if bundle.components() > 0 => {
            Some((bundle.components(), bundle.net(0).size()))
        }
        _ => None,
    }
}

#[test]
fn nets_are_of_fractions_or_in_epsilon(rt: HostRuntime) {
    for (text, plain) in &[
        (HOLM, Some((1, 3))),
        (SHARED, Some((2, 2))),
        (IMPROVED_GATEKEEPING, None),
    ] {
        let nets = opened(&rt, rt.alloc(), text);
        expect(&rt, plain_nets(&nets) == *plain, text);
    }
}

#[test]
fn a_removal_that_is_too_wide_changes_nothing(rt: HostRuntime) {
    let mut nets = after(&rt, rt.alloc(), CHAIN, &[0, 1]);
    let level = (1, 999_999_999_999_999_999_000_000_000_000_000_000);
    let levels = &[None, None, Some(level), Some((0, 1))];
    assert!(&rt; has_levels(&nets, levels));
    let wide = WideAt {
        component: 0,
        place: Place::Weight(3),
        op: Op::Mul,
    };
    assert!(&rt; remove(&rt, &mut nets, 2) == Err(wide));
    assert!(&rt; has_levels(&nets, levels));
}

/// Removes `j`, and puts it back.
fn remove_and_put_back(
    rt: &impl Abort,
    nets: &mut CaseNet,
    opened: &CaseNet,
    j: usize,
) -> Result<(), WideAt>
    requires { case_state nets.old ≡ case_state opened.now }
{
    assert!(rt; j < nets.size());
    assert!(rt; nets.is_live(j));
    nets.remove(j)?;
    assert!(rt; nets.size() == opened.size());
    nets.set_to(opened);
    Ok(())
}

#[test]
fn nets_are_set_to_others(rt: HostRuntime) {
    let case = case_of(&rt, rt.alloc(), HOLM);
    let (Ok(start), Ok(mut nets)) = (
        CaseNet::load(rt.alloc(), &case),
        CaseNet::load(rt.alloc(), &case),
    ) else {
        panic!(&rt; "not opened");
    };
    assert!(&rt; remove_and_put_back(&rt, &mut nets, &start, 1).is_ok());
    let levels = &[Some((1, 3)), Some((1, 3)), Some((1, 3))];
    assert!(&rt; has_levels(&nets, levels));
    assert!(&rt; remove(&rt, &mut nets, 0).is_ok());
    assert!(&rt; has_levels(&nets, &[None, Some((1, 2)), Some((1, 2))]));
}
