//! Sets of hypotheses as numbers, and answers for each of them.
use case_model::{SetTable, added, dropped, holds};

#[test]
#[tactic(auto, unfolding(field_core::specs::NumberedSets::members))]
fn members_are_bits(rt: HostRuntime) {
    assert!(rt; holds(5, 0) && !holds(5, 1) && holds(5, 2) && !holds(5, 15));
    assert!(rt; dropped(5, 2) == 1);
    assert!(rt; added(5, 1) == 7 && added(5, 15) == 32773);
}

#[test]
fn answers_are_kept(rt: HostRuntime) {
    let mut table = SetTable::new(rt.alloc(), 3).expect(&rt, "no memory");
    assert!(rt; table.size() == 3);
    assert!(rt; !table.get(0) && !table.get(5) && !table.get(7));
    table.put(5, true);
    table.put(7, true);
    assert!(rt; !table.get(0) && table.get(5) && !table.get(6) && table.get(7));
    table.put(7, false);
    assert!(rt; table.get(5) && !table.get(7));
}

#[test]
fn there_are_sixteen_hypotheses_at_most(rt: HostRuntime) {
    let mut table = SetTable::new(rt.alloc(), 16).expect(&rt, "no memory");
    assert!(rt; table.size() == 16);
    table.put(65535, true);
    assert!(rt; table.get(65535) && !table.get(65534) && !table.get(0));
}

#[test]
fn no_hypothesis_has_one_set(rt: HostRuntime) {
    let mut table = SetTable::new(rt.alloc(), 0).expect(&rt, "no memory");
    assert!(rt; table.size() == 0 && !table.get(0));
    table.put(0, true);
    assert!(rt; table.get(0));
}
