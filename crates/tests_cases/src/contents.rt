//! The contents of cases: exactly what their drafts hold.
ghost use Rattle.std.specs.Prelude.{◌≡◌, length};

use crate::lines::entry;
use case_model::{
    Arrival, Case, Draft, DraftComponent, DraftEdge, DraftStages, Entry, Inputs, Spend, SpendStep,
    Stages,
};
use field_core::Text;
use fraction::Fraction;
use std::process::Abort;

pub fn expect_case(rt: &(impl Abort + AllocGlobal), case: &Case, draft: &Draft) {
    expect_names(rt, case, draft.names.as_slice());
    assert!(rt; case.alpha() == draft.alpha);
    assert!(rt; case.components() == draft.components.len());
    for (c, component) in draft.components.iter().enumerate() {
        expect_component(rt, case, c, component);
    }
    expect_inputs(rt, case, draft);
}

/// Asserts that a case has the names at their positions.
fn expect_names(rt: &impl Abort, case: &Case, names: &[Text]) {
    assert!(rt; case.size() == names.len());
    for (i, name) in names.iter().enumerate() {
        assert!(rt; i < case.size());
        assert!(rt; case.name(i) == name.as_bytes());
        assert!(rt; case.position(name.as_bytes()) == Some(i));
    }
}

// ---- components

fn expect_component(rt: &impl Abort, case: &Case, c: usize, draft: &DraftComponent) {
    assert!(rt; c < case.components());
    assert!(rt; case.share(c) == draft.share);
    assert!(rt; case.size() == draft.weights.len());
    for (i, weight) in draft.weights.iter().enumerate() {
        assert!(rt; i < case.size());
        assert!(rt; case.weight(c, i) == *weight);
    }
    expect_edges(rt, case, c, draft.edges.as_slice());
}

/// Asserts that the whole table of edges, row by row, holds what is read edge by edge, and the listed entries.
fn expect_edges(rt: &impl Abort, case: &Case, c: usize, edges: &[DraftEdge]) {
    let size = case.size();
    assert!(rt; c < case.components());
    assert!(rt; case.edges(c).len() == size * size);
    for (k, entry) in case.edges(c).iter().enumerate() {
        let (from, to) = (k / size, k % size);
        assert!(rt; from < size);
        assert!(rt; case.edge(c, from, to) == entry);
        assert!(rt; *entry == listed(rt, edges, from, to));
    }
}

/// Returns the entry of the edge with these ends, 0 if it isn't listed.
fn listed(rt: &impl Abort, edges: &[DraftEdge], from: usize, to: usize) -> Entry {
    for edge in edges {
        if edge.from == from && edge.to == to {
            return edge.entry;
        }
    }
    entry(rt, &[])
}

// ---- p-values

fn expect_inputs(rt: &(impl Abort + AllocGlobal), case: &Case, draft: &Draft) {
    match (case.inputs(), &draft.stages) {
        (Inputs::Bare, None) => expect_missing(rt, draft.p.as_slice()),
        (Inputs::Single(p), None) => expect_p_values(rt, p.as_slice(), draft.p.as_slice()),
        (Inputs::Staged(found), Some(stages)) => expect_stages(rt, case.size(), found, stages),
        _ => panic!(rt; "other inputs"),
    }
}

fn expect_missing(rt: &impl Abort, p: &[Option<Fraction>]) {
    for p in p {
        assert!(rt; p.is_none());
    }
}

fn expect_p_values(rt: &impl Abort, found: &[Fraction], p: &[Option<Fraction>]) {
    assert!(rt; found.len() == p.len());
    for (found, p) in found.iter().zip(p) {
        assert!(rt; Some(*found) == *p);
    }
}

// ---- stages

/// Asserts that a case has the stages of a draft, and that a copy of what each hypothesis spends equals it.
fn expect_stages(rt: &(impl Abort + AllocGlobal), size: usize, found: &Stages, draft: &DraftStages)
    requires { length found.now.spend ≡ size }
{
    assert!(rt; found.count() as u64 == draft.count);
    assert!(rt; draft.spend.len() == size);
    expect_arrivals(rt, found.arrivals(), draft.arrivals.as_slice());
    for i in 0..size {
        let copy = found.spend(i).copy(rt.alloc()).expect(rt, "no memory");
        expect_spend(rt, found.spend(i), &draft.spend.as_slice()[i]);
        expect_spend(rt, &copy, &draft.spend.as_slice()[i]);
    }
}

fn expect_arrivals(rt: &impl Abort, found: &[Arrival], wanted: &[Arrival]) {
    assert!(rt; found.len() == wanted.len());
    for (found, wanted) in found.iter().zip(wanted) {
        assert!(rt; found.hypothesis == wanted.hypothesis);
        assert!(rt; found.stage == wanted.stage);
        assert!(rt; found.p == wanted.p);
    }
}

fn expect_spend(rt: &impl Abort, found: &Spend, wanted: &Spend) {
    match (found, wanted) {
        (Spend::Shares(found), Spend::Shares(wanted)) => {
            assert!(rt; found.as_slice() == wanted.as_slice());
        }
        (Spend::Table(found), Spend::Table(wanted)) => {
            expect_steps(rt, found.as_slice(), wanted.as_slice());
        }
        _ => panic!(rt; "another kind"),
    }
}

fn expect_steps(rt: &impl Abort, found: &[SpendStep], wanted: &[SpendStep]) {
    assert!(rt; found.len() == wanted.len());
    for (found, wanted) in found.iter().zip(wanted) {
        assert!(rt; found.from == wanted.from);
        assert!(rt; found.levels.as_slice() == wanted.levels.as_slice());
    }
}
