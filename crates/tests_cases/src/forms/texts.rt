//! Texts by hand: those with a line that isn't allowed, those whose drafts are refused, and those that denote cases.
ghost use Rattle.std.specs.Prelude.{◌<◌};

use crate::forms::checks::{Terms, expect, has_coefficients, has_terms, have_terms};
use crate::forms::text_cases::{
    CASES, Edge, Held, HeldComponent, HeldSpend, HeldStages, SINGLE, SPELLINGS, STAGED,
};
use crate::forms::text_drafts::{REFUSED, RefusedText};
use crate::forms::text_faults::{
    ENDED, EXPRESSIONS, Faulty, NUMBERS, ORDER, UNEXPECTED, UNKNOWN_NAMES, WHOLE, WORD_COUNTS,
};
use case_model::{Arrival, Case, DraftStages, Entry, Inputs, Refused, Spend, SpendStep};
use edge_text::{LineKind, TextFault, draft, read_text};
use field_core::Text;
use std::alloc::Global;
use std::process::Abort;

// ---- lines that aren't allowed

/// Whether the first line that isn't allowed is that of this number, for this kind of fault.
fn has_fault(alloc: Global, text: &str, number: usize, kind: LineKind) -> bool {
    match read_text(alloc, text.as_bytes()) {
        Err(TextFault::Line(line, found)) => line == number && found == kind,
        _ => false,
    }
}

/// Asserts that each text has a fault of this kind, in the line of its number.
fn expect_kind(rt: &impl Abort, alloc: Global, texts: &[(&str, usize)], kind: LineKind) {
    for (text, number) in texts {
        expect(rt, has_fault(alloc, text, *number, kind), text);
    }
}

#[test]
fn lines_are_refused(rt: HostRuntime) {
    expect_kind(&rt, rt.alloc(), UNEXPECTED, LineKind::Unexpected);
    expect_kind(&rt, rt.alloc(), ENDED, LineKind::Ended);
    expect_kind(&rt, rt.alloc(), WORD_COUNTS, LineKind::WordCount);
    expect_kind(&rt, rt.alloc(), UNKNOWN_NAMES, LineKind::UnknownName);
    expect_kind(&rt, rt.alloc(), WHOLE, LineKind::Whole);
}

/// Asserts that each text has the fault of its row.
fn expect_faults(rt: &impl Abort, alloc: Global, rows: &[Faulty]) {
    for (text, number, kind) in rows {
        expect(rt, has_fault(alloc, text, *number, *kind), text);
    }
}

#[test]
fn words_are_refused(rt: HostRuntime) {
    expect_faults(&rt, rt.alloc(), NUMBERS);
    expect_faults(&rt, rt.alloc(), EXPRESSIONS);
}

#[test]
fn the_first_fault_counts(rt: HostRuntime) {
    expect_faults(&rt, rt.alloc(), ORDER);
}

// ---- drafts that are refused

/// Whether the names are these.
fn are_named(names: &[Text], wanted: &[&str]) -> bool {
    for (name, wanted) in names.iter().zip(wanted) {
        if name.as_bytes() != wanted.as_bytes() {
            return false;
        }
    }
    names.len() == wanted.len()
}

/// Whether each line is allowed, and the draft is refused for its fault, with its names.
fn is_refused(alloc: Global, row: &RefusedText) -> bool {
    match read_text(alloc, row.text.as_bytes()) {
        Err(TextFault::Case(Refused { names, fault })) => {
            fault == row.fault && are_named(names.as_slice(), row.names)
        }
        _ => false,
    }
}

#[test]
fn drafts_are_refused(rt: HostRuntime) {
    for row in REFUSED {
        expect(&rt, is_refused(rt.alloc(), row), row.text);
    }
}

// ---- cases

/// Returns the coefficients that are listed for an edge, none if it isn't listed.
fn listed(edges: &[Edge], from: usize, to: usize) -> &[Terms] {
    for (start, end, weight) in edges {
        if *start == from && *end == to {
            return weight;
        }
    }
    &[]
}

/// Whether the edges of a number of hypotheses, row by row, are those that are listed, and 0 elsewhere.
fn are_edges(size: usize, entries: &[Entry], edges: &[Edge]) -> bool
    requires { 0 < size }
{
    for (place, entry) in entries.iter().enumerate() {
        if !has_coefficients(entry, listed(edges, place / size, place % size)) {
            return false;
        }
    }
    true
}

/// Whether a component of a case holds this.
fn has_component(case: &Case, component: usize, held: &HeldComponent) -> bool {
    component < case.components()
        && has_terms(&case.share(component), held.share)
        && have_terms(case.weights(component), held.weights)
        && are_edges(case.size(), case.edges(component), held.edges)
}

/// Whether these are the components of a case, in their order.
fn has_components(case: &Case, components: &[HeldComponent]) -> bool {
    for (place, held) in components.iter().enumerate() {
        if !has_component(case, place, held) {
            return false;
        }
    }
    case.components() == components.len()
}

/// Whether the inputs are exactly these p-values, of no stages; if there are none, `p` is empty.
fn are_p_values(inputs: &Inputs, p: &[Terms]) -> bool {
    match inputs {
        Inputs::Bare => p.is_empty(),
        Inputs::Single(found) => have_terms(found.as_slice(), p),
        Inputs::Staged(_) => false,
    }
}

/// Whether a text denotes the case that holds exactly this.
fn says_case(alloc: Global, text: &str, held: &Held) -> bool {
    match read_text(alloc, text.as_bytes()) {
        Ok(case) => {
            has_terms(&case.alpha(), held.alpha)
                && are_named(case.names(), held.names)
                && are_p_values(case.inputs(), held.p)
                && has_components(&case, held.components)
        }
        Err(_) => false,
    }
}

#[test]
fn spellings_say_one_case(rt: HostRuntime) {
    for text in SPELLINGS {
        expect(&rt, says_case(rt.alloc(), text, &SINGLE), text);
    }
}

#[test]
fn texts_say_cases(rt: HostRuntime) {
    for (text, held) in CASES {
        expect(&rt, says_case(rt.alloc(), text, held), text);
    }
}

// ---- stages

/// Whether these are the steps, in their order.
fn are_steps(steps: &[SpendStep], wanted: &[(Terms, &[Terms])]) -> bool {
    for (step, (from, levels)) in steps.iter().zip(wanted) {
        if !has_terms(&step.from, *from) || !have_terms(step.levels.as_slice(), levels) {
            return false;
        }
    }
    steps.len() == wanted.len()
}

fn is_spend(spend: &Spend, wanted: &HeldSpend) -> bool {
    match (spend, wanted) {
        (Spend::Shares(shares), HeldSpend::Shares(wanted)) => have_terms(shares.as_slice(), wanted),
        (Spend::Table(steps), HeldSpend::Table(wanted)) => are_steps(steps.as_slice(), wanted),
        _ => false,
    }
}

/// Whether this is what the hypotheses spend, in their order.
fn are_spends(spends: &[Spend], wanted: &[HeldSpend]) -> bool {
    for (spend, wanted) in spends.iter().zip(wanted) {
        if !is_spend(spend, wanted) {
            return false;
        }
    }
    spends.len() == wanted.len()
}

fn is_arrival(arrival: &Arrival, (hypothesis, stage, p): (usize, usize, Terms)) -> bool {
    arrival.hypothesis == hypothesis && arrival.stage == stage && has_terms(&arrival.p, p)
}

/// Whether these are the arrivals, in their order.
fn are_arrivals(arrivals: &[Arrival], wanted: &[(usize, usize, Terms)]) -> bool {
    for (arrival, wanted) in arrivals.iter().zip(wanted) {
        if !is_arrival(arrival, *wanted) {
            return false;
        }
    }
    arrivals.len() == wanted.len()
}

/// Whether the stages of a draft hold exactly this.
fn are_stages(stages: &DraftStages, held: &HeldStages) -> bool {
    stages.count == held.count
        && are_spends(stages.spend.as_slice(), held.spend)
        && are_arrivals(stages.arrivals.as_slice(), held.arrivals)
}

/// Whether a text denotes a draft of these stages.
fn says_stages(alloc: Global, text: &str, held: &HeldStages) -> bool {
    match draft(alloc, text.as_bytes()) {
        Ok(draft) => match &draft.stages {
            Some(stages) => are_stages(stages, held),
            None => false,
        },
        Err(_) => false,
    }
}

#[test]
fn texts_say_stages(rt: HostRuntime) {
    for (text, held) in STAGED {
        expect(&rt, says_stages(rt.alloc(), text, held), text);
    }
}
