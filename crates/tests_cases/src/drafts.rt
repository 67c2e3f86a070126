//! Drafts that are refused, and why; drafts that make cases; and the index of names.
use crate::accepted::{ACCEPTED, SIXTY_FOUR, STAGED};
use crate::contents::expect_case;
use crate::draft_faults::{
    BARE_FOUR, BARE_TWO, EDGES, FOUR, LEVELS, NAMES, ORDER, P_VALUES, POSITIONS, SHARES, TOO_MANY,
    TWO, WEIGHTS,
};
use crate::lines::draft;
use crate::rows::expect;
use crate::stage_faults::STAGES;
use case_model::{Case, CaseFault, Draft, NameIndex, Refused};
use field_core::{List, Text};
use std::process::Abort;

fn finish(rt: &(impl Abort + AllocGlobal), draft: Draft) -> Result<Case, Refused> {
    assert!(rt; draft.has_known_ends());
    assert!(rt; draft.has_known_arrivals());
    draft.finish(rt.alloc())
}

// ---- refused drafts

/// Returns the fault for which a draft is refused, and asserts that the names of the draft are handed back.
fn fault(rt: &(impl Abort + AllocGlobal), draft: Draft, names: &[Text]) -> CaseFault {
    let refused = finish(rt, draft).err().expect(rt, "accepted");
    expect_names(rt, refused.names.as_slice(), names);
    refused.fault
}

fn expect_names(rt: &impl Abort, found: &[Text], wanted: &[Text]) {
    assert!(rt; found.len() == wanted.len());
    for (found, wanted) in found.iter().zip(wanted) {
        assert!(rt; found.as_bytes() == wanted.as_bytes());
    }
}

/// Asserts that each draft, of the first lines and those of a row, is refused for the fault of the row.
fn expect_refused(rt: &(impl Abort + AllocGlobal), first: &str, rows: &[(&str, CaseFault)]) {
    for row in rows {
        let (text, wanted) = row;
        let names = draft(rt, first, text).names;
        let found = fault(rt, draft(rt, first, text), names.as_slice());
        expect(rt, found == *wanted, text);
    }
}

#[test]
fn drafts_are_refused(rt: HostRuntime) {
    expect_refused(&rt, "", TOO_MANY);
    expect_refused(&rt, "", ORDER);
    expect_refused(&rt, TWO, LEVELS);
    expect_refused(&rt, TWO, P_VALUES);
    expect_refused(&rt, TWO, STAGES);
    expect_refused(&rt, BARE_TWO, SHARES);
    expect_refused(&rt, BARE_FOUR, WEIGHTS);
    expect_refused(&rt, FOUR, EDGES);
}

fn texts(rt: &(impl Abort + AllocGlobal), names: &[&str]) -> List<Text> {
    let mut list = List::new(rt.alloc());
    for name in names {
        let text = Text::copy(rt.alloc(), name.as_bytes()).expect(rt, "no memory");
        list.push(text).expect(rt, "no memory");
    }
    list
}

#[test]
fn names_are_refused(rt: HostRuntime) {
    for row in NAMES {
        let (names, wanted) = row;
        let mut draft = draft(&rt, TWO, "");
        draft.names = texts(&rt, names);
        let found = fault(&rt, draft, texts(&rt, names).as_slice());
        expect(&rt, found == *wanted, names);
    }
}

// ---- cases

/// Returns the case that lines denote, and asserts that it holds exactly what they denote.
fn made(rt: &(impl Abort + AllocGlobal), first: &str, text: &str) -> Case {
    let case = finish(rt, draft(rt, first, text)).ok().expect(rt, text);
    expect_case(rt, &case, &draft(rt, first, text));
    case
}

#[test]
fn cases_hold_what_their_drafts_say(rt: HostRuntime) {
    for row in ACCEPTED {
        let (text, is_plain) = row;
        let case = made(&rt, "", text);
        expect(&rt, case.is_plain() == *is_plain, row);
        expect_no_other(&rt, &case);
    }
}

fn expect_no_other(rt: &impl Abort, case: &Case) {
    for name in &["", "H", "H9", "H1 ", "c"] {
        assert!(rt; case.position(name.as_bytes()).is_none());
    }
}

#[test]
fn stages_hold_what_their_drafts_say(rt: HostRuntime) {
    for text in STAGED {
        made(&rt, TWO, text);
    }
}

#[test]
fn sixty_four_hypotheses_make_a_case(rt: HostRuntime) {
    assert!(rt; made(&rt, SIXTY_FOUR, "").size() == 64);
}

// ---- the index of names

#[test]
fn an_index_has_the_least_positions(rt: HostRuntime) {
    for row in POSITIONS {
        let (names, name, position) = row;
        let names = texts(&rt, names);
        let index = NameIndex::build(rt.alloc(), names.as_slice()).expect(&rt, "no memory");
        expect(&rt, index.position(name.as_bytes()) == *position, row);
    }
}
