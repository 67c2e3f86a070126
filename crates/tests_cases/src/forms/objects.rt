//! Small documents by hand: those with a fault and its path, and those that denote cases.
use crate::forms::checks::expect;
use crate::forms::object_cases::{CASES, WRITTEN};
use crate::forms::object_faults::{Kind, NOT_WHOLE, REFUSED, SHAPES, SYNTAX, UNKNOWN_NAMES};
use case_json::{JsonFault, read_json, write_json};
use field_core::List;
use std::alloc::Global;
use std::process::Abort;

/// Returns the path of a fault, empty if it has none.
fn path_of(fault: &JsonFault) -> &[u8] {
    match fault {
        JsonFault::Shape(path) => path.as_bytes(),
        JsonFault::NotWhole(path) => path.as_bytes(),
        JsonFault::Number(path, _) => path.as_bytes(),
        JsonFault::UnknownName(path) => path.as_bytes(),
        JsonFault::Expr(path, _) => path.as_bytes(),
        JsonFault::Syntax | JsonFault::Case(_) | JsonFault::NoMemory => b"",
    }
}

fn is_of_kind(fault: &JsonFault, kind: &Kind) -> bool {
    match (fault, kind) {
        (JsonFault::Syntax, Kind::Syntax) => true,
        (JsonFault::Shape(_), Kind::Shape) => true,
        (JsonFault::NotWhole(_), Kind::NotWhole) => true,
        (JsonFault::Number(_, why), Kind::Number(wanted)) => why == wanted,
        (JsonFault::UnknownName(_), Kind::UnknownName) => true,
        (JsonFault::Expr(_, why), Kind::Expr(wanted)) => why == wanted,
        (JsonFault::Case(refused), Kind::Draft(wanted)) => refused.fault == *wanted,
        _ => false,
    }
}

/// Whether the first fault of a document is of this kind, and at this path.
fn has_fault(alloc: Global, document: &[u8], path: &str, kind: &Kind) -> bool {
    match read_json(alloc, document) {
        Ok(_) => false,
        Err(fault) => is_of_kind(&fault, kind) && path_of(&fault) == path.as_bytes(),
    }
}

/// Asserts that each document has a fault of this kind, at its path.
fn expect_kind(rt: &impl Abort, alloc: Global, documents: &[(&str, &str)], kind: &Kind) {
    for (document, path) in documents {
        let holds = has_fault(alloc, document.as_bytes(), path, kind);
        expect(rt, holds, document);
    }
}

#[test]
fn bytes_and_values_are_refused(rt: HostRuntime) {
    expect_kind(&rt, rt.alloc(), SYNTAX, &Kind::Syntax);
    expect_kind(&rt, rt.alloc(), SHAPES, &Kind::Shape);
    expect_kind(&rt, rt.alloc(), NOT_WHOLE, &Kind::NotWhole);
    expect_kind(&rt, rt.alloc(), UNKNOWN_NAMES, &Kind::UnknownName);
}

/// Whether a text that isn't UTF-8 is refused.
#[test]
fn foreign_bytes_are_no_json(rt: HostRuntime) {
    let document = b"{\"alpha\":\"\xff\"}";
    assert!(rt; has_fault(rt.alloc(), document, "", &Kind::Syntax));
}

#[test]
fn numerals_expressions_and_drafts_are_refused(rt: HostRuntime) {
    for (document, path, kind) in REFUSED {
        let holds = has_fault(rt.alloc(), document.as_bytes(), path, kind);
        expect(&rt, holds, document);
    }
}

/// Whether a document denotes a case of a number of hypotheses and components.
fn says_case(alloc: Global, document: &str, size: usize, components: usize) -> bool {
    match read_json(alloc, document.as_bytes()) {
        Ok(case) => case.size() == size && case.components() == components,
        Err(_) => false,
    }
}

#[test]
fn documents_say_cases(rt: HostRuntime) {
    for (document, size, components) in CASES {
        let holds = says_case(rt.alloc(), document, *size, *components);
        expect(&rt, holds, document);
    }
}

/// Returns the JSON of the case that a document denotes.
fn rewritten(alloc: Global, document: &str) -> Option<List<u8>> {
    let case = read_json(alloc, document.as_bytes()).ok()?;
    write_json(alloc, &case).ok()
}

fn is_rewritten(alloc: Global, document: &str, written: &str) -> bool {
    match rewritten(alloc, document) {
        Some(again) => again.as_slice() == written.as_bytes(),
        None => false,
    }
}

#[test]
fn cases_are_written(rt: HostRuntime) {
    for (document, written) in WRITTEN {
        expect(&rt, is_rewritten(rt.alloc(), document, written), document);
    }
}
