//! Evidence by hand, read and written again.
use crate::checking::cases::{
    FIXED, FIXED_EVIDENCE, GATEKEEPING, GATEKEEPING_EVIDENCE, case_of, expect,
};
use evidence::write;
use evidence_check::read;
use field_core::List;
use std::alloc::Global;
use std::process::Abort;

/// Two components of the same share, one of them with an edge in epsilon.
const ENTANGLED: &str = "alpha 0.05\nhypotheses H1 H2 H3\np 0.02 0.9 0.9\n\
    component 1/2\nweights 1 0 0\nedge H1 H2 1-\\epsilon\n\
    component 1/2\nweights 0 1 0\nedge H1 H3 1\n";

/// The components stand one after another after a step or a keep.
const ENTANGLED_EVIDENCE: &str =
    "evidence 2\nstep H1\nstep H3\nflow 1 H1 0\nflow 2 H1 [0,1]/[1]\nkeep H2\n\
    exit 1 H1 [1,-1]/[1]\nexit 1 H3 0\nexit 2 H1 0\nexit 2 H3 7\nend\n";

/// Blanks, comments and common factors, which aren't written again.
const SPACED: &str =
    "# all four\nevidence  2\n\nstep H1\n step H3\nflow 1 H1 2/4\nstep H4\r\nflow\t1 H1 [2]/[4,-2,0]\n\
    flow 1 H3 [1]/[4,-2]\nstep H2\nflow 1 H1 1\nflow 1 H3 [0,1]/[0,0,2]\nflow 1 H4 [1]/[0,2]\nend";

/// A number may have more digits than one of a case.
const VERSION_1: &str = "evidence 1\nstep H1\nstep H2\n\
    flow 1 H1 170141183460469231731687303715884105727/170141183460469231731687303715884105726\nend\n";

/// Cases and documents, each with its text when it is written.
const WRITTEN: &[(&str, &str, &str)] = &[
    (FIXED, FIXED_EVIDENCE, FIXED_EVIDENCE),
    (GATEKEEPING, SPACED, GATEKEEPING_EVIDENCE),
    (ENTANGLED, ENTANGLED_EVIDENCE, ENTANGLED_EVIDENCE),
    (FIXED, VERSION_1, VERSION_1),
];

/// Returns the text that is written of the evidence that a document denotes.
fn rewritten(rt: &impl Abort, alloc: Global, case: &str, document: &str) -> List<u8> {
    let case = case_of(rt, alloc, case);
    let Ok(proof) = read(alloc, &case, document.as_bytes()) else {
        panic!(rt; "no evidence");
    };
    let Ok(text) = write(alloc, &case, &proof) else {
        panic!(rt; "no text");
    };
    text
}

#[test]
fn what_documents_say_is_written(rt: HostRuntime) {
    for (case, document, wanted) in WRITTEN {
        let text = rewritten(&rt, rt.alloc(), case, document);
        expect(&rt, text.as_slice() == wanted.as_bytes(), wanted);
    }
}
