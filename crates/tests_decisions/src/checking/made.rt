//! Evidence by hand, made of decisions.
ghost use Rattle.std.specs.Prelude.{IfOk};
ghost use Rattle.case_model.specs.CaseView.{content};
ghost use Rattle.evidence_check.specs.EvidenceView.{IsEvidenceFor};

use crate::checking::cases::{
    FIXED, FIXED_EVIDENCE, GATEKEEPING, GATEKEEPING_EVIDENCE, case_of, expect,
};
use case_model::Case;
use evidence::laws::decisions_are_complete_orders;
use evidence::{make, write};
use evidence_check::{Evidence, Verdict, check};
use field_core::{Op, Place, WideAt};
use sequential::{Priority, RunFault, decide, is_single};
use std::alloc::Global;
use std::process::Abort;

/// Two components of the same share, one of them with an edge in epsilon.
const ENTANGLED: &str = "alpha 0.05\nhypotheses H1 H2 H3\np 0.02 0.04 0.9\n\
    component 1/2\nweights 1 0 0\nedge H1 H2 1-\\epsilon\nedge H2 H3 1/2\n\
    component 1/2\nweights 0 1 0\nedge H1 H3 1\n";

const ENTANGLED_EVIDENCE: &str =
    "evidence 2\nstep H1\nstep H2\nflow 1 H1 1\nflow 2 H1 0\nkeep H3\nexit 1 H1 [1,-1]/[2]\n\
    exit 1 H2 1/2\nexit 2 H1 1\nexit 2 H2 0\nend\n";

/// No hypothesis is rejected.
const KEPT: &str = "alpha 0.05\nhypotheses H1 H2\np 0.5 0.5\nweights 1/2 1/2\n\
    edge H1 H2 1\n";

const KEPT_EVIDENCE: &str = "evidence 2\nkeep H1\nkeep H2\nend\n";

/// Cases, each with the evidence for the decision on it.
const MADE: &[(&str, &str)] = &[
    (GATEKEEPING, GATEKEEPING_EVIDENCE),
    (FIXED, FIXED_EVIDENCE),
    (ENTANGLED, ENTANGLED_EVIDENCE),
    (KEPT, KEPT_EVIDENCE),
];

/// Returns the evidence for the decision on a case.
fn made(rt: &impl Abort, alloc: Global, case: &Case) -> Result<Evidence, RunFault>
    ensures { IfOk result (IsEvidenceFor (content case.now)) }
{
    assert!(rt; is_single(case));
    let Ok(decision) = decide(alloc, case, Priority::First) else {
        panic!(rt; "no decision");
    };
    decisions_are_complete_orders();
    make(alloc, case, &decision)
}

/// Asserts that the evidence for the decision on a case has this text, and the checker accepts it.
fn expect_made(rt: &impl Abort, alloc: Global, case: &str, wanted: &str) {
    let case = case_of(rt, alloc, case);
    let Ok(proof) = made(rt, alloc, &case) else {
        panic!(rt; "no evidence");
    };
    let Ok(text) = write(alloc, &case, &proof) else {
        panic!(rt; "no text");
    };
    expect(rt, text.as_slice() == wanted.as_bytes(), wanted);
    assert!(rt; is_single(&case));
    expect(rt, check(&case, &proof) == Ok(Verdict::Yes), wanted);
}

#[test]
fn evidence_is_that_of_the_run(rt: HostRuntime) {
    for (case, wanted) in MADE {
        expect_made(&rt, rt.alloc(), case, wanted);
    }
}

/// No weight is passed on, but what H4 sends through H1, at once and by way of H2, has a denominator near 10^54.
const LONG: &str = "alpha 0.05\nhypotheses H1 H2 H3 H4\np 0 0 0 1\nweights 1/3 1/3 1/3 0\n\
    edge H4 H1 1/1000000000000000000\nedge H4 H2 1/999999999999999999\nedge H2 H1 1/999999999999999997\n";

#[test]
fn long_visits_are_too_wide(rt: HostRuntime) {
    let proof = made(&rt, rt.alloc(), &case_of(&rt, rt.alloc(), LONG));
    let wide = WideAt {
        component: 0,
        place: Place::Visit(3, 0),
        op: Op::Add,
    };
    assert!(&rt; proof.err() == Some(RunFault::Wide(2, wide)));
}
