//! Documents by hand, read and checked.
use crate::cases::CHAIN;
use crate::checking::cases::{
    FIXED, FIXED_EVIDENCE, GATEKEEPING, GATEKEEPING_EVIDENCE, case_of, expect,
};
use crate::checking::documents::{CHECKED, LONG_EVIDENCE, LONG_IS_WIDE, REFUSED, REPEATED_STEP};
use eps_quotient::EpsQuotient;
use evidence_check::{
    CheckWide, Evidence, KeepProof, ProofKind, ProofStep, ProofText, Reason, Verdict, check,
    is_of_case, read,
};
use field_core::{List, Number};
use fraction::Fraction;
use sequential::is_single;
use std::alloc::Global;
use std::process::Abort;

const FIRST_STEP: &[u8] = b"evidence 1\nstep H1\nend";

/// Returns the answer of the checker to a document, if the document can be read.
fn checked(
    rt: &impl Abort,
    alloc: Global,
    case: &str,
    document: &str,
) -> Option<Result<Verdict, CheckWide>> {
    let case = case_of(rt, alloc, case);
    let Ok(proof) = read(alloc, &case, document.as_bytes()) else {
        return None;
    };
    assert!(rt; is_single(&case));
    assert!(rt; is_of_case(&case, &proof));
    Some(check(&case, &proof))
}

#[test]
fn documents_are_accepted_or_not(rt: HostRuntime) {
    for (case, document, verdict) in CHECKED {
        let answer = checked(&rt, rt.alloc(), case, document);
        expect(&rt, answer == Some(Ok(*verdict)), document);
    }
}

#[test]
fn long_products_are_too_wide(rt: HostRuntime) {
    let answer = checked(&rt, rt.alloc(), CHAIN, LONG_EVIDENCE);
    assert!(&rt; answer == Some(Err(LONG_IS_WIDE)));
}

/// Returns the number of the first line that isn't allowed, and what is wrong with it.
fn refused(
    rt: &impl Abort,
    alloc: Global,
    case: &str,
    document: &str,
) -> Option<(usize, ProofKind)> {
    match read(alloc, &case_of(rt, alloc, case), document.as_bytes()) {
        Err(ProofText::Line(number, kind)) => Some((number, kind)),
        _ => None,
    }
}

#[test]
fn documents_are_refused(rt: HostRuntime) {
    for &(document, number, kind) in REFUSED {
        let found = refused(&rt, rt.alloc(), FIXED, document);
        expect(&rt, found == Some((number, kind)), document);
    }
    let found = refused(&rt, rt.alloc(), GATEKEEPING, REPEATED_STEP);
    assert!(&rt; found == Some((12, ProofKind::Unexpected)));
}

/// Whether the flows of the third step are read.
#[test]
fn documents_say_flows(rt: HostRuntime) {
    let case = case_of(&rt, rt.alloc(), GATEKEEPING);
    let Ok(Evidence::Eps(proof)) = read(rt.alloc(), &case, GATEKEEPING_EVIDENCE.as_bytes()) else {
        panic!(&rt; "no evidence in quotients");
    };
    assert!(&rt; proof.version == 2 && proof.keeps.is_empty());
    let [_, _, step, _] = proof.steps.as_slice() else {
        panic!(&rt; "not four steps");
    };
    assert!(&rt; step.hypothesis == 3);
    let [flows] = step.flows.as_slice() else {
        panic!(&rt; "not one component");
    };
    let [first, third] = flows.as_slice() else {
        panic!(&rt; "not two flows");
    };
    assert!(&rt; EpsQuotient::read(b"[1]/[2,-1]") == Some(*first));
    assert!(&rt; EpsQuotient::read(b"[1]/[4,-2]") == Some(*third));
}

/// Whether the exits of both kept hypotheses are read.
#[test]
fn documents_say_exits(rt: HostRuntime) {
    let case = case_of(&rt, rt.alloc(), FIXED);
    let Ok(Evidence::Plain(proof)) = read(rt.alloc(), &case, FIXED_EVIDENCE.as_bytes()) else {
        panic!(&rt; "no evidence in fractions");
    };
    let ([step], [second, third]) = (proof.steps.as_slice(), proof.keeps.as_slice()) else {
        panic!(&rt; "not a step and two keeps");
    };
    assert!(&rt; (step.hypothesis, second.hypothesis, third.hypothesis) == (0, 1, 2));
    let ([flows], [second], [third]) = (
        step.flows.as_slice(),
        second.exits.as_slice(),
        third.exits.as_slice(),
    ) else {
        panic!(&rt; "not one component");
    };
    assert!(&rt; flows.is_empty());
    assert!(&rt; second.as_slice() == [Fraction::one()].as_slice());
    assert!(&rt; third.as_slice() == [Fraction::zero()].as_slice());
}

/// Whether evidence is of its case, but of no case of another form or with fewer hypotheses.
#[test]
fn evidence_is_of_its_case(rt: HostRuntime) {
    let fixed = case_of(&rt, rt.alloc(), FIXED);
    let Ok(proof) = read(rt.alloc(), &fixed, FIXED_EVIDENCE.as_bytes()) else {
        panic!(&rt; "no evidence");
    };
    assert!(&rt; is_of_case(&fixed, &proof));
    assert!(&rt; !is_of_case(&case_of(&rt, rt.alloc(), GATEKEEPING), &proof));
    let one = "alpha 0.05\nhypotheses H1\np 0.5\nweights 1\n";
    assert!(&rt; !is_of_case(&case_of(&rt, rt.alloc(), one), &proof));
}

/// Returns the answer of the checker to a step of H1 and a keep of a hypothesis without an exit.
fn kept_without_exit(
    rt: &impl Abort,
    alloc: Global,
    hypothesis: usize,
) -> Result<Verdict, CheckWide> {
    let case = case_of(rt, alloc, FIXED);
    let Ok(Evidence::Plain(mut proof)) = read(alloc, &case, FIRST_STEP) else {
        panic!(rt; "no evidence in fractions");
    };
    let exits = List::new(alloc);
    let Ok(()) = proof.keeps.push(KeepProof { hypothesis, exits }) else {
        panic!(rt; "no memory");
    };
    let proof = Evidence::Plain(proof);
    assert!(rt; is_single(&case));
    assert!(rt; is_of_case(&case, &proof));
    check(&case, &proof)
}

/// Returns the answer of the checker to a step of H1 and a step of H3 without a flow.
fn listed_without_flow(rt: &impl Abort, alloc: Global) -> Result<Verdict, CheckWide> {
    let case = case_of(rt, alloc, GATEKEEPING);
    let Ok(Evidence::Eps(mut proof)) = read(alloc, &case, FIRST_STEP) else {
        panic!(rt; "no evidence in quotients");
    };
    let flows = List::new(alloc);
    let third = ProofStep {
        hypothesis: 2,
        flows,
    };
    let Ok(()) = proof.steps.push(third) else {
        panic!(rt; "no memory");
    };
    let proof = Evidence::Eps(proof);
    assert!(rt; is_single(&case));
    assert!(rt; is_of_case(&case, &proof));
    check(&case, &proof)
}

/// Whether a flow or an exit past the end of its list counts as 0. H1 passes all to H2 and nothing to H3, so that 0 is an exit of
/// H3 and is too little for H2. In the other case H3 has no level without the flow.
#[test]
fn missing_numbers_are_zero(rt: HostRuntime) {
    assert!(&rt; kept_without_exit(&rt, rt.alloc(), 2) == Ok(Verdict::Yes));
    let second = kept_without_exit(&rt, rt.alloc(), 1);
    assert!(&rt; second == Ok(Verdict::No(2, Reason::ShortExit(0, 0))));
    let third = listed_without_flow(&rt, rt.alloc());
    assert!(&rt; third == Ok(Verdict::No(2, Reason::NoLevel)));
}
