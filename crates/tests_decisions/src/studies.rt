//! Events of studies in any order: the answer to each, and the state that it leaves.
ghost use Rattle.std.specs.Prelude.{◌≡◌, IfOk};
ghost use Rattle.staged_levels.specs.StudyAnswers.{hypothesis_of};

use crate::cases::{Parts, case_of};
use case_model::Case;
use field_core::{Op, Place, WideAt};
use fraction::{Fraction, FractionFault};
use staged_levels::{Event, SettleFault, Settled, StepFault, Study, is_staged};
use std::alloc::Global;
use std::process::Abort;
use std::test::Fail;

fn opened(rt: &impl Abort, alloc: Global, case: &Case) -> Study {
    assert!(rt; is_staged(case));
    match Study::open(alloc, case) {
        Ok(study) => study,
        Err(_) => panic!(rt; "not opened"),
    }
}

/// The p-values have arrived, both hypotheses pass on all to each other, and H1 may be rejected at stage 2. The arrivals of the
/// case itself don't count.
const TWO: &str = "alpha 0.05\nhypotheses H1 H2 H3\nweights 1/2 1/2 0\nedge H1 H2 1\nedge H2 H1 1\n\
    stages 2\nspend H1 1/2 1/2\nspend H2 1/2 1/2\nspend H3 1 0\narrive H2 1 0\n";

/// What is requested for a hypothesis: its arrival at a stage with a p-value, or its rejection.
#[derive(Clone, Copy)]
enum Asked {
    Arrive(usize, Parts),
    Reject,
}

/// A hypothesis, and what is requested for it.
type Given = (usize, Asked);

/// A rejection: the hypothesis, its stage and its weight.
type Rejection = (usize, usize, Parts);

/// Events one after another, and the answer to each.
const ROWS: &[(Given, Result<(), StepFault>)] = table! {
    // Nothing has arrived.
    ((0, Asked::Reject), Err(StepFault::NotLegal(0))),
    ((1, Asked::Reject), Err(StepFault::NotLegal(1))),
    ((0, Asked::Arrive(0, (1, 100))), Err(StepFault::StageRange(0))),
    ((0, Asked::Arrive(3, (1, 100))), Err(StepFault::StageRange(3))),
    ((0, Asked::Arrive(1, (-1, 100))), Err(StepFault::PRange)),
    ((0, Asked::Arrive(1, (101, 100))), Err(StepFault::PRange)),
    // The denominator of the p-value is above 10^30.
    ((0, Asked::Arrive(1, (1, 1_000_000_000_000_000_000_000_000_000_001))), Err(StepFault::PRange)),
    ((0, Asked::Arrive(1, (1, 50))), Ok(())),
    // The stage comes before what is known, and that before the p-value.
    ((0, Asked::Arrive(3, (2, 1))), Err(StepFault::StageRange(3))),
    ((0, Asked::Arrive(1, (2, 1))), Err(StepFault::Known(0, 1))),
    ((0, Asked::Arrive(1, (1, 50))), Err(StepFault::Known(0, 1))),
    // 1/50 is above 1/80.
    ((0, Asked::Reject), Err(StepFault::NotLegal(0))),
    ((1, Asked::Arrive(2, (1, 50))), Ok(())),
    ((1, Asked::Reject), Err(StepFault::NotLegal(1))),
    ((0, Asked::Arrive(2, (1, 80))), Ok(())),
    ((0, Asked::Reject), Ok(())),
    ((0, Asked::Reject), Err(StepFault::Rejected(0))),
    // H2 has the whole level now.
    ((1, Asked::Reject), Ok(())),
    // A p-value that arrives for a rejected hypothesis is kept.
    ((1, Asked::Arrive(1, (1, 1))), Ok(())),
    ((1, Asked::Arrive(1, (1, 1))), Err(StepFault::Known(1, 1))),
    // A weight of 0.
    ((2, Asked::Arrive(1, (0, 1))), Ok(())),
};

/// Returns the event of a row.
fn event(hypothesis: usize, asked: Asked) -> Result<Event, FractionFault>
    ensures { IfOk result (λ event. hypothesis_of event ≡ hypothesis) }
{
    match asked {
        Asked::Arrive(stage, p) => Ok(Event::Arrive(hypothesis, stage, Fraction::new(p.0, p.1)?)),
        Asked::Reject => Ok(Event::Reject(hypothesis)),
    }
}

/// Whether the rejections are of these hypotheses at these stages and weights.
fn are(settled: &[Settled], wanted: &[Rejection]) -> bool {
    settled.len() == wanted.len()
        && settled.iter().zip(wanted).all(|(line, (hypothesis, stage, weight))| {
            line.hypothesis == *hypothesis
                && line.stage == *stage
                && line.weight.ratio().num() == weight.0
                && line.weight.ratio().den() == weight.1
        })
}

#[test]
fn each_event_is_answered(rt: HostRuntime) -> Result<(), Fail> {
    let case = case_of(&rt, rt.alloc(), TWO);
    let mut study = opened(&rt, rt.alloc(), &case);
    for ((hypothesis, asked), wanted) in ROWS {
        let before = study.settled().len();
        assert!(rt; *hypothesis < study.size());
        assert!(rt; study.step(event(*hypothesis, *asked)?) == *wanted);
        let rejected = usize::from(matches!(asked, Asked::Reject) && wanted.is_ok());
        assert!(rt; before <= 3 && study.settled().len() == before + rejected);
    }
    assert!(rt; study.settle().is_ok());
    assert!(rt; are(study.settled(), &[(0, 2, (1, 2)), (1, 2, (1, 1))]));
    Ok(())
}

/// After the rejections of H1 to H3 the weight of H4 would be 1/10^18 times 1/999999999999999999 times 1/999999999999999997.
const TOO_WIDE: &str = "alpha 0.05\nhypotheses H1 H2 H3 H4\nweights 1 0 0 0\n\
    edge H1 H2 1/1000000000000000000\nedge H2 H3 1/999999999999999999\nedge H3 H4 1/999999999999999997\n\
    stages 1\nspend H1 1\nspend H2 1\nspend H3 1\nspend H4 1\n";

#[test]
fn rejections_stay_where_a_settling_breaks_off(rt: HostRuntime) -> Result<(), Fail> {
    let case = case_of(&rt, rt.alloc(), TOO_WIDE);
    let mut study = opened(&rt, rt.alloc(), &case);
    for hypothesis in 0..3 {
        assert!(rt; hypothesis < study.size());
        assert!(rt;
            study
                .step(event(hypothesis, Asked::Arrive(1, (0, 1)))?)
                .is_ok()
        );
    }
    let wide = WideAt {
        component: 0,
        place: Place::Weight(3),
        op: Op::Mul,
    };
    // H1 passes on its whole weight times 1/10^18.
    let left = [(0, 1, (1, 1)), (1, 1, (1, 1_000_000_000_000_000_000))];
    assert!(rt; study.settle() == Err(SettleFault::Wide(wide)));
    assert!(rt; are(study.settled(), &left));
    // A request for this rejection is refused too, and nothing changes.
    assert!(rt; 2 < study.size());
    assert!(rt; study.step(Event::Reject(2)) == Err(StepFault::Wide(wide)));
    assert!(rt; are(study.settled(), &left));
    Ok(())
}
