//! Decisions by hand.
ghost use Rattle.std.specs.Prelude.{◌≡◌};
ghost use Rattle.std.specs.List.{list_all};
ghost use Rattle.case_model.specs.Draft.{is_p_value};

use crate::cases::{
    BARE_HOLM, CHAIN, EPSILON, FALLBACK, HOLM, IMPROVED_GATEKEEPING, NO_WEIGHT, Parts, SEQUENCE,
    TIE, WIDE_OPENING, case_of, expect,
};
use case_model::is_p_value;
use field_core::{Op, Place, WideAt};
use fraction::Fraction;
use sequential::{Decision, Priority, RunFault, StepLine, decide, decide_with, is_single};
use std::alloc::Global;
use std::process::Abort;
use std::test::Fail;

/// A hypothesis and its weight.
type Line = (usize, Parts);

/// A case, priorities that all decide it like this: the rejections in their order, and the hypotheses that are kept.
struct Row<'a> {
    case: &'a str,
    priorities: &'a [Priority],
    steps: &'a [Line],
    kept: &'a [Line],
}

const ALL: &[Priority] = &[Priority::First, Priority::Last, Priority::Ratio];

/// Two primary hypotheses and two secondary ones.
const GATEKEEPING: &str =
    "alpha 0.05\nhypotheses H1 H2 H3 H4\np 0.02 0.04 0.01 0.02\nweights 1/2 1/2 0 0\n\
    edge H1 H3 1/2\nedge H1 H4 1/2\nedge H2 H3 1/2\nedge H2 H4 1/2\nedge H3 H4 1\nedge H4 H3 1\n";

/// All three have the same ratio.
const EQUAL: &str = "alpha 0.05\nhypotheses H1 H2 H3\np 0.02 0.01 0.01\nweights 1/2 1/4 1/4\n";

/// The chain without its last edge.
const CHAIN_OF_TWO: &str = "alpha 0.05\nhypotheses H1 H2 H3 H4\np 0 0 0 0\nweights 1 0 0 0\n\
    edge H1 H2 1/1000000000000000000\nedge H2 H3 1/999999999999999999\n";

const ROWS: &[Row] = table! {
    // In more than one pass.
    Row { case: HOLM, priorities: ALL, steps: &[(1, (1, 3)), (0, (1, 2)), (2, (1, 1))], kept: &[] },
    // A p-value at the limit rejects.
    Row { case: TIE, priorities: ALL, steps: &[(0, (1, 2))], kept: &[(1, (1, 2))] },
    Row { case: GATEKEEPING, priorities: ALL, steps: &[(0, (1, 2)), (2, (1, 4)), (3, (1, 2))], kept: &[(1, (1, 2))] },
    // What the secondary ones pass back rejects the other primary one.
    Row { case: IMPROVED_GATEKEEPING, priorities: ALL, steps: &[(0, (1, 2)), (2, (1, 4)), (3, (1, 2)), (1, (1, 1))],
        kept: &[] },
    Row { case: EPSILON, priorities: ALL, steps: &[(0, (1, 1))], kept: &[(1, (1, 1)), (2, (0, 1))] },
    // Equal ratios go by position.
    Row { case: EQUAL, priorities: &[Priority::First, Priority::Ratio], steps: &[(0, (1, 2)), (1, (1, 4)), (2, (1, 4))],
        kept: &[] },
    Row { case: EQUAL, priorities: &[Priority::Last], steps: &[(2, (1, 4)), (1, (1, 4)), (0, (1, 2))], kept: &[] },
    Row { case: NO_WEIGHT, priorities: ALL, steps: &[], kept: &[(0, (1, 1)), (1, (0, 1))] },
    Row { case: FALLBACK, priorities: &[Priority::First], steps: &[(2, (1, 3))], kept: &[(0, (1, 3)), (1, (1, 3))] },
    Row { case: SEQUENCE, priorities: &[Priority::First], steps: &[(0, (1, 1))], kept: &[(1, (1, 1)), (2, (0, 1))] },
    Row { case: CHAIN_OF_TWO, priorities: &[Priority::First],
        steps: &[(0, (1, 1)), (1, (1, 1_000_000_000_000_000_000)), (2, (1, 999_999_999_999_999_999_000_000_000_000_000_000))],
        kept: &[(3, (0, 1))] },
};

fn decided(
    rt: &impl Abort,
    alloc: Global,
    text: &str,
    priority: Priority,
) -> Result<Decision, RunFault> {
    let case = case_of(rt, alloc, text);
    assert!(rt; is_single(&case));
    decide(alloc, &case, priority)
}

fn is_line(line: &StepLine, (hypothesis, (num, den)): Line) -> bool {
    let weight = line.weight.ratio();
    line.hypothesis == hypothesis && weight.num() == num && weight.den() == den
}

fn are_lines(lines: &[StepLine], wanted: &[Line]) -> bool {
    for (line, wanted) in lines.iter().zip(wanted) {
        if !is_line(line, *wanted) {
            return false;
        }
    }
    lines.len() == wanted.len()
}

/// Whether a decision is that of a row.
fn is_decided(decision: &Decision, row: &Row) -> bool {
    are_lines(decision.steps.as_slice(), row.steps) && are_lines(decision.kept.as_slice(), row.kept)
}

fn expect_row(rt: &impl Abort, alloc: Global, row: &Row) {
    for priority in row.priorities {
        let Ok(decision) = decided(rt, alloc, row.case, *priority) else {
            panic!(rt; "no decision");
        };
        expect(rt, is_decided(&decision, row), row.case);
    }
}

#[test]
fn decisions_by_hand(rt: HostRuntime) {
    for row in ROWS {
        expect_row(&rt, rt.alloc(), row);
    }
}

/// P-values in place of those of a case, and how the case is decided with them.
const WITH_OTHERS: &[(&[Parts], Row)] = table! {
    // Of 1/50, 1/100 and 1/40 the second is at most 0.05/3; then the others are at most 0.025.
    (&[(1, 50), (1, 100), (1, 40)],
     Row { case: BARE_HOLM, priorities: &[Priority::First, Priority::Ratio], steps: &[(1, (1, 3)), (0, (1, 2)), (2, (1, 1))],
       kept: &[] }),
    (&[(1, 50), (1, 100), (1, 40)],
     Row { case: BARE_HOLM, priorities: &[Priority::Last], steps: &[(1, (1, 3)), (2, (1, 2)), (0, (1, 1))], kept: &[] }),
    // Its own p-values would reject all three.
    (&[(1, 1), (0, 1), (1, 1)], Row { case: HOLM, priorities: ALL, steps: &[(1, (1, 3))], kept: &[(0, (1, 2)), (2, (1, 2))] }),
};

/// Returns fractions of these parts.
fn fractions(alloc: Global, parts: &[Parts]) -> Result<Vec<Fraction>, Fail> {
    let mut fractions = Vec::new(alloc);
    for (num, den) in parts {
        fractions.push(Fraction::new(*num, *den)?)?;
    }
    Ok(fractions)
}

/// Whether each fraction can be a p-value.
fn are_p_values(p: &[Fraction]) -> bool
    ensures { result ≡ list_all is_p_value p.now }
{
    p.iter().all(|p| is_p_value(p))
}

/// Returns the decision on a case with other p-values in place of its own.
fn decided_with(
    rt: &impl Abort,
    alloc: Global,
    text: &str,
    p: &[Fraction],
    priority: Priority,
) -> Result<Decision, RunFault> {
    let case = case_of(rt, alloc, text);
    assert!(rt; p.len() == case.size());
    assert!(rt; are_p_values(p));
    decide_with(alloc, &case, p, priority)
}

/// Whether a case is decided with other p-values, whether it has some or none.
#[test]
fn decisions_with_other_p_values(rt: HostRuntime) -> Result<(), Fail> {
    for (parts, row) in WITH_OTHERS {
        let p = fractions(rt.alloc(), parts)?;
        for priority in row.priorities {
            let Ok(decision) = decided_with(&rt, rt.alloc(), row.case, &p, *priority) else {
                panic!(&rt; "no decision");
            };
            expect(&rt, is_decided(&decision, row), row.case);
        }
    }
    Ok(())
}

/// Cases, each with the step, 0 for the opening, and the place and the operation at which it is too wide.
const WIDE: &[(&str, usize, Place, Op)] = &[
    (WIDE_OPENING, 0, Place::Edge(0, 1), Op::Add),
    (CHAIN, 3, Place::Weight(3), Op::Mul),
];

#[test]
fn a_run_that_is_too_wide_names_its_step(rt: HostRuntime) {
    for &(text, step, place, op) in WIDE {
        let wide = WideAt {
            component: 0,
            place,
            op,
        };
        let decision = decided(&rt, rt.alloc(), text, Priority::First);
        expect(
            &rt,
            decision.err() == Some(RunFault::Wide(step, wide)),
            text,
        );
    }
}
