//! Reports written by hand.
ghost use Rattle.std.specs.Prelude.{◌≡◌, true, None, IfOk};
ghost use Rattle.case_model.specs.Draft.{have_known_ends, have_known_arrivals};

use adjusted_p::Adjusted;
use case_model::{Case, Draft, DraftComponent, SetTable};
use discovery_bound::Bounds;
use evidence_check::read;
use field_core::{List, NoMemory, Number, Text};
use fraction::{Fraction, FractionFault};
use graph_io::Look;
use report::{check_text, opened_text, put_refused, put_shown, put_taken, simes_text, test_text};
use sequential::{Decision, StepLine};
use staged_levels::{Settled, StepFault};
use std::alloc::Global;
use std::process::Abort;
use std::test::Fail;

type Terms = (i128, i128);

/// A level, hypotheses with their p-values, the lines of a decision, the adjusted values, each with whether it is reached,
/// and what is printed.
#[derive(Clone, Copy)]
struct Row {
    alpha: Terms,
    hypotheses: &'static [(&'static str, Terms)],
    steps: &'static [(usize, Terms)],
    kept: &'static [(usize, Terms)],
    adjusted: &'static [(Terms, bool)],
    text: &'static str,
}

/// All hypotheses are rejected, in another order than their own.
const ALL_REJECTED: Row = Row {
    alpha: (1, 40),
    hypotheses: &[("H1", (1, 100)), ("H2", (1, 200)), ("H3", (1, 50))],
    steps: &[(1, (1, 3)), (0, (1, 2)), (2, (1, 1))],
    kept: &[],
    adjusted: &[((1, 50), true), ((3, 200), true), ((1, 50), true)],
    text: "alpha 1/40\nstep 1 H2 p 1/200 weight 1/3\nstep 2 H1 p 1/100 weight 1/2\nstep 3 H3 p 1/50 weight 1\n\
        rejected H1 H2 H3\nadjusted H1 1/50\nadjusted H2 3/200\nadjusted H3 1/50\nend\n",
};

const ONE_OF_TWO: Row = Row {
    alpha: (1, 20),
    hypotheses: &[("H1", (1, 40)), ("H2", (13, 500))],
    steps: &[(0, (1, 2))],
    kept: &[(1, (1, 2))],
    adjusted: &[((1, 20), true), ((13, 250), true)],
    text: "alpha 1/20\nstep 1 H1 p 1/40 weight 1/2\nkept H2 p 13/500 weight 1/2\n\
        rejected H1\nadjusted H1 1/20\nadjusted H2 13/250\nend\n",
};

const ROWS: &[Row] = table! {
    ALL_REJECTED,
    // None is rejected.
    Row { alpha: (1, 20), hypotheses: &[("H1", (1, 1))], steps: &[], kept: &[(0, (1, 1))], adjusted: &[((1, 1), true)],
        text: "alpha 1/20\nkept H1 p 1 weight 1\nrejected\nadjusted H1 1\nend\n" },
    ONE_OF_TWO,
    // The retained hypothesis is between the others.
    Row { alpha: (1, 20), hypotheses: &[("H1", (1, 50)), ("H2", (1, 25)), ("H3", (1, 100)), ("H4", (1, 50))],
        steps: &[(0, (1, 2)), (2, (1, 4)), (3, (1, 2))], kept: &[(1, (1, 2))],
        adjusted: &[((1, 25), true), ((2, 25), true), ((1, 25), true), ((1, 25), true)],
        text: "alpha 1/20\nstep 1 H1 p 1/50 weight 1/2\nstep 2 H3 p 1/100 weight 1/4\nstep 3 H4 p 1/50 weight 1/2\n\
            kept H2 p 1/25 weight 1/2\nrejected H1 H3 H4\n\
            adjusted H1 1/25\nadjusted H2 2/25\nadjusted H3 1/25\nadjusted H4 1/25\nend\n" },
    // Two are kept, one of which is not reached.
    Row { alpha: (1, 20), hypotheses: &[("dose-high", (1, 100)), ("dose.low", (9, 10)), ("late_end", (0, 1))],
        steps: &[(0, (1, 1))], kept: &[(1, (1, 1)), (2, (0, 1))],
        adjusted: &[((1, 100), true), ((9, 10), true), ((1, 1), false)],
        text: "alpha 1/20\nstep 1 dose-high p 1/100 weight 1\nkept dose.low p 9/10 weight 1\nkept late_end p 0 weight 0\n\
            rejected dose-high\nadjusted dose-high 1/100\nadjusted dose.low 9/10\nadjusted late_end 1 not reached\nend\n" },
    // Eleven hypotheses are rejected, from the last to the first.
    Row { alpha: (1, 1),
        hypotheses: &[("A", (0, 1)), ("B", (0, 1)), ("C", (0, 1)), ("D", (0, 1)), ("E", (0, 1)), ("F", (0, 1)), ("G", (0, 1)),
            ("H", (0, 1)), ("I", (0, 1)), ("J", (0, 1)), ("K", (0, 1))],
        steps: &[(10, (1, 11)), (9, (1, 10)), (8, (1, 9)), (7, (1, 8)), (6, (1, 7)), (5, (1, 6)), (4, (1, 5)), (3, (1, 4)),
            (2, (1, 3)), (1, (1, 2)), (0, (1, 1))],
        kept: &[],
        adjusted: &[((0, 1), true), ((0, 1), true), ((0, 1), true), ((0, 1), true), ((0, 1), true), ((0, 1), true),
            ((0, 1), true), ((0, 1), true), ((0, 1), true), ((0, 1), true), ((0, 1), true)],
        text: "alpha 1\nstep 1 K p 0 weight 1/11\nstep 2 J p 0 weight 1/10\nstep 3 I p 0 weight 1/9\nstep 4 H p 0 weight 1/8\n\
            step 5 G p 0 weight 1/7\nstep 6 F p 0 weight 1/6\nstep 7 E p 0 weight 1/5\nstep 8 D p 0 weight 1/4\n\
            step 9 C p 0 weight 1/3\nstep 10 B p 0 weight 1/2\nstep 11 A p 0 weight 1\nrejected A B C D E F G H I J K\n\
            adjusted A 0\nadjusted B 0\nadjusted C 0\nadjusted D 0\nadjusted E 0\nadjusted F 0\nadjusted G 0\n\
            adjusted H 0\nadjusted I 0\nadjusted J 0\nadjusted K 0\nend\n" },
};

fn fraction(terms: Terms) -> Result<Fraction, FractionFault> {
    Fraction::new(terms.0, terms.1)
}

fn lines(alloc: Global, all: &[(usize, Terms)]) -> Result<List<StepLine>, Fail> {
    let mut lines = List::new(alloc);
    for &(hypothesis, weight) in all {
        let weight = fraction(weight)?;
        lines.push(StepLine { hypothesis, weight })?;
    }
    Ok(lines)
}

fn values(alloc: Global, all: &[(Terms, bool)]) -> Result<List<Adjusted>, Fail> {
    let mut values = List::new(alloc);
    for &(value, reached) in all {
        let value = fraction(value)?;
        values.push(Adjusted { value, reached })?;
    }
    Ok(values)
}

fn names(alloc: Global, hypotheses: &[(&str, Terms)]) -> Result<List<Text>, NoMemory> {
    let mut names = List::new(alloc);
    for (name, _) in hypotheses {
        names.push(Text::copy(alloc, name.as_bytes())?)?;
    }
    Ok(names)
}

fn p_values(alloc: Global, hypotheses: &[(&str, Terms)]) -> Result<List<Option<Fraction>>, Fail> {
    let mut p_values = List::new(alloc);
    for &(_, p) in hypotheses {
        p_values.push(Some(fraction(p)?))?;
    }
    Ok(p_values)
}

/// Returns this number of weights of 0.
fn no_weights(alloc: Global, count: usize) -> Result<List<Fraction>, NoMemory> {
    let mut weights = List::new(alloc);
    for _ in 0..count {
        weights.push(Fraction::zero())?;
    }
    Ok(weights)
}

/// Returns a draft of one component, without edges.
#[tactic(auto, unfolding(case_model::specs::Draft::have_known_ends, case_model::specs::Draft::have_known_arrivals))]
fn draft(
    alloc: Global,
    names: List<Text>,
    alpha: Fraction,
    p: List<Option<Fraction>>,
    weights: List<Fraction>,
) -> Result<Draft, NoMemory>
    ensures ends { IfOk result (λ d. have_known_ends d ≡ true) }
    ensures arrivals { IfOk result (λ d. have_known_arrivals d ≡ true) }
{
    let mut components = List::new(alloc);
    components.push(DraftComponent {
        share: Fraction::one(),
        weights,
        edges: List::new(alloc),
    })?;
    Ok(Draft {
        names,
        alpha,
        p,
        components,
        stages: None,
    })
}

/// Returns the case of a row. Its weights aren't printed.
fn case(alloc: Global, row: &Row) -> Result<Case, Fail> {
    let names = names(alloc, row.hypotheses)?;
    let alpha = fraction(row.alpha)?;
    let p = p_values(alloc, row.hypotheses)?;
    let weights = no_weights(alloc, row.hypotheses.len())?;
    let draft = draft(alloc, names, alpha, p, weights)?;
    match draft.finish(alloc) {
        Ok(case) => Ok(case),
        Err(_) => Err("the draft is refused")?,
    }
}

fn expect(rt: &impl Abort, alloc: Global, row: &Row) -> Result<(), Fail> {
    let case = case(alloc, row)?;
    let decision = Decision {
        steps: lines(alloc, row.steps)?,
        kept: lines(alloc, row.kept)?,
    };
    let values = values(alloc, row.adjusted)?;
    let text = test_text(alloc, &case, &decision, values.as_slice())?;
    assert!(rt; text.as_slice() == row.text.as_bytes(), "{}", row.text);
    Ok(())
}

#[test]
fn decisions(rt: HostRuntime) -> Result<(), Fail> {
    for row in ROWS {
        expect(&rt, rt.alloc(), row)?;
    }
    Ok(())
}

/// Evidence for a case of three hypotheses, whether it holds or not, and what is printed of it if it holds.
const EVIDENCE: &[(&str, &str)] = table! {
    ("evidence 1\nend\n", "yes\nlisted\nend\n"),
    ("evidence 1\nstep H3\nstep H1\nflow 1 H3 0\nend\n", "yes\nlisted H3 H1\nend\n"),
    ("evidence 2\nstep H2\nkeep H1\nexit 1 H2 0\nkeep H3\nexit 1 H2 0\nend\n", "yes\nlisted H2\nkept H1 H3\nend\n"),
    ("evidence 2\nstep H3\nstep H1\nflow 1 H3 0\nstep H2\nflow 1 H3 0\nflow 1 H1 0\nend\n",
     "yes\nlisted H3 H1 H2\nkept\nend\n"),
};

#[test]
fn evidence(rt: HostRuntime) -> Result<(), Fail> {
    let case = case(rt.alloc(), &ALL_REJECTED)?;
    for (document, printed) in EVIDENCE {
        match read(rt.alloc(), &case, document.as_bytes()) {
            Ok(proof) => {
                let text = check_text(rt.alloc(), &case, &proof)?;
                assert!(rt; text.as_slice() == printed.as_bytes(), "{printed}");
            }
            Err(_) => panic!(rt; "{printed}"),
        }
    }
    Ok(())
}

/// The sets of both and of the second alone are rejected, and the second is the first leader.
const SECOND_REJECTED: &str =
    "simes 2\nbound 1 of H1 H2\nbound 1 of H2\nbound 0 of H1\ntop 1 bound 1\ntop 2 bound 1\nrejected H2\nend\n";

#[test]
fn simes(rt: HostRuntime) -> Result<(), Fail> {
    let case = case(rt.alloc(), &ONE_OF_TWO)?;
    let mut closed = SetTable::new(rt.alloc(), 2)?;
    closed.put(2, true);
    closed.put(3, true);
    let bounds = Bounds::build(rt.alloc(), 2, &closed)?;
    assert!(rt; case.size() == 2);
    let text = simes_text(rt.alloc(), &case, &bounds, &closed, &[1, 0])?;
    assert!(rt; text.as_slice() == SECOND_REJECTED.as_bytes());
    Ok(())
}

/// Returns a rejection, of which only the hypothesis is printed.
fn rejection(hypothesis: usize) -> Settled {
    Settled {
        hypothesis,
        stage: 1,
        weight: Fraction::one(),
    }
}

#[test]
fn replies(rt: HostRuntime) -> Result<(), Fail> {
    let case = case(rt.alloc(), &ALL_REJECTED)?;
    let mut text = opened_text(rt.alloc(), &case, 12)?;
    put_refused(rt.alloc(), &mut text, 3, &StepFault::Known(0, 1))?;
    put_refused(rt.alloc(), &mut text, 10, &StepFault::StageRange(0))?;
    put_refused(rt.alloc(), &mut text, 11, &StepFault::PRange)?;
    put_shown(
        rt.alloc(),
        &mut text,
        &case,
        14,
        &[rejection(2), rejection(0)],
    )?;
    let printed = "alpha 1/40\nrecords 12\nrefused 3: known\nrefused 10: stage\nrefused 11: range\n\
        show looks 14 rejected H1 H3\n";
    assert!(rt; text.as_slice() == printed.as_bytes());
    Ok(())
}

#[test]
fn a_look_without_rejections(rt: HostRuntime) -> Result<(), Fail> {
    let case = case(rt.alloc(), &ALL_REJECTED)?;
    let look = Look {
        hypothesis: 1,
        stage: 2,
        p: fraction((3, 100))?.ratio(),
    };
    let mut text = List::new(rt.alloc());
    put_taken(rt.alloc(), &mut text, &case, &look, &[])?;
    put_shown(rt.alloc(), &mut text, &case, 1, &[])?;
    assert!(rt; text.as_slice() == b"look H2 2 3/100\nshow looks 1 rejected\n".as_slice());
    Ok(())
}
