//! Each kind of refusal, with its line written by hand.
use answers::Refusal;
use case_json::JsonFault;
use case_model::{CaseFault, PartPlace, Refused};
use edge_text::{ExprFault, LineKind};
use evidence_check::{Evidence, KeepProof, ProofKind, ProofStep, Reason, Steps};
use field_core::{List, NoMemory, Op, Place, Text, WideAt};
use fraction::NumberFault;
use refusals::{
    ProofPart, When, case_refusal, commands_refusal, json_refusal, kind_refusal, line_refusal,
    no_text, proof_refusal, record_refusal, wide_refusal,
};
use std::alloc::Global;
use std::process::Abort;
use std::test::Fail;

/// Returns three names.
fn names(alloc: Global) -> Result<List<Text>, NoMemory> {
    let mut names = List::new(alloc);
    names.push(Text::copy(alloc, b"H1")?)?;
    names.push(Text::copy(alloc, b"H2")?)?;
    names.push(Text::copy(alloc, b"dose-a")?)?;
    Ok(names)
}

/// Asserts that an answer has this status, and this text.
fn expect(rt: &impl Abort, answer: &Refusal, status: u8, text: &str) {
    expect_text(rt, answer.line.as_slice(), text);
    assert!(rt; answer.cause.code() == status, "{text}");
}

/// Asserts that a line is this text.
fn expect_text(rt: &impl Abort, line: &[u8], text: &str) {
    assert!(rt; line == text.as_bytes(), "{text}");
}

const MALFORMED: &[(CaseFault, &str)] = table! {
    (CaseFault::NoHypothesis, "malformed: case: no hypothesis\n"),
    (CaseFault::NameForm(0), "malformed: case: name 1\n"),
    (CaseFault::DuplicateName(1), "malformed: case: duplicate name 2\n"),
    (CaseFault::NoComponent, "malformed: case: no component\n"),
    (CaseFault::AlphaRange, "malformed: case: alpha\n"),
    (CaseFault::ShareRange(1), "malformed: case: share component 2\n"),
    (CaseFault::ShareSum, "malformed: case: share sum\n"),
    (CaseFault::WeightCount(0), "malformed: case: weight count component 1\n"),
    (CaseFault::WeightRange(0, 2), "malformed: case: weight of dose-a component 1\n"),
    (CaseFault::WeightSum(7), "malformed: case: weight sum component 8\n"),
    (CaseFault::SelfEdge(2, 1), "malformed: case: self edge of H2 component 3\n"),
    (CaseFault::RepeatedEdge(1, 0, 2), "malformed: case: repeated edge H1 dose-a component 2\n"),
    (CaseFault::EdgeRange(0, 2, 1), "malformed: case: edge dose-a H2 component 1\n"),
    (CaseFault::RowSum(0, 0), "malformed: case: row sum of H1 component 1\n"),
    (CaseFault::Mixed, "malformed: case: mixed\n"),
    (CaseFault::PCount(2), "malformed: case: p count 2\n"),
    (CaseFault::PMissing(1), "malformed: case: p missing H2\n"),
    (CaseFault::PRange(0), "malformed: case: p of H1\n"),
    (CaseFault::NoStage, "malformed: case: no stage\n"),
    (CaseFault::SpendCount(3), "malformed: case: spend count 4\n"),
    (CaseFault::StepOrder(0, 1), "malformed: case: step 2 of H1\n"),
    (CaseFault::SpendRange(2, 2), "malformed: case: spend of dose-a stage 3\n"),
    (CaseFault::SpendSum(0), "malformed: case: spend sum of H1\n"),
    (CaseFault::ArrivalStage(0), "malformed: case: arrival 1 stage\n"),
    (CaseFault::ArrivalRepeated(11), "malformed: case: arrival 12 repeated\n"),
    (CaseFault::ArrivalRange(1), "malformed: case: arrival 2 p\n"),
};

#[test]
fn malformed_cases(rt: HostRuntime) -> Result<(), Fail> {
    let names = names(rt.alloc())?;
    for (fault, text) in MALFORMED {
        let answer = case_refusal(rt.alloc(), names.as_slice(), fault)?;
        expect(&rt, &answer, 3, text);
    }
    Ok(())
}

const PAST_LIMITS: &[(CaseFault, &str)] = &[
    (CaseFault::TooMany(65), "limit: hypotheses 65\n"),
    (
        CaseFault::TooMany(18446744073709551615),
        "limit: hypotheses 18446744073709551615\n",
    ),
    (CaseFault::TooManyComponents(9), "limit: components 9\n"),
    (CaseFault::TooManyStages(13), "limit: stages 13\n"),
    (CaseFault::TooManySteps(1, 33), "limit: spend steps 33\n"),
];

/// Past the third name, a hypothesis is named by its place.
const PARTS: &[(PartPlace, &str)] = table! {
    (PartPlace::Alpha, "limit: case: part alpha\n"),
    (PartPlace::Share(1), "limit: case: part share component 2\n"),
    (PartPlace::Weight(0, 2), "limit: case: part weight of dose-a component 1\n"),
    (PartPlace::Weight(0, 3), "limit: case: part weight of 4 component 1\n"),
    (PartPlace::Weight(7, 99), "limit: case: part weight of 100 component 8\n"),
    (PartPlace::Edge(0, 1, 0), "limit: case: part edge H2 H1 component 1\n"),
    (PartPlace::Edge(3, 0, 3), "limit: case: part edge H1 4 component 4\n"),
    (PartPlace::P(0), "limit: case: part p of H1\n"),
    (PartPlace::P(3), "limit: case: part p of 4\n"),
    (PartPlace::P(18446744073709551615), "limit: case: part p of 18446744073709551616\n"),
    (PartPlace::Spend(1, 1), "limit: case: part spend of H2 stage 2\n"),
    (PartPlace::Spend(5, 0), "limit: case: part spend of 6 stage 1\n"),
    (PartPlace::Step(2, 0), "limit: case: part step 1 of dose-a\n"),
    (PartPlace::Arrival(0), "limit: case: part arrival 1\n"),
    (PartPlace::Arrival(9), "limit: case: part arrival 10\n"),
};

#[test]
fn cases_past_limits(rt: HostRuntime) -> Result<(), Fail> {
    let names = names(rt.alloc())?;
    for (fault, text) in PAST_LIMITS {
        let answer = case_refusal(rt.alloc(), names.as_slice(), fault)?;
        expect(&rt, &answer, 4, text);
    }
    for (place, text) in PARTS {
        let fault = CaseFault::PartTooLong(*place);
        let answer = case_refusal(rt.alloc(), names.as_slice(), &fault)?;
        expect(&rt, &answer, 4, text);
    }
    Ok(())
}

/// What is too wide, and how a line ends.
const WIDE: &[(usize, Place, Op, &str)] = table! {
    (0, Place::Weight(2), Op::Mul, "component 1 weight of dose-a mul\n"),
    (1, Place::Loss(0), Op::Sub, "component 2 loss of H1 sub\n"),
    (7, Place::Edge(1, 0), Op::Div, "component 8 edge H2 H1 div\n"),
    (0, Place::Share(1), Op::Add, "component 1 share of H2 add\n"),
    (0, Place::Ratio(0), Op::Div, "component 1 ratio of H1 div\n"),
    (0, Place::Flow(1), Op::Add, "component 1 flow of H2 add\n"),
    (2, Place::Visit(0, 2), Op::Mul, "component 3 visit H1 dose-a mul\n"),
    (0, Place::Bound(2), Op::Sub, "component 1 bound of dose-a sub\n"),
    (0, Place::Level(0), Op::Mul, "component 1 level of H1 mul\n"),
    (0, Place::WeightSum, Op::Add, "component 1 weight sum add\n"),
    (1, Place::RowSum(1), Op::Add, "component 2 row sum of H2 add\n"),
    (0, Place::ShareSum, Op::Add, "component 1 share sum add\n"),
    (0, Place::SpendSum(0), Op::Add, "component 1 spend sum of H1 add\n"),
    (0, Place::SpendSum(3), Op::Add, "component 1 spend sum of 4 add\n"),
};

/// How a line begins.
const BEGINNINGS: &[(When, &str)] = table! {
    (When::Reading, "too wide: reading: "),
    (When::Step(0), "too wide: step 0: "),
    (When::Step(3), "too wide: step 3: "),
    (When::Step(64), "too wide: step 64: "),
    (When::AdjustedStep(0), "too wide: adjusted step 0: "),
    (When::AdjustedStep(12), "too wide: adjusted step 12: "),
    (When::EvidenceStep(2), "too wide: evidence step 2: "),
    (When::Set(5), "too wide: set H1 dose-a: "),
    (When::Set(0), "too wide: set: "),
    (When::SimesSet(5), "too wide: simes set H1 dose-a: "),
    (When::Look(0), "too wide: look 0: "),
    (When::Look(12), "too wide: look 12: "),
    (When::Check(ProofPart::Step(0)), "too wide: check step 0: "),
    (When::Check(ProofPart::Step(12)), "too wide: check step 12: "),
    (When::Check(ProofPart::Keep(2)), "too wide: check keep dose-a: "),
};

/// Asserts that an answer has the status 5, and that its line is the two texts in turn.
fn expect_both(
    rt: &impl Abort,
    alloc: Global,
    answer: &Refusal,
    beginning: &str,
    ending: &str,
) -> Result<(), NoMemory> {
    let mut text = List::new(alloc);
    text.append(beginning.as_bytes())?;
    text.append(ending.as_bytes())?;
    assert!(rt;
        answer.line.as_slice() == text.as_slice(),
        "{beginning}{ending}"
    );
    assert!(rt; answer.cause.code() == 5, "{beginning}{ending}");
    Ok(())
}

#[test]
fn too_wide_in_runs(rt: HostRuntime) -> Result<(), Fail> {
    let alloc = rt.alloc();
    let names = names(alloc)?;
    for (component, place, op, ending) in WIDE {
        let wide = WideAt {
            component: *component,
            place: *place,
            op: *op,
        };
        for (when, beginning) in BEGINNINGS {
            let answer = wide_refusal(alloc, names.as_slice(), *when, &wide)?;
            expect_both(&rt, alloc, &answer, beginning, ending)?;
        }
    }
    Ok(())
}

#[test]
fn too_wide_sums_of_cases(rt: HostRuntime) -> Result<(), Fail> {
    let alloc = rt.alloc();
    let names = names(alloc)?;
    for (component, place, op, ending) in WIDE {
        let fault = CaseFault::Wide(WideAt {
            component: *component,
            place: *place,
            op: *op,
        });
        let answer = case_refusal(alloc, names.as_slice(), &fault)?;
        expect_both(&rt, alloc, &answer, "too wide: reading: ", ending)?;
    }
    Ok(())
}

const LINES: &[(usize, LineKind, u8, &str)] = table! {
    (1, LineKind::Unexpected, 3, "malformed: line 1: unexpected\n"),
    (12, LineKind::Ended, 3, "malformed: line 12: ended\n"),
    (2, LineKind::WordCount, 3, "malformed: line 2: words\n"),
    (5, LineKind::UnknownName, 3, "malformed: line 5: unknown name\n"),
    (6, LineKind::Whole, 3, "malformed: line 6: whole number\n"),
    (3, LineKind::Number(NumberFault::Empty), 3, "malformed: line 3: number\n"),
    (3, LineKind::Number(NumberFault::BadByte(7)), 3, "malformed: line 3: number\n"),
    (4, LineKind::Number(NumberFault::ZeroDenominator), 3, "malformed: line 4: zero denominator\n"),
    (100, LineKind::Number(NumberFault::TooManyDigits), 4, "limit: line 100: digits\n"),
    (5, LineKind::Expr(ExprFault::BadByte(0)), 3, "malformed: line 5: expression\n"),
    (6, LineKind::Expr(ExprFault::DivisorNotNumber), 3, "malformed: line 6: divisor\n"),
    (7, LineKind::Expr(ExprFault::ZeroDivisor), 3, "malformed: line 7: zero divisor\n"),
    (18, LineKind::Expr(ExprFault::Degree), 4, "limit: line 18: degree\n"),
    (4, LineKind::Expr(ExprFault::Part), 4, "limit: line 4: part\n"),
    (12, LineKind::Expr(ExprFault::Depth), 4, "limit: line 12: depth\n"),
};

#[test]
fn lines_that_cannot_stand(rt: HostRuntime) -> Result<(), Fail> {
    for (line, kind, status, text) in LINES {
        let answer = line_refusal(rt.alloc(), *line, *kind)?;
        expect(&rt, &answer, *status, text);
    }
    Ok(())
}

/// Lines of commands: the number, the kind, the status and the line.
const COMMANDS: &[(usize, LineKind, u8, &str)] = table! {
    (1, LineKind::WordCount, 3, "malformed: commands line 1: words\n"),
    (12, LineKind::UnknownName, 3, "malformed: commands line 12: unknown name\n"),
    (3, LineKind::Number(NumberFault::Empty), 3, "malformed: commands line 3: number\n"),
    (100, LineKind::Number(NumberFault::TooManyDigits), 4, "limit: commands line 100: digits\n"),
};

#[test]
fn lines_of_commands_that_cannot_stand(rt: HostRuntime) -> Result<(), Fail> {
    for (line, kind, status, text) in COMMANDS {
        let answer = commands_refusal(rt.alloc(), *line, *kind)?;
        expect(&rt, &answer, *status, text);
    }
    Ok(())
}

#[test]
fn a_kept_look_that_cannot_be_taken(rt: HostRuntime) -> Result<(), Fail> {
    let answer = record_refusal(rt.alloc(), 12)?;
    expect(&rt, &answer, 3, "malformed: record 12\n");
    Ok(())
}

/// Numerals of JSON that are refused: the path, the fault, the status and the line.
const JSON_NUMBERS: &[(&str, NumberFault, u8, &str)] = table! {
    ("/alpha", NumberFault::Empty, 3, "malformed: /alpha: number\n"),
    ("/p/1", NumberFault::BadByte(7), 3, "malformed: /p/1: number\n"),
    ("/components/0/share", NumberFault::ZeroDenominator, 3, "malformed: /components/0/share: zero denominator\n"),
    ("/stages/spend/0/steps/1/levels/2", NumberFault::TooManyDigits, 4, "limit: /stages/spend/0/steps/1/levels/2: digits\n"),
};

#[test]
fn numerals_of_json(rt: HostRuntime) -> Result<(), Fail> {
    let alloc = rt.alloc();
    for (path, why, status, text) in JSON_NUMBERS {
        let fault = JsonFault::Number(Text::copy(alloc, path.as_bytes())?, *why);
        expect(&rt, &json_refusal(alloc, &fault)?, *status, text);
    }
    Ok(())
}

/// Weights of edges of JSON that are refused: the fault, the status and the line.
const JSON_WEIGHTS: &[(ExprFault, u8, &str)] = table! {
    (ExprFault::BadByte(0), 3, "malformed: /components/0/edges/12/weight: expression\n"),
    (ExprFault::DivisorNotNumber, 3, "malformed: /components/0/edges/12/weight: divisor\n"),
    (ExprFault::ZeroDivisor, 3, "malformed: /components/0/edges/12/weight: zero divisor\n"),
    (ExprFault::Degree, 4, "limit: /components/0/edges/12/weight: degree\n"),
    (ExprFault::Part, 4, "limit: /components/0/edges/12/weight: part\n"),
    (ExprFault::Depth, 4, "limit: /components/0/edges/12/weight: depth\n"),
};

#[test]
fn weights_of_json(rt: HostRuntime) -> Result<(), Fail> {
    let alloc = rt.alloc();
    for (why, status, text) in JSON_WEIGHTS {
        let path = Text::copy(alloc, b"/components/0/edges/12/weight")?;
        let fault = JsonFault::Expr(path, *why);
        expect(&rt, &json_refusal(alloc, &fault)?, *status, text);
    }
    Ok(())
}

/// Asserts that a fault of a value of JSON is reported in this line, with status 3.
fn expect_value(rt: &impl Abort, alloc: Global, fault: &JsonFault, text: &str) -> Result<(), Fail> {
    expect(rt, &json_refusal(alloc, fault)?, 3, text);
    Ok(())
}

#[test]
fn a_whole_value_of_json(rt: HostRuntime) -> Result<(), Fail> {
    let fault = JsonFault::Shape(Text::copy(rt.alloc(), b"")?);
    expect_value(&rt, rt.alloc(), &fault, "malformed: : shape\n")
}

#[test]
fn a_key_of_json_that_is_missing(rt: HostRuntime) -> Result<(), Fail> {
    let fault = JsonFault::Shape(Text::copy(rt.alloc(), b"/components")?);
    expect_value(&rt, rt.alloc(), &fault, "malformed: /components: shape\n")
}

#[test]
fn a_number_of_json_that_is_not_whole(rt: HostRuntime) -> Result<(), Fail> {
    let fault = JsonFault::NotWhole(Text::copy(rt.alloc(), b"/alpha")?);
    expect_value(&rt, rt.alloc(), &fault, "malformed: /alpha: not whole\n")
}

#[test]
fn a_name_of_json_that_is_unknown(rt: HostRuntime) -> Result<(), Fail> {
    let fault = JsonFault::UnknownName(Text::copy(rt.alloc(), b"/p/1/to")?);
    expect_value(
        &rt,
        rt.alloc(),
        &fault,
        "malformed: /p/1/to: unknown name\n",
    )
}

#[test]
fn json_of_no_value(rt: HostRuntime) -> Result<(), Fail> {
    expect_value(
        &rt,
        rt.alloc(),
        &JsonFault::Syntax,
        "malformed: json: syntax\n",
    )
}

#[test]
fn json_of_no_case(rt: HostRuntime) -> Result<(), Fail> {
    let refused = Refused {
        names: names(rt.alloc())?,
        fault: CaseFault::PMissing(1),
    };
    let fault = JsonFault::Case(refused);
    expect_value(&rt, rt.alloc(), &fault, "malformed: case: p missing H2\n")
}

#[test]
fn json_without_memory(rt: HostRuntime) -> Result<(), Fail> {
    let answer = json_refusal(rt.alloc(), &JsonFault::NoMemory);
    assert!(rt; answer.err() == Some(NoMemory));
    Ok(())
}

#[test]
fn another_kind_of_inputs(rt: HostRuntime) -> Result<(), Fail> {
    let answer = kind_refusal(rt.alloc())?;
    expect(&rt, &answer, 3, "malformed: kind\n");
    Ok(())
}

/// Whether out of memory is not reported as a fault of a case, and has no line.
#[test]
fn want_of_memory(rt: HostRuntime) -> Result<(), Fail> {
    let names = names(rt.alloc())?;
    let answer = case_refusal(rt.alloc(), names.as_slice(), &CaseFault::NoMemory);
    assert!(rt; answer.err() == Some(NoMemory));
    Ok(())
}

/// Returns evidence with steps of the third and the first hypothesis, which keeps the second.
fn evidence(alloc: Global) -> Result<Evidence, NoMemory> {
    let mut steps = List::new(alloc);
    for hypothesis in [2, 0] {
        let flows = List::new(alloc);
        steps.push(ProofStep { hypothesis, flows })?;
    }
    let mut keeps = List::new(alloc);
    let exits = List::new(alloc);
    keeps.push(KeepProof {
        hypothesis: 1,
        exits,
    })?;
    Ok(Evidence::Plain(Steps {
        version: 2,
        steps,
        keeps,
    }))
}

/// Past the last keep a number is that of a step, and past the last step a place stands for the name.
const BROKEN: &[(usize, Reason, &str)] = table! {
    (1, Reason::NoLevel, "no: step 1: no level\n"),
    (2, Reason::Repeated, "no: step 2: repeated\n"),
    (2, Reason::AboveLevel, "no: step 2: above level\n"),
    (2, Reason::Negative(0, 0), "no: step 2: component 1 flow of dose-a negative\n"),
    (2, Reason::Exceeds(7, 1), "no: step 2: component 8 flow of H1 exceeds\n"),
    (2, Reason::Exceeds(0, 2), "no: step 2: component 1 flow of 3 exceeds\n"),
    (3, Reason::NegativeExit(0, 0), "no: keep H2: component 1 exit of dose-a negative\n"),
    (3, Reason::ShortExit(1, 1), "no: keep H2: component 2 exit of H1 short\n"),
    (3, Reason::AboveOne(0), "no: keep H2: component 1 level above one\n"),
    (3, Reason::Legal, "no: keep H2: legal\n"),
    (4, Reason::Legal, "no: step 4: legal\n"),
};

#[test]
fn evidence_that_does_not_hold(rt: HostRuntime) -> Result<(), Fail> {
    let alloc = rt.alloc();
    let names = names(alloc)?;
    let proof = evidence(alloc)?;
    for (n, reason, text) in BROKEN {
        let line = no_text(alloc, names.as_slice(), &proof, *n, *reason)?;
        expect_text(&rt, line.as_slice(), text);
    }
    Ok(())
}

const PROOF_LINES: &[(usize, ProofKind, &str)] = table! {
    (12, ProofKind::Unexpected, "malformed: proof line 12: unexpected\n"),
    (12, ProofKind::Ended, "malformed: proof line 12: ended\n"),
    (3, ProofKind::WordCount, "malformed: proof line 3: words\n"),
    (1, ProofKind::Version, "malformed: proof line 1: version\n"),
    (2, ProofKind::UnknownName, "malformed: proof line 2: unknown name\n"),
    (4, ProofKind::FlowPlace, "malformed: proof line 4: flow\n"),
    (5, ProofKind::ExitPlace, "malformed: proof line 5: exit\n"),
    (6, ProofKind::Number, "malformed: proof line 6: number\n"),
};

#[test]
fn lines_of_evidence_that_cannot_stand(rt: HostRuntime) -> Result<(), Fail> {
    for (line, kind, text) in PROOF_LINES {
        let answer = proof_refusal(rt.alloc(), *line, *kind)?;
        expect(&rt, &answer, 3, text);
    }
    Ok(())
}
