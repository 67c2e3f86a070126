//! What the command `test` prints.
ghost use Rattle.std.specs.Prelude.{◌≡◌, ◌+◌, ◌++◌, IfOk, OnOk};
ghost use Rattle.case_model.specs.CaseView.{content};
ghost use Rattle.case_model.specs.Sums.{ratio_at};
ghost use Rattle.report.specs.TestReport.{p_values, figures, step_line, kept_line, reached_words, adjusted_line, test_report};

use crate::each::{Printer, put_each};
use crate::lines::{put_alpha, put_name, put_rejected};
use crate::lookups::ratio_at;
use adjusted_p::Adjusted;
use case_model::{Case, Inputs};
use field_core::{List, NoMemory};
use fraction::Fraction;
use sequential::{Decision, KeptLine, StepLine};
use std::alloc::Global;

/// Returns the p-value of the hypothesis at a position, and 0 if the case has no single ones.
fn p_value(case: &Case, j: usize) -> Fraction
    ensures { result ≡ ratio_at (p_values (content case.now).inputs) j }
{
    match case.inputs() {
        Inputs::Single(p_values) => ratio_at(p_values.as_slice(), j),
        Inputs::Bare | Inputs::Staged(_) => ratio_at(&[], j),
    }
}

/// Appends the name of a hypothesis, its p-value and its weight.
#[tactic(auto, unfolding(crate::specs::TestReport::figures))]
fn put_figures(text: &mut List<u8>, case: &Case, step: &StepLine) -> Result<(), NoMemory>
    ensures { OnOk result (text.new ≡ text.old ++ figures (content case.now) step.now) }
{
    put_name(text, case, step.hypothesis)?;
    text.append(b" p ")?;
    p_value(case, step.hypothesis).print(text)?;
    text.append(b" weight ")?;
    step.weight.print(text)
}

/// The printer of the steps, whose lines are counted from 1.
#[derive(Clone, Copy)]
struct Steps<'a>(&'a Case);

impl Printer<StepLine> for Steps<'_> {
    ghost shown = { λ it i step. step_line (content it.0.now) (i + 1) step };

    #[tactic(auto, unfolding(crate::specs::TestReport::step_line))]
    fn put(&self, text: &mut List<u8>, place: usize, step: &StepLine) -> Result<(), NoMemory> {
        text.append(b"step ")?;
        text.append_unsigned(place as u128 + 1)?;
        put_figures(text, self.0, step)?;
        text.push(b'\n')
    }
}

/// The printer of the retained hypotheses.
#[derive(Clone, Copy)]
struct Kept<'a>(&'a Case);

impl Printer<KeptLine> for Kept<'_> {
    ghost shown = { λ it _ kept. kept_line (content it.0.now) kept };

    #[tactic(auto, unfolding(crate::specs::TestReport::kept_line))]
    fn put(&self, text: &mut List<u8>, _place: usize, kept: &KeptLine) -> Result<(), NoMemory> {
        text.append(b"kept")?;
        put_figures(text, self.0, kept)?;
        text.push(b'\n')
    }
}

/// Returns the words after a value: none if it is reached.
fn reached_words(reached: bool) -> &'static [u8]
    ensures { result.now ≡ reached_words reached }
{
    if reached { b"" } else { b" not reached" }
}

/// The printer of the adjusted values, each of which is that of the hypothesis at its place.
#[derive(Clone, Copy)]
struct Values<'a>(&'a Case);

impl Printer<Adjusted> for Values<'_> {
    ghost shown = { λ it j adjusted. adjusted_line (content it.0.now) j adjusted };

    #[tactic(auto, unfolding(crate::specs::TestReport::adjusted_line))]
    fn put(&self, text: &mut List<u8>, j: usize, adjusted: &Adjusted) -> Result<(), NoMemory> {
        text.append(b"adjusted")?;
        put_name(text, self.0, j)?;
        text.push(b' ')?;
        adjusted.value.print(text)?;
        text.append(reached_words(adjusted.reached))?;
        text.push(b'\n')
    }
}

/// Returns what the command `test` prints, or `NoMemory`: the level, the steps of the decision, the retained hypotheses, the
/// names of the rejected ones, and the adjusted values.
///
/// A line that isn't of a hypothesis of the case has an empty name and the p-value 0.
#[tactic(auto, unfolding(crate::specs::TestReport::test_report))]
pub fn test_text(
    alloc: Global,
    case: &Case,
    decision: &Decision,
    adjusted: &[Adjusted],
) -> Result<List<u8>, NoMemory>
    ensures { IfOk result (λ text. text ≡ test_report (content case.now) decision.now adjusted.now) }
{
    let mut text = List::new(alloc);
    put_alpha(&mut text, case)?;
    put_each(&mut text, &Steps(case), decision.steps.as_slice())?;
    put_each(&mut text, &Kept(case), decision.kept.as_slice())?;
    put_rejected(&mut text, case, decision.steps.as_slice())?;
    put_each(&mut text, &Values(case), adjusted)?;
    text.append(b"end\n")?;
    Ok(text)
}
