//! What the command `stages` prints.
ghost use Rattle.std.specs.Prelude.{◌≡◌, ◌==◌, ◌++◌, [], IfOk, OnOk, get_or};
ghost use Rattle.std.specs.List.{list_any};
ghost use Rattle.case_model.specs.CaseView.{content};
ghost use Rattle.staged_levels.specs.Looks.{arrivals_of};
ghost use Rattle.report.specs.StagesReport.{arrive_line, reject_line, look_lines, settled_line, stages_report};

use crate::each::{Printer, put_each};
use crate::lines::{put_alpha, put_name, put_names};
use case_model::{Arrival, Case, Inputs};
use field_core::{List, NoMemory};
use staged_levels::Settled;
use std::alloc::Global;

/// Returns the arrivals of a case, and none if it has no stages.
fn arrivals_of(case: &Case) -> &[Arrival]
    ensures { result.now ≡ arrivals_of (content case.now).inputs }
{
    match case.inputs() {
        Inputs::Staged(stages) => stages.arrivals(),
        Inputs::Bare | Inputs::Single(_) => &[],
    }
}

/// Returns the look at a place, and an empty one past the last.
#[tactic(auto, using(std::proofs::lemmas::List::get_or_past))]
fn look_at(looks: &[List<Settled>], place: usize) -> &[Settled]
    ensures { result.now ≡ get_or looks.now place [] }
{
    if place < looks.len() {
        looks[place].as_slice()
    } else {
        &[]
    }
}

/// Appends the line of an arrival.
#[tactic(auto, unfolding(crate::specs::StagesReport::arrive_line))]
fn put_arrival(text: &mut List<u8>, case: &Case, arrival: &Arrival) -> Result<(), NoMemory>
    ensures { OnOk result (text.new ≡ text.old ++ arrive_line (content case.now) arrival.now) }
{
    text.append(b"arrive")?;
    put_name(text, case, arrival.hypothesis)?;
    text.append(b" ")?;
    text.append_unsigned(arrival.stage as u128)?;
    text.append(b" ")?;
    arrival.p.print(text)?;
    text.push(b'\n')
}

/// The printer of rejections.
#[derive(Clone, Copy)]
pub(crate) struct Rejections<'a>(pub &'a Case);

impl Printer<Settled> for Rejections<'_> {
    ghost shown = { λ it _ rejection. reject_line (content it.0.now) rejection };

    #[tactic(auto, unfolding(crate::specs::StagesReport::reject_line))]
    fn put(&self, text: &mut List<u8>, _: usize, rejection: &Settled) -> Result<(), NoMemory> {
        text.append(b"reject")?;
        put_name(text, self.0, rejection.hypothesis)?;
        text.append(b" stage ")?;
        text.append_unsigned(rejection.stage as u128)?;
        text.append(b" weight ")?;
        rejection.weight.print(text)?;
        text.push(b'\n')
    }
}

/// The printer of the arrivals, each with the rejections that it brings.
#[derive(Clone, Copy)]
struct Looks<'a>(&'a Case, &'a [List<Settled>]);

impl Printer<Arrival> for Looks<'_> {
    ghost shown = { λ it i arrival. look_lines (content it.0.now) arrival (get_or it.1.now i []) };

    #[tactic(auto, unfolding(crate::specs::StagesReport::look_lines))]
    fn put(&self, text: &mut List<u8>, place: usize, arrival: &Arrival) -> Result<(), NoMemory> {
        put_arrival(text, self.0, arrival)?;
        put_each(text, &Rejections(self.0), look_at(self.1, place))
    }
}

/// Whether the hypothesis at a position is rejected in a look.
pub(crate) fn is_among(look: &[Settled], j: usize) -> bool
    ensures { result ≡ list_any (λ r. r.hypothesis == j) look.now }
{
    look.iter().any(|rejection| rejection.hypothesis == j)
}

/// Whether the hypothesis at a position is rejected in some look.
fn is_settled(looks: &[List<Settled>], j: usize) -> bool
    ensures { result ≡ list_any (λ look. list_any (λ r. r.hypothesis == j) look) looks.now }
{
    looks.iter().any(|look| is_among(look.as_slice(), j))
}

/// Appends the line of the rejected hypotheses.
#[tactic(auto, unfolding(crate::specs::StagesReport::settled_line))]
fn put_settled(text: &mut List<u8>, case: &Case, looks: &[List<Settled>]) -> Result<(), NoMemory>
    ensures { OnOk result (text.new ≡ text.old ++ settled_line (content case.now) looks.now) }
{
    text.append(b"rejected")?;
    put_names(text, case, |j| is_settled(looks, j))?;
    text.push(b'\n')
}

/// Returns what the command `stages` prints, or `NoMemory`: the level, the arrivals of the case, each with the rejections that it
/// brings, and the names of the rejected hypotheses.
///
/// An arrival without a look brings no rejections, and a case without stages has no arrivals.
#[tactic(auto, unfolding(crate::specs::StagesReport::stages_report))]
pub fn stages_text(
    alloc: Global,
    case: &Case,
    looks: &[List<Settled>],
) -> Result<List<u8>, NoMemory>
    ensures { IfOk result (λ text. text ≡ stages_report (content case.now) looks.now) }
{
    let mut text = List::new(alloc);
    put_alpha(&mut text, case)?;
    put_each(&mut text, &Looks(case, looks), arrivals_of(case))?;
    put_settled(&mut text, case, looks)?;
    text.append(b"end\n")?;
    Ok(text)
}
