//! The commands.
ghost use Rattle.std.specs.Prelude.{◌≡◌, ◌≤◌, ◌<◌, OnOk, length};
ghost use Rattle.std.specs.Io.KnownBytes.{IsAtEnd};
ghost use Rattle.answers.specs.Devices.{reading};
ghost use Rattle.answers.specs.Ways.{EndsIn, IfConcluded, over_reading};
ghost use Rattle.case_model.specs.CaseView.{content};
ghost use Rattle.command_words.specs.Asked.{asked, encoding};
ghost use Rattle.graph_cli.specs.Accepted.{IsOfKind, IsTakenWithin};
ghost use Rattle.graph_cli.specs.Commands.{
  needs_of,
  on_case,
  case_call,
  check_needs,
  check_ways,
  IsCheckable,
  IsUncheckable,
  command_ways,
  TakesCase,
  TakesProof,
  StopsAtCase,
};
ghost use Rattle.graph_cli.specs.Troubles.{Meets};

mod bounds;
mod canon;
mod catalogue_faults;
mod check;
mod evidence_run;
mod help;
mod named_graph;
mod sample;
mod simes;
mod stages;
mod test;
mod weights;

use crate::accepted::accepted_case;
use crate::commands::bounds::bounds_answer;
use crate::commands::canon::canon_answer;
use crate::commands::check::check_answer;
use crate::commands::evidence_run::evidence_answer;
use crate::commands::help::help_answer;
use crate::commands::named_graph::catalogue_answer;
use crate::commands::sample::sample_answer;
use crate::commands::simes::simes_answer;
use crate::commands::stages::stages_answer;
use crate::commands::test::test_answer;
use crate::commands::weights::weights_answer;
use crate::kind::InputKind;
use crate::needs::Needs;
use crate::no_answer::{NoAnswer, ending_of};
use answers::{Answer, Stop, take_whole};
use case_model::Case;
use command_words::{CaseFormat, CaseTask, Command};
use graph_io::Source;
use std::alloc::Global;

/// Returns what a task needs of its case.
#[tactic(auto, unfolding(crate::specs::Commands::needs_of))]
fn needs_of(task: CaseTask) -> Needs
    ensures { result ≡ needs_of task }
{
    match task {
        CaseTask::Test(_) => Needs::new(InputKind::Single, 64),
        CaseTask::Weights => Needs::new(InputKind::Any, 16),
        CaseTask::Bounds => Needs::new(InputKind::Single, 16),
        CaseTask::Simes => Needs::new(InputKind::Single, 16),
        CaseTask::Evidence(_) => Needs::new(InputKind::Single, 64),
        CaseTask::Stages => Needs::new(InputKind::Staged, 64),
        CaseTask::Canon(_) => Needs::new(InputKind::Any, 64),
    }
}

/// Returns the answer of a task for a case that it can take.
#[tactic(auto, unfolding(crate::specs::Commands::needs_of, crate::specs::Commands::on_case))]
fn case_answer(alloc: Global, task: CaseTask, case: &Case) -> Result<Answer, NoAnswer>
    requires kind { IsOfKind (needs_of task).kind (content case.now).inputs }
    requires size { length (content case.now).names ≤ (needs_of task).most }
    ensures { Meets (on_case task (content case.now)) result }
{
    match task {
        CaseTask::Test(priority) => test_answer(alloc, case, priority),
        CaseTask::Weights => weights_answer(alloc, case),
        CaseTask::Bounds => bounds_answer(alloc, case),
        CaseTask::Simes => simes_answer(alloc, case),
        CaseTask::Evidence(priority) => evidence_answer(alloc, case, priority),
        CaseTask::Stages => stages_answer(alloc, case),
        CaseTask::Canon(format) => canon_answer(alloc, case, format),
    }
}

/// Returns the answer of a task on a case alone.
#[tactic(auto, unfolding(crate::specs::Commands::case_call))]
fn case_call<S: Source>(
    alloc: Global,
    format: &CaseFormat,
    task: CaseTask,
    source: &mut S,
) -> Result<Answer, Stop>
    ensures ends { EndsIn (over_reading (case_call (encoding format.now) task (S.left source.old))
        (reading S.Source source.old) (reading S.Source source.new)) result }
    ensures end { OnOk result (IsAtEnd (S.left source.new)) }
    ensures taken { IsTakenWithin S.left S.calls source.old source.new }
{
    let case = accepted_case(alloc, format, needs_of(task), source)?;
    ending_of(alloc, &case, case_answer(alloc, task, &case))
}

/// Returns what `check` needs of its case.
#[tactic(auto, unfolding(crate::specs::Commands::check_needs))]
fn check_needs() -> Needs
    ensures { result ≡ check_needs }
{
    Needs::new(InputKind::Single, 64)
}

/// Returns the answer of `check` for a case and a proof. The proof is read only after a case that `check` can take.
#[tactic(auto, using(crate::proofs::Taken::untouched), unfolding(crate::specs::Commands::check_call, crate::specs::Commands::check_needs))]
fn check_call<S: Source, T: Source>(
    alloc: Global,
    format: &CaseFormat,
    case: &mut S,
    proof: &mut T,
) -> Result<Answer, Stop>
    ensures ends { EndsIn (check_ways (encoding format.now) (reading S.Source case.old) (reading S.Source case.new)
        (reading T.Source proof.old) (reading T.Source proof.new)) result }
    ensures case_end { OnOk result (IsAtEnd (S.left case.new)) }
    ensures proof_kept { ¬ IsCheckable (encoding format.now) (S.left case.old) → proof.new ≡ proof.old }
    ensures proof_end { OnOk result (IsAtEnd (T.left proof.new)) }
    ensures proof_asked { ¬ IsUncheckable (encoding format.now) (S.left case.old) →
        IfConcluded (T.calls proof.old < T.calls proof.new) result }
    ensures case_taken { IsTakenWithin S.left S.calls case.old case.new }
    ensures proof_taken { IsTakenWithin T.left T.calls proof.old proof.new }
{
    let accepted = accepted_case(alloc, format, check_needs(), case)?;
    let bytes = take_whole(alloc, b"proof ", proof)?;
    let answer = check_answer(alloc, &accepted, bytes.as_slice());
    ending_of(alloc, &accepted, answer)
}

/// Returns the answer of a command for a case and a proof. A source that the command doesn't read stays as it was; the proof
/// is read only after a case that the command can take.
#[tactic(auto, using(crate::proofs::Taken::untouched), unfolding(crate::specs::Commands::call_of, crate::specs::Commands::TakesCase, crate::specs::Commands::TakesProof, crate::specs::Commands::StopsAtCase))]
pub fn call<S: Source, T: Source>(
    alloc: Global,
    command: &Command,
    case: &mut S,
    proof: &mut T,
) -> Result<Answer, Stop>
    ensures ends { EndsIn (command_ways (asked command.now) (reading S.Source case.old) (reading S.Source case.new)
        (reading T.Source proof.old) (reading T.Source proof.new)) result }
    ensures case_kept { ¬ TakesCase (asked command.now) → case.new ≡ case.old }
    ensures case_end { TakesCase (asked command.now) → OnOk result (IsAtEnd (S.left case.new)) }
    ensures proof_kept { ¬ TakesProof (asked command.now) (S.left case.old) → proof.new ≡ proof.old }
    ensures proof_end { TakesProof (asked command.now) (S.left case.old) → OnOk result (IsAtEnd (T.left proof.new)) }
    ensures proof_asked { TakesProof (asked command.now) (S.left case.old) →
        ¬ StopsAtCase (asked command.now) (S.left case.old) →
        IfConcluded (T.calls proof.old < T.calls proof.new) result }
    ensures case_taken { IsTakenWithin S.left S.calls case.old case.new }
    ensures proof_taken { IsTakenWithin T.left T.calls proof.old proof.new }
{
    match command {
        Command::OnCase(format, task) => case_call(alloc, format, *task, case),
        Command::Catalogue(graph) => catalogue_answer(alloc, *graph),
        Command::Check { format, .. } => check_call(alloc, format, case, proof),
        Command::Sample { size, seed } => sample_answer(alloc, *size, *seed),
        Command::Help => Ok(help_answer(alloc)?),
    }
}
