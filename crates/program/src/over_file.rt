//! A call over the file that its words name.
ghost use Rattle.std.specs.Prelude.{◌≡◌};
ghost use Rattle.std.specs.Io.KnownBytes.{IsAtEnd};
ghost use Rattle.answers.specs.Devices.{reading};
ghost use Rattle.command_words.specs.WordBytes.{words_in};
ghost use Rattle.command_words.specs.Words.{AsksStudy};
ghost use Rattle.graph_cli.specs.Accepted.{IsTakenWithin};
ghost use Rattle.graph_cli.specs.Outcome.{ReadsCase};
ghost use Rattle.study_cli.specs.StudyOutcome.{ReadsCase as ReadsStudyCase};
ghost use Rattle.program.specs.Calls.{MakesRun, MakesStudy};

use crate::Opener;
use answers::Stop;
use command_words::asks_study;
use field_core::{List, NoMemory};
use graph_cli::run;
use graph_io::{MemoryKeeper, Sink, Source};
use std::alloc::Global;
use study_cli::{run_study, store_path};

/// Runs a study over its commands and the store that the words name, or over no looks if they name none. Returns the status,
/// which is 8 if there is no memory to open the store.
#[tactic(auto, using(graph_cli::proofs::Taken::untouched))]
fn run_stored<O: Opener, S: Source, T: Source, W: Sink>(
    alloc: Global,
    words: &[String],
    opener: &mut O,
    case: &mut S,
    commands: &mut T,
    out: &mut W,
) -> u8
    requires faults { T.faults commands.old ≡ 0 }
    requires calls { T.calls commands.old ≡ 0 }
    ensures study { MakesStudy O.Opener S.Source W.Sink (words_in words.now) case.old case.new out.old out.new result
        opener.old opener.new (T.left commands.old) (reading T.Source commands.new) }
    ensures untouched { ¬ ReadsStudyCase (words_in words.now) → case.new ≡ case.old }
    ensures study_end { ReadsStudyCase (words_in words.now) → result ≡ 0 → IsAtEnd (S.left case.new) }
    ensures case_taken { IsTakenWithin S.left S.calls case.old case.new }
{
    match store_path(words) {
        None => {
            let mut keeper = MemoryKeeper::new(List::new(alloc));
            run_study(alloc, words, case, commands, &mut keeper, out)
        }
        Some(path) => match opener.open_store(path) {
            Ok(mut store) => {
                let status = run_study(alloc, words, case, commands, &mut store, out);
                opener.close_store(path, store);
                status
            }
            Err(NoMemory) => Stop::NoMemory.code(),
        },
    }
}

/// Makes the call that the words require over the file that they name, and returns its status.
pub(crate) fn run_over<O: Opener, S: Source, T: Source, W: Sink>(
    alloc: Global,
    words: &[String],
    opener: &mut O,
    case: &mut S,
    file: &mut T,
    out: &mut W,
) -> u8
    requires faults { T.faults file.old ≡ 0 }
    requires calls { T.calls file.old ≡ 0 }
    ensures run { ¬ AsksStudy (words_in words.now) → MakesRun O.Opener S.Source W.Sink (words_in words.now) case.old case.new
        out.old out.new result opener.old opener.new (T.left file.old) (reading T.Source file.new) }
    ensures study { AsksStudy (words_in words.now) → MakesStudy O.Opener S.Source W.Sink (words_in words.now) case.old case.new
        out.old out.new result opener.old opener.new (T.left file.old) (reading T.Source file.new) }
    ensures untouched { ¬ ReadsCase (words_in words.now) → ¬ ReadsStudyCase (words_in words.now) → case.new ≡ case.old }
    ensures run_end { ¬ AsksStudy (words_in words.now) →
        ReadsCase (words_in words.now) → result ≡ 0 → IsAtEnd (S.left case.new) }
    ensures study_end { AsksStudy (words_in words.now) →
        ReadsStudyCase (words_in words.now) → result ≡ 0 → IsAtEnd (S.left case.new) }
    ensures case_taken { IsTakenWithin S.left S.calls case.old case.new }
{
    if asks_study(words) {
        run_stored(alloc, words, opener, case, file, out)
    } else {
        run(alloc, words, case, file, out)
    }
}
