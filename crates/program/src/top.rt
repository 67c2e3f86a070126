//! The top call: the program over an opener.
ghost use Rattle.std.specs.Prelude.{◌≡◌, ℕ, List as Seq, None, IfSome};
ghost use Rattle.std.specs.Io.KnownBytes.{IsAtEnd};
ghost use Rattle.std.specs.Process.{exit_status};
ghost use Rattle.command_words.specs.WordBytes.{words_in};
ghost use Rattle.command_words.specs.Words.{AsksStudy};
ghost use Rattle.graph_cli.specs.Accepted.{IsTakenWithin};
ghost use Rattle.graph_cli.specs.Outcome.{ReadsCase};
ghost use Rattle.study_cli.specs.StudyOutcome.{ReadsCase as ReadsStudyCase};
ghost use Rattle.program.specs.Calls.{NamesPath, CallsRun, CallsStudy};

use crate::over_file::run_over;
use crate::{NotOpened, Opener};
use answers::Stop;
use field_core::List;
use graph_cli::file_word;
use graph_io::{MemorySource, RefusedSource, Sink, Source};
use std::alloc::Global;
use std::process::ExitCode;

/// Returns the path of the file that the words name: a proof, or the commands of a study. `None` if they name none.
pub fn file_path(words: &[String]) -> Option<&str>
    ensures path { IfSome result (λ path. NamesPath (words_in words.now) path.now) }
    ensures none { result ≡ None → (path : Seq ℕ) → ¬ NamesPath (words_in words.now) path }
{
    let word = words.get(file_word(words)?)?;
    Some(word.as_str())
}

/// Makes a call of the program, and does all that the program does except making its devices.
///
/// - `words` are the words after the program's name. Words that begin with `study` are those of `run_study`, all others those
///   of `run`.
/// - `case` is standard input, and `out` gets the text of the answer, or one line that names the reason why there is none.
/// - The opener opens the file that the words name, then the store of looks that they name, and takes both back. It opens
///   nothing that isn't named.
/// - A study whose words name no store begins with no looks, and its looks are kept nowhere.
/// - A file that is refused fails at each take, so that a call that reads it ends with 6, 7 or 8. If there is no memory to open
///   what is named, the status is 8, and nothing is read or put.
#[tactic(auto, using(graph_cli::proofs::Taken::untouched))]
pub fn run_program<O: Opener, S: Source, W: Sink>(
    alloc: Global,
    words: &[String],
    opener: &mut O,
    case: &mut S,
    out: &mut W,
) -> ExitCode
    ensures run { ¬ AsksStudy (words_in words.now) → CallsRun O.Opener S.Source W.Sink (words_in words.now)
        case.old case.new out.old out.new (exit_status result) opener.old opener.new }
    ensures study { AsksStudy (words_in words.now) → CallsStudy O.Opener S.Source W.Sink (words_in words.now)
        case.old case.new out.old out.new (exit_status result) opener.old opener.new }
    ensures untouched { ¬ ReadsCase (words_in words.now) → ¬ ReadsStudyCase (words_in words.now) → case.new ≡ case.old }
    ensures run_end { ¬ AsksStudy (words_in words.now) →
        ReadsCase (words_in words.now) → exit_status result ≡ 0 → IsAtEnd (S.left case.new) }
    ensures study_end { AsksStudy (words_in words.now) →
        ReadsStudyCase (words_in words.now) → exit_status result ≡ 0 → IsAtEnd (S.left case.new) }
    ensures case_taken { IsTakenWithin S.left S.calls case.old case.new }
{
    match file_path(words) {
        None => {
            let mut nothing = MemorySource::new(List::new(alloc));
            ExitCode::from(run_over(alloc, words, opener, case, &mut nothing, out))
        }
        Some(path) => match opener.open_file(path) {
            Ok(mut file) => {
                let status = run_over(alloc, words, opener, case, &mut file, out);
                opener.close_file(path, file);
                ExitCode::from(status)
            }
            Err(NotOpened::Refused) => {
                let mut refused = RefusedSource::new();
                ExitCode::from(run_over(alloc, words, opener, case, &mut refused, out))
            }
            Err(NotOpened::NoMemory) => ExitCode::from(Stop::NoMemory.code()),
        },
    }
}
