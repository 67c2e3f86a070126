//! The top call.
ghost use Rattle.std.specs.Prelude.{◌≡◌, ◌<◌, ℕ, None, OnOk, IfSome};
ghost use Rattle.std.specs.Io.KnownBytes.{IsAtEnd};
ghost use Rattle.answers.specs.Devices.{reading, writing};
ghost use Rattle.answers.specs.Runs.{Runs, Uses, IsConcluded};
ghost use Rattle.answers.specs.Ways.{EndsIn, IfConcluded};
ghost use Rattle.command_words.specs.WordBytes.{words_in};
ghost use Rattle.graph_cli.specs.Accepted.{IsTakenWithin};
ghost use Rattle.graph_cli.specs.Outcome.{NamesFile, ways_of, ReadsCase, ReadsProof, RefusesCase};

use crate::commands::call;
use answers::{Answer, Stop, conclude};
use command_words::{read_study, read_words};
use graph_io::{Sink, Source};
use refusals::usage;
use std::alloc::Global;

/// Returns the place, from 0, of the word that names a file: the file of a proof, or that of the commands of a study. `None` if
/// no word does.
pub fn file_word(words: &[String]) -> Option<usize>
    ensures file { IfSome result (NamesFile (words_in words.now)) }
    ensures none { result ≡ None → (place : ℕ) → ¬ NamesFile (words_in words.now) place }
{
    match read_words(words) {
        Ok(command) => command.file(),
        Err(_) => match read_study(words) {
            Ok(call) => Some(call.file),
            Err(_) => None,
        },
    }
}

/// Returns the answer that these words, this case and this proof require.
#[tactic(auto, using(crate::proofs::Taken::untouched))]
fn answer<S: Source, T: Source>(
    alloc: Global,
    words: &[String],
    case: &mut S,
    proof: &mut T,
) -> Result<Answer, Stop>
    ensures ends { EndsIn (ways_of (words_in words.now) (reading S.Source case.old) (reading S.Source case.new)
        (reading T.Source proof.old) (reading T.Source proof.new)) result }
    ensures case_kept { ¬ ReadsCase (words_in words.now) → case.new ≡ case.old }
    ensures case_end { ReadsCase (words_in words.now) → OnOk result (IsAtEnd (S.left case.new)) }
    ensures proof_kept { ¬ ReadsProof (words_in words.now) (S.left case.old) → proof.new ≡ proof.old }
    ensures proof_end { ReadsProof (words_in words.now) (S.left case.old) → OnOk result (IsAtEnd (T.left proof.new)) }
    ensures proof_asked { ReadsProof (words_in words.now) (S.left case.old) →
        ¬ RefusesCase (words_in words.now) (S.left case.old) →
        IfConcluded (T.calls proof.old < T.calls proof.new) result }
    ensures case_taken { IsTakenWithin S.left S.calls case.old case.new }
    ensures proof_taken { IsTakenWithin T.left T.calls proof.old proof.new }
{
    match read_words(words) {
        Err(n) => Err(Stop::Refused(usage(alloc, n)?)),
        Ok(command) => call(alloc, &command, case, proof),
    }
}

/// Makes a call of the program, and does all that the call does.
///
/// - `words` are the words after the program's name, `case` is standard input, and `proof` is the file that `file_word` names.
/// - `out` gets the text of the answer, or one line that names the reason why there is none.
/// - A source that the command doesn't read stays as it was. `proof` is read only after a case that the command can take, and
///   then before anything is answered.
/// - An input may have at most 4194304 bytes. If a source isn't read to its end, at most one byte more than that is taken from
///   it.
///
/// Statuses:
/// - 0: done
/// - 1: the proof doesn't hold
/// - 2: the words aren't accepted
/// - 3: an input is malformed, or isn't of the kind that the command needs
/// - 4: an input, a size or a seed is past a limit, or a size is 0
/// - 5: a number of the case or of its run is too wide
/// - 6: a source that is read had a fault
/// - 7: `out` had a fault
/// - 8: out of memory
pub fn run<S: Source, T: Source, W: Sink>(
    alloc: Global,
    words: &[String],
    case: &mut S,
    proof: &mut T,
    out: &mut W,
) -> u8
    ensures runs { Runs (ways_of (words_in words.now) (reading S.Source case.old) (reading S.Source case.new)
        (reading T.Source proof.old) (reading T.Source proof.new)) (writing W.Sink out.old) (writing W.Sink out.new) result }
    ensures case { Uses S.left (ReadsCase (words_in words.now)) case.old case.new result }
    ensures proof { Uses T.left (ReadsProof (words_in words.now) (S.left case.old)) proof.old proof.new result }
    ensures proof_asked { ReadsProof (words_in words.now) (S.left case.old) →
        ¬ RefusesCase (words_in words.now) (S.left case.old) → IsConcluded result →
        T.calls proof.old < T.calls proof.new }
    ensures case_taken { IsTakenWithin S.left S.calls case.old case.new }
    ensures proof_taken { IsTakenWithin T.left T.calls proof.old proof.new }
{
    let outcome = answer(alloc, words, case, proof);
    conclude(out, &outcome)
}
