//! The calls for C, all in the caller's memory:
//! - `welungad_run` takes words, a case and a proof, and gives a text and a status.
//! - `welungad_read` reads doubles as fractions.
//! - `welungad_test_rows` decides a case with many rows of p-values.
//! - `welungad_update` returns the graph of a case after removals.
//! - `welungad_interface` returns the number of this interface.
//!
//! Proved:
//! - `welungad_run`, `answers`: if the bytes are those of words, the call gives the answer to them, the case and the proof
//!   (`outcome` of `graph_cli`), or is out of memory. As much of the text as fits is put into the caller's memory, and its whole
//!   length is reported. Status 7 comes exactly when the text doesn't fit.
//! - `welungad_run`, `unread`: if the bytes are not those of words, the status is 10 and nothing is put, or the call is out of
//!   memory.
//! - `welungad_read`: each double has the parts of its reading (`reading_of` of `typed_numbers`) in its four words, or four zeros
//!   exactly if it has no reading. If there aren't four words for each double, the status is 11 and nothing is written.
//! - `welungad_test_rows`: each row is tested (`AreRowsTested` of `trial_rows`) on the case that the text denotes. This requires
//!   that the case has no stages, that the lengths fit it, and that its opening is defined. If not, or if out of memory, nothing
//!   is written, and the status gives the reason. A refused text has the status that the program gives it.
//! - `welungad_update`: if the text denotes a case and the positions are those of hypotheses, each once, the text of the graph
//!   after these removals (`IsUpdate` of `graph_update`) is delivered. If an operation is undefined, the line that names the
//!   first one is delivered. A refused text has the line and the status that the program gives it. Other positions have status
//!   11 and no text.
//! - `welungad_interface`.
//!
//! Not proved, as at any export: that the caller's C code keeps what `c/welungad.h` requires.
#![tactic(auto)]

ghost use Rattle.std.specs.Prelude.{◌≡◌, ℕ, List};
ghost use Rattle.welungad_c.specs.Words.{AreWords};
ghost use Rattle.welungad_c.specs.Calls.{Answers, HasNoWords};
ghost use Rattle.welungad_c.specs.Readings.{Reads};
ghost use Rattle.welungad_c.specs.RowCalls.{TestsRows};
ghost use Rattle.welungad_c.specs.UpdateCalls.{Updates};

mod delivery;
mod readings;
mod reply;
mod rows;
#[cfg(test)]
mod tests;
mod update;
mod words;

use delivery::deliver;
use field_core::NoMemory;
use readings::write_readings;
use reply::Reply;
use rows::test_text;
use std::alloc::Global;
use update::update_reply;
use words::{NoWords, words_of};

/// Returns the number of this interface. It changes when a parameter, a status or the meaning of a call changes.
#[unsafe(no_mangle)]
pub extern "C" fn welungad_interface() -> u32
    ensures { result ≡ 1 }
{
    1
}

/// Does what the program does for all words except those of a study, in the caller's memory.
///
/// - `words` are the words after the program's name, each ended by a byte 0.
/// - `case` holds the bytes of standard input, and `proof` those of the file that the words name.
/// - As much of the text as fits goes to the front of `out`, and the rest of `out` stays. `needed` becomes the length of the
///   whole text.
///
/// Statuses:
/// - 0 to 5 and 8: those of the program
/// - 7: the text doesn't fit into `out`
/// - 10: `words` aren't words in UTF-8, each ended by a byte 0; then `out` stays, and `needed` becomes 0
#[unsafe(no_mangle)]
pub extern "C" fn welungad_run(
    alloc: Global,
    words: &[u8],
    case: &[u8],
    proof: &[u8],
    out: &mut [u8],
    needed: &mut usize,
) -> u8
    ensures answers { (ws : List (List ℕ)) → AreWords words.now ws →
        Answers ws case.now proof.now out.old out.new needed.new result }
    ensures unread { ((ws : List (List ℕ)) → ¬ AreWords words.now ws) →
        HasNoWords out.old out.new needed.new result }
{
    match words_of(alloc, words) {
        Ok(words) => match Reply::to(alloc, words.as_slice(), case, proof) {
            Ok(reply) => deliver(reply.text.as_slice(), reply.status, out, needed),
            Err(NoMemory) => deliver(b"no memory\n", 8, out, needed),
        },
        Err(NoWords::NoMemory) => deliver(b"no memory\n", 8, out, needed),
        Err(NoWords::Unreadable) => {
            *needed = 0;
            10
        }
    }
}

/// Reads doubles, given by their bits, as the fractions that they stand for.
///
/// `out` gets four words for each double: the numerator and then the denominator, each as its low word and its high word. A
/// double without a reading gets four zeros.
///
/// Statuses:
/// - 0: the words of each double are written
/// - 11: `out` doesn't have four words for each double; then it stays
#[unsafe(no_mangle)]
pub extern "C" fn welungad_read(doubles: &[u64], out: &mut [u64]) -> u8
    ensures { Reads doubles.now out.old out.new result }
{
    if out.len() % 4 != 0 || out.len() / 4 != doubles.len() {
        return 11;
    }
    write_readings(doubles, out);
    0
}

/// Decides the case of a text with each of many rows of p-values, which take the place of its own p-values, if it has any.
///
/// `doubles` holds the bits of each double, and `rejected` a mark for each hypothesis, both row by row. `statuses` holds a status
/// for each row:
/// - 0: the row is decided; a mark of it is 1 if its hypothesis is rejected, and else 0
/// - 3: a double of the row has no reading; all marks of the row are 0
/// - 5: the run is undefined; all marks of the row are 0
///
/// Statuses of the call; with each except 0 nothing is written:
/// - 0: each row has its status
/// - 3, 4, 5: the text is refused, as `canon` refuses it, or its opening is undefined; 3 also if the case has stages
/// - 8: out of memory
/// - 11: there aren't a double and a mark for each hypothesis in each row
#[unsafe(no_mangle)]
pub extern "C" fn welungad_test_rows(
    alloc: Global,
    case: &[u8],
    doubles: &[u64],
    rejected: &mut [u8],
    statuses: &mut [u8],
) -> u8
    ensures { TestsRows case.now doubles.now rejected.old rejected.new statuses.old statuses.new result }
{
    test_text(alloc, case, doubles, rejected, statuses)
}

/// Puts the text of the graph of a case after the removals of hypotheses, one after another.
///
/// - `case` is the text of a case. Its p-values or stages, if it has some, are read as every command reads them and are not used.
/// - `removed` has the positions of the hypotheses from 0 on, in the order of their removal, each once.
/// - As much of the text as fits goes to the front of `out`, and the rest of `out` stays. `needed` becomes the length of the
///   whole text. `graph_update::update` has its lines.
///
/// Statuses:
/// - 0: the text is that of the graph
/// - 3, 4, 5: the text of the case is refused, and the line of the refusal is put
/// - 5: also if an operation is undefined; a line names the first one, in the opening (step 0) or in a removal (from step 1 on)
/// - 7: the text doesn't fit into `out`
/// - 8: out of memory
/// - 11: a position is not that of a hypothesis, or is there twice; then `out` stays, and `needed` becomes 0
#[unsafe(no_mangle)]
pub extern "C" fn welungad_update(
    alloc: Global,
    case: &[u8],
    removed: &[usize],
    out: &mut [u8],
    needed: &mut usize,
) -> u8
    ensures { Updates case.now removed.now out.old out.new needed.new result }
{
    match update_reply(alloc, case, removed) {
        Ok(reply) => deliver(reply.text.as_slice(), reply.status, out, needed),
        Err(NoMemory) => deliver(b"no memory\n", 8, out, needed),
    }
}
