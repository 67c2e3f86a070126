//! How a call ends: its answer, or the line that says why there is none, is put into the sink.
ghost use Rattle.std.specs.Prelude.{◌≤◌, ◌+◌, length};
ghost use Rattle.answers.specs.Devices.{writing};
ghost use Rattle.answers.specs.Runs.{Finished, text_of, status_of};

use crate::answer::Answer;
use crate::stop::Stop;
use graph_io::{Sink, write_all};

/// Puts a text, and returns its status, or 7 if putting failed.
fn finish<W: Sink>(out: &mut W, text: &[u8], status: u8) -> u8
    ensures finished { Finished (writing W.Sink out.old) (writing W.Sink out.new) text.now status result }
    ensures turns { W.calls out.new ≤ W.calls out.old + length text.now }
{
    match write_all(out, text) {
        Ok(()) => status,
        Err(_) => 7,
    }
}

/// Puts an answer, or the line that says why there is none, and returns the status.
///
/// The status is that of the answer or of the refusal. It is 6 if a source had a fault, 8 when out of memory, and 9 if the keeper
/// had a fault; but 7 if putting failed.
pub fn conclude<W: Sink>(out: &mut W, outcome: &Result<Answer, Stop>) -> u8
    ensures finished { Finished (writing W.Sink out.old) (writing W.Sink out.new)
        (text_of outcome.now) (status_of outcome.now) result }
    ensures turns { W.calls out.new ≤ W.calls out.old + length (text_of outcome.now) }
{
    match outcome {
        Ok(answer) => finish(out, answer.text.as_slice(), answer.status.code()),
        Err(stop) => finish(out, stop.line(), stop.code()),
    }
}
