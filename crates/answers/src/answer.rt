//! Answers of calls.
ghost use Rattle.std.specs.Prelude.{◌≡◌};

use crate::status::Status;
use field_core::List;

/// What a command prints, and how it ended.
#[derive(Drop)]
pub struct Answer {
    pub status: Status,
    pub text: List<u8>,
}

impl Answer {
    ghost use Rattle.answers.specs.Lines.{done};

    /// Returns the answer with this text and the status `Done`.
    pub fn done(text: List<u8>) -> Answer
        ensures { result ≡ done text }
    {
        Answer {
            status: Status::Done,
            text,
        }
    }
}
