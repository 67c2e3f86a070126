//! A sink in memory that grows.
ghost use Rattle.std.specs.Prelude.{◌≡◌, ◌+◌, ◌<◌, [], length, IfOk, Some};

use crate::calls::CallCount;
use crate::faults::FaultCount;
use crate::{Failed, Sink};
use field_core::List;
use std::alloc::Global;

/// A sink in memory that holds a whole text. A put takes the whole piece. It fails only when out of memory, and then appends
/// nothing.
#[derive(Drop)]
pub struct WholeText {
    text: List<u8>,
    faults: FaultCount,
    calls: CallCount,
}

impl WholeText {
    ghost use Rattle.graph_io.specs.WholeText.{held_bytes, fault_count, call_count};

    /// Returns a sink that holds nothing.
    pub fn new(alloc: Global) -> WholeText
        ensures empty { held_bytes result ≡ [] }
        ensures faults { fault_count result ≡ 0 }
        ensures calls { call_count result ≡ 0 }
    {
        WholeText {
            text: List::new(alloc),
            faults: FaultCount::new(),
            calls: CallCount::new(),
        }
    }

    /// Returns what the sink holds.
    pub fn into_text(self) -> List<u8>
        ensures { result ≡ held_bytes self }
    {
        let WholeText { text, .. } = self;
        text
    }
}

impl Sink for WholeText {
    ghost use Rattle.std.specs.Io.{WritesAtMost};
    ghost use Rattle.std.specs.Io.KnownBytes.{WriteAppends};
    ghost use Rattle.graph_io.specs.Causes.{HasCause, CountsFault};
    ghost use Rattle.graph_io.specs.WholeText.{held_bytes, fault_count, call_count};

    ghost held = { λ s. Some (held_bytes s) };

    ghost faults = { fault_count };

    ghost calls = { call_count };

    ghost counted = { λ s. s.faults.in_range };

    fn put(&mut self, bytes: &[u8]) -> Result<usize, Failed>
        ensures bound { WritesAtMost result bytes.now }
        ensures some { IfOk result (λ n. 0 < length bytes.now → 0 < n) }
        ensures bytes { WriteAppends (Some (held_bytes self.old)) (Some (held_bytes self.new))
            result bytes.now }
        ensures cause { HasCause (fault_count self.old) (fault_count self.new) result }
        ensures turn { call_count self.new ≡ call_count self.old + 1 }

        ensures whole { IfOk result (λ n. n ≡ length bytes.now) }
        ensures counted { CountsFault (fault_count self.old) (fault_count self.new) result }
    {
        self.calls.rise();
        let taken = match self.text.append(bytes) {
            Ok(()) => Ok(bytes.len()),
            Err(_) => Err(Failed),
        };
        self.faults.note(taken)
    }
}
