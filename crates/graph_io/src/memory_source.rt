//! A source in memory.
ghost use Rattle.std.specs.Prelude.{◌≡◌, ◌+◌, min, length, drop, Ok, Some, IfOk};
ghost use Rattle.std.proofs.Common.{lit<};

use crate::calls::CallCount;
use crate::remaining::Remaining;
use crate::{Failed, Source};
use field_core::List;

/// A source of bytes in memory. It exposes its bytes and never fails.
#[derive(Drop)]
pub struct MemorySource {
    rest: Remaining,
    calls: CallCount,
}

impl MemorySource {
    ghost use Rattle.graph_io.specs.MemorySource.{bytes_left, call_count};

    /// Returns a source of these bytes.
    pub fn new(bytes: List<u8>) -> MemorySource
        ensures bytes { bytes_left result ≡ bytes }
        ensures calls { call_count result ≡ 0 }
    {
        MemorySource {
            rest: Remaining::new(bytes),
            calls: CallCount::new(),
        }
    }
}

impl Source for MemorySource {
    ghost use Rattle.std.specs.Io.{ReadsAtMost};
    ghost use Rattle.std.specs.Io.KnownBytes.{ReadConsumes};
    ghost use Rattle.graph_io.specs.Causes.{HasCause};
    ghost use Rattle.graph_io.specs.MemorySource.{bytes_left, call_count};

    ghost left = { λ s. Some (bytes_left s) };

    ghost faults = { λ s. 0 };

    ghost calls = { call_count };

    ghost counted = { λ s. lit< tt };

    fn take(&mut self, buf: &mut [u8]) -> Result<usize, Failed>
        ensures bound { ReadsAtMost result buf.new }
        ensures bytes { ReadConsumes (Some (bytes_left self.old)) (Some (bytes_left self.new)) result buf.new }
        ensures cause { HasCause 0 0 result }
        ensures turn { call_count self.new ≡ call_count self.old + 1 }

        ensures count { result ≡ Ok (min (length (bytes_left self.old)) (length buf.old)) }
        ensures beyond { IfOk result (λ n. drop n buf.new ≡ drop n buf.old) }
    {
        self.calls.rise();
        let most = buf.len();
        Ok(self.rest.move_into(buf, most))
    }
}
