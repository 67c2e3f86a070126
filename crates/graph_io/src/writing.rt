//! Sinks, and writing whole texts.
ghost use Rattle.std.specs.Prelude.{◌≡◌, ℕ, ◌+◌, ◌≤◌, ◌<◌, ◌^◌, List as Seq, length, IfOk};
ghost use Rattle.std.specs.declared.option.Option.{Option};
ghost use Rattle.std.specs.Io.{WritesAtMost};
ghost use Rattle.std.specs.Io.KnownBytes.{WriteAppends};
ghost use Rattle.graph_io.specs.Causes.{HasCause};
ghost use Rattle.graph_io.specs.Writing.{PutAll};

use crate::Failed;

/// A place where bytes are written.
pub trait Sink {
    /// The bytes that it holds, if contracts know them; else `None`.
    ghost held: { Self → Option (Seq ℕ) };

    /// How often a call failed.
    ghost faults: { Self → ℕ };

    /// How many calls were made.
    ghost calls: { Self → ℕ };

    /// Appends the first bytes of `bytes`, at least one if there are any, and returns how many. A failed call appends nothing.
    fn put(&mut self, bytes: &[u8]) -> Result<usize, Failed>
        ensures bound { WritesAtMost result bytes.now }
        ensures some { IfOk result (λ n. 0 < length bytes.now → 0 < n) }
        ensures bytes { WriteAppends (held self.old) (held self.new) result bytes.now }
        ensures cause { HasCause (faults self.old) (faults self.new) result }
        ensures turn { calls self.new ≡ calls self.old + 1 };

    /// The count of faults stays below 2^64.
    ghost counted: { (s : Self) → faults s < 2 ^ 64 };
}

/// Puts all bytes into a sink, after what it holds. After a failure the sink holds a prefix of them, and its count of faults rose;
/// otherwise the count stays. At most one put is made for each byte.
pub fn write_all<W: Sink>(sink: &mut W, bytes: &[u8]) -> Result<(), Failed>
    ensures bytes { PutAll (W.held sink.old) (W.held sink.new) bytes.now result }
    ensures cause { HasCause (W.faults sink.old) (W.faults sink.new) result }
    ensures turns { W.calls sink.new ≤ W.calls sink.old + length bytes.now }
{
    let mut from = 0;
    'pieces: while from < bytes.len() {
        from += sink.put(&bytes[from..])?;
    }
    Ok(())
}
