//! A source and a sink over std's readers and writers.
ghost use Rattle.std.specs.Prelude.{◌≡◌, ◌+◌, ◌<◌, length, IfOk, Ok};
ghost use Rattle.std.specs.Io.{ReadsAtMost, WritesAtMost};
ghost use Rattle.std.specs.Io.KnownBytes.{ReadConsumes, WriteAppends};
ghost use Rattle.graph_io.specs.Causes.{HasCause, CountsFault};
ghost use Rattle.graph_io.specs.Adapters.{reader_of, read_faults, read_calls, writer_of, write_faults, write_calls};

use crate::calls::CallCount;
use crate::faults::FaultCount;
use crate::{Failed, Sink, Source};
use std::io::{Read, Write};

/// A reader as a source. It exposes what the reader exposes, keeps no bytes, and counts the errors.
#[derive(Drop)]
pub struct StdSource<R> {
    inner: R,
    faults: FaultCount,
    calls: CallCount,
}

impl<R> StdSource<R> {
    /// Returns a source of what this reader gives.
    pub fn new(inner: R) -> StdSource<R>
        ensures inner { reader_of result ≡ inner }
        ensures faults { read_faults result ≡ 0 }
        ensures calls { read_calls result ≡ 0 }
    {
        StdSource {
            inner,
            faults: FaultCount::new(),
            calls: CallCount::new(),
        }
    }
}

impl<R: Read> Source for StdSource<R> {
    ghost left = { λ s. R.remaining (reader_of s) };

    ghost faults = { read_faults };

    ghost calls = { read_calls };

    ghost counted = { λ s. s.faults.in_range };

    fn take(&mut self, buf: &mut [u8]) -> Result<usize, Failed>
        ensures bound { ReadsAtMost result buf.new }
        ensures bytes { ReadConsumes (R.remaining (reader_of self.old))
            (R.remaining (reader_of self.new)) result buf.new }
        ensures cause { HasCause (read_faults self.old) (read_faults self.new) result }
        ensures turn { read_calls self.new ≡ read_calls self.old + 1 }

        ensures counted { CountsFault (read_faults self.old) (read_faults self.new) result }
    {
        self.calls.rise();
        let moved = self.inner.read(buf).map_err(|_| Failed);
        self.faults.note(moved)
    }
}

/// A writer as a sink. It exposes what the writer exposes, keeps no bytes, and counts the errors; that the writer takes
/// nothing of a piece that isn't empty counts as one. An empty piece is not a fault.
#[derive(Drop)]
pub struct StdSink<W> {
    inner: W,
    faults: FaultCount,
    calls: CallCount,
}

impl<W> StdSink<W> {
    /// Returns a sink that passes all bytes to this writer.
    pub fn new(inner: W) -> StdSink<W>
        ensures inner { writer_of result ≡ inner }
        ensures faults { write_faults result ≡ 0 }
        ensures calls { write_calls result ≡ 0 }
    {
        StdSink {
            inner,
            faults: FaultCount::new(),
            calls: CallCount::new(),
        }
    }
}

impl<W: Write> Sink for StdSink<W> {
    ghost held = { λ s. W.contents (writer_of s) };

    ghost faults = { write_faults };

    ghost calls = { write_calls };

    ghost counted = { λ s. s.faults.in_range };

    fn put(&mut self, bytes: &[u8]) -> Result<usize, Failed>
        ensures bound { WritesAtMost result bytes.now }
        ensures some { IfOk result (λ n. 0 < length bytes.now → 0 < n) }
        ensures bytes { WriteAppends (W.contents (writer_of self.old))
            (W.contents (writer_of self.new)) result bytes.now }
        ensures cause { HasCause (write_faults self.old) (write_faults self.new) result }
        ensures turn { write_calls self.new ≡ write_calls self.old + 1 }

        ensures counted { CountsFault (write_faults self.old) (write_faults self.new) result }

        // An empty piece is put without asking the writer.
        ensures empty { length bytes.now ≡ 0 → result ≡ Ok 0 }
    {
        self.calls.rise();
        if bytes.is_empty() {
            return Ok(0);
        }
        let taken = match self.inner.write(bytes) {
            Ok(count) if count > 0 => Ok(count),
            _ => Err(Failed),
        };
        self.faults.note(taken)
    }
}
