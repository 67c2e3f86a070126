//! Bytes that are given out from the front.
ghost use Rattle.std.specs.Prelude.{◌≡◌, ℕ, ◌≤◌, ◌<◌, min, List as Seq, ◌++◌, length, drop, take};

use field_core::List;
use std::marker::Model;

/// The bytes that are still to be given out.
#[derive(Drop)]
pub(crate) struct Remaining {
    bytes: List<u8>,
    at: usize,
}

impl Model for Remaining {
    ghost Value = { Seq ℕ };

    ghost view = { λ r. drop r.at r.bytes };

    ghost invariant = { λ r. r.at ≤ length r.bytes };
}

impl Remaining {
    pub(crate) fn new(bytes: List<u8>) -> Remaining
        ensures { result ≡ bytes }
    {
        Remaining { bytes, at: 0 }
    }

    /// Moves at most `most` bytes into the front of `buf`, and returns how many.
    pub(crate) fn move_into(&mut self, buf: &mut [u8], most: usize) -> usize
        ensures count { result ≡ min most (min (length self.old) (length buf.old)) }
        ensures moved { self.old ≡ take result buf.new ++ self.new }
        ensures untouched { drop result buf.new ≡ drop result buf.old }
    {
        let rest = &self.bytes.as_slice()[self.at..];
        let count = rest.len().min(buf.len()).min(most);
        buf[..count].copy_from_slice(&rest[..count]);
        self.at += count;
        count
    }
}
