//! A fixed room for bytes.
ghost use Rattle.std.specs.Prelude.{
  ◌≡◌,
  ◌<◌,
  ◌≤◌,
  ◌↔◌,
  ◌++◌,
  [],
  min,
  length,
  take,
  IfOk,
  MatchResult,
  IsErr,
  vec_len,
  vec_capacity,
};

use crate::Failed;
use field_core::NoMemory;
use std::alloc::Global;

/// Bytes in a room that is reserved from the start.
#[derive(Drop)]
pub(crate) struct Room {
    held: Vec<u8>,
    size: usize,
    ghost fits: { vec_len held ≤ size },
    ghost reserved: { size ≤ vec_capacity held },
}

impl Room {
    ghost use Rattle.graph_io.specs.Room.{held_in, free_in, TakesRoom};

    /// Returns an empty room for this number of bytes.
    pub(crate) fn new(alloc: Global, size: usize) -> Result<Room, NoMemory>
        ensures empty { IfOk result (λ room. held_in room ≡ []) }
        ensures free { IfOk result (λ room. free_in room ≡ size) }
    {
        let held = Vec::with_capacity(alloc, size)?;
        Ok(Room { held, size })
    }

    pub(crate) fn held(&self) -> &[u8]
        ensures { result.now ≡ held_in self.now }
    {
        self.held.as_slice()
    }

    /// Takes the bytes that fit, at most `most` of them, and returns how many. It fails exactly if there are bytes and none of them
    /// can be taken; then the room stays as it was.
    pub(crate) fn put(&mut self, bytes: &[u8], most: usize) -> Result<usize, Failed>
        ensures failed { IsErr result
            ↔ ((min most (free_in self.old) ≡ 0) × (0 < length bytes.now)) }
        ensures count { IfOk result
            (λ n. n ≡ min (length bytes.now) (min most (free_in self.old))) }
        ensures held { MatchResult result
            (λ n. held_in self.new ≡ held_in self.old ++ take n bytes.now)
            (λ _. held_in self.new ≡ held_in self.old) }
        ensures free { TakesRoom (free_in self.old) (free_in self.new) result }
    {
        let count = bytes.len().min(most.min(self.size - self.held.len()));
        if count == 0 && !bytes.is_empty() {
            return Err(Failed);
        }
        match self.held.extend_from_slice(&bytes[..count]) {
            Ok(()) => Ok(count),
            Err(_) => unreachable!(),
        }
    }
}
