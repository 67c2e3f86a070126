//! All sets, one after another.
ghost use Rattle.std.specs.Prelude.{◌<◌, ◌≤◌, IfOk};
ghost use Rattle.closed_test.specs.SetLists.{AreSetsInOrder};

use crate::path::Path;
use field_core::{List, NoMemory};
use std::alloc::Global;

/// Returns all sets of a number of hypotheses, from 1 to 16, in the order of sets. Sets are ordered by the ascending lists of
/// the hypotheses that they leave out, a list before those that it begins. The set of all hypotheses is the first.
pub fn sets_in_order(alloc: Global, size: usize) -> Result<List<u32>, NoMemory>
    requires some { 0 < size }
    requires few { size ≤ 16 }
    ensures { IfOk result (λ sets. AreSetsInOrder size sets) }
{
    let mut sets = List::new(alloc);
    let mut path = Path::new(alloc, size)?;
    sets.push(path.set())?;
    'sets: loop {
        match path.step() {
            None => return Ok(sets),
            Some(_) => sets.push(path.set())?,
        }
    }
}
