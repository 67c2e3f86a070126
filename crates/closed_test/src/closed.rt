//! The closed test of all sets, from the local test of each.
ghost use Rattle.std.specs.Prelude.{◌≡◌, ◌<◌, ◌+◌, ◌^◌, ◌↔◌, ℕ, true, false, IfOk};
ghost use Rattle.field_core.specs.NumberedSets.{members};
ghost use Rattle.case_model.specs.SetAnswers.{IsYesAbove, AreClosedFrom};
ghost use Rattle.case_model.specs.SetTableView.{table_size, answer_of};

use case_model::{SetTable, added, holds};
use field_core::NoMemory;
use std::alloc::Global;

/// Whether the answers for all sets with one member more than this one are true.
fn all_larger(closed: &SetTable, set: u32) -> bool
    requires { set < 2 ^ table_size closed.now }
    ensures { (result ≡ true) ↔ ((k : ℕ) → k < table_size closed.now → members set k ≡ false
        → answer_of closed.now (set + 2 ^ k) ≡ true) }
{
    for k in 0..closed.size() {
        if !holds(set, k) && !closed.get(added(set, k)) {
            return false;
        }
    }
    true
}

/// Whether `local` answers true for each set that contains a set. `closed` has this answer for all sets with a greater number.
fn answer(local: &SetTable, closed: &SetTable, set: u32) -> bool
    requires size { table_size closed.now ≡ table_size local.now }
    requires set { set < 2 ^ table_size local.now }
    requires closed { AreClosedFrom (table_size local.now) (answer_of local.now) (answer_of closed.now) (set + 1) }
    ensures { (result ≡ true) ↔ IsYesAbove (table_size local.now) (answer_of local.now) set }
{
    local.get(set) && all_larger(closed, set)
}

/// Returns the answers of the closed test, given those of the local test for all sets. The answer for a set is true exactly if
/// the local test rejects each set that contains it.
///
/// The sets are taken in descending order of their numbers, down to the empty set, of which the same holds.
pub fn closed_answers(alloc: Global, local: &SetTable) -> Result<SetTable, NoMemory>
    ensures size { IfOk result (λ t. table_size t ≡ table_size local.now) }
    ensures answers { IfOk result (λ t. AreClosedFrom (table_size local.now) (answer_of local.now) (answer_of t) 0) }
{
    let mut closed = SetTable::new(alloc, local.size())?;
    let sets: u32 = 1 << local.size();
    for done in 0..sets {
        let set = sets - 1 - done;
        let answer = answer(local, &closed, set);
        closed.put(set, answer);
    }
    Ok(closed)
}
