//! The bounds of all sets of some hypotheses.
ghost use Rattle.std.specs.Prelude.{◌≡◌, ◌<◌, ◌≤◌, ◌+◌, ◌^◌, ◌⊎◌, ℕ, true, length, get_or};
ghost use Rattle.field_core.specs.NumberedSets.{members};
ghost use Rattle.case_model.specs.SetAnswers.{SaysYes};
ghost use Rattle.case_model.specs.SetTableView.{table_size, answer_of};
ghost use Rattle.case_model.specs.DiscoveryBound.{IsBound};
ghost use Rattle.discovery_bound.specs.BoundLists.{AreBounds};

use case_model::{SetTable, dropped, holds};
use field_core::{List, NoMemory};
use std::alloc::Global;

/// A lower bound on the number of false hypotheses in each set of at most 16 hypotheses.
#[derive(Drop)]
pub struct Bounds {
    size: usize,
    bounds: List<u8>,
    ghost few: { size ≤ 16 },
    ghost room: { length bounds ≡ 2 ^ size },
}

/// Returns the least bound of the sets with one member less, or 16.
fn least_before(m: usize, bounds: &[u8], set: u32) -> u8
    requires few { m ≤ 16 }
    requires set { set < 2 ^ m }
    requires bounds { length bounds.now ≡ set }
    ensures least { (j o : ℕ) → j < m → members set j ≡ true → o + 2 ^ j ≡ set → result ≤ get_or bounds.now o 0 }
    ensures reached { (result ≡ 16) ⊎ ((j : ℕ) × (o : ℕ) × (j < m) × (members set j ≡ true)
        × (o + 2 ^ j ≡ set) × (result ≡ get_or bounds.now o 0)) }
{
    let mut least: u8 = 16;
    for k in 0..m {
        if holds(set, k) {
            least = least.min(bounds[dropped(set, k) as usize]);
        }
    }
    least
}

/// Returns the bound of a set, from those of the sets before it.
fn next_bound(closed: &SetTable, bounds: &[u8], set: u32) -> u8
    requires set { set < 2 ^ table_size closed.now }
    requires count { length bounds.now ≡ set }
    requires bounds { AreBounds (table_size closed.now) (answer_of closed.now) bounds.now set }
    ensures { IsBound (table_size closed.now) (SaysYes (table_size closed.now) (answer_of closed.now)) (members set) result }
{
    if set == 0 || !closed.get(set) {
        return 0;
    }
    least_before(closed.size(), bounds, set) + 1
}

#[tactic(auto, unfolding(crate::specs::BoundsView::bound_of))]
impl Bounds {
    ghost use Rattle.std.specs.Prelude.{◌≡◌, ◌<◌, ◌≤◌, ◌^◌, ℕ, IfOk};
    ghost use Rattle.field_core.specs.NumberedSets.{members};
    ghost use Rattle.case_model.specs.SetAnswers.{SaysYes};
    ghost use Rattle.case_model.specs.SetTableView.{table_size, answer_of};
    ghost use Rattle.case_model.specs.DiscoveryBound.{IsBound};
    ghost use Rattle.discovery_bound.specs.BoundsView.{bounds_size, bound_of};

    /// Returns the bounds of all sets of `m` hypotheses, by any table for `m` hypotheses of which sets are rejected. The empty set
    /// counts as not rejected, whatever the table answers for it.
    ///
    /// The bound of a set is its size minus the greatest size of a subset that isn't rejected.
    pub fn build(alloc: Global, m: usize, closed: &SetTable) -> Result<Bounds, NoMemory>
        requires few { m ≤ 16 }
        requires table { table_size closed.now ≡ m }
        ensures size { IfOk result (λ b. bounds_size b ≡ m) }
        ensures bounds { IfOk result (λ b. (n : ℕ) → n < 2 ^ m
            → IsBound m (SaysYes m (answer_of closed.now)) (members n) (bound_of b n)) }
    {
        let mut bounds = List::new(alloc);
        let sets: u32 = 1 << m;
        for set in 0..sets {
            let bound = next_bound(closed, bounds.as_slice(), set);
            bounds.push(bound)?;
        }
        Ok(Bounds { size: m, bounds })
    }

    /// Returns how many hypotheses there are.
    pub fn size(&self) -> usize
        ensures size { result ≡ bounds_size self.now }
        ensures few { result ≤ 16 }
    {
        self.size
    }

    /// Returns the bound of a set.
    pub fn bound(&self, set: u32) -> u8
        requires { set < 2 ^ bounds_size self.now }
        ensures { result ≡ bound_of self.now set }
    {
        self.bounds.as_slice()[set as usize]
    }
}
