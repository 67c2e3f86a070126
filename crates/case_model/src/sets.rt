//! Sets of hypotheses as numbers: bit `k` is 1 if the hypothesis `k` is in the set.
ghost use Rattle.std.specs.Prelude.{◌≡◌, ◌<◌, ◌+◌, ◌^◌, true, false};
ghost use Rattle.field_core.specs.Sets.{HaveSameMembers, dropping, adding};
ghost use Rattle.field_core.specs.NumberedSets.{members};

/// Whether `k` is in a set.
#[tactic(auto, unfolding(field_core::specs::NumberedSets::members))]
pub fn holds(set: u32, k: usize) -> bool
    requires { k < 16 }
    ensures { result ≡ members set k }
{
    (set >> k) & 1 == 1
}

/// Returns the set without its member `k`.
pub fn dropped(set: u32, k: usize) -> u32
    requires set { set < 2 ^ 16 }
    requires k { k < 16 }
    requires member { members set k ≡ true }
    ensures number { result + 2 ^ k ≡ set }
    ensures set { HaveSameMembers 16 (members result) (dropping k (members set)) }
{
    set - (1 << k)
}

/// Returns the set with the member `k` added.
pub fn added(set: u32, k: usize) -> u32
    requires set { set < 2 ^ 16 }
    requires k { k < 16 }
    requires outside { members set k ≡ false }
    ensures number { result ≡ set + 2 ^ k }
    ensures set { HaveSameMembers 16 (members result) (adding k (members set)) }
{
    set + (1 << k)
}
