//! The sizes of named graphs.
ghost use Rattle.std.specs.Prelude.{◌≡◌, ◌≤◌, ◌+◌, None, Some, IfOk, IfErr};
ghost use Rattle.catalogue.specs.Sizes.{size_fault, sizes_fault};

use crate::CatalogueFault;

/// The most hypotheses that a case may have.
const MOST: u64 = 64;

/// Returns a number of hypotheses, or `Size` if it isn't from 1 to 64.
#[tactic(auto, unfolding(crate::specs::Sizes::size_fault))]
pub fn size_of(n: u64) -> Result<usize, CatalogueFault>
    ensures size { IfOk result (λ size. size ≡ n) }
    ensures range { IfOk result (λ size. (1 ≤ size) × (size ≤ 64)) }
    ensures good { IfOk result (λ _. size_fault n ≡ None) }
    ensures fault { IfErr result (λ fault. size_fault n ≡ Some fault) }
{
    if n == 0 || n > MOST {
        return Err(CatalogueFault::Size(n));
    }
    Ok(n as usize)
}

/// Returns two numbers of hypotheses, or `Size` if one of them is 0 or their sum is above 64.
#[tactic(auto, unfolding(crate::specs::Sizes::size_fault, crate::specs::Sizes::sizes_fault))]
pub fn sizes_of(a: u64, b: u64) -> Result<(usize, usize), CatalogueFault>
    ensures sizes { IfOk result (λ sizes. (sizes.0 ≡ a) × (sizes.1 ≡ b)) }
    ensures range { IfOk result (λ sizes. (1 ≤ sizes.0) × (1 ≤ sizes.1) × (sizes.0 + sizes.1 ≤ 64)) }
    ensures good { IfOk result (λ _. sizes_fault a b ≡ None) }
    ensures fault { IfErr result (λ fault. sizes_fault a b ≡ Some fault) }
{
    if a == 0 || b == 0 {
        return Err(CatalogueFault::Size(0));
    }
    let total = a.saturating_add(b);
    if total > MOST {
        return Err(CatalogueFault::Size(total));
    }
    Ok((a as usize, b as usize))
}
