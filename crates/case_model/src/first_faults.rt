//! What a test finds first.
ghost use Rattle.std.specs.Prelude.{◌≡◌, ℕ, Option};
ghost use Rattle.case_model.specs.declared.fault.CaseFault.{CaseFault};
ghost use Rattle.case_model.specs.CaseFaults.{first_of};

use crate::CaseFault;

/// Returns what a test of items at their places finds first in a list.
pub fn first_fault<T, F: Fn(&T, usize) -> Option<CaseFault>>(
    items: &[T],
    test: F,
) -> Option<CaseFault>
    requires { F.IsAlwaysCallable test }
    ensures { (row : ℕ → T → Option CaseFault) → ((x : _) (i : ℕ) (r : Option CaseFault) → F.post test x i r
        → r ≡ row i x.now) → result ≡ first_of row items.now }
{
    for i in 0..items.len() {
        let fault = test(&items[i], i);
        if fault.is_some() {
            return fault;
        }
    }
    None
}
