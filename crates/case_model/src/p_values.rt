//! The p-values of a draft.
ghost use Rattle.std.specs.Prelude.{◌≡◌, IfOk, is_some, is_none};
ghost use Rattle.std.specs.List.{list_any};
ghost use Rattle.case_model.specs.Content.{given};
ghost use Rattle.case_model.specs.declared.fault.CaseFault.TheVariants.{PMissing};
ghost use Rattle.case_model.specs.CaseFaults.{
  ◌when◌,
  first_of,
  is_long_p_value,
  long_p_value,
  p_missing,
  is_outside,
  p_range,
  p_values_fault,
};

use crate::fraction_tests::{is_short_p_value, is_unit};
use crate::{CaseFault, PartPlace};
use fraction::Fraction;
use std::alloc::{AllocError, Global};

/// Whether a p-value is given and has a denominator above 10^30.
fn is_long_p_value(p: &Option<Fraction>) -> bool
    ensures { result ≡ is_long_p_value p.now }
{
    match p {
        Some(p) => !is_short_p_value(p),
        None => false,
    }
}

/// Returns the fault of the first p-value with a denominator above 10^30.
#[tactic(auto, unfolding(crate::specs::CaseFaults::long_p_value, crate::specs::CaseFaults::first_from), using(crate::proofs::FirstFaults::walks))]
pub fn long_p_value(p: &[Option<Fraction>]) -> Option<CaseFault>
    ensures { result ≡ long_p_value p.now }
{
    for i in 0..p.len() {
        if is_long_p_value(&p[i]) {
            return Some(CaseFault::PartTooLong(PartPlace::P(i)));
        }
    }
    None
}

/// Whether some p-value is given.
pub fn has_some(p: &[Option<Fraction>]) -> bool
    ensures { result ≡ list_any is_some p.now }
{
    p.iter().any(|p| p.is_some())
}

/// Whether the p-value at a place isn't given.
fn is_missing(p: &Option<Fraction>) -> bool
    ensures { result ≡ is_none p.now }
{
    p.is_none()
}

/// Returns the fault of the first p-value that isn't given.
#[tactic(auto, unfolding(crate::specs::CaseFaults::first_from), using(crate::proofs::FirstFaults::walks))]
fn first_missing(p: &[Option<Fraction>]) -> Option<CaseFault>
    ensures { result ≡ first_of (λ i p. PMissing i when is_none p) p.now }
{
    for i in 0..p.len() {
        if is_missing(&p[i]) {
            return Some(CaseFault::PMissing(i));
        }
    }
    None
}

/// Returns the fault of the first p-value that isn't given, if some p-value is given.
#[tactic(auto, unfolding(crate::specs::CaseFaults::p_missing))]
fn p_missing(p: &[Option<Fraction>]) -> Option<CaseFault>
    ensures { result ≡ p_missing p.now }
{
    if has_some(p) { first_missing(p) } else { None }
}

/// Whether a p-value is given and isn't from 0 to 1.
fn is_outside(p: &Option<Fraction>) -> bool
    ensures { result ≡ is_outside p.now }
{
    match p {
        Some(p) => !is_unit(p),
        None => false,
    }
}

/// Returns the fault of the first p-value that isn't from 0 to 1.
#[tactic(auto, unfolding(crate::specs::CaseFaults::p_range, crate::specs::CaseFaults::first_from), using(crate::proofs::FirstFaults::walks))]
fn p_range(p: &[Option<Fraction>]) -> Option<CaseFault>
    ensures { result ≡ p_range p.now }
{
    for i in 0..p.len() {
        if is_outside(&p[i]) {
            return Some(CaseFault::PRange(i));
        }
    }
    None
}

/// Returns the first fault of the p-values of a number of hypotheses.
#[tactic(auto, unfolding(crate::specs::CaseFaults::p_values_fault, crate::specs::CaseFaults::p_count))]
pub fn p_values_fault(count: usize, p: &[Option<Fraction>]) -> Option<CaseFault>
    ensures { result ≡ p_values_fault count p.now }
{
    if !p.is_empty() && p.len() != count {
        return Some(CaseFault::PCount(p.len()));
    }
    p_missing(p).or_else(|| p_range(p))
}

/// Returns the p-values that are given.
#[tactic(auto, unfolding(crate::specs::Content::given))]
pub fn given(alloc: Global, p: &[Option<Fraction>]) -> Result<Vec<Fraction>, AllocError>
    ensures { IfOk result (λ ps. ps.items ≡ given p.now) }
{
    p.iter().filter_map(|p| *p).collect(alloc)
}
