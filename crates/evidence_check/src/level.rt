//! Levels, as sums of shares times limits.
ghost use Rattle.std.specs.Prelude.{◌≡◌, ◌<◌, ℕ, map, length, Result as Answer};
ghost use Rattle.field_core.specs.Kind.{Parts, Kind, ok_map};
ghost use Rattle.fraction.specs.Plain.{fraction_parts};
ghost use Rattle.field_core.specs.declared.ratio.Ratio.{Ratio};
ghost use Rattle.field_core.specs.Exact.{value_of};
ghost use Rattle.case_model.specs.TextbookRules.{does_pass};
ghost use Rattle.case_model.specs.CaseView.{content};
ghost use Rattle.case_numbers.specs.Numbers.{Numbers};
ghost use Rattle.evidence_check.specs.WrittenCheck.{is_above_zero, shared_sum, level_by};
ghost use Rattle.evidence_check.specs.CaseCheck.{IsSingle, loaded_case};
ghost use Rattle.evidence_check.specs.declared.event.CheckEvent.{CheckEvent as Ended};

use crate::event::CheckEvent;
use crate::loading::p_value;
use crate::rows::number;
use crate::sums::with_product;
use case_model::{Case, passes};
use field_core::{Number, Place, try_fill};
use fraction::Fraction;

/// Returns the level of `k`: the written sum of the shares, each times the limit in its component.
fn shared_sum(case: &Case, k: usize, limits: &[Fraction]) -> Result<Fraction, CheckEvent>
    requires { length limits.now ≡ length (content case.now).components }
    ensures { (K : Kind) (n : Numbers) → ok_map fraction_parts result ≡ shared_sum (loaded_case K n
        (content case.now)) k (map fraction_parts limits.now) }
{
    let mut sum = Fraction::zero();
    for c in 0..limits.len() {
        sum = with_product(c, Place::Level(k), &sum, &case.share(c), &number(limits, c))?;
    }
    Ok(sum)
}

/// Returns the level of `k` by the limits that `limit` gives in the components. All of them are written to `limits` before the
/// sum is computed.
fn level_in<L: Fn(usize) -> Result<Fraction, CheckEvent>>(
    case: &Case,
    k: usize,
    limits: &mut [Fraction],
    limit: L,
) -> Result<Fraction, CheckEvent>
    requires limit { (c : ℕ) → c < length (content case.now).components → L.pre limit c }
    requires room { length limits.old ≡ length (content case.now).components }
    ensures { (K : Kind) (n : Numbers) (f : ℕ → Answer Parts Ended)
        → ((c : ℕ) (r : Answer Ratio Ended) → c < length (content case.now).components → L.post limit c r
        → ok_map fraction_parts r ≡ f c)
        → ok_map fraction_parts result ≡ level_by (loaded_case K n (content case.now)) k f }
{
    try_fill(limits, limit)?;
    shared_sum(case, k, limits)
}

/// Returns the level of `k` by the limits that `limit` gives in the components. All of them are computed before the sum.
pub fn level<L: Fn(usize) -> Result<Fraction, CheckEvent>>(
    case: &Case,
    k: usize,
    limit: L,
) -> Result<Fraction, CheckEvent>
    requires { (c : ℕ) → c < length (content case.now).components → L.pre limit c }
    ensures { (K : Kind) (n : Numbers) (f : ℕ → Answer Parts Ended)
        → ((c : ℕ) (r : Answer Ratio Ended) → c < length (content case.now).components → L.post limit c r
        → ok_map fraction_parts r ≡ f c)
        → ok_map fraction_parts result ≡ level_by (loaded_case K n (content case.now)) k f }
{
    let mut limits = [Fraction::zero(); 8];
    level_in(case, k, &mut limits[..case.components()], limit)
}

/// Whether a level is above 0.
pub fn is_above_zero(level: &Fraction) -> bool
    ensures { result ≡ is_above_zero (value_of (fraction_parts level.now)) }
{
    *level > Fraction::zero()
}

/// Whether the p-value of `k` passes at a level times that of the case.
pub fn passes_at(case: &Case, k: usize, level: &Fraction) -> bool
    requires single { IsSingle (content case.now).inputs }
    requires k { k < length (content case.now).names }
    ensures { (K : Kind) (n : Numbers) → result ≡ does_pass ((loaded_case K n (content case.now)).p k) (value_of
        (fraction_parts level.now))
        (loaded_case K n (content case.now)).alpha }
{
    passes(&p_value(case, k), level, &case.alpha())
}
