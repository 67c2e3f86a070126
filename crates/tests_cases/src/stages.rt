//! Levels that p-values meet at a stage.
ghost use Rattle.std.specs.Prelude.{◌≡◌};
ghost use Rattle.std.specs.List.{list_all};
ghost use Rattle.case_model.specs.Draft.{is_short_level};
ghost use Rattle.case_model.specs.StagedCase.{has_short_fractions};

use crate::lines::spends;
use crate::rows::{Terms, expect, fraction};
use crate::stage_faults::MET;
use case_model::{Spend, is_level, is_p_value, is_short_level};
use fraction::Fraction;
use std::process::Abort;

fn are_short_levels(fractions: &[Fraction]) -> bool
    ensures { result ≡ list_all is_short_level fractions.now }
{
    fractions.iter().all(|x| is_short_level(x))
}

fn has_short_fractions(spend: &Spend) -> bool
    ensures { result ≡ has_short_fractions spend.now }
{
    match spend {
        Spend::Shares(fractions) => are_short_levels(fractions.as_slice()),
        Spend::Table(_) => true,
    }
}

/// Whether a p-value meets the level of a stage at a weight, at the level 1/20.
fn meets(rt: &impl Abort, spend: &Spend, t: usize, weight: Terms, p: Terms) -> bool {
    let alpha = fraction(rt, (1, 20));
    let p = fraction(rt, p);
    assert!(rt; has_short_fractions(spend) && is_level(&alpha) && t >= 1 && is_p_value(&p));
    spend.meets(&alpha, t, &fraction(rt, weight), &p)
}

#[test]
fn levels_are_met(rt: HostRuntime) {
    for row in MET {
        let (text, t, weight, p, wanted) = row;
        let spends = spends(&rt, text.as_bytes());
        let spend = spends.as_slice().first().expect(&rt, text);
        expect(&rt, meets(&rt, spend, *t, *weight, *p) == *wanted, row);
    }
}
