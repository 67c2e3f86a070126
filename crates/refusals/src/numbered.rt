//! Lines with at most one number.
ghost use Rattle.std.specs.Prelude.{◌≡◌, IfOk};
ghost use Rattle.refusals.specs.CatalogueRefusal.{size_refusal, seed_refusal};
ghost use Rattle.refusals.specs.NeedRefusal.{kind_refusal, closure_refusal};
ghost use Rattle.refusals.specs.RecordRefusal.{record_refusal};
ghost use Rattle.refusals.specs.UsageRefusal.{usage};

use crate::line::refusal;
use answers::{Cause, Refusal};
use field_core::NoMemory;
use std::alloc::Global;

/// Returns the refusal of the words of a call; `word` is the number, from 1, of the first that isn't allowed.
#[tactic(auto, unfolding(crate::specs::UsageRefusal::usage))]
pub fn usage(alloc: Global, word: usize) -> Result<Refusal, NoMemory>
    ensures { IfOk result (λ refusal. refusal ≡ usage word) }
{
    Ok(refusal(Cause::Usage, format!(in alloc; "usage: word {word}\n")?))
}

/// Returns the refusal of p-values that aren't of the kind that a command needs.
#[tactic(auto, unfolding(crate::specs::NeedRefusal::kind_refusal))]
pub fn kind_refusal(alloc: Global) -> Result<Refusal, NoMemory>
    ensures { IfOk result (λ refusal. refusal ≡ kind_refusal) }
{
    Ok(refusal(Cause::Malformed, format!(in alloc; "malformed: kind\n")?))
}

/// Returns the refusal of a case of more hypotheses than a command takes.
#[tactic(auto, unfolding(crate::specs::NeedRefusal::closure_refusal, crate::specs::LinePieces::past_limit))]
pub fn closure_refusal(alloc: Global, n: usize) -> Result<Refusal, NoMemory>
    ensures { IfOk result (λ refusal. refusal ≡ closure_refusal n) }
{
    Ok(refusal(Cause::Limit, format!(in alloc; "limit: closure {n}\n")?))
}

/// Returns the refusal of a size that is 0 or too large.
#[tactic(auto, unfolding(crate::specs::CatalogueRefusal::size_refusal, crate::specs::LinePieces::past_limit))]
pub fn size_refusal(alloc: Global, n: u64) -> Result<Refusal, NoMemory>
    ensures { IfOk result (λ refusal. refusal ≡ size_refusal n) }
{
    Ok(refusal(Cause::Limit, format!(in alloc; "limit: size {n}\n")?))
}

/// Returns the refusal of a seed that is too large.
#[tactic(auto, unfolding(crate::specs::CatalogueRefusal::seed_refusal, crate::specs::LinePieces::past_limit))]
pub fn seed_refusal(alloc: Global, n: u64) -> Result<Refusal, NoMemory>
    ensures { IfOk result (λ refusal. refusal ≡ seed_refusal n) }
{
    Ok(refusal(Cause::Limit, format!(in alloc; "limit: seed {n}\n")?))
}

/// Returns the refusal of a look of the keeper, by its number from 1, that can't be taken.
#[tactic(auto, unfolding(crate::specs::RecordRefusal::record_refusal))]
pub fn record_refusal(alloc: Global, n: usize) -> Result<Refusal, NoMemory>
    ensures { IfOk result (λ refusal. refusal ≡ record_refusal n) }
{
    Ok(refusal(
        Cause::Malformed,
        format!(in alloc; "malformed: record {n}\n")?,
    ))
}
