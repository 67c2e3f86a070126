//! Lines of texts that denote no draft.
ghost use Rattle.std.specs.Prelude.{◌≡◌, IfOk};
ghost use Rattle.refusals.specs.LinePieces.{malformed_at, limit_at};
ghost use Rattle.refusals.specs.TextRefusal.{
  number_refusal,
  expression_refusal,
  placed_refusal,
  line_refusal,
  commands_refusal,
};

use crate::line::refusal;
use answers::{Cause, Refusal};
use edge_text::{ExprFault, LineKind};
use field_core::NoMemory;
use fraction::NumberFault;
use std::alloc::Global;

/// Returns the refusal of a malformed input: where, and what is wrong there.
#[tactic(auto, unfolding(crate::specs::LinePieces::malformed_at))]
pub fn malformed_at(alloc: Global, place: &str, kind: &str) -> Result<Refusal, NoMemory>
    ensures { IfOk result (λ refusal. refusal ≡ malformed_at place.now kind.now) }
{
    Ok(refusal(
        Cause::Malformed,
        format!(in alloc; "malformed: {place}: {kind}\n")?,
    ))
}

/// Returns the refusal of a quantity past its limit at a place.
#[tactic(auto, unfolding(crate::specs::LinePieces::past_limit))]
fn limit_at(alloc: Global, place: &str, quantity: &str) -> Result<Refusal, NoMemory>
    ensures { IfOk result (λ refusal. refusal ≡ limit_at place.now quantity.now) }
{
    Ok(refusal(
        Cause::Limit,
        format!(in alloc; "limit: {place}: {quantity}\n")?,
    ))
}

/// Returns the refusal of a numeral at a place that is refused.
#[tactic(auto, unfolding(crate::specs::TextRefusal::number_refusal))]
pub fn number_refusal(alloc: Global, place: &str, fault: NumberFault) -> Result<Refusal, NoMemory>
    ensures { IfOk result (λ refusal. refusal ≡ number_refusal place.now fault) }
{
    match fault {
        NumberFault::Empty | NumberFault::BadByte(_) => malformed_at(alloc, place, "number"),
        NumberFault::ZeroDenominator => malformed_at(alloc, place, "zero denominator"),
        NumberFault::TooManyDigits => limit_at(alloc, place, "digits"),
    }
}

/// Returns the refusal of an expression at a place that is refused.
#[tactic(auto, unfolding(crate::specs::TextRefusal::expression_refusal))]
pub fn expression_refusal(alloc: Global, place: &str, fault: ExprFault) -> Result<Refusal, NoMemory>
    ensures { IfOk result (λ refusal. refusal ≡ expression_refusal place.now fault) }
{
    match fault {
        ExprFault::BadByte(_) => malformed_at(alloc, place, "expression"),
        ExprFault::DivisorNotNumber => malformed_at(alloc, place, "divisor"),
        ExprFault::ZeroDivisor => malformed_at(alloc, place, "zero divisor"),
        ExprFault::Degree => limit_at(alloc, place, "degree"),
        ExprFault::Part => limit_at(alloc, place, "part"),
        ExprFault::Depth => limit_at(alloc, place, "depth"),
    }
}

/// Returns the refusal of a line at a place that isn't allowed.
#[tactic(auto, unfolding(crate::specs::TextRefusal::placed_refusal))]
fn placed_refusal(alloc: Global, place: &str, kind: LineKind) -> Result<Refusal, NoMemory>
    ensures { IfOk result (λ refusal. refusal ≡ placed_refusal place.now kind) }
{
    match kind {
        LineKind::Unexpected => malformed_at(alloc, place, "unexpected"),
        LineKind::Ended => malformed_at(alloc, place, "ended"),
        LineKind::WordCount => malformed_at(alloc, place, "words"),
        LineKind::UnknownName => malformed_at(alloc, place, "unknown name"),
        LineKind::Whole => malformed_at(alloc, place, "whole number"),
        LineKind::Number(fault) => number_refusal(alloc, place, fault),
        LineKind::Expr(fault) => expression_refusal(alloc, place, fault),
    }
}

/// Returns the refusal of a line of a text, by its number from 1, that isn't allowed.
#[tactic(auto, unfolding(crate::specs::TextRefusal::line_refusal))]
pub fn line_refusal(alloc: Global, line: usize, kind: LineKind) -> Result<Refusal, NoMemory>
    ensures { IfOk result (λ refusal. refusal ≡ line_refusal line kind) }
{
    let place = format!(in alloc; "line {line}")?;
    placed_refusal(alloc, &place, kind)
}

/// Returns the refusal of a line of the commands of a study that cannot be read; `line` counts from 1.
#[tactic(auto, unfolding(crate::specs::TextRefusal::commands_refusal))]
pub fn commands_refusal(alloc: Global, line: usize, kind: LineKind) -> Result<Refusal, NoMemory>
    ensures { IfOk result (λ refusal. refusal ≡ commands_refusal line kind) }
{
    let place = format!(in alloc; "commands line {line}")?;
    placed_refusal(alloc, &place, kind)
}
