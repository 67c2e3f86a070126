//! What hypotheses spend of their levels at the stages: fractions, or tables of levels.
ghost use Rattle.std.specs.Prelude.{codes};
ghost use Rattle.serde_json.specs.View.{view};
ghost use Rattle.case_json.specs.Answers.{IsAnswer, at, list_of};
ghost use Rattle.case_json.specs.Document.{step_of, table_of, spend_of};

use crate::JsonFault;
use crate::keys::{field, known_keys};
use crate::numbers::{number_at, numbers, numbers_at};
use crate::parts::items;
use case_model::{Spend, SpendStep};
use field_core::List;
use serde_json::Value;
use std::alloc::Global;

/// Reads a step of a table.
fn step(alloc: Global, value: &Value) -> Result<SpendStep, JsonFault>
    ensures { IsAnswer result (step_of (view value.now)) }
{
    known_keys(alloc, value, &["from", "levels"])?;
    let from = number_at(alloc, value, "from")?;
    let levels = numbers_at(alloc, value, "levels")?;
    Ok(SpendStep { from, levels })
}

/// Reads an array of steps.
fn steps(alloc: Global, value: &Value) -> Result<List<SpendStep>, JsonFault>
    ensures { IsAnswer result (list_of step_of (view value.now)) }
{
    items(alloc, value, |item| step(alloc, item))
}

/// Reads the steps at the key of a table.
fn steps_at(alloc: Global, value: &Value) -> Result<List<SpendStep>, JsonFault>
    ensures { IsAnswer result (at (codes "steps") (list_of step_of) (view value.now)) }
{
    match steps(alloc, field(alloc, value, "steps")?) {
        Ok(steps) => Ok(steps),
        Err(fault) => Err(fault.under(alloc, b"steps")),
    }
}

/// Reads a table of steps, an object of one key.
fn table(alloc: Global, value: &Value) -> Result<List<SpendStep>, JsonFault>
    ensures { IsAnswer result (table_of (view value.now)) }
{
    known_keys(alloc, value, &["steps"])?;
    steps_at(alloc, value)
}

/// Reads what a hypothesis spends: an array of fractions, or a table of steps.
fn spend(alloc: Global, value: &Value) -> Result<Spend, JsonFault>
    ensures { IsAnswer result (spend_of (view value.now)) }
{
    match value {
        Value::Array(_) => Ok(Spend::Shares(numbers(alloc, value)?)),
        Value::Object(_) => Ok(Spend::Table(table(alloc, value)?)),
        _ => Err(JsonFault::wrong_kind(alloc)),
    }
}

/// Reads an array of what hypotheses spend.
fn spends(alloc: Global, value: &Value) -> Result<List<Spend>, JsonFault>
    ensures { IsAnswer result (list_of spend_of (view value.now)) }
{
    items(alloc, value, |item| spend(alloc, item))
}

/// Reads what the hypotheses of stages spend.
pub fn spends_at(alloc: Global, value: &Value) -> Result<List<Spend>, JsonFault>
    ensures { IsAnswer result (at (codes "spend") (list_of spend_of) (view value.now)) }
{
    match spends(alloc, field(alloc, value, "spend")?) {
        Ok(spends) => Ok(spends),
        Err(fault) => Err(fault.under(alloc, b"spend")),
    }
}
