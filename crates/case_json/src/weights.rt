//! Weights of edges.
ghost use Rattle.std.specs.Prelude.{◌≡◌, ◌<◌, ◌^◌, [], unsigned_abs};
ghost use Rattle.serde_json.specs.Data.{number as numeric};
ghost use Rattle.serde_json.specs.View.{view, number_view};
ghost use Rattle.field_core.specs.Answers.{told_as};
ghost use Rattle.case_json.specs.Answers.{IsAnswer, at};
ghost use Rattle.case_json.specs.Document.{whole_entry, weight_of};
ghost use Rattle.entries.specs.Entries.{entry_of};
ghost use Rattle.case_json.specs.declared.fault.JsonFault.TheVariants.{Expr as expr};

use crate::JsonFault;
use crate::keys::field;
use crate::numbers::{integer, whole};
use case_model::Entry;
use edge_expression::ExprFault;
use field_core::{Number, Text};
use fraction::Fraction;
use serde_json::Value;
use std::alloc::Global;

/// Reads an edge expression.
fn expression(alloc: Global, text: &[u8]) -> Result<Entry, JsonFault>
    ensures { IsAnswer result (told_as (expr []) (entry_of text.now)) }
{
    match entries::read_entry(text) {
        Ok(entry) => Ok(entry),
        Err(fault) => Err(JsonFault::Expr(Text::copy(alloc, b"")?, fault)),
    }
}

/// Returns the entry of a whole number.
#[tactic(auto, using(crate::proofs::WholeNumbers::nought_is))]
fn whole_entry(number: Fraction) -> Entry
    ensures { result ≡ whole_entry number }
{
    let zero = whole(0);
    Entry::new([number, zero, zero, zero, zero])
}

/// Reads the weight of an edge from a number.
fn whole_weight(alloc: Global, number: &serde_json::Number) -> Result<Entry, JsonFault>
    ensures { IsAnswer result (weight_of (numeric (number_view number.now))) }
{
    let Some(number) = integer(number) else {
        return Err(JsonFault::not_whole(alloc));
    };
    let weight = whole(number);
    if number.unsigned_abs() > 1_000_000_000_000_000_000 {
        return Err(JsonFault::Expr(Text::copy(alloc, b"")?, ExprFault::Part));
    }
    Ok(whole_entry(weight))
}

/// Reads the weight of an edge from a text or a number.
fn weight(alloc: Global, value: &Value) -> Result<Entry, JsonFault>
    ensures { IsAnswer result (weight_of (view value.now)) }
{
    match value {
        Value::String(text) => expression(alloc, text.as_bytes()),
        Value::Number(number) => whole_weight(alloc, number),
        _ => Err(JsonFault::wrong_kind(alloc)),
    }
}

/// Reads the weight of an edge at a key.
pub fn weight_at(alloc: Global, value: &Value, key: &str) -> Result<Entry, JsonFault>
    ensures { IsAnswer result (at key.now weight_of (view value.now)) }
{
    match weight(alloc, field(alloc, value, key)?) {
        Ok(weight) => Ok(weight),
        Err(fault) => Err(fault.under(alloc, key.as_bytes())),
    }
}
