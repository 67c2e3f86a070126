//! Numbers and counts.
ghost use Rattle.std.specs.Prelude.{◌≡◌, ◌<◌, ◌^◌, [], unsigned_abs, Some, IfSome, codes};
ghost use Rattle.serde_json.specs.Find.{as_integer};
ghost use Rattle.serde_json.specs.View.{view, number_view};
ghost use Rattle.field_core.specs.Answers.{told_as};
ghost use Rattle.case_json.specs.Answers.{IsAnswer, at, at_or, list_of};
ghost use Rattle.case_json.specs.Document.{number_of, place_of, count_of};
ghost use Rattle.fraction.specs.Numerals.{numeral_of};
ghost use Rattle.case_json.specs.WholeRatios.{whole_ratio};
ghost use Rattle.case_json.specs.declared.fault.JsonFault.TheVariants.{Number as refused};

use crate::JsonFault;
use crate::keys::field;
use crate::parts::items;
use field_core::{List, Ratio, Text};
use fraction::Fraction;
use serde_json::Value;
use std::alloc::Global;

/// Returns the whole number of a JSON number that is held as an integer, which has at most 64 bits; `None` for any other.
pub fn integer(number: &serde_json::Number) -> Option<i128>
    ensures value { result ≡ as_integer (number_view number.now) }
    ensures size { IfSome result (λ z. unsigned_abs z < 2 ^ 64) }
{
    match number.as_u64() {
        Some(whole) => Some(whole as i128),
        None => match number.as_i64() {
            Some(whole) => Some(whole as i128),
            None => None,
        },
    }
}

/// Returns a whole number of at most 64 bits as a fraction.
pub fn whole(number: i128) -> Fraction
    requires { unsigned_abs number < 2 ^ 64 }
    ensures { whole_ratio number ≡ Some result }
{
    Fraction::of(Ratio::new(number, 1))
}

/// Reads a numeral.
fn numeral(alloc: Global, text: &[u8]) -> Result<Fraction, JsonFault>
    ensures { IsAnswer result (told_as (refused []) (numeral_of text.now)) }
{
    match Fraction::parse(text) {
        Ok(value) => Ok(value),
        Err(fault) => Err(JsonFault::Number(Text::copy(alloc, b"")?, fault)),
    }
}

/// Reads a number.
pub fn number(alloc: Global, value: &Value) -> Result<Fraction, JsonFault>
    ensures { IsAnswer result (number_of (view value.now)) }
{
    match value {
        Value::String(text) => numeral(alloc, text.as_bytes()),
        Value::Number(number) => match integer(number) {
            Some(number) => Ok(whole(number)),
            None => Err(JsonFault::not_whole(alloc)),
        },
        _ => Err(JsonFault::wrong_kind(alloc)),
    }
}

/// Reads the number at a key.
pub fn number_at(alloc: Global, value: &Value, key: &str) -> Result<Fraction, JsonFault>
    ensures { IsAnswer result (at key.now number_of (view value.now)) }
{
    match number(alloc, field(alloc, value, key)?) {
        Ok(number) => Ok(number),
        Err(fault) => Err(fault.under(alloc, key.as_bytes())),
    }
}

/// Reads an array of numbers.
pub fn numbers(alloc: Global, value: &Value) -> Result<List<Fraction>, JsonFault>
    ensures { IsAnswer result (list_of number_of (view value.now)) }
{
    items(alloc, value, |item| number(alloc, item))
}

/// Reads the array of numbers at a key.
pub fn numbers_at(alloc: Global, value: &Value, key: &str) -> Result<List<Fraction>, JsonFault>
    ensures { IsAnswer result (at key.now (list_of number_of) (view value.now)) }
{
    match numbers(alloc, field(alloc, value, key)?) {
        Ok(numbers) => Ok(numbers),
        Err(fault) => Err(fault.under(alloc, key.as_bytes())),
    }
}

/// Reads a p-value, or none from null.
fn place(alloc: Global, value: &Value) -> Result<Option<Fraction>, JsonFault>
    ensures { IsAnswer result (place_of (view value.now)) }
{
    match value {
        Value::Null => Ok(None),
        _ => Ok(Some(number(alloc, value)?)),
    }
}

/// Reads an array of p-values.
fn places(alloc: Global, value: &Value) -> Result<List<Option<Fraction>>, JsonFault>
    ensures { IsAnswer result (list_of place_of (view value.now)) }
{
    items(alloc, value, |item| place(alloc, item))
}

/// Reads the p-values of a document, of which there are none if the key is missing.
pub fn p_values(alloc: Global, value: &Value) -> Result<List<Option<Fraction>>, JsonFault>
    ensures { IsAnswer result (at_or [] (codes "p") (list_of place_of) (view value.now)) }
{
    let Some(part) = value.get("p") else {
        return Ok(List::new(alloc));
    };
    match places(alloc, part) {
        Ok(places) => Ok(places),
        Err(fault) => Err(fault.under(alloc, b"p")),
    }
}

/// Reads a whole number of at least 0.
fn count(alloc: Global, value: &Value) -> Result<u64, JsonFault>
    ensures { IsAnswer result (count_of (view value.now)) }
{
    let Value::Number(number) = value else {
        return Err(JsonFault::wrong_kind(alloc));
    };
    if number.is_f64() {
        return Err(JsonFault::not_whole(alloc));
    }
    match number.as_u64() {
        Some(count) => Ok(count),
        None => Err(JsonFault::wrong_kind(alloc)),
    }
}

/// Reads the whole number of at least 0 at a key.
pub fn count_at(alloc: Global, value: &Value, key: &str) -> Result<u64, JsonFault>
    ensures { IsAnswer result (at key.now count_of (view value.now)) }
{
    match count(alloc, field(alloc, value, key)?) {
        Ok(count) => Ok(count),
        Err(fault) => Err(fault.under(alloc, key.as_bytes())),
    }
}
