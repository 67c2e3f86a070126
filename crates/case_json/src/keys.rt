//! The keys of objects.
ghost use Rattle.std.specs.Prelude.{◌≡◌, [], Some, IfOk, IfErr, map, true, false};
ghost use Rattle.std.specs.List.{list_any};
ghost use Rattle.std.specs.Str.{bytes_eq};
ghost use Rattle.serde_json.specs.Find.{get};
ghost use Rattle.serde_json.specs.View.{view, members_view};
ghost use Rattle.case_json.specs.Values.{OrMemory, Misses, is_object_of, are_among};
ghost use Rattle.case_json.specs.Answers.{IsAnswer, with_keys};
ghost use Rattle.case_json.specs.declared.fault.JsonFault.TheVariants.{Shape as shape};

use crate::JsonFault;
use serde_json::{Map, Value};
use std::alloc::Global;

/// Whether a key is among these.
fn is_among(key: &str, keys: &[&str]) -> bool
    ensures { result ≡ list_any (bytes_eq key.now) (map (λ known. known.now) keys.now) }
{
    for i in 0..keys.len() {
        if key == keys[i] {
            return true;
        }
    }
    false
}

/// Whether all keys of an object are among these.
fn have_only(members: &Map<String, Value>, keys: &[&str]) -> bool
    ensures { result ≡ are_among (map (λ key. key.now) keys.now) (members_view members.now.entries) }
{
    for (key, _) in members.iter() {
        if !is_among(key.as_str(), keys) {
            return false;
        }
    }
    true
}

/// Whether a value is an object all of whose keys are among these.
fn has_only(value: &Value, keys: &[&str]) -> bool
    ensures { result ≡ is_object_of (map (λ key. key.now) keys.now) (view value.now) }
{
    match value {
        Value::Object(members) => have_only(members, keys),
        _ => false,
    }
}

/// Refuses a value that is not an object, or that has other keys than these.
pub fn known_keys(alloc: Global, value: &Value, keys: &[&str]) -> Result<(), JsonFault>
    ensures { IsAnswer result (with_keys (map (λ key. key.now) keys.now) (view value.now)) }
{
    if !has_only(value, keys) {
        return Err(JsonFault::wrong_kind(alloc));
    }
    Ok(())
}

/// Returns the value at a key of an object, or the fault that the key is missing.
pub fn field<'v>(alloc: Global, value: &'v Value, key: &str) -> Result<&'v Value, JsonFault>
    ensures found { IfOk result (λ part. get key.now (view value.now) ≡ Some (view part.now)) }
    ensures fault { IfErr result (OrMemory (Misses key.now (view value.now))) }
{
    match value.get(key) {
        Some(part) => Ok(part),
        None => Err(JsonFault::wrong_kind(alloc).under(alloc, key.as_bytes())),
    }
}
