//! The items of arrays.
ghost use Rattle.serde_json.specs.View.{view, items_view};
ghost use Rattle.case_json.specs.Answers.{IsListBy, IsEachBy};
ghost use Rattle.case_json.specs.Values.{item_list};

use crate::JsonFault;
use field_core::List;
use serde_json::Value;
use std::alloc::Global;

/// Reads values one after another, up to the first that `read` refuses.
fn each_item<T: Drop, F: Fn(&Value) -> Result<T, JsonFault>>(
    alloc: Global,
    values: &[Value],
    read: F,
) -> Result<List<T>, JsonFault>
    requires { F.IsAlwaysCallable read }
    ensures { IsEachBy F.Fn read (item_list (items_view values.now)) result }
{
    let mut said = List::new(alloc);
    for i in 0..values.len() {
        match read(&values[i]) {
            Ok(item) => said.push(item)?,
            Err(fault) => return Err(fault.at(alloc, i)),
        }
    }
    Ok(said)
}

/// Reads the items of an array, each by `read`.
pub fn items<T: Drop, F: Fn(&Value) -> Result<T, JsonFault>>(
    alloc: Global,
    value: &Value,
    read: F,
) -> Result<List<T>, JsonFault>
    requires { F.IsAlwaysCallable read }
    ensures { IsListBy F.Fn read (view value.now) result }
{
    match value {
        Value::Array(values) => each_item(alloc, values.as_slice(), read),
        _ => Err(JsonFault::wrong_kind(alloc)),
    }
}
