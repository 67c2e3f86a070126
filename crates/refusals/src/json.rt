//! Lines of JSON that gives no case.
ghost use Rattle.std.specs.Prelude.{◌≡◌, ◌≢◌, IfOk};
ghost use Rattle.case_json.specs.declared.fault.JsonFault.TheVariants.{NoMemory as OutOfMemory};
ghost use Rattle.refusals.specs.JsonRefusal.{json_refusal};

use crate::case::case_refusal;
use crate::text::{expression_refusal, malformed_at, number_refusal};
use answers::Refusal;
use case_json::JsonFault;
use field_core::{NoMemory, Text};
use std::alloc::Global;

/// Returns a path as UTF-8, as each path of JSON is. Any other path gives `NoMemory`, since no line can have it.
fn path_text(path: &Text) -> Result<&str, NoMemory>
    ensures { IfOk result (λ text. text.now ≡ path.now) }
{
    str::from_utf8(path.as_bytes()).map_err(|_| NoMemory)
}

/// Returns the refusal of JSON with this fault, with its path as it is; `NoMemory` if the fault is that, or when out of memory.
#[tactic(auto, unfolding(crate::specs::JsonRefusal::json_refusal))]
pub fn json_refusal(alloc: Global, fault: &JsonFault) -> Result<Refusal, NoMemory>
    ensures line { IfOk result (λ refusal. refusal ≡ json_refusal fault.now) }
    ensures memory { IfOk result (λ refusal. fault.now ≢ OutOfMemory) }
{
    match fault {
        JsonFault::Syntax => malformed_at(alloc, "json", "syntax"),
        JsonFault::Shape(path) => malformed_at(alloc, path_text(path)?, "shape"),
        JsonFault::NotWhole(path) => malformed_at(alloc, path_text(path)?, "not whole"),
        JsonFault::Number(path, why) => number_refusal(alloc, path_text(path)?, *why),
        JsonFault::UnknownName(path) => malformed_at(alloc, path_text(path)?, "unknown name"),
        JsonFault::Expr(path, why) => expression_refusal(alloc, path_text(path)?, *why),
        JsonFault::Case(refused) => case_refusal(alloc, refused.names.as_slice(), &refused.fault),
        JsonFault::NoMemory => Err(NoMemory),
    }
}
