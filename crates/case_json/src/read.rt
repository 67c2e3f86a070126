//! The reader of JSON.
ghost use Rattle.std.specs.Prelude.{◌≡◌, ◌≢◌, ◌⊎◌, IfOk, IfErr};
ghost use Rattle.serde_json.specs.View.{view};
ghost use Rattle.case_model.specs.declared.fault.CaseFault.TheVariants.{NoMemory as OutOfMemory};
ghost use Rattle.case_json.specs.Answers.{IsAnswer};
ghost use Rattle.case_json.specs.Document.{document_of};
ghost use Rattle.case_json.specs.Reading.{SaysDraft, IsCaseOf, IsJsonFault};
ghost use Rattle.case_json.specs.declared.fault.JsonFault.TheVariants as faults;

use crate::JsonFault;
use crate::components::components_at;
use crate::hypotheses::{Hypotheses, texts_at};
use crate::keys::known_keys;
use crate::numbers::{number_at, p_values};
use crate::stages::stages_at;
use case_model::{Case, CaseFault, Draft, Refused};
use serde_json::Value;
use std::alloc::Global;

/// Reads the case that JSON denotes. It is refused with the first fault of the value, or else with the first error in the draft,
/// or with `NoMemory`. `Syntax` is reported exactly if `serde_json` refuses the bytes for another cause than memory.
///
/// The value is an object. Its keys are `alpha`, a number, `hypotheses`, an array of texts, and `components`, an array of
/// objects. There may be `p`, an array, and `stages`, an object. A component has `weights`, an array of numbers, and `edges`,
/// and perhaps `share`, a number, which is 1 if it is not written. An edge has `from` and `to`, names of hypotheses, and
/// `weight`. Stages have `count`, a whole number of at least 0. They have `spend`, for each hypothesis an array of numbers or
/// an object with the one key `steps`. They have `arrivals`, each with `hypothesis`, `stage`, a whole number of at least 0, and
/// `p`. A step has `from`, a number, and `levels`, an array of numbers.
///
/// A number is a text that `Fraction::parse` reads, or a whole number of JSON that is held as an integer of 64 bits. The
/// weight of an edge is a text that `read_entry` reads, or such a whole number of at most 10^18 in size. A place of `p` may
/// be null, for a p-value that is not given.
///
/// In each object unknown keys are found first. Then the values are read in the order in which they are named here, with `p`
/// before `components`, `share` before `weights`, and `stages` last. The order of the keys in the bytes does not matter. A key
/// that is missing is found at its place. The draft is checked once the value is read.
pub fn read_json(alloc: Global, bytes: &[u8]) -> Result<Case, JsonFault>
    ensures case { IfOk result (IsCaseOf bytes.now) }
    ensures fault { IfErr result (IsJsonFault bytes.now) }
{
    match read_draft(alloc, bytes)?.finish(alloc) {
        Ok(case) => Ok(case),
        Err(refused) => Err(json_fault(refused)),
    }
}

/// Reads the draft that JSON denotes.
fn read_draft(alloc: Global, bytes: &[u8]) -> Result<Draft, JsonFault>
    ensures found { IfOk result (SaysDraft bytes.now) }
    ensures fault { IfErr result (IsJsonFault bytes.now) }
{
    match Value::from_slice(alloc, bytes) {
        Ok(value) => draft(alloc, &value),
        Err(error) => if error.is_memory() {
            Err(JsonFault::NoMemory)
        } else {
            Err(JsonFault::Syntax)
        },
    }
}

/// Reads the draft that a value denotes.
fn draft(alloc: Global, value: &Value) -> Result<Draft, JsonFault>
    ensures { IsAnswer result (document_of (view value.now)) }
{
    known_keys(
        alloc,
        value,
        &["alpha", "hypotheses", "p", "components", "stages"],
    )?;
    let alpha = number_at(alloc, value, "alpha")?;
    let names = texts_at(alloc, value, "hypotheses")?;
    let hypotheses = Hypotheses::of(alloc, names)?;
    let p = p_values(alloc, value)?;
    let components = components_at(alloc, &hypotheses, value)?;
    let stages = stages_at(alloc, &hypotheses, value)?;
    Ok(Draft {
        names: hypotheses.into_names(),
        alpha,
        p,
        components,
        stages,
    })
}

/// Returns the error of JSON whose draft is refused.
fn json_fault(refused: Refused) -> JsonFault
    ensures { ((refused.fault ≡ OutOfMemory) × (result ≡ faults.NoMemory))
        ⊎ ((refused.fault ≢ OutOfMemory) × (result ≡ faults.Case refused)) }
{
    match refused.fault {
        CaseFault::NoMemory => JsonFault::NoMemory,
        _ => JsonFault::Case(refused),
    }
}
