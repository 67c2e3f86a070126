//! Stages, and the p-values that arrived at them.
ghost use Rattle.std.specs.Prelude.{None as Absent, codes};
ghost use Rattle.serde_json.specs.View.{view};
ghost use Rattle.case_json.specs.Answers.{IsAnswer, at, at_or, list_of};
ghost use Rattle.case_json.specs.Document.{arrival_of, stages_of, some_stages};

use crate::JsonFault;
use crate::hypotheses::Hypotheses;
use crate::keys::{field, known_keys};
use crate::numbers::{count_at, number_at};
use crate::parts::items;
use crate::spends::spends_at;
use case_model::{Arrival, DraftStages};
use field_core::List;
use serde_json::Value;
use std::alloc::Global;

/// Reads a p-value that arrived, of one of the hypotheses.
fn arrival(alloc: Global, hypotheses: &Hypotheses, value: &Value) -> Result<Arrival, JsonFault>
    ensures { IsAnswer result (arrival_of hypotheses.now.names (view value.now)) }
{
    known_keys(alloc, value, &["hypothesis", "stage", "p"])?;
    let hypothesis = hypotheses.position_at(alloc, value, "hypothesis")?;
    let stage = count_at(alloc, value, "stage")?;
    let p = number_at(alloc, value, "p")?;
    Ok(Arrival {
        hypothesis,
        stage: stage as usize,
        p,
    })
}

/// Reads an array of arrivals.
fn arrivals(
    alloc: Global,
    hypotheses: &Hypotheses,
    value: &Value,
) -> Result<List<Arrival>, JsonFault>
    ensures { IsAnswer result (list_of (arrival_of hypotheses.now.names) (view value.now)) }
{
    items(alloc, value, |item| arrival(alloc, hypotheses, item))
}

/// Reads the arrivals of stages.
fn arrivals_at(
    alloc: Global,
    hypotheses: &Hypotheses,
    value: &Value,
) -> Result<List<Arrival>, JsonFault>
    ensures { IsAnswer result (at (codes "arrivals") (list_of (arrival_of hypotheses.now.names)) (view value.now)) }
{
    match arrivals(alloc, hypotheses, field(alloc, value, "arrivals")?) {
        Ok(arrivals) => Ok(arrivals),
        Err(fault) => Err(fault.under(alloc, b"arrivals")),
    }
}

/// Reads stages of the hypotheses.
fn stages(alloc: Global, hypotheses: &Hypotheses, value: &Value) -> Result<DraftStages, JsonFault>
    ensures { IsAnswer result (stages_of hypotheses.now.names (view value.now)) }
{
    known_keys(alloc, value, &["count", "spend", "arrivals"])?;
    let count = count_at(alloc, value, "count")?;
    let spend = spends_at(alloc, value)?;
    let arrivals = arrivals_at(alloc, hypotheses, value)?;
    Ok(DraftStages {
        count,
        spend,
        arrivals,
    })
}

/// Reads the stages of a document, none if the key is missing.
pub fn stages_at(
    alloc: Global,
    hypotheses: &Hypotheses,
    value: &Value,
) -> Result<Option<DraftStages>, JsonFault>
    ensures { IsAnswer result (at_or Absent (codes "stages") (some_stages hypotheses.now.names) (view value.now)) }
{
    let Some(part) = value.get("stages") else {
        return Ok(None);
    };
    match stages(alloc, hypotheses, part) {
        Ok(stages) => Ok(Some(stages)),
        Err(fault) => Err(fault.under(alloc, b"stages")),
    }
}
