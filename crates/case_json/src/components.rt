//! Edges and components.
ghost use Rattle.std.specs.Prelude.{codes};
ghost use Rattle.serde_json.specs.View.{view};
ghost use Rattle.case_json.specs.Answers.{IsAnswer, at, at_or, list_of};
ghost use Rattle.case_json.specs.Document.{number_of, one, edge_of, component_of};

use crate::JsonFault;
use crate::hypotheses::Hypotheses;
use crate::keys::{field, known_keys};
use crate::numbers::{number, numbers_at};
use crate::parts::items;
use crate::weights::weight_at;
use case_model::{DraftComponent, DraftEdge};
use field_core::{List, Number};
use fraction::Fraction;
use serde_json::Value;
use std::alloc::Global;

/// Reads an edge between two of the hypotheses.
fn edge(alloc: Global, hypotheses: &Hypotheses, value: &Value) -> Result<DraftEdge, JsonFault>
    ensures { IsAnswer result (edge_of hypotheses.now.names (view value.now)) }
{
    known_keys(alloc, value, &["from", "to", "weight"])?;
    let from = hypotheses.position_at(alloc, value, "from")?;
    let to = hypotheses.position_at(alloc, value, "to")?;
    let entry = weight_at(alloc, value, "weight")?;
    Ok(DraftEdge { from, to, entry })
}

/// Reads an array of edges.
fn edges(
    alloc: Global,
    hypotheses: &Hypotheses,
    value: &Value,
) -> Result<List<DraftEdge>, JsonFault>
    ensures { IsAnswer result (list_of (edge_of hypotheses.now.names) (view value.now)) }
{
    items(alloc, value, |item| edge(alloc, hypotheses, item))
}

/// Reads the edges of a component.
fn edges_at(
    alloc: Global,
    hypotheses: &Hypotheses,
    value: &Value,
) -> Result<List<DraftEdge>, JsonFault>
    ensures { IsAnswer result (at (codes "edges") (list_of (edge_of hypotheses.now.names)) (view value.now)) }
{
    match edges(alloc, hypotheses, field(alloc, value, "edges")?) {
        Ok(edges) => Ok(edges),
        Err(fault) => Err(fault.under(alloc, b"edges")),
    }
}

/// Reads the share of a component, which is 1 if the key is missing.
fn share(alloc: Global, value: &Value) -> Result<Fraction, JsonFault>
    ensures { IsAnswer result (at_or one (codes "share") number_of (view value.now)) }
{
    let Some(part) = value.get("share") else {
        return Ok(Fraction::one());
    };
    match number(alloc, part) {
        Ok(share) => Ok(share),
        Err(fault) => Err(fault.under(alloc, b"share")),
    }
}

/// Reads a component, whose edges go between the hypotheses.
fn component(
    alloc: Global,
    hypotheses: &Hypotheses,
    value: &Value,
) -> Result<DraftComponent, JsonFault>
    ensures { IsAnswer result (component_of hypotheses.now.names (view value.now)) }
{
    known_keys(alloc, value, &["share", "weights", "edges"])?;
    let share = share(alloc, value)?;
    let weights = numbers_at(alloc, value, "weights")?;
    let edges = edges_at(alloc, hypotheses, value)?;
    Ok(DraftComponent {
        share,
        weights,
        edges,
    })
}

/// Reads an array of components.
fn components(
    alloc: Global,
    hypotheses: &Hypotheses,
    value: &Value,
) -> Result<List<DraftComponent>, JsonFault>
    ensures { IsAnswer result (list_of (component_of hypotheses.now.names) (view value.now)) }
{
    items(alloc, value, |item| component(alloc, hypotheses, item))
}

/// Reads the components of a document.
pub fn components_at(
    alloc: Global,
    hypotheses: &Hypotheses,
    value: &Value,
) -> Result<List<DraftComponent>, JsonFault>
    ensures { IsAnswer result (at (codes "components") (list_of (component_of hypotheses.now.names)) (view value.now)) }
{
    match components(alloc, hypotheses, field(alloc, value, "components")?) {
        Ok(components) => Ok(components),
        Err(fault) => Err(fault.under(alloc, b"components")),
    }
}
