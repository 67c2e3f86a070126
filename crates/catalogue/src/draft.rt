//! Drafts of named graphs.
ghost use Rattle.std.specs.Prelude.{◌≡◌, ◌<◌, ◌+◌, ◌++◌, ◌⊎◌, map, Some, IfOk, IfErr, OnOk, Ok, Err};
ghost use Rattle.std.specs.List.{range_with_len};
ghost use Rattle.case_model.specs.CaseView.{content};
ghost use Rattle.catalogue.specs.WeightedGraphs.{name_of, names_of, edge_in, edges_from, edges_of, draft_of};
ghost use Rattle.catalogue.specs.Makings.{made};
ghost use Rattle.catalogue.specs.declared.fault.CatalogueFault.TheVariants.{NoMemory as OutOfMemory};

use crate::CatalogueFault;
use crate::graph::NamedGraph;
use crate::quotient::one;
use case_model::{Case, Draft, DraftComponent, DraftEdge};
use field_core::{List, NoMemory, Text};
use fraction::Fraction;
use std::alloc::Global;

/// Returns the name of the hypothesis at a position: `H` and its number, from 1.
fn name(alloc: Global, i: usize) -> Result<Text, NoMemory>
    ensures { IfOk result (λ name. name ≡ name_of i) }
{
    let mut bytes = List::new(alloc);
    bytes.push(b'H')?;
    bytes.append_unsigned(i as u128 + 1)?;
    Text::copy(alloc, bytes.as_slice())
}

/// Returns the names of a number of hypotheses: `H1`, `H2` and so on.
pub fn names(alloc: Global, count: usize) -> Result<List<Text>, NoMemory>
    ensures { IfOk result (λ names. names ≡ names_of count) }
{
    let mut names = List::new(alloc);
    for i in 0..count {
        names.push(name(alloc, i)?)?;
    }
    Ok(names)
}

/// Returns the weights of a graph.
fn weights<G: NamedGraph>(alloc: Global, graph: &G) -> Result<List<Fraction>, NoMemory>
    ensures { IfOk result (λ weights. weights ≡ map (G.graph graph.now).weight (range_with_len 0 (G.graph graph.now).size)) }
{
    let mut weights = List::new(alloc);
    for i in 0..graph.size() {
        weights.push(graph.weight(i))?;
    }
    Ok(weights)
}

/// Appends the edge from a hypothesis to a hypothesis, if there is one.
fn put_edge<G: NamedGraph>(
    edges: &mut List<DraftEdge>,
    graph: &G,
    from: usize,
    to: usize,
) -> Result<(), NoMemory>
    requires from { from < (G.graph graph.now).size }
    requires to { to < (G.graph graph.now).size }
    ensures { OnOk result (edges.new ≡ edges.old ++ edge_in (G.graph graph.now) from to) }
{
    if let Some(entry) = graph.edge(from, to) {
        edges.push(DraftEdge { from, to, entry })?;
    }
    Ok(())
}

/// Appends the edges from a hypothesis.
#[tactic(auto, unfolding(crate::specs::WeightedGraphs::edges_from))]
fn put_edges_from<G: NamedGraph>(
    edges: &mut List<DraftEdge>,
    graph: &G,
    from: usize,
) -> Result<(), NoMemory>
    requires { from < (G.graph graph.now).size }
    ensures { OnOk result (edges.new ≡ edges.old ++ edges_from (G.graph graph.now) from) }
{
    for to in 0..graph.size() {
        put_edge(edges, graph, from, to)?;
    }
    Ok(())
}

/// Returns the edges of a graph, row by row.
#[tactic(auto, unfolding(crate::specs::WeightedGraphs::edges_of))]
fn edges<G: NamedGraph>(alloc: Global, graph: &G) -> Result<List<DraftEdge>, NoMemory>
    ensures { IfOk result (λ edges. edges ≡ edges_of (G.graph graph.now)) }
{
    let mut edges = List::new(alloc);
    for from in 0..graph.size() {
        put_edges_from(&mut edges, graph, from)?;
    }
    Ok(edges)
}

/// Returns the places of a draft that these p-values fill.
fn places(alloc: Global, p: &[Fraction]) -> Result<List<Option<Fraction>>, NoMemory>
    ensures { IfOk result (λ places. places ≡ map Some p.now) }
{
    let mut places = List::new(alloc);
    for value in p {
        places.push(Some(*value))?;
    }
    Ok(places)
}

/// Returns the draft of a graph at a level, with these p-values.
#[tactic(auto, unfolding(crate::specs::WeightedGraphs::draft_of))]
fn draft<G: NamedGraph>(
    alloc: Global,
    graph: &G,
    alpha: Fraction,
    p: &[Fraction],
) -> Result<Draft, NoMemory>
    ensures { IfOk result (λ draft. draft ≡ draft_of (G.graph graph.now) alpha p.now) }
{
    let mut components = List::new(alloc);
    components.push(DraftComponent {
        share: one(),
        weights: weights(alloc, graph)?,
        edges: edges(alloc, graph)?,
    })?;
    Ok(Draft {
        names: names(alloc, graph.size())?,
        alpha,
        p: places(alloc, p)?,
        components,
        stages: None,
    })
}

/// Returns the case of a graph at a level, with these p-values.
#[tactic(auto, unfolding(crate::specs::Makings::made))]
pub fn made<G: NamedGraph>(
    alloc: Global,
    graph: &G,
    alpha: Fraction,
    p: &[Fraction],
) -> Result<Case, CatalogueFault>
    ensures case { IfOk result (λ c. made (draft_of (G.graph graph.now) alpha p.now) ≡ Ok (content c)) }
    ensures fault { IfErr result (λ fault. (fault ≡ OutOfMemory) ⊎ (made (draft_of (G.graph graph.now) alpha p.now) ≡ Err fault)) }
{
    match draft(alloc, graph, alpha, p)?.finish(alloc) {
        Ok(case) => Ok(case),
        Err(refused) => Err(CatalogueFault::of_case(refused.fault)),
    }
}
