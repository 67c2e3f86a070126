//! Graphs in which each hypothesis passes its weight to the next one.
ghost use Rattle.std.specs.Prelude.{◌≡◌, ◌<◌, ◌⊎◌, true, IfOk, IfErr, Ok, Err};
ghost use Rattle.case_model.specs.CaseView.{content};
ghost use Rattle.case_model.specs.Content.{entangled, is_plain};
ghost use Rattle.case_model.specs.Sums.{number_at};
ghost use Rattle.case_model.specs.TextbookGraphs.{IsSequenceGraph, IsFallbackGraph};
ghost use Rattle.catalogue.specs.NamedGraphs.{next_edge, equal_weights};
ghost use Rattle.catalogue.specs.Makings.{sequence_case, fallback_case};
ghost use Rattle.catalogue.specs.TextbookCases.{DecidesAsSequence, DecidesAsFallback};
ghost use Rattle.catalogue.specs.declared.fault.CatalogueFault.TheVariants.{NoMemory as OutOfMemory};

use crate::CatalogueFault;
use crate::draft::made;
use crate::graph::NamedGraph;
use crate::quotient::{constant, one, part, zero};
use crate::sizes::size_of;
use case_model::{Case, Entry};
use field_core::{List, NoMemory};
use fraction::Fraction;
use std::alloc::Global;

/// Returns an edge of weight 1 if `to` is the hypothesis after `from`, and else none.
fn next_edge(from: usize, to: usize) -> Option<Entry>
    ensures { result ≡ next_edge from to }
{
    (to > 0 && to - 1 == from).then_some(constant(one()))
}

/// The graph of the fixed sequence: the first hypothesis has the weight 1.
#[derive(Clone, Copy)]
struct Sequence {
    size: usize,
}

#[tactic(auto, unfolding(crate::specs::NamedGraphs::sequence_graph))]
impl NamedGraph for Sequence {
    ghost use Rattle.catalogue.specs.NamedGraphs.{sequence_graph};

    ghost graph = { λ g. sequence_graph g.size };

    fn size(&self) -> usize {
        self.size
    }

    fn weight(&self, i: usize) -> Fraction {
        if i == 0 { one() } else { zero() }
    }

    fn edge(&self, from: usize, to: usize) -> Option<Entry> {
        next_edge(from, to)
    }
}

/// The graph of fallback, with given weights.
#[derive(Clone, Copy)]
struct Weighted<'a> {
    weights: &'a [Fraction],
}

#[tactic(auto, unfolding(crate::specs::NamedGraphs::fallback_graph, case_model::specs::Sums::ratio_at), using(std::proofs::lemmas::List::get_or_default))]
impl NamedGraph for Weighted<'_> {
    ghost use Rattle.catalogue.specs.NamedGraphs.{fallback_graph};

    ghost graph = { λ g. fallback_graph g.weights.now };

    fn size(&self) -> usize {
        self.weights.len()
    }

    fn weight(&self, i: usize) -> Fraction {
        self.weights[i]
    }

    fn edge(&self, from: usize, to: usize) -> Option<Entry> {
        next_edge(from, to)
    }
}

/// Returns the fixed sequence of `n` hypotheses, from 1 to 64: the first one has the weight 1, and each passes all its
/// weight to the next one. `p` has no p-value, or one for each hypothesis. The closed test on the case rejects exactly
/// what the fixed sequence rejects.
///
/// Unless out of memory, the call is refused with `Size` exactly if `n` isn't from 1 to 64, and else with `Case` exactly if the
/// draft has an error.
#[tactic(auto, unfolding(crate::specs::Makings::sequence_case))]
pub fn fixed_sequence(
    alloc: Global,
    n: u64,
    alpha: Fraction,
    p: &[Fraction],
) -> Result<Case, CatalogueFault>
    ensures case { IfOk result (λ c. sequence_case n alpha p.now ≡ Ok (content c)) }
    ensures fault { IfErr result (λ fault. (fault ≡ OutOfMemory) ⊎ (sequence_case n alpha p.now ≡ Err fault)) }
    ensures graph { IfOk result (λ c. IsSequenceGraph (entangled (content c))) }
    ensures plain { IfOk result (λ c. is_plain (content c) ≡ true) }
    ensures rule { IfOk result (λ c. DecidesAsSequence n alpha p.now (content c)) }
{
    let size = size_of(n)?;
    made(alloc, &Sequence { size }, alpha, p)
}

/// Returns the case of fallback with these weights, 1 to 64 of them. Each hypothesis passes all its weight to the next one. `p`
/// has no p-value, or one for each hypothesis. The closed test on the case rejects exactly what the fallback rule rejects.
///
/// Unless out of memory, the call is refused with `Size` exactly if there aren't 1 to 64 weights, and else with `Case` exactly if
/// the draft has an error.
#[tactic(auto, unfolding(crate::specs::Makings::fallback_case))]
pub fn fallback(
    alloc: Global,
    weights: &[Fraction],
    alpha: Fraction,
    p: &[Fraction],
) -> Result<Case, CatalogueFault>
    ensures case { IfOk result (λ c. fallback_case weights.now alpha p.now ≡ Ok (content c)) }
    ensures fault { IfErr result (λ fault. (fault ≡ OutOfMemory) ⊎ (fallback_case weights.now alpha p.now ≡ Err fault)) }
    ensures graph { IfOk result (λ c. IsFallbackGraph (number_at weights.now) (entangled (content c))) }
    ensures plain { IfOk result (λ c. is_plain (content c) ≡ true) }
    ensures rule { IfOk result (λ c. DecidesAsFallback weights.now alpha p.now (content c)) }
{
    size_of(weights.len() as u64)?;
    made(alloc, &Weighted { weights }, alpha, p)
}

/// Returns the weight 1/n for each of `n` hypotheses.
#[tactic(auto, unfolding(crate::specs::NamedGraphs::equal_weights))]
fn equal_weights(alloc: Global, n: usize) -> Result<List<Fraction>, NoMemory>
    requires { 0 < n }
    ensures { IfOk result (λ weights. weights ≡ equal_weights n) }
{
    let weight = part(n);
    let mut weights = List::new(alloc);
    'places: for _ in 0..n {
        weights.push(weight)?;
    }
    Ok(weights)
}

/// Returns the case of fallback with the weight 1/n for each of `n` hypotheses, from 1 to 64. `p` has no p-value, or one for
/// each hypothesis.
///
/// Unless out of memory, the call is refused with `Size` exactly if `n` isn't from 1 to 64, and else with `Case` exactly if the
/// draft has an error.
#[tactic(auto, using(crate::proofs::EqualChains::size_refused))]
pub fn equal_fallback(
    alloc: Global,
    n: u64,
    alpha: Fraction,
    p: &[Fraction],
) -> Result<Case, CatalogueFault>
    ensures case { IfOk result (λ c. fallback_case (equal_weights n) alpha p.now ≡ Ok (content c)) }
    ensures fault { IfErr result (λ fault. (fault ≡ OutOfMemory) ⊎ (fallback_case (equal_weights n) alpha p.now ≡ Err fault)) }
    ensures plain { IfOk result (λ c. is_plain (content c) ≡ true) }
{
    let size = size_of(n)?;
    let weights = equal_weights(alloc, size)?;
    fallback(alloc, weights.as_slice(), alpha, p)
}
