//! The command `catalogue`.
ghost use Rattle.std.specs.Prelude.{◌≡◌, ◌⊎◌, IfOk, IfErr, Ok, Err};
ghost use Rattle.answers.specs.Ways.{EndsIn, over_values};
ghost use Rattle.case_model.specs.CaseView.{content};
ghost use Rattle.catalogue.specs.declared.fault.CatalogueFault.TheVariants.{NoMemory as OutOfMemory};
ghost use Rattle.graph_cli.specs.Graphs.{named_case, reported_size, catalogue_stage};

use crate::commands::catalogue_faults::catalogue_refusal;
use answers::{Answer, Stop};
use case_model::Case;
use catalogue::{
    CatalogueFault, equal_fallback, fixed_sequence, holm, improved_parallel, parallel, part,
};
use command_words::SizedGraph;
use edge_text::write_text;
use std::alloc::Global;

/// Returns how many hypotheses a graph has; 2^64 - 1 if they are more.
fn reported_size(graph: SizedGraph) -> u64
    ensures { result ≡ reported_size graph }
{
    match graph {
        SizedGraph::Holm(n) | SizedGraph::FixedSequence(n) | SizedGraph::Fallback(n) => n,
        SizedGraph::Parallel(a, b) | SizedGraph::ImprovedParallel(a, b) => a.saturating_add(b),
    }
}

/// Returns the case of a named graph, at the level 1/20 and without p-values.
#[tactic(auto, unfolding(crate::specs::Graphs::named_case))]
fn named_case(alloc: Global, graph: SizedGraph) -> Result<Case, CatalogueFault>
    ensures case { IfOk result (λ c. named_case graph ≡ Ok (content c)) }
    ensures fault { IfErr result (λ fault. (fault ≡ OutOfMemory) ⊎ (named_case graph ≡ Err fault)) }
{
    let alpha = part(20);
    match graph {
        SizedGraph::Holm(n) => holm(alloc, n, alpha, &[]),
        SizedGraph::FixedSequence(n) => fixed_sequence(alloc, n, alpha, &[]),
        SizedGraph::Fallback(n) => equal_fallback(alloc, n, alpha, &[]),
        SizedGraph::Parallel(a, b) => parallel(alloc, a, b, alpha, &[]),
        SizedGraph::ImprovedParallel(a, b) => improved_parallel(alloc, a, b, alpha, &[]),
    }
}

/// Returns the answer of `catalogue`: the canonical text of the case of a named graph.
#[tactic(auto, unfolding(crate::specs::Graphs::catalogue_stage))]
pub fn catalogue_answer(alloc: Global, graph: SizedGraph) -> Result<Answer, Stop>
    ensures { EndsIn (over_values (catalogue_stage graph)) result }
{
    match named_case(alloc, graph) {
        Ok(case) => Ok(Answer::done(write_text(alloc, &case)?)),
        Err(fault) => Err(Stop::Refused(catalogue_refusal(alloc, reported_size(graph), &fault)?)),
    }
}
