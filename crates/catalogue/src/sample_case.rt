//! Samples.
ghost use Rattle.std.specs.Prelude.{◌≡◌, ◌≤◌, ◌<◌, ◌+◌, ◌⊎◌, ℕ, IfOk, IfErr, Ok, Err};
ghost use Rattle.case_model.specs.CaseView.{content};
ghost use Rattle.case_model.specs.declared.inputs.Inputs.TheVariants.{Single};
ghost use Rattle.catalogue.specs.Samples.{number_after, named_by, next_number, drawn_from, sample_p_values, sample_ends};
ghost use Rattle.catalogue.specs.Makings.{sample_case};
ghost use Rattle.catalogue.specs.declared.fault.CatalogueFault.TheVariants.{NoMemory as OutOfMemory};

use crate::CatalogueFault;
use crate::draft::made;
use crate::generator::Generator;
use crate::graph::NamedGraph;
use crate::quotient::{constant, part, quotient};
use crate::sizes::size_of;
use case_model::{Case, Entry};
use field_core::{List, NoMemory};
use fraction::Fraction;
use std::alloc::Global;

/// The first seed that is too large.
const SEEDS: u64 = 1 << 48;

/// The graph of a sample: equal weights, and edges of 1/2 to one or two later hypotheses.
#[derive(Drop)]
struct Halves {
    size: usize,
    ends: List<(usize, usize)>,
    ghost some: { 1 ≤ size },
}

#[tactic(auto, unfolding(crate::specs::Samples::half_graph))]
impl NamedGraph for Halves {
    ghost use Rattle.catalogue.specs.Samples.{half_graph};

    ghost graph = { λ g. half_graph g.size g.ends };

    fn size(&self) -> usize {
        self.size
    }

    fn weight(&self, _: usize) -> Fraction {
        part(self.size)
    }

    fn edge(&self, from: usize, to: usize) -> Option<Entry> {
        let (first, second) = *self.ends.as_slice().get(from)?;
        if first != to && second != to {
            return None;
        }
        Some(constant(part(2)))
    }
}

/// Draws the p-values of a number of hypotheses.
#[tactic(auto, unfolding(crate::specs::Samples::sample_p_values))]
fn p_values(
    alloc: Global,
    generator: &mut Generator,
    size: usize,
) -> Result<List<Fraction>, NoMemory>
    requires { size ≤ 64 }
    ensures p_values { IfOk result (λ ps. ps ≡ sample_p_values size generator.old.number) }
    ensures number { IfOk result (λ _. generator.new.number ≡ number_after generator.old.number size) }
{
    let mut p_values = List::new(alloc);
    'draws: for _ in 0..size {
        let drawn = generator.draw();
        p_values.push(quotient(drawn % 1_000_000, 100_000_000))?;
    }
    Ok(p_values)
}

/// Returns the hypothesis, after `i` and below `size`, that the next draw names as the end of an edge.
fn later(generator: &mut Generator, size: usize, i: usize) -> usize
    requires few { size ≤ 64 }
    requires later { i + 1 < size }
    ensures number { generator.new.number ≡ next_number generator.old.number }
    ensures named { result ≡ named_by size i (drawn_from generator.new.number) }
{
    let drawn = generator.draw() as usize;
    i + 1 + drawn % (size - 1 - i)
}

/// Draws the ends of the edges of a number of hypotheses, two for each but the last.
#[tactic(auto, unfolding(crate::specs::Samples::sample_ends))]
fn ends(
    alloc: Global,
    generator: &mut Generator,
    size: usize,
) -> Result<List<(usize, usize)>, NoMemory>
    requires some { 1 ≤ size }
    requires few { size ≤ 64 }
    ensures { (seed : ℕ) → generator.old.number ≡ number_after seed size → IfOk result (λ ends. ends ≡ sample_ends size seed) }
{
    let mut ends = List::new(alloc);
    'hypotheses: for i in 0..size - 1 {
        let first = later(generator, size, i);
        let second = later(generator, size, i);
        ends.push((first, second))?;
    }
    Ok(ends)
}

/// Returns the sample of `n` hypotheses, from 1 to 64, and a seed below 2^48, at level 1/20. Weights are 1/n, and p-values are
/// drawn from 0 to 999999/10^8. Each hypothesis but the last has edges of 1/2 to one or two later ones that are drawn.
///
/// Unless out of memory, the call is refused with `Size` exactly if `n` isn't from 1 to 64, and else with `Seed` exactly if the
/// seed isn't below 2^48.
#[tactic(auto, unfolding(crate::specs::Makings::sample_case, crate::specs::Makings::seed_fault))]
pub fn sample(alloc: Global, n: u64, seed: u64) -> Result<Case, CatalogueFault>
    ensures case { IfOk result (λ c. sample_case n seed ≡ Ok (content c)) }
    ensures fault { IfErr result (λ fault. (fault ≡ OutOfMemory) ⊎ (sample_case n seed ≡ Err fault)) }
    ensures p_values { IfOk result (λ c. (content c).inputs ≡ Single (sample_p_values n seed)) }
{
    let size = size_of(n)?;
    if seed >= SEEDS {
        return Err(CatalogueFault::Seed(seed));
    }
    let mut generator = Generator::new(seed);
    let p = p_values(alloc, &mut generator, size)?;
    let ends = ends(alloc, &mut generator, size)?;
    made(alloc, &Halves { size, ends }, part(20), p.as_slice())
}
