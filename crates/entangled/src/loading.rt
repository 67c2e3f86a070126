//! The nets of a case, in which all hypotheses remain.
ghost use Rattle.std.specs.Prelude.{◌≡◌, ◌<◌, ◌*◌, map, length, IfOk};
ghost use Rattle.field_core.specs.Kind.{ok_map};
ghost use Rattle.field_core.specs.Steps.{in_component};
ghost use Rattle.case_model.specs.Content.{component_at};
ghost use Rattle.case_model.specs.CaseView.{content};
ghost use Rattle.case_numbers.specs.Numbers.{CanRunIn, loaded_weight};
ghost use Rattle.entangled.specs.BundleRun.{AreReady};
ghost use Rattle.entangled.specs.BundleView.{bundled};
ghost use Rattle.entangled.specs.Bundled.{opened};
ghost use Rattle.entangled.specs.Loading.{edge_at, loaded_edges, loaded_states, state_at};
ghost use Rattle.field_core.specs.Made.{Makes};

use crate::component_net::ComponentNet;
use crate::{Bundle, OpenFault};
use case_model::{Case, Entry};
use case_numbers::CaseNumber;
use field_core::{List, NoMemory, Place, Wide, try_fill};
use fraction::Fraction;
use removal::Remover;
use std::alloc::Global;

/// Returns the weights of a component.
#[tactic(auto, using(crate::proofs::Pushes::pushed, crate::proofs::Pushes::pushed_all))]
pub fn weights<F: CaseNumber>(alloc: Global, case: &Case, c: usize) -> Result<List<F>, NoMemory>
    requires { c < length (content case.now).components }
    ensures { IfOk result (λ ws. map F.parts ws ≡ map (loaded_weight F.numbers) (component_at (content case.now).components c).weights) }
{
    let mut weights = List::new(alloc);
    for weight in case.weights(c) {
        weights.push(F::weight(weight))?;
    }
    Ok(weights)
}

/// Returns the edge at a place of a table of `size` rows.
#[tactic(auto, unfolding(crate::specs::Loading::edge_at))]
fn edge<F: CaseNumber>(table: &[Entry], size: usize, i: usize) -> Result<F, Wide>
    requires rows { 0 < size }
    requires place { i < length table.now }
    ensures { ok_map F.parts result ≡ edge_at F.numbers size table.now i }
{
    F::edge(&table[i]).map_err(|wide| wide.at(Place::Edge(i / size, i % size)))
}

/// Writes the edges of a table of `size` rows.
#[tactic(auto, unfolding(crate::specs::Loading::loaded_edges))]
fn write_edges<F: CaseNumber>(table: &[Entry], size: usize, edges: &mut [F]) -> Result<(), Wide>
    requires rows { 0 < size }
    requires table { length table.now ≡ size * size }
    requires room { length edges.old ≡ size * size }
    ensures { ok_map (λ _. map F.parts edges.new) result ≡ loaded_edges F.numbers size table.now }
{
    try_fill(edges, |i| edge(table, size, i))
}

/// Returns the edges of a component, row by row. Unless out of memory, it is refused with `OpenFault::Wide` exactly if one of
/// them is undefined.
#[tactic(auto, using(std::proofs::lemmas::List::with_items_is))]
pub fn edges<F: CaseNumber>(alloc: Global, case: &Case, c: usize) -> Result<Vec<F>, OpenFault>
    requires { c < length (content case.now).components }
    ensures { Makes (λ es. map F.parts es.items) result (in_component c (loaded_edges F.numbers (length
        (content case.now).names) (component_at (content case.now).components c).edges)) }
{
    let table = case.edges(c);
    let mut edges = vec![in alloc; F::zero(); table.len()]?;
    write_edges(table, case.size(), &mut edges).map_err(|wide| wide.in_component(c))?;
    Ok(edges)
}

/// Returns the net of a component. Unless out of memory, it is refused with `OpenFault::Wide` exactly if the written loading of
/// the component is undefined.
#[tactic(auto, using(crate::proofs::LoadSteps::state_refused))]
pub fn net<N: ComponentNet>(alloc: Global, case: &Case, c: usize) -> Result<N, OpenFault>
    requires numbers { CanRunIn N.numbers (content case.now) }
    requires component { c < length (content case.now).components }
    ensures { Makes N.state result (state_at N.numbers (length (content case.now).names) (content case.now).components c) }
{
    let weights = weights(alloc, case, c)?;
    let edges = edges(alloc, case, c)?;
    N::open(alloc, c, weights.as_slice(), &edges)
}

/// Returns the nets of a case.
#[tactic(auto, using(crate::proofs::LoadSteps::state_steps))]
pub fn nets<N: ComponentNet>(alloc: Global, case: &Case) -> Result<List<N>, OpenFault>
    requires { CanRunIn N.numbers (content case.now) }
    ensures { Makes (map N.state) result (loaded_states N.numbers (length (content case.now).names) (content case.now).components) }
{
    let mut nets = List::new(alloc);
    for c in 0..case.components() {
        nets.push(net(alloc, case, c)?)?;
    }
    Ok(nets)
}

/// Returns the shares of the components.
fn shares(alloc: Global, case: &Case) -> Result<List<Fraction>, NoMemory>
    ensures { IfOk result (λ ss. ss ≡ map (λ k. k.share) (content case.now).components) }
{
    let mut shares = List::new(alloc);
    for c in 0..case.components() {
        shares.push(case.share(c))?;
    }
    Ok(shares)
}

/// Returns the bundle of the nets of a case.
pub fn bundle<R: Remover + Drop>(
    alloc: Global,
    case: &Case,
    nets: List<R>,
) -> Result<Bundle<R>, OpenFault>
    requires { AreReady R.Value.kind R.graph R.IsProper (map R.present nets) (map (λ k. k.share) (content case.now).components) }
    ensures { Makes bundled result (opened R.Value.kind R.graph (map R.present nets) (map (λ k. k.share) (content case.now).components)) }
{
    let shares = shares(alloc, case)?;
    Bundle::try_new(alloc, nets, shares.as_slice())
}
