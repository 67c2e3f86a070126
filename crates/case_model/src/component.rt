//! Components of cases.
ghost use Rattle.std.specs.Prelude.{◌≡◌, ◌≤◌, true, map, IfOk};
ghost use Rattle.std.specs.List.{list_all};
ghost use Rattle.case_model.specs.Draft.{goes_between};
ghost use Rattle.case_model.specs.Entries.{is_whole_entry};
ghost use Rattle.case_model.specs.Content.{table_of, tabled, has_coefficients};

use crate::{DraftComponent, DraftEdge, Entry};
use field_core::{List, NoMemory};
use fraction::Fraction;
use std::alloc::Global;

/// A component of a case: its share of the level, the weights of the hypotheses, and the table of its edges, row by row.
#[derive(Drop)]
pub struct Component {
    pub(crate) share: Fraction,
    pub(crate) weights: List<Fraction>,
    pub(crate) edges: List<Entry>,
}

impl Component {
    ghost use Rattle.std.specs.Prelude.{◌≡◌, ◌≤◌, ◌<◌, ◌*◌, length, true, IfOk};
    ghost use Rattle.std.specs.List.{list_all};
    ghost use Rattle.case_model.specs.Sums.{ratio_at};
    ghost use Rattle.case_model.specs.Entries.{entry_at, is_whole_entry, is_plain_entry};
    ghost use Rattle.case_model.specs.Draft.{goes_between};
    ghost use Rattle.case_model.specs.Content.{tabled};

    /// Returns the component of a draft with its edges in a table.
    fn tabled(alloc: Global, count: usize, draft: DraftComponent) -> Result<Component, NoMemory>
        requires few { count ≤ 64 }
        requires ends { list_all (goes_between count) draft.edges ≡ true }
        ensures component { IfOk result (λ k. k ≡ tabled count draft) }
        ensures coefficients { IfOk result (λ k. list_all is_whole_entry k.edges ≡ true) }
    {
        let DraftComponent {
            share,
            weights,
            edges,
        } = draft;
        let edges = table(alloc, count, edges.as_slice())?;
        Ok(Component {
            share,
            weights,
            edges,
        })
    }

    /// Returns the weight of a hypothesis.
    #[tactic(auto, unfolding(crate::specs::Sums::ratio_at), using(std::proofs::lemmas::List::get_or_default))]
    pub(crate) fn weight(&self, i: usize) -> Fraction
        requires { i < length self.now.weights }
        ensures { result ≡ ratio_at self.now.weights i }
    {
        self.weights.as_slice()[i]
    }

    /// Returns the edge from the hypothesis `i` to the hypothesis `j`, in a component of `count` hypotheses.
    #[tactic(auto, unfolding(crate::specs::Entries::entry_at), using(std::proofs::lemmas::List::get_or_default))]
    pub(crate) fn edge(&self, count: usize, i: usize, j: usize) -> &Entry
        requires few { count ≤ 64 }
        requires size { length self.now.edges ≡ count * count }
        requires from { i < count }
        requires to { j < count }
        ensures { result.now ≡ entry_at count self.now.edges i j }
    {
        &self.edges.as_slice()[i * count + j]
    }

    /// Whether no edge has a coefficient other than 0 above power 0.
    pub(crate) fn is_plain(&self) -> bool
        ensures { result ≡ list_all is_plain_entry self.now.edges }
    {
        self.edges.iter().all(Entry::is_plain)
    }
}

/// Returns the table of the edges between `count` hypotheses, row by row. Of several edges with the same ends it has the first,
/// so they are set from the last to the first.
#[tactic(auto, using(crate::proofs::Holding::all_at))]
fn table(alloc: Global, count: usize, edges: &[DraftEdge]) -> Result<List<Entry>, NoMemory>
    requires few { count ≤ 64 }
    requires ends { list_all (goes_between count) edges.now ≡ true }
    ensures table { IfOk result (λ table. table ≡ table_of count edges.now) }
    ensures coefficients { IfOk result (λ table. list_all is_whole_entry table ≡ true) }
{
    let mut table = List::of(vec![in alloc; Entry::no_edge(); count * count]?);
    for n in (0..edges.len()).rev() {
        let edge = &edges[n];
        table.set(edge.place(count), edge.entry.copied());
    }
    Ok(table)
}

/// Returns the components of a draft with their edges in tables.
pub fn tabled(
    alloc: Global,
    count: usize,
    components: List<DraftComponent>,
) -> Result<List<Component>, NoMemory>
    requires few { count ≤ 64 }
    requires ends { list_all (λ k. list_all (goes_between count) k.edges) components ≡ true }
    ensures components { IfOk result (λ ks. ks ≡ map (tabled count) components) }
    ensures coefficients { IfOk result (λ ks. has_coefficients ks ≡ true) }
{
    let mut all = List::new(alloc);
    for component in components.into_vec() {
        all.push(Component::tabled(alloc, count, component)?)?;
    }
    Ok(all)
}
