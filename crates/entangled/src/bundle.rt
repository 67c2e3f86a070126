//! Several nets over one set of hypotheses.
ghost use Rattle.std.specs.Prelude.{◌≡◌, map, length};
ghost use Rattle.field_core.specs.View.{terms};
ghost use Rattle.entangled.specs.Bundled.{IsBundle};

use crate::all_nets::{commit_all, prepare_all, set_all};
use crate::levels::{levels, write_next_levels};
use field_core::{Fault, List, WideAt};
use fraction::Fraction;
use removal::Remover;
use std::alloc::Global;

/// Why nothing was opened: a written operation of the opening has a part past its size, or the call is out of memory.
pub type OpenFault = Fault<WideAt>;

/// Several nets over one set of hypotheses, each with its share of the level.
///
/// The level of a hypothesis is its fraction of alpha, from 0 to 1: the sum, over the nets, of the share times the limit
/// of its weight there. There is room for the levels after the next removal, so no removal takes memory.
#[derive(Drop)]
pub struct Bundle<R: Remover> {
    nets: Vec<R>,
    shares: Vec<Fraction>,
    levels: Vec<Fraction>,
    next_levels: Vec<Fraction>,
    ghost whole: { IsBundle R.Value.kind R.graph (record {
      states = map R.present nets.items;
      shares = shares.items;
      levels = map terms levels.items;
    }) },
    ghost room: { length next_levels.items ≡ length levels.items },
}

#[tactic(auto, unfolding(crate::specs::BundleView::bundled, crate::specs::Bundled::opened), using(crate::proofs::Start::opened_bundle))]
impl<R: Remover + Drop> Bundle<R> {
    ghost use Rattle.std.specs.Prelude.{◌≡◌, ◌<◌, map, length, All};
    ghost use Rattle.removal.specs.StoredGraph.{size as graph_size, AreAllLive};
    ghost use Rattle.entangled.specs.Shares.{AreShares};
    ghost use Rattle.entangled.specs.Bundled.{states_size, opened};
    ghost use Rattle.entangled.specs.BundleView.{bundled};
    ghost use Rattle.field_core.specs.Made.{Makes};

    /// Returns the bundle of these nets, in each of which all hypotheses remain, with these shares. There is at least one net,
    /// all are of one size, and each has a share; the shares aren't below 0 and sum to at most 1.
    ///
    /// Unless out of memory, the call is refused with `OpenFault::Wide` exactly if the written opening is undefined.
    pub fn try_new(
        alloc: Global,
        nets: List<R>,
        shares: &[Fraction],
    ) -> Result<Bundle<R>, OpenFault>
        requires some { 0 < length nets }
        requires count { length shares.now ≡ length nets }
        requires size { All (λ s. graph_size (R.graph s) ≡ states_size R.graph (map R.present nets)) (map R.present nets) }
        requires live { All (λ s. AreAllLive (R.graph s)) (map R.present nets) }
        requires shares { AreShares shares.now }
        ensures { Makes bundled result (opened R.Value.kind R.graph (map R.present nets) shares.now) }
    {
        let nets = nets.into_vec();
        let shares = Vec::from_slice(alloc, shares)?;
        let levels = levels(alloc, &nets, &shares)?;
        let next_levels = Vec::from_slice(alloc, &levels)?;
        Ok(Bundle {
            nets,
            shares,
            levels,
            next_levels,
        })
    }
}

#[tactic(auto, unfolding(crate::specs::BundleView::bundled, crate::specs::BundleView::HasNothingPrepared, crate::specs::Bundled::removed), using(crate::proofs::Alike::first_size, crate::proofs::Alike::first_live, std::proofs::lemmas::List::with_items_is))]
impl<R: Remover> Bundle<R> {
    ghost use Rattle.std.specs.Prelude.{◌≡◌, ◌<◌, true, length, slice_get, Some, Ok, OnErr};
    ghost use Rattle.field_core.specs.Kind.{ok_map};
    ghost use Rattle.field_core.specs.View.{terms};
    ghost use Rattle.entangled.specs.Bundled.{size, is_live, level, written_share, removed};
    ghost use Rattle.entangled.specs.BundleView.{bundled, HasNothingPrepared};

    /// Returns the number of hypotheses, those removed among them.
    pub fn size(&self) -> usize
        ensures { result ≡ size R.graph (bundled self.now) }
    {
        self.nets[0].size()
    }

    /// Returns the number of nets.
    pub fn components(&self) -> usize
        ensures { result ≡ length (bundled self.now).states }
    {
        self.nets.len()
    }

    /// Whether `k`, a position below the size, remains.
    pub fn is_live(&self, k: usize) -> bool
        requires { k < size R.graph (bundled self.now) }
        ensures { result ≡ is_live R.graph (bundled self.now) k }
    {
        self.nets[0].is_live(k)
    }

    /// Returns the level of `k`, which remains, as a fraction of alpha: the weight, with the limits for epsilon taken.
    pub fn weight_limit(&self, k: usize) -> Fraction
        requires { is_live R.graph (bundled self.now) k ≡ true }
        ensures level { terms result ≡ level (bundled self.now) k }
        ensures share { Ok (terms result) ≡ written_share R.Value.kind R.graph (bundled self.now).states (bundled self.now).shares k }
    {
        self.levels[k]
    }

    /// Returns the net of a component, counted from 0.
    pub fn net(&self, c: usize) -> &R
        requires { c < length (bundled self.now).states }
        ensures { slice_get (bundled self.now).states c ≡ Some (R.present result.now) }
    {
        &self.nets[c]
    }

    /// Removes `j`, which remains, from all nets. It is refused with `WideAt` exactly if the written removal is undefined; the
    /// bundle then stays as it was.
    pub fn remove(&mut self, j: usize) -> Result<(), WideAt>
        requires { is_live R.graph (bundled self.old) j ≡ true }
        ensures value { ok_map (λ _. bundled self.new) result ≡ removed R.Value.kind R.graph R.removal (bundled self.old) j }
        ensures refused { OnErr result (bundled self.new ≡ bundled self.old) }
    {
        let nets = self.nets.as_mut_slice();
        prepare_all(nets, j)?;
        write_next_levels(nets, &self.shares, j, &mut self.next_levels)?;
        commit_all(nets);
        std::mem::swap(&mut self.levels, &mut self.next_levels);
        Ok(())
    }

    /// Makes this bundle equal to `other`, which has the same size and equal shares. Nothing is prepared afterwards.
    pub fn set_to(&mut self, other: &Bundle<R>)
        requires size { size R.graph (bundled self.old) ≡ size R.graph (bundled other.now) }
        requires shares { (bundled self.old).shares ≡ (bundled other.now).shares }
        ensures value { bundled self.new ≡ bundled other.now }
        ensures prepared { HasNothingPrepared self.new }
    {
        set_all(&mut self.nets, &other.nets);
        self.levels.copy_from_slice(&other.levels);
    }
}
