//! The nets of a case.
ghost use Rattle.case_model.specs.CaseView.{content};
ghost use Rattle.case_numbers.specs.Numbers.{CanRunIn, in_fractions, in_quotients};
ghost use Rattle.entangled.specs.BundleView.{bundled};
ghost use Rattle.entangled.specs.CaseRun.{opening_in};
ghost use Rattle.field_core.specs.Made.{Makes};

use crate::loading::{bundle, nets};
use crate::{Bundle, OpenFault};
use case_model::Case;
use field_core::WideAt;
use fraction::Fraction;
use removal::Net;
use row_removal::RowNet;
use std::alloc::Global;

/// The nets of a case.
#[derive(Drop)]
pub enum CaseNet {
    /// Those of a plain case, in which no edge has a coefficient other than 0 above power 0.
    Plain(Bundle<Net<Fraction>>),
    /// Those of any other case, in rows over one denominator.
    Eps(Bundle<RowNet>),
}

/// Returns the bundle of a plain case.
#[tactic(auto, unfolding(crate::specs::CaseRun::opening_in))]
fn plain_bundle(alloc: Global, case: &Case) -> Result<Bundle<Net<Fraction>>, OpenFault>
    requires { CanRunIn in_fractions (content case.now) }
    ensures { Makes bundled result (opening_in in_fractions (content case.now)) }
{
    let nets = nets(alloc, case)?;
    bundle(alloc, case, nets)
}

/// Returns the bundle of a case with epsilon.
#[tactic(auto, unfolding(crate::specs::CaseRun::opening_in))]
fn eps_bundle(alloc: Global, case: &Case) -> Result<Bundle<RowNet>, OpenFault>
    ensures { Makes bundled result (opening_in in_quotients (content case.now)) }
{
    let nets = nets(alloc, case)?;
    bundle(alloc, case, nets)
}

#[tactic(auto, unfolding(crate::specs::CaseNetView::case_state, crate::specs::CaseNetView::CaseHasNothingPrepared, crate::specs::CaseRun::case_removal))]
impl CaseNet {
    ghost use Rattle.std.specs.Prelude.{◌≡◌, ◌<◌, true, IfOk, OnErr, Ok};
    ghost use Rattle.field_core.specs.Kind.{ok_map};
    ghost use Rattle.field_core.specs.View.{terms};
    ghost use Rattle.case_model.specs.Content.{is_plain};
    ghost use Rattle.case_model.specs.CaseView.{content};
    ghost use Rattle.entangled.specs.CaseNetView.{case_state, is_of_fractions, CaseHasNothingPrepared};
    ghost use Rattle.entangled.specs.CaseRun.{
      case_opening,
      case_numbers,
      case_size,
      is_live_in_case,
      case_level,
      case_share,
      case_shares,
      case_removal,
    };
    ghost use Rattle.field_core.specs.Made.{Makes};

    /// Returns the nets of a case, in which all hypotheses remain. They are of fractions if the case is plain, and else of rows of
    /// quotients in epsilon. In these each edge is loaded as the written polynomial of its coefficients, and then the rows of each
    /// component are gathered.
    ///
    /// Unless out of memory, the call is refused with `OpenFault::Wide` exactly if the written opening is undefined.
    #[tactic(auto, unfolding(crate::specs::CaseNetView::case_state), using(crate::proofs::CaseNumbers::openings))]
    pub fn load(alloc: Global, case: &Case) -> Result<CaseNet, OpenFault>
        ensures opened { Makes case_state result (case_opening (content case.now)) }
        ensures plain { IfOk result (λ n. is_of_fractions n ≡ is_plain (content case.now)) }
    {
        if case.is_plain() {
            let bundle = plain_bundle(alloc, case)?;
            Ok(CaseNet::Plain(bundle))
        } else {
            let bundle = eps_bundle(alloc, case)?;
            Ok(CaseNet::Eps(bundle))
        }
    }

    /// Returns the number of hypotheses, those removed among them.
    pub fn size(&self) -> usize
        ensures { result ≡ case_size (case_state self.now) }
    {
        match self {
            CaseNet::Plain(bundle) => bundle.size(),
            CaseNet::Eps(bundle) => bundle.size(),
        }
    }

    /// Whether `k`, a position below the size, remains.
    pub fn is_live(&self, k: usize) -> bool
        requires { k < case_size (case_state self.now) }
        ensures { result ≡ is_live_in_case (case_state self.now) k }
    {
        match self {
            CaseNet::Plain(bundle) => bundle.is_live(k),
            CaseNet::Eps(bundle) => bundle.is_live(k),
        }
    }

    /// Returns the level of `k`, which remains, as a fraction of alpha: the weight, with the limits for epsilon taken.
    pub fn weight_limit(&self, k: usize) -> Fraction
        requires { is_live_in_case (case_state self.now) k ≡ true }
        ensures level { terms result ≡ case_level (case_state self.now) k }
        ensures share { Ok (terms result) ≡ case_share (case_state self.now) k }
    {
        match self {
            CaseNet::Plain(bundle) => bundle.weight_limit(k),
            CaseNet::Eps(bundle) => bundle.weight_limit(k),
        }
    }

    /// Removes `j`, which remains, from all nets. It is refused with `WideAt` exactly if the written removal is undefined; the
    /// nets then stay as they were.
    pub fn remove(&mut self, j: usize) -> Result<(), WideAt>
        requires { is_live_in_case (case_state self.old) j ≡ true }
        ensures value { ok_map (λ _. case_state self.new) result ≡ case_removal (case_state self.old) j }
        ensures refused { OnErr result (case_state self.new ≡ case_state self.old) }
    {
        match self {
            CaseNet::Plain(bundle) => bundle.remove(j),
            CaseNet::Eps(bundle) => bundle.remove(j),
        }
    }

    /// Makes these nets equal to `other`, which are of the same kind of numbers, the same size and equal shares. Nothing is prepared
    /// afterwards.
    pub fn set_to(&mut self, other: &CaseNet)
        requires numbers { case_numbers (case_state self.old) ≡ case_numbers (case_state other.now) }
        requires size { case_size (case_state self.old) ≡ case_size (case_state other.now) }
        requires shares { case_shares (case_state self.old) ≡ case_shares (case_state other.now) }
        ensures value { case_state self.new ≡ case_state other.now }
        ensures prepared { CaseHasNothingPrepared self.new }
    {
        match (self, other) {
            (CaseNet::Plain(bundle), CaseNet::Plain(other)) => bundle.set_to(other),
            (CaseNet::Eps(bundle), CaseNet::Eps(other)) => bundle.set_to(other),
            _ => unreachable!(),
        }
    }
}
