//! The numbers of a case as evidence is checked with them.
ghost use Rattle.std.specs.Prelude.{◌≡◌, ◌<◌, ◌==◌, length, true};
ghost use Rattle.std.specs.List.{list_any};
ghost use Rattle.std.specs.Option.{option_map};
ghost use Rattle.field_core.specs.Kind.{Parts};
ghost use Rattle.fraction.specs.View.{number_of};
ghost use Rattle.fraction.specs.Plain.{fraction_parts};
ghost use Rattle.eps_quotient.specs.View.{quotient_parts};
ghost use Rattle.case_model.specs.Draft.{is_p_value};
ghost use Rattle.case_model.specs.Sums.{number_at};
ghost use Rattle.case_model.specs.CaseView.{content};
ghost use Rattle.case_numbers.specs.Numbers.{IsStoredIn};
ghost use Rattle.evidence_check.specs.CaseCheck.{IsSingle, p_values_of, loaded_case, edge_load, row_load, component_load, all_loads};
ghost use Rattle.evidence_check.specs.NumberReading.{constant_fraction, number_in_text};

use crate::event::CheckEvent;
use crate::sums::placed;
use case_model::{Case, Inputs};
use case_numbers::CaseNumber;
use eps_quotient::EpsQuotient;
use field_core::Place;
use fraction::Fraction;

/// Whether a text has an opening bracket.
fn has_bracket(text: &[u8]) -> bool
    ensures { result ≡ list_any (λ b. b == 91) text.now }
{
    text.iter().any(|byte| *byte == b'[')
}

/// Returns the fraction of the coefficients of power 0 of a quotient, if there is one within its size.
fn constant(quotient: &EpsQuotient) -> Option<Fraction>
    ensures { option_map fraction_parts result ≡ constant_fraction (quotient_parts quotient.now) }
{
    let numerator = quotient.numerator().coefficient(0);
    let denominator = quotient.denominator().coefficient(0);
    Fraction::new(numerator, denominator).ok()
}

/// Numbers that evidence is checked and read in.
pub trait EvidenceNumber: CaseNumber {
    /// Returns the number of a text: that of a quotient, or a fraction without brackets. Anything else gives `None`.
    fn read(text: &[u8]) -> Option<Self>
        ensures { option_map Self.parts result ≡ number_in_text Self.numbers text.now };

    /// The numbers that a case is loaded in can be stored.
    ghost stored_is: { (x : Parts) → IsStoredIn Self.numbers x → Self.IsStored x };
}

impl EvidenceNumber for Fraction {
    fn read(text: &[u8]) -> Option<Fraction> {
        if has_bracket(text) {
            return None;
        }
        constant(&EpsQuotient::read(text)?)
    }

    ghost stored_is = { λ x h. h };
}

impl EvidenceNumber for EpsQuotient {
    fn read(text: &[u8]) -> Option<EpsQuotient> {
        EpsQuotient::read(text)
    }

    ghost stored_is = { λ x h. h };
}

/// Returns the weight of a hypothesis in a component.
#[tactic(auto, unfolding(crate::specs::CaseCheck::loaded_case))]
pub fn weight<F: CaseNumber>(case: &Case, c: usize, k: usize) -> F
    requires c { c < length (content case.now).components }
    requires k { k < length (content case.now).names }
    ensures { F.parts result ≡ (loaded_case F.kind F.numbers (content case.now)).weight c k }
{
    F::weight(&case.weight(c, k))
}

/// Returns the edge from a hypothesis to a hypothesis in a component; 0 if it can't be loaded.
#[tactic(auto, unfolding(crate::specs::CaseCheck::loaded_case, crate::specs::CaseCheck::written_edge))]
pub fn edge<F: CaseNumber>(case: &Case, c: usize, l: usize, k: usize) -> F
    requires c { c < length (content case.now).components }
    requires l { l < length (content case.now).names }
    requires k { k < length (content case.now).names }
    ensures { F.parts result ≡ (loaded_case F.kind F.numbers (content case.now)).edge c l k }
{
    match F::edge(case.edge(c, l, k)) {
        Ok(edge) => edge,
        Err(_) => F::zero(),
    }
}

/// Returns the p-value of a hypothesis.
#[tactic(auto, unfolding(case_model::specs::Sums::ratio_at), using(crate::proofs::PValues::p_at))]
pub fn p_value(case: &Case, k: usize) -> Fraction
    requires single { IsSingle (content case.now).inputs }
    requires k { k < length (content case.now).names }
    ensures value { number_of result ≡ number_at (p_values_of (content case.now).inputs) k }
    ensures range { is_p_value result ≡ true }
{
    match case.inputs() {
        Inputs::Single(p_values) => p_values.as_slice()[k],
        _ => unreachable!(),
    }
}

/// Refuses an edge that cannot be loaded.
#[tactic(auto, unfolding(crate::specs::CaseCheck::edge_load, crate::specs::CaseCheck::written_edge))]
fn load_edge<F: CaseNumber>(case: &Case, c: usize, l: usize, k: usize) -> Result<(), CheckEvent>
    requires c { c < length (content case.now).components }
    requires l { l < length (content case.now).names }
    requires k { k < length (content case.now).names }
    ensures { result ≡ edge_load F.numbers (content case.now) c l k }
{
    placed(c, Place::Edge(l, k), F::edge(case.edge(c, l, k)))?;
    Ok(())
}

/// Refuses the first edge from `l` in a component that cannot be loaded.
#[tactic(auto, unfolding(crate::specs::CaseCheck::row_load), using(crate::proofs::AllSteps::all_none, crate::proofs::AllSteps::all_next, crate::proofs::AllSteps::all_refused))]
fn load_row<F: CaseNumber>(case: &Case, c: usize, l: usize) -> Result<(), CheckEvent>
    requires c { c < length (content case.now).components }
    requires l { l < length (content case.now).names }
    ensures { result ≡ row_load F.numbers (content case.now) c l }
{
    for k in 0..case.size() {
        load_edge::<F>(case, c, l, k)?;
    }
    Ok(())
}

/// Refuses the first edge of a component that cannot be loaded.
#[tactic(auto, unfolding(crate::specs::CaseCheck::component_load), using(crate::proofs::AllSteps::all_none, crate::proofs::AllSteps::all_next, crate::proofs::AllSteps::all_refused))]
fn load_component<F: CaseNumber>(case: &Case, c: usize) -> Result<(), CheckEvent>
    requires c { c < length (content case.now).components }
    ensures { result ≡ component_load F.numbers (content case.now) c }
{
    for l in 0..case.size() {
        load_row::<F>(case, c, l)?;
    }
    Ok(())
}

/// Refuses the first edge that cannot be loaded.
#[tactic(auto, unfolding(crate::specs::CaseCheck::all_loads), using(crate::proofs::AllSteps::all_none, crate::proofs::AllSteps::all_next, crate::proofs::AllSteps::all_refused))]
pub fn load<F: CaseNumber>(case: &Case) -> Result<(), CheckEvent>
    ensures { result ≡ all_loads F.numbers (content case.now) }
{
    for c in 0..case.components() {
        load_component::<F>(case, c)?;
    }
    Ok(())
}
