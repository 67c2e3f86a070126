//! Cases.
ghost use Rattle.std.specs.Prelude.{◌≡◌, true};
ghost use Rattle.case_model.specs.Content.{content_from, has_coefficients};
ghost use Rattle.case_model.specs.Validity.{IsValidContent, valid_is_fact};

use crate::{Component, Entry, Inputs};
use field_core::{List, Text};
use fraction::Fraction;

/// A case without faults.
#[derive(Drop)]
pub struct Case {
    names: List<Text>,
    alpha: Fraction,
    components: List<Component>,
    inputs: Inputs,
    ghost valid: { IsValidContent (content_from names alpha components inputs) } by { Prim.hlevel valid_is_fact },
    ghost coefficients: { has_coefficients components ≡ true },
}

#[tactic(auto, using(crate::proofs::CaseFacts::facts))]
impl Case {
    ghost use Rattle.std.specs.Prelude.{◌≡◌, ◌<◌, ◌≤◌, ◌*◌, length, slice_get, Some, true};
    ghost use Rattle.case_model.specs.Sums.{ratio_at};
    ghost use Rattle.case_model.specs.Entries.{entry_at};
    ghost use Rattle.case_model.specs.Draft.{is_level, ArePValues};
    ghost use Rattle.case_model.specs.Content.{component_at, content_from, has_coefficients, is_alone, is_plain};
    ghost use Rattle.case_model.specs.Content.{IfSingle, IfStaged, AreStages};
    ghost use Rattle.case_model.specs.Names.{position_of};
    ghost use Rattle.case_model.specs.Validity.{IsValidContent};
    ghost use Rattle.case_model.specs.CaseView.{content};

    /// Returns the case of these parts.
    pub(crate) fn of(
        names: List<Text>,
        alpha: Fraction,
        components: List<Component>,
        inputs: Inputs,
    ) -> Case
        requires valid { IsValidContent (content_from names alpha components inputs) }
        requires coefficients { has_coefficients components ≡ true }
        ensures { content result ≡ content_from names alpha components inputs }
    {
        Case {
            names,
            alpha,
            components,
            inputs,
        }
    }

    /// Returns how many hypotheses there are, from 1 to 64.
    pub fn size(&self) -> usize
        ensures count { result ≡ length (content self.now).names }
        ensures range { (1 ≤ result) × (result ≤ 64) }
    {
        self.names.len()
    }

    /// Returns the names of the hypotheses, in their order.
    pub fn names(&self) -> &[Text]
        ensures { result.now ≡ (content self.now).names }
    {
        self.names.as_slice()
    }

    /// Returns the name of the hypothesis at a position.
    pub fn name(&self, i: usize) -> &[u8]
        requires { i < length (content self.now).names }
        ensures { slice_get (content self.now).names i ≡ Some result.now }
    {
        self.names.as_slice()[i].as_bytes()
    }

    /// Returns the level, above 0 and at most 1.
    pub fn alpha(&self) -> Fraction
        ensures alpha { result ≡ (content self.now).alpha }
        ensures level { is_level result ≡ true }
    {
        self.alpha
    }

    /// Returns how many components there are, from 1 to 8.
    pub fn components(&self) -> usize
        ensures count { result ≡ length (content self.now).components }
        ensures range { (1 ≤ result) × (result ≤ 8) }
    {
        self.components.len()
    }

    /// Returns the component at a place.
    fn component(&self, c: usize) -> &Component
        requires { c < length (content self.now).components }
        ensures component { result.now ≡ component_at (content self.now).components c }
        ensures weights { length result.now.weights ≡ length (content self.now).names }
        ensures edges { length result.now.edges ≡ length (content self.now).names * length (content self.now).names }
    {
        &self.components.as_slice()[c]
    }

    /// Returns the share of the component at a place, from 0 to 1.
    pub fn share(&self, c: usize) -> Fraction
        requires { c < length (content self.now).components }
        ensures { result ≡ (component_at (content self.now).components c).share }
    {
        self.component(c).share
    }

    /// Returns the weights of the hypotheses in a component, each from 0 to 1.
    pub fn weights(&self, c: usize) -> &[Fraction]
        requires { c < length (content self.now).components }
        ensures weights { result.now ≡ (component_at (content self.now).components c).weights }
        ensures size { length result.now ≡ length (content self.now).names }
    {
        self.component(c).weights.as_slice()
    }

    /// Returns the weight of a hypothesis in a component, from 0 to 1.
    pub fn weight(&self, c: usize, i: usize) -> Fraction
        requires component { c < length (content self.now).components }
        requires hypothesis { i < length (content self.now).names }
        ensures { result ≡ ratio_at (component_at (content self.now).components c).weights i }
    {
        self.component(c).weight(i)
    }

    /// Returns the edge from a hypothesis to a hypothesis in a component.
    pub fn edge(&self, c: usize, i: usize, j: usize) -> &Entry
        requires component { c < length (content self.now).components }
        requires from { i < length (content self.now).names }
        requires to { j < length (content self.now).names }
        ensures { result.now ≡ entry_at (length (content self.now).names) (component_at (content self.now).components c).edges i j }
    {
        self.component(c).edge(self.size(), i, j)
    }

    /// Returns the table of the edges of a component, row by row.
    pub fn edges(&self, c: usize) -> &[Entry]
        requires { c < length (content self.now).components }
        ensures edges { result.now ≡ (component_at (content self.now).components c).edges }
        ensures size { length result.now ≡ length (content self.now).names * length (content self.now).names }
    {
        self.component(c).edges.as_slice()
    }

    /// Returns the p-values. If there are single ones, there is one for each hypothesis, from 0 to 1. If there are stages,
    /// there are 1 to 12, each hypothesis spends at them, and each arrival is of a hypothesis and one of the stages.
    pub fn inputs(&self) -> &Inputs
        ensures inputs { result.now ≡ (content self.now).inputs }
        ensures p_values { IfSingle result.now (ArePValues (length (content self.now).names)) }
        ensures stages { IfStaged result.now (AreStages (length (content self.now).names)) }
    {
        &self.inputs
    }

    /// Whether there is one component, and its share is 1.
    #[tactic(auto, unfolding(crate::specs::Content::is_alone))]
    pub fn is_alone(&self) -> bool
        ensures { result ≡ is_alone (content self.now).components }
    {
        self.components() == 1 && self.share(0).is_one()
    }

    /// Whether no edge has a coefficient other than 0 above power 0.
    #[tactic(auto, unfolding(crate::specs::Content::is_plain))]
    pub fn is_plain(&self) -> bool
        ensures { result ≡ is_plain (content self.now) }
    {
        self.components.iter().all(Component::is_plain)
    }

    /// Returns the position of the hypothesis of this name; `None` if no hypothesis has it.
    pub fn position(&self, name: &[u8]) -> Option<usize>
        ensures { result ≡ position_of name.now (content self.now).names }
    {
        self.names.iter().position(|other| name == other.as_bytes())
    }
}
