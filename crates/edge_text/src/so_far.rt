//! A draft that grows line by line.
ghost use Rattle.std.specs.Prelude.{◌≡◌, ℕ, IfOk, slice_get};
ghost use Rattle.std.specs.Option.{option_map};
ghost use Rattle.edge_text.specs.Places.{is_due};
ghost use Rattle.case_model.specs.Names.{position_of};
ghost use Rattle.edge_text.specs.Drafts.{named, with_p, with_component, with_stages};

use case_model::{Draft, DraftComponent, DraftStages, NameIndex};
use field_core::{List, NoMemory, Text};
use fraction::Fraction;
use std::alloc::Global;
use std::marker::Model;

/// What the lines before a place denote: a draft, and the index of its names.
#[derive(Drop)]
pub struct SoFar {
    draft: Draft,
    index: NameIndex,
}

impl Model for SoFar {
    ghost use Rattle.std.specs.Prelude.{◌≡◌, ℕ, List};
    ghost use Rattle.case_model.specs.declared.draft.Draft.{Draft};
    ghost use Rattle.case_model.specs.Names.{position_of};
    ghost use Rattle.case_model.specs.NameIndexView.{place_of};

    ghost Value = { Draft };

    ghost view = { λ so_far. so_far.draft };

    ghost invariant = { λ so_far. (name : List ℕ) → place_of so_far.index name ≡ position_of name so_far.draft.names };
}

impl SoFar {
    /// Returns the draft of a level and names, with nothing else yet.
    pub fn new(alloc: Global, alpha: Fraction, names: List<Text>) -> Result<SoFar, NoMemory>
        ensures { IfOk result (λ d. d ≡ named alpha names) }
    {
        let index = NameIndex::build(alloc, names.as_slice())?;
        let draft = Draft {
            names,
            alpha,
            p: List::new(alloc),
            components: List::new(alloc),
            stages: None,
        };
        Ok(SoFar { draft, index })
    }

    /// Returns the least position of a name, if the draft has it.
    pub fn position(&self, name: &[u8]) -> Option<usize>
        ensures { result ≡ position_of name.now self.now.names }
    {
        self.index.position(name)
    }

    /// Returns the name at a position, if there is one.
    pub fn name(&self, at: usize) -> Option<&[u8]>
        ensures { option_map (λ name. name.now) result ≡ slice_get self.now.names at }
    {
        match self.draft.names.as_slice().get(at) {
            Some(name) => Some(name.as_bytes()),
            None => None,
        }
    }

    /// Whether there is a name at the position `at`, and it is this one.
    pub fn is_name(&self, at: usize, name: &[u8]) -> bool
        ensures { result ≡ is_due name.now (slice_get self.now.names at) }
    {
        match self.name(at) {
            Some(known) => name == known,
            None => false,
        }
    }

    /// Returns the same draft with these p-values.
    pub fn with_p(self, p: List<Option<Fraction>>) -> SoFar
        ensures { result ≡ with_p self p }
    {
        let SoFar { mut draft, index } = self;
        draft.p = p;
        SoFar { draft, index }
    }

    /// Returns the same draft with one component more.
    pub fn with_component(self, component: DraftComponent) -> Result<SoFar, NoMemory>
        ensures { IfOk result (λ d. d ≡ with_component self component) }
    {
        let SoFar { mut draft, index } = self;
        draft.components.push(component)?;
        Ok(SoFar { draft, index })
    }

    /// Returns the whole draft, with its last component.
    pub fn finish(self, component: DraftComponent) -> Result<Draft, NoMemory>
        ensures { IfOk result (λ d. d ≡ with_component self component) }
    {
        let SoFar { mut draft, .. } = self;
        draft.components.push(component)?;
        Ok(draft)
    }

    /// Returns the whole draft, with its stages.
    pub fn staged(self, stages: DraftStages) -> Draft
        ensures { result ≡ with_stages self stages }
    {
        let SoFar { mut draft, .. } = self;
        draft.stages = Some(stages);
        draft
    }
}
