//! Indexes of names.
ghost use Rattle.std.specs.Prelude.{◌≡◌, ℕ, List, IfOk, OnOk, cond, None, Some};
ghost use Rattle.std.specs.Str.{bytes_eq};
ghost use Rattle.std.specs.Option.{option_or};
ghost use Rattle.case_model.specs.Names.{position_of};
ghost use Rattle.case_model.specs.NameIndexView.{place_of};

use field_core::{NoMemory, Text};
use indexmap::IndexMap;
use std::alloc::Global;

/// Names, and the least position of each in a list.
#[derive(Drop)]
pub struct NameIndex {
    first: IndexMap<Vec<u8>, usize>,
}

impl NameIndex {
    /// Returns the index of these names, or `NoMemory`.
    pub fn build(alloc: Global, names: &[Text]) -> Result<NameIndex, NoMemory>
        ensures { IfOk result (λ index. (name : List ℕ) → place_of index name ≡ position_of name names.now) }
    {
        let mut index = NameIndex {
            first: IndexMap::new(alloc),
        };
        for i in 0..names.len() {
            index.note(alloc, names[i].as_bytes(), i)?;
        }
        Ok(index)
    }

    /// Notes a name at a place, unless the name has a place already.
    fn note(&mut self, alloc: Global, name: &[u8], at: usize) -> Result<(), NoMemory>
        ensures { OnOk result ((q : List ℕ) → place_of self.new q ≡ option_or (place_of self.old q) (cond
            (bytes_eq q name.now) (Some at) None)) }
    {
        if self.first.get(name).is_none() {
            self.first.insert(name.to_vec(alloc)?, at)?;
        }
        Ok(())
    }

    /// Returns the least position of a name in the list that was indexed; `None` if the list doesn't have it.
    pub fn position(&self, name: &[u8]) -> Option<usize>
        ensures { result ≡ place_of self.now name.now }
    {
        self.first.get(name).copied()
    }
}
