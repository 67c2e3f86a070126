//! The names of hypotheses.
ghost use Rattle.std.specs.Prelude.{◌≡◌, ℕ, List as Seq, IfOk};
ghost use Rattle.serde_json.specs.View.{view};
ghost use Rattle.case_model.specs.Names.{position_of};
ghost use Rattle.case_model.specs.NameIndexView.{place_of};
ghost use Rattle.case_json.specs.Answers.{IsAnswer, at, list_of};
ghost use Rattle.case_json.specs.Document.{text_of, hypothesis_of};

use crate::JsonFault;
use crate::keys::field;
use crate::parts::items;
use case_model::NameIndex;
use field_core::{List, NoMemory, Text};
use serde_json::Value;
use std::alloc::Global;

/// Reads a text.
fn text(alloc: Global, value: &Value) -> Result<Text, JsonFault>
    ensures { IsAnswer result (text_of (view value.now)) }
{
    match value {
        Value::String(text) => Ok(Text::copy(alloc, text.as_bytes())?),
        _ => Err(JsonFault::wrong_kind(alloc)),
    }
}

/// Reads an array of texts.
fn texts(alloc: Global, value: &Value) -> Result<List<Text>, JsonFault>
    ensures { IsAnswer result (list_of text_of (view value.now)) }
{
    items(alloc, value, |item| text(alloc, item))
}

/// Reads the array of texts at a key.
pub fn texts_at(alloc: Global, value: &Value, key: &str) -> Result<List<Text>, JsonFault>
    ensures { IsAnswer result (at key.now (list_of text_of) (view value.now)) }
{
    match texts(alloc, field(alloc, value, key)?) {
        Ok(texts) => Ok(texts),
        Err(fault) => Err(fault.under(alloc, key.as_bytes())),
    }
}

/// The names of hypotheses, and the position of each.
#[derive(Drop)]
pub struct Hypotheses {
    names: List<Text>,
    index: NameIndex,
    ghost indexed: { (name : Seq ℕ) → place_of index name ≡ position_of name names },
}

impl Hypotheses {
    ghost use Rattle.std.specs.Prelude.{◌≡◌, IfOk};
    ghost use Rattle.serde_json.specs.View.{view};
    ghost use Rattle.case_json.specs.Answers.{IsAnswer, at};
    ghost use Rattle.case_json.specs.Document.{hypothesis_of};

    /// Returns the hypotheses of these names.
    pub fn of(alloc: Global, names: List<Text>) -> Result<Hypotheses, NoMemory>
        ensures { IfOk result (λ hypotheses. hypotheses.names ≡ names) }
    {
        let index = NameIndex::build(alloc, names.as_slice())?;
        Ok(Hypotheses { names, index })
    }

    /// Returns the names, in their order.
    pub fn into_names(self) -> List<Text>
        ensures { result ≡ self.names }
    {
        let Hypotheses { names, .. } = self;
        names
    }

    /// Reads the name of a hypothesis, and returns its position.
    fn position(&self, alloc: Global, value: &Value) -> Result<usize, JsonFault>
        ensures { IsAnswer result (hypothesis_of self.now.names (view value.now)) }
    {
        let Value::String(name) = value else {
            return Err(JsonFault::wrong_kind(alloc));
        };
        match self.index.position(name.as_bytes()) {
            Some(position) => Ok(position),
            None => Err(JsonFault::UnknownName(Text::copy(alloc, b"")?)),
        }
    }

    /// Reads the name of a hypothesis at a key, and returns its position.
    pub fn position_at(&self, alloc: Global, value: &Value, key: &str) -> Result<usize, JsonFault>
        ensures { IsAnswer result (at key.now (hypothesis_of self.now.names) (view value.now)) }
    {
        match self.position(alloc, field(alloc, value, key)?) {
            Ok(position) => Ok(position),
            Err(fault) => Err(fault.under(alloc, key.as_bytes())),
        }
    }
}
