//! What the words of lines denote.
ghost use Rattle.std.specs.Prelude.{◌≡◌, Some, map, IfOk};
ghost use Rattle.text_lines.specs.Words.{words_of, after_word};
ghost use Rattle.edge_text.specs.View.{Gives};
ghost use Rattle.edge_text.specs.WordReading.{numeral, number, numbers, given, entry, edge, whole, count};
ghost use Rattle.edge_text.specs.WordReading.{shares, first_step, step_of, arrival};

use crate::ends::Ends;
use crate::so_far::SoFar;
use crate::spend_words::{SharesWords, StepWords};
use crate::{LineKind, TextFault};
use case_model::{Arrival, DraftEdge, Entry, SpendStep};
use field_core::{List, NoMemory, Text};
use fraction::Fraction;
use numerals::whole_number;
use std::alloc::Global;
use text_lines::{Line, Words};

/// Returns the value of a numeral on a line.
fn numeral(line: &Line, word: &[u8]) -> Result<Fraction, TextFault>
    ensures { Gives line.now.number (numeral word.now) result }
{
    match Fraction::parse(word) {
        Ok(value) => Ok(value),
        Err(fault) => Err(TextFault::Line(line.number, LineKind::Number(fault))),
    }
}

/// Returns the value of the one numeral after the first word of a line.
pub fn number(line: &Line, words: Words) -> Result<Fraction, TextFault>
    ensures { Gives line.now.number (number (words_of words.entry)) result }
{
    let Some(word) = words.one() else {
        return Err(TextFault::Line(line.number, LineKind::WordCount));
    };
    numeral(line, word)
}

/// Returns the values of numerals on a line.
pub fn numbers(alloc: Global, line: &Line, words: Words) -> Result<List<Fraction>, TextFault>
    ensures { Gives line.now.number (numbers (words_of words.entry)) result }
{
    let mut values = List::new(alloc);
    for word in words {
        values.push(numeral(line, word)?)?;
    }
    Ok(values)
}

/// Returns copies of words.
pub fn copies(alloc: Global, words: Words) -> Result<List<Text>, NoMemory>
    ensures { IfOk result (λ copies. copies ≡ words_of words.entry) }
{
    let mut copies = List::new(alloc);
    for word in words {
        copies.push(Text::copy(alloc, word)?)?;
    }
    Ok(copies)
}

/// Returns the p-values on a line, one or more.
pub fn given(alloc: Global, line: &Line, words: Words) -> Result<List<Option<Fraction>>, TextFault>
    ensures { Gives line.now.number (given (words_of words.entry)) result }
{
    let values = numbers(alloc, line, words)?;
    if values.is_empty() {
        return Err(TextFault::Line(line.number, LineKind::WordCount));
    }
    Ok(filled(alloc, values.as_slice())?)
}

/// Returns the places of a draft that these p-values fill.
fn filled(alloc: Global, values: &[Fraction]) -> Result<List<Option<Fraction>>, NoMemory>
    ensures { IfOk result (λ p. p ≡ map Some values.now) }
{
    let mut filled = List::new(alloc);
    for value in values {
        filled.push(Some(*value))?;
    }
    Ok(filled)
}

/// Returns the entry of an expression on a line.
fn entry(line: &Line, expression: &[u8]) -> Result<Entry, TextFault>
    ensures { Gives line.now.number (entry expression.now) result }
{
    match entries::read_entry(expression) {
        Ok(entry) => Ok(entry),
        Err(fault) => Err(TextFault::Line(line.number, LineKind::Expr(fault))),
    }
}

/// Returns the edge that the words after the first word of a line denote.
pub fn edge(line: &Line, words: Words, draft: &SoFar) -> Result<DraftEdge, TextFault>
    requires { words ≡ after_word line.now.text.now }
    ensures { Gives line.now.number (edge draft.now.names line.now.text.now (words_of words.entry)) result }
{
    let Some(ends) = Ends::of(words) else {
        return Err(TextFault::Line(line.number, LineKind::WordCount));
    };
    let (Some(from), Some(to)) = (draft.position(ends.from), draft.position(ends.to)) else {
        return Err(TextFault::Line(line.number, LineKind::UnknownName));
    };
    let entry = entry(line, ends.expression)?;
    Ok(DraftEdge { from, to, entry })
}

/// Returns a whole number on a line.
#[tactic(auto, using(crate::proofs::WordAnswers::whole_found, crate::proofs::WordAnswers::whole_refused))]
fn whole(line: &Line, word: &[u8]) -> Result<u64, TextFault>
    ensures { Gives line.now.number (whole word.now) result }
{
    match whole_number(word, 9) {
        Some(number) => Ok(number as u64),
        None => Err(TextFault::Line(line.number, LineKind::Whole)),
    }
}

/// Returns the one whole number after the first word of a line.
pub fn count(line: &Line, words: Words) -> Result<u64, TextFault>
    ensures { Gives line.now.number (count (words_of words.entry)) result }
{
    let Some(digits) = words.one() else {
        return Err(TextFault::Line(line.number, LineKind::WordCount));
    };
    whole(line, digits)
}

/// Returns the fractions of a line `spend`, which must name this hypothesis.
pub fn shares(
    alloc: Global,
    line: &Line,
    words: Words,
    name: &[u8],
) -> Result<List<Fraction>, TextFault>
    ensures { Gives line.now.number (shares name.now (words_of words.entry)) result }
{
    let Some(found) = SharesWords::of(words) else {
        return Err(TextFault::Line(line.number, LineKind::WordCount));
    };
    if found.name != name {
        return Err(TextFault::Line(line.number, LineKind::Unexpected));
    }
    numbers(alloc, line, Words::new(found.shares))
}

/// Returns the step of a table that these numerals denote.
pub fn step_of(
    alloc: Global,
    line: &Line,
    from: &[u8],
    levels: &[u8],
) -> Result<SpendStep, TextFault>
    ensures { Gives line.now.number (step_of from.now (words_of levels.now)) result }
{
    let from = numeral(line, from)?;
    let levels = numbers(alloc, line, Words::new(levels))?;
    Ok(SpendStep { from, levels })
}

/// Returns the step of a line `table`, which must name this hypothesis.
pub fn first_step(
    alloc: Global,
    line: &Line,
    words: Words,
    name: &[u8],
) -> Result<SpendStep, TextFault>
    ensures { Gives line.now.number (first_step name.now (words_of words.entry)) result }
{
    let Some(found) = StepWords::of(words) else {
        return Err(TextFault::Line(line.number, LineKind::WordCount));
    };
    if found.name != name {
        return Err(TextFault::Line(line.number, LineKind::Unexpected));
    }
    step_of(alloc, line, found.from, found.levels)
}

/// Returns the p-value that arrived, from the words after the first word of a line `arrive`.
pub fn arrival(line: &Line, words: Words, draft: &SoFar) -> Result<Arrival, TextFault>
    ensures { Gives line.now.number (arrival draft.now.names (words_of words.entry)) result }
{
    let Some((name, stage, p)) = words.three() else {
        return Err(TextFault::Line(line.number, LineKind::WordCount));
    };
    let Some(hypothesis) = draft.position(name) else {
        return Err(TextFault::Line(line.number, LineKind::UnknownName));
    };
    let stage = whole(line, stage)? as usize;
    let p = numeral(line, p)?;
    Ok(Arrival {
        hypothesis,
        stage,
        p,
    })
}
