//! The canonical text of a case.
ghost use Rattle.std.specs.Prelude.{◌≡◌, ◌*◌, ◌<◌, ◌≤◌, ◌++◌, length, IfOk, OnOk};
ghost use Rattle.case_model.specs.CaseView.{content};
ghost use Rattle.case_model.specs.Content.{component_at};
ghost use Rattle.text_lines.specs.Spelling.{text_of};
ghost use Rattle.edge_text.specs.CanonicalText.{
  alpha_words,
  names_words,
  p_words,
  share_words,
  weights_words,
  edge_words,
  edge_lines,
  table_lines,
  share_lines,
  block_lines,
  blocks_lines,
  p_lines,
  late_lines,
  canonical_text,
};
ghost use Rattle.edge_text.specs.Reading.{IsCaseOf};
ghost use Rattle.edge_text.specs.View.{line_of};

use crate::write_stages::put_stages;
use crate::write_words::{put_name, put_names, put_number, put_numbers};
use case_model::{Case, Entry, Inputs};
use edge_expression::print_entry;
use field_core::{List, NoMemory, Number, Text};
use fraction::Fraction;
use std::alloc::Global;

/// Appends the line of the level.
fn put_alpha(text: &mut List<u8>, alpha: &Fraction) -> Result<(), NoMemory>
    ensures { OnOk result (text.new ≡ text.old ++ line_of (alpha_words alpha.now)) }
{
    text.append(b"alpha")?;
    put_number(text, alpha)?;
    text.push(b'\n')
}

/// Appends the line of the names.
fn put_hypotheses(text: &mut List<u8>, names: &[Text]) -> Result<(), NoMemory>
    ensures { OnOk result (text.new ≡ text.old ++ line_of (names_words names.now)) }
{
    text.append(b"hypotheses")?;
    put_names(text, names)?;
    text.push(b'\n')
}

/// Appends the line of the p-values of hypotheses.
fn put_p_values(text: &mut List<u8>, p_values: &[Fraction]) -> Result<(), NoMemory>
    ensures { OnOk result (text.new ≡ text.old ++ line_of (p_words p_values.now)) }
{
    text.append(b"p")?;
    put_numbers(text, p_values)?;
    text.push(b'\n')
}

/// Appends the line of the share of a component.
fn put_share(text: &mut List<u8>, share: &Fraction) -> Result<(), NoMemory>
    ensures { OnOk result (text.new ≡ text.old ++ line_of (share_words share.now)) }
{
    text.append(b"component")?;
    put_number(text, share)?;
    text.push(b'\n')
}

/// Appends the line of the share of a component, unless the component is alone.
fn put_share_unless(text: &mut List<u8>, alone: bool, share: &Fraction) -> Result<(), NoMemory>
    ensures { OnOk result (text.new ≡ text.old ++ text_of (share_lines alone share.now)) }
{
    if alone {
        return Ok(());
    }
    put_share(text, share)
}

/// Appends the line of the weights of a component.
fn put_weights(text: &mut List<u8>, weights: &[Fraction]) -> Result<(), NoMemory>
    ensures { OnOk result (text.new ≡ text.old ++ line_of (weights_words weights.now)) }
{
    text.append(b"weights")?;
    put_numbers(text, weights)?;
    text.push(b'\n')
}

/// Appends the line of an edge between two hypotheses.
fn put_edge(
    text: &mut List<u8>,
    names: &[Text],
    from: usize,
    to: usize,
    entry: &Entry,
) -> Result<(), NoMemory>
    requires from { from < length names.now }
    requires to { to < length names.now }
    ensures { OnOk result (text.new ≡ text.old ++ line_of (edge_words names.now from to entry.now)) }
{
    text.append(b"edge")?;
    put_name(text, names, from)?;
    put_name(text, names, to)?;
    text.push(b' ')?;
    print_entry(entry, text)?;
    text.push(b'\n')
}

/// Appends the line of the edge at a place of a table, row by row, if the edge isn't 0.
#[tactic(auto, unfolding(crate::specs::CanonicalText::edge_lines))]
fn put_edge_if_any(
    text: &mut List<u8>,
    names: &[Text],
    place: usize,
    entry: &Entry,
) -> Result<(), NoMemory>
    requires { place < length names.now * length names.now }
    ensures { OnOk result (text.new ≡ text.old ++ text_of (edge_lines names.now place entry.now)) }
{
    if entry.is_zero() {
        return Ok(());
    }
    put_edge(text, names, place / names.len(), place % names.len(), entry)
}

/// Appends the lines of the edges of a table that aren't 0.
fn put_edges(text: &mut List<u8>, names: &[Text], table: &[Entry]) -> Result<(), NoMemory>
    requires { length table.now ≡ length names.now * length names.now }
    ensures { OnOk result (text.new ≡ text.old ++ text_of (table_lines names.now 0 table.now)) }
{
    for (place, entry) in table.iter().enumerate() {
        put_edge_if_any(text, names, place, entry)?;
    }
    Ok(())
}

/// Appends the lines of a component.
#[tactic(auto, unfolding(crate::specs::CanonicalText::block_lines))]
fn put_block(
    text: &mut List<u8>,
    case: &Case,
    alone: bool,
    component: usize,
) -> Result<(), NoMemory>
    requires { component < length (content case.now).components }
    ensures { OnOk result (text.new ≡ text.old ++ text_of (block_lines (content case.now).names alone (component_at
        (content case.now).components component))) }
{
    put_share_unless(text, alone, &case.share(component))?;
    put_weights(text, case.weights(component))?;
    put_edges(text, case.names(), case.edges(component))
}

/// Appends the lines of the components.
#[tactic(auto, unfolding(crate::specs::CanonicalText::blocks_lines))]
fn put_blocks(text: &mut List<u8>, case: &Case) -> Result<(), NoMemory>
    ensures { OnOk result (text.new ≡ text.old ++ text_of (blocks_lines (content case.now).names (content case.now).components)) }
{
    let alone = case.is_alone();
    for component in 0..case.components() {
        put_block(text, case, alone, component)?;
    }
    Ok(())
}

/// Appends the line of the p-values of hypotheses, if there are some.
fn put_single(text: &mut List<u8>, inputs: &Inputs) -> Result<(), NoMemory>
    ensures { OnOk result (text.new ≡ text.old ++ text_of (p_lines inputs.now)) }
{
    match inputs {
        Inputs::Single(p_values) => put_p_values(text, p_values.as_slice()),
        Inputs::Bare => Ok(()),
        Inputs::Staged(_) => Ok(()),
    }
}

/// Appends the lines of the stages of a case, if it has stages.
fn put_staged(text: &mut List<u8>, case: &Case) -> Result<(), NoMemory>
    ensures { OnOk result (text.new ≡ text.old ++ text_of (late_lines (content case.now).names (content case.now).inputs)) }
{
    match case.inputs() {
        Inputs::Staged(stages) => put_stages(text, case.names(), stages),
        Inputs::Bare => Ok(()),
        Inputs::Single(_) => Ok(()),
    }
}

/// Returns the lines of a case, in their order.
#[tactic(auto, unfolding(crate::specs::CanonicalText::canonical_text, crate::specs::CanonicalText::canonical_lines))]
fn written(alloc: Global, case: &Case) -> Result<List<u8>, NoMemory>
    ensures { IfOk result (λ text. text ≡ canonical_text (content case.now)) }
{
    let mut text = List::new(alloc);
    put_alpha(&mut text, &case.alpha())?;
    put_hypotheses(&mut text, case.names())?;
    put_single(&mut text, case.inputs())?;
    put_blocks(&mut text, case)?;
    put_staged(&mut text, case)?;
    Ok(text)
}

/// Returns the canonical text of a case, or `NoMemory`.
///
/// Words are one blank apart, and a line feed ends each line. Numbers are in lowest terms, as `Fraction::print` writes them. Of
/// the edges of a component those that aren't 0 are written, by ascending first and then second end, as `print_entry` writes
/// them. If there is only one component and its share is 1, no share is written. A table of levels is written as a table, and
/// the p-values that arrived keep their order.
#[tactic(auto, using(crate::proofs::CanonicalCases::says_its_case))]
pub fn write_text(alloc: Global, case: &Case) -> Result<List<u8>, NoMemory>
    ensures canonical { IfOk result (λ text. text ≡ canonical_text (content case.now)) }
    ensures says { IfOk result (λ text. IsCaseOf text case.now) }
{
    written(alloc, case)
}
