//! The text of nets.
ghost use Rattle.std.specs.Prelude.{◌≡◌, ◌+◌, ◌<◌, ◌++◌, ℕ, List as Seq, true, length, map, OnOk, IfOk};
ghost use Rattle.std.specs.List.{flat_map, range_with_len};
ghost use Rattle.text_lines.specs.Spelling.{spaced, text_of};
ghost use Rattle.case_model.specs.CaseView.{content};
ghost use Rattle.removal.specs.StoredGraph.{size as graph_size, is_live};
ghost use Rattle.entangled.specs.Bundled.{size};
ghost use Rattle.entangled.specs.BundleView.{bundled};
ghost use Rattle.entangled.specs.CaseNetView.{case_state};
ghost use Rattle.entangled.specs.CaseRun.{case_size, is_live_in_case, case_level};
ghost use Rattle.fraction.specs.Spelling.{spelling};
ghost use Rattle.graph_update.specs.UpdateText.{
  line_text,
  name_at,
  component_words,
  weight_words,
  edge_words,
  level_words,
  edge_lines,
  hypothesis_lines,
  graph_lines,
  components_lines,
  graphs_lines,
  level_lines,
  levels_lines,
  update_text,
};

use crate::number::PrintedNumber;
use case_model::Case;
use entangled::{Bundle, CaseNet};
use field_core::{List, NoMemory, Number};
use removal::Remover;
use std::alloc::Global;

/// Appends a blank and the name of the hypothesis at a position.
#[tactic(auto, using(std::proofs::lemmas::Option::get_or_from_slice_get))]
fn put_name(text: &mut List<u8>, case: &Case, k: usize) -> Result<(), NoMemory>
    requires { k < length (content case.now).names }
    ensures { OnOk result (text.new ≡ text.old ++ spaced (name_at (content case.now).names k)) }
{
    text.push(b' ')?;
    text.append(case.name(k))
}

/// Appends the line of a component, by its number from 1 on.
fn put_component(text: &mut List<u8>, number: usize) -> Result<(), NoMemory>
    ensures { OnOk result (text.new ≡ text.old ++ line_text (component_words number)) }
{
    text.append(b"component ")?;
    text.append_unsigned(number as u128)?;
    text.push(b'\n')
}

/// Appends the line of the weight of a hypothesis.
fn put_weight<F: PrintedNumber>(
    text: &mut List<u8>,
    case: &Case,
    k: usize,
    weight: &F,
) -> Result<(), NoMemory>
    requires { k < length (content case.now).names }
    ensures { OnOk result (text.new ≡ text.old ++ line_text
        (weight_words (content case.now).names k (F.text (F.parts weight.now)))) }
{
    text.append(b"weight")?;
    put_name(text, case, k)?;
    weight.put(text)?;
    text.push(b'\n')
}

/// Appends the line of the edge from a hypothesis to another.
fn put_edge<F: PrintedNumber>(
    text: &mut List<u8>,
    case: &Case,
    l: usize,
    k: usize,
    edge: &F,
) -> Result<(), NoMemory>
    requires from { l < length (content case.now).names }
    requires to { k < length (content case.now).names }
    ensures { OnOk result (text.new ≡ text.old ++ line_text
        (edge_words (content case.now).names l k (F.text (F.parts edge.now)))) }
{
    text.append(b"edge")?;
    put_name(text, case, l)?;
    put_name(text, case, k)?;
    edge.put(text)?;
    text.push(b'\n')
}

/// Appends the line of the edge from `l`, which remains, to `k`, if `k` remains and the edge is not 0.
fn put_edge_if<F: PrintedNumber, R: Remover<Value = F>>(
    text: &mut List<u8>,
    case: &Case,
    net: &R,
    l: usize,
    k: usize,
) -> Result<(), NoMemory>
    requires size { graph_size (R.graph (R.present net.now)) ≡ length (content case.now).names }
    requires from { is_live (R.graph (R.present net.now)) l ≡ true }
    requires below { l < length (content case.now).names }
    requires to { k < length (content case.now).names }
    ensures { OnOk result (text.new ≡ text.old ++ text_of
        (edge_lines (content case.now).names F.kind F.text (R.graph (R.present net.now)) l k)) }
{
    if !net.is_live(k) {
        return Ok(());
    }
    let edge = net.edge(l, k);
    if edge.is_zero() {
        return Ok(());
    }
    put_edge(text, case, l, k, &edge)
}

/// Appends the lines of the edges from `l`, which remains.
fn put_edges<F: PrintedNumber, R: Remover<Value = F>>(
    text: &mut List<u8>,
    case: &Case,
    net: &R,
    l: usize,
) -> Result<(), NoMemory>
    requires size { graph_size (R.graph (R.present net.now)) ≡ length (content case.now).names }
    requires from { is_live (R.graph (R.present net.now)) l ≡ true }
    requires below { l < length (content case.now).names }
    ensures { OnOk result (text.new ≡ text.old ++ text_of
        (flat_map (edge_lines (content case.now).names F.kind F.text (R.graph (R.present net.now)) l)
        (range_with_len 0 (length (content case.now).names)))) }
{
    for k in 0..case.size() {
        put_edge_if(text, case, net, l, k)?;
    }
    Ok(())
}

/// Appends the lines of a hypothesis, if it remains: its weight and its edges.
fn put_hypothesis<F: PrintedNumber, R: Remover<Value = F>>(
    text: &mut List<u8>,
    case: &Case,
    net: &R,
    l: usize,
) -> Result<(), NoMemory>
    requires size { graph_size (R.graph (R.present net.now)) ≡ length (content case.now).names }
    requires below { l < length (content case.now).names }
    ensures { OnOk result (text.new ≡ text.old ++ text_of
        (hypothesis_lines (content case.now).names F.kind F.text (R.graph (R.present net.now)) l)) }
{
    if !net.is_live(l) {
        return Ok(());
    }
    put_weight(text, case, l, &net.weight(l))?;
    put_edges(text, case, net, l)
}

/// Appends the lines of the graph of a net.
#[tactic(auto, unfolding(crate::specs::UpdateText::graph_lines))]
fn put_graph<F: PrintedNumber, R: Remover<Value = F>>(
    text: &mut List<u8>,
    case: &Case,
    net: &R,
) -> Result<(), NoMemory>
    requires { graph_size (R.graph (R.present net.now)) ≡ length (content case.now).names }
    ensures { OnOk result (text.new ≡ text.old ++ text_of
        (graph_lines (content case.now).names F.kind F.text (R.graph (R.present net.now)))) }
{
    for l in 0..case.size() {
        put_hypothesis(text, case, net, l)?;
    }
    Ok(())
}

/// Appends the lines of all nets, each as a component.
#[tactic(auto, unfolding(crate::specs::UpdateText::graphs_lines))]
fn put_nets<F: PrintedNumber, R: Remover<Value = F>>(
    text: &mut List<u8>,
    case: &Case,
    nets: &Bundle<R>,
) -> Result<(), NoMemory>
    requires { size R.graph (bundled nets.now) ≡ length (content case.now).names }
    ensures { OnOk result (text.new ≡ text.old ++ text_of
        (graphs_lines (content case.now).names F.kind F.text (map R.graph (bundled nets.now).states))) }
{
    for c in 0..nets.components() {
        put_component(text, c + 1)?;
        put_graph(text, case, nets.net(c))?;
    }
    Ok(())
}

/// Appends the lines of all components of a case.
#[tactic(auto, unfolding(crate::specs::UpdateText::components_lines, entangled::specs::CaseNetView::case_state))]
fn put_components(text: &mut List<u8>, case: &Case, nets: &CaseNet) -> Result<(), NoMemory>
    requires { case_size (case_state nets.now) ≡ length (content case.now).names }
    ensures { OnOk result (text.new ≡ text.old ++ text_of
        (components_lines (content case.now).names (case_state nets.now))) }
{
    match nets {
        CaseNet::Plain(bundle) => put_nets(text, case, bundle),
        CaseNet::Eps(bundle) => put_nets(text, case, bundle),
    }
}

/// Appends the line of the level of a hypothesis, which remains.
fn put_level(text: &mut List<u8>, case: &Case, nets: &CaseNet, k: usize) -> Result<(), NoMemory>
    requires below { k < length (content case.now).names }
    requires live { is_live_in_case (case_state nets.now) k ≡ true }
    ensures { OnOk result (text.new ≡ text.old ++ line_text
        (level_words (content case.now).names k (spelling (case_level (case_state nets.now) k)))) }
{
    text.append(b"level")?;
    put_name(text, case, k)?;
    text.push(b' ')?;
    nets.weight_limit(k).print(text)?;
    text.push(b'\n')
}

/// Appends the line of the level of a hypothesis, if it remains.
fn put_level_if(text: &mut List<u8>, case: &Case, nets: &CaseNet, k: usize) -> Result<(), NoMemory>
    requires size { case_size (case_state nets.now) ≡ length (content case.now).names }
    requires below { k < length (content case.now).names }
    ensures { OnOk result (text.new ≡ text.old ++ text_of
        (level_lines (content case.now).names (is_live_in_case (case_state nets.now)) (case_level (case_state nets.now)) k)) }
{
    if !nets.is_live(k) {
        return Ok(());
    }
    put_level(text, case, nets, k)
}

/// Appends the lines of the levels.
#[tactic(auto, unfolding(crate::specs::UpdateText::levels_lines))]
fn put_levels(text: &mut List<u8>, case: &Case, nets: &CaseNet) -> Result<(), NoMemory>
    requires { case_size (case_state nets.now) ≡ length (content case.now).names }
    ensures { OnOk result (text.new ≡ text.old ++ text_of
        (levels_lines (content case.now).names (is_live_in_case (case_state nets.now)) (case_level (case_state nets.now)))) }
{
    for k in 0..case.size() {
        put_level_if(text, case, nets, k)?;
    }
    Ok(())
}

/// Returns the text of the nets of a case.
pub fn text_of(alloc: Global, case: &Case, nets: &CaseNet) -> Result<List<u8>, NoMemory>
    requires { case_size (case_state nets.now) ≡ length (content case.now).names }
    ensures { IfOk result (λ text. text ≡ update_text (content case.now).names (case_state nets.now)) }
{
    let mut text = List::new(alloc);
    put_components(&mut text, case, nets)?;
    put_levels(&mut text, case, nets)?;
    text.append(b"end\n")?;
    Ok(text)
}
