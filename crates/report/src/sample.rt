//! What the command `sample` prints.
ghost use Rattle.std.specs.Prelude.{◌≡◌, ◌<◌, ◌≤◌, ◌++◌, IfOk, OnOk, length, count_by, codes};
ghost use Rattle.std.specs.Fmt.{decimal};
ghost use Rattle.case_model.specs.CaseView.{content};
ghost use Rattle.answers.specs.Lines.{line};
ghost use Rattle.report.specs.SampleReport.{is_edge, edge_count, sample_report};

use crate::lines::{put_count, put_rejected};
use case_model::{Case, Entry};
use field_core::{List, NoMemory};
use sequential::Decision;
use std::alloc::Global;

/// Whether an entry has a coefficient that isn't 0.
#[tactic(auto, unfolding(crate::specs::SampleReport::is_edge))]
fn is_edge(entry: &Entry) -> bool
    ensures { result ≡ is_edge entry.now }
{
    (0..5).any(|power| !entry.coefficient(power).is_zero())
}

/// Returns how many of these entries are edges.
fn edges_in(entries: &[Entry]) -> usize
    ensures count { result ≡ count_by is_edge entries.now }
    ensures within { result ≤ length entries.now }
{
    entries.iter().filter(|entry| is_edge(entry)).count()
}

/// Returns how many edges a case has.
#[tactic(auto, unfolding(crate::specs::SampleReport::edge_count))]
fn edge_count(case: &Case) -> usize
    ensures { result ≡ edge_count (content case.now) }
{
    let mut count = 0;
    for c in 0..case.components() {
        count += edges_in(case.edges(c));
    }
    count
}

/// Appends the line of the size and the seed.
fn put_head(text: &mut List<u8>, size: usize, seed: u64) -> Result<(), NoMemory>
    ensures { OnOk result (text.new ≡ text.old ++ line (codes "sample " ++ decimal size ++ codes " " ++ decimal seed)) }
{
    text.append(b"sample ")?;
    text.append_unsigned(size as u128)?;
    text.push(b' ')?;
    text.append_unsigned(seed as u128)?;
    text.push(b'\n')
}

/// Returns what the command `sample` prints, or `NoMemory`: the size and the seed, how many edges and steps there are, and the
/// names of the rejected hypotheses.
#[tactic(auto, unfolding(crate::specs::SampleReport::sample_report))]
pub fn sample_text(
    alloc: Global,
    case: &Case,
    seed: u64,
    decision: &Decision,
) -> Result<List<u8>, NoMemory>
    ensures { IfOk result (λ text. text ≡ sample_report (content case.now) seed decision.now) }
{
    let mut text = List::new(alloc);
    put_head(&mut text, case.size(), seed)?;
    put_count(&mut text, b"edges ", edge_count(case))?;
    put_count(&mut text, b"steps ", decision.steps.len())?;
    put_rejected(&mut text, case, decision.steps.as_slice())?;
    text.append(b"end\n")?;
    Ok(text)
}
