//! What the command `simes` prints.
ghost use Rattle.std.specs.Prelude.{◌≡◌, ◌≢◌, ◌<◌, ◌^◌, ◌++◌, IfOk, OnOk, length, codes};
ghost use Rattle.std.specs.Fmt.{decimal};
ghost use Rattle.std.specs.List.{All, AllPairs};
ghost use Rattle.answers.specs.Lines.{line};
ghost use Rattle.case_model.specs.CaseView.{content};
ghost use Rattle.case_model.specs.SetTableView.{table_size, answer_of};
ghost use Rattle.discovery_bound.specs.BoundsView.{bounds_size, bound_of};
ghost use Rattle.report.specs.TestReport.{names_where};
ghost use Rattle.report.specs.SimesReport.{top_lines, set_alone, alone_line, simes_report, IsSimesReport};

use crate::bounds::put_sets;
use crate::lines::{put_count, put_names};
use case_model::{Case, SetTable, added};
use closed_test::sets_in_order;
use discovery_bound::Bounds;
use field_core::{List, NoMemory};
use std::alloc::Global;

/// Appends the line of the bound of the set of the first `count` leaders.
fn put_top(text: &mut List<u8>, bounds: &Bounds, count: usize, set: u32) -> Result<(), NoMemory>
    requires { set < 2 ^ bounds_size bounds.now }
    ensures { OnOk result (text.new ≡ text.old
        ++ line (codes "top " ++ decimal count ++ codes " bound " ++ decimal (bound_of bounds.now set))) }
{
    text.append(b"top ")?;
    text.append_unsigned(count as u128)?;
    text.append(b" bound ")?;
    text.append_unsigned(bounds.bound(set) as u128)?;
    text.push(b'\n')
}

/// Appends the lines of the bounds of the first leaders: of one, of two, and so on to all.
fn put_tops(
    text: &mut List<u8>,
    case: &Case,
    bounds: &Bounds,
    leaders: &[usize],
) -> Result<(), NoMemory>
    requires size { bounds_size bounds.now ≡ length (content case.now).names }
    requires below { All (λ j. j < bounds_size bounds.now) leaders.now }
    requires apart { AllPairs (λ i j. i ≢ j) leaders.now }
    ensures { OnOk result (text.new ≡ text.old ++ top_lines (content case.now) (bound_of bounds.now) leaders.now) }
{
    let mut set: u32 = 0;
    for (k, leader) in leaders.iter().enumerate() {
        set = added(set, *leader);
        put_top(text, bounds, k + 1, set)?;
    }
    Ok(())
}

/// Returns the set of one hypothesis.
fn alone(j: usize) -> u32
    requires { j < 16 }
    ensures { result ≡ 2 ^ j }
{
    1 << j
}

/// Whether the set whose only member is `j` is rejected.
fn is_rejected(case: &Case, closed: &SetTable, j: usize) -> bool
    requires size { table_size closed.now ≡ length (content case.now).names }
    requires below { j < length (content case.now).names }
    ensures { result ≡ answer_of closed.now (set_alone (content case.now) j) }
{
    closed.get(alone(j))
}

/// Appends the names of the hypotheses that are rejected alone.
fn put_alone_names(text: &mut List<u8>, case: &Case, closed: &SetTable) -> Result<(), NoMemory>
    requires { table_size closed.now ≡ length (content case.now).names }
    ensures { OnOk result (text.new ≡ text.old
        ++ names_where (content case.now) (λ j. answer_of closed.now (set_alone (content case.now) j))) }
{
    put_names(text, case, |j| is_rejected(case, closed, j))
}

/// Appends the line of the hypotheses that are rejected alone.
#[tactic(auto, unfolding(crate::specs::SimesReport::alone_line))]
fn put_alone(text: &mut List<u8>, case: &Case, closed: &SetTable) -> Result<(), NoMemory>
    requires size { table_size closed.now ≡ length (content case.now).names }
    ensures { OnOk result (text.new ≡ text.old ++ alone_line (content case.now) (answer_of closed.now)) }
{
    text.append(b"rejected")?;
    put_alone_names(text, case, closed)?;
    text.push(b'\n')
}

/// Returns what the command `simes` prints of sets.
#[tactic(auto, unfolding(crate::specs::SimesReport::simes_report))]
fn text_of_sets(
    alloc: Global,
    case: &Case,
    bounds: &Bounds,
    closed: &SetTable,
    leaders: &[usize],
    sets: &[u32],
) -> Result<List<u8>, NoMemory>
    requires bounds { bounds_size bounds.now ≡ length (content case.now).names }
    requires closed { table_size closed.now ≡ length (content case.now).names }
    requires below { All (λ j. j < bounds_size bounds.now) leaders.now }
    requires apart { AllPairs (λ i j. i ≢ j) leaders.now }
    requires sets { All (λ n. n < 2 ^ bounds_size bounds.now) sets.now }
    ensures { IfOk result (λ text. text ≡ simes_report (content case.now) (bound_of bounds.now)
        (answer_of closed.now) leaders.now sets.now) }
{
    let mut text = List::new(alloc);
    put_count(&mut text, b"simes ", case.size())?;
    put_sets(&mut text, case, bounds, sets)?;
    put_tops(&mut text, case, bounds, leaders)?;
    put_alone(&mut text, case, closed)?;
    text.append(b"end\n")?;
    Ok(text)
}

/// Returns what the command `simes` prints, or `NoMemory`:
/// - the number of hypotheses;
/// - for each set that isn't empty, in the order of sets, its bound and the names of its members;
/// - for each number of leaders, from 1 on, the bound of the set of these leaders;
/// - the names of the hypotheses that are rejected alone.
///
/// The bounds and the answers must be for the hypotheses of the case, and each leader must be one of these, none twice.
pub fn simes_text(
    alloc: Global,
    case: &Case,
    bounds: &Bounds,
    closed: &SetTable,
    leaders: &[usize],
) -> Result<List<u8>, NoMemory>
    requires bounds { bounds_size bounds.now ≡ length (content case.now).names }
    requires closed { table_size closed.now ≡ length (content case.now).names }
    requires below { All (λ j. j < length (content case.now).names) leaders.now }
    requires apart { AllPairs (λ i j. i ≢ j) leaders.now }
    ensures { IfOk result (λ text. IsSimesReport (content case.now) (bound_of bounds.now) (answer_of closed.now) leaders.now text) }
{
    let sets = sets_in_order(alloc, case.size())?;
    text_of_sets(alloc, case, bounds, closed, leaders, sets.as_slice())
}
