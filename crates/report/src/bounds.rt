//! What the command `bounds` prints.
ghost use Rattle.std.specs.Prelude.{◌≡◌, ◌<◌, ◌≤◌, ◌^◌, ◌++◌, IfOk, OnOk, length};
ghost use Rattle.std.specs.List.{All, flat_map};
ghost use Rattle.field_core.specs.NumberedSets.{members};
ghost use Rattle.case_model.specs.CaseView.{content};
ghost use Rattle.discovery_bound.specs.BoundsView.{bounds_size, bound_of};
ghost use Rattle.report.specs.TestReport.{names_where};
ghost use Rattle.report.specs.BoundsReport.{members_line, bound_line, bounds_report, IsBoundsReport};

use crate::lines::{put_count, put_names};
use case_model::{Case, holds};
use closed_test::sets_in_order;
use discovery_bound::Bounds;
use field_core::{List, NoMemory};
use std::alloc::Global;

/// Appends the names of the members of a set.
fn put_members(text: &mut List<u8>, case: &Case, set: u32) -> Result<(), NoMemory>
    requires { length (content case.now).names ≤ 16 }
    ensures { OnOk result (text.new ≡ text.old ++ names_where (content case.now) (members set)) }
{
    put_names(text, case, |k| holds(set, k))
}

/// Appends the line of the bound of a set.
#[tactic(auto, unfolding(crate::specs::BoundsReport::members_line))]
fn put_line(text: &mut List<u8>, case: &Case, bounds: &Bounds, set: u32) -> Result<(), NoMemory>
    requires size { bounds_size bounds.now ≡ length (content case.now).names }
    requires set { set < 2 ^ bounds_size bounds.now }
    ensures { OnOk result (text.new ≡ text.old ++ members_line (content case.now) (bound_of bounds.now) set) }
{
    text.append(b"bound ")?;
    text.append_unsigned(bounds.bound(set) as u128)?;
    text.append(b" of")?;
    put_members(text, case, set)?;
    text.push(b'\n')
}

/// Appends the line of a set, and nothing for the empty set.
fn put_set(text: &mut List<u8>, case: &Case, bounds: &Bounds, set: u32) -> Result<(), NoMemory>
    requires size { bounds_size bounds.now ≡ length (content case.now).names }
    requires set { set < 2 ^ bounds_size bounds.now }
    ensures { OnOk result (text.new ≡ text.old ++ bound_line (content case.now) (bound_of bounds.now) set) }
{
    if set == 0 {
        return Ok(());
    }
    put_line(text, case, bounds, set)
}

/// Appends the lines of sets.
pub(crate) fn put_sets(
    text: &mut List<u8>,
    case: &Case,
    bounds: &Bounds,
    sets: &[u32],
) -> Result<(), NoMemory>
    requires size { bounds_size bounds.now ≡ length (content case.now).names }
    requires sets { All (λ n. n < 2 ^ bounds_size bounds.now) sets.now }
    ensures { OnOk result (text.new ≡ text.old ++ flat_map (bound_line (content case.now) (bound_of bounds.now)) sets.now) }
{
    for set in sets {
        put_set(text, case, bounds, *set)?;
    }
    Ok(())
}

/// Returns what the command `bounds` prints of sets.
#[tactic(auto, unfolding(crate::specs::BoundsReport::bounds_report))]
fn text_of_sets(
    alloc: Global,
    case: &Case,
    bounds: &Bounds,
    sets: &[u32],
) -> Result<List<u8>, NoMemory>
    requires size { bounds_size bounds.now ≡ length (content case.now).names }
    requires sets { All (λ n. n < 2 ^ bounds_size bounds.now) sets.now }
    ensures { IfOk result (λ text. text ≡ bounds_report (content case.now) (bound_of bounds.now) sets.now) }
{
    let mut text = List::new(alloc);
    put_count(&mut text, b"bounds ", case.size())?;
    put_sets(&mut text, case, bounds, sets)?;
    text.append(b"end\n")?;
    Ok(text)
}

/// Returns what the command `bounds` prints, or `NoMemory`. It is the number of hypotheses, and then for each set that isn't
/// empty, in the order of sets, its bound and its members' names. The bounds must be for the hypotheses of the case.
pub fn bounds_text(alloc: Global, case: &Case, bounds: &Bounds) -> Result<List<u8>, NoMemory>
    requires { bounds_size bounds.now ≡ length (content case.now).names }
    ensures { IfOk result (λ text. IsBoundsReport (content case.now) (bound_of bounds.now) text) }
{
    let sets = sets_in_order(alloc, case.size())?;
    text_of_sets(alloc, case, bounds, sets.as_slice())
}
