//! What the command `weights` prints.
ghost use Rattle.std.specs.Prelude.{◌≡◌, ◌<◌, ◌^◌, ◌++◌, IfOk, OnOk, length};
ghost use Rattle.std.specs.List.{All, flat_map, range_with_len};
ghost use Rattle.case_model.specs.CaseView.{content};
ghost use Rattle.closed_test.specs.WeightsView.{weights_size, weight_at};
ghost use Rattle.report.specs.WeightsReport.{member_weight, weight_if_member, members_line, set_line, weights_report, IsWeightsReport};

use crate::lines::{put_count, put_name};
use case_model::{Case, holds};
use closed_test::{WeightTable, sets_in_order};
use field_core::{List, NoMemory};
use std::alloc::Global;

/// Appends the name of a member of a set and its weight there.
#[tactic(auto, unfolding(crate::specs::WeightsReport::member_weight))]
fn put_weight(
    text: &mut List<u8>,
    case: &Case,
    table: &WeightTable,
    set: u32,
    k: usize,
) -> Result<(), NoMemory>
    requires size { weights_size table.now ≡ length (content case.now).names }
    requires set { set < 2 ^ weights_size table.now }
    requires below { k < weights_size table.now }
    ensures { OnOk result (text.new ≡ text.old ++ member_weight (content case.now) (weight_at table.now) set k) }
{
    put_name(text, case, k)?;
    text.append(b"=")?;
    table.weight(set, k).print(text)
}

/// Appends the name of a hypothesis and its weight in a set, if it is a member.
fn put_if_member(
    text: &mut List<u8>,
    case: &Case,
    table: &WeightTable,
    set: u32,
    k: usize,
) -> Result<(), NoMemory>
    requires size { weights_size table.now ≡ length (content case.now).names }
    requires set { set < 2 ^ weights_size table.now }
    requires below { k < weights_size table.now }
    ensures { OnOk result (text.new ≡ text.old ++ weight_if_member (content case.now) (weight_at table.now) set k) }
{
    if !holds(set, k) {
        return Ok(());
    }
    put_weight(text, case, table, set, k)
}

/// Appends the weights of the members of a set.
fn put_members(
    text: &mut List<u8>,
    case: &Case,
    table: &WeightTable,
    set: u32,
) -> Result<(), NoMemory>
    requires size { weights_size table.now ≡ length (content case.now).names }
    requires set { set < 2 ^ weights_size table.now }
    ensures { OnOk result (text.new ≡ text.old ++ flat_map (weight_if_member (content case.now)
        (weight_at table.now) set) (range_with_len 0 (length (content case.now).names))) }
{
    for k in 0..case.size() {
        put_if_member(text, case, table, set, k)?;
    }
    Ok(())
}

/// Appends the line of the weights of the members of a set.
#[tactic(auto, unfolding(crate::specs::WeightsReport::members_line))]
fn put_line(text: &mut List<u8>, case: &Case, table: &WeightTable, set: u32) -> Result<(), NoMemory>
    requires size { weights_size table.now ≡ length (content case.now).names }
    requires set { set < 2 ^ weights_size table.now }
    ensures { OnOk result (text.new ≡ text.old ++ members_line (content case.now) (weight_at table.now) set) }
{
    text.append(b"set")?;
    put_members(text, case, table, set)?;
    text.push(b'\n')
}

/// Appends the line of a set, and nothing for the empty set.
fn put_set(text: &mut List<u8>, case: &Case, table: &WeightTable, set: u32) -> Result<(), NoMemory>
    requires size { weights_size table.now ≡ length (content case.now).names }
    requires set { set < 2 ^ weights_size table.now }
    ensures { OnOk result (text.new ≡ text.old ++ set_line (content case.now) (weight_at table.now) set) }
{
    if set == 0 {
        return Ok(());
    }
    put_line(text, case, table, set)
}

/// Appends the lines of sets.
fn put_sets(
    text: &mut List<u8>,
    case: &Case,
    table: &WeightTable,
    sets: &[u32],
) -> Result<(), NoMemory>
    requires size { weights_size table.now ≡ length (content case.now).names }
    requires sets { All (λ n. n < 2 ^ weights_size table.now) sets.now }
    ensures { OnOk result (text.new ≡ text.old ++ flat_map (set_line (content case.now) (weight_at table.now)) sets.now) }
{
    for set in sets {
        put_set(text, case, table, *set)?;
    }
    Ok(())
}

/// Returns what the command `weights` prints of sets.
#[tactic(auto, unfolding(crate::specs::WeightsReport::weights_report))]
fn text_of_sets(
    alloc: Global,
    case: &Case,
    table: &WeightTable,
    sets: &[u32],
) -> Result<List<u8>, NoMemory>
    requires size { weights_size table.now ≡ length (content case.now).names }
    requires sets { All (λ n. n < 2 ^ weights_size table.now) sets.now }
    ensures { IfOk result (λ text. text ≡ weights_report (content case.now) (weight_at table.now) sets.now) }
{
    let mut text = List::new(alloc);
    put_count(&mut text, b"weights ", case.size())?;
    put_sets(&mut text, case, table, sets)?;
    text.append(b"end\n")?;
    Ok(text)
}

/// Returns what the command `weights` prints, or `NoMemory`: how many hypotheses there are, and for each set that isn't empty, in
/// the order of sets, the weights of its members. The table must be for the hypotheses of the case.
pub fn weights_text(alloc: Global, case: &Case, table: &WeightTable) -> Result<List<u8>, NoMemory>
    requires { weights_size table.now ≡ length (content case.now).names }
    ensures { IfOk result (λ text. IsWeightsReport (content case.now) (weight_at table.now) text) }
{
    let sets = sets_in_order(alloc, case.size())?;
    text_of_sets(alloc, case, table, sets.as_slice())
}
