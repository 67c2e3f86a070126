//! The walk through all sets of a case in their order, depth first, with one removal for each.
ghost use Rattle.std.specs.Prelude.{◌≡◌, ◌≢◌, ◌<◌, ◌+◌, [], ℕ, suc, true, length, map, get_or, MatchResult};
ghost use Rattle.field_core.specs.Kind.{ok_map};
ghost use Rattle.case_model.specs.CaseView.{content};
ghost use Rattle.entangled.specs.CaseNetView.{case_state};
ghost use Rattle.entangled.specs.CaseRun.{CaseState, case_size, case_numbers, case_shares, case_removal, is_live_in_case};
ghost use Rattle.closed_test.specs.PathView.{left_of, IsPath};
ghost use Rattle.closed_test.specs.WeightsView.{weights_size, weight_at};
ghost use Rattle.closed_test.specs.Walks.{AreAllTabled, IsFirstUndefined, AreStatesAlong, AreLikeTheFirst};

use crate::path::Path;
use crate::weights::WeightTable;
use case_model::Case;
use entangled::CaseNet;
use field_core::WideAt;

/// Makes the nets those of `parent`, and then removes `j` from them.
fn set_and_remove(nets: &mut CaseNet, parent: &CaseNet, j: usize) -> Result<(), WideAt>
    requires numbers { case_numbers (case_state nets.old) ≡ case_numbers (case_state parent.now) }
    requires size { case_size (case_state nets.old) ≡ case_size (case_state parent.now) }
    requires shares { case_shares (case_state nets.old) ≡ case_shares (case_state parent.now) }
    requires live { is_live_in_case (case_state parent.now) j ≡ true }
    ensures { ok_map (λ _. case_state nets.new) result ≡ case_removal (case_state parent.now) j }
{
    nets.set_to(parent);
    nets.remove(j)
}

/// Makes the nets at the next depth those at this depth, and then removes `j` from them.
fn enter(nets: &mut [CaseNet], depth: usize, j: usize) -> Result<(), WideAt>
    requires depth { depth + 1 < length nets.old }
    requires numbers { (d : CaseState) → case_numbers (get_or (map case_state nets.old)
        (suc depth) d) ≡ case_numbers (get_or (map case_state nets.old) depth d) }
    requires size { (d : CaseState) → case_size (get_or (map case_state nets.old) (suc depth) d) ≡ case_size (get_or
        (map case_state nets.old) depth d) }
    requires shares { (d : CaseState) → case_shares (get_or (map case_state nets.old) (suc depth) d) ≡ case_shares
        (get_or (map case_state nets.old) depth d) }
    requires live { (d : CaseState) → is_live_in_case (get_or (map case_state nets.old) depth d) j ≡ true }
    ensures count { length nets.new ≡ length nets.old }
    ensures others { (n : ℕ) (d : CaseState) → n ≢ suc depth
        → get_or (map case_state nets.new) n d ≡ get_or (map case_state nets.old) n d }
    ensures value { (d : CaseState) → ok_map (λ _. get_or (map case_state nets.new)
        (suc depth) d) result ≡ case_removal (get_or (map case_state nets.old) depth d) j }
{
    let (lower, upper) = nets.split_at_mut(depth + 1);
    set_and_remove(&mut upper[0], &lower[depth], j)
}

/// Walks through all sets of a case, and puts their weights into a table; it stops at the first set whose run is undefined.
pub fn walk(
    case: &Case,
    nets: &mut [CaseNet],
    path: &mut Path,
    table: &mut WeightTable,
) -> Result<(), WideAt>
    requires size { path.old.size ≡ length (content case.now).names }
    requires path { IsPath path.old }
    requires start { left_of path.old ≡ [] }
    requires table { weights_size table.old ≡ length (content case.now).names }
    requires count { length nets.old ≡ length (content case.now).names + 1 }
    requires along { AreStatesAlong (content case.now) [] (map case_state nets.old) }
    requires alike { AreLikeTheFirst (length (content case.now).names + 1) (map case_state nets.old) }
    ensures size { weights_size table.new ≡ weights_size table.old }
    ensures path { (path.new.size ≡ path.old.size) × IsPath path.new }
    ensures walk { MatchResult result (λ _. AreAllTabled (content case.now) (weight_at table.new))
        (IsFirstUndefined (content case.now) (left_of path.new)) }
{
    table.put_row(path.set(), &nets[0]);
    'sets: loop {
        match path.step() {
            None => return Ok(()),
            Some(j) => {
                let depth = path.depth();
                if let Err(wide) = enter(nets, depth - 1, j) {
                    return Err(wide);
                }
                table.put_row(path.set(), &nets[depth]);
            }
        }
    }
}
