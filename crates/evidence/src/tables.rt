//! The tables of a component: what flows through each hypothesis, what each one sends, and the exits to each one.
ghost use Rattle.std.specs.Prelude.{◌≡◌, ◌<◌, true, false, not, Some, IfOk, IfSome, map};
ghost use Rattle.std.specs.Option.{option_map};
ghost use Rattle.field_core.specs.Kind.{ok_map, is_zero};
ghost use Rattle.field_core.specs.Steps.{each_below};
ghost use Rattle.removal.specs.StoredGraph.{size, is_live};
ghost use Rattle.removal.specs.WrittenRemoval.{is_gone, divisor};
ghost use Rattle.evidence.specs.FlowTables.{
  if_wanted,
  first_tables,
  new_flow,
  new_flows,
  new_visit,
  new_visits_by,
  new_visits,
  new_exit,
  new_exits,
};
ghost use Rattle.evidence.specs.FlowTables.{new_tables};
ghost use Rattle.evidence.specs.TablesView.{tables_of};
ghost use Rattle.field_core.specs.Made.{Makes};

use crate::rows::{copy, put, put_each, zeros};
use evidence_check::rows::{number, row};
use field_core::{Fault, List, NoMemory, Number, Place, Wide};
use removal::Remover;
use std::alloc::Global;

/// What a run records of a component: what flows through each hypothesis, and for each hypothesis a row of what it sends through
/// each one. There is also, for each hypothesis, a row of the exits from each one to it.
#[derive(Drop)]
pub struct Tables<F> {
    pub flows: List<F>,
    pub visits: List<List<F>>,
    pub exits: List<List<F>>,
}

/// Whether `l` doesn't remain once `j` is removed.
#[tactic(auto, unfolding(removal::specs::WrittenRemoval::is_gone))]
fn is_gone<R: Remover>(net: &R, j: usize, l: usize) -> bool
    requires { l < size (R.graph (R.present net.now)) }
    ensures { result ≡ is_gone (R.graph (R.present net.now)) j l }
{
    !net.is_live(l) || l == j
}

/// Returns what flows through `r` after the step of `j`.
#[tactic(auto, unfolding(crate::specs::FlowTables::new_flow))]
fn new_flow<R: Remover>(
    net: &R,
    j: usize,
    sent: &[R::Value],
    flows: &[R::Value],
    r: usize,
) -> Result<R::Value, Wide>
    requires { is_live (R.graph (R.present net.now)) j ≡ true }
    ensures { ok_map R.Value.parts result ≡ new_flow R.Value.kind (R.graph (R.present net.now)) j (map R.Value.parts sent.now)
        (map R.Value.parts flows.now) r }
{
    let place = Place::Flow(r);
    let gain = net
        .weight(j)
        .mul(&number(sent, r))
        .map_err(|wide| wide.at(place))?;
    number(flows, r).add(&gain).map_err(|wide| wide.at(place))
}

/// Returns what flows through the hypotheses after the step of `j`: it changes for those of the earlier steps and for `j`.
#[tactic(auto, unfolding(crate::specs::FlowTables::new_flows))]
fn new_flows<R: Remover>(
    alloc: Global,
    net: &R,
    j: usize,
    earlier: &[usize],
    tables: &Tables<R::Value>,
) -> Result<List<R::Value>, Fault<Wide>>
    requires { is_live (R.graph (R.present net.now)) j ≡ true }
    ensures { Makes (map R.Value.parts) result (new_flows R.Value.kind (R.graph (R.present net.now)) j earlier.now
        (map (map R.Value.parts) tables.now.visits) (map R.Value.parts tables.now.flows)) }
{
    let (sent, old) = (row(&tables.visits, j), tables.flows.as_slice());
    let mut flows = copy(alloc, old)?;
    put_each(&mut flows, earlier, |r| new_flow(net, j, sent, old, r))?;
    put(&mut flows, j, new_flow(net, j, sent, old, j)?);
    Ok(flows)
}

/// Returns what the row of what `l` sends is divided by; `None` if all of the row becomes 0.
#[tactic(auto, unfolding(removal::specs::WrittenRemoval::is_gone, removal::specs::WrittenRemoval::divisor))]
fn divisor<R: Remover>(net: &R, j: usize, l: usize) -> Result<Option<R::Value>, Wide>
    requires j { is_live (R.graph (R.present net.now)) j ≡ true }
    requires l { is_gone (R.graph (R.present net.now)) j l ≡ false }
    ensures value { ok_map (option_map R.Value.parts) result ≡ divisor R.Value.kind (R.graph (R.present net.now)) j l }
    ensures nonzero { IfOk result (λ d. IfSome d (λ x. is_zero (R.Value.parts x) ≡ false)) }
{
    let place = Place::Loss(l);
    let back = net
        .edge(l, j)
        .mul(&net.edge(j, l))
        .map_err(|wide| wide.at(place))?;
    let left = R::Value::one().sub(&back).map_err(|wide| wide.at(place))?;
    if left.is_zero() {
        return Ok(None);
    }
    Ok(Some(left))
}

/// Returns what `l` sends through `r` after the step of `j`.
#[tactic(auto, unfolding(removal::specs::WrittenRemoval::is_gone, crate::specs::FlowTables::new_visit))]
fn new_visit<R: Remover>(
    net: &R,
    j: usize,
    sent: &[R::Value],
    own: &[R::Value],
    l: usize,
    divisor: &R::Value,
    r: usize,
) -> Result<R::Value, Wide>
    requires j { is_live (R.graph (R.present net.now)) j ≡ true }
    requires l { is_gone (R.graph (R.present net.now)) j l ≡ false }
    requires nonzero { is_zero (R.Value.parts divisor.now) ≡ false }
    ensures { ok_map R.Value.parts result ≡ new_visit R.Value.kind (R.graph (R.present net.now)) j (map R.Value.parts sent.now)
        (map R.Value.parts own.now) l (R.Value.parts divisor.now) r }
{
    let place = Place::Visit(l, r);
    let through = net
        .edge(l, j)
        .mul(&number(sent, r))
        .map_err(|wide| wide.at(place))?;
    let merged = number(own, r).add(&through).map_err(|wide| wide.at(place))?;
    merged.div(divisor).map_err(|wide| wide.at(place))
}

/// Returns the row of what `l` sends after the step of `j`, divided by `left`.
fn divided_visits<R: Remover>(
    alloc: Global,
    net: &R,
    j: usize,
    earlier: &[usize],
    visits: &List<List<R::Value>>,
    l: usize,
    left: &R::Value,
) -> Result<List<R::Value>, Fault<Wide>>
    requires j { is_live (R.graph (R.present net.now)) j ≡ true }
    requires l { is_gone (R.graph (R.present net.now)) j l ≡ false }
    requires nonzero { is_zero (R.Value.parts left.now) ≡ false }
    ensures { Makes (map R.Value.parts) result (new_visits_by R.Value.kind (R.graph (R.present net.now)) j earlier.now
        (map (map R.Value.parts) visits.now) l (Some (R.Value.parts left.now))) }
{
    let (sent, own) = (row(visits, j), row(visits, l));
    let mut next = copy(alloc, own)?;
    put_each(&mut next, earlier, |r| {
        new_visit(net, j, sent, own, l, left, r)
    })?;
    put(&mut next, j, new_visit(net, j, sent, own, l, left, j)?);
    put(&mut next, l, new_visit(net, j, sent, own, l, left, l)?);
    Ok(next)
}

/// Returns the row of what `l` sends after the step of `j`.
#[tactic(auto, unfolding(crate::specs::FlowTables::new_visits, crate::specs::FlowTables::new_visits_by))]
fn new_visits<R: Remover>(
    alloc: Global,
    net: &R,
    j: usize,
    earlier: &[usize],
    visits: &List<List<R::Value>>,
    l: usize,
) -> Result<List<R::Value>, Fault<Wide>>
    requires j { is_live (R.graph (R.present net.now)) j ≡ true }
    requires l { l < size (R.graph (R.present net.now)) }
    ensures { Makes (map R.Value.parts) result (new_visits R.Value.kind (R.graph (R.present net.now)) j earlier.now (map
        (map R.Value.parts) visits.now) l) }
{
    let own = row(visits, l);
    if is_gone(net, j, l) {
        return Ok(copy(alloc, own)?);
    }
    match divisor(net, j, l)? {
        None => Ok(zeros(alloc, own.len())?),
        Some(left) => divided_visits(alloc, net, j, earlier, visits, l, &left),
    }
}

/// Returns the exit from `r` to `k` after the step of `j`.
#[tactic(auto, unfolding(removal::specs::WrittenRemoval::is_gone, crate::specs::FlowTables::new_exit))]
fn new_exit<R: Remover>(
    net: &R,
    j: usize,
    removed: &[R::Value],
    own: &[R::Value],
    k: usize,
    r: usize,
) -> Result<R::Value, Wide>
    requires j { is_live (R.graph (R.present net.now)) j ≡ true }
    requires k { is_gone (R.graph (R.present net.now)) j k ≡ false }
    ensures { ok_map R.Value.parts result ≡ new_exit R.Value.kind (R.graph (R.present net.now)) j (map R.Value.parts removed.now)
        (map R.Value.parts own.now) k r }
{
    let place = Place::Exit(r, k);
    let through = number(removed, r)
        .mul(&net.edge(j, k))
        .map_err(|wide| wide.at(place))?;
    number(own, r).add(&through).map_err(|wide| wide.at(place))
}

/// Returns the row of the exits to `k` after the step of `j`.
#[tactic(auto, unfolding(removal::specs::WrittenRemoval::is_gone, crate::specs::FlowTables::new_exits))]
fn new_exits<R: Remover>(
    alloc: Global,
    net: &R,
    j: usize,
    earlier: &[usize],
    exits: &List<List<R::Value>>,
    k: usize,
) -> Result<List<R::Value>, Fault<Wide>>
    requires j { is_live (R.graph (R.present net.now)) j ≡ true }
    requires k { k < size (R.graph (R.present net.now)) }
    ensures { Makes (map R.Value.parts) result (new_exits R.Value.kind (R.graph (R.present net.now)) j earlier.now (map
        (map R.Value.parts) exits.now) k) }
{
    let (removed, own) = (row(exits, j), row(exits, k));
    if is_gone(net, j, k) {
        return Ok(copy(alloc, own)?);
    }
    let mut next = copy(alloc, own)?;
    put_each(&mut next, earlier, |r| new_exit(net, j, removed, own, k, r))?;
    put(&mut next, j, net.edge(j, k));
    Ok(next)
}

/// Returns the rows of what each hypothesis sends after the step of `j`.
#[tactic(auto, using(crate::proofs::TableAnswers::row_steps))]
fn all_visits<R: Remover>(
    alloc: Global,
    net: &R,
    j: usize,
    earlier: &[usize],
    visits: &List<List<R::Value>>,
) -> Result<List<List<R::Value>>, Fault<Wide>>
    requires { is_live (R.graph (R.present net.now)) j ≡ true }
    ensures { Makes (map (map R.Value.parts)) result (each_below (size (R.graph (R.present net.now)))
        (new_visits R.Value.kind (R.graph (R.present net.now)) j earlier.now (map (map R.Value.parts) visits.now))) }
{
    let mut rows = List::new(alloc);
    for l in 0..net.size() {
        rows.push(new_visits(alloc, net, j, earlier, visits, l)?)?;
    }
    Ok(rows)
}

/// Returns the rows of the exits to each hypothesis after the step of `j`.
#[tactic(auto, using(crate::proofs::TableAnswers::row_steps))]
fn all_exits<R: Remover>(
    alloc: Global,
    net: &R,
    j: usize,
    earlier: &[usize],
    exits: &List<List<R::Value>>,
) -> Result<List<List<R::Value>>, Fault<Wide>>
    requires { is_live (R.graph (R.present net.now)) j ≡ true }
    ensures { Makes (map (map R.Value.parts)) result (each_below (size (R.graph (R.present net.now)))
        (new_exits R.Value.kind (R.graph (R.present net.now)) j earlier.now (map (map R.Value.parts) exits.now))) }
{
    let mut rows = List::new(alloc);
    for k in 0..net.size() {
        rows.push(new_exits(alloc, net, j, earlier, exits, k)?)?;
    }
    Ok(rows)
}

/// Returns a row for each hypothesis: 1 at itself, and else 0.
#[tactic(auto, unfolding(crate::specs::FlowTables::first_tables), using(crate::proofs::RowAnswers::unit_steps))]
fn unit_rows<F: Number>(alloc: Global, size: usize) -> Result<List<List<F>>, NoMemory>
    ensures { IfOk result (λ rows. map (map F.parts) rows ≡ (first_tables F.kind size).visits) }
{
    let mut rows = List::new(alloc);
    for l in 0..size {
        let mut row = zeros(alloc, size)?;
        put(&mut row, l, F::one());
        rows.push(row)?;
    }
    Ok(rows)
}

/// Returns a row of zeros for each hypothesis.
#[tactic(auto, unfolding(crate::specs::FlowTables::first_tables), using(crate::proofs::RowAnswers::zero_steps))]
fn zero_rows<F: Number>(alloc: Global, size: usize) -> Result<List<List<F>>, NoMemory>
    ensures { IfOk result (λ rows. map (map F.parts) rows ≡ (first_tables F.kind size).exits) }
{
    let mut rows = List::new(alloc);
    for _ in 0..size {
        rows.push(zeros(alloc, size)?)?;
    }
    Ok(rows)
}

/// Returns the tables of a component of `size` hypotheses before the first step.
#[tactic(auto, unfolding(crate::specs::FlowTables::first_tables))]
pub fn first_tables<F: Number>(alloc: Global, size: usize) -> Result<Tables<F>, NoMemory>
    ensures { IfOk result (λ t. tables_of F.parts t ≡ first_tables F.kind size) }
{
    Ok(Tables {
        flows: zeros(alloc, size)?,
        visits: unit_rows(alloc, size)?,
        exits: zero_rows(alloc, size)?,
    })
}

/// Returns a copy of rows.
#[tactic(auto, using(std::proofs::lemmas::List::take_more, std::proofs::lemmas::List::take_all))]
fn copy_rows<F: Number>(alloc: Global, rows: &List<List<F>>) -> Result<List<List<F>>, NoMemory>
    ensures { IfOk result (λ copied. copied ≡ rows.now) }
{
    let mut copied = List::new(alloc);
    for l in 0..rows.len() {
        copied.push(copy(alloc, row(rows, l))?)?;
    }
    Ok(copied)
}

/// Returns what flows through each hypothesis after a step; the last step leaves this as it was.
fn flows_after<R: Remover>(
    alloc: Global,
    net: &R,
    j: usize,
    earlier: &[usize],
    tables: &Tables<R::Value>,
    is_last: bool,
) -> Result<List<R::Value>, Fault<Wide>>
    requires { is_live (R.graph (R.present net.now)) j ≡ true }
    ensures { Makes (map R.Value.parts) result (if_wanted (not is_last) (map R.Value.parts tables.now.flows)
        (new_flows R.Value.kind (R.graph (R.present net.now)) j earlier.now (map (map R.Value.parts) tables.now.visits)
        (map R.Value.parts tables.now.flows))) }
{
    if is_last {
        return Ok(copy(alloc, tables.flows.as_slice())?);
    }
    new_flows(alloc, net, j, earlier, tables)
}

/// Returns the rows of what each hypothesis sends after a step; the last step leaves them as they were.
fn visits_after<R: Remover>(
    alloc: Global,
    net: &R,
    j: usize,
    earlier: &[usize],
    visits: &List<List<R::Value>>,
    is_last: bool,
) -> Result<List<List<R::Value>>, Fault<Wide>>
    requires { is_live (R.graph (R.present net.now)) j ≡ true }
    ensures { Makes (map (map R.Value.parts)) result (if_wanted (not is_last) (map (map R.Value.parts) visits.now)
        (each_below (size (R.graph (R.present net.now))) (new_visits R.Value.kind (R.graph (R.present net.now)) j earlier.now
        (map (map R.Value.parts) visits.now)))) }
{
    if is_last {
        return Ok(copy_rows(alloc, visits)?);
    }
    all_visits(alloc, net, j, earlier, visits)
}

/// Returns the rows of the exits after a step; if no hypothesis has a keep, they are left as they were.
fn exits_after<R: Remover>(
    alloc: Global,
    net: &R,
    j: usize,
    earlier: &[usize],
    exits: &List<List<R::Value>>,
    is_kept: bool,
) -> Result<List<List<R::Value>>, Fault<Wide>>
    requires { is_live (R.graph (R.present net.now)) j ≡ true }
    ensures { Makes (map (map R.Value.parts)) result (if_wanted is_kept (map (map R.Value.parts) exits.now)
        (each_below (size (R.graph (R.present net.now))) (new_exits R.Value.kind (R.graph (R.present net.now)) j earlier.now
        (map (map R.Value.parts) exits.now)))) }
{
    if is_kept {
        return all_exits(alloc, net, j, earlier, exits);
    }
    Ok(copy_rows(alloc, exits)?)
}

/// Returns the tables after a step.
pub fn tables_after<R: Remover>(
    alloc: Global,
    net: &R,
    j: usize,
    earlier: &[usize],
    tables: &Tables<R::Value>,
    is_last: bool,
    is_kept: bool,
) -> Result<Tables<R::Value>, Fault<Wide>>
    requires { is_live (R.graph (R.present net.now)) j ≡ true }
    ensures { Makes (tables_of R.Value.parts) result (new_tables R.Value.kind (R.graph (R.present net.now)) j earlier.now
        (tables_of R.Value.parts tables.now) is_last is_kept) }
{
    let flows = flows_after(alloc, net, j, earlier, tables, is_last)?;
    let visits = visits_after(alloc, net, j, earlier, &tables.visits, is_last)?;
    let exits = exits_after(alloc, net, j, earlier, &tables.exits, is_kept)?;
    Ok(Tables {
        flows,
        visits,
        exits,
    })
}
