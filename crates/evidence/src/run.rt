//! The flow run of nets.
ghost use Rattle.std.specs.Prelude.{◌≡◌, ◌<◌, ◌==◌, true, not, [], IfOk, map, length};
ghost use Rattle.std.specs.List.{list_any};
ghost use Rattle.field_core.specs.Made.{Makes};
ghost use Rattle.field_core.specs.Sets.{whole};
ghost use Rattle.field_core.specs.Runs.{IsOrder};
ghost use Rattle.field_core.specs.Steps.{in_component};
ghost use Rattle.entangled.specs.Bundled.{size, is_live};
ghost use Rattle.entangled.specs.BundleView.{bundled};
ghost use Rattle.evidence_check.specs.Evidence.{others};
ghost use Rattle.evidence_check.specs.EvidenceParts.{numbers_at};
ghost use Rattle.evidence_check.specs.EvidenceView.{step_parts, keep_parts};
ghost use Rattle.evidence.specs.FlowTables.{new_tables};
ghost use Rattle.evidence.specs.FlowRun.{
  graph_at,
  tables_at,
  recorded,
  kept_exits,
  all_tables,
  flow_step,
  flow_run,
  opening_state,
  evidence_run,
};
ghost use Rattle.evidence.specs.FlowStatements.{IsOpened};
ghost use Rattle.evidence.specs.TablesView.{tables_of};
ghost use Rattle.evidence.specs.Made.{MakesAll, written_steps};

use crate::tables::{Tables, first_tables, tables_after};
use entangled::Bundle;
use evidence_check::rows::{number, row};
use evidence_check::{KeepProof, ProofStep, Steps};
use field_core::{Fault, List, NoMemory, Number, WideAt};
use removal::Remover;
use sequential::RunFault;
use std::alloc::Global;

/// Returns the numbers at places of a row.
#[tactic(auto, using(entangled::proofs::Pushes::pushed, entangled::proofs::Pushes::pushed_all))]
fn numbers<F: Number>(alloc: Global, row: &[F], places: &[usize]) -> Result<List<F>, NoMemory>
    ensures { IfOk result (λ ns. map F.parts ns ≡ map (numbers_at F.kind (map F.parts row.now)) places.now) }
{
    let mut numbers = List::new(alloc);
    for &r in places {
        numbers.push(number(row, r))?;
    }
    Ok(numbers)
}

/// Returns a step, with what flows in each component through the hypotheses of the earlier steps.
#[tactic(auto, using(entangled::proofs::Pushes::pushed, entangled::proofs::Pushes::pushed_all, crate::proofs::RunAnswers::recorded_is))]
fn recorded<F: Number>(
    alloc: Global,
    tables: &[Tables<F>],
    earlier: &[usize],
    j: usize,
) -> Result<ProofStep<F>, NoMemory>
    ensures { IfOk result (λ s. step_parts F.parts s ≡ recorded F.kind (map (tables_of F.parts) tables.now) earlier.now j) }
{
    let mut flows = List::new(alloc);
    for table in tables {
        flows.push(numbers(alloc, table.flows.as_slice(), earlier)?)?;
    }
    Ok(ProofStep {
        hypothesis: j,
        flows,
    })
}

/// Returns the keep of a hypothesis, with its exits in each component from the hypotheses of the steps.
#[tactic(auto, using(entangled::proofs::Pushes::pushed, entangled::proofs::Pushes::pushed_all, crate::proofs::RunAnswers::kept_is))]
fn kept<F: Number>(
    alloc: Global,
    tables: &[Tables<F>],
    steps: &[usize],
    k: usize,
) -> Result<KeepProof<F>, NoMemory>
    ensures { IfOk result (λ x. keep_parts F.parts x ≡ kept_exits F.kind (map (tables_of F.parts) tables.now) steps.now k) }
{
    let mut exits = List::new(alloc);
    for table in tables {
        exits.push(numbers(alloc, row(&table.exits, k), steps)?)?;
    }
    Ok(KeepProof {
        hypothesis: k,
        exits,
    })
}

/// Returns the tables of a component after a step.
fn component_tables<R: Remover>(
    alloc: Global,
    bundle: &Bundle<R>,
    tables: &[Tables<R::Value>],
    c: usize,
    j: usize,
    earlier: &[usize],
    is_last: bool,
    is_kept: bool,
) -> Result<Tables<R::Value>, Fault<WideAt>>
    requires live { is_live R.graph (bundled bundle.now) j ≡ true }
    requires count { length tables.now ≡ length (bundled bundle.now).states }
    requires c { c < length tables.now }
    ensures { Makes (tables_of R.Value.parts) result (in_component c
        (new_tables R.Value.kind (graph_at (map R.graph (bundled bundle.now).states) c) j earlier.now
        (tables_at (map (tables_of R.Value.parts) tables.now) c) is_last is_kept)) }
{
    let net = bundle.net(c);
    match tables_after(alloc, net, j, earlier, &tables[c], is_last, is_kept) {
        Ok(next) => Ok(next),
        Err(fault) => Err(fault.in_component(c)),
    }
}

/// Returns the tables of all components after a step.
#[tactic(auto, using(crate::proofs::RunAnswers::all_steps))]
fn all_tables<R: Remover>(
    alloc: Global,
    bundle: &Bundle<R>,
    tables: &[Tables<R::Value>],
    j: usize,
    earlier: &[usize],
    is_last: bool,
    is_kept: bool,
) -> Result<List<Tables<R::Value>>, Fault<WideAt>>
    requires live { is_live R.graph (bundled bundle.now) j ≡ true }
    requires count { length tables.now ≡ length (bundled bundle.now).states }
    ensures { Makes (map (tables_of R.Value.parts)) result (all_tables R.Value.kind (map R.graph (bundled bundle.now).states)
        (map (tables_of R.Value.parts) tables.now) earlier.now j is_last is_kept) }
{
    let mut next = List::new(alloc);
    for c in 0..tables.len() {
        next.push(component_tables(alloc, bundle, tables, c, j, earlier, is_last, is_kept)?)?;
    }
    Ok(next)
}

/// Makes a step after the earlier ones, and returns the tables after it. The hypothesis of the step is then removed from the bundle,
/// unless it is the last step.
fn step<R: Remover>(
    alloc: Global,
    bundle: &mut Bundle<R>,
    tables: &[Tables<R::Value>],
    j: usize,
    earlier: &[usize],
    is_last: bool,
    is_kept: bool,
) -> Result<List<Tables<R::Value>>, RunFault>
    requires live { is_live R.graph (bundled bundle.old) j ≡ true }
    requires count { length tables.now ≡ length (bundled bundle.old).states }
    ensures { MakesAll (λ next. record { bundle = bundled bundle.new; tables = map (tables_of R.Value.parts) next }) result
        (flow_step R.Value.kind R.graph R.removal is_kept earlier.now j is_last
        (record { bundle = bundled bundle.old; tables = map (tables_of R.Value.parts) tables.now })) }
{
    let number = earlier.len() + 1;
    let next = match all_tables(alloc, bundle, tables, j, earlier, is_last, is_kept) {
        Ok(next) => next,
        Err(fault) => return Err(RunFault::at_step(number, fault)),
    };
    if is_last {
        return Ok(next);
    }
    match bundle.remove(j) {
        Ok(()) => Ok(next),
        Err(wide) => Err(RunFault::Wide(number, wide)),
    }
}

/// What a run gives: its steps, and the tables after the last of them.
#[derive(Drop)]
struct FinishedRun<F> {
    steps: List<ProofStep<F>>,
    tables: List<Tables<F>>,
}

/// Returns the tables of all components before the first step.
#[tactic(auto, using(std::proofs::lemmas::List::replicate_more, std::proofs::lemmas::List::map_push))]
fn opening_tables<R: Remover>(
    alloc: Global,
    bundle: &Bundle<R>,
) -> Result<List<Tables<R::Value>>, NoMemory>
    ensures { IfOk result (λ ts. map (tables_of R.Value.parts) ts ≡ (opening_state R.Value.kind R.graph (bundled bundle.now)).tables) }
{
    let mut tables = List::new(alloc);
    for _ in 0..bundle.components() {
        tables.push(first_tables(alloc, bundle.size())?)?;
    }
    Ok(tables)
}

/// Makes all steps along a list of distinct hypotheses, from the opening on, and returns what they give.
fn run<R: Remover>(
    alloc: Global,
    bundle: &mut Bundle<R>,
    hypotheses: &[usize],
    is_kept: bool,
) -> Result<FinishedRun<R::Value>, RunFault>
    requires opened { IsOpened R.Value.kind R.graph R.IsProper (bundled bundle.old) }
    requires order { IsOrder (size R.graph (bundled bundle.old)) whole hypotheses.now }
    ensures { MakesAll (λ r. record {
      steps = map (step_parts R.Value.parts) r.steps;
      tables = map
          (tables_of R.Value.parts) r.tables;
    }) result
        (flow_run R.Value.kind R.graph R.removal is_kept [] hypotheses.now (opening_state R.Value.kind R.graph (bundled bundle.old))) }
{
    let mut steps = List::new(alloc);
    let mut tables = opening_tables(alloc, bundle)?;
    for s in 0..hypotheses.len() {
        let (j, earlier) = (hypotheses[s], &hypotheses[..s]);
        let is_last = s + 1 == hypotheses.len();
        steps.push(recorded(alloc, tables.as_slice(), earlier, j)?)?;
        tables = step(
            alloc,
            bundle,
            tables.as_slice(),
            j,
            earlier,
            is_last,
            is_kept,
        )?;
    }
    Ok(FinishedRun { steps, tables })
}

/// Whether `k` is listed.
fn is_listed(listed: &[usize], k: usize) -> bool
    ensures { result ≡ list_any (λ i. i == k) listed.now }
{
    listed.iter().any(|i| *i == k)
}

/// Whether `k` isn't listed.
fn is_missing(listed: &[usize], k: usize) -> bool
    ensures { result ≡ not (list_any (λ i. i == k) listed.now) }
{
    !is_listed(listed, k)
}

/// Returns the hypotheses below `size` that aren't listed, ascending.
fn others(alloc: Global, size: usize, listed: &[usize]) -> Result<List<usize>, NoMemory>
    ensures { IfOk result (λ ks. ks ≡ others size listed.now) }
{
    let mut others = List::new(alloc);
    for k in 0..size {
        if is_missing(listed, k) {
            others.push(k)?;
        }
    }
    Ok(others)
}

/// Returns the keeps of these hypotheses after the steps.
#[tactic(auto, using(entangled::proofs::Pushes::pushed, entangled::proofs::Pushes::pushed_all))]
fn keeps<F: Number>(
    alloc: Global,
    tables: &[Tables<F>],
    steps: &[usize],
    others: &[usize],
) -> Result<List<KeepProof<F>>, NoMemory>
    ensures { IfOk result (λ xs. map (keep_parts F.parts) xs ≡ map (kept_exits F.kind (map
        (tables_of F.parts) tables.now) steps.now) others.now) }
{
    let mut keeps = List::new(alloc);
    for &k in others {
        keeps.push(kept(alloc, tables, steps, k)?)?;
    }
    Ok(keeps)
}

/// Returns the evidence of nets that were just opened, along a list of distinct hypotheses: the steps in this order, and then
/// the keeps of all other hypotheses. It is of version 2.
pub fn evidence<R: Remover>(
    alloc: Global,
    bundle: &mut Bundle<R>,
    hypotheses: &[usize],
) -> Result<Steps<R::Value>, RunFault>
    requires opened { IsOpened R.Value.kind R.graph R.IsProper (bundled bundle.old) }
    requires order { IsOrder (size R.graph (bundled bundle.old)) whole hypotheses.now }
    ensures made { MakesAll (written_steps R.Value.parts) result
        (evidence_run R.Value.kind R.graph R.removal (bundled bundle.old) hypotheses.now) }
    ensures version { IfOk result (λ v. v.version ≡ 2) }
{
    let others = others(alloc, bundle.size(), hypotheses)?;
    let FinishedRun { steps, tables } = run(alloc, bundle, hypotheses, !others.is_empty())?;
    let keeps = keeps(alloc, tables.as_slice(), hypotheses, others.as_slice())?;
    Ok(Steps {
        version: 2,
        steps,
        keeps,
    })
}
