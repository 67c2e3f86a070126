//! A weighted graph in rows, what is read from it, and the graph after a removal.
ghost use Rattle.std.specs.Prelude.{◌≡◌, length, replicate, All, IfOk};
ghost use Rattle.field_core.specs.Polynomial.{IsNonZero};
ghost use Rattle.eps_quotient.specs.Lowering.{norm};
ghost use Rattle.eps_quotient.specs.View.{quotient_parts};
ghost use Rattle.row_removal.specs.StoredRow.{zero_row};

use crate::gathering::GivenGraph;
use crate::new_rows::{write_rows, write_weights};
use crate::row::Row;
use eps_poly::EpsPoly;
use eps_quotient::{EpsQuotient, limit};
use field_core::{NoMemory, Number, Ratio, Whole, Wide};
use std::alloc::Global;
use std::marker::Model;

/// Returns the quotient of two polynomials, the second not 0.
fn quotient(above: &EpsPoly, below: &EpsPoly) -> EpsQuotient
    requires { IsNonZero below.now }
    ensures { quotient_parts result ≡ norm above.now below.now }
{
    match EpsQuotient::new(above, below) {
        Some(quotient) => quotient,
        None => unreachable!(),
    }
}

/// Returns `count` rows, each of `count` zeros over 1.
fn zero_rows(alloc: Global, count: usize) -> Result<Vec<Row>, NoMemory>
    ensures { IfOk result (λ rows. rows.items ≡ replicate count (zero_row count)) }
{
    let mut rows = Vec::new(alloc);
    for _ in 0..count {
        rows.push(Row::zeros(alloc, count)?)?;
    }
    Ok(rows)
}

/// Copies rows into others; there are equally many, and all have the same length.
fn copy_rows(rows: &mut [Row], other: &[Row], count: usize)
    requires length { length rows.old ≡ length other.now }
    requires rows { All (λ r. length r.numerators ≡ count) rows.old }
    requires other { All (λ r. length r.numerators ≡ count) other.now }
    ensures { rows.new ≡ other.now }
{
    for l in 0..rows.len() {
        rows[l].copy_from(&other[l]);
    }
}

/// A weighted graph in rows: which hypotheses remain, the row of their weights, and the row of edges from each.
#[derive(Drop)]
pub struct RowGraph {
    live: Vec<bool>,
    weights: Row,
    edges: Vec<Row>,
    last: EpsPoly,
}

impl Model for RowGraph {
    ghost use Rattle.row_removal.specs.StoredRows.{StoredRows};

    ghost Value = { StoredRows };

    ghost view = { λ g. record { live = g.live.items; weights = g.weights; edges = g.edges.items; last = g.last } };
}

#[tactic(auto, unfolding(crate::specs::StoredRows::rows_graph, crate::specs::StoredRows::row_at, removal::specs::StoredGraph::is_live, removal::specs::WrittenRemoval::is_gone))]
impl RowGraph {
    ghost use Rattle.std.specs.Prelude.{◌≡◌, ◌<◌};
    ghost use Rattle.removal.specs.StoredGraph.{is_live};
    ghost use Rattle.removal.specs.WrittenRemoval.{is_gone};
    ghost use Rattle.row_removal.specs.Proper.{AreProperRows};
    ghost use Rattle.row_removal.specs.StoredRow.{numerator_at};
    ghost use Rattle.row_removal.specs.StoredRows.{rows_size, rows_graph, row_at};

    /// Returns the number of hypotheses, those removed among them.
    pub fn size(&self) -> usize
        ensures { result ≡ rows_size self.now }
    {
        self.live.len()
    }

    /// Whether `k` remains.
    pub fn is_live(&self, k: usize) -> bool
        requires { k < rows_size self.now }
        ensures { result ≡ is_live (rows_graph self.now) k }
    {
        self.live[k]
    }

    /// Whether `k` doesn't remain after the removal of `j`.
    pub fn is_gone(&self, j: usize, k: usize) -> bool
        requires { k < rows_size self.now }
        ensures { result ≡ is_gone (rows_graph self.now) j k }
    {
        !self.live[k] || k == j
    }

    /// Returns the numerator of the weight of `k`.
    pub fn weight_numerator(&self, k: usize) -> &EpsPoly
        requires proper { AreProperRows self.now }
        requires k { k < rows_size self.now }
        ensures { result.now ≡ numerator_at self.now.weights k }
    {
        self.weights.numerator(k)
    }

    /// Returns the denominator of the weights.
    pub fn weight_denominator(&self) -> &EpsPoly
        ensures { result.now ≡ self.now.weights.denominator }
    {
        self.weights.denominator()
    }

    /// Returns the numerator of the edge from `l` to `k`.
    pub fn numerator(&self, l: usize, k: usize) -> &EpsPoly
        requires proper { AreProperRows self.now }
        requires l { l < rows_size self.now }
        requires k { k < rows_size self.now }
        ensures { result.now ≡ numerator_at (row_at self.now l) k }
    {
        self.edges[l].numerator(k)
    }

    /// Returns the denominator of the row of edges from `l`.
    pub fn denominator(&self, l: usize) -> &EpsPoly
        requires proper { AreProperRows self.now }
        requires l { l < rows_size self.now }
        ensures { result.now ≡ (row_at self.now l).denominator }
    {
        self.edges[l].denominator()
    }

    /// Returns the denominator that the row of the last removed hypothesis had, or 1.
    pub fn last(&self) -> &EpsPoly
        ensures { result.now ≡ self.now.last }
    {
        &self.last
    }
}

#[tactic(auto, unfolding(crate::specs::StoredRows::zero_rows))]
impl RowGraph {
    ghost use Rattle.std.specs.Prelude.{◌≡◌, IfOk};
    ghost use Rattle.row_removal.specs.Proper.{AreProperRows, HasRoom};
    ghost use Rattle.row_removal.specs.StoredRows.{rows_size, zero_rows};

    /// Returns a graph of `count` hypotheses, all of which remain, with weights and edges of 0.
    pub fn zeros(alloc: Global, count: usize) -> Result<RowGraph, NoMemory>
        ensures { IfOk result (λ g. g ≡ zero_rows count) }
    {
        let live = vec![in alloc; true; count]?;
        let weights = Row::zeros(alloc, count)?;
        let edges = zero_rows(alloc, count)?;
        Ok(RowGraph {
            live,
            weights,
            edges,
            last: EpsPoly::monomial(Whole::new(1), 0),
        })
    }

    /// Copies the marks and rows of a graph of the same size into this one.
    pub fn copy_from(&mut self, other: &RowGraph)
        requires room { HasRoom (rows_size other.now) self.old }
        requires other { HasRoom (rows_size other.now) other.now }
        ensures { self.new ≡ other.now }
    {
        self.live.copy_from_slice(&other.live);
        self.weights.copy_from(&other.weights);
        copy_rows(&mut self.edges, &other.edges, other.live.len());
        self.last.copy_from(&other.last);
    }
}

#[tactic(auto, using(crate::specs::Laws::RowGraphs::weight_seen, crate::specs::Laws::RowGraphs::edge_seen, crate::specs::Laws::RowGraphs::loop_seen, crate::specs::Laws::RowPasses::row_some))]
impl RowGraph {
    ghost use Rattle.std.specs.Prelude.{◌≡◌, ◌<◌};
    ghost use Rattle.field_core.specs.Exact.{value_of};
    ghost use Rattle.field_core.specs.LimitParts.{IsUnit, limit_terms};
    ghost use Rattle.field_core.specs.View.{terms};
    ghost use Rattle.removal.specs.StoredGraph.{weight, edge};
    ghost use Rattle.eps_quotient.specs.Quotients.{quotients};
    ghost use Rattle.eps_quotient.specs.View.{quotient_parts};
    ghost use Rattle.row_removal.specs.Proper.{AreProperRows};
    ghost use Rattle.row_removal.specs.StoredRows.{rows_size, rows_graph};

    /// Returns the weight of `k`.
    pub fn weight(&self, k: usize) -> EpsQuotient
        requires proper { AreProperRows self.now }
        requires k { k < rows_size self.now }
        ensures { quotient_parts result ≡ weight quotients (rows_graph self.now) k }
    {
        quotient(self.weight_numerator(k), self.weight_denominator())
    }

    /// Returns the limit of the weight of `k`, which is from 0 to 1.
    pub fn weight_limit(&self, k: usize) -> Ratio
        requires proper { AreProperRows self.now }
        requires k { k < rows_size self.now }
        requires unit { IsUnit (value_of (weight quotients (rows_graph self.now) k)) }
        ensures { terms result ≡ limit_terms (weight quotients (rows_graph self.now) k) }
    {
        limit(self.weight_numerator(k), self.weight_denominator())
    }

    /// Returns the edge from `l` to `k`, 0 if they are equal.
    pub fn edge(&self, l: usize, k: usize) -> EpsQuotient
        requires proper { AreProperRows self.now }
        requires l { l < rows_size self.now }
        requires k { k < rows_size self.now }
        ensures { quotient_parts result ≡ edge quotients (rows_graph self.now) l k }
    {
        if l == k {
            return EpsQuotient::zero();
        }
        quotient(self.numerator(l, k), self.denominator(l))
    }
}

#[tactic(auto, using(crate::specs::Laws::RowLive::row_live), unfolding(crate::specs::RowRemoval::row_removal))]
impl RowGraph {
    ghost use Rattle.std.specs.Prelude.{◌≡◌, true, length};
    ghost use Rattle.field_core.specs.Kind.{ok_map};
    ghost use Rattle.removal.specs.StoredGraph.{is_live};
    ghost use Rattle.row_removal.specs.Proper.{AreProperRows, HasRoom};
    ghost use Rattle.row_removal.specs.StoredRows.{rows_size, rows_graph};
    ghost use Rattle.row_removal.specs.RowRemoval.{row_removal};

    /// Writes the rows after the removal of `j` into `next`, or returns the first operation that is undefined. `spare` is room for
    /// quotients.
    pub fn write_removal(&self, j: usize, next: &mut RowGraph, spare: &mut Row) -> Result<(), Wide>
        requires proper { AreProperRows self.now }
        requires live { is_live (rows_graph self.now) j ≡ true }
        requires room { HasRoom (rows_size self.now) next.old }
        requires spare { length spare.old.numerators ≡ rows_size self.now }
        ensures value { ok_map (λ _. next.new) result ≡ row_removal self.now j }
        ensures room { HasRoom (rows_size self.now) next.new }
        ensures spare { length spare.new.numerators ≡ rows_size self.now }
    {
        let divisor = self.last.core();
        write_weights(self, j, &divisor, &mut next.weights, spare)?;
        write_rows(self, j, &divisor, &mut next.edges, spare)?;
        next.live.copy_from_slice(&self.live);
        next.live[j] = false;
        next.last.copy_from(self.denominator(j));
        Ok(())
    }
}

#[tactic(auto, unfolding(crate::specs::Gathering::gathered))]
impl RowGraph {
    ghost use Rattle.std.specs.Prelude.{◌≡◌};
    ghost use Rattle.field_core.specs.Kind.{ok_map};
    ghost use Rattle.removal.specs.StoredGraph.{size};
    ghost use Rattle.row_removal.specs.Gathering.{gathered};
    ghost use Rattle.row_removal.specs.Proper.{HasRoom};

    /// Writes the rows that are gathered from these weights and edges, or returns the first operation that is undefined. The marks
    /// stay.
    pub fn gather(&mut self, given: &GivenGraph<'_>) -> Result<(), Wide>
        requires live { self.old.live ≡ given.now.live }
        requires room { HasRoom (size given.now) self.old }
        ensures { ok_map (λ _. self.new) result ≡ gathered given.now }
    {
        given.write_row(None, &mut self.weights)?;
        given.write_rows(&mut self.edges)?;
        self.last = EpsPoly::monomial(Whole::new(1), 0);
        Ok(())
    }
}
