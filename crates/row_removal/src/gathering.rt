//! Rows over one denominator, from quotients over constants.
ghost use Rattle.std.specs.Prelude.{◌≡◌, ◌<◌, ◌<ℤ◌, pos, IfOk, IfSome, Some, length, All};
ghost use Rattle.field_core.specs.Kind.{ok_map};
ghost use Rattle.field_core.specs.Steps.{each_below};
ghost use Rattle.removal.specs.StoredGraph.{size};
ghost use Rattle.eps_quotient.specs.View.{quotient_parts};
ghost use Rattle.row_removal.specs.Gathering.{
  common_below,
  gathered_numerator,
  gathered_row,
  given,
  given_below,
  place_of,
  with_denominator,
};
ghost use Rattle.row_removal.specs.GivenView.{AreGiven, graph_given};

use crate::row::Row;
use eps_poly::EpsPoly;
use eps_quotient::EpsQuotient;
use field_core::{Number, Op, Place, Whole, Wide, try_fill};
use std::marker::Model;

/// Returns the place of a number of a row: of the weights, or of the edges from a hypothesis.
fn place(row: Option<usize>, k: usize) -> Place
    ensures { result ≡ place_of row k }
{
    match row {
        None => Place::Weight(k),
        Some(l) => Place::Edge(l, k),
    }
}

/// The weights and edges of a graph, all of whose denominators are constants.
#[derive(Drop)]
pub struct GivenGraph<'a> {
    weights: &'a [EpsQuotient],
    edges: &'a [EpsQuotient],
}

impl<'a> Model for GivenGraph<'a> {
    ghost use Rattle.removal.specs.StoredGraph.{StoredGraph};
    ghost use Rattle.row_removal.specs.GivenView.{AreGiven, graph_given};

    ghost Value = { StoredGraph };

    ghost view = { λ g. graph_given g.weights.now g.edges.now };

    ghost invariant = { λ g. AreGiven g.weights.now g.edges.now };
}

#[tactic(auto, using(crate::proofs::Given::size_given))]
impl GivenGraph<'_> {
    /// Returns the graph of these weights and edges, whose denominators are constants. There are at most 64 weights, and a row of
    /// edges for each.
    pub fn new<'a>(weights: &'a [EpsQuotient], edges: &'a [EpsQuotient]) -> GivenGraph<'a>
        requires { AreGiven weights.now edges.now }
        ensures { result ≡ graph_given weights.now edges.now }
    {
        GivenGraph { weights, edges }
    }

    /// Returns the number of hypotheses.
    pub fn size(&self) -> usize
        ensures { result ≡ size self.now }
    {
        self.weights.len()
    }

    /// Returns a number of a row: of the weights, or of the edges from a hypothesis.
    #[tactic(auto, using(crate::proofs::Given::numbers_given))]
    fn number(&self, row: Option<usize>, k: usize) -> EpsQuotient
        requires row { IfSome row (λ l. l < size self.now) }
        requires k { k < size self.now }
        ensures { quotient_parts result ≡ given self.now row k }
    {
        match row {
            None => self.weights[k],
            Some(l) => {
                if l == k {
                    return EpsQuotient::zero();
                }
                self.edges[l * self.weights.len() + k]
            }
        }
    }

    /// Returns the denominator of a number of a row, which is a constant.
    fn below(&self, row: Option<usize>, k: usize) -> Whole
        requires row { IfSome row (λ l. l < size self.now) }
        requires k { k < size self.now }
        ensures value { result ≡ given_below self.now row k }
        ensures positive { pos 0 <ℤ result }
    {
        let _ = &self.weights;
        self.number(row, k).denominator().whole(0)
    }

    /// Returns the common denominator `c` with that of the number `k` added: their least common multiple, or `c` if the number is 0.
    #[tactic(auto, unfolding(crate::specs::Gathering::with_denominator))]
    fn with_denominator(&self, row: Option<usize>, k: usize, c: Whole) -> Result<Whole, Wide>
        requires row { IfSome row (λ l. l < size self.now) }
        requires k { k < size self.now }
        requires positive { pos 0 <ℤ c }
        ensures value { result ≡ with_denominator self.now row k c }
        ensures positive { IfOk result (λ e. pos 0 <ℤ e) }
    {
        if self.number(row, k).is_zero() {
            return Ok(c);
        }
        let below = self.below(row, k);
        let missing = c.over(c.common_divisor(below));
        missing.checked_mul(below).ok_or(Wide {
            place: place(row, k),
            op: Op::Mul,
        })
    }

    /// Returns the common denominator of a row.
    fn common_denominator(&self, row: Option<usize>) -> Result<Whole, Wide>
        requires { IfSome row (λ l. l < size self.now) }
        ensures { result ≡ common_below self.now row (size self.now) }
    {
        let mut c = Whole::new(1);
        for k in 0..self.size() {
            c = self.with_denominator(row, k, c)?;
        }
        Ok(c)
    }

    /// Returns the numerator of a number over the common denominator `c`.
    #[tactic(auto, unfolding(crate::specs::Gathering::gathered_numerator))]
    fn numerator(&self, row: Option<usize>, c: Whole, k: usize) -> Result<EpsPoly, Wide>
        requires row { IfSome row (λ l. l < size self.now) }
        requires k { k < size self.now }
        ensures { result ≡ gathered_numerator self.now row c k }
    {
        let x = self.number(row, k);
        if x.is_zero() {
            return Ok(EpsPoly::zero());
        }
        let place = place(row, k);
        let missing = EpsPoly::monomial(c.over(self.below(row, k)), 0);
        x.numerator().mul(&missing).map_err(|wide| wide.at(place))
    }

    /// Writes the numerators of a row over the common denominator `c`.
    fn write_numerators(
        &self,
        row: Option<usize>,
        c: Whole,
        next: &mut [EpsPoly],
    ) -> Result<(), Wide>
        requires row { IfSome row (λ l. l < size self.now) }
        requires room { length next.old ≡ size self.now }
        ensures { ok_map (λ _. next.new) result ≡ each_below (size self.now) (gathered_numerator self.now row c) }
    {
        try_fill(next, |k| self.numerator(row, c, k))
    }

    /// Writes a row.
    #[tactic(auto, unfolding(crate::specs::Gathering::gathered_row))]
    pub fn write_row(&self, row: Option<usize>, next: &mut Row) -> Result<(), Wide>
        requires row { IfSome row (λ l. l < size self.now) }
        requires room { length next.old.numerators ≡ size self.now }
        ensures value { ok_map (λ _. next.new) result ≡ gathered_row self.now row }
        ensures room { length next.new.numerators ≡ size self.now }
    {
        let c = self.common_denominator(row)?;
        self.write_numerators(row, c, &mut next.numerators)?;
        next.denominator = EpsPoly::monomial(c, 0);
        Ok(())
    }

    /// Writes the rows of edges.
    #[tactic(auto, using(field_core::proofs::Fills::filled_to))]
    pub fn write_rows(&self, next: &mut [Row]) -> Result<(), Wide>
        requires count { length next.old ≡ size self.now }
        requires room { All (λ r. length r.numerators ≡ size self.now) next.old }
        ensures value { ok_map (λ _. next.new) result ≡ each_below (size self.now) (λ l. gathered_row self.now (Some l)) }
        ensures room { All (λ r. length r.numerators ≡ size self.now) next.new }
    {
        for l in 0..self.size() {
            self.write_row(Some(l), &mut next[l])?;
        }
        Ok(())
    }
}
