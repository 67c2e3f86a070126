//! Numerators over one denominator.
ghost use Rattle.std.specs.Prelude.{◌≡◌, ◌<◌, ◌≤◌, ◌^◌, ◌<ℤ◌, IfOk, length, map, pos, replicate};
ghost use Rattle.std.specs.Option.{option_map};
ghost use Rattle.field_core.specs.Divisor.{gcd};
ghost use Rattle.field_core.specs.Polynomial.{IsNonZero};
ghost use Rattle.eps_poly.specs.ExactQuotients.{exact_quotient};
ghost use Rattle.eps_poly.specs.Polynomials.{zero_polynomial};
ghost use Rattle.eps_quotient.specs.Lowering.{one_polynomial};
ghost use Rattle.row_removal.specs.StoredRow.{IsProperRow, numerator_at, zero_row};
ghost use Rattle.eps_poly.specs.Factors.{content, lowered};
ghost use Rattle.row_removal.specs.Clearing.{divided_row, lowered_row, map_all, quotient_row, row_content, row_order};

use eps_poly::EpsPoly;
use field_core::{NoMemory, Whole, gcd};
use std::alloc::Global;
use std::marker::Model;

/// Divides each polynomial by a number above 0 and a power of epsilon of at most 32.
fn lower_all(power: usize, by: Whole, numerators: &mut [EpsPoly])
    requires power { power ≤ 32 }
    requires by { pos 0 <ℤ by }
    ensures { numerators.new ≡ map (lowered power by) numerators.old }
{
    for k in 0..numerators.len() {
        numerators[k].lower(power, by);
    }
}

/// Makes each polynomial 0.
fn clear_all(numerators: &mut [EpsPoly])
    ensures { numerators.new ≡ replicate (length numerators.old) zero_polynomial }
{
    for k in 0..numerators.len() {
        numerators[k].clear();
    }
}

/// Makes a polynomial 1.
#[tactic(auto, unfolding(eps_poly::specs::Polynomials::monomial))]
fn put_one(p: &mut EpsPoly)
    ensures { p.new ≡ one_polynomial }
{
    p.clear();
    p.put(0, Whole::new(1));
}

/// Copies polynomials into others, of which there are equally many.
fn copy_all(numerators: &mut [EpsPoly], other: &[EpsPoly])
    requires { length numerators.old ≡ length other.now }
    ensures { numerators.new ≡ other.now }
{
    for k in 0..numerators.len() {
        numerators[k].copy_from(&other[k]);
    }
}

/// Writes the exact quotients of polynomials by `by`, or returns `None` exactly if one has none. `room` is for a product.
fn write_quotients(
    numerators: &[EpsPoly],
    by: &EpsPoly,
    quotients: &mut [EpsPoly],
    room: &mut EpsPoly,
) -> Option<()>
    requires some { IsNonZero by.now }
    requires count { length quotients.old ≡ length numerators.now }
    ensures { option_map (λ _. quotients.new) result ≡ map_all (λ p. exact_quotient p by.now) numerators.now }
{
    for k in 0..quotients.len() {
        quotients[k].put_quotient(&numerators[k], by, room)?;
    }
    Some(())
}

/// Returns the greatest common divisor of `divisor` and the content of a polynomial, which isn't computed if `divisor` is 1.
fn common_content(divisor: u128, p: &EpsPoly) -> u128
    ensures { result ≡ gcd divisor (content p.now) }
{
    if divisor == 1 {
        return 1;
    }
    gcd(divisor, p.content())
}

/// Numerators over one denominator.
#[derive(Drop)]
pub struct Row {
    pub numerators: Vec<EpsPoly>,
    pub denominator: EpsPoly,
}

impl Model for Row {
    ghost use Rattle.row_removal.specs.StoredRow.{StoredRow};

    ghost Value = { StoredRow };

    ghost view = { λ r. record { numerators = r.numerators.items; denominator = r.denominator } };
}

#[tactic(auto, unfolding(crate::specs::StoredRow::zero_row))]
impl Row {
    /// Returns a row of `count` zeros over 1.
    pub fn zeros(alloc: Global, count: usize) -> Result<Row, NoMemory>
        ensures { IfOk result (λ r. r ≡ zero_row count) }
    {
        Ok(Row {
            numerators: vec![in alloc; EpsPoly::zero(); count]?,
            denominator: EpsPoly::monomial(Whole::new(1), 0),
        })
    }

    /// Copies a row of the same length into this one.
    pub fn copy_from(&mut self, other: &Row)
        requires { length self.old.numerators ≡ length other.now.numerators }
        ensures { self.new ≡ other.now }
    {
        copy_all(&mut self.numerators, &other.numerators);
        self.denominator.copy_from(&other.denominator);
    }

    /// Makes the row zeros over 1, of the same length.
    pub fn put_zeros(&mut self)
        ensures zeros { self.new ≡ zero_row (length self.old.numerators) }
        ensures room { length self.new.numerators ≡ length self.old.numerators }
    {
        clear_all(&mut self.numerators);
        put_one(&mut self.denominator);
    }
}

#[tactic(auto, unfolding(crate::specs::StoredRow::numerator_at))]
impl Row {
    /// Returns the numerator at a place.
    pub fn numerator(&self, k: usize) -> &EpsPoly
        requires { k < length self.now.numerators }
        ensures { result.now ≡ numerator_at self.now k }
    {
        &self.numerators[k]
    }

    /// Returns the denominator.
    pub fn denominator(&self) -> &EpsPoly
        ensures { result.now ≡ self.now.denominator }
    {
        &self.denominator
    }
}

impl Row {
    /// Writes the row of the exact quotients by `by`, or returns `None` exactly if one polynomial has none.
    #[tactic(auto, using(std::proofs::lemmas::List::with_items_is), unfolding(crate::specs::Clearing::quotient_row))]
    fn write_quotient_row(&self, by: &EpsPoly, next: &mut Row) -> Option<()>
        requires some { IsNonZero by.now }
        requires room { length next.old.numerators ≡ length self.now.numerators }
        ensures value { option_map (λ _. next.new) result ≡ quotient_row by.now self.now }
        ensures room { length next.new.numerators ≡ length self.now.numerators }
    {
        let mut room = EpsPoly::zero();
        next.denominator
            .put_quotient(&self.denominator, by, &mut room)?;
        write_quotients(&self.numerators, by, &mut next.numerators, &mut room)?;
        Some(())
    }

    /// Replaces the row by that of the exact quotients by `by`, if each polynomial has one; else the row stays. `spare` is room for
    /// the quotients.
    #[tactic(auto, using(std::proofs::lemmas::List::with_items_is), unfolding(crate::specs::Clearing::divided_row))]
    fn divide(&mut self, by: &EpsPoly, spare: &mut Row)
        requires some { IsNonZero by.now }
        requires proper { IsProperRow (length self.old.numerators) self.old }
        requires room { length spare.old.numerators ≡ length self.old.numerators }
        ensures divided { self.new ≡ divided_row by.now self.old }
        ensures room { length spare.new.numerators ≡ length self.old.numerators }
    {
        if *by == EpsPoly::monomial(Whole::new(1), 0) {
            return;
        }
        if self.write_quotient_row(by, spare).is_some() {
            std::mem::swap(&mut self.numerators, &mut spare.numerators);
            self.denominator.copy_from(&spare.denominator);
        }
    }

    /// Returns the greatest common divisor of the contents of all polynomials.
    #[tactic(auto, unfolding(crate::specs::Clearing::row_content))]
    fn content(&self) -> u128
        requires { IsNonZero self.now.denominator }
        ensures value { result ≡ row_content self.now }
        ensures some { 0 < result }
        ensures size { result < 2 ^ 127 }
    {
        let own = self.denominator.content();
        self.numerators
            .iter()
            .fold(own, |c, p| common_content(c, p))
    }

    /// Returns the least power of epsilon among the polynomials that aren't 0.
    #[tactic(auto, unfolding(crate::specs::Clearing::row_order))]
    fn order(&self) -> usize
        requires { IsNonZero self.now.denominator }
        ensures value { result ≡ row_order self.now }
        ensures within { result ≤ 32 }
    {
        let own = self.denominator.order();
        self.numerators.iter().fold(own, |k, p| k.min(p.order()))
    }

    /// Divides all polynomials by their common content and their common power of epsilon.
    #[tactic(auto, unfolding(crate::specs::Clearing::lowered_row))]
    fn lower(&mut self)
        requires { IsProperRow (length self.old.numerators) self.old }
        ensures { self.new ≡ lowered_row self.old }
    {
        let power = self.order();
        let content = self.content();
        if power == 0 && content == 1 {
            return;
        }
        let content = Whole::new(content as i128);
        lower_all(power, content, &mut self.numerators);
        self.denominator.lower(power, content);
    }

    /// Clears the row: if each polynomial has an exact quotient by `by`, all are replaced by these. Then all are divided by their
    /// common content and their common power of epsilon. `spare` is room for the quotients.
    pub fn clear(&mut self, by: &EpsPoly, spare: &mut Row)
        requires some { IsNonZero by.now }
        requires proper { IsProperRow (length self.old.numerators) self.old }
        requires room { length spare.old.numerators ≡ length self.old.numerators }
        ensures cleared { self.new ≡ lowered_row (divided_row by.now self.old) }
        ensures count { length self.new.numerators ≡ length self.old.numerators }
        ensures room { length spare.new.numerators ≡ length self.old.numerators }
    {
        self.divide(by, spare);
        self.lower();
    }
}
