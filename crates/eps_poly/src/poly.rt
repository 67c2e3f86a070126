//! Polynomials: sums, products, exact quotients and factors.
ghost use Rattle.std.specs.Prelude.{
  ◌≡◌,
  ◌≢◌,
  ◌↔◌,
  ◌≤◌,
  ◌<◌,
  ◌^◌,
  ◌<ℤ◌,
  ℤ,
  pos,
  List,
  slice_set,
  FitsSigned,
  IfOk,
  IfSome,
  IfNone,
  IsSomeAnd,
  IsTrue,
  Some,
};
ghost use Rattle.std.specs.Int.{w64};
ghost use Rattle.std.specs.List.{list_all};
ghost use Rattle.std.specs.Option.{option_map};
ghost use Rattle.field_core.specs.Kind.{is_zero_integer, ok_map, or_wide};
ghost use Rattle.field_core.specs.Polynomial.{coefficient, lowest, poly_add, poly_multiply, poly_negate, IsNonZero, Same};
ghost use Rattle.field_core.specs.Sized.{sized};
ghost use Rattle.field_core.specs.declared.place.Op.TheVariants.{Add, Sub, Mul};
ghost use Rattle.eps_poly.specs.ExactQuotients.{exact_quotient};
ghost use Rattle.eps_poly.specs.Factors.{content, core, factor, low_order, lowered, order, turned_as};
ghost use Rattle.eps_poly.specs.Polynomials.{is_same, monomial, zero_polynomial, IsPolynomial, IsShort};
ghost use Rattle.eps_poly.specs.Written.{count_to_last, degree, sized_product, sized_sum};

use crate::numbers::{is_below_zero, is_short, is_zero, size};
use crate::products::part_of_product;
use crate::quotients::write_candidate;
use field_core::{Op, Short, TooWide, Whole, gcd};
use std::marker::Model;

/// How many coefficients a polynomial holds: those of the powers 0 to 32.
pub const COUNT: usize = 33;

/// A polynomial in epsilon with whole coefficients: one of at most 2^127 - 1 in size for each of the powers 0 to 32.
///
/// It stores how many of them there are up to the last that isn't 0, so no call looks at the zeros above.
#[derive(Clone, Copy, Debug)]
pub struct EpsPoly {
    used: usize,
    entries: [i128; COUNT],
}

impl Model for EpsPoly {
    ghost use Rattle.std.specs.Prelude.{◌≡◌, List, ℤ};
    ghost use Rattle.std.proofs.Common.{ap, sym};
    ghost use Rattle.eps_poly.specs.Polynomials.{IsPolynomial};
    ghost use Rattle.eps_poly.specs.Written.{count_to_last};

    ghost Value = { List ℤ };

    ghost view = { λ p. p.entries };

    ghost invariant = { λ p. IsPolynomial p.entries × (p.used ≡ count_to_last p.entries) };

    ghost inverse = { λ p. record { used = count_to_last p; entries = p } };

    ghost inverse_ok = { λ p h. ap (λ n. record { used = n; entries = p.entries }) (sym h.1) };
}

impl PartialEq for EpsPoly {
    ghost use Rattle.std.specs.Cmp.Lexicographic.{pointwise, lists_per};
    ghost use Rattle.std.specs.Ordering.{int_eq};
    ghost use Rattle.std.specs.Cmp.{partial_equiv_from_equiv};
    ghost use Rattle.std.proofs.lemmas.Cmp.{int_eq_equiv};

    ghost eq = { pointwise int_eq };

    ghost laws = { lists_per (partial_equiv_from_equiv int_eq_equiv) };

    fn eq(&self, other: &EpsPoly) -> bool {
        self.used() == other.used() && self.is_same_below(other, self.used())
    }
}

impl Eq for EpsPoly {
    ghost use Rattle.std.specs.Cmp.Lexicographic.{lists_equiv};
    ghost use Rattle.std.proofs.lemmas.Cmp.{int_eq_equiv};

    ghost laws = { lists_equiv int_eq_equiv };
}

impl EpsPoly {
    /// Returns the polynomial 0.
    pub fn zero() -> EpsPoly
        ensures { result ≡ zero_polynomial }
    {
        EpsPoly {
            used: 0,
            entries: [0; COUNT],
        }
    }

    /// Returns the polynomial `c`, refused with `Op::Add` exactly if `c` is the least `i128`.
    pub fn constant(c: i128) -> Result<EpsPoly, TooWide>
        ensures { result ≡ or_wide Add (option_map (λ a. monomial a 0) (sized c)) }
    {
        let c = Whole::checked_new(c).ok_or(TooWide { op: Op::Add })?;
        Ok(EpsPoly::monomial(c, 0))
    }

    /// Returns the polynomial `c * epsilon^power`; `power` is at most 32.
    pub fn monomial(c: Whole, power: usize) -> EpsPoly
        requires { power ≤ 32 }
        ensures { result ≡ monomial c power }
    {
        let mut single = EpsPoly::zero();
        single.put(power, c);
        single
    }

    /// Returns this polynomial with `c` in place of the coefficient of `power`, refused with `Op::Add` exactly if `c` is the least
    /// `i128`; `power` is at most 32.
    pub fn with(&self, power: usize, c: i128) -> Result<EpsPoly, TooWide>
        requires { power ≤ 32 }
        ensures { result ≡ or_wide Add (option_map (slice_set self.now power) (sized c)) }
    {
        let c = Whole::checked_new(c).ok_or(TooWide { op: Op::Add })?;
        let mut changed = *self;
        changed.put(power, c);
        Ok(changed)
    }

    /// Puts `c` in place of the coefficient of `power`, which is at most 32.
    pub fn put(&mut self, power: usize, c: Whole)
        requires { power ≤ 32 }
        ensures { self.new ≡ slice_set self.old power c }
    {
        let used = self.used_with(power, c);
        self.entries[power] = c.value();
        self.used = used;
    }

    /// Returns the coefficient of the power `at` once that of `power` is replaced by `c`.
    fn whole_with(&self, power: usize, c: Whole, at: usize) -> Whole
        requires power { power ≤ 32 }
        requires at { at ≤ 32 }
        ensures { result ≡ coefficient (slice_set self.now power c) at }
    {
        // for the proof: reading the field shows that this is a polynomial
        let _ = &self.entries;
        if at == power { c } else { self.whole(at) }
    }

    /// Returns how many coefficients there are up to the last that isn't 0 once that of `power` is replaced by `c`.
    fn used_with(&self, power: usize, c: Whole) -> usize
        requires { power ≤ 32 }
        ensures { result ≡ count_to_last (slice_set self.now power c) }
    {
        let end = self.used();
        if power + 1 < end {
            return end;
        }
        if !is_zero(c) {
            return power + 1;
        }
        for at in (0..end.max(power + 1)).rev() {
            if !is_zero(self.whole_with(power, c, at)) {
                return at + 1;
            }
        }
        0
    }

    /// Returns how many coefficients there are up to the last that isn't 0.
    fn used(&self) -> usize
        ensures value { result ≡ count_to_last self.now }
        ensures within { result ≤ 33 }
        ensures polynomial { IsPolynomial self.now }
    {
        self.used
    }

    /// Copies another polynomial into this one. A coefficient that is 0 in both isn't copied.
    pub fn copy_from(&mut self, other: &EpsPoly)
        ensures { self.new ≡ other.now }
    {
        let end = self.used().max(other.used());
        self.entries[..end].copy_from_slice(&other.entries[..end]);
        self.used = other.used;
    }

    /// Makes this polynomial 0.
    pub fn clear(&mut self)
        ensures { self.new ≡ zero_polynomial }
    {
        let end = self.used();
        self.entries[..end].fill(0);
        self.used = 0;
    }

    /// Returns one coefficient; `power` is at most 32.
    pub fn coefficient(&self, power: usize) -> i128
        requires { power ≤ 32 }
        ensures { result ≡ coefficient self.now power }
    {
        self.whole(power).value()
    }

    /// Returns one coefficient; `power` is at most 32.
    pub fn whole(&self, power: usize) -> Whole
        requires { power ≤ 32 }
        ensures { result ≡ coefficient self.now power }
    {
        Whole::new(self.entries[power])
    }

    /// Whether each coefficient fits 64 bits. Its clause states only that a yes is right.
    pub(crate) fn is_short(&self) -> bool
        ensures { IsTrue result → IsShort self.now }
    {
        for power in 0..self.used() {
            if !is_short(self.whole(power)) {
                return false;
            }
        }
        true
    }

    /// Returns one coefficient, which fits 64 bits; `power` is at most 32.
    pub(crate) fn short(&self, power: usize) -> Short
        requires power { power ≤ 32 }
        requires fits { FitsSigned w64 (coefficient self.now power) }
        ensures { result ≡ coefficient self.now power }
    {
        Short::new(self.coefficient(power) as i64)
    }

    /// Whether two polynomials are the same whose last coefficients that aren't 0 are both just below `end`.
    fn is_same_below(&self, other: &EpsPoly, end: usize) -> bool
        requires own { end ≡ count_to_last self.now }
        requires other { end ≡ count_to_last other.now }
        ensures { result ≡ is_same self.now other.now }
    {
        let _ = (self.used(), other.used());
        for power in 0..end {
            if self.coefficient(power) != other.coefficient(power) {
                return false;
            }
        }
        true
    }

    /// Returns the greatest power with a coefficient that isn't 0, and 0 if there is none.
    pub fn degree(&self) -> usize
        ensures value { result ≡ degree self.now }
        ensures within { result ≤ 32 }
        ensures polynomial { IsPolynomial self.now }
    {
        self.used().saturating_sub(1)
    }

    /// Returns how many coefficients of 0 come first: the least power with a coefficient that isn't 0, or 33.
    pub fn order(&self) -> usize
        ensures value { result ≡ order self.now }
        ensures within { result ≤ 33 }
        ensures polynomial { IsPolynomial self.now }
    {
        let end = self.used();
        for power in 0..end {
            if !is_zero(self.whole(power)) {
                return power;
            }
        }
        COUNT
    }

    /// Returns the least power with a coefficient that isn't 0, or `None` exactly for the polynomial 0.
    pub fn low_order(&self) -> Option<usize>
        ensures value { result ≡ low_order self.now }
        ensures within { IfSome result (λ k. k ≤ 32) }
    {
        let order = self.order();
        if order == COUNT { None } else { Some(order) }
    }

    /// Whether the polynomial is 0.
    pub fn is_zero(&self) -> bool
        ensures value { result ≡ list_all is_zero_integer self.now }
        ensures zero { IsTrue result ↔ (lowest self.now ≡ pos 0) }
    {
        self.used() == 0
    }

    /// Returns the lowest coefficient that isn't 0, or 0 for the polynomial 0.
    pub fn lowest(&self) -> Whole
        ensures { result ≡ lowest self.now }
    {
        let order = self.order();
        if order == COUNT {
            Whole::new(0)
        } else {
            self.whole(order)
        }
    }

    /// Returns the greatest common divisor of the coefficients, and 0 for the polynomial 0.
    pub fn content(&self) -> u128
        ensures value { result ≡ content self.now }
        ensures size { result < 2 ^ 127 }
    {
        let mut divisor = 0;
        for power in (0..self.degree() + 1).rev() {
            divisor = gcd(size(self.whole(power)), divisor);
            if divisor == 1 {
                return 1;
            }
        }
        divisor
    }

    /// Returns the greatest common divisor of the coefficients, as a whole number.
    pub fn whole_content(&self) -> Whole
        ensures { result ≡ pos (content self.now) }
    {
        Whole::new(self.content() as i128)
    }

    /// Returns the whole number `c` of `c * epsilon^k * P`, where `P` is the core; 0 for the polynomial 0.
    pub fn factor(&self) -> Whole
        ensures { result ≡ factor self.now }
    {
        let content = self.whole_content();
        if is_below_zero(self.lowest()) {
            content.negated()
        } else {
            content
        }
    }

    /// Returns the polynomial `P` of `c * epsilon^k * P`: its coefficients have greatest common divisor 1, and its
    /// coefficient of power 0 is above 0.
    pub fn core(&self) -> EpsPoly
        requires { IsNonZero self.now }
        ensures { result ≡ core self.now }
    {
        let turned = self.turned();
        turned.lowered(self.order(), self.whole_content())
    }

    /// Returns this polynomial or its opposite, whichever has a positive lowest coefficient.
    fn turned(&self) -> EpsPoly
        ensures { result ≡ turned_as (lowest self.now) self.now }
    {
        if is_below_zero(self.lowest()) {
            self.negate()
        } else {
            *self
        }
    }

    /// Returns the coefficients from a power on, each divided by a number above 0, without remainders; `power` is at most 32.
    pub fn lowered(&self, power: usize, by: Whole) -> EpsPoly
        requires power { power ≤ 32 }
        requires by { pos 0 <ℤ by }
        ensures { result ≡ lowered power by self.now }
    {
        // for the proof: reading the field shows that this is a polynomial
        let _ = &self.entries;
        if power == 0 && by.value() == 1 {
            return *self;
        }
        let mut lowered = EpsPoly::zero();
        for from in power..self.degree() + 1 {
            lowered.put(from - power, self.whole(from).over(by));
        }
        lowered
    }

    /// Keeps the coefficients from a power on, each divided by a number above 0, without remainders; `power` is at most 32.
    pub fn lower(&mut self, power: usize, by: Whole)
        requires power { power ≤ 32 }
        requires by { pos 0 <ℤ by }
        ensures { self.new ≡ lowered power by self.old }
    {
        if power > 0 {
            self.lower_from(power, by);
        } else {
            self.divide(by);
        }
    }

    /// Keeps the coefficients from a power on, as `lower` does. It is a function of its own because `lower` would fill the room for
    /// the polynomial with zeros at each call, also of power 0.
    #[inline(never)]
    fn lower_from(&mut self, power: usize, by: Whole)
        requires power { power ≤ 32 }
        requires by { pos 0 <ℤ by }
        ensures { self.new ≡ lowered power by self.old }
    {
        *self = self.lowered(power, by);
    }

    /// Divides each coefficient by a number above 0, without remainders.
    fn divide(&mut self, by: Whole)
        requires { pos 0 <ℤ by }
        ensures { self.new ≡ lowered 0 by self.old }
    {
        let end = self.used();
        if by.value() == 1 {
            return;
        }
        for power in 0..end {
            self.put(power, self.whole(power).over(by));
        }
    }

    /// Returns the opposite.
    pub fn negate(&self) -> EpsPoly
        ensures { result ≡ poly_negate self.now }
    {
        let mut opposite = EpsPoly::zero();
        for power in 0..self.degree() + 1 {
            opposite.put(power, self.whole(power).negated());
        }
        opposite
    }

    /// Returns the sum, or `TooWide` exactly if the written sum has a part past its size.
    pub fn add(&self, other: &EpsPoly) -> Result<EpsPoly, TooWide>
        ensures written { result ≡ or_wide Add (sized_sum self.now other.now) }
        ensures exact { IfOk result (λ r. Same r (poly_add self.now other.now)) }
    {
        self.checked_add(other).ok_or(TooWide { op: Op::Add })
    }

    /// Returns the difference, or `TooWide` exactly if the written difference has a part past its size.
    pub fn sub(&self, other: &EpsPoly) -> Result<EpsPoly, TooWide>
        ensures written { result ≡ or_wide Sub (sized_sum self.now (poly_negate other.now)) }
        ensures exact { IfOk result (λ r. Same r (poly_add self.now (poly_negate other.now))) }
    {
        self.checked_add(&other.negate())
            .ok_or(TooWide { op: Op::Sub })
    }

    /// Returns the product, or `TooWide` exactly if the written product has a part past its size or a degree above 32.
    pub fn mul(&self, other: &EpsPoly) -> Result<EpsPoly, TooWide>
        ensures written { result ≡ or_wide Mul (sized_product self.now other.now) }
        ensures exact { IfOk result (λ r. Same r (poly_multiply self.now other.now)) }
    {
        self.checked_mul(other).ok_or(TooWide { op: Op::Mul })
    }

    /// Returns the sum, or nothing exactly if the written sum has a part past its size.
    pub fn checked_add(&self, other: &EpsPoly) -> Option<EpsPoly>
        ensures written { result ≡ sized_sum self.now other.now }
        ensures exact { IfSome result (λ r. Same r (poly_add self.now other.now)) }
    {
        // for the proof: the contract of `used` shows that both are polynomials
        let _ = (self.used(), other.used());
        let mut sum = *self;
        sum.write_sum(other)?;
        Some(sum)
    }

    /// Returns the product, or nothing exactly if the written product has a part past its size or a degree above 32.
    pub fn checked_mul(&self, other: &EpsPoly) -> Option<EpsPoly>
        ensures written { result ≡ sized_product self.now other.now }
        ensures exact { IfSome result (λ r. Same r (poly_multiply self.now other.now)) }
    {
        let mut product = EpsPoly::zero();
        product.write_product(self, other)?;
        Some(product)
    }

    /// Adds another polynomial to this one. It is refused with `TooWide` exactly if the written sum has a part past its size;
    /// this polynomial may then be partly overwritten.
    pub fn add_assign(&mut self, other: &EpsPoly) -> Result<(), TooWide>
        ensures { ok_map (λ _. self.new) result ≡ or_wide Add (sized_sum self.old other.now) }
    {
        self.write_sum(other).ok_or(TooWide { op: Op::Add })
    }

    /// Subtracts another polynomial from this one. It is refused with `TooWide` exactly if the written difference has a part past
    /// its size; this polynomial may then be partly overwritten.
    pub fn sub_assign(&mut self, other: &EpsPoly) -> Result<(), TooWide>
        ensures { ok_map (λ _. self.new) result ≡ or_wide Sub (sized_sum self.old (poly_negate other.now)) }
    {
        self.write_sum(&other.negate())
            .ok_or(TooWide { op: Op::Sub })
    }

    /// Makes this polynomial the product of two others. It is refused with `TooWide` exactly if the written product has a part past
    /// its size or a degree above 32; this polynomial may then be partly overwritten.
    pub fn put_product(&mut self, left: &EpsPoly, right: &EpsPoly) -> Result<(), TooWide>
        ensures { ok_map (λ _. self.new) result ≡ or_wide Mul (sized_product left.now right.now) }
    {
        self.write_product(left, right)
            .ok_or(TooWide { op: Op::Mul })
    }

    /// Adds another polynomial to this one, coefficient by coefficient, up to the first whose sum is too wide.
    fn write_sum(&mut self, other: &EpsPoly) -> Option<()>
        ensures { option_map (λ _. self.new) result ≡ sized_sum self.old other.now }
    {
        // for the proof: the contract of `used` shows that this is a polynomial
        let _ = self.used();
        for power in 0..other.used() {
            let left = self.whole(power);
            let right = other.whole(power);
            self.put(power, left.checked_add(right)?);
        }
        Some(())
    }

    /// Writes the product of two polynomials into this one, up to the first coefficient that is too wide.
    fn write_product(&mut self, left: &EpsPoly, right: &EpsPoly) -> Option<()>
        ensures { option_map (λ _. self.new) result ≡ sized_product left.now right.now }
    {
        let above = left.degree();
        let below = right.degree();
        if above + below >= COUNT {
            return None;
        }
        if left.is_zero() || right.is_zero() {
            self.clear();
            return Some(());
        }
        let end = self.used();
        let are_short = left.is_short() && right.is_short();
        for power in 0..end.max(above + below + 1) {
            let count = power.min(above) + 1;
            self.put(
                power,
                part_of_product(left, right, power, count, are_short)?,
            );
        }
        Some(())
    }

    /// Returns the polynomial `q` whose written product with `by` is this polynomial, or `None` exactly if there is none.
    pub fn divide_exact(&self, by: &EpsPoly) -> Option<EpsPoly>
        requires { IsNonZero by.now }
        ensures value { result ≡ exact_quotient self.now by.now }
        ensures found { IfSome result (λ q. sized_product q by.now ≡ Some self.now) }
        ensures only { (q : List ℤ) → sized_product q by.now ≡ Some self.now → IsSomeAnd result (λ r. Same r q) }
        ensures none { IfNone result ((q : List ℤ) → sized_product q by.now ≢ Some self.now) }
    {
        let mut quotient = EpsPoly::zero();
        let mut spare = EpsPoly::zero();
        quotient.put_quotient(self, by, &mut spare)?;
        Some(quotient)
    }

    /// Makes this polynomial the `q` whose written product with `by` is `p`, and returns `None` exactly if there is none;
    /// this polynomial may then be partly overwritten. `spare` is room for that product.
    pub fn put_quotient(&mut self, p: &EpsPoly, by: &EpsPoly, spare: &mut EpsPoly) -> Option<()>
        requires { IsNonZero by.now }
        ensures { option_map (λ _. self.new) result ≡ exact_quotient p.now by.now }
    {
        // for the proof: the contract of `used` shows that both are polynomials
        let _ = (p.used(), by.used());
        if p.is_zero() {
            self.clear();
            return Some(());
        }
        write_candidate(p, by, self)?;
        spare.write_product(self, by)?;
        if *spare == *p { Some(()) } else { None }
    }
}
