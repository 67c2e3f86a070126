//! Quotients of polynomials without common factors.
ghost use Rattle.std.specs.Prelude.{◌≡◌, ◌<ℤ◌, pos};
ghost use Rattle.field_core.specs.Polynomial.{IsNonZero};
ghost use Rattle.eps_poly.specs.Factors.{core};
ghost use Rattle.eps_poly.specs.Polynomials.{is_same, IsPolynomial};
ghost use Rattle.eps_quotient.specs.Laws.NormLaws.{IsStoredOf};
ghost use Rattle.eps_quotient.specs.Lowering.{common_content, common_order, lower, norm, turned, without_cores, without_powers};
ghost use Rattle.eps_quotient.specs.View.{pair_parts};

use crate::pair::Pair;
use eps_poly::EpsPoly;
use field_core::Whole;

/// Returns the greatest common divisor of all coefficients of two polynomials.
fn common_content(a: &EpsPoly, b: &EpsPoly) -> Whole
    requires { IsNonZero b.now }
    ensures value { result ≡ pos (common_content a.now b.now) }
    ensures positive { pos 0 <ℤ result }
{
    a.whole_content().common_divisor(b.whole_content())
}

/// Whether the cores of two polynomials are equal.
fn have_one_core(a: &EpsPoly, b: &EpsPoly) -> bool
    requires a { IsNonZero a.now }
    requires b { IsNonZero b.now }
    ensures { result ≡ is_same (core a.now) (core b.now) }
{
    let above = a.degree() - a.order();
    let below = b.degree() - b.order();
    if above != below {
        return false;
    }
    if above == 0 || a == b {
        return true;
    }
    a.core() == b.core()
}

/// Returns the quotient of two polynomials without common content and common powers of epsilon, of which `power` is the greatest.
#[tactic(auto, unfolding(crate::specs::Lowering::without_powers), using(crate::specs::Laws::Cuts::order_within))]
fn without_powers(a: &EpsPoly, b: &EpsPoly, power: usize) -> Pair
    requires a { IsNonZero a.now }
    requires b { IsNonZero b.now }
    requires held { IsPolynomial b.now }
    requires power { power ≡ common_order a.now b.now }
    ensures { pair_parts result ≡ without_powers a.now b.now }
{
    let content = common_content(a, b);
    Pair {
        numerator: a.lowered(power, content),
        denominator: b.lowered(power, content),
    }
}

/// Returns what `without_powers` returns if both cores are replaced by 1.
#[tactic(auto, unfolding(crate::specs::Lowering::without_cores), using(crate::specs::Laws::Cuts::order_within))]
fn without_cores(a: &EpsPoly, b: &EpsPoly, power: usize) -> Pair
    requires a { IsNonZero a.now }
    requires b { IsNonZero b.now }
    requires held { IsPolynomial b.now }
    requires power { power ≡ common_order a.now b.now }
    ensures { pair_parts result ≡ without_cores a.now b.now }
{
    let content = common_content(a, b);
    Pair {
        numerator: EpsPoly::monomial(a.factor().over(content), a.order() - power),
        denominator: EpsPoly::monomial(b.factor().over(content), b.order() - power),
    }
}

/// Returns the quotient without common content, common powers of epsilon and equal cores; 0/1 if the numerator is 0.
#[tactic(auto, unfolding(crate::specs::Lowering::lower))]
pub fn lower(a: &EpsPoly, b: &EpsPoly) -> Pair
    requires { IsNonZero b.now }
    ensures lowered { pair_parts result ≡ lower a.now b.now }
    ensures held { IsPolynomial a.now × IsPolynomial b.now }
{
    let power = a.order().min(b.order());
    if a.is_zero() {
        Pair::zero()
    } else if have_one_core(a, b) {
        without_cores(a, b, power)
    } else {
        without_powers(a, b, power)
    }
}

/// Returns the same quotient, with a denominator whose lowest coefficient is positive.
#[tactic(auto, unfolding(crate::specs::Lowering::turned))]
fn turned(x: Pair) -> Pair
    ensures { pair_parts result ≡ turned (pair_parts x) }
{
    if x.denominator.lowest().value() < 0 {
        return Pair {
            numerator: x.numerator.negate(),
            denominator: x.denominator.negate(),
        };
    }
    x
}

/// Returns the stored quotient of two polynomials.
#[tactic(auto, unfolding(crate::specs::Lowering::norm))]
pub fn norm(a: &EpsPoly, b: &EpsPoly) -> Pair
    requires { IsNonZero b.now }
    ensures norm { pair_parts result ≡ norm a.now b.now }
    ensures exact { IsStoredOf a.now b.now (pair_parts result) }
{
    turned(lower(a, b))
}
