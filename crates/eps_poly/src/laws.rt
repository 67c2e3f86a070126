//! Laws of the factors of polynomials.
ghost use Rattle.std.specs.Prelude.{◌≡◌, ℕ, ℤ, List};
ghost use Rattle.field_core.specs.Polynomial.{Same, IsNonZero};
ghost use Rattle.eps_poly.specs.Factors.{IsCore, core, factor, from_factors, order};
ghost use Rattle.eps_poly.specs.Polynomials.{IsPolynomial};

/// Each polynomial that isn't zero is `c * epsilon^k * P` in one way. `c` is the factor, `k` the least power, `P` the core. The
/// coefficients of `P` have greatest common divisor 1, and its coefficient of power 0 is above 0.
pub fn polynomials_have_one_core()
    ensures polynomial { (p : List ℤ) → IsPolynomial p → IsPolynomial (core p) }
    ensures core { (p : List ℤ) → IsPolynomial p → IsNonZero p → IsCore (core p) }
    ensures product { (p : List ℤ) → IsPolynomial p → Same p (from_factors (factor p) (order p) (core p)) }
    ensures only_factor { (p q : List ℤ) (c : ℤ) (k : ℕ) → IsPolynomial p → IsNonZero p → IsCore q
        → Same p (from_factors c k q) → c ≡ factor p }
    ensures only_power { (p q : List ℤ) (c : ℤ) (k : ℕ) → IsPolynomial p → IsNonZero p → IsCore q
        → Same p (from_factors c k q) → k ≡ order p }
    ensures only_core { (p q : List ℤ) (c : ℤ) (k : ℕ) → IsPolynomial p → IsNonZero p → IsCore q
        → Same p (from_factors c k q) → Same q (core p) }
{}
