//! Quotients in epsilon, as they are stored.
ghost use Rattle.std.specs.Prelude.{◌≡◌};
ghost use Rattle.field_core.specs.Kind.{is_zero_integer};
ghost use Rattle.field_core.specs.View.{terms};
ghost use Rattle.eps_quotient.specs.Stored.{IsQuotient};

use crate::lower::norm;
use crate::pair::Pair;
use crate::print::put_quotient;
use crate::read::polynomials;
use crate::written::{product, quotient, sum};
use eps_poly::EpsPoly;
use field_core::{List, NoMemory, Number, Op, Ratio, TooWide};
use std::cmp::Ordering;

/// A quotient of two polynomials in epsilon, as the norm of two polynomials stores it: without common content, common powers
/// of epsilon and equal cores. The lowest coefficient of the denominator is positive, and 0 is stored as 0/1.
#[derive(Clone, Copy, PartialEq, Eq, Debug)]
pub struct EpsQuotient {
    pair: Pair,
    ghost stored: { IsQuotient (record { numerator = pair.numerator; denominator = pair.denominator }) },
}

/// Whether a fraction is 0.
fn is_zero(part: &Ratio) -> bool
    ensures { result ≡ is_zero_integer (terms part.now).num }
{
    part.num() == 0
}

impl EpsQuotient {
    ghost use Rattle.std.specs.Prelude.{
      ◌≡◌,
      ◌≤◌,
      ◌↔◌,
      ◌++◌,
      List as Seq,
      ℤ,
      IfSome,
      IfOk,
      OnOk,
      OnErr,
      map,
      pos,
    };
    ghost use Rattle.std.specs.Option.{option_map};
    ghost use Rattle.field_core.specs.declared.place.Op.TheVariants.{Add};
    ghost use Rattle.field_core.specs.Kind.{ok_map, or_wide};
    ghost use Rattle.field_core.specs.Polynomial.{lowest};
    ghost use Rattle.field_core.specs.Fractions.{quotient as quotient_of};
    ghost use Rattle.eps_poly.specs.Polynomials.{IsConstant};
    ghost use Rattle.field_core.specs.View.{terms};
    ghost use Rattle.eps_quotient.specs.Lowering.{norm};
    ghost use Rattle.eps_quotient.specs.Polynomials.{polynomial_value, term, written_polynomial};
    ghost use Rattle.eps_quotient.specs.Spelling.{quotient_text};
    ghost use Rattle.eps_quotient.specs.Stored.{IsQuotient};
    ghost use Rattle.eps_quotient.specs.Texts.{quotient_in};
    ghost use Rattle.eps_quotient.specs.View.{number_of, pair_parts, quotient_parts};

    /// Returns the quotient num/den as the norm of the two polynomials stores it, or `None` exactly if `den` is 0.
    pub fn new(num: &EpsPoly, den: &EpsPoly) -> Option<EpsQuotient>
        ensures norm { IfSome result (λ x. quotient_parts x ≡ norm num.now den.now) }
        ensures value { IfSome result (λ x. number_of x ≡ quotient_of num.now den.now) }
        ensures none { (result ≡ None) ↔ (lowest den.now ≡ pos 0) }
    {
        if den.is_zero() {
            return None;
        }
        Some(EpsQuotient {
            pair: norm(num, den),
        })
    }

    /// Returns the numerator.
    pub fn numerator(&self) -> EpsPoly
        ensures { result ≡ (quotient_parts self.now).numerator }
    {
        self.pair.numerator
    }

    /// Returns the denominator.
    pub fn denominator(&self) -> EpsPoly
        ensures { result ≡ (quotient_parts self.now).denominator }
    {
        self.pair.denominator
    }

    /// Appends the text: that of the fraction if both polynomials are constants, else `[c0,c1,..]/[d0,d1,..]`, the coefficients
    /// of both up to the last that isn't 0. When out of memory, `out` stays as it was.
    pub fn print(&self, out: &mut List<u8>) -> Result<(), NoMemory>
        ensures printed { OnOk result (out.new ≡ out.old ++ quotient_text (quotient_parts self.now)) }
        ensures unchanged { OnErr result (out.new ≡ out.old) }
    {
        put_quotient(out, &self.pair)
    }

    /// Reads the text of a quotient: a whole number, two numbers with a slash between them, or two lists of coefficients in
    /// brackets with a slash between them. Each number is at most 2^127 - 1 in size. Anything else gives `None`.
    #[tactic(auto, unfolding(crate::specs::Texts::quotient_in))]
    pub fn read(text: &[u8]) -> Option<EpsQuotient>
        ensures denoted { option_map quotient_parts result ≡ quotient_in text.now }
    {
        let (num, den) = polynomials(text)?;
        EpsQuotient::new(&num, &den)
    }

    /// Returns the quotient whose value is the polynomial with these coefficients of ascending power: the written sum of its
    /// terms. It is `TooWide` with `Op::Add` exactly if that sum has a part past its size.
    pub fn from_parts(parts: &[Ratio; 5]) -> Result<EpsQuotient, TooWide>
        ensures written { ok_map quotient_parts result ≡ or_wide Add (written_polynomial (map terms parts.now)) }
        ensures value { IfOk result (λ x. number_of x ≡ polynomial_value (map terms parts.now)) }
        ensures constant { IfOk result (λ x. IsConstant (quotient_parts x).denominator) }
    {
        let mut sum = EpsQuotient::zero();
        for power in 0..5 {
            let part = &parts[power];
            if is_zero(part) {
                continue;
            }
            sum = sum.add(&EpsQuotient::term(part, power))?;
        }
        Ok(sum)
    }

    /// Returns a fraction as a quotient: its parts as constant polynomials, with nothing written.
    pub fn of(value: Ratio) -> EpsQuotient
        ensures { quotient_parts result ≡ term 0 (terms value) }
    {
        EpsQuotient::term(&value, 0)
    }

    /// Returns a fraction times a power of epsilon.
    fn term(part: &Ratio, power: usize) -> EpsQuotient
        requires { power ≤ 32 }
        ensures { quotient_parts result ≡ term power (terms part.now) }
    {
        let numerator = EpsPoly::monomial(part.whole_num(), power);
        let denominator = EpsPoly::monomial(part.whole_den(), 0);
        EpsQuotient {
            pair: Pair::new(numerator, denominator),
        }
    }

    /// Returns the answer of the operation `op`: this quotient, or the refusal that names `op` if there is none.
    fn answer(op: Op, pair: Option<Pair>) -> Result<EpsQuotient, TooWide>
        requires { IfSome pair (λ x. IsQuotient (pair_parts x)) }
        ensures { ok_map quotient_parts result ≡ or_wide op (option_map pair_parts pair) }
    {
        match pair {
            Some(pair) => Ok(EpsQuotient { pair }),
            None => Err(TooWide { op }),
        }
    }
}

impl Number for EpsQuotient {
    ghost use Rattle.eps_quotient.specs.Quotients.{quotients};
    ghost use Rattle.eps_quotient.specs.Stored.{IsQuotient};
    ghost use Rattle.eps_quotient.specs.View.{quotient_parts};
    ghost use Rattle.eps_quotient.specs.Laws.Exact.{quotients_are_exact};

    ghost kind = { quotients };

    ghost parts = { quotient_parts };

    ghost IsStored = { IsQuotient };

    fn zero() -> EpsQuotient {
        EpsQuotient { pair: Pair::zero() }
    }

    fn one() -> EpsQuotient {
        EpsQuotient { pair: Pair::one() }
    }

    fn add(&self, other: &EpsQuotient) -> Result<EpsQuotient, TooWide> {
        EpsQuotient::answer(Op::Add, sum(&self.pair, &other.pair))
    }

    fn sub(&self, other: &EpsQuotient) -> Result<EpsQuotient, TooWide> {
        EpsQuotient::answer(Op::Sub, sum(&self.pair, &other.pair.opposite()))
    }

    fn mul(&self, other: &EpsQuotient) -> Result<EpsQuotient, TooWide> {
        EpsQuotient::answer(Op::Mul, product(&self.pair, &other.pair))
    }

    fn div(&self, other: &EpsQuotient) -> Result<EpsQuotient, TooWide> {
        EpsQuotient::answer(Op::Div, quotient(&self.pair, &other.pair))
    }

    /// Returns the order of this quotient and `other`. It is refused with `Op::Sub` exactly if their difference is.
    fn compare(&self, other: &EpsQuotient) -> Result<Ordering, TooWide> {
        match self.sub(other) {
            Ok(difference) => Ok(difference.sign()),
            Err(wide) => Err(wide),
        }
    }

    fn is_zero(&self) -> bool {
        self.pair.is_zero()
    }

    fn sign(&self) -> Ordering {
        self.pair.sign()
    }

    fn limit(&self) -> Ratio {
        let num = self.pair.numerator.whole(0);
        let den = self.pair.denominator.whole(0);
        let divisor = num.common_divisor(den);
        Ratio::of_wholes(num.over(divisor), den.over(divisor))
    }

    ghost stored = { λ x. x.stored };

    ghost exact = { quotients_are_exact };
}
