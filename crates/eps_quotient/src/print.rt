//! The texts of quotients.
ghost use Rattle.std.specs.Prelude.{◌≡◌, ◌≤◌, ◌==◌, ◌&&◌, ◌++◌, OnOk, OnErr};
ghost use Rattle.field_core.specs.Polynomial.{coefficient};
ghost use Rattle.eps_poly.specs.Written.{degree};
ghost use Rattle.eps_quotient.specs.Spelling.{coefficient_text, polynomial_text, quotient_text, Extends};
ghost use Rattle.eps_quotient.specs.View.{pair_parts};

use crate::pair::Pair;
use eps_poly::EpsPoly;
use field_core::{List, NoMemory};

/// Appends a coefficient, after a comma if it isn't that of power 0.
fn put_coefficient(text: &mut List<u8>, p: &EpsPoly, power: usize) -> Result<(), NoMemory>
    requires { power ≤ 32 }
    ensures put { OnOk result (text.new ≡ text.old ++ coefficient_text power (coefficient p.now power)) }
    ensures kept { OnErr result (Extends text.old text.new) }
{
    if power == 0 {
        return text.append_number(p.coefficient(power));
    }
    text.push(b',')?;
    text.append_number(p.coefficient(power))
}

/// Appends the coefficients up to the last that isn't 0, in brackets.
fn put_polynomial(text: &mut List<u8>, p: &EpsPoly) -> Result<(), NoMemory>
    ensures put { OnOk result (text.new ≡ text.old ++ polynomial_text p.now) }
    ensures kept { OnErr result (Extends text.old text.new) }
{
    text.push(b'[')?;
    for power in 0..p.degree() + 1 {
        put_coefficient(text, p, power)?;
    }
    text.push(b']')
}

/// Whether both polynomials are constants.
fn is_fraction(x: &Pair) -> bool
    ensures { result ≡ ((degree x.now.numerator == 0) && (degree x.now.denominator == 0)) }
{
    x.numerator.degree() == 0 && x.denominator.degree() == 0
}

/// Appends the text of a quotient, or a beginning of it when out of memory.
#[tactic(auto, unfolding(crate::specs::Spelling::quotient_text))]
fn begin_quotient(text: &mut List<u8>, x: &Pair) -> Result<(), NoMemory>
    ensures put { OnOk result (text.new ≡ text.old ++ quotient_text (pair_parts x.now)) }
    ensures kept { OnErr result (Extends text.old text.new) }
{
    if is_fraction(x) {
        return text.append_fraction(x.numerator.coefficient(0), x.denominator.coefficient(0));
    }
    put_polynomial(text, &x.numerator)?;
    text.push(b'/')?;
    put_polynomial(text, &x.denominator)
}

/// Appends the text of a quotient. When out of memory, the list stays as it was.
pub fn put_quotient(text: &mut List<u8>, x: &Pair) -> Result<(), NoMemory>
    ensures put { OnOk result (text.new ≡ text.old ++ quotient_text (pair_parts x.now)) }
    ensures unchanged { OnErr result (text.new ≡ text.old) }
{
    let len = text.len();
    let done = begin_quotient(text, x);
    if done.is_err() {
        text.truncate(len);
    }
    done
}
