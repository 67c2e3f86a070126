//! The text of an entry.
ghost use Rattle.std.specs.Prelude.{◌≡◌, ◌≤◌, ◌<◌, ◌++◌, OnOk, OnErr};
ghost use Rattle.field_core.specs.View.{terms};
ghost use Rattle.field_core.specs.Texts.{IsBegun};
ghost use Rattle.edge_expression.specs.EntryTexts.{power_text, factor_text, term_text, joint_text, joined_term, entry_text};

use case_model::Entry;
use field_core::{List, NoMemory};
use fraction::Fraction;

/// Appends a power of epsilon above 0.
fn put_power(out: &mut List<u8>, power: usize) -> Result<(), NoMemory>
    requires some { 0 < power }
    requires within { power ≤ 4 }
    ensures put { OnOk result (out.new ≡ out.old ++ power_text power) }
    ensures begun { OnErr result (IsBegun out.old out.new (power_text power)) }
{
    if power == 1 {
        return out.append(b"\\epsilon");
    }
    out.append(b"\\epsilon^")?;
    out.push(b'0' + power as u8)
}

/// Appends the coefficient before a power of epsilon and `*`, or nothing if the coefficient is 1.
fn put_factor(out: &mut List<u8>, coefficient: &Fraction) -> Result<(), NoMemory>
    ensures put { OnOk result (out.new ≡ out.old ++ factor_text (terms coefficient.now)) }
    ensures begun { OnErr result (IsBegun out.old out.new (factor_text (terms coefficient.now))) }
{
    if coefficient.is_one() {
        return Ok(());
    }
    coefficient.print(out)?;
    out.push(b'*')
}

/// Appends a term by its coefficient. Of a negative coefficient the caller has put the sign.
#[tactic(auto, unfolding(crate::specs::EntryTexts::term_text))]
fn put_term(out: &mut List<u8>, power: usize, coefficient: &Fraction) -> Result<(), NoMemory>
    requires { power ≤ 4 }
    ensures put { OnOk result (out.new ≡ out.old ++ term_text power (terms coefficient.now)) }
    ensures begun { OnErr result (IsBegun out.old out.new (term_text power (terms coefficient.now))) }
{
    if power == 0 {
        return coefficient.print(out);
    }
    put_factor(out, coefficient)?;
    put_power(out, power)
}

/// Appends what joins a term to those before it.
fn put_joint(out: &mut List<u8>, is_first: bool, is_negative: bool) -> Result<(), NoMemory>
    ensures put { OnOk result (out.new ≡ out.old ++ joint_text is_first is_negative) }
    ensures begun { OnErr result (out.new ≡ out.old) }
{
    if is_negative {
        return out.push(b'-');
    }
    if is_first {
        return Ok(());
    }
    out.push(b'+')
}

/// Appends a term with what joins it to those before it.
#[tactic(auto, unfolding(crate::specs::EntryTexts::joined_term))]
fn put_joined(
    out: &mut List<u8>,
    is_first: bool,
    power: usize,
    coefficient: &Fraction,
) -> Result<(), NoMemory>
    requires { power ≤ 4 }
    ensures put { OnOk result (out.new ≡ out.old ++ joined_term is_first power (terms coefficient.now)) }
    ensures begun { OnErr result (IsBegun out.old out.new (joined_term is_first power (terms coefficient.now))) }
{
    put_joint(out, is_first, coefficient.ratio().num() < 0)?;
    put_term(out, power, &coefficient.abs())
}

/// Appends the canonical text of an entry: its terms that aren't 0 by ascending power, or `0`.
///
/// A term of power 0 is its fraction. A term of power 1 is `\epsilon` and of a greater power `\epsilon^` and the power; before
/// it are its absolute coefficient and `*`, unless that is 1. Terms are joined by `+` or `-`, and a `-` is before a first term
/// below 0. When out of memory, a front of the text may have been appended.
pub fn print_entry(entry: &Entry, out: &mut List<u8>) -> Result<(), NoMemory>
    ensures printed { OnOk result (out.new ≡ out.old ++ entry_text entry.now) }
    ensures begun { OnErr result (IsBegun out.old out.new (entry_text entry.now)) }
{
    let mut is_first = true;
    for power in 0..5 {
        let coefficient = entry.coefficient(power);
        if coefficient.is_zero() {
            continue;
        }
        put_joined(out, is_first, power, &coefficient)?;
        is_first = false;
    }
    if is_first {
        return out.push(b'0');
    }
    Ok(())
}
