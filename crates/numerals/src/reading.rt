//! The reading of a numeral.
ghost use Rattle.std.specs.Prelude.{IfOk, IfErr};
ghost use Rattle.numerals.specs.Numeral.{IsRatioText, IsParseFault};

use crate::NumberFault;
use crate::check::check;
use crate::digits::split_sign;
use crate::lowest::lowest;
use crate::value::value;
use field_core::Ratio;

/// Returns the value of a numeral in lowest terms, or why the text has no value.
pub fn parse(text: &[u8]) -> Result<Ratio, NumberFault>
    ensures found { IfOk result (IsRatioText text.now) }
    ensures fault { IfErr result (IsParseFault text.now) }
{
    check(text)?;
    let (negative, body) = split_sign(text);
    let size = value(body)?;
    Ok(lowest(negative, &size))
}
