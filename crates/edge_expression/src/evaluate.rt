//! The evaluation of edge expressions, from left to right. The clauses state something only of texts that are expressions.
ghost use Rattle.std.specs.Prelude.{◌≡◌, ◌≤◌, map, length, IfOk};
ghost use Rattle.numerals.specs.Numeral.{body_text};
ghost use Rattle.field_core.specs.View.{terms};
ghost use Rattle.numerals.specs.Decimals.{Decimal, decimal_value};
ghost use Rattle.edge_expression.specs.Expressions.{Expression, Spells};
ghost use Rattle.edge_expression.specs.EntryValues.{decimal_entry, value};
ghost use Rattle.edge_expression.specs.EntryView.{map_value, polynomial_terms};
ghost use Rattle.edge_expression.specs.CursorView.{SumGives, ProductGives, FactorGives};

use crate::cursor::{Cursor, Head};
use crate::polynomial::{Operation, Polynomial};
use crate::short_fraction::ShortFraction;
use crate::value_fault::ValueFault;
use case_model::Entry;
use fraction::Fraction;

/// Returns the value of a decimal.
fn decimal(text: &[u8]) -> Result<Polynomial, ValueFault>
    ensures { (d : Decimal) → text.now ≡ body_text d.body → map_value polynomial_terms result ≡ decimal_entry (decimal_value d) }
{
    let value = Fraction::parse_decimal(text).ok_or(ValueFault::Part)?;
    let short = ShortFraction::of(value)?;
    Ok(Polynomial::constant(&short))
}

/// Takes a sum from the cursor, and returns its value.
#[cycle(evaluate)]
fn sum(cursor: &mut Cursor) -> Result<Polynomial, ValueFault>
    ensures value { SumGives cursor.old.rest.now result cursor.new.rest.now }
    ensures shorter { IfOk result (λ _. length cursor.new.rest.now ≤ length cursor.old.rest.now) }
{
    let sign = cursor.take_sign().unwrap_or(Operation::Add);
    let first = product(cursor)?;
    let mut sum = first.signed(sign)?;
    while let Some(sign) = cursor.take_sign() {
        let term = product(cursor)?;
        sum = sum.apply(sign, &term)?;
    }
    Ok(sum)
}

/// Takes a product from the cursor, and returns its value.
#[cycle(evaluate)]
fn product(cursor: &mut Cursor) -> Result<Polynomial, ValueFault>
    ensures value { ProductGives cursor.old.rest.now result cursor.new.rest.now }
    ensures shorter { IfOk result (λ _. length cursor.new.rest.now ≤ length cursor.old.rest.now) }
{
    let head = cursor.take_head();
    let mut product = factor(cursor, head)?;
    while let Some(operation) = cursor.take_joint() {
        let head = cursor.take_head();
        let next = factor(cursor, head)?;
        product = product.apply(operation, &next)?;
    }
    Ok(product)
}

/// Takes the rest of a factor, whose front is taken already, from the cursor, and returns the factor's value.
#[cycle(evaluate)]
fn factor(cursor: &mut Cursor, head: Head) -> Result<Polynomial, ValueFault>
    ensures value { FactorGives head.entry cursor.old.rest.now result cursor.new.rest.now }
    ensures shorter { IfOk result (λ _. length cursor.new.rest.now ≤ length cursor.old.rest.now) }
{
    match head {
        Head::Decimal(text) => decimal(text),
        Head::Epsilon => Polynomial::power(cursor.take_power()),
        Head::Open => {
            let inner = sum(cursor)?;
            cursor.take_close();
            Ok(inner)
        }
    }
}

/// Returns the value of an edge expression.
pub fn expression_value(text: &[u8]) -> Result<Entry, ValueFault>
    ensures { (e : Expression) → Spells text.now e → map_value (map terms) result ≡ value e }
{
    let mut cursor = Cursor::new(text);
    match sum(&mut cursor) {
        Ok(value) => Ok(value.entry()),
        Err(fault) => Err(fault),
    }
}
