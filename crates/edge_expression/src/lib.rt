//! Edge expressions: the weights of edges as texts.
//!
//! Their grammar is `IsExpression`, and the value of an expression is `value`, an entry or the first fault from left to right.
//! `IsEntryText` and `IsExprFault` state what a text gives. `entries` makes one function of the two, `entry_of`.
//!
//! Proved:
//! - `parse`: `found` (the entry of an expression), `fault` (too deep, the first bad byte, or the first fault of its
//!   value). `print_entry`: `printed` (the one text of an entry), `begun`.
//! - Laws in `src/laws.rt`: the entry of an expression is the number that the expression means; the text of an entry
//!   is read back.
#![tactic(auto)]

mod byte_class;
mod byte_machine;
mod cursor;
mod evaluate;
mod fault;
pub mod laws;
mod polynomial;
mod printing;
mod reading;
mod scan;
mod short_fraction;
mod value_fault;

pub use fault::ExprFault;
pub use printing::print_entry;
pub use reading::parse;
