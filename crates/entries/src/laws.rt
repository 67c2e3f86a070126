//! The law of edge expressions.
ghost use Rattle.std.specs.Prelude.{◌≡◌, ◌↔◌, ℕ, List, Ok, Err};
ghost use Rattle.field_core.specs.declared.ratio.Ratio.{Ratio};
ghost use Rattle.edge_expression.specs.EntryReading.{IsEntryText, IsExprFault};
ghost use Rattle.edge_expression.specs.declared.fault.ExprFault.{ExprFault};
ghost use Rattle.entries.specs.Entries.{entry_of};

/// `entry_of` returns an entry exactly if the text is an expression of that entry, and a fault exactly if the text has that
/// fault.
pub fn entries_are_read()
    ensures value { (text : List ℕ) (e : List Ratio) → (entry_of text ≡ Ok e) ↔ IsEntryText text e }
    ensures fault { (text : List ℕ) (f : ExprFault) → (entry_of text ≡ Err f) ↔ IsExprFault text f }
{}
