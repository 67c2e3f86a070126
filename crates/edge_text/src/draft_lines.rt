//! The draft that the lines of a text denote.
ghost use Rattle.std.specs.Prelude.{IfOk, IfErr};
ghost use Rattle.text_lines.specs.Lines.{rows_of, end_of};
ghost use Rattle.text_lines.specs.Languages.{reading};
ghost use Rattle.edge_text.specs.declared.place.Place.TheVariants.{Alpha as AtAlpha};
ghost use Rattle.edge_text.specs.Document.{IsText};
ghost use Rattle.edge_text.specs.Places.{cases};
ghost use Rattle.edge_text.specs.View.{GivesAll, IsFaultAt};

use crate::TextFault;
use crate::place::Place;
use case_model::Draft;
use std::alloc::Global;
use text_lines::Lines;

/// Reads a text, line by line.
fn read(alloc: Global, bytes: &[u8]) -> Result<Draft, TextFault>
    ensures { GivesAll (reading cases AtAlpha (rows_of bytes.now) (end_of bytes.now)) result }
{
    let mut lines = Lines::new(bytes);
    let mut place = Place::Alpha;
    while let Some(line) = lines.next() {
        place = place.step(alloc, &line)?;
    }
    place.whole(lines.next_number())
}

/// Returns the draft that a text denotes, or the first line that is not allowed.
#[tactic(auto, using(crate::proofs::Texts::read_found, crate::proofs::Texts::read_fault))]
pub fn draft(alloc: Global, bytes: &[u8]) -> Result<Draft, TextFault>
    ensures found { IfOk result (IsText bytes.now) }
    ensures fault { IfErr result (IsFaultAt bytes.now) }
{
    read(alloc, bytes)
}
