//! What the command `study` prints.
ghost use Rattle.std.specs.Prelude.{◌≡◌, ◌++◌, IfOk, OnOk, OnErr};
ghost use Rattle.case_model.specs.CaseView.{content};
ghost use Rattle.report.specs.TestReport.{names_where};
ghost use Rattle.report.specs.StudyReport.{
  look_line,
  taken_lines,
  refusal_word,
  refused_line,
  is_among as among,
  shown_line,
  opened_lines,
};

use crate::each::put_each;
use crate::lines::{put_alpha, put_name, put_names};
use crate::stages::{Rejections, is_among};
use case_model::Case;
use field_core::{List, NoMemory};
use fraction::Fraction;
use graph_io::Look;
use staged_levels::{Settled, StepFault};
use std::alloc::Global;

/// Appends the line of a look.
#[tactic(auto, unfolding(crate::specs::StudyReport::look_line))]
fn put_look(text: &mut List<u8>, case: &Case, look: &Look) -> Result<(), NoMemory>
    ensures { OnOk result (text.new ≡ text.old ++ look_line (content case.now) look.now) }
{
    text.append(b"look")?;
    put_name(text, case, look.hypothesis as usize)?;
    text.append(b" ")?;
    text.append_unsigned(look.stage as u128)?;
    text.append(b" ")?;
    Fraction::of(look.p).print(text)?;
    text.push(b'\n')
}

/// Appends the lines of a look that was taken, and of the rejections that it brings. When out of memory, the text stays as it was.
#[tactic(auto, unfolding(crate::specs::StudyReport::taken_lines))]
pub fn put_taken(
    alloc: Global,
    text: &mut List<u8>,
    case: &Case,
    look: &Look,
    rejections: &[Settled],
) -> Result<(), NoMemory>
    ensures put { OnOk result (text.new ≡ text.old ++ taken_lines (content case.now) look.now rejections.now) }
    ensures unchanged { OnErr result (text.new ≡ text.old) }
{
    let mut lines = List::new(alloc);
    put_look(&mut lines, case, look)?;
    put_each(&mut lines, &Rejections(case), rejections)?;
    text.append(lines.as_slice())
}

/// Returns the word for why an arrival is refused, and an empty one if the fault isn't that of an arrival.
fn refusal_word(fault: &StepFault) -> &'static [u8]
    ensures { result.now ≡ refusal_word fault.now }
{
    match fault {
        StepFault::StageRange(_) => b"stage",
        StepFault::Known(_, _) => b"known",
        StepFault::PRange => b"range",
        StepFault::Rejected(_) | StepFault::NotLegal(_) | StepFault::Wide(_) => b"",
    }
}

/// Appends the line that the command with this number, from 1, requested a look that is refused. When out of memory, the text
/// stays as it was.
#[tactic(auto, unfolding(crate::specs::StudyReport::refused_line))]
pub fn put_refused(
    alloc: Global,
    text: &mut List<u8>,
    number: usize,
    fault: &StepFault,
) -> Result<(), NoMemory>
    ensures put { OnOk result (text.new ≡ text.old ++ refused_line number fault.now) }
    ensures unchanged { OnErr result (text.new ≡ text.old) }
{
    let mut line = List::new(alloc);
    line.append(b"refused ")?;
    line.append_unsigned(number as u128)?;
    line.append(b": ")?;
    line.append(refusal_word(fault))?;
    line.push(b'\n')?;
    text.append(line.as_slice())
}

/// Appends the names of the rejected hypotheses.
fn put_names_among(text: &mut List<u8>, case: &Case, rejections: &[Settled]) -> Result<(), NoMemory>
    ensures { OnOk result (text.new ≡ text.old ++ names_where (content case.now) (among rejections.now)) }
{
    put_names(text, case, |j| is_among(rejections, j))
}

/// Appends the line of how many looks have arrived, and of the names of the rejected hypotheses. When out of memory, the text stays
/// as it was.
#[tactic(auto, unfolding(crate::specs::StudyReport::shown_line))]
pub fn put_shown(
    alloc: Global,
    text: &mut List<u8>,
    case: &Case,
    looks: usize,
    rejections: &[Settled],
) -> Result<(), NoMemory>
    ensures put { OnOk result (text.new ≡ text.old ++ shown_line (content case.now) looks rejections.now) }
    ensures unchanged { OnErr result (text.new ≡ text.old) }
{
    let mut line = List::new(alloc);
    line.append(b"show looks ")?;
    line.append_unsigned(looks as u128)?;
    line.append(b" rejected")?;
    put_names_among(&mut line, case, rejections)?;
    line.push(b'\n')?;
    text.append(line.as_slice())
}

/// Returns the lines before the replies, or `NoMemory`: the level, and the number of looks that the keeper had before.
#[tactic(auto, unfolding(crate::specs::StudyReport::opened_lines))]
pub fn opened_text(alloc: Global, case: &Case, records: usize) -> Result<List<u8>, NoMemory>
    ensures { IfOk result (λ text. text ≡ opened_lines (content case.now) records) }
{
    let mut text = List::new(alloc);
    put_alpha(&mut text, case)?;
    text.append(b"records ")?;
    text.append_unsigned(records as u128)?;
    text.push(b'\n')?;
    Ok(text)
}
