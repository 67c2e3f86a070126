//! Stages in canonical texts.
ghost use Rattle.std.specs.Prelude.{◌≡◌, ◌<◌, ◌++◌, true, map, length, OnOk};
ghost use Rattle.std.specs.List.{list_all};
ghost use Rattle.case_model.specs.Draft.{arrives_among};
ghost use Rattle.case_model.specs.Content.{AreStages};
ghost use Rattle.text_lines.specs.Spelling.{text_of};
ghost use Rattle.edge_text.specs.CanonicalText.{
  stages_words,
  spend_words,
  table_words,
  arrive_words,
  spend_lines,
  spends_lines,
  stages_lines,
};
ghost use Rattle.edge_text.specs.View.{line_of};

use crate::write_words::{put_name, put_number, put_numbers, put_whole, put_word};
use case_model::{Arrival, Spend, SpendStep, Stages};
use field_core::{List, NoMemory, Text};
use fraction::Fraction;

/// Appends the number of stages.
fn put_count(text: &mut List<u8>, count: usize) -> Result<(), NoMemory>
    ensures { OnOk result (text.new ≡ text.old ++ line_of (stages_words count)) }
{
    text.append(b"stages")?;
    put_whole(text, count)?;
    text.push(b'\n')
}

/// Appends the fractions that a hypothesis spends.
fn put_fractions(text: &mut List<u8>, name: &[u8], fractions: &[Fraction]) -> Result<(), NoMemory>
    ensures { OnOk result (text.new ≡ text.old ++ line_of (spend_words name.now fractions.now)) }
{
    text.append(b"spend")?;
    put_word(text, name)?;
    put_numbers(text, fractions)?;
    text.push(b'\n')
}

/// Appends a step of the table of a hypothesis.
fn put_step(text: &mut List<u8>, name: &[u8], step: &SpendStep) -> Result<(), NoMemory>
    ensures { OnOk result (text.new ≡ text.old ++ line_of (table_words name.now step.now)) }
{
    text.append(b"table")?;
    put_word(text, name)?;
    put_number(text, &step.from)?;
    put_numbers(text, step.levels.as_slice())?;
    text.push(b'\n')
}

/// Appends the steps of the table of a hypothesis.
fn put_steps(text: &mut List<u8>, name: &[u8], steps: &[SpendStep]) -> Result<(), NoMemory>
    ensures { OnOk result (text.new ≡ text.old ++ text_of (map (table_words name.now) steps.now)) }
{
    for step in steps {
        put_step(text, name, step)?;
    }
    Ok(())
}

/// Appends what a hypothesis spends.
#[tactic(auto, unfolding(crate::specs::CanonicalText::spend_lines))]
fn put_spend(text: &mut List<u8>, name: &[u8], spend: &Spend) -> Result<(), NoMemory>
    ensures { OnOk result (text.new ≡ text.old ++ text_of (spend_lines name.now spend.now)) }
{
    match spend {
        Spend::Shares(fractions) => put_fractions(text, name, fractions.as_slice()),
        Spend::Table(steps) => put_steps(text, name, steps.as_slice()),
    }
}

/// Appends what the hypotheses spend, one by one.
fn put_spends(text: &mut List<u8>, names: &[Text], stages: &Stages) -> Result<(), NoMemory>
    requires { length stages.now.spend ≡ length names.now }
    ensures { OnOk result (text.new ≡ text.old ++ text_of (spends_lines names.now stages.now.spend)) }
{
    for (i, name) in names.iter().enumerate() {
        put_spend(text, name.as_bytes(), stages.spend(i))?;
    }
    Ok(())
}

/// Appends a p-value that arrived.
fn put_arrival(text: &mut List<u8>, names: &[Text], arrival: &Arrival) -> Result<(), NoMemory>
    requires { arrival.now.hypothesis < length names.now }
    ensures { OnOk result (text.new ≡ text.old ++ line_of (arrive_words names.now arrival.now)) }
{
    text.append(b"arrive")?;
    put_name(text, names, arrival.hypothesis)?;
    put_whole(text, arrival.stage)?;
    put_number(text, &arrival.p)?;
    text.push(b'\n')
}

/// Appends the p-values that arrived, in their order.
fn put_arrivals(text: &mut List<u8>, names: &[Text], arrivals: &[Arrival]) -> Result<(), NoMemory>
    requires { list_all (arrives_among (length names.now)) arrivals.now ≡ true }
    ensures { OnOk result (text.new ≡ text.old ++ text_of (map (arrive_words names.now) arrivals.now)) }
{
    for arrival in arrivals {
        put_arrival(text, names, arrival)?;
    }
    Ok(())
}

/// Appends the stages of hypotheses of these names.
#[tactic(auto, unfolding(crate::specs::CanonicalText::stages_lines))]
pub fn put_stages(text: &mut List<u8>, names: &[Text], stages: &Stages) -> Result<(), NoMemory>
    requires { AreStages (length names.now) stages.now }
    ensures { OnOk result (text.new ≡ text.old ++ text_of (stages_lines names.now stages.now)) }
{
    put_count(text, stages.count())?;
    put_spends(text, names, stages)?;
    put_arrivals(text, names, stages.arrivals())
}
