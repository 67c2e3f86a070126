//! Lines that several commands put.
ghost use Rattle.std.specs.Prelude.{◌≡◌, ◌==◌, ◌<◌, ◌++◌, ℕ, Bool, OnOk, length};
ghost use Rattle.std.specs.Fmt.{decimal};
ghost use Rattle.std.specs.List.{list_any};
ghost use Rattle.answers.specs.Lines.{line};
ghost use Rattle.case_model.specs.CaseView.{content};
ghost use Rattle.report.specs.Deciding.{Decides};
ghost use Rattle.report.specs.TestReport.{spaced_name, name_if, names_where, alpha_line, rejected_line};

use crate::lookups::name_at;
use case_model::Case;
use field_core::{List, NoMemory};
use sequential::StepLine;

/// Appends a line of words and a number.
pub(crate) fn put_count(text: &mut List<u8>, words: &[u8], n: usize) -> Result<(), NoMemory>
    ensures { OnOk result (text.new ≡ text.old ++ line (words.now ++ decimal n)) }
{
    text.append(words)?;
    text.append_unsigned(n as u128)?;
    text.push(b'\n')
}

/// Appends a space and the name of the hypothesis at a position, and the space alone past the last one.
pub(crate) fn put_name(text: &mut List<u8>, case: &Case, j: usize) -> Result<(), NoMemory>
    ensures { OnOk result (text.new ≡ text.old ++ spaced_name (content case.now) j) }
{
    text.push(b' ')?;
    text.append(name_at(case, j))
}

/// Appends a space and the name of the hypothesis at a position if `is_put`, and else nothing.
fn put_name_if(text: &mut List<u8>, case: &Case, j: usize, is_put: bool) -> Result<(), NoMemory>
    ensures { OnOk result (text.new ≡ text.old ++ name_if (content case.now) j is_put) }
{
    if !is_put {
        return Ok(());
    }
    put_name(text, case, j)
}

/// Appends a space and the name of each hypothesis for which `test` is true, by ascending position.
pub(crate) fn put_names<T: Fn(usize) -> bool>(
    text: &mut List<u8>,
    case: &Case,
    test: T,
) -> Result<(), NoMemory>
    requires { (j : ℕ) → j < length (content case.now).names → T.pre test j }
    ensures { (f : ℕ → Bool) → Decides (length (content case.now).names) (T.post test) f
        → OnOk result (text.new ≡ text.old ++ names_where (content case.now) f) }
{
    for j in 0..case.size() {
        put_name_if(text, case, j, test(j))?;
    }
    Ok(())
}

/// Appends the line of the level.
#[tactic(auto, unfolding(crate::specs::TestReport::alpha_line))]
pub(crate) fn put_alpha(text: &mut List<u8>, case: &Case) -> Result<(), NoMemory>
    ensures { OnOk result (text.new ≡ text.old ++ alpha_line (content case.now)) }
{
    text.append(b"alpha ")?;
    case.alpha().print(text)?;
    text.push(b'\n')
}

/// Whether the hypothesis at a position is that of a step.
fn is_rejected(steps: &[StepLine], j: usize) -> bool
    ensures { result ≡ list_any (λ step. step.hypothesis == j) steps.now }
{
    steps.iter().any(|step| step.hypothesis == j)
}

/// Appends the line of the rejected hypotheses.
#[tactic(auto, unfolding(crate::specs::TestReport::rejected_line))]
pub(crate) fn put_rejected(
    text: &mut List<u8>,
    case: &Case,
    steps: &[StepLine],
) -> Result<(), NoMemory>
    ensures { OnOk result (text.new ≡ text.old ++ rejected_line (content case.now) steps.now) }
{
    text.append(b"rejected")?;
    put_names(text, case, |j| is_rejected(steps, j))?;
    text.push(b'\n')
}
