//! Places in a text, and the step from one to the next.
ghost use Rattle.std.specs.Prelude.{◌≡◌, true, false, None, Ok, [], ◌∷◌, IfOk};
ghost use Rattle.field_core.specs.Answers.{and_then};
ghost use Rattle.edge_text.specs.declared.place.Place.TheVariants as at;
ghost use Rattle.edge_text.specs.Drafts.{edgeless, with_stages, with_spend, counted};
ghost use Rattle.edge_text.specs.Grammar.{one};
ghost use Rattle.edge_text.specs.Places.{block, stages, next_block, due, unless_due, spends, spend_or_arrive, further, step, whole};
ghost use Rattle.edge_text.specs.View.{Gives};
ghost use Rattle.edge_text.specs.WordReading.{first_step};
ghost use Rattle.text_lines.specs.Words.{words_of};
ghost use Rattle.case_model.specs.declared.spend.Spend.TheVariants.{Table};
ghost use Rattle.edge_text.specs.declared.fault.LineKind.TheVariants.{Unexpected};
ghost use Rattle.edge_text.specs.declared.fault.TextFault.TheVariants as faults;

use crate::so_far::SoFar;
use crate::spend_words::StepWords;
use crate::{LineKind, TextFault, rules};
use case_model::{Draft, DraftComponent, DraftStages, Spend, SpendStep};
use field_core::{List, NoMemory, Number};
use fraction::Fraction;
use std::alloc::Global;
use text_lines::{Line, Words};

/// A place in a text: which line is allowed next, and what the lines before it denote.
///
/// The components of a draft are those before the one that is being read.
#[derive(Drop)]
pub enum Place {
    /// The level.
    Alpha,
    /// The names, after this level.
    Names(Fraction),
    /// The p-values, or else the first block.
    Values(SoFar),
    /// The first block.
    Block(SoFar),
    /// The weights of a component of this share.
    Weights(SoFar, Fraction),
    /// An edge of this component, or the stages. If blocks have shares, the next block is allowed too.
    Edges(bool, SoFar, DraftComponent),
    /// What the next hypothesis spends, in the order of the names. Once each has its spend, a p-value that arrived.
    Spends(SoFar, DraftStages),
    /// A further step of the table of the next hypothesis, or a line that is allowed after the table.
    Steps(SoFar, DraftStages, List<SpendStep>),
}

/// Returns the fault of a line whose first word is not allowed here.
fn unexpected(line: &Line) -> TextFault
    ensures { result ≡ faults.Line line.now.number Unexpected }
{
    TextFault::Line(line.number, LineKind::Unexpected)
}

/// Returns 1, the share of a component that is alone.
fn one() -> Fraction
    ensures { result ≡ one }
{
    Fraction::one()
}

/// Returns a component without edges.
fn edgeless(alloc: Global, share: Fraction, weights: List<Fraction>) -> DraftComponent
    ensures { result ≡ edgeless share weights }
{
    DraftComponent {
        share,
        weights,
        edges: List::new(alloc),
    }
}

impl Place {
    /// Returns the place after a line, or the fault of a line that is not allowed here.
    pub fn step(self, alloc: Global, line: &Line) -> Result<Place, TextFault>
        ensures { Gives line.now.number (step self line.now.text.now) result }
    {
        match self {
            Place::Alpha => alpha(line),
            Place::Names(alpha) => names(alloc, alpha, line),
            Place::Values(draft) => values(alloc, draft, line),
            Place::Block(draft) => block(alloc, draft, line),
            Place::Weights(draft, share) => weights(alloc, draft, share, line),
            Place::Edges(shared, draft, component) => edges(alloc, shared, draft, component, line),
            Place::Spends(draft, stages) => spends(alloc, draft, stages, line),
            Place::Steps(draft, stages, steps) => steps_on(alloc, draft, stages, steps, line),
        }
    }

    /// Returns the draft of a text that ends at this place, or the fault that it ends too early.
    ///
    /// `end` is the number of the line that would follow.
    pub fn whole(self, end: usize) -> Result<Draft, TextFault>
        ensures { Gives end (whole self) result }
    {
        match self {
            Place::Edges(_, draft, component) => Ok(draft.finish(component)?),
            Place::Spends(draft, stages) => staged(draft, stages, end),
            Place::Steps(draft, stages, steps) => {
                let stages = with_spend(stages, Spend::Table(steps))?;
                staged(draft, stages, end)
            }
            _ => Err(TextFault::Line(end, LineKind::Ended)),
        }
    }
}

/// Reads a line at which the level is required.
fn alpha(line: &Line) -> Result<Place, TextFault>
    ensures { Gives line.now.number (step at.Alpha line.now.text.now) result }
{
    let Some(words) = line.words_after(b"alpha") else {
        return Err(unexpected(line));
    };
    Ok(Place::Names(rules::number(line, words)?))
}

/// Reads a line at which the names are required.
fn names(alloc: Global, alpha: Fraction, line: &Line) -> Result<Place, TextFault>
    ensures { Gives line.now.number (step (at.Names alpha) line.now.text.now) result }
{
    let Some(words) = line.words_after(b"hypotheses") else {
        return Err(unexpected(line));
    };
    let names = rules::copies(alloc, words)?;
    Ok(Place::Values(SoFar::new(alloc, alpha, names)?))
}

/// Reads a line at which the p-values or the first block is allowed.
fn values(alloc: Global, draft: SoFar, line: &Line) -> Result<Place, TextFault>
    ensures { Gives line.now.number (step (at.Values draft) line.now.text.now) result }
{
    let Some(words) = line.words_after(b"p") else {
        return block(alloc, draft, line);
    };
    let p = rules::given(alloc, line, words)?;
    Ok(Place::Block(draft.with_p(p)))
}

/// Reads a line at which the first block is required.
fn block(alloc: Global, draft: SoFar, line: &Line) -> Result<Place, TextFault>
    ensures { Gives line.now.number (block draft line.now.text.now) result }
{
    if let Some(words) = line.words_after(b"component") {
        let share = rules::number(line, words)?;
        return Ok(Place::Weights(draft, share));
    }
    let Some(words) = line.words_after(b"weights") else {
        return Err(unexpected(line));
    };
    let weights = rules::numbers(alloc, line, words)?;
    let component = edgeless(alloc, one(), weights);
    Ok(Place::Edges(false, draft, component))
}

/// Reads a line at which the weights of a component are required.
fn weights(alloc: Global, draft: SoFar, share: Fraction, line: &Line) -> Result<Place, TextFault>
    ensures { Gives line.now.number (step (at.Weights draft share) line.now.text.now) result }
{
    let Some(words) = line.words_after(b"weights") else {
        return Err(unexpected(line));
    };
    let weights = rules::numbers(alloc, line, words)?;
    let component = edgeless(alloc, share, weights);
    Ok(Place::Edges(true, draft, component))
}

/// Reads a line at which an edge of the component is allowed, or what follows its edges.
fn edges(
    alloc: Global,
    shared: bool,
    draft: SoFar,
    mut component: DraftComponent,
    line: &Line,
) -> Result<Place, TextFault>
    ensures { Gives line.now.number (step (at.Edges shared draft component) line.now.text.now) result }
{
    let Some(words) = line.words_after(b"edge") else {
        return next_block(alloc, shared, draft, component, line);
    };
    let edge = rules::edge(line, words, &draft)?;
    component.edges.push(edge)?;
    Ok(Place::Edges(shared, draft, component))
}

/// Reads a line after the edges of a component: the next block if blocks have shares, or the stages.
fn next_block(
    alloc: Global,
    shared: bool,
    draft: SoFar,
    component: DraftComponent,
    line: &Line,
) -> Result<Place, TextFault>
    ensures { Gives line.now.number (next_block shared draft component line.now.text.now) result }
{
    if !shared {
        return stages(alloc, draft, component, line);
    }
    let Some(words) = line.words_after(b"component") else {
        return stages(alloc, draft, component, line);
    };
    let share = rules::number(line, words)?;
    Ok(Place::Weights(draft.with_component(component)?, share))
}

/// Returns stages without spends and p-values.
fn counted(alloc: Global, count: u64) -> DraftStages
    ensures { result ≡ counted count }
{
    DraftStages {
        count,
        spend: List::new(alloc),
        arrivals: List::new(alloc),
    }
}

/// Reads a line at which the stages are allowed.
fn stages(
    alloc: Global,
    draft: SoFar,
    component: DraftComponent,
    line: &Line,
) -> Result<Place, TextFault>
    ensures { Gives line.now.number (stages draft component line.now.text.now) result }
{
    let Some(words) = line.words_after(b"stages") else {
        return Err(unexpected(line));
    };
    let count = rules::count(line, words)?;
    let draft = draft.with_component(component)?;
    Ok(Place::Spends(draft, counted(alloc, count)))
}

/// Returns the stages with what one more hypothesis spends.
fn with_spend(mut stages: DraftStages, spend: Spend) -> Result<DraftStages, NoMemory>
    ensures { IfOk result (λ more. more ≡ with_spend stages spend) }
{
    stages.spend.push(spend)?;
    Ok(stages)
}

/// Returns the draft with its stages, if each hypothesis has its spend.
fn staged(draft: SoFar, stages: DraftStages, end: usize) -> Result<Draft, TextFault>
    ensures { Gives end (unless_due (due draft stages) (with_stages draft stages)) result }
{
    if draft.name(stages.spend.len()).is_some() {
        return Err(TextFault::Line(end, LineKind::Ended));
    }
    Ok(draft.staged(stages))
}

/// Reads a line at which the spend of the next hypothesis is required, or a p-value that arrived is allowed.
fn spends(alloc: Global, draft: SoFar, stages: DraftStages, line: &Line) -> Result<Place, TextFault>
    ensures { Gives line.now.number (spends draft stages line.now.text.now) result }
{
    let Some(name) = draft.name(stages.spend.len()) else {
        return arrive(draft, stages, line);
    };
    if let Some(words) = line.words_after(b"spend") {
        let shares = rules::shares(alloc, line, words, name)?;
        let stages = with_spend(stages, Spend::Shares(shares))?;
        return Ok(Place::Spends(draft, stages));
    }
    let Some(words) = line.words_after(b"table") else {
        return Err(unexpected(line));
    };
    let steps = first_steps(alloc, line, words, name)?;
    Ok(Place::Steps(draft, stages, steps))
}

/// Returns the list of the first step of a table.
fn first_steps(
    alloc: Global,
    line: &Line,
    words: Words,
    name: &[u8],
) -> Result<List<SpendStep>, TextFault>
    ensures { Gives line.now.number (and_then (first_step name.now (words_of words.entry)) (λ step. Ok (step ∷ []))) result }
{
    let step = rules::first_step(alloc, line, words, name)?;
    let mut steps = List::new(alloc);
    steps.push(step)?;
    Ok(steps)
}

/// Reads a line at which a p-value that arrived is allowed.
fn arrive(draft: SoFar, mut stages: DraftStages, line: &Line) -> Result<Place, TextFault>
    ensures { Gives line.now.number (spend_or_arrive None draft stages line.now.text.now) result }
{
    let Some(words) = line.words_after(b"arrive") else {
        return Err(unexpected(line));
    };
    let arrival = rules::arrival(line, words, &draft)?;
    stages.arrivals.push(arrival)?;
    Ok(Place::Spends(draft, stages))
}

/// Reads a line at which a further step is allowed, or what follows the table.
fn steps_on(
    alloc: Global,
    draft: SoFar,
    stages: DraftStages,
    steps: List<SpendStep>,
    line: &Line,
) -> Result<Place, TextFault>
    ensures { Gives line.now.number (step (at.Steps draft stages steps) line.now.text.now) result }
{
    let Some(words) = line.words_after(b"table") else {
        return behind_table(alloc, draft, stages, steps, line);
    };
    further(alloc, draft, stages, steps, line, words)
}

/// Reads a line of a table: a further step of the open one, or a line that follows it.
fn further(
    alloc: Global,
    draft: SoFar,
    stages: DraftStages,
    mut steps: List<SpendStep>,
    line: &Line,
    words: Words,
) -> Result<Place, TextFault>
    ensures { Gives line.now.number
        (further draft stages steps (words_of words.entry) (spends draft (with_spend stages (Table steps)) line.now.text.now)) result }
{
    let Some(found) = StepWords::of(words) else {
        return Err(TextFault::Line(line.number, LineKind::WordCount));
    };
    if !draft.is_name(stages.spend.len(), found.name) {
        return behind_table(alloc, draft, stages, steps, line);
    }
    steps.push(rules::step_of(alloc, line, found.from, found.levels)?)?;
    Ok(Place::Steps(draft, stages, steps))
}

/// Reads a line after the open table.
fn behind_table(
    alloc: Global,
    draft: SoFar,
    stages: DraftStages,
    steps: List<SpendStep>,
    line: &Line,
) -> Result<Place, TextFault>
    ensures { Gives line.now.number (spends draft (with_spend stages (Table steps)) line.now.text.now) result }
{
    let stages = with_spend(stages, Spend::Table(steps))?;
    spends(alloc, draft, stages, line)
}
