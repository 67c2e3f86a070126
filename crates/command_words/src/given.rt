//! What was given so far.

use crate::argument::Argument;
use crate::command::{CaseTask, Command, StudyCall};
use crate::count::count_spelt;
use crate::format::{CaseFormat, Format};
use crate::graph_name::GraphName;
use crate::level::level_spelt;
use crate::priority::priority_named;
use crate::verb::Verb;
use fraction::Fraction;
use sequential::Priority;

/// The values that were given so far. Beside those of `alpha` and `second` are the numbers, from 1, of the words with these
/// names. The place of the word that names a file counts from 0.
#[derive(Drop)]
pub(crate) struct Given<'a> {
    format: Option<Format>,
    alpha: Option<(Fraction, usize)>,
    priority: Option<Priority>,
    to: Option<Format>,
    size: Option<u64>,
    seed: Option<u64>,
    graph: Option<GraphName>,
    second: Option<(u64, usize)>,
    file: Option<usize>,
    store: Option<&'a str>,
}

impl<'a> Given<'a> {
    ghost use Rattle.std.specs.Prelude.{◌≡◌, ◌<◌, ◌^◌, ◌+◌};
    ghost use Rattle.std.specs.Option.{option_map};
    ghost use Rattle.command_words.specs.Asked.{asked, study_asked, encoding};
    ghost use Rattle.command_words.specs.Given.{
      given_content,
      is_given,
      nothing,
      with_text,
      encoding_of,
      on_case,
      check_of,
      catalogue_of,
      sample_of,
      study_of,
      asked_of,
      alpha_forbidden,
      second_forbidden,
      forbidden_word,
    };

    /// Returns nothing given.
    pub(crate) fn new() -> Given<'a>
        ensures { given_content result ≡ nothing }
    {
        Given {
            format: None,
            alpha: None,
            priority: None,
            to: None,
            size: None,
            seed: None,
            graph: None,
            second: None,
            file: None,
            store: None,
        }
    }

    /// Returns the same.
    pub(crate) fn copied(&self) -> Given<'a>
        ensures { given_content result ≡ given_content self.now }
    {
        Given { ..*self }
    }

    /// Whether an argument was given.
    pub(crate) fn has(&self, argument: Argument) -> bool
        ensures { result ≡ is_given (given_content self.now) argument }
    {
        match argument {
            Argument::Format => self.format.is_some(),
            Argument::Alpha => self.alpha.is_some(),
            Argument::Priority => self.priority.is_some(),
            Argument::To => self.to.is_some(),
            Argument::Size => self.size.is_some(),
            Argument::Seed => self.seed.is_some(),
            Argument::Graph => self.graph.is_some(),
            Argument::Second => self.second.is_some(),
            Argument::File => self.file.is_some(),
            Argument::Store => self.store.is_some(),
        }
    }

    /// Returns the same, and an argument with the value that a text spells, if it spells one. Its first word is at a place, which
    /// counts from 0.
    #[tactic(auto, unfolding(crate::specs::Given::with_text))]
    pub(crate) fn with(
        &self,
        verb: Verb,
        at: usize,
        argument: Argument,
        text: &'a str,
    ) -> Option<Given<'a>>
        requires { at + 1 < 2 ^ 64 }
        ensures { option_map given_content result ≡ with_text verb at argument text.now (given_content self.now) }
    {
        let mut given = Given { ..*self };
        match argument {
            Argument::Format => given.format = Some(verb.format(text)?),
            Argument::Alpha => given.alpha = Some((level_spelt(text)?, at + 1)),
            Argument::Priority => given.priority = Some(priority_named(text)?),
            Argument::To => given.to = Some(Format::named(text)?),
            Argument::Size => given.size = Some(count_spelt(text.as_bytes())?),
            Argument::Seed => given.seed = Some(count_spelt(text.as_bytes())?),
            Argument::Graph => given.graph = Some(GraphName::named(text)?),
            Argument::Second => given.second = Some((count_spelt(text.as_bytes())?, at + 1)),
            Argument::File => given.file = Some(at),
            Argument::Store => given.store = Some(text),
        }
        Some(given)
    }

    /// Returns how the case is written; `None` if its level is missing.
    #[tactic(auto, unfolding(crate::specs::Given::encoding_of))]
    fn case_format(&self) -> Option<CaseFormat>
        ensures { option_map encoding result ≡ encoding_of (given_content self.now) }
    {
        match self.format {
            None | Some(Format::Text) => Some(CaseFormat::Text),
            Some(Format::Csv) => self.alpha.map(|(alpha, _)| CaseFormat::Csv(alpha)),
            Some(Format::Json) => Some(CaseFormat::Json),
        }
    }

    /// Returns a task on the case; `None` if something is missing.
    #[tactic(auto, unfolding(crate::specs::Given::on_case))]
    fn on_case(&self, task: CaseTask) -> Option<Command>
        ensures { option_map asked result ≡ on_case (given_content self.now) task }
    {
        let format = self.case_format()?;
        Some(Command::OnCase(format, task))
    }

    /// Returns a named graph; `None` if something is missing.
    #[tactic(auto, unfolding(crate::specs::Given::catalogue_of))]
    fn catalogue(&self) -> Option<Command>
        ensures { option_map asked result ≡ catalogue_of (given_content self.now) }
    {
        let graph = self.graph?;
        let size = self.size?;
        let second = self.second.map(|(second, _)| second);
        graph.sized(size, second).map(Command::Catalogue)
    }

    /// Returns a check; `None` if something is missing.
    #[tactic(auto, unfolding(crate::specs::Given::check_of))]
    fn check(&self) -> Option<Command>
        ensures { option_map asked result ≡ check_of (given_content self.now) }
    {
        let format = self.case_format()?;
        let file = self.file?;
        Some(Command::Check { format, file })
    }

    /// Returns a sample; `None` if something is missing.
    #[tactic(auto, unfolding(crate::specs::Given::sample_of))]
    fn sample(&self) -> Option<Command>
        ensures { option_map asked result ≡ sample_of (given_content self.now) }
    {
        let size = self.size?;
        let seed = self.seed?;
        Some(Command::Sample { size, seed })
    }

    /// Returns what a study is to do; `None` if something is missing.
    #[tactic(auto, unfolding(crate::specs::Given::study_of))]
    pub(crate) fn study(&self) -> Option<StudyCall<'a>>
        ensures { option_map study_asked result ≡ study_of (given_content self.now) }
    {
        let format = self.case_format()?;
        Some(StudyCall {
            format,
            file: self.file?,
            store: self.store,
        })
    }

    /// Returns what a command that keeps no looks asks for with these arguments; `None` if something is missing.
    pub(crate) fn command(&self, verb: Verb) -> Option<Command>
        ensures { option_map asked result ≡ asked_of verb (given_content self.now) }
    {
        match verb {
            Verb::Test => self.on_case(CaseTask::Test(self.priority.unwrap_or(Priority::First))),
            Verb::Weights => self.on_case(CaseTask::Weights),
            Verb::Bounds => self.on_case(CaseTask::Bounds),
            Verb::Simes => self.on_case(CaseTask::Simes),
            Verb::Evidence => {
                self.on_case(CaseTask::Evidence(self.priority.unwrap_or(Priority::First)))
            }
            Verb::Stages => self.on_case(CaseTask::Stages),
            Verb::Check => self.check(),
            Verb::Canon => self.on_case(CaseTask::Canon(self.to.unwrap_or(Format::Text))),
            Verb::Catalogue => self.catalogue(),
            Verb::Sample => self.sample(),
            Verb::Study => None,
            Verb::Help => Some(Command::Help),
        }
    }

    /// Returns the number, from 1, of the word with the name `alpha`, if the format forbids it.
    #[tactic(auto, unfolding(crate::specs::Given::alpha_forbidden))]
    fn forbidden_alpha(&self) -> Option<usize>
        ensures { result ≡ alpha_forbidden (given_content self.now) }
    {
        match (self.format, self.alpha) {
            (Some(Format::Csv), _) | (_, None) => None,
            (_, Some((_, word))) => Some(word),
        }
    }

    /// Returns the number, from 1, of the word with the name `second`, if the graph forbids it.
    #[tactic(auto, unfolding(crate::specs::Given::second_forbidden))]
    fn forbidden_second(&self) -> Option<usize>
        ensures { result ≡ second_forbidden (given_content self.now) }
    {
        let graph = self.graph?;
        if graph.has_second() {
            return None;
        }
        let (_, word) = self.second?;
        Some(word)
    }

    /// Returns the number, from 1, of the word with the name of an option that the others forbid. No command takes both.
    #[tactic(auto, unfolding(crate::specs::Given::forbidden_word))]
    pub(crate) fn forbidden(&self) -> Option<usize>
        ensures { result ≡ forbidden_word (given_content self.now) }
    {
        match self.forbidden_alpha() {
            Some(word) => Some(word),
            None => self.forbidden_second(),
        }
    }
}
