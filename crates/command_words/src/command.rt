//! Commands.
ghost use Rattle.std.specs.Prelude.{◌≡◌};

use crate::format::{CaseFormat, Format};
use crate::graph_name::SizedGraph;
use sequential::Priority;

/// What is to be done with a case alone.
#[derive(Clone, Copy, PartialEq, Eq, Debug)]
pub enum CaseTask {
    Test(Priority),
    Weights,
    Bounds,
    Simes,
    Evidence(Priority),
    Stages,
    Canon(Format),
}

/// What is to be done.
#[derive(Clone, Copy)]
pub enum Command {
    OnCase(CaseFormat, CaseTask),
    /// The case of a named graph.
    Catalogue(SizedGraph),
    /// A check of evidence for a case; the word at the place `file`, from 0, names the file of the evidence.
    Check { format: CaseFormat, file: usize },
    /// A sample of a size, from a seed.
    Sample { size: u64, seed: u64 },
    Help,
}

/// What a study is to do: how its case is written, which word names the file of its commands, and the path of the file of its
/// looks. The word's place counts from 0.
#[derive(Clone, Copy)]
pub struct StudyCall<'a> {
    pub format: CaseFormat,
    pub file: usize,
    pub store: Option<&'a str>,
}

impl Command {
    ghost use Rattle.command_words.specs.Asked.{asked, file_of};

    /// Returns the place, from 0, of the word that names the file of a proof.
    #[tactic(auto, unfolding(crate::specs::Asked::file_of))]
    pub fn file(&self) -> Option<usize>
        ensures { result ≡ file_of (asked self.now) }
    {
        match self {
            Command::Check { file, .. } => Some(*file),
            Command::OnCase(_, _)
            | Command::Catalogue(_)
            | Command::Sample { .. }
            | Command::Help => None,
        }
    }
}
