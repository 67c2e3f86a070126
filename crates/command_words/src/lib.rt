//! What the words of a call ask for.
//!
//! `asked_in` in `specs/Words.antt` is what words ask for, as one function: a command, or the number of the first word at which
//! they fail. `study_in` is the same of the command that keeps looks, which has a top call of its own.
//!
//! Proved: `read_words` and `read_study` return these functions, each by its only clause, by a table of commands, options and
//! values. `asks_study` says which of the two the words are for.
#![tactic(auto)]

mod argument;
mod command;
mod count;
mod format;
mod given;
mod graph_name;
mod level;
mod priority;
mod reading;
mod verb;
mod word;

pub use command::{CaseTask, Command, StudyCall};
pub use format::{CaseFormat, Format};
pub use graph_name::SizedGraph;
pub use reading::{asks_study, read_study, read_words};
