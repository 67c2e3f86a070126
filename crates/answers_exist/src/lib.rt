//! Each call of the program has an answer, whatever it is given.
//!
//! `run` and `run_study` promise that what they put is an answer of `outcome` or of `study_outcome`, unless out of memory. Both
//! are relations, since a decision, a table or a look is described by what it is, and not computed. Therefore it has to be proved
//! that they leave no case out. A stage of a function ends as each function does (`stage_ends` of `answers`). Each other stage
//! gives a value or refuses: JSON, the needs of a command, and what each command writes. A run of removals is followed
//! hypothesis by hypothesis, until the next operation is undefined or no hypothesis is legal.
//!
//! Proved:
//! - `calls_have_an_answer`: for all words, cases and proofs there is an answer that they require.
//! - `studies_have_an_outcome`: for all words, cases, commands and kept looks a study has an outcome.
//! - `written_runs_end`: decisions, adjusted values, looks, the runs of all sets and flow runs end with a result, or at the first
//!   operation that is undefined.
#![tactic(auto)]

pub mod laws;
