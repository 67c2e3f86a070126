//! Valid cases, and what the closed test decides of them.
//!
//! Definitions, with laws that are proved:
//! - The entangled graph, the intersection weight, the local test and the closed test at a level (`src/laws.rt`). Intersection
//!   weights exist, are unique, sum to at most 1 and don't fall when the set shrinks. A complete legal order contains exactly
//!   what the closed test rejects, and all complete orders agree. Consonance is proved once for any local test that survives a
//!   greater weight.
//! - A valid content, defined by what must hold of it, apart from the order of the tests. By the law
//!   `faultless_drafts_are_valid` a draft whose edges and arrivals are of its hypotheses has no fault exactly if its content is
//!   valid and it is one case.
//! - Least rejecting levels, bounds on true discoveries over any table, and the staged test with its spends (`src/laws/`).
//! - The textbook rules (Holm, fixed sequence, fallback) and their graphs; the laws on them are in textbook.
//!
//! Proved of the code:
//! - `Draft::finish`: an accepted draft is kept as it is, with its edges in tables (`case`). A draft is accepted only if it has
//!   no fault, and refused with the first fault of `case_fault`, or when out of memory (`faultless`, `fault`). A refusal gives
//!   the names back (`names`).
//! - `Draft::has_known_ends`, `has_known_arrivals`.
//! - `Case::size` and `components` (`count`, `range`), `names`, `name`, `alpha`, `share`, `weight`, `edge`, `edges`, `inputs`,
//!   `is_plain`, `position`.
//! - `least_weight`, `passes_from` and `passes`: the local test of one hypothesis.
//! - `Spend::copy`, and `Spend::meets`: whether a p-value meets the level of a stage at a weight.
//! - `NameIndex::build` and `position`. `SetTable`: an answer for each set of at most 16 hypotheses. `is_level`, `is_p_value`.
//!
//! Tables of drafts and of positions in an index, with values by hand, are in tests_cases. Some drafts have one of the faults or
//! two of them, so that each fault occurs; the others make cases, also with several components and with stages.
#![tactic(auto)]

mod case;
mod component;
mod components;
mod draft;
mod draft_component;
mod draft_edge;
mod draft_stages;
mod entry;
mod fault;
mod first_faults;
mod fraction_tests;
mod inputs;
pub mod laws;
mod local_test;
mod name_index;
mod names;
mod p_values;
mod row_sums;
mod set_table;
mod sets;
mod spend;
mod spend_step;
mod stage_levels;
mod sums;

pub use case::Case;
pub use component::Component;
pub use draft::Draft;
pub use draft_component::DraftComponent;
pub use draft_edge::DraftEdge;
pub use draft_stages::{Arrival, DraftStages};
pub use entry::Entry;
pub use fault::{CaseFault, PartPlace, Refused};
pub use fraction_tests::{is_level, is_p_value, is_short_level};
pub use inputs::{Inputs, Stages};
pub use local_test::{least_weight, passes, passes_from};
pub use name_index::NameIndex;
pub use set_table::SetTable;
pub use sets::{added, dropped, holds};
pub use spend::Spend;
pub use spend_step::SpendStep;
