//! Tables of answers for all sets of some hypotheses.
ghost use Rattle.std.specs.Prelude.{◌≡◌, ◌≤◌, ◌^◌, length};

use field_core::{List, NoMemory};
use std::alloc::Global;

/// An answer, true or false, for each set of at most 16 hypotheses. A set is denoted by a number, whose bit `i` is 1 if the
/// hypothesis `i` is in the set.
#[derive(Drop)]
pub struct SetTable {
    size: usize,
    answers: List<bool>,
    ghost few: { size ≤ 16 },
    ghost room: { length answers ≡ 2 ^ size },
}

#[tactic(auto, unfolding(crate::specs::SetTableView::answer_of))]
impl SetTable {
    ghost use Rattle.std.specs.Prelude.{◌≡◌, ◌≢◌, ◌<◌, ◌≤◌, ◌^◌, ℕ, false, IfOk};
    ghost use Rattle.case_model.specs.SetTableView.{table_size, answer_of};

    /// Returns a table for `m` hypotheses, in which each answer is false.
    pub fn new(alloc: Global, m: usize) -> Result<SetTable, NoMemory>
        requires { m ≤ 16 }
        ensures size { IfOk result (λ t. table_size t ≡ m) }
        ensures answers { IfOk result (λ t. (n : ℕ) → answer_of t n ≡ false) }
    {
        let mut answers = Vec::new(alloc);
        answers.resize(1 << m, false)?;
        Ok(SetTable {
            size: m,
            answers: List::of(answers),
        })
    }

    /// Returns how many hypotheses there are.
    pub fn size(&self) -> usize
        ensures size { result ≡ table_size self.now }
        ensures few { result ≤ 16 }
    {
        self.size
    }

    /// Whether the answer for a set is true.
    pub fn get(&self, set: u32) -> bool
        requires { set < 2 ^ table_size self.now }
        ensures { result ≡ answer_of self.now set }
    {
        self.answers.as_slice()[set as usize]
    }

    /// Puts the answer for a set. The others stay.
    pub fn put(&mut self, set: u32, answer: bool)
        requires { set < 2 ^ table_size self.old }
        ensures size { table_size self.new ≡ table_size self.old }
        ensures put { answer_of self.new set ≡ answer }
        ensures others { (n : ℕ) → n ≢ set → answer_of self.new n ≡ answer_of self.old n }
    {
        self.answers.set(set as usize, answer);
    }
}
