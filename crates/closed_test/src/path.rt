//! The way through all sets in their order: a set, and the list of the hypotheses that it leaves out.
ghost use Rattle.std.specs.Prelude.{◌<◌, ◌≤◌, vec_capacity};

use case_model::{added, dropped};
use field_core::NoMemory;
use std::alloc::Global;

/// A set of some hypotheses, of which there are at most 16, and the list of those that it leaves out, ascending.
#[derive(Drop)]
pub struct Path {
    size: usize,
    set: u32,
    left: Vec<usize>,
    ghost some: { 0 < size },
    ghost few: { size ≤ 16 },
    ghost room: { size ≤ vec_capacity left },
}

impl Path {
    ghost use Rattle.std.specs.Prelude.{◌≡◌, ◌<◌, ◌≤◌, ◌++◌, [], ◌∷◌, length, IfOk, IfSome, IfNone, MatchOption};
    ghost use Rattle.field_core.specs.OrderOfSets.{ComesBefore, IsAscending, IsListStep, IsLastList};
    ghost use Rattle.closed_test.specs.Paths.{number_without};
    ghost use Rattle.closed_test.specs.PathView.{path_size, left_of, IsPath};

    /// Returns the path of all sets of `size` hypotheses, from 1 to 16, at the first set, that of all hypotheses.
    pub fn new(alloc: Global, size: usize) -> Result<Path, NoMemory>
        requires some { 0 < size }
        requires few { size ≤ 16 }
        ensures size { IfOk result (λ p. path_size p ≡ size) }
        ensures path { IfOk result IsPath }
        ensures left { IfOk result (λ p. left_of p ≡ []) }
    {
        let left = Vec::with_capacity(alloc, size)?;
        let sets: u32 = 1 << size;
        Ok(Path {
            size,
            set: sets - 1,
            left,
        })
    }

    /// Returns the set.
    pub fn set(&self) -> u32
        requires { IsPath self.now }
        ensures { result ≡ number_without (path_size self.now) (left_of self.now) }
    {
        self.set
    }

    /// Returns how many hypotheses the set leaves out.
    pub fn depth(&self) -> usize
        ensures { result ≡ length (left_of self.now) }
    {
        self.left.len()
    }

    /// Leaves out `k` too, which comes after all hypotheses that are left out.
    fn leave_out(&mut self, k: usize)
        requires path { IsPath self.old }
        requires after { IsAscending self.old.size 0 (left_of self.old ++ k ∷ []) }
        ensures size { self.new.size ≡ self.old.size }
        ensures path { IsPath self.new }
        ensures left { left_of self.new ≡ left_of self.old ++ k ∷ [] }
    {
        self.set = dropped(self.set, k);
        self.left.push_reserved(k);
    }

    /// Takes the last hypothesis that is left out back into the set, and returns it; `None` if none is left out.
    fn take_back(&mut self) -> Option<usize>
        requires { IsPath self.old }
        ensures size { self.new.size ≡ self.old.size }
        ensures path { IsPath self.new }
        ensures left { MatchOption result (left_of self.old ≡ []) (λ k. left_of self.old ≡ left_of self.new ++ k ∷ []) }
        ensures none { MatchOption result (left_of self.new ≡ []) (λ k. length (left_of self.new) < length (left_of self.old)) }
    {
        match self.left.pop() {
            None => None,
            Some(last) => {
                self.set = added(self.set, last);
                Some(last)
            }
        }
    }

    /// Moves to the next set in the order of sets, and returns the last hypothesis that this set leaves out. Its other left-out
    /// hypotheses are the first ones of the list before. After the last set it returns `None`, and the path is at the first set again.
    pub fn step(&mut self) -> Option<usize>
        requires { IsPath self.old }
        ensures size { path_size self.new ≡ path_size self.old }
        ensures path { IsPath self.new }
        ensures step { MatchOption result (IsLastList (path_size self.old) (left_of self.old))
            (IsListStep (path_size self.old) (left_of self.old) (left_of self.new)) }
        ensures later { IfSome result (λ _. ComesBefore (left_of self.old) (left_of self.new)) }
        ensures done { IfNone result (left_of self.new ≡ []) }
    {
        match self.take_back() {
            None => {
                self.leave_out(0);
                Some(0)
            }
            Some(last) => {
                if last + 1 < self.size {
                    self.leave_out(last);
                    self.leave_out(last + 1);
                    return Some(last + 1);
                }
                match self.take_back() {
                    None => None,
                    Some(before) => {
                        self.leave_out(before + 1);
                        Some(before + 1)
                    }
                }
            }
        }
    }
}
