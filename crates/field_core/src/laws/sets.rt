//! Laws of sets as numbers, of their sizes and of their order.

ghost use Rattle.field_core.specs.SetStatements.{
  SetsHaveNumbers,
  NumbersAreOfSets,
  DroppingTakesOne,
  AddingGivesOne,
  WholeHasAll,
  SubsetsAreSmaller,
  LeftOutLeavesTheSet,
  AscendingListsAreLeftOut,
  ListsAreOrdered,
  SetsOfTwoInOrder,
};

/// The sets of some hypotheses are the numbers below a power of two.
pub fn sets_are_numbers()
    ensures sets { SetsHaveNumbers }
    ensures numbers { NumbersAreOfSets }
{}

/// Dropping a member of a set lowers its size by one, adding another hypothesis raises it by one, and the set of all `m`
/// hypotheses has the size `m`. A subset is no larger than its set, and has all of its members or lacks one.
pub fn sizes_count_members()
    ensures dropping { DroppingTakesOne }
    ensures adding { AddingGivesOne }
    ensures whole { WholeHasAll }
    ensures subsets { SubsetsAreSmaller }
{}

/// A set is given by the ascending list of what it leaves out, and these lists are in a total order.
pub fn sets_are_lists_in_order()
    ensures left { LeftOutLeavesTheSet }
    ensures lists { AscendingListsAreLeftOut }
    ensures order { ListsAreOrdered }
    ensures two { SetsOfTwoInOrder }
{}
