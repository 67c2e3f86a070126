//! Texts whose lines are all allowed, and whose draft is refused.
use case_model::{CaseFault, PartPlace};
use field_core::{Op, Place, WideAt};

/// A text whose draft is refused, the names of the draft, and its fault.
pub struct RefusedText {
    pub text: &'static str,
    pub names: &'static [&'static str],
    pub fault: CaseFault,
}

/// Texts whose drafts are refused.
pub const REFUSED: &[RefusedText] = table! {
    RefusedText { text: "alpha 0.05\nhypotheses\nweights\n", names: &[], fault: CaseFault::NoHypothesis },
    RefusedText { text: "alpha 0.05\nhypotheses A B/C\nweights 1/2 1/2\n", names: &["A", "B/C"],
        fault: CaseFault::NameForm(1) },
    RefusedText { text: "alpha 0.05\nhypotheses A B\r\r\nweights 1/2 1/2\n", names: &["A", "B\r"],
        fault: CaseFault::NameForm(1) },
    RefusedText { text: "alpha 0.05\nhypotheses # A\nweights 1/2 1/2\n", names: &["#", "A"], fault: CaseFault::NameForm(0) },
    RefusedText { text: "alpha 0.05\nhypotheses A B A\nweights 1/3 1/3 1/3\n", names: &["A", "B", "A"],
        fault: CaseFault::DuplicateName(2) },
    RefusedText { text: "alpha 1/10001\nhypotheses A B\nweights 1/2 1/2\n", names: &["A", "B"],
        fault: CaseFault::PartTooLong(PartPlace::Alpha) },
    RefusedText { text: "alpha 0\nhypotheses A B\nweights 1/2 1/2\n", names: &["A", "B"], fault: CaseFault::AlphaRange },
    RefusedText { text: "alpha 0.05\nhypotheses A B\nweights\n", names: &["A", "B"], fault: CaseFault::WeightCount(0) },
    RefusedText { text: "alpha 0.05\nhypotheses A B\nweights 1/3 1/3 1/3\n", names: &["A", "B"],
        fault: CaseFault::WeightCount(0) },
    RefusedText { text: "alpha 0.05\nhypotheses A B\nweights 1/2 -1/2\n", names: &["A", "B"],
        fault: CaseFault::WeightRange(0, 1) },
    RefusedText { text: "alpha 0.05\nhypotheses A B\nweights 1/2 0.51\n", names: &["A", "B"], fault: CaseFault::WeightSum(0) },
    RefusedText { text: "alpha 0.05\nhypotheses A B C\nweights 1/1000000000000000000 1/999999999999999999 1/999999999999999997\n",
        names: &["A", "B", "C"], fault: CaseFault::Wide(WideAt { component: 0, place: Place::WeightSum, op: Op::Add }) },
    RefusedText { text: "alpha 0.05\nhypotheses A B\nweights 1/2 1/2\nedge B B 1/2\n", names: &["A", "B"],
        fault: CaseFault::SelfEdge(0, 1) },
    RefusedText { text: "alpha 0.05\nhypotheses A B\nweights 1/2 1/2\nedge B A 1/2\nedge A B 1/2\nedge B A 1/2\n",
        names: &["A", "B"], fault: CaseFault::RepeatedEdge(0, 1, 0) },
    RefusedText { text: "alpha 0.05\nhypotheses A B\nweights 1/2 1/2\nedge A B 0\nedge A B 1\n", names: &["A", "B"],
        fault: CaseFault::RepeatedEdge(0, 0, 1) },
    RefusedText { text: "alpha 0.05\nhypotheses A B\nweights 1/2 1/2\nedge A B 1.01\n", names: &["A", "B"],
        fault: CaseFault::EdgeRange(0, 0, 1) },
    RefusedText { text: "alpha 0.05\nhypotheses A B\nweights 1/2 1/2\nedge A B -1/2\n", names: &["A", "B"],
        fault: CaseFault::EdgeRange(0, 0, 1) },
    RefusedText { text: "alpha 0.05\nhypotheses A B\nweights 1/2 1/2\nedge A B 1\nedge B A 1 + \\epsilon\n", names: &["A", "B"],
        fault: CaseFault::EdgeRange(0, 1, 0) },
    RefusedText { text: "alpha 0.05\nhypotheses A B\nweights 1/2 1/2\nedge A B \\epsilon^2 - \\epsilon\n", names: &["A", "B"],
        fault: CaseFault::EdgeRange(0, 0, 1) },
    RefusedText { text: "alpha 0.05\nhypotheses A B\nweights 1/2 1/2\nedge B B \\epsilon\n", names: &["A", "B"],
        fault: CaseFault::SelfEdge(0, 1) },
    RefusedText { text: "alpha 0.05\nhypotheses A B C\nweights 1/3 1/3 1/3\nedge B A 1-\\epsilon\nedge B C 2\\epsilon\n",
        names: &["A", "B", "C"], fault: CaseFault::RowSum(0, 1) },
    RefusedText { text: "alpha 0.05\nhypotheses A B C\nweights 1/3 1/3 1/3\nedge A B 1/2\nedge C A 1/2\nedge C B 0.6\n",
        names: &["A", "B", "C"], fault: CaseFault::RowSum(0, 2) },
    RefusedText { text: "alpha 0.05\nhypotheses A B\np 1/2\nweights 1/2 1/2\n", names: &["A", "B"],
        fault: CaseFault::PCount(1) },
    RefusedText { text: "alpha 0.05\nhypotheses A B\np 0 1.01\nweights 1/2 1/2\n", names: &["A", "B"],
        fault: CaseFault::PRange(1) },
    // Of several faults the first in their order counts, wherever they stand.
    RefusedText { text: "alpha 2\nhypotheses A A\np 2\nweights 1\nedge A A 1\n", names: &["A", "A"],
        fault: CaseFault::DuplicateName(1) },
};
