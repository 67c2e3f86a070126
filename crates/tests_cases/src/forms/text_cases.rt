//! Texts, with the case or the stages that they denote.
use crate::forms::checks::Terms;

/// The positions of the ends of an edge, and the coefficients of its weight by ascending power of epsilon. Those after
/// the last one are 0.
pub type Edge = (usize, usize, &'static [Terms]);

/// What a component holds: its share, its weights and its edges. Edges that aren't listed are 0.
pub struct HeldComponent {
    pub share: Terms,
    pub weights: &'static [Terms],
    pub edges: &'static [Edge],
}

/// What a case holds.
pub struct Held {
    pub names: &'static [&'static str],
    pub alpha: Terms,
    pub p: &'static [Terms],
    pub components: &'static [HeldComponent],
}

/// A case of one hypothesis.
pub const SINGLE: Held = Held {
    names: &["A"],
    alpha: (1, 20),
    p: &[(1, 100)],
    components: &[HeldComponent {
        share: (1, 1),
        weights: &[(1, 1)],
        edges: &[],
    }],
};

/// Texts that denote this case.
pub const SPELLINGS: &[&str] = &[
    // The last line may lack its line feed, and each may have a carriage return.
    "alpha 0.05\nhypotheses A\np 0.01\nweights 1\n",
    "alpha 0.05\nhypotheses A\np 0.01\nweights 1",
    "alpha 0.05\r\nhypotheses A\r\np 0.01\r\nweights 1\r\n",
    "alpha 0.05\r\nhypotheses A\r\np 0.01\r\nweights 1\r",
    "alpha 0.05\nhypotheses A\r\np 0.01\nweights 1\r\n",
    // Blanks, blank lines and comments.
    " \talpha\t 0.05 \t\n\thypotheses  A\t\np\t0.01\t\r\n weights\t1 \n",
    "\n# A case\n\nalpha 0.05\n \t\r\n\t # The names\nhypotheses A\n#p 1\n#\np 0.01\n\nweights 1\n\n# end",
    // Numerals of all forms.
    "alpha +.5e-1\nhypotheses A\np 10E-3\nweights 3/3\n",
];

/// Texts, and the cases that they denote.
pub const CASES: &[(&str, Held)] = table! {
    // No p-values and no edges.
    ("alpha 1\nhypotheses A B\nweights 0 -0.0\n",
     Held { names: &["A", "B"], alpha: (1, 1), p: &[],
       components: &[HeldComponent { share: (1, 1), weights: &[(0, 1), (0, 1)], edges: &[] }] }),
    // Each edge goes from its first name to its second.
    ("alpha 0.025\nhypotheses A B C\np 0.02 0.015 0.005\nweights 1/2 1/3 1/6\n\
      edge A B 1\nedge C A 0.25\nedge B C 2/6\nedge B A 0.5\n",
     Held { names: &["A", "B", "C"], alpha: (1, 40), p: &[(1, 50), (3, 200), (1, 200)],
       components: &[HeldComponent { share: (1, 1), weights: &[(1, 2), (1, 3), (1, 6)],
           edges: &[(0, 1, &[(1, 1)]), (1, 0, &[(1, 2)]), (1, 2, &[(1, 3)]), (2, 0, &[(1, 4)])] }] }),
    // An edge of 0 may go to the hypothesis itself.
    ("alpha 0.05\nhypotheses A B\np 0 1\nweights 1 0\nedge A A 0\nedge B A 0/5\nedge A B 1",
     Held { names: &["A", "B"], alpha: (1, 20), p: &[(0, 1), (1, 1)],
       components: &[HeldComponent { share: (1, 1), weights: &[(1, 1), (0, 1)], edges: &[(0, 1, &[(1, 1)])] }] }),
    // Names that begin others.
    ("alpha 0.05\nhypotheses H11 H1 H\nweights 1/4 1/4 1/2\nedge H1 H11 1/2\nedge H H1 3/4\n",
     Held { names: &["H11", "H1", "H"], alpha: (1, 20), p: &[],
       components: &[HeldComponent { share: (1, 1), weights: &[(1, 4), (1, 4), (1, 2)],
           edges: &[(1, 0, &[(1, 2)]), (2, 1, &[(3, 4)])] }] }),
    // Names that are keywords or numerals.
    ("alpha 0.05\nhypotheses edge weights p 0.5\nweights 1/4 1/4 1/4 1/4\n\
      edge edge weights 1/2\nedge p edge 1/3\nedge 0.5 p 0.5\n",
     Held { names: &["edge", "weights", "p", "0.5"], alpha: (1, 20), p: &[],
       components: &[HeldComponent { share: (1, 1), weights: &[(1, 4), (1, 4), (1, 4), (1, 4)],
           edges: &[(0, 1, &[(1, 2)]), (2, 0, &[(1, 3)]), (3, 2, &[(1, 2)])] }] }),
    // The longest name and the longest parts.
    ("alpha 1/10000\nhypotheses abcdefghijklmnopqrstuvwxyz_-.123\np 1e-30\nweights 1e-18\n",
     Held { names: &["abcdefghijklmnopqrstuvwxyz_-.123"], alpha: (1, 10_000),
       p: &[(1, 1_000_000_000_000_000_000_000_000_000_000)],
       components: &[HeldComponent { share: (1, 1), weights: &[(1, 1_000_000_000_000_000_000)], edges: &[] }] }),
    ("alpha 0.05\nhypotheses A B\nweights 0.3 0.3\n\
      edge A B 1/1000000000000000000\nedge B A 999999999999999999/1000000000000000000\n",
     Held { names: &["A", "B"], alpha: (1, 20), p: &[],
       components: &[HeldComponent { share: (1, 1), weights: &[(3, 10), (3, 10)],
           edges: &[(0, 1, &[(1, 1_000_000_000_000_000_000)]),
             (1, 0, &[(999_999_999_999_999_999, 1_000_000_000_000_000_000)])] }] }),
    // Signs and blanks in expressions.
    ("alpha 0.05\nhypotheses A B\nweights 1/2 1/2\nedge A B  + 1 / 2 \t\r\n\tedge\tB\tA\t-1/4\t+\t(.75)\r\n",
     Held { names: &["A", "B"], alpha: (1, 20), p: &[],
       components: &[HeldComponent { share: (1, 1), weights: &[(1, 2), (1, 2)],
           edges: &[(0, 1, &[(1, 2)]), (1, 0, &[(1, 2)])] }] }),
    // Powers of epsilon.
    ("alpha 0.05\nhypotheses A B C\nweights 1 0 0\n\
      edge A B 1 - \\epsilon\nedge A C \\epsilon\nedge B A 1/2\\epsilon + \\epsilon ^ 2 * 3\nedge B C 0.5-\\epsilon^4/3\n\
      edge C A (1 - 2\\epsilon)(1 + 2\\epsilon)\nedge C B 4\\epsilon\\epsilon",
     Held { names: &["A", "B", "C"], alpha: (1, 20), p: &[],
       components: &[HeldComponent { share: (1, 1), weights: &[(1, 1), (0, 1), (0, 1)],
           edges: &[(0, 1, &[(1, 1), (-1, 1)]), (0, 2, &[(0, 1), (1, 1)]), (1, 0, &[(0, 1), (1, 2), (3, 1)]),
             (1, 2, &[(1, 2), (0, 1), (0, 1), (0, 1), (-1, 3)]), (2, 0, &[(1, 1), (0, 1), (-4, 1)]),
             (2, 1, &[(0, 1), (0, 1), (4, 1)])] }] }),
    // An expression that is 0 is not an edge.
    ("alpha 0.05\nhypotheses A B\nweights 1 0\nedge A A 1 - 1\nedge A B \\epsilon - \\epsilon\n",
     Held { names: &["A", "B"], alpha: (1, 20), p: &[],
       components: &[HeldComponent { share: (1, 1), weights: &[(1, 1), (0, 1)], edges: &[] }] }),
    // Expressions with 32 parentheses open at once.
    ("alpha 0.05\nhypotheses A B\nweights 1 0\nedge A B ((((((((((((((((((((((((((((((((1))))))))))))))))))))))))))))))))\n",
     Held { names: &["A", "B"], alpha: (1, 20), p: &[],
       components: &[HeldComponent { share: (1, 1), weights: &[(1, 1), (0, 1)], edges: &[(0, 1, &[(1, 1)])] }] }),
    // Each edge belongs to the block in which it stands.
    ("alpha 0.05\nhypotheses H1 H2\np 0.02 0.04\n\
      component 1/2\nweights 1 0\nedge H1 H2 1\n\
      component 1/2\nweights 0 1\nedge H2 H1 1\n",
     Held { names: &["H1", "H2"], alpha: (1, 20), p: &[(1, 50), (1, 25)],
       components: &[HeldComponent { share: (1, 2), weights: &[(1, 1), (0, 1)], edges: &[(0, 1, &[(1, 1)])] },
         HeldComponent { share: (1, 2), weights: &[(0, 1), (1, 1)], edges: &[(1, 0, &[(1, 1)])] }] }),
    // One block with a share, which may be less than 1.
    ("alpha 0.05\nhypotheses A B\ncomponent 0.25\nweights 1/2 1/3\nedge A B 1/2\n",
     Held { names: &["A", "B"], alpha: (1, 20), p: &[],
       components: &[HeldComponent { share: (1, 4), weights: &[(1, 2), (1, 3)], edges: &[(0, 1, &[(1, 2)])] }] }),
    // Blocks without edges, in their order.
    ("alpha 0.05\nhypotheses A B\n\
      component 1/2\nweights 1 0\n\
      component 1/3\nweights 0 1\n\
      component 1/6\nweights 1/2 1/2\nedge B A 1\n",
     Held { names: &["A", "B"], alpha: (1, 20), p: &[],
       components: &[HeldComponent { share: (1, 2), weights: &[(1, 1), (0, 1)], edges: &[] },
         HeldComponent { share: (1, 3), weights: &[(0, 1), (1, 1)], edges: &[] },
         HeldComponent { share: (1, 6), weights: &[(1, 2), (1, 2)], edges: &[(1, 0, &[(1, 1)])] }] }),
};

/// What a hypothesis spends: fractions, or the steps of a table with their levels.
pub enum HeldSpend {
    Shares(&'static [Terms]),
    Table(&'static [(Terms, &'static [Terms])]),
}

/// What the stages of a draft hold. Each arrival has the position of its hypothesis, its stage and its p-value.
pub struct HeldStages {
    pub count: u64,
    pub spend: &'static [HeldSpend],
    pub arrivals: &'static [(usize, usize, Terms)],
}

/// Texts with stages, and what the stages hold.
pub const STAGED: &[(&str, HeldStages)] = table! {
    // Arrivals keep their order.
    ("alpha 0.05\nhypotheses H1 H2\nweights 1/2 1/2\n\
      edge H1 H2 1\nedge H2 H1 1\nstages 2\nspend H1 1/2 1/2\nspend H2 1/3 2/3\narrive H1 1 0.02\narrive H2 1 0.03\n\
      arrive H1 2 0.01\narrive H2 2 0.02\n",
     HeldStages { count: 2, spend: &[HeldSpend::Shares(&[(1, 2), (1, 2)]), HeldSpend::Shares(&[(1, 3), (2, 3)])],
       arrivals: &[(0, 1, (1, 50)), (1, 1, (3, 100)), (0, 2, (1, 100)), (1, 2, (1, 50))] }),
    // A table is all lines of its name.
    ("alpha 0.05\nhypotheses H1 H2\nweights 1/2 1/2\n\
      edge H1 H2 1\nedge H2 H1 1\nstages 2\ntable H1 1/2 0.01 0.015\ntable H1 1 0.02 0.03\nspend H2 1/2 1/2\narrive H1 1 0.02\n\
      arrive H2 1 0.012\n",
     HeldStages { count: 2,
       spend: &[HeldSpend::Table(&[((1, 2), &[(1, 100), (3, 200)]), ((1, 1), &[(1, 50), (3, 100)])]),
         HeldSpend::Shares(&[(1, 2), (1, 2)])], arrivals: &[(0, 1, (1, 50)), (1, 1, (3, 250))] }),
    // A table may end the text, after another, and numbers of levels aren't looked at.
    ("alpha 0.05\nhypotheses A B\ncomponent 1\nweights 1 0\nstages 000000003\ntable A 1 0.01\ntable B 1/2 0.01 0.02 0.03 0.04",
     HeldStages { count: 3,
       spend: &[HeldSpend::Table(&[((1, 1), &[(1, 100)])]),
         HeldSpend::Table(&[((1, 2), &[(1, 100), (1, 50), (3, 100), (1, 25)])])], arrivals: &[] }),
    // No hypotheses, and no spend.
    ("alpha 0.05\nhypotheses\nweights\nstages 0\n", HeldStages { count: 0, spend: &[], arrivals: &[] }),
};
