//! Texts, with the first line that isn't allowed.
use edge_text::{ExprFault, LineKind};
use fraction::NumberFault;

/// A text, the number of the first line that isn't allowed, and what is wrong with it.
pub type Faulty = (&'static str, usize, LineKind);

/// Other first words, at each place.
pub const UNEXPECTED: &[(&str, usize)] = table! {
    // Where the level must stand.
    ("beta 0.05\n", 1),
    ("Alpha 0.05\n", 1),
    ("alph 0.05\n", 1),
    ("alphas 0.05\n", 1),
    ("alpha=0.05\n", 1),
    ("alpha\x0c0.05\n", 1),
    ("0.05\n", 1),
    ("hypotheses A B\n", 1),
    ("p 1/2 1/2\n", 1),
    ("weights 1/2 1/2\n", 1),
    ("edge A B 1\n", 1),
    ("component 1\n", 1),
    // Where the names must stand.
    ("alpha 0.05\nalpha 0.05\n", 2),
    ("alpha 0.05\nhypothesis A B\n", 2),
    ("alpha 0.05\np 1/2 1/2\n", 2),
    ("alpha 0.05\nweights 1/2 1/2\n", 2),
    ("alpha 0.05\nedge A B 1\n", 2),
    // Where the p-values or the weights must stand.
    ("alpha 0.05\nhypotheses A B\nalpha 0.05\n", 3),
    ("alpha 0.05\nhypotheses A B\nhypotheses A B\n", 3),
    ("alpha 0.05\nhypotheses A B\nP 1/2 1/2\n", 3),
    ("alpha 0.05\nhypotheses A B\np= 1/2 1/2\n", 3),
    ("alpha 0.05\nhypotheses A B\nweight 1/2 1/2\n", 3),
    ("alpha 0.05\nhypotheses A B\nedge A B 1\n", 3),
    // Where the weights must stand.
    ("alpha 0.05\nhypotheses A B\np 1/2 1/2\np 1/2 1/2\n", 4),
    ("alpha 0.05\nhypotheses A B\np 1/2 1/2\nalpha 0.05\n", 4),
    ("alpha 0.05\nhypotheses A B\np 1/2 1/2\nedge A B 1\n", 4),
    // Where an edge may be, or nothing.
    ("alpha 0.05\nhypotheses A B\nweights 1/2 1/2\nalpha 0.05\n", 4),
    ("alpha 0.05\nhypotheses A B\nweights 1/2 1/2\nhypotheses A B\n", 4),
    ("alpha 0.05\nhypotheses A B\nweights 1/2 1/2\np 1/2 1/2\n", 4),
    ("alpha 0.05\nhypotheses A B\nweights 1/2 1/2\nweights 1/2 1/2\n", 4),
    ("alpha 0.05\nhypotheses A B\nweights 1/2 1/2\nedges A B 1\n", 4),
    ("alpha 0.05\nhypotheses A B\nweights 1/2 1/2\nA B 1\n", 4),
    ("alpha 0.05\nhypotheses A B\nweights 1/2 1/2\ncomponent 1\n", 4),
    ("alpha 0.05\nhypotheses A B\nweights 1/2 1/2\nedge A B 1\nspend A 1\n", 5),
    ("alpha 0.05\nhypotheses A B\nweights 1/2 1/2\nedge A B 1\narrive A 1 0.5\n", 5),
    ("alpha 0.05\nhypotheses A B\nweights 1/2 1/2\nedge A B 1\nweights 1/2 1/2\n", 5),
    ("alpha 0.05\nhypotheses A B\nweights 1/2 1/2\nedge A B 1\nend", 5),
    // Where the weights of a component must stand.
    ("alpha 0.05\nhypotheses A B\ncomponent 1\ncomponent 1\n", 4),
    ("alpha 0.05\nhypotheses A B\ncomponent 1\nedge A B 1\n", 4),
    ("alpha 0.05\nhypotheses A B\ncomponent 1\np 1/2 1/2\n", 4),
    ("alpha 0.05\nhypotheses A B\ncomponent 1\nalpha 0.05\n", 4),
    // Where an edge or the next block may be.
    ("alpha 0.05\nhypotheses A B\ncomponent 1\nweights 1 0\nweights 1 0\n", 5),
    ("alpha 0.05\nhypotheses A B\ncomponent 1\nweights 1 0\np 1/2 1/2\n", 5),
    ("alpha 0.05\nhypotheses A B\ncomponent 1\nweights 1 0\nedge A B 1\nalpha 0.05\n", 6),
    ("alpha 0.05\nhypotheses A B\ncomponent 1/2\nweights 1 0\ncomponent 1/2\nweights 0 1\nhypotheses A B\n", 7),
    // Where the only block has no share.
    ("alpha 0.05\nhypotheses A B\nweights 1 0\nedge A B 1\ncomponent 1\n", 5),
    // Where stages have no number yet.
    ("alpha 0.05\nhypotheses A B\nweights 1/2 1/2\nspend A 1\n", 4),
    ("alpha 0.05\nhypotheses A B\nweights 1/2 1/2\ntable A 1 0.01\n", 4),
    ("alpha 0.05\nhypotheses A B\nweights 1/2 1/2\narrive A 1 0.01\n", 4),
    // Where what a hypothesis spends must stand.
    ("alpha 0.05\nhypotheses A B\nweights 1/2 1/2\nstages 1\nstages 1\n", 5),
    ("alpha 0.05\nhypotheses A B\nweights 1/2 1/2\nstages 1\narrive A 1 0.01\n", 5),
    ("alpha 0.05\nhypotheses A B\nweights 1/2 1/2\nstages 1\nedge A B 1\n", 5),
    ("alpha 0.05\nhypotheses A B\nweights 1/2 1/2\nstages 1\nspend B 1\n", 5),
    ("alpha 0.05\nhypotheses A B\nweights 1/2 1/2\nstages 1\ntable B 1 0.01\n", 5),
    ("alpha 0.05\nhypotheses A B\nweights 1/2 1/2\nstages 1\nspend A 1\nspend A 1\n", 6),
    ("alpha 0.05\nhypotheses A B\nweights 1/2 1/2\nstages 1\nspend A 1\narrive A 1 0.01\n", 6),
    // Where a table may continue.
    ("alpha 0.05\nhypotheses A B\nweights 1/2 1/2\nstages 1\ntable A 1 0.01\nspend A 1\n", 6),
    ("alpha 0.05\nhypotheses A B\nweights 1/2 1/2\nstages 1\ntable A 1 0.01\ntable C 1 0.01\n", 6),
    ("alpha 0.05\nhypotheses A B\nweights 1/2 1/2\nstages 1\ntable A 1 0.01\narrive A 1 0.01\n", 6),
    ("alpha 0.05\nhypotheses A B\nweights 1/2 1/2\nstages 1\nspend A 1\ntable B 1 0.01\ntable A 1 0.01\n", 7),
    ("alpha 0.05\nhypotheses A B\nweights 1/2 1/2\nstages 1\nspend A 1\ntable B 1 0.01\nspend A 1\n", 7),
    // Where a p-value that arrived may be, or nothing.
    ("alpha 0.05\nhypotheses A B\nweights 1/2 1/2\nstages 1\nspend A 1\nspend B 1\nspend A 1\n", 7),
    ("alpha 0.05\nhypotheses A B\nweights 1/2 1/2\nstages 1\nspend A 1\nspend B 1\ntable B 1 0.01\n", 7),
    ("alpha 0.05\nhypotheses A B\nweights 1/2 1/2\nstages 1\nspend A 1\nspend B 1\narrive A 1 0.01\nstages 1\n", 8),
    ("alpha 0.05\nhypotheses A B\nweights 1/2 1/2\nstages 1\nspend A 1\ntable B 1 0.01\narrive A 1 0.01\ntable B 1 0.02\n", 8),
};

/// Texts that end where a line must follow.
pub const ENDED: &[(&str, usize)] = table! {
    ("", 1),
    ("\n", 2),
    ("\n\n", 3),
    (" ", 2),
    (" \t\n\t", 3),
    ("\r", 2),
    ("\r\n", 2),
    ("\r\n\r\n", 3),
    ("# alpha 0.05", 2),
    ("# alpha 0.05\ralpha 0.05\n", 2),
    ("# none\n \t\n \t# none\n", 4),
    ("alpha 0.05", 2),
    ("alpha 0.05\n", 2),
    ("alpha 0.05\r\n#\r\n", 3),
    ("alpha 0.05\nhypotheses\n", 3),
    ("alpha 0.05\nhypotheses A B", 3),
    ("alpha 0.05\n\nhypotheses A B\n\n\n", 6),
    ("alpha 0.05\nhypotheses A B\n#p 1/2 1/2\n", 4),
    ("alpha 0.05\nhypotheses A B\np 1/2 1/2\n", 4),
    ("alpha 0.05\nhypotheses A B\np 1/2 1/2\n# weights 1/2 1/2\n", 5),
    ("alpha 0.05\nhypotheses A B\ncomponent 1\n", 4),
    ("alpha 0.05\nhypotheses A B\np 1/2 1/2\ncomponent 1\n", 5),
    ("alpha 0.05\nhypotheses A B\ncomponent 1/2\nweights 1 0\ncomponent 1/2\n", 6),
    ("alpha 0.05\nhypotheses A B\nweights 1/2 1/2\nstages 1\n", 5),
    ("alpha 0.05\nhypotheses A B\nweights 1/2 1/2\nstages 1\nspend A 1\n", 6),
    ("alpha 0.05\nhypotheses A B\nweights 1/2 1/2\nstages 1\ntable A 1 0.01\n", 6),
    ("alpha 0.05\nhypotheses A B\nweights 1/2 1/2\nedge A B 1\nstages 2\ntable A 1/2 0.01 0.01\ntable A 1 0.02 0.02\n", 8),
    ("alpha 0.05\nhypotheses A A\nweights 1/2 1/2\nstages 1\ntable A 1/2 0.01\ntable A 1 0.01\n", 7),
};

/// Lines of too few or too many words.
pub const WORD_COUNTS: &[(&str, usize)] = table! {
    ("alpha", 1),
    ("alpha\n", 1),
    ("alpha \t \r\n", 1),
    ("alpha 0.05 0.05\n", 1),
    ("alpha 1 / 20\n", 1),
    ("alpha 0.05 # the level\n", 1),
    ("alpha 0.05 \r\r\n", 1),
    ("alpha 0.05\nhypotheses A B\np", 3),
    ("alpha 0.05\nhypotheses A B\np \t\r\n", 3),
    ("alpha 0.05\nhypotheses\np\n", 3),
    ("alpha 0.05\nhypotheses A B\nweights 1/2 1/2\nedge\n", 4),
    ("alpha 0.05\nhypotheses A B\nweights 1/2 1/2\nedge A\n", 4),
    ("alpha 0.05\nhypotheses A B\nweights 1/2 1/2\nedge A B", 4),
    ("alpha 0.05\nhypotheses A B\nweights 1/2 1/2\nedge A B \t\r\n", 4),
    ("alpha 0.05\nhypotheses A B\nweights 1/2 1/2\nedge A (1/2)\n", 4),
    ("alpha 0.05\nhypotheses A B\nweights 1/2 1/2\n\tedge\tA\tB\n", 4),
    ("alpha 0.05\nhypotheses A B\nweights 1/2 1/2\nedge A B 1\nedge 1-\\epsilon\n", 5),
    ("alpha 0.05\nhypotheses A B\nweights 1/2 1/2\nedge A B 1/2\nedge B A\n", 5),
    ("alpha 0.05\nhypotheses A B\ncomponent\n", 3),
    ("alpha 0.05\nhypotheses A B\np 1/2 1/2\ncomponent 1/2 1/2\n", 4),
    ("alpha 0.05\nhypotheses A B\ncomponent 1/2\nweights 1 0\ncomponent\n", 5),
    ("alpha 0.05\nhypotheses A B\ncomponent 1\nweights 1 0\nedge A B\n", 5),
    ("alpha 0.05\nhypotheses A B\nweights 1/2 1/2\nstages\n", 4),
    ("alpha 0.05\nhypotheses A B\nweights 1/2 1/2\nstages 1 2\n", 4),
    ("alpha 0.05\nhypotheses A B\nweights 1/2 1/2\nstages 1\nspend\n", 5),
    ("alpha 0.05\nhypotheses A B\nweights 1/2 1/2\nstages 1\nspend B\n", 5),
    ("alpha 0.05\nhypotheses A B\nweights 1/2 1/2\nstages 1\ntable B 1\n", 5),
    ("alpha 0.05\nhypotheses A B\nweights 1/2 1/2\nstages 1\ntable A 1 0.01\ntable C 1\n", 6),
    ("alpha 0.05\nhypotheses A B\nweights 1/2 1/2\nstages 1\nspend A 1\nspend B 1\narrive C x\n", 7),
    ("alpha 0.05\nhypotheses A B\nweights 1/2 1/2\nstages 1\nspend A 1\nspend B 1\narrive A 1 0.01 0.02\n", 7),
};

/// Edges with a name that no hypothesis has.
pub const UNKNOWN_NAMES: &[(&str, usize)] = table! {
    ("alpha 0.05\nhypotheses H1 H2\nweights 1/2 1/2\nedge H3 H2 1\n", 4),
    ("alpha 0.05\nhypotheses H1 H2\nweights 1/2 1/2\nedge H1 H3 1\n", 4),
    ("alpha 0.05\nhypotheses H1 H2\nweights 1/2 1/2\nedge H3 H4 1\n", 4),
    ("alpha 0.05\nhypotheses H1 H2\nweights 1/2 1/2\nedge H H2 1\n", 4),
    ("alpha 0.05\nhypotheses H1 H2\nweights 1/2 1/2\nedge H1 H 1\n", 4),
    ("alpha 0.05\nhypotheses H1 H2\nweights 1/2 1/2\nedge H11 H2 1\n", 4),
    ("alpha 0.05\nhypotheses H1 H2\nweights 1/2 1/2\nedge H1 H22 1\n", 4),
    ("alpha 0.05\nhypotheses H1 H2\nweights 1/2 1/2\nedge h1 h2 1\n", 4),
    ("alpha 0.05\nhypotheses H1 H2\nweights 1/2 1/2\nedge 1 2 1\n", 4),
    ("alpha 0.05\nhypotheses H1 H2\nweights 1/2 1/2\nedge H1 H2 1\n\nedge H1 1 H2\n", 6),
    ("alpha 0.05\nhypotheses\nweights\nedge H1 H2 1\n", 4),
    ("alpha 0.05\nhypotheses H1 H2\nweights 1/2 1/2\nedge H1 H3 1 - \\epsilon\n", 4),
    ("alpha 0.05\nhypotheses H1 H2\nweights 1/2 1/2\nedge H1 (H2) 1\n", 4),
    ("alpha 0.05\nhypotheses A B\ncomponent 1/2\nweights 1 0\ncomponent 1/2\nweights 0 1\nedge B C 1\n", 7),
    ("alpha 0.05\nhypotheses A B\nweights 1/2 1/2\nstages 1\nspend A 1\nspend B 1\narrive C x y\n", 7),
};

/// Where a whole number of 1 to 9 digits must stand.
pub const WHOLE: &[(&str, usize)] = table! {
    ("alpha 0.05\nhypotheses A B\nweights 1/2 1/2\nstages x\n", 4),
    ("alpha 0.05\nhypotheses A B\nweights 1/2 1/2\nstages +1\n", 4),
    ("alpha 0.05\nhypotheses A B\nweights 1/2 1/2\nstages 1.0\n", 4),
    ("alpha 0.05\nhypotheses A B\nweights 1/2 1/2\nstages 1234567890\n", 4),
    ("alpha 0.05\nhypotheses A B\nweights 1/2 1/2\nstages 1\nspend A 1\nspend B 1\narrive A x y\n", 7),
    ("alpha 0.05\nhypotheses A B\nweights 1/2 1/2\nstages 1\nspend A 1\nspend B 1\narrive A 1/1 0.01\n", 7),
    ("alpha 0.05\nhypotheses A B\nweights 1/2 1/2\nstages 1\nspend A 1\nspend B 1\narrive A 0000000001 0.01\n", 7),
};

/// Lines with a numeral that is refused.
pub const NUMBERS: &[Faulty] = table! {
    ("alpha x\n", 1, LineKind::Number(NumberFault::BadByte(0))),
    ("alpha 0,05\n", 1, LineKind::Number(NumberFault::BadByte(1))),
    ("alpha 1/\n", 1, LineKind::Number(NumberFault::BadByte(2))),
    ("alpha 0.05\r\r\n", 1, LineKind::Number(NumberFault::BadByte(4))),
    ("alpha 0.05\r \n", 1, LineKind::Number(NumberFault::BadByte(4))),
    ("alpha 1/0\n", 1, LineKind::Number(NumberFault::ZeroDenominator)),
    ("alpha 1e-39\n", 1, LineKind::Number(NumberFault::TooManyDigits)),
    ("alpha 0.05\nhypotheses A B\np 1/2 NA\n", 3, LineKind::Number(NumberFault::BadByte(0))),
    ("alpha 0.05\nhypotheses A B\np 1/2/3 1/2\n", 3, LineKind::Number(NumberFault::BadByte(3))),
    ("alpha 0.05\nhypotheses A B\np 0/0\n", 3, LineKind::Number(NumberFault::ZeroDenominator)),
    ("alpha 0.05\nhypotheses A B\np 1e39 1/2\n", 3, LineKind::Number(NumberFault::TooManyDigits)),
    ("alpha 0.05\nhypotheses A B\nweights 1/2 1/2.\n", 3, LineKind::Number(NumberFault::BadByte(3))),
    ("alpha 0.05\nhypotheses A B\np 1/2 1/2\nweights -", 4, LineKind::Number(NumberFault::BadByte(1))),
    ("alpha 0.05\nhypotheses A B\nweights 1 1 1 1/00\n", 3, LineKind::Number(NumberFault::ZeroDenominator)),
    ("alpha 0.05\nhypotheses A B\nweights 1/123456789012345678901234567890123456789\n", 3,
     LineKind::Number(NumberFault::TooManyDigits)),
    ("alpha 0.05\nhypotheses A B\ncomponent x\n", 3, LineKind::Number(NumberFault::BadByte(0))),
    ("alpha 0.05\nhypotheses A B\ncomponent 1/0\n", 3, LineKind::Number(NumberFault::ZeroDenominator)),
    ("alpha 0.05\nhypotheses A B\ncomponent 1\nweights 1 x\n", 4, LineKind::Number(NumberFault::BadByte(0))),
    ("alpha 0.05\nhypotheses A B\ncomponent 1\nweights 1 0\ncomponent 1/\n", 5, LineKind::Number(NumberFault::BadByte(2))),
    ("alpha 0.05\nhypotheses A B\nweights 1/2 1/2\nstages 1\nspend A 1 x\n", 5, LineKind::Number(NumberFault::BadByte(0))),
    ("alpha 0.05\nhypotheses A B\nweights 1/2 1/2\nstages 1\ntable A x 0.01\n", 5, LineKind::Number(NumberFault::BadByte(0))),
    ("alpha 0.05\nhypotheses A B\nweights 1/2 1/2\nstages 1\ntable A 1 1/0 x\n", 5,
     LineKind::Number(NumberFault::ZeroDenominator)),
    ("alpha 0.05\nhypotheses A B\nweights 1/2 1/2\nstages 1\ntable A 1 0.01\ntable A 1 1/\n", 6,
     LineKind::Number(NumberFault::BadByte(2))),
    ("alpha 0.05\nhypotheses A B\nweights 1/2 1/2\nstages 1\nspend A 1\nspend B 1\narrive A 1 y\n", 7,
     LineKind::Number(NumberFault::BadByte(0))),
};

/// Edges with an expression that is refused. The blank after the second name belongs to it.
pub const EXPRESSIONS: &[Faulty] = table! {
    ("alpha 0.05\nhypotheses A B\nweights 1/2 1/2\nedge A B x\n", 4, LineKind::Expr(ExprFault::BadByte(1))),
    ("alpha 0.05\nhypotheses A B\nweights 1/2 1/2\nedge A B 1 2\n", 4, LineKind::Expr(ExprFault::BadByte(3))),
    ("alpha 0.05\nhypotheses A B\nweights 1/2 1/2\nedge A B 1 # all\n", 4, LineKind::Expr(ExprFault::BadByte(3))),
    ("alpha 0.05\nhypotheses A B\nweights 1/2 1/2\nedge A B 1)\n", 4, LineKind::Expr(ExprFault::BadByte(2))),
    ("alpha 0.05\nhypotheses A B\nweights 1/2 1/2\nedge A B (1\n", 4, LineKind::Expr(ExprFault::BadByte(3))),
    ("alpha 0.05\nhypotheses A B\nweights 1/2 1/2\nedge A B 1 /\n", 4, LineKind::Expr(ExprFault::BadByte(4))),
    ("alpha 0.05\nhypotheses A B\nweights 1/2 1/2\nedge A B 1\\epsilon\\eps\n", 4, LineKind::Expr(ExprFault::BadByte(14))),
    ("alpha 0.05\nhypotheses A B\nweights 1/2 1/2\nedge A B 1/2\r\r\n", 4, LineKind::Expr(ExprFault::BadByte(4))),
    ("alpha 0.05\nhypotheses A B\nweights 1/2 1/2\nedge A B NA\n", 4, LineKind::Expr(ExprFault::BadByte(1))),
    ("alpha 0.05\nhypotheses A B\nweights 1/2 1/2\nedge A B (((((((((((((((((((((((((((((((((1\n", 4,
     LineKind::Expr(ExprFault::Depth)),
    ("alpha 0.05\nhypotheses A B\nweights 1/2 1/2\n\
      edge A B (((((((((((((((((((((((((((((((((1)))))))))))))))))))))))))))))))))\n", 4, LineKind::Expr(ExprFault::Depth)),
    ("alpha 0.05\nhypotheses A B\nweights 1/2 1/2\nedge A B 1/\\epsilon\n", 4, LineKind::Expr(ExprFault::DivisorNotNumber)),
    ("alpha 0.05\nhypotheses A B\nweights 1/2 1/2\nedge A B 1/0\n", 4, LineKind::Expr(ExprFault::ZeroDivisor)),
    ("alpha 0.05\nhypotheses A B\nweights 1/2 1/2\nedge A B 0/0\n", 4, LineKind::Expr(ExprFault::ZeroDivisor)),
    ("alpha 0.05\nhypotheses A B\nweights 1/2 1/2\nedge A B 1/(1-1)\n", 4, LineKind::Expr(ExprFault::ZeroDivisor)),
    ("alpha 0.05\nhypotheses A B\nweights 1/2 1/2\nedge A B \\epsilon^5\n", 4, LineKind::Expr(ExprFault::Degree)),
    ("alpha 0.05\nhypotheses A B\nweights 1/2 1/2\nedge A B \\epsilon^3 * \\epsilon^2\n", 4, LineKind::Expr(ExprFault::Degree)),
    ("alpha 0.05\nhypotheses A B\nweights 1/2 1/2\nedge A B 1e99\n", 4, LineKind::Expr(ExprFault::Part)),
    ("alpha 0.05\nhypotheses A B\nweights 1/2 1/2\nedge A B 1e-19\n", 4, LineKind::Expr(ExprFault::Part)),
    ("alpha 0.05\nhypotheses A B\nweights 1/2 1/2\nedge A B 1/1000000000000000001\n", 4, LineKind::Expr(ExprFault::Part)),
    ("alpha 0.05\nhypotheses A B\nweights 1/2 1/2\nedge A B 1/1e18/10\n", 4, LineKind::Expr(ExprFault::Part)),
    ("alpha 0.05\nhypotheses A B\nweights 1/2 1/2\nedge A B\t1.\t5", 4, LineKind::Expr(ExprFault::BadByte(4))),
    ("alpha 0.05\nhypotheses A B\nweights 1/2 1/2\n\nedge A B 1\n# none\nedge B A 1 - * \\epsilon\n", 7,
     LineKind::Expr(ExprFault::BadByte(5))),
};

/// Texts with several faults, of which the first counts.
pub const ORDER: &[Faulty] = table! {
    // Of several lines.
    ("alpha x\nhypotheses A B\np\n", 1, LineKind::Number(NumberFault::BadByte(0))),
    ("alpha 0.05\nweights x\nhypotheses A B\n", 2, LineKind::Unexpected),
    ("alpha 0.05\nhypotheses A B\np\nweights x\n", 3, LineKind::WordCount),
    ("alpha 0.05\nhypotheses A B\nweights 1/2 1/2\nedge A C 1\nedge A\n", 4, LineKind::UnknownName),
    // Of one line: the first word, the number of words, the words from left to right.
    ("beta x y\n", 1, LineKind::Unexpected),
    ("alpha x y\n", 1, LineKind::WordCount),
    ("alpha 0.05\nhypotheses A B\np 1/0 x\n", 3, LineKind::Number(NumberFault::ZeroDenominator)),
    ("alpha 0.05\nhypotheses A B\nweights x 1/0\n", 3, LineKind::Number(NumberFault::BadByte(0))),
    ("alpha 0.05\nhypotheses A B\nweights 1/2 1/2\nedge C B\n", 4, LineKind::WordCount),
    ("alpha 0.05\nhypotheses A B\nweights 1/2 1/2\nedge C D x y\n", 4, LineKind::UnknownName),
    ("alpha 0.05\nhypotheses A B\nweights 1/2 1/2\nedge C B x\n", 4, LineKind::UnknownName),
    ("alpha 0.05\nhypotheses A B\nweights 1/2 1/2\nedge A C x\n", 4, LineKind::UnknownName),
    ("alpha 0.05\nhypotheses A B\nweights 1/2 1/2\nedge A C 1/0\n", 4, LineKind::UnknownName),
    ("alpha 0.05\nhypotheses A B\nweights 1/2 1/2\nedges A B x\n", 4, LineKind::Unexpected),
    // Of one expression: its bytes, and then its values from left to right.
    ("alpha 0.05\nhypotheses A B\nweights 1/2 1/2\nedge A B (1/0\n", 4, LineKind::Expr(ExprFault::BadByte(5))),
    ("alpha 0.05\nhypotheses A B\nweights 1/2 1/2\nedge A B 1/0 + 1e99\n", 4, LineKind::Expr(ExprFault::ZeroDivisor)),
    ("alpha 0.05\nhypotheses A B\nweights 1/2 1/2\nedge A B 1e99 + 1/0\n", 4, LineKind::Expr(ExprFault::Part)),
    ("alpha 0.05\nhypotheses A B\nweights 1/2 1/2\nedge A B x\nedge A C 1\n", 4, LineKind::Expr(ExprFault::BadByte(1))),
    // Skipped lines are counted.
    ("\n\nalpha x\n", 3, LineKind::Number(NumberFault::BadByte(0))),
    ("# none\r\n\t\r\nalpha 0.05\r\n\r\nbeta\r\n", 5, LineKind::Unexpected),
    ("\ralpha 0.05\n", 1, LineKind::Unexpected),
    ("alpha 0.05\n\r\r\nhypotheses A B\n", 2, LineKind::Unexpected),
    // Errors in the draft come after those of all lines.
    ("alpha 2\nhypotheses A A\n", 3, LineKind::Ended),
    ("alpha 0.05\nhypotheses A A\nweights 1 1\nedge A A\n", 4, LineKind::WordCount),
    ("alpha 0.05\nhypotheses A B\nweights 1 1\nedge A A 1+\n", 4, LineKind::Expr(ExprFault::BadByte(3))),
    ("alpha 2\nhypotheses A A\nweights 1 1\nedge A A \\epsilon\nedge A A \\epsilon^5\n", 5, LineKind::Expr(ExprFault::Degree)),
    ("alpha 0.05\nhypotheses ? ?\nweights 1 1\nstages 1\n", 5, LineKind::Ended),
};
