//! How the rows of a table are tested.
use field_core::{Number, Op, TooWide};
use std::fmt::Debug;
use std::process::Abort;

/// Asserts that a statement about a row holds.
pub fn expect<R: Abort, D: Debug>(rt: &R, holds: bool, row: &D) {
    assert!(rt; holds, "{row:?}");
}

/// Returns the result of an operation, or `None` if it is refused, and asserts that a refusal names the operation.
pub fn given<T: Copy>(rt: &impl Abort, op: Op, answer: Result<T, TooWide>) -> Option<T> {
    match answer {
        Ok(found) => Some(found),
        Err(refused) => {
            assert!(rt; refused.op == op);
            None
        }
    }
}

/// Returns the result of an operation on two numbers, or `None` if it is refused.
pub fn result<N: Number>(rt: &impl Abort, x: &N, op: Op, y: &N) -> Option<N> {
    let answer = match op {
        Op::Add => x.add(y),
        Op::Sub => x.sub(y),
        Op::Mul => x.mul(y),
        Op::Div => {
            assert!(rt; !y.is_zero());
            x.div(y)
        }
    };
    given(rt, op, answer)
}
