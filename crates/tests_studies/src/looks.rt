//! What the tests share: looks, and an assertion with its label.
use field_core::List;
use fraction::Fraction;
use graph_io::Look;
use std::alloc::Global;
use std::process::Abort;

/// A hypothesis, by its position from 0, a stage, and the parts of a p-value.
pub type Given = (u32, u32, (i128, i128));

/// Returns the look of these numbers.
pub fn look_of(given: &Given) -> Option<Look> {
    let (hypothesis, stage, (num, den)) = *given;
    let p = Fraction::new(num, den).ok()?.ratio();
    Some(Look {
        hypothesis,
        stage,
        p,
    })
}

/// Looks in their order, or nothing when out of memory.
pub fn looks_of(alloc: Global, given: &[Given]) -> Option<List<Look>> {
    let mut looks = List::new(alloc);
    for given in given {
        looks.push(look_of(given)?).ok()?;
    }
    Some(looks)
}

/// Asserts that a row of a table holds, by its label.
pub fn expect(rt: &impl Abort, holds: bool, label: &str) {
    assert!(rt; holds, "{label}");
}
