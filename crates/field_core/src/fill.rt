//! Places that are filled one after another.
ghost use Rattle.std.specs.Prelude.{ℕ, ◌<◌, length};
ghost use Rattle.field_core.specs.Filled.{AreFilled};

/// Fills each place with what `step` gives for it, in their order, up to the first refusal.
#[tactic(auto, unfolding(crate::specs::Filled::AreFilled))]
pub fn try_fill<T: Drop, E, S: Fn(usize) -> Result<T, E>>(
    places: &mut [T],
    step: S,
) -> Result<(), E>
    requires { (k : ℕ) → k < length places.old → S.pre step k }
    ensures { AreFilled (S.post step) places.new result }
{
    for k in 0..places.len() {
        places[k] = step(k)?;
    }
    Ok(())
}
