//! Positions of hypotheses.
ghost use Rattle.std.specs.Prelude.{◌↔◌, IsTrue};
ghost use Rattle.field_core.specs.Sets.{whole};
ghost use Rattle.field_core.specs.Runs.{IsOrder};

/// Whether these are positions below `size`, each once.
pub fn are_positions(removed: &[usize], size: usize) -> bool
    ensures { IsTrue result ↔ IsOrder size whole removed.now }
{
    for i in 0..removed.len() {
        if removed[i] >= size || removed[..i].contains(&removed[i]) {
            return false;
        }
    }
    true
}
