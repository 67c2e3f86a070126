//! Names of priorities.
ghost use Rattle.std.specs.Prelude.{◌≡◌};
ghost use Rattle.command_words.specs.Table.{priority_named};

use sequential::Priority;

/// Returns the priority of a name.
#[tactic(auto, unfolding(crate::specs::Table::priority_named))]
pub(crate) fn priority_named(name: &str) -> Option<Priority>
    ensures { result ≡ priority_named name.now }
{
    match name {
        "first" => Some(Priority::First),
        "last" => Some(Priority::Last),
        "ratio" => Some(Priority::Ratio),
        _ => None,
    }
}
