//! The command `help`.
ghost use Rattle.std.specs.Prelude.{IfOk};
ghost use Rattle.graph_cli.specs.Help.{help_stage};

use answers::Answer;
use field_core::{List, NoMemory};
use std::alloc::Global;

/// Returns the list of the commands.
pub fn help_answer(alloc: Global) -> Result<Answer, NoMemory>
    ensures { IfOk result help_stage.Gives }
{
    let mut text = List::new(alloc);
    text.append(
        b"test [--form F] [--alpha N] [--priority P]\n\
        weights [--form F] [--alpha N]\n\
        bounds [--form F] [--alpha N]\n\
        simes [--form F] [--alpha N]\n\
        evidence [--form F] [--alpha N] [--priority P]\n\
        check FILE [--form F] [--alpha N]\n\
        stages [--form F]\n\
        study FILE [--form F] [--store PATH]\n\
        canon [--form F] [--alpha N] [--to F]\n\
        catalogue NAME --size N [--second N]\n\
        sample --size N --seed N\n\
        help\n\
        end\n",
    )?;
    Ok(Answer::done(text))
}
