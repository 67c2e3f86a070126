//! The stages that commands have in common: the case is read, and tested whether the command can take it.
ghost use Rattle.std.specs.Prelude.{◌≡◌, MatchResult, OnOk};
ghost use Rattle.std.specs.Io.KnownBytes.{IsAtEnd};
ghost use Rattle.answers.specs.Devices.{reading};
ghost use Rattle.answers.specs.Stages.{seen_by};
ghost use Rattle.answers.specs.Ways.{EndsIn, over_values, over_reading};
ghost use Rattle.case_model.specs.CaseView.{content};
ghost use Rattle.command_words.specs.Asked.{encoding, text, csv, json};
ghost use Rattle.graph_cli.specs.Accepted.{IsTakenWithin, case_in, suitable, accepted};

use crate::needs::Needs;
use crate::trouble::Trouble;
use answers::{Stop, take_whole};
use case_csv::{CsvFault, read_csv};
use case_json::read_json;
use case_model::Case;
use command_words::CaseFormat;
use edge_text::{TextFault, read_text};
use fraction::Fraction;
use graph_io::Source;
use refusals::{case_refusal, cell_refusal, json_refusal, line_refusal};
use std::alloc::Global;

/// Returns the case that a text denotes.
fn text_case(alloc: Global, bytes: &[u8]) -> Result<Case, Stop>
    ensures { EndsIn (over_values (seen_by content (case_in text bytes.now))) result }
{
    match read_text(alloc, bytes) {
        Ok(case) => Ok(case),
        Err(TextFault::Line(n, kind)) => Err(Stop::Refused(line_refusal(alloc, n, kind)?)),
        Err(TextFault::Case(refused)) => Err(Stop::Refused(case_refusal(
            alloc,
            refused.names.as_slice(),
            &refused.fault,
        )?)),
        Err(TextFault::NoMemory) => Err(Stop::NoMemory),
    }
}

/// Returns the case that a CSV sheet denotes at a level.
fn csv_case(alloc: Global, alpha: Fraction, bytes: &[u8]) -> Result<Case, Stop>
    ensures { EndsIn (over_values (seen_by content (case_in (csv alpha) bytes.now))) result }
{
    match read_csv(alloc, bytes, alpha) {
        Ok(case) => Ok(case),
        Err(CsvFault::Row(row, column, kind)) => {
            Err(Stop::Refused(cell_refusal(alloc, row, column, kind)?))
        }
        Err(CsvFault::Case(refused)) => Err(Stop::Refused(case_refusal(
            alloc,
            refused.names.as_slice(),
            &refused.fault,
        )?)),
        Err(CsvFault::NoMemory) => Err(Stop::NoMemory),
    }
}

/// Returns the case that a JSON text denotes.
fn json_case(alloc: Global, bytes: &[u8]) -> Result<Case, Stop>
    ensures { EndsIn (over_values (seen_by content (case_in json bytes.now))) result }
{
    match read_json(alloc, bytes) {
        Ok(case) => Ok(case),
        Err(fault) => Err(Stop::Refused(json_refusal(alloc, &fault)?)),
    }
}

/// Returns the case that bytes denote in a format.
fn read_case(alloc: Global, format: &CaseFormat, bytes: &[u8]) -> Result<Case, Stop>
    ensures { EndsIn (over_values (seen_by content (case_in (encoding format.now) bytes.now))) result }
{
    match format {
        CaseFormat::Text => text_case(alloc, bytes),
        CaseFormat::Csv(alpha) => csv_case(alloc, *alpha, bytes),
        CaseFormat::Json => json_case(alloc, bytes),
    }
}

/// Tests whether a command with these needs can take a case: its kind first, then its size.
fn suitable(case: &Case, needs: Needs) -> Result<(), Trouble>
    ensures { MatchResult result (λ _. (suitable needs (content case.now)).Gives (content case.now))
        (suitable needs (content case.now)).Refuses }
{
    if !needs.kind.is_of(case) {
        return Err(Trouble::Kind);
    }
    if case.size() > needs.most {
        return Err(Trouble::Closure(case.size() as u64));
    }
    Ok(())
}

/// Returns the case that a source denotes in a format, if a command with these needs can take it.
///
/// It stops with a refusal if there are too many bytes, if they denote no case, or if the command can't take the case. It also
/// stops with `ReadFault` if the source had a fault, and with `NoMemory`.
///
/// An input may have at most 4194304 bytes. If the source isn't read to its end, at most one byte more than that is taken from
/// it.
pub fn accepted_case<S: Source>(
    alloc: Global,
    format: &CaseFormat,
    needs: Needs,
    source: &mut S,
) -> Result<Case, Stop>
    ensures ends { EndsIn (over_reading (seen_by content (accepted (encoding format.now) needs (S.left source.old)))
        (reading S.Source source.old) (reading S.Source source.new)) result }
    ensures end { OnOk result (IsAtEnd (S.left source.new)) }
    ensures taken { IsTakenWithin S.left S.calls source.old source.new }
{
    let bytes = take_whole(alloc, b"", source)?;
    let case = read_case(alloc, format, bytes.as_slice())?;
    match suitable(&case, needs) {
        Ok(()) => Ok(case),
        Err(trouble) => Err(trouble.stop(alloc, &case)),
    }
}
