//! Runs of the top calls over sources, keepers and sinks in memory.
use crate::endings::Ended;
use crate::plan::Plan;
use crate::rows::Call;
use anyhow::Result;
use field_core::List;
use graph_cli::{file_word, run};
use graph_io::{FailingKeeper, FailingSink, FailingSource, Keeper, Look, MemorySink, Sink, Source};
use std::alloc::{AllocError, Global};
use study_cli::run_study;

/// What a run is given. A source without bytes fails at its first take, and a keeper without looks at its first call.
#[derive(Clone, Copy)]
pub struct Given<'a> {
    pub call: Call,
    pub words: &'a [String],
    pub case: Option<&'a [u8]>,
    pub file: Option<&'a [u8]>,
    pub kept: Option<&'a [Look]>,
}

impl Given<'_> {
    /// Runs over devices by plan.
    pub fn run(&self, alloc: Global, plan: &Plan) -> Result<Ended> {
        match plan.room {
            Some(room) => self.run_in_room(alloc, plan, room),
            None => self.run_by_puts(alloc, plan),
        }
    }

    /// Runs over a sink that has this room.
    fn run_in_room(&self, alloc: Global, plan: &Plan, room: usize) -> Result<Ended> {
        let mut out = MemorySink::with_room(alloc, room).map_err(|_| AllocError)?;
        let mut ended = self.run_into(alloc, plan, &mut out)?;
        ended.printed = out.held().to_vec(alloc)?;
        Ok(ended)
    }

    /// Runs over a sink whose puts are planned.
    fn run_by_puts(&self, alloc: Global, plan: &Plan) -> Result<Ended> {
        let fails = one(alloc, plan.put)?;
        let mut out = FailingSink::new(alloc, plan.put_most.max(1), fails).map_err(|_| AllocError)?;
        let mut ended = self.run_into(alloc, plan, &mut out)?;
        ended.printed = out.held().to_vec(alloc)?;
        Ok(ended)
    }

    /// Runs over this sink, and over sources and a keeper by plan. What the sink holds isn't reported.
    fn run_into<W: Sink>(&self, alloc: Global, plan: &Plan, out: &mut W) -> Result<Ended> {
        let mut case = source(alloc, self.case, plan.take_most, plan.case_take)?;
        let mut file = source(alloc, self.file, plan.take_most, plan.file_take)?;
        let mut keeper = keeper(alloc, self.kept, plan.keeper_call)?;
        let status = self.status(alloc, &mut case, &mut file, &mut keeper, out);
        Ok(Ended {
            status,
            printed: Vec::new(alloc),
            looks: keeper.looks().to_vec(alloc)?,
            left: case.take(&mut [0; 8]).ok(),
        })
    }

    /// Makes the call, and returns the status.
    fn status<S: Source, T: Source, K: Keeper, W: Sink>(
        &self,
        alloc: Global,
        case: &mut S,
        file: &mut T,
        keeper: &mut K,
        out: &mut W,
    ) -> u8 {
        match self.call {
            Call::Run => run_status(alloc, self.words, case, file, out),
            Call::Study => study_status(alloc, self.words, case, file, keeper, out),
            Call::FileWord => file_number(self.words),
        }
    }
}

/// Returns the status of `run`.
fn run_status<S: Source, T: Source, W: Sink>(
    alloc: Global,
    words: &[String],
    case: &mut S,
    file: &mut T,
    out: &mut W,
) -> u8 {
    run(alloc, words, case, file, out)
}

/// Returns the status of `run_study`.
fn study_status<S: Source, T: Source, K: Keeper, W: Sink>(
    alloc: Global,
    words: &[String],
    case: &mut S,
    file: &mut T,
    keeper: &mut K,
    out: &mut W,
) -> u8 {
    run_study(alloc, words, case, file, keeper, out)
}

/// Returns the number of the word that names a file, from 1, or 0 if none does.
fn file_number(words: &[String]) -> u8 {
    match file_word(words) {
        Some(place) => u8::try_from(place.saturating_add(1)).unwrap_or(u8::MAX),
        None => 0,
    }
}

/// Returns a list of one number.
fn one(alloc: Global, number: u64) -> Result<List<u64>, AllocError> {
    Ok(List::of([number].to_vec(alloc)?))
}

/// Returns a source of these bytes that fails at this take; or, without bytes, at its first.
fn source(
    alloc: Global,
    bytes: Option<&[u8]>,
    most: usize,
    take: u64,
) -> Result<FailingSource, AllocError> {
    let (bytes, take) = match bytes {
        Some(bytes) => (bytes, take),
        None => (b"".as_slice(), 1),
    };
    let bytes = List::of(bytes.to_vec(alloc)?);
    Ok(FailingSource::new(bytes, most.max(1), one(alloc, take)?))
}

/// Returns a keeper of these looks that fails at this call; or, without looks, at its first.
fn keeper(alloc: Global, looks: Option<&[Look]>, call: u64) -> Result<FailingKeeper, AllocError> {
    match looks {
        Some(looks) => {
            let looks = List::of(looks.to_vec(alloc)?);
            Ok(FailingKeeper::new(looks, one(alloc, call)?))
        }
        None => Ok(FailingKeeper::new(List::new(alloc), one(alloc, 1)?)),
    }
}
