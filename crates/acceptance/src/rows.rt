//! Rows of a table: what a run is given, and how it must end.
use crate::blocks::Block;
use crate::counts::Counts;
use crate::fronts::Fronts;
use crate::plan::Plan;
use crate::printed::Printed;
use crate::runs::Given;
use crate::words::words_of;
use anyhow::{Context, Result, bail};
use fraction::Fraction;
use graph_io::Look;
use std::alloc::Global;

/// What is called.
#[derive(Clone, Copy, PartialEq, Eq, Debug)]
pub enum Call {
    /// `graph_cli::run`.
    Run,
    /// `study_cli::run_study`.
    Study,
    /// `graph_cli::file_word`: the status is the number of the word, from 1, or 0 if none names a file.
    FileWord,
}

/// A run.
#[derive(Drop)]
pub struct Row<'a> {
    /// The number of its first line.
    pub line: usize,
    pub call: Call,
    pub words: Vec<String>,
    /// The bytes on standard input, and those of the file, if they may be read.
    pub case: Option<&'a [u8]>,
    pub file: Option<&'a [u8]>,
    /// Whether the keeper may be called, the looks that it holds in the end, and how many of them it holds before.
    pub has_keeper: bool,
    pub looks: Vec<Look>,
    pub kept: usize,
    /// How many bytes of the case aren't taken.
    pub leaves: usize,
    pub ending: Option<Ending<'a>>,
    /// What `check` is to print of the case and what is printed.
    pub checked: Option<&'a [u8]>,
    /// The room of the sink in bytes, if it isn't that of a failing sink.
    pub room: Option<usize>,
    /// How long the printed text is, and its digest.
    pub counts: Option<Counts>,
    /// Whether each device is to fail in turn.
    pub devices: bool,
    pub fronts: Option<Fronts<'a>>,
}

/// How a run is to end.
#[derive(Clone, Copy)]
pub struct Ending<'a> {
    pub status: u8,
    pub printed: Printed<'a>,
}

impl<'a> Row<'a> {
    /// Returns a row that begins at a line and has only its words yet.
    fn new(alloc: Global, line: usize, call: Call, words: &str) -> Result<Row<'a>> {
        Ok(Row {
            line,
            call,
            words: words_of(alloc, words)?,
            case: None,
            file: None,
            has_keeper: true,
            looks: Vec::new(alloc),
            kept: 0,
            leaves: 0,
            ending: None,
            checked: None,
            room: None,
            counts: None,
            devices: false,
            fronts: None,
        })
    }

    /// Returns what its run is given.
    pub fn given(&self) -> Given<'_> {
        Given {
            call: self.call,
            words: self.words.as_slice(),
            case: self.case,
            file: self.file,
            kept: self.has_keeper.then_some(self.looks_behind(0)),
        }
    }

    /// Returns the plan of its run if no call fails.
    pub fn plan(&self) -> Plan {
        match self.room {
            Some(room) => Plan::of_room(room),
            None => Plan::whole(),
        }
    }

    /// Returns the looks that the keeper holds before, and this number after them.
    pub fn looks_behind(&self, more: usize) -> &[Look] {
        let looks = self.looks.as_slice();
        looks.get(..self.kept.saturating_add(more)).unwrap_or(looks)
    }

    /// Returns how many further looks the keeper holds in the end.
    pub fn looks_more(&self) -> usize {
        self.looks.len().saturating_sub(self.kept)
    }

    /// Puts what a block gives into the row.
    fn take(&mut self, alloc: Global, block: &'a Block) -> Result<()> {
        match (block.word, block.rest) {
            ("case", "") => put_once(&mut self.case, block.whole()?),
            ("file", "") => put_once(&mut self.file, block.whole()?),
            ("checked", "") => put_once(&mut self.checked, block.whole()?),
            ("ends", status) => put_once(&mut self.ending, ending_of(status, block)?),
            ("fronts", counts) => {
                self.fronts = Some(Fronts::read(alloc, counts, block.whole()?)?);
                Ok(())
            }
            _ => self.take_bare(block),
        }
    }

    /// Puts what a line without bytes below it gives into the row.
    fn take_bare(&mut self, block: &Block) -> Result<()> {
        if !block.is_bare() {
            bail!("bytes below {}", block.word);
        }
        match (block.word, block.rest) {
            ("kept", look) => self.keep(look_of(look)?)?,
            ("keeps", look) => self.looks.push(look_of(look)?)?,
            ("keeper", "none") => self.has_keeper = false,
            ("leaves", count) => self.leaves = count.parse::<usize>()?,
            ("room", bytes) => self.room = Some(bytes.parse::<usize>()?),
            ("counts", counts) => self.counts = Some(Counts::read(counts)?),
            ("devices", "") => self.devices = true,
            (word, _) => bail!("{word} says nothing of a row"),
        }
        Ok(())
    }

    /// Puts a look after those that are held before.
    fn keep(&mut self, look: Look) -> Result<()> {
        if self.looks_more() > 0 {
            bail!("kept behind keeps");
        }
        self.looks.push(look)?;
        self.kept = self.looks.len();
        Ok(())
    }
}

/// Puts a value if none was put before.
fn put_once<T: Copy>(place: &mut Option<T>, value: T) -> Result<()> {
    if place.is_some() {
        bail!("said twice");
    }
    *place = Some(value);
    Ok(())
}

/// Returns how a run is to end, by the words after `ends` and the bytes below.
fn ending_of<'a>(status: &str, block: &'a Block) -> Result<Ending<'a>> {
    Ok(Ending {
        status: status.parse::<u8>()?,
        printed: block.printed(),
    })
}

/// Reads a look from `POSITION STAGE P`; the position of its hypothesis counts from 0.
fn look_of(text: &str) -> Result<Look> {
    let (hypothesis, rest) = text.split_once(' ').context("no stage")?;
    let (stage, p) = rest.split_once(' ').context("no p-value")?;
    let Ok(p) = Fraction::parse(p.as_bytes()) else {
        bail!("no p-value");
    };
    Ok(Look {
        hypothesis: hypothesis.parse::<u32>()?,
        stage: stage.parse::<u32>()?,
        p: p.ratio(),
    })
}

/// Takes a block: it is a text, which other blocks name, or begins a row, or gives something of the last row.
fn take<'a>(alloc: Global, rows: &mut Vec<Row<'a>>, block: &'a Block) -> Result<()> {
    let call = match block.word {
        "text" => return Ok(()),
        "run" => Call::Run,
        "run_study" => Call::Study,
        "file_word" => Call::FileWord,
        word => match rows.last_mut() {
            Some(row) => return row.take(alloc, block),
            None => bail!("{word} of no row"),
        },
    };
    if !block.is_bare() {
        bail!("bytes below words");
    }
    rows.push(Row::new(alloc, block.line, call, block.rest)?)?;
    Ok(())
}

/// Returns the rows that blocks give.
pub fn read_rows<'a>(alloc: Global, blocks: &'a [Block]) -> Result<Vec<Row<'a>>> {
    let mut rows = Vec::new(alloc);
    for block in blocks {
        let line = block.line;
        take(alloc, &mut rows, block).context(format_args!("line {line}"))?;
    }
    Ok(rows)
}
