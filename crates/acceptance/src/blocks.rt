//! Blocks of a table: a line that names something, and the bytes that the lines below it give.
use crate::pieces::bytes_of;
use crate::printed::Printed;
use anyhow::{Context, Result, bail};
use std::alloc::Global;
use std::mem;

/// A line, and the bytes below it.
#[derive(Drop)]
pub struct Block<'a> {
    /// The number of the line, from 1.
    pub line: usize,
    /// The first word of the line, and what follows it.
    pub word: &'a str,
    pub rest: &'a str,
    /// The bytes before each gap.
    fronts: Vec<Vec<u8>>,
    /// The bytes after the last gap, or all if there is none.
    bytes: Vec<u8>,
}

impl Block<'_> {
    /// Whether no bytes are below the line.
    pub fn is_bare(&self) -> bool {
        self.fronts.is_empty() && self.bytes.is_empty()
    }

    /// Returns the bytes; fails if there is a gap among them.
    pub fn whole(&self) -> Result<&[u8]> {
        if self.fronts.is_empty() {
            return Ok(self.bytes.as_slice());
        }
        bail!("a gap among bytes that are given")
    }

    /// Returns the bytes and gaps as what is to be printed.
    pub fn printed(&self) -> Printed<'_> {
        Printed {
            fronts: self.fronts.as_slice(),
            last: self.bytes.as_slice(),
        }
    }
}

/// The blocks of a table, in their order.
#[derive(Drop)]
struct Blocks<'a> {
    alloc: Global,
    blocks: Vec<Block<'a>>,
}

impl<'a> Blocks<'a> {
    /// Takes a line.
    fn take(&mut self, number: usize, line: &'a str) -> Result<()> {
        if line.is_empty() || line.starts_with('#') {
            return Ok(());
        }
        if line == "..." {
            return self.part();
        }
        let (word, rest) = line.split_once(' ').unwrap_or((line, ""));
        match bytes_of(self.alloc, self.blocks.as_slice(), word, rest)? {
            Some(bytes) => self.put(bytes.as_slice()),
            None => self.open(number, word, rest),
        }
    }

    /// Begins a block.
    fn open(&mut self, line: usize, word: &'a str, rest: &'a str) -> Result<()> {
        self.blocks.push(Block {
            line,
            word,
            rest,
            fronts: Vec::new(self.alloc),
            bytes: Vec::new(self.alloc),
        })?;
        Ok(())
    }

    /// Puts bytes after those of the last block.
    fn put(&mut self, bytes: &[u8]) -> Result<()> {
        let Some(block) = self.blocks.last_mut() else {
            bail!("bytes of nothing");
        };
        block.bytes.extend_from_slice(bytes)?;
        Ok(())
    }

    /// Puts a gap after the bytes of the last block.
    fn part(&mut self) -> Result<()> {
        let Some(block) = self.blocks.last_mut() else {
            bail!("a gap of nothing");
        };
        let front = mem::replace(&mut block.bytes, Vec::new(self.alloc));
        block.fronts.push(front)?;
        Ok(())
    }
}

/// Returns the blocks of a table.
pub fn read_blocks(alloc: Global, table: &str) -> Result<Vec<Block<'_>>> {
    let mut blocks = Blocks {
        alloc,
        blocks: Vec::new(alloc),
    };
    let mut number: usize = 0;
    for line in table.lines() {
        number = number.saturating_add(1);
        blocks
            .take(number, line)
            .context(format_args!("line {number}"))?;
    }
    Ok(blocks.blocks)
}
