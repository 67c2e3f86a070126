//! The bytes that a line of a table gives.
use crate::blocks::Block;
use anyhow::{Context, Result, bail};
use std::alloc::Global;

/// Returns the bytes that a line gives by its mark and what follows it; `None` if the mark is not one of bytes.
pub fn bytes_of(
    alloc: Global,
    blocks: &[Block],
    mark: &str,
    rest: &str,
) -> Result<Option<Vec<u8>>> {
    let bytes = match mark {
        "|" => with_line_feed(alloc, rest)?,
        "/" => rest.as_bytes().to_vec(alloc)?,
        "%" => codes(alloc, rest)?,
        "*" => repeated(alloc, rest)?,
        "=" => named(blocks, rest)?.to_vec(alloc)?,
        "<" => lines_before(alloc, blocks, rest)?,
        ">" => lines_behind(alloc, blocks, rest)?,
        _ => return Ok(None),
    };
    Ok(Some(bytes))
}

/// Returns a text and a line feed.
fn with_line_feed(alloc: Global, text: &str) -> Result<Vec<u8>> {
    let mut bytes = text.as_bytes().to_vec(alloc)?;
    bytes.push(b'\n')?;
    Ok(bytes)
}

/// Returns the bytes that a text gives in hexadecimal.
fn codes(alloc: Global, text: &str) -> Result<Vec<u8>> {
    let mut bytes = Vec::new(alloc);
    for code in text.split_whitespace() {
        bytes.push(u8::from_str_radix(code, 16)?)?;
    }
    Ok(bytes)
}

/// Returns a text a number of times, both given by `TIMES TEXT`.
fn repeated(alloc: Global, text: &str) -> Result<Vec<u8>> {
    let (times, text) = text.split_once(' ').context("how often?")?;
    let mut bytes = Vec::new(alloc);
    for _ in 0..times.parse::<u32>()? {
        bytes.extend_from_slice(text.as_bytes())?;
    }
    Ok(bytes)
}

/// Returns the bytes of the text of this name.
fn named<'a>(blocks: &'a [Block], name: &str) -> Result<&'a [u8]> {
    for block in blocks {
        if block.word == "text" && block.rest == name {
            return block.whole();
        }
    }
    bail!("no text {name}")
}

/// Returns the bytes of a named text, and the number of one of its lines, both given by `NAME NUMBER`.
fn named_line<'a>(blocks: &'a [Block], text: &str) -> Result<(&'a [u8], usize)> {
    let (name, number) = text.split_once(' ').context("which line?")?;
    Ok((named(blocks, name)?, number.parse::<usize>()?))
}

/// Returns the lines of a named text before this one.
fn lines_before(alloc: Global, blocks: &[Block], text: &str) -> Result<Vec<u8>> {
    let (bytes, number) = named_line(blocks, text)?;
    let mut front = Vec::new(alloc);
    let lines = bytes.split_inclusive(|byte| *byte == b'\n');
    for line in lines.take(number.saturating_sub(1)) {
        front.extend_from_slice(line)?;
    }
    Ok(front)
}

/// Returns the lines of a named text after this one.
fn lines_behind(alloc: Global, blocks: &[Block], text: &str) -> Result<Vec<u8>> {
    let (bytes, number) = named_line(blocks, text)?;
    let mut back = Vec::new(alloc);
    let lines = bytes.split_inclusive(|byte| *byte == b'\n');
    for line in lines.skip(number) {
        back.extend_from_slice(line)?;
    }
    Ok(back)
}
