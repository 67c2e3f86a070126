//! How long a printed text is, and a digest of its bytes.
use anyhow::{Context, Result};
use std::fmt;

/// The number of lines of a text, and the FNV-1a digest of its bytes, of 64 bits.
#[derive(Clone, Copy, PartialEq, Eq, Debug)]
pub struct Counts {
    lines: usize,
    digest: u64,
}

impl Counts {
    /// Reads `LINES DIGEST`, the digest in hexadecimal digits.
    pub fn read(text: &str) -> Result<Counts> {
        let (lines, digest) = text.split_once(' ').context("no digest")?;
        Ok(Counts {
            lines: lines.parse::<usize>()?,
            digest: u64::from_str_radix(digest, 16)?,
        })
    }

    /// Counts the lines of a text, and computes its digest.
    pub fn of(text: &[u8]) -> Counts {
        let mut digest: u64 = 0xcbf2_9ce4_8422_2325;
        for byte in text {
            digest = (digest ^ (*byte as u64)).wrapping_mul(0x0100_0000_01b3);
        }
        Counts {
            lines: text.iter().filter(|byte| **byte == b'\n').count(),
            digest,
        }
    }
}

impl fmt::Display for Counts {
    fn fmt<W: fmt::Write>(&self, f: &mut fmt::Formatter<W>) -> fmt::Result {
        write!(f, "{} lines, digest {:016x}", self.lines, self.digest)
    }
}
