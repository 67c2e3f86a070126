//! What is to be printed.
use std::fmt;

/// Bytes, with any lines in the place of each gap.
#[derive(Clone, Copy)]
pub struct Printed<'a> {
    /// The bytes before each gap.
    pub fronts: &'a [Vec<u8>],
    /// The bytes after the last gap, or all if there is none.
    pub last: &'a [u8],
}

impl<'a> Printed<'a> {
    /// Returns these bytes, without a gap.
    pub fn of(bytes: &'a [u8]) -> Printed<'a> {
        Printed {
            fronts: &[],
            last: bytes,
        }
    }

    /// Whether a text is what is to be printed.
    pub fn is(&self, text: &[u8]) -> bool {
        match self.fronts {
            [] => text == self.last,
            [first, others @ ..] => match text.strip_prefix(first.as_slice()) {
                Some(rest) => self.ends(rest, others),
                None => false,
            },
        }
    }

    /// Whether lines hold these bytes, one after another and each from the beginning of a line, and end with the last bytes.
    fn ends(&self, lines: &[u8], fronts: &[Vec<u8>]) -> bool {
        let mut rest = lines;
        for front in fronts {
            match behind(rest, front.as_slice()) {
                Some(others) => rest = others,
                None => return false,
            }
        }
        match rest.strip_suffix(self.last) {
            Some(before) => before.is_empty() || before.ends_with(b"\n"),
            None => false,
        }
    }
}

/// Returns what follows these bytes at the first line that begins with them; `None` if no line does.
fn behind<'a>(lines: &'a [u8], bytes: &[u8]) -> Option<&'a [u8]> {
    let mut rest = lines;
    for line in lines.split_inclusive(|byte| *byte == b'\n') {
        if let Some(others) = rest.strip_prefix(bytes) {
            return Some(others);
        }
        rest = rest.get(line.len()..)?;
    }
    None
}

impl fmt::Display for Printed<'_> {
    fn fmt<W: fmt::Write>(&self, f: &mut fmt::Formatter<W>) -> fmt::Result {
        for front in self.fronts {
            write!(f, "{}...\n", Lines(front.as_slice()))?;
        }
        write!(f, "{}", Lines(self.last))
    }
}

/// Bytes as they are reported: a line each, with the line feed at its end.
#[derive(Clone, Copy)]
pub struct Lines<'a>(pub &'a [u8]);

impl fmt::Display for Lines<'_> {
    fn fmt<W: fmt::Write>(&self, f: &mut fmt::Formatter<W>) -> fmt::Result {
        for line in self.0.split_inclusive(|byte| *byte == b'\n') {
            write!(f, "    {}\n", line.escape_ascii())?;
        }
        Ok(())
    }
}
