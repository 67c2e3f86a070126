//! How runs end.
use crate::printed::{Lines, Printed};
use graph_io::Look;
use std::fmt;

/// How a run is to end.
#[derive(Clone, Copy)]
pub struct Wanted<'a> {
    pub status: u8,
    pub printed: Printed<'a>,
    /// The looks that the keeper holds.
    pub looks: &'a [Look],
}

/// How a run ended.
#[derive(Drop)]
pub struct Ended {
    pub status: u8,
    pub printed: Vec<u8>,
    pub looks: Vec<Look>,
    /// How many bytes of the case weren't taken, at most 8; `None` if the next take fails.
    pub left: Option<usize>,
}

impl Wanted<'_> {
    /// Whether a run ended as wanted.
    pub fn is(&self, ended: &Ended) -> bool {
        self.status == ended.status
            && self.printed.is(ended.printed.as_slice())
            && self.looks == ended.looks.as_slice()
    }
}

impl fmt::Display for Wanted<'_> {
    fn fmt<W: fmt::Write>(&self, f: &mut fmt::Formatter<W>) -> fmt::Result {
        write!(
            f,
            "status {}\n{}{}",
            self.status,
            self.printed,
            Looks(self.looks)
        )
    }
}

impl fmt::Display for Ended {
    fn fmt<W: fmt::Write>(&self, f: &mut fmt::Formatter<W>) -> fmt::Result {
        let printed = Lines(self.printed.as_slice());
        let looks = Looks(self.looks.as_slice());
        write!(f, "status {}\n{printed}{looks}", self.status)
    }
}

/// Looks as they are reported, a line each.
#[derive(Clone, Copy)]
struct Looks<'a>(&'a [Look]);

impl fmt::Display for Looks<'_> {
    fn fmt<W: fmt::Write>(&self, f: &mut fmt::Formatter<W>) -> fmt::Result {
        for look in self.0 {
            let Look {
                hypothesis,
                stage,
                p,
            } = look;
            write!(f, "    look {hypothesis} {stage} {}/{}\n", p.num(), p.den())?;
        }
        Ok(())
    }
}
