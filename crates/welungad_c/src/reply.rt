//! Replies of the top call.
ghost use Rattle.std.specs.Prelude.{◌≡◌, IfOk};
ghost use Rattle.graph_io.specs.MemorySource.{bytes_left};

use field_core::{List, NoMemory};
use graph_cli::run;
use graph_io::{MemorySource, WholeText};
use std::alloc::Global;

/// A reply of the top call: a status up to 5, or 8, and the whole text that comes with it.
#[derive(Drop)]
pub struct Reply {
    pub status: u8,
    pub text: List<u8>,
}

impl Reply {
    ghost use Rattle.command_words.specs.WordBytes.{words_in};
    ghost use Rattle.welungad_c.specs.Calls.{Replies};

    /// Returns the reply of the top call to these words, this case and this proof. `NoMemory`: out of memory for the bytes or for
    /// the text.
    pub fn to(alloc: Global, words: &[String], case: &[u8], proof: &[u8]) -> Result<Reply, NoMemory>
        ensures { IfOk result (λ reply.
            Replies (words_in words.now) case.now proof.now reply.text reply.status) }
    {
        let mut case = source(alloc, case)?;
        let mut proof = source(alloc, proof)?;
        let mut out = WholeText::new(alloc);
        let status = run(alloc, words, &mut case, &mut proof, &mut out);
        if status == 7 {
            return Err(NoMemory);
        }
        Ok(Reply {
            status,
            text: out.into_text(),
        })
    }
}

/// Returns a source of a copy of these bytes.
pub(crate) fn source(alloc: Global, bytes: &[u8]) -> Result<MemorySource, NoMemory>
    ensures { IfOk result (λ source. bytes_left source ≡ bytes.now) }
{
    let mut copy = List::new(alloc);
    copy.append(bytes)?;
    Ok(MemorySource::new(copy))
}
