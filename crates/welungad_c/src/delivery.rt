//! The delivery of a text to the caller.
ghost use Rattle.welungad_c.specs.Delivery.{Delivers};

/// Puts as much of a text as fits at the front of `out`, and its length into `needed`.
///
/// Returns the text's status, or 7 if the text doesn't fit. What is after the text in `out` stays.
pub fn deliver(text: &[u8], status: u8, out: &mut [u8], needed: &mut usize) -> u8
    ensures { Delivers text.now status out.old out.new needed.new result }
{
    let count = text.len().min(out.len());
    out[..count].copy_from_slice(&text[..count]);
    *needed = text.len();
    if out.len() < text.len() { 7 } else { status }
}
