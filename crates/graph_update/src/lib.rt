//! The graph after removals, as a text: the weights and edges of each component, and the weights over all components.
//!
//! Proved of `update`:
//! - `text`: if it returns a text, the positions are those of hypotheses of the case, each once. The text is that of the written
//!   removals (`update_text`), one after another in their order.
//! - `fault`: unless out of memory, it is refused exactly if the positions aren't those of hypotheses, each once, or if the opening or
//!   a removal is undefined. The first undefined operation is reported, with the number of its removal.
//!
//! Laws in `src/laws.rt`: the printed levels are the intersection weights of what remains, whatever the order of the removals. The
//! edges are the same by value in every order.
#![tactic(auto)]

mod fault;
pub mod laws;
mod nets;
mod number;
mod positions;
mod text;
mod updated;

pub use fault::UpdateFault;
pub use updated::update;
