//! A graph in rows from which hypotheses are removed.
ghost use Rattle.std.specs.Prelude.{◌≡◌, true, length};
ghost use Rattle.removal.specs.ByValue.{IsSound, sound_is_fact};
ghost use Rattle.eps_quotient.specs.Quotients.{quotients};
ghost use Rattle.row_removal.specs.StoredRows.{rows_size, rows_graph};
ghost use Rattle.row_removal.specs.Proper.{AreProperRows, HasRoom, proper_is_fact};

use crate::gathering::GivenGraph;
use crate::graph::RowGraph;
use crate::row::Row;
use eps_quotient::EpsQuotient;
use field_core::{Fault, Number, Ratio, Wide};
use removal::Remover;
use std::alloc::Global;

/// Why no rows were opened: a written operation of the gathering has a part past its size, or the call is out of memory.
pub type RowOpen = Fault<Wide>;

/// A graph of quotients in epsilon in rows, room for the graph after the next removal, and a spare row for the quotients of a
/// clearing.
///
/// All exist from the start, so no removal takes memory.
#[derive(Drop)]
pub struct RowNet {
    present: RowGraph,
    next: RowGraph,
    spare: Row,
    is_prepared: bool,
    ghost proper: { AreProperRows present } by { Prim.hlevel proper_is_fact },
    ghost sound: { IsSound quotients (rows_graph present) } by { Prim.hlevel sound_is_fact },
    ghost next_proper: { is_prepared ≡ true → AreProperRows next } by { Prim.hlevel proper_is_fact },
    ghost next_sound: { is_prepared ≡ true → IsSound quotients (rows_graph next) } by { Prim.hlevel sound_is_fact },
    ghost room: { HasRoom (rows_size present) next },
    ghost spare_room: { length spare.numerators ≡ rows_size present },
}

#[tactic(auto, unfolding(crate::specs::RowNetView::present_rows, crate::specs::RowNetView::prepared_rows))]
impl RowNet {
    ghost use Rattle.std.specs.Prelude.{◌≡◌, length, IfOk, None};
    ghost use Rattle.field_core.specs.Made.{Makes};
    ghost use Rattle.removal.specs.StoredGraph.{IsSquare, AreAllLive};
    ghost use Rattle.removal.specs.ByValue.{IsSound, graph_of};
    ghost use Rattle.eps_quotient.specs.Quotients.{quotients};
    ghost use Rattle.row_removal.specs.StoredRows.{rows_graph};
    ghost use Rattle.row_removal.specs.Gathering.{HasConstants, gathered};
    ghost use Rattle.row_removal.specs.GivenView.{graph_given};
    ghost use Rattle.row_removal.specs.RowNetView.{present_rows, prepared_rows};

    /// Returns the net with these weights and edges. All hypotheses remain, and nothing is prepared. There are at most 64
    /// hypotheses, a weight and a row of edges for each, they are a valid graph, and every denominator is a constant. The edges
    /// are in order, row by row. The number for an edge from a hypothesis to itself isn't read.
    ///
    /// The rows are gathered. Unless out of memory, the call is refused with `RowOpen::Wide` exactly if the gathering is undefined.
    pub fn try_new(
        alloc: Global,
        weights: &[EpsQuotient],
        edges: &[EpsQuotient],
    ) -> Result<RowNet, RowOpen>
        requires square { IsSquare (length weights.now) (length weights.now) (length edges.now) }
        requires constants { HasConstants (graph_given weights.now edges.now) }
        requires sound { IsSound quotients (graph_given weights.now edges.now) }
        ensures rows { Makes present_rows result (gathered (graph_given weights.now edges.now)) }
        ensures value { IfOk result (λ n. graph_of quotients (rows_graph (present_rows n)) ≡ graph_of quotients
            (graph_given weights.now edges.now)) }
        ensures live { IfOk result (λ n. AreAllLive (rows_graph (present_rows n))) }
        ensures prepared { IfOk result (λ n. prepared_rows n ≡ None) }
    {
        let count = weights.len();
        let mut present = RowGraph::zeros(alloc, count)?;
        let next = RowGraph::zeros(alloc, count)?;
        let spare = Row::zeros(alloc, count)?;
        present.gather(&GivenGraph::new(weights, edges))?;
        Ok(RowNet {
            present,
            next,
            spare,
            is_prepared: false,
        })
    }
}

#[tactic(auto, using(crate::specs::Laws::RowLive::row_live), unfolding(crate::specs::RowNetView::present_rows, crate::specs::RowNetView::prepared_rows, crate::specs::StoredRows::rows_graph))]
impl Remover for RowNet {
    ghost use Rattle.row_removal.specs.StoredRows.{StoredRows, rows_graph};
    ghost use Rattle.row_removal.specs.RowRemoval.{row_removal};
    ghost use Rattle.row_removal.specs.Proper.{AreProperRows};
    ghost use Rattle.row_removal.specs.RowNetView.{present_rows, prepared_rows, row_net_sound, row_net_proper};
    ghost use Rattle.row_removal.specs.Laws.RowsExact.{rows_remove_exactly};

    type Value = EpsQuotient;

    ghost State = { StoredRows };

    ghost graph = { rows_graph };

    ghost IsProper = { AreProperRows };

    ghost removal = { row_removal };

    ghost present = { present_rows };

    ghost prepared = { prepared_rows };

    fn size(&self) -> usize {
        self.present.size()
    }

    fn is_live(&self, k: usize) -> bool {
        self.present.is_live(k)
    }

    fn weight(&self, k: usize) -> EpsQuotient {
        self.present.weight(k)
    }

    fn edge(&self, l: usize, k: usize) -> EpsQuotient {
        self.present.edge(l, k)
    }

    fn prepare(&mut self, j: usize) -> Result<(), Wide> {
        self.is_prepared = false;
        self.present
            .write_removal(j, &mut self.next, &mut self.spare)?;
        self.is_prepared = true;
        Ok(())
    }

    fn prepared_limit(&self, k: usize) -> Ratio {
        self.next.weight_limit(k)
    }

    fn commit(&mut self) {
        std::mem::swap(&mut self.present, &mut self.next);
        self.is_prepared = false;
    }

    fn remove(&mut self, j: usize) -> Result<(), Wide> {
        self.prepare(j)?;
        self.commit();
        Ok(())
    }

    fn set_to(&mut self, other: &RowNet) {
        self.present.copy_from(&other.present);
        self.is_prepared = false;
    }

    ghost sound = { row_net_sound };

    ghost proper = { row_net_proper };

    ghost exact = { rows_remove_exactly };
}
