// Nodes on cycles.
ghost use Rattle.std.specs.Prelude.{◌≡◌, ◌<◌, ◌↔◌, ℕ, false, length, IfOk, IsTrue, slice_index_or};
ghost use Rattle.arz_graph.specs.Reaches.{IsCyclic};

use crate::search::Search;
use std::alloc::{AllocError, Global};

/// For each node of a directed graph whether it lies on a cycle: whether it reaches itself along one or more edges.
/// The nodes are the numbers of the lists, and each list has the targets of its node's edges; a target that is no
/// node leads nowhere. Takes time and memory linear in nodes and edges.
pub fn on_cycles(alloc: Global, graph: &[Vec<usize>]) -> Result<Vec<bool>, AllocError>
    ensures len { IfOk result (λ flags. length flags.items ≡ length graph.now) }
    ensures cyclic { IfOk result (λ flags. (i : ℕ) → IsTrue (slice_index_or flags.items i false) ↔ IsCyclic graph.now i) }
{
    let mut search = Search::new(alloc, graph.len())?;
    for root in 0..graph.len() {
        search.explore(graph, root)?;
    }
    search.flags(alloc)
}
