//! Laws of graphs. Each is the contract of a function that does nothing.

ghost use Rattle.std.specs.Prelude.{◌≡◌, ◌≤◌, ◌↔◌, [], ℕ, List, Bool, IsTrue};
ghost use Rattle.arz_graph.specs.Reaches.{Reaches, Leads};

/// There is a test of the nodes on cycles, where only the numbers below some count lead anywhere.
pub fn cycles_are_told()
    ensures { (next : ℕ → List ℕ) (count : ℕ) → ((i : ℕ) → count ≤ i → next i ≡ []) → (is_cyclic : ℕ → Bool) × ((i : ℕ) → IsTrue (is_cyclic i) ↔ Reaches (Leads next) i i) }
{}
