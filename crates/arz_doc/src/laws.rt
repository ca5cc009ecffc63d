//! Laws of the rules of descriptions. Each is the contract of a function that does nothing.

ghost use Rattle.std.specs.Prelude.{ℕ, Bool};
ghost use Rattle.arz_json.specs.declared.tree.Json.{Json};
ghost use Rattle.arz_doc.specs.Cycles.{TellsCycles};

/// There is a test of the workflows that depend on themselves, so that the rules of a description always come to
/// something.
pub fn cycles_are_told()
    ensures { (root : Json) → (is_cyclic : ℕ → Bool) × TellsCycles root is_cyclic }
{}
