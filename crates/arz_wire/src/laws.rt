//! Laws of the wire form. Each is the contract of a function that does nothing.

ghost use Rattle.std.specs.Prelude.{◌≡◌, ◌≢◌, ◌++◌, List, ℕ, Err};
ghost use Rattle.arz_json.specs.declared.tree.Json.{Json};
ghost use Rattle.arz_wire.specs.Spelling.{spelling};
ghost use Rattle.arz_wire.specs.Reading.{first_tree};
ghost use Rattle.arz_wire.specs.declared.fault.WireFault.TheVariants.{Short};

/// A tree has one spelling, and no spelling begins another one: where two texts that begin with a
/// spelling are the same bytes, they spell the same tree, and the same bytes follow.
pub fn one_spelling()
    ensures { (v w : Json) (x y : List ℕ) → spelling v ++ x ≡ spelling w ++ y → (v ≡ w) × (x ≡ y) }
{}

/// What bytes give stays, whatever bytes follow: the tree and the number of its bytes, and each fault with
/// its place. Only bytes that end too early can give something else.
pub fn readings_stay()
    ensures { (bytes more : List ℕ) → first_tree bytes ≢ Err Short
        → first_tree (bytes ++ more) ≡ first_tree bytes }
{}

/// Bytes that end too early can always go on: some bytes behind them give a tree, or a fault that stays.
pub fn short_can_go_on()
    ensures { (bytes : List ℕ) → first_tree bytes ≡ Err Short
        → (more : List ℕ) × (first_tree (bytes ++ more) ≢ Err Short) }
{}
