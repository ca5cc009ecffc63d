//! Laws of trees and pointers. Each is the contract of a function that does nothing.

ghost use Rattle.std.specs.Prelude.{◌≡◌, List, ℕ, Some};
ghost use Rattle.arz_json.specs.Laws.{IsPut};
ghost use Rattle.arz_json.specs.Put.{with_value};
ghost use Rattle.arz_json.specs.declared.tree.Json.{Json};

/// A value that is put at a place stands there (RFC 6901, section 4), and each place that lies neither
/// under it nor above it names what it named before: no sibling is lost.
pub fn put_changes_no_other_place()
    ensures { (new before after : Json) (pointer : List ℕ) → with_value new pointer before ≡ Some after → IsPut new pointer before after }
{}
