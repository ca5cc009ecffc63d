//! Laws of places and kinds. Each is the contract of a function that does nothing.

ghost use Rattle.std.specs.Prelude.{◌≡◌, ◌↔◌, [], List, true, false};
ghost use Rattle.arz_json.specs.Tree.{has_opaque};
ghost use Rattle.arz_json.specs.declared.tree.Json.{Json};
ghost use Rattle.arz_json.specs.declared.place.Token.{Token};
ghost use Rattle.arz_rules.specs.Place.{least};
ghost use Rattle.arz_rules.specs.Laws.{IsLeast, is_chosen_once};
ghost use Rattle.arz_rules.specs.Kinds.{form_of};
ghost use Rattle.arz_rules.specs.Misses.{misses};
ghost use Rattle.arz_rules.specs.declared.kinds.Kind.{Kind};
ghost use Rattle.arz_rules.specs.declared.kinds.Kind.TheVariants.{Solid};

/// The place that is told is one of those that fail, and none of them is before it; there is none
/// exactly where none fails.
pub fn least_of_places()
    ensures { (ps : List (List Token)) → IsLeast ps (least ps) }
{}

/// What a choice among kinds leads to is no choice again, so that a tree is looked at by one kind; and
/// what it looks at in a member is told without a look inside it.
pub fn choices_are_made_once()
    ensures { (kind : Kind) → is_chosen_once (form_of kind) ≡ true }
{}

/// A tree has the kind `Solid` exactly where no number in it is kept without its value.
pub fn solid_trees()
    ensures { (tree : Json) → (misses tree Solid ≡ []) ↔ (has_opaque tree ≡ false) }
{}
