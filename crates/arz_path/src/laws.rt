//! Laws of selecting. Each is the contract of a function that does nothing.

ghost use Rattle.std.specs.Prelude.{ℕ, List};
ghost use Rattle.arz_json.specs.Tree.{IsWellFormed};
ghost use Rattle.arz_json.specs.declared.tree.Json.{Json};
ghost use Rattle.arz_rx.specs.Patterns.{PatternsView};
ghost use Rattle.arz_query.specs.declared.query.Segment.{Segment};
ghost use Rattle.arz_path.specs.Selected.{Setting, TellsAll, IsTold, selected};
ghost use Rattle.arz_path.specs.Results.{setting_of};
ghost use Rattle.arz_path.specs.Finding.{IsFound, EachGiven};

/// Each node that a query selects in a well-formed tree is the one that its place names, as `found` finds it.
#[tactic(auto, using(crate::proofs::SelectedPlaces::selected_is_found))]
pub fn selected_is_found()
    ensures { (vs : List Segment) (root : Json) (patterns : PatternsView) → IsWellFormed root
        → EachGiven (IsFound root) (selected vs (setting_of patterns root)) }
{}

/// Where something is told of each pattern and text, a query selects places or too many of them: what `select`
/// ensures is never silent.
#[tactic(auto, using(crate::proofs::Told::selected_is_told))]
pub fn selected_is_told()
    ensures { (vs : List Segment) (setting : Setting) → TellsAll setting → IsTold (selected vs setting) }
{}
