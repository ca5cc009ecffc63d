//! Laws of the grammar of queries. Each is the contract of a function that does nothing.

ghost use Rattle.std.specs.Prelude.{ℕ, List, []};
ghost use Rattle.arz_query.specs.Answers.{AreSame, IsInside};
ghost use Rattle.arz_query.specs.Grammar.{IsQuery};
ghost use Rattle.arz_query.specs.declared.pieces.Marks.{Marks};
ghost use Rattle.arz_query.specs.declared.query.Segment.{Segment};

/// A text is at most one query, and its flaw of the least offset is the same however it is derived.
pub fn one_reading()
    ensures { (text : List ℕ) (vs ws : List Segment) (m n : Marks) → IsQuery text vs m → IsQuery text ws n → AreSame vs ws m n }
{}

/// A flaw of a text lies in it, so that the offset of its fault is one of the text.
pub fn places_are_in_the_text()
    ensures { (text : List ℕ) (vs : List Segment) (m : Marks) → IsQuery text vs m → IsInside text [] m }
{}
