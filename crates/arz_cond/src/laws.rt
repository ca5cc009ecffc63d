//! Laws of criteria and of the grammar of their conditions. Each is the contract of a function that does nothing.

ghost use Rattle.std.specs.Prelude.{◌≡◌, ℕ, Bool, List};
ghost use Rattle.arz_cond.specs.Grammar.{IsCondition};
ghost use Rattle.arz_cond.specs.Outcomes.{MeansItsOutcome, ReadsUnlessFault, RefusesByItsFault};
ghost use Rattle.arz_cond.specs.declared.term.Term.{Term};

/// A text spells at most one term.
pub fn one_reading()
    ensures { (fractions : Bool) (text : List ℕ) (t u : Term) → IsCondition fractions text t → IsCondition fractions text u → t ≡ u }
{}

/// What a criterion comes to, and why it can't be read, are functions of its texts, which the grammars tie to what they
/// spell: a criterion that is read means what the one gives, it is read exactly where the other gives no fault, and a
/// fault says of it just what that gives.
pub fn by_functions()
    ensures means { MeansItsOutcome }
    ensures reads { ReadsUnlessFault }
    ensures refuses { RefusesByItsFault }
{}
