//! Laws of the grammar and of templates. Each is the contract of a function that does nothing.

ghost use Rattle.std.specs.Prelude.{◌≡◌, ◌↔◌, ◌++◌, ◌∷◌, ◌==◌, not, true, List, ℕ, Option, Some, Ok};
ghost use Rattle.std.specs.List.{list_all};
ghost use Rattle.arz_json.specs.declared.tree.Json.{Json};
ghost use Rattle.arz_expr.specs.Grammar.{Reads};
ghost use Rattle.arz_expr.specs.Reading.{reading};
ghost use Rattle.arz_expr.specs.Filling.{Embedded, resolved, text_of_piece, between, mixed, filled_text};
ghost use Rattle.arz_expr.specs.declared.syntax.Base.{Base};
ghost use Rattle.arz_expr.specs.declared.syntax.Expr.{Expr};

/// A text is at most one expression.
pub fn one_reading()
    ensures { (text : List ℕ) (d e : Expr) → Reads text d → Reads text e → d ≡ e }
{}

/// The function `reading` finds an expression exactly where the grammar has the text as one, and that one.
pub fn reading_is_by_the_grammar()
    ensures { (text : List ℕ) (e : Expr) → (reading text ≡ Some e) ↔ Reads text e }
{}

/// A text that is an expression stands for its value.
pub fn expression_stands_for_its_value()
    ensures { (found : Base → Option Json) (text : List ℕ) (e : Expr) → Reads text e
        → filled_text found text ≡ resolved found e }
{}

/// An expression in braces, before which no `}` stands, gives way to its value as a text: what stands before
/// it stays, and what follows is a text of the same kind.
pub fn braces_hold_an_expression()
    ensures { (found : Base → Option Json) (before text after : List ℕ) (e : Expr) → Reads text e
        → list_all (λ b. not (b == 125)) before ≡ true
        → mixed found (before ++ 123 ∷ (text ++ 125 ∷ after))
        ≡ between before (text_of_piece found (Embedded e)) (mixed found after) }
{}

/// A text without `}` holds no expression.
pub fn text_without_brace_stays()
    ensures { (found : Base → Option Json) (text : List ℕ) → list_all (λ b. not (b == 125)) text ≡ true
        → mixed found text ≡ Ok text }
{}
