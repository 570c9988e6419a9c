//! What follows from the definitions that the contracts cite, each law the contract of a function.

ghost use Rattle.std.specs.Prelude.{◌≡◌, ℕ, List};
ghost use Rattle.constriction_text.specs.Grammar.{Request, Spells};
ghost use Rattle.constriction_text.specs.Text.{IsAnswer, IsTextOf};

/// A line spells at most one request.
pub fn a_line_spells_at_most_one_request()
    ensures { (line : List ℕ) (one other : Request) → Spells line one → Spells line other
        → one ≡ other }
{}

/// A line has an answer, and only one.
pub fn a_line_has_one_answer()
    ensures some { (line : List ℕ) → (text : List ℕ) × IsAnswer line text }
    ensures alone { (line one other : List ℕ) → IsAnswer line one → IsAnswer line other
        → one ≡ other }
{}

/// An input has a text that answers it, and only one.
pub fn an_input_has_one_text()
    ensures some { (input : List ℕ) → (text : List ℕ) × IsTextOf input text }
    ensures alone { (input one other : List ℕ) → IsTextOf input one → IsTextOf input other
        → one ≡ other }
{}
