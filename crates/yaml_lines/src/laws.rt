//! Laws of the definitions, each the contract of a function that does nothing.

ghost use Rattle.std.specs.Prelude.{◌≡◌, ℕ, List, Option};
ghost use Rattle.yaml_base.specs.PlainFault.{PlainFault};
ghost use Rattle.yaml_lines.specs.LineText.{Said, IsLine};
ghost use Rattle.yaml_lines.specs.InputText.{MarkedEvents, IsInput, IsFirstBadLine};

/// An input has at most one reading: a line says one thing, and lines say one list of events with one fault or none, or
/// have one first bad line, and never both.
pub fn an_input_has_one_reading()
    ensures line { (line : List ℕ) (a b : Said) → IsLine line a → IsLine line b → a ≡ b }

    ensures events { (lines : List (List ℕ)) (es es' : MarkedEvents) (f f' : Option PlainFault)
        → IsInput lines es f → IsInput lines es' f' → (es ≡ es') × (f ≡ f') }

    ensures bad { (lines : List (List ℕ)) (m n : ℕ)
        → IsFirstBadLine lines m → IsFirstBadLine lines n → m ≡ n }

    ensures apart { (lines : List (List ℕ)) (es : MarkedEvents) (f : Option PlainFault) (n : ℕ)
        → IsInput lines es f → ¬ (IsFirstBadLine lines n) }
{}
