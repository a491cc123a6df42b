//! A law of lines.
ghost use Rattle.std.specs.Prelude.{◌≡◌, ◌++◌, ◌∷◌, [], ℕ, List};
ghost use Rattle.schedule_model.specs.Lines.{Line, line_text};
ghost use Rattle.schedule_text.specs.Joined.{after_commas};

/// The law that the text of a line is its first field, the others behind their commas, and a line feed. It does nothing.
pub fn lines_are_joined()
    ensures { (field : List ℕ) (fields : Line) → line_text (field ∷ fields) ≡ (field ++ after_commas fields) ++ (10 ∷ []) }
{}
