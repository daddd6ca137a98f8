ghost use Rattle.std.specs.Prelude.{◌≡◌, ◌↔◌, ◌⊎◌, ℕ, List, Some, IsUtf8};
ghost use Rattle.nb_syntax.specs.declared.tree.Cell.{Cell};
ghost use Rattle.nb_syntax.specs.Print.{cell_text};
ghost use Rattle.nb_parser.specs.declared.error.ParseError.{ParseError};
ghost use Rattle.nb_parser.specs.Text.{cell_of};
ghost use Rattle.nb_parser.specs.Parse.{Parses, IsRefused};

/// A law, with nothing to run: reading from left to right finds a cell exactly where the text spells it; a text spells one cell or is
/// refused for one reason, and never both.
pub fn law_of_cells()
    ensures cell { (text : List ℕ) (c : Cell) → (cell_of text ≡ Some c) ↔ Parses text c }
    ensures some { (text : List ℕ) → IsUtf8 text → ((c : Cell) × Parses text c) ⊎ ((e : ParseError) × IsRefused text e) }
    ensures one_cell { (text : List ℕ) (c d : Cell) → Parses text c → Parses text d → c ≡ d }
    ensures one_refusal { (text : List ℕ) (d e : ParseError) → IsRefused text d → IsRefused text e → d ≡ e }
    ensures never_both { (text : List ℕ) (c : Cell) (e : ParseError) → Parses text c → IsRefused text e → ⊥ }
{}

/// A law, with nothing to run: what is printed of a cell that a text spells spells that cell again.
pub fn law_of_printing()
    ensures { (text : List ℕ) (c : Cell) → Parses text c → Parses (cell_text c) c }
{}
