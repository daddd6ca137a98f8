//! Laws of the printing, with nothing to run.

ghost use Rattle.nb_print.specs.Law.{LinesFixLog};

/// A law, with nothing to run: two logs with equal lines are equal, where a text spells each cell in them and each number
/// in them has at most 64 bits.
pub fn law_of_lines()
    ensures { LinesFixLog }
{}
