//! Laws of the grammar. These functions do nothing: what they promise is the law.

ghost use Rattle.command_line.specs.WrittenLines.{CutWordsAreLines, LinesAreCut, OrderMakesNoDifference};

/// The words of a command line, as the grammar is written, are cut into its parts.
pub fn lines_are_cut()
    ensures { LinesAreCut }
{}

/// Words that are cut into parts are those of a command line with these parts.
pub fn cut_words_are_lines()
    ensures { CutWordsAreLines }
{}

/// In which order parts stand makes no difference to what they ask for.
pub fn order_makes_no_difference()
    ensures { OrderMakesNoDifference }
{}
