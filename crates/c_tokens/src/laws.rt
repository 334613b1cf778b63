//! Laws of tokens and lines, as contracts.

ghost use Rattle.c_tokens.specs.Lines.{HasOneList};
ghost use Rattle.c_tokens.specs.Laws.{IdentifiersAreWords, IdentifiersGrow, SpellingsAreRead};
ghost use Rattle.c_tokens.specs.Laws.{ShownTokensAreRead, NumbersCountNewlines};

/// Each text has exactly one list of lines.
pub fn a_text_has_one_list_of_lines()
    ensures { HasOneList }
{}

/// Identifiers are letters with letters and digits behind them, and no other bytes are.
pub fn identifiers_are_words()
    ensures { IdentifiersAreWords }
{}

/// An identifier with letters and digits behind it is one identifier.
pub fn identifiers_grow()
    ensures { IdentifiersGrow }
{}

/// A spelling before a byte that can't continue it is read as itself.
pub fn spellings_are_read()
    ensures { SpellingsAreRead }
{}

/// Spellings with spaces between are read as their tokens.
pub fn shown_tokens_are_read()
    ensures { ShownTokensAreRead }
{}

/// The number at the end of a text is one more than its newlines.
pub fn numbers_count_newlines()
    ensures { NumbersCountNewlines }
{}
