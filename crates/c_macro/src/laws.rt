//! Laws of expansion, as contracts.

ghost use Rattle.c_macro.specs.Expansion.{HasOneOutcome};
ghost use Rattle.c_macro.specs.Laws.{ExpandsElsewhere, IdleTokensStay, ExpandsBefore};
ghost use Rattle.c_macro.specs.Laws.{CallsAreTaken, WordsAreJoined, OtherBarsAreIdle};

/// Every list of tokens has exactly one outcome.
pub fn every_text_has_one_outcome()
    ensures { HasOneOutcome }
{}

/// What tokens come to costs the same from all units and within all limits: it comes to the same, or
/// to the limit.
pub fn an_expansion_costs_the_same_everywhere()
    ensures { ExpandsElsewhere }
{}

/// Tokens of which none is a macro's name, or is barred where it is one, are put out as they are.
pub fn idle_tokens_stay()
    ensures { IdleTokensStay }
{}

/// Tokens that are expanded may be followed by others, which are expanded in turn, unless those begin
/// with a parenthesis.
pub fn an_expansion_may_be_followed()
    ensures { ExpandsBefore }
{}

/// A call over arguments whose parentheses are matched is taken whole.
pub fn calls_are_taken()
    ensures { CallsAreTaken }
{}

/// An identifier and words behind it are joined to one identifier.
pub fn words_are_joined()
    ensures { WordsAreJoined }
{}

/// What tokens come to depends on no bar of a name without a definition.
pub fn other_bars_are_idle()
    ensures { OtherBarsAreIdle }
{}
