//! Laws of the tokens, as contracts: each is a slice of its source, and tokens that are spelled
//! apart are read again.

ghost use Rattle.dts_lex.specs.Slices.{AreEndsGaps, AreFaultsWithin, AreSlices};
ghost use Rattle.dts_lex.specs.Spelled.{BlanksAreNoTokens, SpelledTokensAreRead};

/// A token is a slice of what was left, after a gap of blanks, comments and skipped lines; what is
/// left is after it. A fault stands at a byte of what is left. Where no token is left, all is a
/// gap.
pub fn tokens_are_slices()
    ensures slices { AreSlices }
    ensures faults { AreFaultsWithin }
    ensures ends { AreEndsGaps }
{}

/// Tokens that are spelled one after another, with blanks wherever two would run together, are read
/// from that text as these tokens, wherever in a source it stands. Blanks alone hold no token.
pub fn spelled_tokens_are_read()
    ensures read { SpelledTokensAreRead }
    ensures blanks { BlanksAreNoTokens }
{}
