//! Laws of sources, as contracts.

ghost use Rattle.dts_parse.specs.Source.{HasOneScript};

/// A source that breaks no rule has at most one script.
pub fn a_source_has_one_script()
    ensures { HasOneScript }
{}
