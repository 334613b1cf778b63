//! A macro's definition.

use c_tokens::Tok;
use edt_base::Text;
use std::marker::Model;

/// What a name stands for (ISO C, 6.10.3).
#[derive(Debug, Drop)]
pub struct Def {
    /// The names of its parameters; `None` for an object-like macro.
    pub params: Option<Vec<Text>>,
    /// Whether a variable part follows the parameters.
    pub variadic: bool,
    /// Its replacement.
    pub body: Vec<Tok>,
}

impl Model for Def {
    ghost use Rattle.std.specs.Prelude.{option_map};
    ghost use Rattle.c_macro.specs.MacroData.{Macro};

    ghost Value = { Macro };

    ghost view = { λ d. record { params = option_map (λ v. v.items) d.params; variadic = d.variadic; body = d.body.items } };
}
