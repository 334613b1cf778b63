//! The definitions of the API text (ISO C, 6.10.3).

ghost use Rattle.std.specs.Prelude.{◌≡◌, IfErr, IfOk, OnErr, OnOk};
ghost use Rattle.edt_base.specs.declared.fault.Rule.TheVariants.{C5};
ghost use Rattle.c_macro.specs.Table.{known_of};
ghost use Rattle.c_tokens.specs.Reading.{IfRule};
ghost use Rattle.dt_api.specs.Defining.{AreAllowed, AreKnownTo, HasOther, IsKnownWith};
ghost use Rattle.dt_api.specs.Defining.{api_definitions};

use crate::laws::api_text;
use c_macro::Defs;
use c_tokens::{CEnd, Lines};
use std::alloc::Global;

/// Defines the macros of the API text. A name that is defined so already stays as it is. The one
/// rule is C5, exactly where a name of the API text is defined otherwise. After it, and after want
/// of memory, the definitions are those before and the first ones of the API text up to some place.
pub fn defs(alloc: Global, d: &mut Defs) -> Result<(), CEnd>
    ensures allowed { OnOk result (AreAllowed (known_of d.old) api_definitions) }
    ensures known { OnOk result
        (IsKnownWith (known_of d.old) api_definitions (known_of d.new)) }
    ensures refused { IfErr result
        (λ e. IfRule e (λ r. (r ≡ C5) × HasOther (known_of d.old) api_definitions)) }
    ensures begun { OnErr result
        (AreKnownTo (known_of d.old) api_definitions (known_of d.new)) }
{
    let mut lines = Lines::new(api_text().as_bytes());
    while let Some(line) = lines.next(alloc)? {
        d.apply(&line)?;
    }
    Ok(())
}
