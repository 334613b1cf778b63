//! The form of a text.

ghost use Rattle.std.specs.Prelude.{◌≡◌, ◌<◌, IfOk, IfSome, option_to_list};
ghost use Rattle.edt_base.specs.Forms.{form_of, form_char};

use edt_base::Text;
use std::alloc::{AllocError, Global};

#[tactic(auto, unfolding(edt_base::specs::Forms::form_of))]
/// The form of a text, in which names have it: letters in lower case, digits, and `_` for every
/// other character (Zephyr 3.7, "Devicetree API", "lowercase-and-underscores form"). The one error
/// is want of memory.
pub fn form(alloc: Global, t: &Text) -> Result<Text, AllocError>
    ensures { IfOk result (λ f. f ≡ form_of t.now) }
{
    let mut left = t.as_str().as_bytes();
    let mut form = String::with_capacity(alloc, left.len())?;
    while let Some((byte, rest)) = left.split_first() {
        match form_char(*byte) {
            Some(c) => form.push(c as char)?,
            None => {}
        }
        left = rest;
    }
    Ok(Text::new(form))
}

/// What a byte of a text gives to its form: nothing where it continues a character.
pub(crate) fn form_char(byte: u8) -> Option<u8>
    ensures gives { option_to_list result ≡ form_char byte }
    ensures ascii { IfSome result (λ c. c < 128) }
{
    match byte {
        b'A'..=b'Z' => Some(byte + 32),
        b'a'..=b'z' | b'0'..=b'9' => Some(byte),
        128..=191 => None,
        _ => Some(b'_'),
    }
}
