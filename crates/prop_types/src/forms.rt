//! The form of a text in names of C.

ghost use Rattle.std.specs.Prelude.{◌≡◌, ◌<◌, IfOk, IfSome};
ghost use Rattle.std.specs.Option.{option_to_list};
ghost use Rattle.edt_base.specs.Forms.{form_char, form_of};

use edt_base::Text;
use std::alloc::{AllocError, Global};

/// The form of a text: letters in lower case, digits, and `_` for every other character. The one
/// error is want of memory.
#[tactic(auto, unfolding(edt_base::specs::Forms::form_of))]
pub(crate) fn form(alloc: Global, text: &Text) -> Result<Text, AllocError>
    ensures { IfOk result (λ f. f ≡ form_of text.now) }
{
    let mut left = text.as_str().as_bytes();
    let mut form = String::with_capacity(alloc, left.len())?;
    while let Some((byte, rest)) = left.split_first() {
        if let Some(c) = form_char(*byte) {
            form.push(c as char)?;
        }
        left = rest;
    }
    Ok(Text::new(form))
}

// What a byte of a text gives to its form: nothing where it continues a character.
fn form_char(byte: u8) -> Option<u8>
    ensures gives { option_to_list result ≡ form_char byte }
    ensures ascii { IfSome result (λ c. c < 128) }
{
    match byte {
        b'A'..=b'Z' => Some(byte + 32),
        b'a'..=b'z' | b'0'..=b'9' => Some(byte),
        128..=191 => None,
        _ => Some(b'_'),
    }
}
