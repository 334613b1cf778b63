//! The forms of names.

ghost use Rattle.std.specs.Prelude.{◌≡◌, ◌≤◌, length};
ghost use Rattle.std.specs.List.{list_all, prefix_len};
ghost use Rattle.edt_base.specs.SourceNames.{is_label, is_no_at, is_node_name, is_node_word, is_prop_name, is_unit};
ghost use Rattle.edt_base.specs.SourceBytes.{is_node_byte, is_plain, is_prop_byte};
ghost use Rattle.dts_parse.specs.Token.{form_of, is_ascii, name_form};

use crate::bytes::{begins_label, is_ascii, is_node_byte, is_plain, is_prop_byte};
use crate::terminal::Form;

/// What a word can be the name of.
pub(crate) fn form_of(text: &[u8]) -> Option<Form>
    ensures { result ≡ form_of text.now }
{
    if !all_ascii(text) {
        None
    } else if is_label(text) {
        Some(Form::Label)
    } else if is_node_name(text) {
        Some(if is_prop_name(text) {
            Form::Both
        } else {
            Form::Node
        })
    } else if is_prop_name(text) {
        Some(Form::Prop)
    } else {
        None
    }
}

pub(crate) fn all_ascii(text: &[u8]) -> bool
    ensures { result ≡ list_all is_ascii text.now }
{
    text.iter().all(|byte| is_ascii(*byte))
}

fn is_label(text: &[u8]) -> bool
    ensures { result ≡ is_label text.now }
{
    match text {
        [first, rest @ ..] => begins_label(*first) && all_plain(rest),
        [] => false,
    }
}

fn all_plain(text: &[u8]) -> bool
    ensures { result ≡ list_all is_plain text.now }
{
    text.iter().all(|byte| is_plain(*byte))
}

fn is_node_name(text: &[u8]) -> bool
    ensures { result ≡ is_node_name text.now }
{
    let (word, unit) = text.split_at(at_place(text));
    is_node_word(word) && is_unit(unit)
}

/// How many bytes stand before the first `@`.
fn at_place(text: &[u8]) -> usize
    ensures place { result ≡ prefix_len is_no_at text.now }
    ensures within { result ≤ length text.now }
{
    text.iter().take_while(|byte| **byte != b'@').count()
}

fn is_node_word(text: &[u8]) -> bool
    ensures { result ≡ is_node_word text.now }
{
    match text {
        [first, rest @ ..] => is_node_byte(*first) && all_node_bytes(rest),
        [] => false,
    }
}

fn all_node_bytes(text: &[u8]) -> bool
    ensures { result ≡ list_all is_node_byte text.now }
{
    text.iter().all(|byte| is_node_byte(*byte))
}

/// Nothing, or `@` and a unit address.
fn is_unit(text: &[u8]) -> bool
    ensures { result ≡ is_unit text.now }
{
    match text {
        [] => true,
        [first, rest @ ..] => *first == b'@' && is_node_word(rest),
    }
}

fn is_prop_name(text: &[u8]) -> bool
    ensures { result ≡ is_prop_name text.now }
{
    match text {
        [first, rest @ ..] => is_prop_byte(*first) && all_prop_bytes(rest),
        [] => false,
    }
}

fn all_prop_bytes(text: &[u8]) -> bool
    ensures { result ≡ list_all is_prop_byte text.now }
{
    text.iter().all(|byte| is_prop_byte(*byte))
}
