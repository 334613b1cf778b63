//! Lines joined at a backslash (ISO C, 5.1.1.2, phase 2).

ghost use Rattle.std.specs.Prelude.{◌≡◌, ◌+◌, ◌++◌, ◌∷◌, [], ◌<◌, ◌≤◌, ◌^◌, IfOk, MatchOption, length, not, nat_eq};
ghost use Rattle.std.specs.List.{prefix_len};
ghost use Rattle.c_tokens.specs.Lines.{cut};
ghost use Rattle.c_tokens.specs.Joining.{joined_behind, cut_of, is_no_newline, EndsElsewhere};

use std::alloc::AllocError;

/// What is left behind a joined line, and how many newlines it took.
#[derive(Clone, Copy)]
pub(crate) struct Behind<'a> {
    pub rest: &'a [u8],
    pub newlines: u64,
}

/// How many bytes stand before the first newline.
fn line_length(text: &[u8]) -> usize
    ensures is { result ≡ prefix_len is_no_newline text.now }
    ensures within { result ≤ length text.now }
{
    text.iter().take_while(|byte| **byte != b'\n').count()
}

/// What stands before the backslash that a line ends with.
fn before_backslash(line: &[u8]) -> Option<&[u8]>
    ensures { MatchOption result (EndsElsewhere line.now) (λ front. line.now ≡ front.now ++ 92 ∷ []) }
{
    let (last, front) = line.split_last()?;
    if *last == b'\\' { Some(front) } else { None }
}

/// Puts the bytes of the first joined line behind those that are there. The one error is want of
/// memory.
pub(crate) fn join_line<'a>(text: &'a [u8], joined: &mut Vec<u8>) -> Result<Behind<'a>, AllocError>
    ensures line { IfOk result (λ b. cut_of joined.new.items b ≡ joined_behind joined.old.items 0 (cut text.now)) }
    ensures within { IfOk result (λ b. b.newlines + length b.rest.now ≤ length text.now) }
    ensures shorter { IfOk result (λ b. 0 < length text.now → length b.rest.now < length text.now) }
{
    let mut rest = text;
    let mut newlines = 0;
    loop {
        let (line, behind) = rest.split_at(line_length(rest));
        let Some((_, after)) = behind.split_first() else {
            joined.extend_from_slice(line)?;
            return Ok(Behind {
                rest: behind,
                newlines,
            });
        };
        let Some(front) = before_backslash(line) else {
            joined.extend_from_slice(line)?;
            return Ok(Behind {
                rest: after,
                newlines: newlines + 1,
            });
        };
        joined.extend_from_slice(front)?;
        rest = after;
        newlines += 1;
    }
}
