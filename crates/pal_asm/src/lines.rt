//! What counts on a line.

ghost use Rattle.std.specs.Prelude.{◌≡◌, ◌<◌, ◌+◌, [], ◌∷◌, length, MatchOption};
ghost use Rattle.pal_asm.specs.Lines.{lines, content, without_comment};

use crate::marks::count_before;

const CR: u8 = b'\r';

/// A line without the CR at its end.
pub(crate) fn content(line: &[u8]) -> &[u8]
    ensures { result.now ≡ content line.now }
{
    match line.last() {
        Some(&CR) => &line[..line.len() - 1],
        _ => line,
    }
}

/// What stands before the first semicolon.
pub(crate) fn without_comment(line: &[u8]) -> &[u8]
    ensures { result.now ≡ without_comment line.now }
{
    &line[..count_before(b';', line)]
}

/// The first line, and what stands after its LF where it has one.
pub(crate) fn split_line(text: &[u8]) -> (&[u8], Option<&[u8]>)
    ensures lines { MatchOption result.1
        (lines text.now ≡ result.0.now ∷ [])
        (λ rest. lines text.now ≡ result.0.now ∷ lines rest.now) }
    ensures shorter { MatchOption result.1
        (length result.0.now ≡ length text.now)
        (λ rest. length result.0.now + length rest.now < length text.now) }
{
    let (prefix, after) = text.split_at(count_before(b'\n', text));
    match after.split_first() {
        None => (prefix, None),
        Some((_, rest)) => (prefix, Some(rest)),
    }
}
