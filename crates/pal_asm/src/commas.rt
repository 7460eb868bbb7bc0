//! Texts between commas.

ghost use Rattle.std.specs.Prelude.{◌≡◌, ◌<◌, length, [], ◌∷◌, IfSome, MatchOption};
ghost use Rattle.std.specs.List.{slice_split};
ghost use Rattle.pal_asm.specs.Tokens.{is_comma, tokens};

use crate::marks::count_before;

/// What stands before the first comma, and what stands after it where there is one.
pub(crate) fn split_comma(text: &[u8]) -> (&[u8], Option<&[u8]>)
    ensures pieces { MatchOption result.1
        (slice_split is_comma (tokens text.now) ≡ tokens result.0.now ∷ [])
        (λ rest. slice_split is_comma (tokens text.now) ≡ tokens result.0.now
        ∷ slice_split is_comma (tokens rest.now)) }
    ensures shorter { IfSome result.1 (λ rest. length rest.now < length text.now) }
{
    let (prefix, after) = text.split_at(count_before(b',', text));
    match after.split_first() {
        None => (prefix, None),
        Some((_, rest)) => (prefix, Some(rest)),
    }
}
