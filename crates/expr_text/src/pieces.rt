// The pieces of a word: those between two of a byte, and the suffixes of a term.
ghost use Rattle.std.specs.Prelude.{◌≡◌, ◌≤◌, ◌==◌, [], ◌∷◌, length, not, MatchOption};
ghost use Rattle.std.specs.List.{prefix_len};
ghost use Rattle.expr_text.specs.ExpressionReading.{opens};
ghost use Rattle.expr_text.specs.Pieces.{pieces_at, suffix_words};

use std::marker::Model;

/// The pieces of a text between two of a byte that are left. Contracts see their list.
pub(crate) struct Pieces<'a> {
    separator: u8,
    rest: Option<&'a [u8]>,
}

impl<'a> Model for Pieces<'a> {
    ghost use Rattle.std.specs.Prelude.{List, ℕ};

    ghost Value = { List (List ℕ) };

    ghost use Rattle.expr_text.specs.Pieces.{pieces_left};

    ghost view = { pieces_left };
}

impl<'a> Drop for Pieces<'a> {
    fn drop(self) {
        let Pieces {
            separator: _,
            rest: _,
        } = self;
    }
}

impl<'a> Pieces<'a> {
    /// All the pieces of a text.
    pub(crate) fn new(separator: u8, text: &'a [u8]) -> Pieces<'a>
        ensures { result ≡ pieces_at separator text.now }
    {
        Pieces {
            separator,
            rest: Some(text),
        }
    }

    /// The next piece.
    pub(crate) fn next(&mut self) -> Option<&'a [u8]>
        ensures { MatchOption result ((self.old ≡ []) × (self.new ≡ []))
            (λ piece. self.old ≡ piece.now ∷ self.new) }
    {
        let text = self.rest?;
        let end = before(self.separator, text);
        self.rest = if end < text.len() {
            Some(&text[end + 1..])
        } else {
            None
        };
        Some(&text[..end])
    }
}

// How many bytes stand before the first separator.
fn before(separator: u8, text: &[u8]) -> usize
    ensures value { result ≡ prefix_len (λ c. not (c == separator)) text.now }
    ensures within { result ≤ length text.now }
{
    text.iter().take_while(|c| **c != separator).count()
}

/// The suffixes of a term that are left, as words. Contracts see their list.
pub(crate) struct SuffixWords<'a> {
    rest: &'a [u8],
}

impl<'a> Model for SuffixWords<'a> {
    ghost use Rattle.std.specs.Prelude.{List, ℕ};
    ghost use Rattle.expr_text.specs.Pieces.{suffix_words};

    ghost Value = { List (List ℕ) };

    ghost view = { λ w. suffix_words w.rest.now };
}

impl<'a> Drop for SuffixWords<'a> {
    fn drop(self) {
        let SuffixWords { rest: _ } = self;
    }
}

impl<'a> SuffixWords<'a> {
    /// All the suffixes of a text that begins with one.
    pub(crate) fn new(text: &'a [u8]) -> SuffixWords<'a>
        ensures { result ≡ suffix_words text.now }
    {
        SuffixWords { rest: text }
    }

    /// The next suffix.
    pub(crate) fn next(&mut self) -> Option<&'a [u8]>
        ensures { MatchOption result ((self.old ≡ []) × (self.new ≡ []))
            (λ word. self.old ≡ word.now ∷ self.new) }
    {
        let text = self.rest;
        if text.is_empty() {
            return None;
        }
        let (word, rest) = text.split_at(1 + before_suffix(&text[1..]));
        self.rest = rest;
        Some(word)
    }
}

fn opens(c: u8) -> bool
    ensures { result ≡ opens c }
{
    c == b'[' || c == b'~'
}

/// How many bytes stand before the first suffix.
pub(crate) fn before_suffix(text: &[u8]) -> usize
    ensures value { result ≡ prefix_len (λ c. not (opens c)) text.now }
    ensures within { result ≤ length text.now }
{
    text.iter().take_while(|c| !opens(**c)).count()
}
