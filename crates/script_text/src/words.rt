// The words of a line.
ghost use Rattle.std.specs.Prelude.{◌≡◌, ◌≤◌, [], ◌∷◌, length, not, MatchOption};
ghost use Rattle.std.specs.List.{prefix_len};
ghost use Rattle.script_text.specs.Lines.{is_space_or_tab, words, content};
ghost use Rattle.script_text.specs.Reading.{is_count};
ghost use Rattle.script_text.specs.Words.{IsFirstWord};

use std::marker::Model;

const CR: u8 = b'\r';

fn is_space_or_tab(c: u8) -> bool
    ensures { result ≡ is_space_or_tab c }
{
    c == b' ' || c == b'\t'
}

// How many spaces and tabs begin the text.
fn spaces(text: &[u8]) -> usize
    ensures value { result ≡ prefix_len is_space_or_tab text.now }
    ensures within { result ≤ length text.now }
{
    text.iter().take_while(|c| is_space_or_tab(**c)).count()
}

// How many other bytes begin the text.
fn letters(text: &[u8]) -> usize
    ensures value { result ≡ prefix_len (λ c. not (is_space_or_tab c)) text.now }
    ensures within { result ≤ length text.now }
{
    text.iter().take_while(|c| !is_space_or_tab(**c)).count()
}

/// The words of a line that are left. Contracts see their list.
pub(crate) struct Words<'a> {
    rest: &'a [u8],
}

impl<'a> Model for Words<'a> {
    ghost use Rattle.std.specs.Prelude.{List, ℕ};
    ghost use Rattle.script_text.specs.Lines.{words};

    ghost Value = { List (List ℕ) };

    ghost view = { λ w. words w.rest.now };
}

impl<'a> Drop for Words<'a> {
    fn drop(self) {
        let Words { rest: _ } = self;
    }
}

impl<'a> Words<'a> {
    /// All the words of a line.
    pub(crate) fn new(text: &'a [u8]) -> Words<'a>
        ensures { result ≡ words text.now }
    {
        Words { rest: text }
    }

    /// The next word.
    pub(crate) fn next(&mut self) -> Option<&'a [u8]>
        ensures { MatchOption result ((self.old ≡ []) × (self.new ≡ []))
            (λ word. self.old ≡ word.now ∷ self.new) }
    {
        let text = self.rest;
        let (word, rest) = first_word(text);
        self.rest = rest;
        if word.is_empty() { None } else { Some(word) }
    }

    /// Whether so many are left, or, where there may be more, no fewer.
    pub(crate) fn has(&self, count: usize, more: bool) -> bool
        ensures { result ≡ is_count more count (length self.now) }
    {
        let mut left = Words { rest: self.rest };
        for _i in 0..count {
            if left.next().is_none() {
                return false;
            }
        }
        more || left.next().is_none()
    }
}

// The first word and what stands after it; an empty one where there is none.
fn first_word(text: &[u8]) -> (&[u8], &[u8])
    ensures { IsFirstWord text.now result.0.now result.1.now }
{
    let text = &text[spaces(text)..];
    text.split_at(letters(text))
}

/// A line without the CR at its end.
pub(crate) fn content(line: &[u8]) -> &[u8]
    ensures { result.now ≡ content line.now }
{
    match line.last() {
        Some(&CR) => &line[..line.len() - 1],
        _ => line,
    }
}
