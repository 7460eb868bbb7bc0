//! The tokens of a text, one after another.

ghost use Rattle.std.specs.Prelude.{◌≡◌, ◌≤◌, List, [], ◌∷◌, length, not, MatchOption, MatchBool, ◌≢◌};
ghost use Rattle.std.specs.List.{prefix_len};
ghost use Rattle.pal_asm.specs.Tokens.{is_space_or_tab, is_name_byte, is_word_byte, mark_of, tokens};
ghost use Rattle.pal_asm.specs.SeenTokens.{token_view, after_minus};

/// A word, a word with a minus directly before it, or one of the other characters.
#[derive(Clone, Copy)]
pub(crate) enum Token<'a> {
    Word(&'a [u8]),
    Dashed(&'a [u8]),
    Open,
    Close,
    Plus,
    Minus,
    Comma,
    Colon,
    Other,
}

fn is_space_or_tab(c: u8) -> bool
    ensures { result ≡ is_space_or_tab c }
{
    c == b' ' || c == b'\t'
}

/// A letter, a digit or `_`.
pub(crate) fn is_name_byte(c: u8) -> bool
    ensures { result ≡ is_name_byte c }
{
    matches!(c, b'a'..=b'z' | b'A'..=b'Z' | b'0'..=b'9' | b'_')
}

fn is_word_byte(c: u8) -> bool
    ensures { result ≡ is_word_byte c }
{
    is_name_byte(c) || c == b'.'
}

/// How many spaces and tabs begin the text.
fn space_count(text: &[u8]) -> usize
    ensures value { result ≡ prefix_len is_space_or_tab text.now }
    ensures within { result ≤ length text.now }
{
    text.iter().take_while(|c| is_space_or_tab(**c)).count()
}

/// How many characters of a word begin the text.
fn word_length(text: &[u8]) -> usize
    ensures value { result ≡ prefix_len is_word_byte text.now }
    ensures within { result ≤ length text.now }
{
    text.iter().take_while(|c| is_word_byte(**c)).count()
}

fn mark(c: u8) -> Token<'static>
    ensures { token_view result ≡ mark_of c }
{
    match c {
        b'[' => Token::Open,
        b']' => Token::Close,
        b'+' => Token::Plus,
        b'-' => Token::Minus,
        b',' => Token::Comma,
        b':' => Token::Colon,
        _ => Token::Other,
    }
}

/// The token that a minus begins.
fn after_minus(text: &[u8]) -> (Token<'_>, &[u8])
    ensures { token_view result.0 ∷ tokens result.1.now ≡ after_minus text.now }
{
    match text.split_at(word_length(text)) {
        ([], _) => (Token::Minus, text),
        (word, rest) => (Token::Dashed(word), rest),
    }
}

/// The first token of a text and what stands after it.
pub(crate) fn first_token(text: &[u8]) -> Option<(Token<'_>, &[u8])>
    ensures { MatchOption result (tokens text.now ≡ [])
        (λ r. tokens text.now ≡ token_view r.0 ∷ tokens r.1.now) }
{
    let text = &text[space_count(text)..];
    let (first, after) = text.split_first()?;
    if is_word_byte(*first) {
        let (word, rest) = text.split_at(word_length(text));
        Some((Token::Word(word), rest))
    } else if *first == b'-' {
        Some(after_minus(after))
    } else {
        Some((mark(*first), after))
    }
}

/// Whether a text has no tokens.
pub(crate) fn is_blank_text(text: &[u8]) -> bool
    ensures { MatchBool result (tokens text.now ≡ []) (tokens text.now ≢ []) }
{
    first_token(text).is_none()
}
