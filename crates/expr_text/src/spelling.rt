// How an expression is read from a word.
ghost use Rattle.std.specs.Prelude.{◌≡◌, ◌&&◌, true, length, option_map, nat_eq, nat_lt, codes};
ghost use Rattle.std.specs.List.{list_all, starts_with};
ghost use Rattle.expr_text.specs.Expressions.{is_name, is_name_byte, is_small_letter};
ghost use Rattle.expr_text.specs.ExpressionReading.{Reads, all_of, expression_of, term_in, atom_in, repeated_in, suffix_in, cut_in, bounds_in};
ghost use Rattle.expr_text.specs.Pieces.{suffix_words};
ghost use Rattle.expr_text.specs.SeenExpressions.{seen_atom, seen_suffix, seen_suffixes, seen_term, seen_terms};

use crate::expression::{ExprAtom, ExprSuffix, ExprTerm, Unread};
use crate::name::{LONGEST_NAME, Name};
use crate::numbers::number_of;
use crate::pieces::{Pieces, SuffixWords, before_suffix};
use flk_base::{HexFault, read_hex};
use std::alloc::Global;

/// The terms of the expression that the word spells.
pub(crate) fn terms_in(alloc: Global, word: &[u8]) -> Result<Vec<ExprTerm>, Unread>
    ensures { Reads (λ terms. seen_terms terms.items) result (expression_of word.now) }
{
    let mut terms = Vec::new(alloc);
    let mut pieces = Pieces::new(b'+', word);
    while let Some(piece) = pieces.next() {
        let term = term_in(alloc, piece)?;
        if terms.push(term).is_err() {
            return Err(Unread::NoMemory);
        }
    }
    Ok(terms)
}

fn term_in(alloc: Global, text: &[u8]) -> Result<ExprTerm, Unread>
    ensures { Reads seen_term result (term_in text.now) }
{
    let (first, rest) = text.split_at(before_suffix(text));
    let atom = atom_in(alloc, first)?;
    let suffixes = suffixes_in(alloc, rest)?;
    Ok(ExprTerm { atom, suffixes })
}

fn atom_in(alloc: Global, word: &[u8]) -> Result<ExprAtom, Unread>
    ensures { Reads seen_atom result (atom_in word.now) }
{
    if word.starts_with(b"x:") {
        literal_in(alloc, word)
    } else if word.starts_with(b"rep:") {
        repeated_in(&word[4..]).ok_or(Unread::Spelling)
    } else if is_name(word) {
        Ok(ExprAtom::Named(Name::new(word)))
    } else {
        Err(Unread::Spelling)
    }
}

fn literal_in(alloc: Global, word: &[u8]) -> Result<ExprAtom, Unread>
    requires { starts_with nat_eq word.now (codes "x:") ≡ true }
    ensures { Reads seen_atom result (atom_in word.now) }
{
    match read_hex(alloc, &word[2..]) {
        Ok(bytes) => Ok(ExprAtom::Literal(bytes)),
        Err(HexFault::NoMemory) => Err(Unread::NoMemory),
        Err(HexFault::Odd) => Err(Unread::Spelling),
        Err(HexFault::Digit) => Err(Unread::Spelling),
    }
}

fn repeated_in(text: &[u8]) -> Option<ExprAtom>
    ensures { option_map seen_atom result ≡ repeated_in text.now }
{
    if text.len() < 3 || text[2] != b'*' {
        return None;
    }
    let mut byte = [0u8; 1];
    hex::decode_to_slice(&text[..2], &mut byte).ok()?;
    let count = number_of(&text[3..])?;
    Some(ExprAtom::Repeated {
        byte: byte[0],
        count,
    })
}

fn is_small_letter(c: u8) -> bool
    ensures { result ≡ is_small_letter c }
{
    97 <= c && c <= 122
}

fn is_name_byte(c: u8) -> bool
    ensures { result ≡ is_name_byte c }
{
    is_small_letter(c) || (48 <= c && c <= 57) || c == b'_'
}

/// Whether the word is a Name.
pub fn is_name(word: &[u8]) -> bool
    ensures { result ≡ is_name word.now }
{
    match word.split_first() {
        None => false,
        Some((first, rest)) => is_small_letter(*first) && is_name_rest(rest),
    }
}

// The bytes of a name after its first.
fn is_name_rest(text: &[u8]) -> bool
    ensures { result ≡ (nat_lt (length text.now) LONGEST_NAME && list_all is_name_byte text.now) }
{
    text.len() < LONGEST_NAME && are_name_bytes(text)
}

fn are_name_bytes(text: &[u8]) -> bool
    ensures { result ≡ list_all is_name_byte text.now }
{
    text.iter().all(|c| is_name_byte(*c))
}

fn suffixes_in(alloc: Global, text: &[u8]) -> Result<Vec<ExprSuffix>, Unread>
    ensures { Reads
        (λ suffixes. seen_suffixes suffixes.items) result
        (all_of suffix_in (suffix_words text.now)) }
{
    let mut suffixes = Vec::new(alloc);
    let mut words = SuffixWords::new(text);
    while let Some(word) = words.next() {
        let Some(suffix) = suffix_in(word) else {
            return Err(Unread::Spelling);
        };
        if suffixes.push(suffix).is_err() {
            return Err(Unread::NoMemory);
        }
    }
    Ok(suffixes)
}

fn suffix_in(word: &[u8]) -> Option<ExprSuffix>
    ensures { option_map seen_suffix result ≡ suffix_in word.now }
{
    match word {
        [b'[', text @ ..] => cut_in(text),
        [b'~', number @ ..] => {
            let at = number_of(number)?;
            Some(ExprSuffix::Flip { at })
        }
        _ => None,
    }
}

fn cut_in(text: &[u8]) -> Option<ExprSuffix>
    ensures { option_map seen_suffix result ≡ cut_in text.now }
{
    match text {
        [between @ .., b']'] => bounds_in(Pieces::new(b'.', between)),
        _ => None,
    }
}

fn bounds_in(mut pieces: Pieces<'_>) -> Option<ExprSuffix>
    ensures { option_map seen_suffix result ≡ bounds_in pieces.entry }
{
    let from = pieces.next()?;
    if !pieces.next()?.is_empty() {
        return None;
    }
    let to = pieces.next()?;
    if pieces.next().is_some() {
        return None;
    }
    let from = number_of(from)?;
    let to = number_of(to)?;
    Some(ExprSuffix::Cut { from, to })
}
