//! The operands of a statement.

ghost use Rattle.std.specs.Prelude.{◌≡◌, ◌≢◌, [], ◌∷◌, Option, option_map, MatchOption, MatchBool, pos};
ghost use Rattle.pal_asm.specs.Tokens.{Word, Close, tokens};
ghost use Rattle.pal_asm.specs.Numbers.{minus, number_of};
ghost use Rattle.pal_asm.specs.Names.{name_of};
ghost use Rattle.pal_asm.specs.Operands.{lone_place, place_with, place_of, plain_operand, word_operand, sized_operand, operand_of, is_within, is_displacement, is_place_in_range, is_in_range};
ghost use Rattle.pal_asm.specs.Seen.{place_as, operand_as};
ghost use Rattle.pal_asm.specs.SeenTokens.{NoWordFirst, NoClosedWord};
ghost use Rattle.pal_asm.specs.declared.operand.Place.{Place as PlaceView};

use crate::name::Name;
use crate::names::{byte_register_of, register_of};
use crate::numbers::{minus_of, number_of};
use crate::tokens::{Token, first_token, is_blank_text};
use i386_profile::{ByteReg, Reg};

/// A place in memory, before its displacement is looked at. Displacements are at most 2^33 either
/// way.
#[derive(Clone, Copy)]
pub(crate) struct Place {
    pub(crate) base: Option<Reg>,
    pub(crate) displacement: i64,
}

/// An operand, before its number is looked at. Numbers are at most 2^33 either way.
#[derive(Clone, Copy)]
pub(crate) enum Operand {
    Register(Reg),
    ByteRegister(ByteReg),
    Number(i64),
    Label(Name),
    /// A place whose size is not said.
    Memory(Place),
    /// `dword` and a place
    Dword(Place),
    /// `byte` and a place
    Byte(Place),
}

/// Where a jump or a call goes.
#[derive(Clone, Copy)]
pub(crate) enum Target {
    Label(Name),
    Offset(u32),
}

/// `r` or `N` between brackets.
fn lone_place(word: &[u8]) -> Option<Place>
    ensures { result ≡ option_map place_as (lone_place word.now) }
{
    match register_of(word) {
        Some(r) => Some(Place {
            base: Some(r),
            displacement: 0,
        }),
        None => Some(Place {
            base: None,
            displacement: number_of(word)?,
        }),
    }
}

/// `r+N` between brackets.
fn base_plus(word: &[u8], number: &[u8]) -> Option<Place>
    ensures { result ≡ option_map place_as (place_with pos word.now number.now) }
{
    Some(Place {
        base: Some(register_of(word)?),
        displacement: number_of(number)?,
    })
}

/// `r-N` between brackets.
fn base_minus(word: &[u8], number: &[u8]) -> Option<Place>
    ensures { result ≡ option_map place_as (place_with minus word.now number.now) }
{
    Some(Place {
        base: Some(register_of(word)?),
        displacement: minus_of(number)?,
    })
}

/// The closing bracket, with nothing after it.
fn closes(text: &[u8]) -> bool
    ensures { MatchBool result (tokens text.now ≡ Close ∷ []) (tokens text.now ≢ Close ∷ []) }
{
    match first_token(text) {
        Some((Token::Close, rest)) => is_blank_text(rest),
        _ => false,
    }
}

/// A word that stands first, and what stands after it.
fn first_word(text: &[u8]) -> Option<(&[u8], &[u8])>
    ensures { MatchOption result (NoWordFirst (tokens text.now))
        (λ r. tokens text.now ≡ Word r.0.now ∷ tokens r.1.now) }
{
    match first_token(text) {
        Some((Token::Word(word), rest)) => Some((word, rest)),
        _ => None,
    }
}

/// A word and a closing bracket.
fn closed_word(text: &[u8]) -> Option<&[u8]>
    ensures { MatchOption result (NoClosedWord (tokens text.now))
        (λ word. tokens text.now ≡ Word word.now ∷ Close ∷ []) }
{
    let (word, rest) = first_word(text)?;
    if closes(rest) { Some(word) } else { None }
}

/// What follows a word after an opening bracket: the place, and the closing bracket.
fn place_from<'a>(word: &'a [u8], text: &'a [u8]) -> Option<Place>
    ensures { result ≡ option_map place_as (place_of (Word word.now ∷ tokens text.now)) }
{
    match first_token(text)? {
        (Token::Close, rest) if is_blank_text(rest) => lone_place(word),
        (Token::Plus, rest) => base_plus(word, closed_word(rest)?),
        (Token::Minus, rest) => base_minus(word, closed_word(rest)?),
        (Token::Dashed(number), rest) if closes(rest) => base_minus(word, number),
        _ => None,
    }
}

/// What follows an opening bracket: the place, and the closing bracket.
fn place_of(text: &[u8]) -> Option<Place>
    ensures { result ≡ option_map place_as (place_of (tokens text.now)) }
{
    let (word, rest) = first_word(text)?;
    place_from(word, rest)
}

fn number_operand(word: &[u8]) -> Option<Operand>
    ensures { result ≡ option_map operand_as (option_map (λ n. Operand.Number (pos n))
        (number_of word.now)) }
{
    Some(Operand::Number(number_of(word)?))
}

fn label_operand(word: &[u8]) -> Option<Operand>
    ensures { result ≡ option_map operand_as (option_map Operand.Label (name_of word.now)) }
{
    Some(Operand::Label(Name::of(word)?))
}

/// A word that names no register: a number or a label.
fn plain_operand(word: &[u8]) -> Option<Operand>
    ensures { result ≡ option_map operand_as (plain_operand word.now) }
{
    match number_operand(word) {
        Some(operand) => Some(operand),
        None => label_operand(word),
    }
}

/// A word alone: a register wherever it names one.
fn word_operand(word: &[u8]) -> Option<Operand>
    ensures { result ≡ option_map operand_as (word_operand word.now) }
{
    if let Some(r) = register_of(word) {
        Some(Operand::Register(r))
    } else if let Some(b) = byte_register_of(word) {
        Some(Operand::ByteRegister(b))
    } else {
        plain_operand(word)
    }
}

/// A place whose size is said.
fn sized_operand(word: &[u8], place: Option<Place>) -> Option<Operand>
    ensures { (p : Option PlaceView) → place ≡ option_map place_as p
        → result ≡ option_map operand_as (sized_operand word.now p) }
{
    let place = place?;
    if word == b"dword".as_slice() {
        Some(Operand::Dword(place))
    } else if word == b"byte".as_slice() {
        Some(Operand::Byte(place))
    } else {
        None
    }
}

/// A word, and after it the place that it says the size of, where there is one.
fn word_first<'a>(word: &'a [u8], text: &'a [u8]) -> Option<Operand>
    ensures { result ≡ option_map operand_as (operand_of (Word word.now ∷ tokens text.now)) }
{
    match first_token(text) {
        None => word_operand(word),
        Some((Token::Open, rest)) => sized_operand(word, place_of(rest)),
        Some(_) => None,
    }
}

/// What follows an opening bracket, as an operand.
fn bracketed(text: &[u8]) -> Option<Operand>
    ensures { result ≡ option_map operand_as (option_map Operand.Memory
        (place_of (tokens text.now))) }
{
    Some(Operand::Memory(place_of(text)?))
}

/// The operand that a text is.
pub(crate) fn operand_of(text: &[u8]) -> Option<Operand>
    ensures { result ≡ option_map operand_as (operand_of (tokens text.now)) }
{
    match first_token(text)? {
        (Token::Word(word), rest) => word_first(word, rest),
        (Token::Dashed(number), rest) if is_blank_text(rest) => {
            Some(Operand::Number(minus_of(number)?))
        }
        (Token::Open, rest) => bracketed(rest),
        _ => None,
    }
}

/// From the first number to the second.
pub(crate) fn is_within(least: i64, most: i64, n: i64) -> bool
    ensures { result ≡ is_within least most n }
{
    least <= n && n <= most
}

/// An address has 32 bits; what stands after a base is signed.
fn is_place_in_range(place: Place) -> bool
    ensures { result ≡ is_place_in_range place }
{
    match place.base {
        None => is_within(0, 0xFFFF_FFFF, place.displacement),
        Some(_) => is_within(-0x8000_0000, 0x7FFF_FFFF, place.displacement),
    }
}

/// The numbers of an operand lie in their ranges, where the statement takes numbers from least to
/// most.
pub(crate) fn is_in_range(least: i64, most: i64, operand: Operand) -> bool
    ensures { result ≡ is_in_range least most operand }
{
    match operand {
        Operand::Number(n) => is_within(least, most, n),
        Operand::Memory(place) | Operand::Dword(place) | Operand::Byte(place) => {
            is_place_in_range(place)
        }
        Operand::Register(_) | Operand::ByteRegister(_) | Operand::Label(_) => true,
    }
}
