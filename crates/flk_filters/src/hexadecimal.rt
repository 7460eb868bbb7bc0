// An input of hexadecimal digits.
ghost use Rattle.std.specs.Prelude.{◌≡◌, length, Ok, IsOk, IfOk};
ghost use Rattle.std.specs.List.{list_all};
ghost use Rattle.hex.specs.Hex.{is_hex_digit};
ghost use Rattle.flk_filters.specs.Filters.{is_space, without_spaces, hex_of, hex_in};
ghost use Rattle.flk_filters.specs.Seen.{size_of};

use crate::fault::BadInput;
use crate::input::MOST_INPUT;
use flk_base::{Bytes, NoMemory, read_hex};
use std::alloc::Global;

fn is_space(c: u8) -> bool
    ensures { result ≡ is_space c }
{
    matches!(c, b' ' | b'\t' | b'\r' | b'\n')
}

fn is_digit(c: u8) -> bool
    ensures { result ≡ is_hex_digit c }
{
    c.is_ascii_hexdigit()
}

// Whether a text has nothing but digits and spaces.
fn has_only_digits(text: &[u8]) -> bool
    ensures { result ≡ list_all is_hex_digit (without_spaces text.now) }
{
    text.iter().copied().filter(|c| !is_space(*c)).all(is_digit)
}

// How many bytes of a text are no spaces.
fn digit_count(text: &[u8]) -> usize
    ensures { result ≡ length (without_spaces text.now) }
{
    text.iter().filter(|c| !is_space(**c)).count()
}

// How many bytes the digits of a text spell, or that they spell none. It allocates nothing.
fn spelled_size(text: &[u8]) -> Result<usize, BadInput>
    ensures { result ≡ size_of (hex_of text.now) }
{
    let count = digit_count(text);
    if count % 2 == 1 {
        return Err(BadInput::Hex);
    }
    if !has_only_digits(text) {
        return Err(BadInput::Hex);
    }
    Ok(count / 2)
}

/// How many bytes the digits of an input spell, or why they spell none. It allocates nothing.
pub(crate) fn input_size(input: &[u8]) -> Result<usize, BadInput>
    ensures { result ≡ size_of (hex_in input.now) }
{
    if input.len() > MOST_INPUT {
        return Err(BadInput::TooLong);
    }
    spelled_size(input)
}

// The text without its spaces.
fn without_spaces(alloc: Global, text: &[u8]) -> Result<Vec<u8>, NoMemory>
    ensures { IfOk result (λ digits. digits.items ≡ without_spaces text.now) }
{
    match text
        .iter()
        .copied()
        .filter(|c| !is_space(*c))
        .collect(alloc)
    {
        Ok(digits) => Ok(digits),
        Err(_) => Err(NoMemory),
    }
}

/// The bytes that the digits of a text spell.
pub(crate) fn hex_of(alloc: Global, text: &[u8]) -> Result<Bytes, NoMemory>
    requires { IsOk (hex_of text.now) }
    ensures { IfOk result (λ bytes. hex_of text.now ≡ Ok bytes.bytes) }
{
    let digits = without_spaces(alloc, text)?;
    match read_hex(alloc, &digits) {
        Ok(bytes) => Ok(bytes),
        Err(_) => Err(NoMemory),
    }
}
