//! Numbers of an assembler text.

ghost use Rattle.std.specs.Prelude.{◌≡◌, ◌<◌, ◌≤◌, ◌^◌, ◌-◌, IfSome, option_map, pos, min};
ghost use Rattle.std.specs.Prelude.{◌≤ℤ◌, ◌+◌, ◌*◌};
ghost use Rattle.pal_asm.specs.Seen.{read_as, signed_as};
ghost use Rattle.pal_asm.specs.Numbers.{digit_in, digits_value, numeral, number_of, minus, low32, low8};

/// A number from here on is outside every range.
const LARGE: u64 = 1 << 33;

fn digit_in(radix: u32, c: u8) -> Option<u32>
    requires least { 2 ≤ radix }
    requires most { radix ≤ 16 }
    ensures value { result ≡ digit_in radix c }
    ensures small { IfSome result (λ digit. digit < radix) }
{
    char::from(c).to_digit(radix)
}

fn next_value(value: u64, radix: u32, digit: u32) -> u64
    requires value { value ≤ 2 ^ 33 }
    requires radix { radix ≤ 16 }
    ensures { result ≡ read_as (value * radix + digit) }
{
    (value * u64::from(radix) + u64::from(digit)).min(LARGE)
}

fn digits_value(radix: u32, digits: &[u8]) -> Option<u64>
    requires least { 2 ≤ radix }
    requires most { radix ≤ 16 }
    ensures value { result ≡ option_map read_as (digits_value radix 0 digits.now) }
    ensures small { IfSome result (λ n. n ≤ 2 ^ 33) }
{
    let mut value = 0u64;
    for c in digits {
        let digit = digit_in(radix, *c)?;
        value = next_value(value, radix, digit);
    }
    Some(value)
}

fn numeral(radix: u32, digits: &[u8]) -> Option<u64>
    requires least { 2 ≤ radix }
    requires most { radix ≤ 16 }
    ensures value { result ≡ option_map read_as (numeral radix digits.now) }
    ensures small { IfSome result (λ n. n ≤ 2 ^ 33) }
{
    if digits.is_empty() {
        return None;
    }
    digits_value(radix, digits)
}

fn magnitude_of(word: &[u8]) -> Option<u64>
    ensures value { result ≡ option_map read_as (number_of word.now) }
    ensures small { IfSome result (λ n. n ≤ 2 ^ 33) }
{
    if word.starts_with(b"0x") {
        numeral(16, &word[2..])
    } else {
        numeral(10, word)
    }
}

/// The number that a word spells, or 2^33 where it is larger.
pub(crate) fn number_of(word: &[u8]) -> Option<i64>
    ensures value { result ≡ option_map (λ n. pos (read_as n)) (number_of word.now) }
    ensures small { IfSome result (λ n. n ≤ℤ pos (2 ^ 33)) }
{
    match magnitude_of(word) {
        Some(magnitude) => Some(magnitude as i64),
        None => None,
    }
}

/// The number that a word after a minus sign spells, or -2^33 where it is smaller.
pub(crate) fn minus_of(word: &[u8]) -> Option<i64>
    ensures { result ≡ option_map (λ n. signed_as (minus n)) (number_of word.now) }
{
    match magnitude_of(word) {
        Some(magnitude) => Some(-(magnitude as i64)),
        None => None,
    }
}

/// Modulo 2^32. Of n below 0 this is 2^32 - 1 less what -(n + 1) is modulo 2^32, so no step wraps.
pub(crate) fn low32(n: i64) -> u32
    ensures { result ≡ low32 n }
{
    if n >= 0 {
        (n as u64 % (1 << 32)) as u32
    } else {
        0xFFFF_FFFF - (-(n + 1) as u64 % (1 << 32)) as u32
    }
}

/// Modulo 2^8.
pub(crate) fn low8(n: i64) -> u8
    ensures { result ≡ low8 n }
{
    (low32(n) % 256) as u8
}
