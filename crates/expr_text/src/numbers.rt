// Numbers of a script.
ghost use Rattle.std.specs.Prelude.{◌≡◌, ◌<◌, ◌≤◌, IfSome, option_and_then, nat_eq, codes};
ghost use Rattle.std.specs.List.{starts_with};
ghost use Rattle.expr_text.specs.Numbers.{digit_in, digits_value, if_in_range, value_of_few, number_of};

const LIMIT: u64 = u32::MAX as u64;

// The value of a digit.
fn digit_in(radix: u32, c: u8) -> Option<u32>
    requires least { 2 ≤ radix }
    requires most { radix ≤ 16 }
    ensures value { result ≡ digit_in radix c }
    ensures small { IfSome result (λ digit. digit < radix) }
{
    char::from(c).to_digit(radix)
}

// The value of digits, where it is below 2^32.
fn digits_value(radix: u32, digits: &[u8]) -> Option<u32>
    requires least { 2 ≤ radix }
    requires most { radix ≤ 16 }
    ensures { result ≡ option_and_then if_in_range (digits_value radix 0 digits.now) }
{
    let mut value = 0u32;
    for c in digits {
        let digit = digit_in(radix, *c)?;
        let next = u64::from(value) * u64::from(radix) + u64::from(digit);
        if next > LIMIT {
            return None;
        }
        value = next as u32;
    }
    Some(value)
}

// The value of at most so many digits, and of one at least.
fn value_of_few(most: usize, radix: u32, digits: &[u8]) -> Option<u32>
    requires least { 2 ≤ radix }
    requires most { radix ≤ 16 }
    ensures { result ≡ value_of_few most radix digits.now }
{
    if digits.is_empty() || digits.len() > most {
        return None;
    }
    digits_value(radix, digits)
}

/// The value of a number, as `17` or `0x11`.
pub fn number_of(word: &[u8]) -> Option<u32>
    ensures { result ≡ number_of word.now }
{
    if word.starts_with(b"0x") {
        value_of_few(8, 16, &word[2..])
    } else {
        value_of_few(10, 10, word)
    }
}
