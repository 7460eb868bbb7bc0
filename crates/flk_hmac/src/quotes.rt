//! Quotes as bytes.
ghost use Rattle.std.specs.Prelude.{◌≡◌};
ghost use Rattle.flk_hmac.specs.Quotes.{quote_tag, quote_of};

use crate::hmac::Hmac;

const VALUE_LEN: usize = 20;

const QUOTE_LEN: usize = 40;

const MARK: &[u8; 4] = b"FLKQ";

/// The tag of a value for a nonce.
fn quote_tag(key: &[u8; 20], nonce: &[u8; 20], value: &[u8; 20]) -> [u8; 20]
    ensures { result ≡ quote_tag key.now nonce.now value.now }
{
    let mut hmac = Hmac::new(key);
    hmac.update(MARK);
    hmac.update(nonce);
    hmac.update(value);
    hmac.finish()
}

/// The quote of a register's value for a nonce, under the key for quotes: the value, and the HMAC of
/// `FLKQ`, the nonce and the value.
pub fn quote_of(key: &[u8; 20], nonce: &[u8; 20], value: &[u8; 20]) -> [u8; QUOTE_LEN]
    ensures { result ≡ quote_of key.now nonce.now value.now }
{
    let mut quote = [0; QUOTE_LEN];
    quote[VALUE_LEN..].copy_from_slice(&quote_tag(key, nonce, value));
    quote[..VALUE_LEN].copy_from_slice(value);
    quote
}
