//! The description of a session, as the value of register 17 so far.
ghost use Rattle.std.specs.Prelude.{◌≡◌, ◌↔◌, ◌∷◌, ◌++◌, IsTrue};
ghost use Rattle.tpm_state.specs.Chain.{Zeros, From, ◌▷◌, value, extended_value};
ghost use Rattle.tpm_state.specs.Sessions.{pal_text, closing, extended_by};
ghost use Rattle.flk_hmac.specs.Quotes.{quote_of};

use flk_hmac::{is_same, quote_of};
use std::marker::Model;
use tpm_state::extended_value;

/// A session that is described: `new` by its image, an `extend` for each text by which its code
/// extended register 17, in their order, and `verdict` with the rest. Contracts see the 20 bytes
/// that register 17 would show so far.
#[derive(Drop)]
pub struct Check {
    value: [u8; 20],
}

impl Model for Check {
    ghost use Rattle.std.specs.Prelude.{ℕ, List};

    ghost Value = { List ℕ };

    ghost view = { λ c. c.value };
}

impl Check {
    /// A session of this image whose code has extended nothing.
    pub fn new(image: &[u8]) -> Check
        ensures { result ≡ value (From Zeros ▷ image.now) }
    {
        Check {
            value: extended_value(&[0; 20], b"", image),
        }
    }

    /// The session's code extended register 17 by `pal` and this text.
    pub fn extend(&mut self, text: &[u8])
        ensures { self.new ≡ extended_value self.old (pal_text text.now) }
    {
        self.value = extended_value(&self.value, b"pal", text);
    }

    /// Whether the quote is that of the session described, with these inputs and outputs, this byte
    /// for its end and this nonce, under this key for quotes. A quote has 40 bytes: the value of
    /// register 17, and the tag.
    pub fn verdict(
        self,
        key: &[u8; 20],
        inputs: &[u8],
        outputs: &[u8],
        end: u8,
        nonce: &[u8; 20],
        quote: &[u8],
    ) -> bool
        ensures { IsTrue result ↔ (quote.now ≡ quote_of key.now nonce.now
            (extended_by self (closing inputs.now outputs.now end nonce.now))) }
    {
        let closed = closed_value(&self.value, inputs, outputs, end, nonce);
        is_same(quote, &quote_of(key, nonce, &closed))
    }
}

// The byte for an end, and the nonce.
fn end_text(end: u8, nonce: &[u8; 20]) -> [u8; 21]
    ensures { result ≡ end ∷ nonce.now }
{
    let mut text = [end; 21];
    text[1..].copy_from_slice(nonce);
    text
}

// The value that the closing texts make of a value.
fn closed_value(
    value: &[u8; 20],
    inputs: &[u8],
    outputs: &[u8],
    end: u8,
    nonce: &[u8; 20],
) -> [u8; 20]
    ensures { result ≡ extended_by value.now (closing inputs.now outputs.now end nonce.now) }
{
    let taken = extended_value(value, b"in", inputs);
    let given = extended_value(&taken, b"out", outputs);
    let ended = extended_value(&given, b"end", &end_text(end, nonce));
    extended_value(&ended, b"close", b"")
}
