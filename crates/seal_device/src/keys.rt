// The keys of a device.
ghost use Rattle.std.specs.Prelude.{◌≡◌};
ghost use Rattle.flk_hmac.specs.Quotes.{quote_of};
ghost use Rattle.seal_device.specs.Keys.{keys_of};
ghost use Rattle.seal_device.specs.Drawing.{random_word};

use flk_hmac::{derive, mac, quote_of};
use std::marker::Model;

/// The four keys that a seed gives, 20 bytes each.
#[derive(Drop)]
pub(crate) struct Keys {
    pub(crate) sealing: [u8; 20],
    pub(crate) masking: [u8; 20],
    pub(crate) quoting: [u8; 20],
    drawing: [u8; 20],
}

impl Model for Keys {
    ghost use Rattle.seal_device.specs.Keys as specs;

    ghost Value = { specs.Keys };

    ghost view = { λ k. record {
      sealing = k.sealing;
      masking = k.masking;
      quoting = k.quoting;
      drawing = k.drawing;
    } };
}

impl Keys {
    /// The keys of a seed of any length.
    pub(crate) fn of_seed(seed: &[u8]) -> Keys
        ensures { result ≡ keys_of seed.now }
    {
        Keys {
            sealing: derive(seed, b"flk-seal"),
            masking: derive(seed, b"flk-mask"),
            quoting: derive(seed, b"flk-quote"),
            drawing: derive(seed, b"flk-rand"),
        }
    }

    /// The quote of a register's value for a nonce.
    pub(crate) fn quote(&self, nonce: &[u8; 20], value: &[u8; 20]) -> [u8; 40]
        ensures { result ≡ quote_of self.now.quoting nonce.now value.now }
    {
        quote_of(&self.quoting, nonce, value)
    }

    /// The random word of this number.
    pub(crate) fn word(&self, number: u64) -> [u8; 20]
        ensures { result ≡ random_word self.now number }
    {
        mac(&self.drawing, &number.to_be_bytes())
    }
}
